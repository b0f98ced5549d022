// Laws of tuples.
ghost use Rattle.sinew_laws.specs.Tuples.{GoOnInOrder};

/// Law: with one more table behind others each tuple goes on with each document of that table, the tuples in their order
/// and under each of them the documents in theirs.
pub fn tuples_go_on_in_order()
    ensures { GoOnInOrder }
{}
