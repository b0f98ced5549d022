ghost use Rattle.std.specs.Prelude.{◌≡◌, ◌≤◌, All, Some, filter, length, take};
ghost use Rattle.row_columns.specs.Lent.{owned};
ghost use Rattle.row_columns.specs.Placed.{tuple_at};
ghost use Rattle.sql_eval.specs.Operators.{comparison};
ghost use Rattle.sql_eval.specs.Resolved.{cell_at, value_over};
ghost use Rattle.sql_eval.specs.Truth.{truth_of};
ghost use Rattle.sql_eval.specs.Widths.{CanEvaluate};
ghost use Rattle.exec_join.specs.Filter.{filtered, keeps};

use sql_eval::{ColumnTest, Expr, Place, Sides, TableRows, Truth, Tuples, truth};

/// The tuples of which a test is true, in their order. No memory is taken.
pub fn filter(test: &Expr, tuples: Tuples) -> Tuples
    requires { All (λ tuple. CanEvaluate tuple test.now) tuples }
    ensures exact { result ≡ filtered test.now tuples }
{
    let (tables, mut places) = tuples.into_parts();
    keep(test, &tables, &mut places);
    Tuples::new(tables, places)
}

// The places that a test keeps, in their order.
fn keep(test: &Expr, tables: &[TableRows], places: &mut Vec<Place>)
    requires { All (λ place. CanEvaluate (tuple_at tables.now place) test.now) places.old.items }
    ensures exact { places.new.items ≡ filter (λ place. keeps (truth_of (value_over (tuple_at tables.now place) test.now))) places.old.items }
{
    let kept = kept_in_front(test, tables, places);
    places.truncate(kept);
}

// Moves the places that a test keeps to the front, in their order, and answers how many they are.
fn kept_in_front(test: &Expr, tables: &[TableRows], places: &mut [Place]) -> usize
    requires { All (λ place. CanEvaluate (tuple_at tables.now place) test.now) places.old }
    ensures exact { take result places.new ≡ filter (λ place. keeps (truth_of (value_over (tuple_at tables.now place) test.now))) places.old }
{
    match ColumnTest::of(test) {
        Some(test) => kept_by_column(test, tables, places),
        None => kept_by_any(test, tables, places),
    }
}

// The same by a comparison of a column.
fn kept_by_column<'a>(test: ColumnTest<'a>, tables: &'a [TableRows], places: &mut [Place]) -> usize
    ensures exact { take result places.new ≡ filter (λ place. keeps (comparison test.entry.op (cell_at (tuple_at tables.now place) test.entry.slot) (Some (owned test.entry.literal)))) places.old }
{
    let mut kept = 0;
    for i in 0..places.len() {
        let place = places[i];
        if let Truth::True = test.truth(&Sides::new(tables, place)) {
            places[kept] = place;
            kept += 1;
        }
    }
    kept
}

// The same by any test.
fn kept_by_any(test: &Expr, tables: &[TableRows], places: &mut [Place]) -> usize
    requires { All (λ place. CanEvaluate (tuple_at tables.now place) test.now) places.old }
    ensures exact { take result places.new ≡ filter (λ place. keeps (truth_of (value_over (tuple_at tables.now place) test.now))) places.old }
{
    let mut kept = 0;
    for i in 0..places.len() {
        let place = places[i];
        if let Truth::True = truth(test, &Sides::new(tables, place)) {
            places[kept] = place;
            kept += 1;
        }
    }
    kept
}
