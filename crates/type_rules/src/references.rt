ghost use Rattle.std.specs.Prelude.{◌≡◌, [], ◌∷◌, map};
ghost use Rattle.std.specs.List.{list_all};
ghost use Rattle.type_rules.specs.Names.{is_bound, every_ref, every_ref_in};

use sql_tree::{Addend, Ref, Term};

// Whether each reference of a term is to the one table with this alias.
#[cycle(references)]
pub(crate) fn all_bound(term: &Term, alias: &str) -> bool
    ensures exact { result ≡ every_ref (is_bound (alias.now ∷ [])) term.now }
{
    match term {
        Term::Number(_) | Term::Text(_) | Term::Bool(_) | Term::Null | Term::CountAll => true,
        Term::Column(column) => is_bound(column, alias),
        Term::Wanted { column, .. } => is_bound(column, alias),
        Term::Or(members) => members_bound(members.as_slice(), alias),
        Term::And(members) => members_bound(members.as_slice(), alias),
        Term::Product(members) => members_bound(members.as_slice(), alias),
        Term::Sum(members) => addends_bound(members.as_slice(), alias),
        Term::Not(arg) => all_bound(arg.get(), alias),
        Term::Minus(arg) => all_bound(arg.get(), alias),
        Term::IsNull { arg, .. } => all_bound(arg.get(), alias),
        Term::Like { arg, .. } => all_bound(arg.get(), alias),
        Term::Aggregate { arg, .. } => all_bound(arg.get(), alias),
        Term::AnyOf { arg, column } => all_bound(arg.get(), alias) && is_bound(column, alias),
        Term::Compare { left, right, .. } => {
            all_bound(left.get(), alias) && all_bound(right.get(), alias)
        }
        Term::Among { arg, members, .. } => {
            all_bound(arg.get(), alias) && members_bound(members.as_slice(), alias)
        }
        Term::Between { arg, low, high, .. } => {
            all_bound(arg.get(), alias)
                && all_bound(low.get(), alias)
                && all_bound(high.get(), alias)
        }
    }
}

// The same of several terms.
#[cycle(references)]
fn members_bound(members: &[Term], alias: &str) -> bool
    ensures exact { result ≡ list_all (λ p. p) (map (every_ref (is_bound (alias.now ∷ []))) members.now) }
{
    for member in members {
        if !all_bound(member, alias) {
            return false;
        }
    }
    true
}

// The same of the members of a sum.
#[cycle(references)]
fn addends_bound(members: &[Addend], alias: &str) -> bool
    ensures exact { result ≡ list_all (λ p. p) (map (every_ref_in (is_bound (alias.now ∷ []))) members.now) }
{
    for member in members {
        if !all_bound(&member.term, alias) {
            return false;
        }
    }
    true
}

// Whether a reference is to the one table with this alias.
fn is_bound(column: &Ref, alias: &str) -> bool
    ensures exact { result ≡ is_bound (alias.now ∷ []) column.now }
{
    match &column.qualifier {
        Some(qualifier) => qualifier.text() == alias,
        None => true,
    }
}
