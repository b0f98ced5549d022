ghost use Rattle.std.specs.Prelude.{◌≡◌, true, [], ◌∷◌, map, None, OnOk, IfErr};
ghost use Rattle.type_rules.specs.Places.{alias_of, placed, places_of};
ghost use Rattle.type_rules.specs.Written.{IsQuestion};
ghost use Rattle.type_rules.specs.Names.{are_different, item_aliases, names_hold};
ghost use Rattle.type_rules.specs.Kinds.{kinds_hold};
ghost use Rattle.type_rules.specs.Widths.{widths_hold};
ghost use Rattle.type_rules.specs.Fault.{question_fault};

use crate::place::Place;
use crate::rule::Rule;
use crate::rules::{places_bound, places_fit, places_narrow};
use sql_tree::{Select, Table};

// The first rule that a question breaks, if it breaks one. No two of its items have one alias.
pub(crate) fn keep_rules(select: &Select, places: &[Place]) -> Result<(), Rule>
    requires question { IsQuestion select.now }
    requires different { are_different (item_aliases select.now.items) ≡ true }
    requires places { map (λ p. placed p.term.now p.want) places.now ≡ places_of select.now }
    ensures ok { OnOk result (question_fault select.now ≡ None) }
    ensures broken { IfErr result (λ rule. question_fault select.now ≡ Some rule) }
{
    if !names_hold(select, places) {
        return Err(Rule::Name);
    }
    if !kinds_hold(select, places) {
        return Err(Rule::Kind);
    }
    if !widths_hold(select, places) {
        return Err(Rule::Wide);
    }
    Ok(())
}

// Whether a question keeps the rule of names, where no two of its items have one alias.
fn names_hold(select: &Select, places: &[Place]) -> bool
    requires question { IsQuestion select.now }
    requires different { are_different (item_aliases select.now.items) ≡ true }
    requires places { map (λ p. placed p.term.now p.want) places.now ≡ places_of select.now }
    ensures exact { result ≡ names_hold select.now }
{
    let alias = alias(table(select));
    places_bound(places, alias)
}

// Whether a question keeps the rule of kinds.
fn kinds_hold(select: &Select, places: &[Place]) -> bool
    requires places { map (λ p. placed p.term.now p.want) places.now ≡ places_of select.now }
    ensures exact { result ≡ kinds_hold select.now }
{
    places_fit(places)
}

// Whether a question keeps the rule of widths.
fn widths_hold(select: &Select, places: &[Place]) -> bool
    requires question { IsQuestion select.now }
    requires places { map (λ p. placed p.term.now p.want) places.now ≡ places_of select.now }
    ensures exact { result ≡ widths_hold select.now }
{
    places_narrow(places)
}

// The one table of a question.
pub(crate) fn table(select: &Select) -> &Table
    requires { IsQuestion select.now }
    ensures exact { select.now.tables ≡ result.now ∷ [] }
{
    &select.tables.as_slice()[0]
}

// The alias of a table: its collection where it has none.
pub(crate) fn alias(table: &Table) -> &str
    ensures exact { result.now ≡ alias_of table.now }
{
    match &table.alias {
        Some(alias) => alias.text(),
        None => table.collection.text(),
    }
}
