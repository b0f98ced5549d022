// A tree that is kept as its text: its numbers and its depth.
ghost use Rattle.std.specs.Prelude.{◌≡◌, true, false, IfOk, OnOk, Err};
ghost use Rattle.serde_json.specs.Written.{compact_text};
ghost use Rattle.serde_json.specs.View.{view, items_view, members_view};
ghost use Rattle.doc_flatten.specs.Walk.{is_plain, items_are_plain, members_are_plain};

use crate::flatten_fault::FlattenFault;
use doc_values::Utf;
use serde_json::{Map, Value as Json};
use std::alloc::Global;

// The compact text of a tree that nests no deeper than so many levels.
pub(crate) fn compact_text(alloc: Global, tree: &Json, levels: u8) -> Result<Utf, FlattenFault>
    ensures ok { IfOk result (λ text. text ≡ compact_text (view tree.now)) }
    ensures admitted { OnOk result (is_plain levels (view tree.now) ≡ true) }
    ensures excluded { result ≡ Err FlattenFault.Excluded
        → is_plain levels (view tree.now) ≡ false }
{
    if !is_plain(tree, levels) {
        return Err(FlattenFault::Excluded);
    }
    Ok(Utf::from(tree.to_string(alloc)?))
}

#[cycle(plain)]
fn is_plain(tree: &Json, levels: u8) -> bool
    ensures exact { result ≡ is_plain levels (view tree.now) }
{
    match tree {
        Json::Number(number) => number.as_i64().is_some(),
        Json::Array(items) => levels > 0 && items_are_plain(items, levels - 1),
        Json::Object(members) => levels > 0 && members_are_plain(members, levels - 1),
        Json::Null | Json::Bool(_) | Json::String(_) => true,
    }
}

#[cycle(plain)]
fn items_are_plain(items: &[Json], levels: u8) -> bool
    ensures exact { result ≡ items_are_plain levels (items_view items.now) }
{
    for item in items {
        if !is_plain(item, levels) {
            return false;
        }
    }
    true
}

#[cycle(plain)]
fn members_are_plain(members: &Map<String, Json>, levels: u8) -> bool
    ensures exact { result ≡ members_are_plain levels (members_view members.now.entries) }
{
    for member in members.values() {
        if !is_plain(member, levels) {
            return false;
        }
    }
    true
}
