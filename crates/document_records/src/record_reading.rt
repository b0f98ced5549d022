ghost use Rattle.std.specs.Prelude.{◌≡◌, option_map};
ghost use Rattle.doc_values.specs.Lent.{owned};
ghost use Rattle.document_records.specs.ReadBack.{value_of_kind as value_of_one, value_under as value_found, IsReadable, CanBeRead};

use crate::record::Record;
use crate::stored_value::read_lent;
use attr_catalog::Kinds;
use doc_values::{AttrId, Kind, ValueRef};

/// The value that a record has under a name, of whichever kind it is; lent from its bytes. It is looked for at a guessed
/// place first, which is then the place where it stands.
pub fn value_under<'a>(kinds: &Kinds, stored: &'a Record, guess: &mut u32) -> Option<ValueRef<'a>>
    requires { CanBeRead kinds.now stored.now }
    ensures exact { option_map owned result ≡ value_found kinds.now stored.now }
{
    if let Some(value) = value_of_kind(Kind::Bool, kinds.bool_id, stored, guess) {
        return Some(value);
    }
    if let Some(value) = value_of_kind(Kind::Int, kinds.int_id, stored, guess) {
        return Some(value);
    }
    if let Some(value) = value_of_kind(Kind::Text, kinds.text_id, stored, guess) {
        return Some(value);
    }
    if let Some(value) = value_of_kind(Kind::Array, kinds.array_id, stored, guess) {
        return Some(value);
    }
    value_of_kind(Kind::Object, kinds.object_id, stored, guess)
}

/// The value of one kind, lent from its bytes. It is looked for at a guessed place first, which is then the place where it
/// stands.
pub fn value_of_kind<'a>(
    kind: Kind,
    id: Option<AttrId>,
    stored: &'a Record,
    guess: &mut u32,
) -> Option<ValueRef<'a>>
    requires { IsReadable kind id stored.now }
    ensures exact { option_map owned result ≡ value_of_one kind id stored.now }
{
    let Some(id) = id else {
        return None;
    };
    let Some((place, bytes)) = stored.find_near(id.0, *guess) else {
        return None;
    };
    *guess = place;
    Some(read_lent(kind, bytes))
}
