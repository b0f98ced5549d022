ghost use Rattle.std.specs.Prelude.{ℕ, ◌≡◌, ◌+◌, ◌<◌, ◌++◌, List, None, length, take, drop, OnOk, OnErr, IfOk};
ghost use Rattle.std.specs.Option.{option_map};
ghost use Rattle.reservoir_record.specs.Spelling.{Spells, IsRecord, spelling};
ghost use Rattle.reservoir_record.specs.Finding.{value_of};
ghost use Rattle.reservoir_record.specs.Editing.{without_field};
ghost use Rattle.reservoir_record.specs.declared.fields.Field.{Field};

use crate::editing::{lower, remove, set_word};
use crate::reading::{count, place_with, value};
use crate::word::word;
use std::alloc::AllocError;
use std::marker::Brand;
use std::sync::ledger::Blank;

/// Takes out the field with a number, and gives its value. Only the value is allocated.
pub fn take(bytes: &mut Vec<u8>, id: u32) -> Result<Option<Vec<u8>>, AllocError>
    requires { IsRecord bytes.old.items }
    ensures ok { OnOk result ((fields : List Field) → Spells fields bytes.old.items → Spells (without_field id fields) bytes.new.items) }
    ensures exact { (fields : List Field) → Spells fields bytes.old.items → IfOk result (λ taken. option_map (λ v. v.items) taken ≡ value_of id fields) }
    ensures kept { (fields : List Field) → Spells fields bytes.old.items → value_of id fields ≡ None → (result ≡ Ok None) × (bytes.new.items ≡ bytes.old.items) }
    ensures memory { OnErr result (bytes.new.items ≡ bytes.old.items) }
{
    let many = count(bytes) as usize;
    match place_with::<Brand>(bytes, id, Blank::new(1)) {
        Ok(place) => {
            let taken = Vec::from_slice(*bytes.allocator(), value(bytes, many, place))?;
            take_at(bytes, place);
            Ok(Some(taken))
        }
        Err(_) => Ok(None),
    }
}

/// Takes out the field at a place.
pub(crate) fn take_at(bytes: &mut Vec<u8>, place: usize)
    requires record_bytes { IsRecord bytes.old.items }
    requires within { (fields : List Field) → Spells fields bytes.old.items → place < length fields }
    ensures exact { (fields : List Field) → Spells fields bytes.old.items → bytes.new.items ≡ spelling (take place fields ++ drop (place + 1) fields) }
{
    let count = count(bytes);
    let many = count as usize;
    let offsets = 4 + 4 * many + 4 * place;
    let start = word(bytes, offsets);
    let len = word(bytes, offsets + 4) - start;
    remove(bytes, 8 + 8 * many + start as usize, len as usize);
    lower(bytes, offsets + 4, many - place, len);
    remove(bytes, offsets, 4);
    remove(bytes, 4 + 4 * place, 4);
    set_word(bytes, 0, count - 1);
}
