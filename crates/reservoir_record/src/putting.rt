ghost use Rattle.std.specs.Prelude.{ℕ, ◌≡◌, ◌+◌, ◌*◌, ◌≤◌, ◌<◌, ◌++◌, List, ◌∷◌, None, length, take, drop, OnOk, OnErr};
ghost use Rattle.std.specs.Vec.{vec_len, vec_capacity};
ghost use Rattle.reservoir_record.specs.Spelling.{Spells, IsRecord, values, spelling};
ghost use Rattle.reservoir_record.specs.Finding.{value_of, FitsAt};
ghost use Rattle.reservoir_record.specs.Editing.{with_field};
ghost use Rattle.reservoir_record.specs.declared.fields.Field.{Field};

use crate::editing::{insert, insert_word, raise, set_word};
use crate::reading::{count, place_with};
use crate::word::word;
use std::alloc::AllocError;
use std::marker::Brand;
use std::sync::ledger::Blank;

/// Puts in a field whose number the record does not have, with one growth at most.
pub fn put(bytes: &mut Vec<u8>, id: u32, value: &[u8]) -> Result<(), AllocError>
    requires record_bytes { IsRecord bytes.old.items }
    requires small { id < 65536 }
    requires absent { (fields : List Field) → Spells fields bytes.old.items → value_of id fields ≡ None }
    requires fit { (fields : List Field) → Spells fields bytes.old.items → length (values fields) + length value.now ≤ 16777216 }
    ensures ok { OnOk result ((fields : List Field) → Spells fields bytes.old.items → Spells (with_field id value.now fields) bytes.new.items) }
    ensures memory { OnErr result (bytes.new.items ≡ bytes.old.items) }
{
    bytes.reserve(8 + value.len())?;
    let place = place_for(bytes, id);
    put_at(bytes, place, id, value);
    Ok(())
}

// Where the number belongs.
fn place_for(bytes: &[u8], id: u32) -> usize
    requires record_bytes { IsRecord bytes.now }
    requires absent { (fields : List Field) → Spells fields bytes.now → value_of id fields ≡ None }
    ensures exact { (fields : List Field) → Spells fields bytes.now → FitsAt bytes.now (length fields) id result }
{
    match place_with::<Brand>(bytes, id, Blank::new(1)) {
        Ok(place) | Err(place) => place,
    }
}

// Puts the field in at a place. There is room for it.
fn put_at(bytes: &mut Vec<u8>, place: usize, id: u32, value: &[u8])
    requires record_bytes { IsRecord bytes.old.items }
    requires within { (fields : List Field) → Spells fields bytes.old.items → place ≤ length fields }
    requires fit { (fields : List Field) → Spells fields bytes.old.items → length (values fields) + length value.now ≤ 16777216 }
    requires room { vec_len bytes.old + (8 + length value.now) ≤ vec_capacity bytes.old }
    ensures exact { (fields : List Field) → Spells fields bytes.old.items → bytes.new.items ≡ spelling (take place fields ++ (record { id = id; bytes = value.now } ∷ drop place fields)) }
{
    let count = count(bytes);
    let many = count as usize;
    let offsets = 4 + 4 * many + 4 * place;
    let start = word(bytes, offsets);
    insert(bytes, 8 + 8 * many + start as usize, value);
    raise(bytes, offsets, many + 1 - place, value.len() as u32);
    insert_word(bytes, offsets, start);
    insert_word(bytes, 4 + 4 * place, id);
    set_word(bytes, 0, count + 1);
}
