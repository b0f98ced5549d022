ghost use Rattle.std.specs.Prelude.{List};
ghost use Rattle.reservoir_record.specs.Spelling.{Spells, IsRecord};
ghost use Rattle.reservoir_record.specs.Editing.{without_field};
ghost use Rattle.reservoir_record.specs.declared.fields.Field.{Field};

use crate::reading::place_with;
use crate::taking::take_at;
use std::marker::Brand;
use std::sync::ledger::Blank;

/// Takes out the field with a number, if there is one. Nothing is allocated.
pub fn remove(bytes: &mut Vec<u8>, id: u32)
    requires { IsRecord bytes.old.items }
    ensures exact { (fields : List Field) → Spells fields bytes.old.items → Spells (without_field id fields) bytes.new.items }
{
    match place_with::<Brand>(bytes, id, Blank::new(1)) {
        Ok(place) => take_at(bytes, place),
        Err(_) => {}
    }
}
