ghost use Rattle.std.specs.Prelude.{◌≡◌, List};
ghost use Rattle.reservoir_record.specs.Spelling.{Spells, IsRecord};
ghost use Rattle.reservoir_record.specs.Walking.{left_of};
ghost use Rattle.reservoir_record.specs.declared.fields.Field.{Field};

use crate::reading::count;
use crate::walking::Walk;

/// All fields of the record, by the order of their numbers.
pub fn walk(bytes: &[u8]) -> Walk<'_>
    requires { IsRecord bytes.now }
    ensures exact { (fields : List Field) → Spells fields bytes.now → left_of result ≡ fields }
{
    Walk::new(bytes, count(bytes) as usize)
}
