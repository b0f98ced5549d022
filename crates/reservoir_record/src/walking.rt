ghost use Rattle.std.specs.Prelude.{ℕ, ◌≡◌, ◌<◌, ◌≤◌, ◌^◌};
ghost use Rattle.reservoir_record.specs.Words.{IsWholeTable};

use crate::reading::value;
use crate::word::word;

/// The fields of a record in the order of their numbers, each as its number and its value.
#[derive(Drop)]
pub struct Walk<'a> {
    bytes: &'a [u8],
    count: usize,
    place: usize,
    ghost table: { IsWholeTable bytes.now count },
    ghost within: { place ≤ count },
    ghost small: { count < 2 ^ 32 },
}

impl<'a> Walk<'a> {
    ghost use Rattle.std.specs.Prelude.{List};
    ghost use Rattle.reservoir_record.specs.Spelling.{Spells, IsRecord};
    ghost use Rattle.reservoir_record.specs.Walking.{left_of};
    ghost use Rattle.reservoir_record.specs.declared.fields.Field.{Field};

    pub(crate) fn new(bytes: &'a [u8], count: usize) -> Self
        requires table { IsWholeTable bytes.now count }
        requires small { count < 2 ^ 32 }
        ensures exact { (fields : List Field) → Spells fields bytes.now → left_of result ≡ fields }
    {
        Walk {
            bytes,
            count,
            place: 0,
        }
    }
}

impl<'a> Iterator for Walk<'a> {
    ghost use Rattle.std.specs.Iterator.{YieldsFirstBy, item_count};
    ghost use Rattle.reservoir_record.specs.Walking.{left_of, shown};

    type Item = (u32, &'a [u8]);

    ghost next_gives = { YieldsFirstBy shown left_of };

    ghost remaining = { item_count left_of };

    fn next(&mut self) -> Option<(u32, &'a [u8])> {
        if self.place == self.count {
            return None;
        }
        let place = self.place;
        self.place += 1;
        Some((
            word(self.bytes, 4 + 4 * place),
            value(self.bytes, self.count, place),
        ))
    }
}
