use crate::held::Held;
use crate::historied::Historied;

/// One turn: the value is the caller's until it leaves. A turn is left, and not let go: the lock would stand still.
pub struct Turn<'a, T: Historied> {
    pub(crate) value: T,
    pub(crate) pass: Held<'a, T>,
}

impl<'a, T: Historied> Turn<'a, T> {
    ghost use Rattle.std.specs.Prelude.{◌≡◌, []};
    ghost use Rattle.std.specs.Borrow.{sem, Lends};
    ghost use Rattle.turn_lock.specs.contracts.turn.Turn.{the_row};
    ghost use Rattle.turn_lock.specs.Turn.{with_value};
    ghost use mir.Syntax.{named};

    /// The value, to read and to write.
    pub fn value(&mut self) -> &mut T
        ensures* writes_back { sem 𝓛 (Lends (the_row (record { mir = named 1; lft = [] }) T.row T.Entry.row T.Historied) T.row self.entry result (with_value self.old)) }
        ensures value { result.now ≡ self.old.value }
    {
        &mut self.value
    }
}
