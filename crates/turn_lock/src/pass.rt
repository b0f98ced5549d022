//! What a caller has.
ghost use Rattle.std.specs.Prelude.{◌≡◌, length};

use crate::historied::Historied;
use crate::view::View;
use atomic_table::Seat;
use std::marker::Model;

/// A caller's right to take turns, one at a time, at one lock.
/// It may be dropped: that caller takes no more turns.
#[derive(Drop)]
pub struct Pass<T: Historied> {
    pub(crate) caller: u32,
    pub(crate) seen: u64,
    pub(crate) drawn: Option<u64>,
    pub(crate) seat: Seat<Option<T>, View<T::Entry>>,
}

impl<T: Historied> Model for Pass<T> {
    ghost use Rattle.std.specs.Prelude.{◌≡◌, []};
    ghost use Rattle.turn_lock.specs.declared.stage.Stage.TheVariants.{Idle};
    ghost use Rattle.turn_lock.specs.Pass.{Known};
    ghost use Rattle.turn_lock.specs.Steps.{known_of, IsNumbered};

    ghost Value = { Known T.Entry };

    ghost view = { λ p. known_of p.seat.table_id p.seat.me.0 };

    ghost invariant = { λ p. IsNumbered p.seat.me.0 p.caller p.seen p.drawn × (p.seat.me.0.stage ≡ Idle) × (p.seat.me.1 ≡ []) };
}

impl<T: Historied> Pass<T> {
    /// The caller number.
    pub fn caller(&self) -> u32
        ensures { result ≡ self.now.caller }
    {
        self.caller
    }

    /// The length of the list that it has seen.
    pub fn seen(&self) -> u64
        ensures { result ≡ length self.now.seen }
    {
        self.seen
    }
}
