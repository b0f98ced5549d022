use crate::historied::Historied;
use crate::lock::Lock;
use crate::view::View;
use atomic_table::Seat;
use std::marker::Model;

/// A pass during its turn, with the lock whose slot it holds. Contracts see it as they see a pass.
pub struct Held<'a, T: Historied> {
    pub(crate) lock: &'a Lock<T>,
    pub(crate) caller: u32,
    pub(crate) seen: u64,
    pub(crate) drawn: Option<u64>,
    pub(crate) seat: Seat<Option<T>, View<T::Entry>>,
}

impl<'a, T: Historied> Model for Held<'a, T> {
    ghost use Rattle.std.specs.Prelude.{◌≡◌, ℕ, None, [], ◌∷◌};
    ghost use Rattle.turn_lock.specs.declared.stage.Stage.TheVariants.{Holds};
    ghost use Rattle.turn_lock.specs.Pass.{Known};
    ghost use Rattle.turn_lock.specs.Steps.{known_of, IsNumbered};

    ghost Value = { Known T.Entry };

    ghost view = { λ h. known_of h.seat.table_id h.seat.me.0 };

    ghost invariant = { λ h. IsNumbered h.seat.me.0 h.caller h.seen h.drawn × ((ticket : ℕ) × (h.seat.me.0.stage ≡ Holds ticket)) × (h.seat.me.1 ≡ (0, None) ∷ []) × (h.seat.table_id ≡ h.lock.now.id) };
}
