//! The rule of the table under a lock.
ghost use Rattle.turn_lock.specs.Rule.{Kept};
ghost use Rattle.turn_lock.specs.Views.{founder};

use crate::historied::Historied;
use crate::start::Start;
use crate::view::View;
use atomic_table::TableRule;

/// The value goes from seat to seat in the order of their tickets, and its history with it.
pub struct InTurn;

impl<T: Historied> TableRule<Option<T>, View<T::Entry>, Start<T>> for InTurn {
    ghost holds = { λ start. Kept T.history T.caller_of start.passes };

    ghost first = { λ start. founder (T.history start.value) };
}
