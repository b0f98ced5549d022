//! The kinds of step, each with what it tells the seat that makes it.
ghost use Rattle.turn_lock.specs.Steps.{Draws, Compares, Queues, LooksUp, Takes, Adds, PassesOn, Opens};
ghost use Rattle.turn_lock.specs.Views.{divided, divided_off, taken_in, spent};

use crate::historied::Historied;
use crate::view::View;
use atomic_table::{Join, Play, Split};

pub(crate) struct Draw;

impl<T: Historied> Play<Option<T>, View<T::Entry>> for Draw {
    ghost then = { Draws };
}

pub(crate) struct Divide;

impl<E> Split<View<E>> for Divide {
    ghost left = { divided };

    ghost right = { divided_off };
}

pub(crate) struct TakeIn;

impl<E> Join<View<E>> for TakeIn {
    ghost both = { taken_in };

    ghost spent = { spent };
}

pub(crate) struct Compare;

impl<T: Historied> Play<Option<T>, View<T::Entry>> for Compare {
    ghost then = { Compares };
}

pub(crate) struct Queue;

impl<T: Historied> Play<Option<T>, View<T::Entry>> for Queue {
    ghost then = { Queues };
}

pub(crate) struct LookUp;

impl<T: Historied> Play<Option<T>, View<T::Entry>> for LookUp {
    ghost then = { LooksUp };
}

pub(crate) struct Take;

impl<T: Historied> Play<Option<T>, View<T::Entry>> for Take {
    ghost then = { Takes T.history T.caller_of };
}

pub(crate) struct Open;

impl<T: Historied> Play<Option<T>, View<T::Entry>> for Open {
    ghost then = { Opens };
}

pub(crate) struct Add;

impl<T: Historied> Play<Option<T>, View<T::Entry>> for Add {
    ghost then = { Adds T.history };
}

pub(crate) struct PassOn;

impl<T: Historied> Play<Option<T>, View<T::Entry>> for PassOn {
    ghost then = { PassesOn };
}
