//! The lock.
ghost use Rattle.std.specs.Prelude.{◌≡◌, ℕ, ◌^◌, ◌<◌, ◌≤◌, length, Option, All, IfOk, IfErr};
ghost use Rattle.turn_lock.specs.Pass.{Extends, FitsPass, AddsOwn, Divides, first_pass, after_turn, after_return};

use crate::held::Held;
use crate::historied::Historied;
use crate::in_turn::InTurn;
use crate::pass::Pass;
use crate::plays::{Divide, TakeIn};
use crate::start::Start;
use crate::steps::{compare, number, open, put_back, take, wait};
use crate::turn::Turn;
use crate::view::View;
use atomic_table::Table;
use std::alloc::{AllocError, Global};
use std::marker::Model;
use std::sync::Wait;

/// A value with a history, which callers with passes take in turns.
/// It is closed, and not let go: the value would be lost.
pub struct Lock<T: Historied> {
    pub(crate) table: Table<Option<T>, View<T::Entry>, Start<T>, InTurn, Global>,
    pub(crate) passes: u32,
}

impl<T: Historied> Model for Lock<T> {
    ghost use Rattle.std.specs.Prelude.{◌≡◌};
    ghost use Rattle.turn_lock.specs.Which.{Which};

    ghost Value = { Which };

    ghost view = { λ l. record { id = l.table.shared.table_id; passes = l.passes } };

    ghost invariant = { λ l. (l.table.shared.table_id.words ≡ 4) × (l.table.shared.table_id.slots ≡ 1) × (l.table.shared.key.passes ≡ l.passes) };
}

impl<T: Historied> Lock<T> {
    /// A lock round the value, for at most so many passes, and the first pass, whose caller number is 0.
    pub fn new(alloc: Global, value: T, passes: u32) -> Result<(Lock<T>, Pass<T>), (T, AllocError)>
        requires passes { 0 < passes }
        requires short { length (T.history value) < 2 ^ 64 }
        requires first { All (λ e. T.caller_of e ≡ 0) (T.history value) }
        ensures ok { IfOk result (λ r. (r.0.passes ≡ passes) × (r.1 ≡ first_pass r.0.id (T.history value))) }
        ensures memory { IfErr result (λ r. r.0 ≡ value) }
    {
        let seen = value.entries();
        let start = Start { passes, value };
        match Table::vacant(alloc, &[seen, 1, 1, 0], 1, &start) {
            Ok((table, mut seat)) => {
                let Start { passes: _, value } = start;
                open(&table.shared, &mut seat);
                put_back(&table.shared, &mut seat, value, 0);
                let pass = Pass {
                    caller: 0,
                    seen,
                    drawn: None,
                    seat,
                };
                Ok((Lock { table, passes }, pass))
            }
            Err(fault) => {
                let Start { passes: _, value } = start;
                Err((value, fault))
            }
        }
    }

    /// A pass for a new caller, which has seen what `pass` has seen. Numbers are drawn in order from 1. `None` comes where
    /// the number that this pass drew, now or when it was refused before, is past the last; the pass keeps that number.
    pub fn split(&self, pass: &mut Pass<T>) -> Option<Pass<T>>
        requires lock { pass.old.lock ≡ self.now.id }
        ensures exact { Divides self.now.passes pass.old pass.new result }
    {
        let board = &self.table.shared;
        let caller = number(board, &mut pass.drawn, &mut pass.seat);
        if caller >= u64::from(self.passes) {
            return None;
        }
        let seat = board.split_seat::<Divide>(&mut pass.seat);
        pass.drawn = None;
        Some(Pass {
            caller: caller as u32,
            seen: pass.seen,
            drawn: None,
            seat,
        })
    }

    /// Waits for a turn, which gives the value. Turns come in the order in which they were asked for.
    pub fn enter<R: Wait>(&self, rt: &R, pass: Pass<T>) -> Turn<'_, T>
        requires lock { pass.lock ≡ self.now.id }
        ensures fits { FitsPass T.caller_of (T.history result.value) pass }
        ensures pass { result.pass ≡ record pass { seen = T.history result.value } }
    {
        let Pass {
            caller,
            seen: _,
            drawn,
            mut seat,
        } = pass;
        let board = &self.table.shared;
        wait(rt, board, &mut seat);
        let (seen, value) = take(board, &mut seat);
        let pass = Held {
            lock: self,
            caller,
            seen,
            drawn,
            seat,
        };
        Turn { value, pass }
    }

    /// Ends a turn. The entries that were added are the caller's.
    pub fn leave(turn: Turn<'_, T>) -> Pass<T>
        requires short { length (T.history turn.value) < 2 ^ 64 }
        requires own { AddsOwn T.caller_of (T.history turn.value) turn.pass }
        ensures exact { result ≡ after_turn turn.entry.pass (T.history turn.entry.value) }
    {
        let Turn { value, pass } = turn;
        let Held {
            lock,
            caller,
            seen: before,
            drawn,
            mut seat,
        } = pass;
        let seen = value.entries();
        put_back(&lock.table.shared, &mut seat, value, seen - before);
        Pass {
            caller,
            seen,
            drawn,
            seat,
        }
    }

    /// Ends the other pass. This one has then seen what both had seen, and knows the other's callers and their entries.
    pub fn give_back(&self, pass: &mut Pass<T>, other: Pass<T>)
        requires lock { (pass.old.lock ≡ self.now.id) × (other.lock ≡ self.now.id) }
        ensures exact { pass.new ≡ after_return pass.old other }
        ensures seen { Extends pass.old.seen pass.new.seen × Extends other.seen pass.new.seen }
    {
        let board = &self.table.shared;
        let Pass {
            caller: _,
            seen,
            drawn: _,
            seat,
        } = other;
        board.join_seat::<TakeIn>(&mut pass.seat, seat);
        compare(board, &mut pass.seat);
        pass.seen = pass.seen.max(seen);
    }

    /// Waits for a last turn, and gives the value. Passes that are still out are of no more use.
    pub fn close<R: Wait>(self, rt: &R, pass: Pass<T>) -> T
        requires lock { pass.lock ≡ self.id }
        ensures fits { FitsPass T.caller_of (T.history result) pass }
    {
        let Lock { table, passes: _ } = self;
        let Pass {
            caller: _,
            seen: _,
            drawn: _,
            mut seat,
        } = pass;
        wait(rt, &table.shared, &mut seat);
        let mut closed = table.close_with(seat);
        let found = closed.take(0);
        closed.free();
        let Some(value) = found else { unreachable!() };
        value
    }
}
