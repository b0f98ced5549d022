//! One function for each kind of step of a seat. They alone cite the rule, beside the calls that split and join seats.
//!
//! The words of the table are the length of the history, the next caller number, the tickets drawn and those served.
ghost use Rattle.std.specs.Prelude.{◌≡◌, ℕ, ◌+◌, ◌^◌, ◌<◌, ◌⊎◌, true, List, [], ◌∷◌, ◌++◌, length, drop, Option, Some, None, All};
ghost use Rattle.turn_lock.specs.declared.stage.Stage.TheVariants.{Founds, Idle, Called, Holds};
ghost use Rattle.turn_lock.specs.Pass.{Extends, AddsOwn};
ghost use Rattle.turn_lock.specs.Views.{at_stage, drawing, compared, holding, adding};
ghost use Rattle.turn_lock.specs.Steps.{FitsView, IsAt};

use crate::historied::Historied;
use crate::in_turn::InTurn;
use crate::plays::{Add, Compare, Draw, LookUp, Open, PassOn, Queue, Take};
use crate::start::Start;
use crate::view::View;
use atomic_table::{Seat, Shared};
use std::hint::spin_loop;
use std::sync::Wait;

pub(crate) const ENTRIES: usize = 0;

pub(crate) const MADE: usize = 1;

pub(crate) const TICKETS: usize = 2;

pub(crate) const SERVING: usize = 3;

/// How often a waiter looks again before it sleeps.
const SPINS: u32 = 200;

// A sleep compares 32 bits.
const LOW: u64 = 0xffff_ffff;

pub(crate) type Board<T> = Shared<Option<T>, View<<T as Historied>::Entry>, Start<T>, InTurn>;

pub(crate) type Chair<T> = Seat<Option<T>, View<<T as Historied>::Entry>>;

/// Draws a caller number.
pub(crate) fn draw<T: Historied>(board: &Board<T>, seat: &mut Chair<T>) -> u64
    requires at { IsAt board.now.table_id seat.old.table_id }
    requires free { (seat.old.me.0.live ≡ true) × (seat.old.me.0.drawn ≡ None) }
    ensures same { (seat.new.table_id ≡ seat.old.table_id) × (seat.new.id ≡ seat.old.id) }
    ensures drawn { (seat.new.me ≡ (drawing seat.old.me.0 (Some result), seat.old.me.1)) × (seat.old.me.0.caller < result) }
{
    board.fetch_add::<Draw>(seat, MADE, 1)
}

/// The number that is noted, or a new one, which is then noted.
pub(crate) fn number<T: Historied>(
    board: &Board<T>,
    drawn: &mut Option<u64>,
    seat: &mut Chair<T>,
) -> u64
    requires at { IsAt board.now.table_id seat.old.table_id }
    requires noted { (seat.old.me.0.live ≡ true) × (seat.old.me.0.drawn ≡ drawn.old) }
    ensures same { (seat.new.table_id ≡ seat.old.table_id) × (seat.new.id ≡ seat.old.id) }
    ensures noted { (drawn.new ≡ Some result) × (seat.new.me ≡ (drawing seat.old.me.0 (Some result), seat.old.me.1)) }
    ensures past { (drawn.old ≡ Some result) ⊎ ((drawn.old ≡ None) × (seat.old.me.0.caller < result)) }
{
    match *drawn {
        Some(n) => n,
        None => {
            let n = draw(board, seat);
            *drawn = Some(n);
            n
        }
    }
}

/// Compares what two joined seats had seen.
pub(crate) fn compare<T: Historied>(board: &Board<T>, seat: &mut Chair<T>)
    requires at { IsAt board.now.table_id seat.old.table_id }
    requires idle { seat.old.me.0.stage ≡ Idle }
    ensures same { (seat.new.table_id ≡ seat.old.table_id) × (seat.new.id ≡ seat.old.id) }
    ensures compared { seat.new.me ≡ (compared seat.old.me.0, seat.old.me.1) }
    ensures seen { Extends seat.old.me.0.seen (compared seat.old.me.0).seen × Extends seat.old.me.0.beside (compared seat.old.me.0).seen }
{
    let _count = board.load::<Compare>(seat, ENTRIES);
}

/// Draws a ticket, and waits until it is served: looks some times, and then sleeps until a turn is passed on.
pub(crate) fn wait<T: Historied, R: Wait>(rt: &R, board: &Board<T>, seat: &mut Chair<T>)
    requires at { IsAt board.now.table_id seat.old.table_id }
    requires idle { seat.old.me.0.stage ≡ Idle }
    ensures same { (seat.new.table_id ≡ seat.old.table_id) × (seat.new.id ≡ seat.old.id) }
    ensures called { (ticket : ℕ) × (seat.new.me ≡ (at_stage seat.old.me.0 (Called ticket), seat.old.me.1)) }
{
    let ticket = board.fetch_add::<Queue>(seat, TICKETS, 1);
    let mut spins = 0;
    for _ in rt.forever() {
        let serving = board.load::<LookUp>(seat, SERVING);
        if serving == ticket {
            return;
        }
        if spins < SPINS {
            spins += 1;
            spin_loop();
        } else {
            board.park(rt, SERVING, (serving & LOW) as u32);
        }
    }
    unreachable!()
}

/// Takes the value, and the length of its history.
pub(crate) fn take<T: Historied>(board: &Board<T>, seat: &mut Chair<T>) -> (u64, T)
    requires at { IsAt board.now.table_id seat.old.table_id }
    requires called { ((ticket : ℕ) × (seat.old.me.0.stage ≡ Called ticket)) × (seat.old.me.0.live ≡ true) × (seat.old.me.1 ≡ []) }
    ensures same { (seat.new.table_id ≡ seat.old.table_id) × (seat.new.id ≡ seat.old.id) }
    ensures held { (ticket : ℕ) × (seat.new.me ≡ (holding seat.old.me.0 ticket (T.history result.1), (0, None) ∷ [])) }
    ensures fits { FitsView T.caller_of (T.history result.1) seat.old.me.0 }
    ensures count { result.0 ≡ length (T.history result.1) }
{
    let count = board.load::<Take>(seat, ENTRIES);
    let found = board.exchange(seat, 0, None);
    let Some(value) = found else { unreachable!() };
    (count, value)
}

/// The first seat takes the slot, in which nothing is yet.
pub(crate) fn open<T: Historied>(board: &Board<T>, seat: &mut Chair<T>)
    requires at { IsAt board.now.table_id seat.old.table_id }
    requires founds { (seat.old.me.0.stage ≡ Founds) × (seat.old.me.1 ≡ []) }
    ensures same { (seat.new.table_id ≡ seat.old.table_id) × (seat.new.id ≡ seat.old.id) }
    ensures held { (ticket : ℕ) × (seat.new.me ≡ (at_stage seat.old.me.0 (Holds ticket), (0, None) ∷ [])) }
{
    let _count = board.load::<Open>(seat, ENTRIES);
}

/// Puts the value into the slot that the seat has.
pub(crate) fn fill<T: Historied>(board: &Board<T>, seat: &mut Chair<T>, value: T)
    requires at { IsAt board.now.table_id seat.old.table_id }
    requires empty { seat.old.me.1 ≡ (0, None) ∷ [] }
    ensures same { (seat.new.table_id ≡ seat.old.table_id) × (seat.new.id ≡ seat.old.id) }
    ensures full { seat.new.me ≡ (seat.old.me.0, (0, Some value) ∷ []) }
{
    let found = board.exchange(seat, 0, Some(value));
    let None = found else { unreachable!() };
}

/// Puts the value back with what was added to it, counts that, and passes the turn on. Those who sleep are woken where a ticket is out.
pub(crate) fn put_back<T: Historied>(board: &Board<T>, seat: &mut Chair<T>, value: T, added: u64)
    requires at { IsAt board.now.table_id seat.old.table_id }
    requires holds { ((ticket : ℕ) × (seat.old.me.0.stage ≡ Holds ticket)) × (seat.old.me.0.live ≡ true) × (seat.old.me.1 ≡ (0, None) ∷ []) }
    requires short { length (T.history value) < 2 ^ 64 }
    requires own { (new : List T.Entry) × (T.history value ≡ seat.old.me.0.seen ++ new) × All (λ e. T.caller_of e ≡ seat.old.me.0.caller) new × (added ≡ length new) }
    ensures same { (seat.new.table_id ≡ seat.old.table_id) × (seat.new.id ≡ seat.old.id) }
    ensures back { seat.new.me ≡ (at_stage (adding seat.old.me.0 (drop (length seat.old.me.0.seen) (T.history value))) Idle, []) }
{
    fill(board, seat, value);
    let _count = board.fetch_add::<Add>(seat, ENTRIES, added);
    let served = board.fetch_add::<PassOn>(seat, SERVING, 1);
    if board.peek(TICKETS) != served.wrapping_add(1) {
        board.wake_all(SERVING);
    }
}
