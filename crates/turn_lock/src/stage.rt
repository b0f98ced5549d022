/// How far a seat is with its turn. No value of it is made: it stands in proofs alone.
pub enum Stage {
    /// The first seat of a lock, which has yet to put the value into the slot. It has the first ticket.
    Founds,
    /// No ticket.
    Idle,
    /// Has this ticket, and waits.
    Waits(u64),
    /// Has found that it is this ticket's turn.
    Called(u64),
    /// Has this ticket, and the slot.
    Holds(u64),
}
