use crate::stage::Stage;
use std::collections::LinkedList;

/// What a seat knows. No value of it is made: it stands in proofs alone.
pub struct View<E> {
    /// False of a seat that was given back.
    pub live: bool,
    pub caller: u32,
    /// The number that was drawn for a split, and not yet given to a new seat.
    pub drawn: Option<u64>,
    pub seen: LinkedList<E>,
    /// What a seat that was given back had seen, until both are compared.
    pub beside: LinkedList<E>,
    pub mine: LinkedList<E>,
    pub others: LinkedList<(u32, LinkedList<E>)>,
    pub stage: Stage,
}
