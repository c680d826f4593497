//! What the proof knows of each pass. No value of these types is made.
use std::collections::LinkedList;

/// The step at which a pass is.
pub enum Stage<E> {
    /// It holds no ticket.
    Idle,
    /// It holds this ticket.
    Waits(u64),
    /// It has the turn with this ticket, and took out a value with these entries.
    Serves(u64, LinkedList<E>),
    /// It has the turn with this ticket, and has seen all entries.
    Learnt(u64),
}

/// What a pass knows. A pass that was joined to another has no base.
pub struct View<B, E> {
    pub stage: Stage<E>,
    /// The entries as the pass last saw them.
    pub seen: LinkedList<E>,
    /// The shorter of the two lists that met in the last join.
    pub met: LinkedList<E>,
    /// The indices of its own entries, counted from 0.
    pub mine: LinkedList<u64>,
    /// The base of the value.
    pub base: Option<B>,
    /// The number of entries at `start`.
    pub first: u64,
    pub shares: u64,
}
