//! What a seat at the table knows. No value of these types is made: they stand in contracts alone.
use std::collections::LinkedList;

/// The place of a seat in the queue.
pub enum Stage {
    /// It has no ticket.
    Idle,
    /// It has this ticket, and waits.
    Waiting(u64),
    /// It is at its turn, with this ticket.
    Serving(u64),
    /// It was joined to the first seat, and steps no more.
    Spent,
}

/// What the first seat keeps of a pass that was joined to it.
pub struct Joined {
    pub number: u64,
    pub seen: LinkedList<u64>,
    pub noted: u64,
}

/// What a seat knows.
pub struct View<N> {
    /// The number of its pass.
    pub number: u64,
    /// The state's name, unless the seat is spent.
    pub name: Option<N>,
    pub stage: Stage,
    /// The greatest number of turns that it noted.
    pub noted: u64,
    /// The longest past that it has seen.
    pub seen: LinkedList<u64>,
    /// How many seats were made. Only the first seat knows it.
    pub made: u64,
    /// What the first seat keeps of those that were joined to it.
    pub joined: LinkedList<Joined>,
}
