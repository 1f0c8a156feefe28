//! What a seat at the table knows.

use board::Entry;
use compact_types::Shape;

/// What the caller of a seat is doing.
pub(crate) enum Stage {
    /// It gave its pass away.
    Gone,
    /// It is between two turns.
    Idle,
    /// It has drawn a ticket.
    Waiting,
    /// Its ticket is served, and it has the board.
    Serving,
}

/// What a seat knows. No value of it is made. Contracts read an array as a list, of any length.
pub(crate) struct CallerView {
    pub stage: Stage,
    /// How many seats there are, in the one that deals the others out, and else 0.
    pub dealt: u64,
    /// The shape of the board.
    pub shape: Shape,
    /// How many caller numbers the board has given.
    pub given: u64,
    /// The number of the caller.
    pub number: u64,
    /// The history that the caller has seen.
    pub seen: [Entry; 0],
    /// What another caller that gave its pass away had seen.
    pub told: [Entry; 0],
    /// The caller's own entries.
    pub mine: [Entry; 0],
    /// How many turns have ended.
    pub turns: u64,
    /// The ticket that was drawn last.
    pub ticket: u64,
    /// The history of the board as the last turn began.
    pub noted: [Entry; 0],
}
