//! What the owner of a lane and its passes know of it.

use compact_types::Branch;
use std::collections::LinkedList;

/// A branch that was handed out, and its place: its position, counted from 0, among all branches
/// that were put into the lane.
pub struct Taken {
    pub place: u64,
    pub branch: Branch,
}

/// What the owner of a lane or one of its passes knows. It exists in the proofs alone: no value of
/// it is made.
pub struct LaneView {
    /// What was put into the lane, in order. Only the owner knows of it.
    pub put: LinkedList<Branch>,
    /// What was handed out to this owner or pass, in order.
    pub got: LinkedList<Taken>,
}
