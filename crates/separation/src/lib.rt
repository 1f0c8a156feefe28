//! Which segments of a shape are kept apart, and that drawings are the solutions in which all are
//! (Klau and Mutzel's complete extensions).
//!
//! The layer above relies on the laws of drawings and complete extensions, and on exact answers to
//! which pairs are separated, which of their sides are open, and at which pair to split.
#![tactic(auto)]

mod branching;
mod candidates;
mod complete;
mod extension;
mod extents;
mod law;
mod sharing;
mod sides;
mod splitting;
mod sweep;
#[cfg(test)]
mod tests;

pub use branching::branch_pair;
pub use complete::is_complete;
pub use extension::extension_of;
pub use law::{
    branch_pairs_are_one, complete_solutions_are_drawings, drawings_are_apart, drawings_take_a_side,
};
pub use sharing::sharing_pair;
pub use sides::{Reach, Sides, is_separated, open_sides, reach_of};
pub use splitting::splitting_pair;
