//! The branch-and-bound search for the best drawing of a shape.
//!
//! The layer above relies on the answer of a search: the first of all keys of drawings from zero,
//! and a board of the shape that shows why, with no open branch.
#![tactic(auto)]

mod alone;
mod branch;
mod crews;
mod desks;
mod first;
mod gates;
mod hands;
mod life;
mod several;
mod sharing;
mod steps;
#[cfg(test)]
mod tests;
mod turns;

pub use alone::{Best, search_alone};
pub use gates::{Gate, NoGate};
pub use hands::{Hand, Other};
pub use life::work;
pub use several::{MOST_WORKERS, search};
