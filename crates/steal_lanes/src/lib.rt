//! Lanes: first in, first out deques of waiting branches, each with one owner, who puts and takes,
//! and with thieves that take the first branch from any thread.
//!
//! The layer above relies on the definitions in `specs/`: the history of a lane, which is all
//! branches that were put into it, in order, and the number of those that were handed out; and the
//! rule of a lane, which holds between any two steps of any threads. By it each place below that
//! number was got by exactly one of the owner and the passes, ended passes among them, and with it
//! the branch that was put there. Each call says what its owner or pass learns: the place and the
//! branch that it got, or why it got none. No call waits for another thread.
#![tactic(auto)]

mod lanes;
mod law;
mod passes;
mod rules;
#[cfg(test)]
mod tests;
mod thieves;
mod views;

pub use lanes::Lane;
pub use law::{lanes_are_queues, places_are_got_once};
pub use passes::LanePass;
pub use thieves::{Stolen, Thief};
pub use views::{LaneView, Taken};
