//! The least worth of all drawings that the workers of a search have found, and the word that stops
//! them: both are read and written by every worker, without a lock.
//!
//! The layer above relies on the definitions in `specs/`. A worker has a seat. What it reads is the
//! worth of some drawing of the shape, and at most everything that its seat has read, offered or
//! taken over from another seat. It is told to stop only if a seat has called a halt, and is told
//! to go on only if a load in that very call found that no seat had. `Words` says what is true of
//! both words between any two steps, and `Views` what a seat knows and how each step changes it.
#![tactic(auto)]

mod law;
mod rule;
#[cfg(test)]
mod tests;
mod view;
mod word;
mod words;

pub use law::{knowledge_is_kept, what_steps_find};
pub use word::{LeastWord, WordSeat};
pub use words::GREATEST_WORTH;
