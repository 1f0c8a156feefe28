//! A board that up to 1,000 callers share, each in its turn.
//!
//! The layer above relies on this. Each call on a pass is answered as the board answers it at one
//! point of one legal history, which begins with all that the pass had seen and has the pass's own
//! entries, each once. Which entries are its own a pass knows, so that it settles what it holds,
//! and is refused memory alone.
#![tactic(auto)]

mod boards;
mod claiming;
mod dealing;
mod meeting;
mod passes;
mod plays;
mod rules;
#[cfg(test)]
mod tests;
mod turns;
mod views;

pub use boards::TicketBoard;
pub use claiming::claim_with_proof;
pub use passes::Pass;
