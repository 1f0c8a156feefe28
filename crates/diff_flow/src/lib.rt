//! Flows on graphs of differences, and the numbers that prove them best.
//!
//! The layer above relies on both sides of duality: a balanced flow bounds the length of every
//! solution from below, and a flow with tight numbers is best. `least_tight` finds the least of
//! these numbers, or that there are none. `improve` makes a flow better until it is best, and shows
//! that a best flow of a graph without cycles has tight numbers.
//!
//! A better flow is found from the longest walks: what a flow has on arcs that these leave slack is
//! dropped, and what is then in excess at some nodes is sent along tight arcs to the nodes that
//! lack, while the numbers rise (`route`, `sending`, `search`).
#![tactic(auto)]

mod better;
mod detour;
mod flow;
mod growing;
mod improving;
mod labels;
mod law;
mod leaving;
mod lengthen;
mod network;
mod route;
mod search;
mod sending;
mod slack;
mod steps;
#[cfg(test)]
mod tests;
mod tight;
mod tree;
mod walks;

pub use flow::{balanced, bound, first_flow};
pub use improving::{Improved, improve};
pub use law::{
    amounts_are_low, flows_bound_lengths, least_numbers_have_no_gaps,
    least_numbers_that_meet_an_arc, least_solutions_meet,
};
pub use network::Network;
pub use shape_graphs::MOST_AMOUNT;
pub use tight::least_tight;
