//! Which nodes of a constraint graph are reached from which, as rows of bits.
//!
//! The layer above relies on `AreRowsOf`: the rows answer exactly whether a path of at least one
//! arc leads from one node to another, and go on to do so when an arc is added.
#![tactic(auto)]

mod adding;
mod bits;
mod buckets;
mod rows;

pub use rows::ReachRows;

#[cfg(test)]
mod tests;
