//! The total length as a measure: its solver, and the least places that are tight for two flows.
//!
//! The layer above relies on the laws of `Measure` for the total length, and on `flow_key`, by
//! which a checker sees that two flows prove a verdict. `docs/FLOWS.md` has the method and its
//! sources.
#![tactic(auto)]

mod begin;
mod keys;
mod law;
mod reached;
mod solver;
mod standing;
mod total_length;
mod verdicts;
mod workspace;

pub use keys::{FlowKey, flow_key};
pub use law::{flows_bound_worths, least_key_exists, least_keys_are_low, lengths_by_graphs};
pub use standing::point_of;
pub use total_length::TotalLength;
pub use workspace::FlowWorkspace;

#[cfg(test)]
mod tests;
