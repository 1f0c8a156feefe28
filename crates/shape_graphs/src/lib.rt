//! The constraint graphs of a shape: columns with differences in x, rows with differences in y.
//!
//! The layer above relies on the definitions in `specs/`: the two graphs of a list of choices,
//! paths and cycles, which pairs of segments are separated, what a flow on a graph is, and what a
//! measure and its verdicts say.
#![tactic(auto)]

mod cycle;
mod graph;
mod graphs;
mod growing;
mod law;
mod measure;
mod trail;

pub use cycle::{arcs_in_order, find_cycle};
pub use graph::{Arc, Cycle, DiffGraph, GREATEST_LEAST, GREATEST_PULL, MOST_AMOUNT, MOST_ARCS};
pub use graphs::{axis_of_side, graphs_of, side_arc};
pub use growing::{GrowingGraph, GrowingGraphs};
pub use law::{cycles_and_walks, paths_of_arcs, places_by_graphs, solutions_and_cycles};
pub use measure::{Backing, Measure, Verdict, Workspace, least_keys, verdicts_are_exact};

#[cfg(test)]
mod tests;
