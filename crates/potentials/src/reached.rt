//! What a solver has found for a graph, and for the graphs with fewer arcs.

ghost use Rattle.std.specs.Prelude.{◌≡◌, ◌^◌, ◌≤ℤ◌, pos, None};

use compact_types::{Flow, Items};

/// A flow that balances on the graph of an axis, and its bound, in grid steps.
#[derive(Drop)]
pub(crate) struct Bounded {
    pub(crate) flow: Flow,
    pub(crate) bound: i64,
    pub(crate) ghost low: { pos 0 ≤ℤ bound },
    pub(crate) ghost high: { bound ≤ℤ pos (2 ^ 60) },
}

/// What was found for a graph.
#[derive(Drop)]
pub(crate) struct FoundFlow {
    /// A best flow, once there is one.
    pub(crate) best: Option<Bounded>,
    /// The least numbers that are tight for it, once they were asked for.
    pub(crate) numbers: Option<Items<i64>>,
}

/// What was found before the arc of a choice came.
#[derive(Drop)]
pub(crate) struct Level {
    /// The longest walks, by which the arc can be taken away again.
    pub(crate) walks: Items<u64>,
    pub(crate) reached: FoundFlow,
}

impl FoundFlow {
    /// Nothing yet.
    pub(crate) fn nothing() -> FoundFlow
        ensures best { result.best ≡ None }
        ensures numbers { result.numbers ≡ None }
    {
        FoundFlow {
            best: None,
            numbers: None,
        }
    }
}
