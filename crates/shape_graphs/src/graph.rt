//! Graphs of differences: each arc asks that its end stands at least so far behind its beginning.

ghost use Rattle.std.specs.Prelude.{◌≡◌, ◌↔◌, ℕ, ◌<◌, ◌≤◌, ◌≤ℤ◌, length, IsTrue, MatchOption};
ghost use Rattle.shape_graphs.specs.declared.graph.TheConstants.{MOST_ARCS};
ghost use Rattle.shape_graphs.specs.Arcs.{EndsAreNodes, AreArcsWithin, AreGraph};
ghost use Rattle.shape_graphs.specs.Arcs.{FitsGraph, IsArcWithin, arc_at};

use compact_types::Items;

/// The most arcs of a graph.
pub const MOST_ARCS: usize = 999_999_999;

/// The greatest difference that an arc may ask for, in grid steps.
pub const GREATEST_LEAST: i64 = 1_000;

/// The greatest pull of an arc.
pub const GREATEST_PULL: i64 = 1_000;

/// The greatest amount of a flow on an arc.
pub const MOST_AMOUNT: u64 = 999_999_999_999_999;

/// That the number of node `to` is at least `least` above that of `from`. The arc counts with
/// `pull` times this difference in the length.
#[derive(Clone, Copy, Debug, PartialEq, Eq)]
pub struct Arc {
    pub from: u32,
    pub to: u32,
    pub least: i64,
    pub pull: i64,
}

/// A constraint graph: nodes numbered from 0, and arcs in a fixed order.
#[derive(Debug, Drop)]
pub struct DiffGraph {
    pub nodes: u32,
    pub arcs: Items<Arc>,
    pub ghost ends: { EndsAreNodes nodes arcs },
    pub ghost few: { length arcs ≤ MOST_ARCS },
    pub ghost within: { AreArcsWithin arcs },
}

/// A closed walk: each of its arcs, by their numbers, ends where the next begins.
#[derive(Debug, Drop)]
pub struct Cycle {
    pub arcs: Items<u32>,
}

impl DiffGraph {
    /// The graph of these arcs; `None` exactly where an arc has an end that is no node, or asks
    /// for or pulls with a number out of bounds, or where there are too many arcs.
    pub fn of(nodes: u32, arcs: Items<Arc>) -> Option<DiffGraph>
        ensures { MatchOption result (AreGraph nodes arcs → ⊥)
            (λ graph. (graph.nodes ≡ nodes) × (graph.arcs ≡ arcs)) }
    {
        if arcs.len() > MOST_ARCS || !all_fit(nodes, arcs.as_slice()) {
            return None;
        }
        Some(DiffGraph { nodes, arcs })
    }
}

/// Whether all arcs fit a graph on so many nodes.
fn all_fit(nodes: u32, arcs: &[Arc]) -> bool
    ensures { IsTrue result
        ↔ ((i : ℕ) → i < length arcs.now → FitsGraph nodes (arc_at arcs.now i)) }
{
    for i in 0..arcs.len() {
        if !fits(nodes, arcs[i]) {
            return false;
        }
    }
    true
}

/// Whether the arc fits a graph on so many nodes.
fn fits(nodes: u32, arc: Arc) -> bool
    ensures { IsTrue result ↔ FitsGraph nodes arc }
{
    ends_fit(nodes, arc) && is_within(arc)
}

/// Whether both ends are nodes.
fn ends_fit(nodes: u32, arc: Arc) -> bool
    ensures { IsTrue result ↔ ((arc.from < nodes) × (arc.to < nodes)) }
{
    arc.from < nodes && arc.to < nodes
}

/// Whether the arc asks and pulls within the bounds.
fn is_within(arc: Arc) -> bool
    ensures { IsTrue result ↔ IsArcWithin arc }
{
    is_between(1, arc.least, GREATEST_LEAST) && is_between(0, arc.pull, GREATEST_PULL)
}

/// Whether `z` is one of the numbers from `low` to `high`.
fn is_between(low: i64, z: i64, high: i64) -> bool
    ensures { IsTrue result ↔ ((low ≤ℤ z) × (z ≤ℤ high)) }
{
    low <= z && z <= high
}
