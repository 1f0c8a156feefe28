//! Cycles of a graph, and its arcs in topological order.

ghost use Rattle.std.specs.Prelude.{◌<◌, ◌≤◌, ℕ, length, slice_index, IfOk, MatchOption};
ghost use Rattle.shape_graphs.specs.Orders.{IsArcOrder};
ghost use Rattle.shape_graphs.specs.Paths.{HasCycle, IsSimpleCycle};
ghost use Rattle.shape_graphs.specs.inner.Trails.{IsRound};

use crate::graph::{Cycle, DiffGraph};
use crate::trail::{OrderOrCycle, search};
use compact_types::{Items, NoMemory};
use std::alloc::Global;

/// A cycle of the graph that passes no node twice and begins with its least arc; `None` exactly
/// where the graph has no cycle. An arc from a node to itself is a cycle. Takes time in
/// proportion to nodes and arcs.
#[tactic(auto, using(crate::proofs::PathLemmas::no_cycle_in_order))]
pub fn find_cycle(alloc: Global, graph: &DiffGraph) -> Result<Option<Cycle>, NoMemory>
    ensures { IfOk result (λ found. MatchOption found
        (HasCycle graph.now.arcs → ⊥)
        (λ cycle. IsSimpleCycle graph.now.arcs cycle.arcs)) }
{
    match search(alloc, graph)? {
        OrderOrCycle::Order(_) => Ok(None),
        OrderOrCycle::Cycle(walk) => {
            let arcs = from_least(alloc, graph, walk.as_slice())?;
            Ok(Some(Cycle { arcs }))
        }
    }
}

/// The numbers of all arcs in topological order: those that end at a node stand before those that
/// begin there. `None` exactly where the graph has a cycle. Takes time in proportion to nodes and
/// arcs.
#[tactic(auto, using(crate::proofs::PathLemmas::cycle_is_one))]
pub fn arcs_in_order(alloc: Global, graph: &DiffGraph) -> Result<Option<Items<u32>>, NoMemory>
    ensures { IfOk result (λ found. MatchOption found
        (HasCycle graph.now.arcs)
        (IsArcOrder graph.now.arcs)) }
{
    match search(alloc, graph)? {
        OrderOrCycle::Order(order) => Ok(Some(order)),
        OrderOrCycle::Cycle(_) => Ok(None),
    }
}

/// The same cycle from its least arc on.
fn from_least(alloc: Global, graph: &DiffGraph, walk: &[u32]) -> Result<Items<u32>, NoMemory>
    requires { IsRound graph.now.arcs walk.now }
    ensures { IfOk result (IsSimpleCycle graph.now.arcs) }
{
    let first = least_place(walk);
    let mut arcs = Items::from_slice(alloc, &walk[first..])?;
    arcs.extend_from_slice(&walk[..first])?;
    Ok(arcs)
}

/// Where the least number stands.
fn least_place(walk: &[u32]) -> usize
    requires { 0 < length walk.now }
    ensures within { result < length walk.now }
    ensures least { (k : ℕ) → k < length walk.now →
        slice_index walk.now result ≤ slice_index walk.now k }
{
    let mut first = 0;
    for k in 1..walk.len() {
        if walk[k] < walk[first] {
            first = k;
        }
    }
    first
}
