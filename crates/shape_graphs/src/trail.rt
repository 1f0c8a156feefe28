//! A walk against the arcs, which leaves a node once all arcs into it were passed. It finds a
//! topological order of the arcs, or meets a node of the walk again.

ghost use Rattle.std.specs.Prelude.{◌≡◌, ◌<◌, ◌-◌, ◌++◌, [], ◌∷◌, length, replicate, slice_set};
ghost use Rattle.std.specs.Prelude.{take, IfOk, MatchOption, OnOk};
ghost use Rattle.shape_graphs.specs.inner.Trails.{AreLinked, AreLast, IsTrail, AreLeftTo};
ghost use Rattle.shape_graphs.specs.inner.Trails.{IsTrailStep, IsMet, IsRound, IsOrderOrCycle};

use crate::graph::DiffGraph;
use compact_types::{Items, NoMemory};
use std::alloc::Global;

/// What the search ends with: all arcs, in topological order, or a cycle that passes no node twice.
#[derive(Drop)]
pub(crate) enum OrderOrCycle {
    Order(Items<u32>),
    Cycle(Items<u32>),
}

/// What is known of a node.
#[derive(Clone, Copy)]
enum Mark {
    /// It was not met yet.
    Fresh,
    /// It is on the walk.
    Walked,
    /// All arcs into it were passed.
    Left,
}

/// How far the search has come.
#[derive(Drop)]
struct Trail {
    /// For each node the arc into it that is at hand, by its number and 1, or 0 where all were
    /// passed.
    next: Items<u32>,
    marks: Items<Mark>,
    /// The nodes of the walk: the arc at hand of each begins at the one after it.
    walk: Items<u32>,
    /// The arcs that were passed: each begins at a node that was left.
    passed: Items<u32>,
}

/// All arcs of the graph in topological order, or a cycle.
pub(crate) fn search(alloc: Global, graph: &DiffGraph) -> Result<OrderOrCycle, NoMemory>
    ensures { IfOk result (IsOrderOrCycle graph.now.arcs) }
{
    let (last, before) = arcs_into(alloc, graph)?;
    let mut trail = Trail {
        next: last,
        marks: all_fresh(alloc, graph.nodes)?,
        walk: Items::from_vec(Vec::with_capacity(alloc, graph.nodes as usize)?),
        passed: Items::from_vec(Vec::with_capacity(alloc, graph.arcs.len())?),
    };
    for start in 0..graph.nodes {
        if let Some(met) = walk_from(graph, before.as_slice(), &mut trail, start)? {
            return Ok(OrderOrCycle::Cycle(round(alloc, graph, &trail, met)?));
        }
    }
    Ok(OrderOrCycle::Order(trail.passed))
}

/// For each node the last arc into it, and for each arc the one before it that ends at the same
/// node.
fn arcs_into(alloc: Global, graph: &DiffGraph) -> Result<(Items<u32>, Items<u32>), NoMemory>
    ensures last { IfOk result (λ rows.
        AreLast graph.now.nodes graph.now.arcs (length graph.now.arcs) rows.0) }
    ensures before { IfOk result (λ rows.
        AreLinked graph.now.arcs (length graph.now.arcs) rows.1) }
{
    let arcs = graph.arcs.as_slice();
    let mut last = Items::from_vec(vec![in alloc; 0u32; graph.nodes as usize]?);
    let mut before = Items::from_vec(Vec::with_capacity(alloc, arcs.len())?);
    for i in 0..arcs.len() {
        let node = arcs[i].to as usize;
        before.push(last.as_slice()[node])?;
        last.set(node, i as u32 + 1);
    }
    Ok((last, before))
}

/// No node was met yet.
fn all_fresh(alloc: Global, nodes: u32) -> Result<Items<Mark>, NoMemory>
    ensures { IfOk result (λ marks. marks ≡ replicate nodes Mark.Fresh) }
{
    Ok(Items::from_vec(vec![in alloc; Mark::Fresh; nodes as usize]?))
}

/// Walks from `start` until all nodes of the walk were left, or one of them is met again.
fn walk_from(
    graph: &DiffGraph,
    before: &[u32],
    trail: &mut Trail,
    start: u32,
) -> Result<Option<u32>, NoMemory>
    requires linked { AreLinked graph.now.arcs (length graph.now.arcs) before.now }
    requires trail { IsTrail graph.now.nodes graph.now.arcs trail.old }
    requires none { trail.old.walk ≡ [] }
    requires is_node { start < graph.now.nodes }
    ensures left { IfOk result (λ met. MatchOption met
        (AreLeftTo graph.now.nodes graph.now.arcs trail.old trail.new start)
        (IsMet graph.now.nodes graph.now.arcs trail.new)) }
{
    match trail.marks.as_slice()[start as usize] {
        Mark::Fresh => {}
        Mark::Left => return Ok(None),
        // The walk has no node yet.
        Mark::Walked => unreachable!(),
    }
    trail.enter(start)?;
    while !trail.walk.is_empty() {
        if let Some(met) = step(graph, before, trail)? {
            return Ok(Some(met));
        }
    }
    Ok(None)
}

/// Goes on from the last node of the walk: the arc at hand is passed where it begins at a node
/// that was left, and followed where it begins at a fresh one. Without an arc at hand the node is
/// left.
fn step(graph: &DiffGraph, before: &[u32], trail: &mut Trail) -> Result<Option<u32>, NoMemory>
    requires linked { AreLinked graph.now.arcs (length graph.now.arcs) before.now }
    requires trail { IsTrail graph.now.nodes graph.now.arcs trail.old }
    requires some { 0 < length trail.old.walk }
    ensures { IfOk result (λ met. MatchOption met
        (IsTrailStep graph.now.nodes graph.now.arcs trail.old trail.new)
        (IsMet graph.now.nodes graph.now.arcs trail.new)) }
{
    let walk = trail.walk.as_slice();
    let node = walk[walk.len() - 1];
    let entry = trail.next.as_slice()[node as usize];
    if entry == 0 {
        trail.leave(node);
        return Ok(None);
    }
    let arc = entry - 1;
    let from = graph.arcs.as_slice()[arc as usize].from;
    match trail.marks.as_slice()[from as usize] {
        Mark::Left => {
            trail.pass(node, arc, before[arc as usize])?;
            Ok(None)
        }
        Mark::Fresh => {
            trail.enter(from)?;
            Ok(None)
        }
        Mark::Walked => Ok(Some(from)),
    }
}

impl Trail {
    /// Puts `node` at the end of the walk.
    fn enter(&mut self, node: u32) -> Result<(), NoMemory>
        requires { node < length self.old.marks }
        ensures { OnOk result (self.new ≡ record self.old {
          marks = slice_set self.old.marks node Mark.Walked;
          walk = self.old.walk ++ node ∷ [];
        }) }
    {
        self.walk.push(node)?;
        self.marks.set(node as usize, Mark::Walked);
        Ok(())
    }

    /// Takes `node`, the last of the walk, off it.
    fn leave(&mut self, node: u32)
        requires { node < length self.old.marks }
        ensures { self.new ≡ record self.old {
          marks = slice_set self.old.marks node Mark.Left;
          walk = take (length self.old.walk - 1) self.old.walk;
        } }
    {
        self.walk.pop();
        self.marks.set(node as usize, Mark::Left);
    }

    /// Passes the arc at hand of `node`: next is the one of entry `next`.
    fn pass(&mut self, node: u32, arc: u32, next: u32) -> Result<(), NoMemory>
        requires { node < length self.old.next }
        ensures { OnOk result (self.new ≡ record self.old {
          next = slice_set self.old.next node next;
          passed = self.old.passed ++ arc ∷ [];
        }) }
    {
        self.passed.push(arc)?;
        self.next.set(node as usize, next);
        Ok(())
    }
}

/// The cycle that the arcs at hand make from the last node of the walk down to `met`.
fn round(alloc: Global, graph: &DiffGraph, trail: &Trail, met: u32) -> Result<Items<u32>, NoMemory>
    requires { IsMet graph.now.nodes graph.now.arcs trail.now met }
    ensures { IfOk result (IsRound graph.now.arcs) }
{
    let walk = trail.walk.as_slice();
    let next = trail.next.as_slice();
    let mut arcs = Items::from_vec(Vec::with_capacity(alloc, walk.len())?);
    let mut k = walk.len();
    while k > 0 {
        k -= 1;
        arcs.push(next[walk[k] as usize] - 1)?;
        if walk[k] == met {
            return Ok(arcs);
        }
    }
    // The node that is met again is one of the walk.
    unreachable!()
}
