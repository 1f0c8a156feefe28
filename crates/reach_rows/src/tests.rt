//! Rows of small graphs, and of chains whose rows end on either side of a word's end.

ghost use Rattle.std.specs.Prelude.{◌≡◌, ◌<◌, ◌≤ℤ◌, ◌-ℤ◌, length, IsTrue, IfOk};
ghost use Rattle.shape_graphs.specs.Flows.{IsSolution, number_at};

use crate::ReachRows;
use compact_types::Items;
use shape_graphs::{Arc, DiffGraph};
use std::alloc::Global;
use std::test::Fail;

/// The graph of arcs with these ends.
fn graph_of(alloc: Global, nodes: u32, ends: &[(u32, u32)]) -> Result<DiffGraph, Fail>
    ensures { IfOk result (λ graph. graph.nodes ≡ nodes) }
{
    let mut arcs = Items::new(alloc);
    for &(from, to) in ends {
        push_arc(&mut arcs, from, to)?;
    }
    Ok(DiffGraph::of(nodes, arcs).ok_or("no graph")?)
}

fn push_arc(arcs: &mut Items<Arc>, from: u32, to: u32) -> Result<(), Fail> {
    arcs.push(Arc {
        from,
        to,
        least: 1,
        pull: 0,
    })
    .ok()
    .ok_or("memory")?;
    Ok(())
}

/// The graph with an arc from each of the nodes to the next, but none to this one.
fn chains(alloc: Global, nodes: u32, second: u32) -> Result<DiffGraph, Fail>
    ensures { IfOk result (λ graph. graph.nodes ≡ nodes) }
{
    let mut arcs = Items::new(alloc);
    for node in 1..nodes {
        if node != second {
            push_arc(&mut arcs, node - 1, node)?;
        }
    }
    Ok(DiffGraph::of(nodes, arcs).ok_or("no graph")?)
}

/// Whether each node reaches exactly those after it, of the two chains or of one from 0 on.
fn are_chains(rows: &ReachRows, nodes: u32, second: u32) -> bool
    requires { rows.now.nodes ≡ nodes }
{
    for a in 0..nodes {
        for b in 0..nodes {
            let is_behind = a < b && (b < second || second <= a);
            if rows.reaches(a, b) != is_behind {
                return false;
            }
        }
    }
    true
}

/// Whether two chains of half the nodes each are two, are one once they are joined, and every node
/// is reached from either end once that is closed.
fn chains_hold(mut rows: ReachRows, nodes: u32) -> bool
    requires nodes { rows.nodes ≡ nodes }
    requires some { 0 < nodes }
{
    let (second, last) = (nodes / 2, nodes - 1);
    let apart = are_chains(&rows, nodes, second);
    if second > 0 {
        rows.add_arc(second - 1, second);
    }
    let joined = are_chains(&rows, nodes, 0);
    rows.add_arc(last, 0);
    let closed = rows.reaches(0, 0) && rows.reaches(last, last) && rows.reaches(last, 0);
    apart && joined && closed
}

/// The rows of the graph by numbers that grow by `step` from node to node, from `first` on.
fn numbered(alloc: Global, graph: &DiffGraph, first: i64, step: i64) -> Result<ReachRows, Fail>
    ensures { IfOk result (λ rows. rows.nodes ≡ graph.now.nodes) }
{
    let mut numbers = Items::new(alloc);
    for node in 0..graph.nodes {
        let number = first.saturating_add(step.saturating_mul(i64::from(node)));
        numbers.push(number).ok().ok_or("memory")?;
    }
    if !solve(graph, numbers.as_slice()) {
        return Err("no solution".into());
    }
    Ok(
        ReachRows::by_numbers(alloc, graph, numbers.as_slice())
            .ok()
            .ok_or("memory")?,
    )
}

/// Whether the numbers solve the graph.
fn solve(graph: &DiffGraph, numbers: &[i64]) -> bool
    requires { length numbers.now ≡ graph.now.nodes }
    ensures { IsTrue result → IsSolution graph.now.arcs (number_at numbers.now) }
{
    let arcs = graph.arcs.as_slice();
    for i in 0..arcs.len() {
        if !meet(arcs[i], numbers) {
            return false;
        }
    }
    true
}

/// Whether the numbers meet the arc.
fn meet(arc: Arc, numbers: &[i64]) -> bool
    requires begins { arc.from < length numbers.now }
    requires ends { arc.to < length numbers.now }
    ensures { IsTrue result → arc.least ≤ℤ
        (number_at numbers.now arc.to -ℤ number_at numbers.now arc.from) }
{
    match numbers[arc.from as usize].checked_add(arc.least) {
        Some(least) => least <= numbers[arc.to as usize],
        None => false,
    }
}

#[test]
fn chains_of_any_length(rt: HostRuntime) -> Result<(), Fail> {
    let alloc = rt.alloc();
    // the last two have rows of two vectors and two words, and of four vectors
    for nodes in [1, 63, 64, 65, 127, 577, 1_000] {
        let graph = chains(alloc, nodes, nodes / 2)?;
        let searched = ReachRows::of(alloc, &graph).ok().ok_or("memory")?;
        assert!(rt; chains_hold(searched, nodes));
        // least numbers, and others that are negative or farther apart
        for (first, step) in [(0, 1), (-1, 1), (0, 2)] {
            assert!(rt; chains_hold(numbered(alloc, &graph, first, step)?, nodes));
        }
    }
    Ok(())
}

#[test]
fn no_node(rt: HostRuntime) -> Result<(), Fail> {
    let alloc = rt.alloc();
    let graph = chains(alloc, 0, 0)?;
    assert!(rt; ReachRows::of(alloc, &graph).is_ok());
    let _rows = numbered(alloc, &graph, 0, 1)?;
    Ok(())
}

#[test]
fn reached_from_itself_by_a_cycle_alone(rt: HostRuntime) -> Result<(), Fail> {
    let alloc = rt.alloc();
    let graph = graph_of(alloc, 3, &[(0, 1), (0, 2)])?;
    let mut rows = ReachRows::of(alloc, &graph).ok().ok_or("memory")?;
    assert!(rt; rows.reaches(0, 1) && !rows.reaches(1, 0) && !rows.reaches(0, 0));
    rows.add_arc(2, 1);
    assert!(rt; rows.reaches(2, 1) && !rows.reaches(1, 2));
    let graph = graph_of(alloc, 3, &[(0, 1), (1, 0), (1, 2)])?;
    let rows = ReachRows::of(alloc, &graph).ok().ok_or("memory")?;
    assert!(rt; rows.reaches(0, 0) && rows.reaches(0, 2) && !rows.reaches(2, 2));
    Ok(())
}
