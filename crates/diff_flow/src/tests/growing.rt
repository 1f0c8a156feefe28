//! Networks that get one arc more, and lose it again.

ghost use Rattle.std.specs.Prelude.{◌≡◌, length, IfOk};
ghost use Rattle.shape_graphs.specs.Flows.{number_at};
ghost use Rattle.diff_flow.specs.Walks.{AreLeastBefore, HasOneMoreArc};

use super::{Line, SPINE, case_of, is_flow_on};
use crate::{Network, balanced};
use compact_types::{Flow, Items};
use shape_graphs::{Arc, DiffGraph};
use std::alloc::Global;
use std::test::Fail;

/// What a flow and its least tight numbers become with one arc more.
#[derive(Drop)]
struct Grown {
    flow: Flow,
    numbers: Items<i64>,
}

/// The graph with one arc more, at its end.
fn longer(graph: &DiffGraph, line: Line) -> Result<DiffGraph, Fail>
    ensures { IfOk result (HasOneMoreArc graph.now) }
{
    let (from, to, least, pull) = line;
    let mut arcs = graph.arcs.copy()?;
    arcs.push(Arc {
        from,
        to,
        least,
        pull,
    })?;
    Ok(DiffGraph::of(graph.nodes, arcs).ok_or("no graph")?)
}

/// What becomes of the flow where the graph gets one arc more; `None` where that closes a cycle. An
/// error where the network is another one than before once the arc is taken away.
fn with_arc(
    alloc: Global,
    nodes: u32,
    arcs: &[Line],
    amounts: &[u64],
    more: Line,
) -> Result<Option<Grown>, Fail> {
    let case = case_of(alloc, nodes, arcs, amounts)?;
    let Some(mut network) = Network::of(alloc, &case.graph)? else {
        return Err(Fail::new("a cycle"));
    };
    let Some(before) = network.least_tight(alloc, &case.flow)? else {
        return Err(Fail::new("no numbers"));
    };
    let graph = longer(&case.graph, more)?;
    let mut flow = case.flow.copy()?;
    flow.amounts.push(0)?;
    let found = there_and_back(alloc, &mut network, &case.graph, &graph, flow, &before)?;
    let after = network.least_tight(alloc, &case.flow)?.ok_or("no numbers")?;
    if after.as_slice() != before.as_slice() {
        return Err(Fail::new("another network"));
    }
    Ok(found)
}

/// Adds the last arc of the longer graph, makes the flow best there, and takes the arc away; `None`
/// where it closes a cycle.
fn there_and_back(
    alloc: Global,
    network: &mut Network,
    graph: &DiffGraph,
    longer: &DiffGraph,
    mut flow: Flow,
    numbers: &Items<i64>,
) -> Result<Option<Grown>, Fail>
    requires network { network.old ≡ graph.now }
    requires more { HasOneMoreArc graph.now longer.now }
    requires one_for_each { length numbers.now ≡ graph.now.nodes }
    requires least { AreLeastBefore longer.now.nodes longer.now.arcs (number_at numbers.now) }
    ensures { IfOk result (λ _. network.new ≡ graph.now) }
{
    let Some(walks) = network.add(alloc, longer)? else {
        return Ok(None);
    };
    if !is_flow_on(longer, &flow) || balanced(longer, &flow).is_err() {
        return Err(Fail::new("no balanced flow on the graph"));
    }
    network.make_best_from(alloc, &mut flow, numbers)?;
    let numbers = network.least_tight(alloc, &flow)?.ok_or("no numbers")?;
    network.take_away(graph, walks);
    Ok(Some(Grown { flow, numbers }))
}

/// Whether the flow with one arc more has these amounts and least tight numbers.
fn becomes(
    alloc: Global,
    arcs: &[Line],
    flow: &[u64],
    more: Line,
    best: &[u64],
    numbers: &[i64],
) -> Result<bool, Fail> {
    let grown = with_arc(alloc, 4, arcs, flow, more)?.ok_or("a cycle")?;
    Ok(grown.flow.amounts.as_slice() == best && grown.numbers.as_slice() == numbers)
}

/// Whether the best flow of the spine stays as it is with the arc, and these are its numbers then.
fn stays(alloc: Global, more: Line, numbers: &[i64]) -> Result<bool, Fail> {
    becomes(alloc, &SPINE, &[0, 2, 1], more, &[0, 2, 1, 0], numbers)
}

/// Whether the arc closes a cycle in the spine.
fn closes(alloc: Global, more: Line) -> Result<bool, Fail> {
    Ok(with_arc(alloc, 4, &SPINE, &[0, 2, 1], more)?.is_none())
}

#[test]
fn an_arc_more(rt: HostRuntime) -> Result<(), Fail> {
    let alloc = rt.alloc();
    assert!(rt; stays(alloc, (0, 1, 2, 0), &[0, 2, 1, 0])?);
    assert!(rt; stays(alloc, (1, 3, 1, 0), &[0, 2, 1, 3])?);
    assert!(rt; stays(alloc, (3, 0, 1, 0), &[1, 3, 2, 0])?);
    assert!(rt; closes(alloc, (1, 0, 1, 0))?);
    assert!(rt; closes(alloc, (1, 1, 1, 0))?);
    Ok(())
}

/// Without its last arc the spine has a best flow that is another one with it.
#[test]
fn a_flow_changed_by_an_arc(rt: HostRuntime) -> Result<(), Fail> {
    let alloc = rt.alloc();
    let short = &SPINE[..2];
    assert!(rt; becomes(alloc, short, &[1, 1], SPINE[2], &[0, 2, 1], &[0, 2, 1, 0])?);
    Ok(())
}
