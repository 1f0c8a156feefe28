//! Flows and tight numbers of small graphs, worked out by hand.

ghost use Rattle.std.specs.Prelude.{IsTrue};
ghost use Rattle.diff_flow.specs.Amounts.{IsFlowOn};
ghost use Rattle.shape_graphs.specs.declared.graph.TheConstants.{MOST_AMOUNT};

mod growing;
mod networks;

use crate::{Improved, MOST_AMOUNT, balanced, bound, first_flow, improve, least_tight};
use compact_types::{Flow, Items};
use shape_graphs::{Arc, DiffGraph, find_cycle};
use std::alloc::Global;
use std::test::Fail;

/// An arc: its ends, its least, and its pull.
type Line = (u32, u32, i64, i64);

/// A graph and a flow on it.
#[derive(Drop)]
struct Case {
    graph: DiffGraph,
    flow: Flow,
    ghost amounts: { IsFlowOn graph.arcs flow.amounts },
}

/// The graph of these arcs, and the flow of these amounts.
fn case_of(alloc: Global, nodes: u32, arcs: &[Line], amounts: &[u64]) -> Result<Case, Fail> {
    let graph = graph_of(alloc, nodes, arcs)?;
    let flow = Flow {
        amounts: Items::from_slice(alloc, amounts)?,
    };
    if !is_flow_on(&graph, &flow) {
        return Err(Fail::new("no flow on the graph"));
    }
    Ok(Case { graph, flow })
}

/// The graph of these arcs.
fn graph_of(alloc: Global, nodes: u32, lines: &[Line]) -> Result<DiffGraph, Fail> {
    let mut arcs = Items::new(alloc);
    for &(from, to, least, pull) in lines {
        arcs.push(Arc {
            from,
            to,
            least,
            pull,
        })?;
    }
    Ok(DiffGraph::of(nodes, arcs).ok_or("no graph")?)
}

/// Whether there is one amount for each arc, and none is above the most.
fn is_flow_on(graph: &DiffGraph, flow: &Flow) -> bool
    ensures { IsTrue result → IsFlowOn graph.now.arcs flow.now.amounts }
{
    let amounts = flow.amounts.as_slice();
    if amounts.len() != graph.arcs.len() {
        return false;
    }
    for i in 0..amounts.len() {
        if amounts[i] > MOST_AMOUNT {
            return false;
        }
    }
    true
}

/// Whether the flow balances, or where it does not.
fn balance_of(
    alloc: Global,
    nodes: u32,
    arcs: &[Line],
    amounts: &[u64],
) -> Result<Result<(), u32>, Fail> {
    let case = case_of(alloc, nodes, arcs, amounts)?;
    Ok(balanced(&case.graph, &case.flow))
}

/// Whether these are the least tight numbers of the flow.
fn is_tight(
    alloc: Global,
    nodes: u32,
    arcs: &[Line],
    amounts: &[u64],
    numbers: &[i64],
) -> Result<bool, Fail> {
    let case = case_of(alloc, nodes, arcs, amounts)?;
    let found = least_tight(alloc, &case.graph, &case.flow)?.ok_or("no numbers")?;
    Ok(found.as_slice() == numbers)
}

/// Whether the flow has no tight numbers.
fn none_tight(alloc: Global, nodes: u32, arcs: &[Line], amounts: &[u64]) -> Result<bool, Fail> {
    let case = case_of(alloc, nodes, arcs, amounts)?;
    Ok(least_tight(alloc, &case.graph, &case.flow)?.is_none())
}

/// The bound of the first flow, where its amounts are these.
fn first_bound(
    alloc: Global,
    nodes: u32,
    arcs: &[Line],
    amounts: &[u64],
) -> Result<Option<i128>, Fail> {
    let graph = graph_of(alloc, nodes, arcs)?;
    let flow = first_flow(alloc, &graph)?;
    if flow.amounts.as_slice() != amounts {
        return Ok(None);
    }
    Ok(Some(bound(&graph, &flow)))
}

/// What becomes of a flow on a graph, and its amounts then; an error where the graph has a cycle or
/// the flow does not balance.
fn improved(
    alloc: Global,
    nodes: u32,
    arcs: &[Line],
    amounts: &[u64],
) -> Result<(Improved, Flow), Fail> {
    let case = case_of(alloc, nodes, arcs, amounts)?;
    if find_cycle(alloc, &case.graph)?.is_some() || balanced(&case.graph, &case.flow).is_err() {
        return Err(Fail::new("no balanced flow on a graph without a cycle"));
    }
    let mut flow = case.flow.copy()?;
    let found = improve(alloc, &case.graph, &mut flow)?;
    Ok((found, flow))
}

/// Whether the flow is raised by so much, to these amounts.
fn is_raised(
    alloc: Global,
    nodes: u32,
    arcs: &[Line],
    amounts: &[u64],
    by: i64,
    better: &[u64],
) -> Result<bool, Fail> {
    let (found, flow) = improved(alloc, nodes, arcs, amounts)?;
    Ok(found == Improved::Raised(by) && flow.amounts.as_slice() == better)
}

/// Whether the flow is best, and stays as it is.
fn is_best(alloc: Global, nodes: u32, arcs: &[Line], amounts: &[u64]) -> Result<bool, Fail> {
    let (found, flow) = improved(alloc, nodes, arcs, amounts)?;
    Ok(found == Improved::Best && flow.amounts.as_slice() == amounts)
}

/// The column graph of a spine with two arms, where the end of the upper arm keeps west of the turn
/// of the lower.
const SPINE: [Line; 3] = [(0, 1, 1, 1), (0, 2, 1, 1), (2, 1, 1, 0)];

/// Two arcs from one node to another.
const PARALLEL: [Line; 2] = [(0, 1, 1, 1), (0, 1, 3, 2)];

/// Two arcs that no path joins.
const APART: [Line; 2] = [(0, 1, 1, 1), (2, 3, 2, 1)];

/// Arcs with the greatest leasts and pulls.
const GREATEST: [Line; 3] = [
    (0, 1, 1_000, 1_000),
    (1, 2, 1_000, 1_000),
    (0, 2, 1_000, 1_000),
];

#[test]
fn bounds_of_first_flows(rt: HostRuntime) -> Result<(), Fail> {
    let alloc = rt.alloc();
    assert!(rt; first_bound(alloc, 3, &SPINE, &[1, 1, 0])? == Some(2));
    assert!(rt; first_bound(alloc, 3, &[], &[])? == Some(0));
    assert!(rt; first_bound(alloc, 2, &PARALLEL, &[1, 2])? == Some(7));
    assert!(rt; first_bound(alloc, 4, &APART, &[1, 1])? == Some(3));
    assert!(rt; first_bound(alloc, 3, &GREATEST, &[1_000; 3])? == Some(3_000_000));
    Ok(())
}

#[test]
fn balance_of_small_flows(rt: HostRuntime) -> Result<(), Fail> {
    let alloc = rt.alloc();
    assert!(rt; balance_of(alloc, 3, &SPINE, &[0, 3, 1])? == Err(0));
    assert!(rt; balance_of(alloc, 3, &SPINE, &[0, 2, 1])? == Ok(()));
    assert!(rt; balance_of(alloc, 3, &SPINE, &[1, 1, 1])? == Err(1));
    assert!(rt; balance_of(alloc, 0, &[], &[])? == Ok(()));
    assert!(rt; balance_of(alloc, 2, &PARALLEL, &[3, 0])? == Ok(()));
    assert!(rt; balance_of(alloc, 4, &APART, &[1, 2])? == Err(2));
    assert!(rt; balance_of(alloc, 3, &GREATEST, &[2_000, 2_000, 0])? == Ok(()));
    Ok(())
}

/// Nodes at both sides of the limits of the blocks in which surpluses are added up.
#[test]
fn balance_of_many_nodes(rt: HostRuntime) -> Result<(), Fail> {
    let alloc = rt.alloc();
    assert!(rt; balance_of(alloc, 3_000, &[(1_023, 1_024, 1, 1)], &[0])? == Err(1_023));
    assert!(rt; balance_of(alloc, 3_000, &[(2_999, 1_024, 1, 1)], &[2])? == Err(1_024));
    assert!(rt; balance_of(alloc, 3_000, &[(2_999, 2_048, 1, 1)], &[1])? == Ok(()));
    assert!(rt; balance_of(alloc, 1_025, &[(1_024, 1_024, 1, 1)], &[5])? == Ok(()));
    Ok(())
}

#[test]
fn tight_numbers_of_small_flows(rt: HostRuntime) -> Result<(), Fail> {
    let alloc = rt.alloc();
    assert!(rt; is_tight(alloc, 3, &SPINE, &[0, 2, 1], &[0, 2, 1])?);
    assert!(rt; is_tight(alloc, 3, &[], &[], &[0, 0, 0])?);
    assert!(rt; is_tight(alloc, 2, &PARALLEL, &[0, 3], &[0, 3])?);
    assert!(rt; is_tight(alloc, 4, &APART, &[1, 1], &[0, 1, 0, 2])?);
    assert!(rt; is_tight(alloc, 3, &GREATEST, &[2_000, 2_000, 0], &[0, 1_000, 2_000])?);
    Ok(())
}

#[test]
fn flows_without_tight_numbers(rt: HostRuntime) -> Result<(), Fail> {
    let alloc = rt.alloc();
    assert!(rt; none_tight(alloc, 3, &SPINE, &[1, 1, 0])?);
    assert!(rt; none_tight(alloc, 2, &PARALLEL, &[1, 2])?);
    assert!(rt; none_tight(alloc, 3, &GREATEST, &[1_000; 3])?);
    assert!(rt; none_tight(alloc, 1, &[(0, 0, 1, 1)], &[1])?);
    Ok(())
}

#[test]
fn flows_raised_to_the_best(rt: HostRuntime) -> Result<(), Fail> {
    let alloc = rt.alloc();
    assert!(rt; is_raised(alloc, 3, &SPINE, &[1, 1, 0], 1, &[0, 2, 1])?);
    assert!(rt; is_raised(alloc, 2, &PARALLEL, &[1, 2], 2, &[0, 3])?);
    assert!(rt;
        is_raised(
            alloc,
            3,
            &GREATEST,
            &[1_000; 3],
            1_000_000,
            &[2_000, 2_000, 0]
        )?
    );
    Ok(())
}

#[test]
fn best_flows_stay(rt: HostRuntime) -> Result<(), Fail> {
    let alloc = rt.alloc();
    assert!(rt; is_best(alloc, 3, &SPINE, &[0, 2, 1])?);
    assert!(rt; is_best(alloc, 0, &[], &[])?);
    assert!(rt; is_best(alloc, 3, &[], &[])?);
    assert!(rt; is_best(alloc, 2, &PARALLEL, &[0, 3])?);
    assert!(rt; is_best(alloc, 4, &APART, &[1, 1])?);
    assert!(rt; is_best(alloc, 3, &GREATEST, &[2_000, 2_000, 0])?);
    Ok(())
}
