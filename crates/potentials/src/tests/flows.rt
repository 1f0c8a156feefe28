//! What flows prove that are worked out by hand, and such flows once more.

ghost use Rattle.std.specs.Prelude.{IsTrue, IfOk};
ghost use Rattle.shape_graphs.specs.Backings.{AreBalanced};
ghost use Rattle.shape_graphs.specs.Flows.{IsFlowOn};
ghost use Rattle.potentials.specs.inner.Solving.{BalancesOn};

use super::examples::Example;
use super::{ABOVE, WEST, arm_and_turn, spine};
use crate::{TotalLength, flow_key};
use compact_types::{Flow, Flows, Items, NoMemory, Places};
use diff_flow::balanced;
use shape_graphs::{DiffGraph, MOST_AMOUNT, Measure, graphs_of};
use std::alloc::Global;
use std::test::Fail;

/// A side of the upper arm and the turn, the amounts of two flows, their bound, and the least
/// places that are tight for both.
type Row = (
    u8,
    &'static [u64],
    &'static [u64],
    i128,
    Option<[(i32, i32); 5]>,
);

/// The last of three arcs is that of the choice. A flow that leaves it out is tight only where both
/// of its ends have one number, against the choice, and one that goes round a cycle is tight
/// nowhere.
const ROWS: [Row; 5] = [
    (0, &[0, 2, 1], &[1, 1], 5, Some(WEST)),
    (0, &[1, 1, 0], &[1, 1], 4, None),
    (1, &[2, 1, 1], &[1, 1], 6, None),
    (3, &[1, 1], &[0, 2, 1], 5, Some(ABOVE)),
    (3, &[1, 1], &[1, 1, 0], 4, None),
];

/// The flows of these amounts on the graphs of the example.
fn flows_of(alloc: Global, example: &Example, across: &[u64], up: &[u64]) -> Result<Flows, Fail>
    ensures { IfOk result (AreBalanced example.now.bars example.now.extension.choices) }
{
    let (columns, rows) = graphs_of(alloc, &example.bars, &example.extension)?;
    let x = flow_on(alloc, &columns, across)?;
    let y = flow_on(alloc, &rows, up)?;
    Ok(Flows { x, y })
}

/// The flow of these amounts, which balances on the graph.
fn flow_on(alloc: Global, graph: &DiffGraph, amounts: &[u64]) -> Result<Flow, Fail>
    ensures { IfOk result (BalancesOn graph.now) }
{
    let flow = Flow {
        amounts: Items::from_slice(alloc, amounts)?,
    };
    if !is_flow_on(graph, &flow) {
        return Err(Fail::new("no flow"));
    }
    match balanced(graph, &flow) {
        Ok(()) => Ok(flow),
        Err(_) => Err(Fail::new("no balance")),
    }
}

/// Whether there is one amount for each arc, and none is above the most.
fn is_flow_on(graph: &DiffGraph, flow: &Flow) -> bool
    ensures { IsTrue result → IsFlowOn graph.now.arcs flow.now.amounts }
{
    let amounts = flow.amounts.as_slice();
    if amounts.len() != graph.arcs.len() {
        return false;
    }
    for i in 0..amounts.len() {
        if amounts[i] > MOST_AMOUNT {
            return false;
        }
    }
    true
}

/// The proof of a measure once more.
fn again<M: Measure>(alloc: Global, measure: &M, proof: &M::Proof) -> Result<M::Proof, NoMemory> {
    measure.again(alloc, proof)
}

/// Whether these are the places at the points, or there are neither.
fn are_at(
    alloc: Global,
    places: &Option<Places>,
    points: Option<[(i32, i32); 5]>,
) -> Result<bool, NoMemory> {
    Ok(match (places, points) {
        (Some(places), Some(points)) => {
            places.xy.as_slice() == Places::at(alloc, &points)?.xy.as_slice()
        }
        (None, None) => true,
        _ => false,
    })
}

#[test]
fn keys_of_flows(rt: HostRuntime) -> Result<(), Fail> {
    for (side, across, up, bound, least) in ROWS {
        let spine = spine(rt.alloc(), Some(arm_and_turn(side)))?;
        let flows = flows_of(rt.alloc(), &spine, across, up)?;
        let key = flow_key(rt.alloc(), &spine.bars, &spine.extension, &flows)?;
        assert!(rt; key.bound == bound, "at side {side}, bound {bound}");
        assert!(rt;
            are_at(rt.alloc(), &key.least, least)?,
            "at side {side}, bound {bound}"
        );
    }
    Ok(())
}

#[test]
fn flows_once_more(rt: HostRuntime) -> Result<(), Fail> {
    let spine = spine(rt.alloc(), Some(arm_and_turn(0)))?;
    let flows = flows_of(rt.alloc(), &spine, &[0, 2, 1], &[1, 1])?;
    let copy = again(rt.alloc(), &TotalLength, &flows)?;
    assert!(rt; copy.x.amounts.as_slice() == [0, 2, 1].as_slice());
    assert!(rt; copy.y.amounts.as_slice() == [1, 1].as_slice());
    Ok(())
}
