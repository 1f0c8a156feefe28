//! A better flow, or that the flow is best.

ghost use Rattle.std.specs.Prelude.{◌≡◌, ◌^◌, ◌↔◌, pos, ◌+ℤ◌, ◌≤ℤ◌};
ghost use Rattle.std.specs.Prelude.{length, IfOk, IsTrue, MatchResult};
ghost use Rattle.shape_graphs.specs.Paths.{HasCycle};
ghost use Rattle.shape_graphs.specs.Flows.{Balances, bound_of, IsBestFlow};
ghost use Rattle.diff_flow.specs.Amounts.{IsFlowOn};
ghost use Rattle.diff_flow.specs.Improving.{IsImproved, IsRaised};
ghost use Rattle.diff_flow.specs.inner.Steps.{AreStepsOf};
ghost use Rattle.diff_flow.specs.inner.Routing.{IsNear};
ghost use Rattle.diff_flow.specs.inner.Bettering.{IsBetter};

use crate::better::{Better, find_better};
use crate::detour::detour;
use crate::flow::bound;
use crate::network::Network;
use crate::route::{narrowed, widened};
use crate::steps::Steps;
use compact_types::{Flow, NoMemory};
use shape_graphs::DiffGraph;
use std::alloc::Global;

/// What became of a flow: its bound was raised by so much, or it is best.
#[derive(Debug, Clone, Copy, PartialEq, Eq)]
pub enum Improved {
    Raised(i64),
    Best,
}

/// A flow, and by how much its bound is higher.
#[derive(Drop)]
struct Raise {
    flow: Flow,
    by: i64,
}

/// Makes the flow a better one that balances, or finds that it is best: no balanced flow has a
/// greater bound. Then it stays as it is, and so it does without memory.
pub fn improve(alloc: Global, graph: &DiffGraph, flow: &mut Flow) -> Result<Improved, NoMemory>
    requires no_cycle { HasCycle graph.now.arcs → ⊥ }
    requires flow { IsFlowOn graph.now.arcs flow.old.amounts }
    requires balances { Balances graph.now.nodes graph.now.arcs flow.old.amounts }
    ensures improved { MatchResult result
        (IsImproved graph.now.nodes graph.now.arcs flow.old.amounts flow.new.amounts)
        (λ _. flow.new.amounts ≡ flow.old.amounts) }
    ensures exact { IsBestFlow graph.now.nodes graph.now.arcs flow.old.amounts →
        IfOk result (λ improved. improved ≡ Improved.Best) }
{
    let Some(network) = Network::of(alloc, graph)? else {
        unreachable!()
    };
    let walks = network.walks.as_slice();
    let Some(better) = find_better(alloc, &network.graph, &network.steps, walks, flow)? else {
        return Ok(Improved::Best);
    };
    let raise = raise_to(alloc, graph, &network.steps, flow, better)?;
    *flow = raise.flow;
    Ok(Improved::Raised(raise.by))
}

/// The best flow that is better, or one by a unit on another way where the bound of the best one is
/// too far above.
fn raise_to(
    alloc: Global,
    graph: &DiffGraph,
    steps: &Steps,
    flow: &Flow,
    better: Better,
) -> Result<Raise, NoMemory>
    requires flow { IsFlowOn graph.now.arcs flow.now.amounts }
    requires balances { Balances graph.now.nodes graph.now.arcs flow.now.amounts }
    requires nodes { steps.now.nodes ≡ graph.now.nodes }
    requires arcs { steps.now.arcs ≡ length graph.now.arcs }
    requires steps { AreStepsOf graph.now.arcs steps.now.list.items }
    requires better { IsBetter graph.now steps.now flow.now.amounts better }
    ensures { IfOk result (λ raise. IsRaised graph.now.nodes graph.now.arcs flow.now.amounts
        raise.flow.amounts raise.by) }
{
    let by = rise(graph, flow, &better.flow);
    if fits(by) {
        return Ok(Raise {
            flow: better.flow,
            by: narrow(by),
        });
    }
    let near = near_flow(alloc, graph, steps, flow, &better)?;
    let by = narrow(rise(graph, flow, &near));
    Ok(Raise { flow: near, by })
}

/// By how much the bound of the other flow is higher.
fn rise(graph: &DiffGraph, flow: &Flow, other: &Flow) -> i128
    requires flow { IsFlowOn graph.now.arcs flow.now.amounts }
    requires other { IsFlowOn graph.now.arcs other.now.amounts }
    ensures { bound_of graph.now.arcs other.now.amounts
        ≡ bound_of graph.now.arcs flow.now.amounts +ℤ result }
{
    difference(bound(graph, other), bound(graph, flow))
}

/// The first less the second.
fn difference(a: i128, b: i128) -> i128
    requires a_low { pos 0 ≤ℤ a }
    requires a_high { a ≤ℤ pos (2 ^ 90) }
    requires b_low { pos 0 ≤ℤ b }
    requires b_high { b ≤ℤ pos (2 ^ 90) }
    ensures { a ≡ b +ℤ result }
{
    a - b
}

/// Whether it is no more than the answer can say.
fn fits(by: i128) -> bool
    ensures { IsTrue result ↔ (by ≤ℤ i64.MAX) }
{
    by <= i64::MAX as i128
}

/// The same number.
fn narrow(by: i128) -> i64
    requires low { pos 0 ≤ℤ by }
    requires high { by ≤ℤ i64.MAX }
    ensures { result ≡ by }
{
    by as i64
}

/// A flow with a unit on another way than in the one given, which is not best. Its bound is higher,
/// by `GREATEST_LEAST` for each arc at most.
fn near_flow(
    alloc: Global,
    graph: &DiffGraph,
    steps: &Steps,
    flow: &Flow,
    better: &Better,
) -> Result<Flow, NoMemory>
    requires flow { IsFlowOn graph.now.arcs flow.now.amounts }
    requires balances { Balances graph.now.nodes graph.now.arcs flow.now.amounts }
    requires nodes { steps.now.nodes ≡ graph.now.nodes }
    requires arcs { steps.now.arcs ≡ length graph.now.arcs }
    requires steps { AreStepsOf graph.now.arcs steps.now.list.items }
    requires better { IsBetter graph.now steps.now flow.now.amounts better.now }
    ensures { IfOk result (λ near. IsNear graph.now.nodes graph.now.arcs flow.now.amounts
        near.amounts) }
{
    let mut amounts = widened(alloc, flow.amounts.as_slice())?;
    detour(
        alloc,
        better.slack,
        steps,
        amounts.as_mut_slice(),
        better.numbers.as_slice(),
    )?;
    Ok(Flow {
        amounts: narrowed(alloc, amounts.as_slice())?,
    })
}
