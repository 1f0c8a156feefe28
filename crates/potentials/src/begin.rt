//! The best flow of a graph, found from what is known of the graph without its last arc, or from a
//! flow to begin with.

ghost use Rattle.std.specs.Prelude.{◌≡◌, ◌<◌, ℕ, ◌^◌, ◌+ℤ◌, ◌≤ℤ◌, [], ◌∷◌, ◌++◌, pos, length};
ghost use Rattle.std.specs.Prelude.{IfOk, IsSome, MatchBool, MatchOption};
ghost use Rattle.shape_graphs.specs.Flows.{bound_of, number_at};
ghost use Rattle.potentials.specs.inner.Solving.{AreLeastNumbers, BalancesOn, HasTight};
ghost use Rattle.potentials.specs.inner.Solving.{IsStartingFlow};
ghost use Rattle.potentials.specs.inner.Solving.{IsBounded, IsSolvable};
ghost use Rattle.potentials.specs.inner.Solvers.{AreNumbersBefore, IsFoundFlow, IsSame};
ghost use Rattle.potentials.specs.inner.Solvers.{MeetsLast};

use crate::reached::{Bounded, FoundFlow};
use compact_types::{Flow, Items, NoMemory};
use diff_flow::{Network, bound, first_flow, least_numbers_that_meet_an_arc};
use shape_graphs::DiffGraph;
use std::alloc::Global;

/// A best flow of the graph from one of the graph without its last arc and the least numbers that
/// are tight for that one. If the numbers meet the arc they stay the least, and are known.
pub(crate) fn from_before(
    alloc: Global,
    graph: &DiffGraph,
    network: &Network,
    best: &Bounded,
    numbers: &Items<i64>,
) -> Result<FoundFlow, NoMemory>
    requires graph { IsSame network.now graph.now }
    requires solvable { IsSolvable graph.now }
    requires before { AreNumbersBefore graph.now best.now.flow numbers.now }
    ensures reached { IfOk result (IsFoundFlow network.now) }
    ensures best { IfOk result (λ reached. IsSome reached.best) }
{
    let mut flow = longer(alloc, &best.flow, graph.arcs.len())?;
    if meets_last(graph, numbers.as_slice()) {
        // That the numbers stay the least.
        least_numbers_that_meet_an_arc();
        let numbers = numbers.copy()?;
        return Ok(FoundFlow {
            best: Some(with_bound(graph, flow)),
            numbers: Some(numbers),
        });
    }
    network.make_best_from(alloc, &mut flow, numbers)?;
    Ok(FoundFlow {
        best: Some(with_bound(graph, flow)),
        numbers: None,
    })
}

/// Whether the numbers meet the last arc of the graph.
fn meets_last(graph: &DiffGraph, numbers: &[i64]) -> bool
    requires some { 0 < length graph.now.arcs }
    requires one_for_each { length numbers.now ≡ graph.now.nodes }
    requires from_zero { (v : ℕ) → v < graph.now.nodes → pos 0 ≤ℤ number_at numbers.now v }
    ensures { MatchBool result (MeetsLast graph.now numbers.now) (Unit {0}) }
{
    let arcs = graph.arcs.as_slice();
    let arc = arcs[arcs.len() - 1];
    let low = numbers[arc.from as usize];
    let high = numbers[arc.to as usize];
    is_far_enough(low, arc.least, high)
}

/// Whether one number is at least so much above another.
fn is_far_enough(low: i64, least: i64, high: i64) -> bool
    requires low { pos 0 ≤ℤ low }
    requires high { pos 0 ≤ℤ high }
    ensures { MatchBool result ((low +ℤ least) ≤ℤ high) (Unit {0}) }
{
    if high - low >= least {
        return true;
    }
    false
}

/// A best flow of the graph from the flow to begin with, or from the first flow.
pub(crate) fn from_start(
    alloc: Global,
    graph: &DiffGraph,
    network: &Network,
    start: Option<&Flow>,
) -> Result<FoundFlow, NoMemory>
    requires graph { IsSame network.now graph.now }
    requires solvable { IsSolvable graph.now }
    requires start { MatchOption start (Unit {0}) (λ flow. IsStartingFlow graph.now flow.now) }
    ensures reached { IfOk result (IsFoundFlow network.now) }
    ensures best { IfOk result (λ reached. IsSome reached.best) }
{
    let mut flow = begun(alloc, graph, start)?;
    network.make_best(alloc, &mut flow)?;
    Ok(FoundFlow {
        best: Some(with_bound(graph, flow)),
        numbers: None,
    })
}

/// The flow to begin with, with an amount for every arc, or the first flow.
fn begun(alloc: Global, graph: &DiffGraph, start: Option<&Flow>) -> Result<Flow, NoMemory>
    requires { MatchOption start (Unit {0}) (λ flow. IsStartingFlow graph.now flow.now) }
    ensures { IfOk result (BalancesOn graph.now) }
{
    match start {
        None => first_flow(alloc, graph),
        Some(start) => on_all_arcs(alloc, graph, start),
    }
}

/// The same flow. If it has no amount for the last arc it carries nothing there.
fn on_all_arcs(alloc: Global, graph: &DiffGraph, start: &Flow) -> Result<Flow, NoMemory>
    requires { IsStartingFlow graph.now start.now }
    ensures { IfOk result (BalancesOn graph.now) }
{
    if start.amounts.len() >= graph.arcs.len() {
        return start.copy();
    }
    longer(alloc, start, graph.arcs.len())
}

/// The flow with amount 0 on one arc more, which makes so many.
fn longer(alloc: Global, start: &Flow, arcs: usize) -> Result<Flow, NoMemory>
    ensures { IfOk result (λ flow. flow.amounts ≡ start.now.amounts ++ 0 ∷ []) }
{
    let mut amounts = Items::from_vec(Vec::with_capacity(alloc, arcs)?);
    amounts.extend_from_slice(start.amounts.as_slice())?;
    amounts.push(0)?;
    Ok(Flow { amounts })
}

/// The flow with its bound.
fn with_bound(graph: &DiffGraph, flow: Flow) -> Bounded
    requires graph { IsSolvable graph.now }
    requires flow { BalancesOn graph.now flow }
    ensures bounded { IsBounded graph.now result.flow result.bound }
    ensures flow { result.flow ≡ flow }
{
    let bound = small_bound(graph, &flow);
    Bounded { flow, bound }
}

/// The bound of a balanced flow on a small graph without a cycle: the length of some solution
/// limits it.
fn small_bound(graph: &DiffGraph, flow: &Flow) -> i64
    requires graph { IsSolvable graph.now }
    requires flow { BalancesOn graph.now flow.now }
    ensures value { result ≡ bound_of graph.now.arcs flow.now.amounts }
    ensures low { pos 0 ≤ℤ result }
    ensures high { result ≤ℤ pos (2 ^ 60) }
{
    bound(graph, flow) as i64
}

/// The least numbers that are tight for a flow which has tight numbers.
pub(crate) fn least_numbers(
    alloc: Global,
    network: &Network,
    flow: &Flow,
) -> Result<Items<i64>, NoMemory>
    requires balances { BalancesOn network.now flow.now }
    requires tight { HasTight network.now flow.now }
    ensures { IfOk result (AreLeastNumbers network.now flow.now) }
{
    match network.least_tight(alloc, flow)? {
        Some(numbers) => Ok(numbers),
        None => unreachable!(),
    }
}
