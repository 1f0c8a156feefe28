//! Whether two flows show that no drawing of a branch comes before the drawing at hand.

ghost use Rattle.std.specs.Prelude.{◌≡◌, ◌+ℤ◌, ◌<ℤ◌, ◌≤ℤ◌, pos, All};
ghost use Rattle.std.specs.Prelude.{MatchOption, OnOk};
ghost use Rattle.compact_types.specs.Refusals.{IfFault};
ghost use Rattle.bars.specs.Solutions.{Fit};
ghost use Rattle.shape_graphs.specs.Backings.{bound_by};
ghost use Rattle.shape_graphs.specs.Flows.{IsFlowOn, bound_of};
ghost use Rattle.cert_text.specs.Accepting.{DoBound, IsGoodBound};
ghost use Rattle.cert_text.specs.Loads.{IsLoad};
ghost use Rattle.cert_check.specs.declared.fault.CheckFault.TheVariants as faults;
ghost use Rattle.compact_types.specs.declared.refusal.Refusal.TheVariants as refusals;
ghost use Rattle.cert_check.specs.Faults.{IsBoundFault};
ghost use Rattle.cert_check.specs.inner.Branches.{IsAnswer, IsAt};
ghost use Rattle.cert_check.specs.inner.Flowing.{DoBalanceAndBound, HasFlows, IsFlowFault, IsWeak};
ghost use Rattle.cert_check.specs.inner.Flowing.{flows_on};

use crate::answer::Answer;
use crate::earlier::earlier;
use crate::fault::CheckFault;
use crate::loads::{clear, first_off_arcs, put};
use bars::Bars;
use cert_text::Load;
use compact_types::{Axis, Refusal};
use diff_flow::{balanced, bound};
use shape_graphs::GrowingGraphs;
use std::alloc::Global;

/// Checks the flows with these loads on the graphs of the branch, and leaves the graphs with
/// nothing on their arcs.
pub(crate) fn check_bound(
    alloc: Global,
    bars: &Bars,
    answer: &Answer<'_>,
    branch: &mut GrowingGraphs,
    entry: u64,
    x: &[Load],
    y: &[Load],
) -> Result<(), Refusal<CheckFault>>
    requires answer { IsAnswer bars.now answer.now.places.now answer.now.length }
    requires at { IsAt bars.now branch.old }
    requires x { All IsLoad x.now }
    requires y { All IsLoad y.now }
    ensures good { OnOk result
        (IsGoodBound bars.now branch.old.choices answer.now.places.now x.now y.now) }
    ensures fault { IfFault result
        (IsBoundFault bars.now branch.old.choices answer.now.places.now entry x.now y.now) }
    ensures at { IsAt bars.now branch.new }
    ensures choices { branch.new.choices ≡ branch.old.choices }
{
    if let Some(arc) = first_off_arcs(&branch.columns.graph, x) {
        return Err(no_arc(entry, Axis::X, arc));
    }
    if let Some(arc) = first_off_arcs(&branch.rows.graph, y) {
        return Err(no_arc(entry, Axis::Y, arc));
    }
    put(&mut branch.columns.flow.amounts, x);
    put(&mut branch.rows.flow.amounts, y);
    let checked = check_flows(alloc, bars, answer, branch, entry);
    clear(&mut branch.columns.flow.amounts, x);
    clear(&mut branch.rows.flow.amounts, y);
    checked
}

/// Checks the flows on the graphs of the branch.
fn check_flows(
    alloc: Global,
    bars: &Bars,
    answer: &Answer<'_>,
    branch: &GrowingGraphs,
    entry: u64,
) -> Result<(), Refusal<CheckFault>>
    requires answer { IsAnswer bars.now answer.now.places.now answer.now.length }
    requires fit { Fit bars.now branch.now.choices }
    requires flows { HasFlows bars.now branch.now }
    ensures good { OnOk result (DoBalanceAndBound bars.now branch.now.choices
        (flows_on branch.now) answer.now.places.now) }
    ensures fault { IfFault result (IsFlowFault bars.now branch.now.choices
        (flows_on branch.now) answer.now.places.now entry) }
{
    if let Err(node) = balanced(&branch.columns.graph, &branch.columns.flow) {
        return Err(unbalanced(entry, Axis::X, node));
    }
    if let Err(node) = balanced(&branch.rows.graph, &branch.rows.flow) {
        return Err(unbalanced(entry, Axis::Y, node));
    }
    check_strength(alloc, bars, answer, branch, entry)
}

/// Checks that the bound of balanced flows is strong enough. The least tight places are looked for
/// only where the bound is the length.
fn check_strength(
    alloc: Global,
    bars: &Bars,
    answer: &Answer<'_>,
    branch: &GrowingGraphs,
    entry: u64,
) -> Result<(), Refusal<CheckFault>>
    requires answer { IsAnswer bars.now answer.now.places.now answer.now.length }
    requires fit { Fit bars.now branch.now.choices }
    requires flows { HasFlows bars.now branch.now }
    ensures good { OnOk result (DoBound bars.now branch.now.choices
        (flows_on branch.now) answer.now.places.now) }
    ensures fault { IfFault result (IsWeak bars.now branch.now.choices
        (flows_on branch.now) answer.now.places.now entry) }
{
    match if_not_above(bound_of_branch(branch), answer.length) {
        None => Ok(()),
        Some(bound) => check_low(alloc, bars, answer, branch, entry, bound),
    }
}

/// Checks a bound that is not above the length.
fn check_low(
    alloc: Global,
    bars: &Bars,
    answer: &Answer<'_>,
    branch: &GrowingGraphs,
    entry: u64,
    bound: i64,
) -> Result<(), Refusal<CheckFault>>
    requires answer { IsAnswer bars.now answer.now.places.now answer.now.length }
    requires fit { Fit bars.now branch.now.choices }
    requires flows { HasFlows bars.now branch.now }
    requires value { bound ≡ bound_by bars.now branch.now.choices (flows_on branch.now) }
    requires low { bound ≤ℤ answer.now.length }
    ensures good { OnOk result (DoBound bars.now branch.now.choices
        (flows_on branch.now) answer.now.places.now) }
    ensures fault { IfFault result (IsWeak bars.now branch.now.choices
        (flows_on branch.now) answer.now.places.now entry) }
{
    if bound < answer.length {
        return Err(weak(entry, bound, None));
    }
    match earlier(alloc, bars, answer.places, branch)? {
        None => Ok(()),
        Some(vertex) => Err(weak(entry, bound, Some(vertex))),
    }
}

/// The bound, where it is not above the length.
fn if_not_above(bound: i128, length: i64) -> Option<i64>
    requires { pos 0 ≤ℤ bound }
    ensures { MatchOption result (length <ℤ bound) (λ low. (low ≡ bound) × (low ≤ℤ length)) }
{
    if bound > i128::from(length) {
        None
    } else {
        Some(bound as i64)
    }
}

/// The bounds of both flows together.
fn bound_of_branch(branch: &GrowingGraphs) -> i128
    requires across { IsFlowOn branch.now.columns.graph.arcs branch.now.columns.flow.amounts }
    requires up { IsFlowOn branch.now.rows.graph.arcs branch.now.rows.flow.amounts }
    ensures value { result
        ≡ bound_of branch.now.columns.graph.arcs branch.now.columns.flow.amounts
        +ℤ bound_of branch.now.rows.graph.arcs branch.now.rows.flow.amounts }
    ensures low { pos 0 ≤ℤ result }
{
    bound(&branch.columns.graph, &branch.columns.flow)
        + bound(&branch.rows.graph, &branch.rows.flow)
}

/// That a bound names an arc that the graph of the axis lacks.
fn no_arc(entry: u64, axis: Axis, arc: u32) -> Refusal<CheckFault>
    ensures { result ≡ refusals.Fault (faults.NoArc entry axis arc) }
{
    Refusal::Fault(CheckFault::NoArc { entry, axis, arc })
}

/// That a flow does not balance at the node.
fn unbalanced(entry: u64, axis: Axis, node: u32) -> Refusal<CheckFault>
    ensures { result ≡ refusals.Fault (faults.Unbalanced entry axis node) }
{
    Refusal::Fault(CheckFault::Unbalanced { entry, axis, node })
}

/// That a bound is too weak.
fn weak(entry: u64, bound: i64, earlier: Option<u32>) -> Refusal<CheckFault>
    ensures { result ≡ refusals.Fault (faults.WeakBound entry bound earlier) }
{
    Refusal::Fault(CheckFault::WeakBound {
        entry,
        bound,
        earlier,
    })
}
