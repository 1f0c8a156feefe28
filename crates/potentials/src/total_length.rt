//! The total length as a measure, and its solver.
//!
//! A balanced flow on each graph bounds the length from below. The solver makes the flows best, as
//! Ford and Fulkerson's primal-dual method does, until the bounds pass the stop. The least places
//! that are tight for two best flows have the least length.

ghost use Rattle.std.specs.Prelude.{◌≡◌, IfOk, MatchOption, OnOk};
ghost use Rattle.compact_types.specs.Bests.Objective.{total_length};
ghost use Rattle.bars.specs.Solutions.{Fit, IsSound};
ghost use Rattle.shape_graphs.specs.Backings.{DoBack};
ghost use Rattle.shape_graphs.specs.Measures.{BacksBefore, IsAsked, IsBacked, IsRight};
ghost use Rattle.potentials.specs.inner.Solvers.{IsWorkspaceOf};

use crate::solver::AxisSolver;
use crate::verdicts::{make_both_best, verdict_of};
use crate::workspace::{FlowWorkspace, Followed, cycle_of};
use bars::Bars;
use compact_types::{Axis, Extension, Flows, NoMemory, Places, plain_length};
use shape_graphs::{Measure, Verdict, graphs_of};
use std::alloc::Global;

/// The total length of a drawing: the sum over its pieces of the distance of their ends, in grid
/// steps. Its proofs are pairs of flows.
pub struct TotalLength;

impl Measure for TotalLength {
    type Proof = Flows;

    type Workspace = FlowWorkspace;

    /// The total length of the places. It takes no memory.
    fn worth(&self, bars: &Bars, places: &Places) -> i64 {
        plain_length(&bars.shape().plan, places)
    }

    /// Both flows once more, on the allocators of their lists.
    fn again(&self, _alloc: Global, proof: &Flows) -> Result<Flows, NoMemory> {
        proof.copy()
    }

    /// A workspace for the shape, which has followed no choice yet.
    fn workspace(&self, alloc: Global, bars: &Bars) -> Result<FlowWorkspace, NoMemory> {
        FlowWorkspace::new(alloc, bars)
    }

    /// The verdict on the choices, as `solve` gives it.
    fn solve_in(
        &self,
        alloc: Global,
        bars: &Bars,
        workspace: &mut FlowWorkspace,
        extension: &Extension,
        start: Option<&Flows>,
        stop_above: i64,
    ) -> Result<Verdict<Flows>, NoMemory> {
        solve_with(alloc, bars, workspace, extension, start, stop_above)
    }

    /// The verdict on the choices. It begins with the flows of `start`, or with the two first flows
    /// where there is none.
    fn solve(
        &self,
        alloc: Global,
        bars: &Bars,
        extension: &Extension,
        start: Option<&Flows>,
        stop_above: i64,
    ) -> Result<Verdict<Flows>, NoMemory> {
        solve_from(alloc, bars, extension, start, stop_above)
    }
}

/// The verdict on the choices by the workspace, which follows them.
fn solve_with(
    alloc: Global,
    bars: &Bars,
    workspace: &mut FlowWorkspace,
    extension: &Extension,
    start: Option<&Flows>,
    stop_above: i64,
) -> Result<Verdict<Flows>, NoMemory>
    requires workspace { IsWorkspaceOf bars.now workspace.old }
    requires fit { Fit bars.now extension.now.choices }
    requires start { MatchOption start (Unit {0}) (λ proof.
        BacksBefore (DoBack bars.now) extension.now.choices proof.now) }
    ensures sound { IsSound bars.now }
    ensures right { IfOk result (IsRight total_length bars.now extension.now.choices) }
    ensures asked { IfOk result (IsAsked stop_above) }
    ensures backed { IfOk result (IsBacked (DoBack bars.now extension.now.choices)) }
    ensures workspace { OnOk result (IsWorkspaceOf bars.now workspace.new) }
{
    // The call says what is known of the shape: that it is small and has a drawing.
    let _what_is_known = bars.shape();
    match workspace.follow(alloc, bars, extension)? {
        Followed::All => verdict_in(alloc, bars, workspace, extension, start, stop_above),
        Followed::Cyclic(axis, cycle) => Ok(Verdict::Cyclic { axis, cycle }),
        Followed::Not => solve_from(alloc, bars, extension, start, stop_above),
    }
}

/// The verdict on the choices, which the workspace has followed.
fn verdict_in(
    alloc: Global,
    bars: &Bars,
    workspace: &mut FlowWorkspace,
    extension: &Extension,
    start: Option<&Flows>,
    stop_above: i64,
) -> Result<Verdict<Flows>, NoMemory>
    requires sound { IsSound bars.now }
    requires workspace { IsWorkspaceOf bars.now workspace.old }
    requires followed { workspace.old.graphs.choices ≡ extension.now.choices }
    requires start { MatchOption start (Unit {0}) (λ proof.
        BacksBefore (DoBack bars.now) extension.now.choices proof.now) }
    ensures right { IfOk result (IsRight total_length bars.now extension.now.choices) }
    ensures asked { IfOk result (IsAsked stop_above) }
    ensures backed { IfOk result (IsBacked (DoBack bars.now extension.now.choices)) }
    ensures workspace { OnOk result (IsWorkspaceOf bars.now workspace.new) }
{
    let columns = &workspace.graphs.columns.graph;
    let rows = &workspace.graphs.rows.graph;
    let across = &mut workspace.across;
    let up = &mut workspace.up;
    make_both_best(alloc, bars, extension, columns, rows, across, up, start)?;
    verdict_of(
        alloc, bars, extension, columns, rows, across, up, stop_above,
    )
}

/// The verdict on the choices, found from the flows of a proof of a verdict on the choices without
/// the last of them, if there is one.
fn solve_from(
    alloc: Global,
    bars: &Bars,
    extension: &Extension,
    start: Option<&Flows>,
    stop_above: i64,
) -> Result<Verdict<Flows>, NoMemory>
    requires fit { Fit bars.now extension.now.choices }
    requires start { MatchOption start (Unit {0}) (λ proof.
        BacksBefore (DoBack bars.now) extension.now.choices proof.now) }
    ensures sound { IsSound bars.now }
    ensures right { IfOk result (IsRight total_length bars.now extension.now.choices) }
    ensures asked { IfOk result (IsAsked stop_above) }
    ensures backed { IfOk result (IsBacked (DoBack bars.now extension.now.choices)) }
{
    // The call says what is known of the shape: that it is small and has a drawing.
    let _what_is_known = bars.shape();
    let (columns, rows) = graphs_of(alloc, bars, extension)?;
    let Some(mut across) = AxisSolver::of(alloc, &columns)? else {
        let axis = Axis::X;
        let cycle = cycle_of(alloc, &columns)?;
        return Ok(Verdict::Cyclic { axis, cycle });
    };
    let Some(mut up) = AxisSolver::of(alloc, &rows)? else {
        let axis = Axis::Y;
        let cycle = cycle_of(alloc, &rows)?;
        return Ok(Verdict::Cyclic { axis, cycle });
    };
    make_both_best(
        alloc,
        bars,
        extension,
        &columns,
        &rows,
        &mut across,
        &mut up,
        start,
    )?;
    verdict_of(
        alloc,
        bars,
        extension,
        &columns,
        &rows,
        &mut across,
        &mut up,
        stop_above,
    )
}
