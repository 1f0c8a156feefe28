//! What a search keeps from one list of choices to the next: the two graphs of the choices, and a
//! solver of each axis, which follow the choices one by one.

ghost use Rattle.std.specs.Prelude.{◌≡◌, ◌≤◌, ◌<◌, ◌-◌, [], ◌∷◌, ◌++◌, length, take};
ghost use Rattle.std.specs.Prelude.{IfOk, OnOk};
ghost use Rattle.compact_types.specs.declared.limits.TheConstants.{MOST_VERTICES};
ghost use Rattle.compact_types.specs.declared.places.Axis.TheVariants as axis;
ghost use Rattle.bars.specs.Sides.{side_axis};
ghost use Rattle.bars.specs.Solutions.{Fit};
ghost use Rattle.shape_graphs.specs.Paths.{HasCycle, IsCycle};
ghost use Rattle.potentials.specs.inner.Solvers.{HasFollowed, IsPushed, IsSolver, IsWorkspaceOf};

use crate::solver::AxisSolver;
use bars::Bars;
use compact_types::{Axis, Choice, Extension, NoMemory};
use shape_graphs::{Cycle, DiffGraph, GrowingGraphs, Workspace, axis_of_side, find_cycle};
use std::alloc::Global;

/// What a search keeps from one list of choices to the next. Where the choices are those of an
/// earlier call and one more, only what this one changes is solved again.
#[derive(Drop)]
pub struct FlowWorkspace {
    pub(crate) graphs: GrowingGraphs,
    pub(crate) across: AxisSolver,
    pub(crate) up: AxisSolver,
}

impl Workspace for FlowWorkspace {
    ghost serves = { IsWorkspaceOf };
}

/// How far a workspace followed a list of choices.
#[derive(Drop)]
pub(crate) enum Followed {
    /// To the last choice. Neither graph has a cycle.
    All,
    /// Up to the last choice, with which the graph of this axis has this cycle.
    Cyclic(Axis, Cycle),
    /// Less far: a graph has a cycle without the last choice.
    Not,
}

impl FlowWorkspace {
    /// A workspace for the shape, without choices.
    pub(crate) fn new(alloc: Global, bars: &Bars) -> Result<FlowWorkspace, NoMemory>
        ensures { IfOk result (IsWorkspaceOf bars.now) }
    {
        // The call says what is known of the shape: that it is small and has a drawing.
        let _what_is_known = bars.shape();
        let graphs = GrowingGraphs::new(alloc, bars)?;
        let across = solver_of(alloc, &graphs.columns.graph)?;
        let up = solver_of(alloc, &graphs.rows.graph)?;
        Ok(FlowWorkspace { graphs, across, up })
    }

    /// Follows the choices from the front that it has followed before.
    pub(crate) fn follow(
        &mut self,
        alloc: Global,
        bars: &Bars,
        extension: &Extension,
    ) -> Result<Followed, NoMemory>
        requires workspace { IsWorkspaceOf bars.now self.old }
        requires fit { Fit bars.now extension.now.choices }
        ensures workspace { OnOk result (IsWorkspaceOf bars.now self.new) }
        ensures followed { IfOk result (HasFollowed bars.now extension.now.choices self.new) }
    {
        let choices = extension.choices.as_slice();
        let kept = common_front(self.graphs.choices.as_slice(), choices);
        self.go_back(bars, kept);
        for i in kept..choices.len() {
            let choice = choices[i];
            if let Some(cycle) = self.push(alloc, bars, choice)? {
                if i + 1 < choices.len() {
                    return Ok(Followed::Not);
                }
                return Ok(Followed::Cyclic(axis_of_side(choice.side), cycle));
            }
        }
        Ok(Followed::All)
    }

    /// Takes choices away until so many are left.
    fn go_back(&mut self, bars: &Bars, kept: usize)
        requires workspace { IsWorkspaceOf bars.now self.old }
        requires within { kept ≤ length self.old.graphs.choices }
        ensures workspace { IsWorkspaceOf bars.now self.new }
        ensures choices { self.new.graphs.choices ≡ take kept self.old.graphs.choices }
    {
        for _ in kept..self.graphs.choices.len() {
            self.pop(bars);
        }
    }

    /// Takes the last choice away.
    fn pop(&mut self, bars: &Bars)
        requires workspace { IsWorkspaceOf bars.now self.old }
        requires some { 0 < length self.old.graphs.choices }
        ensures workspace { IsWorkspaceOf bars.now self.new }
        ensures choices { self.new.graphs.choices
            ≡ take (length self.old.graphs.choices - 1) self.old.graphs.choices }
    {
        let _of_the_clauses = bars;
        match self.graphs.pop() {
            Some(choice) => match axis_of_side(choice.side) {
                Axis::X => self.across.take_away(&self.graphs.columns.graph),
                Axis::Y => self.up.take_away(&self.graphs.rows.graph),
            },
            None => unreachable!(),
        }
    }

    /// Adds a choice at the end. A cycle of the graph along its axis, if there is one with it; then
    /// the choice is not added.
    fn push(
        &mut self,
        alloc: Global,
        bars: &Bars,
        choice: Choice,
    ) -> Result<Option<Cycle>, NoMemory>
        requires workspace { IsWorkspaceOf bars.now self.old }
        requires fit { Fit bars.now (self.old.graphs.choices ++ choice ∷ []) }
        ensures { IfOk result (IsPushed bars.now self.old choice self.new) }
    {
        match axis_of_side(choice.side) {
            Axis::X => self.push_column(alloc, bars, choice),
            Axis::Y => self.push_row(alloc, bars, choice),
        }
    }

    /// Adds a choice whose side keeps apart along x.
    fn push_column(
        &mut self,
        alloc: Global,
        bars: &Bars,
        choice: Choice,
    ) -> Result<Option<Cycle>, NoMemory>
        requires workspace { IsWorkspaceOf bars.now self.old }
        requires fit { Fit bars.now (self.old.graphs.choices ++ choice ∷ []) }
        requires axis { side_axis choice.side ≡ axis.X }
        ensures { IfOk result (IsPushed bars.now self.old choice self.new) }
    {
        self.graphs.push(bars, choice)?;
        if self.across.add(alloc, &self.graphs.columns.graph)? {
            return Ok(None);
        }
        let cycle = cycle_of(alloc, &self.graphs.columns.graph)?;
        let _choice = self.graphs.pop();
        Ok(Some(cycle))
    }

    /// Adds a choice whose side keeps apart along y.
    fn push_row(
        &mut self,
        alloc: Global,
        bars: &Bars,
        choice: Choice,
    ) -> Result<Option<Cycle>, NoMemory>
        requires workspace { IsWorkspaceOf bars.now self.old }
        requires fit { Fit bars.now (self.old.graphs.choices ++ choice ∷ []) }
        requires axis { side_axis choice.side ≡ axis.Y }
        ensures { IfOk result (IsPushed bars.now self.old choice self.new) }
    {
        self.graphs.push(bars, choice)?;
        if self.up.add(alloc, &self.graphs.rows.graph)? {
            return Ok(None);
        }
        let cycle = cycle_of(alloc, &self.graphs.rows.graph)?;
        let _choice = self.graphs.pop();
        Ok(Some(cycle))
    }
}

/// How many choices at the front of both lists are the same.
fn common_front(choices: &[Choice], others: &[Choice]) -> usize
    ensures within { result ≤ length choices.now }
    ensures within_others { result ≤ length others.now }
    ensures same { take result choices.now ≡ take result others.now }
{
    for i in 0..choices.len() {
        if i >= others.len() {
            return i;
        }
        if choices[i] != others[i] {
            return i;
        }
    }
    choices.len()
}

/// The solver of a graph without a cycle.
fn solver_of(alloc: Global, graph: &DiffGraph) -> Result<AxisSolver, NoMemory>
    requires few { graph.now.nodes ≤ MOST_VERTICES }
    requires no_cycle { HasCycle graph.now.arcs → ⊥ }
    ensures { IfOk result (λ solver.
        IsSolver solver × (solver.network ≡ graph.now) × (solver.levels ≡ [])) }
{
    match AxisSolver::of(alloc, graph)? {
        Some(solver) => Ok(solver),
        None => unreachable!(),
    }
}

/// A cycle of a graph that has one.
pub(crate) fn cycle_of(alloc: Global, graph: &DiffGraph) -> Result<Cycle, NoMemory>
    requires { HasCycle graph.now.arcs }
    ensures { IfOk result (λ cycle. IsCycle graph.now.arcs cycle.arcs) }
{
    match find_cycle(alloc, graph)? {
        Some(cycle) => Ok(cycle),
        None => unreachable!(),
    }
}
