//! The solver of one axis: its network, which follows the graph of the axis as arcs of choices come
//! and go, and the best flow of the graph with its least tight numbers.

ghost use Rattle.std.specs.Prelude.{◌≡◌, ◌≤◌, ◌<◌, suc, [], length};
ghost use Rattle.std.specs.Prelude.{IfOk, IsSome, MatchBool, MatchOption, None, OnOk, Some};
ghost use Rattle.compact_types.specs.declared.limits.TheConstants.{MOST_VERTICES};
ghost use Rattle.shape_graphs.specs.Paths.{HasCycle};
ghost use Rattle.diff_flow.specs.Walks.{HasOneMoreArc};
ghost use Rattle.potentials.specs.inner.Solving.{AreLeastNumbers, IsStartingFlow};
ghost use Rattle.potentials.specs.inner.Solvers.{HasChoiceMore, IsBestOn, IsFoundFlow, IsSame};
ghost use Rattle.potentials.specs.inner.Solvers.{IsSolver};

use crate::begin::{from_before, from_start, least_numbers};
use crate::reached::{Bounded, FoundFlow, Level};
use compact_types::{Flow, Items, NoMemory};
use diff_flow::Network;
use shape_graphs::DiffGraph;
use std::alloc::Global;
use std::mem::replace;

/// The solver of one axis.
#[derive(Drop)]
pub(crate) struct AxisSolver {
    pub(crate) network: Network,
    pub(crate) reached: FoundFlow,
    /// One level for each arc of a choice that was added.
    pub(crate) levels: Items<Level>,
}

impl AxisSolver {
    /// The solver of the graph; `None` exactly if the graph has a cycle.
    pub(crate) fn of(alloc: Global, graph: &DiffGraph) -> Result<Option<AxisSolver>, NoMemory>
        requires { graph.now.nodes ≤ MOST_VERTICES }
        ensures { IfOk result (λ found. MatchOption found
            (HasCycle graph.now.arcs)
            (λ solver. IsSolver solver × (solver.network ≡ graph.now) × (solver.levels ≡ []))) }
    {
        let Some(network) = Network::of(alloc, graph)? else {
            return Ok(None);
        };
        Ok(Some(AxisSolver {
            network,
            reached: FoundFlow::nothing(),
            levels: Items::new(alloc),
        }))
    }

    /// Follows its graph, which has got the arc of a choice more. Whether the graph has no cycle;
    /// if it has one the solver stays as it was.
    pub(crate) fn add(&mut self, alloc: Global, graph: &DiffGraph) -> Result<bool, NoMemory>
        requires solver { IsSolver self.old }
        requires more { HasChoiceMore self.old.network graph.now }
        ensures { IfOk result (λ added. MatchBool added
            (IsSolver self.new × (self.new.network ≡ graph.now)
            × (length self.new.levels ≡ suc (length self.old.levels)))
            (HasCycle graph.now.arcs × (self.new ≡ self.old))) }
    {
        let Some(walks) = self.network.add(alloc, graph)? else {
            return Ok(false);
        };
        let reached = replace(&mut self.reached, FoundFlow::nothing());
        self.levels.push(Level { walks, reached })?;
        Ok(true)
    }

    /// Follows its graph, whose last arc, that of a choice, was taken away.
    pub(crate) fn take_away(&mut self, graph: &DiffGraph)
        requires solver { IsSolver self.old }
        requires fewer { HasOneMoreArc graph.now self.old.network }
        requires some { 0 < length self.old.levels }
        ensures solver { IsSolver self.new }
        ensures network { self.new.network ≡ graph.now }
        ensures count { length self.old.levels ≡ suc (length self.new.levels) }
    {
        match self.levels.pop() {
            Some(level) => {
                self.network.take_away(graph, level.walks);
                self.reached = level.reached;
            }
            None => unreachable!(),
        }
    }

    /// Makes sure that there is a best flow on the graph. It is found from what was found before
    /// the last arc came, else from `start`, else from the first flow.
    pub(crate) fn make_best(
        &mut self,
        alloc: Global,
        graph: &DiffGraph,
        start: Option<&Flow>,
    ) -> Result<(), NoMemory>
        requires solver { IsSolver self.old }
        requires graph { IsSame self.old.network graph.now }
        requires start { MatchOption start (Unit {0}) (λ flow. IsStartingFlow graph.now flow.now) }
        ensures solver { OnOk result (IsSolver self.new) }
        ensures network { self.new.network ≡ self.old.network }
        ensures levels { self.new.levels ≡ self.old.levels }
        ensures best { OnOk result (IsSome self.new.reached.best) }
    {
        if self.reached.best.is_some() {
            return Ok(());
        }
        self.reached = self.begin(alloc, graph, start)?;
        Ok(())
    }

    /// A best flow of the graph, and its least tight numbers if they are known.
    fn begin(
        &self,
        alloc: Global,
        graph: &DiffGraph,
        start: Option<&Flow>,
    ) -> Result<FoundFlow, NoMemory>
        requires solver { IsSolver self.now }
        requires graph { IsSame self.now.network graph.now }
        requires start { MatchOption start (Unit {0}) (λ flow. IsStartingFlow graph.now flow.now) }
        ensures reached { IfOk result (IsFoundFlow self.now.network) }
        ensures best { IfOk result (λ reached. IsSome reached.best) }
    {
        if let Some(level) = self.levels.as_slice().last() {
            if let Some(best) = &level.reached.best {
                if let Some(numbers) = &level.reached.numbers {
                    return from_before(alloc, graph, &self.network, best, numbers);
                }
            }
        }
        from_start(alloc, graph, &self.network, start)
    }

    /// The best flow that was made.
    pub(crate) fn best(&self) -> &Bounded
        requires solver { IsSolver self.now }
        requires best { IsSome self.now.reached.best }
        ensures is { self.now.reached.best ≡ Some result.now }
        ensures best { IsBestOn self.now.network result.now }
    {
        match &self.reached.best {
            Some(best) => best,
            None => unreachable!(),
        }
    }

    /// Makes sure that the least numbers that are tight for the best flow are known.
    pub(crate) fn find_numbers(&mut self, alloc: Global) -> Result<(), NoMemory>
        requires solver { IsSolver self.old }
        requires best { IsSome self.old.reached.best }
        ensures solver { OnOk result (IsSolver self.new) }
        ensures network { self.new.network ≡ self.old.network }
        ensures levels { self.new.levels ≡ self.old.levels }
        ensures best { self.new.reached.best ≡ self.old.reached.best }
        ensures numbers { OnOk result (IsSome self.new.reached.numbers) }
    {
        if self.reached.numbers.is_some() {
            return Ok(());
        }
        let numbers = least_numbers(alloc, &self.network, &self.best().flow)?;
        self.reached.numbers = Some(numbers);
        Ok(())
    }

    /// The least numbers that are tight for the best flow, which were found.
    pub(crate) fn numbers(&self) -> &[i64]
        requires solver { IsSolver self.now }
        requires numbers { IsSome self.now.reached.numbers }
        ensures { MatchOption self.now.reached.best ⊥ (λ best.
            AreLeastNumbers self.now.network best.flow result.now) }
    {
        match &self.reached.numbers {
            Some(numbers) => numbers.as_slice(),
            None => unreachable!(),
        }
    }
}
