//! A graph without a cycle, made ready for flows once.

ghost use Rattle.std.specs.Prelude.{◌≡◌, ◌≤◌, ◌<◌, ◌^◌, ℕ, ℤ, pos, length, slice_index, map};
ghost use Rattle.std.specs.Prelude.{IfOk, MatchOption, MatchResult, OnErr};
ghost use Rattle.shape_graphs.specs.Flows.{Balances, IsBestFlow, number_at};
ghost use Rattle.shape_graphs.specs.Paths.{HasCycle};
ghost use Rattle.diff_flow.specs.Amounts.{IsFlowOn};
ghost use Rattle.diff_flow.specs.Tight.{AreLeastTight, AreTight};
ghost use Rattle.diff_flow.specs.Walks.{AreLeastBefore, AreWalkLengthsOf, HasOneMoreArc};

use crate::better::find_better;
use crate::growing::{first_numbers, grow};
use crate::labels::least_met;
use crate::steps::{Steps, steps_of};
use crate::walks::longest_walks;
use compact_types::{Flow, Items, NoMemory};
use shape_graphs::{DiffGraph, arcs_in_order};
use std::alloc::Global;
use std::marker::Model;
use std::mem::replace;
use std::snapshot::Snapshot;

/// A graph without a cycle, made ready for flows: its steps by the node that they begin at, and
/// the longest walks. It is made once for a graph, and serves each flow on it.
///
/// Contracts see it as the graph, of which it keeps no copy.
#[derive(Drop)]
pub struct Network {
    pub(crate) graph: Snapshot<DiffGraph>,
    pub(crate) steps: Steps,
    pub(crate) walks: Items<u64>,
}

impl Model for Network {
    ghost use Rattle.shape_graphs.specs.declared.graph.DiffGraph.{DiffGraph};

    ghost Value = { DiffGraph };

    ghost use Rattle.diff_flow.specs.inner.Networks.{AreMadeFor};

    ghost view = { λ network. network.graph.value };

    ghost invariant = { λ network. AreMadeFor network.graph.value network.steps
        network.walks };
}

impl Network {
    /// The network of the graph; `None` exactly if the graph has a cycle. Takes time in proportion
    /// to nodes and arcs.
    pub fn of(alloc: Global, graph: &DiffGraph) -> Result<Option<Network>, NoMemory>
        ensures { IfOk result (λ found. MatchOption found
            (HasCycle graph.now.arcs)
            (λ network. (network ≡ graph.now) × (HasCycle graph.now.arcs → ⊥))) }
    {
        let order = match arcs_in_order(alloc, graph)? {
            Some(order) => order,
            None => return Ok(None),
        };
        let steps = steps_of(alloc, graph)?;
        let walks = longest_walks(alloc, &steps, order.as_slice())?;
        Ok(Some(Network {
            graph: Snapshot::of(graph),
            steps,
            walks: Items::from_vec(walks),
        }))
    }

    /// Makes the flow best: no balanced flow has a greater bound. A best flow stays as it is, as
    /// one that is tight on the longest walks is, and so does every flow without memory.
    pub fn make_best(&self, alloc: Global, flow: &mut Flow) -> Result<(), NoMemory>
        requires flow { IsFlowOn self.now.arcs flow.old.amounts }
        requires balances { Balances self.now.nodes self.now.arcs flow.old.amounts }
        ensures flow { IfOk result (λ _. IsFlowOn self.now.arcs flow.new.amounts) }
        ensures best { IfOk result (λ _. IsBestFlow self.now.nodes self.now.arcs flow.new.amounts) }
        ensures tight { IfOk result (λ _. (numbers : ℕ → ℤ)
            × AreTight self.now.nodes self.now.arcs flow.new.amounts numbers) }
        ensures kept { IsBestFlow self.now.nodes self.now.arcs flow.old.amounts →
            flow.new.amounts ≡ flow.old.amounts }
        ensures refused { MatchResult result (λ _. Unit {0})
            (λ _. flow.new.amounts ≡ flow.old.amounts) }
    {
        let walks = self.walks.as_slice();
        if let Some(better) = find_better(alloc, &self.graph, &self.steps, walks, flow)? {
            *flow = better.flow;
        }
        Ok(())
    }

    /// Makes the flow best as `make_best` does, begun from the numbers that were least for some
    /// flow before the last arc was added. The more the flow is like that one, the less is done.
    pub fn make_best_from(
        &self,
        alloc: Global,
        flow: &mut Flow,
        numbers: &Items<i64>,
    ) -> Result<(), NoMemory>
        requires flow { IsFlowOn self.now.arcs flow.old.amounts }
        requires balances { Balances self.now.nodes self.now.arcs flow.old.amounts }
        requires one_for_each { length numbers.now ≡ self.now.nodes }
        requires least { AreLeastBefore self.now.nodes self.now.arcs (number_at numbers.now) }
        ensures flow { IfOk result (λ _. IsFlowOn self.now.arcs flow.new.amounts) }
        ensures best { IfOk result (λ _. IsBestFlow self.now.nodes self.now.arcs flow.new.amounts) }
        ensures tight { IfOk result (λ _. (numbers : ℕ → ℤ)
            × AreTight self.now.nodes self.now.arcs flow.new.amounts numbers) }
        ensures kept { IsBestFlow self.now.nodes self.now.arcs flow.old.amounts →
            flow.new.amounts ≡ flow.old.amounts }
        ensures refused { MatchResult result (λ _. Unit {0})
            (λ _. flow.new.amounts ≡ flow.old.amounts) }
    {
        let walks = self.walks.as_slice();
        let first = first_numbers(alloc, &self.graph, &self.steps, walks, numbers.as_slice())?;
        let first = first.as_slice();
        if let Some(better) = find_better(alloc, &self.graph, &self.steps, first, flow)? {
            *flow = better.flow;
        }
        Ok(())
    }

    /// Follows its graph, which has got one arc more at its end. Answers the longest walks before,
    /// by which the arc can be taken away again; `None` exactly if the graph has a cycle now. Then,
    /// and without memory, the network stays as it was. Only nodes whose longest walks grow are
    /// visited.
    pub fn add(&mut self, alloc: Global, graph: &DiffGraph) -> Result<Option<Items<u64>>, NoMemory>
        requires { HasOneMoreArc self.old graph.now }
        ensures added { IfOk result (λ found. MatchOption found
            ((HasCycle graph.now.arcs) × (self.new ≡ self.old))
            (λ walks. (self.new ≡ graph.now) × (HasCycle graph.now.arcs → ⊥)
            × AreWalkLengthsOf self.old walks)) }
        ensures refused { OnErr result (self.new ≡ self.old) }
    {
        let walks = self.walks.as_slice();
        let Some(longer) = grow(alloc, &self.graph, graph, &mut self.steps, walks)? else {
            return Ok(None);
        };
        self.graph = Snapshot::of(graph);
        Ok(Some(replace(&mut self.walks, longer)))
    }

    /// Follows its graph, whose last arc was taken away. `walks` are the longest walks of the
    /// graph, as `add` answered them.
    pub fn take_away(&mut self, graph: &DiffGraph, walks: Items<u64>)
        requires fewer { HasOneMoreArc graph.now self.old }
        requires walks { AreWalkLengthsOf graph.now walks }
        ensures { self.new ≡ graph.now }
    {
        self.steps.pop();
        self.walks = walks;
        self.graph = Snapshot::of(graph);
    }

    /// The least numbers from zero upward that solve the graph and are tight for the flow, at every
    /// node; `None` exactly if no numbers are. A flow with tight numbers is best.
    pub fn least_tight(&self, alloc: Global, flow: &Flow) -> Result<Option<Items<i64>>, NoMemory>
        requires { IsFlowOn self.now.arcs flow.now.amounts }
        ensures numbers { IfOk result (λ found. MatchOption found
            ((numbers : ℕ → ℤ) →
            AreTight self.now.nodes self.now.arcs flow.now.amounts numbers → ⊥)
            (λ numbers.
            AreLeastTight self.now.nodes self.now.arcs flow.now.amounts (number_at numbers))) }
        ensures nodes { IfOk result (λ found. MatchOption found
            (Unit {0}) (λ numbers. length numbers ≡ self.now.nodes)) }
    {
        let amounts = flow.amounts.as_slice();
        match least_met(alloc, &self.steps, self.walks.as_slice(), amounts)? {
            None => Ok(None),
            Some(numbers) => Ok(Some(signed(alloc, numbers.as_slice())?)),
        }
    }
}

/// The same numbers with a sign.
fn signed(alloc: Global, numbers: &[u64]) -> Result<Items<i64>, NoMemory>
    requires { (v : ℕ) → v < length numbers.now → slice_index numbers.now v ≤ 2 ^ 60 }
    ensures { IfOk result (λ list. list ≡ map pos numbers.now) }
{
    let mut list = Vec::with_capacity(alloc, numbers.len())?;
    for number in numbers {
        list.push(*number as i64)?;
    }
    Ok(Items::from_vec(list))
}
