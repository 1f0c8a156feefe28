//! The two constraint graphs of a list of choices that grows and shrinks at its end.

ghost use Rattle.std.specs.Prelude.{◌≡◌, ◌-◌, ◌∷◌, ◌++◌, [], length, replicate, take};
ghost use Rattle.std.specs.Prelude.{IfOk, MatchOption, OnOk};
ghost use Rattle.compact_types.specs.declared.places.Axis.{Axis as AnyAxis};
ghost use Rattle.compact_types.specs.declared.plan.Shape.{Shape as AnyShape};
ghost use Rattle.bars.specs.Solutions.{Fit};
ghost use Rattle.shape_graphs.specs.Arcs.{AreGraph};
ghost use Rattle.shape_graphs.specs.Growing.{AreGrown, amounts_on, with_nothing, without_last};
ghost use Rattle.shape_graphs.specs.Growing as growing;

use crate::graph::{Arc, DiffGraph};
use crate::graphs::{axis_of_side, graphs_of, side_arc};
use bars::Bars;
use compact_types::{Axis, Choice, Extension, Flow, Items, NoMemory};
use std::alloc::Global;

/// The graph of an axis, with an amount on each of its arcs.
#[derive(Debug, Drop)]
pub struct GrowingGraph {
    pub graph: DiffGraph,
    pub flow: Flow,
}

/// The graphs of a list of choices. They are made once, for no choice, and each choice more or less
/// adds or removes the last arc of one of them.
#[derive(Debug, Drop)]
pub struct GrowingGraphs {
    pub choices: Items<Choice>,
    pub columns: GrowingGraph,
    pub rows: GrowingGraph,
}

impl GrowingGraphs {
    /// The graphs of no choice, with nothing on their arcs.
    pub fn new(alloc: Global, bars: &Bars) -> Result<GrowingGraphs, NoMemory>
        ensures grown { IfOk result (AreGrown bars.now) }
        ensures choices { IfOk result (λ graphs. graphs.choices ≡ []) }
        ensures amounts { IfOk result (λ graphs. (axis : AnyAxis) → amounts_on axis graphs
            ≡ replicate (length (growing.graph_on axis graphs).graph.arcs) 0) }
    {
        let choices = Items::new(alloc);
        let extension = Extension { choices };
        let (columns, rows) = graphs_of(alloc, bars, &extension)?;
        let columns = GrowingGraph::new(alloc, columns)?;
        let rows = GrowingGraph::new(alloc, rows)?;
        let choices = extension.choices;
        Ok(GrowingGraphs {
            choices,
            columns,
            rows,
        })
    }

    /// The graph along an axis.
    pub fn graph_on(&self, axis: Axis) -> &GrowingGraph
        ensures { result.now ≡ growing.graph_on axis self.now }
    {
        match axis {
            Axis::X => &self.columns,
            Axis::Y => &self.rows,
        }
    }

    /// Adds a choice at the end; its arc carries nothing, and the other amounts stay. Without
    /// memory these are no longer the graphs of the choices: let them go.
    pub fn push(&mut self, bars: &Bars, choice: Choice) -> Result<(), NoMemory>
        requires grown { AreGrown bars.now self.old }
        requires fit { Fit bars.now (self.old.choices ++ choice ∷ []) }
        ensures grown { OnOk result (AreGrown bars.now self.new) }
        ensures choices { OnOk result (self.new.choices ≡ self.old.choices ++ choice ∷ []) }
        ensures amounts { OnOk result ((axis : AnyAxis) → amounts_on axis self.new
            ≡ with_nothing axis choice (amounts_on axis self.old)) }
    {
        // The call says what is known of the shape: that it is small and has a drawing.
        let _what_is_known = bars.shape();
        let arc = side_arc(bars, choice);
        self.choices.push(choice)?;
        match axis_of_side(choice.side) {
            Axis::X => {
                self.columns.push(arc)?;
                Ok(())
            }
            Axis::Y => {
                self.rows.push(arc)?;
                Ok(())
            }
        }
    }

    /// Removes the last choice with its arc, and returns it; the other amounts stay. `None` exactly
    /// if there is no choice.
    pub fn pop(&mut self) -> Option<Choice>
        ensures choice { MatchOption result (self.old.choices ≡ [])
            (λ choice. self.old.choices ≡ self.new.choices ++ choice ∷ []) }
        ensures amounts { MatchOption result (self.new ≡ self.old) (λ choice. (axis : AnyAxis) →
            amounts_on axis self.new ≡ without_last axis choice (amounts_on axis self.old)) }
        ensures grown { (shape : AnyShape) → AreGrown shape self.old → AreGrown shape self.new }
    {
        match self.choices.pop() {
            None => None,
            Some(choice) => {
                match axis_of_side(choice.side) {
                    Axis::X => self.columns.pop(),
                    Axis::Y => self.rows.pop(),
                }
                Some(choice)
            }
        }
    }
}

impl GrowingGraph {
    /// The graph, with nothing on its arcs.
    fn new(alloc: Global, graph: DiffGraph) -> Result<GrowingGraph, NoMemory>
        ensures nodes { IfOk result (λ grown. grown.graph.nodes ≡ graph.nodes) }
        ensures arcs { IfOk result (λ grown. grown.graph.arcs ≡ graph.arcs) }
        ensures amounts { IfOk result (λ grown.
            grown.flow.amounts ≡ replicate (length graph.arcs) 0) }
    {
        let amounts = Items::from_vec(vec![in alloc; 0u64; graph.arcs.len()]?);
        let flow = Flow { amounts };
        Ok(GrowingGraph { graph, flow })
    }

    /// Adds an arc at the end, with nothing on it.
    fn push(&mut self, arc: Arc) -> Result<(), NoMemory>
        requires { AreGraph self.old.graph.nodes (self.old.graph.arcs ++ arc ∷ []) }
        ensures nodes { self.new.graph.nodes ≡ self.old.graph.nodes }
        ensures arcs { OnOk result (self.new.graph.arcs ≡ self.old.graph.arcs ++ arc ∷ []) }
        ensures amounts { OnOk result (self.new.flow.amounts ≡ self.old.flow.amounts ++ 0 ∷ []) }
    {
        self.flow.amounts.push(0)?;
        push_arc(&mut self.graph, arc)
    }

    /// Removes the last arc with its amount.
    fn pop(&mut self)
        ensures nodes { self.new.graph.nodes ≡ self.old.graph.nodes }
        ensures arcs { self.new.graph.arcs
            ≡ take (length self.old.graph.arcs - 1) self.old.graph.arcs }
        ensures amounts { self.new.flow.amounts
            ≡ take (length self.old.flow.amounts - 1) self.old.flow.amounts }
    {
        self.flow.amounts.pop();
        pop_arc(&mut self.graph);
    }
}

/// Adds an arc at the end of the graph.
fn push_arc(graph: &mut DiffGraph, arc: Arc) -> Result<(), NoMemory>
    requires { AreGraph graph.old.nodes (graph.old.arcs ++ arc ∷ []) }
    ensures nodes { graph.new.nodes ≡ graph.old.nodes }
    ensures arcs { OnOk result (graph.new.arcs ≡ graph.old.arcs ++ arc ∷ []) }
{
    graph.arcs.push(arc)?;
    Ok(())
}

/// Removes the last arc of the graph.
fn pop_arc(graph: &mut DiffGraph)
    ensures nodes { graph.new.nodes ≡ graph.old.nodes }
    ensures arcs { graph.new.arcs ≡ take (length graph.old.arcs - 1) graph.old.arcs }
{
    graph.arcs.pop();
}
