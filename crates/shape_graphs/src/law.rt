//! Laws of paths, cycles and solutions of graphs.

ghost use Rattle.std.specs.Prelude.{ℕ, ℤ, ◌↔◌, ◌⊎◌, ◌+ℤ◌, ◌≤ℤ◌, pos, List, ◌∷◌};
ghost use Rattle.compact_types.specs.declared.places.Axis.{Axis};
ghost use Rattle.compact_types.specs.declared.places.Places.{Places};
ghost use Rattle.compact_types.specs.declared.plan.Shape.{Shape};
ghost use Rattle.compact_types.specs.declared.search.Choice.{Choice};
ghost use Rattle.bars.specs.Solutions.{HasDrawing, Fit, Solves};
ghost use Rattle.shape_graphs.specs.declared.graph.Arc.{Arc};
ghost use Rattle.shape_graphs.specs.Arcs.{AreArcsWithin};
ghost use Rattle.shape_graphs.specs.Flows.{IsSolution};
ghost use Rattle.shape_graphs.specs.Graphs.{arcs_of};
ghost use Rattle.shape_graphs.specs.Orders.{IsArcOrder};
ghost use Rattle.shape_graphs.specs.Paths.{HasPath, HasCycle, IsAtOrReached, HaveArcsIn};
ghost use Rattle.shape_graphs.specs.Paths.{IsCycle, IsSimpleCycle};
ghost use Rattle.shape_graphs.specs.Places.{SolvesGraphs};

/// Paths of graphs: two make one, whether there is one is decided, graphs with the same arcs have
/// the same paths, and with one arc more a path goes without it or once through it.
pub fn paths_of_arcs()
    ensures joined { (arcs : List Arc) (a b c : ℕ) →
        HasPath arcs a b → HasPath arcs b c → HasPath arcs a c }
    ensures decided { (arcs : List Arc) (a b : ℕ) → HasPath arcs a b ⊎ (HasPath arcs a b → ⊥) }
    ensures same { (arcs others : List Arc) → HaveArcsIn arcs others →
        (a b : ℕ) → HasPath arcs a b → HasPath others a b }
    ensures with_one_more { (arc : Arc) (arcs : List Arc) (a b : ℕ) →
        HasPath (arc ∷ arcs) a b
        ↔ (HasPath arcs a b ⊎ (IsAtOrReached arcs a arc.from × IsAtOrReached arcs arc.to b)) }
{}

/// A graph has a cycle exactly where a list of its arcs makes one, and then a simple one; and it
/// has none where its arcs stand in topological order.
pub fn cycles_and_walks()
    ensures walk { (arcs : List Arc) (walk : List ℕ) → IsCycle arcs walk → HasCycle arcs }
    ensures simple { (arcs : List Arc) → HasCycle arcs →
        (walk : List ℕ) × IsSimpleCycle arcs walk }
    ensures none { (arcs : List Arc) (order : List ℕ) → IsArcOrder arcs order → HasCycle arcs → ⊥ }
    ensures decided { (arcs : List Arc) → HasCycle arcs ⊎ (HasCycle arcs → ⊥) }
{}

/// Along a path the numbers of a solution rise by at least 1, so a graph with a solution has no
/// cycle; and a graph without a cycle has a solution, with numbers from 0 upward.
pub fn solutions_and_cycles()
    ensures rises { (arcs : List Arc) (numbers : ℕ → ℤ) (a b : ℕ) → AreArcsWithin arcs →
        IsSolution arcs numbers → HasPath arcs a b → (numbers a +ℤ pos 1) ≤ℤ numbers b }
    ensures none { (arcs : List Arc) (numbers : ℕ → ℤ) → AreArcsWithin arcs →
        IsSolution arcs numbers → HasCycle arcs → ⊥ }
    ensures some { (arcs : List Arc) → (HasCycle arcs → ⊥) →
        (numbers : ℕ → ℤ) × IsSolution arcs numbers × ((v : ℕ) → pos 0 ≤ℤ numbers v) }
{}

/// In a shape that has a drawing places solve the choices exactly where in both graphs all
/// vertices of a node are level and the difference over each arc is at least its least. There are
/// such places exactly where neither graph has a cycle.
pub fn places_by_graphs()
    ensures solve { (shape : Shape) (choices : List Choice) (places : Places) → HasDrawing shape →
        Fit shape choices → Solves shape choices places ↔ SolvesGraphs shape choices places }
    ensures some { (shape : Shape) (choices : List Choice) → HasDrawing shape → Fit shape choices →
        ((places : Places) × Solves shape choices places)
        ↔ ((axis : Axis) → HasCycle (arcs_of axis shape choices) → ⊥) }
{}
