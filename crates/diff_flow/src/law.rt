//! Laws of flows and solutions, over every graph.

ghost use Rattle.std.specs.Prelude.{
  ◌↔◌,
  ◌≡◌,
  ℕ,
  ◌-◌,
  ◌*◌,
  ◌<◌,
  ℤ,
  pos,
  ◌+ℤ◌,
  ◌≤ℤ◌,
  [],
  ◌∷◌,
  ◌++◌,
  List,
  length,
};
ghost use Rattle.shape_graphs.specs.declared.graph.Arc.{Arc};
ghost use Rattle.shape_graphs.specs.Arcs.{arc_at, AreArcsWithin, EndsAreNodes};
ghost use Rattle.compact_types.specs.Sums.{sum_to};
ghost use Rattle.shape_graphs.specs.Flows.{
  amount_at,
  Balances,
  bound_of,
  length_over,
  IsBestFlow,
  IsSolution,
  IsTight,
};
ghost use Rattle.diff_flow.specs.Tight.{AreTight, AreLeastTight};
ghost use Rattle.diff_flow.specs.Shortest.{IsShortest, lesser};

/// Weak duality: the length of every solution is at least the bound of every balanced flow, and
/// equal exactly where the solution is tight on each arc with a positive amount; then the flow is
/// best.
pub fn flows_bound_lengths()
    ensures bound { (nodes : ℕ) (arcs : List Arc) (amounts : List ℕ) (numbers : ℕ → ℤ) →
        EndsAreNodes nodes arcs → Balances nodes arcs amounts → IsSolution arcs numbers →
        bound_of arcs amounts ≤ℤ length_over arcs numbers }
    ensures equal { (nodes : ℕ) (arcs : List Arc) (amounts : List ℕ) (numbers : ℕ → ℤ) →
        EndsAreNodes nodes arcs → Balances nodes arcs amounts → IsSolution arcs numbers →
        ((bound_of arcs amounts ≡ length_over arcs numbers) ↔ IsTight arcs amounts numbers) }
    ensures best { (nodes : ℕ) (arcs : List Arc) (amounts : List ℕ) (numbers : ℕ → ℤ) →
        EndsAreNodes nodes arcs → Balances nodes arcs amounts → IsSolution arcs numbers →
        IsTight arcs amounts numbers → IsBestFlow nodes arcs amounts }
{}

/// The lesser numbers of two solutions of the least length are such a solution, and the lesser
/// numbers of two that are tight for a flow are tight for it.
pub fn least_solutions_meet()
    ensures shortest { (arcs : List Arc) (numbers others : ℕ → ℤ) →
        IsShortest arcs numbers → IsShortest arcs others → IsShortest arcs (lesser numbers others) }
    ensures tight { (nodes : ℕ) (arcs : List Arc) (amounts : List ℕ) (numbers others : ℕ → ℤ) →
        AreTight nodes arcs amounts numbers → AreTight nodes arcs amounts others →
        AreTight nodes arcs amounts (lesser numbers others) }
{}

/// The least tight numbers of a flow climb by at most the greatest least of an arc from node to
/// node, so none is above that times one less than the nodes; and where each least is 1, every
/// whole number up to the greatest is the number of a node.
pub fn least_numbers_have_no_gaps()
    ensures low { (nodes : ℕ) (arcs : List Arc) (amounts : List ℕ) (numbers : ℕ → ℤ)
        (greatest : ℕ) →
        EndsAreNodes nodes arcs → AreArcsWithin arcs →
        ((i : ℕ) → i < length arcs → (arc_at arcs i).least ≤ℤ pos greatest) →
        AreLeastTight nodes arcs amounts numbers →
        (node : ℕ) → node < nodes → numbers node ≤ℤ pos (greatest * (nodes - 1)) }
    ensures taken { (nodes : ℕ) (arcs : List Arc) (amounts : List ℕ) (numbers : ℕ → ℤ) →
        EndsAreNodes nodes arcs → AreArcsWithin arcs →
        ((i : ℕ) → i < length arcs → (arc_at arcs i).least ≡ pos 1) →
        AreLeastTight nodes arcs amounts numbers →
        (height node : ℕ) → node < nodes → pos height ≤ℤ numbers node →
        (at : ℕ) × (at < nodes) × (numbers at ≡ pos height) }
{}

/// Where the least tight numbers of a flow meet one arc more, they are the least tight numbers of
/// the flow that carries nothing on it.
pub fn least_numbers_that_meet_an_arc()
    ensures { (nodes : ℕ) (arcs : List Arc) (arc : Arc) (amounts : List ℕ) (numbers : ℕ → ℤ) →
        length amounts ≡ length arcs → AreLeastTight nodes arcs amounts numbers →
        (numbers arc.from +ℤ arc.least) ≤ℤ numbers arc.to →
        AreLeastTight nodes (arcs ++ arc ∷ []) (amounts ++ 0 ∷ []) numbers }
{}

/// Where a graph has a solution no amount of a balanced flow is above the sum of the pulls.
pub fn amounts_are_low()
    ensures { (nodes : ℕ) (arcs : List Arc) (amounts : List ℕ) (numbers : ℕ → ℤ) →
        EndsAreNodes nodes arcs → AreArcsWithin arcs → Balances nodes arcs amounts →
        IsSolution arcs numbers → (i : ℕ) → i < length arcs →
        pos (amount_at amounts i) ≤ℤ sum_to (λ j. (arc_at arcs j).pull) (length arcs) }
{}
