//! The law of the centre: the drawings of a shape are the solutions of its complete extensions.

ghost use Rattle.std.specs.Prelude.{◌≡◌, ◌↔◌, ℕ, ◌<◌, List, length};
ghost use Rattle.compact_types.specs.declared.places.Key.{Key};
ghost use Rattle.compact_types.specs.declared.places.Places.{Places};
ghost use Rattle.compact_types.specs.declared.plan.Shape.{Shape};
ghost use Rattle.compact_types.specs.declared.search.Choice.{Choice};
ghost use Rattle.compact_types.specs.Bests.{Objective};
ghost use Rattle.compact_types.specs.Drawings.{IsDrawing};
ghost use Rattle.bars.specs.Segments.{IsPair};
ghost use Rattle.bars.specs.Sides.{SideHolds};
ghost use Rattle.bars.specs.Solutions.{HasDrawing, Fit, Solves, choice_at, with_choice};
ghost use Rattle.shape_graphs.specs.Measures.{IsLeastKey};
ghost use Rattle.shape_graphs.specs.Separation.{IsSeparated, IsComplete};
ghost use Rattle.separation.specs.Branching.{IsBranchPair};
ghost use Rattle.separation.specs.Meetings.{ShareAPoint, AreApart};

/// Every solution of a complete list of choices is a drawing (Klau and Mutzel's characterization
/// of drawings by complete extensions, one half).
pub fn complete_solutions_are_drawings()
    ensures { (shape : Shape) (choices : List Choice) (places : Places) →
        HasDrawing shape → Fit shape choices → IsComplete shape choices →
        Solves shape choices places → IsDrawing shape places }
{}

/// In a drawing one of the four sides of every pair holds, so that a drawing that solves some
/// choices solves them with that side added (the other half).
pub fn drawings_take_a_side()
    ensures side { (shape : Shape) (places : Places) (s t : ℕ) → IsDrawing shape places →
        IsPair shape s t → (side : ℕ) × (side < 4) × SideHolds shape places s t side }
    ensures added { (shape : Shape) (choices : List Choice) (places : Places) (s t side : ℕ) →
        Solves shape choices places → SideHolds shape places s t side →
        Solves shape (with_choice choices s t side) places }
    ensures solved { (shape : Shape) (choices : List Choice) (places : Places) (s t : ℕ) →
        IsDrawing shape places → Solves shape choices places → IsPair shape s t →
        (side : ℕ) × (side < 4) × Solves shape (with_choice choices s t side) places }
{}

/// Places that solve the choices are a drawing exactly if no pair shares a point in them. A
/// pair that does is neither separated by the choices nor the pair of one of them.
pub fn drawings_are_apart()
    ensures drawing { (shape : Shape) (choices : List Choice) (places : Places) → HasDrawing shape →
        Solves shape choices places → IsDrawing shape places ↔ AreApart shape places }
    ensures not_separated { (shape : Shape) (choices : List Choice) (places : Places) (s t : ℕ) →
        HasDrawing shape → Fit shape choices → Solves shape choices places → IsPair shape s t →
        ShareAPoint shape places s t → IsSeparated shape choices s t → ⊥ }
    ensures not_chosen { (shape : Shape) (choices : List Choice) (places : Places) (j : ℕ) →
        HasDrawing shape → Fit shape choices → Solves shape choices places → j < length choices →
        ShareAPoint shape places (choice_at choices j).s (choice_at choices j).t → ⊥ }
{}

/// At most one pair is the branch pair of given choices and places. The least key is determined by
/// the choices, so the pair at its places is too.
pub fn branch_pairs_are_one()
    ensures at_places { (shape : Shape) (choices : List Choice) (places : Places) (s t u v : ℕ) →
        IsBranchPair shape choices places s t → IsBranchPair shape choices places u v →
        (s ≡ u) × (t ≡ v) }
    ensures at_least_keys { (objective : Objective) (shape : Shape) (choices : List Choice)
        (k l : Key) (s t u v : ℕ) → IsLeastKey objective shape choices k →
        IsLeastKey objective shape choices l → IsBranchPair shape choices k.places s t →
        IsBranchPair shape choices l.places u v → (s ≡ u) × (t ≡ v) }
{}
