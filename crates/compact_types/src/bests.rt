//! The best drawing of a shape.

ghost use Rattle.std.specs.Prelude.{◌≡◌};
ghost use Rattle.compact_types.specs.declared.places.Places.{Places};
ghost use Rattle.compact_types.specs.declared.plan.Shape.{Shape};
ghost use Rattle.compact_types.specs.Bests.{Objective, IsBest};

/// A shape has at most one best drawing: of two different keys with equally many points one comes
/// before the other.
pub fn at_most_one_best()
    ensures { (objective : Objective) (shape : Shape) (p q : Places) →
        IsBest objective shape p → IsBest objective shape q → p ≡ q }
{}
