//! A drawing that is scaled down, or up by a whole number, is a drawing, in its proportions.

ghost use Rattle.std.specs.Prelude.{◌≡◌, ◌↔◌, ◌⊎◌, ℕ, pos, ℤ, ◌*ℤ◌, ◌≤ℤ◌};
ghost use Rattle.compact_types.specs.declared.places.Places.{Places};
ghost use Rattle.compact_types.specs.declared.plan.Plan.{Plan};
ghost use Rattle.compact_types.specs.declared.plan.Shape.{Shape};
ghost use Rattle.compact_types.specs.Drawings.{HasWays, IsCrossingFree, IsDrawing, IsFromZero};
ghost use Rattle.compact_types.specs.Lengths.{length_of};
ghost use Rattle.compact_types.specs.Magnitudes.{AreWithin};
ghost use Rattle.compact_types.specs.Scalings.{IsScaled, IsFirstOff};

/// Places are crossing-free, or a drawing, exactly if the scaled ones are. A point that two scaled
/// pieces share is, times the number, one that the pieces share; and a point that two pieces share
/// is between two points that are, divided by the number, shared by the scaled ones.
pub fn scaling_keeps_drawings()
    ensures crossing_free { (by : ℤ) (shape : Shape) (places scaled : Places) → pos 1 ≤ℤ by →
        IsScaled by places scaled → IsCrossingFree shape places ↔ IsCrossingFree shape scaled }
    ensures drawing { (by : ℤ) (shape : Shape) (places scaled : Places) → pos 1 ≤ℤ by →
        IsScaled by places scaled → IsDrawing shape places ↔ IsDrawing shape scaled }
{}

/// Pieces have the same ways before and after.
pub fn scaling_keeps_ways()
    ensures { (by : ℤ) (shape : Shape) (places scaled : Places) → pos 1 ≤ℤ by →
        IsScaled by places scaled → HasWays shape places ↔ HasWays shape scaled }
{}

/// The length is divided too.
pub fn scaled_lengths()
    ensures { (by : ℤ) (plan : Plan) (places scaled : Places) → pos 1 ≤ℤ by →
        IsScaled by places scaled → length_of plan places ≡ by *ℤ length_of plan scaled }
{}

/// Places are from zero exactly if the scaled ones are.
pub fn scaled_from_zero()
    ensures { (by : ℤ) (places scaled : Places) → pos 1 ≤ℤ by →
        IsScaled by places scaled → IsFromZero places ↔ IsFromZero scaled }
{}

/// No coordinate comes farther out.
pub fn scaled_magnitudes()
    ensures { (by : ℤ) (bound : ℕ) (places scaled : Places) → pos 1 ≤ℤ by →
        IsScaled by places scaled → AreWithin bound places → AreWithin bound scaled }
{}

/// Places can be scaled down in one way alone.
pub fn one_scaling()
    ensures { (by : ℤ) (places p q : Places) → pos 1 ≤ℤ by →
        IsScaled by places p → IsScaled by places q → p ≡ q }
{}

/// Places can be scaled down, or a vertex is the first off the grid; not both, and at most one
/// vertex is.
pub fn scaled_or_off()
    ensures some { (by : ℤ) (places : Places) → pos 1 ≤ℤ by →
        ((scaled : Places) × IsScaled by places scaled) ⊎ ((v : ℕ) × IsFirstOff by places v) }
    ensures not_both { (by : ℤ) (places scaled : Places) (v : ℕ) →
        IsScaled by places scaled → IsFirstOff by places v → ⊥ }
    ensures one { (by : ℤ) (places : Places) (v w : ℕ) →
        IsFirstOff by places v → IsFirstOff by places w → v ≡ w }
{}
