//! A drawing that is moved in the plane is a drawing of the same length.

ghost use Rattle.std.specs.Prelude.{◌≡◌, ℕ, ◌<◌, pos, ℤ, ◌+ℤ◌, ◌-ℤ◌, length};
ghost use Rattle.compact_types.specs.declared.places.Axis.{Axis};
ghost use Rattle.compact_types.specs.declared.places.Places.{Places};
ghost use Rattle.compact_types.specs.declared.plan.Plan.{Plan};
ghost use Rattle.compact_types.specs.declared.plan.Shape.{Shape};
ghost use Rattle.compact_types.specs.Drawings.{IsCrossingFree, IsDrawing, IsFromZero};
ghost use Rattle.compact_types.specs.Lengths.{distance, plain_length_of, length_of};
ghost use Rattle.compact_types.specs.Lookups.{place, along};
ghost use Rattle.compact_types.specs.Moves.{moved_point, moved};

/// What stays if all points are moved alike: that they are a drawing, its lengths, and how far
/// each vertex is from each other.
pub fn moves_keep_drawings()
    ensures crossing_free { (shape : Shape) (places : Places) (dx dy : ℤ) →
        IsCrossingFree shape places → IsCrossingFree shape (moved dx dy places) }
    ensures drawing { (shape : Shape) (places : Places) (dx dy : ℤ) →
        IsDrawing shape places → IsDrawing shape (moved dx dy places) }
    ensures plain_length { (plan : Plan) (places : Places) (dx dy : ℤ) →
        length places.xy ≡ plan.vertices →
        plain_length_of plan (moved dx dy places) ≡ plain_length_of plan places }
    ensures total_length { (plan : Plan) (places : Places) (dx dy : ℤ) →
        length places.xy ≡ plan.vertices →
        length_of plan (moved dx dy places) ≡ length_of plan places }
    ensures differences { (axis : Axis) (places : Places) (dx dy : ℤ) (v w : ℕ) →
        v < length places.xy → w < length places.xy →
        along axis (place (moved dx dy places).xy w) -ℤ along axis (place (moved dx dy places).xy v)
        ≡ along axis (place places.xy w) -ℤ along axis (place places.xy v) }
    ensures distances { (places : Places) (dx dy : ℤ) (v w : ℕ) →
        v < length places.xy → w < length places.xy →
        distance (place (moved dx dy places).xy v) (place (moved dx dy places).xy w)
        ≡ distance (place places.xy v) (place places.xy w) }
{}

/// Where the points go: as many as before, each by as much, and back again by the same move with
/// the other sign.
pub fn moves_add_up()
    ensures points { (places : Places) (dx dy : ℤ) →
        length (moved dx dy places).xy ≡ length places.xy }
    ensures each { (places : Places) (dx dy : ℤ) (v : ℕ) → v < length places.xy →
        place (moved dx dy places).xy v ≡ moved_point dx dy (place places.xy v) }
    ensures back { (places : Places) (dx dy : ℤ) →
        moved (pos 0 -ℤ dx) (pos 0 -ℤ dy) (moved dx dy places) ≡ places }
    ensures twice { (places : Places) (a b c d : ℤ) →
        moved c d (moved a b places) ≡ moved (a +ℤ c) (b +ℤ d) places }
{}

/// Places with a vertex can be moved so that they are from zero, and in one way alone.
pub fn one_move_to_zero()
    ensures some { (places : Places) → 0 < length places.xy →
        (dx : ℤ) × (dy : ℤ) × IsFromZero (moved dx dy places) }
    ensures one { (places : Places) (a b c d : ℤ) →
        IsFromZero (moved a b places) → IsFromZero (moved c d places) → (a ≡ c) × (b ≡ d) }
    ensures same { (places : Places) (a b c d : ℤ) →
        IsFromZero (moved a b places) → IsFromZero (moved c d places) →
        moved a b places ≡ moved c d places }
{}
