//! Laws of the total length, of its least keys, and of places that are tight for two flows.

ghost use Rattle.std.specs.Prelude.{◌≡◌, ◌↔◌, ℕ, ◌<◌, ℤ, pos, ◌+ℤ◌, ◌<ℤ◌, ◌≤ℤ◌, List};
ghost use Rattle.compact_types.specs.declared.places.Axis.{Axis};
ghost use Rattle.compact_types.specs.declared.places.Axis.TheVariants.{X, Y};
ghost use Rattle.compact_types.specs.declared.places.Key.{Key};
ghost use Rattle.compact_types.specs.declared.places.Places.{Places};
ghost use Rattle.compact_types.specs.declared.plan.Shape.{Shape};
ghost use Rattle.compact_types.specs.declared.search.Choice.{Choice};
ghost use Rattle.compact_types.specs.declared.search.Flows.{Flows};
ghost use Rattle.compact_types.specs.Bests.{key_of, worth_of};
ghost use Rattle.compact_types.specs.Bests.Objective.{total_length};
ghost use Rattle.compact_types.specs.Lengths.{length_of};
ghost use Rattle.compact_types.specs.Lookups.{along, place};
ghost use Rattle.bars.specs.Solutions.{Fit, IsSound, Solves};
ghost use Rattle.shape_graphs.specs.Backings.{AreBalanced, bound_by};
ghost use Rattle.shape_graphs.specs.Flows.{length_over};
ghost use Rattle.shape_graphs.specs.Graphs.{arcs_of};
ghost use Rattle.shape_graphs.specs.Measures.{HaveNoCycle, IsLeastKey};
ghost use Rattle.potentials.specs.Standing.{StandAt};
ghost use Rattle.potentials.specs.TightPlaces.{AreLeastTightPlaces, AreTightPlaces};

/// The length of a solution is the sum over both graphs of the lengths of its numbers: the arcs of
/// choices do not count.
pub fn lengths_by_graphs()
    ensures { (shape : Shape) (choices : List Choice) (places : Places) (numbers : Axis → ℕ → ℤ) →
        Solves shape choices places → StandAt shape numbers places →
        length_of shape.plan places
        ≡ length_over (arcs_of X shape choices) (numbers X)
        +ℤ length_over (arcs_of Y shape choices) (numbers Y) }
{}

/// For two flows that balance: no solution is worth less than their bounds together, and one is
/// worth as much exactly where it is tight for both. Then the flows are best, and the least such
/// places have the least key.
pub fn flows_bound_worths()
    ensures bound { (shape : Shape) (choices : List Choice) (flows : Flows) (places : Places) →
        IsSound shape → Fit shape choices → AreBalanced shape choices flows →
        Solves shape choices places →
        (bound_by shape choices flows) ≤ℤ (worth_of total_length shape places) }
    ensures equal { (shape : Shape) (choices : List Choice) (flows : Flows) (places : Places) →
        IsSound shape → Fit shape choices → AreBalanced shape choices flows →
        Solves shape choices places →
        (worth_of total_length shape places ≡ bound_by shape choices flows)
        ↔ AreTightPlaces shape choices flows places }
    ensures least { (shape : Shape) (choices : List Choice) (flows : Flows) (places : Places) →
        IsSound shape → Fit shape choices → AreBalanced shape choices flows →
        AreLeastTightPlaces shape choices flows places →
        IsLeastKey total_length shape choices (key_of total_length shape places) }
{}

/// Choices whose graphs have no cycle have a least key.
pub fn least_key_exists()
    ensures { (shape : Shape) (choices : List Choice) → IsSound shape → Fit shape choices →
        HaveNoCycle shape choices →
        (key : Key) × IsLeastKey total_length shape choices key }
{}

/// A least key is low: along each axis every whole number from 0 up to the coordinate of a vertex
/// is that of some vertex, so each coordinate is from 0 to one less than the number of vertices.
pub fn least_keys_are_low()
    ensures taken { (shape : Shape) (choices : List Choice) (key : Key) → IsSound shape →
        Fit shape choices → IsLeastKey total_length shape choices key →
        (axis : Axis) (height v : ℕ) → v < shape.plan.vertices →
        pos height ≤ℤ along axis (place key.places.xy v) →
        (u : ℕ) × (u < shape.plan.vertices) × (along axis (place key.places.xy u) ≡ pos height) }
    ensures low { (shape : Shape) (choices : List Choice) (key : Key) → IsSound shape →
        Fit shape choices → IsLeastKey total_length shape choices key →
        (axis : Axis) (v : ℕ) → v < shape.plan.vertices →
        (pos 0 ≤ℤ along axis (place key.places.xy v))
        × (along axis (place key.places.xy v) <ℤ pos shape.plan.vertices) }
{}
