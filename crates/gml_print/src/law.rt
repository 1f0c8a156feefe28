//! The laws of printed texts and of new places.

ghost use Rattle.std.specs.Prelude.{◌≡◌, ◌≤◌, ℕ, ℤ, List, Some, true, All, FitsSigned};
ghost use Rattle.std.specs.Int.{w64};
ghost use Rattle.compact_types.specs.declared.places.Places.{Places};
ghost use Rattle.compact_types.specs.declared.plan.Shape.{Shape};
ghost use Rattle.compact_types.specs.Drawings.{IsCrossingFree};
ghost use Rattle.compact_types.specs.Magnitudes.{AreWithin};
ghost use Rattle.gml_text.specs.declared.tree.Tree.{Tree};
ghost use Rattle.gml_text.specs.Alike.{IsAlike};
ghost use Rattle.gml_text.specs.Grammar.{IsWithinGrammar, IsReadable};
ghost use Rattle.gml_text.specs.Numerals.{is_whole_numeral, value_of_whole};
ghost use Rattle.gml_text.specs.Texts.{Spells};
ghost use Rattle.drawing_read.specs.declared.reading.Reading.{Reading};
ghost use Rattle.drawing_read.specs.declared.reading.Spot.{Spot};
ghost use Rattle.drawing_read.specs.Readings.{IsReading};
ghost use Rattle.compact_types.specs.declared.limits.TheConstants.{GREATEST_PLACE, MOST_PITCH};
ghost use Rattle.gml_print.specs.TextReadings.{ReadsBack};
ghost use Rattle.gml_print.specs.Numbers.{number_text};
ghost use Rattle.gml_print.specs.Paths.{value_at, Part, blanked};
ghost use Rattle.gml_print.specs.Places.{CanPut, placed, numeral_for, moved_reading};
ghost use Rattle.gml_print.specs.Printing.{printed};

/// The laws of `print_tree`: what is printed of a tree is read again exactly where the tree is
/// within the grammar, as a tree that differs at most in where its values stand, and as no other;
/// and where two trees differ in no more than that, they have one text.
pub fn printed_text_has_the_tree()
    ensures read_back { (tree : Tree) → IsWithinGrammar tree → ReadsBack tree }
    ensures only_then { (tree : Tree) → ReadsBack tree → IsWithinGrammar tree }
    ensures one_text { (a b : Tree) → IsAlike a b → printed a ≡ printed b }
{}

/// The laws of `whole_text`: the text of a number is a whole numeral, and its value is that number.
pub fn text_has_its_number()
    ensures numeral { (number : ℤ) → FitsSigned w64 number →
        is_whole_numeral (number_text number) ≡ true }
    ensures value { (number : ℤ) → FitsSigned w64 number →
        value_of_whole (number_text number) ≡ number }
{}

/// What new places change: at each spot stands its numeral, on a path that parts from those of all
/// spots the value is as it was, and apart from the values at the spots the tree is the same, with
/// its keys, its order and its depths.
pub fn only_spots_change()
    ensures numerals { (tree : Tree) (reading : Reading) (places : Places) (pitch : ℕ) →
        CanPut tree reading places pitch →
        All (λ spot. value_at spot.path (placed tree reading.spots places pitch) ≡
        Some (numeral_for places pitch spot)) reading.spots }
    ensures others { (tree : Tree) (reading : Reading) (places : Places) (pitch : ℕ)
        (path : List ℕ) → All (λ spot. Part path spot.path) reading.spots →
        value_at path (placed tree reading.spots places pitch) ≡ value_at path tree }
    ensures rest { (tree : Tree) (reading : Reading) (places : Places) (pitch : ℕ) →
        CanPut tree reading places pitch →
        blanked (placed tree reading.spots places pitch) reading.spots ≡
        blanked tree reading.spots }
{}

/// What the tree with new places is read as: where the places are crossing-free for a shape of the
/// reading's plan, it has the same plan and the same spots, and its places are `pitch` times the
/// given ones, in thousandths.
pub fn placed_tree_is_read()
    ensures { (tree : Tree) (reading : Reading) (places : Places) (pitch : ℕ) (shape : Shape) →
        CanPut tree reading places pitch →
        shape.plan ≡ reading.plan → IsCrossingFree shape places →
        IsReading (placed tree reading.spots places pitch) (moved_reading reading places pitch) }
{}

/// New places keep a tree within the grammar, and give it no more pairs than it had, so that it is
/// readable where it was.
pub fn placed_tree_is_within_grammar()
    ensures grammar { (tree : Tree) (spots : List Spot) (places : Places) (pitch : ℕ) →
        AreWithin GREATEST_PLACE places → pitch ≤ MOST_PITCH →
        IsWithinGrammar tree → IsWithinGrammar (placed tree spots places pitch) }
    ensures readable { (tree : Tree) (spots : List Spot) (places : Places) (pitch : ℕ) →
        AreWithin GREATEST_PLACE places → pitch ≤ MOST_PITCH →
        IsReadable tree → IsReadable (placed tree spots places pitch) }
{}

/// What the printed text of a tree with new places is read as: it has an alike tree and no other,
/// and whichever tree it has, that is a drawing with the same plan, the same spots and the new
/// places.
pub fn placed_text_is_read()
    ensures tree { (tree : Tree) (reading : Reading) (places : Places) (pitch : ℕ) →
        CanPut tree reading places pitch → IsWithinGrammar tree →
        ReadsBack (placed tree reading.spots places pitch) }
    ensures reading { (tree read : Tree) (reading : Reading) (places : Places) (pitch : ℕ)
        (shape : Shape) →
        CanPut tree reading places pitch → IsWithinGrammar tree →
        shape.plan ≡ reading.plan → IsCrossingFree shape places →
        Spells (printed (placed tree reading.spots places pitch)) read →
        IsReading read (moved_reading reading places pitch) }
{}
