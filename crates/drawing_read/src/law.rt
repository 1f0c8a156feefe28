//! What the layers above may rely on, whether `read_drawing` was asked or not.

ghost use Rattle.std.specs.Prelude.{◌≡◌, ◌↔◌, ◌<◌, List, [], ◌∷◌, Contains};
ghost use Rattle.compact_types.specs.Refusals.{HasOneAnswer};
ghost use Rattle.gml_text.specs.Alike.{IsAlike};
ghost use Rattle.gml_text.specs.Grammar.{IsReadable};
ghost use Rattle.gml_text.specs.declared.tree.Tree.{Tree};
ghost use Rattle.gml_text.specs.declared.tree.Pair.{Pair};
ghost use Rattle.drawing_read.specs.declared.reading.Reading.{Reading};
ghost use Rattle.drawing_read.specs.declared.reading.Spot.{Spot};
ghost use Rattle.drawing_read.specs.Legible.{IsLegible};
ghost use Rattle.drawing_read.specs.Written.{graph_of};
ghost use Rattle.drawing_read.specs.Spans.{spans_in};
ghost use Rattle.drawing_read.specs.Faults.{graphs_of, FirstDrawFault};
ghost use Rattle.drawing_read.specs.Readings.{graph_place, IsReading, IsWithinLimits};
ghost use Rattle.drawing_read.specs.Coordinates.{IsCoordinate, AreInDocumentOrder};

/// A law: every tree as it is read from a text is one that `read_drawing` can be asked about.
pub fn readable_trees_are_legible()
    ensures { (tree : Tree) → IsReadable tree → IsLegible tree }
{}

/// A law: every tree has exactly one reading or exactly one first fault, and never both.
pub fn trees_have_one_answer()
    ensures { (tree : Tree) → HasOneAnswer (IsReading tree) (FirstDrawFault tree) }
{}

/// A law: every reading has a vertex, no more vertices and pieces than are read, as many places as
/// vertices, and no coordinate beyond the greatest magnitude. So it can be checked.
pub fn readings_are_within_limits()
    ensures { (tree : Tree) (reading : Reading) → IsReading tree reading → IsWithinLimits reading }
{}

/// A law: trees that differ at most in where their values stand in a text have the same reading.
pub fn alike_trees_have_one_reading()
    ensures { (a b : Tree) (reading : Reading) →
        IsAlike a b → IsReading a reading → IsReading b reading }
{}

/// A law: the spots of a reading are the coordinates of the nodes and of the points of its graph,
/// and no others, in document order, each of a vertex.
pub fn spots_are_the_coordinates()
    ensures all { (tree : Tree) (reading : Reading) (graph : List Pair) (spot : Spot) →
        IsReading tree reading → graphs_of tree ≡ graph ∷ [] →
        Contains reading.spots spot
        ↔ IsCoordinate (graph_place tree ∷ []) (spans_in (graph_of graph)) graph spot }
    ensures in_order { (tree : Tree) (reading : Reading) →
        IsReading tree reading → AreInDocumentOrder reading.spots }
    ensures of_vertices { (tree : Tree) (reading : Reading) (spot : Spot) →
        IsReading tree reading → Contains reading.spots spot →
        spot.vertex < reading.plan.vertices }
{}
