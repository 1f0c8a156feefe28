//! What the definitions of lines and segments mean: laws, each proved of all shapes.

ghost use Rattle.std.specs.Prelude.{◌≡◌, ◌↔◌, ◌⊎◌, ℕ, ◌<◌, ◌≤◌, ◌<ℤ◌, length};
ghost use Rattle.compact_types.specs.declared.places.Places.{Places};
ghost use Rattle.compact_types.specs.declared.places.Axis.{Axis};
ghost use Rattle.compact_types.specs.declared.places.Axis.TheVariants.{X, Y};
ghost use Rattle.compact_types.specs.declared.plan.Shape.{Shape};
ghost use Rattle.compact_types.specs.Connected.{AreInLine};
ghost use Rattle.compact_types.specs.Drawings.{HasWays};
ghost use Rattle.compact_types.specs.Lookups.{along, place, other_axis};
ghost use Rattle.bars.specs.Lines.{least_in_line, line_of, line_count};
ghost use Rattle.bars.specs.Segments.{segment_count, segment_at, IsOnSegment, IsPieceOf};
ghost use Rattle.bars.specs.Segments.{ShareVertex};
ghost use Rattle.bars.specs.Segments.{first_vertex, last_vertex, node_count, low_node, high_node};
ghost use Rattle.bars.specs.Ends.{StandsFirst, StandsLast, IsLowNode, IsHighNode};
ghost use Rattle.bars.specs.Solutions.{HasDrawing};

/// Vertices are in one row, or in one column, exactly if they have one number. The numbers go up
/// with the least vertices of the lines, and no number is left out. There are at most as many lines
/// as vertices.
pub fn lines_are_numbered()
    ensures by_least { (axis : Axis) (shape : Shape) (v w : ℕ) →
        AreInLine axis shape v w ↔ (least_in_line axis shape v ≡ least_in_line axis shape w) }
    ensures by_number { (axis : Axis) (shape : Shape) (v w : ℕ) →
        AreInLine axis shape v w ↔ (line_of axis shape v ≡ line_of axis shape w) }
    ensures least { (axis : Axis) (shape : Shape) (v : ℕ) → least_in_line axis shape v ≤ v }
    ensures of_line { (axis : Axis) (shape : Shape) (v : ℕ) →
        AreInLine axis shape v (least_in_line axis shape v) }
    ensures in_order { (axis : Axis) (shape : Shape) (v w : ℕ) →
        (line_of axis shape v < line_of axis shape w)
        ↔ (least_in_line axis shape v < least_in_line axis shape w) }
    ensures below { (axis : Axis) (shape : Shape) (v : ℕ) → v < shape.plan.vertices →
        line_of axis shape v < line_count axis shape }
    ensures few { (axis : Axis) (shape : Shape) → line_count axis shape ≤ shape.plan.vertices }
    ensures taken { (axis : Axis) (shape : Shape) (line : ℕ) → line < line_count axis shape →
        (v : ℕ) × (v < shape.plan.vertices) × (line_of axis shape v ≡ line) }
{}

/// If every piece has its way, the vertices of a line are level across its axis. In a shape
/// that has a drawing they are in one strict order along it, the same in all places with the ways.
pub fn lines_stand_in_order()
    ensures level { (axis : Axis) (shape : Shape) (places : Places) (v w : ℕ) →
        HasWays shape places → AreInLine axis shape v w →
        along (other_axis axis) (place places.xy v) ≡ along (other_axis axis) (place places.xy w) }
    ensures order { (axis : Axis) (shape : Shape) (v w : ℕ) → HasDrawing shape →
        AreInLine axis shape v w → (v ≡ w → ⊥) →
        ((places : Places) → HasWays shape places →
        along axis (place places.xy v) <ℤ along axis (place places.xy w))
        ⊎ ((places : Places) → HasWays shape places →
        along axis (place places.xy w) <ℤ along axis (place places.xy v)) }
    ensures first { (axis : Axis) (shape : Shape) (places : Places) (line : ℕ) → HasDrawing shape →
        HasWays shape places → line < line_count axis shape →
        StandsFirst axis shape places line (first_vertex axis shape line) }
    ensures last { (axis : Axis) (shape : Shape) (places : Places) (line : ℕ) → HasDrawing shape →
        HasWays shape places → line < line_count axis shape →
        StandsLast axis shape places line (last_vertex axis shape line) }
{}

/// The segments are the lines with a piece: each piece is one of a segment, each segment has a
/// piece, and no two segments are one line. Two that share a vertex are a row and a column. In a
/// shape that has a drawing there are at most as many segments as vertices.
pub fn segments_are_lines_with_pieces()
    ensures of_piece { (shape : Shape) (i : ℕ) → i < length shape.plan.pieces →
        (s : ℕ) × (s < segment_count shape) × IsPieceOf shape s i }
    ensures piece { (shape : Shape) (s : ℕ) → s < segment_count shape →
        (i : ℕ) × IsPieceOf shape s i }
    ensures two_vertices { (shape : Shape) (s : ℕ) → HasDrawing shape → s < segment_count shape →
        (v w : ℕ) × IsOnSegment shape s v × IsOnSegment shape s w × (v ≡ w → ⊥) }
    ensures different { (shape : Shape) (s t : ℕ) → s < t → t < segment_count shape →
        (segment_at shape s).axis ≡ (segment_at shape t).axis →
        (segment_at shape s).line ≡ (segment_at shape t).line → ⊥ }
    ensures few { (shape : Shape) → HasDrawing shape → segment_count shape ≤ shape.plan.vertices }
    ensures rows_first { (shape : Shape) (s t : ℕ) → s < t → t < segment_count shape →
        ShareVertex shape s t →
        ((segment_at shape s).axis ≡ X) × ((segment_at shape t).axis ≡ Y) }
{}

/// The low and the high node of a segment are nodes of the graph. In a shape that has a drawing the
/// low node is that of its vertices with the least coordinate, and the high node that of its
/// vertices with the greatest, in all places with the ways.
pub fn nodes_are_ends()
    ensures low_below { (axis : Axis) (shape : Shape) (s : ℕ) → s < segment_count shape →
        low_node axis shape s < node_count axis shape }
    ensures high_below { (axis : Axis) (shape : Shape) (s : ℕ) → s < segment_count shape →
        high_node axis shape s < node_count axis shape }
    ensures low { (axis : Axis) (shape : Shape) (places : Places) (s : ℕ) → HasDrawing shape →
        HasWays shape places → s < segment_count shape →
        IsLowNode axis shape places s (low_node axis shape s) }
    ensures high { (axis : Axis) (shape : Shape) (places : Places) (s : ℕ) → HasDrawing shape →
        HasWays shape places → s < segment_count shape →
        IsHighNode axis shape places s (high_node axis shape s) }
{}
