//! Why a tree is no drawing.

use gml_text::NumberFault;

/// Why a tree is no drawing. Nodes, edges and points are numbered from 0, the points within their
/// edge.
#[derive(Clone, Copy, Debug, PartialEq, Eq)]
pub enum DrawFault {
    /// No `graph` at the top is a list.
    NoGraph,
    /// More than one is.
    TwoGraphs,
    /// The graph has no node.
    Empty,
    /// The node has no `id`.
    NoId(u32),
    /// The node's id is no whole numeral within `i64`.
    BadId(u32),
    /// An earlier node has the same id.
    RepeatedId(u32),
    /// The node lacks a list of graphics with numerals x and y.
    NoPlace(u32),
    /// The numeral that begins at byte `at` is no number in thousandths.
    BadNumber { at: u32, cause: NumberFault },
    /// The edge lacks a source or a target that is a whole numeral.
    NoEnd(u32),
    /// An end of the edge is no node's id.
    UnknownEnd(u32),
    /// The point is no list with numerals x and y.
    BadPoint { edge: u32, point: u32 },
    /// So many vertices, above `MOST_VERTICES`.
    TooManyVertices(u32),
    /// So many pieces, above `MOST_PIECES_READ`.
    TooManyPieces(u32),
}
