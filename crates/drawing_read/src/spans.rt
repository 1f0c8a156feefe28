//! Edges by their vertices: their bends, and their pieces.

ghost use Rattle.std.specs.Prelude.{◌≡◌, ◌+◌, ◌<◌, ◌^◌, ◌++◌, IsTrue, IfSome, OnOk, length, All};
ghost use Rattle.std.specs.Prelude.{map, slice_get, slice_index_or};
ghost use Rattle.drawing_read.specs.Routes.{point_of};
ghost use Rattle.drawing_read.specs.Spans.{begins_at, ends_at, after_first_at, before_last_at};
ghost use Rattle.drawing_read.specs.Spans.{span_pieces, point_vertex, no_span};

use crate::layout::point_of;
use crate::numerals::Numbers;
use compact_types::{Items, NoMemory, Piece, Point};

/// An edge by the numbers of its vertices.
#[derive(Clone, Copy, Debug)]
pub struct EdgeSpan {
    pub source: u32,
    pub target: u32,
    /// How many of its points stand for its source: none or one.
    pub at_source: u32,
    /// The number of its first bend; the others follow.
    pub first: u32,
    pub bends: u32,
}

/// The points of an edge that stand for none of its ends, which are at these places.
pub(crate) fn bends_between(
    source: Point,
    target: Point,
    points: &[Option<Numbers>],
) -> &[Option<Numbers>]
    ensures { map point_of result.now
        ≡ before_last_at target (after_first_at source (map point_of points.now)) }
{
    before_last_at(target, after_first_at(source, points))
}

/// The points without a first one at this place.
#[tactic(auto, using(crate::proofs::LayoutLemmas::without_first))]
fn after_first_at(here: Point, points: &[Option<Numbers>]) -> &[Option<Numbers>]
    ensures { map point_of result.now ≡ after_first_at here (map point_of points.now) }
{
    if begins_at(here, points) {
        &points[1..]
    } else {
        points
    }
}

/// The points without a last one at this place.
#[tactic(auto, using(crate::proofs::LayoutLemmas::without_last))]
fn before_last_at(here: Point, points: &[Option<Numbers>]) -> &[Option<Numbers>]
    ensures { map point_of result.now ≡ before_last_at here (map point_of points.now) }
{
    if ends_at(here, points) {
        &points[..points.len() - 1]
    } else {
        points
    }
}

/// Whether the first of the points is this one.
pub(crate) fn begins_at(here: Point, points: &[Option<Numbers>]) -> bool
    ensures begins { result ≡ begins_at here (map point_of points.now) }
    ensures some { IsTrue result → 0 < length points.now }
{
    point_at(points, 0).is_some_and(|point| point == here)
}

/// Whether the last of the points is this one.
fn ends_at(here: Point, points: &[Option<Numbers>]) -> bool
    ensures ends { result ≡ ends_at here (map point_of points.now) }
    ensures some { IsTrue result → 0 < length points.now }
{
    let last = points.len().saturating_sub(1);
    point_at(points, last).is_some_and(|point| point == here)
}

/// The point at a place in the list.
#[tactic(auto, using(crate::proofs::LayoutLemmas::point_there))]
fn point_at(points: &[Option<Numbers>], p: usize) -> Option<Point>
    ensures point { result ≡ slice_get (map point_of points.now) p }
    ensures within { IfSome result (λ _. p < length points.now) }
{
    points.get(p).map(|numbers| point_of(*numbers))
}

/// Adds the pieces of an edge, from its source along its bends to its target.
pub(crate) fn push_pieces(pieces: &mut Items<Piece>, span: EdgeSpan) -> Result<(), NoMemory>
    requires { span.first + span.bends < 2 ^ 32 }
    ensures { OnOk result (pieces.new ≡ pieces.old ++ span_pieces span) }
{
    let mut from = span.source;
    for bend in span.first..span.first + span.bends {
        pieces.push(Piece::new(from, bend))?;
        from = bend;
    }
    pieces.push(Piece::new(from, span.target))
}

/// The span of an edge; one of zeros where there is no edge with this number.
pub(crate) fn span_at(spans: &[EdgeSpan], e: u32) -> EdgeSpan
    requires { All (λ span. span.first + span.bends < 2 ^ 32) spans.now }
    ensures span { result ≡ slice_index_or spans.now e no_span }
    ensures fits { result.first + result.bends < 2 ^ 32 }
{
    let none = EdgeSpan {
        source: 0,
        target: 0,
        at_source: 0,
        first: 0,
        bends: 0,
    };
    spans.get(e as usize).copied().unwrap_or(none)
}

/// The vertex of a point of an edge: its source, one of its bends or its target.
pub(crate) fn point_vertex(span: EdgeSpan, p: u32) -> u32
    requires { span.first + span.bends < 2 ^ 32 }
    ensures { result ≡ point_vertex span p }
{
    if p < span.at_source {
        span.source
    } else if p - span.at_source < span.bends {
        span.first + (p - span.at_source)
    } else {
        span.target
    }
}
