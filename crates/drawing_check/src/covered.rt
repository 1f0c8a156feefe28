//! Where two pieces share a point that they may not share.

ghost use Rattle.std.specs.Prelude.{◌≡◌, ◌<◌, length, MatchOption, ◌↔◌, Some};
ghost use Rattle.compact_types.specs.declared.places.Point.{Point as AnyPoint};
ghost use Rattle.drawing_check.specs.Points.{IsLeastPoint};
ghost use Rattle.drawing_check.specs.inner.Collisions.{HasPointsOfExtent, IsAllowed};
ghost use Rattle.drawing_check.specs.inner.Collisions.{SharesAllowed, Collides};

use crate::common_end::only_common_end;
use crate::span::{PieceExtent, common_extent, extent_between, is_empty, least_point};
use compact_types::{Piece, Point};

/// A piece, and the points between the places of its ends.
#[derive(Clone, Copy, Debug)]
pub(crate) struct Covered {
    pub(crate) piece: Piece,
    pub(crate) extent: PieceExtent,
}

/// The piece with the points that it covers, where `points` are the places of the vertices.
pub(crate) fn cover(points: &[Point], piece: Piece) -> Covered
    requires from { piece.from < length points.now }
    requires to { piece.to < length points.now }
    ensures piece { result.piece ≡ piece }
    ensures extent { HasPointsOfExtent points.now result }
{
    let extent = extent_between(points[piece.from as usize], points[piece.to as usize]);
    Covered { piece, extent }
}

/// The point that the two pieces may share: the place of the only vertex in which both end.
fn allowed_point(points: &[Point], p: Piece, q: Piece) -> Option<Point>
    requires from { p.from < length points.now }
    requires to { p.to < length points.now }
    ensures { (z : AnyPoint) → (result ≡ Some z) ↔ IsAllowed points.now p q z }
{
    let vertex = only_common_end(p, q)?;
    Some(points[vertex as usize])
}

/// The least point that the two pieces share and may not share.
pub(crate) fn collision(points: &[Point], p: Covered, q: Covered) -> Option<Point>
    requires from { p.piece.from < length points.now }
    requires to { p.piece.to < length points.now }
    requires first { HasPointsOfExtent points.now p }
    requires second { HasPointsOfExtent points.now q }
    ensures { MatchOption result
        (SharesAllowed points.now p.piece q.piece)
        (IsLeastPoint (Collides points.now p.piece q.piece)) }
{
    let shared = common_extent(p.extent, q.extent);
    if is_empty(shared) {
        return None;
    }
    least_point(shared, allowed_point(points, p.piece, q.piece))
}
