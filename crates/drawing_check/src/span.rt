//! Runs of numbers along each axis, and the least point in two of them.

ghost use Rattle.std.specs.Prelude.{◌≡◌, ◌↔◌, ℤ, MatchBool, MatchOption, Some, ◌≤ℤ◌};
ghost use Rattle.compact_types.specs.declared.places.Point.{Point as AnyPoint};
ghost use Rattle.compact_types.specs.Lookups.{along};
ghost use Rattle.compact_types.specs.Segments.{IsBetween, OnSegment};
ghost use Rattle.drawing_check.specs.inner.Spans.{IsIn, IsInside, IsInsideBut};
ghost use Rattle.drawing_check.specs.Points.{IsLeastPoint};

use compact_types::{Axis, Point};

/// The numbers from `low` to `high`; none where `high` is less.
#[derive(Clone, Copy, Debug)]
pub(crate) struct Interval {
    pub(crate) low: i64,
    pub(crate) high: i64,
}

/// The points with an `x` and a `y` in these spans.
#[derive(Clone, Copy, Debug)]
pub(crate) struct PieceExtent {
    pub(crate) x: Interval,
    pub(crate) y: Interval,
}

/// The numbers from `a` to `b`, whichever of the two is less.
fn span_between(a: i64, b: i64) -> Interval
    ensures { (z : ℤ) → IsBetween a b z ↔ IsIn result z }
{
    if a <= b {
        Interval { low: a, high: b }
    } else {
        Interval { low: b, high: a }
    }
}

/// The span of the extent along the axis.
pub(crate) fn span_along(axis: Axis, extent: PieceExtent) -> Interval
    ensures { (z : AnyPoint) → IsInside extent z → IsIn result (along axis z) }
{
    match axis {
        Axis::X => extent.x,
        Axis::Y => extent.y,
    }
}

/// The numbers of both spans.
fn common_span(a: Interval, b: Interval) -> Interval
    ensures { (z : ℤ) → (IsIn a z × IsIn b z) ↔ IsIn result z }
{
    Interval {
        low: a.low.max(b.low),
        high: a.high.min(b.high),
    }
}

/// The points of the closed segment between `a` and `b`.
pub(crate) fn extent_between(a: Point, b: Point) -> PieceExtent
    ensures { (z : AnyPoint) → OnSegment a b z ↔ IsInside result z }
{
    PieceExtent {
        x: span_between(a.x, b.x),
        y: span_between(a.y, b.y),
    }
}

/// The points of both extents.
pub(crate) fn common_extent(a: PieceExtent, b: PieceExtent) -> PieceExtent
    ensures { (z : AnyPoint) → (IsInside a z × IsInside b z) ↔ IsInside result z }
{
    PieceExtent {
        x: common_span(a.x, b.x),
        y: common_span(a.y, b.y),
    }
}

/// Whether no point is inside.
pub(crate) fn is_empty(extent: PieceExtent) -> bool
    ensures { MatchBool result
        ((z : AnyPoint) → IsInside extent z → ⊥)
        ((extent.x.low ≤ℤ extent.x.high) × (extent.y.low ≤ℤ extent.y.high)) }
{
    extent.x.high < extent.x.low || extent.y.high < extent.y.low
}

/// The least point inside, by x and then y, other than `except`.
pub(crate) fn least_point(extent: PieceExtent, except: Option<Point>) -> Option<Point>
    requires x { extent.x.low ≤ℤ extent.x.high }
    requires y { extent.y.low ≤ℤ extent.y.high }
    ensures { MatchOption result
        ((z : AnyPoint) → IsInside extent z → except ≡ Some z)
        (IsLeastPoint (IsInsideBut except extent)) }
{
    let corner = Point {
        x: extent.x.low,
        y: extent.y.low,
    };
    match except {
        Some(point) if point == corner => after_corner(extent),
        _ => Some(corner),
    }
}

/// The least point inside, by x and then y, after the corner with the least x and the least y.
fn after_corner(extent: PieceExtent) -> Option<Point>
    requires x { extent.x.low ≤ℤ extent.x.high }
    requires y { extent.y.low ≤ℤ extent.y.high }
    ensures { MatchOption result
        ((z : AnyPoint) → IsInside extent z → z ≡ record { x = extent.x.low; y = extent.y.low })
        (IsLeastPoint (IsInsideBut (Some (record { x = extent.x.low; y = extent.y.low })) extent)) }
{
    let PieceExtent { x, y } = extent;
    if y.low < y.high {
        Some(Point {
            x: x.low,
            y: y.low + 1,
        })
    } else if x.low < x.high {
        Some(Point {
            x: x.low + 1,
            y: y.low,
        })
    } else {
        None
    }
}
