//! A drawing is moved so that it is from zero.

ghost use Rattle.std.specs.Prelude.{◌≡◌, ◌<◌, pos, ℤ, ◌-ℤ◌, length};
ghost use Rattle.std.specs.Int.{int_min};
ghost use Rattle.compact_types.specs.Drawings.{IsFromZero};
ghost use Rattle.compact_types.specs.Magnitudes.{IsPointWithin, AreWithin};
ghost use Rattle.compact_types.specs.Moves.{moved};
ghost use Rattle.compact_types.specs.inner.Corners.{IsCorner};

use crate::limits::GREATEST_THOUSANDTHS;
use crate::places::{Places, Point};

/// Moves all points alike, so that the least x and the least y are 0. It takes no memory.
pub fn shift_to_zero(places: &mut Places)
    requires point { 0 < length places.old.xy }
    requires near { AreWithin GREATEST_THOUSANDTHS places.old }
    ensures from_zero { IsFromZero places.new }
    ensures moved { (dx : ℤ) × (dy : ℤ) × (places.new ≡ moved dx dy places.old) }
{
    let corner = corner_of(places.xy.as_slice());
    shift(places, corner);
}

/// The least x and the least y of some points.
fn corner_of(points: &[Point]) -> Point
    requires { 0 < length points.now }
    ensures { IsCorner points.now (length points.now) result }
{
    let mut corner = points[0];
    for v in 1..points.len() {
        corner = common_corner(corner, points[v]);
    }
    corner
}

/// The least x and the least y of two points.
fn common_corner(a: Point, b: Point) -> Point
    ensures x { result.x ≡ int_min a.x b.x }
    ensures y { result.y ≡ int_min a.y b.y }
{
    Point {
        x: a.x.min(b.x),
        y: a.y.min(b.y),
    }
}

/// Moves all points as `corner` is moved to the origin.
fn shift(places: &mut Places, corner: Point)
    requires corner { IsPointWithin GREATEST_THOUSANDTHS corner }
    requires near { AreWithin GREATEST_THOUSANDTHS places.old }
    ensures { places.new ≡ moved (pos 0 -ℤ corner.x) (pos 0 -ℤ corner.y) places.old }
{
    for v in 0..places.xy.len() {
        let point = places.xy.as_slice()[v];
        places.xy.set(v, shifted(point, corner));
    }
}

/// The point, moved as `corner` is moved to the origin.
fn shifted(point: Point, corner: Point) -> Point
    requires point { IsPointWithin GREATEST_THOUSANDTHS point }
    requires corner { IsPointWithin GREATEST_THOUSANDTHS corner }
    ensures x { result.x ≡ point.x -ℤ corner.x }
    ensures y { result.y ≡ point.y -ℤ corner.y }
{
    Point {
        x: point.x - corner.x,
        y: point.y - corner.y,
    }
}
