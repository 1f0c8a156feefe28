//! How long a drawing is.

ghost use Rattle.std.specs.Prelude.{◌≡◌, ◌≤◌, ◌*◌, pos, ◌≤ℤ◌, length};
ghost use Rattle.compact_types.specs.Lengths as lengths;
ghost use Rattle.compact_types.specs.Lookups.{along};
ghost use Rattle.compact_types.specs.Magnitudes.{IsWithin, IsPointWithin, AreWithin};

use crate::axes::coordinate;
use crate::limits::{GREATEST_THOUSANDTHS, MOST_PIECES};
use crate::places::{Axis, Places, Point};
use crate::plan::Plan;

/// The plain length: the sum over the pieces of |dx| + |dy| of their ends. It takes no memory.
pub fn plain_length(plan: &Plan, places: &Places) -> i64
    requires fit { length places.now.xy ≡ plan.now.vertices }
    requires few { length plan.now.pieces ≤ MOST_PIECES }
    requires near { AreWithin GREATEST_THOUSANDTHS places.now }
    ensures { result ≡ lengths.plain_length_of plan.now places.now }
{
    let pieces = plan.pieces.as_slice();
    let points = places.xy.as_slice();
    let mut sum = 0;
    for i in 0..pieces.len() {
        let piece = pieces[i];
        sum += distance(points[piece.from as usize], points[piece.to as usize]);
    }
    sum
}

/// |dx| + |dy| between two points.
fn distance(a: Point, b: Point) -> i64
    requires from { IsPointWithin GREATEST_THOUSANDTHS a }
    requires to { IsPointWithin GREATEST_THOUSANDTHS b }
    ensures is { result ≡ lengths.distance a b }
    ensures low { pos 0 ≤ℤ result }
    ensures high { result ≤ℤ pos (4 * GREATEST_THOUSANDTHS) }
{
    gap_along(Axis::X, a, b) + gap_along(Axis::Y, a, b)
}

/// How far apart two points are along an axis.
fn gap_along(axis: Axis, a: Point, b: Point) -> i64
    requires from { IsPointWithin GREATEST_THOUSANDTHS a }
    requires to { IsPointWithin GREATEST_THOUSANDTHS b }
    ensures is { result ≡ lengths.gap (along axis a) (along axis b) }
    ensures low { pos 0 ≤ℤ result }
    ensures high { result ≤ℤ pos (2 * GREATEST_THOUSANDTHS) }
{
    gap(coordinate(axis, a), coordinate(axis, b))
}

/// How far apart two numbers are.
fn gap(a: i64, b: i64) -> i64
    requires from { IsWithin GREATEST_THOUSANDTHS a }
    requires to { IsWithin GREATEST_THOUSANDTHS b }
    ensures is { result ≡ lengths.gap a b }
    ensures low { pos 0 ≤ℤ result }
    ensures high { result ≤ℤ pos (2 * GREATEST_THOUSANDTHS) }
{
    (b - a).max(a - b)
}
