//! The two axes are alike: what is said of x and y can be said once, of an axis.

ghost use Rattle.std.specs.Prelude.{◌≡◌, ◌↔◌, ◌+ℤ◌, List};
ghost use Rattle.compact_types.specs.declared.places.Axis.TheVariants as axis;
ghost use Rattle.compact_types.specs.declared.places.Point.{Point as AnyPoint};
ghost use Rattle.compact_types.specs.declared.places.Places.{Places};
ghost use Rattle.compact_types.specs.declared.plan.Piece.{Piece as AnyPiece};
ghost use Rattle.compact_types.specs.declared.plan.Plan.{Plan};
ghost use Rattle.compact_types.specs.declared.plan.Way.{Way as AnyWay};
ghost use Rattle.compact_types.specs.Axes as axes;
ghost use Rattle.compact_types.specs.Axes.{DifferInOne, IsStraight};
ghost use Rattle.compact_types.specs.Axes.{length_along};
ghost use Rattle.compact_types.specs.Lengths.{length_of};
ghost use Rattle.compact_types.specs.Lookups.{place, along, axis_of};
ghost use Rattle.compact_types.specs.Ways.{HasWay};

use crate::places::{Axis, Point};
use crate::plan::{Piece, Way};

/// The coordinate of the point along the axis.
pub fn coordinate(axis: Axis, point: Point) -> i64
    ensures { result ≡ along axis point }
{
    match axis {
        Axis::X => point.x,
        Axis::Y => point.y,
    }
}

/// The western or the lower end of a piece with this way.
pub fn low_end(way: Way, piece: Piece) -> u32
    ensures { result ≡ axes.low_end way piece }
{
    match way {
        Way::East | Way::High => piece.from,
        Way::West | Way::Low => piece.to,
    }
}

/// The eastern or the higher end of a piece with this way.
pub fn high_end(way: Way, piece: Piece) -> u32
    ensures { result ≡ axes.high_end way piece }
{
    match way {
        Way::East | Way::High => piece.to,
        Way::West | Way::Low => piece.from,
    }
}

/// A piece has a way exactly if one coordinate of its ends differs, and then it has one alone. It
/// has this way exactly if its low end is before its high end along the way's axis, and level with
/// it across.
pub fn ways_by_axes()
    ensures some { (a b : AnyPoint) → DifferInOne a b ↔ ((way : AnyWay) × HasWay way a b) }
    ensures only { (v w : AnyWay) (a b : AnyPoint) → HasWay v a b → HasWay w a b → v ≡ w }
    ensures ends { (way : AnyWay) (piece : AnyPiece) (places : List AnyPoint) →
        HasWay way (place places piece.from) (place places piece.to)
        ↔ IsStraight (axis_of way)
        (place places (axes.low_end way piece)) (place places (axes.high_end way piece)) }
{}

/// The length of a drawing is the sum of its lengths along the two axes.
pub fn length_by_axes()
    ensures { (plan : Plan) (places : Places) →
        length_of plan places ≡ length_along axis.X plan places +ℤ length_along axis.Y plan places }
{}
