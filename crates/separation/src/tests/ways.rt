//! Whether places give every piece its way, so that they solve the empty list of choices.

ghost use Rattle.std.specs.Prelude.{◌≡◌, length, IsTrue};
ghost use Rattle.compact_types.specs.Drawings.{HasWays};
ghost use Rattle.compact_types.specs.Ways.{HasWay};

use compact_types::{Places, Point, Shape, Way};

/// Whether every piece has its way in the places.
pub(crate) fn have_ways(shape: &Shape, places: &Places) -> bool
    requires { length places.now.xy ≡ shape.now.plan.vertices }
    ensures { IsTrue result → HasWays shape.now places.now }
{
    let pieces = shape.plan.pieces.as_slice();
    let ways = shape.ways.as_slice();
    let points = places.xy.as_slice();
    for i in 0..pieces.len() {
        let piece = pieces[i];
        if !goes(
            ways[i],
            points[piece.from as usize],
            points[piece.to as usize],
        ) {
            return false;
        }
    }
    true
}

/// Whether a piece from `a` to `b` goes this way.
fn goes(way: Way, a: Point, b: Point) -> bool
    ensures { IsTrue result → HasWay way a b }
{
    match way {
        Way::East => a.x < b.x && b.y == a.y,
        Way::West => b.x < a.x && b.y == a.y,
        Way::High => a.y < b.y && b.x == a.x,
        Way::Low => b.y < a.y && b.x == a.x,
    }
}
