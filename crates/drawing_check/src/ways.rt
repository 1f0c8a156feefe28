//! Which way each piece goes.

ghost use Rattle.std.specs.Prelude.{◌↔◌, ℕ, ◌<◌, length, IfOk, IsTrue, MatchOption};
ghost use Rattle.compact_types.specs.declared.plan.Way.{Way as AnyWay};
ghost use Rattle.compact_types.specs.Drawings.{HasWays};
ghost use Rattle.compact_types.specs.Refusals.{IfFault};
ghost use Rattle.compact_types.specs.Ways.{HasWay};
ghost use Rattle.drawing_check.specs.Conditions.{CanCheck};
ghost use Rattle.drawing_check.specs.Courses.{HasNoLength};
ghost use Rattle.drawing_check.specs.inner.PieceWays.{AreWays};
ghost use Rattle.drawing_check.specs.Faults.{IsFirst, FirstShapeFault};

use crate::fault::ShapeFault;
use compact_types::{Items, Places, Plan, Point, Refusal, Shape, Way};
use std::alloc::Global;

/// Whether a piece from `a` to `b` goes this way.
fn goes(way: Way, a: Point, b: Point) -> bool
    ensures { IsTrue result ↔ HasWay way a b }
{
    match way {
        Way::East => a.x < b.x && b.y == a.y,
        Way::West => b.x < a.x && b.y == a.y,
        Way::High => a.y < b.y && b.x == a.x,
        Way::Low => b.y < a.y && b.x == a.x,
    }
}

/// The way of a piece from `a` to `b`; `None` where no coordinate differs or both do.
fn way_between(a: Point, b: Point) -> Option<Way>
    ensures { MatchOption result ((way : AnyWay) → HasWay way a b → ⊥) (λ way. HasWay way a b) }
{
    if goes(Way::East, a, b) {
        Some(Way::East)
    } else if goes(Way::West, a, b) {
        Some(Way::West)
    } else if goes(Way::High, a, b) {
        Some(Way::High)
    } else if goes(Way::Low, a, b) {
        Some(Way::Low)
    } else {
        None
    }
}

/// Whether every piece of the shape has its way in these places.
pub(crate) fn has_ways(shape: &Shape, places: &Places) -> bool
    requires { CanCheck shape.now.plan places.now }
    ensures { IsTrue result ↔ HasWays shape.now places.now }
{
    let pieces = shape.plan.pieces.as_slice();
    let ways = shape.ways.as_slice();
    let points = places.xy.as_slice();
    for i in 0..pieces.len() {
        let piece = pieces[i];
        if !goes(
            ways[i],
            points[piece.from as usize],
            points[piece.to as usize],
        ) {
            return false;
        }
    }
    true
}

/// The first piece whose ends have the same point.
pub(crate) fn first_without_length(plan: &Plan, places: &Places) -> Option<u32>
    requires { CanCheck plan.now places.now }
    ensures { MatchOption result
        ((i : ℕ) → i < length plan.now.pieces → HasNoLength plan.now places.now i → ⊥)
        (IsFirst (HasNoLength plan.now places.now) (length plan.now.pieces)) }
{
    let pieces = plan.pieces.as_slice();
    let points = places.xy.as_slice();
    for i in 0..pieces.len() {
        let piece = pieces[i];
        if points[piece.from as usize] == points[piece.to as usize] {
            return Some(i as u32);
        }
    }
    None
}

/// The way of each piece, or the first piece that has none, where every piece has a length.
pub(crate) fn ways_of(
    alloc: Global,
    plan: &Plan,
    places: &Places,
) -> Result<Items<Way>, Refusal<ShapeFault>>
    requires can_check { CanCheck plan.now places.now }
    requires lengths { (i : ℕ) → i < length plan.now.pieces →
        HasNoLength plan.now places.now i → ⊥ }
    ensures ways { IfOk result (AreWays plan.now places.now) }
    ensures fault { IfFault result (FirstShapeFault plan.now places.now) }
{
    let pieces = plan.pieces.as_slice();
    let points = places.xy.as_slice();
    let mut ways = Items::new(alloc);
    for i in 0..pieces.len() {
        let piece = pieces[i];
        match way_between(points[piece.from as usize], points[piece.to as usize]) {
            Some(way) => ways.push(way)?,
            None => return Err(Refusal::Fault(ShapeFault::Slanted(i as u32))),
        }
    }
    Ok(ways)
}
