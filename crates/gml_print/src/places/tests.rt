//! A drawing read with new places.

ghost use Rattle.std.specs.Prelude.{pos, ◌≤ℤ◌, IsTrue};
ghost use Rattle.compact_types.specs.Magnitudes.{AreWithin, IsNowhereNegative};

use super::*;
use crate::print::print_tree;
use compact_types::GREATEST_PLACE;
use drawing_read::read_drawing;
use gml_text::read_tree;
use std::test::Fail;

/// Two nodes, the second with y before x, and an edge with a point for its source and a bend.
const BENT: &[u8] = b"graph [ \
    node [ id 0 graphics [ x 0.0 y 0 x 7 ] ] node [ id 1 x 5 graphics [ y 4e0 x 5 ] ] \
    edge [ source 0 target 1 graphics [ Line [ point [ x 0 y 0 ] point [ x 0 y 4 ] ] ] ] ]";

/// The same with the nodes at (1, 0) and (3, 2) and the bend at (1, 2), ten units between
/// neighbours.
const MOVED: &[u8] = b"graph [ \
    node [ id 0 graphics [ x 10 y 0 x 7 ] ] node [ id 1 x 5 graphics [ y 20 x 30 ] ] \
    edge [ source 0 target 1 graphics [ Line [ point [ x 10 y 0 ] point [ x 10 y 20 ] ] ] ] ]";

fn may_stand(number: i64) -> bool
    ensures low { IsTrue result → pos 0 ≤ℤ number }
    ensures high { IsTrue result → number ≤ℤ pos GREATEST_PLACE }
{
    number >= 0 && number <= GREATEST_PLACE as i64
}

fn may_be_put(places: &Places) -> bool
    ensures not_below { IsTrue result → IsNowhereNegative places.now }
    ensures within { IsTrue result → AreWithin GREATEST_PLACE places.now }
{
    for point in places.xy.as_slice() {
        if !may_stand(point.x) || !may_stand(point.y) {
            return false;
        }
    }
    true
}

#[test]
#[tactic(auto, using(drawing_read::proofs::Laws::readable_legible))]
fn numerals_at_their_spots(rt: HostRuntime) -> Result<(), Fail> {
    let tree = read_tree(rt.alloc(), BENT)?;
    let reading = read_drawing(rt.alloc(), &tree)?;
    let places = Places::at(rt.alloc(), &[(1, 0), (3, 2), (1, 2)])?;
    assert!(rt; may_be_put(&places));
    assert_eq!(rt; places.xy.len(), reading.plan.vertices as usize);
    let new = put_places(rt.alloc(), &tree, &reading, &places, 10)?;
    let moved = read_tree(rt.alloc(), MOVED)?;
    let text = print_tree(rt.alloc(), &new)?;
    assert_eq!(rt; text.as_slice(), print_tree(rt.alloc(), &moved)?.as_slice());
    Ok(())
}
