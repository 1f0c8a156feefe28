//! A pair that shares a point, on the spine and after a stair that needs more room.

use super::examples::{Example, example_of};
use super::spine;
use crate::sharing_pair;
use compact_types::{NoMemory, Places};
use std::alloc::Global;
use std::test::Fail;

/// The vertices of a stair of 70 steps from (0, 0) to (35, 35), and then these four.
fn stair(alloc: Global, others: [(i32, i32); 4]) -> Result<Vec<(i32, i32)>, NoMemory> {
    let mut points = Vec::new(alloc);
    for v in 0..71u8 {
        points.push((i32::from(v.div_ceil(2)), i32::from(v / 2)))?;
    }
    for point in &others {
        points.push(*point)?;
    }
    Ok(points)
}

/// The pieces of the stair, and then those of the spine, whose arms and turn stand at its end.
fn stair_ends(alloc: Global) -> Result<Vec<(u32, u32)>, NoMemory> {
    let mut ends = Vec::new(alloc);
    for v in 0..70u32 {
        ends.push((v, v + 1))?;
    }
    for end in &[(70, 71), (70, 72), (72, 73), (71, 74)] {
        ends.push(*end)?;
    }
    Ok(ends)
}

/// The pair that is found in these places.
fn sharing_at(
    alloc: Global,
    example: &Example,
    points: &[(i32, i32)],
) -> Result<Option<(u32, u32)>, Fail> {
    let places = Places::at(alloc, points)?;
    if places.xy.len() != example.bars.shape().plan.vertices as usize {
        return Err(Fail::new("no place for each vertex"));
    }
    Ok(sharing_pair(&example.bars, &places))
}

#[test]
fn sharing_where_the_arm_meets_the_turn(rt: HostRuntime) -> Result<(), Fail> {
    let spine = spine(rt.alloc(), None)?;
    let least = [(0, 0), (0, 1), (1, 0), (1, 1), (1, 1)];
    assert!(rt; sharing_at(rt.alloc(), &spine, &least)? == Some((1, 3)));
    let drawing = [(0, 0), (0, 1), (2, 0), (2, 1), (1, 1)];
    assert!(rt; sharing_at(rt.alloc(), &spine, &drawing)? == None);
    Ok(())
}

/// The segments are the rows 0 to 34 of the stair, 35 and 36 of the lower and the upper arm, the
/// columns 37 to 71 of the stair, of which the last goes on as the spine, and 72 of the turn. The
/// second places are higher than wide, so that they are gone over from below.
#[test]
fn sharing_behind_a_stair(rt: HostRuntime) -> Result<(), Fail> {
    let alloc = rt.alloc();
    let points = stair(alloc, [(35, 45), (55, 35), (55, 40), (45, 45)])?;
    let ends = stair_ends(alloc)?;
    let stairs = example_of(alloc, points.as_slice(), ends.as_slice(), None)?;
    let cases = [
        ([(35, 36), (36, 35), (36, 36), (36, 36)], Some((36, 72))),
        ([(35, 40), (36, 35), (36, 40), (36, 40)], Some((36, 72))),
        ([(35, 40), (36, 35), (36, 39), (36, 40)], None),
        ([(35, 36), (37, 35), (37, 36), (36, 36)], None),
    ];
    for (others, pair) in &cases {
        let places = stair(alloc, *others)?;
        assert!(rt; sharing_at(alloc, &stairs, places.as_slice())? == *pair);
    }
    Ok(())
}
