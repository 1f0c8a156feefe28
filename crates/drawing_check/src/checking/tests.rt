//! Plans and places, and what the check answers.

ghost use Rattle.std.specs.Prelude.{IfOk, IfSome};
ghost use Rattle.drawing_check.specs.Conditions.{CanCheck};

use super::{check, check_alone};
use crate::drawing::is_drawing;
use crate::fault::ShapeFault;
use compact_types::{MOST_PIECES, NoMemory, Places, Plan, Refusal};
use std::alloc::Global;
use std::process::Abort;
use std::test::Fail;
use std::thread::Threads;

/// The plan with these ends and the places; `None` where nothing can be checked.
fn drawn(
    alloc: Global,
    points: &[(i32, i32)],
    ends: &[(u32, u32)],
) -> Result<Option<(Plan, Places)>, NoMemory>
    ensures { IfOk result (λ made. IfSome made (λ drawn. CanCheck drawn.0 drawn.1)) }
{
    let Ok(vertices) = u32::try_from(points.len()) else {
        return Ok(None);
    };
    let Some(plan) = Plan::of_ends(alloc, vertices, ends)? else {
        return Ok(None);
    };
    let places = Places::at(alloc, points)?;
    if vertices == 0 || places.xy.len() != vertices as usize || plan.pieces.len() > MOST_PIECES {
        return Ok(None);
    }
    Ok(Some((plan, places)))
}

/// Whether the answer is a shape that has these places as a drawing, or else the fault; `None`
/// where nothing can be checked.
fn answer<R: Threads + Sync>(
    rt: &R,
    alloc: Global,
    points: &[(i32, i32)],
    ends: &[(u32, u32)],
) -> Result<Option<Result<(), ShapeFault>>, NoMemory> {
    let Some((plan, places)) = drawn(alloc, points, ends)? else {
        return Ok(None);
    };
    match check(rt, alloc, &plan, &places) {
        Ok(shape) if is_drawing(&shape, &places) => Ok(Some(Ok(()))),
        Ok(_) => Ok(None),
        Err(Refusal::Fault(fault)) => Ok(Some(Err(fault))),
        Err(Refusal::NoMemory) => Err(NoMemory),
    }
}

/// The fault that is found without threads.
fn fault_alone(
    alloc: Global,
    points: &[(i32, i32)],
    ends: &[(u32, u32)],
) -> Result<Option<ShapeFault>, NoMemory> {
    let Some((plan, places)) = drawn(alloc, points, ends)? else {
        return Ok(None);
    };
    match check_alone(alloc, &plan, &places) {
        Ok(_) => Ok(None),
        Err(Refusal::Fault(fault)) => Ok(Some(fault)),
        Err(Refusal::NoMemory) => Err(NoMemory),
    }
}

type Case<'a> = (&'a [(i32, i32)], &'a [(u32, u32)], Result<(), ShapeFault>);

fn assert_answers<R: Abort + Threads + Sync>(
    rt: &R,
    alloc: Global,
    cases: &[Case],
) -> Result<(), Fail> {
    for (points, ends, want) in cases {
        assert_eq!(rt; answer(rt, alloc, points, ends)?, Some(*want));
        assert_eq!(rt; fault_alone(alloc, points, ends)?, want.err());
    }
    Ok(())
}

/// The answer where the pieces p and q meet at (x, y).
fn meeting(p: u32, q: u32, x: i64, y: i64) -> Result<(), ShapeFault> {
    Err(ShapeFault::Meeting { p, q, x, y })
}

#[test]
fn drawings(rt: HostRuntime) -> Result<(), Fail> {
    let square = [(0, 0), (1, 0), (1, 1), (0, 1)];
    let cases: [Case; 3] = [
        // One vertex, a bent edge, and a square whose sides share their corners only.
        (&[(7, -7)], &[], Ok(())),
        (
            &[(0, 0), (5000, 0), (5000, -2000)],
            &[(0, 1), (2, 1)],
            Ok(()),
        ),
        (&square, &[(0, 1), (1, 2), (2, 3), (3, 0)], Ok(())),
    ];
    assert_answers(&rt, rt.alloc(), &cases)
}

#[test]
fn pieces_that_meet(rt: HostRuntime) -> Result<(), Fail> {
    let cross = [(0, 0), (9, 0), (5, -5), (5, 5), (9, 5)];
    let inside = [(0, 0), (9, 0), (5, 0), (0, 5), (5, 5)];
    let cases: [Case; 4] = [
        // An edge across another, an edge that ends on another, and two edges on the same way.
        (
            &cross,
            &[(0, 1), (2, 3), (1, 4), (4, 3)],
            meeting(0, 1, 5, 0),
        ),
        (
            &inside,
            &[(0, 1), (0, 3), (3, 4), (4, 2)],
            meeting(0, 3, 5, 0),
        ),
        (&[(0, 0), (9, 0)], &[(0, 1), (0, 1)], meeting(0, 1, 0, 0)),
        // Two edges from one vertex on top of each other: the point after the vertex.
        (
            &[(0, 0), (0, 10), (0, 4)],
            &[(0, 1), (0, 2)],
            meeting(0, 1, 0, 1),
        ),
    ];
    assert_answers(&rt, rt.alloc(), &cases)
}

/// A row that runs below an eastern and a western column, which are joined above.
const RAKE: [(i32, i32); 7] = [(0, 0), (9, 0), (8, -2), (8, 2), (3, -2), (3, 2), (9, 2)];

#[test]
fn first_pair_and_least_point(rt: HostRuntime) -> Result<(), Fail> {
    let ring = [(0, 0), (9, 0), (4, 0), (12, 0), (12, 5), (0, 5)];
    let cases: [Case; 5] = [
        // The row meets both columns: of the lesser number, the eastern one, it is told.
        (
            &RAKE,
            &[(2, 3), (4, 5), (5, 3), (0, 1), (1, 6), (6, 3)],
            meeting(0, 3, 8, 0),
        ),
        (
            &RAKE,
            &[(0, 1), (2, 3), (4, 5), (5, 3), (1, 6), (6, 3)],
            meeting(0, 1, 8, 0),
        ),
        // Many points in common: the least by x, and by y, where no end or one may be shared.
        (
            &ring,
            &[(0, 1), (2, 3), (3, 4), (4, 5), (5, 0)],
            meeting(0, 1, 4, 0),
        ),
        (
            &[(0, 0), (9, 0), (4, 0)],
            &[(0, 1), (1, 2)],
            meeting(0, 1, 4, 0),
        ),
        (
            &[(0, 9), (0, 0), (0, 4)],
            &[(0, 1), (1, 2)],
            meeting(0, 1, 0, 1),
        ),
    ];
    assert_answers(&rt, rt.alloc(), &cases)
}

#[test]
fn only_the_last_two_of_many_meet(rt: HostRuntime) -> Result<(), Fail> {
    let alloc = rt.alloc();
    let mut points = Vec::new(alloc);
    let mut ends = Vec::new(alloc);
    // A row of 1,200 vertices, then a piece up and one that comes back on it.
    for x in 0..1_200i32 {
        points.push((x, 0))?;
    }
    points.push((1_199, 3))?;
    points.push((1_199, 1))?;
    for vertex in 0..1_201u32 {
        ends.push((vertex, vertex + 1))?;
    }
    let found = answer(&rt, alloc, points.as_slice(), ends.as_slice())?;
    assert_eq!(rt; found, Some(meeting(1_199, 1_200, 1_199, 1)));
    Ok(())
}

#[test]
fn other_faults(rt: HostRuntime) -> Result<(), Fail> {
    let slanted = Err(ShapeFault::Slanted(0));
    let no_length = |piece| Err(ShapeFault::ZeroPiece(piece));
    let apart = Err(ShapeFault::Disconnected(2));
    let bent = [(0, 0), (5, 4), (0, 4), (0, 4)];
    let bend_on_a_node = [(0, 0), (5, 4), (5, 9), (5, 9)];
    let cases: [Case; 5] = [
        // A slanted piece, a piece with no length, and both.
        (&[(0, 0), (5, 3)], &[(0, 1)], slanted),
        (&bent, &[(0, 2), (2, 3), (3, 1)], no_length(1)),
        (&bend_on_a_node, &[(0, 1), (1, 3), (3, 2)], no_length(2)),
        // Two edges apart, and a vertex alone on the place of another.
        (&[(0, 0), (1, 0), (5, 5), (6, 5)], &[(0, 1), (2, 3)], apart),
        (&[(0, 0), (1, 0), (0, 0)], &[(0, 1)], apart),
    ];
    assert_answers(&rt, rt.alloc(), &cases)
}
