//! Sample drawings, as they are drawn by hand.

use super::{MOST_SAMPLE, greatest_along, sample_drawing};
use compact_types::{Axis, NoMemory, Piece, Point};
use std::alloc::Global;
use std::test::Fail;

/// How many vertices and pieces the sample has, its width and its height, some of its pieces by
/// their numbers, and the places of some of its vertices.
#[derive(Clone, Copy, Debug)]
struct Row<'a> {
    number: u32,
    vertices: u32,
    pieces: usize,
    width: i64,
    height: i64,
    ends: &'a [(usize, u32, u32)],
    points: &'a [(usize, i64, i64)],
}

/// Whether the sample is as the row says.
fn is_as_drawn(alloc: Global, row: Row) -> Result<bool, NoMemory> {
    if row.number == 0 || row.number > MOST_SAMPLE {
        return Ok(false);
    }
    let (bars, places) = sample_drawing(row.number, alloc)?;
    let plan = &bars.shape().plan;
    let pieces = plan.pieces.as_slice();
    let points = places.xy.as_slice();
    for &(index, from, to) in row.ends {
        if pieces.get(index) != Some(&Piece { from, to }) {
            return Ok(false);
        }
    }
    for &(vertex, x, y) in row.points {
        if points.get(vertex) != Some(&Point { x, y }) {
            return Ok(false);
        }
    }
    Ok(
        plan.vertices == row.vertices
            && pieces.len() == row.pieces
            && greatest_along(Axis::X, &places) == row.width
            && greatest_along(Axis::Y, &places) == row.height,
    )
}

#[test]
fn samples_as_drawn(rt: HostRuntime) -> Result<(), Fail> {
    for row in [
        // One node with an arm and its hook.
        Row {
            number: 1,
            vertices: 3,
            pieces: 2,
            width: 1,
            height: 1,
            ends: &[(0, 0, 1), (1, 1, 2)],
            points: &[(0, 0, 0), (1, 1, 0), (2, 1, 1)],
        },
        // A second node, whose arm has no hook.
        Row {
            number: 2,
            vertices: 5,
            pieces: 4,
            width: 1,
            height: 2,
            ends: &[(0, 0, 1), (1, 0, 2), (2, 1, 3), (3, 2, 4)],
            points: &[(1, 0, 2), (2, 1, 0), (3, 1, 2), (4, 1, 1)],
        },
        // The least sample with a second hook.
        Row {
            number: 26,
            vertices: 54,
            pieces: 53,
            width: 1,
            height: 51,
            ends: &[(24, 24, 25), (25, 0, 26), (51, 26, 52), (52, 51, 53)],
            points: &[(25, 0, 50), (51, 1, 50), (52, 1, 1), (53, 1, 51)],
        },
    ] {
        assert!(rt; is_as_drawn(rt.alloc(), row)?);
    }
    Ok(())
}
