//! The lines, spans and pairs of small drawings.

use super::Bars;
use crate::points::bars_of_points;
use compact_types::{Axis, NoMemory};
use std::alloc::Global;
use std::process::Abort;
use std::test::Fail;

fn both<T: Send + Sync>(_value: &T) {}

/// The row and the column of each vertex.
fn lines_of(alloc: Global, bars: &Bars) -> Result<Vec<(u32, u32)>, NoMemory> {
    let mut lines = Vec::new(alloc);
    for v in 0..bars.shape().plan.vertices {
        lines.push((bars.node_of(Axis::Y, v), bars.node_of(Axis::X, v)))?;
    }
    Ok(lines)
}

/// The left, right, low and high of each segment.
fn spans_of(alloc: Global, bars: &Bars) -> Result<Vec<[u32; 4]>, NoMemory> {
    let mut spans = Vec::new(alloc);
    for s in 0..bars.bars() {
        spans.push([bars.left(s), bars.right(s), bars.low(s), bars.high(s)])?;
    }
    Ok(spans)
}

/// The pairs of segments that do not share a vertex.
fn pairs_of(alloc: Global, bars: &Bars) -> Result<Vec<(u32, u32)>, NoMemory> {
    let mut pairs = Vec::new(alloc);
    for t in 0..bars.bars() {
        for s in 0..bars.bars() {
            if bars.is_pair(s, t) {
                pairs.push((s, t))?;
            }
        }
    }
    Ok(pairs)
}

#[derive(Drop)]
struct Case<'a> {
    points: &'a [(i32, i32)],
    ends: &'a [(u32, u32)],
    lines: &'a [(u32, u32)],
    spans: &'a [[u32; 4]],
    pairs: &'a [(u32, u32)],
}

fn assert_bars(rt: &impl Abort, alloc: Global, case: &Case) -> Result<(), Fail> {
    let (bars, _places) = bars_of_points(alloc, case.points, case.ends)?.ok_or("no drawing")?;
    both(&bars);
    assert_eq!(rt; lines_of(alloc, &bars)?.as_slice(), case.lines);
    assert_eq!(rt; spans_of(alloc, &bars)?.as_slice(), case.spans);
    assert_eq!(rt; pairs_of(alloc, &bars)?.as_slice(), case.pairs);
    Ok(())
}

#[test]
fn numbers_of_small_drawings(rt: HostRuntime) -> Result<(), Fail> {
    let cases = [
        // A spine with an arm at each end, of which the lower one turns up: the row of its end does
        // not have a piece.
        Case {
            points: &[(0, 0), (0, 10), (20, 0), (20, 5), (10, 10)],
            ends: &[(0, 1), (0, 2), (2, 3), (1, 4)],
            lines: &[(0, 0), (1, 0), (0, 1), (2, 1), (1, 2)],
            spans: &[[0, 1, 0, 0], [0, 2, 1, 1], [0, 0, 0, 1], [1, 1, 0, 2]],
            pairs: &[(0, 1), (1, 3), (2, 3)],
        },
        // A vertex alone.
        Case {
            points: &[(3, 4)],
            ends: &[],
            lines: &[(0, 0)],
            spans: &[],
            pairs: &[],
        },
        // A piece from east to west: its western end is in column 1.
        Case {
            points: &[(9, 0), (0, 0)],
            ends: &[(0, 1)],
            lines: &[(0, 0), (0, 1)],
            spans: &[[1, 0, 0, 0]],
            pairs: &[],
        },
        // Two rows at one y, with a bridge from one to the other above them.
        Case {
            points: &[(0, 0), (2, 0), (4, 0), (6, 0), (2, 2), (4, 2)],
            ends: &[(0, 1), (2, 3), (1, 4), (4, 5), (5, 2)],
            lines: &[(0, 0), (0, 1), (1, 2), (1, 3), (2, 1), (2, 2)],
            spans: &[
                [0, 1, 0, 0],
                [2, 3, 1, 1],
                [1, 2, 2, 2],
                [1, 1, 0, 2],
                [2, 2, 1, 2],
            ],
            pairs: &[(0, 1), (0, 2), (1, 2), (1, 3), (0, 4), (3, 4)],
        },
    ];
    for case in &cases {
        assert_bars(&rt, rt.alloc(), case)?;
    }
    Ok(())
}
