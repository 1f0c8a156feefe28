//! How far each segment reaches.

ghost use Rattle.std.specs.Prelude.{◌≡◌, ◌<◌, ◌++◌, ◌∷◌, [], OnOk, cond};
ghost use Rattle.compact_types.specs.Lookups.{other_axis};
ghost use Rattle.bars.specs.inner.Spans.{spans_along};
ghost use Rattle.bars.specs.inner.Tables.{AreLines};

use crate::lines::Lines;
use crate::marks::line_ends;
use compact_types::{Axis, NoMemory, Shape};
use std::alloc::Global;

/// A segment: its line, and the lines across in which it begins and ends. A row has the columns of
/// its western and its eastern end, a column the rows of its lower and its higher end.
#[derive(Clone, Copy, Debug)]
pub(crate) struct SegmentSpan {
    pub(crate) line: u32,
    pub(crate) first: u32,
    pub(crate) last: u32,
}

/// Adds the spans of the lines along the axis that have a piece, in the order of their numbers.
pub(crate) fn add_spans(
    alloc: Global,
    spans: &mut Vec<SegmentSpan>,
    shape: &Shape,
    axis: Axis,
    lines: &Lines,
    across: &Lines,
) -> Result<(), NoMemory>
    requires lines { AreLines axis shape.now lines.now }
    requires across { AreLines (other_axis axis) shape.now across.now }
    requires some_vertex { 0 < shape.now.plan.vertices }
    ensures { OnOk result (spans.new.items ≡ spans.old.items ++ spans_along axis shape.now) }
{
    let ends = line_ends(alloc, shape, axis, lines)?;
    let has_piece = ends.has_piece.as_slice();
    let first = ends.first.as_slice();
    let last = ends.last.as_slice();
    let line_across = across.of.as_slice();
    for line in 0..lines.count {
        let span = SegmentSpan {
            line,
            first: line_across[first[line as usize] as usize],
            last: line_across[last[line as usize] as usize],
        };
        push_if(spans, span, has_piece[line as usize])?;
    }
    Ok(())
}

/// Adds the span if its line has a piece.
fn push_if(spans: &mut Vec<SegmentSpan>, span: SegmentSpan, has_piece: bool) -> Result<(), NoMemory>
    ensures { OnOk result (spans.new.items
        ≡ cond has_piece (spans.old.items ++ span ∷ []) spans.old.items) }
{
    if has_piece {
        spans.push(span)?;
    }
    Ok(())
}
