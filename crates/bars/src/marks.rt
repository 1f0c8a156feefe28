//! Which lines have a piece, and which vertices are their ends.

ghost use Rattle.std.specs.Prelude.{◌≡◌, ℕ, ◌<◌, length, slice_index, slice_set, true, IfOk, cond};
ghost use Rattle.bars.specs.inner.Marks.{AreMarks, AreFirstUnmarked, AreLineEnds};
ghost use Rattle.bars.specs.inner.Tables.{AreLines};

use crate::lines::{Lines, goes_along};
use compact_types::{Axis, NoMemory, Shape, high_end, low_end};
use std::alloc::Global;

/// Of each line along an axis: whether it has a piece, and its end vertices.
#[derive(Debug, Drop)]
pub(crate) struct LineEnds {
    pub(crate) has_piece: Vec<bool>,
    /// The western or the lower end vertex.
    pub(crate) first: Vec<u32>,
    /// The eastern or the higher end vertex.
    pub(crate) last: Vec<u32>,
}

/// The ends of the lines of the shape along the axis.
pub(crate) fn line_ends(
    alloc: Global,
    shape: &Shape,
    axis: Axis,
    lines: &Lines,
) -> Result<LineEnds, NoMemory>
    requires { AreLines axis shape.now lines.now }
    ensures { IfOk result (AreLineEnds axis shape.now) }
{
    let marks = marks_of(alloc, shape, axis, lines)?;
    let first = first_unmarked(alloc, lines, shape.plan.vertices, marks.before.as_slice())?;
    let last = first_unmarked(alloc, lines, shape.plan.vertices, marks.after.as_slice())?;
    Ok(LineEnds {
        has_piece: marks.has_piece,
        first,
        last,
    })
}

/// What the pieces along an axis mark.
#[derive(Debug, Drop)]
struct PieceMarks {
    /// The lines with a piece.
    has_piece: Vec<bool>,
    /// The vertices that a piece comes to from before.
    before: Vec<bool>,
    /// The vertices that a piece goes on from.
    after: Vec<bool>,
}

/// Goes over the pieces along the axis, and marks their lines and their ends.
fn marks_of(alloc: Global, shape: &Shape, axis: Axis, lines: &Lines) -> Result<PieceMarks, NoMemory>
    requires { AreLines axis shape.now lines.now }
    ensures { IfOk result (AreMarks axis shape.now) }
{
    let vertices = shape.plan.vertices as usize;
    let mut has_piece = vec![in alloc; false; lines.count as usize]?;
    let mut before = vec![in alloc; false; vertices]?;
    let mut after = vec![in alloc; false; vertices]?;
    let marked_lines = has_piece.as_mut_slice();
    let marked_before = before.as_mut_slice();
    let marked_after = after.as_mut_slice();
    let pieces = shape.plan.pieces.as_slice();
    let ways = shape.ways.as_slice();
    let numbers = lines.of.as_slice();
    for i in 0..pieces.len() {
        let along = goes_along(ways[i], axis);
        mark_if(marked_lines, numbers[pieces[i].from as usize], along);
        mark_if(marked_before, high_end(ways[i], pieces[i]), along);
        mark_if(marked_after, low_end(ways[i], pieces[i]), along);
    }
    Ok(PieceMarks {
        has_piece,
        before,
        after,
    })
}

/// Marks the number if the piece goes `along`.
fn mark_if(marks: &mut [bool], number: u32, along: bool)
    requires { number < length marks.old }
    ensures { marks.new ≡ cond along (slice_set marks.old number true) marks.old }
{
    if along {
        marks[number as usize] = true;
    }
}

/// Of each line the least vertex that is not marked.
fn first_unmarked(
    alloc: Global,
    lines: &Lines,
    vertices: u32,
    marked: &[bool],
) -> Result<Vec<u32>, NoMemory>
    requires lines { length lines.now.of.items ≡ vertices }
    requires marked { length marked.now ≡ vertices }
    requires numbers { (v : ℕ) → v < vertices → slice_index lines.now.of.items v < lines.now.count }
    ensures { IfOk result (λ found.
        AreFirstUnmarked lines.now marked.now 0 vertices found.items) }
{
    let mut found = vec![in alloc; 0; lines.count as usize]?;
    let places = found.as_mut_slice();
    let numbers = lines.of.as_slice();
    let mut v = vertices;
    while v > 0 {
        v -= 1;
        put_unless(places, numbers[v as usize], v, marked[v as usize]);
    }
    Ok(found)
}

/// Puts the vertex at its line, unless it is marked.
fn put_unless(found: &mut [u32], line: u32, vertex: u32, marked: bool)
    requires { line < length found.old }
    ensures { found.new ≡ cond marked found.old (slice_set found.old line vertex) }
{
    if !marked {
        found[line as usize] = vertex;
    }
}
