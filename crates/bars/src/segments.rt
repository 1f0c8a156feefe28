//! The rows, columns and segments of a shape, each by its number.

ghost use Rattle.std.specs.Prelude.{◌≡◌, ◌↔◌, ◌<◌, IfOk, IsTrue};
ghost use Rattle.compact_types.specs.declared.places.Axis.TheVariants as axis;
ghost use Rattle.bars.specs.Lines as numbering;
ghost use Rattle.bars.specs.Lines.{is_axis, line_count};
ghost use Rattle.bars.specs.Segments as segments;
ghost use Rattle.bars.specs.Segments.{segment_at, segment_count, low_node, high_node};
ghost use Rattle.bars.specs.Segments.{ShareVertex, IsPair};
ghost use Rattle.bars.specs.Solutions.{IsSound};
ghost use Rattle.bars.specs.inner.Invariant.{do_cross};

use crate::crossings::crossings_of;
use crate::lines::{Lines, lines_along};
use crate::spans::{SegmentSpan, add_spans};
use compact_types::{Axis, NoMemory, Shape};
use std::alloc::Global;
use std::marker::Model;

/// The rows, columns and segments of a shape (Klau and Mutzel's maximal segments), numbered: the
/// rows in the order of their least vertices, the columns likewise, and of the segments first the
/// rows with a piece and then the columns with a piece.
///
/// Contracts see it as the shape. The shape is connected, small and has a drawing; `shape` says so.
#[derive(Debug, Drop)]
pub struct Bars {
    shape: Shape,
    rows: Lines,
    columns: Lines,
    /// The segments, of which the first `row_segments` are rows.
    spans: Vec<SegmentSpan>,
    row_segments: usize,
    /// Row by row, whether the row and a column have a vertex in common.
    crossings: Vec<bool>,
}

impl Model for Bars {
    ghost use Rattle.compact_types.specs.declared.plan.Shape.{Shape};

    ghost Value = { Shape };

    ghost use Rattle.bars.specs.inner.Invariant.{AreTables};

    ghost view = { λ bars. bars.shape };

    ghost invariant = { λ bars. AreTables bars.shape bars.rows bars.columns bars.spans.items
        bars.row_segments bars.crossings.items };
}

/// The rows, columns and segments of the shape. It takes hardly more than one step for each vertex
/// and piece, and clears a table with a place for each row and column.
pub fn bars_of(alloc: Global, shape: &Shape) -> Result<Bars, NoMemory>
    requires { IsSound shape.now }
    ensures { IfOk result (λ bars. bars ≡ shape.now) }
{
    let rows = lines_along(alloc, shape, Axis::X)?;
    let columns = lines_along(alloc, shape, Axis::Y)?;
    let mut spans = Vec::new(alloc);
    add_spans(alloc, &mut spans, shape, Axis::X, &rows, &columns)?;
    let row_segments = spans.len();
    add_spans(alloc, &mut spans, shape, Axis::Y, &columns, &rows)?;
    let crossings = crossings_of(alloc, &rows, &columns)?;
    Ok(Bars {
        shape: shape.copy()?,
        rows,
        columns,
        spans,
        row_segments,
        crossings,
    })
}

impl Bars {
    /// The shape. It is connected, has at most 1,000 vertices and has a drawing.
    pub fn shape(&self) -> &Shape
        ensures shape { result.now ≡ self.now }
        ensures sound { IsSound self.now }
    {
        &self.shape
    }

    /// How many rows there are.
    pub fn rows(&self) -> u32
        ensures { result ≡ line_count axis.X self.now }
    {
        self.rows.count
    }

    /// How many columns there are.
    pub fn columns(&self) -> u32
        ensures { result ≡ line_count axis.Y self.now }
    {
        self.columns.count
    }

    /// How many nodes the constraint graph of the axis has: columns for X, rows for Y.
    pub fn node_count(&self, axis: Axis) -> u32
        ensures { result ≡ segments.node_count axis self.now }
    {
        match axis {
            Axis::X => self.columns(),
            Axis::Y => self.rows(),
        }
    }

    /// The node of the vertex in the constraint graph of the axis: its column for X, its row for Y.
    pub fn node_of(&self, axis: Axis, v: u32) -> u32
        requires { v < self.now.plan.vertices }
        ensures { result ≡ segments.node_of axis self.now v }
    {
        match axis {
            Axis::X => self.column_of(v),
            Axis::Y => self.row_of(v),
        }
    }

    /// How many segments there are.
    pub fn bars(&self) -> u32
        ensures { result ≡ segment_count self.now }
    {
        self.spans.len() as u32
    }

    /// The row of the vertex.
    pub fn row_of(&self, v: u32) -> u32
        requires { v < self.now.plan.vertices }
        ensures { result ≡ numbering.row_of self.now v }
    {
        self.rows.of[v as usize]
    }

    /// The column of the vertex.
    pub fn column_of(&self, v: u32) -> u32
        requires { v < self.now.plan.vertices }
        ensures { result ≡ numbering.column_of self.now v }
    {
        self.columns.of[v as usize]
    }

    /// The column of the western end of a row, and of a column the column itself.
    pub fn left(&self, s: u32) -> u32
        requires { s < segment_count self.now }
        ensures { result ≡ low_node axis.X self.now s }
    {
        let span = self.spans[s as usize];
        if self.is_row(s) {
            span.first
        } else {
            span.line
        }
    }

    /// The column of the eastern end of a row, and of a column the column itself.
    pub fn right(&self, s: u32) -> u32
        requires { s < segment_count self.now }
        ensures { result ≡ high_node axis.X self.now s }
    {
        let span = self.spans[s as usize];
        if self.is_row(s) { span.last } else { span.line }
    }

    /// The row of the lower end of a column, and of a row the row itself.
    pub fn low(&self, s: u32) -> u32
        requires { s < segment_count self.now }
        ensures { result ≡ low_node axis.Y self.now s }
    {
        let span = self.spans[s as usize];
        if self.is_row(s) {
            span.line
        } else {
            span.first
        }
    }

    /// The row of the higher end of a column, and of a row the row itself.
    pub fn high(&self, s: u32) -> u32
        requires { s < segment_count self.now }
        ensures { result ≡ high_node axis.Y self.now s }
    {
        let span = self.spans[s as usize];
        if self.is_row(s) { span.line } else { span.last }
    }

    /// Whether the two segments have a vertex in common.
    pub fn share_vertex(&self, s: u32, t: u32) -> bool
        requires s { s < segment_count self.now }
        requires t { t < segment_count self.now }
        ensures { IsTrue result ↔ ShareVertex self.now s t }
    {
        let first = self.line(s);
        let second = self.line(t);
        let is_row = self.is_row(s);
        if is_row == self.is_row(t) {
            first == second
        } else if is_row {
            self.cross(first, second)
        } else {
            self.cross(second, first)
        }
    }

    /// Whether these are two segments without a common vertex, in the order of their numbers.
    pub fn is_pair(&self, s: u32, t: u32) -> bool
        ensures { IsTrue result ↔ IsPair self.now s t }
    {
        s < t && t < self.bars() && !self.share_vertex(s, t)
    }

    /// Whether the segment is a row.
    fn is_row(&self, s: u32) -> bool
        requires { s < segment_count self.now }
        ensures { result ≡ is_axis (segment_at self.now s).axis axis.X }
    {
        (s as usize) < self.row_segments
    }

    /// The line of the segment: its row or its column.
    fn line(&self, s: u32) -> u32
        requires { s < segment_count self.now }
        ensures { result ≡ (segment_at self.now s).line }
    {
        let span = self.spans[s as usize];
        span.line
    }

    /// Whether a vertex is in the row and in the column: one look into the table.
    fn cross(&self, row: u32, column: u32) -> bool
        requires row { row < line_count axis.X self.now }
        requires column { column < line_count axis.Y self.now }
        ensures { result ≡ do_cross self.now row column }
    {
        self.crossings[row as usize * self.columns.count as usize + column as usize]
    }
}

#[cfg(test)]
mod tests;
