//! A drawing in numbers: how large it is, and how many pairs of its segments its shape alone keeps
//! apart.

ghost use Rattle.std.specs.Prelude.{◌≡◌, ◌++◌, IfOk, OnOk};
ghost use Rattle.compact_main.specs.Drawings.{IsSummary};
ghost use Rattle.compact_main.specs.Summaries as summaries;
ghost use Rattle.compact_main.specs.Summaries.{number_line};
ghost use Rattle.compact_main.specs.inner.FoundDrawings.{IsRead};

use crate::drawing::Drawing;
use crate::pairs::{count_pairs, reach_of_shape};
use compact_types::{Items, NoMemory, plain_length};
use itoa::{Buffer, Integer};
use std::alloc::Global;

/// A drawing in numbers.
#[derive(Clone, Copy, Debug)]
pub struct Summary {
    /// The nodes and the bends.
    pub vertices: u32,
    /// The straight pieces of the edges.
    pub pieces: usize,
    /// The lines of vertices that horizontal pieces join.
    pub rows: u32,
    /// The lines of vertices that vertical pieces join.
    pub columns: u32,
    /// The segments: the rows and the columns with a piece.
    pub bars: u32,
    /// The pairs of segments without a common vertex.
    pub pairs: u32,
    /// The pairs of these that the shape alone keeps apart.
    pub separated: u32,
    /// The length of the drawing as it was read, in thousandths.
    pub length: i64,
}

/// The numbers of the drawing.
#[tactic(auto, using(crate::proofs::ReadShapes::within_limits))]
pub(crate) fn summary_of(alloc: Global, drawing: &Drawing) -> Result<Summary, NoMemory>
    requires { IsRead drawing.now }
    ensures { IfOk result (IsSummary drawing.now) }
{
    let reading = &drawing.reading;
    let length = plain_length(&reading.plan, &reading.places);
    let bars = &drawing.bars;
    let reach = reach_of_shape(alloc, bars)?;
    let counts = count_pairs(bars, &reach);
    Ok(Summary {
        vertices: reading.plan.vertices,
        pieces: reading.plan.pieces.len(),
        rows: bars.rows(),
        columns: bars.columns(),
        bars: bars.bars(),
        pairs: counts.pairs,
        separated: counts.separated,
        length,
    })
}

/// The lines that say the numbers.
pub(crate) fn summary_text(alloc: Global, summary: Summary) -> Result<Items<u8>, NoMemory>
    ensures { IfOk result (λ text. text ≡ summaries.summary_text summary) }
{
    let mut text = Items::new(alloc);
    push_line(&mut text, b"vertices", summary.vertices)?;
    push_line(&mut text, b"pieces", summary.pieces)?;
    push_line(&mut text, b"rows", summary.rows)?;
    push_line(&mut text, b"columns", summary.columns)?;
    push_line(&mut text, b"bars", summary.bars)?;
    push_line(&mut text, b"pairs", summary.pairs)?;
    push_line(&mut text, b"separated", summary.separated)?;
    push_line(&mut text, b"length", summary.length)?;
    Ok(text)
}

/// Adds a name and its number, on a line of their own.
pub(crate) fn push_line<I: Integer>(
    text: &mut Items<u8>,
    name: &[u8],
    number: I,
) -> Result<(), NoMemory>
    ensures { OnOk result (text.new ≡ text.old ++ number_line name.now (I.text number)) }
{
    let mut buffer = Buffer::new();
    text.extend_from_slice(name)?;
    text.extend_from_slice(b" ")?;
    text.extend_from_slice(buffer.format(number).as_bytes())?;
    text.extend_from_slice(b"\n")
}
