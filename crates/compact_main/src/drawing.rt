//! The drawing that a text holds.

ghost use Rattle.std.specs.Prelude.{◌≤◌, length, IfOk};
ghost use Rattle.compact_types.specs.Refusals.{Decides, IfFault};
ghost use Rattle.gml_text.specs.declared.limits.TheConstants.{MOST_BYTES};
ghost use Rattle.compact_main.specs.Drawings.{HoldsDrawing, FirstTextFault};
ghost use Rattle.compact_main.specs.Intakes.{limit_of};
ghost use Rattle.compact_main.specs.Outputs.{IsInput, FirstFailure};
ghost use Rattle.compact_main.specs.inner.Readings.{ReadsDrawing};

use crate::command::Command;
use crate::status::{Failure, Why};
use bars::{Bars, bars_of};
use compact_types::Refusal;
use drawing_check::check;
use drawing_read::{Reading, read_drawing};
use gml_text::{Tree, read_tree};
use std::alloc::Global;
use std::thread::Threads;

/// The drawing that a text holds: its tree, what is read of it, and its shape, as the tables of its
/// segments. Contracts see `bars` as the shape.
#[derive(Drop)]
pub struct Drawing {
    pub tree: Tree,
    pub reading: Reading,
    pub bars: Bars,
}

/// The drawing that a command is given, or why it refuses the text.
pub(crate) fn input_of<R: Threads + Sync>(
    rt: &R,
    alloc: Global,
    command: Command,
    bytes: &[u8],
) -> Result<Drawing, Refusal<Failure>>
    requires drawing { ReadsDrawing command }
    requires within { length bytes.now ≤ limit_of command }
    ensures input { IfOk result (IsInput command bytes.now) }
    ensures fault { IfFault result (FirstFailure command bytes.now) }
{
    match drawing_of(rt, alloc, bytes) {
        Ok(drawing) => Ok(drawing),
        Err(refusal) => Err(refusal.map(Failure::Refused)),
    }
}

/// The drawing that the text holds, or the first fault of a text that holds none.
#[tactic(auto, using(drawing_read::proofs::Laws::readable_legible))]
fn drawing_of<R: Threads + Sync>(
    rt: &R,
    alloc: Global,
    bytes: &[u8],
) -> Result<Drawing, Refusal<Why>>
    requires { length bytes.now ≤ MOST_BYTES }
    ensures { Decides result (HoldsDrawing bytes.now) (FirstTextFault bytes.now) }
{
    let tree = match read_tree(alloc, bytes) {
        Ok(tree) => tree,
        Err(refusal) => return Err(refusal.map(Why::Gml)),
    };
    let reading = match read_drawing(alloc, &tree) {
        Ok(reading) => reading,
        Err(refusal) => return Err(refusal.map(Why::Draw)),
    };
    let shape = match check(rt, alloc, &reading.plan, &reading.places) {
        Ok(shape) => shape,
        Err(refusal) => return Err(refusal.map(Why::Shape)),
    };
    let bars = bars_of(alloc, &shape)?;
    Ok(Drawing {
        tree,
        reading,
        bars,
    })
}
