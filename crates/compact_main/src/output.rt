//! What a command writes for a text, or why it has no answer for it.

ghost use Rattle.std.specs.Prelude.{◌≡◌, ◌≤◌, length, IfOk};
ghost use Rattle.compact_types.specs.Refusals.{IfFault};
ghost use Rattle.compact_main.specs.Commands.{IsCommandWithinLimits};
ghost use Rattle.compact_main.specs.Intakes.{limit_of};
ghost use Rattle.compact_main.specs.Outputs as outputs;
ghost use Rattle.compact_main.specs.Outputs.{Output, FirstFailure};

use crate::command::Command;
use crate::draw::draw;
use crate::drawing::{Drawing, input_of};
use crate::sampled::draw_sample;
use crate::search::Search;
use crate::status::Failure;
use crate::summary::{summary_of, summary_text};
use crate::verify::verify;
use compact_types::{Items, NoMemory, Refusal};
use itoa::Buffer;
use std::alloc::Global;
use std::thread::Threads;

/// What the command writes for a text, or why it has no answer for it. Best places are found by
/// this search.
pub(crate) fn answer<X: Search, R: Threads + Sync>(
    rt: &R,
    alloc: Global,
    search: &X,
    command: Command,
    bytes: &[u8],
) -> Result<Items<u8>, Refusal<Failure>>
    requires ready { X.is_ready search.now }
    requires within { length bytes.now ≤ limit_of command }
    requires number { IsCommandWithinLimits command }
    ensures output { IfOk result (Output command bytes.now) }
    ensures fault { IfFault result (FirstFailure command bytes.now) }
{
    match command {
        Command::Draw { pitch, form } => draw(rt, alloc, search, pitch, form, bytes),
        Command::Check => count(rt, alloc, bytes),
        Command::Measure => measure(rt, alloc, bytes),
        Command::Verify => verify(rt, alloc, bytes),
        Command::Sample { number } => Ok(draw_sample(alloc, search, number)?),
    }
}

/// How many vertices and pieces the text's drawing has.
fn count<R: Threads + Sync>(
    rt: &R,
    alloc: Global,
    bytes: &[u8],
) -> Result<Items<u8>, Refusal<Failure>>
    requires { length bytes.now ≤ limit_of Command.Check }
    ensures output { IfOk result (Output Command.Check bytes.now) }
    ensures fault { IfFault result (FirstFailure Command.Check bytes.now) }
{
    let drawing = input_of(rt, alloc, Command::Check, bytes)?;
    Ok(count_line(alloc, &drawing)?)
}

/// The line that says how many vertices and pieces the drawing has.
fn count_line(alloc: Global, drawing: &Drawing) -> Result<Items<u8>, NoMemory>
    ensures { IfOk result (λ line. line ≡ outputs.count_line drawing.now) }
{
    let plan = &drawing.reading.plan;
    let mut buffer = Buffer::new();
    let mut line = Items::from_slice(alloc, b"drawing: ")?;
    line.extend_from_slice(buffer.format(plan.vertices).as_bytes())?;
    line.extend_from_slice(b" vertices, ")?;
    line.extend_from_slice(buffer.format(plan.pieces.len()).as_bytes())?;
    line.extend_from_slice(b" pieces\n")?;
    Ok(line)
}

/// The numbers of the text's drawing.
fn measure<R: Threads + Sync>(
    rt: &R,
    alloc: Global,
    bytes: &[u8],
) -> Result<Items<u8>, Refusal<Failure>>
    requires { length bytes.now ≤ limit_of Command.Measure }
    ensures output { IfOk result (Output Command.Measure bytes.now) }
    ensures fault { IfFault result (FirstFailure Command.Measure bytes.now) }
{
    let drawing = input_of(rt, alloc, Command::Measure, bytes)?;
    let summary = summary_of(alloc, &drawing)?;
    Ok(summary_text(alloc, summary)?)
}
