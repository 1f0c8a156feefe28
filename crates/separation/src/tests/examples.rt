//! Small drawings with the rows of their graphs.

ghost use Rattle.std.specs.Prelude.{IsTrue, IfOk};
ghost use Rattle.bars.specs.Solutions.{Fit, IsChoice};
ghost use Rattle.separation.specs.Reaching.{IsReach};

use crate::{Reach, reach_of};
use bars::{Bars, bars_of_points};
use compact_types::{Choice, Extension, Items, NoMemory};
use std::alloc::Global;
use std::test::Fail;

/// The segments of a drawing, and an extension.
#[derive(Drop)]
pub(crate) struct Example {
    pub(crate) bars: Bars,
    pub(crate) extension: Extension,
    ghost fit: { Fit bars extension.choices },
}

/// The segments of the drawing with these points and pieces, and the extension of this choice.
pub(crate) fn example_of(
    alloc: Global,
    points: &[(i32, i32)],
    ends: &[(u32, u32)],
    choice: Option<Choice>,
) -> Result<Example, Fail> {
    let drawn = bars_of_points(alloc, points, ends)?.ok_or("no drawing")?;
    Ok(with_choice(alloc, drawn.0, choice)?.ok_or("no choice")?)
}

/// The rows of the example's graphs.
pub(crate) fn rows_of(alloc: Global, example: &Example) -> Result<Reach, NoMemory>
    ensures { IfOk result (IsReach example.now.bars) }
{
    reach_of(alloc, &example.bars, &example.extension)
}

/// The segments with the extension of no more than one choice; `None` where it is no choice.
fn with_choice(
    alloc: Global,
    bars: Bars,
    choice: Option<Choice>,
) -> Result<Option<Example>, NoMemory> {
    let mut choices = Items::new(alloc);
    let Some(choice) = choice else {
        let extension = Extension { choices };
        return Ok(Some(Example { bars, extension }));
    };
    if !is_choice(&bars, choice) {
        return Ok(None);
    }
    choices.push(choice)?;
    let extension = Extension { choices };
    Ok(Some(Example { bars, extension }))
}

/// Whether the choice names a pair and one of its four sides.
fn is_choice(bars: &Bars, choice: Choice) -> bool
    ensures { IsTrue result → IsChoice bars.now choice }
{
    if choice.side >= 4 {
        return false;
    }
    bars.is_pair(choice.s, choice.t)
}
