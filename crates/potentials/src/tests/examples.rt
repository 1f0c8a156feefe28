//! Small drawings, each with an extension of its shape.

ghost use Rattle.std.specs.Prelude.{◌≡◌, [], ◌∷◌, ◌++◌, IsTrue, IfOk};
ghost use Rattle.bars.specs.Solutions.{Fit, IsChoice};

use bars::{Bars, bars_of_points};
use compact_types::{Choice, Extension, Items, MOST_CHOICES};
use std::alloc::Global;
use std::test::Fail;

/// The segments of a drawing, and an extension.
#[derive(Drop)]
pub(crate) struct Example {
    pub(crate) bars: Bars,
    pub(crate) extension: Extension,
    pub(crate) ghost fit: { Fit bars extension.choices },
}

/// The segments of the drawing with these points and pieces, and the extension of no more than one
/// choice.
pub(crate) fn example_of(
    alloc: Global,
    points: &[(i32, i32)],
    ends: &[(u32, u32)],
    choice: Option<Choice>,
) -> Result<Example, Fail> {
    let (bars, _places) = bars_of_points(alloc, points, ends)?.ok_or("no drawing")?;
    let extension = extension_with(alloc, &bars, choice)?;
    Ok(Example { bars, extension })
}

/// The extension of no more than one choice.
fn extension_with(alloc: Global, bars: &Bars, choice: Option<Choice>) -> Result<Extension, Fail>
    ensures { IfOk result (λ extension. Fit bars.now extension.choices) }
{
    let empty = Extension {
        choices: Items::new(alloc),
    };
    match choice {
        Some(choice) => longer(bars, &empty, choice),
        None => Ok(empty),
    }
}

/// The extension with this choice as its last.
#[tactic(auto, using(shape_graphs::proofs::Laws::fit_more))]
pub(crate) fn longer(bars: &Bars, extension: &Extension, choice: Choice) -> Result<Extension, Fail>
    requires { Fit bars.now extension.now.choices }
    ensures fit { IfOk result (λ longer. Fit bars.now longer.choices) }
    ensures more { IfOk result (λ longer. longer.choices ≡ extension.now.choices ++ choice ∷ []) }
{
    if extension.choices.len() >= MOST_CHOICES || !is_choice(bars, choice) {
        return Err(Fail::new("no choice"));
    }
    let mut longer = extension.copy()?;
    longer.choices.push(choice)?;
    Ok(longer)
}

/// Whether the choice names a pair and one of its four sides.
fn is_choice(bars: &Bars, choice: Choice) -> bool
    ensures { IsTrue result → IsChoice bars.now choice }
{
    if choice.side >= 4 {
        return false;
    }
    bars.is_pair(choice.s, choice.t)
}
