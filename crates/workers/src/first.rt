//! The first incumbent of a search.

ghost use Rattle.std.specs.Prelude.{IfOk};
ghost use Rattle.compact_types.specs.declared.limits.TheConstants.{GREATEST_THOUSANDTHS};
ghost use Rattle.compact_types.specs.Drawings.{IsDrawing};
ghost use Rattle.compact_types.specs.Magnitudes.{AreWithin};
ghost use Rattle.bars.specs.Solutions.{Fit, Solves};
ghost use Rattle.shape_graphs.specs.Measures.{IsLeastKey};
ghost use Rattle.board.specs.Facts.{IsDrawnKey};
ghost use Rattle.workers.specs.inner.FirstIncumbents.{IsFirstKey};

use bars::Bars;
use compact_types::{Extension, Key, NoMemory, Places};
use separation::extension_of;
use shape_graphs::{Measure, Verdict};
use std::alloc::Global;

/// The least key of the extension that the drawing gives: that of a drawing from zero, worth no
/// more than the drawing.
pub(crate) fn first_key<M: Measure>(
    alloc: Global,
    measure: &M,
    bars: &Bars,
    places: &Places,
) -> Result<Key, NoMemory>
    requires drawing { IsDrawing bars.now places.now }
    requires near { AreWithin GREATEST_THOUSANDTHS places.now }
    ensures first { IfOk result (IsFirstKey M.Proof.objective bars.now places.now) }
    ensures drawn { IfOk result (IsDrawnKey M.Proof.objective bars.now) }
{
    let extension = extension_of(alloc, bars, places)?;
    least_key(alloc, measure, bars, &extension, places)
}

/// The least key of choices that the drawing solves. The search stops above the worth of the
/// drawing, so there is neither a cycle nor a bound above it.
fn least_key<M: Measure>(
    alloc: Global,
    measure: &M,
    bars: &Bars,
    extension: &Extension,
    places: &Places,
) -> Result<Key, NoMemory>
    requires drawing { IsDrawing bars.now places.now }
    requires fit { Fit bars.now extension.now.choices }
    requires solved { Solves bars.now extension.now.choices places.now }
    requires near { AreWithin GREATEST_THOUSANDTHS places.now }
    ensures { IfOk result (IsLeastKey M.Proof.objective bars.now extension.now.choices) }
{
    let stop = measure.worth(bars, places);
    let start: Option<M::Proof> = None;
    let verdict = measure.solve(alloc, bars, extension, start.as_ref(), stop)?;
    match verdict {
        Verdict::Least { key, .. } => Ok(key),
        Verdict::Cyclic { .. } => unreachable!(),
        Verdict::Above { .. } => unreachable!(),
    }
}
