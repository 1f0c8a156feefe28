//! What two flows prove of a list of choices: a bound, and the least places that are tight for
//! both.

ghost use Rattle.std.specs.Prelude.{◌≡◌, IfOk, MatchOption};
ghost use Rattle.compact_types.specs.declared.places.Axis.TheVariants as axis;
ghost use Rattle.compact_types.specs.declared.places.Places.{Places as AnyPlaces};
ghost use Rattle.bars.specs.Solutions.{Fit, IsSound};
ghost use Rattle.shape_graphs.specs.Backings.{AreBalanced, bound_by};
ghost use Rattle.shape_graphs.specs.Graphs.{IsGraphOf};
ghost use Rattle.potentials.specs.TightPlaces.{AreLeastTightPlaces, AreTightPlaces};

use crate::standing::places_of;
use bars::Bars;
use compact_types::{Extension, Flows, NoMemory, Places};
use diff_flow::{bound, least_tight};
use shape_graphs::{DiffGraph, graphs_of};
use std::alloc::Global;

/// What two flows prove of a list of choices.
#[derive(Debug, Drop)]
pub struct FlowKey {
    /// No solution is shorter than this: the bounds of the two flows together, in grid steps.
    pub bound: i128,
    /// The least places that are tight for both flows, where there are any. They have the least
    /// length, and it is the bound.
    pub least: Option<Places>,
}

/// The bound of two balanced flows, and the least places from zero that are tight for both; `None`
/// exactly where no solution is tight for both.
pub fn flow_key(
    alloc: Global,
    bars: &Bars,
    extension: &Extension,
    flows: &Flows,
) -> Result<FlowKey, NoMemory>
    requires fit { Fit bars.now extension.now.choices }
    requires balanced { AreBalanced bars.now extension.now.choices flows.now }
    ensures bound { IfOk result (λ key.
        key.bound ≡ bound_by bars.now extension.now.choices flows.now) }
    ensures least { IfOk result (λ key. MatchOption key.least
        ((places : AnyPlaces) →
        AreTightPlaces bars.now extension.now.choices flows.now places → ⊥)
        (AreLeastTightPlaces bars.now extension.now.choices flows.now)) }
{
    // The call says what is known of the shape: that it is small and has a drawing.
    let _what_is_known = bars.shape();
    let (columns, rows) = graphs_of(alloc, bars, extension)?;
    let least = least_places(alloc, bars, extension, &columns, &rows, flows)?;
    let bound = bound(&columns, &flows.x) + bound(&rows, &flows.y);
    Ok(FlowKey { bound, least })
}

/// The least places from zero that are tight for both flows; `None` exactly where no solution is.
fn least_places(
    alloc: Global,
    bars: &Bars,
    extension: &Extension,
    columns: &DiffGraph,
    rows: &DiffGraph,
    flows: &Flows,
) -> Result<Option<Places>, NoMemory>
    requires sound { IsSound bars.now }
    requires fit { Fit bars.now extension.now.choices }
    requires columns { IsGraphOf axis.X bars.now extension.now.choices columns.now }
    requires rows { IsGraphOf axis.Y bars.now extension.now.choices rows.now }
    requires balanced { AreBalanced bars.now extension.now.choices flows.now }
    ensures { IfOk result (λ found. MatchOption found
        ((places : AnyPlaces) →
        AreTightPlaces bars.now extension.now.choices flows.now places → ⊥)
        (AreLeastTightPlaces bars.now extension.now.choices flows.now)) }
{
    let across = match least_tight(alloc, columns, &flows.x)? {
        Some(numbers) => numbers,
        None => return Ok(None),
    };
    let up = match least_tight(alloc, rows, &flows.y)? {
        Some(numbers) => numbers,
        None => return Ok(None),
    };
    let places = places_of(alloc, bars, across.as_slice(), up.as_slice())?;
    Ok(Some(places))
}
