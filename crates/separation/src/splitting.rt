//! The pair at which a branch is split. Which node reaches which is looked up only where there is
//! such a pair.

ghost use Rattle.std.specs.Prelude.{◌≤◌, length, IfOk, MatchOption};
ghost use Rattle.compact_types.specs.declared.places.Axis.TheVariants as axes;
ghost use Rattle.compact_types.specs.Drawings.{IsDrawing};
ghost use Rattle.bars.specs.Segments.{node_count, segment_count};
ghost use Rattle.bars.specs.Solutions.{Fit, HasDrawing, Solves};
ghost use Rattle.separation.specs.Branching.{IsBranchPair};
ghost use Rattle.separation.specs.inner.Extents.{HasRoom};

use crate::candidates::fewest_open;
use crate::extents::{NOWHERE, ROOM, SegmentExtent, has_room, put_in_order};
use crate::sides::reach_by_coordinates;
use crate::sweep::{START, next_sharing};
use bars::Bars;
use compact_types::{Extension, NoMemory, Places};
use std::alloc::Global;

/// The pair at which a branch with these choices is split: of the pairs of segments that share a
/// point in places that solve the choices, and not a vertex, the one with the fewest open sides,
/// and among equals the first in list order. `None` exactly if the places are a drawing. It is
/// `branch_pair` with the reachability of the choices, which is made only where a pair is found.
pub fn splitting_pair(
    alloc: Global,
    bars: &Bars,
    extension: &Extension,
    places: &Places,
) -> Result<Option<(u32, u32)>, NoMemory>
    requires fit { Fit bars.now extension.now.choices }
    requires solves { Solves bars.now extension.now.choices places.now }
    ensures { IfOk result (λ found. MatchOption found (IsDrawing bars.now places.now)
        (λ pair. IsBranchPair bars.now extension.now.choices places.now pair.0 pair.1)) }
{
    // The shape is small, so there is room.
    let _small = bars.shape();
    if has_room(bars, 64) {
        return splitting_in::<64>(alloc, bars, extension, places);
    }
    if has_room(bars, 128) {
        return splitting_in::<128>(alloc, bars, extension, places);
    }
    if has_room(bars, 320) {
        return splitting_in::<320>(alloc, bars, extension, places);
    }
    splitting_in::<ROOM>(alloc, bars, extension, places)
}

/// The pair, with room for so many segments and nodes: on small shapes the time to clear it counts.
fn splitting_in<const N: usize>(
    alloc: Global,
    bars: &Bars,
    extension: &Extension,
    places: &Places,
) -> Result<Option<(u32, u32)>, NoMemory>
    requires room { HasRoom bars.now N }
    requires few { N ≤ ROOM }
    requires drawing { HasDrawing bars.now }
    requires fit { Fit bars.now extension.now.choices }
    requires solves { Solves bars.now extension.now.choices places.now }
    ensures { IfOk result (λ found. MatchOption found (IsDrawing bars.now places.now)
        (λ pair. IsBranchPair bars.now extension.now.choices places.now pair.0 pair.1)) }
{
    let mut room = [NOWHERE; N];
    let mut xs = [0; N];
    let mut ys = [0; N];
    splitting_with(alloc, &mut room, &mut xs, &mut ys, bars, extension, places)
}

/// The pair, with room for the extents of all segments and for the coordinates of the nodes.
fn splitting_with(
    alloc: Global,
    room: &mut [SegmentExtent],
    xs: &mut [i64],
    ys: &mut [i64],
    bars: &Bars,
    extension: &Extension,
    places: &Places,
) -> Result<Option<(u32, u32)>, NoMemory>
    requires room { segment_count bars.now ≤ length room.old }
    requires xs { node_count axes.X bars.now ≤ length xs.old }
    requires ys { node_count axes.Y bars.now ≤ length ys.old }
    requires drawing { HasDrawing bars.now }
    requires fit { Fit bars.now extension.now.choices }
    requires solves { Solves bars.now extension.now.choices places.now }
    ensures { IfOk result (λ found. MatchOption found (IsDrawing bars.now places.now)
        (λ pair. IsBranchPair bars.now extension.now.choices places.now pair.0 pair.1)) }
{
    let extents = &mut room[..bars.bars() as usize];
    let xs = &mut xs[..bars.columns() as usize];
    let ys = &mut ys[..bars.rows() as usize];
    put_in_order(extents, xs, ys, bars, places);
    let Some(first) = next_sharing(bars, extents, START) else {
        return Ok(None);
    };
    let reach = reach_by_coordinates(alloc, bars, extension, xs, ys)?;
    let found = fewest_open(bars, &reach, extents, first);
    Ok(Some((found.s, found.t)))
}
