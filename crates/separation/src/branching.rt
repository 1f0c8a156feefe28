//! The pair at which a search splits.

ghost use Rattle.std.specs.Prelude.{◌≡◌, ◌≤◌, length, List, MatchOption};
ghost use Rattle.compact_types.specs.declared.places.Axis.TheVariants as axes;
ghost use Rattle.compact_types.specs.declared.search.Choice.{Choice};
ghost use Rattle.compact_types.specs.Drawings.{IsDrawing};
ghost use Rattle.bars.specs.Solutions.{Fit, HasDrawing, Solves};
ghost use Rattle.bars.specs.Segments.{segment_count, node_count};
ghost use Rattle.separation.specs.Branching.{IsBranchPair};
ghost use Rattle.separation.specs.Reaching.{IsReachOf, IsReach};
ghost use Rattle.separation.specs.inner.Extents.{HasRoom};

use crate::candidates::fewest_open;
use crate::extents::{NOWHERE, ROOM, SegmentExtent, has_room, put_in_order};
use crate::sides::Reach;
use crate::sweep::{START, next_sharing};
use bars::Bars;
use compact_types::Places;

/// The pair of segments that share a point in places that solve the choices, and not a vertex, with
/// the fewest open sides; among equals the first in list order. `None` exactly if the places are
/// a drawing. It takes no memory.
pub fn branch_pair(bars: &Bars, reach: &Reach, places: &Places) -> Option<(u32, u32)>
    requires places_fit { length places.now.xy ≡ bars.now.plan.vertices }
    requires reach { IsReach bars.now reach.now }
    ensures { (choices : List Choice) → Fit bars.now choices →
        IsReachOf bars.now choices reach.now →
        Solves bars.now choices places.now →
        MatchOption result (IsDrawing bars.now places.now)
        (λ pair. IsBranchPair bars.now choices places.now pair.0 pair.1) }
{
    // The shape is small, so there is room.
    let _small = bars.shape();
    if has_room(bars, 64) {
        return pair_in::<64>(bars, reach, places);
    }
    if has_room(bars, 128) {
        return pair_in::<128>(bars, reach, places);
    }
    if has_room(bars, 192) {
        return pair_in::<192>(bars, reach, places);
    }
    if has_room(bars, 320) {
        return pair_in::<320>(bars, reach, places);
    }
    pair_in::<ROOM>(bars, reach, places)
}

/// The pair, with room for so many segments and nodes: on small shapes the time to clear it counts.
fn pair_in<const N: usize>(bars: &Bars, reach: &Reach, places: &Places) -> Option<(u32, u32)>
    requires room { HasRoom bars.now N }
    requires few { N ≤ ROOM }
    requires places_fit { length places.now.xy ≡ bars.now.plan.vertices }
    requires reach { IsReach bars.now reach.now }
    ensures { (choices : List Choice) → HasDrawing bars.now → IsReachOf bars.now choices reach.now →
        Solves bars.now choices places.now →
        MatchOption result (IsDrawing bars.now places.now)
        (λ pair. IsBranchPair bars.now choices places.now pair.0 pair.1) }
{
    let mut room = [NOWHERE; N];
    let mut xs = [0; N];
    let mut ys = [0; N];
    pair_with(&mut room, &mut xs, &mut ys, bars, reach, places)
}

/// The pair, with room for the extents of all segments and for the coordinates of the nodes.
fn pair_with(
    room: &mut [SegmentExtent],
    xs: &mut [i64],
    ys: &mut [i64],
    bars: &Bars,
    reach: &Reach,
    places: &Places,
) -> Option<(u32, u32)>
    requires room { segment_count bars.now ≤ length room.old }
    requires xs { node_count axes.X bars.now ≤ length xs.old }
    requires ys { node_count axes.Y bars.now ≤ length ys.old }
    requires places_fit { length places.now.xy ≡ bars.now.plan.vertices }
    requires reach { IsReach bars.now reach.now }
    ensures { (choices : List Choice) → HasDrawing bars.now → IsReachOf bars.now choices reach.now →
        Solves bars.now choices places.now →
        MatchOption result (IsDrawing bars.now places.now)
        (λ pair. IsBranchPair bars.now choices places.now pair.0 pair.1) }
{
    let extents = &mut room[..bars.bars() as usize];
    put_in_order(extents, xs, ys, bars, places);
    let Some(first) = next_sharing(bars, extents, START) else {
        return None;
    };
    let found = fewest_open(bars, reach, extents, first);
    Some((found.s, found.t))
}
