//! A pair that keeps places from being a drawing.

ghost use Rattle.std.specs.Prelude.{◌≡◌, ◌≤◌, length, List, MatchOption};
ghost use Rattle.compact_types.specs.declared.places.Axis.TheVariants as axes;
ghost use Rattle.compact_types.specs.declared.search.Choice.{Choice};
ghost use Rattle.compact_types.specs.Drawings.{IsDrawing};
ghost use Rattle.bars.specs.Segments.{segment_count, node_count};
ghost use Rattle.bars.specs.Solutions.{Fit, HasDrawing, Solves};
ghost use Rattle.separation.specs.Meetings.{IsSharingPair};
ghost use Rattle.separation.specs.inner.Extents.{HasRoom};
ghost use Rattle.separation.specs.inner.Sweeps.{segments_of_pair};

use crate::extents::{NOWHERE, ROOM, SegmentExtent, has_room, put_in_order};
use crate::sweep::{START, SharingPair, next_sharing};
use bars::Bars;
use compact_types::Places;

/// A pair of segments that share a point and not a vertex, in places that solve the choices: the
/// first that is found. `None` exactly if the places are a drawing. It takes no memory.
pub fn sharing_pair(bars: &Bars, places: &Places) -> Option<(u32, u32)>
    requires places_fit { length places.now.xy ≡ bars.now.plan.vertices }
    ensures { (choices : List Choice) → Fit bars.now choices →
        Solves bars.now choices places.now →
        MatchOption result (IsDrawing bars.now places.now)
        (λ pair. IsSharingPair bars.now places.now pair.0 pair.1) }
{
    // The shape is small, so there is room.
    let _small = bars.shape();
    if has_room(bars, 64) {
        return sharing_in::<64>(bars, places);
    }
    if has_room(bars, 128) {
        return sharing_in::<128>(bars, places);
    }
    if has_room(bars, 192) {
        return sharing_in::<192>(bars, places);
    }
    if has_room(bars, 320) {
        return sharing_in::<320>(bars, places);
    }
    sharing_in::<ROOM>(bars, places)
}

/// The pair, with room for so many segments and nodes: on small shapes the time to clear it counts.
fn sharing_in<const N: usize>(bars: &Bars, places: &Places) -> Option<(u32, u32)>
    requires room { HasRoom bars.now N }
    requires few { N ≤ ROOM }
    requires places_fit { length places.now.xy ≡ bars.now.plan.vertices }
    ensures { (choices : List Choice) → HasDrawing bars.now → Solves bars.now choices places.now →
        MatchOption result (IsDrawing bars.now places.now)
        (λ pair. IsSharingPair bars.now places.now pair.0 pair.1) }
{
    let mut room = [NOWHERE; N];
    let mut xs = [0; N];
    let mut ys = [0; N];
    sharing_with(&mut room, &mut xs, &mut ys, bars, places)
}

/// The pair, with room for the extents of all segments and for the coordinates of the nodes.
fn sharing_with(
    room: &mut [SegmentExtent],
    xs: &mut [i64],
    ys: &mut [i64],
    bars: &Bars,
    places: &Places,
) -> Option<(u32, u32)>
    requires room { segment_count bars.now ≤ length room.old }
    requires xs { node_count axes.X bars.now ≤ length xs.old }
    requires ys { node_count axes.Y bars.now ≤ length ys.old }
    requires places_fit { length places.now.xy ≡ bars.now.plan.vertices }
    ensures { (choices : List Choice) → HasDrawing bars.now → Solves bars.now choices places.now →
        MatchOption result (IsDrawing bars.now places.now)
        (λ pair. IsSharingPair bars.now places.now pair.0 pair.1) }
{
    let extents = &mut room[..bars.bars() as usize];
    put_in_order(extents, xs, ys, bars, places);
    segments_of_pair(next_sharing(bars, extents, START))
}

/// The numbers of the segments of the pair, where one was found.
fn segments_of_pair(found: Option<SharingPair>) -> Option<(u32, u32)>
    ensures { result ≡ segments_of_pair found }
{
    match found {
        None => None,
        Some(pair) => Some((pair.s, pair.t)),
    }
}
