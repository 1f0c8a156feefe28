//! The extension that a drawing gives.

ghost use Rattle.std.specs.Prelude.{◌≡◌, ℕ, ◌+◌, ◌<◌, ◌≤◌, length, IfOk, OnOk};
ghost use Rattle.compact_types.specs.declared.places.Places.{Places};
ghost use Rattle.compact_types.specs.Drawings.{IsDrawing};
ghost use Rattle.bars.specs.Segments.{segment_count};
ghost use Rattle.bars.specs.Solutions.{Fit, Solves};
ghost use Rattle.shape_graphs.specs.Separation.{IsComplete};
ghost use Rattle.separation.specs.Extensions.{IsExtensionOf};
ghost use Rattle.separation.specs.inner.Choosing.{AreChosen, AreLeast, least_side};
ghost use Rattle.separation.specs.inner.Extents.{extent_at, AreExtents, HasRoom};

use crate::extents::{NOWHERE, ROOM, SegmentExtent, ends_below, ends_west, put_extents};
use crate::sides::{Reach, add_side_arc, is_separated, reach_of};
use bars::Bars;
use compact_types::{Choice, Extension, Items, NoMemory, Places};
use std::alloc::Global;

/// The complete extension that the drawing solves: it goes through the pairs without a common
/// vertex in list order, and adds for each pair that the shape and the choices before it do not
/// keep apart the least side that holds in the places.
pub fn extension_of(alloc: Global, bars: &Bars, places: &Places) -> Result<Extension, NoMemory>
    requires { IsDrawing bars.now places.now }
    ensures choices { IfOk result (λ extension.
        IsExtensionOf bars.now places.now extension.choices) }
    ensures fits { IfOk result (λ extension. Fit bars.now extension.choices) }
    ensures complete { IfOk result (λ extension. IsComplete bars.now extension.choices) }
    ensures solved { IfOk result (λ extension. Solves bars.now extension.choices places.now) }
{
    // The shape is small, so there is room.
    let _small = bars.shape();
    let mut room = [NOWHERE; ROOM];
    extension_in(alloc, &mut room, bars, places)
}

/// The extension, with room for the extents of all segments.
fn extension_in(
    alloc: Global,
    room: &mut [SegmentExtent],
    bars: &Bars,
    places: &Places,
) -> Result<Extension, NoMemory>
    requires room { segment_count bars.now ≤ length room.old }
    requires few { HasRoom bars.now ROOM }
    requires drawing { IsDrawing bars.now places.now }
    ensures chosen { IfOk result (λ extension.
        IsExtensionOf bars.now places.now extension.choices) }
{
    let extents = &mut room[..bars.bars() as usize];
    let mut xs = [0; ROOM];
    let mut ys = [0; ROOM];
    put_extents(extents, &mut xs, &mut ys, bars, places);
    choose_all(alloc, bars, extents)
}

/// The choices of all pairs, with the least side that keeps the extents apart.
fn choose_all(alloc: Global, bars: &Bars, extents: &[SegmentExtent]) -> Result<Extension, NoMemory>
    requires one_for_each { length extents.now ≡ segment_count bars.now }
    requires few { segment_count bars.now ≤ ROOM }
    ensures { IfOk result (λ extension. (places : Places) → IsDrawing bars.now places →
        AreExtents bars.now places extents.now →
        ((s : ℕ) → s < length extents.now → (extent_at extents.now s).segment ≡ s) →
        IsExtensionOf bars.now places extension.choices) }
{
    let mut extension = Extension {
        choices: Items::new(alloc),
    };
    let mut reach = reach_of(alloc, bars, &extension)?;
    for s in 0..bars.bars() {
        choose_with_later(&mut extension, &mut reach, bars, extents, s)?;
    }
    Ok(extension)
}

/// Adds the choices of the pairs of `s` and a segment of a greater number.
fn choose_with_later(
    extension: &mut Extension,
    reach: &mut Reach,
    bars: &Bars,
    extents: &[SegmentExtent],
    s: u32,
) -> Result<(), NoMemory>
    requires s { s < segment_count bars.now }
    requires one_for_each { length extents.now ≡ segment_count bars.now }
    requires few { segment_count bars.now ≤ ROOM }
    requires chosen { AreChosen bars.now reach.old extension.old.choices s (s + 1) }
    ensures chosen { OnOk result
        (AreChosen bars.now reach.new extension.new.choices s (segment_count bars.now)) }
    ensures least { OnOk result ((places : Places) → IsDrawing bars.now places →
        AreExtents bars.now places extents.now →
        ((s : ℕ) → s < length extents.now → (extent_at extents.now s).segment ≡ s) →
        AreLeast bars.now places extension.old.choices →
        AreLeast bars.now places extension.new.choices) }
{
    for t in s + 1..bars.bars() {
        choose(extension, reach, bars, extents, s, t)?;
    }
    Ok(())
}

/// Adds the choice of the pair, where it is one and the choices before it do not keep it apart.
fn choose(
    extension: &mut Extension,
    reach: &mut Reach,
    bars: &Bars,
    extents: &[SegmentExtent],
    s: u32,
    t: u32,
) -> Result<(), NoMemory>
    requires s { s < t }
    requires t { t < segment_count bars.now }
    requires one_for_each { length extents.now ≡ segment_count bars.now }
    requires few { segment_count bars.now ≤ ROOM }
    requires chosen { AreChosen bars.now reach.old extension.old.choices s t }
    ensures chosen { OnOk result (AreChosen bars.now reach.new extension.new.choices s (t + 1)) }
    ensures least { OnOk result ((places : Places) → IsDrawing bars.now places →
        AreExtents bars.now places extents.now →
        ((s : ℕ) → s < length extents.now → (extent_at extents.now s).segment ≡ s) →
        AreLeast bars.now places extension.old.choices →
        AreLeast bars.now places extension.new.choices) }
{
    if bars.share_vertex(s, t) {
        return Ok(());
    }
    if is_separated(bars, reach, s, t) {
        return Ok(());
    }
    let side = least_side(&extents[s as usize], &extents[t as usize]);
    extension.choices.push(Choice { s, t, side })?;
    add_side_arc(reach, bars, s, t, side);
    Ok(())
}

/// The least side that keeps the two apart.
fn least_side(a: &SegmentExtent, b: &SegmentExtent) -> u8
    ensures side { result ≡ least_side a.now b.now }
    ensures below { result < 4 }
{
    if ends_west(a, b) {
        return 0;
    }
    if ends_west(b, a) {
        return 1;
    }
    if ends_below(a, b) {
        return 2;
    }
    3
}
