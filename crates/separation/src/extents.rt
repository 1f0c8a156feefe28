//! How far segments reach in given places.

ghost use Rattle.std.specs.Prelude.{◌≡◌, ℕ, ◌<◌, ◌≤◌, int_lt, IsTrue, length};
ghost use Rattle.std.specs.List.Sorted.{IsPermutation};
ghost use Rattle.compact_types.specs.declared.places.Axis.{Axis};
ghost use Rattle.compact_types.specs.declared.places.Axis.TheVariants as axes;
ghost use Rattle.compact_types.specs.declared.places.Places.{Places};
ghost use Rattle.compact_types.specs.Drawings.{HasWays};
ghost use Rattle.bars.specs.Segments.{segment_count, node_count, IsPair};
ghost use Rattle.separation.specs.inner.Sweeps.{IsSeen};
ghost use Rattle.separation.specs.inner.Extents.{extent_at, AreAtNodes, IsExtent, AreExtents};
ghost use Rattle.separation.specs.inner.Extents.{BeginInOrder, meet_in_x, meet_in_y, overlap};
ghost use Rattle.separation.specs.inner.Extents.{turned_along, AreTurned, AreExtentsAlong};
ghost use Rattle.separation.specs.inner.Extents.{AreInShape, HasRoom};

use bars::Bars;
use compact_types::{Axis, MOST_VERTICES, Places, coordinate};

/// Room for all nodes of a graph, and for all segments.
pub(crate) const ROOM: usize = MOST_VERTICES as usize;

/// A segment, and how far it reaches. For a sweep from below the extents are turned: then `left`
/// and `right` are the low and the high end, and the other way round.
#[derive(Clone, Copy, Debug)]
pub(crate) struct SegmentExtent {
    pub(crate) segment: u32,
    pub(crate) left: i64,
    pub(crate) right: i64,
    pub(crate) low: i64,
    pub(crate) high: i64,
}

/// The extent of no segment.
pub(crate) const NOWHERE: SegmentExtent = SegmentExtent {
    segment: 0,
    left: 0,
    right: 0,
    low: 0,
    high: 0,
};

/// Whether there is so much room: for all segments, and for the nodes of each graph.
pub(crate) fn has_room(bars: &Bars, room: u32) -> bool
    ensures { IsTrue result → HasRoom bars.now room }
{
    bars.bars() <= room && bars.columns() <= room && bars.rows() <= room
}

/// Puts the extents of all segments in the order in which they begin, along the axis along which
/// they reach farther: there fewer of them overlap. `xs` and `ys` are left with the coordinates of
/// the nodes.
pub(crate) fn put_in_order(
    extents: &mut [SegmentExtent],
    xs: &mut [i64],
    ys: &mut [i64],
    bars: &Bars,
    places: &Places,
)
    requires one_for_each { length extents.old ≡ segment_count bars.now }
    requires places_fit { length places.now.xy ≡ bars.now.plan.vertices }
    requires xs { node_count axes.X bars.now ≤ length xs.old }
    requires ys { node_count axes.Y bars.now ≤ length ys.old }
    ensures in_shape { AreInShape bars.now extents.new }
    ensures in_order { BeginInOrder extents.new }
    ensures seen { (s t : ℕ) → IsPair bars.now s t → IsSeen extents.new s t }
    ensures extents { HasWays bars.now places.now →
        (axis : Axis) × AreExtentsAlong axis bars.now places.now extents.new }
    ensures xs { HasWays bars.now places.now →
        AreAtNodes axes.X bars.now places.now bars.now.plan.vertices xs.new }
    ensures ys { HasWays bars.now places.now →
        AreAtNodes axes.Y bars.now places.now bars.now.plan.vertices ys.new }
{
    put_extents(extents, xs, ys, bars, places);
    turn_if_higher(extents);
    order_by_left(extents);
}

/// Puts at each place the extent of the segment of that number, with room for the coordinates of
/// the nodes along x and along y.
pub(crate) fn put_extents(
    extents: &mut [SegmentExtent],
    xs: &mut [i64],
    ys: &mut [i64],
    bars: &Bars,
    places: &Places,
)
    requires one_for_each { length extents.old ≡ segment_count bars.now }
    requires places_fit { length places.now.xy ≡ bars.now.plan.vertices }
    requires xs { node_count axes.X bars.now ≤ length xs.old }
    requires ys { node_count axes.Y bars.now ≤ length ys.old }
    ensures len { length extents.new ≡ length extents.old }
    ensures segment { (s : ℕ) → s < length extents.old → (extent_at extents.new s).segment ≡ s }
    ensures extents { HasWays bars.now places.now → AreExtents bars.now places.now extents.new }
    ensures xs { HasWays bars.now places.now →
        AreAtNodes axes.X bars.now places.now bars.now.plan.vertices xs.new }
    ensures ys { HasWays bars.now places.now →
        AreAtNodes axes.Y bars.now places.now bars.now.plan.vertices ys.new }
{
    put_coordinates(xs, bars, places, Axis::X);
    put_coordinates(ys, bars, places, Axis::Y);
    for s in 0..bars.bars() {
        extents[s as usize] = extent_of(bars, xs, ys, s);
    }
}

/// Turns the extents where they reach farther along y than along x.
fn turn_if_higher(extents: &mut [SegmentExtent])
    ensures len { length extents.new ≡ length extents.old }
    ensures turned { (axis : Axis) × AreTurned axis extents.old extents.new }
{
    if reach_higher(extents) {
        turn(extents);
    }
}

/// Whether the extents reach farther along y than along x. Either answer serves: it only spares
/// comparisons.
fn reach_higher(extents: &[SegmentExtent]) -> bool {
    let mut right = 0;
    let mut high = 0;
    for extent in extents {
        right = extent.right.max(right);
        high = extent.high.max(high);
    }
    right < high
}

/// Turns the extents: their beginnings and ends along x and along y change places.
fn turn(extents: &mut [SegmentExtent])
    ensures len { length extents.new ≡ length extents.old }
    ensures turned { AreTurned axes.Y extents.old extents.new }
{
    for k in 0..extents.len() {
        extents[k] = turned(extents[k]);
    }
}

/// The extent with the axes in each other's place.
fn turned(extent: SegmentExtent) -> SegmentExtent
    ensures { result ≡ turned_along axes.Y extent }
{
    SegmentExtent {
        segment: extent.segment,
        left: extent.low,
        right: extent.high,
        low: extent.left,
        high: extent.right,
    }
}

/// Orders the extents by where they begin.
fn order_by_left(extents: &mut [SegmentExtent])
    ensures permutation { IsPermutation extents.old extents.new }
    ensures len { length extents.new ≡ length extents.old }
    ensures in_order { BeginInOrder extents.new }
{
    extents.sort_unstable_by_key(|extent| extent.left);
}

/// Whether neither ends before the other begins, along both axes.
pub(crate) fn overlap(a: &SegmentExtent, b: &SegmentExtent) -> bool
    ensures { result ≡ overlap a.now b.now }
{
    meet_in_x(a, b) && meet_in_y(a, b)
}

/// Whether the first ends west of where the second begins.
pub(crate) fn ends_west(a: &SegmentExtent, b: &SegmentExtent) -> bool
    ensures { result ≡ int_lt a.now.right b.now.left }
{
    a.right < b.left
}

/// Whether the first ends below where the second begins.
pub(crate) fn ends_below(a: &SegmentExtent, b: &SegmentExtent) -> bool
    ensures { result ≡ int_lt a.now.high b.now.low }
{
    a.high < b.low
}

/// Whether neither ends west of the other's beginning.
fn meet_in_x(a: &SegmentExtent, b: &SegmentExtent) -> bool
    ensures { result ≡ meet_in_x a.now b.now }
{
    b.left <= a.right && a.left <= b.right
}

/// Whether neither ends below the other's beginning.
fn meet_in_y(a: &SegmentExtent, b: &SegmentExtent) -> bool
    ensures { result ≡ meet_in_y a.now b.now }
{
    b.low <= a.high && a.low <= b.high
}

/// The extent of the segment `s`, by the coordinates of the nodes.
#[tactic(auto, using(crate::proofs::EndLemmas::low_inside, crate::proofs::EndLemmas::high_inside))]
fn extent_of(bars: &Bars, xs: &[i64], ys: &[i64], s: u32) -> SegmentExtent
    requires segment { s < segment_count bars.now }
    requires xs { node_count axes.X bars.now ≤ length xs.now }
    requires ys { node_count axes.Y bars.now ≤ length ys.now }
    ensures segment { result.segment ≡ s }
    ensures extent { (places : Places) →
        AreAtNodes axes.X bars.now places bars.now.plan.vertices xs.now →
        AreAtNodes axes.Y bars.now places bars.now.plan.vertices ys.now →
        IsExtent bars.now places result }
{
    SegmentExtent {
        segment: s,
        left: xs[bars.left(s) as usize],
        right: xs[bars.right(s) as usize],
        low: ys[bars.low(s) as usize],
        high: ys[bars.high(s) as usize],
    }
}

/// Puts the coordinate of each node of the axis, which all its vertices have.
#[tactic(auto, using(crate::proofs::EndLemmas::node_inside))]
fn put_coordinates(numbers: &mut [i64], bars: &Bars, places: &Places, axis: Axis)
    requires room { node_count axis bars.now ≤ length numbers.old }
    requires places_fit { length places.now.xy ≡ bars.now.plan.vertices }
    ensures len { length numbers.new ≡ length numbers.old }
    ensures coordinates { HasWays bars.now places.now →
        AreAtNodes axis bars.now places.now bars.now.plan.vertices numbers.new }
{
    for v in 0..bars.shape().plan.vertices {
        let point = places.xy.as_slice()[v as usize];
        numbers[bars.node_of(axis, v) as usize] = coordinate(axis, point);
    }
}
