//! A sweep over pairs of extents, from one pair of segments that share a point to the next.

ghost use Rattle.std.specs.Prelude.{◌≡◌, ◌<◌, ◌^◌, ◌↔◌, IsTrue, length, MatchOption};
ghost use Rattle.compact_types.specs.declared.places.Axis.{Axis};
ghost use Rattle.compact_types.specs.declared.places.Places.{Places};
ghost use Rattle.compact_types.specs.Drawings.{HasWays};
ghost use Rattle.bars.specs.Segments.{segment_count, ShareVertex};
ghost use Rattle.bars.specs.Solutions.{HasDrawing};
ghost use Rattle.separation.specs.inner.Extents.{AreExtentsAlong, AreInShape, BeginInOrder};
ghost use Rattle.separation.specs.inner.Extents.{IsExtentAlong};
ghost use Rattle.separation.specs.inner.Sweeps as sweeps;
ghost use Rattle.separation.specs.inner.Sweeps.{IsMeetingFrom, IsNextInRow, IsNextSharing};
ghost use Rattle.separation.specs.inner.Sweeps.{IsPairOf, SharesIfGiven};

use crate::extents::{SegmentExtent, ends_west, overlap};
use bars::Bars;

/// The places of the two extents that a sweep compares next.
#[derive(Clone, Copy, Debug)]
pub(crate) struct Position {
    pub(crate) first: usize,
    pub(crate) second: usize,
}

/// Before every pair.
pub(crate) const START: Position = Position {
    first: 0,
    second: 1,
};

/// A pair of segments that share a point and not a vertex, and where the sweep came to it.
#[derive(Clone, Copy, Debug)]
pub(crate) struct SharingPair {
    pub(crate) s: u32,
    pub(crate) t: u32,
    pub(crate) at: Position,
}

impl SharingPair {
    /// Where the sweep goes on after this pair.
    pub(crate) fn past(self) -> Position
        requires { self.at.second < 2 ^ 63 }
        ensures { result ≡ sweeps.past self }
    {
        Position {
            first: self.at.first,
            second: self.at.second + 1,
        }
    }
}

/// The first pair from this position on that shares a point. The sweep goes along the axis of the
/// extents, and compares each with those that begin before it ends. It can go on from where it came
/// to a pair, so a split sweeps the extents once.
pub(crate) fn next_sharing(
    bars: &Bars,
    extents: &[SegmentExtent],
    from: Position,
) -> Option<SharingPair>
    requires { AreInShape bars.now extents.now }
    ensures meeting { MatchOption result (Unit {0}) (IsMeetingFrom bars.now extents.now from) }
    ensures next { (axis : Axis) (places : Places) → HasDrawing bars.now →
        HasWays bars.now places → AreExtentsAlong axis bars.now places extents.now →
        BeginInOrder extents.now → IsNextSharing bars.now places extents.now from result }
{
    let mut at = from;
    while at.first < extents.len() {
        if let Some(found) = next_in_row(bars, extents, at) {
            return Some(found);
        }
        at = Position {
            first: at.first + 1,
            second: at.first + 2,
        };
    }
    None
}

/// The first pair that shares a point among those of the first extent of the position and one from
/// the second on.
fn next_in_row(bars: &Bars, extents: &[SegmentExtent], from: Position) -> Option<SharingPair>
    requires in_shape { AreInShape bars.now extents.now }
    requires first { from.first < length extents.now }
    ensures meeting { MatchOption result (Unit {0}) (IsMeetingFrom bars.now extents.now from) }
    ensures next { (axis : Axis) (places : Places) → HasDrawing bars.now →
        HasWays bars.now places → AreExtentsAlong axis bars.now places extents.now →
        BeginInOrder extents.now → IsNextInRow bars.now places extents.now from result }
{
    let first = extents[from.first];
    for j in from.second..extents.len() {
        let second = extents[j];
        if ends_west(&first, &second) {
            return None;
        }
        if let Some((s, t)) = sharing_of(bars, first, second) {
            let at = Position {
                first: from.first,
                second: j,
            };
            return Some(SharingPair { s, t, at });
        }
    }
    None
}

/// The pair of the two extents, if it shares a point and not a vertex.
fn sharing_of(bars: &Bars, first: SegmentExtent, second: SegmentExtent) -> Option<(u32, u32)>
    requires first { first.segment < segment_count bars.now }
    requires second { second.segment < segment_count bars.now }
    ensures pair { MatchOption result (Unit {0})
        (IsPairOf bars.now first.segment second.segment) }
    ensures share { (axis : Axis) (places : Places) → HasDrawing bars.now →
        HasWays bars.now places → IsExtentAlong axis bars.now places first →
        IsExtentAlong axis bars.now places second →
        SharesIfGiven bars.now places first.segment second.segment result }
{
    if !overlap(&first, &second) {
        return None;
    }
    if are_joined(bars, &first, &second) {
        return None;
    }
    Some(in_order(bars, first.segment, second.segment))
}

/// Whether the segments of the two extents have a vertex in common.
fn are_joined(bars: &Bars, a: &SegmentExtent, b: &SegmentExtent) -> bool
    requires a { a.now.segment < segment_count bars.now }
    requires b { b.now.segment < segment_count bars.now }
    ensures { IsTrue result ↔ ShareVertex bars.now a.now.segment b.now.segment }
{
    bars.share_vertex(a.segment, b.segment)
}

/// The pair of two segments without a common vertex, in the order of their numbers.
fn in_order(bars: &Bars, a: u32, b: u32) -> (u32, u32)
    requires a { a < segment_count bars.now }
    requires b { b < segment_count bars.now }
    requires apart { ShareVertex bars.now a b → ⊥ }
    ensures { IsPairOf bars.now a b result }
{
    if a < b { (a, b) } else { (b, a) }
}
