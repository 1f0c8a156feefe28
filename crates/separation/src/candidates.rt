//! The pair with the fewest open sides among those that share a point.

ghost use Rattle.std.specs.Prelude.{◌≡◌, Bool, List, Some};
ghost use Rattle.std.specs.List.{count_by};
ghost use Rattle.compact_types.specs.declared.places.Axis.{Axis};
ghost use Rattle.compact_types.specs.declared.places.Places.{Places};
ghost use Rattle.compact_types.specs.declared.search.Choice.{Choice};
ghost use Rattle.bars.specs.Segments.{IsPair};
ghost use Rattle.separation.specs.Reaching.{IsReachOf, IsReach, HasOpenSides};
ghost use Rattle.separation.specs.inner.Candidates as candidates;
ghost use Rattle.separation.specs.inner.Candidates.{IsBestOf, IsSetting};
ghost use Rattle.separation.specs.inner.Extents.{AreExtentsAlong, AreInShape, BeginInOrder};
ghost use Rattle.separation.specs.inner.Sweeps.{IsMeetingFrom, IsNextSharing, IsSeen};

use crate::extents::SegmentExtent;
use crate::sides::{Reach, Sides, open_sides};
use crate::sweep::{START, SharingPair, next_sharing};
use bars::Bars;

/// A pair without a common vertex, and how many of its sides are open.
#[derive(Clone, Copy, Debug)]
pub(crate) struct Candidate {
    pub(crate) open: usize,
    pub(crate) s: u32,
    pub(crate) t: u32,
}

/// The first of the pairs that share a point, by the number of their open sides and then in list
/// order. The sweep goes on from the first pair that it found.
pub(crate) fn fewest_open(
    bars: &Bars,
    reach: &Reach,
    extents: &[SegmentExtent],
    first: SharingPair,
) -> Candidate
    requires in_shape { AreInShape bars.now extents.now }
    requires reach { IsReach bars.now reach.now }
    requires first { IsMeetingFrom bars.now extents.now START first }
    ensures { (axis : Axis) (choices : List Choice) (places : Places) →
        IsSetting bars.now choices places reach.now →
        AreExtentsAlong axis bars.now places extents.now → BeginInOrder extents.now →
        IsNextSharing bars.now places extents.now START (Some first) →
        IsBestOf bars.now choices places (IsSeen extents.now) result }
{
    let mut best = candidate_of(bars, reach, &first);
    let mut at = first.past();
    while let Some(found) = next_sharing(bars, extents, at) {
        best = first_candidate(best, candidate_of(bars, reach, &found));
        at = found.past();
    }
    best
}

/// The pair, and how many of its sides are open.
fn candidate_of(bars: &Bars, reach: &Reach, found: &SharingPair) -> Candidate
    requires pair { IsPair bars.now found.now.s found.now.t }
    requires reach { IsReach bars.now reach.now }
    ensures s { result.s ≡ found.now.s }
    ensures t { result.t ≡ found.now.t }
    ensures open { (choices : List Choice) → IsReachOf bars.now choices reach.now →
        HasOpenSides bars.now choices found.now.s found.now.t result.open }
{
    let (s, t) = (found.s, found.t);
    let open = open_count(&open_sides(bars, reach, s, t));
    Candidate { open, s, t }
}

/// How many sides are open.
fn open_count(sides: &Sides) -> usize
    ensures { result ≡ count_by (λ (flag : Bool). flag) sides.now.is_open }
{
    sides.is_open.iter().filter(|flag| **flag).count()
}

/// The first of the best so far and one more.
fn first_candidate(best: Candidate, candidate: Candidate) -> Candidate
    ensures { result ≡ candidates.first_candidate best candidate }
{
    if comes_before(&candidate, &best) {
        candidate
    } else {
        best
    }
}

/// Whether the first has fewer open sides, or as many and comes before the second in list order.
fn comes_before(c: &Candidate, d: &Candidate) -> bool
    ensures { result ≡ candidates.comes_before c.now d.now }
{
    c.open < d.open || (c.open == d.open && (c.s < d.s || (c.s == d.s && c.t < d.t)))
}
