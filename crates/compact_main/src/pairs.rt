//! How many pairs of segments a shape has, and how many of them it keeps apart by itself.

ghost use Rattle.std.specs.Prelude.{◌<◌, ◌+◌, ◌≤◌, [], IfOk};
ghost use Rattle.compact_types.specs.declared.limits.TheConstants.{MOST_VERTICES};
ghost use Rattle.bars.specs.Segments.{segment_count, IsPair};
ghost use Rattle.separation.specs.Reaching.{IsReachOf};
ghost use Rattle.compact_main.specs.Summaries.{IsPairCount, IsSeparatedPair};
ghost use Rattle.compact_main.specs.inner.PairCounts.{AreCountsWith, AreCountsBelow};

use bars::Bars;
use compact_types::{Extension, Items, NoMemory};
use separation::{Reach, is_separated, reach_of};
use std::alloc::Global;

/// How many pairs of segments share no vertex, and how many of these the shape alone keeps apart.
#[derive(Clone, Copy, Debug)]
pub(crate) struct PairCounts {
    pub(crate) pairs: u32,
    pub(crate) separated: u32,
}

/// Which node reaches which in the graphs of the shape alone, with no side chosen.
pub(crate) fn reach_of_shape(alloc: Global, bars: &Bars) -> Result<Reach, NoMemory>
    ensures { IfOk result (IsReachOf bars.now []) }
{
    let unchosen = Extension {
        choices: Items::new(alloc),
    };
    reach_of(alloc, bars, &unchosen)
}

/// The counts of all pairs of segments.
#[tactic(auto, using(crate::proofs::ReadShapes::few_segments_sound))]
pub(crate) fn count_pairs(bars: &Bars, reach: &Reach) -> PairCounts
    requires { IsReachOf bars.now [] reach.now }
    ensures pairs { IsPairCount (IsPair bars.now) (segment_count bars.now) result.pairs }
    ensures separated { IsPairCount (IsSeparatedPair bars.now)
        (segment_count bars.now) result.separated }
{
    // The shape is small, so the counts have room.
    let _small = bars.shape();
    let mut counts = PairCounts {
        pairs: 0,
        separated: 0,
    };
    for t in 0..bars.bars() {
        counts = with_row(counts, bars, reach, t);
    }
    counts
}

/// The counts with the pairs of `t` and the segments of lesser numbers.
fn with_row(counts: PairCounts, bars: &Bars, reach: &Reach, t: u32) -> PairCounts
    requires t { t < segment_count bars.now }
    requires few { segment_count bars.now ≤ MOST_VERTICES }
    requires reach { IsReachOf bars.now [] reach.now }
    requires so_far { AreCountsBelow bars.now t counts }
    ensures { AreCountsBelow bars.now (t + 1) result }
{
    let row = count_row(bars, reach, t);
    PairCounts {
        pairs: counts.pairs + row.pairs,
        separated: counts.separated + row.separated,
    }
}

/// The counts of the pairs of `t` and a segment of a lesser number.
fn count_row(bars: &Bars, reach: &Reach, t: u32) -> PairCounts
    requires t { t < segment_count bars.now }
    requires reach { IsReachOf bars.now [] reach.now }
    ensures { AreCountsWith bars.now t t result }
{
    let mut counts = PairCounts {
        pairs: 0,
        separated: 0,
    };
    for s in 0..t {
        counts = with_segment(counts, bars, reach, s, t);
    }
    counts
}

/// The counts of a row with the segment `s`.
fn with_segment(counts: PairCounts, bars: &Bars, reach: &Reach, s: u32, t: u32) -> PairCounts
    requires s { s < t }
    requires t { t < segment_count bars.now }
    requires reach { IsReachOf bars.now [] reach.now }
    requires so_far { AreCountsWith bars.now t s counts }
    ensures { AreCountsWith bars.now t (s + 1) result }
{
    if !bars.is_pair(s, t) {
        return counts;
    }
    let pairs = counts.pairs + 1;
    if is_separated(bars, reach, s, t) {
        PairCounts {
            pairs,
            separated: counts.separated + 1,
        }
    } else {
        PairCounts { pairs, ..counts }
    }
}
