//! Whether all pairs are kept apart.

ghost use Rattle.std.specs.Prelude.{◌<◌, ◌↔◌, ℕ, IsTrue, List};
ghost use Rattle.compact_types.specs.declared.search.Choice.{Choice};
ghost use Rattle.bars.specs.Segments.{segment_count, IsPair};
ghost use Rattle.shape_graphs.specs.Separation.{IsSeparated, IsComplete};
ghost use Rattle.separation.specs.Reaching.{IsReachOf, IsReach};

use crate::sides::{Reach, is_separated};
use bars::Bars;

/// Whether every pair of segments without a common vertex is kept apart, so that every solution is
/// a drawing.
pub fn is_complete(bars: &Bars, reach: &Reach) -> bool
    requires { IsReach bars.now reach.now }
    ensures { (choices : List Choice) → IsReachOf bars.now choices reach.now →
        IsTrue result ↔ IsComplete bars.now choices }
{
    for t in 0..bars.bars() {
        if !is_apart_from_lesser(bars, reach, t) {
            return false;
        }
    }
    true
}

/// Whether `t` and each segment of a lesser number are kept apart or share a vertex.
fn is_apart_from_lesser(bars: &Bars, reach: &Reach, t: u32) -> bool
    requires t { t < segment_count bars.now }
    requires reach { IsReach bars.now reach.now }
    ensures { (choices : List Choice) → IsReachOf bars.now choices reach.now →
        IsTrue result ↔ ((s : ℕ) → IsPair bars.now s t → IsSeparated bars.now choices s t) }
{
    for s in 0..t {
        if !is_apart_or_joined(bars, reach, s, t) {
            return false;
        }
    }
    true
}

/// Whether the two segments are kept apart or share a vertex.
fn is_apart_or_joined(bars: &Bars, reach: &Reach, s: u32, t: u32) -> bool
    requires s { s < t }
    requires t { t < segment_count bars.now }
    requires reach { IsReach bars.now reach.now }
    ensures { (choices : List Choice) → IsReachOf bars.now choices reach.now →
        IsTrue result ↔ (IsPair bars.now s t → IsSeparated bars.now choices s t) }
{
    if bars.share_vertex(s, t) {
        return true;
    }
    is_separated(bars, reach, s, t)
}
