//! Whether a list of arcs is a cycle.

ghost use Rattle.std.specs.Prelude.{◌≡◌, ◌↔◌, ◌<◌, length, IsTrue, MatchOption};
ghost use Rattle.shape_graphs.specs.Paths.{IsCycle};
ghost use Rattle.cert_check.specs.Faults.{IsBrokenAt, IsFirstBreak};
ghost use Rattle.cert_check.specs.Faults as faults;

use shape_graphs::Arc;

/// The first place at which the list of arcs is no cycle: its arc is not there, or begins
/// elsewhere than where the one before it ends. An empty list is none at place 0.
pub(crate) fn first_break(arcs: &[Arc], walk: &[u32]) -> Option<usize>
    ensures { MatchOption result
        (IsCycle arcs.now walk.now)
        (IsFirstBreak arcs.now walk.now) }
{
    if walk.is_empty() {
        return Some(0);
    }
    for place in 0..walk.len() {
        if is_broken(arcs, walk, place) {
            return Some(place);
        }
    }
    None
}

/// Whether the walk is broken at the place.
fn is_broken(arcs: &[Arc], walk: &[u32], place: usize) -> bool
    requires { place < length walk.now }
    ensures { IsTrue result ↔ IsBrokenAt arcs.now walk.now place }
{
    let arc = walk[place] as usize;
    if arc >= arcs.len() {
        return true;
    }
    let before = walk[place_before(walk.len(), place)] as usize;
    if before >= arcs.len() {
        return false;
    }
    arcs[before].to != arcs[arc].from
}

/// The place before this one in a closed list of so many.
fn place_before(count: usize, place: usize) -> usize
    requires { place < count }
    ensures value { result ≡ faults.place_before count place }
    ensures inside { result < count }
{
    if place == 0 { count - 1 } else { place - 1 }
}
