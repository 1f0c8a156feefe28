//! Loads: whether they are on arcs of a graph, and their amounts in a dense list.

ghost use Rattle.std.specs.Prelude.{◌≡◌, [], length, MatchOption};
ghost use Rattle.cert_check.specs.Faults.{IsFirstOffArcs};
ghost use Rattle.cert_text.specs.Accepting.{AreOnArcs};
ghost use Rattle.cert_check.specs.inner.Loading.{AreBelow, HaveLoads};

use cert_text::Load;
use compact_types::Items;
use shape_graphs::DiffGraph;

/// The arc of the first load that is on no arc of the graph.
pub(crate) fn first_off_arcs(graph: &DiffGraph, loads: &[Load]) -> Option<u32>
    ensures { MatchOption result
        (AreOnArcs graph.now.arcs loads.now)
        (IsFirstOffArcs graph.now.arcs loads.now) }
{
    let count = graph.arcs.len();
    for k in 0..loads.len() {
        let arc = loads[k].arc;
        if arc as usize >= count {
            return Some(arc);
        }
    }
    None
}

/// Puts the amounts of the loads on their arcs, where all are 0. It goes backwards, so that of
/// two loads on one arc the first would count.
pub(crate) fn put(amounts: &mut Items<u64>, loads: &[Load])
    requires none { HaveLoads amounts.old [] }
    requires below { AreBelow (length amounts.old) loads.now }
    ensures len { length amounts.new ≡ length amounts.old }
    ensures loaded { HaveLoads amounts.new loads.now }
{
    let mut k = loads.len();
    while k > 0 {
        k -= 1;
        let load = loads[k];
        amounts.set(load.arc as usize, load.amount);
    }
}

/// Takes the amounts of the loads off again, so that all are 0.
pub(crate) fn clear(amounts: &mut Items<u64>, loads: &[Load])
    requires loaded { HaveLoads amounts.old loads.now }
    requires below { AreBelow (length amounts.old) loads.now }
    ensures len { length amounts.new ≡ length amounts.old }
    ensures none { HaveLoads amounts.new [] }
{
    for k in 0..loads.len() {
        amounts.set(loads[k].arc as usize, 0);
    }
}
