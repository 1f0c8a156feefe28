//! Which vertices the pieces of a plan join, by disjoint sets.

ghost use Rattle.std.specs.Prelude.{◌≡◌, ◌≢◌, ℕ, ◌<◌, length, slice_index, IfOk, MatchOption};
ghost use Rattle.compact_types.specs.Connected.{IsConnected};
ghost use Rattle.drawing_check.specs.Faults.{IsFirstApart};
ghost use Rattle.drawing_check.specs.inner.Groups.{AreGroups, IsSecondLeast};

use compact_types::{NoMemory, Plan, join_groups, single_groups};
use std::alloc::Global;

/// The least vertex that is not reached from vertex 0; `None` where all are.
///
/// A piece makes one group of the groups of its ends; each vertex leads down to the least of its
/// group.
pub(crate) fn first_apart(alloc: Global, plan: &Plan) -> Result<Option<u32>, NoMemory>
    requires { 0 < plan.now.vertices }
    ensures { IfOk result (λ found.
        MatchOption found (IsConnected plan.now) (IsFirstApart plan.now)) }
{
    let mut groups = single_groups(alloc, plan.vertices)?;
    let leads = groups.as_mut_slice();
    join_all(leads, plan);
    Ok(second_least(leads, plan.vertices))
}

/// Makes one group of the ends of every piece.
fn join_all(leads: &mut [u32], plan: &Plan)
    requires { AreGroups plan.now 0 leads.old }
    ensures { AreGroups plan.now (length plan.now.pieces) leads.new }
{
    let pieces = plan.pieces.as_slice();
    for i in 0..pieces.len() {
        let piece = pieces[i];
        join_groups(leads, piece.from, piece.to);
    }
}

/// The first vertex after 0 that leads to itself.
fn second_least(leads: &[u32], vertices: u32) -> Option<u32>
    requires { length leads.now ≡ vertices }
    ensures { MatchOption result
        ((v : ℕ) → 0 < v → v < vertices → slice_index leads.now v ≢ v)
        (IsSecondLeast leads.now) }
{
    for vertex in 1..vertices {
        if leads[vertex as usize] == vertex {
            return Some(vertex);
        }
    }
    None
}
