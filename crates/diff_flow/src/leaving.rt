//! The steps that lead out of the reached nodes.

ghost use Rattle.std.specs.Prelude.{◌≡◌, ◌≤◌, ◌<◌, ◌+◌, ◌-◌, ◌^◌, ℕ};
ghost use Rattle.std.specs.Prelude.{length};
ghost use Rattle.diff_flow.specs.inner.Steps.{along_at, step_at};
ghost use Rattle.diff_flow.specs.inner.Numbers.{height};
ghost use Rattle.diff_flow.specs.inner.Search.{
  ArePlaced,
  IsLeastLeaving,
  IsLesser,
  IsScanned,
  IsScannedBefore,
};

use crate::steps::Steps;
use crate::tree::SearchTree;

/// A step that leads along an arc from a reached node to one that is not, and by how much the
/// numbers more than meet it.
#[derive(Clone, Copy)]
pub(crate) struct Leaving {
    pub(crate) step: u32,
    pub(crate) slack: u64,
}

/// Of the steps along arcs from a reached node to one that is not the one with the least slack;
/// `None` exactly where there is none. Only the steps of reached nodes are looked at.
pub(crate) fn least_leaving(steps: &Steps, numbers: &[u64], tree: &SearchTree) -> Option<Leaving>
    requires numbers { length numbers.now ≡ steps.now.nodes }
    requires placed { ArePlaced steps.now.nodes tree.now.entries.items tree.now.places.items }
    requires low { (v : ℕ) → v < steps.now.nodes → height numbers.now v ≤ 2 ^ 60 }
    requires met { (i : ℕ) → i < steps.now.arcs →
        height numbers.now (along_at steps.now.list.items i).from
        + (along_at steps.now.list.items i).up
        ≤ height numbers.now (along_at steps.now.list.items i).to }
    ensures { IsLeastLeaving (λ k. k < length steps.now.list.items)
        steps.now.list.items numbers.now tree.now.places.items result }
{
    let mut least = None;
    for at in 0..tree.entries.len() {
        let node = tree.entries[at].node;
        least = lesser_from(node, steps, numbers, tree.places.as_slice(), least);
    }
    least
}

/// The lesser of the step given and the steps of the node that leave the reached nodes.
fn lesser_from(
    node: u32,
    steps: &Steps,
    numbers: &[u64],
    places: &[u32],
    least: Option<Leaving>,
) -> Option<Leaving>
    requires node { node < steps.now.nodes }
    requires numbers { length numbers.now ≡ steps.now.nodes }
    requires places { length places.now ≡ steps.now.nodes }
    requires low { (v : ℕ) → v < steps.now.nodes → height numbers.now v ≤ 2 ^ 60 }
    requires met { (i : ℕ) → i < steps.now.arcs →
        height numbers.now (along_at steps.now.list.items i).from
        + (along_at steps.now.list.items i).up
        ≤ height numbers.now (along_at steps.now.list.items i).to }
    ensures { (at : ℕ) → IsLeastLeaving (IsScannedBefore steps.now.list.items places.now at)
        steps.now.list.items numbers.now places.now least →
        IsLeastLeaving (IsScanned steps.now.list.items places.now at node 0)
        steps.now.list.items numbers.now places.now result }
{
    let mut lesser = least;
    let mut entry = steps.rows.last[node as usize];
    while entry > 0 {
        let k = entry as usize - 1;
        lesser = lesser_leaving(k, steps, numbers, places, lesser);
        entry = steps.rows.before[k];
    }
    lesser
}

/// The lesser of the step given and step `k`, where that leaves the reached nodes.
fn lesser_leaving(
    k: usize,
    steps: &Steps,
    numbers: &[u64],
    places: &[u32],
    least: Option<Leaving>,
) -> Option<Leaving>
    requires inside { k < length steps.now.list.items }
    requires numbers { length numbers.now ≡ steps.now.nodes }
    requires places { length places.now ≡ steps.now.nodes }
    requires low { (v : ℕ) → v < steps.now.nodes → height numbers.now v ≤ 2 ^ 60 }
    requires met { (i : ℕ) → i < steps.now.arcs →
        height numbers.now (along_at steps.now.list.items i).from
        + (along_at steps.now.list.items i).up
        ≤ height numbers.now (along_at steps.now.list.items i).to }
    ensures { (at : ℕ) → IsLeastLeaving (IsScanned steps.now.list.items places.now at
        (step_at steps.now.list.items k).from (k + 1))
        steps.now.list.items numbers.now places.now least →
        IsLeastLeaving (IsScanned steps.now.list.items places.now at
        (step_at steps.now.list.items k).from k)
        steps.now.list.items numbers.now places.now result }
{
    let step = steps.at(k);
    if step.up == 0 {
        return least;
    }
    if places[step.from as usize] == 0 || places[step.to as usize] > 0 {
        return least;
    }
    let slack = numbers[step.to as usize] - numbers[step.from as usize] - step.up as u64;
    match least {
        None => Some(Leaving {
            step: k as u32,
            slack,
        }),
        Some(other) => Some(lesser(other, k as u32, slack)),
    }
}

/// The one with the lesser slack.
fn lesser(other: Leaving, step: u32, slack: u64) -> Leaving
    ensures { IsLesser other step slack result }
{
    if other.slack <= slack {
        other
    } else {
        Leaving { step, slack }
    }
}
