//! The longest walks of a graph without a cycle: for each node the length of a longest walk to it.

ghost use Rattle.std.specs.Prelude.{◌≡◌, ◌≤◌, ◌<◌, ◌+◌, ◌-◌, ◌*◌, ◌^◌};
ghost use Rattle.std.specs.Prelude.{[], length, IfOk};
ghost use Rattle.diff_flow.specs.inner.Numbers.{AreLeastMet, AreWalked, NoneMeet};
ghost use Rattle.diff_flow.specs.inner.Steps.{AreInOrder};

use crate::labels::{Lifted, lift, limit_of};
use crate::steps::Steps;
use compact_types::NoMemory;
use std::alloc::Global;

/// The least numbers from zero upward that meet the steps along all arcs. `order` has the arcs in
/// topological order, and there are numbers that meet them.
pub(crate) fn longest_walks(
    alloc: Global,
    steps: &Steps,
    order: &[u32],
) -> Result<Vec<u64>, NoMemory>
    requires order { AreInOrder steps.now.arcs steps.now.list.items order.now }
    requires some { NoneMeet steps.now.list.items [] → ⊥ }
    ensures { IfOk result (λ walks. AreLeastMet steps.now.nodes steps.now.list.items []
        ((steps.now.nodes - 1) * steps.now.reach) walks.items) }
{
    let mut numbers = vec![in alloc; 0u64; steps.nodes as usize]?;
    walk_all(steps, order, limit_of(steps), numbers.as_mut_slice());
    Ok(numbers)
}

/// Raises numbers by the steps in this order, each once.
fn walk_all(steps: &Steps, order: &[u32], limit: u64, numbers: &mut [u64])
    requires order { AreInOrder steps.now.arcs steps.now.list.items order.now }
    requires some { NoneMeet steps.now.list.items [] → ⊥ }
    requires limit { limit ≡ (steps.now.nodes - 1) * steps.now.reach }
    requires few { limit ≤ 2 ^ 42 }
    requires walked { AreWalked steps.now.nodes steps.now.list.items limit order.now 0
        numbers.old }
    ensures { AreLeastMet steps.now.nodes steps.now.list.items [] limit numbers.new }
{
    for at in 0..order.len() {
        walk(at, steps, order, limit, numbers);
    }
}

/// Raises the number at the end of the arc at this place of the order.
fn walk(at: usize, steps: &Steps, order: &[u32], limit: u64, numbers: &mut [u64])
    requires at { at < length order.now }
    requires order { AreInOrder steps.now.arcs steps.now.list.items order.now }
    requires some { NoneMeet steps.now.list.items [] → ⊥ }
    requires limit { limit ≡ (steps.now.nodes - 1) * steps.now.reach }
    requires few { limit ≤ 2 ^ 42 }
    requires walked { AreWalked steps.now.nodes steps.now.list.items limit order.now at
        numbers.old }
    ensures { AreWalked steps.now.nodes steps.now.list.items limit order.now (at + 1)
        numbers.new }
{
    match lift(steps.along(order[at] as usize), 0, limit, numbers) {
        Lifted::Kept => {}
        Lifted::Raised => {}
        Lifted::TooHigh => unreachable!(),
    }
}
