//! Numbers in groups (disjoint sets): each leads to one that is not greater, and at the end of that
//! walk is the least number of its group.

ghost use Rattle.std.specs.Prelude.{◌≡◌, ℕ, ◌<◌, length, slice_index, IfOk};
ghost use Rattle.compact_types.specs.Groups.{GoDown, IsLabelling, merged};

use crate::refusal::NoMemory;
use std::alloc::Global;

/// Each of the numbers below `count` in a group of its own.
pub fn single_groups(alloc: Global, count: u32) -> Result<Vec<u32>, NoMemory>
    ensures len { IfOk result (λ leads. length leads.items ≡ count) }
    ensures single { IfOk result (λ leads.
        (v : ℕ) → v < count → slice_index leads.items v ≡ v) }
{
    let mut leads = Vec::with_capacity(alloc, count as usize)?;
    for number in 0..count {
        leads.push(number)?;
    }
    Ok(leads)
}

/// Makes one group of the groups of `p` and `q` (with path halving, so that all joins together take
/// hardly more than one step each).
pub fn join_groups(leads: &mut [u32], p: u32, q: u32)
    requires p { p < length leads.old }
    requires q { q < length leads.old }
    requires down { GoDown leads.old }
    ensures down { GoDown leads.new }
    ensures labels { (labels : ℕ → ℕ) → IsLabelling leads.old labels →
        IsLabelling leads.new (merged labels p q) }
{
    let from = least_of_group(leads, p);
    let to = least_of_group(leads, q);
    if from < to {
        leads[to as usize] = from;
    } else {
        leads[from as usize] = to;
    }
}

/// The least number of the group of `number`. What is passed on the way leads further than before.
fn least_of_group(leads: &mut [u32], number: u32) -> u32
    requires inside { number < length leads.old }
    requires down { GoDown leads.old }
    ensures inside { result < length leads.new }
    ensures down { GoDown leads.new }
    ensures leads_to_itself { slice_index leads.new result ≡ result }
    ensures labels { (labels : ℕ → ℕ) → IsLabelling leads.old labels →
        IsLabelling leads.new labels }
    ensures label { (labels : ℕ → ℕ) → IsLabelling leads.old labels → labels number ≡ result }
{
    let mut at = number;
    while leads[at as usize] != at {
        let next = leads[leads[at as usize] as usize];
        leads[at as usize] = next;
        at = next;
    }
    at
}
