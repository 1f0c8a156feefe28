//! Numbers that meet every arc, from numbers that meet all but those that begin at one node: only
//! the nodes whose numbers rise are visited.

ghost use Rattle.std.specs.Prelude.{◌≡◌, ℕ, ◌≤◌, ◌<◌, ◌+◌, ◌-◌, ◌*◌, ◌^◌};
ghost use Rattle.std.specs.Prelude.{length, IfOk, MatchBool};
ghost use Rattle.diff_flow.specs.inner.Steps.{step_at};
ghost use Rattle.diff_flow.specs.inner.Numbers.{height, AreLate, NoneLate};
ghost use Rattle.diff_flow.specs.inner.Routing.{AreFirst};
ghost use Rattle.diff_flow.specs.inner.Lengthening.{
  AreLengthened,
  ClimbTo,
  Lengthens,
  MeetsAlong,
  NoneAbove,
  StayBelow,
};

use crate::labels::{Lifted, lift, limit_of, wait};
use crate::steps::Steps;
use compact_types::NoMemory;
use std::alloc::Global;
use std::collections::VecDeque;

/// Raises numbers until they meet every arc, where they meet all that do not begin at `start`;
/// whether they do within the limit. They do not if the number of `start` would have to rise, so a
/// cycle is seen as soon as the way comes round.
pub(crate) fn lengthen(
    alloc: Global,
    steps: &Steps,
    start: u32,
    numbers: &mut [u64],
) -> Result<bool, NoMemory>
    requires start { start < steps.now.nodes }
    requires one_for_each { length numbers.old ≡ steps.now.nodes }
    requires inside { (v : ℕ) → v < steps.now.nodes →
        height numbers.old v ≤ (steps.now.nodes - 1) * steps.now.reach }
    requires met { (k : ℕ) → k < length steps.now.list.items →
        ((step_at steps.now.list.items k).from ≡ start → ⊥) →
        MeetsAlong numbers.old (step_at steps.now.list.items k) }
    ensures one_for_each { IfOk result (λ _. length numbers.new ≡ steps.now.nodes) }
    ensures first { IfOk result (λ fits. MatchBool fits
        (AreFirst steps.now.nodes steps.now.arcs ((steps.now.nodes - 1) * steps.now.reach)
        steps.now.list.items numbers.new)
        (NoneAbove steps.now.nodes steps.now.list.items
        ((steps.now.nodes - 1) * steps.now.reach) numbers.old)) }
    ensures below { IfOk result (λ fits. MatchBool fits
        (StayBelow steps.now.nodes steps.now.list.items numbers.old numbers.new) (Unit {0})) }
{
    let mut waits = vec![in alloc; 0u8; steps.nodes as usize]?;
    let mut queue = VecDeque::new(alloc);
    wait(start, waits.as_mut_slice(), &mut queue)?;
    lengthen_all(
        steps,
        start,
        limit_of(steps),
        numbers,
        waits.as_mut_slice(),
        &mut queue,
    )
}

/// Raises numbers by the arcs of the nodes in the queue until it is empty; whether all stay within
/// the limit, and that of `start` as it is.
fn lengthen_all(
    steps: &Steps,
    start: u32,
    limit: u64,
    numbers: &mut [u64],
    waits: &mut [u8],
    queue: &mut VecDeque<u32>,
) -> Result<bool, NoMemory>
    requires start { start < steps.now.nodes }
    requires limit { limit ≡ (steps.now.nodes - 1) * steps.now.reach }
    requires few { limit ≤ 2 ^ 42 }
    requires lengthens { Lengthens steps.now.nodes steps.now.list.items limit start numbers.old
        waits.old queue.old.items NoneLate }
    ensures one_for_each { IfOk result (λ _. length numbers.new ≡ steps.now.nodes) }
    ensures first { IfOk result (λ fits. MatchBool fits
        (AreFirst steps.now.nodes steps.now.arcs ((steps.now.nodes - 1) * steps.now.reach)
        steps.now.list.items numbers.new)
        (NoneAbove steps.now.nodes steps.now.list.items
        ((steps.now.nodes - 1) * steps.now.reach) numbers.old)) }
    ensures below { IfOk result (λ fits. MatchBool fits
        (StayBelow steps.now.nodes steps.now.list.items numbers.old numbers.new) (Unit {0})) }
{
    while let Some(node) = queue.pop_front() {
        waits[node as usize] = 0;
        if !lengthen_from(node, steps, start, limit, numbers, waits, queue)? {
            return Ok(false);
        }
    }
    Ok(true)
}

/// Raises numbers by all arcs that begin at the node; whether all stay within the limit, and that
/// of `start` as it is.
fn lengthen_from(
    node: u32,
    steps: &Steps,
    start: u32,
    limit: u64,
    numbers: &mut [u64],
    waits: &mut [u8],
    queue: &mut VecDeque<u32>,
) -> Result<bool, NoMemory>
    requires node { node < steps.now.nodes }
    requires start { start < steps.now.nodes }
    requires few { limit ≤ 2 ^ 42 }
    requires lengthens { Lengthens steps.now.nodes steps.now.list.items limit start numbers.old
        waits.old queue.old.items
        (AreLate steps.now.list.items node (length steps.now.list.items)) }
    requires climb { ClimbTo steps.now.list.items start numbers.old node }
    ensures one_for_each { IfOk result (λ _. length numbers.new ≡ steps.now.nodes) }
    ensures lengthened { IfOk result (λ fits. MatchBool fits
        (AreLengthened steps.now.nodes steps.now.list.items limit start node numbers.old
        queue.old.items numbers.new waits.new queue.new.items NoneLate)
        (NoneAbove steps.now.nodes steps.now.list.items limit numbers.old)) }
{
    let mut entry = steps.rows.last[node as usize];
    while entry > 0 {
        let k = entry as usize - 1;
        if !lengthen_over(k, steps, start, limit, numbers, waits, queue)? {
            return Ok(false);
        }
        entry = steps.rows.before[k];
    }
    Ok(true)
}

/// Raises the number at the end of step `k`, where that leads along an arc, and its node waits
/// then; whether it stays within the limit, and is not that of `start`.
fn lengthen_over(
    k: usize,
    steps: &Steps,
    start: u32,
    limit: u64,
    numbers: &mut [u64],
    waits: &mut [u8],
    queue: &mut VecDeque<u32>,
) -> Result<bool, NoMemory>
    requires inside { k < length steps.now.list.items }
    requires start { start < steps.now.nodes }
    requires few { limit ≤ 2 ^ 42 }
    requires lengthens { Lengthens steps.now.nodes steps.now.list.items limit start numbers.old
        waits.old queue.old.items
        (AreLate steps.now.list.items (step_at steps.now.list.items k).from (k + 1)) }
    requires climb { ClimbTo steps.now.list.items start numbers.old
        (step_at steps.now.list.items k).from }
    ensures one_for_each { IfOk result (λ _. length numbers.new ≡ steps.now.nodes) }
    ensures lengthened { IfOk result (λ fits. MatchBool fits
        (AreLengthened steps.now.nodes steps.now.list.items limit start
        (step_at steps.now.list.items k).from numbers.old
        queue.old.items numbers.new waits.new queue.new.items
        (AreLate steps.now.list.items (step_at steps.now.list.items k).from k))
        (NoneAbove steps.now.nodes steps.now.list.items limit numbers.old)) }
{
    let step = steps.at(k);
    match lift(step, 0, limit, numbers) {
        Lifted::Kept => Ok(true),
        Lifted::TooHigh => Ok(false),
        Lifted::Raised => {
            if step.to == start {
                return Ok(false);
            }
            wait(step.to, waits, queue)?;
            Ok(true)
        }
    }
}
