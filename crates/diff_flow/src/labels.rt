//! Labels: the least numbers from zero upward that meet all open steps.
//!
//! The numbers begin with the longest walks, which no numbers that meet the steps are below, and
//! are then raised from a queue of the nodes whose steps may fail. A number above the limit shows
//! that no numbers meet the steps.

ghost use Rattle.std.specs.Prelude.{◌≡◌, ℕ, ◌≤◌, ◌<◌, ◌+◌, ◌-◌, ◌*◌, ◌^◌, ◌⊎◌};
ghost use Rattle.std.specs.Prelude.{[], length, replicate, slice_index, IfOk};
ghost use Rattle.std.specs.Prelude.{sum, MatchBool, MatchOption};
ghost use Rattle.diff_flow.specs.inner.Steps.{step_at};
ghost use Rattle.diff_flow.specs.inner.Numbers.{
  AreLate,
  AreLeastMet,
  AreListed,
  IsAtLeast,
  IsInList,
  Lifts,
  NoneLate,
  NoneMeet,
  Rises,
  Waits,
};

use crate::slack::is_slack;
use crate::steps::{ResidualArc, Steps};
use compact_types::NoMemory;
use std::alloc::Global;
use std::collections::VecDeque;

/// The least numbers from zero upward that meet all open steps; `None` exactly where no numbers do.
/// They begin with the longest walks.
pub(crate) fn least_met(
    alloc: Global,
    steps: &Steps,
    walks: &[u64],
    amounts: &[u64],
) -> Result<Option<Vec<u64>>, NoMemory>
    requires walks { AreLeastMet steps.now.nodes steps.now.list.items []
        ((steps.now.nodes - 1) * steps.now.reach) walks.now }
    requires amounts { length amounts.now ≡ steps.now.arcs }
    ensures { IfOk result (λ found. MatchOption found
        (NoneMeet steps.now.list.items amounts.now)
        (λ numbers. AreLeastMet steps.now.nodes steps.now.list.items amounts.now
        ((steps.now.nodes - 1) * steps.now.reach) numbers.items)) }
{
    let limit = limit_of(steps);
    let mut waits = vec![in alloc; 0u8; steps.nodes as usize]?;
    let mut queue = VecDeque::with_capacity(alloc, steps.nodes as usize)?;
    wait_all(steps, amounts, walks, waits.as_mut_slice(), &mut queue)?;
    let mut numbers = Vec::from_slice(alloc, walks)?;
    if !settle(
        steps,
        amounts,
        limit,
        numbers.as_mut_slice(),
        waits.as_mut_slice(),
        &mut queue,
    )? {
        return Ok(None);
    }
    Ok(Some(numbers))
}

/// Puts the nodes into the queue from which a step leads against an arc that the walks leave slack.
fn wait_all(
    steps: &Steps,
    amounts: &[u64],
    walks: &[u64],
    waits: &mut [u8],
    queue: &mut VecDeque<u32>,
) -> Result<(), NoMemory>
    requires walks { AreLeastMet steps.now.nodes steps.now.list.items []
        ((steps.now.nodes - 1) * steps.now.reach) walks.now }
    requires amounts { length amounts.now ≡ steps.now.arcs }
    requires waits { waits.old ≡ replicate steps.now.nodes 0 }
    requires queue { queue.old.items ≡ [] }
    ensures { IfOk result (λ _. Rises steps.now.nodes steps.now.list.items amounts.now
        ((steps.now.nodes - 1) * steps.now.reach) walks.now waits.new queue.new.items NoneLate) }
{
    for i in 0..steps.arcs {
        wait_where_slack(i, steps, amounts, walks, waits, queue)?;
    }
    Ok(())
}

/// Puts the node where arc `i` ends into the queue, where the walks leave the arc slack.
fn wait_where_slack(
    i: usize,
    steps: &Steps,
    amounts: &[u64],
    walks: &[u64],
    waits: &mut [u8],
    queue: &mut VecDeque<u32>,
) -> Result<(), NoMemory>
    requires inside { i < steps.now.arcs }
    requires amounts { length amounts.now ≡ steps.now.arcs }
    requires rises { Rises steps.now.nodes steps.now.list.items amounts.now
        ((steps.now.nodes - 1) * steps.now.reach) walks.now waits.old queue.old.items
        (IsAtLeast i) }
    ensures rises { IfOk result (λ _. Rises steps.now.nodes steps.now.list.items amounts.now
        ((steps.now.nodes - 1) * steps.now.reach) walks.now waits.new queue.new.items
        (IsAtLeast (i + 1))) }
{
    let step = steps.along(i);
    if is_slack(step, amounts[i], walks) {
        wait(step.to, waits, queue)?;
    }
    Ok(())
}

/// Raises numbers by the steps of the nodes in the queue until it is empty; whether all stay within
/// the limit.
fn settle(
    steps: &Steps,
    amounts: &[u64],
    limit: u64,
    numbers: &mut [u64],
    waits: &mut [u8],
    queue: &mut VecDeque<u32>,
) -> Result<bool, NoMemory>
    requires amounts { length amounts.now ≡ steps.now.arcs }
    requires limit { limit ≡ (steps.now.nodes - 1) * steps.now.reach }
    requires few { limit ≤ 2 ^ 42 }
    requires rises { Rises steps.now.nodes steps.now.list.items amounts.now limit numbers.old
        waits.old queue.old.items NoneLate }
    ensures { IfOk result (λ fits. MatchBool fits
        (AreLeastMet steps.now.nodes steps.now.list.items amounts.now limit numbers.new)
        (NoneMeet steps.now.list.items amounts.now)) }
{
    while let Some(node) = queue.pop_front() {
        waits[node as usize] = 0;
        if !raise_from(node, steps, amounts, limit, numbers, waits, queue)? {
            return Ok(false);
        }
    }
    Ok(true)
}

/// The greatest number that least numbers can have: those without gaps climb by at most the reach
/// of a step from node to node.
pub(crate) fn limit_of(steps: &Steps) -> u64
    ensures value { result ≡ (steps.now.nodes - 1) * steps.now.reach }
    ensures low { result ≤ 2 ^ 42 }
{
    (steps.nodes as u64).saturating_sub(1) * steps.reach as u64
}

/// Raises numbers by all steps of the node; whether all stay within the limit.
fn raise_from(
    node: u32,
    steps: &Steps,
    amounts: &[u64],
    limit: u64,
    numbers: &mut [u64],
    waits: &mut [u8],
    queue: &mut VecDeque<u32>,
) -> Result<bool, NoMemory>
    requires node { node < steps.now.nodes }
    requires amounts { length amounts.now ≡ steps.now.arcs }
    requires limit { limit ≡ (steps.now.nodes - 1) * steps.now.reach }
    requires few { limit ≤ 2 ^ 42 }
    requires rises { Rises steps.now.nodes steps.now.list.items amounts.now limit numbers.old
        waits.old queue.old.items
        (AreLate steps.now.list.items node (length steps.now.list.items)) }
    ensures rises { IfOk result (λ fits. MatchBool fits
        (Rises steps.now.nodes steps.now.list.items amounts.now limit numbers.new waits.new
        queue.new.items NoneLate)
        (NoneMeet steps.now.list.items amounts.now)) }
    ensures shorter { IfOk result (λ fits. MatchBool fits
        (length queue.new.items + sum numbers.old ≤ length queue.old.items + sum numbers.new)
        (NoneMeet steps.now.list.items amounts.now)) }
{
    let mut entry = steps.rows.last[node as usize];
    while entry > 0 {
        let k = entry as usize - 1;
        if !raise(k, steps, amounts, limit, numbers, waits, queue)? {
            return Ok(false);
        }
        entry = steps.rows.before[k];
    }
    Ok(true)
}

/// Raises the number at the end of step `k`, whose node waits then; whether it stays within the
/// limit.
fn raise(
    k: usize,
    steps: &Steps,
    amounts: &[u64],
    limit: u64,
    numbers: &mut [u64],
    waits: &mut [u8],
    queue: &mut VecDeque<u32>,
) -> Result<bool, NoMemory>
    requires inside { k < length steps.now.list.items }
    requires amounts { length amounts.now ≡ steps.now.arcs }
    requires limit { limit ≡ (steps.now.nodes - 1) * steps.now.reach }
    requires few { limit ≤ 2 ^ 42 }
    requires rises { Rises steps.now.nodes steps.now.list.items amounts.now limit numbers.old
        waits.old queue.old.items
        (AreLate steps.now.list.items (step_at steps.now.list.items k).from (k + 1)) }
    ensures rises { IfOk result (λ fits. MatchBool fits
        (Rises steps.now.nodes steps.now.list.items amounts.now limit numbers.new waits.new
        queue.new.items (AreLate steps.now.list.items (step_at steps.now.list.items k).from k))
        (NoneMeet steps.now.list.items amounts.now)) }
    ensures shorter { IfOk result (λ fits. MatchBool fits
        (length queue.new.items + sum numbers.old ≤ length queue.old.items + sum numbers.new)
        (NoneMeet steps.now.list.items amounts.now)) }
{
    let step = steps.at(k);
    match lift(step, amounts[step.arc as usize], limit, numbers) {
        Lifted::Kept => Ok(true),
        Lifted::TooHigh => Ok(false),
        Lifted::Raised => {
            wait(step.to, waits, queue)?;
            Ok(true)
        }
    }
}

/// What became of the number at the end of a step.
#[derive(Clone, Copy)]
pub(crate) enum Lifted {
    Kept,
    Raised,
    TooHigh,
}

/// Raises the number at the end of the step, where it is open, until it just meets the step.
pub(crate) fn lift(step: ResidualArc, amount: u64, limit: u64, numbers: &mut [u64]) -> Lifted
    requires from { step.from < length numbers.old }
    requires to { step.to < length numbers.old }
    requires from_low { slice_index numbers.old step.from ≤ 2 ^ 60 }
    requires to_low { slice_index numbers.old step.to ≤ 2 ^ 60 }
    ensures { Lifts step amount limit numbers.old numbers.new result }
{
    let from = numbers[step.from as usize] + step.up as u64;
    let to = numbers[step.to as usize] + step.down as u64;
    if from <= to || (step.up == 0 && amount == 0) {
        return Lifted::Kept;
    }
    let low = from - step.down as u64;
    if low > limit {
        return Lifted::TooHigh;
    }
    numbers[step.to as usize] = low;
    Lifted::Raised
}

/// Puts the node into the queue, where it does not wait already.
pub(crate) fn wait(node: u32, waits: &mut [u8], queue: &mut VecDeque<u32>) -> Result<(), NoMemory>
    requires node { node < length waits.old }
    requires lists { AreListed (length waits.old) waits.old queue.old.items }
    ensures waits { IfOk result (λ _.
        Waits (length waits.old) node waits.old queue.old.items waits.new queue.new.items) }
    ensures only { IfOk result (λ _. (v : ℕ) → IsInList queue.new.items v →
        (v ≡ node) ⊎ IsInList queue.old.items v) }
{
    if waits[node as usize] == 0 {
        queue.push_back(node)?;
        waits[node as usize] = 1;
    }
    Ok(())
}
