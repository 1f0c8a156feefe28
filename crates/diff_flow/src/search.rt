//! The search for a way along which excess can be sent from a node to a node that lacks.
//!
//! From reached nodes the search goes over tight steps. Where none is left the numbers of the
//! reached nodes are raised until one more step is tight.

ghost use Rattle.std.specs.Prelude.{◌≡◌, ◌↔◌, ◌≤◌, ◌<◌, ◌+◌, ◌-◌, ◌*◌, ◌^◌, ℕ};
ghost use Rattle.std.specs.Prelude.{length, slice_index, IfOk, IsTrue, MatchBool};
ghost use Rattle.diff_flow.specs.declared.steps.ResidualArc.{ResidualArc};
ghost use Rattle.diff_flow.specs.inner.Steps.{step_at};
ghost use Rattle.diff_flow.specs.inner.Numbers.{height};
ghost use Rattle.diff_flow.specs.inner.Search.{
  AreFit,
  AreFollowed,
  AreFollowedFrom,
  ArePlaced,
  entry_at,
  Grows,
  IsBlank,
  IsFollowed,
  IsPassable,
  IsTrap,
  IsTree,
  NoneLacks,
  Raises,
  Searches,
};

use crate::leaving::least_leaving;
use crate::steps::{ResidualArc, Steps};
use crate::tree::{SearchTree, enter, plant};
use compact_types::NoMemory;

/// Finds a way from `start` to a node that lacks, along which up to `most` can be sent; raises
/// numbers where no way is tight. The last entry is the node that lacks.
pub(crate) fn find(
    start: u32,
    most: u128,
    steps: &Steps,
    amounts: &[u128],
    numbers: &mut [u64],
    want: &[u128],
    tree: &mut SearchTree,
) -> Result<(), NoMemory>
    requires start { start < steps.now.nodes }
    requires some { 0 < most }
    requires amounts { length amounts.now ≡ steps.now.arcs }
    requires wants { length want.now ≡ steps.now.nodes }
    requires blank { IsBlank steps.now.nodes tree.old.entries.items tree.old.places.items }
    requires fit { AreFit steps.now.nodes ((steps.now.nodes - 1) * steps.now.reach)
        steps.now.list.items amounts.now numbers.old want.now }
    requires no_trap { (marks : ℕ → ℕ) →
        IsTrap steps.now.nodes steps.now.arcs steps.now.list.items amounts.now want.now start marks
        → ⊥ }
    ensures tree { IfOk result (λ _. IsTree steps.now.nodes steps.now.list.items
        amounts.now numbers.new tree.new.entries.items tree.new.places.items) }
    ensures start { IfOk result (λ _. (entry_at tree.new.entries.items 0).node ≡ start) }
    ensures most { IfOk result (λ _. (entry_at tree.new.entries.items 0).room ≡ most) }
    ensures lacks { IfOk result (λ _. 0 < slice_index want.now
        (entry_at tree.new.entries.items (length tree.new.entries.items - 1)).node) }
    ensures fit { IfOk result (λ _. AreFit steps.now.nodes
        ((steps.now.nodes - 1) * steps.now.reach)
        steps.now.list.items amounts.now numbers.new want.now) }
{
    plant(start, most, steps.nodes, tree)?;
    let mut found = want[start as usize] > 0;
    while !found {
        found = grow(steps, amounts, numbers, want, tree)?;
    }
    Ok(())
}

/// Reaches more nodes over tight steps, and raises numbers where no node that lacks is among them;
/// whether the last node that was reached lacks.
fn grow(
    steps: &Steps,
    amounts: &[u128],
    numbers: &mut [u64],
    want: &[u128],
    tree: &mut SearchTree,
) -> Result<bool, NoMemory>
    requires amounts { length amounts.now ≡ steps.now.arcs }
    requires wants { length want.now ≡ steps.now.nodes }
    requires fit { AreFit steps.now.nodes ((steps.now.nodes - 1) * steps.now.reach)
        steps.now.list.items amounts.now numbers.old want.now }
    requires tree { IsTree steps.now.nodes steps.now.list.items amounts.now numbers.old
        tree.old.entries.items tree.old.places.items }
    requires none { NoneLacks want.now tree.old.places.items }
    requires no_trap { (marks : ℕ → ℕ) →
        IsTrap steps.now.nodes steps.now.arcs steps.now.list.items amounts.now want.now
        (entry_at tree.old.entries.items 0).node marks → ⊥ }
    ensures fit { IfOk result (λ _. AreFit steps.now.nodes
        ((steps.now.nodes - 1) * steps.now.reach)
        steps.now.list.items amounts.now numbers.new want.now) }
    ensures tree { IfOk result (λ _. IsTree steps.now.nodes steps.now.list.items amounts.now
        numbers.new tree.new.entries.items tree.new.places.items) }
    ensures grows { IfOk result (λ _. Grows tree.old.entries.items tree.old.places.items
        tree.new.entries.items tree.new.places.items) }
    ensures more { IfOk result (λ _.
        length tree.old.entries.items < length tree.new.entries.items) }
    ensures found { IfOk result (Searches want.now tree.old.entries.items tree.new.entries.items
        tree.new.places.items) }
{
    if spread(steps, amounts, numbers, want, tree)? {
        return Ok(true);
    }
    turn(steps, amounts, numbers, want, tree)
}

/// Reaches all nodes to which tight steps lead from reached ones, until one lacks; whether one
/// does.
pub(crate) fn spread(
    steps: &Steps,
    amounts: &[u128],
    numbers: &[u64],
    want: &[u128],
    tree: &mut SearchTree,
) -> Result<bool, NoMemory>
    requires amounts { length amounts.now ≡ steps.now.arcs }
    requires numbers { length numbers.now ≡ steps.now.nodes }
    requires low { (v : ℕ) → v < steps.now.nodes → height numbers.now v ≤ 2 ^ 60 }
    requires wants { length want.now ≡ steps.now.nodes }
    requires tree { IsTree steps.now.nodes steps.now.list.items amounts.now numbers.now
        tree.old.entries.items tree.old.places.items }
    requires none { NoneLacks want.now tree.old.places.items }
    ensures tree { IfOk result (λ _. IsTree steps.now.nodes steps.now.list.items amounts.now
        numbers.now tree.new.entries.items tree.new.places.items) }
    ensures grows { IfOk result (λ _. Grows tree.old.entries.items tree.old.places.items
        tree.new.entries.items tree.new.places.items) }
    ensures found { IfOk result (Searches want.now tree.old.entries.items tree.new.entries.items
        tree.new.places.items) }
    ensures passed { IfOk result (λ found. MatchBool found (Unit {0})
        (AreFollowed steps.now.list.items amounts.now numbers.now tree.new.entries.items
        tree.new.places.items (length tree.new.entries.items))) }
{
    let mut at = 0;
    while at < tree.entries.len() {
        if reach_from(at, steps, amounts, numbers, want, tree)? {
            return Ok(true);
        }
        at += 1;
    }
    Ok(false)
}

/// Passes the steps of the node of the entry, until it reaches a node that lacks; whether it does.
fn reach_from(
    at: usize,
    steps: &Steps,
    amounts: &[u128],
    numbers: &[u64],
    want: &[u128],
    tree: &mut SearchTree,
) -> Result<bool, NoMemory>
    requires at { at < length tree.old.entries.items }
    requires amounts { length amounts.now ≡ steps.now.arcs }
    requires numbers { length numbers.now ≡ steps.now.nodes }
    requires low { (v : ℕ) → v < steps.now.nodes → height numbers.now v ≤ 2 ^ 60 }
    requires wants { length want.now ≡ steps.now.nodes }
    requires tree { IsTree steps.now.nodes steps.now.list.items amounts.now numbers.now
        tree.old.entries.items tree.old.places.items }
    requires none { NoneLacks want.now tree.old.places.items }
    ensures tree { IfOk result (λ _. IsTree steps.now.nodes steps.now.list.items amounts.now
        numbers.now tree.new.entries.items tree.new.places.items) }
    ensures grows { IfOk result (λ _. Grows tree.old.entries.items tree.old.places.items
        tree.new.entries.items tree.new.places.items) }
    ensures found { IfOk result (Searches want.now tree.old.entries.items tree.new.entries.items
        tree.new.places.items) }
    ensures passed { IfOk result (λ found. MatchBool found (Unit {0})
        (AreFollowedFrom steps.now.list.items amounts.now numbers.now tree.new.places.items
        (entry_at tree.old.entries.items at).node 0)) }
{
    let node = tree.entries[at].node;
    let mut entry = steps.rows.last[node as usize];
    while entry > 0 {
        let k = entry as usize - 1;
        if reach(k, steps, amounts, numbers, want, tree)? {
            return Ok(true);
        }
        entry = steps.rows.before[k];
    }
    Ok(false)
}

/// Reaches the end of step `k`, where it can be passed; whether a node was reached that lacks.
fn reach(
    k: usize,
    steps: &Steps,
    amounts: &[u128],
    numbers: &[u64],
    want: &[u128],
    tree: &mut SearchTree,
) -> Result<bool, NoMemory>
    requires inside { k < length steps.now.list.items }
    requires amounts { length amounts.now ≡ steps.now.arcs }
    requires numbers { length numbers.now ≡ steps.now.nodes }
    requires low { (v : ℕ) → v < steps.now.nodes → height numbers.now v ≤ 2 ^ 60 }
    requires wants { length want.now ≡ steps.now.nodes }
    requires from { 0 < slice_index tree.old.places.items (step_at steps.now.list.items k).from }
    requires tree { IsTree steps.now.nodes steps.now.list.items amounts.now numbers.now
        tree.old.entries.items tree.old.places.items }
    requires none { NoneLacks want.now tree.old.places.items }
    ensures tree { IfOk result (λ _. IsTree steps.now.nodes steps.now.list.items amounts.now
        numbers.now tree.new.entries.items tree.new.places.items) }
    ensures grows { IfOk result (λ _. Grows tree.old.entries.items tree.old.places.items
        tree.new.entries.items tree.new.places.items) }
    ensures found { IfOk result (Searches want.now tree.old.entries.items tree.new.entries.items
        tree.new.places.items) }
    ensures passed { IfOk result (λ _.
        IsFollowed steps.now.list.items amounts.now numbers.now tree.new.places.items k) }
{
    let step = steps.at(k);
    if tree.places[step.to as usize] > 0 {
        return Ok(false);
    }
    if !is_passable(step, amounts, numbers) {
        return Ok(false);
    }
    enter(k, steps, amounts, tree)?;
    Ok(want[step.to as usize] > 0)
}

/// Whether amounts can be sent over the step.
fn is_passable(step: ResidualArc, amounts: &[u128], numbers: &[u64]) -> bool
    requires from { step.from < length numbers.now }
    requires to { step.to < length numbers.now }
    requires arc { step.arc < length amounts.now }
    requires low { slice_index numbers.now step.from ≤ 2 ^ 60 }
    ensures { IsTrue result ↔ IsPassable amounts.now numbers.now step }
{
    if step.up > 0 {
        numbers[step.to as usize] == numbers[step.from as usize] + step.up as u64
    } else {
        amounts[step.arc as usize] > 0
    }
}

/// Raises the numbers of the reached nodes until a step from them to another node is tight, and
/// reaches that node; whether it lacks.
fn turn(
    steps: &Steps,
    amounts: &[u128],
    numbers: &mut [u64],
    want: &[u128],
    tree: &mut SearchTree,
) -> Result<bool, NoMemory>
    requires amounts { length amounts.now ≡ steps.now.arcs }
    requires wants { length want.now ≡ steps.now.nodes }
    requires fit { AreFit steps.now.nodes ((steps.now.nodes - 1) * steps.now.reach)
        steps.now.list.items amounts.now numbers.old want.now }
    requires tree { IsTree steps.now.nodes steps.now.list.items amounts.now numbers.old
        tree.old.entries.items tree.old.places.items }
    requires none { NoneLacks want.now tree.old.places.items }
    requires passed { AreFollowed steps.now.list.items amounts.now numbers.old
        tree.old.entries.items tree.old.places.items (length tree.old.entries.items) }
    requires no_trap { (marks : ℕ → ℕ) →
        IsTrap steps.now.nodes steps.now.arcs steps.now.list.items amounts.now want.now
        (entry_at tree.old.entries.items 0).node marks → ⊥ }
    ensures fit { IfOk result (λ _. AreFit steps.now.nodes
        ((steps.now.nodes - 1) * steps.now.reach)
        steps.now.list.items amounts.now numbers.new want.now) }
    ensures tree { IfOk result (λ _. IsTree steps.now.nodes steps.now.list.items amounts.now
        numbers.new tree.new.entries.items tree.new.places.items) }
    ensures grows { IfOk result (λ _. Grows tree.old.entries.items tree.old.places.items
        tree.new.entries.items tree.new.places.items) }
    ensures more { IfOk result (λ _.
        length tree.old.entries.items < length tree.new.entries.items) }
    ensures found { IfOk result (Searches want.now tree.old.entries.items tree.new.entries.items
        tree.new.places.items) }
{
    let Some(leaving) = least_leaving(steps, numbers, tree) else {
        unreachable!()
    };
    raise_reached(leaving.slack, tree, numbers);
    let k = leaving.step as usize;
    enter(k, steps, amounts, tree)?;
    Ok(want[steps.at(k).to as usize] > 0)
}

/// Raises the numbers of the reached nodes.
fn raise_reached(by: u64, tree: &SearchTree, numbers: &mut [u64])
    requires by { by ≤ 2 ^ 60 }
    requires placed { ArePlaced (length numbers.old) tree.now.entries.items tree.now.places.items }
    requires low { (v : ℕ) → v < length numbers.old → height numbers.old v ≤ 2 ^ 60 }
    ensures { Raises tree.now.places.items numbers.old numbers.new by }
{
    for at in 0..tree.entries.len() {
        let node = tree.entries[at].node;
        numbers[node as usize] = raised(numbers[node as usize], by);
    }
}

/// The raised number.
fn raised(number: u64, by: u64) -> u64
    requires by { by ≤ 2 ^ 60 }
    requires low { number ≤ 2 ^ 60 }
    ensures { result ≡ number + by }
{
    by + number
}
