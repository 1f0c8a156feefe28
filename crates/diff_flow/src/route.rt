//! Makes a flow best: amounts on arcs that are not tight are dropped, and what is then left over at
//! some nodes is sent along tight steps to the nodes that lack.

ghost use Rattle.std.specs.Prelude.{◌≡◌, ◌≤◌, ◌<◌, ◌+◌, ◌-◌, ◌*◌, ◌^◌, ℕ};
ghost use Rattle.std.specs.Prelude.{length, IfOk, List};
ghost use Rattle.shape_graphs.specs.Flows.{amount_at};
ghost use Rattle.shape_graphs.specs.declared.graph.TheConstants.{MOST_AMOUNT};
ghost use Rattle.diff_flow.specs.inner.Steps.{AreMet, along_at};
ghost use Rattle.diff_flow.specs.inner.Numbers.{height};
ghost use Rattle.diff_flow.specs.inner.Search.{IsBlank};
ghost use Rattle.diff_flow.specs.inner.Routing.{AreDropped, AreGiven, IsSpread, KeepsBalance};
ghost use Rattle.diff_flow.specs.inner.Routing.{net_by};

use crate::sending::send_all;
use crate::steps::Steps;
use crate::tree::SearchTree;
use compact_types::{Items, NoMemory};
use std::alloc::Global;

/// Drops the amounts that are not tight, and sends them where they lack along tight steps; the
/// numbers are raised until all have arrived. Answers the new amounts.
pub(crate) fn route(
    alloc: Global,
    steps: &Steps,
    given: &[u64],
    numbers: &mut [u64],
) -> Result<Vec<u128>, NoMemory>
    requires given { length given.now ≡ steps.now.arcs }
    requires low { (i : ℕ) → i < steps.now.arcs → amount_at given.now i ≤ 2 ^ 50 }
    requires numbers { length numbers.old ≡ steps.now.nodes }
    requires limit { (v : ℕ) → v < steps.now.nodes →
        height numbers.old v ≤ (steps.now.nodes - 1) * steps.now.reach }
    requires met { (k : ℕ) → k < steps.now.arcs →
        height numbers.old (along_at steps.now.list.items k).from
        + (along_at steps.now.list.items k).up
        ≤ height numbers.old (along_at steps.now.list.items k).to }
    ensures len { IfOk result (λ amounts. length amounts.items ≡ steps.now.arcs) }
    ensures net { IfOk result (λ amounts. (v : ℕ) → v < steps.now.nodes →
        net_by steps.now.list.items steps.now.arcs amounts.items v
        ≡ net_by steps.now.list.items steps.now.arcs given.now v) }
    ensures met { IfOk result (λ amounts.
        AreMet steps.now.list.items amounts.items (height numbers.new)) }
    ensures one_for_each { IfOk result (λ _. length numbers.new ≡ steps.now.nodes) }
    ensures low { IfOk result (λ _.
        (v : ℕ) → v < steps.now.nodes → height numbers.new v ≤ 2 ^ 60) }
{
    let mut amounts = widened(alloc, given)?;
    let mut over = vec![in alloc; 0u128; steps.nodes as usize]?;
    let mut want = vec![in alloc; 0u128; steps.nodes as usize]?;
    let mut tree = SearchTree::blank(alloc, steps.nodes)?;
    reroute(
        steps,
        amounts.as_mut_slice(),
        numbers,
        over.as_mut_slice(),
        want.as_mut_slice(),
        &mut tree,
    )?;
    Ok(amounts)
}

/// Drops the amounts on arcs that are not tight, and sends what is then in excess to where they
/// lack.
fn reroute(
    steps: &Steps,
    amounts: &mut [u128],
    numbers: &mut [u64],
    over: &mut [u128],
    want: &mut [u128],
    tree: &mut SearchTree,
) -> Result<(), NoMemory>
    requires blank { IsBlank steps.now.nodes tree.old.entries.items tree.old.places.items }
    requires numbers { length numbers.old ≡ steps.now.nodes }
    requires limit { (v : ℕ) → v < steps.now.nodes →
        height numbers.old v ≤ (steps.now.nodes - 1) * steps.now.reach }
    requires met { (k : ℕ) → k < steps.now.arcs →
        height numbers.old (along_at steps.now.list.items k).from
        + (along_at steps.now.list.items k).up
        ≤ height numbers.old (along_at steps.now.list.items k).to }
    requires dropped { AreDropped steps.now.nodes steps.now.arcs 0 steps.now.list.items numbers.old
        amounts.old over.old want.old }
    requires given { (given : List ℕ) × AreGiven steps.now.arcs given
        × IsSpread steps.now.nodes steps.now.arcs steps.now.list.items given
        amounts.old over.old want.old }
    ensures len { IfOk result (λ _. length amounts.new ≡ steps.now.arcs) }
    ensures net { IfOk result (λ _. (given : List ℕ) →
        IsSpread steps.now.nodes steps.now.arcs steps.now.list.items given
        amounts.old over.old want.old → (v : ℕ) → v < steps.now.nodes →
        net_by steps.now.list.items steps.now.arcs amounts.new v
        ≡ net_by steps.now.list.items steps.now.arcs given v) }
    ensures met { IfOk result (λ _.
        AreMet steps.now.list.items amounts.new (height numbers.new)) }
    ensures one_for_each { IfOk result (λ _. length numbers.new ≡ steps.now.nodes) }
    ensures low { IfOk result (λ _.
        (v : ℕ) → v < steps.now.nodes → height numbers.new v ≤ 2 ^ 60) }
{
    drop_all(steps, numbers, amounts, over, want);
    send_all(steps, amounts, numbers, over, want, tree)?;
    Ok(())
}

/// The same amounts with room for what is sent.
pub(crate) fn widened(alloc: Global, given: &[u64]) -> Result<Vec<u128>, NoMemory>
    ensures { IfOk result (λ amounts. amounts.items ≡ given.now) }
{
    let mut amounts = Vec::with_capacity(alloc, given.len())?;
    for amount in given {
        amounts.push(*amount as u128)?;
    }
    Ok(amounts)
}

/// The same amounts, which all are amounts of a flow.
pub(crate) fn narrowed(alloc: Global, amounts: &[u128]) -> Result<Items<u64>, NoMemory>
    requires { (i : ℕ) → i < length amounts.now → amount_at amounts.now i ≤ MOST_AMOUNT }
    ensures { IfOk result (λ list. list ≡ amounts.now) }
{
    let mut list = Vec::with_capacity(alloc, amounts.len())?;
    for amount in amounts {
        list.push(*amount as u64)?;
    }
    Ok(Items::from_vec(list))
}

/// Drops the amounts on all arcs that are not tight.
fn drop_all(
    steps: &Steps,
    numbers: &[u64],
    amounts: &mut [u128],
    over: &mut [u128],
    want: &mut [u128],
)
    requires numbers { length numbers.now ≡ steps.now.nodes }
    requires low { (v : ℕ) → v < steps.now.nodes → height numbers.now v ≤ 2 ^ 60 }
    requires dropped { AreDropped steps.now.nodes steps.now.arcs 0 steps.now.list.items numbers.now
        amounts.old over.old want.old }
    ensures dropped { AreDropped steps.now.nodes steps.now.arcs steps.now.arcs
        steps.now.list.items numbers.now amounts.new over.new want.new }
    ensures kept { KeepsBalance steps.now.nodes steps.now.arcs steps.now.list.items
        amounts.old over.old want.old amounts.new over.new want.new }
{
    for i in 0..steps.arcs {
        drop_slack(i, steps, numbers, amounts, over, want);
    }
}

/// Drops the amount on arc `i`, where it is not tight: the node where it begins has it in excess,
/// the node where it ends lacks it.
fn drop_slack(
    i: usize,
    steps: &Steps,
    numbers: &[u64],
    amounts: &mut [u128],
    over: &mut [u128],
    want: &mut [u128],
)
    requires inside { i < steps.now.arcs }
    requires numbers { length numbers.now ≡ steps.now.nodes }
    requires low { (v : ℕ) → v < steps.now.nodes → height numbers.now v ≤ 2 ^ 60 }
    requires dropped { AreDropped steps.now.nodes steps.now.arcs i steps.now.list.items numbers.now
        amounts.old over.old want.old }
    ensures dropped { AreDropped steps.now.nodes steps.now.arcs (i + 1) steps.now.list.items
        numbers.now amounts.new over.new want.new }
    ensures kept { KeepsBalance steps.now.nodes steps.now.arcs steps.now.list.items
        amounts.old over.old want.old amounts.new over.new want.new }
    ensures tight { height numbers.now (along_at steps.now.list.items i).to
        ≡ height numbers.now (along_at steps.now.list.items i).from
        + (along_at steps.now.list.items i).up → amounts.new ≡ amounts.old }
{
    let step = steps.along(i);
    if numbers[step.to as usize] != numbers[step.from as usize] + step.up as u64 {
        let amount = amounts[i];
        amounts[i] = 0;
        over[step.from as usize] += amount;
        want[step.to as usize] += amount;
    }
}
