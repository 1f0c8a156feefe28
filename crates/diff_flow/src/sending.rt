//! Excess is sent along tight steps to the nodes that lack.

ghost use Rattle.std.specs.Prelude.{◌≡◌, ◌≤◌, ◌<◌, ◌+◌, ◌-◌, ◌*◌, ◌^◌, ℕ};
ghost use Rattle.std.specs.Prelude.{length, slice_index, IfOk};
ghost use Rattle.shape_graphs.specs.Flows.{amount_at};
ghost use Rattle.diff_flow.specs.inner.Search.{entry_at, IsBlank, IsTree};
ghost use Rattle.diff_flow.specs.inner.Routing.{IsMoved, IsRouting, IsSent, KeepsBalance};

use crate::search::find;
use crate::steps::{ResidualArc, Steps};
use crate::tree::{SearchTree, clear};
use compact_types::NoMemory;

/// Sends the excess of all nodes to where they lack.
pub(crate) fn send_all(
    steps: &Steps,
    amounts: &mut [u128],
    numbers: &mut [u64],
    over: &mut [u128],
    want: &mut [u128],
    tree: &mut SearchTree,
) -> Result<(), NoMemory>
    requires blank { IsBlank steps.now.nodes tree.old.entries.items tree.old.places.items }
    requires routing { IsRouting steps.now.nodes steps.now.arcs
        ((steps.now.nodes - 1) * steps.now.reach) steps.now.list.items
        amounts.old numbers.old over.old want.old }
    ensures routing { IfOk result (λ _. IsRouting steps.now.nodes steps.now.arcs
        ((steps.now.nodes - 1) * steps.now.reach) steps.now.list.items
        amounts.new numbers.new over.new want.new) }
    ensures kept { IfOk result (λ _.
        KeepsBalance steps.now.nodes steps.now.arcs steps.now.list.items
        amounts.old over.old want.old amounts.new over.new want.new) }
    ensures blank { IfOk result (λ _.
        IsBlank steps.now.nodes tree.new.entries.items tree.new.places.items) }
    ensures none { IfOk result (λ _. (v : ℕ) → v < steps.now.nodes → slice_index over.new v ≡ 0) }
{
    for node in 0..steps.nodes {
        send_from(node, steps, amounts, numbers, over, want, tree)?;
    }
    Ok(())
}

/// Sends the excess of the node to where they lack.
fn send_from(
    node: u32,
    steps: &Steps,
    amounts: &mut [u128],
    numbers: &mut [u64],
    over: &mut [u128],
    want: &mut [u128],
    tree: &mut SearchTree,
) -> Result<(), NoMemory>
    requires blank { IsBlank steps.now.nodes tree.old.entries.items tree.old.places.items }
    requires node { node < steps.now.nodes }
    requires routing { IsRouting steps.now.nodes steps.now.arcs
        ((steps.now.nodes - 1) * steps.now.reach) steps.now.list.items
        amounts.old numbers.old over.old want.old }
    ensures routing { IfOk result (λ _. IsRouting steps.now.nodes steps.now.arcs
        ((steps.now.nodes - 1) * steps.now.reach) steps.now.list.items
        amounts.new numbers.new over.new want.new) }
    ensures kept { IfOk result (λ _.
        KeepsBalance steps.now.nodes steps.now.arcs steps.now.list.items
        amounts.old over.old want.old amounts.new over.new want.new) }
    ensures blank { IfOk result (λ _.
        IsBlank steps.now.nodes tree.new.entries.items tree.new.places.items) }
    ensures none { IfOk result (λ _. slice_index over.new node ≡ 0) }
    ensures less { IfOk result (λ _. (v : ℕ) → slice_index over.new v ≤ slice_index over.old v) }
{
    while over[node as usize] > 0 {
        send_once(node, steps, amounts, numbers, over, want, tree)?;
    }
    Ok(())
}

/// Sends some of the excess of the node along one way.
fn send_once(
    node: u32,
    steps: &Steps,
    amounts: &mut [u128],
    numbers: &mut [u64],
    over: &mut [u128],
    want: &mut [u128],
    tree: &mut SearchTree,
) -> Result<(), NoMemory>
    requires blank { IsBlank steps.now.nodes tree.old.entries.items tree.old.places.items }
    requires node { node < steps.now.nodes }
    requires some { 0 < slice_index over.old node }
    requires routing { IsRouting steps.now.nodes steps.now.arcs
        ((steps.now.nodes - 1) * steps.now.reach) steps.now.list.items
        amounts.old numbers.old over.old want.old }
    ensures routing { IfOk result (λ _. IsRouting steps.now.nodes steps.now.arcs
        ((steps.now.nodes - 1) * steps.now.reach) steps.now.list.items
        amounts.new numbers.new over.new want.new) }
    ensures kept { IfOk result (λ _.
        KeepsBalance steps.now.nodes steps.now.arcs steps.now.list.items
        amounts.old over.old want.old amounts.new over.new want.new) }
    ensures blank { IfOk result (λ _.
        IsBlank steps.now.nodes tree.new.entries.items tree.new.places.items) }
    ensures fewer { IfOk result (λ _. slice_index over.new node < slice_index over.old node) }
    ensures less { IfOk result (λ _. (v : ℕ) → slice_index over.new v ≤ slice_index over.old v) }
{
    find(
        node,
        over[node as usize],
        steps,
        amounts,
        numbers,
        want,
        tree,
    )?;
    let last = tree.entries[tree.entries.len() - 1];
    let amount = last.room.min(want[last.node as usize]);
    send(steps, numbers, tree, amount, amounts);
    clear(steps.nodes, tree);
    over[node as usize] -= amount;
    want[last.node as usize] -= amount;
    Ok(())
}

/// Sends the amount along the way to the last entry of the tree.
pub(crate) fn send(
    steps: &Steps,
    numbers: &[u64],
    tree: &SearchTree,
    amount: u128,
    amounts: &mut [u128],
)
    requires amounts { length amounts.old ≡ steps.now.arcs }
    requires low { (i : ℕ) → i < steps.now.arcs → amount_at amounts.old i + amount < 2 ^ 128 }
    requires tree { IsTree steps.now.nodes steps.now.list.items amounts.old numbers.now
        tree.now.entries.items tree.now.places.items }
    requires room { amount ≤ (entry_at tree.now.entries.items
        (length tree.now.entries.items - 1)).room }
    ensures { IsMoved steps.now.nodes steps.now.arcs steps.now.list.items amount
        (entry_at tree.now.entries.items 0).node
        (entry_at tree.now.entries.items (length tree.now.entries.items - 1)).node
        numbers.now amounts.old amounts.new }
{
    let mut at = tree.entries.len() - 1;
    while at > 0 {
        let entry = tree.entries[at];
        pass(steps.at(entry.step as usize), amount, amounts);
        at = entry.parent as usize;
    }
}

/// Sends the amount over the step.
fn pass(step: ResidualArc, amount: u128, amounts: &mut [u128])
    requires arc { step.arc < length amounts.old }
    requires along { 0 < step.up → amount_at amounts.old step.arc + amount < 2 ^ 128 }
    requires against { step.up ≡ 0 → amount ≤ amount_at amounts.old step.arc }
    ensures { IsSent step amount amounts.old amounts.new }
{
    if step.up > 0 {
        amounts[step.arc as usize] += amount;
    } else {
        amounts[step.arc as usize] -= amount;
    }
}
