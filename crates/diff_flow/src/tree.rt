//! The nodes that a search has reached, and over which steps.

ghost use Rattle.std.specs.Prelude.{◌≡◌, ◌≤◌, ◌<◌, ◌-◌, ℕ};
ghost use Rattle.std.specs.Prelude.{length, slice_index, IfOk, List};
ghost use Rattle.diff_flow.specs.declared.tree.Reached.{Reached};
ghost use Rattle.diff_flow.specs.declared.steps.ResidualArc.{ResidualArc};
ghost use Rattle.diff_flow.specs.inner.Steps.{step_at};
ghost use Rattle.diff_flow.specs.inner.Search.{
  ArePlaced,
  entry_at,
  IsBlank,
  IsEntered,
  IsRoom,
  IsTree,
};

use crate::steps::{ResidualArc, Steps};
use compact_types::NoMemory;
use std::alloc::Global;

/// A node that was reached: over which step, from the node of which entry, and how much can be
/// sent to it.
#[derive(Clone, Copy)]
pub(crate) struct Reached {
    pub(crate) node: u32,
    pub(crate) parent: u32,
    pub(crate) step: u32,
    pub(crate) room: u128,
}

/// The reached nodes in the order in which they were reached; and for each node the number of its
/// entry and one more, 0 where it was not reached.
#[derive(Drop)]
pub(crate) struct SearchTree {
    pub(crate) entries: Vec<Reached>,
    pub(crate) places: Vec<u32>,
}

impl SearchTree {
    /// A tree without nodes, which has room for all.
    pub(crate) fn blank(alloc: Global, nodes: u32) -> Result<SearchTree, NoMemory>
        ensures blank { IfOk result (λ tree. IsBlank nodes tree.entries.items tree.places.items) }
    {
        Ok(SearchTree {
            entries: Vec::with_capacity(alloc, nodes as usize)?,
            places: vec![in alloc; 0u32; nodes as usize]?,
        })
    }
}

/// Makes a tree without nodes one of one node.
pub(crate) fn plant(
    start: u32,
    most: u128,
    nodes: u32,
    tree: &mut SearchTree,
) -> Result<(), NoMemory>
    requires start { start < nodes }
    requires some { 0 < most }
    requires blank { IsBlank nodes tree.old.entries.items tree.old.places.items }
    ensures one { IfOk result (λ _. length tree.new.entries.items ≡ 1) }
    ensures start { IfOk result (λ _. (entry_at tree.new.entries.items 0).node ≡ start) }
    ensures most { IfOk result (λ _. (entry_at tree.new.entries.items 0).room ≡ most) }
    ensures tree { (steps : List ResidualArc) (amounts numbers : List ℕ) → IfOk result (λ _.
        IsTree nodes steps amounts numbers tree.new.entries.items tree.new.places.items) }
    ensures places { IfOk result (λ _.
        (v : ℕ) → 0 < slice_index tree.new.places.items v → v ≡ start) }
{
    tree.entries.push(Reached {
        node: start,
        parent: 0,
        step: 0,
        room: most,
    })?;
    tree.places[start as usize] = 1;
    Ok(())
}

/// Takes all nodes out of the tree.
pub(crate) fn clear(nodes: u32, tree: &mut SearchTree)
    requires { ArePlaced nodes tree.old.entries.items tree.old.places.items }
    ensures { IsBlank nodes tree.new.entries.items tree.new.places.items }
{
    for at in 0..tree.entries.len() {
        let node = tree.entries[at].node;
        tree.places[node as usize] = 0;
    }
    tree.entries.clear();
}

/// Adds the end of step `k`, whose beginning was reached, to the reached nodes.
pub(crate) fn enter(
    k: usize,
    steps: &Steps,
    amounts: &[u128],
    tree: &mut SearchTree,
) -> Result<(), NoMemory>
    requires inside { k < length steps.now.list.items }
    requires amounts { length amounts.now ≡ steps.now.arcs }
    requires places { length tree.old.places.items ≡ steps.now.nodes }
    requires few { length tree.old.entries.items < steps.now.nodes }
    requires from { 0 < slice_index tree.old.places.items (step_at steps.now.list.items k).from }
    requires entry { slice_index tree.old.places.items (step_at steps.now.list.items k).from
        ≤ length tree.old.entries.items }
    ensures { IfOk result (λ _. (entry : Reached) × IsEntered steps.now.list.items amounts.now k
        tree.old.entries.items tree.old.places.items
        tree.new.entries.items tree.new.places.items entry) }
{
    let step = steps.at(k);
    let parent = tree.places[step.from as usize] - 1;
    let above = tree.entries[parent as usize].room;
    let room = room_over(step, amounts[step.arc as usize], above);
    tree.entries.push(Reached {
        node: step.to,
        parent,
        step: k as u32,
        room,
    })?;
    tree.places[step.to as usize] = tree.entries.len() as u32;
    Ok(())
}

/// How much can be sent over the step, where its arc has this amount and so much reaches it.
fn room_over(step: ResidualArc, amount: u128, above: u128) -> u128
    ensures { IsRoom step amount above result }
{
    if step.up > 0 {
        above
    } else {
        above.min(amount)
    }
}
