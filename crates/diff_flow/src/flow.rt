//! The first flow of a graph, the bound of a flow, and whether it balances.

ghost use Rattle.std.specs.Prelude.{
  ◌≡◌,
  ℕ,
  ◌+◌,
  ◌^◌,
  ◌<◌,
  ◌≤◌,
  pos,
  ◌+ℤ◌,
  ◌-ℤ◌,
  ◌*ℤ◌,
  ◌≤ℤ◌,
  length,
  IfOk,
  MatchOption,
  MatchResult,
};
ghost use Rattle.compact_types.specs.Magnitudes.{IsWithin};
ghost use Rattle.shape_graphs.specs.Arcs.{AreArcsWithin, IsArcWithin};
ghost use Rattle.shape_graphs.specs.declared.graph.TheConstants.{MOST_AMOUNT, MOST_ARCS};
ghost use Rattle.shape_graphs.specs.Flows.{at_node, Balances, bound_of};
ghost use Rattle.diff_flow.specs.Amounts.{ArePulls, IsFlowOn, IsFirstUnbalanced};
ghost use Rattle.shape_graphs.specs.Flows.{number_at};
ghost use Rattle.diff_flow.specs.declared.flow.TheConstants.{BLOCK};
ghost use Rattle.diff_flow.specs.inner.Surpluses.{
  AreNothing,
  AreSurpluses,
  BalanceBelow,
  IsFirstSome,
  NumbersAreWithin,
  brought,
};

use crate::MOST_AMOUNT;
use compact_types::{Flow, Items, NoMemory};
use shape_graphs::{Arc, DiffGraph};
use std::alloc::Global;

/// The flow whose amount on each arc is the arc's pull. It balances.
pub fn first_flow(alloc: Global, graph: &DiffGraph) -> Result<Flow, NoMemory>
    ensures amounts { IfOk result (λ flow. IsFlowOn graph.now.arcs flow.amounts) }
    ensures balances { IfOk result (λ flow. Balances graph.now.nodes graph.now.arcs flow.amounts) }
    ensures pulls { IfOk result (λ flow. ArePulls graph.now.arcs flow.amounts) }
{
    let arcs = graph.arcs.as_slice();
    let mut amounts = Vec::with_capacity(alloc, arcs.len())?;
    for i in 0..arcs.len() {
        amounts.push(pull_of(arcs[i]))?;
    }
    Ok(Flow {
        amounts: Items::from_vec(amounts),
    })
}

/// The pull of the arc.
fn pull_of(arc: Arc) -> u64
    requires { IsArcWithin arc }
    ensures pull { pos result ≡ arc.pull }
    ensures most { result ≤ MOST_AMOUNT }
{
    arc.pull as u64
}

/// The bound of the flow: the sum over the arcs of amount times least.
pub fn bound(graph: &DiffGraph, flow: &Flow) -> i128
    requires { IsFlowOn graph.now.arcs flow.now.amounts }
    ensures value { result ≡ bound_of graph.now.arcs flow.now.amounts }
    ensures low { pos 0 ≤ℤ result }
    ensures high { result ≤ℤ pos (2 ^ 90) }
{
    let arcs = graph.arcs.as_slice();
    let amounts = flow.amounts.as_slice();
    let mut sum: i128 = 0;
    for i in 0..arcs.len() {
        sum += amount_times_least(amounts[i], arcs[i]);
    }
    sum
}

/// What an arc adds to the bound.
fn amount_times_least(amount: u64, arc: Arc) -> i128
    requires amount { amount ≤ MOST_AMOUNT }
    requires arc { IsArcWithin arc }
    ensures value { result ≡ pos amount *ℤ arc.least }
    ensures low { pos 0 ≤ℤ result }
    ensures high { result ≤ℤ pos (2 ^ 60) }
{
    amount as i128 * arc.least as i128
}

/// How many nodes have their surpluses added up in one pass over the arcs. The sums take 16 KiB.
const BLOCK: u32 = 1_024;

/// Whether the flow balances; otherwise the least node at which it does not. It goes over the arcs
/// once for each 1,024 nodes, and takes no memory.
pub fn balanced(graph: &DiffGraph, flow: &Flow) -> Result<(), u32>
    requires { IsFlowOn graph.now.arcs flow.now.amounts }
    ensures { MatchResult result
        (λ _. Balances graph.now.nodes graph.now.arcs flow.now.amounts)
        (λ node. IsFirstUnbalanced graph.now.nodes graph.now.arcs flow.now.amounts node) }
{
    for block in 0..graph.nodes.div_ceil(BLOCK) {
        if let Some(node) = unbalanced_from(graph, flow, block * BLOCK) {
            return Err(node);
        }
    }
    Ok(())
}

/// The least node of the block from `first` on at which the flow does not balance.
fn unbalanced_from(graph: &DiffGraph, flow: &Flow, first: u32) -> Option<u32>
    requires flow { IsFlowOn graph.now.arcs flow.now.amounts }
    requires first { first < graph.now.nodes }
    requires before { BalanceBelow first graph.now.nodes graph.now.arcs flow.now.amounts }
    ensures { MatchOption result
        (BalanceBelow (first + BLOCK) graph.now.nodes graph.now.arcs flow.now.amounts)
        (IsFirstUnbalanced graph.now.nodes graph.now.arcs flow.now.amounts) }
{
    let mut room = [0; BLOCK as usize];
    unbalanced_in(&mut room, graph, flow, first)
}

/// The same, with room for the sums of a block, which are all 0.
fn unbalanced_in(room: &mut [i128], graph: &DiffGraph, flow: &Flow, first: u32) -> Option<u32>
    requires room { length room.old ≡ BLOCK }
    requires none { AreNothing room.old }
    requires flow { IsFlowOn graph.now.arcs flow.now.amounts }
    requires first { first < graph.now.nodes }
    requires before { BalanceBelow first graph.now.nodes graph.now.arcs flow.now.amounts }
    ensures { MatchOption result
        (BalanceBelow (first + BLOCK) graph.now.nodes graph.now.arcs flow.now.amounts)
        (IsFirstUnbalanced graph.now.nodes graph.now.arcs flow.now.amounts) }
{
    let count = BLOCK.min(graph.nodes - first) as usize;
    let sums = &mut room[..count];
    add_surpluses(sums, graph.arcs.as_slice(), flow.amounts.as_slice(), first);
    match first_that_is_some(sums) {
        None => None,
        Some(place) => Some(first + place as u32),
    }
}

/// Makes each sum the surplus of its node: what comes in by the amounts, above what comes in by
/// the pulls. The sums are those of the nodes from `first` on.
fn add_surpluses(sums: &mut [i128], arcs: &[Arc], amounts: &[u64], first: u32)
    requires flow { IsFlowOn arcs.now amounts.now }
    requires few { length arcs.now ≤ MOST_ARCS }
    requires within { AreArcsWithin arcs.now }
    requires none { AreNothing sums.old }
    ensures len { length sums.new ≡ length sums.old }
    ensures surpluses { AreSurpluses arcs.now amounts.now first sums.new }
{
    for i in 0..arcs.len() {
        add_arc(sums, arcs[i], above_pull(amounts[i], arcs[i]), first);
    }
}

/// How far the amount of the arc is above its pull.
fn above_pull(amount: u64, arc: Arc) -> i128
    requires amount { amount ≤ MOST_AMOUNT }
    requires arc { IsArcWithin arc }
    ensures value { result ≡ pos amount -ℤ arc.pull }
    ensures small { IsWithin (2 ^ 50) result }
{
    amount as i128 - arc.pull as i128
}

/// Adds what the arc brings in at the nodes from `first` on, where it carries so much.
fn add_arc(sums: &mut [i128], arc: Arc, carried: i128, first: u32)
    requires carried { IsWithin (2 ^ 50) carried }
    requires small { NumbersAreWithin (2 ^ 99) sums.old }
    ensures len { length sums.new ≡ length sums.old }
    ensures values { (k : ℕ) → k < length sums.old →
        number_at sums.new k ≡ number_at sums.old k +ℤ brought arc carried (first + k) }
{
    add_at(sums, first, arc.to, carried);
    add_at(sums, first, arc.from, -carried);
}

/// Adds the number to the sum of the node, where it is one of those from `first` on.
fn add_at(sums: &mut [i128], first: u32, node: u32, more: i128)
    requires more { IsWithin (2 ^ 50) more }
    requires small { NumbersAreWithin (2 ^ 100) sums.old }
    ensures len { length sums.new ≡ length sums.old }
    ensures values { (k : ℕ) → k < length sums.old →
        number_at sums.new k ≡ number_at sums.old k +ℤ at_node node (first + k) more }
{
    if node < first {
        return;
    }
    let place = (node - first) as usize;
    if place >= sums.len() {
        return;
    }
    sums[place] += more;
}

/// The first place at which a number other than 0 stands.
fn first_that_is_some(sums: &[i128]) -> Option<usize>
    ensures { MatchOption result (AreNothing sums.now) (IsFirstSome sums.now) }
{
    for k in 0..sums.len() {
        if sums[k] != 0 {
            return Some(k);
        }
    }
    None
}
