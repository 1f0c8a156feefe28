//! How arcs change rows of bits.

ghost use Rattle.std.specs.Prelude.{◌≡◌, ◌++◌, ◌∷◌, [], ℕ, ◌+◌, ◌*◌, ◌<◌, ◌≤◌, List, length};
ghost use Rattle.shape_graphs.specs.declared.graph.Arc.{Arc};
ghost use Rattle.shape_graphs.specs.Arcs.{AreArcsWithin, EndsAreNodes};
ghost use Rattle.shape_graphs.specs.Flows.{IsSolution, number_at};
ghost use Rattle.shape_graphs.specs.Orders.{IsArcOrder};
ghost use Rattle.reach_rows.specs.Bits.{bit_in, IsSet, IsAdded, AreBitsOf};
ghost use Rattle.reach_rows.specs.inner.Buckets.{AreInBuckets, HaveBuckets};

use crate::bits::{has_bit, take_row};
use crate::buckets::Buckets;
use shape_graphs::Arc;

/// The rows of all arcs, from those of none. No arc that is still to come ends at a node from
/// which arcs were taken, so that each changes the row of its beginning alone.
pub(crate) fn take_in_order(bits: &mut [u64], words: usize, nodes: u32, arcs: &[Arc], order: &[u32])
    requires room { length bits.old ≡ nodes * words }
    requires wide { nodes ≤ 64 * words }
    requires ends { EndsAreNodes nodes arcs.now }
    requires order { IsArcOrder arcs.now order.now }
    requires none { AreBitsOf words bits.old nodes [] }
    ensures { AreBitsOf words bits.new nodes arcs.now }
{
    let mut k = order.len();
    while k > 0 {
        k -= 1;
        let arc = arcs[order[k] as usize];
        take_row(bits, words, arc.from as usize, arc.to);
    }
}

/// The rows of all arcs, from those of none, where numbers on the nodes solve the graph. The arcs
/// are taken bucket by bucket, from the greatest number down, so that none that is still to come
/// ends at a node from which arcs were taken.
#[tactic(auto, using(crate::proofs::WordLemmas::row_fits))]
pub(crate) fn take_by_bucket(
    bits: &mut [u64],
    words: usize,
    nodes: u32,
    arcs: &[Arc],
    numbers: &[i64],
    buckets: &Buckets,
)
    requires room { length bits.old ≡ nodes * words }
    requires wide { nodes ≤ 64 * words }
    requires one_for_each { length numbers.now ≡ nodes }
    requires ends { EndsAreNodes nodes arcs.now }
    requires within { AreArcsWithin arcs.now }
    requires solution { IsSolution arcs.now (number_at numbers.now) }
    requires have { HaveBuckets numbers.now }
    requires buckets { AreInBuckets arcs.now numbers.now
        buckets.now.last.items buckets.now.before.items }
    requires none { AreBitsOf words bits.old nodes [] }
    ensures { AreBitsOf words bits.new nodes arcs.now }
{
    let mut number = numbers.len();
    while number > 0 {
        number -= 1;
        let mut entry = buckets.last[number];
        while entry > 0 {
            let i = entry as usize - 1;
            take_row(bits, words, arcs[i].from as usize, arcs[i].to);
            entry = buckets.before[i];
        }
    }
}

/// The rows of all arcs, from those of none.
pub(crate) fn add_one_by_one(bits: &mut [u64], words: usize, nodes: u32, arcs: &[Arc])
    requires room { length bits.old ≡ nodes * words }
    requires wide { nodes ≤ 64 * words }
    requires ends { EndsAreNodes nodes arcs.now }
    requires none { AreBitsOf words bits.old nodes [] }
    ensures { AreBitsOf words bits.new nodes arcs.now }
{
    for i in 0..arcs.len() {
        add(bits, words, nodes, arcs[i].from, arcs[i].to);
    }
}

/// Adds an arc from `a` to `b`.
#[tactic(auto, using(crate::proofs::WordLemmas::row_fits))]
pub(crate) fn add(bits: &mut [u64], words: usize, nodes: u32, a: u32, b: u32)
    requires room { length bits.old ≡ nodes * words }
    requires wide { nodes ≤ 64 * words }
    requires begins { a < nodes }
    requires ends { b < nodes }
    ensures { (arcs : List Arc) (arc : Arc) → arc.from ≡ a → arc.to ≡ b →
        AreBitsOf words bits.old nodes arcs → AreBitsOf words bits.new nodes (arcs ++ arc ∷ []) }
{
    if !has_bit(bits, words, a as usize, b) {
        take_all(bits, words, nodes, a, b);
    }
}

/// The rows of `a` and of the nodes that reach it take the row of `b`, and `b`.
#[tactic(auto, using(crate::proofs::WordLemmas::row_fits))]
fn take_all(bits: &mut [u64], words: usize, nodes: u32, a: u32, b: u32)
    requires room { length bits.old ≡ nodes * words }
    requires wide { nodes ≤ 64 * words }
    requires begins { a < nodes }
    requires ends { b < nodes }
    ensures { (x c : ℕ) → x < nodes → c < nodes →
        IsAdded words bits.old a b x c (IsSet words bits.new x c) }
{
    for x in 0..nodes {
        take_if(bits, words, x, a, b);
    }
}

/// Row `x` takes the row of `b`, and `b`, where `x` is `a` or reaches it.
fn take_if(bits: &mut [u64], words: usize, x: u32, a: u32, b: u32)
    requires row { x * words + words ≤ length bits.old }
    requires from { b * words + words ≤ length bits.old }
    requires begins { a < 64 * words }
    requires ends { b < 64 * words }
    ensures stay { (y c : ℕ) → (y ≡ x → ⊥) → c < 64 * words →
        bit_in words bits.new y c ≡ bit_in words bits.old y c }
    ensures take { (c : ℕ) → c < 64 * words →
        IsAdded words bits.old a b x c (IsSet words bits.new x c) }
{
    if x == a || has_bit(bits, words, x as usize, a) {
        take_row(bits, words, x as usize, b);
    }
}
