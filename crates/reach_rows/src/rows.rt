//! The rows of a graph, and what an added arc changes in them.

ghost use Rattle.std.specs.Prelude.{◌≡◌, ◌↔◌, ◌++◌, ◌∷◌, [], ◌*◌, ◌<◌, ◌≤◌, List, length, vec_len};
ghost use Rattle.std.specs.Prelude.{IsTrue, IfOk};

use crate::adding::{add, add_one_by_one, take_by_bucket, take_in_order};
use crate::bits::has_bit;
use crate::buckets::{buckets_of, have_buckets};
use compact_types::NoMemory;
use shape_graphs::{DiffGraph, arcs_in_order};
use std::alloc::Global;

/// For each node of a graph the nodes that are reached from it, a bit for each, 64 bits in a word.
#[derive(Debug, Drop)]
pub struct ReachRows {
    nodes: u32,
    /// How many words each row has.
    words: usize,
    /// The rows, one after the other.
    bits: Vec<u64>,
    ghost room: { vec_len bits ≡ nodes * words },
    ghost wide: { nodes ≤ 64 * words },
}

impl ReachRows {
    ghost use Rattle.shape_graphs.specs.declared.graph.Arc.{Arc};
    ghost use Rattle.shape_graphs.specs.Flows.{IsSolution, number_at};
    ghost use Rattle.shape_graphs.specs.Paths.{HasPath};
    ghost use Rattle.reach_rows.specs.Reaching.{AreRowsOf};

    /// The rows of the graph. Without a cycle they are made in one walk over the arcs, in
    /// topological order from the end.
    pub fn of(alloc: Global, graph: &DiffGraph) -> Result<ReachRows, NoMemory>
        ensures { IfOk result (λ rows. AreRowsOf rows graph.now.nodes graph.now.arcs) }
    {
        let order = arcs_in_order(alloc, graph)?;
        let mut rows = ReachRows::of_no_arcs(alloc, graph.nodes)?;
        let (nodes, words) = (rows.nodes, rows.words);
        let bits = rows.bits.as_mut_slice();
        let arcs = graph.arcs.as_slice();
        match order {
            Some(order) => take_in_order(bits, words, nodes, arcs, order.as_slice()),
            None => add_one_by_one(bits, words, nodes, arcs),
        }
        Ok(rows)
    }

    /// The rows of a graph that numbers on its nodes solve, as coordinates do. Where all are from 0
    /// on and below how many there are, as those of least places, no topological order is searched:
    /// the arcs are taken by the numbers at which they begin. Else it does what `of` does.
    pub fn by_numbers(
        alloc: Global,
        graph: &DiffGraph,
        numbers: &[i64],
    ) -> Result<ReachRows, NoMemory>
        requires one_for_each { length numbers.now ≡ graph.now.nodes }
        requires solution { IsSolution graph.now.arcs (number_at numbers.now) }
        ensures { IfOk result (λ rows. AreRowsOf rows graph.now.nodes graph.now.arcs) }
    {
        if !have_buckets(numbers) {
            return ReachRows::of(alloc, graph);
        }
        let arcs = graph.arcs.as_slice();
        let buckets = buckets_of(alloc, arcs, numbers)?;
        let mut rows = ReachRows::of_no_arcs(alloc, graph.nodes)?;
        let (nodes, words) = (rows.nodes, rows.words);
        let bits = rows.bits.as_mut_slice();
        take_by_bucket(bits, words, nodes, arcs, numbers, &buckets);
        Ok(rows)
    }

    /// The rows of a graph without arcs.
    fn of_no_arcs(alloc: Global, nodes: u32) -> Result<ReachRows, NoMemory>
        ensures { IfOk result (λ rows. AreRowsOf rows nodes []) }
    {
        let words = nodes.div_ceil(64) as usize;
        let bits = vec![in alloc; 0u64; nodes as usize * words]?;
        Ok(ReachRows { nodes, words, bits })
    }

    /// Whether a path of at least one arc leads from `a` to `b`.
    pub fn reaches(&self, a: u32, b: u32) -> bool
        requires begins { a < self.now.nodes }
        requires ends { b < self.now.nodes }
        ensures { (arcs : List Arc) → AreRowsOf self.now self.now.nodes arcs →
            (IsTrue result ↔ HasPath arcs a b) }
    {
        has_bit(self.bits.as_slice(), self.words, a as usize, b)
    }

    /// Adds an arc from `a` to `b`. Only the rows of `a` and of the nodes that reach `a` change,
    /// and none where `a` reaches `b` already.
    pub fn add_arc(&mut self, a: u32, b: u32)
        requires begins { a < self.old.nodes }
        requires ends { b < self.old.nodes }
        ensures nodes { self.new.nodes ≡ self.old.nodes }
        ensures rows { (arcs : List Arc) (arc : Arc) → arc.from ≡ a → arc.to ≡ b →
            AreRowsOf self.old self.old.nodes arcs →
            AreRowsOf self.new self.old.nodes (arcs ++ arc ∷ []) }
    {
        add(self.bits.as_mut_slice(), self.words, self.nodes, a, b);
    }
}
