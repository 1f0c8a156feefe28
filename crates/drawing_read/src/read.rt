//! The reading of a tree.

ghost use Rattle.std.specs.Prelude.{◌≡◌, ◌<◌, suc, [], length, drop, Some};
ghost use Rattle.std.specs.Prelude.{IfOk, IfErr, MatchOption, is_some, codes};
ghost use Rattle.std.specs.List.{position};
ghost use Rattle.compact_types.specs.Refusals.{Decides};
ghost use Rattle.drawing_read.specs.Legible.{IsLegible};
ghost use Rattle.drawing_read.specs.Lookups as lookups;
ghost use Rattle.drawing_read.specs.Faults.{FirstDrawFault, fault_of};
ghost use Rattle.drawing_read.specs.Readings.{IsReading, IsWithinLimits};
ghost use Rattle.drawing_read.specs.inner.Passes.{IsFirstGraph, IsOnlyGraph};

use crate::fault::DrawFault;
use crate::graph::graph_reading;
use crate::lookups::{FoundList, list_under};
use crate::reading::Reading;
use compact_types::Refusal;
use gml_text::{Pair, Tree};
use std::alloc::Global;

/// The drawing that a tree holds, or the first of its faults in the order of their kinds, and of
/// one kind the least.
///
/// Each vertex is a node or a bend of an edge; a first or a last point of an edge that stands at
/// its node's own place is no bend. The places are in thousandths.
pub fn read_drawing(alloc: Global, tree: &Tree) -> Result<Reading, Refusal<DrawFault>>
    requires { IsLegible tree.now }
    // The reading where there is one, the first fault where there is none.
    ensures decides { Decides result (IsReading tree.now) (FirstDrawFault tree.now) }
    // What callers may rely on in every reading.
    ensures limits { IfOk result IsWithinLimits }
{
    match only_graph(tree.pairs.as_slice()) {
        Ok(graph) => graph_reading(alloc, graph.place, graph.pairs),
        Err(fault) => Err(Refusal::Fault(fault)),
    }
}

/// The only graph, or that there is none or more than one.
fn only_graph(pairs: &[Pair]) -> Result<FoundList<'_>, DrawFault>
    ensures ok { IfOk result (λ graph. IsOnlyGraph pairs.now graph.place graph.pairs.now) }
    ensures fault { IfErr result
        (λ fault. fault_of (lookups.lists_under (codes "graph") pairs.now) ≡ Some fault) }
{
    let Some(graph) = first_graph(pairs) else {
        return Err(DrawFault::NoGraph);
    };
    if first_graph(behind(pairs, graph.place)).is_some() {
        return Err(DrawFault::TwoGraphs);
    }
    Ok(graph)
}

/// The first graph: a list under the key `graph`.
fn first_graph(pairs: &[Pair]) -> Option<FoundList<'_>>
    ensures { MatchOption result (lookups.lists_under (codes "graph") pairs.now ≡ [])
        (λ graph. IsFirstGraph pairs.now graph.place graph.pairs.now) }
{
    let place = graph_place(pairs)?;
    let list = list_under(b"graph", &pairs[place])?;
    Some(FoundList {
        place,
        pairs: list.as_slice(),
    })
}

/// What stands behind a place.
fn behind(pairs: &[Pair], at: usize) -> &[Pair]
    requires { at < length pairs.now }
    ensures { result.now ≡ drop (suc at) pairs.now }
{
    &pairs[at + 1..]
}

/// The place of the first graph.
fn graph_place(pairs: &[Pair]) -> Option<usize>
    ensures { result
        ≡ position (λ pair. is_some (lookups.list_under (codes "graph") pair)) pairs.now }
{
    pairs
        .iter()
        .position(|pair| list_under(b"graph", pair).is_some())
}

#[cfg(test)]
mod tests;
