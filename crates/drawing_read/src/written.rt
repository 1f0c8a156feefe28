//! What is written in a graph: nodes with their ids and places, edges with their ends and points.

ghost use Rattle.std.specs.Prelude.{◌≡◌, IfOk, IfSome, None, Some};
ghost use Rattle.std.specs.Prelude.{MatchOption, option_and_then, codes};
ghost use Rattle.std.specs.List.{filter_map};
ghost use Rattle.drawing_read.specs.Lookups as lookups;
ghost use Rattle.drawing_read.specs.Numerals as numerals;
ghost use Rattle.drawing_read.specs.Written as written;
ghost use Rattle.drawing_read.specs.inner.Passes.{CanBeCounted};
ghost use Rattle.drawing_read.specs.inner.Legible.{IsLegiblePair, AreLegible};

use crate::lookups::{first_list, has_key, list_of, list_under};
use crate::numerals::{Numbers, WholeNumber, numbers_in, whole_under};
use compact_types::{Items, NoMemory};
use gml_text::Pair;
use std::alloc::Global;

/// A node: its id, and its place where both numbers of it are there.
#[derive(Clone, Copy, Debug)]
pub struct Node {
    pub id: WholeNumber,
    pub place: Option<Numbers>,
}

/// An edge: the ids of its ends, and its points, each where both numbers of it are there.
#[derive(Debug, Drop)]
pub struct Edge {
    pub source: WholeNumber,
    pub target: WholeNumber,
    pub points: Items<Option<Numbers>>,
}

/// The nodes and the edges of a graph, both in their order.
#[derive(Debug, Drop)]
pub struct Graph {
    pub nodes: Items<Node>,
    pub edges: Items<Edge>,
}

/// What is written in a graph.
#[tactic(auto, using(crate::proofs::SmallLemmas::graph_small))]
pub(crate) fn written_graph(alloc: Global, pairs: &[Pair]) -> Result<Graph, NoMemory>
    requires { AreLegible pairs.now }
    ensures graph { IfOk result (λ graph. graph ≡ written.graph_of pairs.now) }
    ensures small { IfOk result CanBeCounted }
{
    let nodes = nodes_of(alloc, pairs)?;
    let edges = edges_of(alloc, pairs)?;
    Ok(Graph { nodes, edges })
}

/// The nodes of a graph, in order.
#[tactic(auto, using(crate::proofs::LoopSteps::kept_more, crate::proofs::LoopSteps::left_more))]
fn nodes_of(alloc: Global, pairs: &[Pair]) -> Result<Items<Node>, NoMemory>
    requires { AreLegible pairs.now }
    ensures { IfOk result (λ nodes. nodes ≡ filter_map written.node_in pairs.now) }
{
    let mut nodes = Items::new(alloc);
    for pair in pairs {
        if let Some(node) = node_in(pair) {
            nodes.push(node)?;
        }
    }
    Ok(nodes)
}

/// The node that a pair is.
fn node_in(pair: &Pair) -> Option<Node>
    requires { IsLegiblePair pair.now }
    ensures { result ≡ written.node_in pair.now }
{
    let pairs = list_under(b"node", pair)?.as_slice();
    Some(Node {
        id: whole_under(b"id", pairs),
        place: place_in(pairs),
    })
}

/// The place in the graphics of a node.
fn place_in(pairs: &[Pair]) -> Option<Numbers>
    requires { AreLegible pairs.now }
    ensures { result
        ≡ option_and_then numerals.numbers_in (lookups.first_list (codes "graphics") pairs.now) }
{
    numbers_in(first_list(b"graphics", pairs)?.pairs)
}

/// The edges of a graph, in order.
#[tactic(auto, using(crate::proofs::LoopSteps::kept_more, crate::proofs::LoopSteps::left_more))]
fn edges_of(alloc: Global, pairs: &[Pair]) -> Result<Items<Edge>, NoMemory>
    requires { AreLegible pairs.now }
    ensures { IfOk result (λ edges. edges ≡ filter_map written.edge_in pairs.now) }
{
    let mut edges = Items::new(alloc);
    for pair in pairs {
        if let Some(edge) = edge_in(alloc, pair)? {
            edges.push(edge)?;
        }
    }
    Ok(edges)
}

/// The edge that a pair is.
fn edge_in(alloc: Global, pair: &Pair) -> Result<Option<Edge>, NoMemory>
    requires { IsLegiblePair pair.now }
    ensures { IfOk result (λ edge. edge ≡ written.edge_in pair.now) }
{
    let Some(list) = list_under(b"edge", pair) else {
        return Ok(None);
    };
    let pairs = list.as_slice();
    let source = whole_under(b"source", pairs);
    let target = whole_under(b"target", pairs);
    let points = points_of(alloc, pairs)?;
    Ok(Some(Edge {
        source,
        target,
        points,
    }))
}

/// The points of an edge: none where it has no line.
fn points_of(alloc: Global, pairs: &[Pair]) -> Result<Items<Option<Numbers>>, NoMemory>
    requires { AreLegible pairs.now }
    ensures { IfOk result
        (λ points. points ≡ filter_map written.point_in (written.line_pairs pairs.now)) }
{
    match line_in(pairs) {
        Some(line) => points_in(alloc, line),
        None => Ok(Items::new(alloc)),
    }
}

/// The line in the graphics of an edge.
fn line_in(pairs: &[Pair]) -> Option<&[Pair]>
    ensures line { MatchOption result (written.line_in pairs.now ≡ None)
        (λ line. written.line_in pairs.now ≡ Some line.now) }
    ensures legible { AreLegible pairs.now → IfSome result (λ line. AreLegible line.now) }
{
    Some(first_list(b"Line", first_list(b"graphics", pairs)?.pairs)?.pairs)
}

/// The points of a line, in order.
#[tactic(auto, using(crate::proofs::LoopSteps::kept_more, crate::proofs::LoopSteps::left_more))]
fn points_in(alloc: Global, line: &[Pair]) -> Result<Items<Option<Numbers>>, NoMemory>
    requires { AreLegible line.now }
    ensures { IfOk result (λ points. points ≡ filter_map written.point_in line.now) }
{
    let mut points = Items::new(alloc);
    for pair in line {
        if let Some(point) = point_in(pair) {
            points.push(point)?;
        }
    }
    Ok(points)
}

/// The point of a line that a pair is.
fn point_in(pair: &Pair) -> Option<Option<Numbers>>
    requires { IsLegiblePair pair.now }
    ensures { result ≡ written.point_in pair.now }
{
    if has_key(b"point", pair) {
        Some(pair_numbers(pair))
    } else {
        None
    }
}

/// The x and the y of a pair whose value is a list with both.
fn pair_numbers(pair: &Pair) -> Option<Numbers>
    requires { IsLegiblePair pair.now }
    ensures { result ≡ option_and_then numerals.numbers_in (lookups.list_in pair.now.value) }
{
    numbers_in(list_of(pair)?.as_slice())
}
