//! What may be wrong with a graph, and the first fault that there is.

ghost use Rattle.std.specs.Prelude.{◌≡◌, ◌<◌, ◌≤◌, ◌^◌, length, is_none, All, IfSome};
ghost use Rattle.std.specs.Ordering.{int_eq};
ghost use Rattle.std.specs.List.{position};
ghost use Rattle.std.specs.Option.{option_map, option_or};
ghost use Rattle.indexmap.specs.IndexMap.{get};
ghost use Rattle.drawing_read.specs.Ids.{number_of_id, ids_of, first_repeated};
ghost use Rattle.drawing_read.specs.Spans.{points_in, pieces_in};
ghost use Rattle.drawing_read.specs.Faults as faults;
ghost use Rattle.drawing_read.specs.inner.Legible.{most_pairs};
ghost use Rattle.drawing_read.specs.inner.Passes.{CanBeCounted};

use crate::fault::DrawFault;
use crate::ids::{Ids, has_unknown_end};
use crate::limits::MOST_PIECES_READ;
use crate::numerals::{Numbers, WholeNumber};
use crate::refused::first_refused;
use crate::written::{Edge, Graph, Node};
use compact_types::MOST_VERTICES;
use indexmap::IndexMap;

/// The first fault of a graph with so many vertices and pieces.
pub(crate) fn first_fault(
    graph: &Graph,
    ids: &Ids,
    vertices: usize,
    pieces: usize,
) -> Option<DrawFault>
    requires small { CanBeCounted graph.now }
    requires first { get int_eq ids.now.first ≡ number_of_id (ids_of graph.now.nodes) }
    requires repeated { ids.now.repeated ≡ first_repeated (ids_of graph.now.nodes) }
    requires vertices { vertices ≡ length (points_in graph.now) }
    requires pieces { pieces ≡ length (pieces_in graph.now) }
    requires few_vertices { vertices < 2 ^ 32 }
    requires few_pieces { pieces < 2 ^ 32 }
    ensures { result ≡ faults.graph_fault graph.now }
{
    first_that_is(&[
        no_node(graph),
        missing_or_bad_id(graph),
        repeated_id(ids),
        no_place(graph),
        bad_number(graph),
        no_end(graph),
        unknown_end(ids, graph),
        bad_point(graph.edges.as_slice()),
        too_many_vertices(vertices),
        too_many_pieces(pieces),
    ])
}

/// Of some faults that may be there the first that is.
fn first_that_is(found: &[Option<DrawFault>]) -> Option<DrawFault>
    ensures { result ≡ faults.first_that_is found.now }
{
    for fault in found {
        if fault.is_some() {
            return *fault;
        }
    }
    None
}

/// A graph without a node.
fn no_node(graph: &Graph) -> Option<DrawFault>
    ensures { result ≡ faults.empty_fault graph.now.nodes }
{
    if graph.nodes.is_empty() {
        Some(DrawFault::Empty)
    } else {
        None
    }
}

/// A node without an id; where each has one, a node with a bad one.
fn missing_or_bad_id(graph: &Graph) -> Option<DrawFault>
    requires { CanBeCounted graph.now }
    ensures { result ≡ option_or
        (option_map (λ n. DrawFault.NoId n)
        (position (λ node. faults.is_absent node.id) graph.now.nodes))
        (option_map (λ n. DrawFault.BadId n)
        (position (λ node. faults.is_unfit node.id) graph.now.nodes)) }
{
    no_id(graph).or_else(|| bad_id(graph))
}

/// A node without an id.
fn no_id(graph: &Graph) -> Option<DrawFault>
    requires { CanBeCounted graph.now }
    ensures { result ≡ option_map (λ n. DrawFault.NoId n)
        (position (λ node. faults.is_absent node.id) graph.now.nodes) }
{
    Some(DrawFault::NoId(first_absent(graph.nodes.as_slice())? as u32))
}

/// A node with a bad id.
fn bad_id(graph: &Graph) -> Option<DrawFault>
    requires { CanBeCounted graph.now }
    ensures { result ≡ option_map (λ n. DrawFault.BadId n)
        (position (λ node. faults.is_unfit node.id) graph.now.nodes) }
{
    Some(DrawFault::BadId(first_unfit(graph.nodes.as_slice())? as u32))
}

/// A node with the id of an earlier one.
fn repeated_id(ids: &Ids) -> Option<DrawFault>
    ensures { result ≡ option_map (λ n. DrawFault.RepeatedId n) ids.now.repeated }
{
    Some(DrawFault::RepeatedId(ids.repeated?))
}

/// A node without a place.
fn no_place(graph: &Graph) -> Option<DrawFault>
    requires { CanBeCounted graph.now }
    ensures { result ≡ option_map (λ n. DrawFault.NoPlace n)
        (position (λ node. is_none node.place) graph.now.nodes) }
{
    Some(DrawFault::NoPlace(first_without_place(graph.nodes.as_slice())? as u32))
}

/// The refused number with the least offset.
fn bad_number(graph: &Graph) -> Option<DrawFault>
    ensures { result ≡ option_map (λ number. DrawFault.BadNumber number.at number.cause)
        (faults.first_refused (faults.numbers_in_graph graph.now)) }
{
    let number = first_refused(graph)?;
    Some(DrawFault::BadNumber {
        at: number.at,
        cause: number.cause,
    })
}

/// An edge that lacks an end.
fn no_end(graph: &Graph) -> Option<DrawFault>
    requires { CanBeCounted graph.now }
    ensures { result ≡ option_map (λ e. DrawFault.NoEnd e)
        (position faults.lacks_end graph.now.edges) }
{
    Some(DrawFault::NoEnd(first_without_end(graph.edges.as_slice())? as u32))
}

/// An edge with an end that is no node's id.
fn unknown_end(ids: &Ids, graph: &Graph) -> Option<DrawFault>
    requires { CanBeCounted graph.now }
    ensures { result ≡ option_map (λ e. DrawFault.UnknownEnd e)
        (position (faults.has_unknown_end (get int_eq ids.now.first)) graph.now.edges) }
{
    Some(DrawFault::UnknownEnd(first_unknown(&ids.first, graph.edges.as_slice())? as u32))
}

/// A point that lacks a number, by edge and then by point.
fn bad_point(edges: &[Edge]) -> Option<DrawFault>
    requires edges { length edges.now ≤ most_pairs }
    requires points { All (λ edge. length edge.points ≤ most_pairs) edges.now }
    ensures { result ≡ faults.bad_point_from 0 edges.now }
{
    for (e, edge) in edges.iter().enumerate() {
        if let Some(p) = bad_point_of(edge.points.as_slice()) {
            return Some(DrawFault::BadPoint {
                edge: e as u32,
                point: p as u32,
            });
        }
    }
    None
}

/// The first point of an edge that lacks a number.
fn bad_point_of(points: &[Option<Numbers>]) -> Option<usize>
    ensures first { result ≡ position is_none points.now }
    ensures within { IfSome result (λ p. p < length points.now) }
{
    points.iter().position(|point| point.is_none())
}

fn too_many_vertices(count: usize) -> Option<DrawFault>
    requires { count < 2 ^ 32 }
    ensures { result ≡ option_map (λ c. DrawFault.TooManyVertices c)
        (faults.too_many MOST_VERTICES count) }
{
    if count > MOST_VERTICES as usize {
        Some(DrawFault::TooManyVertices(count as u32))
    } else {
        None
    }
}

fn too_many_pieces(count: usize) -> Option<DrawFault>
    requires { count < 2 ^ 32 }
    ensures { result ≡ option_map (λ c. DrawFault.TooManyPieces c)
        (faults.too_many MOST_PIECES_READ count) }
{
    if count > MOST_PIECES_READ as usize {
        Some(DrawFault::TooManyPieces(count as u32))
    } else {
        None
    }
}

fn first_absent(nodes: &[Node]) -> Option<usize>
    ensures first { result ≡ position (λ node. faults.is_absent node.id) nodes.now }
    ensures within { IfSome result (λ n. n < length nodes.now) }
{
    nodes.iter().position(|node| is_absent(node.id))
}

fn first_unfit(nodes: &[Node]) -> Option<usize>
    ensures first { result ≡ position (λ node. faults.is_unfit node.id) nodes.now }
    ensures within { IfSome result (λ n. n < length nodes.now) }
{
    nodes.iter().position(|node| is_unfit(node.id))
}

fn first_without_place(nodes: &[Node]) -> Option<usize>
    ensures first { result ≡ position (λ node. is_none node.place) nodes.now }
    ensures within { IfSome result (λ n. n < length nodes.now) }
{
    nodes.iter().position(|node| node.place.is_none())
}

fn first_without_end(edges: &[Edge]) -> Option<usize>
    ensures first { result ≡ position faults.lacks_end edges.now }
    ensures within { IfSome result (λ e. e < length edges.now) }
{
    edges.iter().position(|edge| lacks_end(edge))
}

fn first_unknown(first: &IndexMap<i64, u32>, edges: &[Edge]) -> Option<usize>
    ensures first { result ≡ position (faults.has_unknown_end (get int_eq first.now)) edges.now }
    ensures within { IfSome result (λ e. e < length edges.now) }
{
    edges.iter().position(|edge| has_unknown_end(first, edge))
}

fn lacks_end(edge: &Edge) -> bool
    ensures { result ≡ faults.lacks_end edge.now }
{
    is_no_numeral(edge.source) || is_no_numeral(edge.target)
}

/// Whether there is no such key.
fn is_absent(number: WholeNumber) -> bool
    ensures { result ≡ faults.is_absent number }
{
    matches!(number, WholeNumber::Absent)
}

/// Whether it is there, and no whole numeral within `i64`.
fn is_unfit(number: WholeNumber) -> bool
    ensures { result ≡ faults.is_unfit number }
{
    matches!(number, WholeNumber::Other | WholeNumber::Beyond)
}

/// Whether there is no whole numeral.
fn is_no_numeral(number: WholeNumber) -> bool
    ensures { result ≡ faults.is_no_numeral number }
{
    matches!(number, WholeNumber::Absent | WholeNumber::Other)
}
