//! The layout of a graph: the places of its vertices, its edges by their vertices, and its pieces.

ghost use Rattle.std.specs.Prelude.{◌≡◌, ◌+◌, ◌++◌, ◌<◌, ◌^◌, IfOk, OnOk, length, map};
ghost use Rattle.std.specs.Ordering.{int_eq};
ghost use Rattle.indexmap.specs.IndexMap.{get};
ghost use Rattle.compact_types.specs.Lookups.{place};
ghost use Rattle.drawing_read.specs.Ids.{number_of_id, ids_of};
ghost use Rattle.drawing_read.specs.Routes as routes;
ghost use Rattle.drawing_read.specs.Spans.{bends_of, points_in, spans_in, pieces_in};
ghost use Rattle.drawing_read.specs.inner.Layouts.{AddsRoute};
ghost use Rattle.drawing_read.specs.inner.Passes.{CanBeCounted};

use crate::ids::end_number;
use crate::numerals::{Number, Numbers};
use crate::spans::{EdgeSpan, begins_at, bends_between, push_pieces};
use crate::written::{Edge, Graph, Node};
use compact_types::{Items, NoMemory, Piece, Point};
use indexmap::IndexMap;
use std::alloc::Global;

/// A graph by its vertices: their places, the edges by their numbers, and the pieces.
#[derive(Debug, Drop)]
pub struct Layout {
    pub points: Items<Point>,
    pub spans: Items<EdgeSpan>,
    pub pieces: Items<Piece>,
}

/// The layout of a graph; `first` has the number of the node with each id.
pub(crate) fn layout_of(
    alloc: Global,
    first: &IndexMap<i64, u32>,
    graph: &Graph,
) -> Result<Layout, NoMemory>
    requires small { CanBeCounted graph.now }
    requires first { get int_eq first.now ≡ number_of_id (ids_of graph.now.nodes) }
    ensures points { IfOk result (λ layout. layout.points ≡ points_in graph.now) }
    ensures spans { IfOk result (λ layout. layout.spans ≡ spans_in graph.now) }
    ensures pieces { IfOk result (λ layout. layout.pieces ≡ pieces_in graph.now) }
{
    let nodes = graph.nodes.as_slice();
    let edges = graph.edges.as_slice();
    let mut layout = Layout {
        points: node_points(alloc, nodes)?,
        spans: Items::new(alloc),
        pieces: Items::new(alloc),
    };
    for edge in edges {
        add_edge(&mut layout, first, nodes, edge)?;
    }
    Ok(layout)
}

/// Adds an edge: its bends behind the vertices that are there, its span, and its pieces.
fn add_edge(
    layout: &mut Layout,
    first: &IndexMap<i64, u32>,
    nodes: &[Node],
    edge: &Edge,
) -> Result<(), NoMemory>
    requires { length layout.old.points
        + length (bends_of (routes.node_points nodes.now)
        (routes.route_of (get int_eq first.now) edge.now)) < 2 ^ 32 }
    ensures { OnOk result (AddsRoute (routes.node_points nodes.now)
        (routes.route_of (get int_eq first.now) edge.now) layout.old layout.new) }
{
    let source = end_number(first, edge.source);
    let target = end_number(first, edge.target);
    let from = place_of(nodes, source);
    let bends = bends_between(from, place_of(nodes, target), edge.points.as_slice());
    let span = EdgeSpan {
        source,
        target,
        at_source: u32::from(begins_at(from, edge.points.as_slice())),
        first: layout.points.len() as u32,
        bends: bends.len() as u32,
    };
    push_points(&mut layout.points, bends)?;
    layout.spans.push(span)?;
    push_pieces(&mut layout.pieces, span)
}

/// The places of the nodes, in order.
fn node_points(alloc: Global, nodes: &[Node]) -> Result<Items<Point>, NoMemory>
    ensures { IfOk result (λ list. list ≡ routes.node_points nodes.now) }
{
    let mut list = Items::new(alloc);
    for node in nodes {
        list.push(point_of(node.place))?;
    }
    Ok(list)
}

/// The place of a node; the origin where there is none with this number.
#[tactic(auto, using(crate::proofs::LayoutLemmas::node_place))]
fn place_of(nodes: &[Node], n: u32) -> Point
    ensures { result ≡ place (routes.node_points nodes.now) n }
{
    match nodes.get(n as usize) {
        Some(node) => point_of(node.place),
        None => Point { x: 0, y: 0 },
    }
}

/// Adds the points that these numbers are.
fn push_points(points: &mut Items<Point>, more: &[Option<Numbers>]) -> Result<(), NoMemory>
    ensures { OnOk result (points.new ≡ points.old ++ map routes.point_of more.now) }
{
    for numbers in more {
        points.push(point_of(*numbers))?;
    }
    Ok(())
}

/// The point that two numbers are; the origin where there are none.
pub(crate) fn point_of(numbers: Option<Numbers>) -> Point
    ensures { result ≡ routes.point_of numbers }
{
    match numbers {
        Some(both) => Point {
            x: value_of(both.x),
            y: value_of(both.y),
        },
        None => Point { x: 0, y: 0 },
    }
}

/// A number in thousandths; 0 for one that is refused.
fn value_of(number: Number) -> i64
    ensures { result ≡ routes.value_of number.value }
{
    match number.value {
        Ok(value) => value,
        Err(_) => 0,
    }
}
