//! Where the coordinates of nodes and points stand, in document order.
#![tactic(auto, using(crate::proofs::LegibleLemmas::few_pairs))]

ghost use Rattle.std.specs.Prelude.{◌≡◌, ℕ, List, ◌+◌, ◌<◌, ◌≤◌, ◌^◌, ◌∷◌, []};
ghost use Rattle.std.specs.Prelude.{◌++◌, IfOk, OnOk, All, codes};
ghost use Rattle.std.specs.Option.{option_map_or};
ghost use Rattle.drawing_read.specs.Lookups as lookups;
ghost use Rattle.drawing_read.specs.Spots as spots;
ghost use Rattle.drawing_read.specs.inner.Legible.{most_pairs, IsLegiblePair, AreLegible};

use crate::lookups::{first_list, has_key, list_of, list_under, place_under};
use crate::reading::Spot;
use crate::spans::{EdgeSpan, point_vertex, span_at};
use compact_types::{Axis, Items, NoMemory};
use gml_text::Pair;
use std::alloc::Global;

/// The spots of the graph at this place, in document order.
pub(crate) fn graph_spots(
    alloc: Global,
    at: usize,
    edges: &[EdgeSpan],
    pairs: &[Pair],
) -> Result<Items<Spot>, NoMemory>
    requires place { at ≤ most_pairs }
    requires spans { All (λ span. span.first + span.bends < 2 ^ 32) edges.now }
    requires pairs { AreLegible pairs.now }
    ensures { IfOk result
        (λ list. list ≡ spots.graph_spots (at ∷ []) edges.now 0 0 0 pairs.now) }
{
    let mut walk = Walk {
        path: Items::new(alloc),
        spots: Items::new(alloc),
    };
    walk.enter(at)?;
    walk.graph(edges, pairs)?;
    Ok(walk.spots)
}

/// A walk through the lists of a graph.
#[derive(Drop)]
struct Walk {
    /// The places that lead to the list in which the walk is: a stack.
    path: Items<u32>,
    /// The spots that were passed.
    spots: Items<Spot>,
}

impl Walk {
    /// Goes into the list at this place.
    fn enter(&mut self, at: usize) -> Result<(), NoMemory>
        requires { at ≤ most_pairs }
        ensures path { OnOk result (self.new.path ≡ self.old.path ++ at ∷ []) }
        ensures spots { OnOk result (self.new.spots ≡ self.old.spots) }
    {
        self.path.push(at as u32)
    }

    /// Goes back to the list around it.
    fn leave(&mut self)
        ensures path { (path : List ℕ) (at : ℕ) →
            self.old.path ≡ path ++ at ∷ [] → self.new.path ≡ path }
        ensures spots { self.new.spots ≡ self.old.spots }
    {
        self.path.pop();
    }

    /// Passes the pairs of a graph.
    fn graph(&mut self, edges: &[EdgeSpan], pairs: &[Pair]) -> Result<(), NoMemory>
        requires spans { All (λ span. span.first + span.bends < 2 ^ 32) edges.now }
        requires pairs { AreLegible pairs.now }
        ensures { OnOk result (self.new.spots
            ≡ self.old.spots ++ spots.graph_spots self.old.path edges.now 0 0 0 pairs.now) }
    {
        let mut n: u32 = 0;
        let mut e: u32 = 0;
        for (at, pair) in pairs.iter().enumerate() {
            self.node(n, at, pair)?;
            self.edge(span_at(edges, e), at, pair)?;
            n = counted(n, b"node", pair);
            e = counted(e, b"edge", pair);
        }
        Ok(())
    }

    /// Passes a pair that is node n, or no node.
    fn node(&mut self, n: u32, at: usize, pair: &Pair) -> Result<(), NoMemory>
        requires place { at ≤ most_pairs }
        requires pair { IsLegiblePair pair.now }
        ensures path { OnOk result (self.new.path ≡ self.old.path) }
        ensures spots { OnOk result (self.new.spots ≡ self.old.spots
            ++ option_map_or (λ list. spots.node_spots (self.old.path ++ at ∷ []) n list)
            (lookups.list_under (codes "node") pair.now) []) }
    {
        let Some(list) = list_under(b"node", pair) else {
            return Ok(());
        };
        self.enter(at)?;
        self.graphics_of_node(n, list.as_slice())?;
        self.leave();
        Ok(())
    }

    /// Passes the graphics of a node.
    fn graphics_of_node(&mut self, n: u32, pairs: &[Pair]) -> Result<(), NoMemory>
        requires { AreLegible pairs.now }
        ensures path { OnOk result (self.new.path ≡ self.old.path) }
        ensures spots { OnOk result
            (self.new.spots ≡ self.old.spots ++ spots.node_spots self.old.path n pairs.now) }
    {
        let Some(graphics) = first_list(b"graphics", pairs) else {
            return Ok(());
        };
        self.enter(graphics.place)?;
        self.coordinates(n, graphics.pairs)?;
        self.leave();
        Ok(())
    }

    /// Passes a pair that is the edge with this span, or no edge.
    fn edge(&mut self, span: EdgeSpan, at: usize, pair: &Pair) -> Result<(), NoMemory>
        requires place { at ≤ most_pairs }
        requires span { span.first + span.bends < 2 ^ 32 }
        requires pair { IsLegiblePair pair.now }
        ensures path { OnOk result (self.new.path ≡ self.old.path) }
        ensures spots { OnOk result (self.new.spots ≡ self.old.spots
            ++ option_map_or (λ list. spots.edge_spots (self.old.path ++ at ∷ []) span list)
            (lookups.list_under (codes "edge") pair.now) []) }
    {
        let Some(list) = list_under(b"edge", pair) else {
            return Ok(());
        };
        self.enter(at)?;
        self.graphics_of_edge(span, list.as_slice())?;
        self.leave();
        Ok(())
    }

    /// Passes the graphics of an edge.
    fn graphics_of_edge(&mut self, span: EdgeSpan, pairs: &[Pair]) -> Result<(), NoMemory>
        requires span { span.first + span.bends < 2 ^ 32 }
        requires pairs { AreLegible pairs.now }
        ensures path { OnOk result (self.new.path ≡ self.old.path) }
        ensures spots { OnOk result
            (self.new.spots ≡ self.old.spots ++ spots.edge_spots self.old.path span pairs.now) }
    {
        let Some(graphics) = first_list(b"graphics", pairs) else {
            return Ok(());
        };
        self.enter(graphics.place)?;
        self.line(span, graphics.pairs)?;
        self.leave();
        Ok(())
    }

    /// Passes the line in the graphics of an edge.
    fn line(&mut self, span: EdgeSpan, pairs: &[Pair]) -> Result<(), NoMemory>
        requires span { span.first + span.bends < 2 ^ 32 }
        requires pairs { AreLegible pairs.now }
        ensures path { OnOk result (self.new.path ≡ self.old.path) }
        ensures spots { OnOk result (self.new.spots ≡ self.old.spots
            ++ spots.line_spots self.old.path span pairs.now) }
    {
        let Some(line) = first_list(b"Line", pairs) else {
            return Ok(());
        };
        self.enter(line.place)?;
        self.points(span, line.pairs)?;
        self.leave();
        Ok(())
    }

    /// Passes the points of a line.
    fn points(&mut self, span: EdgeSpan, pairs: &[Pair]) -> Result<(), NoMemory>
        requires span { span.first + span.bends < 2 ^ 32 }
        requires pairs { AreLegible pairs.now }
        ensures path { OnOk result (self.new.path ≡ self.old.path) }
        ensures spots { OnOk result (self.new.spots
            ≡ self.old.spots ++ spots.point_spots self.old.path span 0 0 pairs.now) }
    {
        let mut p: u32 = 0;
        for (at, pair) in pairs.iter().enumerate() {
            if has_key(b"point", pair) {
                self.point(point_vertex(span, p), at, pair)?;
                p += 1;
            }
        }
        Ok(())
    }

    /// Passes a point of a line, whose place is that of a vertex.
    fn point(&mut self, vertex: u32, at: usize, pair: &Pair) -> Result<(), NoMemory>
        requires place { at ≤ most_pairs }
        requires pair { IsLegiblePair pair.now }
        ensures path { OnOk result (self.new.path ≡ self.old.path) }
        ensures spots { OnOk result (self.new.spots ≡ self.old.spots
            ++ option_map_or (λ list. spots.coordinate_spots (self.old.path ++ at ∷ []) vertex list)
            (lookups.list_in pair.now.value) []) }
    {
        let Some(list) = list_of(pair) else {
            return Ok(());
        };
        self.enter(at)?;
        self.coordinates(vertex, list.as_slice())?;
        self.leave();
        Ok(())
    }

    /// Passes the x and the y of a list that has both.
    fn coordinates(&mut self, vertex: u32, pairs: &[Pair]) -> Result<(), NoMemory>
        requires { AreLegible pairs.now }
        ensures path { OnOk result (self.new.path ≡ self.old.path) }
        ensures spots { OnOk result (self.new.spots
            ≡ self.old.spots ++ spots.coordinate_spots self.old.path vertex pairs.now) }
    {
        let Some(x) = place_under(b"x", pairs) else {
            return Ok(());
        };
        let Some(y) = place_under(b"y", pairs) else {
            return Ok(());
        };
        if x < y {
            self.pass(vertex, Axis::X, x)?;
            self.pass(vertex, Axis::Y, y)
        } else {
            self.pass(vertex, Axis::Y, y)?;
            self.pass(vertex, Axis::X, x)
        }
    }

    /// Adds the spot at this place.
    fn pass(&mut self, vertex: u32, axis: Axis, at: usize) -> Result<(), NoMemory>
        requires { at ≤ most_pairs }
        ensures path { OnOk result (self.new.path ≡ self.old.path) }
        ensures spots { OnOk result (self.new.spots
            ≡ self.old.spots ++ spots.spot self.old.path vertex axis at ∷ []) }
    {
        let mut path = self.path.copy()?;
        path.push(at as u32)?;
        self.spots.push(Spot { path, vertex, axis })
    }
}

/// One more than `n`, where the pair has this key and a list.
fn counted(n: u32, key: &[u8], pair: &Pair) -> u32
    requires { n ≤ most_pairs }
    ensures { result ≡ spots.counted n (lookups.list_under key.now pair.now) }
{
    if list_under(key, pair).is_some() {
        n + 1
    } else {
        n
    }
}
