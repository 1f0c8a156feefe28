//! The reading of one graph.

ghost use Rattle.std.specs.Prelude.{◌≡◌, ◌<◌, ◌≤◌, ◌^◌, length, IfOk};
ghost use Rattle.compact_types.specs.Lookups.{EndsAreVertices};
ghost use Rattle.compact_types.specs.Refusals.{IfFault};
ghost use Rattle.drawing_read.specs.Written.{graph_of};
ghost use Rattle.drawing_read.specs.Faults.{graph_fault};
ghost use Rattle.drawing_read.specs.Readings.{IsGraphReading};
ghost use Rattle.drawing_read.specs.inner.Legible.{most_pairs, AreLegible};

use crate::fault::DrawFault;
use crate::faults::first_fault;
use crate::ids::ids_of;
use crate::layout::{Layout, layout_of};
use crate::reading::{Reading, Spot};
use crate::spots::graph_spots;
use crate::written::written_graph;
use compact_types::{Items, Places, Plan, Refusal};
use gml_text::Pair;
use std::alloc::Global;

/// The reading of the graph at this place, or its first fault.
pub(crate) fn graph_reading(
    alloc: Global,
    at: usize,
    pairs: &[Pair],
) -> Result<Reading, Refusal<DrawFault>>
    requires place { at ≤ most_pairs }
    requires pairs { AreLegible pairs.now }
    ensures reading { IfOk result (λ reading. IsGraphReading at pairs.now reading) }
    ensures fault { IfFault result (λ fault. graph_fault (graph_of pairs.now) ≡ Some fault) }
{
    let graph = written_graph(alloc, pairs)?;
    let ids = ids_of(alloc, graph.nodes.as_slice())?;
    let layout = layout_of(alloc, &ids.first, &graph)?;
    if let Some(fault) = first_fault(&graph, &ids, layout.points.len(), layout.pieces.len()) {
        return Err(Refusal::Fault(fault));
    }
    let spots = graph_spots(alloc, at, layout.spans.as_slice(), pairs)?;
    Ok(reading_of(layout, spots))
}

/// The reading that these vertices, pieces and spots make.
fn reading_of(layout: Layout, spots: Items<Spot>) -> Reading
    requires few { length layout.points < 2 ^ 32 }
    requires ends { EndsAreVertices (length layout.points) layout.pieces }
    ensures vertices { result.plan.vertices ≡ length layout.points }
    ensures pieces { result.plan.pieces ≡ layout.pieces }
    ensures places { result.places.xy ≡ layout.points }
    ensures spots { result.spots ≡ spots }
{
    let vertices = layout.points.len() as u32;
    let plan = Plan {
        vertices,
        pieces: layout.pieces,
    };
    let places = Places { xy: layout.points };
    Reading {
        plan,
        places,
        spots,
    }
}
