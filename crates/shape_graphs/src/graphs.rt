//! The constraint graphs of a shape and a list of choices.

ghost use Rattle.std.specs.Prelude.{◌≡◌, ◌<◌, ◌++◌, pos, length};
ghost use Rattle.std.specs.Prelude.{IfOk, OnOk, option_to_list};
ghost use Rattle.compact_types.specs.declared.places.Axis.TheVariants as axis;
ghost use Rattle.compact_types.specs.Lookups.{axis_of};
ghost use Rattle.bars.specs.Lines as lines;
ghost use Rattle.bars.specs.Sides.{side_axis};
ghost use Rattle.bars.specs.Solutions.{Fit, IsChoice, IsSound};
ghost use Rattle.shape_graphs.specs.Graphs as graphs;
ghost use Rattle.shape_graphs.specs.Graphs.{IsGraphOf, arcs_of, piece_arcs};
ghost use Rattle.shape_graphs.specs.Graphs.{piece_arc_along, choice_arc_along};

use crate::graph::{Arc, DiffGraph};
use bars::Bars;
use compact_types::{Axis, Choice, Extension, Items, NoMemory, Way, high_end, low_end};
use std::alloc::Global;

/// The column graph of the choices, and then their row graph: first an arc for each piece along the
/// axis, in the order of the pieces, then one for each choice whose side keeps apart along it.
pub fn graphs_of(
    alloc: Global,
    bars: &Bars,
    extension: &Extension,
) -> Result<(DiffGraph, DiffGraph), NoMemory>
    requires { Fit bars.now extension.now.choices }
    ensures columns { IfOk result (λ graphs.
        IsGraphOf axis.X bars.now extension.now.choices graphs.0) }
    ensures rows { IfOk result (λ graphs.
        IsGraphOf axis.Y bars.now extension.now.choices graphs.1) }
{
    let pieces = bars.shape().plan.pieces.len();
    let choices = extension.choices.as_slice();
    let room = pieces.saturating_add(choices.len());
    let mut columns = Items::from_vec(Vec::with_capacity(alloc, room)?);
    let mut rows = Items::from_vec(Vec::with_capacity(alloc, room)?);
    push_pieces(&mut columns, &mut rows, bars)?;
    push_choices(&mut columns, &mut rows, bars, choices)?;
    let columns = graph_along(bars, choices, Axis::X, columns);
    let rows = graph_along(bars, choices, Axis::Y, rows);
    Ok((columns, rows))
}

/// The graph of an axis, with these arcs.
fn graph_along(bars: &Bars, choices: &[Choice], axis: Axis, arcs: Items<Arc>) -> DiffGraph
    requires fit { Fit bars.now choices.now }
    requires sound { IsSound bars.now }
    requires arcs { arcs ≡ arcs_of axis bars.now choices.now }
    ensures { IsGraphOf axis bars.now choices.now result }
{
    let _choices = choices;
    let nodes = bars.node_count(axis);
    DiffGraph { nodes, arcs }
}

/// Adds the arcs of the pieces, each to those of the axis along which it goes.
fn push_pieces(columns: &mut Items<Arc>, rows: &mut Items<Arc>, bars: &Bars) -> Result<(), NoMemory>
    ensures columns { OnOk result (columns.new ≡ columns.old ++ piece_arcs axis.X bars.now) }
    ensures rows { OnOk result (rows.new ≡ rows.old ++ piece_arcs axis.Y bars.now) }
{
    let count = bars.shape().plan.pieces.len();
    for i in 0..count {
        push_some(columns, piece_arc(bars, Axis::X, i))?;
        push_some(rows, piece_arc(bars, Axis::Y, i))?;
    }
    Ok(())
}

/// Adds the arcs of the choices, each to those of the axis along which its side keeps apart.
fn push_choices(
    columns: &mut Items<Arc>,
    rows: &mut Items<Arc>,
    bars: &Bars,
    choices: &[Choice],
) -> Result<(), NoMemory>
    requires { Fit bars.now choices.now }
    ensures columns { OnOk result
        (columns.new ≡ columns.old ++ graphs.choice_arcs axis.X bars.now choices.now) }
    ensures rows { OnOk result
        (rows.new ≡ rows.old ++ graphs.choice_arcs axis.Y bars.now choices.now) }
{
    for i in 0..choices.len() {
        push_some(columns, choice_arc(bars, Axis::X, choices[i]))?;
        push_some(rows, choice_arc(bars, Axis::Y, choices[i]))?;
    }
    Ok(())
}

/// Adds the arc, where there is one.
fn push_some(arcs: &mut Items<Arc>, arc: Option<Arc>) -> Result<(), NoMemory>
    ensures { OnOk result (arcs.new ≡ arcs.old ++ option_to_list arc) }
{
    if let Some(arc) = arc {
        arcs.push(arc)?;
    }
    Ok(())
}

/// The arc of a piece, where it goes along the axis.
fn piece_arc(bars: &Bars, axis: Axis, i: usize) -> Option<Arc>
    requires { i < length bars.now.plan.pieces }
    ensures { result ≡ piece_arc_along axis bars.now i }
{
    let shape = bars.shape();
    let piece = shape.plan.pieces.as_slice()[i];
    let way = shape.ways.as_slice()[i];
    if !is_axis(axis_of_way(way), axis) {
        return None;
    }
    Some(Arc {
        from: bars.node_of(axis, low_end(way, piece)),
        to: bars.node_of(axis, high_end(way, piece)),
        least: 1,
        pull: 1,
    })
}

/// The arc of a choice, where its side keeps apart along the axis.
fn choice_arc(bars: &Bars, axis: Axis, choice: Choice) -> Option<Arc>
    requires { IsChoice bars.now choice }
    ensures { result ≡ choice_arc_along axis bars.now choice }
{
    if is_axis(axis_of_side(choice.side), axis) {
        Some(side_arc(bars, choice))
    } else {
        None
    }
}

/// The arc of a choice, in the graph of the axis along which its side keeps apart: from the last
/// node of the segment that comes first to the first node of the other (Klau and Mutzel).
pub fn side_arc(bars: &Bars, choice: Choice) -> Arc
    requires { IsChoice bars.now choice }
    ensures { result ≡ graphs.side_arc bars.now choice.s choice.t choice.side }
{
    let (s, t) = (choice.s, choice.t);
    match choice.side {
        0 => apart(bars.right(s), bars.left(t)),
        1 => apart(bars.right(t), bars.left(s)),
        2 => apart(bars.high(s), bars.low(t)),
        _ => apart(bars.high(t), bars.low(s)),
    }
}

/// An arc of a choice: its end stands a step behind its beginning, so that the segments share no
/// point, and its length does not count.
fn apart(from: u32, to: u32) -> Arc
    ensures { result ≡ record { from = from; to = to; least = pos 1; pull = pos 0 } }
{
    let least = 1;
    Arc {
        from,
        to,
        least,
        pull: 0,
    }
}

/// The axis along which a piece with this way goes.
fn axis_of_way(way: Way) -> Axis
    ensures { result ≡ axis_of way }
{
    match way {
        Way::East | Way::West => Axis::X,
        Way::High | Way::Low => Axis::Y,
    }
}

/// The axis along which a side keeps two segments apart: x for the sides 0 and 1, else y.
pub fn axis_of_side(side: u8) -> Axis
    ensures { result ≡ side_axis side }
{
    match side {
        0 => Axis::X,
        1 => Axis::X,
        _ => Axis::Y,
    }
}

/// Whether the two are one axis.
fn is_axis(a: Axis, b: Axis) -> bool
    ensures { result ≡ lines.is_axis a b }
{
    match a {
        Axis::X => matches!(b, Axis::X),
        Axis::Y => matches!(b, Axis::Y),
    }
}
