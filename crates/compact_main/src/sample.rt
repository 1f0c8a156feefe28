//! The sample drawing: a spine that goes up, an arm to the east at each of its nodes, and a hook up
//! at the end of every 25th arm; and what is told of it.

ghost use Rattle.std.specs.Prelude.{◌≡◌, ◌<◌, ◌≤◌, length, IfOk};
ghost use Rattle.compact_types.specs.declared.plan.Way.TheVariants as way;
ghost use Rattle.compact_types.specs.Lookups.{origin, no_piece};
ghost use Rattle.drawing_check.specs.Shapes.{IsShapeOf};
ghost use Rattle.compact_main.specs.Samples as samples;
ghost use Rattle.compact_main.specs.Samples.{sample_vertices, sample_place, IsTable, IsSample};
ghost use Rattle.compact_main.specs.Samples.{sample_pieces, sample_piece, sample_way, IsGreatest};

use crate::summary::push_line;
use bars::{Bars, bars_of};
use compact_types::{Axis, Items, NoMemory, Piece, Places, Plan, Point, Shape, Way, coordinate};
use std::alloc::Global;

/// The most nodes of the spine, so that the drawing has at most 510 vertices.
pub(crate) const MOST_SAMPLE: u32 = 250;

/// An arm has a hook if its number is a multiple of this.
const HOOK_SPACING: u32 = 25;

/// The sample drawing with n nodes on its spine: its segments, and its places in grid steps.
pub(crate) fn sample_drawing(number: u32, alloc: Global) -> Result<(Bars, Places), NoMemory>
    requires some { 1 ≤ number }
    requires most { number ≤ MOST_SAMPLE }
    ensures sample { IfOk result (λ made. IsSample number made.0.plan made.1) }
    ensures shape { IfOk result (λ made. IsShapeOf made.0.plan made.1 made.0) }
{
    let (shape, places) = sample_shape(number, alloc)?;
    let bars = bars_of(alloc, &shape)?;
    Ok((bars, places))
}

/// The shape of the sample, and its places in grid steps.
fn sample_shape(number: u32, alloc: Global) -> Result<(Shape, Places), NoMemory>
    requires some { 1 ≤ number }
    requires most { number ≤ MOST_SAMPLE }
    ensures sample { IfOk result (λ made. IsSample number made.0.plan made.1) }
    ensures shape { IfOk result (λ made. IsShapeOf made.0.plan made.1 made.0) }
{
    let pieces = pieces_of(alloc, number)?;
    let ways = ways_of(alloc, number)?;
    let xy = points_of(alloc, number)?;
    let plan = Plan {
        vertices: vertices_of(number),
        pieces,
    };
    Ok((Shape { plan, ways }, Places { xy }))
}

/// How many vertices the drawing has.
fn vertices_of(number: u32) -> u32
    requires { number ≤ MOST_SAMPLE }
    ensures { result ≡ sample_vertices number }
{
    2 * number + (number + HOOK_SPACING - 1) / HOOK_SPACING
}

/// The pieces, in their order.
fn pieces_of(alloc: Global, number: u32) -> Result<Items<Piece>, NoMemory>
    requires some { 1 ≤ number }
    requires most { number ≤ MOST_SAMPLE }
    ensures { IfOk result
        (IsTable no_piece (sample_piece number) (sample_pieces number)) }
{
    let mut pieces = Items::new(alloc);
    for index in 0..vertices_of(number) - 1 {
        pieces.push(piece_of(number, index))?;
    }
    Ok(pieces)
}

/// The piece of a number.
fn piece_of(number: u32, index: u32) -> Piece
    requires some { 1 ≤ number }
    requires most { number ≤ MOST_SAMPLE }
    requires inside { index < sample_pieces number }
    ensures { result ≡ sample_piece number index }
{
    if index < number - 1 {
        Piece {
            from: index,
            to: index + 1,
        }
    } else if index < 2 * number - 1 {
        let i = index - (number - 1);
        Piece {
            from: i,
            to: number + i,
        }
    } else {
        let j = index - (2 * number - 1);
        Piece {
            from: number + HOOK_SPACING * j,
            to: 2 * number + j,
        }
    }
}

/// The ways of the pieces.
fn ways_of(alloc: Global, number: u32) -> Result<Items<Way>, NoMemory>
    requires some { 1 ≤ number }
    requires most { number ≤ MOST_SAMPLE }
    ensures { IfOk result (IsTable way.East (sample_way number) (sample_pieces number)) }
{
    let mut ways = Items::new(alloc);
    for index in 0..vertices_of(number) - 1 {
        ways.push(way_of(number, index))?;
    }
    Ok(ways)
}

/// The way of the piece of a number.
fn way_of(number: u32, index: u32) -> Way
    requires some { 1 ≤ number }
    requires most { number ≤ MOST_SAMPLE }
    ensures { result ≡ sample_way number index }
{
    if index < number - 1 {
        Way::High
    } else if index < 2 * number - 1 {
        Way::East
    } else {
        Way::High
    }
}

/// The places of the vertices, in their order.
fn points_of(alloc: Global, number: u32) -> Result<Items<Point>, NoMemory>
    requires { number ≤ MOST_SAMPLE }
    ensures { IfOk result (IsTable origin (sample_place number) (sample_vertices number)) }
{
    let mut points = Items::new(alloc);
    for vertex in 0..vertices_of(number) {
        points.push(place_of(number, vertex))?;
    }
    Ok(points)
}

/// The place of a vertex.
fn place_of(number: u32, vertex: u32) -> Point
    requires most { number ≤ MOST_SAMPLE }
    requires inside { vertex < sample_vertices number }
    ensures { result ≡ sample_place number vertex }
{
    if vertex < number {
        grid_point(0, 2 * vertex)
    } else if vertex < 2 * number {
        grid_point(1, 2 * (vertex - number))
    } else {
        let j = vertex - 2 * number;
        grid_point(1, 2 * (HOOK_SPACING * j) + 1)
    }
}

/// The point with these coordinates.
fn grid_point(x: u32, y: u32) -> Point
    ensures { result ≡ samples.grid_point x y }
{
    Point {
        x: x.into(),
        y: y.into(),
    }
}

/// The greatest coordinate along the axis of some places, of which there is one at least.
pub(crate) fn greatest_along(axis: Axis, places: &Places) -> i64
    requires { 0 < length places.now.xy }
    ensures is { result ≡ samples.greatest_along axis places.now }
    ensures greatest { IsGreatest axis places.now result }
{
    let points = places.xy.as_slice();
    let mut greatest = coordinate(axis, points[0]);
    for v in 1..points.len() {
        greatest = greatest.max(coordinate(axis, points[v]));
    }
    greatest
}

/// The lines that tell of the sample drawing: its size, and the length, the width and the height of
/// its best drawing, in grid steps.
pub(crate) fn sample_text(
    alloc: Global,
    number: u32,
    plan: &Plan,
    length: i64,
    width: i64,
    height: i64,
) -> Result<Items<u8>, NoMemory>
    ensures { IfOk result (λ text.
        text ≡ samples.sample_text number plan.now length width height) }
{
    let mut text = Items::new(alloc);
    push_line(&mut text, b"sample", number)?;
    push_line(&mut text, b"vertices", plan.vertices)?;
    push_line(&mut text, b"pieces", plan.pieces.len())?;
    push_line(&mut text, b"length", length)?;
    push_line(&mut text, b"width", width)?;
    push_line(&mut text, b"height", height)?;
    text.extend_from_slice(b"proved\n")?;
    Ok(text)
}

#[cfg(test)]
mod tests;
