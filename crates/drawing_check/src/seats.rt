//! The pieces of a plan in the order in which they begin along an axis.

ghost use Rattle.std.specs.Prelude.{◌≡◌, ◌<◌, length, IfOk};
ghost use Rattle.std.specs.List.Sorted.{IsPermutation};
ghost use Rattle.compact_types.specs.Lookups.{EndsAreVertices};
ghost use Rattle.drawing_check.specs.Conditions.{CanCheck};
ghost use Rattle.drawing_check.specs.inner.Seats.{AreSeats, AreSeatsOfPieces, SeatsBeginInOrder};
ghost use Rattle.drawing_check.specs.inner.Seats.{IsPlaced};

use crate::covered::{Covered, cover};
use crate::span::{Interval, span_along};
use compact_types::{Axis, NoMemory, Piece, Places, Plan, Point, coordinate};
use std::alloc::Global;

/// A piece by its number, and how far it reaches along the axis of a sweep.
#[derive(Clone, Copy, Debug)]
pub(crate) struct Seat {
    pub(crate) number: usize,
    pub(crate) span: Interval,
    pub(crate) covered: Covered,
}

/// A seat for each piece, in the order in which they begin along the axis along which the places
/// reach farther: there fewer pieces lie beside one another.
pub(crate) fn seats_of(alloc: Global, plan: &Plan, places: &Places) -> Result<Vec<Seat>, NoMemory>
    requires { CanCheck plan.now places.now }
    ensures { IfOk result (λ seats. AreSeats places.now.xy plan.now.pieces seats.items) }
{
    let points = places.xy.as_slice();
    let pieces = plan.pieces.as_slice();
    let axis = longer_axis(points);
    let mut seats = numbered(alloc, axis, points, pieces)?;
    order_by_begin(seats.as_mut_slice());
    Ok(seats)
}

/// The axis along which the points reach farther. Either axis serves: it only spares comparisons.
fn longer_axis(points: &[Point]) -> Axis {
    if reach(points, Axis::X) < reach(points, Axis::Y) {
        Axis::Y
    } else {
        Axis::X
    }
}

/// How far the points reach along the axis.
fn reach(points: &[Point], axis: Axis) -> i64 {
    let mut low = i64::MAX;
    let mut high = i64::MIN;
    for point in points {
        let z = coordinate(axis, *point);
        low = low.min(z);
        high = high.max(z);
    }
    high.saturating_sub(low)
}

/// A seat for each piece, by its number.
fn numbered(
    alloc: Global,
    axis: Axis,
    points: &[Point],
    pieces: &[Piece],
) -> Result<Vec<Seat>, NoMemory>
    requires { EndsAreVertices (length points.now) pieces.now }
    ensures { IfOk result (λ seats.
        AreSeatsOfPieces axis points.now pieces.now (length pieces.now) seats.items) }
{
    let mut seats = Vec::with_capacity(alloc, pieces.len())?;
    for number in 0..pieces.len() {
        seats.push(seat_of(axis, points, number, pieces[number]))?;
    }
    Ok(seats)
}

/// The seat of a piece, where `points` are the places of the vertices.
fn seat_of(axis: Axis, points: &[Point], number: usize, piece: Piece) -> Seat
    requires from { piece.from < length points.now }
    requires to { piece.to < length points.now }
    ensures number { result.number ≡ number }
    ensures piece { result.covered.piece ≡ piece }
    ensures placed { IsPlaced axis points.now result }
{
    let covered = cover(points, piece);
    Seat {
        number,
        span: span_along(axis, covered.extent),
        covered,
    }
}

/// Orders the seats by where their spans begin.
fn order_by_begin(seats: &mut [Seat])
    ensures permutation { IsPermutation seats.old seats.new }
    ensures len { length seats.new ≡ length seats.old }
    ensures in_order { SeatsBeginInOrder seats.new }
{
    seats.sort_unstable_by_key(|seat| seat.span.low);
}
