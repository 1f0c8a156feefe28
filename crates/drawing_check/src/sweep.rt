//! A sweep over the pieces, which spares most comparisons of two of them.

ghost use Rattle.std.specs.Prelude.{◌≤◌, ◌<◌, ◌<ℤ◌, ◌↔◌, ℕ, length, IfOk, IsTrue, MatchOption};
ghost use Rattle.drawing_check.specs.Conditions.{CanCheck};
ghost use Rattle.drawing_check.specs.Meetings.{IsFirstMeeting};
ghost use Rattle.drawing_check.specs.inner.Collisions.{HasPointsOfExtent};
ghost use Rattle.drawing_check.specs.inner.Partners.{ArePiecesApart, IsApart};
ghost use Rattle.drawing_check.specs.inner.Seats.{AreApartBelow, AreSeats, CanSweep, IsApartUpTo};

use crate::covered::collision;
use crate::meeting::{Meeting, first_meeting};
use crate::seats::{Seat, seats_of};
use compact_types::{NoMemory, Places, Plan, Point};
use rayon::prelude::*;
use std::alloc::Global;
use std::thread::Threads;

/// How many pieces are worth a thread.
const LEAST_SHARE: usize = 500;

/// The first two pieces that meet, as `first_meeting` has them. Several threads sweep the pieces
/// first; so two pieces are compared only if they lie beside one another along an axis.
pub(crate) fn meeting_by_sweep<R: Threads + Sync>(
    rt: &R,
    alloc: Global,
    plan: &Plan,
    places: &Places,
) -> Result<Option<Meeting>, NoMemory>
    requires { CanCheck plan.now places.now }
    ensures { IfOk result (λ found. MatchOption found
        ((p q : ℕ) → p < q → q < length plan.now.pieces → IsApart plan.now places.now p q)
        (λ m. IsFirstMeeting plan.now places.now m.first m.second m.point)) }
{
    let seats = seats_of(alloc, plan, places)?;
    let apart = count_apart(rt, plan, places, seats.as_slice());
    Ok(first_meeting(plan, places, apart))
}

/// How many pieces in front are apart from all that follow them.
fn count_apart<R: Threads + Sync>(rt: &R, plan: &Plan, places: &Places, seats: &[Seat]) -> usize
    requires { AreSeats places.now.xy plan.now.pieces seats.now }
    ensures { ArePiecesApart plan.now places.now result }
{
    let points = places.xy.as_slice();
    let count = plan.pieces.len();
    (0..seats.len())
        .into_par_iter()
        .with_min_len(LEAST_SHARE)
        .map(
            |place: usize| -> usize
                requires { (place < length seats.now) × CanSweep points.now seats.now }
                ensures { IsApartUpTo points.entry.now seats.entry.now place
                    (length seats.entry.now) result }
            { count_apart_at(points, seats, place, count) },
        )
        .min(rt)
        .unwrap_or(count)
}

/// The same, as far as the seat at this place and those after it show, and no more than `most`.
fn count_apart_at(points: &[Point], seats: &[Seat], place: usize, most: usize) -> usize
    requires place { place < length seats.now }
    requires can_sweep { CanSweep points.now seats.now }
    ensures { IsApartUpTo points.now seats.now place (length seats.now) result }
{
    let seat = seats[place];
    let mut count = most;
    for later in place + 1..seats.len() {
        let other = seats[later];
        if ends_before(seat, other) {
            return count;
        }
        count = lowered(points, seat, other, count);
    }
    count
}

/// Whether the first ends before the second begins, along the axis of the sweep.
fn ends_before(first: Seat, second: Seat) -> bool
    ensures { IsTrue result ↔ (first.span.high <ℤ second.span.low) }
{
    first.span.high < second.span.low
}

/// The count, lowered to the lesser number of the two seats where their pieces meet.
fn lowered(points: &[Point], first: Seat, second: Seat, count: usize) -> usize
    requires from { first.covered.piece.from < length points.now }
    requires to { first.covered.piece.to < length points.now }
    requires first { HasPointsOfExtent points.now first.covered }
    requires second { HasPointsOfExtent points.now second.covered }
    ensures at_most { result ≤ count }
    ensures apart { AreApartBelow points.now result first second }
{
    let lesser = first.number.min(second.number);
    if lesser >= count {
        return count;
    }
    match collision(points, first.covered, second.covered) {
        Some(_) => lesser,
        None => count,
    }
}
