//! The first two pieces that meet where they may not.

ghost use Rattle.std.specs.Prelude.{◌≡◌, ℕ, ◌<◌, length, MatchOption};
ghost use Rattle.drawing_check.specs.Conditions.{CanCheck};
ghost use Rattle.drawing_check.specs.Meetings.{IsFirstMeeting};
ghost use Rattle.drawing_check.specs.inner.Partners.{ArePiecesApart, IsApart, IsFirstPartner};
ghost use Rattle.drawing_check.specs.declared.fault.ShapeFault.TheVariants as shape_fault;

use crate::covered::{collision, cover};
use crate::fault::ShapeFault;
use compact_types::{Places, Plan, Point};

/// Two pieces, the first of the lesser number, and a point where they meet.
#[derive(Clone, Copy, Debug)]
pub(crate) struct Meeting {
    pub(crate) first: u32,
    pub(crate) second: u32,
    pub(crate) point: Point,
}

impl From<Meeting> for ShapeFault {
    ghost from_gives = { λ meeting fault.
        fault ≡ shape_fault.Meeting meeting.first meeting.second meeting.point.x meeting.point.y };

    fn from(meeting: Meeting) -> ShapeFault {
        ShapeFault::Meeting {
            p: meeting.first,
            q: meeting.second,
            x: meeting.point.x,
            y: meeting.point.y,
        }
    }
}

/// The first two pieces, by the number of the first and then of the second, that share a point
/// which they may not share, and the least such point, by x and then y. It looks from piece `from`
/// on: each one before is known to be apart from all that follow it.
#[tactic(auto, using(crate::proofs::MeetingLemmas::first_of_meetings))]
pub(crate) fn first_meeting(plan: &Plan, places: &Places, from: usize) -> Option<Meeting>
    requires can_check { CanCheck plan.now places.now }
    requires apart { ArePiecesApart plan.now places.now from }
    ensures { MatchOption result
        ((p q : ℕ) → p < q → q < length plan.now.pieces → IsApart plan.now places.now p q)
        (λ m. IsFirstMeeting plan.now places.now m.first m.second m.point) }
{
    for first in from..plan.pieces.len() {
        if let Some(meeting) = first_partner(plan, places, first) {
            return Some(meeting);
        }
    }
    None
}

/// The first piece after `first` that meets it.
fn first_partner(plan: &Plan, places: &Places, first: usize) -> Option<Meeting>
    requires can_check { CanCheck plan.now places.now }
    requires first { first < length plan.now.pieces }
    ensures { MatchOption result
        ((q : ℕ) → first < q → q < length plan.now.pieces → IsApart plan.now places.now first q)
        (IsFirstPartner plan.now places.now first) }
{
    let pieces = plan.pieces.as_slice();
    let points = places.xy.as_slice();
    let covered = cover(points, pieces[first]);
    for second in first + 1..pieces.len() {
        let other = cover(points, pieces[second]);
        if let Some(point) = collision(points, covered, other) {
            return Some(Meeting {
                first: first as u32,
                second: second as u32,
                point,
            });
        }
    }
    None
}
