//! What a search finds on small drawings, worked out by hand.

use crate::search_alone;
use bars::bars_of_points;
use board::{Entry, Settled};
use compact_types::{NoMemory, Places};
use potentials::TotalLength;
use std::alloc::Global;
use std::test::Fail;

mod board_table;
mod examples;
mod one_hand;
mod several;
mod ticket_table;

/// The entry of a claim by the only worker.
fn claimed(id: u64) -> Entry {
    Entry::Claimed { who: 1, id }
}

/// The entry of a settle by the only worker.
fn settled(id: u64, what: Settled) -> Entry {
    Entry::Settled { who: 1, id, what }
}

/// Whether the search of least total length that begins with the drawing of these points and pieces
/// finds a key of this worth with these places, and makes these entries.
fn finds(
    alloc: Global,
    points: &[(i32, i32)],
    ends: &[(u32, u32)],
    worth: i64,
    best_points: &[(i32, i32)],
    entries: &[Entry],
) -> Result<bool, NoMemory> {
    let Some(drawn) = bars_of_points(alloc, points, ends)? else {
        return Ok(false);
    };
    let best = search_alone(alloc, &TotalLength, &drawn.0, &drawn.1)?;
    let places = Places::at(alloc, best_points)?;
    Ok(
        best.key.worth == worth
            && best.key.places.xy.as_slice() == places.xy.as_slice()
            && best.board.entries() == entries,
    )
}

/// A spine with an arm at each end, of which the lower one turns up. The least key without choices
/// has the upper arm, segment 1, end in the turn, segment 3, so it is split at that pair. With the
/// arm west of the turn the length is 5, and that is the first incumbent, whose extension has this
/// very choice. With the arm above the turn it is 5 too, and the key comes later. The other two
/// sides close a cycle.
#[test]
fn splits_where_the_least_places_are_no_drawing(rt: HostRuntime) -> Result<(), Fail> {
    let spine = [(0, 0), (0, 10), (20, 0), (20, 5), (10, 10)];
    let ends = [(0, 1), (0, 2), (2, 3), (1, 4)];
    let best = [(0, 0), (0, 1), (2, 0), (2, 1), (1, 1)];
    let split = Settled::Split {
        first: 1,
        s: 1,
        t: 3,
    };
    let entries = [
        claimed(0),
        settled(0, split),
        claimed(4),
        settled(4, Settled::Closed),
        claimed(3),
        settled(3, Settled::Closed),
        claimed(2),
        settled(2, Settled::Closed),
        claimed(1),
        settled(1, Settled::Closed),
    ];
    assert!(rt; finds(rt.alloc(), &spine, &ends, 5, &best, &entries)?);
    Ok(())
}

/// A node alone has one drawing from zero, which is the first incumbent: it is solved once more,
/// and closed.
#[test]
fn one_node_stands_at_zero(rt: HostRuntime) -> Result<(), Fail> {
    let entries = [claimed(0), settled(0, Settled::Closed)];
    assert!(rt; finds(rt.alloc(), &[(7, 3)], &[], 0, &[(0, 0)], &entries)?);
    Ok(())
}
