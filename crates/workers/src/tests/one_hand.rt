//! The life of one worker, which has the board to itself.

ghost use Rattle.std.specs.Prelude.{◌≡◌, IfOk};
ghost use Rattle.board.specs.Facts.{IsDrawnKey};

use super::examples::{key_of, last_pass};
use super::{claimed, settled};
use crate::several::{first_branch, table_of, word_of};
use crate::{Hand, NoGate, work};
use bars::{Bars, bars_of_points};
use board::{Board, Entry, Settled};
use compact_types::{Items, Key, NoMemory, Places};
use least_word::WordSeat;
use potentials::TotalLength;
use shape_graphs::{Backing, Measure};
use std::alloc::Global;
use std::sync::Wait;
use std::test::Fail;
use steal_lanes::Lane;
use ticket_board::Pass;

/// What a worker left behind: how many branches were open, whether its lane was empty, the least
/// worth, and the board.
#[derive(Drop)]
struct Left<P: Backing> {
    open_count: u64,
    is_lane_empty: bool,
    least: u64,
    board: Board<P>,
}

/// The hand of a worker without others.
fn hand_of(alloc: Global, pass: Pass, seat: WordSeat) -> Result<Hand, NoMemory>
    ensures { IfOk result (λ hand. (hand.pass ≡ pass) × (hand.seat ≡ seat)) }
{
    let (lane, _) = Lane::new(alloc, 3)?;
    Ok(Hand {
        number: 1,
        pass,
        seat,
        lane,
        others: Items::new(alloc),
    })
}

/// What a worker leaves behind that begins with branch 0 of a new board with this incumbent.
fn left_by<M: Measure, R: Wait>(
    rt: &R,
    alloc: Global,
    measure: &M,
    bars: &Bars,
    key: Key,
) -> Result<Option<Left<M::Proof>>, NoMemory>
    requires { IsDrawnKey M.Proof.objective bars.now key }
{
    let (word, seat) = word_of(alloc, bars, &key)?;
    let board = Board::open_with(alloc, bars, key)?;
    let (board, mut passes) = table_of(alloc, board, 1)?;
    let Some(pass) = last_pass(&board, &mut passes) else {
        return Ok(None);
    };
    let hand = hand_of(alloc, pass, seat)?;
    let start = Some(first_branch(alloc));
    let (mut hand, ended) = work(
        rt, alloc, measure, bars, &board, &word, hand, start, &NoGate,
    );
    ended?;
    let is_lane_empty = hand.lane.take().is_none();
    let open_count = board.look(rt, &mut hand.pass);
    let least = word.read(&mut hand.seat);
    let board = board.close(rt, hand.pass);
    Ok(Some(Left {
        open_count,
        is_lane_empty,
        least,
        board,
    }))
}

/// Whether a worker leaves no branch open and its lane empty, the word at this worth, these places
/// as the best, and these entries.
fn leaves<R: Wait>(
    rt: &R,
    alloc: Global,
    points: &[(i32, i32)],
    ends: &[(u32, u32)],
    worth: u64,
    best_points: &[(i32, i32)],
    entries: &[Entry],
) -> Result<bool, NoMemory> {
    let Some((bars, places)) = bars_of_points(alloc, points, ends)? else {
        return Ok(false);
    };
    let key = key_of(&TotalLength, &bars, places);
    let Some(left) = left_by(rt, alloc, &TotalLength, &bars, key)? else {
        return Ok(false);
    };
    let best = Places::at(alloc, best_points)?;
    Ok(
        left.open_count == 0
            && left.is_lane_empty
            && left.least == worth
            && left.board.best().places.xy.as_slice() == best.xy.as_slice()
            && left.board.entries() == entries,
    )
}

/// The spine of the board's table, 45 long. Branch 0 is split at segments 1 and 3. The worker goes
/// on with child 4, side 3, whose least key is a drawing of length 5, and then takes the other
/// children out of its lane in their order: side 0 has a drawing of length 5 too, which comes
/// before, and sides 1 and 2 close a cycle.
#[test]
fn one_worker_goes_on_with_the_fourth_child(rt: HostRuntime) -> Result<(), Fail> {
    let spine = [(0, 0), (0, 10), (20, 0), (20, 5), (10, 10)];
    let ends = [(0, 1), (0, 2), (2, 3), (1, 4)];
    let best = [(0, 0), (0, 1), (2, 0), (2, 1), (1, 1)];
    let split = Settled::Split {
        first: 1,
        s: 1,
        t: 3,
    };
    let entries = [
        claimed(0),
        settled(0, split),
        claimed(4),
        settled(4, Settled::Improved),
        claimed(1),
        settled(1, Settled::Improved),
        claimed(2),
        settled(2, Settled::Closed),
        claimed(3),
        settled(3, Settled::Closed),
    ];
    assert!(rt; leaves(&rt, rt.alloc(), &spine, &ends, 5, &best, &entries)?);
    Ok(())
}
