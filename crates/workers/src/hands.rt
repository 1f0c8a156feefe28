//! What a worker holds.

ghost use Rattle.std.specs.Prelude.{◌≡◌};

use compact_types::Items;
use least_word::WordSeat;
use steal_lanes::{Lane, LanePass, Thief};
use ticket_board::Pass;

/// A way into the lane of another worker.
#[derive(Drop)]
pub struct Other {
    pub thief: Thief,
    pub pass: LanePass,
    /// Both lead into one lane.
    ghost of_one_lane: { pass.home.deque ≡ thief },
}

/// What one worker of a search holds: its number for the gate, its pass to the board, its seat at
/// the least word, the lane that it owns, and its ways into the lanes of others.
#[derive(Drop)]
pub struct Hand {
    pub number: u32,
    pub pass: Pass,
    pub seat: WordSeat,
    pub lane: Lane,
    pub others: Items<Other>,
}
