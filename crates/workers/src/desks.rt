//! Where a worker sits before it works.

ghost use Rattle.std.specs.Prelude.{◌≡◌};

use crate::hands::Hand;
use steal_lanes::LanePass;

/// The hand of a worker before it sits down to work, with a pass to its lane from which those of
/// the other workers are split.
#[derive(Drop)]
pub(crate) struct Desk {
    pub(crate) hand: Hand,
    pub(crate) pass: LanePass,
    ghost of_its_lane: { pass.home ≡ hand.lane.home },
}
