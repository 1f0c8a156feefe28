//! The rule of a lane, and what each kind of step tells who makes it.

use crate::views::LaneView;
use atomic_table::{Split, TableRule};
use compact_types::Branch;
use crossbeam_deque::protocol::{Outcome, Protocol};

/// The rule that a lane keeps between any two steps of any threads.
pub(crate) struct LaneRule;

impl Protocol<Branch, LaneView> for LaneRule {
    ghost use Rattle.steal_lanes.specs.Rules.{Keeps};
    ghost use Rattle.steal_lanes.specs.Views.{fresh_view};

    ghost holds = { Keeps };

    ghost first = { fresh_view };

    ghost guest = { fresh_view };
}

/// The owner puts a branch.
pub(crate) struct Puts;

impl Outcome<Branch, LaneView> for Puts {
    ghost use Rattle.steal_lanes.specs.Steps.{IsPut};
    ghost use Rattle.steal_lanes.specs.inner.Batches.{IsOne};

    ghost then = { λ view branches new. IsOne (λ branch. IsPut view branch new) branches };
}

/// The owner, whose seat is the first, takes a branch.
pub(crate) struct Takes;

impl Outcome<Branch, LaneView> for Takes {
    ghost use Rattle.steal_lanes.specs.Steps.{IsHandedOut, WasEmpty};
    ghost use Rattle.steal_lanes.specs.inner.Batches.{IsOne};

    ghost then = { λ view branches new. IsOne (λ branch. IsHandedOut 0 view branch new) branches };

    ghost empty = { WasEmpty 0 };
}

/// A pass, whose seat has some number, steals a branch.
pub(crate) struct Steals;

impl Outcome<Branch, LaneView> for Steals {
    ghost use Rattle.std.specs.Prelude.{ℕ};
    ghost use Rattle.steal_lanes.specs.Steps.{IsHandedOut, WasEmpty};
    ghost use Rattle.steal_lanes.specs.inner.Batches.{IsOne};

    ghost then = { λ view branches new.
        IsOne (λ branch. (seat : ℕ) × IsHandedOut seat view branch new) branches };

    ghost empty = { λ view. (seat : ℕ) × WasEmpty seat view };
}

/// The rule of the table that counts splits, which asks nothing. Its key is the room of the lane.
pub(crate) struct SplitRule;

impl TableRule<(), u64, usize> for SplitRule {
    ghost holds = { λ room state. Unit {0} };

    ghost first = { λ room. 0 };
}

/// A split raises the count of the pass, and the new pass has the raised count.
pub(crate) struct OneMore;

impl Split<u64> for OneMore {
    ghost use Rattle.std.specs.Prelude.{◌+◌};

    ghost left = { λ splits. splits + 1 };

    ghost right = { λ splits. splits + 1 };
}
