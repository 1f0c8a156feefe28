//! Taking branches of a lane from any thread.

ghost use Rattle.std.specs.Prelude.{◌≡◌, ◌<◌, ◌⊎◌, ℕ};
ghost use Rattle.steal_lanes.specs.Answers.{MatchStolen};
ghost use Rattle.steal_lanes.specs.Steps.{IsHandedOut, WasEmpty};

use crate::passes::LanePass;
use crate::rules::{LaneRule, Steals};
use crate::views::LaneView;
use compact_types::Branch;
use crossbeam_deque::{Steal, Stealer};
use std::alloc::Global;
use std::marker::Model;

/// The answer to one try to steal.
#[must_use]
#[derive(Debug, Drop)]
pub enum Stolen {
    /// The branch that was first in the lane.
    Got(Branch),
    /// The lane was empty.
    Empty,
    /// Another thread took a branch first, or the lane was empty.
    Again,
}

/// A handle that takes the first branch of a lane, from any thread.
#[derive(Drop)]
pub struct Thief {
    pub(crate) stealer: Stealer<Branch, Global, LaneView, LaneRule>,
}

impl Model for Thief {
    ghost use Rattle.steal_lanes.specs.States.{DequeId};

    ghost Value = { DequeId };

    ghost use Rattle.std.specs.Prelude.{◌≡◌};
    ghost use Rattle.crossbeam_deque.specs.Handles.{stealer_deque, stealer_flavor};

    ghost view = { λ thief. stealer_deque thief.stealer };

    ghost invariant = { λ thief. stealer_flavor thief.stealer ≡ 0 };
}

impl Thief {
    /// Tries once to take the first branch of the lane, for a pass that belongs to it. `Empty` says
    /// that the lane was empty at a moment of this call. `Again` says that, or that the pass now
    /// knows of more branches that were handed out. Both leave what the pass got as it was. It
    /// takes no memory.
    #[tactic(auto, using(crate::proofs::StepLemmas::thief_steps))]
    pub fn steal(&self, pass: &mut LanePass) -> Stolen
        requires { pass.old.home.deque ≡ self.now }
        ensures home { pass.new.home ≡ pass.old.home }
        ensures splits { pass.new.splits ≡ pass.old.splits }
        ensures stolen { MatchStolen result
            (λ branch. (seat : ℕ) × IsHandedOut seat pass.old.view branch pass.new.view)
            ((pass.new.view ≡ pass.old.view) × ((seat : ℕ) × WasEmpty seat pass.old.view))
            ((pass.new.view ≡ pass.old.view) × ((pass.old.known < pass.new.known)
            ⊎ ((seat : ℕ) × WasEmpty seat pass.old.view))) }
    {
        match self.stealer.steal_as::<Steals>(&mut pass.port) {
            Steal::Success(branch) => Stolen::Got(branch),
            Steal::Empty => Stolen::Empty,
            Steal::Retry => Stolen::Again,
        }
    }
}
