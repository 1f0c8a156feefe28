//! A lane as its owner uses it.

ghost use Rattle.std.specs.Prelude.{◌≡◌, ◌+◌, ◌≤◌, length, IfOk, OnOk, MatchOption, MatchResult};
ghost use Rattle.steal_lanes.specs.Views.{fresh_view, with_branch};
ghost use Rattle.steal_lanes.specs.Steps.{IsHandedOut, IsPut, WasEmpty};

use crate::passes::LanePass;
use crate::rules::{LaneRule, OneMore, Puts, SplitRule, Takes};
use crate::thieves::Thief;
use crate::views::LaneView;
use atomic_table::Table;
use compact_types::{Branch, NoMemory};
use crossbeam_deque::{Stealer, Worker};
use std::alloc::Global;
use std::marker::Model;

/// A first in, first out deque of branches, with what its owner put into it and got from it.
#[derive(Drop)]
pub struct Lane {
    worker: Worker<Branch, Global, LaneView, LaneRule>,
    /// Gives passes and thieves, which a worker behind a `&` can not.
    stealer: Stealer<Branch, Global, LaneView, LaneRule>,
    /// Counts the splits of the passes. Its key is the room of the lane, for contracts alone.
    counts: Table<(), u64, usize, SplitRule, Global>,
}

impl Model for Lane {
    ghost use Rattle.steal_lanes.specs.States.{LaneState};

    ghost Value = { LaneState };

    ghost use Rattle.std.specs.Prelude.{◌≡◌, ◌<◌, ◌≤◌, length};
    ghost use Rattle.crossbeam_deque.specs.Handles.{stealer_deque, stealer_flavor};
    ghost use Rattle.crossbeam_deque.specs.Handles.{worker_capacity, worker_deque, worker_flavor};
    ghost use Rattle.crossbeam_deque.specs.Handles.{worker_index, worker_port, worker_view};

    ghost view = { λ lane. record {
      home = record { deque = worker_deque lane.worker; counts = lane.counts.shared.table_id };
      room = lane.counts.shared.key;
      view = worker_view lane.worker;
    } };

    ghost invariant = { λ lane.
        (worker_flavor lane.worker ≡ 0)
        × (worker_port lane.worker ≡ 0)
        × (worker_index lane.worker ≤ length (worker_view lane.worker).put)
        × (lane.counts.shared.key ≤ worker_capacity lane.worker)
        × (stealer_deque lane.stealer ≡ worker_deque lane.worker)
        × (stealer_flavor lane.stealer ≡ 0)
        × (0 < lane.counts.shared.table_id.words) };
}

#[tactic(auto, using(crate::proofs::StepLemmas::owner_steps))]
impl Lane {
    /// An empty lane whose first `room` puts are never refused, and a first pass to it. It keeps
    /// the allocator.
    pub fn new(alloc: Global, room: usize) -> Result<(Lane, LanePass), NoMemory>
        ensures room { IfOk result (λ made. made.0.room ≡ room) }
        ensures empty { IfOk result (λ made. made.0.view ≡ fresh_view) }
        ensures home { IfOk result (λ made. made.1.home ≡ made.0.home) }
        ensures pass { IfOk result (λ made. (made.1.view ≡ fresh_view) × (made.1.splits ≡ 0)) }
    {
        let worker = Worker::fifo_as(alloc, room)?;
        let stealer = worker.stealer()?;
        let (counts, count) = Table::of_words(alloc, &[0], &room)?;
        let port = stealer.pass();
        let lane = Lane {
            worker,
            stealer,
            counts,
        };
        Ok((lane, LanePass { port, count }))
    }

    /// A handle by which any thread may steal from this lane.
    pub fn thief(&self) -> Result<Thief, NoMemory>
        ensures { IfOk result (λ thief. thief ≡ self.now.home.deque) }
    {
        let stealer = self.stealer.clone()?;
        Ok(Thief { stealer })
    }

    /// A new pass to this lane, which got nothing yet. Both passes have the count of splits raised
    /// by one. It takes no memory.
    pub fn split(&self, pass: &mut LanePass) -> LanePass
        requires { pass.old.home ≡ self.now.home }
        ensures raised { pass.new ≡ record pass.old { splits = pass.old.splits + 1 } }
        ensures home { result.home ≡ self.now.home }
        ensures new { (result.view ≡ fresh_view) × (result.splits ≡ pass.old.splits + 1) }
    {
        let count = self.counts.shared.split_seat::<OneMore>(&mut pass.count);
        let port = self.stealer.pass();
        LanePass { port, count }
    }

    /// Adds the branch at the back. A refusal, which counts as want of memory, hands it back and
    /// leaves the lane as it was; it never comes for the first `room` puts.
    pub fn put(&mut self, branch: Branch) -> Result<(), Branch>
        ensures put { MatchResult result
            (λ _. self.new ≡ record self.old { view = with_branch self.old.view branch })
            (λ refused. (refused ≡ branch) × (self.new ≡ self.old)
            × (self.old.room ≤ length self.old.view.put)) }
        ensures step { OnOk result (IsPut self.old.view branch self.new.view) }
    {
        self.worker.push_as::<Puts>(branch)
    }

    /// Takes the first branch. `None` says that the lane was empty at a moment of this call, and
    /// leaves the lane as it was. It takes no memory.
    pub fn take(&mut self) -> Option<Branch>
        ensures home { self.new.home ≡ self.old.home }
        ensures room { self.new.room ≡ self.old.room }
        ensures taken { MatchOption result
            ((self.new ≡ self.old) × WasEmpty 0 self.old.view)
            (λ branch. IsHandedOut 0 self.old.view branch self.new.view) }
    {
        self.worker.pop_as::<Takes>()
    }
}
