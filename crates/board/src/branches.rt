//! The branches of a search: their choices, how they stand, and which of them wait.

ghost use Rattle.std.specs.Prelude.{◌≡◌, ◌↔◌, ◌+◌, ◌<◌, ◌≤◌, [], ◌∷◌, ◌++◌};
ghost use Rattle.std.specs.Prelude.{IfOk, IsTrue, MatchOption, OnErr, OnOk};
ghost use Rattle.std.specs.Prelude.{vec_len, vec_capacity, ◌^◌};
ghost use Rattle.board.specs.declared.entries.Entry.TheVariants as entries;
ghost use Rattle.board.specs.declared.entries.Settled.TheVariants as outcomes;
ghost use Rattle.board.specs.declared.standings.Standing.TheVariants as stand;
ghost use Rattle.board.specs.Boards.{IsLatestWaiting, NoneWaits};
ghost use Rattle.board.specs.Histories as histories;
ghost use Rattle.board.specs.Histories.{HasNoParent, IsHeldBy, IsKnown, IsOpenedFrom, IsOutcomeOf};
ghost use Rattle.board.specs.Histories.{IsSettled, IsWaiting};
ghost use Rattle.board.specs.Histories.{after, branch_count, four_waiting, open_count_of, opened};
ghost use Rattle.board.specs.inner.Stacks.{HoldWaiting, IsStack};
ghost use Rattle.board.specs.inner.Tables.{IsLeaf};

use crate::chains::Chains;
use crate::entries::Settled;
use crate::standings::Standing;
use compact_types::{Branch, Extension, NoMemory};
use std::alloc::Global;
use std::marker::Model;

/// The choices and the standing of each branch, by its number. Contracts see what stands after a
/// history.
#[derive(Drop)]
pub(crate) struct Branches {
    chains: Chains,
    standings: Vec<Standing>,
    /// Numbers that rise: all branches that wait, of which the last is one, and some that do not.
    waiting: Vec<u64>,
    /// How many branches wait or are held.
    open_count: u64,
}

impl Model for Branches {
    ghost use Rattle.board.specs.Histories.{State};

    ghost Value = { State };

    ghost use Rattle.board.specs.inner.Tables.{AreBranches};

    ghost view = { λ branches. record {
      choices = branches.chains;
      standings = branches.standings.items;
    } };

    ghost invariant = { λ branches. AreBranches branches.chains branches.standings.items
        branches.waiting.items branches.open_count };
}

impl Branches {
    /// Branch 0 alone, which waits and has no choices.
    pub(crate) fn new(alloc: Global) -> Result<Branches, NoMemory>
        ensures { IfOk result (λ branches. branches ≡ opened) }
    {
        let mut standings = Vec::new(alloc);
        standings.push(Standing::Waiting)?;
        let mut waiting = Vec::new(alloc);
        waiting.push(0)?;
        Ok(Branches {
            chains: Chains::new(alloc),
            standings,
            waiting,
            open_count: 1,
        })
    }

    /// How many branches there are.
    pub(crate) fn count(&self) -> u64
        ensures { result ≡ branch_count self.now }
    {
        self.standings.len() as u64
    }

    /// How many branches are open.
    pub(crate) fn open_count(&self) -> u64
        ensures { result ≡ open_count_of self.now }
    {
        self.open_count
    }

    /// How the branch stands; of one that is not there nothing is left to do.
    pub(crate) fn standing_of(&self, id: u64) -> Standing
        ensures { result ≡ histories.standing_of self.now id }
    {
        match self.standings.get(id as usize) {
            None => Standing::Done {
                what: Settled::Closed,
            },
            Some(standing) => *standing,
        }
    }

    /// How the branch was settled; `None` exactly if no branch of this number is settled. Branches
    /// are counted by a u64.
    pub(crate) fn outcome(&self, id: u64) -> Option<Settled>
        ensures outcome { MatchOption result (IsSettled self.now id → ⊥) (IsOutcomeOf self.now id) }
        ensures few { branch_count self.now < 2 ^ 64 }
    {
        if id >= self.count() {
            return None;
        }
        match self.standing_of(id) {
            Standing::Done { what } => Some(what),
            Standing::Waiting | Standing::Held { .. } => None,
        }
    }

    /// The branch from which this one was opened; `None` exactly for branch 0 and for a number that
    /// no branch has.
    pub(crate) fn parent(&self, id: u64) -> Option<u64>
        ensures { MatchOption result (HasNoParent self.now id)
            (λ parent. IsOpenedFrom self.now parent id) }
    {
        if id >= self.count() {
            return None;
        }
        match self.chains.step_up(id) {
            None => None,
            Some(step) => Some(step.parent),
        }
    }

    /// Whether there is such a branch, with these choices.
    pub(crate) fn keeps(&self, branch: &Branch) -> bool
        ensures { IsTrue result ↔ IsKnown self.now branch.now }
    {
        if branch.id >= self.standings.len() as u64 {
            return false;
        }
        self.chains
            .are(branch.id, branch.choices.choices.as_slice())
    }

    /// A copy of the waiting branch with the greatest number; `None` where no branch waits.
    pub(crate) fn latest(&self) -> Result<Option<Branch>, NoMemory>
        ensures { IfOk result (λ found. MatchOption found
            (NoneWaits self.now) (IsLatestWaiting self.now)) }
    {
        let Some(id) = self.waiting.last() else {
            return Ok(None);
        };
        let id = *id;
        let choices = self.chains.copy_of(id)?;
        Ok(Some(Branch {
            id,
            choices: Extension { choices },
        }))
    }

    /// The caller holds the branch, which waits. It takes no memory.
    pub(crate) fn hold(&mut self, who: u32, id: u64)
        requires { IsWaiting self.old id }
        ensures { self.new ≡ after self.old (entries.Claimed who id) }
    {
        self.standings[id as usize] = Standing::Held { who };
        keep_waiting(&mut self.waiting, &self.standings);
    }

    /// The branch, which the caller holds, is settled with an outcome that opens no branch. It
    /// takes no memory.
    pub(crate) fn finish(&mut self, who: u32, id: u64, what: Settled)
        requires held { IsHeldBy self.old id who }
        requires leaf { IsLeaf what }
        ensures { self.new ≡ after self.old (entries.Settled who id what) }
    {
        self.standings[id as usize] = Standing::Done { what };
        self.open_count -= 1;
    }

    /// The branch, which the caller holds, is split at the pair: its four children wait. Without
    /// memory all stays as it was.
    pub(crate) fn split(&mut self, who: u32, id: u64, s: u32, t: u32) -> Result<(), NoMemory>
        requires { IsHeldBy self.old id who }
        ensures ok { OnOk result (self.new ≡ after self.old
            (entries.Settled who id (outcomes.Split (branch_count self.old) s t))) }
        ensures err { OnErr result (self.new ≡ self.old) }
    {
        self.standings.reserve(4)?;
        self.waiting.reserve(4)?;
        self.chains.split(id, s, t)?;
        let first = self.standings.len() as u64;
        push_children(&mut self.standings, &mut self.waiting, first);
        let what = Settled::Split { first, s, t };
        self.standings[id as usize] = Standing::Done { what };
        self.open_count += 3;
        Ok(())
    }
}

/// Takes the branches that do not wait from the end of the list.
fn keep_waiting(waiting: &mut Vec<u64>, standings: &[Standing])
    requires { HoldWaiting standings.now waiting.old.items }
    ensures { IsStack standings.now waiting.new.items }
{
    while let Some(id) = waiting.last() {
        if waits(standings[*id as usize]) {
            return;
        }
        let _gone = waiting.pop();
    }
}

/// Whether a branch that stands so waits.
pub(crate) fn waits(standing: Standing) -> bool
    ensures { IsTrue result ↔ (standing ≡ stand.Waiting) }
{
    match standing {
        Standing::Waiting => true,
        Standing::Held { .. } | Standing::Done { .. } => false,
    }
}

/// Adds the four children of a split, which wait, with the numbers from `first` on.
fn push_children(standings: &mut Vec<Standing>, waiting: &mut Vec<u64>, first: u64)
    requires places { vec_len standings.old + 4 ≤ vec_capacity standings.old }
    requires numbers { vec_len waiting.old + 4 ≤ vec_capacity waiting.old }
    requires small { first + 3 < 2 ^ 64 }
    ensures standings { standings.new.items ≡ standings.old.items ++ four_waiting }
    ensures waiting { waiting.new.items ≡ waiting.old.items
        ++ first ∷ (first + 1) ∷ (first + 2) ∷ (first + 3) ∷ [] }
{
    push_child(standings, waiting, first);
    push_child(standings, waiting, first + 1);
    push_child(standings, waiting, first + 2);
    push_child(standings, waiting, first + 3);
}

/// Adds one branch that waits, with this number, where there is room.
fn push_child(standings: &mut Vec<Standing>, waiting: &mut Vec<u64>, id: u64)
    requires places { vec_len standings.old < vec_capacity standings.old }
    requires numbers { vec_len waiting.old < vec_capacity waiting.old }
    ensures standings { standings.new.items ≡ standings.old.items ++ stand.Waiting ∷ [] }
    ensures waiting { waiting.new.items ≡ waiting.old.items ++ id ∷ [] }
    ensures long { vec_len standings.new ≡ vec_len standings.old + 1 }
    ensures many { vec_len waiting.new ≡ vec_len waiting.old + 1 }
    ensures places { vec_capacity standings.new ≡ vec_capacity standings.old }
    ensures numbers { vec_capacity waiting.new ≡ vec_capacity waiting.old }
{
    standings.push_reserved(Standing::Waiting);
    waiting.push_reserved(id);
}
