//! The choices of each branch, kept as a parent and a pair for the four children of a split.

ghost use Rattle.std.specs.Prelude.{◌≡◌, ◌↔◌, ◌-◌, ◌/◌, ◌%◌, ◌<◌, [], ◌∷◌, ◌++◌, length};
ghost use Rattle.std.specs.Prelude.{IfOk, IsTrue, MatchOption, OnErr, OnOk};
ghost use Rattle.board.specs.Histories.{children_of};
ghost use Rattle.board.specs.inner.Chains.{IsStepUp, chain_at};

use compact_types::{Choice, Items, NoMemory};
use std::alloc::Global;
use std::marker::Model;

/// A split: branch `parent` was split at the pair `s` and `t` into four children. The children of
/// fork k have the numbers from 4k + 1 on, in the order of their sides.
#[derive(Clone, Copy, Debug, PartialEq, Eq)]
pub(crate) struct Fork {
    pub parent: u64,
    pub s: u32,
    pub t: u32,
}

/// The last choice of a branch, and the branch whose choices stand before it.
#[derive(Clone, Copy, Debug, PartialEq, Eq)]
pub(crate) struct StepUp {
    pub parent: u64,
    pub choice: Choice,
}

/// The choices of each branch, by its number. Four children keep 16 bytes.
#[derive(Drop)]
pub(crate) struct Chains {
    forks: Vec<Fork>,
}

impl Model for Chains {
    ghost use Rattle.std.specs.Prelude.{List};
    ghost use Rattle.compact_types.specs.declared.search.Choice.{Choice};

    ghost Value = { List (List Choice) };

    ghost use Rattle.board.specs.inner.Chains.{HaveParents, lists_of};

    ghost view = { λ chains. lists_of chains.forks.items };

    ghost invariant = { λ chains. HaveParents chains.forks.items };
}

impl Chains {
    /// Branch 0, which has no choices. It takes no memory.
    pub(crate) fn new(alloc: Global) -> Chains
        ensures { result ≡ [] ∷ [] }
    {
        Chains {
            forks: Vec::new(alloc),
        }
    }

    /// Adds the four children of a branch, for the four sides of the pair. Without memory all stays
    /// as it was.
    pub(crate) fn split(&mut self, parent: u64, s: u32, t: u32) -> Result<(), NoMemory>
        requires { parent < length self.old }
        ensures ok { OnOk result
            (self.new ≡ self.old ++ children_of (chain_at self.old parent) s t) }
        ensures err { OnErr result (self.new ≡ self.old) }
    {
        self.forks.push(Fork { parent, s, t })?;
        Ok(())
    }

    /// Whether the branch has these choices: one walk up to branch 0, which takes no memory.
    pub(crate) fn are(&self, id: u64, choices: &[Choice]) -> bool
        requires { id < length self.now }
        ensures { IsTrue result ↔ (chain_at self.now id ≡ choices.now) }
    {
        let mut at = id;
        let mut left = choices.len();
        while let Some(step) = self.step_up(at) {
            if left == 0 {
                return false;
            }
            if choices[left - 1] != step.choice {
                return false;
            }
            left -= 1;
            at = step.parent;
        }
        left == 0
    }

    /// A copy of the choices of the branch.
    pub(crate) fn copy_of(&self, id: u64) -> Result<Items<Choice>, NoMemory>
        requires { id < length self.now }
        ensures { IfOk result (λ choices. choices ≡ chain_at self.now id) }
    {
        let mut choices = Vec::new(*self.forks.allocator());
        let mut at = id;
        while let Some(step) = self.step_up(at) {
            choices.push(step.choice)?;
            at = step.parent;
        }
        choices.reverse();
        Ok(Items::from_vec(choices))
    }

    /// One step up from a branch to its parent; `None` exactly for branch 0, which has no choices.
    pub(crate) fn step_up(&self, id: u64) -> Option<StepUp>
        requires { id < length self.now }
        ensures { MatchOption result ((id ≡ 0) × (chain_at self.now id ≡ []))
            (IsStepUp self.now id) }
    {
        if id == 0 {
            let _forks = &self.forks;
            return None;
        }
        let fork = self.forks[fork_of(id)];
        let choice = Choice {
            s: fork.s,
            t: fork.t,
            side: side_of(id),
        };
        Some(StepUp {
            parent: fork.parent,
            choice,
        })
    }
}

/// The fork that opened the branch.
fn fork_of(id: u64) -> usize
    requires { 0 < id }
    ensures { result ≡ (id - 1) / 4 }
{
    ((id - 1) / 4) as usize
}

/// The side for which the branch was opened.
fn side_of(id: u64) -> u8
    requires { 0 < id }
    ensures { result ≡ (id - 1) % 4 }
{
    ((id - 1) % 4) as u8
}
