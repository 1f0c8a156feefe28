//! What a worker gives to the others, the worth of a drawing and branches, and what it keeps.

ghost use Rattle.std.specs.Prelude.{◌≡◌, ◌+◌, ◌<◌, ◌^◌, [], List, IfOk, IfSome, OnErr, OnOk};
ghost use Rattle.compact_types.specs.declared.plan.Shape.{Shape as AnyShape};
ghost use Rattle.compact_types.specs.declared.search.Branch.{Branch as AnyBranch};
ghost use Rattle.board.specs.declared.entries.Settled.TheVariants as settled;
ghost use Rattle.board.specs.Verdicts.{IsSoundVerdict};
ghost use Rattle.steal_lanes.specs.Views.{with_branch};
ghost use Rattle.ticket_board.specs.Turns.{ChildrenFit};
ghost use Rattle.workers.specs.Hands.{IsQuiet};
ghost use Rattle.workers.specs.inner.Sharing.{
  HasOneMoreChoice,
  HasPut,
  IsReady,
  IsSolvedFor,
  IsStartFor,
  child_of,
};

use crate::branch::Solved;
use board::Settled;
use compact_types::{Branch, Choice, NoMemory};
use least_word::{LeastWord, WordSeat};
use shape_graphs::{Backing, Measure, Verdict};
use std::alloc::Global;
use steal_lanes::Lane;

/// The branch that a worker goes on with.
#[derive(Drop)]
pub(crate) struct Next<P: Backing> {
    pub(crate) branch: Branch,
    /// A proof from which a solver of the branch may begin, if the worker has one at hand.
    pub(crate) start: Option<P>,
}

/// Offers the worth of a least key whose places are a drawing: no branch is of use whose solutions
/// are worth more.
pub(crate) fn offer<P: Backing>(word: &LeastWord<P>, seat: &mut WordSeat, solved: &Solved<P>)
    requires seat { seat.old.home ≡ word.now }
    requires solved { IsSolvedFor P.objective word.now.shape solved.now.verdict solved.now.pair }
    ensures home { seat.new.home ≡ seat.old.home }
    ensures quiet { IsQuiet seat.old.view seat.new.view }
{
    match (&solved.verdict, solved.pair) {
        (Verdict::Least { key, .. }, None) => word.offer(seat, key.worth.unsigned_abs()),
        _ => {}
    }
}

/// A copy of the verdict's proof for the child that the worker goes on with, if the branch is to be
/// split. It is made before the turn in which the branch is settled, so that no other worker waits
/// for it.
pub(crate) fn copy_for_child<M: Measure>(
    alloc: Global,
    measure: &M,
    solved: &Solved<M::Proof>,
) -> Result<Option<M::Proof>, NoMemory>
    ensures { (shape : AnyShape) (branch : AnyBranch) →
        IsSoundVerdict M.Proof.objective M.Proof.backs shape branch.choices.choices
        solved.now.verdict →
        IfOk result (λ copy. IfSome copy (IsStartFor (M.Proof.backs shape) branch)) }
{
    match (&solved.verdict, solved.pair) {
        (Verdict::Least { proof, .. }, Some(_)) => Ok(Some(measure.again(alloc, proof)?)),
        _ => Ok(None),
    }
}

/// Shares the children of a split: the worker goes on with the fourth, from this proof.
pub(crate) fn go_on<P: Backing>(
    lane: &mut Lane,
    branch: Branch,
    what: Settled,
    start: Option<P>,
) -> Result<Option<Next<P>>, NoMemory>
    requires { ChildrenFit what }
    ensures ready { (shape : AnyShape) → IfSome start (IsStartFor (P.backs shape) branch) →
        IfOk result (λ next. IfSome next (IsReady (P.backs shape))) }
    ensures all { OnOk result (HasPut branch what [] lane.old lane.new) }
    ensures some { OnErr result
        ((left : List AnyBranch) × HasPut branch what left lane.old lane.new) }
{
    match share(lane, branch, what) {
        Ok(Some(last)) => Ok(Some(Next {
            branch: last,
            start,
        })),
        Ok(None) => Ok(None),
        Err(refused) => Err(refused),
    }
}

/// The branch, if one is given, without a proof at hand.
pub(crate) fn at_first<P: Backing>(branch: Option<Branch>) -> Option<Next<P>>
    ensures { (shape : AnyShape) → IfSome result (IsReady (P.backs shape)) }
{
    let branch = branch?;
    Some(Next {
        branch,
        start: None,
    })
}

/// Puts the first three children of a split into the lane, in the order of their numbers. The
/// fourth, to go on with.
fn share(lane: &mut Lane, branch: Branch, what: Settled) -> Result<Option<Branch>, NoMemory>
    requires { ChildrenFit what }
    ensures all { OnOk result (HasPut branch what [] lane.old lane.new) }
    ensures some { OnErr result
        ((left : List AnyBranch) × HasPut branch what left lane.old lane.new) }
    ensures last { IfOk result (λ last. IfSome last (HasOneMoreChoice branch)) }
{
    match what {
        Settled::Split { first, s, t } => Ok(Some(share_children(lane, branch, first, s, t)?)),
        Settled::Closed | Settled::Improved => Ok(None),
    }
}

/// Puts the first three children of the branch into the lane. The fourth.
fn share_children(
    lane: &mut Lane,
    branch: Branch,
    first: u64,
    s: u32,
    t: u32,
) -> Result<Branch, NoMemory>
    requires { first + 3 < 2 ^ 64 }
    ensures all { OnOk result
        (HasPut branch (settled.Split first s t) [] lane.old lane.new) }
    ensures some { OnErr result ((left : List AnyBranch)
        × HasPut branch (settled.Split first s t) left lane.old lane.new) }
    ensures last { IfOk result (λ last. last ≡ child_of branch first s t 3) }
{
    put_child(lane, &branch, first, s, t, 0)?;
    put_child(lane, &branch, first, s, t, 1)?;
    put_child(lane, &branch, first, s, t, 2)?;
    let mut last = branch;
    last.id = first + 3;
    last.choices.choices.push(Choice { s, t, side: 3 })?;
    Ok(last)
}

/// The child of the branch on this side of the pair.
fn child(branch: &Branch, first: u64, s: u32, t: u32, side: u8) -> Result<Branch, NoMemory>
    requires { first + side < 2 ^ 64 }
    ensures { IfOk result (λ child. child ≡ child_of branch.now first s t side) }
{
    let mut choices = branch.choices.copy()?;
    choices.choices.push(Choice { s, t, side })?;
    Ok(Branch {
        id: first + u64::from(side),
        choices,
    })
}

/// Puts the child of the branch on this side of the pair into the lane.
fn put_child(
    lane: &mut Lane,
    branch: &Branch,
    first: u64,
    s: u32,
    t: u32,
    side: u8,
) -> Result<(), NoMemory>
    requires { first + side < 2 ^ 64 }
    ensures put { OnOk result (lane.new ≡ record lane.old {
      view = with_branch lane.old.view (child_of branch.now first s t side);
    }) }
    ensures refused { OnErr result (lane.new ≡ lane.old) }
{
    put(lane, child(branch, first, s, t, side)?)
}

/// Puts the branch into the lane. A refusal counts as want of memory.
fn put(lane: &mut Lane, branch: Branch) -> Result<(), NoMemory>
    ensures put { OnOk result
        (lane.new ≡ record lane.old { view = with_branch lane.old.view branch }) }
    ensures refused { OnErr result (lane.new ≡ lane.old) }
{
    match lane.put(branch) {
        Ok(()) => Ok(()),
        Err(_branch) => Err(NoMemory),
    }
}
