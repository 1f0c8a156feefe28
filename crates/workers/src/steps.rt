//! What a worker does with one branch, and where it gets the next one from.

ghost use Rattle.std.specs.Prelude.{◌≡◌, IfOk, IfSome, IsTrue, MatchOption, OnErr, OnOk};
ghost use Rattle.compact_types.specs.declared.plan.Shape.{Shape as AnyShape};
ghost use Rattle.compact_types.specs.Bests.{IsAttained};
ghost use Rattle.bars.specs.Solutions.{Fit};
ghost use Rattle.shape_graphs.specs.Measures.{BacksBefore};
ghost use Rattle.board.specs.declared.entries.Claim.TheVariants.{Yours};
ghost use Rattle.board.specs.Histories.{open_count_of, state_of};
ghost use Rattle.board.specs.Verdicts.{IsBranchPairFor, IsSoundVerdict};
ghost use Rattle.ticket_board.specs.Passes.{HasSeenMore};
ghost use Rattle.ticket_board.specs.Turns.{IsClaimed};
ghost use Rattle.workers.specs.Hands.{AreFor, IsHandAt, IsTakenUp};
ghost use Rattle.workers.specs.inner.Lives.{IsGoing, IsOutOfMemory};
ghost use Rattle.workers.specs.inner.Sharing.{IsReady, MayStart};

use crate::branch::{Solved, solve_branch};
use crate::gates::Gate;
use crate::hands::Hand;
use crate::sharing::{Next, at_first, copy_for_child, go_on, offer};
use bars::Bars;
use board::Claim;
use compact_types::{Branch, Extension, NoMemory};
use least_word::LeastWord;
use shape_graphs::{Backing, Measure};
use std::alloc::Global;
use std::sync::Wait;
use steal_lanes::Stolen;
use ticket_board::{Pass, TicketBoard, claim_with_proof};

/// The branch to go on with: the one that was kept, else the first of the hand's own lane, else the
/// first that one try at each other lane gives.
pub(crate) fn next_branch<P: Backing>(hand: &mut Hand, kept: Option<Next<P>>) -> Option<Next<P>>
    ensures ready { (shape : AnyShape) → IfSome kept (IsReady (P.backs shape)) →
        IfSome result (IsReady (P.backs shape)) }
    ensures going { IsGoing hand.old hand.new }
{
    match kept {
        Some(next) => Some(next),
        None => at_first(from_lanes(hand)),
    }
}

/// The first branch of the hand's own lane, else the first that one try at each other lane gives.
fn from_lanes(hand: &mut Hand) -> Option<Branch>
    ensures { IsGoing hand.old hand.new }
{
    match hand.lane.take() {
        Some(branch) => Some(branch),
        None => steal(hand),
    }
}

/// The first branch that one try at each other lane gives.
fn steal(hand: &mut Hand) -> Option<Branch>
    ensures { IsGoing hand.old hand.new }
{
    for place in 0..hand.others.len() {
        if let Some(branch) = try_lane(hand, place) {
            return Some(branch);
        }
    }
    None
}

/// The branch that one try at the other lane of this place gives.
fn try_lane(hand: &mut Hand, place: usize) -> Option<Branch>
    ensures { IsGoing hand.old hand.new }
{
    let other = hand.others.get_mut(place)?;
    match other.thief.steal(&mut other.pass) {
        Stolen::Got(branch) => Some(branch),
        Stolen::Empty | Stolen::Again => None,
    }
}

/// Claims the branch and, if it is this worker's, solves it in the workspace and settles it. The
/// child to go on with, if it was split. Of a branch that is another's nothing is left to do here.
pub(crate) fn advance<M: Measure, G: Gate, R: Wait>(
    rt: &R,
    alloc: Global,
    measure: &M,
    bars: &Bars,
    workspace: &mut Option<M::Workspace>,
    board: &TicketBoard<M::Proof>,
    word: &LeastWord<M::Proof>,
    hand: &mut Hand,
    next: Next<M::Proof>,
    gate: &G,
) -> Result<Option<Next<M::Proof>>, NoMemory>
    requires at { IsHandAt board.now word.now hand.old }
    requires shape { AreFor bars.now board.now word.now }
    requires ready { IsReady (M.Proof.backs bars.now) next }
    requires serves { IfSome workspace.old (M.Workspace.serves bars.now) }
    ensures serves { IfSome workspace.new (M.Workspace.serves bars.now) }
    ensures ready { IfOk result (λ kept. IfSome kept (IsReady (M.Proof.backs bars.now))) }
    ensures taken { IsTakenUp hand.old.pass next.branch hand.new.pass }
    ensures going { OnOk result (IsGoing hand.old hand.new) }
    ensures stopped { OnErr result (IsOutOfMemory hand.old hand.new) }
{
    let Next { branch, start } = next;
    let (claim, start) = claim_with_start(
        rt,
        alloc,
        measure,
        bars,
        board,
        &mut hand.pass,
        &branch,
        start,
    );
    match claim {
        Claim::Yours => {}
        Claim::Taken | Claim::Stranger => return Ok(None),
    }
    gate.at(hand.number, branch.id);
    let stop = word.read(&mut hand.seat);
    let start = start?;
    let solved = solve_in_own(
        alloc,
        measure,
        bars,
        workspace,
        &branch.choices,
        start.as_ref(),
        stop as i64,
    )?;
    offer(word, &mut hand.seat, &solved);
    let copy = copy_for_child(alloc, measure, &solved)?;
    let what = board.settle(rt, &mut hand.pass, branch.id, solved.verdict, solved.pair)?;
    go_on(&mut hand.lane, branch, what, copy)
}

/// Solves a branch as `solve_branch` does, in the worker's own workspace. The first time it makes
/// one: a branch to begin with is then claimed already, also where memory is refused.
fn solve_in_own<M: Measure>(
    alloc: Global,
    measure: &M,
    bars: &Bars,
    workspace: &mut Option<M::Workspace>,
    extension: &Extension,
    start: Option<&M::Proof>,
    stop: i64,
) -> Result<Solved<M::Proof>, NoMemory>
    requires fit { Fit bars.now extension.now.choices }
    requires start { MatchOption start (Unit {0}) (λ proof.
        BacksBefore (M.Proof.backs bars.now) extension.now.choices proof.now) }
    requires stop { IsAttained M.Proof.objective bars.now stop }
    requires serves { IfSome workspace.old (M.Workspace.serves bars.now) }
    ensures sound { IfOk result (λ solved.
        IsSoundVerdict M.Proof.objective M.Proof.backs bars.now extension.now.choices
        solved.verdict) }
    ensures pair { IfOk result (λ solved.
        IsBranchPairFor bars.now extension.now.choices solved.verdict solved.pair) }
    ensures serves { IfSome workspace.new (M.Workspace.serves bars.now) }
{
    let mut own = match workspace.take() {
        Some(own) => own,
        None => measure.workspace(alloc, bars)?,
    };
    let solved = solve_branch(alloc, measure, bars, &mut own, extension, start, stop)?;
    *workspace = Some(own);
    Ok(solved)
}

/// Claims the branch. If it is this worker's, a solver may begin with the proof that comes with the
/// claim: the one given, or else a copy of the one that the board keeps.
fn claim_with_start<M: Measure, R: Wait>(
    rt: &R,
    alloc: Global,
    measure: &M,
    bars: &Bars,
    board: &TicketBoard<M::Proof>,
    pass: &mut Pass,
    branch: &Branch,
    start: Option<M::Proof>,
) -> (Claim, Result<Option<M::Proof>, NoMemory>)
    requires home { pass.old.home ≡ board.now }
    requires shape { board.now.shape ≡ bars.now }
    requires start { MayStart (M.Proof.backs bars.now) branch.now start }
    ensures more { HasSeenMore pass.old pass.new }
    ensures answer { IsClaimed pass.old branch.now result.0 pass.new }
    ensures taken { IsTakenUp pass.old branch.now pass.new }
    ensures start { result.0 ≡ Yours →
        IfOk result.1 (MayStart (M.Proof.backs bars.now) branch.now) }
{
    match start {
        Some(proof) => (board.claim(rt, pass, branch), Ok(Some(proof))),
        None => claim_with_proof(board, rt, alloc, measure, pass, branch),
    }
}

/// Whether no branch is open.
pub(crate) fn is_done<P: Backing, R: Wait>(rt: &R, board: &TicketBoard<P>, hand: &mut Hand) -> bool
    requires { hand.old.pass.home ≡ board.now }
    ensures going { IsGoing hand.old hand.new }
    ensures done { IsTrue result → open_count_of (state_of hand.new.pass.seen) ≡ 0 }
{
    board.look(rt, &mut hand.pass) == 0
}

/// Whether the worker has heard of a halt.
pub(crate) fn has_heard<P: Backing>(word: &LeastWord<P>, hand: &mut Hand) -> bool
    requires { hand.old.seat.home ≡ word.now }
    ensures going { IsGoing hand.old hand.new }
    ensures heard { result ≡ hand.new.seat.view.heard }
{
    word.halted(&mut hand.seat)
}
