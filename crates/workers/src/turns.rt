//! The turns of a search: in each, one branch is claimed, solved and settled.

ghost use Rattle.std.specs.Prelude.{◌≡◌, IfOk, OnErr, OnOk};
ghost use Rattle.compact_types.specs.Bests.{IsAttained};
ghost use Rattle.board.specs.Boards.{IsCaller, IsLatestWaiting, IsOutcome, after_claim};
ghost use Rattle.board.specs.Boards.{after_settle, board_state};
ghost use Rattle.board.specs.Facts.{AreFacts};
ghost use Rattle.board.specs.Histories.{IsHeldBy, choices_of};
ghost use Rattle.board.specs.Verdicts.{IsBranchPairFor, IsSoundVerdict};
ghost use Rattle.workers.specs.inner.Turns.{AreAllSettled, IsAfterTurn, IsBetweenTurns};

use crate::branch::{Solved, solve_branch};
use bars::Bars;
use board::{Board, SettleFault, Settled};
use compact_types::{Branch, NoMemory};
use shape_graphs::{Backing, Measure};
use std::alloc::Global;

/// Settles every branch, each in the same workspace: for as long as one waits, the waiting branch
/// with the greatest number.
pub(crate) fn settle_all<M: Measure>(
    alloc: Global,
    measure: &M,
    bars: &Bars,
    workspace: &mut M::Workspace,
    board: &mut Board<M::Proof>,
    who: u32,
) -> Result<(), NoMemory>
    requires between { IsBetweenTurns bars.now who board.old }
    requires serves { M.Workspace.serves bars.now workspace.old }
    ensures settled { OnOk result (AreAllSettled bars.now board.new) }
    ensures serves { OnOk result (M.Workspace.serves bars.now workspace.new) }
{
    while let Some(branch) = board.latest_waiting()? {
        turn(alloc, measure, bars, workspace, board, who, &branch)?;
    }
    Ok(())
}

/// Settles the waiting branch in three steps: claims it, solves it with the incumbent's worth as
/// the stop, and gives the board the verdict with its pair.
fn turn<M: Measure>(
    alloc: Global,
    measure: &M,
    bars: &Bars,
    workspace: &mut M::Workspace,
    board: &mut Board<M::Proof>,
    who: u32,
    branch: &Branch,
) -> Result<(), NoMemory>
    requires between { IsBetweenTurns bars.now who board.old }
    requires branch { IsLatestWaiting (board_state board.old) branch.now }
    requires serves { M.Workspace.serves bars.now workspace.old }
    ensures settled { OnOk result (IsAfterTurn bars.now who board.old board.new) }
    ensures serves { OnOk result (M.Workspace.serves bars.now workspace.new) }
{
    claim(board, who, branch);
    let start = board.proof_before(branch.id);
    let stop = stop_of(board);
    let solved = solve_branch(
        alloc,
        measure,
        bars,
        workspace,
        &branch.choices,
        start,
        stop,
    )?;
    settle(board, who, branch.id, solved)?;
    Ok(())
}

/// Claims the branch. It waits, so it is the caller's from now on.
fn claim<P: Backing>(board: &mut Board<P>, who: u32, branch: &Branch)
    requires who { IsCaller board.old.given who }
    requires branch { IsLatestWaiting (board_state board.old) branch.now }
    ensures { board.new ≡ after_claim board.old who branch.now.id }
{
    let _granted = board.claim(who, branch);
}

/// The worth of the incumbent: no branch is of use whose solutions are worth more.
pub(crate) fn stop_of<P: Backing>(board: &Board<P>) -> i64
    ensures attained { IsAttained P.objective board.now.shape result }
    ensures facts { AreFacts P.objective P.backs board.now }
{
    board.best().worth
}

/// Settles the branch that the caller holds, and returns what became of it. Memory alone can be
/// refused, and then the board is as it was.
fn settle<P: Backing>(
    board: &mut Board<P>,
    who: u32,
    id: u64,
    solved: Solved<P>,
) -> Result<Settled, NoMemory>
    requires who { IsCaller board.old.given who }
    requires held { IsHeldBy (board_state board.old) id who }
    requires sound { IsSoundVerdict P.objective P.backs board.old.shape
        (choices_of (board_state board.old) id) solved.verdict }
    requires pair { IsBranchPairFor board.old.shape
        (choices_of (board_state board.old) id) solved.verdict solved.pair }
    ensures outcome { IfOk result (IsOutcome board.old solved.verdict solved.pair) }
    ensures settled { IfOk result (λ what.
        board.new ≡ after_settle board.old who id solved.verdict what) }
    ensures facts { AreFacts P.objective P.backs board.new }
    ensures refused { OnErr result (board.new ≡ board.old) }
{
    let answer = board.settle(who, id, solved.verdict, solved.pair);
    let _what_is_known = board.best();
    match answer {
        Ok(what) => Ok(what),
        Err(fault) => Err(refused(fault)),
    }
}

/// The want of memory that a settle told of.
fn refused(fault: SettleFault) -> NoMemory
    requires { fault ≡ SettleFault.NoMemory }
{
    match fault {
        SettleFault::NoMemory => NoMemory,
        SettleFault::NotYours => unreachable!(),
    }
}
