//! The life of one worker among several.

ghost use Rattle.std.specs.Prelude.{◌≡◌, IfOk, IfSome, MatchOption, OnErr, OnOk};
ghost use Rattle.workers.specs.Hands.{AreFor, HasEndedWell, HasHalted, IsHandAt, IsTakenUp};
ghost use Rattle.workers.specs.inner.Lives.{IsGoing, IsOutOfMemory, halting};
ghost use Rattle.workers.specs.inner.Sharing.{IsReady};

use crate::gates::Gate;
use crate::hands::Hand;
use crate::sharing::Next;
use crate::steps::{advance, has_heard, is_done, next_branch};
use bars::Bars;
use compact_types::{Branch, NoMemory};
use crossbeam_utils::Backoff;
use least_word::LeastWord;
use shape_graphs::{Backing, Measure};
use std::alloc::Global;
use std::sync::Wait;
use ticket_board::TicketBoard;

/// The whole life of a worker. It claims `start` first, if one is given. It solves all its branches
/// in one workspace. Of each branch that it splits it puts the first three children into its lane
/// and goes on with the fourth. With nothing at hand it takes the first branch of its lane, and
/// else tries each other lane once; if all are empty it looks how many branches are open. It ends
/// if none is, or if it hears of a halt. If memory is refused it calls a halt.
pub fn work<M: Measure, G: Gate, R: Wait>(
    rt: &R,
    alloc: Global,
    measure: &M,
    bars: &Bars,
    board: &TicketBoard<M::Proof>,
    word: &LeastWord<M::Proof>,
    hand: Hand,
    start: Option<Branch>,
    gate: &G,
) -> (Hand, Result<(), NoMemory>)
    requires at { IsHandAt board.now word.now hand }
    requires shape { AreFor bars.now board.now word.now }
    ensures begun { MatchOption start (Unit {0}) (λ branch.
        IsTakenUp hand.pass branch result.0.pass) }
    ensures ended { OnOk result.1 (HasEndedWell hand result.0) }
    ensures refused { OnErr result.1 (HasHalted hand result.0) }
{
    let mut hand = hand;
    let ended = live(
        rt, alloc, measure, bars, board, word, &mut hand, start, gate,
    );
    halt_if_refused(word, &mut hand, &ended);
    (hand, ended)
}

/// Calls a halt if memory was refused.
fn halt_if_refused<P: Backing>(word: &LeastWord<P>, hand: &mut Hand, ended: &Result<(), NoMemory>)
    requires { hand.old.seat.home ≡ word.now }
    ensures ended { OnOk ended.now (hand.new ≡ hand.old) }
    ensures refused { OnErr ended.now (hand.new ≡ halting hand.old) }
{
    if ended.is_err() {
        word.halt(&mut hand.seat);
    }
}

/// Works until no branch is open or a halt is heard of.
fn live<M: Measure, G: Gate, R: Wait>(
    rt: &R,
    alloc: Global,
    measure: &M,
    bars: &Bars,
    board: &TicketBoard<M::Proof>,
    word: &LeastWord<M::Proof>,
    hand: &mut Hand,
    start: Option<Branch>,
    gate: &G,
) -> Result<(), NoMemory>
    requires at { IsHandAt board.now word.now hand.old }
    requires shape { AreFor bars.now board.now word.now }
    ensures begun { MatchOption start (Unit {0}) (λ branch.
        IsTakenUp hand.old.pass branch hand.new.pass) }
    ensures ended { OnOk result (HasEndedWell hand.old hand.new) }
    ensures stopped { OnErr result (IsOutOfMemory hand.old hand.new) }
{
    // The worker's own workspace. It is made for the first branch that the worker solves.
    let mut own: Option<M::Workspace> = None;
    let mut kept = begin(
        rt, alloc, measure, bars, &mut own, board, word, hand, start, gate,
    )?;
    // Waits longer after each look that finds nothing to do, so that others get on meanwhile.
    let backoff = Backoff::new();
    for _ in rt.forever() {
        if has_heard(word, hand) {
            return Ok(());
        }
        match next_branch(hand, kept) {
            Some(next) => {
                kept = advance(
                    rt, alloc, measure, bars, &mut own, board, word, hand, next, gate,
                )?;
                backoff.reset();
            }
            None => {
                kept = None;
                if is_done(rt, board, hand) {
                    return Ok(());
                }
                backoff.snooze();
            }
        }
    }
    unreachable!()
}

/// Advances on the branch to begin with, if one is given.
fn begin<M: Measure, G: Gate, R: Wait>(
    rt: &R,
    alloc: Global,
    measure: &M,
    bars: &Bars,
    workspace: &mut Option<M::Workspace>,
    board: &TicketBoard<M::Proof>,
    word: &LeastWord<M::Proof>,
    hand: &mut Hand,
    start: Option<Branch>,
    gate: &G,
) -> Result<Option<Next<M::Proof>>, NoMemory>
    requires at { IsHandAt board.now word.now hand.old }
    requires shape { AreFor bars.now board.now word.now }
    requires serves { IfSome workspace.old (M.Workspace.serves bars.now) }
    ensures serves { IfSome workspace.new (M.Workspace.serves bars.now) }
    ensures ready { IfOk result (λ kept. IfSome kept (IsReady (M.Proof.backs bars.now))) }
    ensures begun { MatchOption start (Unit {0}) (λ branch.
        IsTakenUp hand.old.pass branch hand.new.pass) }
    ensures going { OnOk result (IsGoing hand.old hand.new) }
    ensures stopped { OnErr result (IsOutOfMemory hand.old hand.new) }
{
    match start {
        Some(branch) => {
            let start = None;
            let next = Next { branch, start };
            advance(
                rt, alloc, measure, bars, workspace, board, word, hand, next, gate,
            )
        }
        None => Ok(None),
    }
}
