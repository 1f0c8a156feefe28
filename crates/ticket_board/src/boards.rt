//! The ticket board.

ghost use Rattle.std.specs.Prelude.{◌≡◌, ◌+◌, IfOk, MatchResult};
ghost use Rattle.board.specs.Boards.{IsCaller, IsOutcome, after_settle, board_state};
ghost use Rattle.board.specs.Facts.{AreFacts};
ghost use Rattle.board.specs.Histories.{IsHeldBy, choices_of, open_count_of, state_of};
ghost use Rattle.board.specs.Verdicts.{IsBranchPairFor, IsSoundVerdict};
ghost use Rattle.ticket_board.specs.Passes.{Begins, HasSeenMore, HaveMet, IsHolding, entries_by};
ghost use Rattle.ticket_board.specs.Turns.{ChildrenFit, IsClaimed, IsSettledOn};
ghost use Rattle.ticket_board.specs.inner.Turns.{AddsOwn};

use crate::claiming::claim_on;
use crate::meeting::{compare, join};
use crate::passes::Pass;
use crate::rules::{Founding, InTurns};
use crate::turns::{begin_turn, end_turn, sit_down};
use crate::views::CallerView;
use atomic_table::Table;
use board::{Board, Claim, SettleFault, Settled};
use compact_types::{Branch, NoMemory};
use shape_graphs::{Backing, Verdict};
use std::alloc::Global;
use std::marker::Model;
use std::sync::Wait;

/// A board that callers share, each with a pass of its own. Every call on a pass that may wait
/// takes a turn, in which the caller alone has the board.
#[derive(Drop)]
pub struct TicketBoard<P: Backing> {
    pub(crate) table: Table<Option<Board<P>>, CallerView, Founding<P>, InTurns, Global>,
}

impl<P: Backing> Model for TicketBoard<P> {
    ghost use Rattle.ticket_board.specs.Passes.{BoardHome};
    ghost use Rattle.ticket_board.specs.inner.Rules.{IsSized};

    ghost Value = { BoardHome };

    ghost view = { λ board. record {
      table = board.table.shared.table_id;
      shape = board.table.shared.key.board.value.shape;
    } };

    ghost invariant = { λ board. IsSized board.table.shared.table_id };
}

impl<P: Backing> TicketBoard<P> {
    /// Claims the branch for the caller of the pass, in a turn: it is a stranger if the board keeps
    /// no branch of its number or keeps other choices for it, is taken if it does not wait, and is
    /// else the caller's from now on. It takes no memory.
    pub fn claim<R: Wait>(&self, rt: &R, pass: &mut Pass, branch: &Branch) -> Claim
        requires { pass.old.home ≡ self.now }
        ensures more { HasSeenMore pass.old pass.new }
        ensures turn { pass.new.turns ≡ pass.old.turns + 1 }
        ensures answer { IsClaimed pass.old branch.now result pass.new }
    {
        let who = pass.number;
        let desk = &self.table.shared;
        let (seat, mut board) = begin_turn(rt, desk, &mut pass.badge);
        let claim = claim_on(&mut board, who, branch);
        pass.badge = end_turn(desk, seat, board);
        claim
    }

    /// Settles a branch that the caller of the pass holds, in a turn, by a verdict on its choices:
    /// see `Board::settle`. The caller does not know the incumbent, so the pair that comes with a
    /// least key is always the one at which a search splits. Without memory the board stays as it
    /// was, the branch stays the caller's, and the verdict is let go.
    pub fn settle<R: Wait>(
        &self,
        rt: &R,
        pass: &mut Pass,
        id: u64,
        verdict: Verdict<P>,
        pair: Option<(u32, u32)>,
    ) -> Result<Settled, NoMemory>
        requires home { pass.old.home ≡ self.now }
        requires holds { IsHolding pass.old id }
        requires verdict { IsSoundVerdict P.objective P.backs pass.old.home.shape
            (choices_of (state_of pass.old.seen) id) verdict }
        requires pair { IsBranchPairFor pass.old.home.shape
            (choices_of (state_of pass.old.seen) id) verdict pair }
        ensures more { HasSeenMore pass.old pass.new }
        ensures turn { pass.new.turns ≡ pass.old.turns + 1 }
        ensures answer { MatchResult result
            (λ what. IsSettledOn P.objective P.backs pass.old id verdict pair what pass.new)
            (λ refused. pass.new.mine ≡ pass.old.mine) }
    {
        let desk = &self.table.shared;
        let (seat, mut board) = begin_turn(rt, desk, &mut pass.badge);
        let settled = settle_held(&mut board, pass.number, id, verdict, pair);
        pass.badge = end_turn(desk, seat, board);
        settled
    }

    /// How many branches are open, in a turn: they wait or are held. It takes no memory.
    pub fn look<R: Wait>(&self, rt: &R, pass: &mut Pass) -> u64
        requires { pass.old.home ≡ self.now }
        ensures more { HasSeenMore pass.old pass.new }
        ensures turn { pass.new.turns ≡ pass.old.turns + 1 }
        ensures mine { pass.new.mine ≡ pass.old.mine }
        ensures answer { result ≡ open_count_of (state_of pass.new.seen) }
    {
        let desk = &self.table.shared;
        let (seat, board) = begin_turn(rt, desk, &mut pass.badge);
        let count = board.open_count();
        pass.badge = end_turn(desk, seat, board);
        count
    }

    /// Gives the pass what the other pass, which is spent, had seen. It takes no memory and does
    /// not wait.
    pub fn meet(&self, pass: &mut Pass, other: Pass)
        requires home { pass.old.home ≡ self.now }
        requires other { other.home ≡ self.now }
        ensures { HaveMet pass.old other pass.new }
    {
        let desk = &self.table.shared;
        let mut seat = sit_down(&mut pass.badge);
        let Pass {
            number: _,
            mut badge,
        } = other;
        join(desk, &mut seat, sit_down(&mut badge));
        compare(desk, &mut seat);
        pass.badge = seat.into_badge();
    }

    /// Hands the board out, in a turn of the pass. Its history begins with all that the pass had
    /// seen. It takes no memory.
    pub fn close<R: Wait>(self, rt: &R, pass: Pass) -> Board<P>
        requires { pass.home ≡ self }
        ensures shape { result.shape ≡ self.shape }
        ensures later { Begins pass.seen result.entries }
        ensures own { entries_by pass.number result.entries ≡ pass.mine }
        ensures facts { AreFacts P.objective P.backs result }
    {
        let Pass {
            number: _,
            mut badge,
        } = pass;
        begin_turn(rt, &self.table.shared, &mut badge).1
    }
}

/// Settles the branch, which the caller holds, so that memory alone can be refused.
fn settle_held<P: Backing>(
    board: &mut Board<P>,
    who: u32,
    id: u64,
    verdict: Verdict<P>,
    pair: Option<(u32, u32)>,
) -> Result<Settled, NoMemory>
    requires who { IsCaller board.old.given who }
    requires held { IsHeldBy (board_state board.old) id who }
    requires verdict { IsSoundVerdict P.objective P.backs board.old.shape
        (choices_of (board_state board.old) id) verdict }
    requires pair { IsBranchPairFor board.old.shape
        (choices_of (board_state board.old) id) verdict pair }
    ensures outcome { IfOk result (IsOutcome board.old verdict pair) }
    ensures fit { IfOk result ChildrenFit }
    ensures board { MatchResult result
        (λ what. board.new ≡ after_settle board.old who id verdict what)
        (λ refused. board.new ≡ board.old) }
    ensures adds { AddsOwn who board.old board.new }
{
    match board.settle(who, id, verdict, pair) {
        Ok(what) => {
            let _what_is_known = board.outcome(id);
            Ok(what)
        }
        Err(fault) => Err(refused(fault)),
    }
}

/// The want of memory that a settle told of.
fn refused(fault: SettleFault) -> NoMemory
    requires { fault ≡ SettleFault.NoMemory }
{
    match fault {
        SettleFault::NoMemory => NoMemory,
        SettleFault::NotYours => unreachable!(),
    }
}
