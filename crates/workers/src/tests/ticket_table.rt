//! The answers of a board on a table, to one pass after another.

ghost use Rattle.std.specs.Prelude.{◌≡◌, []};
ghost use Rattle.compact_types.specs.Bests.{IsAttained};
ghost use Rattle.board.specs.declared.entries.Claim.TheVariants.{Yours};
ghost use Rattle.board.specs.Histories.{choices_of, state_of};
ghost use Rattle.ticket_board.specs.Passes.{IsHolding};

use super::examples::{board_of, last_pass};
use crate::branch::solve_branch;
use crate::several::{first_branch, table_of};
use crate::turns::stop_of;
use bars::{Bars, bars_of};
use board::{Claim, Settled};
use compact_types::{Branch, Choice, NoMemory};
use potentials::TotalLength;
use shape_graphs::{Backing, Measure};
use std::alloc::Global;
use std::sync::Wait;
use std::test::Fail;
use ticket_board::{Pass, TicketBoard, claim_with_proof};

/// A claim of branch 0, which has no choices.
fn claim_first<P: Backing, R: Wait>(
    rt: &R,
    alloc: Global,
    board: &TicketBoard<P>,
    pass: &mut Pass,
) -> Claim
    requires { pass.old.home ≡ board.now }
    ensures home { pass.new.home ≡ pass.old.home }
    ensures holding { result ≡ Yours → IsHolding pass.new 0 }
    ensures choices { result ≡ Yours → choices_of (state_of pass.new.seen) 0 ≡ [] }
{
    board.claim(rt, pass, &first_branch(alloc))
}

/// Settles branch 0, which the caller holds, by the verdict on no choices.
fn settle_first<M: Measure, R: Wait>(
    rt: &R,
    alloc: Global,
    measure: &M,
    bars: &Bars,
    stop: i64,
    board: &TicketBoard<M::Proof>,
    pass: &mut Pass,
) -> Result<Settled, NoMemory>
    requires stop { IsAttained M.Proof.objective bars.now stop }
    requires home { pass.old.home ≡ board.now }
    requires shape { board.now.shape ≡ bars.now }
    requires holding { IsHolding pass.old 0 }
    requires choices { choices_of (state_of pass.old.seen) 0 ≡ [] }
    ensures { pass.new.home ≡ pass.old.home }
{
    let none = first_branch(alloc).choices;
    let start: Option<M::Proof> = None;
    let mut workspace = measure.workspace(alloc, bars)?;
    let solved = solve_branch(
        alloc,
        measure,
        bars,
        &mut workspace,
        &none,
        start.as_ref(),
        stop,
    )?;
    board.settle(rt, pass, 0, solved.verdict, solved.pair)
}

/// A claim of branch `id` with the choice of this side of segments 1 and 3, and whether a proof of
/// its parent came with it.
fn claim_side<M: Measure, R: Wait>(
    rt: &R,
    alloc: Global,
    measure: &M,
    board: &TicketBoard<M::Proof>,
    pass: &mut Pass,
    id: u64,
    side: u8,
) -> Result<(Claim, bool), NoMemory>
    requires { pass.old.home ≡ board.now }
    ensures { pass.new.home ≡ pass.old.home }
{
    let mut choices = first_branch(alloc).choices;
    choices.choices.push(Choice { s: 1, t: 3, side })?;
    let branch = Branch { id, choices };
    let (claim, proof) = claim_with_proof(board, rt, alloc, measure, pass, &branch);
    Ok((claim, proof?.is_some()))
}

/// What the calls of two callers are answered, one after another: the first claims and settles
/// branch 0, and the second then claims one of its children.
fn answers<M: Measure, R: Wait>(
    rt: &R,
    alloc: Global,
    measure: &M,
    points: &[(i32, i32)],
    ends: &[(u32, u32)],
) -> Result<Option<(Settled, [(Claim, bool); 4], [u64; 2])>, NoMemory> {
    let Some(board) = board_of(alloc, measure, points, ends)? else {
        return Ok(None);
    };
    let bars = bars_of(alloc, board.shape())?;
    let stop = stop_of(&board);
    let (board, mut passes) = table_of(alloc, board, 2)?;
    let Some(mut two) = last_pass(&board, &mut passes) else {
        return Ok(None);
    };
    let Some(mut one) = last_pass(&board, &mut passes) else {
        return Ok(None);
    };
    let Claim::Yours = claim_first(rt, alloc, &board, &mut one) else {
        return Ok(None);
    };
    let held = (claim_first(rt, alloc, &board, &mut two), false);
    let unknown = claim_side(rt, alloc, measure, &board, &mut two, 7, 0)?;
    let before = board.look(rt, &mut two);
    let what = settle_first(rt, alloc, measure, &bars, stop, &board, &mut one)?;
    let after = board.look(rt, &mut two);
    let child = claim_side(rt, alloc, measure, &board, &mut two, 1, 0)?;
    let again = claim_side(rt, alloc, measure, &board, &mut one, 1, 0)?;
    Ok(Some((what, [held, unknown, child, again], [before, after])))
}

/// The spine of the board's table, with the same answers. The claim of a child brings the proof of
/// its parent, and the claim of a branch that is another's brings none.
#[test]
fn answers_two_passes(rt: HostRuntime) -> Result<(), Fail> {
    let points = [(0, 0), (0, 10), (20, 0), (20, 5), (10, 10)];
    let ends = [(0, 1), (0, 2), (2, 3), (1, 4)];
    let found = answers(&rt, rt.alloc(), &TotalLength, &points, &ends)?;
    let (first, s, t) = (1, 1, 3);
    let split = Settled::Split { first, s, t };
    let claims = [
        (Claim::Taken, false),
        (Claim::Stranger, false),
        (Claim::Yours, true),
        (Claim::Taken, false),
    ];
    assert!(rt; found == Some((split, claims, [1, 4])));
    Ok(())
}
