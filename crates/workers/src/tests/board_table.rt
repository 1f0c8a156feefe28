//! The answers of a board on a small drawing, as two callers use it.

ghost use Rattle.std.specs.Prelude.{◌≡◌, ◌≤◌};

use super::examples::board_of;
use super::{claimed, settled};
use crate::branch::solve_branch;
use crate::turns::stop_of;
use bars::bars_of;
use board::{Board, Claim, SettleFault, Settled};
use compact_types::{Branch, Choice, Extension, Items, NoMemory};
use potentials::TotalLength;
use shape_graphs::{Backing, Measure, Verdict};
use std::alloc::Global;
use std::test::Fail;

/// A claim of branch `id` with this choice, or with none.
fn claim<P: Backing>(
    alloc: Global,
    board: &mut Board<P>,
    who: u32,
    id: u64,
    choice: Option<Choice>,
) -> Result<Claim, NoMemory>
    requires one { 1 ≤ who }
    requires two { who ≤ 2 }
    requires given { board.old.given ≡ 2 }
    ensures given { board.new.given ≡ 2 }
{
    let mut choices = Items::new(alloc);
    if let Some(choice) = choice {
        choices.push(choice)?;
    }
    let branch = Branch {
        id,
        choices: Extension { choices },
    };
    Ok(board.claim(who, &branch))
}

/// A settle of branch 0 by the verdict on no choices, with its pair.
fn settle<M: Measure>(
    alloc: Global,
    measure: &M,
    board: &mut Board<M::Proof>,
    who: u32,
) -> Result<Settled, SettleFault>
    requires one { 1 ≤ who }
    requires two { who ≤ 2 }
    requires given { board.old.given ≡ 2 }
    ensures given { board.new.given ≡ 2 }
{
    let bars = bars_of(alloc, board.shape())?;
    let choices = Items::new(alloc);
    let none = Extension { choices };
    let start: Option<M::Proof> = None;
    let stop = stop_of(board);
    let mut workspace = measure.workspace(alloc, &bars)?;
    let solved = solve_branch(
        alloc,
        measure,
        &bars,
        &mut workspace,
        &none,
        start.as_ref(),
        stop,
    )?;
    board.settle(who, 0, solved.verdict, solved.pair)
}

/// The choice of a side of the pair at which branch 0 will be split.
fn other() -> Option<Choice> {
    Some(Choice {
        s: 1,
        t: 3,
        side: 0,
    })
}

/// Whether a claim of branch 0 is answered by its number and choices, and by whether it waits.
fn claims_are_answered<P: Backing>(alloc: Global, board: &mut Board<P>) -> Result<bool, NoMemory>
    requires { board.old.given ≡ 2 }
    ensures { board.new.given ≡ 2 }
{
    let with_choice = claim(alloc, board, 1, 0, other())?;
    let first = claim(alloc, board, 1, 0, None)?;
    let second = claim(alloc, board, 2, 0, None)?;
    let unknown = claim(alloc, board, 2, 7, None)?;
    let held_with_choice = claim(alloc, board, 2, 0, other())?;
    Ok(
        with_choice == Claim::Stranger
            && first == Claim::Yours
            && second == Claim::Taken
            && unknown == Claim::Stranger
            && held_with_choice == Claim::Stranger,
    )
}

/// Whether caller 2, who does not hold branch 0, cannot settle it, and caller 1 can, with this
/// outcome.
fn settles_are_answered<M: Measure>(
    alloc: Global,
    measure: &M,
    board: &mut Board<M::Proof>,
    what: Settled,
) -> bool
    requires { board.old.given ≡ 2 }
{
    let refused = settle(alloc, measure, board, 2);
    let before = board.outcome(0);
    let granted = settle(alloc, measure, board, 1);
    refused == Err(SettleFault::NotYours)
        && before == None
        && granted == Ok(what)
        && board.outcome(0) == Some(what)
}

/// Whether branch 0 alone is settled, by a least key of length 4, and branches 1 to 4 wait, for
/// which there is a proof to begin with.
fn is_split<P: Backing>(board: &Board<P>) -> Result<bool, NoMemory> {
    let Some(latest) = board.latest_waiting()? else {
        return Ok(false);
    };
    let least = matches!(board.verdict(0), Some(Verdict::Least { key, .. }) if key.worth == 4);
    let proofs = board.proof_before(0).is_none()
        && board.proof_before(1).is_some()
        && board.proof_before(4).is_some()
        && board.proof_before(5).is_none();
    let open = board.verdict(1).is_none() && board.open_count() == 4 && latest.id == 4;
    Ok(least && open && proofs)
}

/// A spine of length 10 with an arm of 10 at its upper end and one of 20 at its lower, which turns
/// up by 5: 45 in all, from zero. Without choices each piece can be 1 long, so the least places
/// have length 4, and the end of the upper arm, segment 1, and that of the turn, segment 3, are
/// both at (1, 1): branch 0 is split at that pair, into branches 1 to 4.
#[test]
fn answers_two_callers(rt: HostRuntime) -> Result<(), Fail> {
    let alloc = rt.alloc();
    let points = [(0, 0), (0, 10), (20, 0), (20, 5), (10, 10)];
    let ends = [(0, 1), (0, 2), (2, 3), (1, 4)];
    let Some(mut board) = board_of(alloc, &TotalLength, &points, &ends)? else {
        return Err(Fail::new("no drawing"));
    };
    assert_eq!(rt; board.best().worth, 45);
    assert_eq!(rt; claims_are_answered(alloc, &mut board).ok(), Some(true));
    let (first, s, t) = (1, 1, 3);
    let split = Settled::Split { first, s, t };
    assert!(rt; settles_are_answered(alloc, &TotalLength, &mut board, split));
    assert_eq!(rt; is_split(&board).ok(), Some(true));
    assert_eq!(rt; board.entries(), [claimed(0), settled(0, split)].as_slice());
    Ok(())
}
