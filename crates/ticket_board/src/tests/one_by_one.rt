//! One pass after another.

use super::{claim, claims_first, settle_first, shared, take_last};
use board::{Claim, Entry, Settled};
use compact_types::Choice;
use std::test::Fail;

/// The answers of a board to two callers. Nobody can settle a branch that it does not hold.
#[test]
fn answers_one_pass_after_another(rt: HostRuntime) -> Result<(), Fail> {
    let alloc = rt.alloc();
    let (board, mut passes) = shared(alloc, 2)?;
    let Some(mut second) = take_last(&board, &mut passes) else {
        return Err(Fail::new("no pass"));
    };
    let Some(mut first) = take_last(&board, &mut passes) else {
        return Err(Fail::new("no pass"));
    };
    let (s, t) = (0, 1);
    let other = Some(Choice { s, t, side: 0 });
    assert_eq!(rt;
        claim(&rt, alloc, &board, &mut second, 7, None).ok(),
        Some(Claim::Stranger)
    );
    assert_eq!(rt;
        claim(&rt, alloc, &board, &mut second, 0, other).ok(),
        Some(Claim::Stranger)
    );
    if !claims_first(&rt, alloc, &board, &mut first) {
        return Err(Fail::new("branch 0 was not free"));
    }
    assert_eq!(rt;
        claim(&rt, alloc, &board, &mut second, 0, None).ok(),
        Some(Claim::Taken)
    );
    assert_eq!(rt; board.look(&rt, &mut second), 1);
    let what = Settled::Closed;
    assert_eq!(rt; settle_first(&rt, alloc, &board, &mut first), Ok(what));
    assert_eq!(rt; board.look(&rt, &mut second), 0);
    board.meet(&mut second, first);
    let board = board.close(&rt, second);
    let (who, id) = (1, 0);
    let settled = Entry::Settled { who, id, what };
    assert_eq!(rt;
        board.entries(),
        [Entry::Claimed { who, id }, settled].as_slice()
    );
    Ok(())
}

/// The most callers that a board can have.
#[test]
fn has_a_thousand_callers(rt: HostRuntime) -> Result<(), Fail> {
    let (_board, passes) = shared(rt.alloc(), 1_000)?;
    assert_eq!(rt; passes.len(), 1_000);
    Ok(())
}
