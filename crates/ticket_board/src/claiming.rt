//! Claims, and the claim of a caller that solves the branch from the proof of its parent.

ghost use Rattle.std.specs.Prelude.{◌≡◌, ◌+◌, IfOk};
ghost use Rattle.board.specs.Boards.{IsCaller, IsClaimAnswer};
ghost use Rattle.ticket_board.specs.Passes.{HasSeenMore};
ghost use Rattle.ticket_board.specs.Turns.{IsClaimed, IsStartOf};
ghost use Rattle.ticket_board.specs.inner.Turns.{AddsOwn, IsProofBefore};

use crate::boards::TicketBoard;
use crate::passes::Pass;
use crate::turns::{begin_turn, end_turn};
use board::{Board, Claim};
use compact_types::{Branch, NoMemory};
use shape_graphs::{Backing, Measure};
use std::alloc::Global;
use std::sync::Wait;

/// Claims the branch as `TicketBoard::claim` does, and if it is the caller's, copies in the same
/// turn the proof of the verdict on the branch from which it was opened: a solver may begin with
/// it. `None` for a branch that is not the caller's, and for branch 0, which was opened from none.
/// A copy for which there is no memory does not undo the claim.
pub fn claim_with_proof<M: Measure, R: Wait>(
    board: &TicketBoard<M::Proof>,
    rt: &R,
    alloc: Global,
    measure: &M,
    pass: &mut Pass,
    branch: &Branch,
) -> (Claim, Result<Option<M::Proof>, NoMemory>)
    requires { pass.old.home ≡ board.now }
    ensures more { HasSeenMore pass.old pass.new }
    ensures turn { pass.new.turns ≡ pass.old.turns + 1 }
    ensures answer { IsClaimed pass.old branch.now result.0 pass.new }
    ensures proof { IfOk result.1
        (IsStartOf (M.Proof.backs board.now.shape) branch.now result.0) }
{
    let desk = &board.table.shared;
    let (seat, mut inside) = begin_turn(rt, desk, &mut pass.badge);
    let claim = claim_on(&mut inside, pass.number, branch);
    let proof = copied_proof(alloc, measure, &inside, branch, claim);
    pass.badge = end_turn(desk, seat, inside);
    (claim, proof)
}

/// Claims the branch on the board that the caller has in its turn. To the history it adds nothing
/// but an entry of the caller.
pub(crate) fn claim_on<P: Backing>(board: &mut Board<P>, who: u32, branch: &Branch) -> Claim
    requires { IsCaller board.old.given who }
    ensures answer { IsClaimAnswer board.old who branch.now result board.new }
    ensures adds { AddsOwn who board.old board.new }
{
    let claim = board.claim(who, branch);
    let _what_is_known = board.open_count();
    claim
}

/// A copy of the proof of the verdict on the branch from which this one was opened, if the claim
/// gave it to the caller.
fn copied_proof<M: Measure>(
    alloc: Global,
    measure: &M,
    board: &Board<M::Proof>,
    branch: &Branch,
    claim: Claim,
) -> Result<Option<M::Proof>, NoMemory>
    ensures { IfOk result (IsProofBefore M.Proof.backs board.now branch.now claim) }
{
    match claim {
        Claim::Yours => match board.proof_before(branch.id) {
            Some(proof) => Ok(Some(measure.again(alloc, proof)?)),
            None => Ok(None),
        },
        Claim::Taken | Claim::Stranger => Ok(None),
    }
}
