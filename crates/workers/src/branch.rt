//! A branch solved, without a board: the verdict on its choices, and the pair at which to split it.

ghost use Rattle.std.specs.Prelude.{IfOk, MatchOption, OnOk};
ghost use Rattle.compact_types.specs.Bests.{IsAttained};
ghost use Rattle.bars.specs.Solutions.{Fit};
ghost use Rattle.shape_graphs.specs.Measures.{BacksBefore, IsAsked, IsRight};
ghost use Rattle.board.specs.Verdicts.{IsBranchPairFor, IsSoundVerdict};

use bars::Bars;
use compact_types::{Extension, NoMemory};
use separation::splitting_pair;
use shape_graphs::{Backing, Measure, Verdict};
use std::alloc::Global;

/// The verdict on the choices of a branch, and the pair at which the branch is split.
#[derive(Drop)]
pub(crate) struct Solved<P: Backing> {
    pub(crate) verdict: Verdict<P>,
    /// The branch pair, if the verdict is a least key whose places are not a drawing.
    pub(crate) pair: Option<(u32, u32)>,
}

/// Solves a branch with these choices. The solver may stop once its bound exceeds `stop`, the worth
/// of some drawing, may begin with `start`, a proof of a verdict on the choices without the last,
/// and may use what earlier branches left in the workspace. Neither a board nor the incumbent's key
/// goes in, so the pair serves whatever the incumbent is when the branch is settled.
pub(crate) fn solve_branch<M: Measure>(
    alloc: Global,
    measure: &M,
    bars: &Bars,
    workspace: &mut M::Workspace,
    extension: &Extension,
    start: Option<&M::Proof>,
    stop: i64,
) -> Result<Solved<M::Proof>, NoMemory>
    requires fit { Fit bars.now extension.now.choices }
    requires start { MatchOption start (Unit {0}) (λ proof.
        BacksBefore (M.Proof.backs bars.now) extension.now.choices proof.now) }
    requires stop { IsAttained M.Proof.objective bars.now stop }
    requires serves { M.Workspace.serves bars.now workspace.old }
    ensures sound { IfOk result (λ solved.
        IsSoundVerdict M.Proof.objective M.Proof.backs bars.now extension.now.choices
        solved.verdict) }
    ensures asked { IfOk result (λ solved. IsAsked stop solved.verdict) }
    ensures pair { IfOk result (λ solved.
        IsBranchPairFor bars.now extension.now.choices solved.verdict solved.pair) }
    ensures serves { OnOk result (M.Workspace.serves bars.now workspace.new) }
{
    let verdict = measure.solve_in(alloc, bars, workspace, extension, start, stop)?;
    let pair = pair_of(alloc, bars, extension, &verdict)?;
    Ok(Solved { verdict, pair })
}

/// The branch pair of a least key whose places are not a drawing; `None` for all else.
fn pair_of<P: Backing>(
    alloc: Global,
    bars: &Bars,
    extension: &Extension,
    verdict: &Verdict<P>,
) -> Result<Option<(u32, u32)>, NoMemory>
    requires fit { Fit bars.now extension.now.choices }
    requires right { IsRight P.objective bars.now extension.now.choices verdict.now }
    ensures { IfOk result (IsBranchPairFor bars.now extension.now.choices verdict.now) }
{
    match verdict {
        Verdict::Least { key, .. } => splitting_pair(alloc, bars, extension, &key.places),
        Verdict::Cyclic { .. } => Ok(None),
        Verdict::Above { .. } => Ok(None),
    }
}
