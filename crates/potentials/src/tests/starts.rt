//! Verdicts that are begun from the proof of a verdict on the choices without the last.

ghost use Rattle.std.specs.Prelude.{IfOk};
ghost use Rattle.shape_graphs.specs.declared.measure.Verdict.{Verdict as AnyVerdict};

use super::examples::{Example, longer};
use super::{ABOVE, WEST, arm_and_turn, bound_above, is_cycle, is_least, solved_by, spine};
use crate::TotalLength;
use compact_types::{Axis, Choice};
use shape_graphs::{Measure, Verdict};
use std::alloc::Global;
use std::test::Fail;

/// The verdict on one choice more, begun from the proof of the verdict without it, of a search that
/// stops above `before`.
fn solved_with<M: Measure>(
    alloc: Global,
    measure: &M,
    example: &Example,
    choice: Choice,
    before: i64,
    stop: i64,
) -> Result<Verdict<M::Proof>, Fail> {
    let longer = longer(&example.bars, &example.extension, choice)?;
    let start = Some(proof_of(alloc, measure, example, before)?);
    let verdict = measure.solve(alloc, &example.bars, &longer, start.as_ref(), stop)?;
    Ok(verdict)
}

/// The proof of the verdict of a search that stops above this worth.
fn proof_of<M: Measure>(
    alloc: Global,
    measure: &M,
    example: &Example,
    stop: i64,
) -> Result<M::Proof, Fail>
    ensures { IfOk result (λ proof. (verdict : AnyVerdict M.Proof)
        × M.Proof.backs example.now.bars example.now.extension.choices proof verdict) }
{
    match solved_by(alloc, measure, example, stop)? {
        Verdict::Above { proof, .. } => Ok(proof),
        Verdict::Least { proof, .. } => Ok(proof),
        Verdict::Cyclic { .. } => Err(Fail::new("a cycle")),
    }
}

#[test]
fn begun_without_the_last_choice(rt: HostRuntime) -> Result<(), Fail> {
    let spine = spine(rt.alloc(), None)?;
    for (side, before, points) in [(0, 45, WEST), (0, 3, WEST), (3, 45, ABOVE), (3, 3, ABOVE)] {
        let choice = arm_and_turn(side);
        let below = solved_with(rt.alloc(), &TotalLength, &spine, choice, before, 4)?;
        assert!(rt; bound_above(&below) == Some(5), "at side {side}, {before}");
        let found = solved_with(rt.alloc(), &TotalLength, &spine, choice, before, 5)?;
        assert!(rt;
            is_least(rt.alloc(), &found, 5, &points)?,
            "at side {side}, {before}"
        );
    }
    Ok(())
}

#[test]
fn a_cycle_by_the_last_choice(rt: HostRuntime) -> Result<(), Fail> {
    let spine = spine(rt.alloc(), None)?;
    let choice = arm_and_turn(1);
    let verdict = solved_with(rt.alloc(), &TotalLength, &spine, choice, 45, 45)?;
    assert!(rt; is_cycle(&verdict, Axis::X, &[0, 2]));
    Ok(())
}
