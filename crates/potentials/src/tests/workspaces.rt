//! Several lists of choices, one after the other in one workspace.

ghost use Rattle.std.specs.Prelude.{OnOk};
ghost use Rattle.bars.specs.Solutions.{Fit};

use super::examples::{Example, longer};
use super::{ABOVE, WEST, arm_and_turn, bound_above, is_cycle, is_least, spine};
use crate::TotalLength;
use bars::Bars;
use compact_types::{Axis, Choice, Extension, NoMemory};
use shape_graphs::{Measure, Verdict};
use std::alloc::Global;
use std::test::Fail;

/// The verdict on the choices, without a proof to begin from.
fn solved_in<M: Measure>(
    alloc: Global,
    measure: &M,
    bars: &Bars,
    workspace: &mut M::Workspace,
    extension: &Extension,
    stop: i64,
) -> Result<Verdict<M::Proof>, NoMemory>
    requires fit { Fit bars.now extension.now.choices }
    requires serves { M.Workspace.serves bars.now workspace.old }
    ensures { OnOk result (M.Workspace.serves bars.now workspace.new) }
{
    let start: Option<M::Proof> = None;
    measure.solve_in(alloc, bars, workspace, extension, start.as_ref(), stop)
}

/// The verdict on the second choice, after those on no choice and on the first choice alone.
fn solved_after<M: Measure>(
    alloc: Global,
    measure: &M,
    example: &Example,
    first: Choice,
    second: Choice,
    stop: i64,
) -> Result<Verdict<M::Proof>, Fail> {
    let bars = &example.bars;
    let none = &example.extension;
    let with_first = longer(bars, none, first)?;
    let with_second = longer(bars, none, second)?;
    let mut workspace = measure.workspace(alloc, bars)?;
    let _none = solved_in(alloc, measure, bars, &mut workspace, none, 45)?;
    let _first = solved_in(alloc, measure, bars, &mut workspace, &with_first, 45)?;
    let second = solved_in(alloc, measure, bars, &mut workspace, &with_second, stop)?;
    Ok(second)
}

#[test]
fn one_choice_after_another(rt: HostRuntime) -> Result<(), Fail> {
    let alloc = rt.alloc();
    let spine = spine(alloc, None)?;
    for (first, second, points) in [(0, 3, ABOVE), (3, 0, WEST), (1, 3, ABOVE), (2, 0, WEST)] {
        let first = arm_and_turn(first);
        let second = arm_and_turn(second);
        let below = solved_after(alloc, &TotalLength, &spine, first, second, 4)?;
        assert!(rt; bound_above(&below) == Some(5));
        let found = solved_after(alloc, &TotalLength, &spine, first, second, 5)?;
        assert!(rt; is_least(alloc, &found, 5, &points)?);
    }
    Ok(())
}

#[test]
fn a_cycle_after_a_key(rt: HostRuntime) -> Result<(), Fail> {
    let alloc = rt.alloc();
    let spine = spine(alloc, None)?;
    for (second, axis) in [(1, Axis::X), (2, Axis::Y)] {
        let first = arm_and_turn(0);
        let second = arm_and_turn(second);
        let verdict = solved_after(alloc, &TotalLength, &spine, first, second, 45)?;
        assert!(rt; is_cycle(&verdict, axis, &[0, 2]));
    }
    Ok(())
}
