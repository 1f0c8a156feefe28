//! What the solver says of small drawings, worked out by hand.

ghost use Rattle.std.specs.Prelude.{IfOk};
ghost use Rattle.shape_graphs.specs.Backings.{DoBack};
ghost use Rattle.shape_graphs.specs.Measures.{IsBacked};

use crate::{FlowKey, TotalLength, flow_key};
use compact_types::{Axis, Choice, Flows, NoMemory, Places};
use examples::{Example, example_of};
use shape_graphs::{Measure, Verdict};
use std::alloc::Global;
use std::test::Fail;

mod examples;
mod flows;
mod starts;
mod workspaces;

/// A spine with an arm at each end, of which the lower one turns up: its segments are the rows
/// 0 and 1 of the lower and the upper arm, the column 2 of the spine, and the column 3 of the turn.
fn spine(alloc: Global, choice: Option<Choice>) -> Result<Example, Fail> {
    example_of(
        alloc,
        &[(0, 0), (0, 10), (20, 0), (20, 5), (10, 10)],
        &[(0, 1), (0, 2), (2, 3), (1, 4)],
        choice,
    )
}

/// The places of its least key with the upper arm west of the turn, of length 5.
const WEST: [(i32, i32); 5] = [(0, 0), (0, 1), (2, 0), (2, 1), (1, 1)];

/// The places of its least key with the upper arm above the turn, of length 5.
const ABOVE: [(i32, i32); 5] = [(0, 0), (0, 2), (1, 0), (1, 1), (1, 2)];

/// The choice that keeps the upper arm and the turn apart by this side.
fn arm_and_turn(side: u8) -> Choice {
    Choice { s: 1, t: 3, side }
}

/// The verdict of a search that stops above this length.
fn solved(alloc: Global, example: &Example, stop: i64) -> Result<Verdict<Flows>, Fail>
    ensures { IfOk result
        (IsBacked (DoBack example.now.bars example.now.extension.choices)) }
{
    let verdict = solved_by(alloc, &TotalLength, example, stop)?;
    Ok(verdict)
}

/// The verdict of the solver of a measure.
fn solved_by<M: Measure>(
    alloc: Global,
    measure: &M,
    example: &Example,
    stop: i64,
) -> Result<Verdict<M::Proof>, NoMemory>
    ensures { IfOk result
        (IsBacked (M.Proof.backs example.now.bars example.now.extension.choices)) }
{
    let start: Option<M::Proof> = None;
    measure.solve(
        alloc,
        &example.bars,
        &example.extension,
        start.as_ref(),
        stop,
    )
}

/// The bound that passes the stop; `None` where the verdict is another.
fn bound_above(verdict: &Verdict<Flows>) -> Option<i64> {
    match verdict {
        Verdict::Above { bound, .. } => Some(*bound),
        _ => None,
    }
}

/// Whether the verdict is a least key that is worth so much and has these places.
fn is_least(
    alloc: Global,
    verdict: &Verdict<Flows>,
    worth: i64,
    points: &[(i32, i32)],
) -> Result<bool, NoMemory> {
    let places = Places::at(alloc, points)?;
    Ok(match verdict {
        Verdict::Least { key, .. } => {
            key.worth == worth && key.places.xy.as_slice() == places.xy.as_slice()
        }
        _ => false,
    })
}

/// What the flows of the least key prove; `None` where the verdict is another.
fn key_at(alloc: Global, example: &Example, stop: i64) -> Result<Option<FlowKey>, Fail> {
    let verdict = solved(alloc, example, stop)?;
    match &verdict {
        Verdict::Least { proof, .. } => {
            let key = flow_key(alloc, &example.bars, &example.extension, proof)?;
            Ok(Some(key))
        }
        _ => Ok(None),
    }
}

/// Whether the verdict is a cycle of these arcs in the graph of the axis.
fn is_cycle(verdict: &Verdict<Flows>, axis: Axis, arcs: &[u32]) -> bool {
    match verdict {
        Verdict::Cyclic { axis: found, cycle } => *found == axis && cycle.arcs.as_slice() == arcs,
        _ => false,
    }
}

#[test]
fn least_without_choices(rt: HostRuntime) -> Result<(), Fail> {
    let spine = spine(rt.alloc(), None)?;
    let points = [(0, 0), (0, 1), (1, 0), (1, 1), (1, 1)];
    assert!(rt; is_least(rt.alloc(), &solved(rt.alloc(), &spine, 45)?, 4, &points)?);
    assert!(rt; is_least(rt.alloc(), &solved(rt.alloc(), &spine, 4)?, 4, &points)?);
    assert!(rt; bound_above(&solved(rt.alloc(), &spine, 3)?) == Some(4));
    Ok(())
}

#[test]
fn least_with_a_choice(rt: HostRuntime) -> Result<(), Fail> {
    for (side, points) in [(0, WEST), (3, ABOVE)] {
        let spine = spine(rt.alloc(), Some(arm_and_turn(side)))?;
        assert!(rt;
            bound_above(&solved(rt.alloc(), &spine, 4)?) == Some(5),
            "at side {side}"
        );
        let found = solved(rt.alloc(), &spine, 5)?;
        assert!(rt; is_least(rt.alloc(), &found, 5, &points)?, "at side {side}");
    }
    Ok(())
}

#[test]
fn the_arm_is_not_east_of_the_turn(rt: HostRuntime) -> Result<(), Fail> {
    let spine = spine(rt.alloc(), Some(arm_and_turn(1)))?;
    assert!(rt; is_cycle(&solved(rt.alloc(), &spine, 45)?, Axis::X, &[0, 2]));
    Ok(())
}

#[test]
fn the_arm_is_not_below_the_lower_arm(rt: HostRuntime) -> Result<(), Fail> {
    let spine = spine(rt.alloc(), Some(arm_and_turn(2)))?;
    assert!(rt; is_cycle(&solved(rt.alloc(), &spine, 45)?, Axis::Y, &[0, 2]));
    Ok(())
}

#[test]
fn flows_of_the_least_key(rt: HostRuntime) -> Result<(), Fail> {
    let spine = spine(rt.alloc(), Some(arm_and_turn(0)))?;
    let key = key_at(rt.alloc(), &spine, 45)?.ok_or("no least key")?;
    assert!(rt; key.bound == 5);
    let least = key.least.ok_or("no places")?;
    assert!(rt; least.xy.as_slice() == Places::at(rt.alloc(), &WEST)?.xy.as_slice());
    Ok(())
}
