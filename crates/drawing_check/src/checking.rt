//! The shape of a plan in its places, or the first fault.

ghost use Rattle.compact_types.specs.declared.places.Places.{Places as AnyPlaces};
ghost use Rattle.compact_types.specs.declared.plan.Plan.{Plan as AnyPlan};
ghost use Rattle.std.specs.Prelude.{IfOk, OnOk};
ghost use Rattle.compact_types.specs.Connected.{IsConnected};
ghost use Rattle.compact_types.specs.Refusals.{Decides, HasOneAnswer, IfFault};
ghost use Rattle.drawing_check.specs.Conditions.{CanCheck};
ghost use Rattle.drawing_check.specs.Faults.{FirstShapeFault};
ghost use Rattle.drawing_check.specs.Shapes.{IsShapeOf};
ghost use Rattle.drawing_check.specs.inner.PieceWays.{AreWays};

use crate::fault::ShapeFault;
use crate::joined::first_apart;
use crate::meeting::first_meeting;
use crate::sweep::meeting_by_sweep;
use crate::ways::{first_without_length, ways_of};
use compact_types::{Items, Places, Plan, Refusal, Shape, Way};
use std::alloc::Global;
use std::thread::Threads;

/// The shape of the plan in these places: the way of each piece, where the plan is connected and
/// the places are crossing-free; otherwise the first fault. Coordinates are whole numbers of any
/// unit. Several threads look for pieces that meet.
pub fn check<R: Threads + Sync>(
    rt: &R,
    alloc: Global,
    plan: &Plan,
    places: &Places,
) -> Result<Shape, Refusal<ShapeFault>>
    requires { CanCheck plan.now places.now }
    ensures decides { Decides result
        (IsShapeOf plan.now places.now)
        (FirstShapeFault plan.now places.now) }
{
    let ways = connected_ways(alloc, plan, places)?;
    if let Some(meeting) = meeting_by_sweep(rt, alloc, plan, places)? {
        return Err(Refusal::Fault(meeting.into()));
    }
    let plan = plan.copy()?;
    Ok(Shape { plan, ways })
}

/// What `check` answers, found in one thread by comparing all pairs of pieces: for small drawings.
pub fn check_alone(
    alloc: Global,
    plan: &Plan,
    places: &Places,
) -> Result<Shape, Refusal<ShapeFault>>
    requires { CanCheck plan.now places.now }
    ensures decides { Decides result
        (IsShapeOf plan.now places.now)
        (FirstShapeFault plan.now places.now) }
{
    let ways = connected_ways(alloc, plan, places)?;
    if let Some(meeting) = first_meeting(plan, places, 0) {
        return Err(Refusal::Fault(meeting.into()));
    }
    let plan = plan.copy()?;
    Ok(Shape { plan, ways })
}

/// The way of each piece, where each has one and the plan is connected; otherwise the first fault.
fn connected_ways(
    alloc: Global,
    plan: &Plan,
    places: &Places,
) -> Result<Items<Way>, Refusal<ShapeFault>>
    requires { CanCheck plan.now places.now }
    ensures ways { IfOk result (AreWays plan.now places.now) }
    ensures connected { OnOk result (IsConnected plan.now) }
    ensures fault { IfFault result (FirstShapeFault plan.now places.now) }
{
    if let Some(piece) = first_without_length(plan, places) {
        return Err(Refusal::Fault(ShapeFault::ZeroPiece(piece)));
    }
    let ways = ways_of(alloc, plan, places)?;
    if let Some(vertex) = first_apart(alloc, plan)? {
        return Err(Refusal::Fault(ShapeFault::Disconnected(vertex)));
    }
    Ok(ways)
}

/// A plan and places that can be checked have exactly one shape and no first fault, or exactly one
/// first fault and no shape.
pub fn one_shape_or_fault()
    ensures { (plan : AnyPlan) (places : AnyPlaces) → CanCheck plan places →
        HasOneAnswer (IsShapeOf plan places) (FirstShapeFault plan places) }
{}

#[cfg(test)]
mod tests;
