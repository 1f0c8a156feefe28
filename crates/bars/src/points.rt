//! The segments of a small drawing that is given by its points.

ghost use Rattle.std.specs.Prelude.{IfOk, IfSome, MatchOption};
ghost use Rattle.compact_types.specs.declared.plan.Shape.{Shape as AnyShape};
ghost use Rattle.compact_types.specs.Drawings.{IsDrawing};
ghost use Rattle.compact_types.specs.Magnitudes.{AreWithin};
ghost use Rattle.drawing_check.specs.Conditions.{CanCheck};
ghost use Rattle.drawing_check.specs.Shapes.{IsShapeOf};
ghost use Rattle.bars.specs.Points.{HaveNoDrawing, IsDrawnAt};

use crate::segments::{Bars, bars_of};
use compact_types::{
    GREATEST_THOUSANDTHS, MOST_PIECES, MOST_VERTICES, NoMemory, Places, Plan, Refusal, Shape,
};
use drawing_check::check_alone;
use std::alloc::Global;

/// The segments of the drawing with these points and with a piece for each pair of ends, and its
/// places; `None` exactly if they are not a connected drawing with at least one vertex, at most
/// 1,000 vertices and at most 6,000 pieces.
pub fn bars_of_points(
    alloc: Global,
    points: &[(i32, i32)],
    ends: &[(u32, u32)],
) -> Result<Option<(Bars, Places)>, NoMemory>
    ensures drawing { IfOk result (λ made. IfSome made (λ drawn. IsDrawing drawn.0 drawn.1)) }
    ensures near { IfOk result (λ made. IfSome made (λ drawn.
        AreWithin GREATEST_THOUSANDTHS drawn.1)) }
    ensures exact { IfOk result (λ made. MatchOption made
        (HaveNoDrawing points.now ends.now)
        (λ drawn. IsDrawnAt points.now ends.now drawn.0 drawn.1)) }
{
    let few_vertices = points.len() <= MOST_VERTICES as usize;
    if points.is_empty() || !few_vertices || ends.len() > MOST_PIECES {
        return Ok(None);
    }
    let Some(plan) = Plan::of_ends(alloc, points.len() as u32, ends)? else {
        return Ok(None);
    };
    let places = Places::at(alloc, points)?;
    let Some(shape) = shape_at(alloc, &plan, &places)? else {
        return Ok(None);
    };
    let bars = bars_of(alloc, &shape)?;
    Ok(Some((bars, places)))
}

/// The shape of the plan in these places; `None` exactly if there is not one.
fn shape_at(alloc: Global, plan: &Plan, places: &Places) -> Result<Option<Shape>, NoMemory>
    requires { CanCheck plan.now places.now }
    ensures { IfOk result (λ found. MatchOption found
        ((shape : AnyShape) → IsShapeOf plan.now places.now shape → ⊥)
        (IsShapeOf plan.now places.now)) }
{
    match check_alone(alloc, plan, places) {
        Ok(shape) => Ok(Some(shape)),
        Err(Refusal::Fault(_)) => Ok(None),
        Err(Refusal::NoMemory) => Err(NoMemory),
    }
}

#[cfg(test)]
mod tests {
    use super::*;
    use std::test::Fail;

    #[test]
    fn points_of_no_drawing(rt: HostRuntime) -> Result<(), Fail> {
        // No vertex, an end that is not a vertex, two parts, a slanted piece, and two pieces that
        // cross.
        let cases: [(&[(i32, i32)], &[(u32, u32)]); 5] = [
            (&[], &[]),
            (&[(0, 0)], &[(0, 1)]),
            (&[(0, 0), (1, 0)], &[]),
            (&[(0, 0), (1, 1)], &[(0, 1)]),
            (&[(0, 0), (2, 0), (1, -1), (1, 1)], &[(0, 1), (2, 3)]),
        ];
        for (points, ends) in cases {
            assert!(rt; bars_of_points(rt.alloc(), points, ends)?.is_none());
        }
        Ok(())
    }
}
