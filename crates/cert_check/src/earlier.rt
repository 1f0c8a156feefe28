//! Whether the least places that are tight for two flows come before the drawing.

ghost use Rattle.std.specs.Prelude.{◌≡◌, length, IfOk, MatchOption};
ghost use Rattle.compact_types.specs.declared.places.Axis.TheVariants as axis;
ghost use Rattle.compact_types.specs.declared.places.Places.{Places as AnyPlaces};
ghost use Rattle.bars.specs.Segments.{node_count};
ghost use Rattle.bars.specs.Solutions.{Fit};
ghost use Rattle.potentials.specs.Standing.{StandAt, numbers_along};
ghost use Rattle.cert_text.specs.Accepting.{NoneEarlier};
ghost use Rattle.cert_check.specs.Faults.{IsEarlierAt};
ghost use Rattle.cert_check.specs.inner.Comparing.{IsFirstLess, IsNotFirstLess};
ghost use Rattle.cert_check.specs.inner.Flowing.{HasFlows, flows_on};

use bars::Bars;
use compact_types::{NoMemory, Places, Point, compare_points};
use diff_flow::least_tight;
use potentials::point_of;
use shape_graphs::GrowingGraphs;
use std::alloc::Global;
use std::cmp::Ordering;

/// The first vertex at which the least tight places differ, if these come before the drawing;
/// `None` exactly if they do not, or if no places are tight.
pub(crate) fn earlier(
    alloc: Global,
    bars: &Bars,
    places: &Places,
    branch: &GrowingGraphs,
) -> Result<Option<u32>, NoMemory>
    requires fit { Fit bars.now branch.now.choices }
    requires flows { HasFlows bars.now branch.now }
    requires places_fit { length places.now.xy ≡ bars.now.plan.vertices }
    ensures { IfOk result (λ found. MatchOption found
        (NoneEarlier bars.now branch.now.choices (flows_on branch.now) places.now)
        (IsEarlierAt bars.now branch.now.choices (flows_on branch.now) places.now)) }
{
    // The call says what is known of the shape: that it is small and has a drawing.
    let _what_is_known = bars.shape();
    let across = match least_tight(alloc, &branch.columns.graph, &branch.columns.flow)? {
        Some(numbers) => numbers,
        None => return Ok(None),
    };
    let up = match least_tight(alloc, &branch.rows.graph, &branch.rows.flow)? {
        Some(numbers) => numbers,
        None => return Ok(None),
    };
    let points = places.xy.as_slice();
    Ok(first_less(bars, across.as_slice(), up.as_slice(), points))
}

/// The first vertex at which the places with these numbers differ from the points, if they come
/// before these.
fn first_less(bars: &Bars, across: &[i64], up: &[i64], points: &[Point]) -> Option<u32>
    requires across { length across.now ≡ node_count axis.X bars.now }
    requires up { length up.now ≡ node_count axis.Y bars.now }
    requires fit { length points.now ≡ bars.now.plan.vertices }
    ensures { (places : AnyPlaces) → StandAt bars.now (numbers_along across.now up.now) places →
        MatchOption result
        (IsNotFirstLess places.xy points.now)
        (IsFirstLess places.xy points.now) }
{
    let vertices = bars.shape().plan.vertices;
    for v in 0..vertices {
        let point = point_of(bars, across, up, v);
        match compare_points(point, points[v as usize]) {
            Ordering::Less => return Some(v),
            Ordering::Equal => {}
            Ordering::Greater => return None,
        }
    }
    None
}
