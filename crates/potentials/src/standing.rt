//! Places of vertices from numbers on the nodes of the two graphs.

ghost use Rattle.std.specs.Prelude.{◌≡◌, ◌<◌, length, IfOk};
ghost use Rattle.compact_types.specs.declared.places.Axis.TheVariants as axis;
ghost use Rattle.bars.specs.Segments.{node_count, node_of};
ghost use Rattle.shape_graphs.specs.Flows.{number_at};
ghost use Rattle.potentials.specs.Standing.{StandAt, numbers_along};

use bars::Bars;
use compact_types::{Items, NoMemory, Places, Point};
use std::alloc::Global;

/// The places where each vertex has the number of its column as x and that of its row as y.
pub(crate) fn places_of(
    alloc: Global,
    bars: &Bars,
    across: &[i64],
    up: &[i64],
) -> Result<Places, NoMemory>
    requires across { length across.now ≡ node_count axis.X bars.now }
    requires up { length up.now ≡ node_count axis.Y bars.now }
    ensures { IfOk result (StandAt bars.now (numbers_along across.now up.now)) }
{
    let vertices = bars.shape().plan.vertices;
    let mut xy = Vec::with_capacity(alloc, vertices as usize)?;
    for v in 0..vertices {
        xy.push(point_of(bars, across, up, v))?;
    }
    Ok(Places {
        xy: Items::from_vec(xy),
    })
}

/// The place of a vertex, where `across` has a number for each column and `up` one for each row: x
/// is the number of its column, y that of its row.
pub fn point_of(bars: &Bars, across: &[i64], up: &[i64], v: u32) -> Point
    requires vertex { v < bars.now.plan.vertices }
    requires across { length across.now ≡ node_count axis.X bars.now }
    requires up { length up.now ≡ node_count axis.Y bars.now }
    ensures x { result.x ≡ number_at across.now (node_of axis.X bars.now v) }
    ensures y { result.y ≡ number_at up.now (node_of axis.Y bars.now v) }
{
    Point {
        x: across[bars.column_of(v) as usize],
        y: up[bars.row_of(v) as usize],
    }
}
