//! The lines of a shape along an axis, numbered in the order of their least vertices.

ghost use Rattle.std.specs.Prelude.{◌≡◌, ℕ, ◌<◌, length, IfOk, cond};
ghost use Rattle.compact_types.specs.Groups.{GoDown, IsLabelling, merged};
ghost use Rattle.compact_types.specs.Lookups.{axis_of};
ghost use Rattle.bars.specs.Lines.{is_axis};
ghost use Rattle.bars.specs.inner.Leads.{AreLeads};
ghost use Rattle.bars.specs.inner.Tables.{AreLines};

use compact_types::{Axis, NoMemory, Piece, Shape, Way, join_groups, single_groups};
use std::alloc::Global;

/// The rows of a shape, or its columns.
#[derive(Debug, Drop)]
pub(crate) struct Lines {
    /// The number of the line of each vertex.
    pub(crate) of: Vec<u32>,
    /// How many lines there are.
    pub(crate) count: u32,
}

/// The rows of the shape along X, its columns along Y.
///
/// Pieces along the axis join their ends, so that each vertex leads down to the least one of its
/// line. A vertex that leads to itself begins the next line.
pub(crate) fn lines_along(alloc: Global, shape: &Shape, axis: Axis) -> Result<Lines, NoMemory>
    ensures { IfOk result (AreLines axis shape.now) }
{
    let groups = line_groups(alloc, shape, axis)?;
    let leads = groups.as_slice();
    let mut of = Vec::with_capacity(alloc, leads.len())?;
    let mut count = 0;
    for v in 0..shape.plan.vertices {
        let lead = leads[v as usize];
        if lead == v {
            of.push(count)?;
            count += 1;
        } else {
            let line = of[lead as usize];
            of.push(line)?;
        }
    }
    Ok(Lines { of, count })
}

/// Each vertex leads down to the least vertex of its line.
fn line_groups(alloc: Global, shape: &Shape, axis: Axis) -> Result<Vec<u32>, NoMemory>
    ensures { IfOk result (λ leads.
        AreLeads axis shape.now (length shape.now.plan.pieces) leads.items) }
{
    let mut groups = single_groups(alloc, shape.plan.vertices)?;
    join_along(groups.as_mut_slice(), shape, axis);
    Ok(groups)
}

/// Makes one group of the ends of every piece along the axis.
fn join_along(leads: &mut [u32], shape: &Shape, axis: Axis)
    requires { AreLeads axis shape.now 0 leads.old }
    ensures { AreLeads axis shape.now (length shape.now.plan.pieces) leads.new }
{
    let pieces = shape.plan.pieces.as_slice();
    let ways = shape.ways.as_slice();
    for i in 0..pieces.len() {
        join_if(leads, pieces[i], goes_along(ways[i], axis));
    }
}

/// Makes one group of the ends of the piece if it is `along`.
fn join_if(leads: &mut [u32], piece: Piece, along: bool)
    requires from { piece.from < length leads.old }
    requires to { piece.to < length leads.old }
    requires down { GoDown leads.old }
    ensures down { GoDown leads.new }
    ensures labels { (labels : ℕ → ℕ) → IsLabelling leads.old labels →
        IsLabelling leads.new (λ v.
        cond along (merged labels piece.from piece.to v) (labels v)) }
{
    if along {
        join_groups(leads, piece.from, piece.to);
    }
}

/// Whether a piece with this way goes along the axis.
pub(crate) fn goes_along(way: Way, axis: Axis) -> bool
    ensures { result ≡ is_axis (axis_of way) axis }
{
    match axis {
        Axis::X => matches!(way, Way::East | Way::West),
        Axis::Y => matches!(way, Way::High | Way::Low),
    }
}
