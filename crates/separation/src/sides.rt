//! The four sides of a pair of segments, looked up in the rows of the two graphs.

ghost use Rattle.std.specs.Prelude.{◌≡◌, ◌<◌, ◌↔◌, IsTrue, IfOk, List, length};
ghost use Rattle.compact_types.specs.declared.places.Axis.TheVariants as axes;
ghost use Rattle.compact_types.specs.declared.search.Choice.{Choice as AnyChoice};
ghost use Rattle.bars.specs.Segments.{node_count, IsPair};
ghost use Rattle.bars.specs.Sides.{side_axis};
ghost use Rattle.bars.specs.Solutions.{Fit, with_choice};
ghost use Rattle.shape_graphs.specs.Flows.{IsSolution, number_at};
ghost use Rattle.shape_graphs.specs.Graphs as graphs;
ghost use Rattle.shape_graphs.specs.Graphs.{arcs_of};
ghost use Rattle.shape_graphs.specs.Paths.{HasPath};
ghost use Rattle.shape_graphs.specs.Separation.{HasSidePath, IsSeparated};
ghost use Rattle.separation.specs.Reaching.{IsReachOf, IsReach, ClosesCycle, AreOpenSides};

use bars::Bars;
use compact_types::{Choice, Extension, NoMemory};
use reach_rows::ReachRows;
use shape_graphs::{graphs_of, side_arc};
use std::alloc::Global;

/// The rows of the column graph and of the row graph of an extension: which node reaches which.
#[derive(Drop)]
pub struct Reach {
    pub x: ReachRows,
    pub y: ReachRows,
}

/// Which of the four sides of a pair are open: whose arc closes no cycle.
#[derive(Clone, Copy, Debug, PartialEq, Eq)]
pub struct Sides {
    pub is_open: [bool; 4],
}

/// Whether the pair is kept apart already: a path leads where the arc of one of its sides would.
pub fn is_separated(bars: &Bars, reach: &Reach, s: u32, t: u32) -> bool
    requires pair { IsPair bars.now s t }
    requires reach { IsReach bars.now reach.now }
    ensures { (choices : List AnyChoice) → IsReachOf bars.now choices reach.now →
        IsTrue result ↔ IsSeparated bars.now choices s t }
{
    for side in 0..4 {
        if is_kept(bars, reach, s, t, side) {
            return true;
        }
    }
    false
}

/// Which sides of the pair are open.
pub fn open_sides(bars: &Bars, reach: &Reach, s: u32, t: u32) -> Sides
    requires pair { IsPair bars.now s t }
    requires reach { IsReach bars.now reach.now }
    ensures { (choices : List AnyChoice) → IsReachOf bars.now choices reach.now →
        AreOpenSides bars.now choices s t result.is_open }
{
    Sides {
        is_open: [
            !closes_cycle(bars, reach, s, t, 0),
            !closes_cycle(bars, reach, s, t, 1),
            !closes_cycle(bars, reach, s, t, 2),
            !closes_cycle(bars, reach, s, t, 3),
        ],
    }
}

/// The rows of the two graphs of the extension: which node reaches which.
pub fn reach_of(alloc: Global, bars: &Bars, extension: &Extension) -> Result<Reach, NoMemory>
    requires { Fit bars.now extension.now.choices }
    ensures { IfOk result (IsReachOf bars.now extension.now.choices) }
{
    let (columns, rows) = graphs_of(alloc, bars, extension)?;
    let x = ReachRows::of(alloc, &columns)?;
    let y = ReachRows::of(alloc, &rows)?;
    Ok(Reach { x, y })
}

/// The rows of the two graphs of the extension, by coordinates of the columns and of the rows that
/// solve them.
pub(crate) fn reach_by_coordinates(
    alloc: Global,
    bars: &Bars,
    extension: &Extension,
    xs: &[i64],
    ys: &[i64],
) -> Result<Reach, NoMemory>
    requires fit { Fit bars.now extension.now.choices }
    requires one_for_each_column { length xs.now ≡ node_count axes.X bars.now }
    requires one_for_each_row { length ys.now ≡ node_count axes.Y bars.now }
    requires columns { IsSolution (arcs_of axes.X bars.now extension.now.choices)
        (number_at xs.now) }
    requires rows { IsSolution (arcs_of axes.Y bars.now extension.now.choices) (number_at ys.now) }
    ensures { IfOk result (IsReachOf bars.now extension.now.choices) }
{
    let (columns, rows) = graphs_of(alloc, bars, extension)?;
    let x = ReachRows::by_numbers(alloc, &columns, xs)?;
    let y = ReachRows::by_numbers(alloc, &rows, ys)?;
    Ok(Reach { x, y })
}

/// Adds the arc of the side to the rows of its graph.
pub(crate) fn add_side_arc(reach: &mut Reach, bars: &Bars, s: u32, t: u32, side: u8)
    requires pair { IsPair bars.now s t }
    requires side { side < 4 }
    requires reach { IsReach bars.now reach.old }
    ensures { (choices : List AnyChoice) → IsReachOf bars.now choices reach.old →
        IsReachOf bars.now (with_choice choices s t side) reach.new }
{
    let (from, to) = side_ends(bars, s, t, side);
    if side < 2 {
        reach.x.add_arc(from, to);
    } else {
        reach.y.add_arc(from, to);
    }
}

/// Whether a path leads already where the arc of this side would.
fn is_kept(bars: &Bars, reach: &Reach, s: u32, t: u32, side: u8) -> bool
    requires pair { IsPair bars.now s t }
    requires side { side < 4 }
    requires reach { IsReach bars.now reach.now }
    ensures { (choices : List AnyChoice) → IsReachOf bars.now choices reach.now →
        IsTrue result ↔ HasSidePath bars.now choices s t side }
{
    let (from, to) = side_ends(bars, s, t, side);
    leads(bars, reach, side, from, to)
}

/// Whether the arc of this side would be a loop or close a cycle.
fn closes_cycle(bars: &Bars, reach: &Reach, s: u32, t: u32, side: u8) -> bool
    requires pair { IsPair bars.now s t }
    requires side { side < 4 }
    requires reach { IsReach bars.now reach.now }
    ensures { (choices : List AnyChoice) → IsReachOf bars.now choices reach.now →
        IsTrue result ↔ ClosesCycle bars.now choices s t side }
{
    let (from, to) = side_ends(bars, s, t, side);
    to == from || leads(bars, reach, side, to, from)
}

/// The nodes that the arc of this side joins.
#[tactic(auto, using(crate::proofs::PairSides::side_begins, crate::proofs::PairSides::side_stops))]
fn side_ends(bars: &Bars, s: u32, t: u32, side: u8) -> (u32, u32)
    requires pair { IsPair bars.now s t }
    requires side { side < 4 }
    ensures from { result.0 ≡ (graphs.side_arc bars.now s t side).from }
    ensures to { result.1 ≡ (graphs.side_arc bars.now s t side).to }
    ensures begins { (graphs.side_arc bars.now s t side).from
        < node_count (side_axis side) bars.now }
    ensures ends { (graphs.side_arc bars.now s t side).to
        < node_count (side_axis side) bars.now }
{
    let arc = side_arc(bars, Choice { s, t, side });
    (arc.from, arc.to)
}

/// Whether a path leads from node `a` to node `b` in the graph in which the arc of this side
/// stands.
fn leads(bars: &Bars, reach: &Reach, side: u8, a: u32, b: u32) -> bool
    requires side { side < 4 }
    requires begins { a < node_count (side_axis side) bars.now }
    requires ends { b < node_count (side_axis side) bars.now }
    requires reach { IsReach bars.now reach.now }
    ensures { (choices : List AnyChoice) → IsReachOf bars.now choices reach.now →
        IsTrue result ↔ HasPath (arcs_of (side_axis side) bars.now choices) a b }
{
    if side < 2 {
        reach.x.reaches(a, b)
    } else {
        reach.y.reaches(a, b)
    }
}
