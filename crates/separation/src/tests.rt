//! What the calls answer on small drawings, worked out by hand.

use crate::{
    Sides, branch_pair, extension_of, is_complete, is_separated, open_sides, splitting_pair,
};
use bars::bars_of_points;
use compact_types::{Choice, Extension, Items, NoMemory, Places};
use examples::{Example, example_of, rows_of};
use shape_graphs::{Arc, find_cycle, graphs_of};
use std::alloc::Global;
use std::test::Fail;
use ways::have_ways;

mod examples;
mod stairs;
mod ways;

/// A spine with an arm at each end, of which the lower one turns up: its segments are the rows
/// 0 and 1 of the lower and the upper arm, the column 2 of the spine, and the column 3 of the turn.
const SPINE: [(i32, i32); 5] = [(0, 0), (0, 10), (20, 0), (20, 5), (10, 10)];

/// The pieces of the spine: between its ends, to the turn, up, and to the end of the upper arm.
const SPINE_ENDS: [(u32, u32); 4] = [(0, 1), (0, 2), (2, 3), (1, 4)];

/// The spine with this choice.
fn spine(alloc: Global, choice: Option<Choice>) -> Result<Example, Fail> {
    example_of(alloc, &SPINE, &SPINE_ENDS, choice)
}

/// The choice that keeps the upper arm and the turn apart by this side.
fn arm_and_turn(side: u8) -> Choice {
    Choice { s: 1, t: 3, side }
}

/// Which sides of the pair are open; `None` where it is no pair.
fn sides_at(alloc: Global, example: &Example, s: u32, t: u32) -> Result<Option<Sides>, NoMemory> {
    if !example.bars.is_pair(s, t) {
        return Ok(None);
    }
    let reach = rows_of(alloc, example)?;
    Ok(Some(open_sides(&example.bars, &reach, s, t)))
}

/// Whether the pair is kept apart; `None` where it is no pair.
fn separated_at(
    alloc: Global,
    example: &Example,
    s: u32,
    t: u32,
) -> Result<Option<bool>, NoMemory> {
    if !example.bars.is_pair(s, t) {
        return Ok(None);
    }
    let reach = rows_of(alloc, example)?;
    Ok(Some(is_separated(&example.bars, &reach, s, t)))
}

/// Whether all pairs are kept apart.
fn complete_at(alloc: Global, example: &Example) -> Result<bool, NoMemory> {
    let reach = rows_of(alloc, example)?;
    Ok(is_complete(&example.bars, &reach))
}

/// Whether a path leads from column `a` to column `b`; `None` where there is no such column.
fn leads_at(alloc: Global, example: &Example, a: u32, b: u32) -> Result<Option<bool>, NoMemory> {
    let columns = example.bars.columns();
    if a >= columns || b >= columns {
        return Ok(None);
    }
    let reach = rows_of(alloc, example)?;
    Ok(Some(reach.x.reaches(a, b)))
}

/// The same after an arc from `a` to `b` was added.
fn leads_with_arc(
    alloc: Global,
    example: &Example,
    a: u32,
    b: u32,
) -> Result<Option<bool>, NoMemory> {
    let columns = example.bars.columns();
    if a >= columns || b >= columns {
        return Ok(None);
    }
    let mut reach = rows_of(alloc, example)?;
    reach.x.add_arc(a, b);
    Ok(Some(reach.x.reaches(a, b)))
}

/// The pair at which a search splits the empty list of choices in these places, which solve it: as
/// `branch_pair` names it and as `splitting_pair` does.
fn splits_at(
    alloc: Global,
    example: &Example,
    points: &[(i32, i32)],
) -> Result<[Option<(u32, u32)>; 2], Fail> {
    let places = Places::at(alloc, points)?;
    let shape = example.bars.shape();
    if places.xy.len() != shape.plan.vertices as usize {
        return Err(Fail::new("no place for each vertex"));
    }
    if !have_ways(shape, &places) {
        return Err(Fail::new("no solution"));
    }
    let reach = rows_of(alloc, example)?;
    let choices = Items::new(alloc);
    let none = Extension { choices };
    Ok([
        branch_pair(&example.bars, &reach, &places),
        splitting_pair(alloc, &example.bars, &none, &places)?,
    ])
}

/// Whether the drawing with these points and pieces gives the extension of these choices.
fn extends_by(
    alloc: Global,
    points: &[(i32, i32)],
    ends: &[(u32, u32)],
    choices: &[Choice],
) -> Result<bool, Fail> {
    let drawn = bars_of_points(alloc, points, ends)?.ok_or("no drawing")?;
    let extension = extension_of(alloc, &drawn.0, &drawn.1)?;
    Ok(extension.choices.as_slice() == choices)
}

fn both<T: Send + Sync>(_value: &T) {}

#[test]
fn open_sides_cross_threads() {
    both(&Sides { is_open: [true; 4] });
}

#[test]
fn sides_of_the_spine(rt: HostRuntime) -> Result<(), Fail> {
    let spine = spine(rt.alloc(), None)?;
    let outer = Sides {
        is_open: [true, false, false, true],
    };
    assert!(rt; sides_at(rt.alloc(), &spine, 1, 3)? == Some(outer));
    Ok(())
}

#[test]
fn pairs_of_the_spine(rt: HostRuntime) -> Result<(), Fail> {
    let alloc = rt.alloc();
    let spine = spine(alloc, None)?;
    assert!(rt; separated_at(alloc, &spine, 0, 1)? == Some(true));
    assert!(rt; separated_at(alloc, &spine, 2, 3)? == Some(true));
    assert!(rt; separated_at(alloc, &spine, 1, 3)? == Some(false));
    assert!(rt; !complete_at(alloc, &spine)?);
    Ok(())
}

#[test]
fn complete_by_one_choice(rt: HostRuntime) -> Result<(), Fail> {
    let alloc = rt.alloc();
    let spine = spine(alloc, Some(arm_and_turn(0)))?;
    assert!(rt; separated_at(alloc, &spine, 1, 3)? == Some(true));
    assert!(rt; complete_at(alloc, &spine)?);
    Ok(())
}

#[test]
fn paths_between_columns(rt: HostRuntime) -> Result<(), Fail> {
    let alloc = rt.alloc();
    let spine = spine(alloc, None)?;
    assert!(rt; leads_at(alloc, &spine, 0, 1)? == Some(true));
    assert!(rt; leads_at(alloc, &spine, 1, 0)? == Some(false));
    assert!(rt; leads_at(alloc, &spine, 0, 0)? == Some(false));
    assert!(rt; leads_at(alloc, &spine, 2, 1)? == Some(false));
    assert!(rt; leads_with_arc(alloc, &spine, 2, 1)? == Some(true));
    Ok(())
}

#[test]
fn split_where_the_arm_meets_the_turn(rt: HostRuntime) -> Result<(), Fail> {
    let spine = spine(rt.alloc(), None)?;
    let least = [(0, 0), (0, 1), (1, 0), (1, 1), (1, 1)];
    assert!(rt; splits_at(rt.alloc(), &spine, &least)? == [Some((1, 3)); 2]);
    let drawing = [(0, 0), (0, 1), (2, 0), (2, 1), (1, 1)];
    assert!(rt; splits_at(rt.alloc(), &spine, &drawing)? == [None; 2]);
    Ok(())
}

/// The spine with two turns, the row of whose upper arm meets both: the column 4 of the turn at
/// x = 1 and the column 3 of that at x = 2. Each pair has the same two sides open: the arm may end
/// west of the turn, or run above it. So the first in list order is taken, although a sweep from
/// the west comes to the other before.
#[test]
fn first_of_pairs_with_as_many_open_sides(rt: HostRuntime) -> Result<(), Fail> {
    let turns = example_of(
        rt.alloc(),
        &[
            (0, 0),
            (0, 10),
            (30, 0),
            (30, 5),
            (20, 0),
            (20, 5),
            (5, 10),
            (10, 10),
        ],
        &[(0, 1), (0, 4), (4, 2), (2, 3), (4, 5), (1, 6), (6, 7)],
        None,
    )?;
    let least = [
        (0, 0),
        (0, 1),
        (2, 0),
        (2, 1),
        (1, 0),
        (1, 1),
        (1, 1),
        (2, 1),
    ];
    assert!(rt; splits_at(rt.alloc(), &turns, &least)? == [Some((1, 3)); 2]);
    Ok(())
}

/// The same, but the spine goes on to a row that joins it with the turn at x = 1. The row is the
/// segment 2, so the turns are the columns 5 and 4. The arm cannot run above the turn at x = 1 any
/// more: this pair has one side open, and the other still two.
#[test]
fn pair_with_the_fewest_open_sides(rt: HostRuntime) -> Result<(), Fail> {
    let frame = example_of(
        rt.alloc(),
        &[
            (0, 0),
            (0, 10),
            (30, 0),
            (30, 5),
            (20, 0),
            (20, 20),
            (5, 10),
            (10, 10),
            (0, 20),
        ],
        &[
            (0, 1),
            (0, 4),
            (4, 2),
            (2, 3),
            (4, 5),
            (1, 6),
            (6, 7),
            (1, 8),
            (8, 5),
        ],
        None,
    )?;
    let least = [
        (0, 0),
        (0, 1),
        (2, 0),
        (2, 1),
        (1, 0),
        (1, 2),
        (1, 1),
        (2, 1),
        (0, 2),
    ];
    assert!(rt; splits_at(rt.alloc(), &frame, &least)? == [Some((1, 5)); 2]);
    Ok(())
}

#[test]
fn extension_of_the_spine(rt: HostRuntime) -> Result<(), Fail> {
    assert!(rt; extends_by(rt.alloc(), &SPINE, &SPINE_ENDS, &[arm_and_turn(0)])?);
    Ok(())
}

/// A cross whose four ends are rows and columns: of the rows 1 and 2 above and below, the upper one
/// begins west of the western column 5 and ends west of the eastern column 4, and the lower one
/// begins east of the western and ends east of the eastern.
#[test]
fn extension_with_all_four_sides(rt: HostRuntime) -> Result<(), Fail> {
    let points = [
        (40, 40),
        (40, 50),
        (40, 30),
        (60, 40),
        (20, 40),
        (50, 50),
        (10, 50),
        (70, 30),
        (30, 30),
        (60, 45),
        (60, 35),
        (20, 45),
        (20, 35),
    ];
    let ends = [
        (0, 1),
        (2, 0),
        (0, 3),
        (4, 0),
        (1, 5),
        (6, 1),
        (2, 7),
        (8, 2),
        (3, 9),
        (10, 3),
        (4, 11),
        (12, 4),
    ];
    let choices = [
        Choice {
            s: 1,
            t: 4,
            side: 0,
        },
        Choice {
            s: 1,
            t: 5,
            side: 3,
        },
        Choice {
            s: 2,
            t: 4,
            side: 2,
        },
        Choice {
            s: 2,
            t: 5,
            side: 1,
        },
    ];
    assert!(rt; extends_by(rt.alloc(), &points, &ends, &choices)?);
    Ok(())
}

/// An arc with the least difference of all arcs.
fn arc(from: u32, to: u32, pull: i64) -> Arc {
    Arc {
        from,
        to,
        least: 1,
        pull,
    }
}

#[test]
fn arcs_of_the_spine(rt: HostRuntime) -> Result<(), Fail> {
    let spine = spine(rt.alloc(), Some(arm_and_turn(0)))?;
    let (columns, rows) = graphs_of(rt.alloc(), &spine.bars, &spine.extension)?;
    assert!(rt; columns.nodes == 3 && rows.nodes == 3);
    assert!(rt; columns.arcs.as_slice() == [arc(0, 1, 1), arc(0, 2, 1), arc(2, 1, 0)].as_slice());
    assert!(rt; rows.arcs.as_slice() == [arc(0, 1, 1), arc(0, 2, 1)].as_slice());
    Ok(())
}

#[test]
fn cycle_of_a_closed_side(rt: HostRuntime) -> Result<(), Fail> {
    let spine = spine(rt.alloc(), Some(arm_and_turn(1)))?;
    let (columns, rows) = graphs_of(rt.alloc(), &spine.bars, &spine.extension)?;
    let cycle = find_cycle(rt.alloc(), &columns)?.ok_or("no cycle")?;
    assert!(rt; cycle.arcs.as_slice() == [0, 2].as_slice());
    assert!(rt; find_cycle(rt.alloc(), &rows)?.is_none());
    Ok(())
}
