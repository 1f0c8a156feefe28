//! Small drawings: how long they are, how they are ordered and where they are moved; and which
//! types cross threads.

ghost use Rattle.std.specs.Prelude.{◌≡◌, length, IfOk};

use super::*;
use std::alloc::Global;
use std::cmp::Ordering;
use std::test::Fail;

/// Three pieces that follow one another.
fn path(alloc: Global) -> Result<Plan, Fail>
    ensures { IfOk result (λ plan. (plan.vertices ≡ 4) × (length plan.pieces ≡ 3)) }
{
    let plan = Plan::of_ends(alloc, 4, &[(0, 1), (2, 1), (2, 3)])?.ok_or("not a plan")?;
    Ok(plan)
}

#[test]
fn lengths_of_drawings(rt: HostRuntime) -> Result<(), Fail> {
    let plan = path(rt.alloc())?;
    for (points, length) in [
        ([(0, 0), (1, 0), (1, 1), (2, 1)], 3),
        ([(-3, 5), (4, 5), (4, -5), (9, -5)], 22),
        ([(7, 7), (7, 7), (7, 7), (7, 7)], 0),
        ([(0, 0), (2, 3), (2, 3), (2, 3)], 5),
    ] {
        let places = Places::at(rt.alloc(), points.as_slice())?;
        assert_eq!(rt; plain_length(&plan, &places), length);
    }
    Ok(())
}

/// How a key of worth 5 compares with another.
fn order_of(
    alloc: Global,
    points: &[(i32, i32)],
    worth: i64,
    others: &[(i32, i32)],
) -> Result<Ordering, NoMemory>
    requires { length points.now ≡ length others.now }
{
    let places = Places::at(alloc, points)?;
    let other = Places::at(alloc, others)?;
    Ok(compare(
        &Key { worth: 5, places },
        &Key {
            worth,
            places: other,
        },
    ))
}

#[test]
fn order_of_keys(rt: HostRuntime) {
    for (worth, others, order) in [
        (5, [(0, 2), (1, 0)], Ordering::Equal),
        (6, [(0, 2), (0, 0)], Ordering::Less),
        (4, [(0, 2), (2, 0)], Ordering::Greater),
        (5, [(0, 3), (0, 0)], Ordering::Less),
        (5, [(0, 2), (0, 9)], Ordering::Greater),
        (5, [(0, 2), (1, 1)], Ordering::Less),
    ] {
        let found = order_of(rt.alloc(), &[(0, 2), (1, 0)], worth, others.as_slice());
        assert_eq!(rt; found, Ok(order));
    }
}

#[test]
fn shifts_to_zero(rt: HostRuntime) -> Result<(), Fail> {
    for (points, shifted) in [
        ([(3, -2), (-1, 5)], [(4, 0), (0, 7)]),
        ([(2, 4), (9, 8)], [(0, 0), (7, 4)]),
    ] {
        let mut places = Places::at(rt.alloc(), points.as_slice())?;
        let expected = Places::at(rt.alloc(), shifted.as_slice())?;
        shift_to_zero(&mut places);
        assert_eq!(rt; places.xy.as_slice(), expected.xy.as_slice());
    }
    Ok(())
}

#[test]
fn ends_of_a_plan(rt: HostRuntime) -> Result<(), Fail> {
    let plan = path(rt.alloc())?;
    let pieces = [Piece::new(0, 1), Piece::new(2, 1), Piece::new(2, 3)];
    assert_eq!(rt; plan.pieces.as_slice(), pieces.as_slice());
    for ends in [[(0, 1), (2, 3)], [(0, 1), (3, 2)]] {
        assert!(rt; Plan::of_ends(rt.alloc(), 3, ends.as_slice())?.is_none());
    }
    Ok(())
}

#[test]
fn ends_and_coordinates_by_the_axis(rt: HostRuntime) {
    let piece = Piece::new(4, 7);
    for (way, low, high) in [
        (Way::East, 4, 7),
        (Way::West, 7, 4),
        (Way::High, 4, 7),
        (Way::Low, 7, 4),
    ] {
        assert_eq!(rt; low_end(way, piece), low);
        assert_eq!(rt; high_end(way, piece), high);
    }
    let point = Point { x: 3, y: -5 };
    assert_eq!(rt; coordinate(Axis::X, point), 3);
    assert_eq!(rt; coordinate(Axis::Y, point), -5);
}

#[test]
fn copies_of_a_drawing(rt: HostRuntime) -> Result<(), Fail> {
    let alloc = rt.alloc();
    let plan = path(alloc)?;
    let ways = Items::from_slice(alloc, &[Way::East, Way::High, Way::Low])?;
    let shape = Shape { plan, ways };
    let same = shape.copy()?;
    assert_eq!(rt; same.plan.vertices, 4);
    assert_eq!(rt; same.plan.pieces.as_slice(), shape.plan.pieces.as_slice());
    assert_eq!(rt; same.ways.as_slice(), shape.ways.as_slice());
    let places = Places::at(alloc, &[(0, 1), (-2, 3)])?;
    let key = Key { worth: 7, places };
    let same = key.copy()?;
    assert_eq!(rt; same.worth, 7);
    assert_eq!(rt; same.places.xy.as_slice(), key.places.xy.as_slice());
    Ok(())
}

#[test]
fn copies_of_what_a_search_hands_on(rt: HostRuntime) -> Result<(), Fail> {
    let alloc = rt.alloc();
    let first = Choice {
        s: 0,
        t: 5,
        side: 3,
    };
    let second = Choice {
        s: 1,
        t: 2,
        side: 0,
    };
    let choices = Extension {
        choices: Items::from_slice(alloc, &[first, second])?,
    };
    let branch = Branch { id: 9, choices };
    let same = branch.copy()?;
    assert_eq!(rt; same.id, 9);
    assert_eq!(rt; same.choices.choices.as_slice(), [first, second].as_slice());
    let flows = Flows {
        x: Flow {
            amounts: Items::from_slice(alloc, &[3, 1])?,
        },
        y: Flow {
            amounts: Items::from_slice(alloc, &[4])?,
        },
    };
    let same = flows.copy()?;
    assert_eq!(rt; same.x.amounts.as_slice(), [3, 1].as_slice());
    assert_eq!(rt; same.y.amounts.as_slice(), [4].as_slice());
    Ok(())
}

fn both<T: Send + Sync>(_value: &T) {}

fn items_cross<T: Send + Sync>(items: &Items<T>) {
    both(items);
}

#[test]
fn types_cross_threads(rt: HostRuntime) -> Result<(), Fail> {
    let alloc = rt.alloc();
    let items: Items<Piece> = Items::new(alloc);
    items_cross(&items);
    let plan = path(alloc)?;
    both(&plan);
    both(&(Axis::X, Way::East, NoMemory));
    let refusal: Refusal<u8> = Refusal::NoMemory;
    both(&refusal);
    let places = Places::at(alloc, &[(0, 0)])?;
    both(&places);
    both(&Key { worth: 0, places });
    Ok(())
}

#[test]
fn what_a_search_hands_on_crosses_threads(rt: HostRuntime) {
    let alloc = rt.alloc();
    let choices = Extension {
        choices: Items::new(alloc),
    };
    both(&choices);
    both(&Branch { id: 0, choices });
    let x = Flow {
        amounts: Items::new(alloc),
    };
    let y = Flow {
        amounts: Items::new(alloc),
    };
    both(&x);
    both(&Flows { x, y });
    both(&Choice {
        s: 0,
        t: 1,
        side: 0,
    });
}
