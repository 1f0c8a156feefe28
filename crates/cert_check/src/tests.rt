//! Certificates of a small drawing, worked out by hand.

use crate::CheckFault;
use examples::fault_of;
use std::alloc::Global;
use std::test::Fail;

mod bounds;
mod examples;

/// The best drawing, of length 5: the upper arm stands west of the turn.
const BEST: [(i32, i32); 5] = [(0, 0), (0, 1), (2, 0), (2, 1), (1, 1)];

/// The upper arm and the turn: west, east, below and above.
const SPLIT: &str = "#! split 1 3";

const WEST: &str = "#! bound x 1:2 2:1 y 0:1 1:1";

const EAST: &str = "#! cycle x 0 2";

const BELOW: &str = "#! cycle y 0 2";

const ABOVE: &str = "#! bound x 0:1 1:1 y 1:2 2:1";

/// Whether the certificate of the best drawing is accepted.
fn is_accepted(alloc: Global, lines: &[&str]) -> Result<bool, Fail> {
    Ok(fault_of(alloc, &BEST, lines)?.is_none())
}

#[test]
fn accepted(rt: HostRuntime) -> Result<(), Fail> {
    let alloc = rt.alloc();
    assert!(rt; is_accepted(alloc, &[SPLIT, WEST, EAST, BELOW, ABOVE])?);
    let twice = "#! cycle x 0 2 0 2";
    assert!(rt; is_accepted(alloc, &[SPLIT, WEST, twice, BELOW, ABOVE])?);
    // The choice makes the column graph a cycle, so that no numbers are tight.
    let not_tight = "#! bound x 0:2 1:1 2:1 y 0:1 1:1";
    assert!(rt; is_accepted(alloc, &[SPLIT, WEST, not_tight, BELOW, ABOVE])?);
    Ok(())
}

/// The lower and the upper arm are split again in the first branch, and in the last.
#[test]
fn splits_under_splits(rt: HostRuntime) -> Result<(), Fail> {
    let alloc = rt.alloc();
    let again = "#! split 0 1";
    let west = "#! cycle x 0 3";
    let east = "#! cycle x 1 3";
    let lines = [SPLIT, again, west, east, WEST, BELOW, EAST, BELOW, ABOVE];
    assert!(rt; is_accepted(alloc, &lines)?);
    let east = "#! cycle x 1 2";
    let above = "#! cycle y 0 3";
    let lines = [SPLIT, WEST, EAST, BELOW, again, EAST, east, ABOVE, above];
    assert!(rt; is_accepted(alloc, &lines)?);
    Ok(())
}

#[test]
fn bad_pairs(rt: HostRuntime) -> Result<(), Fail> {
    let fault = CheckFault::BadPair { entry: 0 };
    for split in [
        "#! split 0 2",
        "#! split 3 1",
        "#! split 1 1",
        "#! split 1 4",
    ] {
        let lines = [split, WEST, EAST, BELOW, ABOVE];
        assert_eq!(rt;
            fault_of(rt.alloc(), &BEST, &lines)?,
            Some(fault),
            "at {split}"
        );
    }
    Ok(())
}

#[test]
fn broken_cycles(rt: HostRuntime) -> Result<(), Fail> {
    for (cycle, place) in [
        ("#! cycle x 5 0", 0),
        ("#! cycle x 0", 0),
        ("#! cycle x 0 1 2", 1),
        ("#! cycle x 0 9", 1),
    ] {
        let fault = CheckFault::NotACycle { entry: 2, place };
        let lines = [SPLIT, WEST, cycle, BELOW, ABOVE];
        assert_eq!(rt;
            fault_of(rt.alloc(), &BEST, &lines)?,
            Some(fault),
            "at {cycle}"
        );
    }
    Ok(())
}

#[test]
fn not_from_zero(rt: HostRuntime) -> Result<(), Fail> {
    let points = [(1, 0), (1, 1), (3, 0), (3, 1), (2, 1)];
    let lines = ["#! split 3 1", WEST, EAST, BELOW, ABOVE];
    let fault = CheckFault::NotFromZero;
    assert_eq!(rt; fault_of(rt.alloc(), &points, &lines)?, Some(fault));
    Ok(())
}
