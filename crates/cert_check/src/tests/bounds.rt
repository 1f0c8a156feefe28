//! Certificates of a small drawing with a bound that is refused, worked out by hand.

use crate::CheckFault;
use crate::tests::examples::fault_of;
use crate::tests::{ABOVE, BELOW, BEST, EAST, SPLIT, WEST};
use compact_types::Axis;
use std::test::Fail;

/// Another drawing of length 5: the upper arm stands above the turn. It comes later.
const LATER: [(i32, i32); 5] = [(0, 0), (0, 2), (1, 0), (1, 1), (1, 2)];

/// A drawing of length 6.
const LONGER: [(i32, i32); 5] = [(0, 0), (0, 1), (3, 0), (3, 1), (1, 1)];

#[test]
fn bad_bounds(rt: HostRuntime) -> Result<(), Fail> {
    let entry = 1;
    for (west, fault) in [
        (
            "#! bound x 1:3 2:1 y 0:1 1:1",
            CheckFault::Unbalanced {
                entry,
                axis: Axis::X,
                node: 0,
            },
        ),
        (
            "#! bound x 1:2 2:1 y 0:2 1:1",
            CheckFault::Unbalanced {
                entry,
                axis: Axis::Y,
                node: 0,
            },
        ),
        (
            "#! bound x 1:2 3:1 y 0:1 2:1",
            CheckFault::NoArc {
                entry,
                axis: Axis::X,
                arc: 3,
            },
        ),
        (
            "#! bound x 1:3 2:1 y 0:1 2:1",
            CheckFault::NoArc {
                entry,
                axis: Axis::Y,
                arc: 2,
            },
        ),
        (
            "#! bound x 0:1 1:1 y 0:1 1:1",
            CheckFault::WeakBound {
                entry,
                bound: 4,
                earlier: None,
            },
        ),
    ] {
        let lines = [SPLIT, west, EAST, BELOW, ABOVE];
        assert_eq!(rt;
            fault_of(rt.alloc(), &BEST, &lines)?,
            Some(fault),
            "at {west}"
        );
    }
    Ok(())
}

#[test]
fn bounds_of_the_length(rt: HostRuntime) -> Result<(), Fail> {
    let alloc = rt.alloc();
    let fault = CheckFault::WeakBound {
        entry: 1,
        bound: 5,
        earlier: Some(1),
    };
    let lines = [SPLIT, WEST, EAST, BELOW, ABOVE];
    assert_eq!(rt; fault_of(alloc, &LATER, &lines)?, Some(fault));
    // The first bound is the length 6, and no numbers are tight: the third is the first fault.
    let fault = CheckFault::WeakBound {
        entry: 3,
        bound: 4,
        earlier: None,
    };
    let first = "#! bound x 0:2 1:1 2:1 y 0:1 1:1";
    let second = "#! cycle x 1 2";
    let third = "#! bound x 0:1 1:1 y 0:1 1:1";
    let lines = ["#! split 0 1", first, second, third, BELOW];
    assert_eq!(rt; fault_of(alloc, &LONGER, &lines)?, Some(fault));
    Ok(())
}
