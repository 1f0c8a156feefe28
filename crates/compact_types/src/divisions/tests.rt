//! Small places that are scaled down.

use super::*;
use std::test::Fail;

#[test]
fn divides_all_or_nothing(rt: HostRuntime) -> Result<(), Fail> {
    for (from, answer, to) in [
        ([(0, -6), (9, 3)], Ok(()), [(0, -2), (3, 1)]),
        ([(0, -6), (9, 4)], Err(1), [(0, -6), (9, 4)]),
        ([(0, -6), (-8, 3)], Err(1), [(0, -6), (-8, 3)]),
        ([(3, -7), (1, 1)], Err(0), [(3, -7), (1, 1)]),
    ] {
        let mut places = Places::at(rt.alloc(), from.as_slice())?;
        let expected = Places::at(rt.alloc(), to.as_slice())?;
        let mut same = Places::at(rt.alloc(), from.as_slice())?;
        let unchanged = same.copy()?;
        assert_eq!(rt; scale_down(&mut places, 3), answer);
        assert_eq!(rt; places.xy.as_slice(), expected.xy.as_slice());
        assert_eq!(rt; scale_down(&mut same, 1), Ok(()));
        assert_eq!(rt; same.xy.as_slice(), unchanged.xy.as_slice());
    }
    Ok(())
}
