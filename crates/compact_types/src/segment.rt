//! Points on the segment between two others.

ghost use Rattle.std.specs.Prelude.{◌≡◌, ◌↔◌, ◌⊎◌, IsTrue};
ghost use Rattle.compact_types.specs.Segments.{IsBetween, OnSegment};

use crate::places::Point;

/// Whether `z` lies on the closed segment between `a` and `b`, its ends included.
pub fn on_piece(a: Point, b: Point, z: Point) -> bool
    requires { (a.x ≡ b.x) ⊎ (a.y ≡ b.y) }
    ensures { IsTrue result ↔ OnSegment a b z }
{
    is_between(a.x, b.x, z.x) && is_between(a.y, b.y, z.y)
}

/// Whether `z` is one of the numbers from `a` to `b`, whichever of the two is less.
fn is_between(a: i64, b: i64, z: i64) -> bool
    ensures { IsTrue result ↔ IsBetween a b z }
{
    (a <= z && z <= b) || (b <= z && z <= a)
}

#[cfg(test)]
mod tests {
    use super::*;

    #[test]
    fn points_of_a_segment(rt: HostRuntime) {
        let from = Point { x: 3, y: -2 };
        let to = Point { x: -1, y: -2 };
        for (x, y, lies) in [
            (3, -2, true),
            (-1, -2, true),
            (0, -2, true),
            (4, -2, false),
            (-2, -2, false),
            (0, -1, false),
        ] {
            let z = Point { x, y };
            assert_eq!(rt; on_piece(from, to, z), lies);
            assert_eq!(rt; on_piece(to, from, z), lies);
        }
    }
}
