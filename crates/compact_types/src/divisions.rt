//! A drawing is scaled down if its coordinates allow it.

ghost use Rattle.std.specs.Prelude.{◌≡◌, ℕ, ◌<◌, ◌^◌, pos, ◌*ℤ◌, ◌≤ℤ◌, length};
ghost use Rattle.std.specs.Prelude.{◌↔◌, IfErr, IsTrue, MatchBool, MatchOption, OnErr, OnOk};
ghost use Rattle.compact_types.specs.Lookups.{place};
ghost use Rattle.compact_types.specs.Scalings.{IsMultiple, IsOnGrid, IsOffGrid};
ghost use Rattle.compact_types.specs.Scalings.{IsScaled, IsFirstOff};

use crate::places::{Places, Point};

/// Divides every coordinate by `by` if each is a multiple of it. Otherwise returns the first vertex
/// with a coordinate that is not a multiple of `by`, and changes nothing. It takes no memory.
pub fn scale_down(places: &mut Places, by: i64) -> Result<(), u32>
    requires positive { pos 1 ≤ℤ by }
    requires few { length places.old.xy < 2 ^ 32 }
    ensures scaled { OnOk result (IsScaled by places.old places.new) }
    ensures first_off { IfErr result (IsFirstOff by places.old) }
    ensures unchanged { OnErr result (places.new ≡ places.old) }
{
    if let Some(vertex) = first_off(places, by) {
        return Err(vertex);
    }
    divide(places, by);
    Ok(())
}

/// The first vertex with a coordinate that is not a multiple of `by`.
fn first_off(places: &Places, by: i64) -> Option<u32>
    requires positive { pos 1 ≤ℤ by }
    requires few { length places.now.xy < 2 ^ 32 }
    ensures { MatchOption result
        ((v : ℕ) → v < length places.now.xy → IsOnGrid by (place places.now.xy v))
        (IsFirstOff by places.now) }
{
    let points = places.xy.as_slice();
    for v in 0..points.len() {
        if !is_on_grid(points[v], by) {
            return Some(v as u32);
        }
    }
    None
}

/// Whether both coordinates of the point are multiples of `by`.
fn is_on_grid(point: Point, by: i64) -> bool
    requires { pos 1 ≤ℤ by }
    ensures { MatchBool result (IsOnGrid by point) (IsOffGrid by point) }
{
    is_multiple(point.x, by) && is_multiple(point.y, by)
}

/// Whether the number is a multiple of `by`.
fn is_multiple(z: i64, by: i64) -> bool
    requires { pos 1 ≤ℤ by }
    ensures { IsTrue result ↔ IsMultiple by z }
{
    z % by == 0
}

/// Divides every coordinate, each a multiple of `by`.
fn divide(places: &mut Places, by: i64)
    requires positive { pos 1 ≤ℤ by }
    requires on_grid { (v : ℕ) → v < length places.old.xy → IsOnGrid by (place places.old.xy v) }
    ensures { IsScaled by places.old places.new }
{
    for v in 0..places.xy.len() {
        let point = places.xy.as_slice()[v];
        places.xy.set(v, divided_point(point, by));
    }
}

/// The point whose coordinates, times `by`, are those of this one.
fn divided_point(point: Point, by: i64) -> Point
    requires positive { pos 1 ≤ℤ by }
    requires on_grid { IsOnGrid by point }
    ensures x { point.x ≡ by *ℤ result.x }
    ensures y { point.y ≡ by *ℤ result.y }
{
    Point {
        x: divided(point.x, by),
        y: divided(point.y, by),
    }
}

/// The number that, times `by`, is this one.
fn divided(z: i64, by: i64) -> i64
    requires positive { pos 1 ≤ℤ by }
    requires multiple { IsMultiple by z }
    ensures { z ≡ by *ℤ result }
{
    z / by
}

#[cfg(test)]
mod tests;
