//! The drawing that a certificate is for.

ghost use Rattle.std.specs.Prelude.{◌≡◌, ◌↔◌, ℕ, ◌<◌, pos, ◌≤ℤ◌, length, IsTrue};
ghost use Rattle.compact_types.specs.Drawings as drawings;
ghost use Rattle.compact_types.specs.Lookups.{along, place};

use compact_types::{Axis, Places, Point, coordinate};

/// The drawing that a certificate is for, and its length in grid steps.
#[derive(Clone, Copy)]
pub(crate) struct Answer<'a> {
    pub(crate) places: &'a Places,
    pub(crate) length: i64,
}

/// Whether the least x and the least y are 0.
pub(crate) fn is_from_zero(places: &Places) -> bool
    ensures { IsTrue result ↔ drawings.IsFromZero places.now }
{
    is_least_zero(Axis::X, places) && is_least_zero(Axis::Y, places)
}

/// Whether the least coordinate along the axis is 0.
fn is_least_zero(axis: Axis, places: &Places) -> bool
    ensures { IsTrue result ↔ drawings.IsLeastZero axis places.now }
{
    let points = places.xy.as_slice();
    none_below(axis, points) && is_reached(axis, points)
}

/// Whether no coordinate along the axis is negative.
fn none_below(axis: Axis, points: &[Point]) -> bool
    ensures { IsTrue result ↔ ((v : ℕ) → v < length points.now →
        pos 0 ≤ℤ (along axis (place points.now v))) }
{
    for v in 0..points.len() {
        if coordinate(axis, points[v]) < 0 {
            return false;
        }
    }
    true
}

/// Whether some coordinate along the axis is 0.
fn is_reached(axis: Axis, points: &[Point]) -> bool
    ensures { IsTrue result ↔ ((v : ℕ) × (v < length points.now)
        × (along axis (place points.now v) ≡ pos 0)) }
{
    for v in 0..points.len() {
        if coordinate(axis, points[v]) == 0 {
            return true;
        }
    }
    false
}
