//! Points of the plane, the place of each vertex, and what drawings are ordered by.

ghost use Rattle.std.specs.Prelude.{◌≡◌, IfOk};
ghost use Rattle.compact_types.specs.declared.places.Axis.{Axis as AnyAxis};
ghost use Rattle.compact_types.specs.Lookups.{along, points_at};
ghost use Rattle.compact_types.specs.Magnitudes.{AreWithin, IsWithin};

use crate::items::Items;
use crate::limits::GREATEST_THOUSANDTHS;
use crate::refusal::NoMemory;
use std::alloc::Global;

/// A whole point: grid steps in a compacted drawing, thousandths in one that was read.
#[derive(Clone, Copy, Debug, PartialEq, Eq)]
pub struct Point {
    pub x: i64,
    pub y: i64,
}

/// One of the two directions of the plane.
#[derive(Clone, Copy, Debug, PartialEq, Eq)]
pub enum Axis {
    X,
    Y,
}

/// The place of each vertex, by its number.
#[derive(Debug, Drop)]
pub struct Places {
    pub xy: Items<Point>,
}

impl Places {
    /// The places with these coordinates. They are small enough for a drawing.
    pub fn at(alloc: Global, points: &[(i32, i32)]) -> Result<Places, NoMemory>
        ensures is { IfOk result (λ places. places.xy ≡ points_at points.now) }
        ensures near { IfOk result (AreWithin GREATEST_THOUSANDTHS) }
    {
        let mut xy = Items::new(alloc);
        for &(x, y) in points {
            xy.push(small_point(x, y))?;
        }
        Ok(Places { xy })
    }

    /// Equal places, on the allocator of their list.
    pub fn copy(&self) -> Result<Places, NoMemory>
        ensures { IfOk result (λ copy. copy ≡ self.now) }
    {
        Ok(Places {
            xy: self.xy.copy()?,
        })
    }
}

/// The point with these coordinates.
fn small_point(x: i32, y: i32) -> Point
    ensures is { result ≡ record { x = x; y = y } }
    ensures near { (axis : AnyAxis) → IsWithin GREATEST_THOUSANDTHS (along axis result) }
{
    Point {
        x: i64::from(x),
        y: i64::from(y),
    }
}

/// What drawings are ordered by: the worth, and among equals the numbers x0, y0, x1, y1, ..
#[derive(Debug, Drop)]
pub struct Key {
    pub worth: i64,
    pub places: Places,
}

impl Key {
    /// An equal key, on the allocator of its list.
    pub fn copy(&self) -> Result<Key, NoMemory>
        ensures { IfOk result (λ copy. copy ≡ self.now) }
    {
        Ok(Key {
            worth: self.worth,
            places: self.places.copy()?,
        })
    }
}
