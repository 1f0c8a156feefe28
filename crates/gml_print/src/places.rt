//! The tree of a drawing with new places of its vertices.

ghost use Rattle.std.specs.Prelude.{◌≡◌, ◌<◌, ◌≤◌, pos, ◌*ℤ◌, length, IfOk};
ghost use Rattle.compact_types.specs.Magnitudes.{IsWithin, AreWithin};
ghost use Rattle.compact_types.specs.declared.limits.TheConstants.{GREATEST_PLACE, MOST_PITCH};
ghost use Rattle.gml_print.specs.Places.{CanPut, placed, numeral_for, coordinate_at};

use crate::copy::copy_tree;
use crate::number::whole_text;
use crate::place::put_value;
use compact_types::{NoMemory, Places, coordinate};
use drawing_read::{Reading, Spot};
use gml_text::{Tree, Value};
use std::alloc::Global;

/// A copy of the tree of a drawing with its vertices at `places`: at each spot stands `pitch` times
/// the coordinate of its vertex, as a whole numeral. All else is as it was.
///
/// `reading` is that of `tree`, and there is a place for each vertex, with both coordinates from 0
/// to 999,000; `pitch` is from 1 to 10,000.
pub fn put_places(
    alloc: Global,
    tree: &Tree,
    reading: &Reading,
    places: &Places,
    pitch: u32,
) -> Result<Tree, NoMemory>
    requires { CanPut tree.now reading.now places.now pitch }
    ensures { IfOk result (λ new. new ≡ placed tree.now reading.now.spots places.now pitch) }
{
    let copy = copy_tree(alloc, tree)?;
    with_places(alloc, copy, reading, places, pitch)
}

/// As `put_places`, in the tree itself; without memory it is let go.
pub fn with_places(
    alloc: Global,
    tree: Tree,
    reading: &Reading,
    places: &Places,
    pitch: u32,
) -> Result<Tree, NoMemory>
    requires { CanPut tree reading.now places.now pitch }
    ensures { IfOk result (λ new. new ≡ placed tree reading.now.spots places.now pitch) }
{
    let mut new = tree;
    for spot in reading.spots.as_slice() {
        let value = numeral_for(alloc, places, pitch, spot)?;
        put_value(&mut new, spot.path.as_slice(), value);
    }
    Ok(new)
}

/// The whole numeral that is written at a spot.
#[tactic(auto, using(crate::proofs::PlaceNumbers::coordinate_within))]
fn numeral_for(alloc: Global, places: &Places, pitch: u32, spot: &Spot) -> Result<Value, NoMemory>
    requires vertex { spot.now.vertex < length places.now.xy }
    requires within { AreWithin GREATEST_PLACE places.now }
    requires pitch { pitch ≤ MOST_PITCH }
    ensures { IfOk result (λ value. value ≡ numeral_for places.now pitch spot.now) }
{
    let number = multiple(pitch, coordinate_at(places, spot));
    Ok(Value::Whole(whole_text(alloc, number)?))
}

/// The coordinate of a spot.
fn coordinate_at(places: &Places, spot: &Spot) -> i64
    requires { spot.now.vertex < length places.now.xy }
    ensures { result ≡ coordinate_at places.now spot.now }
{
    coordinate(spot.axis, places.xy.as_slice()[spot.vertex as usize])
}

/// `pitch` times a coordinate.
#[tactic(auto, using(crate::proofs::PlaceNumbers::product_fits))]
fn multiple(pitch: u32, coordinate: i64) -> i64
    requires within { IsWithin GREATEST_PLACE coordinate }
    requires pitch { pitch ≤ MOST_PITCH }
    ensures { result ≡ pos pitch *ℤ coordinate }
{
    i64::from(pitch) * coordinate
}

#[cfg(test)]
mod tests;
