//! Whether places are a drawing of a shape.

ghost use Rattle.std.specs.Prelude.{◌↔◌, IsTrue};
ghost use Rattle.compact_types.specs.Drawings.{IsDrawing};
ghost use Rattle.drawing_check.specs.Conditions.{CanCheck};

use crate::meeting::first_meeting;
use crate::ways::has_ways;
use compact_types::{Places, Shape};

/// Whether the places are a drawing of the shape: every piece has its way, and no two pieces share
/// a point other than a common end. Coordinates are whole numbers of any unit.
#[tactic(auto, using(crate::proofs::MeetingLemmas::none_apart))]
pub fn is_drawing(shape: &Shape, places: &Places) -> bool
    requires { CanCheck shape.now.plan places.now }
    ensures { IsTrue result ↔ IsDrawing shape.now places.now }
{
    has_ways(shape, places) && first_meeting(&shape.plan, places, 0).is_none()
}
