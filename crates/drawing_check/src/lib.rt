//! Whether places are a drawing of a plan: straight pieces along the axes, all vertices joined, and
//! no crossing.
//!
//! The layer above relies on both directions: `check` answers the shape exactly where the plan is
//! connected and the places are crossing-free, and otherwise the first fault; `one_shape_or_fault`
//! says that there is always exactly one of the two; `is_drawing` says whether places are a drawing
//! of a shape.
#![tactic(auto)]

mod checking;
mod common_end;
mod covered;
mod drawing;
mod fault;
mod joined;
mod meeting;
mod seats;
mod span;
mod sweep;
mod ways;

pub use checking::{check, check_alone, one_shape_or_fault};
pub use drawing::is_drawing;
pub use fault::ShapeFault;
