//! The reading of a drawing from a GML tree: the graph cut into straight pieces, the places of its
//! vertices in thousandths, and where each coordinate stands in the tree.
//!
//! The layer above relies on `IsReading` and `FirstDrawFault`: every tree is a drawing with exactly
//! one reading, or has exactly one first fault, and `read_drawing` answers it. Every reading is
//! within the limits of a drawing, its spots are the coordinates of its graph in document order,
//! and trees that differ at most in their offsets have the same reading.
#![tactic(auto)]

mod fault;
mod faults;
mod graph;
mod ids;
mod law;
mod layout;
mod limits;
mod lookups;
mod numerals;
mod read;
mod reading;
mod refused;
mod spans;
mod spots;
mod written;

pub use fault::DrawFault;
pub use law::{
    alike_trees_have_one_reading, readable_trees_are_legible, readings_are_within_limits,
    spots_are_the_coordinates, trees_have_one_answer,
};
pub use limits::MOST_PIECES_READ;
pub use read::read_drawing;
pub use reading::{Reading, Spot};
