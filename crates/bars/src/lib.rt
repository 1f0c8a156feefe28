//! Rows, columns and segments of a shape.
//!
//! The layer above relies on the definitions in `specs/`: the numbering of rows, columns and
//! segments, the four sides of a pair, and which places solve a list of choices. The laws say what
//! they mean in drawings. `bars_of` keeps the tables, and each look-up returns what the definition
//! of the same name says of the shape. `bars_of_points` makes small drawings for tests.
#![tactic(auto)]

mod crossings;
mod law;
mod lines;
mod marks;
mod points;
mod segments;
mod spans;

pub use law::{
    lines_are_numbered, lines_stand_in_order, nodes_are_ends, segments_are_lines_with_pieces,
};
pub use points::bars_of_points;
pub use segments::{Bars, bars_of};
