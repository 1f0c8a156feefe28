//! The plain types that every other crate speaks of: lists, refusals, plans, shapes, places, keys,
//! and the choices and flows of a search.
//!
//! The layer above relies on the definitions in `specs/`: what a drawing is, how long it is, which
//! drawing is best, and what a result with a refusal says; and on their laws, which are functions
//! with an empty body, and as lemmas in `proofs/Laws.antt`.
#![tactic(auto)]

mod axes;
mod bests;
mod divisions;
mod equalities;
mod groups;
mod items;
mod lengths;
mod limits;
mod moves;
mod orders;
mod places;
mod plan;
mod refusal;
mod reserved;
mod scalings;
mod search;
mod segment;
mod shifts;
mod sums;
#[cfg(test)]
mod tests;

pub use axes::{coordinate, high_end, length_by_axes, low_end, ways_by_axes};
pub use bests::at_most_one_best;
pub use divisions::scale_down;
pub use equalities::equal_by_parts;
pub use groups::{join_groups, single_groups};
pub use items::Items;
pub use lengths::plain_length;
pub use limits::{
    GREATEST_COORDINATE, GREATEST_PLACE, GREATEST_THOUSANDTHS, MOST_CHOICES, MOST_PAIRS,
    MOST_PIECES, MOST_PITCH, MOST_VERTICES, THOUSANDTHS,
};
pub use moves::{moves_add_up, moves_keep_drawings, one_move_to_zero};
pub use orders::{compare, compare_points, keys_are_ordered};
pub use places::{Axis, Key, Places, Point};
pub use plan::{Piece, Plan, Shape, Way};
pub use refusal::{NoMemory, Refusal};
pub use reserved::Reserved;
pub use scalings::{
    one_scaling, scaled_from_zero, scaled_lengths, scaled_magnitudes, scaled_or_off,
    scaling_keeps_drawings, scaling_keeps_ways,
};
pub use search::{Branch, Choice, Extension, Flow, Flows};
pub use segment::on_piece;
pub use shifts::shift_to_zero;
pub use sums::sums_add_up;
