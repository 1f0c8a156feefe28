//! The text of a GML tree, and the tree of a drawing with new places of its vertices.
//!
//! The layer above relies on `printed`, the text of a tree line by line, which is read again where
//! the tree is within the grammar, and as a tree that differs at most in where its values stand; on
//! `placed`, the tree of a drawing with new places, which has the same plan and the same spots, and
//! stays within the grammar; and on `number_text`, a whole numeral with the value of its number.
#![tactic(auto)]

mod copy;
mod law;
mod number;
mod place;
mod places;
mod print;

pub use law::{
    only_spots_change, placed_text_is_read, placed_tree_is_read, placed_tree_is_within_grammar,
    printed_text_has_the_tree, text_has_its_number,
};
pub use number::whole_text;
pub use place::put_value;
pub use places::{put_places, with_places};
pub use print::print_tree;
