//! GML texts (Himsolt's Graph Modelling Language): the tree of a text, and the value of a numeral.
//!
//! The layer above relies on `Spells` and `FirstFault`: `read_tree` answers the tree that a text
//! has, or else the text's first fault, unless memory is refused, and each text has exactly one of
//! the two. Every tree that is read is within the grammar and has few pairs (`IsReadable`), and
//! `thousandths` answers for the numerals in it what `thousandths_of` says.
#![tactic(auto)]

mod bytes;
mod fault;
mod limits;
mod marks;
mod number;
mod read;
mod reader;
mod tree;

pub use fault::{GmlFault, GmlKind};
pub use limits::{MOST_BYTES, MOST_DEPTH};
pub use marks::{
    CAPITAL_A, CAPITAL_E, CAPITAL_Z, CARRIAGE_RETURN, CLOSING_BRACKET, HASH, LINE_FEED, MINUS,
    NINE, OPENING_BRACKET, PLUS, POINT, QUOTE, SMALL_A, SMALL_E, SMALL_Z, SPACE, TAB, UNDERSCORE,
    ZERO,
};
pub use number::{NumberFault, NumeralKind, numeral_kind, numerals_have_parts, thousandths, whole};
pub use read::{has_one_answer, read_tree};
pub use tree::{Pair, Tree, Value};
