//! The tree of a text.

use compact_types::Items;

/// A list of pairs: a whole text, or what stands between two brackets.
#[cycle(tree)]
#[derive(Debug, Drop)]
pub struct Tree {
    pub pairs: Items<Pair>,
}

/// A key and its value.
#[cycle(tree)]
#[derive(Debug, Drop)]
pub struct Pair {
    pub key: Items<u8>,
    pub value: Value,
    /// Where the value's first byte stands in the text, counted from 0.
    pub at: u32,
}

/// A value as it was written: numerals with their signs and zeros, strings without their quotes.
#[cycle(tree)]
#[derive(Debug, Drop)]
pub enum Value {
    /// A numeral with neither a point nor an exponent.
    Whole(Items<u8>),
    /// Any other numeral.
    Real(Items<u8>),
    Text(Items<u8>),
    Inner(Tree),
}
