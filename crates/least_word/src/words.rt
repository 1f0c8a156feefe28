//! The two words.

/// The number of the word that is the least worth.
pub(crate) const WORTH_WORD: usize = 0;

/// The number of the halt word: it is 1 once a halt was called, and 0 before.
pub(crate) const HALT_WORD: usize = 1;

/// The greatest worth that can be shared: the greatest `i64`, the type of a worth in a key.
pub const GREATEST_WORTH: u64 = 9_223_372_036_854_775_807;
