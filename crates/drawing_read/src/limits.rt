//! The limit that a drawing has where it is read.

/// The most pieces of a drawing that is read. One that can be drawn has at most 2,000, since each
/// of its at most 1,000 vertices is an end of at most four pieces.
pub const MOST_PIECES_READ: u32 = 4_000;
