//! The limits of a text that is read, each named once.

/// The most bytes of a text that is read, 64 MiB, so that every offset in it fits into a `u32`. A
/// drawing is far smaller; a proof that a drawing is the best one may be as long as this.
pub const MOST_BYTES: usize = 64 * 1024 * 1024;

/// The most lists that stand within one another. Himsolt's GML sets no limit; drawings have five
/// (a graph, an edge, its graphics, its line, a point), and what walks a tree goes no deeper.
pub const MOST_DEPTH: usize = 64;
