//! The limits of a drawing and its units, each named once.

/// The most vertices (nodes and bends) of a drawing. It has at most as many rows and as many
/// columns, so that the reachability bits of a constraint graph fit into 128,000 bytes: 1,000 rows
/// of 16 words.
pub const MOST_VERTICES: u32 = 1_000;

/// The most pieces that are checked or measured: the 4,000 of a drawing that is read, and room for
/// pieces that are added round its nodes.
pub const MOST_PIECES: usize = 6_000;

/// The most pairs of segments of a drawing, which has at most 1,000 segments: 1,000 * 999 / 2.
pub const MOST_PAIRS: usize = 499_500;

/// The most choices of an extension, so that each graph has fewer than 1,000,000,000 arcs.
pub const MOST_CHOICES: usize = 900_000_000;

/// How many thousandths are one unit of a GML text.
pub const THOUSANDTHS: i64 = 1_000;

/// The greatest magnitude of a coordinate, in the units of a GML text.
pub const GREATEST_COORDINATE: u64 = 10_000_000_000;

/// The greatest magnitude of a coordinate, in thousandths of these units.
pub const GREATEST_THOUSANDTHS: u64 = THOUSANDTHS as u64 * GREATEST_COORDINATE;

/// The greatest coordinate of a place that is written, in grid steps: 1,000 vertices in a row have
/// 999 steps between them, and none of these is wider than 1,000.
pub const GREATEST_PLACE: u64 = 999_000;

/// The most units of the text for a grid step: with it the greatest place is still a coordinate
/// that is read, of a magnitude of at most 10,000,000,000.
pub const MOST_PITCH: u32 = 10_000;
