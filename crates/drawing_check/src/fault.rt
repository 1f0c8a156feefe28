//! Why places are no connected drawing of a plan.

/// Why places are no connected drawing of a plan. Of several faults the one that stands first here
/// is reported, and of its kind the one with the least numbers.
#[derive(Clone, Copy, Debug, PartialEq, Eq)]
pub enum ShapeFault {
    /// The ends of this piece have the same point.
    ZeroPiece(u32),
    /// Both coordinates of the ends of this piece differ.
    Slanted(u32),
    /// This vertex is not reached from vertex 0 along pieces.
    Disconnected(u32),
    /// The pieces `p` and `q`, with `p` the lesser, share this point and may not: it is no common
    /// end of theirs, or they join the same two vertices.
    Meeting { p: u32, q: u32, x: i64, y: i64 },
}
