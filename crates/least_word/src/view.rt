//! What a seat knows of the words.

use compact_types::Shape;

/// What a seat knows. It exists in contracts alone: no value of it is made.
pub struct View {
    /// The worth is at most this from now on.
    pub floor: u64,
    /// How often the seat has loaded the worth.
    pub loads: u64,
    /// How often the seat has loaded the halt word.
    pub halt_loads: u64,
    /// The seat knows that a halt was called.
    pub heard: bool,
    /// The seat has called a halt, or has taken this mark over from a seat that had.
    pub halting: bool,
    /// How often seats were split off, along the line of seats from the first one to this.
    pub splits: u64,
}

/// What the table keeps of a seat: its view, and the shape whose drawings the worths are of. A seat
/// that was joined to another has no shape any more.
pub struct Member {
    pub shape: Option<Shape>,
    pub view: View,
}
