//! What is read: a drawing, and where its coordinates stand.

use compact_types::{Axis, Items, Places, Plan};

/// A drawing that was read: its graph in straight pieces, the places of its vertices in
/// thousandths, and where its coordinates stand, in document order.
#[derive(Debug, Drop)]
pub struct Reading {
    pub plan: Plan,
    pub places: Places,
    pub spots: Items<Spot>,
}

/// Where a coordinate of a vertex stands in the tree.
#[derive(Debug, Drop)]
pub struct Spot {
    /// The places, from the top, of the pairs that lead to the coordinate's pair, and its own last.
    pub path: Items<u32>,
    pub vertex: u32,
    pub axis: Axis,
}
