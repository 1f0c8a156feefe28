//! Why a certificate does not show that a drawing is the best one.

use compact_types::Axis;

/// The faults, numbered from 1 in this order. Entries are counted from 0, in preorder.
#[derive(Clone, Copy, Debug, PartialEq, Eq)]
pub enum CheckFault {
    /// The least x or the least y of the drawing is not 0.
    NotFromZero,
    /// A split does not name two segments without a common vertex, the lesser first.
    BadPair {
        entry: u64,
    },
    /// The flow on the graph of the axis does not balance at the node, the least such.
    Unbalanced {
        entry: u64,
        axis: Axis,
        node: u32,
    },
    /// The bound, in grid steps, is below the drawing's length; or it is the length, and the least
    /// places that are tight come before the drawing: they first differ at vertex `earlier`.
    WeakBound {
        entry: u64,
        bound: i64,
        earlier: Option<u32>,
    },
    /// The list of arcs is no cycle, first at this place of it.
    NotACycle {
        entry: u64,
        place: u64,
    },
    /// A bound names an arc that the graph of the axis lacks.
    NoArc {
        entry: u64,
        axis: Axis,
        arc: u32,
    },
}
