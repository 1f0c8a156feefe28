//! Certificates as trees in preorder.

use compact_types::{Axis, Items};

/// The greatest number of a segment or of an arc in a certificate.
pub const MOST_NUMBER: u32 = 999_999_999;

/// A positive amount of a flow on an arc. An arc that has no load has the amount 0.
#[derive(Clone, Copy, Debug, PartialEq, Eq)]
pub struct Load {
    pub arc: u32,
    pub amount: u64,
}

/// An entry of a certificate, for the choices of the splits that it lies under.
#[derive(Debug, Drop)]
pub enum CertNode {
    /// Every drawing takes one of the four sides of the segments `s` and `t`. The four branches
    /// follow in the order of the sides, each with its side as one more choice.
    Split { s: u32, t: u32 },
    /// No drawing of the choices comes before the answer: these are the loads of a flow on the
    /// column graph and of one on the row graph, by rising arcs.
    Bound { x: Items<Load>, y: Items<Load> },
    /// The choices have no drawing: these arcs of the graph of the axis are a cycle.
    Cycle { axis: Axis, arcs: Items<u32> },
}

/// A certificate as a tree: its entries in preorder.
#[derive(Debug, Drop)]
pub struct CertTree {
    pub nodes: Items<CertNode>,
}
