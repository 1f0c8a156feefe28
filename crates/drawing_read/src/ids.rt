//! The ids of nodes, and the nodes that the ends of edges name.

ghost use Rattle.std.specs.Prelude.{◌≡◌, ◌≤◌, None, Some, length, OnOk, IfOk, is_some, unwrap_or};
ghost use Rattle.std.specs.Ordering.{int_eq};
ghost use Rattle.indexmap.specs.IndexMap.{get, Updates};
ghost use Rattle.drawing_read.specs.Ids as ids;
ghost use Rattle.drawing_read.specs.Faults.{has_unknown_end};
ghost use Rattle.drawing_read.specs.inner.Legible.{most_pairs};

use crate::numerals::WholeNumber;
use crate::written::{Edge, Node};
use compact_types::NoMemory;
use indexmap::IndexMap;
use std::alloc::Global;

/// The ids of some nodes.
#[derive(Drop)]
pub(crate) struct Ids {
    /// The number of the first node with each id.
    pub first: IndexMap<i64, u32>,
    /// The first node with the id of an earlier one.
    pub repeated: Option<u32>,
}

/// The ids of the nodes; a node without one counts with 0.
pub(crate) fn ids_of(alloc: Global, nodes: &[Node]) -> Result<Ids, NoMemory>
    requires { length nodes.now ≤ most_pairs }
    ensures first { IfOk result
        (λ found. get int_eq found.first ≡ ids.number_of_id (ids.ids_of nodes.now)) }
    ensures repeated { IfOk result
        (λ found. found.repeated ≡ ids.first_repeated (ids.ids_of nodes.now)) }
{
    let mut first: IndexMap<i64, u32> = IndexMap::new(alloc);
    let mut repeated: Option<u32> = None;
    for (n, node) in nodes.iter().enumerate() {
        if has_id_of(&first, node) {
            repeated = repeated.or(Some(n as u32));
        } else {
            insert_id_of(&mut first, node, n as u32)?;
        }
    }
    Ok(Ids { first, repeated })
}

fn has_id_of(first: &IndexMap<i64, u32>, node: &Node) -> bool
    ensures { result ≡ is_some (get int_eq first.now (ids.id_of node.now)) }
{
    first.get(&id_of(node)).is_some()
}

fn insert_id_of(first: &mut IndexMap<i64, u32>, node: &Node, n: u32) -> Result<(), NoMemory>
    ensures { OnOk result (Updates int_eq first.old first.new (ids.id_of node.now) (Some n)) }
{
    first.insert(id_of(node), n)?;
    Ok(())
}

/// The id of a node; 0 where it has none.
fn id_of(node: &Node) -> i64
    ensures { result ≡ ids.id_of node.now }
{
    match node.id {
        WholeNumber::Fits(id) => id,
        _ => 0,
    }
}

/// The number of the node that an end names; 0 where it names none.
pub(crate) fn end_number(first: &IndexMap<i64, u32>, end: WholeNumber) -> u32
    ensures { result ≡ unwrap_or (ids.node_with (get int_eq first.now) end) 0 }
{
    node_with(first, end).unwrap_or(0)
}

/// Whether an end of the edge is no node's id.
pub(crate) fn has_unknown_end(first: &IndexMap<i64, u32>, edge: &Edge) -> bool
    ensures { result ≡ has_unknown_end (get int_eq first.now) edge.now }
{
    node_with(first, edge.source).is_none() || node_with(first, edge.target).is_none()
}

/// The node that an end names.
fn node_with(first: &IndexMap<i64, u32>, end: WholeNumber) -> Option<u32>
    ensures { result ≡ ids.node_with (get int_eq first.now) end }
{
    match end {
        WholeNumber::Fits(id) => first.get(&id).copied(),
        _ => None,
    }
}
