//! Cycles and orders of small graphs, worked out by hand.

use crate::{Arc, DiffGraph, arcs_in_order, find_cycle};
use compact_types::Items;
use std::alloc::Global;
use std::test::Fail;

/// The graph of arcs with these ends.
fn graph_of(alloc: Global, nodes: u32, ends: &[(u32, u32)]) -> Result<DiffGraph, Fail> {
    let mut arcs = Items::new(alloc);
    for &(from, to) in ends {
        arcs.push(Arc {
            from,
            to,
            least: 1,
            pull: 0,
        })
        .ok()
        .ok_or("memory")?;
    }
    Ok(DiffGraph::of(nodes, arcs).ok_or("no graph")?)
}

/// Whether the arcs of the cycle that is found are these; none where no cycle is found.
fn finds(alloc: Global, nodes: u32, ends: &[(u32, u32)], arcs: &[u32]) -> Result<bool, Fail> {
    let graph = graph_of(alloc, nodes, ends)?;
    let found = find_cycle(alloc, &graph).ok().ok_or("memory")?;
    Ok(match found {
        None => arcs.is_empty(),
        Some(cycle) => cycle.arcs.as_slice() == arcs,
    })
}

#[test]
fn simple_cycles_from_their_least_arc(rt: HostRuntime) -> Result<(), Fail> {
    let alloc = rt.alloc();
    assert!(rt; finds(alloc, 0, &[], &[])?);
    assert!(rt; finds(alloc, 3, &[(0, 1), (0, 2), (1, 2)], &[])?);
    assert!(rt; finds(alloc, 1, &[(0, 0)], &[0])?);
    assert!(rt; finds(alloc, 3, &[(0, 1), (1, 1), (1, 2)], &[1])?);
    assert!(rt; finds(alloc, 3, &[(0, 1), (0, 2), (1, 0)], &[0, 2])?);
    assert!(rt; finds(alloc, 3, &[(1, 2), (2, 0), (0, 1)], &[0, 1, 2])?);
    let two = [(0, 1), (1, 0), (2, 3), (3, 2)];
    assert!(rt; finds(alloc, 4, &two, &[0, 1])? || finds(alloc, 4, &two, &[2, 3])?);
    Ok(())
}

#[test]
fn arcs_in_topological_order(rt: HostRuntime) -> Result<(), Fail> {
    let alloc = rt.alloc();
    let graph = graph_of(alloc, 3, &[(1, 2), (0, 1)])?;
    let order = arcs_in_order(alloc, &graph)
        .ok()
        .ok_or("memory")?
        .ok_or("no order")?;
    assert_eq!(rt; order.as_slice(), [1, 0].as_slice());
    let graph = graph_of(alloc, 2, &[(0, 1), (1, 0)])?;
    assert!(rt; arcs_in_order(alloc, &graph).ok().ok_or("memory")?.is_none());
    Ok(())
}
