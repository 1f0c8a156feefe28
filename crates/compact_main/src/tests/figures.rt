//! End to end: drawings in which sides are left to choose, each as a list of places and edges.

use crate::tests::rows::{assert_run, drawn};
use std::alloc::{AllocError, Global};
use std::test::Fail;

/// Nodes at these places, numbered from 0, the edges between them, and the places at which they
/// are drawn.
struct Figure<'a> {
    name: &'a str,
    nodes: &'a [(i32, i32)],
    edges: &'a [(u32, u32)],
    drawn: &'a [(i32, i32)],
}

/// A spine from node 0 up to node 1, an arm from node 0 to node 2 with a hook up to node 3, and an
/// arm from node 1 to node 4. With every edge at 1 nodes 3 and 4 would meet on (1, 1), so either
/// the spine or the arm below it is 2: length 5. Node 1 comes first in the order of places, and
/// stands lower where the arm is longer.
const HOOK: Figure = Figure {
    name: "a hook",
    nodes: &[(0, 0), (0, 10), (20, 0), (20, 5), (10, 10)],
    edges: &[(0, 1), (0, 2), (2, 3), (1, 4)],
    drawn: &[(0, 0), (0, 1), (2, 0), (2, 1), (1, 1)],
};

/// The same drawing with the end of the arm as node 1, which stands further west where the spine
/// is longer.
const HOOK_ARM_FIRST: Figure = Figure {
    name: "a hook, its arm first",
    nodes: &[(0, 0), (20, 0), (0, 10), (20, 5), (10, 10)],
    edges: &[(0, 2), (0, 1), (1, 3), (2, 4)],
    drawn: &[(0, 0), (1, 0), (0, 2), (1, 1), (1, 2)],
};

/// The hook on a frame: nodes 5 and 6 stand below nodes 0 and 2, with an edge between them. A
/// longer arm makes that edge longer too, and costs 2; a longer spine costs 1. Seven edges and 1
/// make 8. As it is read the arm is the longer one, and on that side no drawing is shorter than 9.
const FRAME: Figure = Figure {
    name: "a hook on a frame",
    nodes: &[
        (0, 0),
        (0, 10),
        (20, 0),
        (20, 15),
        (10, 10),
        (0, -5),
        (20, -5),
    ],
    edges: &[(0, 1), (0, 2), (2, 3), (1, 4), (0, 5), (5, 6), (2, 6)],
    drawn: &[(0, 1), (0, 3), (1, 1), (1, 2), (1, 3), (0, 0), (1, 0)],
};

/// Two hooks on a spine of nodes 0 to 3, one on each side. East of it the arm of node 0 has its
/// hook at node 5, and the arm of node 1 is two edges long, to node 7: a longer spine keeps them
/// apart at a cost of 1, a longer arm at a cost of 2. West of it the hook of node 2's arm is two
/// edges high, to node 10, and the arm of node 3 is short: here a longer arm costs 1 and a longer
/// spine 2. Eleven edges and 2 make 13, and no other choice makes that. As it is read both have the
/// dear side, 15; the search, which takes the last side of a pair first, finds the longer spine in
/// the east, 14, and then the longer arm in the west.
const TWO_HOOKS: Figure = Figure {
    name: "two hooks, improved twice",
    nodes: &[
        (0, 0),
        (0, 10),
        (0, 20),
        (0, 60),
        (50, 0),
        (50, 15),
        (20, 10),
        (30, 10),
        (-20, 20),
        (-20, 30),
        (-20, 40),
        (-20, 60),
    ],
    edges: &[
        (0, 1),
        (1, 2),
        (2, 3),
        (0, 4),
        (4, 5),
        (1, 6),
        (6, 7),
        (2, 8),
        (8, 9),
        (9, 10),
        (3, 11),
    ],
    drawn: &[
        (2, 0),
        (2, 2),
        (2, 3),
        (2, 4),
        (3, 0),
        (3, 1),
        (3, 2),
        (4, 2),
        (0, 3),
        (0, 4),
        (0, 5),
        (1, 4),
    ],
};

/// A hook below an arm that begins two edges further up the spine. A side is left to choose, but
/// with every edge at 1 nothing meets: length 5. As it is read the hook ends below that arm too,
/// and not east of its end. So the drawing that the search begins with is this one already, and it
/// splits nothing.
const LOW_HOOK: Figure = Figure {
    name: "a low hook, nothing to improve",
    nodes: &[(0, 0), (0, 10), (0, 20), (20, 0), (20, 5), (20, 20)],
    edges: &[(0, 1), (1, 2), (0, 3), (3, 4), (2, 5)],
    drawn: &[(0, 0), (0, 1), (0, 2), (1, 0), (1, 1), (1, 2)],
};

/// The text of the nodes and edges, one on each line.
fn text_of(alloc: Global, figure: &Figure) -> Result<String, AllocError> {
    let mut text = String::from_str(alloc, "graph [\n")?;
    let mut id = 0u32;
    for node in figure.nodes {
        let (x, y) = *node;
        let line = format!(in alloc; "  node [ id {id} graphics [ x {x} y {y} ] ]\n")?;
        text.push_str(line.as_str())?;
        id = id.saturating_add(1);
    }
    for edge in figure.edges {
        let (from, to) = *edge;
        let line = format!(in alloc; "  edge [ source {from} target {to} ]\n")?;
        text.push_str(line.as_str())?;
    }
    text.push_str("]\n")?;
    Ok(text)
}

/// What is written for it: one key on each line.
fn printed_of(alloc: Global, figure: &Figure) -> Result<String, AllocError> {
    let mut text = String::from_str(alloc, "graph [\n")?;
    let mut id = 0u32;
    for place in figure.drawn {
        let (x, y) = *place;
        let head = format!(in alloc; "  node [\n    id {id}\n    graphics [\n")?;
        text.push_str(head.as_str())?;
        let place = format!(in alloc; "      x {x}\n      y {y}\n    ]\n  ]\n")?;
        text.push_str(place.as_str())?;
        id = id.saturating_add(1);
    }
    for edge in figure.edges {
        let (from, to) = *edge;
        let line = format!(in alloc; "  edge [\n    source {from}\n    target {to}\n  ]\n")?;
        text.push_str(line.as_str())?;
    }
    text.push_str("]\n")?;
    Ok(text)
}

#[test]
fn chooses_the_best_sides(rt: HostRuntime) -> Result<(), Fail> {
    let alloc = rt.alloc();
    for figure in &[HOOK, HOOK_ARM_FIRST, FRAME, TWO_HOOKS, LOW_HOOK] {
        let text = text_of(alloc, figure)?;
        let printed = printed_of(alloc, figure)?;
        let row = drawn(figure.name, text.as_bytes(), printed.as_bytes());
        assert_run(&rt, alloc, &row)?;
    }
    Ok(())
}
