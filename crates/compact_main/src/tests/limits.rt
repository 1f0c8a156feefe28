//! Texts up to the limits and past them.

use crate::status::Why;
use crate::tests::examples::STAIR_MEASURED;
use crate::tests::refusals::no_drawing;
use crate::tests::rows::*;
use crate::tests::texts::*;
use drawing_read::DrawFault;
use std::alloc::{AllocError, Global};
use std::test::Fail;

/// The text of a row of so many nodes, 10 apart from 7 on, with an edge between neighbours.
fn row_text(alloc: Global, nodes: u32) -> Result<String, AllocError> {
    let mut text = String::from_str(alloc, "graph [\n")?;
    for k in 0..nodes {
        let node = format!(in alloc; "  node [ id {k} graphics [ x {k}7 y -3 ] ]\n")?;
        text.push_str(node.as_str())?;
    }
    push_edges(alloc, &mut text, nodes)?;
    Ok(text)
}

/// Adds an edge between each node and the next, and closes the graph.
fn push_edges(alloc: Global, text: &mut String, nodes: u32) -> Result<(), AllocError> {
    for k in 1..nodes {
        let from = k - 1;
        let edge = format!(in alloc; "  edge [ source {from} target {k} ]\n")?;
        text.push_str(edge.as_str())?;
    }
    text.push_str("]\n")
}

/// What is written for it: node k stands at (k, 0).
fn row_drawn(alloc: Global, nodes: u32) -> Result<String, AllocError> {
    let mut text = String::from_str(alloc, "graph [\n")?;
    for k in 0..nodes {
        let head = format!(in alloc; "  node [\n    id {k}\n    graphics [\n")?;
        text.push_str(head.as_str())?;
        let place = format!(in alloc; "      x {k}\n      y 0\n    ]\n  ]\n")?;
        text.push_str(place.as_str())?;
    }
    for k in 1..nodes {
        let from = k - 1;
        let edge = format!(in alloc; "  edge [\n    source {from}\n    target {k}\n  ]\n")?;
        text.push_str(edge.as_str())?;
    }
    text.push_str("]\n")?;
    Ok(text)
}

#[test]
fn reads_up_to_a_thousand_vertices(rt: HostRuntime) -> Result<(), Fail> {
    let alloc = rt.alloc();
    let (most, more) = (row_text(alloc, 1000)?, row_text(alloc, 1001)?);
    let written = row_drawn(alloc, 1000)?;
    let row = Row {
        room: 200_000,
        ..drawn("1,000 nodes", most.as_bytes(), written.as_bytes())
    };
    assert_long(&rt, alloc, &row)?;
    let fault = DrawFault::TooManyVertices(1001);
    let row = no_drawing(
        "1,001 nodes",
        more.as_bytes(),
        fault,
        b"refused: 1001 vertices\n",
    );
    assert_long(&rt, alloc, &row)
}

#[test]
fn reads_up_to_four_thousand_pieces(rt: HostRuntime) -> Result<(), Fail> {
    let mut text = String::from_str(rt.alloc(), "graph [ node [ id 0 graphics [ x 0 y 0 ] ]")?;
    for _ in 0..4001 {
        text.push_str(" edge [ source 0 target 0 ]")?;
    }
    text.push_str(" ]")?;
    let fault = DrawFault::TooManyPieces(4001);
    let row = no_drawing(
        "4,001 pieces",
        text.as_bytes(),
        fault,
        b"refused: 4001 pieces\n",
    );
    assert_long(&rt, rt.alloc(), &row)
}

/// A text with a comment after it that makes it so long.
fn with_comment(alloc: Global, text: &[u8], length: usize) -> Result<Vec<u8>, AllocError> {
    let mut long = Vec::from_slice(alloc, text)?;
    let hashes = vec![in alloc; b'#'; length.saturating_sub(text.len())]?;
    long.extend_from_slice(hashes.as_slice())?;
    Ok(long)
}

#[test]
fn reads_up_to_the_limit(rt: HostRuntime) -> Result<(), Fail> {
    let alloc = rt.alloc();
    let most = with_comment(alloc, TWO_NODES, 4_194_304)?;
    let row = drawn("4 MiB", most.as_slice(), TWO_NODES_DRAWN);
    assert_long(&rt, alloc, &row)?;
    let counted = Row {
        words: CHECK,
        written: b"drawing: 2 vertices, 1 pieces\n",
        ..row
    };
    assert_long(&rt, alloc, &counted)?;
    let more = with_comment(alloc, TWO_NODES, 4_194_305)?;
    let line = b"refused: more than 4194304 bytes\n";
    let row = refused("4 MiB and a byte", more.as_slice(), Why::TooLong, line);
    assert_long(&rt, alloc, &row)?;
    assert_long(
        &rt,
        alloc,
        &Row {
            words: CHECK,
            ..row
        },
    )
}

/// The text of a staircase of so many nodes: in turn a step east and a step up.
fn stair_text(alloc: Global, nodes: u32) -> Result<String, AllocError> {
    let mut text = String::from_str(alloc, "graph [\n")?;
    for k in 0..nodes {
        let (x, y) = ((k + 1) / 2, k / 2);
        let node = format!(in alloc; "  node [ id {k} graphics [ x {x} y {y} ] ]\n")?;
        text.push_str(node.as_str())?;
    }
    push_edges(alloc, &mut text, nodes)?;
    Ok(text)
}

/// Each step is a segment, and shares a vertex with the next. Of 999 segments 998 such pairs are
/// none, which leaves 498,501 - 998, and the steps between keep each of these apart.
#[test]
fn measures_a_thousand_vertices(rt: HostRuntime) -> Result<(), Fail> {
    let text = stair_text(rt.alloc(), 1000)?;
    let row = measured("1,000 steps", text.as_bytes(), STAIR_MEASURED);
    assert_long(&rt, rt.alloc(), &row)
}
