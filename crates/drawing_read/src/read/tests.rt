//! Readings and first faults of short texts.
#![tactic(auto, using(crate::proofs::LegibleWords::readable_legible))]

use super::*;
use compact_types::{Axis, Piece, Point};
use gml_text::{NumberFault, read_tree};
use std::process::Abort;
use std::test::Fail;

/// Three nodes, and an edge whose first and last points are its nodes' places.
const BENT: &[u8] =
    b"graph [ node [ id 0 graphics [ x 0 y 0 ] ] node [ id 1 graphics [ x 5 y 4 ] ] \
    node [ id 2 graphics [ y 9 x 5 ] ] edge [ source 0 target 1 ] \
    edge [ source 1 target 2 graphics [ Line [ \
    point [ x 5 y 4 ] point [ x 5 y 9 ] point [ x 5 y 9 ] ] ] ] ]";

/// The first fault of a short text that has a tree.
fn fault_in(rt: &impl Abort, alloc: Global, text: &[u8]) -> Option<DrawFault> {
    assert!(rt; text.len() < 1000);
    let Ok(tree) = read_tree(alloc, text) else {
        return None;
    };
    match read_drawing(alloc, &tree) {
        Err(Refusal::Fault(fault)) => Some(fault),
        _ => None,
    }
}

/// Nodes: none where one is asked for, and nodes without an id, a good one, one of their own, or a
/// place.
const NODE_FAULTS: [(&str, DrawFault); 11] = [
    ("", DrawFault::NoGraph),
    ("graph 1 Graph [ ]", DrawFault::NoGraph),
    ("graph [ ] graph [ ]", DrawFault::TwoGraphs),
    ("graph [ ]", DrawFault::Empty),
    (
        "graph [ node [ id 1 graphics [ x 0 y 0 ] ] node [ ] ]",
        DrawFault::NoId(1),
    ),
    ("graph [ node [ id 1.0 id 1 ] ]", DrawFault::BadId(0)),
    (
        "graph [ node [ id 9223372036854775808 ] ]",
        DrawFault::BadId(0),
    ),
    (
        "graph [ node [ id 1 ] node [ id +01 ] edge [ source 1 target 9 ] ]",
        DrawFault::RepeatedId(1),
    ),
    (
        "graph [ node [ id 1 graphics [ x 0 y \"0\" ] ] ]",
        DrawFault::NoPlace(0),
    ),
    (
        "graph [ node [ id 1 graphics 1 graphics [ x 0 y 0 ] ] ]",
        DrawFault::NoPlace(0),
    ),
    ("graph [ node [ id 1 ] edge [ ] ]", DrawFault::NoPlace(0)),
];

#[test]
fn faults_of_nodes(rt: HostRuntime) {
    for (text, fault) in NODE_FAULTS {
        assert_eq!(rt;
            fault_in(&rt, rt.alloc(), text.as_bytes()),
            Some(fault),
            "at {text}"
        );
    }
}

/// Edges of a graph whose one node has id 1: without an end, with an end that is no node's id, with
/// a bad point.
const EDGE_FAULTS: [(&str, DrawFault); 5] = [
    ("edge [ source 1 target 1.0 ]", DrawFault::NoEnd(0)),
    ("edge [ source 1 target 9 ]", DrawFault::UnknownEnd(0)),
    (
        "edge [ source 1 target 99999999999999999999 ]",
        DrawFault::UnknownEnd(0),
    ),
    (
        "edge [ source 1 target 1 ] \
        edge [ source 1 target 1 graphics [ Line [ point [ x 1 y 2 ] point 1 ] ] ]",
        DrawFault::BadPoint { edge: 1, point: 1 },
    ),
    (
        "edge [ source 1 target 1 graphics [ Line [ point [ x 1 ] ] ] ]",
        DrawFault::BadPoint { edge: 0, point: 0 },
    ),
];

#[test]
fn faults_of_edges(rt: HostRuntime) -> Result<(), Fail> {
    for (edges, fault) in EDGE_FAULTS {
        let mut text = Vec::from_slice(rt.alloc(), b"graph [ ")?;
        text.extend_from_slice(edges.as_bytes())?;
        text.extend_from_slice(b" node [ id 1 graphics [ x 0 y 0 ] ] ]")?;
        assert_eq!(rt;
            fault_in(&rt, rt.alloc(), text.as_slice()),
            Some(fault),
            "at {edges}"
        );
    }
    Ok(())
}

#[test]
fn numbers_out_of_form(rt: HostRuntime) {
    let too_fine = DrawFault::BadNumber {
        at: 33,
        cause: NumberFault::TooFine,
    };
    let text = b"graph [ node [ id 0 graphics [ x 0.1234 y 0 ] ] ]";
    assert_eq!(rt; fault_in(&rt, rt.alloc(), text), Some(too_fine));

    // That of a point stands before that of the node, although its edge has no ends.
    let out_of_range = DrawFault::BadNumber {
        at: 43,
        cause: NumberFault::OutOfRange,
    };
    let text = b"graph [ edge [ graphics [ Line [ point [ x 1e400 y 0 ] ] ] ] \
        node [ id 0 graphics [ x 0.1234 y 0 ] ] ]";
    assert_eq!(rt; fault_in(&rt, rt.alloc(), text), Some(out_of_range));
}

#[test]
fn straight_points_and_points_of_nodes(rt: HostRuntime) -> Result<(), Fail> {
    let tree = read_tree(rt.alloc(), BENT)?;
    let reading = read_drawing(rt.alloc(), &tree)?;
    let points = [(0, 0), (5000, 4000), (5000, 9000), (5000, 9000)].map(|(x, y)| Point { x, y });
    assert_eq!(rt; reading.places.xy.as_slice(), points.as_slice());
    let pieces = [(0, 1), (1, 3), (3, 2)].map(|(from, to)| Piece { from, to });
    assert_eq!(rt; reading.plan.pieces.as_slice(), pieces.as_slice());
    assert_eq!(rt; reading.plan.vertices, 4);
    Ok(())
}

#[test]
fn a_point_level_with_its_source_is_a_bend(rt: HostRuntime) -> Result<(), Fail> {
    let text = b"graph [ node [ id 0 graphics [ x 0 y 0 ] ] node [ id 1 graphics [ x 10 y 0 ] ] \
        edge [ source 0 target 1 graphics [ Line [ point [ x 4 y 0 ] ] ] ] ]";
    let tree = read_tree(rt.alloc(), text)?;
    let reading = read_drawing(rt.alloc(), &tree)?;
    let pieces = [(0, 2), (2, 1)].map(|(from, to)| Piece { from, to });
    assert_eq!(rt; reading.plan.pieces.as_slice(), pieces.as_slice());
    assert_eq!(rt; reading.places.xy.get(2), Some(&Point { x: 4000, y: 0 }));
    Ok(())
}

#[test]
fn spots_in_document_order(rt: HostRuntime) -> Result<(), Fail> {
    let tree = read_tree(rt.alloc(), BENT)?;
    let reading = read_drawing(rt.alloc(), &tree)?;
    let spots: [(usize, &[u32], u32, Axis); 5] = [
        (0, &[0, 0, 1, 0], 0, Axis::X),
        (4, &[0, 2, 1, 0], 2, Axis::Y),
        (6, &[0, 4, 2, 0, 0, 0], 1, Axis::X),
        (9, &[0, 4, 2, 0, 1, 1], 3, Axis::Y),
        (10, &[0, 4, 2, 0, 2, 0], 2, Axis::X),
    ];
    assert_eq!(rt; reading.spots.len(), 12);
    for (number, path, vertex, axis) in spots {
        let spot = reading.spots.get(number).ok_or("no spot")?;
        assert_eq!(rt;
            (spot.path.as_slice(), spot.vertex, spot.axis),
            (path, vertex, axis)
        );
    }
    Ok(())
}
