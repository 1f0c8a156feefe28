//! Texts that hold no drawing, by their first fault.

use crate::status::Why;
use crate::tests::rows::*;
use crate::tests::texts::*;
use drawing_check::ShapeFault;
use drawing_read::DrawFault;
use gml_text::{GmlFault, GmlKind, NumberFault};
use std::alloc::Global;
use std::process::Abort;
use std::test::Fail;
use std::thread::Threads;

/// A run of `draw --plain` on a text that has no tree.
pub(super) fn no_gml<'a>(
    name: &'a str,
    text: &'a [u8],
    kind: GmlKind,
    at: u32,
    line: &'a [u8],
) -> Row<'a> {
    refused(name, text, Why::Gml(GmlFault { at, kind }), line)
}

#[test]
fn refuses_what_is_no_gml(rt: HostRuntime) -> Result<(), Fail> {
    use GmlKind::{BadKey, BadNumeral, BadValue, OpenList, OpenString, StrayClose, TooDeep};
    let bad_value = b"refused: bad value at byte 2\n";
    let bad_numeral = b"refused: bad numeral at byte 2\n";
    let open_string = b"refused: string not closed at byte 2\n";
    let bad_key = b"refused: bad key at byte 0\n";
    let open_list = b"refused: list not closed at byte 6\n";
    let stray_close = b"refused: stray close at byte 0\n";
    let too_deep = b"refused: too deep at byte 129\n";
    // The first bytes of a text, up to an id and up to its key.
    let up_to_id = b"refused: list not closed at byte 15\n";
    let up_to_key = b"refused: bad value at byte 19\n";
    let rows = [
        no_gml("a word", b"a b", BadValue, 2, bad_value),
        no_gml("two points", b"a 1.2.3", BadNumeral, 2, bad_numeral),
        no_gml("an open string", b"a \"x", OpenString, 2, open_string),
        no_gml("a digit first", b"1a 2", BadKey, 0, bad_key),
        no_gml("a sign in a key", b"a-b 1", BadKey, 0, bad_key),
        no_gml("an open list", b"graph [", OpenList, 6, open_list),
        no_gml("a stray close", b"]", StrayClose, 0, stray_close),
        no_gml("65 lists", LISTS_65, TooDeep, 129, too_deep),
        no_gml("up to an id", &TWO_NODES[..21], OpenList, 15, up_to_id),
        no_gml("up to a key", &TWO_NODES[..19], BadValue, 19, up_to_key),
    ];
    for row in &rows {
        assert_run(&rt, rt.alloc(), row)?;
    }
    Ok(())
}

/// Two runs on a text that holds no drawing: of `draw --plain` and of `check`.
fn assert_refused<R: Abort + Threads + Sync>(rt: &R, alloc: Global, row: &Row) -> Result<(), Fail> {
    assert_run(rt, alloc, row)?;
    assert_run(
        rt,
        alloc,
        &Row {
            words: CHECK,
            ..*row
        },
    )
}

/// A run of `draw --plain` on a text whose tree is no drawing.
pub(super) fn no_drawing<'a>(
    name: &'a str,
    text: &'a [u8],
    fault: DrawFault,
    line: &'a [u8],
) -> Row<'a> {
    refused(name, text, Why::Draw(fault), line)
}

/// A run of `draw --plain` on a text with a numeral at byte 35 that is no coordinate.
pub(super) fn no_number<'a>(
    name: &'a str,
    text: &'a [u8],
    cause: NumberFault,
    line: &'a [u8],
) -> Row<'a> {
    no_drawing(name, text, DrawFault::BadNumber { at: 35, cause }, line)
}

#[test]
fn refuses_graphs_and_nodes(rt: HostRuntime) -> Result<(), Fail> {
    let two_graphs = b"graph [ ] graph [ ]";
    let bad_id = b"graph [ node [ id 1.5 ] ]";
    let no_place = b"graph [ node [ id 7 ] ]";
    let too_fine = b"refused: number too fine at byte 35\n";
    let far_out = b"refused: number out of range at byte 35\n";
    let rows = [
        no_drawing("no graph", b"", DrawFault::NoGraph, b"refused: no graph\n"),
        no_drawing(
            "two graphs",
            two_graphs,
            DrawFault::TwoGraphs,
            b"refused: two graphs\n",
        ),
        no_drawing(
            "no node",
            b"graph [ ]",
            DrawFault::Empty,
            b"refused: no node\n",
        ),
        no_drawing(
            "no id",
            NO_ID,
            DrawFault::NoId(1),
            b"refused: node 1 has no id\n",
        ),
        no_drawing(
            "a bad id",
            bad_id,
            DrawFault::BadId(0),
            b"refused: node 0 has a bad id\n",
        ),
        no_drawing(
            "an id twice",
            ID_TWICE,
            DrawFault::RepeatedId(1),
            ID_TWICE_LINE,
        ),
        no_drawing(
            "no place",
            no_place,
            DrawFault::NoPlace(0),
            b"refused: node 0 has no place\n",
        ),
        no_number("too fine", TOO_FINE, NumberFault::TooFine, too_fine),
        no_number("out of range", FAR_OUT, NumberFault::OutOfRange, far_out),
    ];
    for row in &rows {
        assert_refused(&rt, rt.alloc(), row)?;
    }
    Ok(())
}

#[test]
fn refuses_edges(rt: HostRuntime) -> Result<(), Fail> {
    let bad_point = DrawFault::BadPoint { edge: 0, point: 1 };
    let rows = [
        no_drawing(
            "no end",
            NO_END,
            DrawFault::NoEnd(1),
            b"refused: edge 1 lacks an end\n",
        ),
        no_drawing(
            "unknown end",
            UNKNOWN_END,
            DrawFault::UnknownEnd(0),
            UNKNOWN_END_LINE,
        ),
        no_drawing(
            "bad point",
            BAD_POINT,
            bad_point,
            b"refused: edge 0 has a bad point 1\n",
        ),
    ];
    for row in &rows {
        assert_refused(&rt, rt.alloc(), row)?;
    }
    Ok(())
}

/// Two pieces meet at a point with y 0.
fn meeting(p: u32, q: u32, x: i64) -> ShapeFault {
    ShapeFault::Meeting { p, q, x, y: 0 }
}

#[test]
fn refuses_places_that_are_no_drawing(rt: HostRuntime) -> Result<(), Fail> {
    let crossing = b"refused: pieces 0 and 1 meet at 5000 0\n";
    let bend = b"refused: pieces 0 and 3 meet at 5000 0\n";
    let edge_twice = b"refused: pieces 0 and 1 meet at 0 0\n";
    let slanted = b"refused: piece 0 is slanted\n";
    let bend_twice = b"refused: piece 1 has no length\n";
    let bend_on_a_node = b"refused: piece 2 has no length\n";
    let rows = [
        no_shape("a crossing", CROSSING, meeting(0, 1, 5000), crossing),
        no_shape(
            "a bend on a piece",
            BEND_ON_A_PIECE,
            meeting(0, 3, 5000),
            bend,
        ),
        no_shape("an edge twice", EDGE_TWICE, meeting(0, 1, 0), edge_twice),
        no_shape("a slanted piece", SLANTED, ShapeFault::Slanted(0), slanted),
        no_shape(
            "a bend twice",
            BEND_TWICE,
            ShapeFault::ZeroPiece(1),
            bend_twice,
        ),
        no_shape(
            "a bend on a node",
            BEND_ON_A_NODE,
            ShapeFault::ZeroPiece(2),
            bend_on_a_node,
        ),
        no_shape("two parts", TWO_PARTS, ShapeFault::Disconnected(2), APART),
        no_shape(
            "a node on a node",
            NODE_ON_A_NODE,
            ShapeFault::Disconnected(2),
            APART,
        ),
    ];
    for row in &rows {
        assert_refused(&rt, rt.alloc(), row)?;
    }
    Ok(())
}
