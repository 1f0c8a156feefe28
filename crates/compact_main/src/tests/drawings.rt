//! What is drawn, counted and measured.

use crate::tests::drawn::*;
use crate::tests::examples::*;
use crate::tests::pitched::*;
use crate::tests::rows::*;
use crate::tests::texts::*;
use drawing_check::ShapeFault;
use std::test::Fail;

const AT_1: &[&str] = &["draw", "--plain", "--pitch", "1"];

const AT_50: &[&str] = &["draw", "--plain", "--pitch", "50"];

const PITCH_FIRST: &[&str] = &["draw", "--pitch", "50", "--plain"];

const PITCH_AND_WORKERS: &[&str] = &["draw", "--plain", "--pitch", "50", "--workers", "3"];

const WORKERS_FIRST: &[&str] = &["draw", "--workers", "64", "--pitch", "50", "--plain"];

const AT_10000: &[&str] = &["draw", "--plain", "--pitch", "10000"];

#[test]
fn draws_and_counts(rt: HostRuntime) -> Result<(), Fail> {
    let rows = [
        drawn("two nodes", TWO_NODES, TWO_NODES_DRAWN),
        drawn("one node", ONE_NODE, ONE_NODE_DRAWN),
        drawn("a half step", HALF_STEPS, ONE_NODE_DRAWN),
        drawn("a creator and a comment", WITH_CREATOR, WITH_CREATOR_DRAWN),
        drawn("an edge before its nodes", EDGE_FIRST, EDGE_FIRST_DRAWN),
        Row {
            words: CHECK,
            ..drawn(
                "a hook is counted",
                HOOK,
                b"drawing: 5 vertices, 4 pieces\n",
            )
        },
    ];
    for row in &rows {
        assert_run(&rt, rt.alloc(), row)?;
    }
    Ok(())
}

#[test]
fn draws_the_least_places(rt: HostRuntime) -> Result<(), Fail> {
    let rows = [
        drawn(
            "from east to west",
            FROM_EAST_TO_WEST,
            FROM_EAST_TO_WEST_DRAWN,
        ),
        drawn("a straight point", STRAIGHT_POINT, STRAIGHT_POINT_DRAWN),
        drawn("a square", SQUARE, SQUARE_DRAWN),
        drawn("two bends", TWO_BENDS, TWO_BENDS_DRAWN),
        drawn(
            "points at the ends",
            TWO_BENDS_AND_ENDS,
            TWO_BENDS_AND_ENDS_DRAWN,
        ),
        drawn("a cross", CROSS, CROSS_DRAWN),
    ];
    for row in &rows {
        assert_run(&rt, rt.alloc(), row)?;
    }
    Ok(())
}

#[test]
fn draws_at_a_pitch(rt: HostRuntime) -> Result<(), Fail> {
    let rows = [
        asked(AT_1, TWO_NODES, TWO_NODES_DRAWN),
        asked(AT_50, TWO_NODES, TWO_NODES_50_APART),
        asked(PITCH_FIRST, TWO_NODES, TWO_NODES_50_APART),
        asked(PITCH_AND_WORKERS, TWO_NODES, TWO_NODES_50_APART),
        asked(WORKERS_FIRST, TWO_NODES, TWO_NODES_50_APART),
        asked(AT_10000, TWO_NODES, TWO_NODES_10000_APART),
        asked(AT_50, STYLED, STYLED_50_APART),
    ];
    for row in &rows {
        assert_run(&rt, rt.alloc(), row)?;
    }
    Ok(())
}

#[test]
fn measures(rt: HostRuntime) -> Result<(), Fail> {
    let rows = [
        measured("a hook", HOOK, HOOK_MEASURED),
        measured("one node", ONE_NODE, ONE_NODE_MEASURED),
        measured("a chain", CHAIN, CHAIN_MEASURED),
        measured("a circuit", CIRCUIT, CIRCUIT_MEASURED),
        measured("a database", DATABASE, DATABASE_MEASURED),
        measured("classes", CLASSES, CLASSES_MEASURED),
        Row {
            words: MEASURE,
            ..no_shape("two parts", TWO_PARTS, ShapeFault::Disconnected(2), APART)
        },
    ];
    for row in &rows {
        assert_run(&rt, rt.alloc(), row)?;
    }
    Ok(())
}
