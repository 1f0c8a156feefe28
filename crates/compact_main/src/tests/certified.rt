//! End to end: drawings with their certificates, texts that are verified, and samples.

use crate::status::{Status, Unproved};
use crate::tests::certificates::*;
use crate::tests::drawn::*;
use crate::tests::pitched::*;
use crate::tests::rows::*;
use crate::tests::texts::*;
use std::alloc::{AllocError, Global};
use std::test::Fail;

const DRAW: &[&str] = &["draw"];

const DRAW_AT_50: &[&str] = &["draw", "--pitch", "50"];

/// One text after the other.
pub(super) fn joined(alloc: Global, front: &[u8], back: &[u8]) -> Result<Vec<u8>, AllocError> {
    let mut text = Vec::from_slice(alloc, front)?;
    text.extend_from_slice(back)?;
    Ok(text)
}

/// A text, what is drawn for it, and the lines of the certificate after that.
#[derive(Clone, Copy)]
struct Certified<'a> {
    words: &'a [&'a str],
    text: &'a [u8],
    drawn: &'a [u8],
    certificate: &'a [u8],
}

/// A run of `draw`.
fn at_1<'a>(text: &'a [u8], drawn: &'a [u8], certificate: &'a [u8]) -> Certified<'a> {
    Certified {
        words: DRAW,
        text,
        drawn,
        certificate,
    }
}

#[test]
fn writes_certificates(rt: HostRuntime) -> Result<(), Fail> {
    let rows = [
        at_1(HALF_STEPS, ONE_NODE_DRAWN, ONE_NODE_CERTIFICATE),
        at_1(TWO_NODES, TWO_NODES_DRAWN, TWO_NODES_CERTIFICATE),
        at_1(SQUARE, SQUARE_DRAWN, SQUARE_CERTIFICATE),
        at_1(TWO_BENDS, TWO_BENDS_DRAWN, TWO_BENDS_CERTIFICATE),
        at_1(
            TWO_BENDS_AND_ENDS,
            TWO_BENDS_AND_ENDS_DRAWN,
            TWO_BENDS_CERTIFICATE,
        ),
        at_1(HOOK, HOOK_DRAWN, HOOK_CERTIFICATE),
        at_1(CROSS, CROSS_DRAWN, CROSS_CERTIFICATE),
        Certified {
            words: DRAW_AT_50,
            ..at_1(STYLED, STYLED_50_APART, STYLED_CERTIFICATE)
        },
    ];
    for row in &rows {
        let written = joined(rt.alloc(), row.drawn, row.certificate)?;
        let run = asked(row.words, row.text, written.as_slice());
        assert_run(&rt, rt.alloc(), &run)?;
    }
    Ok(())
}

#[test]
fn verifies_what_was_drawn(rt: HostRuntime) -> Result<(), Fail> {
    let hook = joined(rt.alloc(), HOOK_DRAWN, HOOK_CERTIFICATE)?;
    let styled = joined(rt.alloc(), STYLED_50_APART, STYLED_CERTIFICATE)?;
    let rows = [
        asked(VERIFY, hook.as_slice(), b"proved: length 5\n"),
        asked(VERIFY, styled.as_slice(), b"proved: length 2\n"),
    ];
    for row in &rows {
        assert_run(&rt, rt.alloc(), row)?;
    }
    Ok(())
}

#[test]
fn draws_samples(rt: HostRuntime) -> Result<(), Fail> {
    assert_run(&rt, rt.alloc(), &unread(&["sample", "1"], SAMPLE_1))?;
    assert_run(&rt, rt.alloc(), &unread(&["sample", "200"], SAMPLE_200))
}

#[test]
fn numbers_of_statuses(rt: HostRuntime) {
    let not_whole = Status::NotProved(Unproved::NotWhole(0));
    assert_eq!(rt; Status::Done.number(), 0);
    assert_eq!(rt; Status::BadWords.number(), 2);
    assert_eq!(rt; Status::NoMemory.number(), 5);
    assert_eq!(rt; not_whole.number(), 6);
}
