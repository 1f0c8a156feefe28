//! End to end: texts that do not prove their drawings.

use crate::status::{Status, Unproved};
use crate::tests::certificates::*;
use crate::tests::certified::joined;
use crate::tests::rows::*;
use cert_check::CheckFault;
use cert_text::{CertFault, CertKind};
use compact_types::Axis;
use drawing_check::ShapeFault;
use std::alloc::Global;
use std::process::Abort;
use std::test::Fail;
use std::thread::Threads;

/// A drawing and the lines after it that do not prove it, and why.
#[derive(Clone, Copy)]
struct Flaw<'a> {
    name: &'a str,
    drawing: &'a [u8],
    certificate: &'a [u8],
    unproved: Unproved,
    line: &'a [u8],
}

/// A run of `verify` on a text that is not proved.
pub(super) fn not_proved<'a>(
    name: &'a str,
    text: &'a [u8],
    unproved: Unproved,
    line: &'a [u8],
) -> Row<'a> {
    Row {
        words: VERIFY,
        ..ended(name, text, Status::NotProved(unproved), line)
    }
}

/// A run of `verify` on a text with a slanted piece.
fn slanted_when_verified<'a>(text: &'a [u8], piece: u32, line: &'a [u8]) -> Row<'a> {
    Row {
        words: VERIFY,
        ..no_shape("slanted", text, ShapeFault::Slanted(piece), line)
    }
}

fn assert_flaw<R: Abort + Threads + Sync>(rt: &R, alloc: Global, flaw: &Flaw) -> Result<(), Fail> {
    let text = joined(alloc, flaw.drawing, flaw.certificate)?;
    let row = not_proved(flaw.name, text.as_slice(), flaw.unproved, flaw.line);
    assert_run(rt, alloc, &row)
}

/// A fault of the text of the certificate after the hook.
fn no_text<'a>(
    name: &'a str,
    certificate: &'a [u8],
    line: u32,
    kind: CertKind,
    note: &'a [u8],
) -> Flaw<'a> {
    Flaw {
        name,
        drawing: HOOK_DRAWN,
        certificate,
        unproved: Unproved::Cert(CertFault { line, kind }),
        line: note,
    }
}

/// A drawing that its certificate does not show to be the best.
fn not_shown<'a>(
    name: &'a str,
    drawing: &'a [u8],
    certificate: &'a [u8],
    fault: CheckFault,
    line: &'a [u8],
) -> Flaw<'a> {
    Flaw {
        name,
        drawing,
        certificate,
        unproved: Unproved::Check(fault),
        line,
    }
}

#[test]
fn finds_flaws_in_the_text_of_a_certificate(rt: HostRuntime) -> Result<(), Fail> {
    let (bad, missing) = (CertKind::BadLine, CertKind::MissingBranch);
    let (none, trailing) = (CertKind::NoCertificate, CertKind::TrailingLine);
    let rows = [
        no_text("no certificate", b"", 0, none, NO_CERTIFICATE),
        no_text("a line less", HOOK_LINE_LESS, 6, missing, LINE_6_LACKING),
        no_text("a line more", HOOK_LINE_MORE, 7, trailing, LINE_7_MORE),
        no_text("another version", HOOK_VERSION_2, 1, bad, LINE_1_BAD),
        Flaw {
            unproved: Unproved::NotWhole(1),
            ..no_text("off the grid", HOOK_AT_PITCH_2, 0, none, OFF_THE_GRID)
        },
    ];
    for row in &rows {
        assert_flaw(&rt, rt.alloc(), row)?;
    }
    Ok(())
}

#[test]
fn finds_what_a_certificate_does_not_show(rt: HostRuntime) -> Result<(), Fail> {
    let (entry, axis, node) = (1, Axis::X, 0);
    let unbalanced = CheckFault::Unbalanced { entry, axis, node };
    let (bound, earlier) = (5, None);
    let weak = CheckFault::WeakBound {
        entry,
        bound,
        earlier,
    };
    let (entry, place) = (2, 0);
    let open = CheckFault::NotACycle { entry, place };
    let zero = CheckFault::NotFromZero;
    let rows = [
        not_shown(
            "a load",
            HOOK_DRAWN,
            HOOK_UNBALANCED,
            unbalanced,
            UNBALANCED,
        ),
        not_shown(
            "a longer arm",
            HOOK_WIDE,
            HOOK_CERTIFICATE,
            weak,
            WEAK_BOUND,
        ),
        not_shown("a cycle", HOOK_DRAWN, HOOK_OPEN_CYCLE, open, NO_CYCLE),
        not_shown("moved", HOOK_MOVED, HOOK_CERTIFICATE, zero, NOT_FROM_ZERO),
    ];
    for row in &rows {
        assert_flaw(&rt, rt.alloc(), row)?;
    }
    assert_run(
        &rt,
        rt.alloc(),
        &slanted_when_verified(HOOK_SLANTED, 2, PIECE_2_SLANTED),
    )
}
