//! Words that do not ask for a command, reads and writes that fail, and notes that cannot be
//! written.

use crate::run::run_alone;
use crate::status::{Status, Why};
use crate::tests::rows::*;
use crate::tests::texts::*;
use drawing_check::ShapeFault;
use io_ends::PlainSource;
use std::test::Fail;

const USAGE: &[u8] =
    b"usage: draw [--workers N] [--pitch N] [--plain] | check | measure | verify | sample N\n";

/// Words that ask for nothing: the read that would fail is not made.
fn bad_words<'a>(name: &'a str, words: &'a [&'a str]) -> Row<'a> {
    Row {
        words,
        failing_reads: &[1],
        ..ended(name, TWO_NODES, Status::BadWords, USAGE)
    }
}

#[test]
fn refuses_options(rt: HostRuntime) -> Result<(), Fail> {
    let twice = ["draw", "--pitch", "2", "--pitch", "2", "--plain"];
    let rows = [
        bad_words("no pitch", &["draw", "--plain", "--pitch", "0"]),
        bad_words("too far apart", &["draw", "--plain", "--pitch", "10001"]),
        bad_words("a zero in front", &["draw", "--plain", "--pitch", "05"]),
        bad_words("a sign", &["draw", "--plain", "--pitch", "+5"]),
        bad_words("one word", &["draw", "--plain", "--pitch=5"]),
        bad_words("no number", &["draw", "--plain", "--pitch"]),
        bad_words("a pitch twice", &twice),
        bad_words("plain twice", &["draw", "--plain", "--plain"]),
        bad_words("one word, and no plain", &["draw", "--pitch=5"]),
        bad_words("no workers", &["draw", "--workers", "0"]),
        bad_words("too many workers", &["draw", "--workers", "65"]),
        bad_words(
            "workers twice",
            &["draw", "--workers", "2", "--workers", "2"],
        ),
        bad_words("options first", &["--plain", "draw"]),
    ];
    for row in &rows {
        assert_run(&rt, rt.alloc(), row)?;
    }
    Ok(())
}

#[test]
fn ends_by_words_and_faults(rt: HostRuntime) -> Result<(), Fail> {
    let rows = [
        bad_words("a sample of none", &["sample", "0"]),
        bad_words("too large a sample", &["sample", "251"]),
        bad_words("a sample without a number", &["sample"]),
        bad_words("a word behind verify", &["verify", "x"]),
        bad_words("a word too many", &["check", "x"]),
        bad_words("a word behind measure", &["measure", "x"]),
        bad_words("no words", &[]),
        Row {
            room: 10,
            written: b"graph [\n  ",
            ..ended(
                "too little room",
                TWO_NODES,
                Status::WriteFault,
                b"write fault\n",
            )
        },
        Row {
            failing_reads: &[2],
            ..ended(
                "a read fails",
                TWO_NODES,
                Status::ReadFault,
                b"read fault\n",
            )
        },
    ];
    for row in &rows {
        assert_run(&rt, rt.alloc(), row)?;
    }
    Ok(())
}

#[test]
fn a_note_that_cannot_be_written_changes_no_status(rt: HostRuntime) -> Result<(), Fail> {
    let alloc = rt.alloc();
    let (p, q, x, y) = (0, 1, 5000, 0);
    let crossing = ShapeFault::Meeting { p, q, x, y };
    let words = words_of(alloc, PLAIN)?;
    let mut source = PlainSource::new(CROSSING);
    let mut out = sink_of(alloc, 10, &[])?;
    let mut notes = sink_of(alloc, 100, &[1])?;
    let status = run_alone(
        &rt,
        alloc,
        words.as_slice(),
        &mut source,
        &mut out,
        &mut notes,
    );
    assert_eq!(rt; status, Status::Refused(Why::Shape(crossing)));
    assert_eq!(rt; notes.bytes(), b"".as_slice());
    Ok(())
}
