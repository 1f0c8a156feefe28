//! Rows of the tables: a run of the program, and how it ends.

use crate::run::run_alone;
use crate::status::{Status, Why};
use drawing_check::ShapeFault;
use io_ends::{MemorySink, MemorySource, PlainSource};
use std::alloc::{AllocError, Global};
use std::process::Abort;
use std::test::Fail;
use std::thread::Threads;

/// A run on a text that comes in pieces of 16 bytes, into a sink with this room that takes 7 bytes
/// at a time. The reads and the writes of these numbers fail.
#[derive(Clone, Copy)]
pub(super) struct Row<'a> {
    pub(super) name: &'a str,
    pub(super) words: &'a [&'a str],
    pub(super) text: &'a [u8],
    pub(super) failing_reads: &'a [u64],
    pub(super) failing_writes: &'a [u64],
    pub(super) room: usize,
    pub(super) status: Status,
    pub(super) written: &'a [u8],
    pub(super) line: &'a [u8],
}

pub(super) const PLAIN: &[&str] = &["draw", "--plain"];

pub(super) const CHECK: &[&str] = &["check"];

pub(super) const MEASURE: &[&str] = &["measure"];

pub(super) const VERIFY: &[&str] = &["verify"];

/// A run of `draw --plain` without faults that writes this.
pub(super) fn drawn<'a>(name: &'a str, text: &'a [u8], written: &'a [u8]) -> Row<'a> {
    Row {
        name,
        words: PLAIN,
        text,
        failing_reads: &[],
        failing_writes: &[],
        room: 2000,
        status: Status::Done,
        written,
        line: b"",
    }
}

/// A run with these words without faults that writes this.
pub(super) fn asked<'a>(words: &'a [&'a str], text: &'a [u8], written: &'a [u8]) -> Row<'a> {
    Row {
        words,
        ..drawn("no fault", text, written)
    }
}

/// A run of `measure` without faults that writes these lines.
pub(super) fn measured<'a>(name: &'a str, text: &'a [u8], written: &'a [u8]) -> Row<'a> {
    Row {
        words: MEASURE,
        ..drawn(name, text, written)
    }
}

/// A run with these words that reads nothing, not even where a read would fail, and writes this.
pub(super) fn unread<'a>(words: &'a [&'a str], written: &'a [u8]) -> Row<'a> {
    Row {
        failing_reads: &[1],
        ..asked(words, b"", written)
    }
}

/// A run of `draw --plain` that ends with this status and writes nothing but a line for the user.
pub(super) fn ended<'a>(name: &'a str, text: &'a [u8], status: Status, line: &'a [u8]) -> Row<'a> {
    Row {
        status,
        line,
        ..drawn(name, text, b"")
    }
}

/// A run of `draw --plain` on a text that is refused.
pub(super) fn refused<'a>(name: &'a str, text: &'a [u8], why: Why, line: &'a [u8]) -> Row<'a> {
    ended(name, text, Status::Refused(why), line)
}

/// A run of `draw --plain` on a text whose places are no drawing.
pub(super) fn no_shape<'a>(
    name: &'a str,
    text: &'a [u8],
    fault: ShapeFault,
    line: &'a [u8],
) -> Row<'a> {
    refused(name, text, Why::Shape(fault), line)
}

/// The words as the program is given them.
pub(super) fn words_of(alloc: Global, words: &[&str]) -> Result<Vec<String>, AllocError> {
    let mut list = Vec::new(alloc);
    for word in words {
        list.push(String::from_str(alloc, word)?)?;
    }
    Ok(list)
}

/// A sink with so much room whose writes of `failing` fail.
pub(super) fn sink_of(alloc: Global, room: usize, failing: &[u64]) -> Result<MemorySink, Fail> {
    let failing = Vec::from_slice(alloc, failing)?;
    MemorySink::new(alloc, room, 7, failing).map_err(|_| "room".into())
}

pub(super) fn assert_run<R: Abort + Threads + Sync>(
    rt: &R,
    alloc: Global,
    row: &Row,
) -> Result<(), Fail> {
    let (name, command) = (row.name, command_of(row));
    let words = words_of(alloc, row.words)?;
    let text = Vec::from_slice(alloc, row.text)?;
    let mut source = MemorySource::new(text, 16, Vec::from_slice(alloc, row.failing_reads)?);
    let mut out = sink_of(alloc, row.room, row.failing_writes)?;
    let mut notes = sink_of(alloc, 100, &[])?;
    let status = run_alone(
        rt,
        alloc,
        words.as_slice(),
        &mut source,
        &mut out,
        &mut notes,
    );
    assert_eq!(rt; status, row.status, "{name}, {command}");
    assert_eq!(rt;
        out.bytes(),
        row.written,
        "{name}, {command}: what was written"
    );
    assert_eq!(rt;
        notes.bytes(),
        row.line,
        "{name}, {command}: the line for the user"
    );
    Ok(())
}

/// A run on a long text.
pub(super) fn assert_long<R: Abort + Threads + Sync>(
    rt: &R,
    alloc: Global,
    row: &Row,
) -> Result<(), Fail> {
    let (name, command) = (row.name, command_of(row));
    let words = words_of(alloc, row.words)?;
    let mut source = PlainSource::new(row.text);
    let mut out = sink_of(alloc, row.room, &[])?;
    let mut notes = sink_of(alloc, 100, &[])?;
    let status = run_alone(
        rt,
        alloc,
        words.as_slice(),
        &mut source,
        &mut out,
        &mut notes,
    );
    assert_eq!(rt; status, row.status, "{name}, {command}");
    assert!(rt;
        out.bytes() == row.written,
        "{name}, {command}: what was written"
    );
    assert_eq!(rt;
        notes.bytes(),
        row.line,
        "{name}, {command}: the line for the user"
    );
    Ok(())
}

/// The first word of a row.
fn command_of<'a>(row: &Row<'a>) -> &'a str {
    row.words.first().copied().unwrap_or("no words")
}
