//! Reads and writes that fail, each alone: which of them it is changes nothing but how much was
//! written before.

use crate::status::Status;
use crate::tests::certificates::*;
use crate::tests::certified::joined;
use crate::tests::examples::HOOK_MEASURED;
use crate::tests::rows::*;
use crate::tests::texts::HOOK;
use std::alloc::Global;
use std::process::Abort;
use std::test::Fail;
use std::thread::Threads;

const DRAW: &[&str] = &["draw"];

const READ_FAULT: &[u8] = b"read fault\n";

const WRITE_FAULT: &[u8] = b"write fault\n";

/// Each read of a run fails alone, up to the one that finds the end. The one after it is not made.
fn assert_each_read<R: Abort + Threads + Sync>(
    rt: &R,
    alloc: Global,
    row: &Row,
) -> Result<(), Fail> {
    let end = row.text.len().div_ceil(16) as u64 + 1;
    for read in 1..=end {
        let name = format!(in alloc; "read {read} fails")?;
        let failed = Row {
            name: name.as_str(),
            failing_reads: &[read],
            status: Status::ReadFault,
            written: b"",
            line: READ_FAULT,
            ..*row
        };
        assert_run(rt, alloc, &failed)?;
    }
    let done = Row {
        name: "a read after the end would fail",
        failing_reads: &[end + 1],
        ..*row
    };
    assert_run(rt, alloc, &done)
}

/// Each write of a run fails alone, up to the one that takes the last byte. What was written before
/// is a proper front of the output. The one after it is not made.
fn assert_each_write<R: Abort + Threads + Sync>(
    rt: &R,
    alloc: Global,
    row: &Row,
) -> Result<(), Fail> {
    for at in (0..row.written.len()).step_by(7) {
        let write = at as u64 / 7 + 1;
        let name = format!(in alloc; "write {write} fails")?;
        let failed = Row {
            name: name.as_str(),
            failing_writes: &[write],
            status: Status::WriteFault,
            written: &row.written[..at],
            line: WRITE_FAULT,
            ..*row
        };
        assert_run(rt, alloc, &failed)?;
    }
    let last = row.written.len().div_ceil(7) as u64;
    let done = Row {
        name: "a write after the last would fail",
        failing_writes: &[last + 1],
        ..*row
    };
    assert_run(rt, alloc, &done)
}

/// The hook and all that is written for it, and its drawing that is verified.
#[test]
fn each_read_and_each_write_fails_alone(rt: HostRuntime) -> Result<(), Fail> {
    let alloc = rt.alloc();
    let hook = joined(alloc, HOOK_DRAWN, HOOK_CERTIFICATE)?;
    let rows = [
        asked(PLAIN, HOOK, HOOK_DRAWN),
        asked(DRAW, HOOK, hook.as_slice()),
        asked(CHECK, HOOK, b"drawing: 5 vertices, 4 pieces\n"),
        asked(MEASURE, HOOK, HOOK_MEASURED),
        asked(VERIFY, hook.as_slice(), b"proved: length 5\n"),
    ];
    for row in &rows {
        assert_each_read(&rt, alloc, row)?;
        assert_each_write(&rt, alloc, row)?;
    }
    assert_each_write(&rt, alloc, &unread(&["sample", "1"], SAMPLE_1))?;
    let small = Row {
        room: 10,
        written: b"graph [\n  ",
        ..ended("little room", HOOK, Status::WriteFault, WRITE_FAULT)
    };
    for words in [PLAIN, DRAW] {
        assert_run(&rt, alloc, &Row { words, ..small })?;
    }
    Ok(())
}
