//! End to end: drawings that several workers search for.

use crate::run::run;
use crate::status::Status;
use crate::tests::certificates::HOOK_DRAWN;
use crate::tests::rows::{VERIFY, sink_of, words_of};
use crate::tests::texts::HOOK;
use io_ends::{MemorySink, PlainSource};
use std::alloc::Global;
use std::process::Abort;
use std::sync::Wait;
use std::sync::atomic::{AtomicBool, AtomicU64, Ordering};
use std::test::Fail;
use std::thread::Threads;
use workers::{Gate, NoGate};

/// What a run with these words writes for a text, where each worker passes the gate.
fn written<R: Abort + Threads + Wait + Sync, G: Gate>(
    rt: &R,
    alloc: Global,
    words: &[&str],
    text: &[u8],
    gate: &G,
) -> Result<MemorySink, Fail> {
    let words = words_of(alloc, words)?;
    let mut source = PlainSource::new(text);
    let mut out = sink_of(alloc, 2000, &[])?;
    let mut notes = sink_of(alloc, 100, &[])?;
    let words = words.as_slice();
    let status = run(rt, alloc, words, &mut source, &mut out, &mut notes, gate);
    assert_eq!(rt; status, Status::Done);
    Ok(out)
}

/// The drawing is the one that a worker alone finds. Its certificate may be another.
#[test]
fn several_workers_find_the_same_drawing(rt: HostRuntime) -> Result<(), Fail> {
    let alloc = rt.alloc();
    for workers in ["1", "2", "8"] {
        let drawn = written(&rt, alloc, &["draw", "--workers", workers], HOOK, &NoGate)?;
        assert!(rt; drawn.bytes().starts_with(HOOK_DRAWN), "{workers} workers");
        let proved = written(&rt, alloc, VERIFY, drawn.bytes(), &NoGate)?;
        assert_eq!(rt; proved.bytes(), b"proved: length 5\n".as_slice());
    }
    Ok(())
}

/// How many times the first worker looks for another one.
const MOST_TURNS: u32 = 1_000_000_000;

/// A gate at which the first worker with a branch after the first is held until another worker
/// comes with one.
#[derive(Drop)]
struct Meeting {
    /// The number of the worker that is held, plus one; 0 before it comes.
    held: AtomicU64,
    met: AtomicBool,
    missed: AtomicBool,
}

impl Meeting {
    fn hold(&self) {
        for _ in 0..MOST_TURNS {
            if self.met.load(Ordering::SeqCst) {
                return;
            }
        }
        self.missed.store(true, Ordering::SeqCst);
    }
}

impl Gate for Meeting {
    fn at(&self, worker: u32, id: u64) {
        if id == 0 {
            return;
        }
        let number = u64::from(worker) + 1;
        let order = Ordering::SeqCst;
        match self.held.compare_exchange(0, number, order, order) {
            Ok(_) => self.hold(),
            Err(held) if held != number => self.met.store(true, order),
            Err(_) => {}
        }
    }
}

/// A search on one thread never gets past the gate before the last turn.
#[test]
fn two_workers_search_side_by_side(rt: HostRuntime) -> Result<(), Fail> {
    let gate = Meeting {
        held: AtomicU64::new(0),
        met: AtomicBool::new(false),
        missed: AtomicBool::new(false),
    };
    let drawn = written(&rt, rt.alloc(), &["draw", "--workers", "2"], HOOK, &gate)?;
    assert!(rt; drawn.bytes().starts_with(HOOK_DRAWN));
    assert!(rt; gate.met.load(Ordering::SeqCst), "two workers came");
    assert!(rt;
        !gate.missed.load(Ordering::SeqCst),
        "the first was held too long"
    );
    Ok(())
}
