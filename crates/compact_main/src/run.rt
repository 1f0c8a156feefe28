//! The top call: does what the words ask for, from reading the text to writing the output.

ghost use Rattle.std.specs.Prelude.{◌≤◌, length, IfOk, OnOk, IfErr};
ghost use Rattle.compact_types.specs.declared.limits.TheConstants.{GREATEST_THOUSANDTHS};
ghost use Rattle.compact_types.specs.Drawings.{IsDrawing};
ghost use Rattle.compact_types.specs.Magnitudes.{AreWithin};
ghost use Rattle.io_ends.specs.Ends.{CountsRead};
ghost use Rattle.compact_main.specs.Commands.{texts_of, Asks, IsTeam, IsCommandWithinLimits, IsThe};
ghost use Rattle.compact_main.specs.Intakes.{intake_of, limit_of, Takes, IsReadOut};
ghost use Rattle.compact_main.specs.Notes.{IsNotified};
ghost use Rattle.compact_main.specs.Runs.{IsRun};
ghost use Rattle.compact_main.specs.inner.FoundDrawings.{IsSearched};
ghost use Rattle.compact_main.specs.inner.Readings.{IsGivenUp};
ghost use Rattle.compact_main.specs.inner.Writes.{IsWritten};

use crate::command::Command;
use crate::notify::notify;
use crate::output::answer;
use crate::search::{Alone, Search, SearchBy, Searched};
use crate::status::{Status, Why};
use crate::words::request_of;
use bars::Bars;
use compact_types::{Items, Places, Refusal};
use io_ends::{ReadEnd, Sink, Source, read_all, write_all};
use potentials::TotalLength;
use std::alloc::Global;
use std::sync::Wait;
use std::thread::Threads;
use workers::{Gate, search};

/// Does what the words ask for, with one worker whatever they say: reads what the command reads
/// from `source`, writes what it makes of that to `out`, and returns how that ended. It always
/// returns.
///
/// All memory is taken before the first byte is written. If the status is not Done, `notes` gets
/// one line that says why, made without memory; a fault of `notes` changes no status.
pub fn run_alone<S: Source, K: Sink, N: Sink, R: Threads + Sync>(
    rt: &R,
    alloc: Global,
    words: &[String],
    source: &mut S,
    out: &mut K,
    notes: &mut N,
) -> Status
    ensures run { IsRun (Asks (texts_of words.now))
        S.left S.faults source.old source.new
        K.held K.faults out.old out.new
        result }
    ensures told { IsNotified (Asks (texts_of words.now))
        N.held N.faults notes.old notes.new
        result }
{
    run_with(rt, alloc, &Alone, words, source, out, notes)
}

/// Does what `run_alone` does, with as many workers as the words ask for. With one it is
/// `run_alone`; several may wait for one another, and what is promised holds where this returns.
///
/// Neither the number of workers nor their schedule changes the drawing that is written. The
/// certificate after it may be another one, which shows the same. Each of several workers passes
/// the gate with each branch that it claims.
pub fn run<S: Source, K: Sink, N: Sink, G: Gate, R: Threads + Wait + Sync>(
    rt: &R,
    alloc: Global,
    words: &[String],
    source: &mut S,
    out: &mut K,
    notes: &mut N,
    gate: &G,
) -> Status
    ensures run { IsRun (Asks (texts_of words.now))
        S.left S.faults source.old source.new
        K.held K.faults out.old out.new
        result }
    ensures told { IsNotified (Asks (texts_of words.now))
        N.held N.faults notes.old notes.new
        result }
{
    match request_of(words) {
        Some(request) if request.workers > 1 => {
            let workers = request.workers;
            let find = |alloc: Global, bars: &Bars, places: &Places| -> Searched
                requires { IsTeam workers × IsDrawing bars.now places.now
                    × AreWithin GREATEST_THOUSANDTHS places.now }
                ensures { IsSearched bars.now result }
            { search(rt, alloc, &TotalLength, bars, places, workers, gate) };
            run_with(rt, alloc, &SearchBy { find }, words, source, out, notes)
        }
        _ => run_alone(rt, alloc, words, source, out, notes),
    }
}

/// Does what the words ask for, as `run_alone` does, with this search.
#[tactic(auto, using(crate::proofs::CommandWords::number_asked))]
fn run_with<X: Search, S: Source, K: Sink, N: Sink, R: Threads + Sync>(
    rt: &R,
    alloc: Global,
    search: &X,
    words: &[String],
    source: &mut S,
    out: &mut K,
    notes: &mut N,
) -> Status
    requires { X.is_ready search.now }
    ensures run { IsRun (Asks (texts_of words.now))
        S.left S.faults source.old source.new
        K.held K.faults out.old out.new
        result }
    ensures told { IsNotified (Asks (texts_of words.now))
        N.held N.faults notes.old notes.new
        result }
{
    let Some(request) = request_of(words) else {
        notify(notes, 0, Status::BadWords);
        return Status::BadWords;
    };
    let command = request.command;
    let status = run_command(rt, alloc, search, command, source, out);
    if status != Status::Done {
        notify(notes, command.limit(), status);
    }
    status
}

/// Does what the command asks for.
fn run_command<X: Search, S: Source, K: Sink, R: Threads + Sync>(
    rt: &R,
    alloc: Global,
    search: &X,
    command: Command,
    source: &mut S,
    out: &mut K,
) -> Status
    requires ready { X.is_ready search.now }
    requires number { IsCommandWithinLimits command }
    ensures { IsRun (IsThe command)
        S.left S.faults source.old source.new
        K.held K.faults out.old out.new
        result }
{
    let bytes = match read_input(alloc, command, source) {
        Ok(bytes) => bytes,
        Err(ReadEnd::ReadFault) => return Status::ReadFault,
        Err(ReadEnd::TooLong) => return Status::Refused(Why::TooLong),
        Err(ReadEnd::NoMemory) => return Status::NoMemory,
    };
    match answer(rt, alloc, search, command, bytes.as_slice()) {
        Ok(written) => write_output(out, written.as_slice()),
        Err(Refusal::Fault(failure)) => failure.status(),
        Err(Refusal::NoMemory) => Status::NoMemory,
    }
}

/// All the bytes that the source has left, if they are no more than the command reads. If it reads
/// no text, none are read, and the source is left alone.
fn read_input<S: Source>(
    alloc: Global,
    command: Command,
    source: &mut S,
) -> Result<Items<u8>, ReadEnd>
    // All was read.
    ensures within { IfOk result (λ bytes. length bytes ≤ limit_of command) }
    ensures all { IfOk result (Takes (intake_of command) S.left source.old source.new) }
    ensures end { OnOk result (IsReadOut (intake_of command) S.left source.new) }

    // What was given before the refusal; it is TooLong exactly if more was given than is read.
    ensures given { IfErr result (IsGivenUp (intake_of command) S.left source.old source.new) }
    ensures counted { CountsRead result (S.faults source.old) (S.faults source.new) }
{
    match command.text_limit() {
        Some(limit) => read_all(alloc, source, limit),
        None => Ok(Items::new(alloc)),
    }
}

/// Writes the output of a command, and returns how that ended.
fn write_output<K: Sink>(out: &mut K, written: &[u8]) -> Status
    ensures { IsWritten written.now (K.held out.old) (K.held out.new)
        (K.faults out.old) (K.faults out.new)
        result }
{
    match write_all(out, written) {
        Ok(()) => Status::Done,
        Err(_fault) => Status::WriteFault,
    }
}
