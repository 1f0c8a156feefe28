//! The program: it compacts orthogonal drawings in GML.
//!
//! `run` is the top call and carries the program's promise where it returns, whatever the number of
//! workers and the schedule. `run_alone` works with one worker, carries the same promise and always
//! returns. `IsRun` says what the run did, for words, a source and a sink of any kind: what was
//! read and written, how each status came about, and that every text has an output or is refused
//! with its first fault. `IsNotified` says what the user was told. The laws say that a text is
//! accepted or has one first fault, and that what is written is a function of the text.
#![tactic(auto)]

mod command;
mod draw;
mod drawing;
mod law;
mod note;
mod notify;
mod options;
mod output;
mod pairs;
mod run;
mod sample;
mod sampled;
mod search;
mod status;
mod summary;
#[cfg(test)]
mod tests;
mod verify;
mod words;

pub use command::{Command, Form, MOST_INPUT_BYTES};
use io_ends::{StdSink, StdSource};
pub use law::{
    accepted_texts_have_an_output, certificates_show_the_best, counts_are_exact,
    outputs_are_functions_of_the_text, proved_drawings_are_best, texts_are_accepted_or_refused,
    texts_have_one_answer, what_draw_writes_is_proved, words_ask_for_one_command,
};
use notify::notify;
pub use run::{run, run_alone};
pub use search::{Alone, Search, SearchBy, Searched};
pub use status::{Failure, Status, Unproved, Why};
use std::process::ExitCode;
use std::{env, io};
pub use summary::Summary;
use workers::NoGate;

fn main(rt: HostRuntime) -> ExitCode {
    let status = match words_of(&rt) {
        Ok(words) => run(
            &rt,
            rt.alloc(),
            words.as_slice(),
            &mut StdSource::new(rt.stdin()),
            &mut StdSink::new(rt.stdout()),
            &mut StdSink::new(rt.stderr()),
            &NoGate,
        ),
        Err(status) => {
            notify(&mut StdSink::new(rt.stderr()), 0, status);
            status
        }
    };
    ExitCode::from(status.number())
}

/// The words after the program's name. A word that is no UTF-8 is a faulty command line.
fn words_of(rt: &HostRuntime) -> Result<Vec<String>, Status> {
    let mut words = match env::args(rt) {
        Ok(words) => words,
        Err(error) if error.kind() == io::ErrorKind::InvalidData => return Err(Status::BadWords),
        Err(_) => return Err(Status::NoMemory),
    };
    let _program = words.next();
    words.collect(rt.alloc()).map_err(|_| Status::NoMemory)
}
