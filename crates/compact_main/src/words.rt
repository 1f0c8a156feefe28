//! The words that ask for a command.

ghost use Rattle.std.specs.Prelude.{◌≡◌, ◌↔◌, ℕ, ◌<◌, [], ◌∷◌, List, length, codes, IsTrue};
ghost use Rattle.std.specs.Prelude.{IfSome, IfNone};
ghost use Rattle.compact_main.specs.declared.command.Command.{Command};
ghost use Rattle.compact_main.specs.Commands.{texts_of, Asks, AskForWorkers, IsTeam};
ghost use Rattle.compact_main.specs.inner.WordOptions.{AreFound, IsRequest};

use crate::command::Command;
use crate::options::{Options, form_of, has_too_many, is_text, number_of, options_of, workers_of};
use crate::sample::MOST_SAMPLE;

/// What the words ask for: a command, and beside it, since no output depends on it, by how many
/// workers the best drawing is searched for.
#[derive(Clone, Copy, Debug)]
pub struct Request {
    pub command: Command,
    pub workers: u32,
}

/// What the words ask for; `None` if they ask for no command. No memory is taken.
#[tactic(auto, using(crate::proofs::CommandWords::team_found))]
pub(crate) fn request_of(words: &[String]) -> Option<Request>
    ensures some { IfSome result (λ request. Asks (texts_of words.now) request.command) }
    ensures workers { IfSome result (λ request.
        AskForWorkers (texts_of words.now) request.command request.workers) }
    ensures team { IfSome result (λ request. IsTeam request.workers) }
    ensures none { IfNone result ((command : Command) → Asks (texts_of words.now) command → ⊥) }
{
    match words {
        [] => None,
        [command, options @ ..] => request_with(command.as_str(), options),
    }
}

/// The request of this word and these options.
fn request_with(command: &str, options: &[String]) -> Option<Request>
    ensures { IsRequest (command.now ∷ texts_of options.now) result }
{
    if is_text(command, "draw") {
        return drawing(options);
    }
    if is_text(command, "sample") {
        return sample(options);
    }
    if has_words(options) {
        return None;
    }
    lone_command(command)
}

/// The request that is one word, and is not `draw`.
#[tactic(auto, using(crate::proofs::CommandWords::no_such_command))]
fn lone_command(command: &str) -> Option<Request>
    requires { command.now ≡ codes "draw" → ⊥ }
    ensures { IsRequest (command.now ∷ []) result }
{
    if is_text(command, "check") {
        return Some(Request {
            command: Command::Check,
            workers: 1,
        });
    }
    if is_text(command, "measure") {
        return Some(Request {
            command: Command::Measure,
            workers: 1,
        });
    }
    if is_text(command, "verify") {
        return Some(Request {
            command: Command::Verify,
            workers: 1,
        });
    }
    None
}

/// The request for a drawing with these options.
fn drawing(options: &[String]) -> Option<Request>
    ensures { IsRequest (codes "draw" ∷ texts_of options.now) result }
{
    if has_too_many(options) {
        return None;
    }
    drawing_with(options_of(options))
}

/// The request for a drawing with the options that were found: the pitch is 1 if none is given, and
/// so is the number of workers.
fn drawing_with(options: Option<Options>) -> Option<Request>
    ensures { (words : List (List ℕ)) →
        AreFound words options → IsRequest (codes "draw" ∷ words) result }
{
    match options {
        Some(options) => Some(Request {
            command: Command::Draw {
                pitch: options.pitch.unwrap_or(1),
                form: form_of(options),
            },
            workers: workers_of(options),
        }),
        None => None,
    }
}

/// The request for the sample of the number that the options are.
fn sample(options: &[String]) -> Option<Request>
    ensures { IsRequest (codes "sample" ∷ texts_of options.now) result }
{
    match options {
        [digits] => sample_of(digits.as_str()),
        _ => None,
    }
}

/// The request for the sample of the number that the digits say.
fn sample_of(digits: &str) -> Option<Request>
    ensures { IsRequest (codes "sample" ∷ digits.now ∷ []) result }
{
    match number_of(digits, MOST_SAMPLE) {
        Some(number) => Some(Request {
            command: Command::Sample { number },
            workers: 1,
        }),
        None => None,
    }
}

/// Whether there is a word.
fn has_words(words: &[String]) -> bool
    ensures { IsTrue result ↔ (0 < length words.now) }
{
    words.len() > 0
}
