//! The options of a drawing.

ghost use Rattle.std.specs.Prelude.{◌≡◌, ◌↔◌, ℕ, ◌<◌, ◌≤◌, ◌∷◌, List, length, codes, decimal};
ghost use Rattle.std.specs.Prelude.{None, Some, IsTrue, IfSome, IfNone, MatchOption};
ghost use Rattle.workers.specs.declared.several.TheConstants.{MOST_WORKERS};
ghost use Rattle.compact_main.specs.declared.options.TheConstants.{MOST_OPTION_WORDS};
ghost use Rattle.compact_main.specs.Commands as commands;
ghost use Rattle.compact_main.specs.Commands.{texts_of, IsNumberTo, AreOptions};
ghost use Rattle.compact_main.specs.inner.WordOptions.{AreFound};

use crate::command::Form;
use compact_types::MOST_PITCH;
use itoa::Buffer;
use workers::MOST_WORKERS;

/// The most words that the options of a drawing are: `--plain`, and `--pitch` and `--workers` with
/// their numbers.
const MOST_OPTION_WORDS: usize = 5;

/// The options of a drawing, as they are given.
#[derive(Clone, Copy, Debug)]
pub struct Options {
    /// `--plain`: no certificate is wanted.
    pub plain: bool,
    /// `--pitch N`: the units between neighbouring lines of the grid.
    pub pitch: Option<u32>,
    /// `--workers N`: how many workers search for it.
    pub workers: Option<u32>,
}

/// The options that the words are.
#[tactic(auto, using(crate::proofs::OptionWords::lone_word, crate::proofs::OptionWords::no_option))]
pub(crate) fn options_of(words: &[String]) -> Option<Options>
    ensures { AreFound (texts_of words.now) result }
{
    match words {
        [] => Some(Options {
            plain: false,
            pitch: None,
            workers: None,
        }),
        [word, rest @ ..] if is_text(word.as_str(), "--plain") => plain_before(options_of(rest)),
        [word, digits, rest @ ..] if is_text(word.as_str(), "--pitch") => {
            pitch_before(digits.as_str(), options_of(rest))
        }
        [word, digits, rest @ ..] if is_text(word.as_str(), "--workers") => {
            workers_before(digits.as_str(), options_of(rest))
        }
        _ => None,
    }
}

/// The options that are `--plain` and the rest.
fn plain_before(rest: Option<Options>) -> Option<Options>
    ensures { (words : List (List ℕ)) →
        AreFound words rest → AreFound (codes "--plain" ∷ words) result }
{
    match rest {
        Some(rest) if !rest.plain => Some(Options {
            plain: true,
            ..rest
        }),
        _ => None,
    }
}

/// The options that are `--pitch` with its number and the rest.
fn pitch_before(digits: &str, rest: Option<Options>) -> Option<Options>
    ensures { (words : List (List ℕ)) →
        AreFound words rest → AreFound (codes "--pitch" ∷ digits.now ∷ words) result }
{
    match rest {
        Some(rest) => pitch_first(digits, rest),
        None => None,
    }
}

/// The options that are `--pitch` with its number and other options.
fn pitch_first(digits: &str, rest: Options) -> Option<Options>
    ensures { (words : List (List ℕ)) →
        AreOptions words rest → AreFound (codes "--pitch" ∷ digits.now ∷ words) result }
{
    match rest.pitch {
        Some(_) => None,
        None => with_pitch(rest, number_of(digits, MOST_PITCH)),
    }
}

/// The options with this pitch.
fn with_pitch(rest: Options, pitch: Option<u32>) -> Option<Options>
    ensures { MatchOption pitch (result ≡ None)
        (λ n. result ≡ Some (record rest { pitch = Some n })) }
{
    match pitch {
        Some(_) => Some(Options { pitch, ..rest }),
        None => None,
    }
}

/// The options that are `--workers` with its number and the rest.
fn workers_before(digits: &str, rest: Option<Options>) -> Option<Options>
    ensures { (words : List (List ℕ)) →
        AreFound words rest → AreFound (codes "--workers" ∷ digits.now ∷ words) result }
{
    match rest {
        Some(rest) => workers_first(digits, rest),
        None => None,
    }
}

/// The options that are `--workers` with its number and other options.
fn workers_first(digits: &str, rest: Options) -> Option<Options>
    ensures { (words : List (List ℕ)) →
        AreOptions words rest → AreFound (codes "--workers" ∷ digits.now ∷ words) result }
{
    match rest.workers {
        Some(_) => None,
        None => with_workers(rest, team_of(digits)),
    }
}

/// The options with this number of workers.
fn with_workers(rest: Options, workers: Option<u32>) -> Option<Options>
    ensures { MatchOption workers (result ≡ None)
        (λ n. result ≡ Some (record rest { workers = Some n })) }
{
    match workers {
        Some(_) => Some(Options { workers, ..rest }),
        None => None,
    }
}

/// How many workers the digits say.
fn team_of(digits: &str) -> Option<u32>
    ensures some { IfSome result (IsNumberTo MOST_WORKERS digits.now) }
    ensures none { IfNone result ((n : ℕ) → IsNumberTo MOST_WORKERS digits.now n → ⊥) }
{
    number_of(digits, MOST_WORKERS)
}

/// How many workers search with these options.
pub(crate) fn workers_of(options: Options) -> u32
    ensures { result ≡ commands.workers_of options }
{
    options.workers.unwrap_or(1)
}

/// In which form these options want a drawing.
pub(crate) fn form_of(options: Options) -> Form
    ensures { result ≡ commands.form_of options }
{
    if options.plain {
        Form::Plain
    } else {
        Form::Certified
    }
}

/// Whether there are more words than options can be; if so, they are not looked at.
pub(crate) fn has_too_many(words: &[String]) -> bool
    ensures { IsTrue result ↔ (MOST_OPTION_WORDS < length words.now) }
{
    words.len() > MOST_OPTION_WORDS
}

/// The number from 1 to `greatest` that the digits say.
pub(crate) fn number_of(digits: &str, greatest: u32) -> Option<u32>
    ensures some { IfSome result (IsNumberTo greatest digits.now) }
    ensures none { IfNone result ((n : ℕ) → IsNumberTo greatest digits.now n → ⊥) }
{
    match digits.parse::<u32>() {
        Ok(number) if is_among(number, greatest) && is_written(digits, number) => Some(number),
        _ => None,
    }
}

/// Whether the number is from 1 to `greatest`.
fn is_among(number: u32, greatest: u32) -> bool
    ensures { IsTrue result ↔ ((1 ≤ number) × (number ≤ greatest)) }
{
    1 <= number && number <= greatest
}

/// Whether the digits are those of the number, with no sign and no zero before them.
fn is_written(digits: &str, number: u32) -> bool
    ensures { IsTrue result ↔ (digits.now ≡ decimal number) }
{
    let mut buffer = Buffer::new();
    digits == buffer.format(number)
}

/// Whether the word is the text.
pub(crate) fn is_text(word: &str, text: &str) -> bool
    ensures { IsTrue result ↔ (word.now ≡ text.now) }
{
    word == text
}
