//! A word cut into the parts of a numeral.

ghost use Rattle.std.specs.Prelude.{◌≡◌, is_some, nat_lt, ◌+◌, ◌≤◌, length};
ghost use Rattle.std.specs.List.{list_all, prefix_len};
ghost use Rattle.gml_text.specs.Bytes.{is_digit};
ghost use Rattle.gml_text.specs.NumeralKinds.{is_exponent, exponent_of, sign_of, after_sign};
ghost use Rattle.gml_text.specs.NumeralKinds.{front_digits, after_digits};
ghost use Rattle.gml_text.specs.NumeralKinds.{fraction_of, after_fraction};
ghost use Rattle.gml_text.specs.Numerals.{are_digits, fraction_digits};
ghost use Rattle.gml_text.specs.inner.Parts.{HasTheParts, is_minus};

use crate::marks::{CAPITAL_E, MINUS, PLUS, POINT, SMALL_E};

/// The parts of a word, whether or not it is a numeral.
#[derive(Drop)]
pub(crate) struct Parts<'a> {
    pub(crate) minus: bool,
    pub(crate) whole: &'a [u8],
    pub(crate) point: bool,
    pub(crate) fraction: &'a [u8],
    /// What follows the fraction: the exponent with its letter, where the word is a numeral.
    pub(crate) exponent: &'a [u8],
}

/// Cuts a word; what is no digit of its fraction is left for the exponent.
#[tactic(auto, unfolding(crate::specs::NumeralKinds::parts_of))]
pub(crate) fn parts_of(word: &[u8]) -> Parts<'_>
    ensures { HasTheParts word.now result.minus result.whole.now result.point
        result.fraction.now result.exponent.now }
{
    let minus = begins_minus(word);
    let (whole, rest) = split_digits(after_sign(word));
    let (point, fraction, exponent) = split_fraction(rest);
    Parts {
        minus,
        whole,
        point,
        fraction,
        exponent,
    }
}

/// Whether a `-` stands at the front.
pub(crate) fn begins_minus(word: &[u8]) -> bool
    ensures { result ≡ is_minus (sign_of word.now) }
{
    matches!(word, [MINUS, ..])
}

/// What follows the sign at the front, if there is one.
pub(crate) fn after_sign(word: &[u8]) -> &[u8]
    ensures { result.now ≡ after_sign word.now }
{
    match word {
        [PLUS | MINUS, rest @ ..] => rest,
        _ => word,
    }
}

/// The digits at the front, and what follows them.
fn split_digits(text: &[u8]) -> (&[u8], &[u8])
    ensures digits { result.0.now ≡ front_digits text.now }
    ensures rest { result.1.now ≡ after_digits text.now }
{
    text.split_at(count_digits(text))
}

/// How many digits stand at the front.
fn count_digits(text: &[u8]) -> usize
    ensures count { result ≡ prefix_len is_digit text.now }
    ensures within { result ≤ length text.now }
{
    text.iter().take_while(|b| b.is_ascii_digit()).count()
}

/// Whether there is a point at the front, the digits after it, and what follows them.
fn split_fraction(text: &[u8]) -> (bool, &[u8], &[u8])
    ensures point { result.0 ≡ is_some (fraction_of text.now) }
    ensures digits { result.1.now ≡ fraction_digits (fraction_of text.now) }
    ensures rest { result.2.now ≡ after_fraction text.now }
{
    match text {
        [POINT, rest @ ..] => {
            let (fraction, exponent) = split_digits(rest);
            (true, fraction, exponent)
        }
        _ => (false, &[], text),
    }
}

/// Whether there is a digit before the exponent.
pub(crate) fn have_digit(whole: &[u8], fraction: &[u8]) -> bool
    ensures { result ≡ nat_lt 0 (length whole.now + length fraction.now) }
{
    !(whole.is_empty() && fraction.is_empty())
}

/// Whether the text is an exponent, or empty.
pub(crate) fn is_exponent(text: &[u8]) -> bool
    ensures { result ≡ is_exponent (exponent_of text.now) }
{
    match text {
        [] => true,
        [SMALL_E | CAPITAL_E, rest @ ..] => are_digits(after_sign(rest)),
        _ => false,
    }
}

/// Whether there is at least one byte and all are digits.
#[tactic(auto, using(crate::proofs::PartLemmas::are_digits_cases))]
fn are_digits(text: &[u8]) -> bool
    ensures { result ≡ are_digits text.now }
{
    !text.is_empty() && all_digits(text)
}

fn all_digits(text: &[u8]) -> bool
    ensures { result ≡ list_all is_digit text.now }
{
    text.iter().all(|b| b.is_ascii_digit())
}
