//! The classes of bytes, and the runs of them at the front of a text.

ghost use Rattle.std.specs.Prelude.{◌≡◌, ◌≤◌, length, not, ◌==◌};
ghost use Rattle.std.specs.List.{prefix_len, list_all};
ghost use Rattle.gml_text.specs.Bytes as spec;

use crate::marks::{
    CAPITAL_A, CAPITAL_Z, CARRIAGE_RETURN, CLOSING_BRACKET, LINE_FEED, MINUS, NINE,
    OPENING_BRACKET, PLUS, POINT, QUOTE, SMALL_A, SMALL_Z, SPACE, TAB, UNDERSCORE, ZERO,
};

/// Whether the byte is white space.
pub(crate) fn is_space(byte: u8) -> bool
    ensures { result ≡ spec.is_space byte }
{
    byte == SPACE || byte == TAB || byte == LINE_FEED || byte == CARRIAGE_RETURN
}

/// Whether a word may have the byte.
pub(crate) fn is_word_byte(byte: u8) -> bool
    ensures { result ≡ spec.is_word_byte byte }
{
    !(is_space(byte) || byte == OPENING_BRACKET || byte == CLOSING_BRACKET || byte == QUOTE)
}

/// Whether a word with this first byte stands for a number, or for nothing.
pub(crate) fn begins_numeral(byte: u8) -> bool
    ensures { result ≡ spec.begins_numeral byte }
{
    is_digit(byte) || byte == PLUS || byte == MINUS || byte == POINT
}

/// Whether the word is a key.
pub(crate) fn is_key(word: &[u8]) -> bool
    ensures { result ≡ spec.is_key word.now }
{
    match word {
        [] => false,
        [first, rest @ ..] => begins_key(*first) && go_on_key(rest),
    }
}

/// How many bytes the longest word at the front has.
pub(crate) fn word_length(text: &[u8]) -> usize
    ensures value { result ≡ prefix_len spec.is_word_byte text.now }
    ensures within { result ≤ length text.now }
{
    text.iter().take_while(|byte| is_word_byte(**byte)).count()
}

/// How many bytes of white space stand at the front.
pub(crate) fn space_length(text: &[u8]) -> usize
    ensures value { result ≡ prefix_len spec.is_space text.now }
    ensures within { result ≤ length text.now }
{
    text.iter().take_while(|byte| is_space(**byte)).count()
}

/// How many bytes stand before the first `stop`: all of them where there is none.
pub(crate) fn length_before(text: &[u8], stop: u8) -> usize
    ensures value { result ≡ prefix_len (λ byte. not (byte == stop)) text.now }
    ensures within { result ≤ length text.now }
{
    text.iter().take_while(|byte| **byte != stop).count()
}

fn is_digit(byte: u8) -> bool
    ensures { result ≡ spec.is_digit byte }
{
    byte >= ZERO && byte <= NINE
}

fn is_letter(byte: u8) -> bool
    ensures { result ≡ spec.is_letter byte }
{
    (byte >= CAPITAL_A && byte <= CAPITAL_Z) || (byte >= SMALL_A && byte <= SMALL_Z)
}

fn begins_key(byte: u8) -> bool
    ensures { result ≡ spec.begins_key byte }
{
    is_letter(byte) || byte == UNDERSCORE
}

fn go_on_key(bytes: &[u8]) -> bool
    ensures { result ≡ list_all spec.goes_on_key bytes.now }
{
    bytes.iter().all(|byte| goes_on_key(*byte))
}

fn goes_on_key(byte: u8) -> bool
    ensures { result ≡ spec.goes_on_key byte }
{
    is_letter(byte) || is_digit(byte) || byte == UNDERSCORE
}
