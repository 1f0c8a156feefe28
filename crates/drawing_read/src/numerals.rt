//! Numbers under a key: those of places in thousandths, and ids, which are whole.

ghost use Rattle.std.specs.Prelude.{◌≡◌};
ghost use Rattle.drawing_read.specs.Numerals as numerals;
ghost use Rattle.drawing_read.specs.inner.Legible.{IsLegiblePair, AreLegible};

use crate::lookups::first_under;
use gml_text::{NumberFault, Pair, Value, thousandths, whole};

/// A numeral: where it begins in the text, and its value in thousandths or why it has none.
#[derive(Clone, Copy, Debug)]
pub struct Number {
    pub at: u32,
    pub value: Result<i64, NumberFault>,
}

/// The numbers x and y of a list that has both.
#[derive(Clone, Copy, Debug)]
pub struct Numbers {
    pub x: Number,
    pub y: Number,
}

/// What stands under a key that asks for a whole numeral.
#[derive(Clone, Copy, Debug)]
pub enum WholeNumber {
    /// There is no such key.
    Absent,
    /// Something else than a whole numeral.
    Other,
    /// A whole numeral outside `i64`, which is no node's id.
    Beyond,
    Fits(i64),
}

/// The x and the y of a list, where both are numerals.
pub(crate) fn numbers_in(pairs: &[Pair]) -> Option<Numbers>
    requires { AreLegible pairs.now }
    ensures { result ≡ numerals.numbers_in pairs.now }
{
    let x = number_under(b"x", pairs)?;
    let y = number_under(b"y", pairs)?;
    Some(Numbers { x, y })
}

fn number_under(key: &[u8], pairs: &[Pair]) -> Option<Number>
    requires { AreLegible pairs.now }
    ensures { result ≡ numerals.number_under key.now pairs.now }
{
    number_of(first_under(key, pairs)?)
}

/// The number of a pair whose value is a numeral.
fn number_of(pair: &Pair) -> Option<Number>
    requires { IsLegiblePair pair.now }
    ensures { result ≡ numerals.number_of pair.now }
{
    match &pair.value {
        Value::Whole(word) | Value::Real(word) => Some(Number {
            at: pair.at,
            value: thousandths(word.as_slice()),
        }),
        _ => None,
    }
}

/// What stands under this key, where a whole numeral should stand.
pub(crate) fn whole_under(key: &[u8], pairs: &[Pair]) -> WholeNumber
    requires { AreLegible pairs.now }
    ensures { result ≡ numerals.whole_under key.now pairs.now }
{
    match first_under(key, pairs) {
        Some(pair) => whole_in(pair),
        None => WholeNumber::Absent,
    }
}

fn whole_in(pair: &Pair) -> WholeNumber
    requires { IsLegiblePair pair.now }
    ensures { result ≡ numerals.whole_in pair.now.value }
{
    match &pair.value {
        Value::Whole(word) => match whole(word.as_slice()) {
            Some(number) => WholeNumber::Fits(number),
            None => WholeNumber::Beyond,
        },
        _ => WholeNumber::Other,
    }
}
