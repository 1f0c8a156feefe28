//! The numbers that numerals write.

ghost use Rattle.std.specs.Prelude.{◌≡◌, ◌↔◌, ℕ, ℤ, unsigned_abs, List, true, ◌<◌, ◌≤◌};
ghost use Rattle.std.specs.Prelude.{IfOk, FitsSigned};
ghost use Rattle.std.specs.Int.{w64};
ghost use Rattle.std.specs.Option.{SomeIff};
ghost use Rattle.compact_types.specs.declared.limits.TheConstants.{GREATEST_THOUSANDTHS};
ghost use Rattle.gml_text.specs.NumeralKinds.{is_numeral, kind_by, kind_of};
ghost use Rattle.gml_text.specs.Numerals.{is_whole_numeral, value_of_whole};
ghost use Rattle.gml_text.specs.Numerals.{Numeral, HasParts, HasNoPoint, whole_value};
ghost use Rattle.gml_text.specs.Numerals.{IsThousandths};
ghost use Rattle.gml_text.specs.Thousandths.{thousandths_of};
ghost use Rattle.gml_text.specs.inner.Scaling.{signed_answer};

mod digits;
mod parts;
mod scale;

use crate::marks::{MINUS, PLUS};
use digits::magnitude;
use parts::{have_digit, is_exponent, parts_of};
use scale::scale_to_thousandths;

/// Whether a numeral is written without a point and an exponent, or with one of them.
#[derive(Clone, Copy, Debug, PartialEq, Eq)]
pub enum NumeralKind {
    Whole,
    Real,
}

/// Why a numeral is no number of thousandths.
#[derive(Clone, Copy, Debug, PartialEq, Eq)]
pub enum NumberFault {
    /// A thousand times its value is not whole.
    TooFine,
    /// It is, and the value's magnitude is above 10,000,000,000.
    OutOfRange,
}

/// A thousand times the value of a numeral: it is exact, or refused.
pub fn thousandths(lexeme: &[u8]) -> Result<i64, NumberFault>
    requires { is_numeral lexeme.now ≡ true }
    ensures answer { result ≡ thousandths_of lexeme.now }

    // When each answer comes, by the parts of the numeral.
    ensures value { (n : Numeral) → HasParts lexeme.now n → (t : ℤ) →
        (result ≡ Ok t) ↔ (IsThousandths n t × (unsigned_abs t ≤ GREATEST_THOUSANDTHS)) }
    ensures too_fine { (n : Numeral) → HasParts lexeme.now n →
        (result ≡ Err NumberFault.TooFine) ↔ ((t : ℤ) → IsThousandths n t → ⊥) }
    ensures out_of_range { (n : Numeral) → HasParts lexeme.now n →
        (result ≡ Err NumberFault.OutOfRange) ↔
        ((t : ℤ) × IsThousandths n t × (GREATEST_THOUSANDTHS < unsigned_abs t)) }
{
    let parts = parts_of(lexeme);
    let magnitude = scale_to_thousandths(parts.whole, parts.fraction, parts.exponent);
    with_sign(parts.minus, magnitude)
}

fn with_sign(minus: bool, magnitude: Result<u64, NumberFault>) -> Result<i64, NumberFault>
    requires { IfOk magnitude (λ n. n ≤ GREATEST_THOUSANDTHS) }
    ensures { result ≡ signed_answer minus magnitude }
{
    let magnitude = magnitude? as i64;
    Ok(if minus { -magnitude } else { magnitude })
}

/// The value of a whole numeral; `None` exactly where it is outside `i64`.
pub fn whole(lexeme: &[u8]) -> Option<i64>
    requires { is_whole_numeral lexeme.now ≡ true }
    ensures { let value = value_of_whole lexeme.now in SomeIff result (FitsSigned w64 value) value }
{
    let zero: i64 = 0;
    match lexeme {
        [MINUS, digits @ ..] => zero.checked_sub_unsigned(magnitude(0, digits)?),
        [PLUS, digits @ ..] => zero.checked_add_unsigned(magnitude(0, digits)?),
        digits => zero.checked_add_unsigned(magnitude(0, digits)?),
    }
}

/// Which kind of numeral the word is; `None` where it is none.
#[tactic(auto, using(crate::proofs::PartLemmas::kind_of_cut))]
pub fn numeral_kind(word: &[u8]) -> Option<NumeralKind>
    ensures { result ≡ kind_of word.now }
{
    let parts = parts_of(word);
    let numeral = have_digit(parts.whole, parts.fraction) && is_exponent(parts.exponent);
    let real = parts.point || !parts.exponent.is_empty();
    kind_from(numeral, real)
}

fn kind_from(numeral: bool, real: bool) -> Option<NumeralKind>
    ensures { result ≡ kind_by numeral real }
{
    if !numeral {
        None
    } else if real {
        Some(NumeralKind::Real)
    } else {
        Some(NumeralKind::Whole)
    }
}

/// The two readings of whole numerals agree, by the bytes of the word and by the parts of the
/// numeral; and a word is a numeral exactly where it has the parts of one.
pub fn numerals_have_parts()
    ensures whole { (word : List ℕ) →
        (is_whole_numeral word ≡ true) ↔ ((n : Numeral) × HasParts word n × HasNoPoint n) }
    ensures value { (word : List ℕ) (n : Numeral) → HasParts word n → HasNoPoint n →
        value_of_whole word ≡ whole_value n }
    ensures numeral { (word : List ℕ) →
        (is_numeral word ≡ true) ↔ ((n : Numeral) × HasParts word n) }
    ensures only { (word : List ℕ) (m n : Numeral) → HasParts word m → HasParts word n → m ≡ n }
{}

#[cfg(test)]
mod tests {
    use super::*;

    fn thousandths_of_word(word: &str) -> Option<Result<i64, NumberFault>> {
        numeral_kind(word.as_bytes())?;
        Some(thousandths(word.as_bytes()))
    }

    #[test]
    fn gives_thousandths(rt: HostRuntime) {
        let too_fine = Some(Err(NumberFault::TooFine));
        let out_of_range = Some(Err(NumberFault::OutOfRange));
        for (word, want) in [
            ("1.5E2", Some(Ok(150_000))),
            ("+7.250", Some(Ok(7_250))),
            ("-.5", Some(Ok(-500))),
            ("5.", Some(Ok(5_000))),
            ("-0", Some(Ok(0))),
            ("0e999999", Some(Ok(0))),
            ("0.00e-99999999999999999999", Some(Ok(0))),
            ("0.1234", too_fine),
            ("5e-4", too_fine),
            ("5000e-6", Some(Ok(5))),
            ("1e-99999999999999999999", too_fine),
            ("10000000000.0001", too_fine),
            ("10000000000", Some(Ok(10_000_000_000_000))),
            ("-100000000000000000000e-10", Some(Ok(-10_000_000_000_000))),
            ("10000000000.001", out_of_range),
            ("-10000000000.001", out_of_range),
            ("1e400", out_of_range),
            ("1e99999999999999999999", out_of_range),
            ("99999999999999999999999.", out_of_range),
            (".", None),
            ("-", None),
            ("1e", None),
            ("1.2.3", None),
            ("+-1", None),
        ] {
            assert_eq!(rt; thousandths_of_word(word), want, "at {word}");
        }
    }

    #[tactic(auto, using(crate::proofs::NumeralLaws::whole_of_kind))]
    fn whole_of_word(word: &str) -> Option<i64> {
        match numeral_kind(word.as_bytes()) {
            Some(NumeralKind::Whole) => whole(word.as_bytes()),
            _ => None,
        }
    }

    #[test]
    fn gives_whole_numbers(rt: HostRuntime) {
        for (word, want) in [
            ("0", Some(0)),
            ("+0042", Some(42)),
            ("-7", Some(-7)),
            ("9223372036854775807", Some(i64::MAX)),
            ("9223372036854775808", None),
            ("-9223372036854775808", Some(i64::MIN)),
            ("-9223372036854775809", None),
            ("00000000000000000000000000000000001", Some(1)),
            ("99999999999999999999", None),
            ("1.", None),
        ] {
            assert_eq!(rt; whole_of_word(word), want, "at {word}");
        }
    }
}
