//! Thousandths from the digits of a numeral and the power of ten of its exponent.

ghost use Rattle.std.specs.Prelude.{◌≡◌, true, ◌+◌, ◌-◌, ◌*◌, ◌<◌, ◌≤◌, ◌^◌, ◌++◌, length};
ghost use Rattle.std.specs.Prelude.{min, MatchResult};
ghost use Rattle.std.specs.List.{list_all};
ghost use Rattle.gml_text.specs.Bytes.{is_digit};
ghost use Rattle.gml_text.specs.NumeralKinds.{is_exponent, exponent_of};
ghost use Rattle.gml_text.specs.Numerals.{digits_value};
ghost use Rattle.gml_text.specs.inner.Scaling.{tens_above, tens_below, IsRaisedOrFault};
ghost use Rattle.gml_text.specs.inner.Scaling.{IsWithoutEndZeros};

use super::NumberFault;
use super::digits::{magnitude, magnitude_of, without_end_zeros};
use super::parts::{after_sign, begins_minus};
use compact_types::GREATEST_THOUSANDTHS;

/// A thousand times the number that the parts write. The powers of ten are counted, and one is only
/// computed where it is small: the zeros at the end of the digits are left out first, so that what
/// is left is divisible by no ten.
pub(crate) fn scale_to_thousandths(
    whole: &[u8],
    fraction: &[u8],
    exponent: &[u8],
) -> Result<u64, NumberFault>
    requires whole { list_all is_digit whole.now ≡ true }
    requires fraction { list_all is_digit fraction.now ≡ true }
    requires exponent { is_exponent (exponent_of exponent.now) ≡ true }
    ensures { IsRaisedOrFault (digits_value (whole.now ++ fraction.now))
        (3 + tens_above (exponent_of exponent.now))
        (length fraction.now + tens_below (exponent_of exponent.now)) result }
{
    let (kept_whole, kept_fraction) = leave_out_end_zeros(whole, fraction);
    if kept_whole.is_empty() && kept_fraction.is_empty() {
        return Ok(0);
    }
    let zeros = (whole.len() - kept_whole.len()) as u128
        + (fraction.len() - kept_fraction.len()) as u128;
    let (above, below) = powers_of_ten(exponent);
    let up = zeros + 3 + u128::from(above);
    let down = fraction.len() as u128 + u128::from(below);
    let Some(tens) = up.checked_sub(down) else {
        return Err(NumberFault::TooFine);
    };
    let Some(number) = magnitude_of(kept_whole, kept_fraction) else {
        return Err(NumberFault::OutOfRange);
    };
    raise(number, tens)
}

/// The digits without the zeros at their end: those before the point lose theirs only where none is
/// kept after it.
fn leave_out_end_zeros<'a>(whole: &'a [u8], fraction: &'a [u8]) -> (&'a [u8], &'a [u8])
    requires whole { list_all is_digit whole.now ≡ true }
    requires fraction { list_all is_digit fraction.now ≡ true }
    ensures { IsWithoutEndZeros whole.now fraction.now result.0.now result.1.now }
{
    let kept_fraction = without_end_zeros(fraction);
    if kept_fraction.is_empty() {
        (without_end_zeros(whole), kept_fraction)
    } else {
        (whole, kept_fraction)
    }
}

/// The powers of ten by which the exponent multiplies and divides. One above the greatest `u64` is
/// cut off there, which changes no answer, since a word is never so long that its digits make up
/// for it.
fn powers_of_ten(exponent: &[u8]) -> (u64, u64)
    requires { is_exponent (exponent_of exponent.now) ≡ true }
    ensures above { result.0 ≡ min (tens_above (exponent_of exponent.now)) (2 ^ 64 - 1) }
    ensures below { result.1 ≡ min (tens_below (exponent_of exponent.now)) (2 ^ 64 - 1) }
{
    match exponent {
        [_, rest @ ..] => {
            let size = magnitude(0, after_sign(rest)).unwrap_or(u64::MAX);
            if begins_minus(rest) {
                (0, size)
            } else {
                (size, 0)
            }
        }
        [] => (0, 0),
    }
}

/// The number times ten to a power.
fn raise(number: u64, tens: u128) -> Result<u64, NumberFault>
    requires { 0 < number }
    ensures { MatchResult result
        (λ t. (t ≡ number * 10 ^ tens) × (t ≤ GREATEST_THOUSANDTHS))
        (λ fault. (fault ≡ NumberFault.OutOfRange) ×
        (GREATEST_THOUSANDTHS < number * 10 ^ tens)) }
{
    if tens > 13 {
        return Err(NumberFault::OutOfRange);
    }
    match number.checked_mul(10u64.pow(tens as u32)) {
        Some(product) if product <= GREATEST_THOUSANDTHS => Ok(product),
        _ => Err(NumberFault::OutOfRange),
    }
}
