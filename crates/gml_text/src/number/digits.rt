//! The numbers that digits write.

ghost use Rattle.std.specs.Prelude.{◌≡◌, true, ◌+◌, ◌<◌, ◌^◌, ◌++◌, ◌-◌, ◌≤◌, false, length};
ghost use Rattle.std.specs.Prelude.{replicate};
ghost use Rattle.std.specs.List.{list_all};
ghost use Rattle.std.specs.Option.{SomeIff};
ghost use Rattle.gml_text.specs.Bytes.{is_digit};
ghost use Rattle.gml_text.specs.Numerals.{digits_value_from, digits_value};
ghost use Rattle.gml_text.specs.inner.Scaling.{ends_in_zero};

use crate::marks::ZERO;

/// The number that the digits write after those that write `before`; `None` exactly where it is
/// outside `u64`.
pub(crate) fn magnitude(before: u64, digits: &[u8]) -> Option<u64>
    requires { list_all is_digit digits.now ≡ true }
    ensures { let value = digits_value_from before digits.now in
        SomeIff result (value < 2 ^ 64) value }
{
    let mut value = before;
    for digit in digits {
        value = value
            .checked_mul(10)?
            .checked_add(u64::from(*digit - ZERO))?;
    }
    Some(value)
}

/// The number that all the digits write; `None` exactly where it is outside `u64`.
#[tactic(auto, using(crate::proofs::Digits::value_of_both, crate::proofs::Digits::first_at_most))]
pub(crate) fn magnitude_of(whole: &[u8], fraction: &[u8]) -> Option<u64>
    requires whole { list_all is_digit whole.now ≡ true }
    requires fraction { list_all is_digit fraction.now ≡ true }
    ensures { let value = digits_value (whole.now ++ fraction.now) in
        SomeIff result (value < 2 ^ 64) value }
{
    magnitude(magnitude(0, whole)?, fraction)
}

/// The digits up to the last one that is not 0.
pub(crate) fn without_end_zeros(digits: &[u8]) -> &[u8]
    ensures last { ends_in_zero result.now ≡ false }
    ensures within { length result.now ≤ length digits.now }
    ensures zeros { digits.now ≡
        result.now ++ replicate (length digits.now - length result.now) ZERO }
{
    let mut kept = digits;
    while let [front @ .., ZERO] = kept {
        kept = front;
    }
    kept
}
