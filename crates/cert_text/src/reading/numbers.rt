//! Words and numbers at the front of a text.

ghost use Rattle.std.specs.Prelude.{◌≡◌, ◌≤◌, ◌<◌, length, MatchOption, IfSome, option_copied};
ghost use Rattle.shape_graphs.specs.declared.graph.TheConstants.{MOST_AMOUNT};
ghost use Rattle.cert_text.specs.inner.Reading.{after_byte, after_word, digits_from, number_read};

/// A number, and the text that follows it.
#[derive(Clone, Copy)]
pub(crate) struct ReadNumber<'a> {
    pub(crate) value: u64,
    pub(crate) rest: &'a [u8],
}

/// What follows the word at the front of the text.
#[tactic(auto, unfolding(crate::specs::inner::Reading::after_word))]
pub(crate) fn after_word<'a>(text: &'a [u8], word: &[u8]) -> Option<&'a [u8]>
    ensures after { option_copied result ≡ after_word word.now text.now }
    ensures within { IfSome result (λ rest. length rest.now ≤ length text.now) }
{
    let mut rest = text;
    let mut left = word;
    while let [byte, more @ ..] = left {
        rest = after_byte(rest, *byte)?;
        left = more;
    }
    Some(rest)
}

/// What follows the byte at the front of the text.
pub(crate) fn after_byte(text: &[u8], byte: u8) -> Option<&[u8]>
    ensures after { option_copied result ≡ after_byte byte text.now }
    ensures shorter { IfSome result (λ rest. length rest.now < length text.now) }
{
    match text {
        [first, rest @ ..] if *first == byte => Some(rest),
        _ => None,
    }
}

/// The number at the front of the text: digits without a leading zero, with a value of at most
/// `most`.
#[tactic(auto, unfolding(crate::specs::inner::Reading::number_read))]
pub(crate) fn number_at(text: &[u8], most: u64) -> Option<ReadNumber<'_>>
    requires least { 9 ≤ most }
    requires most { most ≤ MOST_AMOUNT }
    ensures number { MatchOption result
        (number_read most text.now ≡ None)
        (λ number. number_read most text.now ≡ Some (number.value, number.rest.now)) }
    ensures within { IfSome result (λ number. number.value ≤ most) }
    ensures shorter { IfSome result (λ number. length number.rest.now < length text.now) }
{
    match text {
        [b'0', rest @ ..] => Some(ReadNumber { value: 0, rest }),
        [digit @ b'1'..=b'9', rest @ ..] => digits_at(u64::from(*digit - b'0'), rest, most),
        _ => None,
    }
}

/// The number that all the digits at the front of the text write, after those that write `before`.
fn digits_at(before: u64, text: &[u8], most: u64) -> Option<ReadNumber<'_>>
    requires before { before ≤ most }
    requires most { most ≤ MOST_AMOUNT }
    ensures number { MatchOption result
        (digits_from most before text.now ≡ None)
        (λ number. digits_from most before text.now ≡ Some (number.value, number.rest.now)) }
    ensures within { IfSome result (λ number. number.value ≤ most) }
    ensures shorter { IfSome result (λ number. length number.rest.now ≤ length text.now) }
{
    let mut value = before;
    let mut rest = text;
    while let [digit @ b'0'..=b'9', after @ ..] = rest {
        value = value * 10 + u64::from(*digit - b'0');
        if value > most {
            return None;
        }
        rest = after;
    }
    Some(ReadNumber { value, rest })
}
