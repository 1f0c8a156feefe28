//! Head lines of certificates.

ghost use Rattle.std.specs.Prelude.{◌≡◌, ◌↔◌, ℕ, List, ◌++◌, ◌<◌, ◌≤◌, length, take, drop, IsTrue};
ghost use Rattle.std.specs.Prelude.{IfSome, MatchOption};
ghost use Rattle.compact_types.specs.declared.limits.TheConstants.{MOST_PITCH};
ghost use Rattle.cert_text.specs.Certificates.{HasNoHead, IsBeforeLine, IsCutAtHead};
ghost use Rattle.cert_text.specs.Certificates.{IsCutAtLastHead};
ghost use Rattle.cert_text.specs.Texts.{head_start};
ghost use Rattle.cert_text.specs.inner.Reading.{head_of};

use crate::reading::numbers::{after_byte, after_word, number_at};
use compact_types::MOST_PITCH;

/// The pitch of a head line, and the text that follows the line.
#[derive(Clone, Copy)]
pub(crate) struct Head<'a> {
    pub(crate) pitch: u32,
    pub(crate) rest: &'a [u8],
}

/// Where the last line begins that begins as a head line.
pub(crate) fn last_head(text: &[u8]) -> Option<usize>
    ensures last { MatchOption result
        (HasNoHead text.now)
        (λ at. IsCutAtLastHead text.now (take at text.now) (drop at text.now)) }
    ensures within { IfSome result (λ at. at ≤ length text.now) }
{
    let length = text.len();
    for step in 0..length {
        let at = length - 1 - step;
        if is_head(text, at) {
            return Some(at);
        }
    }
    None
}

/// Whether a line begins at the place, as a head line.
fn is_head(text: &[u8], at: usize) -> bool
    requires { at ≤ length text.now }
    ensures { IsTrue result ↔ IsCutAtHead text.now (take at text.now) (drop at text.now) }
{
    begins_line(text, at) && begins_head(&text[at..])
}

/// Whether a line begins at the place.
fn begins_line(text: &[u8], at: usize) -> bool
    requires { at ≤ length text.now }
    ensures { IsTrue result ↔ IsBeforeLine (take at text.now) }
{
    at == 0 || text[at - 1] == b'\n'
}

fn begins_head(text: &[u8]) -> bool
    ensures { IsTrue result ↔ ((after : List ℕ) × (text.now ≡ head_start ++ after)) }
{
    after_word(text, b"#! compaction ").is_some()
}

/// The head line at the front of the text.
#[tactic(auto, unfolding(crate::specs::inner::Reading::head_of))]
pub(crate) fn head_at(text: &[u8]) -> Option<Head<'_>>
    ensures head { MatchOption result
        (head_of text.now ≡ None)
        (λ head. head_of text.now ≡ Some (head.pitch, head.rest.now)) }
    ensures shorter { IfSome result (λ head. length head.rest.now < length text.now) }
{
    let number = after_word(text, b"#! compaction 1 pitch ")?;
    let pitch = number_at(number, u64::from(MOST_PITCH))?;
    let rest = after_byte(pitch.rest, b'\n')?;
    if pitch.value < 1 {
        return None;
    }
    Some(Head {
        pitch: pitch.value as u32,
        rest,
    })
}
