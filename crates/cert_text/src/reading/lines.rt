//! Lines of a text.

ghost use Rattle.std.specs.Prelude.{◌≡◌, ◌<◌, ◌≤◌, true, length, IfSome, MatchOption};
ghost use Rattle.std.specs.List.{list_all, prefix_len};
ghost use Rattle.cert_text.specs.inner.Lines.{IsFirstLine, is_no_feed};

/// A line without its line feed, and the text that follows the line.
#[derive(Clone, Copy)]
pub(crate) struct Line<'a> {
    pub(crate) line: &'a [u8],
    pub(crate) rest: &'a [u8],
}

/// The first line of the text; `None` exactly where it has no line feed.
#[tactic(auto, using(crate::proofs::ReadLines::no_line))]
pub(crate) fn line_at(text: &[u8]) -> Option<Line<'_>>
    ensures line { MatchOption result
        (list_all is_no_feed text.now ≡ true)
        (λ found. IsFirstLine text.now found.line.now found.rest.now) }
    ensures shorter { IfSome result (λ found. length found.rest.now < length text.now) }
{
    let end = line_end(text);
    if end == text.len() {
        return None;
    }
    Some(Line {
        line: &text[..end],
        rest: &text[end + 1..],
    })
}

/// How many bytes stand before the first line feed.
fn line_end(text: &[u8]) -> usize
    ensures value { result ≡ prefix_len is_no_feed text.now }
    ensures within { result ≤ length text.now }
{
    text.iter().take_while(|byte| **byte != b'\n').count()
}
