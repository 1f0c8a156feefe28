//! The vertex in which two pieces end.

ghost use Rattle.std.specs.Prelude.{ℕ, MatchOption};
ghost use Rattle.compact_types.specs.Lookups.{IsEnd, HaveSameEnds};
ghost use Rattle.drawing_check.specs.inner.CommonEnds.{IsOnlyCommonEnd};

use compact_types::Piece;

/// The only vertex that both pieces end in; `None` where there is none, and where they join the
/// same two vertices.
pub(crate) fn only_common_end(p: Piece, q: Piece) -> Option<u32>
    ensures { MatchOption result
        ((vertex : ℕ) → IsEnd vertex p → IsEnd vertex q → HaveSameEnds p q)
        (IsOnlyCommonEnd p q) }
{
    let same = p.from == q.from && p.to == q.to;
    let turned = p.from == q.to && p.to == q.from;
    if same || turned {
        None
    } else if p.from == q.from || p.from == q.to {
        Some(p.from)
    } else if p.to == q.from || p.to == q.to {
        Some(p.to)
    } else {
        None
    }
}
