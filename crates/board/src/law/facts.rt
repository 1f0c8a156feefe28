//! What follows from the facts of a board.

ghost use Rattle.std.specs.Prelude.{◌≡◌, ◌-◌, ◌*◌, ◌<◌, ◌≤◌, ℕ, List, length, Option};
ghost use Rattle.compact_types.specs.declared.limits.TheConstants.{MOST_PAIRS};
ghost use Rattle.compact_types.specs.declared.places.Key.{Key};
ghost use Rattle.compact_types.specs.declared.plan.Shape.{Shape};
ghost use Rattle.compact_types.specs.declared.search.Choice.{Choice};
ghost use Rattle.compact_types.specs.Bests.{IsBest};
ghost use Rattle.bars.specs.Segments.{segment_count};
ghost use Rattle.bars.specs.Solutions.{IsChoice, IsSound};
ghost use Rattle.shape_graphs.specs.declared.measure.Verdict.{Verdict as AnyVerdict};
ghost use Rattle.board.specs.declared.entries.Settled.TheVariants.{Split};
ghost use Rattle.board.specs.declared.standings.Standing.TheVariants.{Done};
ghost use Rattle.board.specs.Boards.{BoardView, board_state, verdict_of};
ghost use Rattle.board.specs.Facts.{AreFacts, AreSound, HasBranchPair};
ghost use Rattle.board.specs.Histories.{branch_count, choices_of, open_count_of, standing_of};
ghost use Rattle.board.specs.Verdicts.{IsBranchPairFor, IsPairFor};

use shape_graphs::Backing;

/// A board without an open branch has the best drawing as its incumbent.
pub fn no_open_branch_is_best<P: Backing>()
    ensures { (board : BoardView P) → AreFacts P.objective P.backs board →
        open_count_of (board_state board) ≡ 0 →
        IsBest P.objective board.shape board.incumbent.places }
{}

/// Choices that fit and are on different pairs are at most as many as there are pairs of segments,
/// and a shape has at most 499,500 of these.
pub fn choices_are_few()
    ensures pairs { (shape : Shape) (choices : List Choice) → AreSound shape choices →
        2 * length choices ≤ segment_count shape * (segment_count shape - 1) }
    ensures few { (shape : Shape) (choices : List Choice) → IsSound shape → AreSound shape choices →
        length choices ≤ MOST_PAIRS }
{}

/// A branch was split at two segments without a common vertex, so that each side of the pair is a
/// choice. The verdict that the board keeps for it is a least key, and the pair is the branch pair
/// at its places.
pub fn splits_name_a_pair<P: Backing>()
    ensures choices { (board : BoardView P) (id first s t : ℕ) →
        AreFacts P.objective P.backs board → id < branch_count (board_state board) →
        standing_of (board_state board) id ≡ Done (Split first s t) → (side : ℕ) → side < 4 →
        IsChoice board.shape (record { s = s; t = t; side = side }) }
    ensures branch_pair { (board : BoardView P) (id first s t : ℕ) (verdict : AnyVerdict P) →
        AreFacts P.objective P.backs board → id < branch_count (board_state board) →
        standing_of (board_state board) id ≡ Done (Split first s t) →
        verdict_of board id ≡ Some verdict →
        HasBranchPair board.shape (choices_of (board_state board) id) verdict s t }
{}

/// The branch pair of a verdict settles a branch whatever the incumbent is.
pub fn branch_pairs_settle<P>()
    ensures { (shape : Shape) (choices : List Choice) (incumbent : Key) (verdict : AnyVerdict P)
        (pair : Option (ℕ × ℕ)) → IsBranchPairFor shape choices verdict pair →
        IsPairFor shape choices incumbent verdict pair }
{}
