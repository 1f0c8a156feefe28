//! Laws of histories: what stays when they grow, and what they tell of each branch.

ghost use Rattle.std.specs.Prelude.{◌≡◌, ◌↔◌, ◌<◌, ◌≤◌, ◌+◌, ℕ, List, [], ◌++◌};
ghost use Rattle.std.specs.Prelude.{length, Contains};
ghost use Rattle.board.specs.declared.entries.Entry.{Entry};
ghost use Rattle.board.specs.declared.entries.Entry.TheVariants as entries;
ghost use Rattle.board.specs.declared.entries.Settled.{Settled};
ghost use Rattle.board.specs.declared.entries.Settled.TheVariants.{Split};
ghost use Rattle.board.specs.declared.standings.Standing.TheVariants.{Done};
ghost use Rattle.board.specs.Facts.{AreByCallers};
ghost use Rattle.board.specs.Histories.{
  after,
  AllFit,
  branch_count,
  choices_of,
  Fits,
  HasChildren,
  IsChildOf,
  IsHeldBy,
  IsLegal,
  IsOpen,
  IsOpenedFrom,
  IsSettled,
  open_count_of,
  replayed,
  standing_of,
  standings_opened,
  State,
  state_of,
};
ghost use Rattle.board.specs.Tellings.{IsTold};
ghost use Rattle.board.specs.Works.{work_left};

/// A legal history with entries added is legal exactly if each of them fits what stands before
/// it, and what stands after it is what they make of what stood.
pub fn histories_grow()
    ensures replayed { (history rest : List Entry) →
        state_of (history ++ rest) ≡ replayed (state_of history) rest }
    ensures legal { (history rest : List Entry) → IsLegal (history ++ rest)
        ↔ (IsLegal history × AllFit (state_of history) rest) }
{}

/// A branch stays: in every longer history it has the same choices, and in a legal one a settled
/// branch keeps its outcome. The choices and the standings are those of equally many branches.
pub fn branches_stay()
    ensures known { (history rest : List Entry) →
        branch_count (state_of history) ≤ branch_count (state_of (history ++ rest)) }
    ensures choices { (history rest : List Entry) (id : ℕ) → id < branch_count (state_of history) →
        choices_of (state_of (history ++ rest)) id ≡ choices_of (state_of history) id }
    ensures outcome { (history rest : List Entry) (id : ℕ) (what : Settled) →
        IsLegal (history ++ rest) → id < branch_count (state_of history) →
        standing_of (state_of history) id ≡ Done what →
        standing_of (state_of (history ++ rest)) id ≡ Done what }
    ensures counted { (history : List Entry) →
        length (state_of history).choices ≡ branch_count (state_of history) }
    ensures first { (history : List Entry) → choices_of (state_of history) 0 ≡ [] }
{}

/// Callers stay callers when more numbers are given, and the entries of a shorter history are by
/// callers too.
pub fn callers_stay()
    ensures more { (given more : ℕ) (history : List Entry) → given ≤ more →
        AreByCallers given history → AreByCallers more history }
    ensures shorter { (given : ℕ) (history rest : List Entry) →
        AreByCallers given (history ++ rest) → AreByCallers given history }
{}

/// Where no branch is open no entry can follow, so no open branch stays no open branch.
pub fn nothing_opens_again()
    ensures nothing { (history rest : List Entry) → IsLegal (history ++ rest) →
        open_count_of (state_of history) ≡ 0 → rest ≡ [] }
    ensures none_open { (state : State) → open_count_of state ≡ 0 → (id : ℕ) → IsOpen state id → ⊥ }
    ensures some_open { (state : State) (id : ℕ) → IsOpen state id → 0 < open_count_of state }
{}

/// Without an open branch every branch is settled.
pub fn all_settled()
    ensures { (state : State) → open_count_of state ≡ 0 → (id : ℕ) → id < branch_count state →
        IsSettled state id }
{}

/// A branch that was split has four children, which come after it and have its choices with one
/// side of the pair added.
pub fn splits_have_children()
    ensures { (history : List Entry) (id first s t : ℕ) → IsLegal history →
        id < branch_count (state_of history) →
        standing_of (state_of history) id ≡ Done (Split first s t) →
        HasChildren (state_of history) id first s t }
{}

/// No two branches have the same choices. A branch from which another was opened was split, and the
/// other is one of its four children; each branch but the first was opened so.
pub fn branches_differ()
    ensures choices { (history : List Entry) (a b : ℕ) → IsLegal history →
        a < branch_count (state_of history) → b < branch_count (state_of history) →
        choices_of (state_of history) a ≡ choices_of (state_of history) b → a ≡ b }
    ensures child { (history : List Entry) (parent id : ℕ) → IsLegal history →
        IsOpenedFrom (state_of history) parent id → IsChildOf (state_of history) parent id }
    ensures parent { (history : List Entry) (id : ℕ) → IsLegal history →
        0 < id → id < branch_count (state_of history) →
        (parent : ℕ) × IsChildOf (state_of history) parent id }
{}

/// Without an open branch the history tells of each branch that it was claimed once and then
/// settled once, by the same caller.
pub fn branches_are_told()
    ensures { (history : List Entry) (id : ℕ) → IsLegal history →
        open_count_of (state_of history) ≡ 0 → id < branch_count (state_of history) →
        IsTold history id }
{}

/// Who has claimed a branch and has not settled it holds it; and a branch is held only by who has
/// claimed it and has not settled it.
pub fn holders_hold()
    ensures holds { (history : List Entry) (who id : ℕ) → IsLegal history →
        Contains history (entries.Claimed who id) →
        ((what : Settled) → Contains history (entries.Settled who id what) → ⊥) →
        IsHeldBy (state_of history) id who }
    ensures claimed { (history : List Entry) (who id : ℕ) → IsLegal history →
        IsHeldBy (state_of history) id who → Contains history (entries.Claimed who id) }
    ensures not_settled { (history : List Entry) (who id : ℕ) (what : Settled) → IsLegal history →
        IsHeldBy (state_of history) id who →
        Contains history (entries.Settled who id what) → ⊥ }
{}

/// A claim leaves as much work as before and as many open branches; a settle leaves less work,
/// where no branch gets more than `most` choices.
pub fn work_falls()
    ensures claimed { (most : ℕ) (history : List Entry) (who id : ℕ) →
        Fits (state_of history) (entries.Claimed who id) →
        work_left most (after (state_of history) (entries.Claimed who id))
        ≡ work_left most (state_of history) }
    ensures settled { (most : ℕ) (history : List Entry) (who id : ℕ) (what : Settled) →
        Fits (state_of history) (entries.Settled who id what) →
        ((child : ℕ) →
        child < branch_count (after (state_of history) (entries.Settled who id what)) →
        length (choices_of (after (state_of history) (entries.Settled who id what)) child) ≤ most) →
        work_left most (after (state_of history) (entries.Settled who id what))
        < work_left most (state_of history) }
    ensures open_claimed { (history : List Entry) (who id : ℕ) →
        Fits (state_of history) (entries.Claimed who id) →
        open_count_of (after (state_of history) (entries.Claimed who id))
        ≡ open_count_of (state_of history) }
    ensures open_settled { (history : List Entry) (who id : ℕ) (what : Settled) →
        Fits (state_of history) (entries.Settled who id what) →
        open_count_of (after (state_of history) (entries.Settled who id what)) + 1
        ≡ open_count_of (state_of history) + length (standings_opened what) }
{}
