//! What follows from the rule of a lane.

ghost use Rattle.std.specs.Prelude.{◌≡◌, ◌<◌, ◌≤◌, ℕ, List, [], ◌∷◌, ◌++◌, length, Contains, Some};
ghost use Rattle.compact_types.specs.declared.search.Branch.{Branch};
ghost use Rattle.steal_lanes.specs.declared.views.LaneView.{LaneView};
ghost use Rattle.steal_lanes.specs.declared.views.Taken.{Taken};
ghost use Rattle.steal_lanes.specs.Histories.{handed_out, History, next, waiting};
ghost use Rattle.steal_lanes.specs.Histories.{with_handed, with_put};
ghost use Rattle.steal_lanes.specs.Rules.{IsGotByOne, IsLaneState};
ghost use Rattle.steal_lanes.specs.Views.{HasSeat};

/// What was handed out is the front of what was put, and what waits is the rest. A put adds at the
/// end of what waits; what is handed out next is the first of it.
pub fn lanes_are_queues()
    ensures parts { (history : History) → history.put ≡ handed_out history ++ waiting history }
    ensures put { (history : History) (branch : Branch) → history.handed ≤ length history.put →
        (waiting (with_put history branch) ≡ waiting history ++ branch ∷ [])
        × (handed_out (with_put history branch) ≡ handed_out history) }
    ensures handed { (history : History) (branch : Branch) → next history ≡ Some branch →
        (waiting history ≡ branch ∷ waiting (with_handed history))
        × (handed_out (with_handed history) ≡ handed_out history ++ branch ∷ []) }
{}

/// In every state of a lane each place below the number handed out was got once, by one of the
/// owner and the passes, with the branch that was put there; and no other place was got.
pub fn places_are_got_once()
    ensures one { (history : History) (views : List LaneView) (place : ℕ) →
        IsLaneState history views → place < history.handed → IsGotByOne history views place }
    ensures no_other { (history : History) (views : List LaneView) (seat : ℕ) (view : LaneView) →
        IsLaneState history views → HasSeat views seat view →
        (taken : Taken) → Contains view.got taken → taken.place < history.handed }
{}
