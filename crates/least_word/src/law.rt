//! What the definitions say.

ghost use Rattle.std.specs.Prelude.{◌≡◌, ℕ, ◌≤◌, Bool, true, pos};
ghost use Rattle.compact_types.specs.Bests.{IsAttained, Objective};
ghost use Rattle.compact_types.specs.declared.plan.Shape.{Shape as AnyShape};
ghost use Rattle.least_word.specs.Views.{KeepsKnowledge, after_halt, after_halt_load, after_join};
ghost use Rattle.least_word.specs.Views.{after_load, after_offer, after_split, split_off};
ghost use Rattle.least_word.specs.Words.{IsHalted, IsStep, SomeHalts, Words};
ghost use Rattle.least_word.specs.declared.words.TheConstants.{GREATEST_WORTH};
ghost use Rattle.least_word.specs.declared.view.View.{View as AnyView};

/// No step raises a seat's floor or takes a mark from it; of a load of the worth, that is so
/// because what it finds is at most the floor. After an offer the floor is at most what was
/// offered, a seat that is split off keeps what the first one had, and a seat that takes over
/// another keeps what either had.
pub fn knowledge_is_kept()
    ensures load { (view : AnyView) (worth : ℕ) → worth ≤ view.floor →
        KeepsKnowledge view (after_load view worth) }
    ensures offer { (view : AnyView) (worth : ℕ) → KeepsKnowledge view (after_offer view worth) }
    ensures offered { (view : AnyView) (worth : ℕ) → (after_offer view worth).floor ≤ worth }
    ensures halt { (view : AnyView) → KeepsKnowledge view (after_halt view) }
    ensures halt_load { (view : AnyView) (is_set : Bool) →
        KeepsKnowledge view (after_halt_load view is_set) }
    ensures split { (view : AnyView) → KeepsKnowledge view (after_split view) }
    ensures split_off { (view : AnyView) → KeepsKnowledge view (split_off view) }
    ensures join { (view other : AnyView) → KeepsKnowledge view (after_join view other) }
    ensures other { (view other : AnyView) → KeepsKnowledge other (after_join view other) }
{}

/// What every step finds: some drawing of the shape has the worth, which is at most the greatest
/// worth and at most the seat's floor, before the step and after it. A seat that has heard of a
/// halt is right; a halt word that is set was set by a seat that has the halting mark; and a step
/// that sets it gives its seat that mark.
pub fn what_steps_find()
    ensures attained { (objective : Objective) (shape : AnyShape) (before after : Words)
        (old new : AnyView) → IsStep objective shape before after old new →
        IsAttained objective shape (pos before.worth) }
    ensures small { (objective : Objective) (shape : AnyShape) (before after : Words)
        (old new : AnyView) → IsStep objective shape before after old new →
        before.worth ≤ GREATEST_WORTH }
    ensures floor_before { (objective : Objective) (shape : AnyShape) (before after : Words)
        (old new : AnyView) → IsStep objective shape before after old new →
        before.worth ≤ old.floor }
    ensures floor_after { (objective : Objective) (shape : AnyShape) (before after : Words)
        (old new : AnyView) → IsStep objective shape before after old new →
        after.worth ≤ new.floor }
    ensures heard { (objective : Objective) (shape : AnyShape) (before after : Words)
        (old new : AnyView) → IsStep objective shape before after old new →
        old.heard ≡ true → IsHalted before }
    ensures caller { (objective : Objective) (shape : AnyShape) (before after : Words)
        (old new : AnyView) → (step : IsStep objective shape before after old new) →
        IsHalted before → SomeHalts step.seats }
    ensures sets { (objective : Objective) (shape : AnyShape) (before after : Words)
        (old new : AnyView) → IsStep objective shape before after old new →
        (IsHalted before → ⊥) → IsHalted after → new.halting ≡ true }
{}
