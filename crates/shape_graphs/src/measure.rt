//! Measures of drawings, and the verdicts of their solvers on lists of choices.

ghost use Rattle.std.specs.Prelude.{◌≡◌, ◌↔◌, ℤ, ◌<ℤ◌, ◌≤ℤ◌, pos, List, length, IfOk, MatchOption};
ghost use Rattle.std.specs.Prelude.{OnOk};
ghost use Rattle.compact_types.specs.declared.limits.TheConstants.{GREATEST_THOUSANDTHS};
ghost use Rattle.compact_types.specs.declared.places.Axis.{Axis as AnyAxis};
ghost use Rattle.compact_types.specs.declared.places.Key.{Key as AnyKey};
ghost use Rattle.compact_types.specs.declared.places.Places.{Places as AnyPlaces};
ghost use Rattle.compact_types.specs.declared.plan.Shape.{Shape as AnyShape};
ghost use Rattle.compact_types.specs.declared.search.Choice.{Choice as AnyChoice};
ghost use Rattle.compact_types.specs.Bests.{Objective, key_of, worth_of};
ghost use Rattle.compact_types.specs.Bests.Objective.{total_length};
ghost use Rattle.compact_types.specs.Drawings.{IsDrawing, IsFromZero};
ghost use Rattle.compact_types.specs.Magnitudes.{AreWithin};
ghost use Rattle.compact_types.specs.Moves.{moved};
ghost use Rattle.compact_types.specs.Orders.{IsBefore};
ghost use Rattle.bars.specs.Solutions.{Fit, Solves};
ghost use Rattle.shape_graphs.specs.declared.measure.Verdict.{Verdict as AnyVerdict};
ghost use Rattle.shape_graphs.specs.declared.measure.Verdict.TheVariants as verdicts;
ghost use Rattle.shape_graphs.specs.Backings.{DoBack};
ghost use Rattle.shape_graphs.specs.Graphs.{arcs_of};
ghost use Rattle.shape_graphs.specs.Measures.{
  BacksBefore,
  HaveNoCycle,
  IsAsked,
  IsBacked,
  IsLeastKey,
  IsRight,
  MatchVerdict,
};
ghost use Rattle.shape_graphs.specs.Paths.{HasCycle};

use crate::graph::Cycle;
use bars::Bars;
use compact_types::{Axis, Extension, Flows, Key, NoMemory, Places};
use std::alloc::Global;

/// What a solver says of a list of choices, with its proof.
#[derive(Debug, Drop)]
pub enum Verdict<P> {
    /// No places solve the choices: the graph of this axis has this cycle, and where the axis is y
    /// the column graph has none.
    Cyclic { axis: Axis, cycle: Cycle },
    /// Every solution is worth at least `bound`, which is above `stop`.
    Above { bound: i64, stop: i64, proof: P },
    /// The least key of all solutions.
    Least { key: Key, proof: P },
}

/// What shows that a verdict is right, to whoever has the shape and the choices.
pub trait Backing: Send + Sync + Drop {
    // What is made least.
    ghost objective: { Objective };

    // The proof shows that the verdict on these choices of a shape is right.
    ghost backs: { AnyShape → List AnyChoice → Self → AnyVerdict Self → Type 0 };
}

/// Two flows show a bound of the total length, by weak duality (Klau and Mutzel).
impl Backing for Flows {
    ghost objective = { total_length };

    ghost backs = { DoBack };
}

/// What a solver keeps from one list of choices of a shape to the next.
pub trait Workspace: Drop {
    // It was made for this shape, and holds true of it what it holds.
    ghost serves: { AnyShape → Self → Type 0 };
}

/// What drawings are worth, and a solver that finds the least key of a list of choices.
pub trait Measure: Sync {
    /// The proofs of the solver's verdicts.
    type Proof: Backing;

    /// What the solver keeps from one list of choices to the next.
    type Workspace: Workspace;

    /// What the places are worth. It takes no memory.
    fn worth(&self, bars: &Bars, places: &Places) -> i64
        requires fit { length places.now.xy ≡ bars.now.plan.vertices }
        requires near { AreWithin GREATEST_THOUSANDTHS places.now }
        ensures value { result ≡ worth_of Self.Proof.objective bars.now places.now }
        ensures not_negative { pos 0 ≤ℤ result }
        ensures moved { (dx dy : ℤ) →
            worth_of Self.Proof.objective bars.now (moved dx dy places.now) ≡ result };

    /// The same proof once more, so that a branch can be solved from it while another keeps it.
    fn again(&self, alloc: Global, proof: &Self::Proof) -> Result<Self::Proof, NoMemory>
        ensures { IfOk result (λ copy. copy ≡ proof.now) };

    /// A workspace for the shape. A search makes one for each of its workers.
    fn workspace(&self, alloc: Global, bars: &Bars) -> Result<Self::Workspace, NoMemory>
        ensures { IfOk result (Self.Workspace.serves bars.now) };

    /// The verdict on the choices, as `solve` gives it. What was solved before in the workspace
    /// makes it quick where the choices are those of an earlier call and one more; it has no
    /// influence on whether the verdict is a cycle, a bound or a key, nor on the key.
    fn solve_in(
        &self,
        alloc: Global,
        bars: &Bars,
        workspace: &mut Self::Workspace,
        extension: &Extension,
        start: Option<&Self::Proof>,
        stop_above: i64,
    ) -> Result<Verdict<Self::Proof>, NoMemory>
        requires fit { Fit bars.now extension.now.choices }
        requires start { MatchOption start (Unit {0}) (λ proof.
            BacksBefore (Self.Proof.backs bars.now) extension.now.choices proof.now) }
        requires serves { Self.Workspace.serves bars.now workspace.old }
        ensures has_least { HaveNoCycle bars.now extension.now.choices → (key : AnyKey)
            × IsLeastKey Self.Proof.objective bars.now extension.now.choices key }
        ensures right { IfOk result
            (IsRight Self.Proof.objective bars.now extension.now.choices) }
        ensures asked { IfOk result (IsAsked stop_above) }
        ensures backed { IfOk result
            (IsBacked (Self.Proof.backs bars.now extension.now.choices)) }
        ensures serves { OnOk result (Self.Workspace.serves bars.now workspace.new) };

    /// The verdict on the choices: a cycle of the first graph that has one; else, where the least
    /// key is worth more than `stop_above`, a bound above it; else the least key. `start` is a
    /// proof of a verdict on the choices without the last of them, from which the solver may
    /// begin.
    fn solve(
        &self,
        alloc: Global,
        bars: &Bars,
        extension: &Extension,
        start: Option<&Self::Proof>,
        stop_above: i64,
    ) -> Result<Verdict<Self::Proof>, NoMemory>
        requires fit { Fit bars.now extension.now.choices }
        requires start { MatchOption start (Unit {0}) (λ proof.
            BacksBefore (Self.Proof.backs bars.now) extension.now.choices proof.now) }
        ensures has_least { HaveNoCycle bars.now extension.now.choices → (key : AnyKey)
            × IsLeastKey Self.Proof.objective bars.now extension.now.choices key }
        ensures never_before { (key : AnyKey) (places : AnyPlaces) →
            IsLeastKey Self.Proof.objective bars.now extension.now.choices key →
            IsDrawing bars.now places → IsFromZero places →
            Solves bars.now extension.now.choices places →
            IsBefore (key_of Self.Proof.objective bars.now places) key → ⊥ }
        ensures right { IfOk result
            (IsRight Self.Proof.objective bars.now extension.now.choices) }
        ensures asked { IfOk result (IsAsked stop_above) }
        ensures backed { IfOk result
            (IsBacked (Self.Proof.backs bars.now extension.now.choices)) };
}

/// No solution from zero comes before the least key, and the choices determine it: there is at most
/// one, so any two verdicts with a least key on the same choices have the same key.
pub fn least_keys<P, Q>()
    ensures never_before { (objective : Objective) (shape : AnyShape) (choices : List AnyChoice)
        (key : AnyKey) (places : AnyPlaces) → IsLeastKey objective shape choices key →
        Solves shape choices places → IsFromZero places →
        IsBefore (key_of objective shape places) key → ⊥ }
    ensures one { (objective : Objective) (shape : AnyShape) (choices : List AnyChoice)
        (k l : AnyKey) → IsLeastKey objective shape choices k →
        IsLeastKey objective shape choices l → k ≡ l }
    ensures same { (objective : Objective) (shape : AnyShape) (choices : List AnyChoice)
        (k l : AnyKey) (proof : P) (other : Q) →
        IsRight objective shape choices (verdicts.Least k proof) →
        IsRight objective shape choices (verdicts.Least l other) → k ≡ l }
{}

/// Which verdict is given is settled by the choices and the stop: a cycle exactly where a graph has
/// one; a bound exactly where none has and every least key is worth more than the stop; a least key
/// exactly where none has and it is worth at most the stop.
pub fn verdicts_are_exact<P>()
    ensures cyclic { (objective : Objective) (shape : AnyShape) (choices : List AnyChoice)
        (stop : ℤ) (verdict : AnyVerdict P) → IsRight objective shape choices verdict →
        IsAsked stop verdict → MatchVerdict verdict (Unit {0}) ⊥ ⊥
        ↔ ((axis : AnyAxis) × HasCycle (arcs_of axis shape choices)) }
    ensures above { (objective : Objective) (shape : AnyShape) (choices : List AnyChoice) (stop : ℤ)
        (verdict : AnyVerdict P) → IsRight objective shape choices verdict →
        IsAsked stop verdict → MatchVerdict verdict ⊥ (Unit {0}) ⊥
        ↔ (HaveNoCycle shape choices × ((key : AnyKey) →
        IsLeastKey objective shape choices key → stop <ℤ key.worth)) }
    ensures least { (objective : Objective) (shape : AnyShape) (choices : List AnyChoice) (stop : ℤ)
        (verdict : AnyVerdict P) → IsRight objective shape choices verdict →
        IsAsked stop verdict → MatchVerdict verdict ⊥ ⊥ (Unit {0})
        ↔ (HaveNoCycle shape choices × ((key : AnyKey)
        × IsLeastKey objective shape choices key × (key.worth ≤ℤ stop))) }
{}
