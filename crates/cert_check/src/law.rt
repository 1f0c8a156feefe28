//! What the check of certificates decides: a law, proved of all shapes and trees.

ghost use Rattle.std.specs.Prelude.{List, All};
ghost use Rattle.compact_types.specs.declared.limits.TheConstants.{MOST_CHOICES};
ghost use Rattle.compact_types.specs.declared.places.Places.{Places};
ghost use Rattle.compact_types.specs.declared.plan.Shape.{Shape};
ghost use Rattle.compact_types.specs.Drawings.{IsDrawing};
ghost use Rattle.compact_types.specs.Refusals.{HasOneAnswer};
ghost use Rattle.bars.specs.Solutions.{IsSound};
ghost use Rattle.cert_text.specs.declared.tree.CertNode.{CertNode};
ghost use Rattle.cert_text.specs.Accepting.{Accepts};
ghost use Rattle.cert_text.specs.Loads.{IsInRange};
ghost use Rattle.cert_text.specs.Trees.{IsShallow, IsWhole};
ghost use Rattle.cert_check.specs.Faults.{FirstCheckFault};

/// Every certificate within the limits of the check is accepted or has one first fault, and never
/// both: a drawing of a sound shape, and a whole tree with numbers within the limits, no entry of
/// which lies under too many splits.
pub fn certificates_have_one_answer()
    ensures { (shape : Shape) (places : Places) (nodes : List CertNode) → IsSound shape →
        IsDrawing shape places → IsWhole nodes → All IsInRange nodes →
        IsShallow MOST_CHOICES nodes →
        HasOneAnswer (λ (accepted : Unit {0}). Accepts shape places nodes)
        (FirstCheckFault shape places nodes) }
{}
