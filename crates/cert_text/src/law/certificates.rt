//! What the definitions of certificates mean: laws, each proved of all shapes and trees.

ghost use Rattle.std.specs.Prelude.{◌≤◌, ℕ, List, length};
ghost use Rattle.compact_types.specs.declared.limits.TheConstants.{MOST_CHOICES};
ghost use Rattle.compact_types.specs.declared.places.Places.{Places};
ghost use Rattle.compact_types.specs.declared.plan.Shape.{Shape};
ghost use Rattle.compact_types.specs.Bests.{IsBest};
ghost use Rattle.compact_types.specs.Bests.Objective.{total_length};
ghost use Rattle.bars.specs.Solutions.{IsSound};
ghost use Rattle.cert_text.specs.declared.tree.CertNode.{CertNode};
ghost use Rattle.cert_text.specs.declared.trimming.TheConstants.{MOST_SPLITS};
ghost use Rattle.cert_text.specs.Accepting.{Accepts};
ghost use Rattle.cert_text.specs.Trees.{IsShallow, IsWhole};

/// What is accepted is best. A drawing from zero that came before the places would take one of the
/// four sides at every split, and so solve the choices of some bound or cycle; but a cycle has no
/// drawing, and a bound none that comes before the places.
pub fn accepted_is_best()
    ensures { (shape : Shape) (places : Places) (nodes : List CertNode) → IsSound shape →
        IsShallow MOST_CHOICES nodes → Accepts shape places nodes →
        IsBest total_length shape places }
{}

/// A certificate that is accepted and no deeper than the ones that are made shows by itself that
/// the places are the best drawing.
pub fn made_is_best()
    ensures { (shape : Shape) (places : Places) (nodes : List CertNode) → IsSound shape →
        IsShallow MOST_SPLITS nodes → Accepts shape places nodes →
        IsBest total_length shape places }
{}

/// No entry of a tree lies under more splits than the tree has entries.
pub fn whole_trees_are_shallow()
    ensures { (nodes : List CertNode) → IsWhole nodes → IsShallow (length nodes) nodes }
{}

/// A limit of the depth that holds also holds when it is raised.
pub fn shallower()
    ensures { (most more : ℕ) (nodes : List CertNode) → most ≤ more → IsShallow most nodes →
        IsShallow more nodes }
{}
