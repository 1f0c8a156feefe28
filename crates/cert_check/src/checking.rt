//! The check of a certificate.

ghost use Rattle.std.specs.Prelude.{All, OnOk};
ghost use Rattle.compact_types.specs.declared.limits.TheConstants.{GREATEST_THOUSANDTHS};
ghost use Rattle.compact_types.specs.declared.limits.TheConstants.{MOST_CHOICES};
ghost use Rattle.compact_types.specs.Bests.{IsBest};
ghost use Rattle.compact_types.specs.Bests.Objective.{total_length};
ghost use Rattle.compact_types.specs.Drawings.{IsDrawing};
ghost use Rattle.compact_types.specs.Magnitudes.{AreWithin};
ghost use Rattle.compact_types.specs.Refusals.{Decides};
ghost use Rattle.cert_text.specs.Accepting.{Accepts};
ghost use Rattle.cert_text.specs.Loads.{IsInRange};
ghost use Rattle.cert_text.specs.Trees.{IsShallow, IsWhole};
ghost use Rattle.cert_check.specs.Faults.{FirstCheckFault};

use crate::answer::{Answer, is_from_zero};
use crate::fault::CheckFault;
use crate::walk::walk;
use bars::Bars;
use cert_text::CertTree;
use compact_types::{Places, Refusal};
use potentials::TotalLength;
use shape_graphs::Measure;
use std::alloc::Global;

/// Whether the certificate shows that the drawing is the best one of its shape; or else its first
/// fault, entry by entry. Places are in grid steps.
pub fn check_cert(
    alloc: Global,
    bars: &Bars,
    places: &Places,
    tree: &CertTree,
) -> Result<(), Refusal<CheckFault>>
    requires drawing { IsDrawing bars.now places.now }
    requires near { AreWithin GREATEST_THOUSANDTHS places.now }
    requires whole { IsWhole tree.now.nodes }
    requires in_range { All IsInRange tree.now.nodes }
    requires shallow { IsShallow MOST_CHOICES tree.now.nodes }
    ensures answer { Decides result
        (λ _. Accepts bars.now places.now tree.now.nodes)
        (FirstCheckFault bars.now places.now tree.now.nodes) }
    ensures best { OnOk result (IsBest total_length bars.now places.now) }
{
    if !is_from_zero(places) {
        return Err(Refusal::Fault(CheckFault::NotFromZero));
    }
    // The call says what is known of the shape: that it is small and has a drawing.
    let _what_is_known = bars.shape();
    let length = TotalLength.worth(bars, places);
    walk(
        alloc,
        bars,
        &Answer { places, length },
        tree.nodes.as_slice(),
    )
}
