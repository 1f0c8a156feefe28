//! The best drawing of the sample, with a certificate that is checked.

ghost use Rattle.std.specs.Prelude.{◌≡◌, ◌<◌, ◌≤◌, length, IfOk};
ghost use Rattle.compact_types.specs.declared.places.Axis.TheVariants as axes;
ghost use Rattle.compact_types.specs.Bests.{total_length, worth_of};
ghost use Rattle.cert_text.specs.Accepting.{Accepts};
ghost use Rattle.compact_main.specs.declared.sample.TheConstants.{MOST_SAMPLE};
ghost use Rattle.compact_main.specs.Samples as samples;
ghost use Rattle.compact_main.specs.Samples.{IsSampleOutput};
ghost use Rattle.compact_main.specs.inner.CertificateChecks.{CanCheckCertificate, CanMeasure};

use crate::sample::{greatest_along, sample_drawing, sample_text};
use crate::search::{Search, certificate_of};
use crate::verify::check;
use bars::Bars;
use cert_text::CertTree;
use compact_types::{Axis, Items, NoMemory, Places, Refusal};
use potentials::TotalLength;
use shape_graphs::Measure;
use std::alloc::Global;

/// What is told of the best drawing of the sample of a number.
pub(crate) fn draw_sample<X: Search>(
    alloc: Global,
    search: &X,
    number: u32,
) -> Result<Items<u8>, NoMemory>
    requires ready { X.is_ready search.now }
    requires some { 1 ≤ number }
    requires most { number ≤ MOST_SAMPLE }
    ensures { IfOk result (IsSampleOutput number) }
{
    let (bars, places) = sample_drawing(number, alloc)?;
    let best = search.best(alloc, &bars, &places)?;
    let tree = certificate_of(alloc, &bars, &best)?;
    check_own(alloc, &bars, &best.key.places, &tree)?;
    told(alloc, number, &bars, &best.key.places)
}

/// Checks a certificate that was made here, so that the check finds no fault in it.
fn check_own(alloc: Global, bars: &Bars, places: &Places, tree: &CertTree) -> Result<(), NoMemory>
    requires can { CanCheckCertificate bars.now places.now tree.now.nodes }
    requires accepted { Accepts bars.now places.now tree.now.nodes }
{
    match check(alloc, bars, places, tree) {
        Ok(()) => Ok(()),
        Err(Refusal::NoMemory) => Err(NoMemory),
        Err(Refusal::Fault(_fault)) => unreachable!(),
    }
}

/// The lines that tell of a drawing of the sample of a number.
fn told(alloc: Global, number: u32, bars: &Bars, places: &Places) -> Result<Items<u8>, NoMemory>
    requires measurable { CanMeasure bars.now places.now }
    requires some { 0 < length places.now.xy }
    ensures { IfOk result (λ text. text ≡ samples.sample_text number bars.now.plan
        (worth_of total_length bars.now places.now) (samples.greatest_along axes.X places.now)
        (samples.greatest_along axes.Y places.now)) }
{
    let length = TotalLength.worth(bars, places);
    let width = greatest_along(Axis::X, places);
    let height = greatest_along(Axis::Y, places);
    sample_text(alloc, number, &bars.shape().plan, length, width, height)
}
