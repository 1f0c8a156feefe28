//! The check of a certificate that is written as lines.

ghost use Rattle.compact_types.specs.declared.limits.TheConstants.{GREATEST_THOUSANDTHS};
ghost use Rattle.compact_types.specs.Drawings.{IsDrawing};
ghost use Rattle.compact_types.specs.Magnitudes.{AreWithin};

use crate::{CheckFault, check_cert};
use bars::{Bars, bars_of_points};
use cert_text::read_cert;
use compact_types::{Items, Places, Refusal};
use std::alloc::Global;
use std::test::Fail;

/// The first fault of the certificate with these lines for the drawing at these points of a spine
/// with an arm at each end, of which the lower one turns up; `None` if it is accepted. Its segments
/// are the rows 0 and 1 of the lower and the upper arm, the column 2 of the spine, and the column 3
/// of the turn.
pub(crate) fn fault_of(
    alloc: Global,
    points: &[(i32, i32)],
    lines: &[&str],
) -> Result<Option<CheckFault>, Fail> {
    let mut text = Items::from_slice(alloc, b"#! compaction 1 pitch 1\n")?;
    for line in lines {
        text.extend_from_slice(line.as_bytes())?;
        text.extend_from_slice(b"\n")?;
    }
    let ends = [(0, 1), (0, 2), (2, 3), (1, 4)];
    match bars_of_points(alloc, points, &ends)? {
        Some((bars, places)) => answer(alloc, &bars, &places, text.as_slice()),
        None => Err(Fail::new("no drawing")),
    }
}

/// The first fault of the certificate of a text.
fn answer(
    alloc: Global,
    bars: &Bars,
    places: &Places,
    text: &[u8],
) -> Result<Option<CheckFault>, Fail>
    requires drawing { IsDrawing bars.now places.now }
    requires near { AreWithin GREATEST_THOUSANDTHS places.now }
{
    if text.len() > 1_000 {
        return Err(Fail::new("a long text"));
    }
    let (_, tree) = match read_cert(alloc, text) {
        Ok(found) => found,
        Err(_) => return Err(Fail::new("no certificate")),
    };
    match check_cert(alloc, bars, places, &tree) {
        Ok(()) => Ok(None),
        Err(Refusal::Fault(fault)) => Ok(Some(fault)),
        Err(Refusal::NoMemory) => Err(Fail::new("memory")),
    }
}
