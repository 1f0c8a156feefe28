//! Whether the certificate of a text shows that its drawing is the best one of its shape.

ghost use Rattle.std.specs.Prelude.{◌≡◌, ◌≤◌, length, IfErr, IfOk, OnOk};
ghost use Rattle.compact_types.specs.Refusals.{IfFault};
ghost use Rattle.compact_types.specs.Scalings.{IsScaled, IsFirstOff};
ghost use Rattle.cert_text.specs.Accepting.{Accepts};
ghost use Rattle.cert_text.specs.Certificates.{IsPitch};
ghost use Rattle.cert_check.specs.Faults.{FirstCheckFault};
ghost use Rattle.compact_main.specs.Drawings.{grid_step};
ghost use Rattle.compact_main.specs.Intakes.{limit_of};
ghost use Rattle.compact_main.specs.Outputs as outputs;
ghost use Rattle.compact_main.specs.Outputs.{IsInput, Output, FirstFailure, FirstUnproved};
ghost use Rattle.compact_main.specs.inner.CertificateChecks.{CanCheckCertificate, IsProvedAt};

use crate::command::Command;
use crate::drawing::{Drawing, input_of};
use crate::status::{Failure, Unproved};
use bars::Bars;
use cert_check::{CheckFault, check_cert};
use cert_text::{CertTree, read_cert};
use compact_types::{Items, NoMemory, Places, Refusal, THOUSANDTHS, scale_down};
use itoa::Buffer;
use potentials::TotalLength;
use shape_graphs::Measure;
use std::alloc::Global;
use std::thread::Threads;

/// That the text is proved, and the length of its drawing; or why it is not proved. It trusts no
/// search: it goes by the drawing and the certificate alone.
pub(crate) fn verify<R: Threads + Sync>(
    rt: &R,
    alloc: Global,
    bytes: &[u8],
) -> Result<Items<u8>, Refusal<Failure>>
    requires { length bytes.now ≤ limit_of Command.Verify }
    ensures output { IfOk result (Output Command.Verify bytes.now) }
    ensures fault { IfFault result (FirstFailure Command.Verify bytes.now) }
{
    let drawing = input_of(rt, alloc, Command::Verify, bytes)?;
    match proved_length(alloc, bytes, drawing) {
        Ok(length) => Ok(proved_line(alloc, length)?),
        Err(refusal) => Err(refusal.map(Failure::NotProved)),
    }
}

/// How long the drawing of a text that is proved is, in grid steps; or why it is not proved.
fn proved_length(alloc: Global, bytes: &[u8], drawing: Drawing) -> Result<i64, Refusal<Unproved>>
    requires { IsInput Command.Verify bytes.now drawing }
    ensures proved { IfOk result (IsProvedAt bytes.now drawing) }
    ensures unproved { IfFault result (FirstUnproved bytes.now drawing) }
{
    let (pitch, tree) = match read_cert(alloc, bytes) {
        Ok(found) => found,
        Err(refusal) => return Err(refusal.map(Unproved::Cert)),
    };
    let Drawing { reading, bars, .. } = drawing;
    let places = match grid_places(reading.places, pitch) {
        Ok(places) => places,
        Err(vertex) => return Err(Refusal::Fault(Unproved::NotWhole(vertex))),
    };
    match check(alloc, &bars, &places, &tree) {
        Ok(()) => Ok(TotalLength.worth(&bars, &places)),
        Err(refusal) => Err(refusal.map(Unproved::Check)),
    }
}

/// The places in grid steps, or the first vertex that is not on the grid.
fn grid_places(places: Places, pitch: u32) -> Result<Places, u32>
    requires pitch { IsPitch pitch }
    requires few { length places.xy ≤ 1000 }
    ensures scaled { IfOk result (IsScaled (grid_step pitch) places) }
    ensures off { IfErr result (IsFirstOff (grid_step pitch) places) }
{
    let mut scaled = places;
    scale_down(&mut scaled, THOUSANDTHS * i64::from(pitch))?;
    Ok(scaled)
}

/// Whether the certificate shows that the places are the best of the shape, or what it does not
/// show.
pub(crate) fn check(
    alloc: Global,
    bars: &Bars,
    places: &Places,
    tree: &CertTree,
) -> Result<(), Refusal<CheckFault>>
    requires { CanCheckCertificate bars.now places.now tree.now.nodes }
    ensures accepted { OnOk result (Accepts bars.now places.now tree.now.nodes) }
    ensures fault { IfFault result (FirstCheckFault bars.now places.now tree.now.nodes) }
{
    check_cert(alloc, bars, places, tree)
}

/// The line that says that a drawing of this length, in grid steps, is proved.
fn proved_line(alloc: Global, length: i64) -> Result<Items<u8>, NoMemory>
    ensures { IfOk result (λ line. line ≡ outputs.proved_line length) }
{
    let mut buffer = Buffer::new();
    let mut line = Items::from_slice(alloc, b"proved: length ")?;
    line.extend_from_slice(buffer.format(length).as_bytes())?;
    line.extend_from_slice(b"\n")?;
    Ok(line)
}
