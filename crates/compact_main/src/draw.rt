//! The drawing of a text with the best places of its shape, in the form that is asked for.

ghost use Rattle.std.specs.Prelude.{◌≤◌, length, IfOk};
ghost use Rattle.compact_types.specs.Refusals.{IfFault};
ghost use Rattle.cert_text.specs.Certificates.{IsPitch};
ghost use Rattle.cert_text.specs.Loads.{IsCertTree};
ghost use Rattle.compact_main.specs.declared.command.Form.TheVariants as forms;
ghost use Rattle.compact_main.specs.Commands.{IsCommandWithinLimits};
ghost use Rattle.compact_main.specs.Drawings.{AreBestPlaces, shape_of};
ghost use Rattle.compact_main.specs.Intakes.{limit_of};
ghost use Rattle.compact_main.specs.Outputs.{Draws, DrawsBest, IsCertified, Output, FirstFailure};
ghost use Rattle.compact_main.specs.inner.FoundDrawings.{HasFoundBest, IsRead};

use crate::command::{Command, Form};
use crate::drawing::{Drawing, input_of};
use crate::search::{Search, certificate_of};
use crate::status::Failure;
use cert_text::{CertTree, with_cert};
use compact_types::{Flows, Items, NoMemory, Places, Refusal};
use gml_print::{print_tree, with_places};
use std::alloc::Global;
use std::thread::Threads;
use workers::Best;

/// The text's drawing with the best places of its shape, in this form.
pub(crate) fn draw<X: Search, R: Threads + Sync>(
    rt: &R,
    alloc: Global,
    search: &X,
    pitch: u32,
    form: Form,
    bytes: &[u8],
) -> Result<Items<u8>, Refusal<Failure>>
    requires ready { X.is_ready search.now }
    requires within { length bytes.now ≤ limit_of (Command.Draw pitch form) }
    requires pitch { IsCommandWithinLimits (Command.Draw pitch form) }
    ensures output { IfOk result (Output (Command.Draw pitch form) bytes.now) }
    ensures fault { IfFault result (FirstFailure (Command.Draw pitch form) bytes.now) }
{
    let drawing = input_of(rt, alloc, Command::Draw { pitch, form }, bytes)?;
    let best = best_of(alloc, search, &drawing)?;
    Ok(write(alloc, drawing, &best, pitch, form)?)
}

/// The best key of the drawing's shape, and the board that shows it.
fn best_of<X: Search>(alloc: Global, search: &X, drawing: &Drawing) -> Result<Best<Flows>, NoMemory>
    requires ready { X.is_ready search.now }
    requires read { IsRead drawing.now }
    ensures { IfOk result (HasFoundBest (shape_of drawing.now)) }
{
    search.best(alloc, &drawing.bars, &drawing.reading.places)
}

/// The drawing with the best places, in this form.
fn write(
    alloc: Global,
    drawing: Drawing,
    best: &Best<Flows>,
    pitch: u32,
    form: Form,
) -> Result<Items<u8>, NoMemory>
    requires read { IsRead drawing }
    requires found { HasFoundBest (shape_of drawing) best.now }
    requires pitch { IsPitch pitch }
    ensures { IfOk result (Draws form drawing pitch) }
{
    match form {
        Form::Plain => write_plain(alloc, drawing, &best.key.places, pitch),
        Form::Certified => write_certified(alloc, drawing, best, pitch),
    }
}

/// The drawing with the best places, followed by its certificate.
fn write_certified(
    alloc: Global,
    drawing: Drawing,
    best: &Best<Flows>,
    pitch: u32,
) -> Result<Items<u8>, NoMemory>
    requires read { IsRead drawing }
    requires found { HasFoundBest (shape_of drawing) best.now }
    requires pitch { IsPitch pitch }
    ensures { IfOk result (Draws forms.Certified drawing pitch) }
{
    let tree = certificate_of(alloc, &drawing.bars, best)?;
    let text = print(alloc, drawing, &best.key.places, pitch)?;
    with_certificate(text, &tree, pitch)
}

/// The text with the certificate after it.
fn with_certificate(text: Items<u8>, tree: &CertTree, pitch: u32) -> Result<Items<u8>, NoMemory>
    requires tree { IsCertTree tree.now.nodes }
    requires pitch { IsPitch pitch }
    ensures { IfOk result (IsCertified pitch text tree.now.nodes) }
{
    with_cert(text, tree, pitch)
}

/// The drawing with the best places, alone.
fn write_plain(
    alloc: Global,
    drawing: Drawing,
    places: &Places,
    pitch: u32,
) -> Result<Items<u8>, NoMemory>
    requires read { IsRead drawing }
    requires best { AreBestPlaces drawing places.now }
    requires pitch { IsPitch pitch }
    ensures { IfOk result (Draws forms.Plain drawing pitch) }
{
    print(alloc, drawing, places, pitch)
}

/// The tree of the drawing, printed with its best places and `pitch` units between neighbouring
/// lines of the grid.
fn print(
    alloc: Global,
    drawing: Drawing,
    places: &Places,
    pitch: u32,
) -> Result<Items<u8>, NoMemory>
    requires read { IsRead drawing }
    requires best { AreBestPlaces drawing places.now }
    requires pitch { IsPitch pitch }
    ensures { IfOk result (DrawsBest drawing pitch places.now) }
{
    let Drawing { tree, reading, .. } = drawing;
    let tree = with_places(alloc, tree, &reading, places, pitch)?;
    print_tree(alloc, &tree)
}
