//! The line for a run that was not done. Each part says how long it is at most, so that every line
//! fits into a note.

ghost use Rattle.std.specs.Prelude.{◌≡◌, ◌+◌, ◌≤◌, ◌++◌, length, codes};
ghost use Rattle.compact_main.specs.Notes.{note_text, status_text, why_text, IsNoted};
ghost use Rattle.compact_main.specs.Notes.{kind_text, cause_text, draw_text, shape_text};
ghost use Rattle.compact_main.specs.Notes.{two_pieces_text, meeting_text, around};
ghost use Rattle.compact_main.specs.Notes.{cert_kind_text, check_text, unproved_text, entry_text};
ghost use Rattle.cert_text.specs.Texts.{axis_text};
ghost use Rattle.compact_main.specs.inner.NoteRooms.{IsAppended};

use crate::note::Note;
use crate::status::{Status, Unproved, Why};
use cert_check::CheckFault;
use cert_text::CertKind;
use compact_types::Axis;
use drawing_check::ShapeFault;
use drawing_read::DrawFault;
use gml_text::{GmlKind, NumberFault};
use io_ends::{Sink, write_all};

/// Tells the user in one line how a run ended that was not done, without taking memory. If the text
/// was too long, the line names the limit. A fault of `notes` changes nothing but its count.
pub(crate) fn notify<N: Sink>(notes: &mut N, limit: usize, status: Status)
    ensures { IsNoted (note_text limit status)
        (N.held notes.old) (N.held notes.new) (N.faults notes.old) (N.faults notes.new) }
{
    let note = note_of(limit, status);
    let _ = write_all(notes, note.as_slice());
}

/// The line for a status.
fn note_of(limit: usize, status: Status) -> Note
    ensures { result ≡ note_text limit status }
{
    let mut note = Note::new();
    push_status(&mut note, limit, status);
    note.push(b"\n");
    note
}

/// The line without its line feed.
fn push_status(note: &mut Note, limit: usize, status: Status)
    ensures added { IsAppended note.old note.new (status_text limit status) }
    ensures short { length (status_text limit status) ≤ 200 }
{
    match status {
        Status::Done => note.push(b""),
        Status::Refused(why) => {
            note.push(b"refused: ");
            push_why(note, limit, why);
        }
        Status::BadWords => note.push(
            b"usage: draw [--workers N] [--pitch N] [--plain] \
            | check | measure | verify | sample N",
        ),
        Status::ReadFault => note.push(b"read fault"),
        Status::WriteFault => note.push(b"write fault"),
        Status::NoMemory => note.push(b"no memory"),
        Status::NotProved(unproved) => {
            note.push(b"not proved: ");
            push_unproved(note, unproved);
        }
    }
}

/// Why a text is refused.
fn push_why(note: &mut Note, limit: usize, why: Why)
    ensures added { IsAppended note.old note.new (why_text limit why) }
    ensures short { length (why_text limit why) ≤ 150 }
{
    match why {
        Why::TooLong => push_too_long(note, limit),
        Why::Gml(fault) => note.push_at(kind_of(fault.kind), fault.at),
        Why::Draw(fault) => push_draw_fault(note, fault),
        Why::Shape(fault) => push_shape_fault(note, fault),
    }
}

/// A text has more bytes than the limit.
fn push_too_long(note: &mut Note, limit: usize)
    ensures added { IsAppended note.old note.new
        (around (codes "more than ") limit (codes " bytes")) }
    ensures short { length (around (codes "more than ") limit (codes " bytes")) ≤ 40 }
{
    note.push(b"more than ");
    note.push_number(limit);
    note.push(b" bytes");
}

/// What is wrong with a text of which this fault is the first.
fn kind_of(kind: GmlKind) -> &'static [u8]
    ensures is { result.now ≡ kind_text kind }
    ensures short { length (kind_text kind) ≤ 20 }
{
    match kind {
        GmlKind::BadKey => b"bad key",
        GmlKind::BadValue => b"bad value",
        GmlKind::BadNumeral => b"bad numeral",
        GmlKind::OpenString => b"string not closed",
        GmlKind::OpenList => b"list not closed",
        GmlKind::StrayClose => b"stray close",
        GmlKind::TooDeep => b"too deep",
    }
}

/// Why a tree is no drawing.
fn push_draw_fault(note: &mut Note, fault: DrawFault)
    ensures added { IsAppended note.old note.new (draw_text fault) }
    ensures short { length (draw_text fault) ≤ 80 }
{
    match fault {
        DrawFault::NoGraph => note.push(b"no graph"),
        DrawFault::TwoGraphs => note.push(b"two graphs"),
        DrawFault::Empty => note.push(b"no node"),
        DrawFault::NoId(node) => note.push_around(b"node ", node, b" has no id"),
        DrawFault::BadId(node) => note.push_around(b"node ", node, b" has a bad id"),
        DrawFault::RepeatedId(node) => note.push_around(b"node ", node, b" repeats an id"),
        DrawFault::NoPlace(node) => note.push_around(b"node ", node, b" has no place"),
        DrawFault::BadNumber { at, cause } => note.push_at(cause_of(cause), at),
        DrawFault::NoEnd(edge) => note.push_around(b"edge ", edge, b" lacks an end"),
        DrawFault::UnknownEnd(edge) => note.push_around(b"edge ", edge, b" names no node"),
        DrawFault::BadPoint { edge, point } => {
            note.push_around(b"edge ", edge, b" has a bad point ");
            note.push_number(point);
        }
        DrawFault::TooManyVertices(count) => note.push_around(b"", count, b" vertices"),
        DrawFault::TooManyPieces(count) => note.push_around(b"", count, b" pieces"),
    }
}

/// Why a number is no coordinate.
fn cause_of(cause: NumberFault) -> &'static [u8]
    ensures is { result.now ≡ cause_text cause }
    ensures short { length (cause_text cause) ≤ 20 }
{
    match cause {
        NumberFault::TooFine => b"number too fine",
        NumberFault::OutOfRange => b"number out of range",
    }
}

/// Why places are no drawing.
fn push_shape_fault(note: &mut Note, fault: ShapeFault)
    ensures added { IsAppended note.old note.new (shape_text fault) }
    ensures short { length (shape_text fault) ≤ 120 }
{
    match fault {
        ShapeFault::ZeroPiece(piece) => {
            note.push_around(b"piece ", piece, b" has no length");
        }
        ShapeFault::Slanted(piece) => note.push_around(b"piece ", piece, b" is slanted"),
        ShapeFault::Disconnected(vertex) => {
            note.push_around(b"vertex ", vertex, b" is not joined");
        }
        ShapeFault::Meeting { p, q, x, y } => push_meeting(note, p, q, x, y),
    }
}

/// Why a text is not proved.
fn push_unproved(note: &mut Note, unproved: Unproved)
    ensures added { IsAppended note.old note.new (unproved_text unproved) }
    ensures short { length (unproved_text unproved) ≤ 120 }
{
    match unproved {
        Unproved::Cert(fault) => push_cert_fault(note, fault.line, fault.kind),
        Unproved::NotWhole(vertex) => {
            note.push_around(b"vertex ", vertex, b" is not on the grid");
        }
        Unproved::Check(fault) => push_check_fault(note, fault),
    }
}

/// What is wrong with the line of a certificate.
fn push_cert_fault(note: &mut Note, line: u32, kind: CertKind)
    ensures added { IsAppended note.old note.new (cert_kind_text line kind) }
    ensures short { length (cert_kind_text line kind) ≤ 60 }
{
    match kind {
        CertKind::NoCertificate => note.push(b"no certificate"),
        CertKind::BadLine => note.push_around(b"line ", line, b" is bad"),
        CertKind::MissingBranch => note.push_around(b"line ", line, b" lacks a branch"),
        CertKind::TrailingLine => note.push_around(b"line ", line, b" is too many"),
    }
}

/// Why a certificate does not show that its drawing is the best.
fn push_check_fault(note: &mut Note, fault: CheckFault)
    ensures added { IsAppended note.old note.new (check_text fault) }
    ensures short { length (check_text fault) ≤ 100 }
{
    match fault {
        CheckFault::NotFromZero => note.push(b"not from zero"),
        CheckFault::BadPair { entry } => push_entry(note, entry, b" names a bad pair"),
        CheckFault::Unbalanced { entry, axis, node } => {
            push_entry(note, entry, b" is not balanced at ");
            note.push(name_of(axis));
            note.push(b" node ");
            note.push_number(node);
        }
        CheckFault::WeakBound { entry, .. } => push_entry(note, entry, b" has too weak a bound"),
        CheckFault::NotACycle { entry, .. } => push_entry(note, entry, b" is not a cycle"),
        CheckFault::NoArc { entry, axis, arc } => {
            push_entry(note, entry, b" has no arc ");
            note.push_number(arc);
            note.push(b" in ");
            note.push(name_of(axis));
        }
    }
}

/// The name of the axis.
fn name_of(axis: Axis) -> &'static [u8]
    ensures is { result.now ≡ axis_text axis }
    ensures short { length (axis_text axis) ≤ 1 }
{
    match axis {
        Axis::X => b"x",
        Axis::Y => b"y",
    }
}

/// Adds an entry of a certificate by its number, and what is wrong with it.
fn push_entry(note: &mut Note, entry: u64, wrong: &[u8])
    ensures added { IsAppended note.old note.new (entry_text entry wrong.now) }
    ensures short { length (entry_text entry wrong.now) ≤ 26 + length wrong.now }
{
    note.push(b"entry ");
    note.push_number(entry);
    note.push(wrong);
}

/// Adds two pieces by their numbers, and where they meet.
fn push_meeting(note: &mut Note, p: u32, q: u32, x: i64, y: i64)
    ensures added { IsAppended note.old note.new (two_pieces_text p q ++ meeting_text x y) }
    ensures short { length (two_pieces_text p q ++ meeting_text x y) ≤ 100 }
{
    note.push_around(b"pieces ", p, b" and ");
    note.push_number(q);
    note.push(b" meet at ");
    note.push_number(x);
    note.push(b" ");
    note.push_number(y);
}
