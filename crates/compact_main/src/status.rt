//! How a run ended.

ghost use Rattle.std.specs.Prelude.{◌≡◌};
ghost use Rattle.compact_main.specs.Statuses.{number_of_status, status_of};

use cert_check::CheckFault;
use cert_text::CertFault;
use drawing_check::ShapeFault;
use drawing_read::DrawFault;
use gml_text::GmlFault;

/// Why a text is refused.
#[derive(Clone, Copy, Debug, PartialEq, Eq)]
pub enum Why {
    /// It has more bytes than the command reads.
    TooLong,
    /// It is no GML text.
    Gml(GmlFault),
    /// Its tree is no drawing.
    Draw(DrawFault),
    /// The drawing is not straight, not connected, or has a crossing.
    Shape(ShapeFault),
}

/// Why a text that holds a drawing does not show that it is the shortest.
#[derive(Clone, Copy, Debug, PartialEq, Eq)]
pub enum Unproved {
    /// It does not end with a certificate.
    Cert(CertFault),
    /// This vertex does not stand on the grid of the certificate's pitch.
    NotWhole(u32),
    /// The certificate does not show it.
    Check(CheckFault),
}

/// Why a command has no answer for a text.
#[derive(Clone, Copy, Debug, PartialEq, Eq)]
pub enum Failure {
    /// It does not accept the text.
    Refused(Why),
    /// It was to verify the text, and that is not proved.
    NotProved(Unproved),
}

/// How a run ended. Its number is what the program exits with.
#[derive(Clone, Copy, Debug, PartialEq, Eq)]
pub enum Status {
    /// All that the command reads was read, and all was written.
    Done,
    /// The command does not accept the text; nothing was written.
    Refused(Why),
    /// The words ask for no command; nothing was read.
    BadWords,
    /// A read failed; nothing was written.
    ReadFault,
    /// A write failed; a front of the output may have been written.
    WriteFault,
    /// Memory was refused; nothing was written.
    NoMemory,
    /// The text holds a drawing, and does not show that it is the shortest; nothing was written.
    NotProved(Unproved),
}

impl Status {
    /// The number that the program exits with.
    pub fn number(self) -> u8
        ensures { result ≡ number_of_status self }
    {
        match self {
            Status::Done => 0,
            Status::Refused(_) => 1,
            Status::BadWords => 2,
            Status::ReadFault => 3,
            Status::WriteFault => 4,
            Status::NoMemory => 5,
            Status::NotProved(_) => 6,
        }
    }
}

impl Failure {
    /// How a run ends that has no answer for its text.
    pub(crate) fn status(self) -> Status
        ensures { result ≡ status_of self }
    {
        match self {
            Failure::Refused(why) => Status::Refused(why),
            Failure::NotProved(unproved) => Status::NotProved(unproved),
        }
    }
}
