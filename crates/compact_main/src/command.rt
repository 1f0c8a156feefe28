//! The commands, and how many bytes of a text each reads.

ghost use Rattle.std.specs.Prelude.{◌≡◌};
ghost use Rattle.compact_main.specs.Intakes.{intake_of, limit_of};
ghost use Rattle.compact_main.specs.inner.Readings.{IsTextLimit};

use gml_text::MOST_BYTES;

/// The most bytes of a text that is drawn, checked or measured: 4 MiB. A text that is verified may
/// have as many as a GML text, 64 MiB.
pub const MOST_INPUT_BYTES: usize = 4_194_304;

/// What the program is asked to do.
#[derive(Clone, Copy, Debug, PartialEq, Eq)]
pub enum Command {
    /// `draw`: the shortest drawing of the text's shape, with `pitch` units between neighbouring
    /// lines of the grid.
    Draw { pitch: u32, form: Form },
    /// `check`: whether the text holds a drawing, and how many vertices and pieces it has.
    Check,
    /// `measure`: how large the text's drawing is, and how many pairs of its segments its shape
    /// alone keeps apart.
    Measure,
    /// `verify`: whether the text's certificate shows that its drawing is the shortest of its
    /// shape.
    Verify,
    /// `sample N`: how large the best drawing of the sample with `number` arms is.
    Sample { number: u32 },
}

/// What `draw` writes of the shortest drawing.
#[derive(Clone, Copy, Debug, PartialEq, Eq)]
pub enum Form {
    /// The drawing alone.
    Plain,
    /// The drawing, followed by a certificate that shows that it is the shortest.
    Certified,
}

impl Command {
    /// How many bytes of a text the command reads at most; `None` if it reads no text.
    pub(crate) fn text_limit(self) -> Option<usize>
        ensures { IsTextLimit (intake_of self) result }
    {
        match self {
            Command::Draw { .. } | Command::Check | Command::Measure => Some(MOST_INPUT_BYTES),
            Command::Verify => Some(MOST_BYTES),
            Command::Sample { .. } => None,
        }
    }

    /// How many bytes the command reads at most.
    #[tactic(auto, using(crate::proofs::TextLimits::most_is))]
    pub(crate) fn limit(self) -> usize
        ensures { result ≡ limit_of self }
    {
        self.text_limit().unwrap_or(0)
    }
}
