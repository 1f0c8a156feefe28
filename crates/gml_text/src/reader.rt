//! The reader of a text: the lists that are open, and one pass over the bytes.

ghost use Rattle.std.specs.Prelude.{◌≤◌, length};
ghost use Rattle.compact_types.specs.Refusals.{Gives};
ghost use Rattle.gml_text.specs.declared.limits.TheConstants.{MOST_BYTES};
ghost use Rattle.gml_text.specs.inner.Reading as machine;

mod steps;

use crate::fault::GmlFault;
use crate::tree::{Pair, Tree};
use compact_types::{Items, Refusal};
use std::alloc::Global;

/// The tree of the text or its first fault.
pub(crate) fn read(alloc: Global, bytes: &[u8]) -> Result<Tree, Refusal<GmlFault>>
    requires { length bytes.now ≤ MOST_BYTES }
    ensures { Gives result (machine.answer_of bytes.now) }
{
    let mut reader = Reader {
        parents: Items::new(alloc),
        pairs: Items::new(alloc),
        at: 0,
    };
    while (reader.at as usize) < bytes.len() {
        let (_, text) = bytes.split_at(reader.at as usize);
        reader = steps::step(alloc, reader, text)?;
    }
    steps::finish(reader).map_err(Refusal::Fault)
}

/// What was read of a text, up to a place where a key may stand.
#[derive(Debug, Drop)]
pub(crate) struct Reader {
    /// The lists around the innermost open one, the outermost first.
    pub(crate) parents: Items<Parent>,
    /// The pairs of the innermost open list.
    pub(crate) pairs: Items<Pair>,
    /// How many bytes were read.
    pub(crate) at: u32,
}

/// What was read of the list around an open list.
#[derive(Debug, Drop)]
pub(crate) struct Parent {
    pub(crate) before: Items<Pair>,
    /// The key of the open list.
    pub(crate) key: Items<u8>,
    /// Where the `[` of the open list stands.
    pub(crate) at: u32,
}
