//! Hostile texts: cut off, with numerals past all bounds, with a mark before the first byte, and as
//! many or as deep lists as may be.

use crate::tests::certified::joined;
use crate::tests::refusals::{no_drawing, no_gml, no_number};
use crate::tests::rows::*;
use crate::tests::texts::*;
use drawing_read::DrawFault;
use gml_text::{GmlKind, NumberFault};
use std::test::Fail;

/// How many empty lists with a key of one letter fit into a text.
const MOST_LISTS: usize = 1_398_101;

const NO_GRAPH: &[u8] = b"refused: no graph\n";

const VALUE_3: &[u8] = b"refused: bad value at byte 3\n";

const VALUE_6: &[u8] = b"refused: bad value at byte 6\n";

const OPEN_LIST: &[u8] = b"refused: list not closed at byte 6\n";

const KEY_0: &[u8] = b"refused: bad key at byte 0\n";

const OUT_OF_RANGE: &[u8] = b"refused: number out of range at byte 35\n";

const TOO_FINE: &[u8] = b"refused: number too fine at byte 35\n";

/// 64 lists, each in the one before it, are closed.
const CLOSING: &[u8] = &[b']'; 64];

#[test]
fn ends_by_hostile_texts(rt: HostRuntime) -> Result<(), Fail> {
    use GmlKind::{BadKey, BadValue, OpenList};
    use NumberFault::{OutOfRange, TooFine};
    let alloc = rt.alloc();
    let marked = joined(alloc, b"\xef\xbb\xbf", TWO_NODES)?;
    let deep = joined(alloc, &LISTS_65[..128], CLOSING)?;
    let mut many = Vec::new(alloc);
    for _ in 0..MOST_LISTS {
        many.extend_from_slice(b"a[]")?;
    }
    let rows = [
        no_gml("3 bytes", b"gra", BadValue, 3, VALUE_3),
        no_gml("6 bytes", b"graph ", BadValue, 6, VALUE_6),
        no_gml("8 bytes", b"graph [ ", OpenList, 6, OPEN_LIST),
        no_gml("a mark first", marked.as_slice(), BadKey, 0, KEY_0),
        no_number("vast", VAST, OutOfRange, OUT_OF_RANGE),
        no_number("tiny", TINY, TooFine, TOO_FINE),
        drawn("a vast power of nothing", VAST_NOTHING, ONE_NODE_DRAWN),
        no_drawing("many lists", many.as_slice(), DrawFault::NoGraph, NO_GRAPH),
        no_drawing("64 lists", deep.as_slice(), DrawFault::NoGraph, NO_GRAPH),
    ];
    for row in &rows {
        assert_long(&rt, alloc, row)?;
    }
    Ok(())
}
