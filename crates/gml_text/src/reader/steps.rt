//! What the reader makes of the front of a text: a step for each thing that may stand there.

ghost use Rattle.std.specs.Prelude.{◌≡◌, ◌+◌, ◌<◌, ◌≤◌, length, IfOk};
ghost use Rattle.gml_text.specs.declared.limits.TheConstants.{MOST_BYTES};
ghost use Rattle.gml_text.specs.inner.Reading as machine;

use crate::bytes::{begins_numeral, is_key, is_space, length_before, space_length, word_length};
use crate::fault::{GmlFault, GmlKind};
use crate::limits::MOST_DEPTH;
use crate::marks::{CLOSING_BRACKET, HASH, LINE_FEED, OPENING_BRACKET, QUOTE};
use crate::number::{NumeralKind, numeral_kind};
use crate::reader::{Parent, Reader};
use crate::tree::{Pair, Tree, Value};
use compact_types::{Items, NoMemory, Refusal};
use std::alloc::Global;

/// Takes what stands at the front of `text`: a space, a comment, a `]`, a pair, or a key and a `[`.
#[tactic(auto, unfolding(crate::specs::inner::Reading::reader_step))]
pub(crate) fn step(alloc: Global, reader: Reader, text: &[u8]) -> Result<Reader, Refusal<GmlFault>>
    requires some { 0 < length text.now }
    requires within { reader.at + length text.now ≤ MOST_BYTES }
    ensures step { machine.IsReaderStep result
        (machine.reader_step (machine.reader_state reader) text.now) }
    ensures forward { machine.IsForward result (reader.at + 1) (reader.at + length text.now) }
{
    let first = text[0];
    if is_space(first) {
        Ok(Reader {
            parents: reader.parents,
            pairs: reader.pairs,
            at: reader.at + 1,
        })
    } else if first == HASH {
        Ok(skip_comment(reader, text))
    } else if first == CLOSING_BRACKET {
        close_list(reader)
    } else {
        read_pair(alloc, reader, text)
    }
}

/// The tree, where the text ends outside all lists.
pub(crate) fn finish(reader: Reader) -> Result<Tree, GmlFault>
    ensures { result ≡ machine.finish (machine.reader_state reader) }
{
    let mut parents = reader.parents;
    match parents.pop() {
        None => Ok(Tree {
            pairs: reader.pairs,
        }),
        Some(parent) => Err(GmlFault {
            at: parent.at,
            kind: GmlKind::OpenList,
        }),
    }
}

/// The fault of the text.
fn refuse(at: u32, kind: GmlKind) -> Refusal<GmlFault>
    ensures { result ≡ Refusal.Fault (record { at = at; kind = kind }) }
{
    Refusal::Fault(GmlFault { at, kind })
}

/// Goes over a comment and its line feed, or to the end of the text.
fn skip_comment(reader: Reader, text: &[u8]) -> Reader
    requires some { 0 < length text.now }
    requires within { reader.at + length text.now ≤ MOST_BYTES }
    ensures step { machine.reader_state result ≡
        machine.after_comment (machine.reader_state reader) text.now }
    ensures forward { (reader.at + 1 ≤ result.at) × (result.at ≤ reader.at + length text.now) }
{
    let length = (length_before(text, LINE_FEED) + 1).min(text.len());
    Reader {
        parents: reader.parents,
        pairs: reader.pairs,
        at: reader.at + length as u32,
    }
}

/// Ends the innermost open list at a `]`.
fn close_list(reader: Reader) -> Result<Reader, Refusal<GmlFault>>
    requires { reader.at < MOST_BYTES }
    ensures step { machine.IsReaderStep result (machine.close_list (machine.reader_state reader)) }
    ensures forward { machine.IsForward result (reader.at + 1) (reader.at + 1) }
{
    let mut parents = reader.parents;
    let Some(parent) = parents.pop() else {
        return Err(refuse(reader.at, GmlKind::StrayClose));
    };
    let mut pairs = parent.before;
    pairs.push(Pair {
        key: parent.key,
        value: Value::Inner(Tree {
            pairs: reader.pairs,
        }),
        at: parent.at,
    })?;
    Ok(Reader {
        parents,
        pairs,
        at: reader.at + 1,
    })
}

/// Takes a key, and then its value or the `[` of its list.
fn read_pair(alloc: Global, reader: Reader, text: &[u8]) -> Result<Reader, Refusal<GmlFault>>
    requires { reader.at + length text.now ≤ MOST_BYTES }
    ensures step { machine.IsReaderStep result
        (machine.read_pair (machine.reader_state reader) text.now) }
    ensures forward { machine.IsForward result (reader.at + 1) (reader.at + length text.now) }
{
    let (key, rest) = text.split_at(word_length(text));
    if !is_key(key) {
        return Err(refuse(reader.at, GmlKind::BadKey));
    }
    let (gap, rest) = rest.split_at(space_length(rest));
    let at = reader.at + (key.len() + gap.len()) as u32;
    read_value(alloc, reader, key, at, rest)
}

/// Takes what stands after `key` and white space.
fn read_value(
    alloc: Global,
    reader: Reader,
    key: &[u8],
    at: u32,
    text: &[u8],
) -> Result<Reader, Refusal<GmlFault>>
    requires { at + length text.now ≤ MOST_BYTES }
    ensures step { machine.IsReaderStep result
        (machine.read_value (machine.reader_state reader) key.now at text.now) }
    ensures forward { machine.IsForward result at (at + length text.now) }
{
    match text.first() {
        None => Err(refuse(at, GmlKind::BadValue)),
        Some(first) => {
            if *first == QUOTE {
                read_string(alloc, reader, key, at, text)
            } else if *first == OPENING_BRACKET {
                begin_list(alloc, reader, key, at)
            } else if begins_numeral(*first) {
                read_numeral(alloc, reader, key, at, text)
            } else {
                Err(refuse(at, GmlKind::BadValue))
            }
        }
    }
}

/// Takes a string, whose first quote is the first byte.
fn read_string(
    alloc: Global,
    reader: Reader,
    key: &[u8],
    at: u32,
    text: &[u8],
) -> Result<Reader, Refusal<GmlFault>>
    requires some { 0 < length text.now }
    requires within { at + length text.now ≤ MOST_BYTES }
    ensures step { machine.IsReaderStep result
        (machine.read_string (machine.reader_state reader) key.now at text.now) }
    ensures forward { machine.IsForward result at (at + length text.now) }
{
    let (_, inside) = text.split_at(1);
    let length = length_before(inside, QUOTE);
    if length == inside.len() {
        return Err(refuse(at, GmlKind::OpenString));
    }
    let (inside, _) = inside.split_at(length);
    let value = Value::Text(Items::from_slice(alloc, inside)?);
    Ok(add_pair(alloc, reader, key, at, value, at + length as u32 + 2)?)
}

/// Begins a list at a `[`.
fn begin_list(
    alloc: Global,
    reader: Reader,
    key: &[u8],
    at: u32,
) -> Result<Reader, Refusal<GmlFault>>
    requires { at < MOST_BYTES }
    ensures step { machine.IsReaderStep result
        (machine.begin_list (machine.reader_state reader) key.now at) }
    ensures forward { machine.IsForward result (at + 1) (at + 1) }
{
    let mut parents = reader.parents;
    if parents.len() >= MOST_DEPTH {
        return Err(refuse(at, GmlKind::TooDeep));
    }
    let key = Items::from_slice(alloc, key)?;
    parents.push(Parent {
        before: reader.pairs,
        key,
        at,
    })?;
    Ok(Reader {
        parents,
        pairs: Items::new(alloc),
        at: at + 1,
    })
}

/// Takes a word that begins as a numeral.
fn read_numeral(
    alloc: Global,
    reader: Reader,
    key: &[u8],
    at: u32,
    text: &[u8],
) -> Result<Reader, Refusal<GmlFault>>
    requires some { 0 < length text.now }
    requires within { at + length text.now ≤ MOST_BYTES }
    ensures step { machine.IsReaderStep result
        (machine.read_numeral (machine.reader_state reader) key.now at text.now) }
    ensures forward { machine.IsForward result at (at + length text.now) }
{
    let (word, _) = text.split_at(word_length(text));
    let Some(kind) = numeral_kind(word) else {
        return Err(refuse(at, GmlKind::BadNumeral));
    };
    let lexeme = Items::from_slice(alloc, word)?;
    let value = match kind {
        NumeralKind::Whole => Value::Whole(lexeme),
        NumeralKind::Real => Value::Real(lexeme),
    };
    Ok(add_pair(alloc, reader, key, at, value, at + word.len() as u32)?)
}

/// Adds a pair whose value ends before `end`.
fn add_pair(
    alloc: Global,
    reader: Reader,
    key: &[u8],
    at: u32,
    value: Value,
    end: u32,
) -> Result<Reader, NoMemory>
    ensures { IfOk result (λ next. machine.reader_state next ≡
        machine.with_pair (machine.reader_state reader)
        (record { key = key.now; value = value; at = at }) end) }
{
    let key = Items::from_slice(alloc, key)?;
    let mut pairs = reader.pairs;
    pairs.push(Pair { key, value, at })?;
    Ok(Reader {
        parents: reader.parents,
        pairs,
        at: end,
    })
}
