//! The entry of a line.

ghost use Rattle.std.specs.Prelude.{◌≡◌, IfOk};
ghost use Rattle.cert_text.specs.inner.Reading.{bound_read, cycle_of, entry_of, split_of};

use crate::reading::loads::{read_arcs, read_loads};
use crate::reading::numbers::{after_byte, after_word, number_at};
use crate::tree::{CertNode, MOST_NUMBER};
use compact_types::{Axis, Items, NoMemory};
use std::alloc::Global;

/// The entry of a line without its line feed; `None` exactly where the line is no entry's.
#[tactic(auto, unfolding(crate::specs::inner::Reading::entry_of))]
pub(crate) fn entry_in(alloc: Global, line: &[u8]) -> Result<Option<CertNode>, NoMemory>
    ensures { IfOk result (λ entry. entry ≡ entry_of line.now) }
{
    if let Some(text) = after_word(line, b"#! split ") {
        return Ok(split_in(text));
    }
    if let Some(text) = after_word(line, b"#! bound x") {
        return bound_in(alloc, text);
    }
    if let Some(text) = after_word(line, b"#! cycle x") {
        return cycle_in(alloc, Axis::X, text);
    }
    if let Some(text) = after_word(line, b"#! cycle y") {
        return cycle_in(alloc, Axis::Y, text);
    }
    Ok(None)
}

#[tactic(auto, unfolding(crate::specs::inner::Reading::split_of))]
fn split_in(text: &[u8]) -> Option<CertNode>
    ensures { result ≡ split_of text.now }
{
    let s = number_at(text, u64::from(MOST_NUMBER))?;
    let t = number_at(after_byte(s.rest, b' ')?, u64::from(MOST_NUMBER))?;
    if !t.rest.is_empty() {
        return None;
    }
    Some(CertNode::Split {
        s: s.value as u32,
        t: t.value as u32,
    })
}

#[tactic(auto, unfolding(crate::specs::inner::Reading::bound_read))]
fn bound_in(alloc: Global, text: &[u8]) -> Result<Option<CertNode>, NoMemory>
    ensures { IfOk result (λ entry. entry ≡ bound_read text.now) }
{
    let mut x = Items::new(alloc);
    let after_x = read_loads(&mut x, text)?;
    let Some(more) = after_word(after_x, b" y") else {
        return Ok(None);
    };
    let mut y = Items::new(alloc);
    let rest = read_loads(&mut y, more)?;
    if !rest.is_empty() {
        return Ok(None);
    }
    Ok(Some(CertNode::Bound { x, y }))
}

#[tactic(auto, unfolding(crate::specs::inner::Reading::cycle_of))]
fn cycle_in(alloc: Global, axis: Axis, text: &[u8]) -> Result<Option<CertNode>, NoMemory>
    ensures { IfOk result (λ entry. entry ≡ cycle_of axis text.now) }
{
    let mut arcs = Items::new(alloc);
    let rest = read_arcs(&mut arcs, text)?;
    if arcs.is_empty() {
        return Ok(None);
    }
    if !rest.is_empty() {
        return Ok(None);
    }
    Ok(Some(CertNode::Cycle { axis, arcs }))
}
