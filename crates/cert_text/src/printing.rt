//! The text of a certificate.

ghost use Rattle.std.specs.Prelude.{◌≡◌, ◌++◌, codes, decimal, IfOk, OnOk};
ghost use Rattle.cert_text.specs.Certificates.{IsPitch};
ghost use Rattle.cert_text.specs.Loads.{IsCertTree};
ghost use Rattle.cert_text.specs.Texts.{certificate_text, head_line, entry_lines, entry_line};
ghost use Rattle.cert_text.specs.Texts.{loads_text, load_text, arcs_text, axis_text};

use crate::tree::{CertNode, CertTree, Load};
use compact_types::{Axis, Items, NoMemory};
use itoa::{Buffer, Integer};
use std::alloc::Global;

/// The text of the certificate: its head line with the pitch, in units of the drawing's text to a
/// grid step, and a line for each entry.
pub fn print_cert(alloc: Global, tree: &CertTree, pitch: u32) -> Result<Items<u8>, NoMemory>
    requires tree { IsCertTree tree.now.nodes }
    requires pitch { IsPitch pitch }
    ensures { IfOk result (λ text. text ≡ certificate_text pitch tree.now.nodes) }
{
    with_cert(Items::new(alloc), tree, pitch)
}

/// The text with that of the certificate after it. Without memory it is let go.
pub fn with_cert(text: Items<u8>, tree: &CertTree, pitch: u32) -> Result<Items<u8>, NoMemory>
    requires tree { IsCertTree tree.now.nodes }
    requires pitch { IsPitch pitch }
    ensures { IfOk result (λ longer. longer ≡ text ++ certificate_text pitch tree.now.nodes) }
{
    let mut longer = text;
    write_head(&mut longer, pitch)?;
    write_entries(&mut longer, tree.nodes.as_slice())?;
    Ok(longer)
}

/// Adds the head line to `text`.
fn write_head(text: &mut Items<u8>, pitch: u32) -> Result<(), NoMemory>
    ensures { OnOk result (text.new ≡ text.old ++ head_line pitch) }
{
    text.extend_from_slice(b"#! compaction 1 pitch ")?;
    write_number(text, pitch)?;
    text.extend_from_slice(b"\n")
}

/// Adds the lines of the entries to `text`.
#[tactic(auto, using(crate::proofs::PrintedLists::entry_lines_parts))]
fn write_entries(text: &mut Items<u8>, nodes: &[CertNode]) -> Result<(), NoMemory>
    ensures { OnOk result (text.new ≡ text.old ++ entry_lines nodes.now) }
{
    for node in nodes {
        write_entry(text, node)?;
    }
    Ok(())
}

/// Adds the line of an entry to `text`.
fn write_entry(text: &mut Items<u8>, node: &CertNode) -> Result<(), NoMemory>
    ensures { OnOk result (text.new ≡ text.old ++ entry_line node.now) }
{
    match node {
        CertNode::Split { s, t } => write_split(text, *s, *t),
        CertNode::Bound { x, y } => write_bound(text, x.as_slice(), y.as_slice()),
        CertNode::Cycle { axis, arcs } => write_cycle(text, *axis, arcs.as_slice()),
    }
}

/// Adds the line of a split to `text`.
fn write_split(text: &mut Items<u8>, s: u32, t: u32) -> Result<(), NoMemory>
    ensures { OnOk result (text.new ≡
        text.old ++ (codes "#! split " ++ decimal s ++ codes " " ++ decimal t ++ codes "\n")) }
{
    text.extend_from_slice(b"#! split ")?;
    write_number(text, s)?;
    text.extend_from_slice(b" ")?;
    write_number(text, t)?;
    text.extend_from_slice(b"\n")
}

/// Adds the line of a bound to `text`.
fn write_bound(text: &mut Items<u8>, x: &[Load], y: &[Load]) -> Result<(), NoMemory>
    ensures { OnOk result (text.new ≡ text.old ++
        (codes "#! bound x" ++ loads_text x.now ++ codes " y" ++ loads_text y.now ++ codes "\n")) }
{
    text.extend_from_slice(b"#! bound x")?;
    write_loads(text, x)?;
    text.extend_from_slice(b" y")?;
    write_loads(text, y)?;
    text.extend_from_slice(b"\n")
}

/// Adds the loads of one graph to `text`.
#[tactic(auto, using(crate::proofs::PrintedLists::loads_text_parts))]
fn write_loads(text: &mut Items<u8>, loads: &[Load]) -> Result<(), NoMemory>
    ensures { OnOk result (text.new ≡ text.old ++ loads_text loads.now) }
{
    for load in loads {
        write_load(text, *load)?;
    }
    Ok(())
}

/// Adds a load to `text`.
fn write_load(text: &mut Items<u8>, load: Load) -> Result<(), NoMemory>
    ensures { OnOk result (text.new ≡ text.old ++ load_text load) }
{
    text.extend_from_slice(b" ")?;
    write_number(text, load.arc)?;
    text.extend_from_slice(b":")?;
    write_number(text, load.amount)
}

/// Adds the line of a cycle to `text`.
fn write_cycle(text: &mut Items<u8>, axis: Axis, arcs: &[u32]) -> Result<(), NoMemory>
    ensures { OnOk result (text.new ≡ text.old ++
        (codes "#! cycle " ++ axis_text axis ++ arcs_text arcs.now ++ codes "\n")) }
{
    text.extend_from_slice(b"#! cycle ")?;
    write_axis(text, axis)?;
    write_arcs(text, arcs)?;
    text.extend_from_slice(b"\n")
}

/// Adds the name of an axis to `text`.
fn write_axis(text: &mut Items<u8>, axis: Axis) -> Result<(), NoMemory>
    ensures { OnOk result (text.new ≡ text.old ++ axis_text axis) }
{
    match axis {
        Axis::X => text.extend_from_slice(b"x"),
        Axis::Y => text.extend_from_slice(b"y"),
    }
}

/// Adds the arcs of a cycle to `text`.
#[tactic(auto, using(crate::proofs::PrintedLists::arcs_text_parts))]
fn write_arcs(text: &mut Items<u8>, arcs: &[u32]) -> Result<(), NoMemory>
    ensures { OnOk result (text.new ≡ text.old ++ arcs_text arcs.now) }
{
    for arc in arcs {
        write_arc(text, *arc)?;
    }
    Ok(())
}

/// Adds an arc of a cycle to `text`.
fn write_arc(text: &mut Items<u8>, arc: u32) -> Result<(), NoMemory>
    ensures { OnOk result (text.new ≡ text.old ++ (codes " " ++ decimal arc)) }
{
    text.extend_from_slice(b" ")?;
    write_number(text, arc)
}

/// Adds the digits of a number to `text`.
fn write_number<I: Integer>(text: &mut Items<u8>, number: I) -> Result<(), NoMemory>
    ensures { OnOk result (text.new ≡ text.old ++ I.text number) }
{
    let mut buffer = Buffer::new();
    text.extend_from_slice(buffer.format(number).as_bytes())
}
