//! The certificate at the end of a text.

ghost use Rattle.std.specs.Prelude.{◌≡◌, ◌↔◌, ◌≤◌, ◌<◌, ◌+◌, [], length, IfOk, IsTrue};
ghost use Rattle.compact_types.specs.Refusals.{Decides, IfFault};
ghost use Rattle.compact_types.specs.declared.refusal.Refusal.TheVariants as refusals;
ghost use Rattle.gml_text.specs.declared.limits.TheConstants.{MOST_BYTES};
ghost use Rattle.cert_text.specs.Certificates.{IsCertificate};
ghost use Rattle.cert_text.specs.Faults.{FirstCertFault, fault_at};
ghost use Rattle.cert_text.specs.Trees.{branches_of};
ghost use Rattle.cert_text.specs.inner.Bodies.{FirstBodyFault, IsBody};

mod entries;
mod heads;
mod lines;
mod loads;
mod numbers;

use crate::fault::{CertFault, CertKind};
use crate::tree::{CertNode, CertTree};
use compact_types::{Items, Refusal};
use entries::entry_in;
use heads::{head_at, last_head};
use lines::line_at;
use std::alloc::Global;

/// The pitch and the tree of the certificate that begins at the last line of the text which begins
/// as a head line, and goes to the text's end; or else the first fault, line by line.
pub fn read_cert(alloc: Global, bytes: &[u8]) -> Result<(u32, CertTree), Refusal<CertFault>>
    requires { length bytes.now ≤ MOST_BYTES }
    ensures answer { Decides result
        (λ found. IsCertificate bytes.now found.0 found.1.nodes)
        (FirstCertFault bytes.now) }
    ensures few { IfOk result (λ found. length found.1.nodes < length bytes.now) }
{
    certificate_in(alloc, bytes)
}

/// The certificate at the end of the text, or a fault. That no other answer is right is a law of
/// the texts.
fn certificate_in(alloc: Global, bytes: &[u8]) -> Result<(u32, CertTree), Refusal<CertFault>>
    requires { length bytes.now ≤ MOST_BYTES }
    ensures value { IfOk result (λ found. IsCertificate bytes.now found.0 found.1.nodes) }
    ensures fault { IfFault result (FirstCertFault bytes.now) }
{
    let Some(at) = last_head(bytes) else {
        return Err(fault(0, CertKind::NoCertificate));
    };
    let Some(head) = head_at(&bytes[at..]) else {
        return Err(fault(1, CertKind::BadLine));
    };
    match read_tree(alloc, head.rest) {
        Ok(nodes) => Ok((head.pitch, CertTree { nodes })),
        Err(refusal) => Err(refusal),
    }
}

/// Reads the lines of a tree's entries, of which the first is the second line of the certificate.
fn read_tree(alloc: Global, text: &[u8]) -> Result<Items<CertNode>, Refusal<CertFault>>
    requires { length text.now ≤ MOST_BYTES }
    ensures value { IfOk result (IsBody text.now) }
    ensures fault { IfFault result (FirstBodyFault text.now) }
{
    let mut nodes = Items::new(alloc);
    let mut rest = text;
    let mut left: usize = 1;
    while left > 0 {
        if is_end(rest) {
            return Err(fault(nodes.len() + 2, CertKind::MissingBranch));
        }
        let Some(first) = line_at(rest) else {
            return Err(fault(nodes.len() + 2, CertKind::BadLine));
        };
        let Some(node) = entry_in(alloc, first.line)? else {
            return Err(fault(nodes.len() + 2, CertKind::BadLine));
        };
        left = left - 1 + branches(&node);
        nodes.push(node)?;
        rest = first.rest;
    }
    if !is_end(rest) {
        return Err(fault(nodes.len() + 2, CertKind::TrailingLine));
    }
    Ok(nodes)
}

/// Whether nothing is left of the text.
fn is_end(rest: &[u8]) -> bool
    ensures { IsTrue result ↔ (rest.now ≡ []) }
{
    rest.is_empty()
}

/// How many branches an entry opens.
fn branches(node: &CertNode) -> usize
    ensures { result ≡ branches_of node.now }
{
    match node {
        CertNode::Split { .. } => 4,
        CertNode::Bound { .. } | CertNode::Cycle { .. } => 0,
    }
}

fn fault(line: usize, kind: CertKind) -> Refusal<CertFault>
    requires { line ≤ MOST_BYTES + 2 }
    ensures { result ≡ refusals.Fault (fault_at line kind) }
{
    Refusal::Fault(CertFault {
        line: line as u32,
        kind,
    })
}
