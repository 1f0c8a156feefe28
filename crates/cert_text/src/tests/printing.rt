//! Texts of certificates.

ghost use Rattle.std.specs.Prelude.{◌≡◌, IfOk};
ghost use Rattle.cert_text.specs.Certificates.{IsPitch};
ghost use Rattle.cert_text.specs.Loads.{AreLoads, IsCertTree};

use crate::{CertNode, CertTree, Load, print_cert, with_cert};
use compact_types::{Axis, Items, NoMemory};
use std::alloc::Global;
use std::test::Fail;

/// Both arcs of a graph without choices, each with its pull as the amount.
const PLAIN: [Load; 2] = [Load { arc: 0, amount: 1 }, Load { arc: 1, amount: 1 }];

/// The flow that goes round arc 0 by the arcs 1 and 2.
const AROUND: [Load; 2] = [Load { arc: 1, amount: 2 }, Load { arc: 2, amount: 1 }];

/// The greatest numbers of a load.
const GREATEST: [Load; 1] = [Load {
    arc: 999_999_999,
    amount: 999_999_999_999_999,
}];

fn bound(alloc: Global, x: &[Load], y: &[Load]) -> Result<CertNode, NoMemory>
    ensures { IfOk result (λ node. node ≡ CertNode.Bound x.now y.now) }
{
    let x = Items::from_slice(alloc, x)?;
    let y = Items::from_slice(alloc, y)?;
    Ok(CertNode::Bound { x, y })
}

fn cycle(alloc: Global, axis: Axis, arcs: &[u32]) -> Result<CertNode, NoMemory>
    ensures { IfOk result (λ node. node ≡ CertNode.Cycle axis arcs.now) }
{
    let arcs = Items::from_slice(alloc, arcs)?;
    Ok(CertNode::Cycle { axis, arcs })
}

/// The certificate of one bound.
fn one_bound(alloc: Global, x: &[Load], y: &[Load]) -> Result<CertTree, NoMemory>
    requires x { AreLoads x.now }
    requires y { AreLoads y.now }
    ensures { IfOk result (λ tree. IsCertTree tree.nodes) }
{
    let mut nodes = Items::new(alloc);
    nodes.push(bound(alloc, x, y)?)?;
    Ok(CertTree { nodes })
}

/// The certificate of a drawing whose shape leaves one pair of segments to choose.
fn one_split(alloc: Global) -> Result<CertTree, NoMemory>
    ensures { IfOk result (λ tree. IsCertTree tree.nodes) }
{
    let mut nodes = Items::new(alloc);
    nodes.push(CertNode::Split { s: 1, t: 3 })?;
    nodes.push(bound(alloc, &AROUND, &PLAIN)?)?;
    nodes.push(cycle(alloc, Axis::X, &[0, 2])?)?;
    nodes.push(cycle(alloc, Axis::Y, &[0, 2])?)?;
    nodes.push(bound(alloc, &PLAIN, &AROUND)?)?;
    Ok(CertTree { nodes })
}

/// The text of `one_split`.
const ONE_SPLIT: &[u8] = b"#! compaction 1 pitch 1\n\
    #! split 1 3\n\
    #! bound x 1:2 2:1 y 0:1 1:1\n\
    #! cycle x 0 2\n\
    #! cycle y 0 2\n\
    #! bound x 0:1 1:1 y 1:2 2:1\n";

/// Whether this is the text of the certificate, printed alone and after another text.
fn is_text(alloc: Global, tree: &CertTree, pitch: u32, expected: &[u8]) -> Result<bool, NoMemory>
    requires tree { IsCertTree tree.now.nodes }
    requires pitch { IsPitch pitch }
{
    let printed = print_cert(alloc, tree, pitch)?;
    let front = Items::from_slice(alloc, b"graph [\n]\n")?;
    let appended = with_cert(front, tree, pitch)?;
    let mut both = Items::from_slice(alloc, b"graph [\n]\n")?;
    both.extend_from_slice(expected)?;
    Ok(printed.as_slice() == expected && appended.as_slice() == both.as_slice())
}

#[test]
fn texts_of_certificates(rt: HostRuntime) -> Result<(), Fail> {
    let alloc = rt.alloc();
    let nothing = b"#! compaction 1 pitch 1\n#! bound x y\n";
    assert!(rt; is_text(alloc, &one_bound(alloc, &[], &[])?, 1, nothing)?);
    assert!(rt; is_text(alloc, &one_split(alloc)?, 1, ONE_SPLIT)?);
    let greatest = b"#! compaction 1 pitch 10000\n\
        #! bound x 999999999:999999999999999 y 0:1 1:1\n";
    assert!(rt;
        is_text(
            alloc,
            &one_bound(alloc, &GREATEST, &PLAIN)?,
            10_000,
            greatest
        )?
    );
    Ok(())
}
