//! Texts of certificates that are read.

use crate::{CertFault, CertNode, CertTree, Load, read_cert};
use compact_types::{Axis, Items, NoMemory, Refusal};
use std::alloc::Global;
use std::test::Fail;

/// The certificate of a text that is not long.
pub(super) fn read(
    alloc: Global,
    text: &[u8],
) -> Option<Result<(u32, CertTree), Refusal<CertFault>>> {
    if text.len() > 1000 {
        return None;
    }
    Some(read_cert(alloc, text))
}

/// The text behind a head line.
pub(super) fn behind_head(alloc: Global, rest: &[u8]) -> Result<Items<u8>, NoMemory> {
    let mut text = Items::new(alloc);
    text.extend_from_slice(b"#! compaction 1 pitch 1\n")?;
    text.extend_from_slice(rest)?;
    Ok(text)
}

fn is_split(node: Option<&CertNode>, first: u32, second: u32) -> bool {
    match node {
        Some(CertNode::Split { s, t }) => *s == first && *t == second,
        _ => false,
    }
}

fn is_bound(node: Option<&CertNode>, xs: &[Load], ys: &[Load]) -> bool {
    match node {
        Some(CertNode::Bound { x, y }) => x.as_slice() == xs && y.as_slice() == ys,
        _ => false,
    }
}

fn is_cycle(node: Option<&CertNode>, of: Axis, by: &[u32]) -> bool {
    match node {
        Some(CertNode::Cycle { axis, arcs }) => *axis == of && arcs.as_slice() == by,
        _ => false,
    }
}

const fn load(arc: u32, amount: u64) -> Load {
    Load { arc, amount }
}

#[test]
fn reads_a_split(rt: HostRuntime) -> Result<(), Fail> {
    let text = behind_head(
        rt.alloc(),
        b"#! split 1 3\n#! bound x 1:2 2:1 y 0:1 1:1\n#! cycle x 0 2\n#! cycle y 0 2\n\
          #! bound x 0:1 1:1 y 1:2 2:1\n",
    )?;
    let (pitch, tree) = read(rt.alloc(), text.as_slice())
        .ok_or("short")?
        .ok()
        .ok_or("read")?;
    let around = [load(1, 2), load(2, 1)];
    let plain = [load(0, 1), load(1, 1)];
    assert_eq!(rt; pitch, 1);
    assert_eq!(rt; tree.nodes.len(), 5);
    assert!(rt; is_split(tree.nodes.get(0), 1, 3));
    assert!(rt; is_bound(tree.nodes.get(1), &around, &plain));
    assert!(rt; is_cycle(tree.nodes.get(2), Axis::X, &[0, 2]));
    assert!(rt; is_cycle(tree.nodes.get(3), Axis::Y, &[0, 2]));
    assert!(rt; is_bound(tree.nodes.get(4), &plain, &around));
    Ok(())
}

/// The last head line counts, whatever stands before it, and numbers go up to their limits.
#[test]
fn reads_the_last_certificate(rt: HostRuntime) -> Result<(), Fail> {
    let text = b"# #! compaction 1 pitch 9\n#! compaction\n#! compaction 7\n#! cycle x\n\
        #! compaction 1 pitch 10000\n#! bound x 0:1 999999999:999999999999999 y\n";
    let (pitch, tree) = read(rt.alloc(), text).ok_or("short")?.ok().ok_or("read")?;
    let greatest = [load(0, 1), load(999_999_999, 999_999_999_999_999)];
    assert_eq!(rt; pitch, 10_000);
    assert_eq!(rt; tree.nodes.len(), 1);
    assert!(rt; is_bound(tree.nodes.get(0), &greatest, &[]));
    Ok(())
}
