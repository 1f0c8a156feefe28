//! End to end: certificates that were changed, so that they show nothing, and one that is deep.

ghost use Rattle.std.specs.Prelude.{◌≤◌};

use crate::status::Unproved;
use crate::tests::certificates::*;
use crate::tests::certified::joined;
use crate::tests::flaws::not_proved;
use crate::tests::rows::*;
use crate::tests::texts::TWO_NODES_DRAWN;
use cert_check::CheckFault;
use cert_text::{CertFault, CertKind};
use compact_types::Axis;
use std::alloc::{AllocError, Global};
use std::process::Abort;
use std::test::Fail;
use std::thread::Threads;

/// A change of the best drawing of the hook with its certificate, at the first place where the old
/// words stand.
#[derive(Clone, Copy)]
struct Change<'a> {
    old: &'a str,
    new: &'a str,
    unproved: Unproved,
    line: &'a [u8],
}

/// The text with the new words in place of the first old ones.
fn changed(alloc: Global, text: &str, old: &str, new: &str) -> Result<String, Fail> {
    let (before, after) = text.split_once(old).ok_or("the old words")?;
    let mut changed = String::from_str(alloc, before)?;
    changed.push_str(new)?;
    changed.push_str(after)?;
    Ok(changed)
}

fn assert_change<R: Abort + Threads + Sync>(
    rt: &R,
    alloc: Global,
    change: &Change,
) -> Result<(), Fail> {
    let hook = String::from_utf8(joined(alloc, HOOK_DRAWN, HOOK_CERTIFICATE)?).map_err(
        |_| "not a text",
    )?;
    let text = changed(alloc, hook.as_str(), change.old, change.new)?;
    let row = not_proved(change.new, text.as_bytes(), change.unproved, change.line);
    assert_run(rt, alloc, &row)
}

/// What the check finds in a changed certificate.
fn no_check<'a>(old: &'a str, new: &'a str, fault: CheckFault, line: &'a [u8]) -> Change<'a> {
    Change {
        old,
        new,
        unproved: Unproved::Check(fault),
        line,
    }
}

#[test]
fn finds_each_change_of_a_certificate(rt: HostRuntime) -> Result<(), Fail> {
    let (axis, entry, node, arc) = (Axis::X, 1, 0, 9);
    let unbalanced = CheckFault::Unbalanced { entry, axis, node };
    let no_arc = CheckFault::NoArc { entry, axis, arc };
    let bad_line = CertFault {
        line: 3,
        kind: CertKind::BadLine,
    };
    let bad_pair = CheckFault::BadPair { entry: 0 };
    let (entry, place) = (2, 0);
    let no_cycle = CheckFault::NotACycle { entry, place };
    let no_arc_9 = b"not proved: entry 1 has no arc 9 in x\n";
    let line_3_bad = b"not proved: line 3 is bad\n";
    let pair_bad = b"not proved: entry 0 names a bad pair\n";
    let changes = [
        no_check("1:2", "1:999999999999999", unbalanced, UNBALANCED),
        no_check("2:1", "9:1", no_arc, no_arc_9),
        Change {
            unproved: Unproved::Cert(bad_line),
            ..no_check("1:2", "1:02", unbalanced, line_3_bad)
        },
        no_check("split 1 3", "split 3 1", bad_pair, pair_bad),
        no_check("split 1 3", "split 1 4", bad_pair, pair_bad),
        no_check("split 1 3", "split 0 2", bad_pair, pair_bad),
        Change {
            unproved: Unproved::NotWhole(1),
            ..no_check("pitch 1", "pitch 2", bad_pair, OFF_THE_GRID)
        },
        no_check("cycle x 0 2", "cycle x 999999999", no_cycle, NO_CYCLE),
    ];
    for change in &changes {
        assert_change(&rt, rt.alloc(), change)?;
    }
    Ok(())
}

/// The certificate of the hook with its pair split again and again in the first branch.
fn deep_certificate(alloc: Global, splits: u32) -> Result<String, AllocError>
    requires { splits ≤ 1_000 }
{
    let mut text = String::from_str(alloc, "#! compaction 1 pitch 1\n")?;
    for _ in 0..splits {
        text.push_str("#! split 1 3\n")?;
    }
    text.push_str("#! bound x 1:2 2:1 y 0:1 1:1\n")?;
    for above in 1..splits {
        // The arc after the two of the pieces and those of the splits above.
        let arc = splits - above + 2;
        let cycle = format!(in alloc; "#! cycle x 0 {arc}\n#! cycle y 0 2\n")?;
        text.push_str(cycle.as_str())?;
        text.push_str("#! bound x 1:2 2:1 y 1:2 2:1\n")?;
    }
    text.push_str("#! cycle x 0 2\n#! cycle y 0 2\n#! bound x 0:1 1:1 y 1:2 2:1\n")?;
    Ok(text)
}

#[test]
fn verifies_forged_certificates(rt: HostRuntime) -> Result<(), Fail> {
    let alloc = rt.alloc();
    let deep = deep_certificate(alloc, 200)?;
    let hook = joined(alloc, HOOK_DRAWN, deep.as_bytes())?;
    let proved = asked(VERIFY, hook.as_slice(), b"proved: length 5\n");
    assert_long(&rt, alloc, &proved)?;
    // Without its loads.
    let two_nodes = joined(alloc, TWO_NODES_DRAWN, ONE_NODE_CERTIFICATE)?;
    let (entry, axis, node) = (0, Axis::X, 0);
    let fault = Unproved::Check(CheckFault::Unbalanced { entry, axis, node });
    let line = b"not proved: entry 0 is not balanced at x node 0\n";
    assert_run(
        &rt,
        alloc,
        &not_proved("no load", two_nodes.as_slice(), fault, line),
    )
}
