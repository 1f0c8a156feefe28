//! Texts that end with no certificate.

use crate::tests::reading::{behind_head, read};
use crate::{CertFault, CertKind};
use compact_types::Refusal;
use std::alloc::Global;
use std::test::Fail;

fn fault_of(alloc: Global, text: &[u8]) -> Option<CertFault> {
    match read(alloc, text) {
        Some(Err(Refusal::Fault(fault))) => Some(fault),
        _ => None,
    }
}

#[test]
fn refuses_heads(rt: HostRuntime) {
    for (text, line, kind) in [
        ("", 0, CertKind::NoCertificate),
        ("#! compaction", 0, CertKind::NoCertificate),
        (
            " #! compaction 1 pitch 1\n#! bound x y\n",
            0,
            CertKind::NoCertificate,
        ),
        (
            "#! compaction 2 pitch 1\n#! bound x y\n",
            1,
            CertKind::BadLine,
        ),
        (
            "#! compaction 1 pitch 0\n#! bound x y\n",
            1,
            CertKind::BadLine,
        ),
        (
            "#! compaction 1 pitch 01\n#! bound x y\n",
            1,
            CertKind::BadLine,
        ),
        (
            "#! compaction 1 pitch 10001\n#! bound x y\n",
            1,
            CertKind::BadLine,
        ),
        (
            "#! compaction 1 pitch 1 \n#! bound x y\n",
            1,
            CertKind::BadLine,
        ),
        ("#! compaction 1 pitch 1", 1, CertKind::BadLine),
        (
            "#! compaction 1 pitch 1\n#! bound x y\n#! compaction ",
            1,
            CertKind::BadLine,
        ),
    ] {
        let fault = fault_of(rt.alloc(), text.as_bytes());
        assert_eq!(rt; fault, Some(CertFault { line, kind }), "at {text}");
    }
}

#[test]
fn refuses_entries(rt: HostRuntime) -> Result<(), Fail> {
    for (rest, line, kind) in [
        ("", 2, CertKind::MissingBranch),
        ("#! split 0 1\n#! bound x y\n", 4, CertKind::MissingBranch),
        ("#! bound x y\n#", 3, CertKind::TrailingLine),
        ("#! bound x y\n\n", 3, CertKind::TrailingLine),
        ("\n", 2, CertKind::BadLine),
        ("#! bound x y", 2, CertKind::BadLine),
        (
            "#! split 0 1\n#! bound x y\n#! bound x 1:0 y\n",
            4,
            CertKind::BadLine,
        ),
        ("#! bound x y \n", 2, CertKind::BadLine),
        ("#! bound x  0:1 y\n", 2, CertKind::BadLine),
        ("#! bound x 0:1\n", 2, CertKind::BadLine),
        ("#! bound x 0:1 y 00:1\n", 2, CertKind::BadLine),
        ("#! bound x 0:1 y 0:01\n", 2, CertKind::BadLine),
        ("#! bound x 1:1 1:1 y\n", 2, CertKind::BadLine),
        ("#! bound x 0:0 y\n", 2, CertKind::BadLine),
        ("#! bound x 0:1000000000000000 y\n", 2, CertKind::BadLine),
        ("#! bound x y 1000000000:1\n", 2, CertKind::BadLine),
        ("#! cycle x\n", 2, CertKind::BadLine),
        ("#! cycle y 2 01\n", 2, CertKind::BadLine),
        ("#! cycle z 0\n", 2, CertKind::BadLine),
        ("#! split 1\n", 2, CertKind::BadLine),
        ("#! split 1 1000000000\n", 2, CertKind::BadLine),
    ] {
        let text = behind_head(rt.alloc(), rest.as_bytes())?;
        let fault = fault_of(rt.alloc(), text.as_slice());
        assert_eq!(rt; fault, Some(CertFault { line, kind }), "at {rest}");
    }
    Ok(())
}
