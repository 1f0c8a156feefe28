//! What is wrong with the text of a certificate.

/// The kinds of faults, numbered from 1 in this order.
#[derive(Clone, Copy, Debug, PartialEq, Eq)]
pub enum CertKind {
    /// No line begins as the head line of a certificate.
    NoCertificate,
    /// The line is not one of a certificate, or lacks its line feed, while a branch is to come.
    BadLine,
    /// The text ends after whole lines while a branch is to come.
    MissingBranch,
    /// The tree is whole, and bytes follow.
    TrailingLine,
}

/// A fault with its line, counted from 1 at the certificate's head line; 0 where there is none.
#[derive(Clone, Copy, Debug, PartialEq, Eq)]
pub struct CertFault {
    pub line: u32,
    pub kind: CertKind,
}
