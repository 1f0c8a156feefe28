//! The certificate of a best drawing: what it has to show, its text both ways, and how it is made
//! from a finished search.
//!
//! The layer above relies on the definitions in `specs/`: which entries a drawing's certificate has
//! to have, and the one text of a certificate. `docs/CERTIFICATE.md` says why they suffice.
#![tactic(auto)]

mod fault;
mod law;
mod printing;
mod reading;
#[cfg(test)]
mod tests;
mod tree;
mod trimming;

pub use fault::{CertFault, CertKind};
pub use law::{
    accepted_is_best, certificates_are_comments, made_is_best, printed_certificates_are_read,
    shallower, texts_have_one_answer, whole_trees_are_shallow,
};
pub use printing::{print_cert, with_cert};
pub use reading::read_cert;
pub use tree::{CertNode, CertTree, Load, MOST_NUMBER};
pub use trimming::{MOST_SPLITS, trim};
