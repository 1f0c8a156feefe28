//! How a branch stands.

use crate::entries::Settled;

/// How a branch stands: it waits, or is held by a caller, or is settled.
#[derive(Clone, Copy, Debug, PartialEq, Eq)]
pub enum Standing {
    Waiting,
    Held { who: u32 },
    Done { what: Settled },
}
