//! The answers of a board, and the entries of its history.

use compact_types::NoMemory;

/// The answer to a claim of a branch.
#[derive(Clone, Copy, Debug, PartialEq, Eq)]
pub enum Claim {
    /// The branch is the caller's.
    Yours,
    /// The branch is held or settled.
    Taken,
    /// The board keeps no branch of this number, or keeps other choices for it.
    Stranger,
}

/// The outcome of a branch.
#[derive(Clone, Copy, Debug, PartialEq, Eq)]
pub enum Settled {
    /// Its least key has the two segments `s` and `t` share a point, so four branches were opened,
    /// from the number `first`: one for each side of the pair.
    Split { first: u64, s: u32, t: u32 },
    /// No drawing of the branch comes before the incumbent.
    Closed,
    /// Its least key is that of a drawing, and became the incumbent.
    Improved,
}

/// Why a branch was not settled.
#[derive(Clone, Copy, Debug, PartialEq, Eq)]
pub enum SettleFault {
    /// The branch is not held by the caller.
    NotYours,
    /// Memory was refused.
    NoMemory,
}

/// One event of the search: a caller has claimed a branch, or has settled it.
#[derive(Clone, Copy, Debug, PartialEq, Eq)]
pub enum Entry {
    Claimed { who: u32, id: u64 },
    Settled { who: u32, id: u64, what: Settled },
}

impl From<NoMemory> for SettleFault {
    ghost use Rattle.std.specs.Prelude.{◌≡◌};
    ghost use Rattle.board.specs.declared.entries.SettleFault.TheVariants as faults;

    ghost from_gives = { λ _ fault. fault ≡ faults.NoMemory };

    fn from(_refused: NoMemory) -> SettleFault {
        SettleFault::NoMemory
    }
}
