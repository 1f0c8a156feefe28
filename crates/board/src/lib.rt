//! The branches, the incumbent and the history of a branch-and-bound search for the best drawing.
//!
//! The layer above relies on the definitions in `specs/`: legal histories and what stands after
//! them, the tables by which claims and settles are answered, and the facts of a board that hold at
//! all times. A board without an open branch has the best drawing as its incumbent.
#![tactic(auto)]

mod boards;
mod branches;
mod chains;
mod entries;
mod law;
mod standings;
#[cfg(test)]
mod tests;

pub use boards::Board;
pub use entries::{Claim, Entry, SettleFault, Settled};
pub use law::{
    all_settled, branch_pairs_settle, branches_are_told, branches_differ, branches_stay,
    callers_stay, choices_are_few, histories_grow, holders_hold, no_open_branch_is_best,
    nothing_opens_again, splits_have_children, splits_name_a_pair, work_falls,
};
pub use standings::Standing;
