//! The laws of histories and boards.

mod facts;
mod histories;

pub use facts::{branch_pairs_settle, choices_are_few, no_open_branch_is_best, splits_name_a_pair};
pub use histories::{
    all_settled, branches_are_told, branches_differ, branches_stay, callers_stay, histories_grow,
    holders_hold, nothing_opens_again, splits_have_children, work_falls,
};
