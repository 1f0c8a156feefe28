//! The pass of a caller.

use crate::views::CallerView;
use atomic_table::Badge;
use std::marker::Model;

/// The right of one caller to its turns on a ticket board, with what it has seen of the board.
/// Contracts see its caller number, the history that it has seen, its own entries in it, and how
/// many turns it has taken. A pass may go to another thread, and has no copy.
#[derive(Drop)]
pub struct Pass {
    pub(crate) number: u32,
    pub(crate) badge: Badge<CallerView>,
}

impl Model for Pass {
    ghost use Rattle.ticket_board.specs.Passes.{PassView};
    ghost use Rattle.ticket_board.specs.inner.Views.{IsPass, pass_of, view_in};

    ghost Value = { PassView };

    ghost view = { λ pass. pass_of pass.badge.table_id (view_in pass.badge.views) };

    ghost invariant = { λ pass. IsPass pass.number pass.badge.views };
}
