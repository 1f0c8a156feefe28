//! The table that the callers share. Word 0 is the ticket that is drawn next and word 1 the one
//! that is served, both modulo 2^64. The one slot holds the board, and nothing while it is out in a
//! turn.

use crate::views::CallerView;
use atomic_table::{Seat, Shared, TableRule};
use board::Board;
use shape_graphs::Backing;
use std::snapshot::Snapshot;

/// The word of the ticket that is drawn next.
pub(crate) const TICKETS: usize = 0;

/// The word of the ticket that is served.
pub(crate) const SERVED: usize = 1;

/// The slot of the board.
pub(crate) const SLOT: usize = 0;

/// How the board stood when it came on the table, and the number of the first caller.
#[derive(Drop)]
pub(crate) struct Founding<P: Backing> {
    pub board: Snapshot<Board<P>>,
    pub first: u32,
}

/// The callers take turns, in the order of their tickets.
pub(crate) struct InTurns;

impl<P: Backing> TableRule<Option<Board<P>>, CallerView, Founding<P>> for InTurns {
    ghost use Rattle.ticket_board.specs.inner.Rules.{KeepsTicketRule};
    ghost use Rattle.ticket_board.specs.inner.Views.{first_view};

    ghost holds = { λ key. KeepsTicketRule key.board.value key.first };

    ghost first = { λ key. first_view key.board.value key.first };
}

/// What the callers step on.
pub(crate) type SharedBoard<P> = Shared<Option<Board<P>>, CallerView, Founding<P>, InTurns>;

/// A seat at the table.
pub(crate) type Place<P> = Seat<Option<Board<P>>, CallerView>;
