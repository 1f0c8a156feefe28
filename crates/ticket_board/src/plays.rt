//! The kinds of step on the table. The board is moved out of the slot and into it as plain memory.

ghost use Rattle.ticket_board.specs.inner.Plays.{compared, drew, passed_on, watched};
ghost use Rattle.ticket_board.specs.inner.Views.{dealer_after, dealt_next, nobody, told_of};

use crate::views::CallerView;
use atomic_table::{Join, Play, Split};
use board::Board;
use shape_graphs::Backing;

/// Draws the next ticket: a `fetch_add` on the ticket word.
pub(crate) struct Draw;

impl<P: Backing> Play<Option<Board<P>>, CallerView> for Draw {
    ghost then = { drew };
}

/// Looks whether the ticket is served, and then takes the slot: a load of the serving word.
pub(crate) struct Watch;

impl<P: Backing> Play<Option<Board<P>>, CallerView> for Watch {
    ghost then = { watched };
}

/// Ends the turn: a `fetch_add` on the serving word, by which the slot goes home.
pub(crate) struct PassOn;

impl<P: Backing> Play<Option<Board<P>>, CallerView> for PassOn {
    ghost then = { passed_on };
}

/// Compares what was seen with what another had seen: a load of the serving word.
pub(crate) struct Compare;

impl<P: Backing> Play<Option<Board<P>>, CallerView> for Compare {
    ghost then = { compared };
}

/// Deals out one more seat.
pub(crate) struct Deal;

impl Split<CallerView> for Deal {
    ghost left = { dealer_after };

    ghost right = { dealt_next };
}

/// Notes what the other seat had seen, which is spent.
pub(crate) struct Meet;

impl Join<CallerView> for Meet {
    ghost both = { told_of };

    ghost spent = { nobody };
}
