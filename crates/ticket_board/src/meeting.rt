//! How a caller learns what another had seen.

ghost use Rattle.std.specs.Prelude.{◌≡◌, []};
ghost use Rattle.ticket_board.specs.declared.views.Stage.TheVariants.{Idle};
ghost use Rattle.ticket_board.specs.inner.Plays.{IsCompared};
ghost use Rattle.ticket_board.specs.inner.Rules.{IsSized};
ghost use Rattle.ticket_board.specs.inner.Views.{told_of};

use crate::plays::{Compare, Meet};
use crate::rules::{Place, SERVED, SharedBoard};
use shape_graphs::Backing;

/// Spends the other seat. What it had seen is noted, and tells nothing yet.
pub(crate) fn join<P: Backing>(desk: &SharedBoard<P>, seat: &mut Place<P>, other: Place<P>)
    requires table { seat.old.table_id ≡ desk.now.table_id }
    requires other { other.table_id ≡ desk.now.table_id }
    requires sized { IsSized desk.now.table_id }
    requires idle { seat.old.me.0.stage ≡ Idle }
    requires rests { other.me.0.stage ≡ Idle }
    requires empty { other.me.1 ≡ [] }
    ensures table { seat.new.table_id ≡ seat.old.table_id }
    ensures me { seat.new.me ≡ (told_of seat.old.me.0 other.me.0, seat.old.me.1) }
{
    desk.join_seat::<Meet>(seat, other);
}

/// Compares what the seat has seen with what it noted: from now on it has seen the longer of the
/// two, which the other begins.
pub(crate) fn compare<P: Backing>(desk: &SharedBoard<P>, seat: &mut Place<P>)
    requires table { seat.old.table_id ≡ desk.now.table_id }
    requires sized { IsSized desk.now.table_id }
    requires idle { seat.old.me.0.stage ≡ Idle }
    ensures table { seat.new.table_id ≡ seat.old.table_id }
    ensures view { IsCompared seat.old.me.0 seat.new.me.0 }
    ensures held { seat.new.me.1 ≡ seat.old.me.1 }
{
    desk.load::<Compare>(seat, SERVED);
}
