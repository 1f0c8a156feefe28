//! A turn: the caller draws a ticket, waits until it is served, and has the board until it passes
//! the turn on.

ghost use Rattle.std.specs.Prelude.{◌≡◌, ◌%◌, ◌^◌, [], ◌∷◌, Some, None};
ghost use Rattle.board.specs.Boards.{BoardView};
ghost use Rattle.board.specs.Facts.{AreFacts};
ghost use Rattle.board.specs.Histories.{IsLegal};
ghost use Rattle.ticket_board.specs.declared.views.Stage.TheVariants.{Idle, Waiting};
ghost use Rattle.ticket_board.specs.inner.Plays.{IsBoardOf, IsDrawn, IsServed};
ghost use Rattle.ticket_board.specs.inner.Rules.{IsSized};
ghost use Rattle.ticket_board.specs.inner.Turns.{Adds, CanPassOn, HasTakenBoard, IsServing};
ghost use Rattle.ticket_board.specs.inner.Views.{IsResting, after_turn, view_in};

use crate::plays::{Draw, PassOn, Watch};
use crate::rules::{Place, SERVED, SLOT, SharedBoard, TICKETS};
use crate::views::CallerView;
use atomic_table::Badge;
use board::Board;
use crossbeam_utils::Backoff;
use shape_graphs::Backing;
use std::mem;
use std::sync::Wait;

/// Begins a turn: takes the seat out of the badge, waits for the seat's turn, and moves the board
/// out of the slot. The caller has both until the turn ends.
pub(crate) fn begin_turn<P: Backing, R: Wait>(
    rt: &R,
    desk: &SharedBoard<P>,
    badge: &mut Badge<CallerView>,
) -> (Place<P>, Board<P>)
    requires table { badge.old.table_id ≡ desk.now.table_id }
    requires sized { IsSized desk.now.table_id }
    requires rests { IsResting badge.old.views }
    ensures table { result.0.table_id ≡ badge.old.table_id }
    ensures taken { HasTakenBoard (view_in badge.old.views) result.1 result.0.me }
    ensures its { IsBoardOf (view_in badge.old.views) result.1 }
    ensures facts { AreFacts P.objective P.backs result.1 }
{
    let mut seat = sit_down(badge);
    approach(rt, desk);
    let ticket = draw(desk, &mut seat);
    wait_for(rt, desk, &mut seat, ticket);
    let board = move_out(desk, &mut seat);
    let _what_is_known = board.open_count();
    (seat, board)
}

/// Ends the turn: moves the board back into the slot, passes the turn on, and makes a badge of the
/// seat again.
pub(crate) fn end_turn<P: Backing>(
    desk: &SharedBoard<P>,
    seat: Place<P>,
    board: Board<P>,
) -> Badge<CallerView>
    requires table { seat.table_id ≡ desk.now.table_id }
    requires sized { IsSized desk.now.table_id }
    requires serves { IsServing seat.me None }
    requires adds { Adds seat.me.0 board }
    ensures table { result.table_id ≡ seat.table_id }
    ensures views { result.views ≡ after_turn seat.me.0 board.entries ∷ [] }
    ensures legal { IsLegal board.entries }
{
    let mut seat = seat;
    let _what_is_known = board.open_count();
    move_in(desk, &mut seat, board);
    pass_on(desk, &mut seat);
    seat.into_badge()
}

/// The seat of the badge, which is blank from now on.
pub(crate) fn sit_down<P: Backing>(badge: &mut Badge<CallerView>) -> Place<P>
    requires { badge.old.views ≡ view_in badge.old.views ∷ [] }
    ensures table { result.table_id ≡ badge.old.table_id }
    ensures me { result.me ≡ (view_in badge.old.views, []) }
{
    mem::replace(badge, Badge::blank()).into_seat()
}

/// Waits until the next ticket would be served at once, so that few callers wait with a ticket in
/// their hands: a ticket whose caller does not run holds up all later ones. The two loads teach
/// nothing, so another caller may still draw first.
fn approach<P: Backing, R: Wait>(rt: &R, desk: &SharedBoard<P>)
    requires { IsSized desk.now.table_id }
{
    let backoff = Backoff::new();
    for _ in rt.forever() {
        if desk.peek(TICKETS) == desk.peek(SERVED) {
            break;
        }
        backoff.snooze();
    }
}

/// Draws a ticket.
fn draw<P: Backing>(desk: &SharedBoard<P>, seat: &mut Place<P>) -> u64
    requires table { seat.old.table_id ≡ desk.now.table_id }
    requires sized { IsSized desk.now.table_id }
    requires idle { seat.old.me.0.stage ≡ Idle }
    ensures table { seat.new.table_id ≡ seat.old.table_id }
    ensures drawn { IsDrawn seat.old.me result seat.new.me }
{
    desk.fetch_add::<Draw>(seat, TICKETS, 1)
}

/// Waits until the ticket is served.
fn wait_for<P: Backing, R: Wait>(rt: &R, desk: &SharedBoard<P>, seat: &mut Place<P>, ticket: u64)
    requires table { seat.old.table_id ≡ desk.now.table_id }
    requires sized { IsSized desk.now.table_id }
    requires waits { seat.old.me.0.stage ≡ Waiting }
    requires empty { seat.old.me.1 ≡ [] }
    requires ticket { ticket ≡ seat.old.me.0.ticket % 2 ^ 64 }
    ensures table { seat.new.table_id ≡ seat.old.table_id }
    ensures served { IsServed seat.old.me seat.new.me }
{
    let backoff = Backoff::new();
    for _ in rt.forever() {
        if desk.load::<Watch>(seat, SERVED) == ticket {
            return;
        }
        backoff.snooze();
    }
    unreachable!()
}

/// Moves the board out of the slot.
fn move_out<P: Backing>(desk: &SharedBoard<P>, seat: &mut Place<P>) -> Board<P>
    requires table { seat.old.table_id ≡ desk.now.table_id }
    requires full { (board : BoardView P) × IsServing seat.old.me (Some board) }
    ensures table { seat.new.table_id ≡ seat.old.table_id }
    ensures out { IsServing seat.old.me (Some result) }
    ensures me { seat.new.me ≡ (seat.old.me.0, (0, None) ∷ []) }
{
    desk.exchange(seat, SLOT, None).unwrap()
}

/// Moves the board into the slot.
fn move_in<P: Backing>(desk: &SharedBoard<P>, seat: &mut Place<P>, board: Board<P>)
    requires table { seat.old.table_id ≡ desk.now.table_id }
    requires empty { IsServing seat.old.me None }
    ensures table { seat.new.table_id ≡ seat.old.table_id }
    ensures me { seat.new.me ≡ (seat.old.me.0, (0, Some board) ∷ []) }
{
    drop(desk.exchange(seat, SLOT, Some(board)));
}

/// Passes the turn on to the next ticket. The slot goes home with the board.
fn pass_on<P: Backing>(desk: &SharedBoard<P>, seat: &mut Place<P>)
    requires table { seat.old.table_id ≡ desk.now.table_id }
    requires sized { IsSized desk.now.table_id }
    requires full { CanPassOn seat.old.me }
    ensures table { seat.new.table_id ≡ seat.old.table_id }
    ensures me { (board : BoardView P) → seat.old.me.1 ≡ (0, Some board) ∷ [] →
        seat.new.me ≡ (after_turn seat.old.me.0 board.entries, []) }
{
    desk.fetch_add::<PassOn>(seat, SERVED, 1);
}
