//! How a board comes on the table, and its callers get their passes.

ghost use Rattle.std.specs.Prelude.{◌≡◌, ◌+◌, ◌≤◌, IfOk};
ghost use Rattle.ticket_board.specs.Passes.{AreNewcomers};
ghost use Rattle.ticket_board.specs.inner.Dealing.{IsDealer, IsFounded};
ghost use Rattle.ticket_board.specs.inner.Rules.{IsSized};

use crate::boards::TicketBoard;
use crate::passes::Pass;
use crate::plays::Deal;
use crate::rules::{Founding, Place, SharedBoard};
use atomic_table::{Refused, Table};
use board::Board;
use compact_types::{Items, NoMemory};
use shape_graphs::Backing;
use std::alloc::Global;
use std::snapshot::Snapshot;

impl<P: Backing> TicketBoard<P> {
    /// Puts the board on a table of its own, and gives a pass to each of `callers` new callers, in
    /// the order of their numbers. Without memory the board is let go.
    pub fn new(
        alloc: Global,
        board: Board<P>,
        callers: u32,
    ) -> Result<(TicketBoard<P>, Items<Pass>), NoMemory>
        requires some { 1 ≤ callers }
        requires few { callers ≤ 1_000 }
        requires room { board.given ≤ 4_294_966_295 }
        ensures shape { IfOk result (λ made. made.0.shape ≡ board.shape) }
        ensures passes { IfOk result (λ made.
            AreNewcomers made.0 (board.given + 1) callers board.entries made.1) }
    {
        let mut board = board;
        let first = board.given() + 1;
        enlist(&mut board, callers);
        let key = Founding {
            board: Snapshot::of(&board),
            first,
        };
        let mut slots = Vec::with_capacity(alloc, 1)?;
        slots.push_reserved(Some(board));
        match Table::new(alloc, &[0, 0], slots, &key) {
            Ok((table, dealer)) => {
                let passes = deal(alloc, &table.shared, dealer, first, callers)?;
                Ok((TicketBoard { table }, passes))
            }
            Err(Refused { slots: _ }) => Err(NoMemory),
        }
    }
}

/// Enlists that many callers.
fn enlist<P: Backing>(board: &mut Board<P>, callers: u32)
    requires { board.old.given + callers ≤ 4_294_967_295 }
    ensures { board.new ≡ record board.old { given = board.old.given + callers } }
{
    for _ in 0..callers {
        let _number = board.enlist();
    }
}

/// The passes of all callers. The first seat deals the others out, and is the first caller's.
fn deal<P: Backing>(
    alloc: Global,
    desk: &SharedBoard<P>,
    dealer: Place<P>,
    first: u32,
    callers: u32,
) -> Result<Items<Pass>, NoMemory>
    requires table { dealer.table_id ≡ desk.now.table_id }
    requires sized { IsSized desk.now.table_id }
    requires first { desk.now.key.first ≡ first }
    requires numbers { first + callers ≤ 4_294_967_296 }
    requires founded { IsFounded desk.now.key.board.value first callers }
    requires id { dealer.id ≡ 0 }
    requires dealer { IsDealer desk.now.key.board.value first 1 dealer.me }
    ensures { IfOk result (λ passes. let start = desk.now.key.board.value in AreNewcomers
        (record { table = desk.now.table_id; shape = start.shape })
        first callers start.entries passes) }
{
    let mut dealer = dealer;
    let mut passes = Vec::with_capacity(alloc, callers as usize)?;
    for k in 1..callers {
        let seat = desk.split_seat::<Deal>(&mut dealer);
        passes.push_reserved(Pass {
            number: first + k,
            badge: seat.into_badge(),
        });
    }
    passes.insert(
        0,
        Pass {
            number: first,
            badge: dealer.into_badge(),
        },
    )?;
    Ok(Items::from_vec(passes))
}
