//! Boards of small drawings.

ghost use Rattle.std.specs.Prelude.{◌≡◌, All, IfOk, IfSome};
ghost use Rattle.compact_types.specs.Drawings.{IsDrawing};
ghost use Rattle.compact_types.specs.Magnitudes.{AreWithin};
ghost use Rattle.compact_types.specs.declared.limits.TheConstants.{GREATEST_THOUSANDTHS};
ghost use Rattle.board.specs.Facts.{IsDrawnKey};

use bars::{Bars, bars_of_points};
use board::Board;
use compact_types::{Items, Key, NoMemory, Places, shift_to_zero};
use shape_graphs::{Backing, Measure};
use std::alloc::Global;
use ticket_board::{Pass, TicketBoard};

/// A new board of the drawing of these points and pieces, with two callers. Its key is that of the
/// drawing, moved to zero. `None` where they make no drawing.
pub(crate) fn board_of<M: Measure>(
    alloc: Global,
    measure: &M,
    points: &[(i32, i32)],
    ends: &[(u32, u32)],
) -> Result<Option<Board<M::Proof>>, NoMemory>
    ensures { IfOk result (λ made. IfSome made (λ board. board.given ≡ 2)) }
{
    let Some((bars, places)) = bars_of_points(alloc, points, ends)? else {
        return Ok(None);
    };
    let key = key_of(measure, &bars, places);
    let mut board = Board::open_with(alloc, &bars, key)?;
    let _one = board.enlist();
    let _two = board.enlist();
    Ok(Some(board))
}

/// The key of the drawing, moved to zero.
pub(crate) fn key_of<M: Measure>(measure: &M, bars: &Bars, mut places: Places) -> Key
    requires drawing { IsDrawing bars.now places }
    requires near { AreWithin GREATEST_THOUSANDTHS places }
    ensures { IsDrawnKey M.Proof.objective bars.now result }
{
    let worth = measure.worth(bars, &places);
    let _sound = bars.shape();
    shift_to_zero(&mut places);
    Key { worth, places }
}

/// The last pass of the list, taken off it.
pub(crate) fn last_pass<P: Backing>(
    board: &TicketBoard<P>,
    passes: &mut Items<Pass>,
) -> Option<Pass>
    requires { All (λ pass. pass.home ≡ board.now) passes.old }
    ensures last { IfSome result (λ pass. pass.home ≡ board.now) }
    ensures others { All (λ pass. pass.home ≡ board.now) passes.new }
{
    passes.pop()
}
