//! The search with one worker.

ghost use Rattle.std.specs.Prelude.{◌≡◌, IfOk};
ghost use Rattle.compact_types.specs.declared.limits.TheConstants.{GREATEST_THOUSANDTHS};
ghost use Rattle.compact_types.specs.Bests.{IsBest, worth_of};
ghost use Rattle.compact_types.specs.Drawings.{IsDrawing};
ghost use Rattle.compact_types.specs.Magnitudes.{AreWithin};
ghost use Rattle.workers.specs.Searches.{HasEnded};
ghost use Rattle.workers.specs.inner.Turns.{AreAllSettled};

use crate::first::first_key;
use crate::turns::settle_all;
use bars::Bars;
use board::Board;
use compact_types::{Key, NoMemory, Places};
use shape_graphs::{Backing, Measure};
use std::alloc::Global;

/// The best key, and the board that shows it.
#[derive(Drop)]
pub struct Best<P: Backing> {
    pub key: Key,
    pub board: Board<P>,
}

/// The best key of the shape in the measure, by a branch-and-bound search over the sides of pairs
/// of segments (Klau and Mutzel): it begins with the key of the extension that the drawing gives,
/// and settles the waiting branch with the greatest number for as long as one waits, each in the
/// same workspace. Without memory there is no answer.
#[tactic(auto, using(crate::proofs::TurnLemmas::at_first))]
pub fn search_alone<M: Measure>(
    alloc: Global,
    measure: &M,
    bars: &Bars,
    places: &Places,
) -> Result<Best<M::Proof>, NoMemory>
    requires drawing { IsDrawing bars.now places.now }
    requires near { AreWithin GREATEST_THOUSANDTHS places.now }
    ensures best { IfOk result (λ best.
        IsBest M.Proof.objective bars.now best.key.places) }
    ensures worth { IfOk result (λ best.
        best.key.worth ≡ worth_of M.Proof.objective bars.now best.key.places) }
    ensures board { IfOk result (λ best.
        HasEnded M.Proof.objective M.Proof.backs bars.now best.key best.board) }
{
    let first = first_key(alloc, measure, bars, places)?;
    let mut workspace = measure.workspace(alloc, bars)?;
    let mut board = Board::open_with(alloc, bars, first)?;
    let who = board.enlist();
    settle_all(alloc, measure, bars, &mut workspace, &mut board, who)?;
    answer(bars, board)
}

/// The answer of a search that has settled every branch: the incumbent is the best key.
#[tactic(auto, using(crate::proofs::EndLemmas::ended))]
pub(crate) fn answer<P: Backing>(bars: &Bars, board: Board<P>) -> Result<Best<P>, NoMemory>
    requires { AreAllSettled bars.now board }
    ensures best { IfOk result (λ best. IsBest P.objective bars.now best.key.places) }
    ensures worth { IfOk result (λ best.
        best.key.worth ≡ worth_of P.objective bars.now best.key.places) }
    ensures board { IfOk result (λ best.
        HasEnded P.objective P.backs bars.now best.key best.board) }
{
    let key = board.best().copy()?;
    Ok(Best { key, board })
}
