//! The search with several workers.

ghost use Rattle.std.specs.Prelude.{◌≡◌, ◌≤◌, [], length, All, IfOk};
ghost use Rattle.compact_types.specs.declared.limits.TheConstants.{GREATEST_THOUSANDTHS};
ghost use Rattle.compact_types.specs.Bests.{IsBest, worth_of};
ghost use Rattle.compact_types.specs.Drawings.{IsDrawing};
ghost use Rattle.compact_types.specs.Magnitudes.{AreWithin};
ghost use Rattle.board.specs.Facts.{IsDrawnKey};
ghost use Rattle.workers.specs.declared.several.TheConstants.{MOST_WORKERS};
ghost use Rattle.workers.specs.Searches.{HasEnded};
ghost use Rattle.workers.specs.inner.Lives.{HaveEnded};

use crate::alone::{Best, answer, search_alone};
use crate::crews::{Met, all_work, desks_of};
use crate::first::first_key;
use crate::gates::Gate;
use bars::Bars;
use board::Board;
use compact_types::{Branch, Extension, Items, Key, NoMemory, Places};
use least_word::{LeastWord, WordSeat};
use shape_graphs::{Backing, Measure};
use std::alloc::Global;
use std::sync::Wait;
use std::thread::Threads;
use ticket_board::{Pass, TicketBoard};

/// The most workers of a search.
pub const MOST_WORKERS: u32 = 64;

/// The best key of the shape in the measure, as `search_alone` finds it, by several workers side by
/// side: see `work`. What it answers does not depend on their number and on how they get on; their
/// board may. One worker searches alone. Without memory there is no answer.
pub fn search<M: Measure, G: Gate, R: Threads + Wait + Sync>(
    rt: &R,
    alloc: Global,
    measure: &M,
    bars: &Bars,
    places: &Places,
    workers: u32,
    gate: &G,
) -> Result<Best<M::Proof>, NoMemory>
where
    M::Workspace: Send,
    requires drawing { IsDrawing bars.now places.now }
    requires near { AreWithin GREATEST_THOUSANDTHS places.now }
    requires some { 1 ≤ workers }
    requires few { workers ≤ MOST_WORKERS }
    ensures best { IfOk result (λ best.
        IsBest M.Proof.objective bars.now best.key.places) }
    ensures worth { IfOk result (λ best.
        best.key.worth ≡ worth_of M.Proof.objective bars.now best.key.places) }
    ensures board { IfOk result (λ best.
        HasEnded M.Proof.objective M.Proof.backs bars.now best.key best.board) }
{
    if workers == 1 {
        return search_alone(alloc, measure, bars, places);
    }
    let key = first_key(alloc, measure, bars, places)?;
    let (word, mut seat) = word_of(alloc, bars, &key)?;
    let board = Board::open_with(alloc, bars, key)?;
    let (board, passes) = table_of(alloc, board, workers)?;
    let desks = desks_of(alloc, &board, &word, &mut seat, passes)?;
    let met = all_work(
        rt,
        alloc,
        measure,
        bars,
        &board,
        &word,
        desks,
        first_branch(alloc),
        gate,
    );
    close(rt, bars, board, &word, met)
}

/// A word for drawings of the shape, which begins with the worth of this key, and its first seat.
pub(crate) fn word_of<P: Backing>(
    alloc: Global,
    bars: &Bars,
    key: &Key,
) -> Result<(LeastWord<P>, WordSeat), NoMemory>
    requires { IsDrawnKey P.objective bars.now key.now }
    ensures shape { IfOk result (λ made. made.0.shape ≡ bars.now) }
    ensures seat { IfOk result (λ made. made.1.home ≡ made.0) }
{
    LeastWord::new(alloc, bars.shape(), key.worth.unsigned_abs())
}

/// The board on a table, with a pass for each of so many new callers.
pub(crate) fn table_of<P: Backing>(
    alloc: Global,
    board: Board<P>,
    callers: u32,
) -> Result<(TicketBoard<P>, Items<Pass>), NoMemory>
    requires some { 1 ≤ callers }
    requires few { callers ≤ MOST_WORKERS }
    requires room { board.given ≤ 4_294_966_295 }
    ensures shape { IfOk result (λ made. made.0.shape ≡ board.shape) }
    ensures count { IfOk result (λ made. length made.1 ≡ callers) }
    ensures passes { IfOk result (λ made. All (λ pass. pass.home ≡ made.0) made.1) }
{
    TicketBoard::new(alloc, board, callers)
}

/// The answer of a search whose workers have ended. A halt was called if memory was refused to one
/// of them; if none was, one of them has seen that no branch is open.
fn close<P: Backing, R: Wait>(
    rt: &R,
    bars: &Bars,
    board: TicketBoard<P>,
    word: &LeastWord<P>,
    met: Met,
) -> Result<Best<P>, NoMemory>
    requires ended { HaveEnded board word.now met.pass met.seat }
    requires shape { board.shape ≡ bars.now }
    ensures best { IfOk result (λ best. IsBest P.objective bars.now best.key.places) }
    ensures worth { IfOk result (λ best.
        best.key.worth ≡ worth_of P.objective bars.now best.key.places) }
    ensures board { IfOk result (λ best.
        HasEnded P.objective P.backs bars.now best.key best.board) }
{
    let Met { pass, mut seat } = met;
    if word.halted(&mut seat) {
        return Err(NoMemory);
    }
    answer(bars, board.close(rt, pass))
}

/// The branch with which a search begins: it has no choices.
pub(crate) fn first_branch(alloc: Global) -> Branch
    ensures id { result.id ≡ 0 }
    ensures choices { result.choices.choices ≡ [] }
{
    Branch {
        id: 0,
        choices: Extension {
            choices: Items::new(alloc),
        },
    }
}
