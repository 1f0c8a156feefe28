//! The board of the drawing of one vertex, on a table.

ghost use Rattle.std.specs.Prelude.{◌≡◌, ◌≤◌, [], ◌∷◌, pos, IfOk, IfSome, IsTrue, All};
ghost use Rattle.compact_types.specs.Lookups as lookups;
ghost use Rattle.board.specs.Histories.{choices_of, state_of};
ghost use Rattle.ticket_board.specs.Passes.{IsHolding};

mod one_by_one;
mod threads;

use crate::{Pass, TicketBoard};
use bars::{Bars, bars_of};
use board::{Board, Claim, Settled};
use compact_types::{Branch, Choice, Extension, Items, Key, NoMemory, Places, Plan, Point, Shape};
use shape_graphs::{Backing, Verdict};
use std::alloc::Global;
use std::sync::Wait;

/// A proof that says nothing.
#[derive(Drop)]
struct Told;

impl Backing for Told {
    ghost use Rattle.compact_types.specs.Bests.Objective.{total_length};

    ghost objective = { total_length };

    ghost backs = { λ shape choices proof verdict. Unit {0} };
}

/// The shape of one vertex.
fn dot(alloc: Global) -> Result<Bars, NoMemory>
    ensures vertices { IfOk result (λ bars. bars.plan.vertices ≡ 1) }
    ensures pieces { IfOk result (λ bars. bars.plan.pieces ≡ []) }
{
    let pieces = Items::new(alloc);
    let plan = Plan {
        vertices: 1,
        pieces,
    };
    let ways = Items::new(alloc);
    bars_of(alloc, &Shape { plan, ways })
}

/// The key of its one drawing from zero.
fn key(alloc: Global) -> Result<Key, NoMemory>
    ensures worth { IfOk result (λ key. key.worth ≡ pos 0) }
    ensures places { IfOk result (λ key. key.places.xy ≡ lookups.origin ∷ []) }
{
    let mut xy = Items::new(alloc);
    xy.push(Point { x: 0, y: 0 })?;
    Ok(Key {
        worth: 0,
        places: Places { xy },
    })
}

/// A new board on a table, with passes for n callers.
fn shared(alloc: Global, callers: u32) -> Result<(TicketBoard<Told>, Items<Pass>), NoMemory>
    requires some { 1 ≤ callers }
    requires few { callers ≤ 1_000 }
    ensures vertices { IfOk result (λ made. made.0.shape.plan.vertices ≡ 1) }
    ensures pieces { IfOk result (λ made. made.0.shape.plan.pieces ≡ []) }
    ensures passes { IfOk result (λ made. All (λ pass. pass.home ≡ made.0) made.1) }
{
    let bars = dot(alloc)?;
    let key = key(alloc)?;
    let board = Board::open_with(alloc, &bars, key)?;
    TicketBoard::new(alloc, board, callers)
}

/// The last pass of the list.
fn take_last<P: Backing>(board: &TicketBoard<P>, passes: &mut Items<Pass>) -> Option<Pass>
    requires { All (λ pass. pass.home ≡ board.now) passes.old }
    ensures last { IfSome result (λ pass. pass.home ≡ board.now) }
    ensures others { All (λ pass. pass.home ≡ board.now) passes.new }
{
    passes.pop()
}

/// A claim of branch `id` with this choice, or with none.
fn claim<R: Wait>(
    rt: &R,
    alloc: Global,
    board: &TicketBoard<Told>,
    pass: &mut Pass,
    id: u64,
    choice: Option<Choice>,
) -> Result<Claim, NoMemory>
    requires { pass.old.home ≡ board.now }
    ensures { pass.new.home ≡ pass.old.home }
{
    let mut choices = Items::new(alloc);
    if let Some(choice) = choice {
        choices.push(choice)?;
    }
    let branch = Branch {
        id,
        choices: Extension { choices },
    };
    Ok(board.claim(rt, pass, &branch))
}

/// Whether a claim of branch 0, which has no choices, is answered that it is the caller's.
fn claims_first<R: Wait>(rt: &R, alloc: Global, board: &TicketBoard<Told>, pass: &mut Pass) -> bool
    requires { pass.old.home ≡ board.now }
    ensures home { pass.new.home ≡ pass.old.home }
    ensures holding { IsTrue result → IsHolding pass.new 0 }
    ensures choices { IsTrue result → choices_of (state_of pass.new.seen) 0 ≡ [] }
{
    let choices = Items::new(alloc);
    let branch = Branch {
        id: 0,
        choices: Extension { choices },
    };
    matches!(board.claim(rt, pass, &branch), Claim::Yours)
}

/// Settles branch 0, which the caller holds, by its least key.
fn settle_first<R: Wait>(
    rt: &R,
    alloc: Global,
    board: &TicketBoard<Told>,
    pass: &mut Pass,
) -> Result<Settled, NoMemory>
    requires home { pass.old.home ≡ board.now }
    requires vertices { board.now.shape.plan.vertices ≡ 1 }
    requires pieces { board.now.shape.plan.pieces ≡ [] }
    requires holding { IsHolding pass.old 0 }
    requires choices { choices_of (state_of pass.old.seen) 0 ≡ [] }
    ensures { pass.new.home ≡ pass.old.home }
{
    let key = key(alloc)?;
    board.settle(rt, pass, 0, Verdict::Least { key, proof: Told }, None)
}
