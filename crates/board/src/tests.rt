//! A board of the drawing of one vertex, as two callers use it.

ghost use Rattle.std.specs.Prelude.{◌≡◌, ◌≤◌, [], ◌∷◌, pos, IfOk};
ghost use Rattle.compact_types.specs.Lookups as lookups;

use crate::{Board, Claim, Entry, SettleFault, Settled};
use bars::{Bars, bars_of};
use compact_types::{Branch, Choice, Extension, Items, Key, NoMemory, Places, Plan, Point, Shape};
use shape_graphs::{Backing, Verdict};
use std::alloc::Global;
use std::test::Fail;

/// A proof that says nothing.
#[derive(Drop)]
struct Told;

impl Backing for Told {
    ghost use Rattle.compact_types.specs.Bests.Objective.{total_length};

    ghost objective = { total_length };

    ghost backs = { λ shape choices proof verdict. Unit {0} };
}

fn both<T: Send + Sync>(_value: &T) {}

/// The shape of one vertex.
fn dot(alloc: Global) -> Result<Bars, NoMemory>
    ensures vertices { IfOk result (λ bars. bars.plan.vertices ≡ 1) }
    ensures pieces { IfOk result (λ bars. bars.plan.pieces ≡ []) }
{
    let pieces = Items::new(alloc);
    let plan = Plan {
        vertices: 1,
        pieces,
    };
    let ways = Items::new(alloc);
    bars_of(alloc, &Shape { plan, ways })
}

/// The key of its one drawing from zero.
fn key(alloc: Global) -> Result<Key, NoMemory>
    ensures worth { IfOk result (λ key. key.worth ≡ pos 0) }
    ensures places { IfOk result (λ key. key.places.xy ≡ lookups.origin ∷ []) }
{
    let mut xy = Items::new(alloc);
    xy.push(Point { x: 0, y: 0 })?;
    Ok(Key {
        worth: 0,
        places: Places { xy },
    })
}

/// A new board with two callers.
fn board(alloc: Global) -> Result<Board<Told>, NoMemory>
    ensures vertices { IfOk result (λ board. board.shape.plan.vertices ≡ 1) }
    ensures pieces { IfOk result (λ board. board.shape.plan.pieces ≡ []) }
    ensures given { IfOk result (λ board. board.given ≡ 2) }
{
    let bars = dot(alloc)?;
    let key = key(alloc)?;
    let mut board = Board::open_with(alloc, &bars, key)?;
    let _one = board.enlist();
    let _two = board.enlist();
    Ok(board)
}

/// A claim of branch `id` with this choice, or with none.
fn claim(
    alloc: Global,
    board: &mut Board<Told>,
    who: u32,
    id: u64,
    choice: Option<Choice>,
) -> Result<Claim, NoMemory>
    requires one { 1 ≤ who }
    requires two { who ≤ 2 }
    requires given { board.old.given ≡ 2 }
    ensures given { board.new.given ≡ 2 }
    ensures shape { board.new.shape ≡ board.old.shape }
{
    let mut choices = Items::new(alloc);
    if let Some(choice) = choice {
        choices.push(choice)?;
    }
    let branch = Branch {
        id,
        choices: Extension { choices },
    };
    Ok(board.claim(who, &branch))
}

/// A settle of branch 0 by its least key.
fn settle(alloc: Global, board: &mut Board<Told>, who: u32) -> Result<Settled, SettleFault>
    requires one { 1 ≤ who }
    requires two { who ≤ 2 }
    requires given { board.old.given ≡ 2 }
    requires vertices { board.old.shape.plan.vertices ≡ 1 }
    requires pieces { board.old.shape.plan.pieces ≡ [] }
    ensures given { board.new.given ≡ 2 }
    ensures shape { board.new.shape ≡ board.old.shape }
{
    let key = key(alloc)?;
    board.settle(who, 0, Verdict::Least { key, proof: Told }, None)
}

#[test]
fn is_shared_by_two_callers(rt: HostRuntime) -> Result<(), Fail> {
    let alloc = rt.alloc();
    let mut board = board(alloc)?;
    both(&board);
    let (s, t) = (0, 1);
    let other = Some(Choice { s, t, side: 0 });
    assert_eq!(rt;
        claim(alloc, &mut board, 2, 7, None).ok(),
        Some(Claim::Stranger)
    );
    assert_eq!(rt;
        claim(alloc, &mut board, 2, 0, other).ok(),
        Some(Claim::Stranger)
    );
    assert_eq!(rt;
        claim(alloc, &mut board, 1, 0, None).ok(),
        Some(Claim::Yours)
    );
    assert_eq!(rt;
        claim(alloc, &mut board, 2, 0, None).ok(),
        Some(Claim::Taken)
    );
    assert_eq!(rt; settle(alloc, &mut board, 2), Err(SettleFault::NotYours));
    assert_eq!(rt; board.open_count(), 1);
    assert!(rt; board.verdict(0).is_none());
    assert_eq!(rt; board.outcome(0), None);
    let what = Settled::Closed;
    assert_eq!(rt; settle(alloc, &mut board, 1), Ok(what));
    assert_eq!(rt; board.open_count(), 0);
    assert!(rt; board.verdict(0).is_some());
    assert_eq!(rt; board.outcome(0), Some(what));
    assert_eq!(rt; board.outcome(1), None);
    assert!(rt; board.proof_before(0).is_none());
    assert!(rt; board.proof_before(1).is_none());
    assert_eq!(rt; board.best().worth, 0);
    let (who, id) = (1, 0);
    let settled = Entry::Settled { who, id, what };
    assert_eq!(rt;
        board.entries(),
        [Entry::Claimed { who: 1, id: 0 }, settled].as_slice()
    );
    Ok(())
}
