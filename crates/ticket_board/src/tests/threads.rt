//! Four callers on four threads.

ghost use Rattle.std.specs.Prelude.{◌≡◌, []};

use super::{Told, claims_first, settle_first, shared, take_last};
use crate::{Pass, TicketBoard};
use board::Board;
use compact_types::NoMemory;
use std::alloc::Global;
use std::sync::Wait;
use std::test::Fail;
use std::thread::{Threads, join};

/// How many rounds each caller makes.
const ROUNDS: u32 = 100;

fn both<T: Send + Sync>(_value: &T) {}

/// A caller claims branch 0 again and again, settles it if it is its own, and looks after each
/// claim. With the pass comes how often the branch was its own.
fn rounds<R: Wait>(
    rt: &R,
    alloc: Global,
    board: &TicketBoard<Told>,
    pass: Pass,
) -> (Pass, Result<u32, NoMemory>)
    requires home { pass.home ≡ board.now }
    requires vertices { board.now.shape.plan.vertices ≡ 1 }
    requires pieces { board.now.shape.plan.pieces ≡ [] }
    ensures { result.0.home ≡ board.now }
{
    let mut pass = pass;
    let mut settled = 0u32;
    for _ in 0..ROUNDS {
        if claims_first(rt, alloc, board, &mut pass) {
            if settle_first(rt, alloc, board, &mut pass).is_err() {
                return (pass, Err(NoMemory));
            }
            settled = settled.saturating_add(1);
        }
        let _open = board.look(rt, &mut pass);
    }
    (pass, Ok(settled))
}

/// The rounds of two callers on two threads. The first has then seen what both have.
fn two<R: Threads + Wait + Sync>(
    rt: &R,
    alloc: Global,
    board: &TicketBoard<Told>,
    one: Pass,
    other: Pass,
) -> (Pass, Result<u32, NoMemory>)
    requires one { one.home ≡ board.now }
    requires other { other.home ≡ board.now }
    requires vertices { board.now.shape.plan.vertices ≡ 1 }
    requires pieces { board.now.shape.plan.pieces ≡ [] }
    ensures { result.0.home ≡ board.now }
{
    let ((mut one, a), (other, b)) = join(
        rt,
        move || -> (Pass, Result<u32, NoMemory>)
            requires home { one.home ≡ board.now }
            requires vertices { board.now.shape.plan.vertices ≡ 1 }
            requires pieces { board.now.shape.plan.pieces ≡ [] }
            ensures { result.0.home ≡ board.entry.now }
        { rounds(rt, alloc, board, one) },
        move || -> (Pass, Result<u32, NoMemory>)
            requires home { other.home ≡ board.now }
            requires vertices { board.now.shape.plan.vertices ≡ 1 }
            requires pieces { board.now.shape.plan.pieces ≡ [] }
            ensures { result.0.home ≡ board.entry.now }
        { rounds(rt, alloc, board, other) },
    );
    board.meet(&mut one, other);
    (one, sum(a, b))
}

fn sum(a: Result<u32, NoMemory>, b: Result<u32, NoMemory>) -> Result<u32, NoMemory> {
    Ok(a?.saturating_add(b?))
}

/// The rounds of four callers on four threads.
fn four<R: Threads + Wait + Sync>(
    rt: &R,
    alloc: Global,
    board: &TicketBoard<Told>,
    a: Pass,
    b: Pass,
    c: Pass,
    d: Pass,
) -> (Pass, Result<u32, NoMemory>)
    requires a { a.home ≡ board.now }
    requires b { b.home ≡ board.now }
    requires c { c.home ≡ board.now }
    requires d { d.home ≡ board.now }
    requires vertices { board.now.shape.plan.vertices ≡ 1 }
    requires pieces { board.now.shape.plan.pieces ≡ [] }
    ensures { result.0.home ≡ board.now }
{
    let ((mut one, e), (other, f)) = join(
        rt,
        move || -> (Pass, Result<u32, NoMemory>)
            requires a { a.home ≡ board.now }
            requires b { b.home ≡ board.now }
            requires vertices { board.now.shape.plan.vertices ≡ 1 }
            requires pieces { board.now.shape.plan.pieces ≡ [] }
            ensures { result.0.home ≡ board.entry.now }
        { two(rt, alloc, board, a, b) },
        move || -> (Pass, Result<u32, NoMemory>)
            requires c { c.home ≡ board.now }
            requires d { d.home ≡ board.now }
            requires vertices { board.now.shape.plan.vertices ≡ 1 }
            requires pieces { board.now.shape.plan.pieces ≡ [] }
            ensures { result.0.home ≡ board.entry.now }
        { two(rt, alloc, board, c, d) },
    );
    board.meet(&mut one, other);
    (one, sum(e, f))
}

/// Hands the board out on another thread, to which it moves with the pass.
fn closed_elsewhere<R: Threads + Wait + Sync>(
    rt: &R,
    board: TicketBoard<Told>,
    pass: Pass,
) -> Board<Told>
    requires { pass.home ≡ board }
{
    join(
        rt,
        || (),
        move || -> Board<Told>
            requires { pass.home ≡ board }
        { board.close(rt, pass) },
    )
    .1
}

/// Of four callers that claim it again and again, one settles branch 0, and then all see no open
/// branch.
#[test]
fn four_callers_take_turns(rt: HostRuntime) -> Result<(), Fail> {
    let alloc = rt.alloc();
    let (board, mut passes) = shared(alloc, 4)?;
    both(&board);
    let Some(a) = take_last(&board, &mut passes) else {
        return Err(Fail::new("no pass"));
    };
    let Some(b) = take_last(&board, &mut passes) else {
        return Err(Fail::new("no pass"));
    };
    let Some(c) = take_last(&board, &mut passes) else {
        return Err(Fail::new("no pass"));
    };
    let Some(d) = take_last(&board, &mut passes) else {
        return Err(Fail::new("no pass"));
    };
    let (mut pass, settled) = four(&rt, alloc, &board, a, b, c, d);
    assert_eq!(rt; settled.ok(), Some(1));
    assert_eq!(rt; board.look(&rt, &mut pass), 0);
    let board = closed_elsewhere(&rt, board, pass);
    assert_eq!(rt; board.entries().len(), 2);
    Ok(())
}
