//! The workers of a search: what each gets, and how they work side by side.

ghost use Rattle.std.specs.Prelude.{◌≡◌, ◌<◌, ◌≤◌, length, All, IfOk};
ghost use Rattle.std.specs.Thread.{IsSync};
ghost use Rattle.workers.specs.Hands.{AreFor, IsHandAt, MayEnd};
ghost use Rattle.workers.specs.declared.several.TheConstants.{MOST_WORKERS};
ghost use Rattle.ticket_board.specs.Passes.{Begins};
ghost use Rattle.workers.specs.inner.Lives.{AreDesksAt, AreSameDesks, HaveAllMet, HaveEnded};

use crate::desks::Desk;
use crate::gates::Gate;
use crate::hands::{Hand, Other};
use crate::life::work;
use bars::Bars;
use compact_types::{Branch, Items, NoMemory};
use least_word::{LeastWord, WordSeat};
use shape_graphs::{Backing, Measure};
use std::alloc::Global;
use std::sync::Wait;
use std::thread::{Threads, join};
use steal_lanes::Lane;
use ticket_board::{Pass, TicketBoard};

/// How many branches a lane holds before it grows.
const LANE_ROOM: usize = 64;

/// What several workers knew when they had ended.
#[derive(Drop)]
pub(crate) struct Met {
    pub(crate) pass: Pass,
    pub(crate) seat: WordSeat,
}

/// A desk for each pass, the first of them last. Each worker has a lane of its own, and ways into
/// all other lanes.
pub(crate) fn desks_of<P: Backing>(
    alloc: Global,
    board: &TicketBoard<P>,
    word: &LeastWord<P>,
    seat: &mut WordSeat,
    passes: Items<Pass>,
) -> Result<Items<Desk>, NoMemory>
    requires passes { All (λ pass. pass.home ≡ board.now) passes }
    requires seat { seat.old.home ≡ word.now }
    requires few { length passes ≤ MOST_WORKERS }
    ensures count { IfOk result (λ desks. length desks ≡ length passes) }
    ensures desks { IfOk result (AreDesksAt board.now word.now) }
{
    let mut passes = passes;
    let mut desks = Items::new(alloc);
    while let Some(pass) = passes.pop() {
        let number = passes.len() as u32 + 1;
        let seat = word.split(seat);
        desks.push(new_desk(alloc, number, pass, seat)?)?;
    }
    join_lanes(&mut desks)?;
    Ok(desks)
}

/// A desk with a new lane, and without ways into others.
fn new_desk(alloc: Global, number: u32, pass: Pass, seat: WordSeat) -> Result<Desk, NoMemory>
    ensures pass { IfOk result (λ desk. desk.hand.pass ≡ pass) }
    ensures seat { IfOk result (λ desk. desk.hand.seat ≡ seat) }
{
    let (lane, lane_pass) = Lane::new(alloc, LANE_ROOM)?;
    let hand = Hand {
        number,
        pass,
        seat,
        lane,
        others: Items::new(alloc),
    };
    Ok(Desk {
        hand,
        pass: lane_pass,
    })
}

/// Gives each worker ways into the lanes of all others, those of the next desks first.
fn join_lanes(desks: &mut Items<Desk>) -> Result<(), NoMemory>
    requires { length desks.old ≤ MOST_WORKERS }
    ensures { AreSameDesks desks.old desks.new }
{
    let count = desks.len();
    for place in 0..count {
        for step in 1..count {
            add_way(desks, place, (place + step) % count)?;
        }
    }
    Ok(())
}

/// Gives the worker at the first desk a way into the lane of the other.
fn add_way(desks: &mut Items<Desk>, from: usize, to: usize) -> Result<(), NoMemory>
    requires from { from < length desks.old }
    requires to { to < length desks.old }
    ensures { AreSameDesks desks.old desks.new }
{
    let way = way_to(desks, to)?;
    match desks.get_mut(from) {
        Some(desk) => desk.hand.others.push(way),
        None => unreachable!(),
    }
}

/// A way into the lane of the worker at this desk.
fn way_to(desks: &mut Items<Desk>, to: usize) -> Result<Other, NoMemory>
    requires { to < length desks.old }
    ensures { AreSameDesks desks.old desks.new }
{
    match desks.get_mut(to) {
        Some(desk) => way_into(desk),
        None => unreachable!(),
    }
}

/// A way into the lane of the desk.
fn way_into(desk: &mut Desk) -> Result<Other, NoMemory>
    ensures { desk.new.hand ≡ desk.old.hand }
{
    let thief = desk.hand.lane.thief()?;
    let pass = desk.hand.lane.split(&mut desk.pass);
    Ok(Other { thief, pass })
}

/// Lets the workers at the desks work side by side. The worker at the last desk begins with the
/// first branch, on the caller's thread, so that the search gets on wherever no thread can be
/// started. All that they knew at first is in what has met.
pub(crate) fn all_work<M: Measure, G: Gate, R: Threads + Wait + Sync>(
    rt: &R,
    alloc: Global,
    measure: &M,
    bars: &Bars,
    board: &TicketBoard<M::Proof>,
    word: &LeastWord<M::Proof>,
    desks: Items<Desk>,
    start: Branch,
    gate: &G,
) -> Met
where
    M::Workspace: Send,
    requires some { 0 < length desks }
    requires desks { AreDesksAt board.now word.now desks }
    requires shape { AreFor bars.now board.now word.now }
    ensures ended { HaveEnded board.now word.now result.pass result.seat }
    ensures met { HaveAllMet desks result.pass }
{
    let mut desks = desks;
    match desks.pop() {
        Some(Desk { hand, pass: _ }) => work_beside(
            rt, alloc, measure, bars, board, word, hand, desks, start, gate,
        ),
        None => unreachable!(),
    }
}

/// Lets the first worker, who begins with this branch, and those at the desks work side by side,
/// each of these on a thread of its own where one can be started.
fn work_beside<M: Measure, G: Gate, R: Threads + Wait + Sync>(
    rt: &R,
    alloc: Global,
    measure: &M,
    bars: &Bars,
    board: &TicketBoard<M::Proof>,
    word: &LeastWord<M::Proof>,
    first: Hand,
    desks: Items<Desk>,
    start: Branch,
    gate: &G,
) -> Met
where
    M::Workspace: Send,
    requires first { IsHandAt board.now word.now first }
    requires desks { AreDesksAt board.now word.now desks }
    requires shape { AreFor bars.now board.now word.now }
    ensures ended { HaveEnded board.now word.now result.pass result.seat }
    ensures met { Begins first.pass.seen result.pass.seen }
    ensures all_met { HaveAllMet desks result.pass }
{
    let mut desks = desks;
    match desks.pop() {
        None => {
            let start = Some(start);
            let (hand, _) = work(rt, alloc, measure, bars, board, word, first, start, gate);
            met_by(hand)
        }
        Some(Desk { hand, pass: _ }) => {
            let ((hand, _), mut met) = join(
                rt,
                move || -> (Hand, Result<(), NoMemory>)
                    requires at { IsHandAt board.now word.now hand }
                    requires shape { AreFor bars.now board.now word.now }
                    ensures at { IsHandAt board.entry.now word.entry.now result.0 }
                    ensures may_end { MayEnd result.0 }
                    ensures seen { Begins hand.pass.seen result.0.pass.seen }
                { work(rt, alloc, measure, bars, board, word, hand, None, gate) },
                move || -> Met
                    requires row { IsSync R.row }
                    requires first { IsHandAt board.now word.now first }
                    requires desks { AreDesksAt board.now word.now desks }
                    requires shape { AreFor bars.now board.now word.now }
                    ensures ended { HaveEnded board.entry.now word.entry.now
                        result.pass result.seat }
                    ensures met { Begins first.pass.seen result.pass.seen }
                    ensures all_met { HaveAllMet desks result.pass }
                {
                    work_beside(
                        rt, alloc, measure, bars, board, word, first, desks, start, gate,
                    )
                },
            );
            meet(board, word, &mut met, hand);
            met
        }
    }
}

/// What one worker knew when it had ended.
fn met_by(hand: Hand) -> Met
    ensures { (result.pass ≡ hand.pass) × (result.seat ≡ hand.seat) }
{
    let Hand {
        number: _,
        pass,
        seat,
        lane: _,
        others: _,
    } = hand;
    Met { pass, seat }
}

/// Adds to what was met what a worker knew that has ended.
fn meet<P: Backing>(board: &TicketBoard<P>, word: &LeastWord<P>, met: &mut Met, hand: Hand)
    requires at { IsHandAt board.now word.now hand }
    requires met { HaveEnded board.now word.now met.old.pass met.old.seat }
    requires hand { MayEnd hand }
    ensures ended { HaveEnded board.now word.now met.new.pass met.new.seat }
    ensures first { Begins met.old.pass.seen met.new.pass.seen }
    ensures second { Begins hand.pass.seen met.new.pass.seen }
{
    let Met { pass, seat } = met_by(hand);
    board.meet(&mut met.pass, pass);
    word.join(&mut met.seat, seat);
}
