//! A least word of the drawings of a small shape, as several seats and several threads use it.

ghost use Rattle.std.specs.Prelude.{◌≡◌, ◌≤◌, pos, IfOk};
ghost use Rattle.std.specs.Thread.{IsSync};
ghost use Rattle.compact_types.specs.Bests.{IsAttained};
ghost use Rattle.compact_types.specs.Bests.Objective.{total_length};
ghost use Rattle.least_word.specs.declared.words.TheConstants.{GREATEST_WORTH};

use crate::{LeastWord, WordSeat};
use bars::{Bars, bars_of_points};
use compact_types::{Flows, MOST_PIECES, Places, plain_length};
use drawing_check::is_drawing;
use std::alloc::Global;
use std::test::Fail;
use std::thread;
use std::thread::{Threads, join};

/// The pieces of a spine with an arm at each end, of which the lower one turns up.
const ENDS: [(u32, u32); 4] = [(0, 1), (0, 2), (2, 3), (1, 4)];

/// Its drawing of length 45: a spine of 10, arms of 20 and 10, and a turn of 5.
const WIDE: [(i32, i32); 5] = [(0, 0), (0, 10), (20, 0), (20, 5), (10, 10)];

/// Its drawing with a lower arm of this length and every other piece of length 1.
fn with_arm(arm: i32) -> [(i32, i32); 5] {
    [(0, 0), (0, 1), (arm, 0), (arm, 1), (1, 1)]
}

/// The length of the drawing of the shape at these points.
fn length_at(alloc: Global, bars: &Bars, points: &[(i32, i32)]) -> Result<u64, Fail>
    ensures attained { IfOk result (λ worth. IsAttained total_length bars.now (pos worth)) }
    ensures small { IfOk result (λ worth. worth ≤ GREATEST_WORTH) }
{
    let shape = bars.shape();
    let places = Places::at(alloc, points)?;
    if places.xy.len() != shape.plan.vertices as usize {
        Err("other vertices")?;
    }
    if shape.plan.pieces.len() > MOST_PIECES || !is_drawing(shape, &places) {
        Err("no drawing")?;
    }
    let length = u64::try_from(plain_length(&shape.plan, &places))?;
    Ok(length)
}

/// The segments of the drawing of length 45.
fn spine(alloc: Global) -> Result<Bars, Fail> {
    let (bars, _places) = bars_of_points(alloc, &WIDE, &ENDS)?.ok_or("no drawing")?;
    Ok(bars)
}

/// A word that begins with 45, and its first seat.
fn word_of(alloc: Global, bars: &Bars) -> Result<(LeastWord<Flows>, WordSeat), Fail>
    ensures shape { IfOk result (λ made. made.0.shape ≡ bars.now) }
    ensures own { IfOk result (λ made. made.1.home ≡ made.0) }
{
    let wide = length_at(alloc, bars, &WIDE)?;
    let made = LeastWord::new(alloc, bars.shape(), wide)?;
    Ok(made)
}

/// What the seat reads after each of two offers.
fn reads_after(word: &LeastWord<Flows>, seat: &mut WordSeat, first: u64, second: u64) -> (u64, u64)
    requires own { seat.old.home ≡ word.now }
    requires attained { IsAttained total_length word.now.shape (pos first) }
    requires small { first ≤ GREATEST_WORTH }
    requires second_attained { IsAttained total_length word.now.shape (pos second) }
    requires second_small { second ≤ GREATEST_WORTH }
    ensures own { seat.new.home ≡ word.now }
{
    word.offer(seat, first);
    let after_first = word.read(seat);
    word.offer(seat, second);
    (after_first, word.read(seat))
}

/// Whether the seat is told to stop, before it calls a halt and after.
fn stops_after_halt(word: &LeastWord<Flows>, seat: &mut WordSeat) -> (bool, bool)
    requires own { seat.old.home ≡ word.now }
    ensures own { seat.new.home ≡ word.now }
{
    let before = word.halted(seat);
    word.halt(seat);
    (before, word.halted(seat))
}

#[test]
fn a_second_seat_reads_and_hears_what_the_first_did(rt: HostRuntime) -> Result<(), Fail> {
    let alloc = rt.alloc();
    let bars = spine(alloc)?;
    let (seven, nine) = (
        length_at(alloc, &bars, &with_arm(4))?,
        length_at(alloc, &bars, &with_arm(6))?,
    );
    assert_eq!(rt; (seven, nine), (7, 9));
    let (word, mut seat) = word_of(alloc, &bars)?;
    let mut second = word.split(&mut seat);
    assert_eq!(rt; word.read(&mut second), 45);
    assert_eq!(rt; reads_after(&word, &mut seat, seven, nine), (7, 7));
    assert_eq!(rt; stops_after_halt(&word, &mut seat), (false, true));
    assert_eq!(rt; word.read(&mut second), 7);
    assert!(rt; word.halted(&mut second));
    word.join(&mut seat, second);
    assert_eq!(rt; word.read(&mut seat), 7);
    Ok(())
}

/// Offers the worth again and again, and reads in between.
fn offer_often(word: &LeastWord<Flows>, mut seat: WordSeat, worth: u64) -> WordSeat
    requires own { seat.home ≡ word.now }
    requires attained { IsAttained total_length word.now.shape (pos worth) }
    requires small { worth ≤ GREATEST_WORTH }
    ensures { result.home ≡ word.now }
{
    for _ in 0..1_000 {
        word.read(&mut seat);
        word.offer(&mut seat, worth);
    }
    seat
}

/// Two threads offer a worth each; the seat has taken over what both know.
fn offer_by_two<R: Threads + Sync>(
    rt: &R,
    word: &LeastWord<Flows>,
    mut seat: WordSeat,
    first: u64,
    second: u64,
) -> WordSeat
    requires own { seat.home ≡ word.now }
    requires attained { IsAttained total_length word.now.shape (pos first) }
    requires small { first ≤ GREATEST_WORTH }
    requires second_attained { IsAttained total_length word.now.shape (pos second) }
    requires second_small { second ≤ GREATEST_WORTH }
    ensures { result.home ≡ word.now }
{
    let other = word.split(&mut seat);
    let (mut seat, other) = join(
        rt,
        || offer_often(word, seat, first),
        || offer_often(word, other, second),
    );
    word.join(&mut seat, other);
    seat
}

/// Four threads offer a worth each: what is read when all have ended.
fn read_after_four<R: Threads + Sync>(
    rt: &R,
    word: &LeastWord<Flows>,
    mut seat: WordSeat,
    low: u64,
    high: u64,
) -> u64
    requires own { seat.home ≡ word.now }
    requires attained { IsAttained total_length word.now.shape (pos low) }
    requires small { low ≤ GREATEST_WORTH }
    requires high_attained { IsAttained total_length word.now.shape (pos high) }
    requires high_small { high ≤ GREATEST_WORTH }
{
    let other = word.split(&mut seat);
    let (mut seat, other) = join(
        rt,
        || -> WordSeat
            requires sync { IsSync R.row }
            requires own { seat.home ≡ word.now }
            requires attained { IsAttained total_length word.now.shape (pos low) }
            requires small { low ≤ GREATEST_WORTH }
            requires high_attained { IsAttained total_length word.now.shape (pos high) }
            requires high_small { high ≤ GREATEST_WORTH }
            ensures { result.home ≡ word.entry.now }
        { offer_by_two(rt, word, seat, high, low) },
        || -> WordSeat
            requires sync { IsSync R.row }
            requires own { other.home ≡ word.now }
            requires attained { IsAttained total_length word.now.shape (pos high) }
            requires small { high ≤ GREATEST_WORTH }
            ensures { result.home ≡ word.entry.now }
        { offer_by_two(rt, word, other, high, high) },
    );
    word.join(&mut seat, other);
    word.read(&mut seat)
}

#[test]
fn four_threads_offer_and_the_least_is_read(rt: HostRuntime) -> Result<(), Fail> {
    let alloc = rt.alloc();
    let bars = spine(alloc)?;
    let five = length_at(alloc, &bars, &with_arm(2))?;
    let nine = length_at(alloc, &bars, &with_arm(6))?;
    let (word, seat) = word_of(alloc, &bars)?;
    assert_eq!(rt; read_after_four(&rt, &word, seat, five, nine), 5);
    Ok(())
}

/// Whether the word and the seat, wherever they are now, are told to stop after a halt alone.
fn stops(word: LeastWord<Flows>, mut seat: WordSeat) -> bool
    requires { seat.home ≡ word }
{
    stops_after_halt(&word, &mut seat) == (false, true)
}

fn both<T: Send + Sync>(_value: &T) {}

#[test]
fn moves_to_another_thread(rt: HostRuntime) -> Result<(), Fail> {
    let alloc = rt.alloc();
    let bars = spine(alloc)?;
    let (word, seat) = word_of(alloc, &bars)?;
    both(&word);
    let child = thread::spawn(&rt, move || stops(word, seat))?;
    assert!(rt; child.join(&rt));
    Ok(())
}
