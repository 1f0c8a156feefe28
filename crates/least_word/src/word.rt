//! The least word and its seats.

ghost use Rattle.std.specs.Prelude.{◌≡◌, ◌≤◌, ◌↔◌, pos, IfOk, IsTrue};
ghost use Rattle.compact_types.specs.Bests.{IsAttained};
ghost use Rattle.least_word.specs.Seats.{WordHome};
ghost use Rattle.least_word.specs.Views.{after_halt, after_halt_load, after_join, after_load};
ghost use Rattle.least_word.specs.Views.{after_offer, after_split, new_view, split_off};
ghost use Rattle.least_word.specs.Words.{IsHalted, IsStep, Words, halted_word, lowered};
ghost use Rattle.least_word.specs.declared.words.TheConstants.{GREATEST_WORTH};

use crate::rule::{Both, FindHalt, Halt, Halves, LoadWorth, Offer, Rule};
use crate::view::Member;
use crate::words::{HALT_WORD, WORTH_WORD};
use atomic_table::{Seat, Table};
use compact_types::{NoMemory, Shape};
use shape_graphs::Backing;
use std::alloc::Global;
use std::marker::Model;

/// The least worth that was offered by any thread, and whether a halt was called. `P` says what the
/// worths are of.
#[derive(Drop)]
pub struct LeastWord<P: Backing> {
    table: Table<(), Member, Shape, Rule<P>, Global>,
}

impl<P: Backing> Model for LeastWord<P> {
    ghost Value = { WordHome };

    ghost view = { λ word. record {
      table = word.table.shared.table_id;
      shape = word.table.shared.key;
    } };

    ghost invariant = { λ word. word.table.shared.table_id.words ≡ 2 };
}

/// The right of one thread to read and write a least word, and what it knows of it. It has no
/// bytes.
#[derive(Drop)]
pub struct WordSeat {
    seat: Seat<(), Member>,
}

impl Model for WordSeat {
    ghost use Rattle.least_word.specs.Seats.{SeatView};
    ghost use Rattle.least_word.specs.inner.Members.{IsSeatInHand, seat_view};

    ghost Value = { SeatView };

    ghost view = { λ it. seat_view it.seat.table_id it.seat.me.0 };

    ghost invariant = { λ it. IsSeatInHand it.seat.me };
}

#[tactic(auto, using(crate::proofs::StepLemmas::steps))]
impl<P: Backing> LeastWord<P> {
    /// A word for drawings of the shape, one of which has the worth `first`, with its first seat.
    pub fn new(
        alloc: Global,
        shape: &Shape,
        first: u64,
    ) -> Result<(LeastWord<P>, WordSeat), NoMemory>
        requires attained { IsAttained P.objective shape.now (pos first) }
        requires small { first ≤ GREATEST_WORTH }
        ensures shape { IfOk result (λ made. made.0.shape ≡ shape.now) }
        ensures seat { IfOk result (λ made.
            made.1 ≡ record { home = made.0; view = new_view first }) }
    {
        let (table, seat) = Table::of_words(alloc, &[first, 0], shape)?;
        let word = LeastWord { table };
        let mut seat = WordSeat { seat };
        // The table gives its first seat the greatest floor.
        word.offer(&mut seat, first);
        Ok((word, seat))
    }

    /// A second seat, which knows what the first one knows. It takes no memory.
    pub fn split(&self, seat: &mut WordSeat) -> WordSeat
        requires own { seat.old.home ≡ self.now }
        ensures seat { seat.new ≡ record seat.old { view = after_split seat.old.view } }
        ensures result { result ≡ record seat.old { view = split_off seat.old.view } }
    {
        let table = &self.table.shared;
        WordSeat {
            seat: table.split_seat::<Halves>(&mut seat.seat),
        }
    }

    /// The seat takes over what the other one knows. It takes no memory.
    pub fn join(&self, seat: &mut WordSeat, other: WordSeat)
        requires own { seat.old.home ≡ self.now }
        requires other_own { other.home ≡ self.now }
        ensures { seat.new ≡ record seat.old { view = after_join seat.old.view other.view } }
    {
        let WordSeat { seat: other } = other;
        self.table.shared.join_seat::<Both>(&mut seat.seat, other);
    }

    /// The least worth that was offered: some drawing of the shape has it. It makes one load, and
    /// takes no memory.
    pub fn read(&self, seat: &mut WordSeat) -> u64
        requires own { seat.old.home ≡ self.now }
        ensures load { seat.new ≡ record seat.old { view = after_load seat.old.view result } }
        ensures attained { IsAttained P.objective self.now.shape (pos result) }
        ensures small { result ≤ GREATEST_WORTH }
        ensures below { result ≤ seat.old.view.floor }
        ensures step { (words : Words) × (words.worth ≡ result)
            × IsStep P.objective self.now.shape words words seat.old.view seat.new.view }
    {
        self.table
            .shared
            .load::<LoadWorth<P>>(&mut seat.seat, WORTH_WORD)
    }

    /// Lowers the least worth to that of a drawing, if it is not less already. It takes no memory.
    pub fn offer(&self, seat: &mut WordSeat, worth: u64)
        requires own { seat.old.home ≡ self.now }
        requires attained { IsAttained P.objective self.now.shape (pos worth) }
        requires small { worth ≤ GREATEST_WORTH }
        ensures lowered { seat.new ≡ record seat.old { view = after_offer seat.old.view worth } }
        ensures step { (words : Words) × IsStep P.objective self.now.shape
            words (lowered words worth) seat.old.view seat.new.view }
    {
        self.table
            .shared
            .fetch_min::<Offer<P>>(&mut seat.seat, WORTH_WORD, worth);
    }

    /// Calls a halt, of which every seat hears from now on. It takes no memory.
    pub fn halt(&self, seat: &mut WordSeat)
        requires own { seat.old.home ≡ self.now }
        ensures halting { seat.new ≡ record seat.old { view = after_halt seat.old.view } }
        ensures step { (words : Words) × IsStep P.objective self.now.shape
            words (halted_word words) seat.old.view seat.new.view }
    {
        self.table
            .shared
            .fetch_or::<Halt<P>>(&mut seat.seat, HALT_WORD, 1);
    }

    /// Whether a halt was called. It makes one load, and takes no memory.
    pub fn halted(&self, seat: &mut WordSeat) -> bool
        requires own { seat.old.home ≡ self.now }
        ensures load { seat.new
            ≡ record seat.old { view = after_halt_load seat.old.view result } }
        ensures heard { result ≡ seat.new.view.heard }
        ensures step { (words : Words) × (IsTrue result ↔ IsHalted words)
            × IsStep P.objective self.now.shape words words seat.old.view seat.new.view }
    {
        let found = self
            .table
            .shared
            .load::<FindHalt<P>>(&mut seat.seat, HALT_WORD);
        found == 1
    }
}
