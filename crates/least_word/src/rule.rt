//! The rule that the two words keep, and the steps of a seat.

ghost use Rattle.least_word.specs.Views.{after_join, after_split, split_off};
ghost use Rattle.least_word.specs.inner.Plays.{FindsHalt, Halts, Holds, Loads, Offers};
ghost use Rattle.least_word.specs.inner.Plays.{first_member, joined, with_view};

use crate::view::Member;
use atomic_table::{Join, Play, Split, TableRule};
use compact_types::Shape;
use shape_graphs::Backing;
use std::marker::PhantomData;

/// What both words and all seats keep. `P` says what the worths are of.
pub struct Rule<P> {
    measure: PhantomData<P>,
}

impl<P: Backing> TableRule<(), Member, Shape> for Rule<P> {
    ghost holds = { Holds P.objective };

    ghost first = { first_member };
}

/// A load of the worth.
pub struct LoadWorth<P> {
    measure: PhantomData<P>,
}

impl<P: Backing> Play<(), Member> for LoadWorth<P> {
    ghost then = { Loads P.objective };
}

/// A fetch-min of the worth.
pub struct Offer<P> {
    measure: PhantomData<P>,
}

impl<P: Backing> Play<(), Member> for Offer<P> {
    ghost then = { Offers P.objective };
}

/// A fetch-or of the halt word.
pub struct Halt<P> {
    measure: PhantomData<P>,
}

impl<P: Backing> Play<(), Member> for Halt<P> {
    ghost then = { Halts P.objective };
}

/// A load of the halt word.
pub struct FindHalt<P> {
    measure: PhantomData<P>,
}

impl<P: Backing> Play<(), Member> for FindHalt<P> {
    ghost then = { FindsHalt P.objective };
}

/// A second seat that knows as much.
pub struct Halves;

impl Split<Member> for Halves {
    ghost left = { λ seat. with_view seat (after_split seat.view) };

    ghost right = { λ seat. with_view seat (split_off seat.view) };
}

/// One seat that knows what two knew.
pub struct Both;

impl Join<Member> for Both {
    ghost both = { λ seat other. with_view seat (after_join seat.view other.view) };

    ghost spent = { joined };
}
