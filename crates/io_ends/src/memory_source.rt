//! Bytes in memory as a source.

ghost use Rattle.std.specs.Prelude.{◌≡◌, ◌↔◌, ◌<◌, length, take, min, Some, ⊤};
ghost use Rattle.std.specs.Io.KnownBytes.{Keeps};
ghost use Rattle.io_ends.specs.Steps.{MatchStep, GivesNext, GivesNothing, CountsStep};
ghost use Rattle.io_ends.specs.Supplies.{new_supply, FailsNext, share_of, after_read};

use crate::source::{Source, Step};
use std::marker::Model;

/// Bytes in memory that are read in pieces, with reads that fail on purpose.
#[derive(Debug, Drop)]
pub struct MemorySource {
    bytes: Vec<u8>,
    /// How many of `bytes` were given.
    given: usize,
    piece: usize,
    failing: Vec<u64>,
    calls: u64,
    faults: u64,
}

impl Model for MemorySource {
    ghost use Rattle.std.specs.Prelude.{◌<◌, ◌≤◌, drop, vec_len};
    ghost use Rattle.io_ends.specs.Supplies.{Supply};

    ghost Value = { Supply };

    ghost view = { λ source. record {
      left = drop source.given source.bytes.items;
      piece = source.piece;
      failing = source.failing.items;
      calls = source.calls;
      faults = source.faults;
    } };

    ghost invariant = { λ source. (source.given ≤ vec_len source.bytes) × (0 < source.piece) };
}

impl MemorySource {
    /// A source of `bytes` that gives at most `piece` of them a call. The calls whose numbers,
    /// counted from 1, stand in `failing` fail.
    pub fn new(bytes: Vec<u8>, piece: usize, failing: Vec<u64>) -> MemorySource
        requires { 0 < piece }
        ensures { result ≡ new_supply bytes.items piece failing.items }
    {
        MemorySource {
            bytes,
            given: 0,
            piece,
            failing,
            calls: 0,
            faults: 0,
        }
    }
}

impl Source for MemorySource {
    ghost left = { λ supply. Some supply.left };

    ghost faults = { λ supply. supply.faults };

    fn read(&mut self, into: &mut [u8]) -> Step
        requires { 0 < length into.old }
        // What every source does.
        ensures moved { MatchStep result
            (GivesNext (Some self.old.left) (Some self.new.left) into.new)
            (GivesNothing (Some self.old.left) (Some self.new.left))
            (Keeps (Some self.old.left) (Some self.new.left)) }
        ensures counted { CountsStep result self.old.faults self.new.faults }

        // What this one does: when it fails, how much it gives, and what it counts.
        ensures fails { (result ≡ Step.Failed) ↔ FailsNext self.old }
        ensures share { MatchStep result
            (λ count. count ≡ share_of self.old (length into.old)) ⊤ ⊤ }
        ensures after { self.new ≡ after_read self.old result }
    {
        self.calls = self.calls.saturating_add(1);
        if self.failing.contains(&self.calls) {
            self.faults = self.faults.saturating_add(1);
            return Step::Failed;
        }
        let count = copy_front(&self.bytes[self.given..], self.piece, into);
        if count == 0 {
            return Step::End;
        }
        self.given += count;
        Step::Got(count)
    }
}

/// Bytes in memory that never fail to be read.
#[derive(Debug, Drop)]
pub struct PlainSource<'a> {
    rest: &'a [u8],
}

impl<'a> Model for PlainSource<'a> {
    ghost use Rattle.std.specs.Prelude.{List, ℕ};

    ghost Value = { List ℕ };

    ghost view = { λ source. source.rest.now };
}

impl<'a> PlainSource<'a> {
    /// A source of `bytes`, which contracts see as the bytes that are left.
    pub fn new(bytes: &'a [u8]) -> PlainSource<'a>
        ensures { result ≡ bytes.now }
    {
        PlainSource { rest: bytes }
    }
}

impl Source for PlainSource<'_> {
    ghost left = { λ left. Some left };

    ghost faults = { λ _. 0 };

    fn read(&mut self, into: &mut [u8]) -> Step {
        let count = copy_front(self.rest, self.rest.len(), into);
        if count == 0 {
            return Step::End;
        }
        self.rest = &self.rest[count..];
        Step::Got(count)
    }
}

/// Copies the front of `from` to the front of `into`, at most `most` bytes, and says how many.
fn copy_front(from: &[u8], most: usize, into: &mut [u8]) -> usize
    ensures count { result ≡ min (min (length from.now) most) (length into.old) }
    ensures copied { take result into.new ≡ take result from.now }
{
    let count = from.len().min(most).min(into.len());
    into[..count].copy_from_slice(&from[..count]);
    count
}
