//! Memory as a sink.

ghost use Rattle.std.specs.Prelude.{◌≡◌, ◌↔◌, ◌<◌, Some, IfOk, IsErr, MatchResult};
ghost use Rattle.std.specs.Io.KnownBytes.{Keeps};
ghost use Rattle.io_ends.specs.Counts.{CountsFailure};
ghost use Rattle.io_ends.specs.Portions.{TakesFront};
ghost use Rattle.io_ends.specs.Stores.{new_store, Refuses, portion_of, after_write};

use crate::sink::{Failed, Sink};
use compact_types::{NoMemory, Reserved};
use std::alloc::Global;
use std::marker::Model;

/// A sink in memory with a fixed room, which is written in pieces, with writes that fail on
/// purpose.
#[derive(Debug, Drop)]
pub struct MemorySink {
    /// The bytes that were taken, and the room that is left.
    taken: Reserved<u8>,
    piece: usize,
    failing: Vec<u64>,
    calls: u64,
    faults: u64,
}

impl Model for MemorySink {
    ghost use Rattle.std.specs.Prelude.{◌<◌};
    ghost use Rattle.io_ends.specs.Stores.{Store};

    ghost Value = { Store };

    ghost view = { λ sink. record {
      held = sink.taken.items;
      free = sink.taken.room;
      piece = sink.piece;
      failing = sink.failing.items;
      calls = sink.calls;
      faults = sink.faults;
    } };

    ghost invariant = { λ sink. 0 < sink.piece };
}

impl MemorySink {
    /// A sink with room for `room` bytes, which is taken here. It takes at most `piece` bytes a
    /// call. The calls whose numbers, counted from 1, stand in `failing` fail, and so do those with
    /// bytes where nothing is free.
    pub fn new(
        alloc: Global,
        room: usize,
        piece: usize,
        failing: Vec<u64>,
    ) -> Result<MemorySink, NoMemory>
        requires { 0 < piece }
        ensures { IfOk result (λ sink. sink ≡ new_store room piece failing.items) }
    {
        let taken = Reserved::new(alloc, room)?;
        Ok(MemorySink {
            taken,
            piece,
            failing,
            calls: 0,
            faults: 0,
        })
    }

    /// The bytes that the sink holds.
    pub fn bytes(&self) -> &[u8]
        ensures { result.now ≡ self.now.held }
    {
        self.taken.as_slice()
    }
}

impl Sink for MemorySink {
    ghost held = { λ store. Some store.held };

    ghost faults = { λ store. store.faults };

    fn write(&mut self, bytes: &[u8]) -> Result<usize, Failed>
        // What every sink does.
        ensures moved { MatchResult result
            (TakesFront (Some self.old.held) (Some self.new.held) bytes.now)
            (λ _. Keeps (Some self.old.held) (Some self.new.held)) }
        ensures counted { CountsFailure result self.old.faults self.new.faults }

        // What this one does: when it fails, how much it takes, and what it counts.
        ensures fails { IsErr result ↔ Refuses self.old bytes.now }
        ensures portion { IfOk result (λ count. count ≡ portion_of self.old bytes.now) }
        ensures after { self.new ≡ after_write self.old bytes.now result }
    {
        self.calls = self.calls.saturating_add(1);
        let free = self.taken.room();
        let is_full = free == 0 && !bytes.is_empty();
        if is_full || self.failing.contains(&self.calls) {
            self.faults = self.faults.saturating_add(1);
            return Err(Failed);
        }
        let count = bytes.len().min(self.piece).min(free);
        self.taken.extend_from_slice(&bytes[..count]);
        Ok(count)
    }
}
