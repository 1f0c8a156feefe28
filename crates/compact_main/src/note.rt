//! A line for the user that takes no memory.

ghost use Rattle.std.specs.Prelude.{◌≡◌, ◌+◌, ◌≤◌, [], ◌++◌, length, codes, decimal};
ghost use Rattle.compact_main.specs.Notes.{around};
ghost use Rattle.compact_main.specs.inner.NoteRooms.{IsAppended};

use itoa::{Buffer, Integer};
use std::marker::Model;

/// The most bytes of a note. Every line for the user fits.
pub(crate) const NOTE_ROOM: usize = 256;

/// One line for the user, in a buffer of fixed size. Contracts see it as its text.
#[derive(Drop)]
pub(crate) struct Note {
    bytes: [u8; NOTE_ROOM],
    length: usize,
}

impl Model for Note {
    ghost use Rattle.std.specs.Prelude.{ℕ, ◌≤◌, List, take};
    ghost use Rattle.compact_main.specs.declared.note.TheConstants.{NOTE_ROOM};

    ghost Value = { List ℕ };

    ghost view = { λ note. take note.length note.bytes };

    ghost invariant = { λ note. note.length ≤ NOTE_ROOM };
}

impl Note {
    /// A note without text.
    pub(crate) fn new() -> Note
        ensures { result ≡ [] }
    {
        Note {
            bytes: [0; NOTE_ROOM],
            length: 0,
        }
    }

    /// Adds `text` at the end, as much of it as there is room for.
    pub(crate) fn push(&mut self, text: &[u8])
        ensures { IsAppended self.old self.new text.now }
    {
        let count = (NOTE_ROOM - self.length).min(text.len());
        let end = self.length + count;
        self.bytes[self.length..end].copy_from_slice(&text[..count]);
        self.length = end;
    }

    /// Adds a text and the offset that it speaks of.
    pub(crate) fn push_at(&mut self, text: &[u8], at: u32)
        ensures added { IsAppended self.old self.new (text.now ++ codes " at byte " ++ decimal at) }
        ensures short { length (text.now ++ codes " at byte " ++ decimal at)
            ≤ length text.now + 19 }
    {
        self.push(text);
        self.push(b" at byte ");
        self.push_number(at);
    }

    /// Adds a number between two texts.
    pub(crate) fn push_around(&mut self, front: &[u8], number: u32, back: &[u8])
        ensures added { IsAppended self.old self.new (around front.now number back.now) }
        ensures short { length (around front.now number back.now)
            ≤ length front.now + 10 + length back.now }
    {
        self.push(front);
        self.push_number(number);
        self.push(back);
    }

    /// Adds the digits of `number`.
    pub(crate) fn push_number<I: Integer>(&mut self, number: I)
        ensures added { IsAppended self.old self.new (I.text number) }
        ensures short { length (I.text number) ≤ I.MAX_STR_LEN }
    {
        let mut buffer = Buffer::new();
        self.push(buffer.format(number).as_bytes());
    }

    /// The text of the note.
    pub(crate) fn as_slice(&self) -> &[u8]
        ensures { result.now ≡ self.now }
    {
        &self.bytes[..self.length]
    }
}
