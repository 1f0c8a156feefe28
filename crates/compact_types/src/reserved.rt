//! A list with its room: memory is taken first, and what is then put in takes none.

ghost use Rattle.std.specs.Prelude.{◌≡◌, ◌<◌, ◌≤◌, ◌+◌, ◌↔◌, [], ◌∷◌, ◌++◌};
ghost use Rattle.std.specs.Prelude.{length, slice_get, IsTrue, IsSome, IfOk, OnOk, OnErr};
ghost use Rattle.std.specs.Prelude.{MatchOption};
ghost use Rattle.std.specs.Option.{option_copied};
ghost use Rattle.compact_types.specs.Rooms.{with_room, with_more};

use crate::refusal::NoMemory;
use std::alloc::Global;
use std::marker::Model;

/// A list that contracts see as its values and the room that is left: how many more values it takes
/// without asking for memory.
#[derive(Debug, Drop)]
pub struct Reserved<T> {
    items: Vec<T>,
}

impl<T> Model for Reserved<T> {
    ghost use Rattle.std.specs.Prelude.{◌-◌, vec_len, vec_capacity};
    ghost use Rattle.compact_types.specs.Rooms.{WithRoom};

    ghost Value = { WithRoom T };

    ghost view = { λ list. record {
      items = list.items.items;
      room = vec_capacity list.items - vec_len list.items;
    } };
}

impl<T> Reserved<T> {
    ghost use Rattle.std.specs.Borrow.{sem};
    ghost use Rattle.std.specs.Option.{option_copied_mut};
    ghost use Rattle.compact_types.specs.LendingRoom.{LendsPlaceOf};

    /// An empty list with room for `room` values, which is taken here.
    pub fn new(alloc: Global, room: usize) -> Result<Reserved<T>, NoMemory>
        ensures { IfOk result (λ list. list ≡ with_room room) }
    {
        let items = Vec::with_capacity(alloc, room)?;
        Ok(Reserved { items })
    }

    /// Makes room for `more` values. Without memory all stays as it was.
    pub fn reserve(&mut self, more: usize) -> Result<(), NoMemory>
        ensures kept { self.new.items ≡ self.old.items }
        ensures ok { OnOk result (more ≤ self.new.room) }
        ensures never_less { self.old.room ≤ self.new.room }
        ensures err { OnErr result (self.new ≡ self.old) }
    {
        self.items.reserve(more)?;
        Ok(())
    }

    /// How many values the list has.
    pub fn len(&self) -> usize
        ensures { result ≡ length self.now.items }
    {
        self.items.len()
    }

    /// Whether the list is empty.
    pub fn is_empty(&self) -> bool
        ensures { IsTrue result ↔ (self.now.items ≡ []) }
    {
        self.items.is_empty()
    }

    /// How many more values the list takes without asking for memory.
    pub fn room(&self) -> usize
        ensures { result ≡ self.now.room }
    {
        self.items.capacity() - self.items.len()
    }

    /// The value at `place`, counted from 0; `None` exactly past the end.
    pub fn get(&self, place: usize) -> Option<&T>
        ensures value { option_copied result ≡ slice_get self.now.items place }
        ensures within { IsSome result ↔ (place < length self.now.items) }
    {
        self.items.get(place)
    }

    /// A loan of the value at `place`, to write it anew; `None` exactly past the end.
    pub fn get_mut(&mut self, place: usize) -> Option<&mut T>
        ensures* writes_back { sem 𝓛 (LendsPlaceOf T.row self.entry place result) }
        ensures value { option_copied_mut result ≡ slice_get self.old.items place }
    {
        self.items.get_mut(place)
    }

    /// Adds `value` at the end. There has to be room. It takes no memory.
    pub fn push(&mut self, value: T)
        requires { 0 < self.old.room }
        ensures { self.new ≡ with_more self.old (value ∷ []) }
    {
        self.items.push_reserved(value);
    }

    /// Takes the last value off, whose room is left then; `None` exactly if the list is empty.
    pub fn pop(&mut self) -> Option<T>
        ensures { MatchOption result
            ((self.old.items ≡ []) × (self.new ≡ self.old))
            (λ last. (self.old.items ≡ self.new.items ++ last ∷ [])
            × (self.new.room ≡ self.old.room + 1)) }
    {
        self.items.pop()
    }

    /// The values as one slice.
    pub fn as_slice(&self) -> &[T]
        ensures { result.now ≡ self.now.items }
    {
        self.items.as_slice()
    }
}

impl<T: Copy> Reserved<T> {
    /// Adds `values` at the end, in their order. There has to be room for them. It takes no memory.
    pub fn extend_from_slice(&mut self, values: &[T])
        requires { length values.now ≤ self.old.room }
        ensures { self.new ≡ with_more self.old values.now }
    {
        for value in values {
            self.push(*value);
        }
    }
}

#[cfg(test)]
mod tests {
    use super::*;
    use std::test::Fail;

    fn both<T: Send + Sync>(_value: &T) {}

    fn crosses<T: Send + Sync>(list: &Reserved<T>) {
        both(list);
    }

    #[test]
    fn fills_its_room(rt: HostRuntime) -> Result<(), Fail> {
        let mut list = Reserved::new(rt.alloc(), 2).ok().ok_or("room")?;
        crosses(&list);
        list.push(7u8);
        list.push(8);
        assert_eq!(rt; list.room(), 0);
        list.reserve(1).ok().ok_or("more room")?;
        list.push(9);
        if let Some(value) = list.get_mut(1) {
            *value = 6;
        }
        assert_eq!(rt; list.as_slice(), [7, 6, 9].as_slice());
        assert_eq!(rt; list.pop(), Some(9));
        assert_eq!(rt; list.get(1), Some(&6));
        assert_eq!(rt; list.get(2), None);
        Ok(())
    }
}
