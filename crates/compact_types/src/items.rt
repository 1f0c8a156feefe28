//! A growing list.

ghost use Rattle.std.specs.Prelude.{◌≡◌, ◌<◌, ◌↔◌, [], ◌∷◌, ◌++◌, length, slice_get, slice_set};
ghost use Rattle.std.specs.Prelude.{IsTrue, IsSome, IfOk, MatchOption, OnOk, OnErr};
ghost use Rattle.std.specs.Option.{option_copied};

use crate::refusal::NoMemory;
use std::alloc::Global;
use std::marker::Model;

/// A growing list that contracts see as the list of its values, so that a copy equals what it
/// copies.
#[derive(Debug, Drop)]
pub struct Items<T> {
    items: Vec<T>,
}

impl<T> Model for Items<T> {
    ghost use Rattle.std.specs.Prelude.{List};
    ghost use Rattle.std.specs.Coded.{coded_list};

    ghost Value = { List T };

    ghost coded = { coded_list T.code };

    ghost view = { λ list. list.items.items };
}

impl<T> Items<T> {
    ghost use Rattle.std.specs.Borrow.{sem};
    ghost use Rattle.std.specs.Option.{option_copied_mut};
    ghost use Rattle.compact_types.specs.Lending.{LendsPlace};

    /// An empty list, which has taken no memory yet.
    pub fn new(alloc: Global) -> Items<T>
        ensures { result ≡ [] }
    {
        Items {
            items: Vec::new(alloc),
        }
    }

    /// The values of `items`, in their order.
    pub fn from_vec(items: Vec<T>) -> Items<T>
        ensures { result ≡ items.items }
    {
        Items { items }
    }

    /// How many values the list has.
    pub fn len(&self) -> usize
        ensures { result ≡ length self.now }
    {
        self.items.len()
    }

    /// Whether the list is empty.
    pub fn is_empty(&self) -> bool
        ensures { IsTrue result ↔ (self.now ≡ []) }
    {
        self.items.is_empty()
    }

    /// The value at `place`, counted from 0; `None` exactly past the end.
    pub fn get(&self, place: usize) -> Option<&T>
        ensures value { option_copied result ≡ slice_get self.now place }
        ensures within { IsSome result ↔ (place < length self.now) }
    {
        self.items.get(place)
    }

    /// A loan of the value at `place`, to write it anew; `None` exactly past the end.
    pub fn get_mut(&mut self, place: usize) -> Option<&mut T>
        ensures* writes_back { sem 𝓛 (LendsPlace T.row self.entry place result) }
        ensures value { option_copied_mut result ≡ slice_get self.old place }
    {
        self.items.get_mut(place)
    }

    /// Takes the last value off; `None` exactly if the list is empty.
    pub fn pop(&mut self) -> Option<T>
        ensures { MatchOption result
            ((self.old ≡ []) × (self.new ≡ []))
            (λ last. self.old ≡ self.new ++ last ∷ []) }
    {
        self.items.pop()
    }

    /// The values as one slice.
    pub fn as_slice(&self) -> &[T]
        ensures { result.now ≡ self.now }
    {
        self.items.as_slice()
    }
}

impl<T: Drop> Items<T> {
    /// Puts `value` at `place`; the value that was there is let go.
    pub fn set(&mut self, place: usize, value: T)
        requires { place < length self.old }
        ensures { self.new ≡ slice_set self.old place value }
    {
        self.items[place] = value;
    }

    /// Adds `value` at the end. Without memory the list stays as it was and `value` is let go.
    pub fn push(&mut self, value: T) -> Result<(), NoMemory>
        ensures ok { OnOk result (self.new ≡ self.old ++ value ∷ []) }
        ensures err { OnErr result (self.new ≡ self.old) }
    {
        self.items.push(value)?;
        Ok(())
    }
}

impl<T: Copy> Items<T> {
    /// A list of the same values, on the same allocator.
    pub fn copy(&self) -> Result<Items<T>, NoMemory>
        ensures { IfOk result (λ copy. copy ≡ self.now) }
    {
        let items = Vec::from_slice(*self.items.allocator(), self.items.as_slice())?;
        Ok(Items { items })
    }

    /// A list of the values of `values`.
    pub fn from_slice(alloc: Global, values: &[T]) -> Result<Items<T>, NoMemory>
        ensures { IfOk result (λ list. list ≡ values.now) }
    {
        let items = Vec::from_slice(alloc, values)?;
        Ok(Items { items })
    }

    /// Adds `values` at the end, in their order. Without memory the list stays as it was.
    pub fn extend_from_slice(&mut self, values: &[T]) -> Result<(), NoMemory>
        ensures ok { OnOk result (self.new ≡ self.old ++ values.now) }
        ensures err { OnErr result (self.new ≡ self.old) }
    {
        self.items.extend_from_slice(values)?;
        Ok(())
    }
}

#[cfg(test)]
mod tests {
    use super::*;
    use std::test::Fail;

    fn both<T: Send + Sync>(_value: &T) {}

    #[test]
    fn grows_and_shrinks(rt: HostRuntime) -> Result<(), Fail> {
        let mut list = Items::new(rt.alloc());
        both(&list);
        list.push(7u8)?;
        list.extend_from_slice(&[8, 9])?;
        assert_eq!(rt; list.as_slice(), [7, 8, 9].as_slice());
        let same = list.copy()?;
        assert_eq!(rt; same.as_slice(), list.as_slice());
        assert_eq!(rt; list.pop(), Some(9));
        assert_eq!(rt; list.get(1), Some(&8));
        assert_eq!(rt; list.get(2), None);
        Ok(())
    }
}
