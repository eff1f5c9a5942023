ghost use Rattle.std.specs.Prelude.{◌≡◌, ◌+◌, ◌≤◌, [], ◌∷◌, ◌++◌, length, OnOk, OnErr, IsOk, slice_get};

use crate::Memory;
use std::alloc::Global;
use std::marker::Model;

/// A list that grows at its end. Contracts see its items in order and its spare, which is how many more it has
/// room for already.
#[derive(Debug)]
pub struct Sequence<T> {
    items: Vec<T>,
}

// What it owns is freed here, so that no other crate proves how each of its parts is dropped.
impl<T: Drop> Drop for Sequence<T> {
    fn drop(self) {
        let Sequence { items: _ } = self;
    }
}

impl<T> Model for Sequence<T> {
    ghost use Rattle.std.specs.Prelude.{◌-◌, vec_len, vec_capacity};
    ghost use Rattle.ra_stamp.specs.Sequence.{Listed};

    ghost Value = { Listed T };

    ghost view = { λ s. record { items = s.items.items; spare = vec_capacity s.items - vec_len s.items } };
}

impl<T: Copy> Sequence<T> {
    /// Makes the empty list. It does not allocate until the first item comes, and then from `alloc`.
    pub fn new(alloc: Global) -> Self
        ensures { result.items ≡ [] }
    {
        Sequence {
            items: Vec::new(alloc),
        }
    }

    /// Returns how many items there are. It does not allocate.
    pub fn len(&self) -> u64
        ensures { result ≡ length self.now.items }
    {
        self.items.len() as u64
    }

    /// Returns the item at this place, counted from 0, or `None` past the end. It does not allocate.
    pub fn at(&self, place: u64) -> Option<T>
        ensures { result ≡ slice_get self.now.items place }
    {
        self.items.get(place as usize).copied()
    }

    /// Returns the items in their order. It does not allocate.
    pub fn as_slice(&self) -> &[T]
        ensures { result.now ≡ self.now.items }
    {
        self.items.as_slice()
    }

    /// Adds an item at the end, in amortized constant time. If there is spare room, it cannot fail.
    ///
    /// # Errors
    ///
    /// `Memory`: the list is as before, with its spare.
    pub fn push(&mut self, item: T) -> Result<(), Memory>
        ensures ok { OnOk result (self.new.items ≡ self.old.items ++ item ∷ []) }
        ensures err { OnErr result (self.new ≡ self.old) }
        ensures succeeds { 1 ≤ self.old.spare → IsOk result }
        ensures spare { 1 ≤ self.old.spare → self.new.spare + 1 ≡ self.old.spare }
    {
        if self.items.len() == self.items.capacity() {
            if self.items.reserve(1).is_err() {
                return Err(Memory);
            }
        }
        self.items.push_reserved(item);
        Ok(())
    }

    /// Makes room for this many more items, in time linear in the number of items.
    ///
    /// # Errors
    ///
    /// `Memory`: the list is as before, with its spare.
    pub fn reserve(&mut self, more: u64) -> Result<(), Memory>
        ensures same { self.new.items ≡ self.old.items }
        ensures ok { OnOk result (more ≤ self.new.spare) }
        ensures err { OnErr result (self.new ≡ self.old) }
        ensures succeeds { more ≤ self.old.spare → IsOk result }
        ensures grows { self.old.spare ≤ self.new.spare }
    {
        match self.items.reserve(more as usize) {
            Ok(()) => Ok(()),
            Err(_) => Err(Memory),
        }
    }
}
