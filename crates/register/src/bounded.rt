// A list of bounded length over lent memory.
ghost use Rattle.std.specs.Prelude.{◌≡◌, [], ◌∷◌, ◌++◌, length, if◌then◌else◌, nat_lt, slice_set, codes, Some};
ghost use Rattle.std.specs.List.{slice_get};
ghost use Rattle.std.specs.Result.{is_ok};

use std::error::Error;
use std::marker::Model;
use std::{fmt, mem};

// There is no memory for one item more.
#[derive(Clone, Copy, PartialEq, Eq, Debug)]
pub struct CapacityError;

impl fmt::Display for CapacityError {
    ghost output = { λ _. Some (codes "the list is full") };

    fn fmt<W: fmt::Write>(&self, f: &mut fmt::Formatter<W>) -> fmt::Result {
        f.write_str("the list is full")
    }
}

impl Error for CapacityError {}

// The first `len` of the lent slots, in order; what lies behind them is free.
// No `Vec`: it is a rule of the project that registers and sheets lie in memory that the caller lends, with no heap.
#[derive(Drop)]
pub struct BoundedList<'a, T> {
    slots: &'a mut [T],
    len: usize,
}

impl<'a, T> Model for BoundedList<'a, T> {
    ghost use Rattle.std.specs.Prelude.{◌≤◌, length, take};
    ghost use Rattle.register.specs.Bounded.{Bounded};

    ghost Value = { Bounded T };

    ghost view = { λ list. record { items = take list.len list.slots.now; room = length list.slots.now } };

    ghost invariant = { λ list. list.len ≤ length list.slots.now };
}

impl<'a, T: Copy> BoundedList<'a, T> {
    // The empty list, whatever the memory holds.
    pub fn new(slots: &'a mut [T]) -> BoundedList<'a, T>
        ensures { result ≡ record { items = []; room = length slots.old } }
    {
        BoundedList { slots, len: 0 }
    }

    // How many items there are.
    pub fn len(&self) -> usize
        ensures { result ≡ length self.now.items }
    {
        self.len // and not the room
    }

    // How many items there is memory for.
    pub fn room(&self) -> usize
        ensures { result ≡ self.now.room }
    {
        self.slots.len()
    }

    // The items.
    pub fn as_slice(&self) -> &[T]
        ensures { result.now ≡ self.now.items }
    {
        &self.slots[..self.len]
    }

    // The item at an index, none past the last.
    pub fn get(&self, index: usize) -> Option<T>
        ensures { result ≡ slice_get self.now.items index }
    {
        self.as_slice().get(index).copied()
    }

    // One item more at the end; refused, and nothing altered, where there is no memory for it.
    pub fn push(&mut self, item: T) -> Result<(), CapacityError>
        ensures answer { result ≡ (if nat_lt (length self.old.items) self.old.room then Ok tt else Err (record {})) }
        ensures items { self.new.items ≡ (if is_ok result then self.old.items ++ (item ∷ []) else self.old.items) }
        ensures room { self.new.room ≡ self.old.room }
    {
        if self.len == self.slots.len() {
            return Err(CapacityError);
        }
        self.slots[self.len] = item;
        self.len += 1;
        Ok(())
    }

    // Another item in the place of the one at an index, which comes back; nothing is altered past the last.
    pub fn put(&mut self, index: usize, item: T) -> Option<T>
        ensures answer { result ≡ slice_get self.old.items index }
        ensures items { self.new.items ≡ slice_set self.old.items index item }
        ensures room { self.new.room ≡ self.old.room }
    {
        // no `get_mut(index)?` of the first `len`: what is left of the slots after that loan has no name in a proof
        if index < self.len {
            Some(mem::replace(&mut self.slots[index], item))
        } else {
            None
        }
    }
}
