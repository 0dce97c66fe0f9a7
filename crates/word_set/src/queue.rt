//! A set of the places of a queue.

ghost use Rattle.std.specs.Prelude.{◌≡◌, ◌<◌, ◌++◌, ◌∷◌, [], IfOk, IfSome, drop, false, length};
ghost use Rattle.std.specs.Prelude.{replicate, slice_set};
ghost use Rattle.word_set.specs.Flags.{first_passing, is_set};
ghost use Rattle.word_set.specs.QueueRooms.{slot_of};

use crate::words::WordSet;
use std::alloc::{AllocError, Global};
use std::marker::Model;

/// A set of the places of a queue: the first place leaves, and each other moves up by one. All
/// memory is taken by `new`.
///
/// The places have slots one after another, and the place behind that of the last slot has slot 0.
/// Only the slot of the first place is told, and it is one of them.
#[derive(Drop)]
pub struct QueueSet {
    /// Which slots have a place that is in the set.
    slots: WordSet,
    /// The slot of the first place.
    first: usize,
}

impl Model for QueueSet {
    ghost use Rattle.std.specs.Prelude.{Bool, List};

    ghost Value = { List Bool };

    ghost use Rattle.word_set.specs.QueueRooms.{IsTurned, places_of};

    ghost view = { places_of };

    ghost invariant = { IsTurned };
}

impl QueueSet {
    /// A set for so many places, one at least, of which none is in.
    ///
    /// # Errors
    ///
    /// Only if memory was refused.
    pub fn new(alloc: Global, size: usize) -> Result<QueueSet, AllocError>
        requires { 0 < size }
        ensures { IfOk result (λ s. s ≡ replicate size false) }
    {
        let slots = WordSet::new(alloc, size)?;
        Ok(QueueSet { slots, first: 0 })
    }

    /// The place is in the set from now on, or it is not.
    pub fn set(&mut self, place: usize, is_in: bool)
        requires { place < length self.old }
        ensures { self.new ≡ slice_set self.old place is_in }
    {
        let slot = slot_of(self.slots.size(), self.first, place);
        self.slots.set(slot, is_in);
    }

    /// The first place leaves, and each other moves up by one. The last place is not in then.
    pub fn pass(&mut self)
        ensures { self.new ≡ drop 1 self.old ++ false ∷ [] }
    {
        let (first, size) = (self.first, self.slots.size());
        self.slots.set(first, false);
        let next = first + 1;
        self.first = if next < size { next } else { 0 };
    }

    /// The first place at or behind this one that is in the set. Where there is none up to the last
    /// slot, it looks among the slots from the first on, as far as those are of later places.
    pub fn first_from(&self, at: usize) -> Option<usize>
        ensures what { result ≡ first_passing is_set at self.now }
        ensures less { IfSome result (λ k. k < length self.now) }
    {
        let front = self.slots.size() - self.first;
        if at < front {
            if let Some(slot) = self.slots.first_from(self.first + at) {
                return Some(slot - self.first);
            }
        }
        let slot = self.slots.first_from(at.saturating_sub(front))?;
        if slot < self.first {
            Some(slot + front)
        } else {
            None
        }
    }
}

/// The slot of a place, among so many slots, where the first place has this one.
fn slot_of(size: usize, first: usize, place: usize) -> usize
    requires first_there { first < size }
    requires place_there { place < size }
    ensures what { result ≡ slot_of size first place }
    ensures less { result < size }
{
    let front = size - first;
    if place < front {
        first + place
    } else {
        place - front
    }
}
