//! The ring of the pending groups: an entry for each, in order of number.
ghost use Rattle.std.specs.Prelude.{◌≡◌, ◌+◌, ◌-◌, ◌^◌, ◌<◌, ◌≤◌, IfOk, IfSome, MatchOption};
ghost use Rattle.std.specs.Prelude.{Some, []};
ghost use Rattle.std.specs.Prelude.{length, min, slice_get, slice_set};
ghost use Rattle.std.specs.VecDeque.{deque_capacity};
ghost use Rattle.write_cache.specs.Ring.{IsRising, HasNone, back, begun};
ghost use Rattle.write_cache.specs.Ring.{first_number, is_straight, longer, noted, place_of};
ghost use Rattle.write_cache.specs.Ring.{row_with, shorter, shortened, written};

use std::alloc::{AllocError, Global};
use std::collections::VecDeque;

/// What the ring tells of a pending group. A position counts the pages that were put in before it,
/// modulo 2^16, which is enough since fewer pages are pending at a time.
#[derive(Clone, Copy)]
pub(crate) struct GroupAt {
    /// Its number.
    pub(crate) number: u64,
    /// How many of its pages are pending: one at least.
    pub(crate) pages: u16,
    /// How many of these are not written.
    pub(crate) unwritten: u16,
    /// The position behind its last page.
    pub(crate) end: u16,
    /// The index of its last page.
    pub(crate) last: u16,
    /// How many of its last pages have indexes that rise by one from page to page. Some of them
    /// may have left.
    pub(crate) row: u16,
}

/// An entry of the ring, and which it is.
#[derive(Clone, Copy)]
pub(crate) struct Entry {
    pub(crate) at: usize,
    pub(crate) group: GroupAt,
}

impl GroupAt {
    /// The entry of a group that begins with a page of this index, which stands at this position
    /// and is not written.
    fn begun(number: u64, index: u16, at: u16) -> GroupAt
        ensures { result ≡ begun number index at }
    {
        GroupAt {
            number,
            pages: 1,
            unwritten: 1,
            end: at.wrapping_add(1),
            last: index,
            row: 1,
        }
    }

    /// The entry, once a page of this index stands behind the others, which is not written.
    fn longer(self, index: u16) -> GroupAt
        requires few { self.pages < 2 ^ 16 - 1 }
        requires counted { self.unwritten ≤ self.pages }
        ensures { result ≡ longer self index }
    {
        GroupAt {
            pages: self.pages + 1,
            unwritten: self.unwritten + 1,
            end: self.end.wrapping_add(1),
            last: index,
            row: self.row_with(index),
            ..self
        }
    }

    /// How many of the last pages have indexes that rise by one, once a page of this index is the
    /// last.
    fn row_with(self, index: u16) -> u16
        ensures { result ≡ row_with self index }
    {
        if index as u32 == self.last as u32 + 1 {
            self.row.saturating_add(1)
        } else {
            1
        }
    }

    /// The entry without its first page.
    fn shorter(self, is_open: bool) -> GroupAt
        ensures { result ≡ shorter self is_open }
    {
        GroupAt {
            pages: self.pages.saturating_sub(1),
            ..self.written(is_open)
        }
    }

    /// The entry, once one page more is written, if it was not.
    pub(crate) fn written(self, is_open: bool) -> GroupAt
        ensures { result ≡ written self is_open }
    {
        let less = if is_open { 1 } else { 0 };
        GroupAt {
            unwritten: self.unwritten.saturating_sub(less),
            ..self
        }
    }

    /// Whether the indexes of its pages rise by one from page to page.
    pub(crate) fn is_straight(self) -> bool
        ensures { result ≡ is_straight self }
    {
        self.pages <= self.row
    }

    /// Where its page of this index stands, behind the position of the first page of all, if its
    /// indexes rise by one from page to page and it has such a page.
    pub(crate) fn place_of(self, landed: u16, index: u16) -> Option<usize>
        ensures { result ≡ place_of self landed index }
    {
        if index > self.last || self.last - index >= self.pages {
            return None;
        }
        let behind = self.last - index + 1;
        let at = self.end.wrapping_sub(behind);
        Some(at.wrapping_sub(landed) as usize)
    }

    /// Where its first page stands, behind the position of the first page of all.
    pub(crate) fn first(self, landed: u16) -> usize
        ensures { result ≡ back (back self.end self.pages) landed }
    {
        let at = self.end.wrapping_sub(self.pages);
        at.wrapping_sub(landed) as usize
    }
}

/// The entries of the pending groups, in order of number.
#[derive(Drop)]
pub(crate) struct Ring {
    entries: VecDeque<GroupAt>,
}

impl Ring {
    /// A ring with room for so many groups.
    pub(crate) fn new(alloc: Global, room: u16) -> Result<Ring, AllocError>
        ensures none { IfOk result (λ r. r.entries.items ≡ []) }
        ensures room { IfOk result (λ r. room ≤ deque_capacity r.entries) }
    {
        let entries = VecDeque::with_capacity(alloc, room as usize)?;
        Ok(Ring { entries })
    }

    /// How many groups are pending.
    pub(crate) fn len(&self) -> usize
        ensures { result ≡ length self.now.entries.items }
    {
        self.entries.len()
    }

    /// The entry at this place.
    pub(crate) fn entry(&self, at: usize) -> GroupAt
        requires { at < length self.now.entries.items }
        ensures { slice_get self.now.entries.items at ≡ Some result }
    {
        self.entries[at]
    }

    /// This is the entry at the place from now on.
    pub(crate) fn set(&mut self, at: usize, group: GroupAt)
        ensures after { self.new.entries.items ≡ slice_set self.old.entries.items at group }
        ensures room { deque_capacity self.new.entries ≡ deque_capacity self.old.entries }
    {
        if let Some(entry) = self.entries.get_mut(at) {
            *entry = group;
        }
    }

    /// The number of the first group, and this one where none is pending.
    pub(crate) fn first_number(&self, otherwise: u64) -> u64
        ensures { result ≡ first_number otherwise self.now.entries.items }
    {
        if self.len() == 0 {
            return otherwise;
        }
        self.entry(0).number
    }

    /// A page more is behind all others, at this position if it is the only one: one of this number
    /// and index, which is not written.
    pub(crate) fn note(&mut self, landed: u16, number: u64, index: u16)
        requires room { length self.old.entries.items < deque_capacity self.old.entries }
        requires few { IfSome (slice_get self.old.entries.items (length self.old.entries.items - 1))
            (λ g. (g.pages < 2 ^ 16 - 1) × (g.unwritten ≤ g.pages)) }
        ensures after { self.new.entries.items ≡ noted landed number index self.old.entries.items }
        ensures room { deque_capacity self.new.entries ≡ deque_capacity self.old.entries }
    {
        if self.len() == 0 {
            let group = GroupAt::begun(number, index, landed);
            self.entries.push_back_reserved(group);
            return;
        }
        let at = self.len() - 1;
        let last = self.entry(at);
        if last.number == number {
            self.set(at, last.longer(index));
        } else {
            let group = GroupAt::begun(number, index, last.end);
            self.entries.push_back_reserved(group);
        }
    }

    /// The first page of the first group is gone, and the group with its last one.
    pub(crate) fn shorten(&mut self, is_open: bool)
        ensures after { self.new.entries.items ≡ shortened is_open self.old.entries.items }
        ensures room { deque_capacity self.new.entries ≡ deque_capacity self.old.entries }
    {
        if self.len() == 0 {
            return;
        }
        let first = self.entry(0);
        if first.pages > 1 {
            self.set(0, first.shorter(is_open));
        } else {
            let _gone = self.entries.pop_front();
        }
    }

    /// The entry of the group with this number, if it is pending, where this is the first number.
    ///
    /// Each number has one entry at most, so the entry stands no further behind the first than its
    /// number does. Where all numbers between are pending it is the first one looked at.
    pub(crate) fn find(&self, front: u64, number: u64) -> Option<Entry>
        requires { IsRising front self.now.entries.items }
        ensures { MatchOption result (HasNone number self.now.entries.items) (λ e.
            (slice_get self.now.entries.items e.at ≡ Some e.group) × (e.group.number ≡ number)) }
    {
        if number < front {
            return None;
        }
        let reach = self.reach(number - front);
        for passed in 0..reach {
            let at = reach - 1 - passed;
            let group = self.entry(at);
            if group.number == number {
                return Some(Entry { at, group });
            }
            if group.number < number {
                return None;
            }
        }
        None
    }

    /// How many entries stand at most so far behind the first, with it.
    fn reach(&self, most: u64) -> usize
        ensures { result ≡ min (most + 1) (length self.now.entries.items) }
    {
        let all = self.len();
        if most < all as u64 {
            most as usize + 1
        } else {
            all
        }
    }
}
