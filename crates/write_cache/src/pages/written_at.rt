//! Which pending page is written at each place of the dies.
ghost use Rattle.std.specs.Prelude.{◌≡◌, ◌^◌, ◌<◌, ◌||◌, IfOk, find, option_and_then, option_copied};
ghost use Rattle.std.specs.Prelude.{replicate, slice_get};
ghost use Rattle.write_cache.specs.Slots.{is_there};
ghost use Rattle.write_cache.specs.WrittenAt.{entry_left, entry_of, entry_put, is_taken, no_page};
ghost use Rattle.write_cache.specs.WrittenAt.{place_index, place_total, position_of, standing};
ghost use Rattle.write_cache.specs.WrittenAt.{told_of};

use crate::slots::Pending;
use geometry::Config;
use std::alloc::{AllocError, Global};
use std::collections::VecDeque;
use ufs_spec::{Numbers, Place};

/// The entry of a place at which no pending page is written.
const NO_PAGE: u16 = 65_535;

/// Which pending page is written at each place of the dies. It takes two bytes a place.
///
/// An entry is the position of the page that is written there. A page that leaves clears its
/// entry, so every other entry counts. Positions are counted modulo 2^16 - 1 here, which leaves one
/// number for no page. The queue of pages keeps what the table rests on (`IsWrittenAt`): each
/// place of the configuration has an entry; and unless the table is shared, a page of the queue is
/// written at a place exactly if the entry of the place is the page's position.
#[derive(Drop)]
pub(crate) struct WrittenAt {
    /// The configuration, which says what places there are.
    config: Config,
    /// The position of the page that is written there, and `NO_PAGE` where none is, in order of
    /// die, block and page.
    at: Vec<u16>,
    /// The position of the first page.
    first: u16,
    /// Whether a page was ever marked as written at a place where another one was. It then stays so.
    shared: bool,
}

impl WrittenAt {
    /// The table of a queue that has no page.
    ///
    /// # Errors
    ///
    /// Only if memory was refused.
    pub(crate) fn new(alloc: Global, config: Config) -> Result<WrittenAt, AllocError>
        ensures at { IfOk result (λ t. t.at.items ≡ replicate (place_total config) no_page) }
        ensures config { IfOk result (λ t. t.config ≡ config) }
        ensures first { IfOk result (λ t. t.first ≡ 0) }
    {
        let at = vec![in alloc; NO_PAGE; place_count(config.numbers())]?;
        Ok(WrittenAt {
            config,
            at,
            first: 0,
            shared: false,
        })
    }

    /// The page at this place of the queue is written there from now on. Before, it was written at that
    /// other place, if it was: a collection moves pages that are not durable too.
    pub(crate) fn mark(&mut self, place: Place, at: usize, before: Option<Place>)
        requires { at < 2 ^ 16 }
        ensures at { self.new.at.items ≡
            entry_put (entry_left self.old.config self.old.at.items before)
            (position_of self.old.first at) (place_index self.old.config place) }
        ensures shared { self.new.shared ≡ (self.old.shared || is_taken
            (option_and_then (slice_get (entry_left self.old.config self.old.at.items before))
            (place_index self.old.config place))) }
        ensures config { self.new.config ≡ self.old.config }
        ensures first { self.new.first ≡ self.old.first }
    {
        if let Some(old) = before {
            self.put(old, NO_PAGE);
        }
        self.shared |= self.is_taken(place);
        self.put(place, position_of(self.first, at));
    }

    /// The first page of the queue leaves, which was written there, if it was.
    pub(crate) fn leave(&mut self, written: Option<Place>)
        ensures at { self.new.at.items ≡ entry_left self.old.config self.old.at.items written }
        ensures first { self.new.first ≡ position_of self.old.first 1 }
        ensures shared { self.new.shared ≡ self.old.shared }
        ensures config { self.new.config ≡ self.old.config }
    {
        if let Some(place) = written {
            self.put(place, NO_PAGE);
        }
        self.first = position_of(self.first, 1);
    }

    /// The entry of the place. `None` if no device of this configuration has the place, or if the
    /// table is shared.
    pub(crate) fn told(&self, place: Place) -> Option<u16>
        ensures { result ≡ told_of self.now place }
    {
        if self.shared {
            return None;
        }
        self.entry(place)
    }

    /// Where the page with this entry stands in the queue; `None` if it is that of no page.
    pub(crate) fn standing(&self, entry: u16) -> Option<usize>
        ensures { result ≡ standing self.now.first entry }
    {
        standing(self.first, entry)
    }

    /// The entry of the place; `None` if no device of this configuration has the place.
    fn entry(&self, place: Place) -> Option<u16>
        ensures { result ≡ entry_of self.now place }
    {
        let index = place_index(self.config.numbers(), place)?;
        self.at.get(index).copied()
    }

    /// Whether the entry of the place is that of a page.
    fn is_taken(&self, place: Place) -> bool
        ensures { result ≡ is_taken (entry_of self.now place) }
    {
        match self.entry(place) {
            Some(entry) => entry != NO_PAGE,
            None => false,
        }
    }

    /// This is the entry of the place from now on, if a device of this configuration has the place.
    fn put(&mut self, place: Place, entry: u16)
        ensures at { self.new.at.items ≡
            entry_put self.old.at.items entry (place_index self.old.config place) }
        ensures config { self.new.config ≡ self.old.config }
        ensures first { self.new.first ≡ self.old.first }
        ensures shared { self.new.shared ≡ self.old.shared }
    {
        if let Some(index) = place_index(self.config.numbers(), place) {
            if let Some(old) = self.at.get_mut(index) {
                *old = entry;
            }
        }
    }
}

/// The position of the page at this place of the queue, whose first page stands at this position.
fn position_of(first: u16, at: usize) -> u16
    requires { at < 2 ^ 16 }
    ensures { result ≡ position_of first at }
{
    ((first as usize + at) % NO_PAGE as usize) as u16
}

/// Where the page with this entry stands in the queue, whose first page stands at this position;
/// `None` if the entry is that of no page.
fn standing(first: u16, entry: u16) -> Option<usize>
    ensures { result ≡ standing first entry }
{
    if entry == NO_PAGE {
        return None;
    }
    let behind = entry as usize + (NO_PAGE - first) as usize;
    Some(behind % NO_PAGE as usize)
}

/// How many pages the dies have.
fn place_count(numbers: &Numbers) -> usize
    ensures { result ≡ place_total numbers.now }
{
    numbers.dies as usize * numbers.blocks as usize * numbers.pages as usize
}

/// The index of the place among all pages of the dies, which stand by die, then by block; `None` if
/// there is no such page.
fn place_index(numbers: &Numbers, place: Place) -> Option<usize>
    ensures { result ≡ place_index numbers.now place }
{
    if place.die < numbers.dies && place.block < numbers.blocks && place.page < numbers.pages {
        let block = place.die as usize * numbers.blocks as usize + place.block as usize;
        Some(block * numbers.pages as usize + place.page as usize)
    } else {
        None
    }
}

/// The first of the pages that is written there. It looks at them one by one.
pub(super) fn first_there(pages: &VecDeque<Pending>, place: Place) -> Option<&Pending>
    ensures { option_copied result ≡ find (is_there place) pages.now.items }
{
    pages.iter().find(|page| page.is_there(place))
}
