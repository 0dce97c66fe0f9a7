//! The pages of pending groups in order of number and index, with a ring that tells where each
//! group stands.
ghost use Rattle.std.specs.Prelude.{◌≡◌, ◌+◌, ◌-◌, ◌^◌, ◌<◌, ◌≤◌, ◌++◌, ◌∷◌, [], IfOk, IfSome};
ghost use Rattle.std.specs.Prelude.{None, drop, filter, find, length, map, not, option_and_then};
ghost use Rattle.std.specs.Prelude.{option_copied, option_map, position, slice_get, take};
ghost use Rattle.std.specs.List.{position_from};
ghost use Rattle.std.specs.VecDeque.{deque_capacity};
ghost use Rattle.write_cache.specs.Kept.{Queue};
ghost use Rattle.write_cache.specs.Ready.{first_ready_from, first_waiting_from};
ghost use Rattle.write_cache.specs.Rests.{rests_filled};
ghost use Rattle.write_cache.specs.Ring.{Stands, is_open_at, shown};
ghost use Rattle.write_cache.specs.WrittenAt.{place_before};
ghost use Rattle.write_cache.specs.Slots.{front_written, is_named, is_of_group, is_there, last_page};
ghost use Rattle.write_cache.specs.Slots.{page_written, written_at};

mod fill;
mod newest;
mod ring;
mod written_at;

use self::fill::fill_pages;
use self::newest::{Newest, last_among, page_if_of};
use self::ring::{GroupAt, Ring};
use self::written_at::{WrittenAt, first_there};
use crate::slots::{Pending, WholeGroup};
use geometry::Config;
use std::alloc::{AllocError, Global};
use std::collections::VecDeque;
use std::marker::Model;
use ufs_spec::{Key, Name, Place};
use word_set::QueueSet;

/// The pages of pending groups, in order of number and index. All memory is taken by `new`.
///
/// The entries of the ring tell of all pages, one group after another: whose they are, how many,
/// how many of them are not written, at which position they end, and how many of the last have
/// indexes that rise by one. The numbers rise from entry to entry. There is room for as many
/// entries as pages. The table of positions tells of each key where its last page stands, while
/// one is here, and the table of what is written tells of each place of the dies which page is
/// written there, if one is. The set of places that are ready has those of all pages that are
/// neither written nor wait for their rest, and no others; the set of those that wait has those of
/// all pages that wait. Each has room for as many places as pages.
#[derive(Drop)]
pub(crate) struct Pages {
    /// How many pages there may be.
    room: u16,
    /// The pages.
    pages: VecDeque<Pending>,
    /// What there is to tell of each group that has pages here.
    groups: Ring,
    /// Where the newest page of each key stands.
    positions: Newest,
    /// Which page is written at each place of the dies.
    written: WrittenAt,
    /// The position of the first page: how many left before it, modulo 2^16.
    landed: u16,
    /// The number of the first group, while there is one.
    front: u64,
    /// The number of the page that was put in last.
    newest: u64,
    /// The places of the pages that can be programmed now.
    ready: QueueSet,
    /// The places of the pages that wait for their rest.
    waiting: QueueSet,
}

impl Model for Pages {
    ghost use Rattle.write_cache.specs.Kept.{Queue};

    ghost Value = { Queue };

    ghost use Rattle.write_cache.specs.Queue.{IsTold, queue_of};

    ghost view = { queue_of };

    ghost invariant = { IsTold };
}

impl Pages {
    /// Room for so many pages, and none yet.
    ///
    /// # Errors
    ///
    /// Only if memory was refused.
    pub(crate) fn new(alloc: Global, config: Config, room: u16) -> Result<Pages, AllocError>
        ensures { IfOk result (λ q. q ≡ record { room = room; items = []; newest = 0 }) }
    {
        let pages = VecDeque::with_capacity(alloc, room as usize)?;
        let places = room.max(1) as usize;
        let ready = QueueSet::new(alloc, places)?;
        let waiting = QueueSet::new(alloc, places)?;
        Ok(Pages {
            room,
            pages,
            groups: Ring::new(alloc, room)?,
            positions: Newest::new(alloc, config.copied())?,
            written: WrittenAt::new(alloc, config)?,
            landed: 0,
            front: 0,
            newest: 0,
            ready,
            waiting,
        })
    }

    /// The pages, for calls that look at all of them.
    pub(crate) fn all(&self) -> &VecDeque<Pending>
        ensures { result.now.items ≡ self.now.items }
    {
        &self.pages
    }

    /// The page at this place; `None` behind the last.
    pub(crate) fn page(&self, at: usize) -> Option<&Pending>
        ensures { option_copied result ≡ slice_get self.now.items at }
    {
        self.pages.get(at)
    }

    /// The last page that is of the key. It looks at one page, unless no device of this
    /// configuration has the key: then it looks at all.
    pub(crate) fn last_page(&self, key: Key) -> Option<&Pending>
        ensures { option_copied result ≡ last_page key self.now.items }
    {
        match self.positions.place_of(key, self.landed) {
            Some(at) => page_if_of(&self.pages, at, key),
            None => last_among(&self.pages, key),
        }
    }

    /// The page that is written there, if one is. It looks at one page, unless the table cannot
    /// tell: then it looks at all.
    pub(crate) fn page_there(&self, place: Place) -> Option<&Pending>
        ensures { option_copied result ≡ find (is_there place) self.now.items }
    {
        match self.written.told(place) {
            Some(entry) => page_standing(&self.pages, self.written.standing(entry)),
            None => first_there(&self.pages, place),
        }
    }

    /// Puts a page behind all others, of their last group or of a later one.
    pub(crate) fn push(&mut self, page: Pending)
        requires room { length self.old.items < self.old.room }
        requires newer { self.old.newest ≤ page.number }
        requires unwritten { page.written ≡ None }
        ensures { self.new ≡ record self.old {
          items = self.old.items ++ page ∷ [];
          newest = page.number;
        } }
    {
        self.groups.note(self.landed, page.number, page.index);
        self.front = self.groups.first_number(self.front);
        self.newest = page.number;
        let position = self.landed.wrapping_add(self.pages.len() as u16);
        self.positions.note_at(page.key, position);
        self.ready.set(self.pages.len(), page.is_ready());
        self.waiting.set(self.pages.len(), page.waits());
        self.pages.push_back_reserved(page);
    }

    /// Takes the first page out. This looks at the slot of the page, at the entry of its group and,
    /// where it was the last page of this, at that of the next.
    pub(crate) fn take_first(&mut self) -> Option<Pending>
        ensures what { result ≡ slice_get self.old.items 0 }
        ensures after { self.new ≡ record self.old { items = drop 1 self.old.items } }
    {
        let page = self.pages.pop_front()?;
        self.groups.shorten(page.written.is_none());
        self.front = self.groups.first_number(self.front);
        self.landed = self.landed.wrapping_add(1);
        self.written.leave(page.written);
        self.ready.pass();
        self.waiting.pass();
        Some(page)
    }

    /// The first group, if all its pages are written. This looks at the entry of the group alone.
    pub(crate) fn front_written(&self) -> Option<WholeGroup>
        ensures what { option_map (λ (g : WholeGroup). g.number) result
            ≡ front_written self.now.items }
        ensures first { IfSome result (λ g. take g.pages self.now.items ≡
            filter (is_of_group g.number) self.now.items) }
        ensures others { IfSome result (λ g. drop g.pages self.now.items ≡
            filter (λ p. not (is_of_group g.number p)) self.now.items) }
        ensures some { IfSome result (λ g. (0 < g.pages) × (g.pages ≤ length self.now.items)) }
    {
        if self.groups.len() == 0 {
            return None;
        }
        let group = self.groups.entry(0);
        if group.unwritten > 0 {
            return None;
        }
        Some(WholeGroup {
            number: group.number,
            pages: group.pages as usize,
        })
    }

    /// Where the page with this number and index stands, if it is pending.
    pub(crate) fn place_named(&self, number: u64, index: u16) -> Option<usize>
        ensures { result ≡ position (is_named number index) self.now.items }
    {
        let entry = self.groups.find(self.front, number)?;
        place_in(&self.pages, self.landed, entry.group, index)
    }

    /// The page with this number and index is written there, if it is pending.
    pub(crate) fn mark_written(&mut self, number: u64, index: u16, place: Place)
        ensures { self.new ≡ record self.old {
          items = page_written self.old.items number index place;
        } }
    {
        let Some(entry) = self.groups.find(self.front, number) else {
            return;
        };
        let found = place_in(&self.pages, self.landed, entry.group, index);
        if let Some(at) = found {
            let before = written_before(&self.pages, at);
            let is_open = write_at(&mut self.pages, at, place);
            self.groups.set(entry.at, entry.group.written(is_open));
            self.ready.set(at, false);
            self.written.mark(place, at, before);
        }
    }

    /// Gives their rest to all pages that wait for the read that is done for the page of this name,
    /// which brought these 4096 bytes.
    pub(crate) fn fill_rests(&mut self, name: Name, block: &[u8])
        requires { length block.now ≡ 4096 }
        ensures { self.new ≡ record self.old {
          items = rests_filled name block.now self.old.items;
        } }
    {
        fill_pages(
            &mut self.pages,
            &mut self.ready,
            &mut self.waiting,
            name,
            block,
        );
    }

    /// The first place at or behind this one whose page can be programmed now: it is neither
    /// written nor waits for its rest.
    pub(crate) fn first_ready(&self, from: usize) -> Option<usize>
        ensures what { result ≡ first_ready_from self.now.items from }
        ensures less { IfSome result (λ k. k < length self.now.items) }
        ensures small { IfSome result (λ k. k < 2 ^ 16) }
    {
        self.ready.first_from(from)
    }

    /// The first place at or behind this one whose page waits for its rest.
    pub(crate) fn first_waiting(&self, from: usize) -> Option<usize>
        ensures what { result ≡ first_waiting_from self.now.items from }
        ensures less { IfSome result (λ k. k < length self.now.items) }
        ensures small { IfSome result (λ k. k < 2 ^ 16) }
    {
        self.waiting.first_from(from)
    }
}

/// The page that stands there.
fn page_standing(pages: &VecDeque<Pending>, at: Option<usize>) -> Option<&Pending>
    ensures { option_copied result ≡ option_and_then (slice_get pages.now.items) at }
{
    pages.get(at?)
}

/// Where the page of this index stands that is of the group of this entry, if there is one. It
/// looks at no page where the indexes of the group rise by one from page to page.
fn place_in(pages: &VecDeque<Pending>, landed: u16, group: GroupAt, index: u16) -> Option<usize>
    requires stands { Stands landed group (map shown pages.now.items) }
    requires few { length pages.now.items < 2 ^ 16 }
    ensures { result ≡ position (is_named group.number index) pages.now.items }
{
    if group.is_straight() {
        return group.place_of(landed, index);
    }
    let first = group.first(landed);
    place_among(pages, first, group, index)
}

/// Where the page of this index stands that is of the group of this entry, among as many from this
/// place on as the group has.
fn place_among(pages: &VecDeque<Pending>, first: usize, group: GroupAt, index: u16) -> Option<usize>
    requires { first + group.pages ≤ length pages.now.items }
    ensures { result ≡ position_from (is_named group.number index) first
        (take group.pages (drop first pages.now.items)) }
{
    for passed in 0..group.pages {
        let at = first + passed as usize;
        if pages[at].is_named(group.number, index) {
            return Some(at);
        }
    }
    None
}

/// Where the page at this place is written, if it is.
fn written_before(pages: &VecDeque<Pending>, at: usize) -> Option<Place>
    ensures { result ≡ place_before (slice_get pages.now.items at) }
{
    match pages.get(at) {
        Some(page) => page.written,
        None => None,
    }
}

/// The page at this place is written there, and whether it was not written before.
fn write_at(pages: &mut VecDeque<Pending>, at: usize, place: Place) -> bool
    ensures was { result ≡ is_open_at (slice_get pages.old.items at) }
    ensures after { pages.new.items ≡
        written_at pages.old.items at place (slice_get pages.old.items at) }
    ensures room { deque_capacity pages.new ≡ deque_capacity pages.old }
{
    match pages.get_mut(at) {
        Some(page) => {
            let is_open = page.written.is_none();
            page.written = Some(place);
            is_open
        }
        None => false,
    }
}
