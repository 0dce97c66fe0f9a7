//! The write cache and its calls.
ghost use Rattle.std.specs.Prelude.{◌≡◌, ◌<◌, ◌≤◌, ◌+◌, ◌-◌, ◌^◌, length, IsTrue, vec_capacity, IfOk};
ghost use Rattle.std.specs.Prelude.{IfSome, nat_le, ◌++◌, ◌∷◌, [], if◌then◌else◌, slice_get};
ghost use Rattle.std.specs.Prelude.{map, filter, not, Some, option_copied, option_map, find};
ghost use Rattle.std.specs.Prelude.{take, drop};
ghost use Rattle.ufs_spec.specs.Pages.{greatest_number};
ghost use Rattle.write_cache.specs.Kept.{WriteCache};
ghost use Rattle.write_cache.specs.Ready.{first_ready_from, first_waiting_from};
ghost use Rattle.write_cache.specs.Slots.{appended, claim_filled, claimed_all, claims_of};
ghost use Rattle.write_cache.specs.Slots.{free_slots, front_written, has_number, empty_claim};
ghost use Rattle.write_cache.specs.Slots.{is_named, is_of_group, is_there};
ghost use Rattle.write_cache.specs.Slots.{landed, last_page, page_written, risen};
ghost use Rattle.write_cache.specs.Slots.{without_claims, without_claims_behind};

mod groups;

use crate::claims::{Claims, NewGroup};
use crate::pages::Pages;
use crate::slots::{Claimed, Landed, Pending, WholeGroup};
use geometry::Config;
use std::alloc::{AllocError, Global};
use std::marker::Model;
use ufs_bytes::Body;
use ufs_spec::{GREATEST_NUMBER, Key, Place};

/// The write cache: slots for the blocks that are accepted or claimed and not durable. All memory is taken by
/// `new`, and a block stays where it was put until its page is durable.
#[derive(Drop)]
pub struct Cache {
    /// How many slots there are.
    slots: u16,
    /// The slots that nobody holds.
    free: Vec<Body>,
    /// The pages of pending groups, in order of number and index.
    pages: Pages,
    /// The slots that are claimed for groups to come, those of a reader in the order of its blocks.
    claims: Claims,
    /// Every group up to this number is durable or lost. It is at most `last`.
    frontier: u64,
    /// The greatest number that was given. It is at most 2^62.
    last: u64,
}

impl Model for Cache {
    ghost use Rattle.write_cache.specs.Kept.{WriteCache};

    ghost Value = { WriteCache };

    ghost use Rattle.write_cache.specs.Rooms.{cache_of, IsRoomy};

    ghost view = { cache_of };

    ghost invariant = { IsRoomy };
}

impl Cache {
    /// A cache of so many free slots for a device of this configuration, over an array in which
    /// this is the greatest number.
    ///
    /// # Errors
    ///
    /// Only if memory was refused.
    pub fn new(alloc: Global, config: Config, slots: u16, last: u64) -> Result<Cache, AllocError>
        requires { last ≤ greatest_number }
        ensures { IfOk result (λ c. c ≡ record {
          slots = slots;
          pages = [];
          claims = [];
          frontier = last;
          last = last;
        }) }
    {
        let free = bodies(alloc, slots)?;
        Ok(Cache {
            slots,
            free,
            pages: Pages::new(alloc, config, slots)?,
            claims: Claims::new(alloc, slots)?,
            frontier: last,
            last,
        })
    }

    /// Every group up to this number is durable or lost.
    pub fn frontier(&self) -> u64
        ensures is { result ≡ self.now.frontier }
        ensures bound { result ≤ greatest_number }
    {
        self.frontier
    }

    /// The greatest number that was given to a group.
    pub fn last_number(&self) -> u64
        ensures is { result ≡ self.now.last }
        ensures bound { result ≤ greatest_number }
        ensures behind { self.now.frontier ≤ result }
    {
        self.last
    }

    /// Whether a number is left for one group more.
    pub fn has_number(&self) -> bool
        ensures { result ≡ has_number self.now }
    {
        self.last < GREATEST_NUMBER
    }

    /// How many slots neither a pending group nor a claim holds.
    pub fn free_slots(&self) -> usize
        ensures { result ≡ free_slots self.now }
    {
        self.free.len()
    }

    /// How many pages are of groups that are accepted and not durable.
    pub fn pending(&self) -> usize
        ensures count { result ≡ length self.now.pages }
        ensures within { length self.now.pages + length self.now.claims ≤ self.now.slots }
    {
        self.pages.all().len()
    }

    /// The page at this position, in order of number and index; `None` behind the last.
    pub fn page(&self, at: usize) -> Option<&Pending>
        ensures { option_copied result ≡ slice_get self.now.pages at }
    {
        self.pages.page(at)
    }

    /// The first position at or behind this one whose page can be programmed now: it is neither
    /// written nor waits for its rest.
    pub fn first_ready(&self, from: usize) -> Option<usize>
        ensures what { result ≡ first_ready_from self.now.pages from }
        ensures less { IfSome result (λ k. k < length self.now.pages) }
        ensures small { IfSome result (λ k. k < 2 ^ 16) }
    {
        self.pages.first_ready(from)
    }

    /// The first position at or behind this one whose page waits for its rest.
    pub fn first_waiting(&self, from: usize) -> Option<usize>
        ensures what { result ≡ first_waiting_from self.now.pages from }
        ensures less { IfSome result (λ k. k < length self.now.pages) }
        ensures small { IfSome result (λ k. k < 2 ^ 16) }
    {
        self.pages.first_waiting(from)
    }

    /// The last page of a pending group that is of the address. It looks at one page, unless no
    /// device of this configuration has the address: then it looks at all.
    pub fn last_page(&self, key: Key) -> Option<&Pending>
        ensures { option_copied result ≡ last_page key self.now.pages }
    {
        self.pages.last_page(key)
    }

    /// The page with this number and index, if it is pending.
    pub fn page_named(&self, number: u64, index: u16) -> Option<&Pending>
        ensures { option_copied result ≡ find (is_named number index) self.now.pages }
    {
        let at = self.pages.place_named(number, index)?;
        self.page(at)
    }

    /// The page of a pending group that is written there, if one is. It looks at one page, unless no
    /// device of this configuration has the place, or a page was ever marked as written where
    /// another one was: then it looks at all.
    pub fn page_there(&self, place: Place) -> Option<&Pending>
        ensures { option_copied result ≡ find (is_there place) self.now.pages }
    {
        self.pages.page_there(place)
    }

    /// Claims a slot for each of so many blocks of this reader, where as many are free; else nothing.
    pub fn reserve(&mut self, reader: u8, blocks: u16) -> bool
        ensures found { result ≡ nat_le blocks (free_slots self.old) }
        ensures after { self.new ≡ (if result then claimed_all self.old reader blocks else self.old) }
    {
        if self.free.len() < blocks as usize {
            return false;
        }
        for index in 0..blocks {
            self.claim(reader, index);
        }
        true
    }

    /// Claims a slot for this block of the reader.
    fn claim(&mut self, reader: u8, index: u16)
        requires { 0 < free_slots self.old }
        ensures { self.new ≡ record self.old { claims = self.old.claims ++ empty_claim reader index ∷ [] } }
    {
        if let Some(mut body) = self.free.pop() {
            body.clear();
            self.claims.push(Claimed::empty(reader, index, body));
        }
    }

    /// Gives back all slots that the reader has claimed.
    #[tactic(auto, using(crate::proofs::Turns::all_behind))]
    pub fn release(&mut self, reader: u8)
        ensures { self.new ≡ record self.old { claims = without_claims self.old.claims reader } }
    {
        self.claims.free_claims(&mut self.free, reader, 0);
    }

    /// Gives back the slots that the reader has claimed from this index on, and keeps those of its
    /// first `count` blocks.
    pub fn release_behind(&mut self, reader: u8, count: u16)
        ensures { self.new ≡ record self.old {
          claims = without_claims_behind self.old.claims reader count;
        } }
    {
        self.claims.free_claims(&mut self.free, reader, count);
    }

    /// Puts the 4096 bytes of a block that came into the slot that was claimed for it: that of this index of
    /// the reader.
    pub fn fill(&mut self, reader: u8, index: u16, block: &[u8])
        requires { length block.now ≡ 4096 }
        ensures { self.new ≡ record self.old { claims = map (claim_filled reader index block.now) self.old.claims } }
    {
        self.claims.fill(reader, index, block);
    }

    /// Puts the group of the blocks that came for this reader behind all that are pending, in the place of
    /// the slots that it claimed, from an address on, and answers its number. No block is moved.
    pub fn append(&mut self, reader: u8, key: Key) -> u64
        requires { IsTrue (has_number self.old) }
        ensures number { result ≡ self.old.last + 1 }
        ensures after { self.new ≡ appended self.old reader key }
    {
        let number = self.last + 1;
        let size = self.claimed(reader);
        let group = NewGroup { key, number, size };
        self.claims.move_claims(&mut self.pages, reader, group);
        self.last = number;
        number
    }

    /// How many slots the reader has claimed.
    fn claimed(&self, reader: u8) -> u16
        ensures { result ≡ length (claims_of self.now.claims reader) }
    {
        self.claims.count(reader) as u16
    }

    /// The next number, which a group has that takes no slot.
    pub fn give_number(&mut self) -> u64
        requires { IsTrue (has_number self.old) }
        ensures number { result ≡ self.old.last + 1 }
        ensures after { self.new ≡ record self.old { last = self.old.last + 1 } }
    {
        self.last += 1;
        self.last
    }

    /// The page with this number and index is written there, if it is pending.
    pub fn mark_written(&mut self, number: u64, index: u16, place: Place)
        ensures { self.new ≡ record self.old { pages = page_written self.old.pages number index place } }
    {
        self.pages.mark_written(number, index, place);
    }

    /// The first pending group, if all its pages are written: its number, and how many pages stand first in the order.
    pub fn front_written(&self) -> Option<WholeGroup>
        ensures what { option_map (λ (g : WholeGroup). g.number) result ≡ front_written self.now.pages }
        ensures first { IfSome result (λ g. take g.pages self.now.pages ≡ filter (is_of_group g.number) self.now.pages) }
        ensures others { IfSome result (λ g. drop g.pages self.now.pages ≡
            filter (λ p. not (is_of_group g.number p)) self.now.pages) }
        ensures some { IfSome result (λ g. (0 < g.pages) × (g.pages ≤ length self.now.pages)) }
    {
        self.pages.front_written()
    }

    /// Takes the first page out of its slot, which is free from then on.
    pub fn land(&mut self) -> Option<Landed>
        ensures where_it_is { result ≡ option_map landed (slice_get self.old.pages 0) }
        ensures after { self.new ≡ record self.old { pages = drop 1 self.old.pages } }
    {
        let page = self.pages.take_first()?;
        let landed = Landed {
            key: page.key,
            number: page.number,
            index: page.index,
            written: page.written,
        };
        self.free.push_reserved(page.body);
        Some(landed)
    }

    /// The frontier is the next number, if that was given.
    pub fn rise(&mut self)
        ensures { self.new ≡ record self.old { frontier = risen self.old } }
    {
        self.frontier = (self.frontier + 1).min(self.last);
    }
}

/// So many free slots.
fn bodies(alloc: Global, slots: u16) -> Result<Vec<Body>, AllocError>
    ensures long { IfOk result (λ v. length v.items ≡ slots) }
    ensures room { IfOk result (λ v. slots ≤ vec_capacity v) }
{
    let mut free = Vec::with_capacity(alloc, slots as usize)?;
    for _ in 0..slots {
        free.push_reserved(Body::new(alloc)?);
    }
    Ok(free)
}
