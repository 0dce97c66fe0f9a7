//! Which pages of each block are live, which blocks are pinned, and which block is to be collected.

ghost use Rattle.std.specs.Prelude.{ℕ, ◌≡◌, ◌≤◌, ◌<◌, ◌*◌, ◌+◌, ◌-◌, ◌/◌, ◌^◌, ◌&&◌, IfOk, MatchOption, false, find, if◌then◌else◌, min, option_map, replicate, slice_get, true, unwrap_or};
ghost use Rattle.std.specs.List.{list_any};
ghost use Rattle.block_table.specs.Lives.{block_place, has_block, has_page, is_bad_with_live, is_live, is_pinned, live_count, live_from, page_place, pins_of, places_in, spot, spot_at, spots_in, victim, with_live, with_pins};
ghost use Rattle.block_table.specs.Buckets.{IsWord, Stands, bit, in_first, words_for};
ghost use Rattle.block_table.specs.Lowest.{IsFirstUsed, IsLowestBlock, is_used_from};
ghost use Rattle.block_table.specs.Places.{IsFirstVictim, IsFirstVictimTo, is_bad_at, is_victim_at};
ghost use Rattle.block_table.specs.Places.{spot_there};
ghost use Rattle.block_table.specs.Sorted.{blocks_in};
ghost use Rattle.block_table.specs.Victims.{IsNoVictim, IsVictim};

use crate::buckets::{BlockBuckets, WORD, from_bit, lowest_bit, words_for};
use crate::{BlockState, BlockTable, Sizes};
use std::alloc::{AllocError, Global};
use std::marker::Model;
use ufs_spec::Place;

/// A block of a die.
#[derive(Clone, Copy, Debug, Default, PartialEq, Eq)]
pub struct BlockAt {
    pub die: u8,
    pub block: u16,
}

/// Of each block of all dies which pages are live, how many, and how many pins the block has. The
/// numbers of live pages are kept as pages change: no call but `next_live` walks over pages. A
/// search looks at the blocks without a pin, at 64 of them at once.
#[derive(Drop)]
pub struct LivePages {
    sizes: Sizes,
    /// Whether each page is live, in order by die, block and page.
    live: Vec<bool>,
    /// How many pages of each block are live, in order by die and block.
    counts: Vec<u16>,
    /// How many pins each block has, in order by die and block.
    pins: Vec<u32>,
    /// The blocks without a pin, at these places: in the bucket of the number of their live pages.
    unpinned_with: BlockBuckets,
    /// The blocks without a pin, at these places, in one bucket.
    unpinned: BlockBuckets,
}

impl Model for LivePages {
    ghost use Rattle.block_table.specs.Lives.{Lives};

    ghost Value = { Lives };

    ghost use Rattle.block_table.specs.LiveRooms.{lives_of, IsKept};

    ghost view = { lives_of };

    ghost invariant = { IsKept };
}

impl LivePages {
    /// The pages of blocks of these sizes, of which none is live, and no block is pinned.
    ///
    /// # Errors
    ///
    /// Only if memory was refused.
    pub fn new(alloc: Global, sizes: Sizes) -> Result<LivePages, AllocError>
        ensures { IfOk result (λ l. l ≡ record {
          sizes = sizes;
          live = replicate (sizes.dies * sizes.blocks * sizes.pages) false;
          pins = replicate (sizes.dies * sizes.blocks) 0;
        }) }
    {
        let blocks = sizes.dies as usize * sizes.blocks as usize;
        let pages = blocks * sizes.pages as usize;
        Ok(LivePages {
            sizes,
            live: vec![in alloc; false; pages]?,
            counts: vec![in alloc; 0; blocks]?,
            pins: vec![in alloc; 0; blocks]?,
            unpinned_with: first_full(alloc, sizes.pages as usize + 1, blocks)?,
            unpinned: first_full(alloc, 1, blocks)?,
        })
    }

    /// The page is live from now on. If there is no such page, nothing changes.
    pub fn set_live(&mut self, place: Place)
        ensures { self.new ≡ with_live self.old place true }
    {
        self.set(place, true);
    }

    /// The page is not live from now on. If there is no such page, nothing changes.
    pub fn set_dead(&mut self, place: Place)
        ensures { self.new ≡ with_live self.old place false }
    {
        self.set(place, false);
    }

    /// Whether the page is live; false if there is no such page.
    pub fn is_live(&self, place: Place) -> bool
        ensures { result ≡ is_live self.now place }
    {
        self.has_page(place) && self.bit(self.page_place(place))
    }

    /// How many pages of the block are live; 0 if there is no such block.
    pub fn live_count(&self, die: u8, block: u16) -> u16
        ensures { result ≡ live_count self.now (spot die block) }
    {
        if !self.has_block(die, block) {
            return 0;
        }
        self.counts[self.block_place(die, block)]
    }

    /// The first live page of the block from this one on, if there is one.
    pub fn next_live(&self, die: u8, block: u16, from: u16) -> Option<Place>
        ensures { result ≡ find (live_from self.now from)
            (places_in self.now.sizes (spot die block)) }
    {
        for page in from..self.sizes.pages {
            let place = Place { die, block, page };
            if self.is_live(place) {
                return Some(place);
            }
        }
        None
    }

    /// The block has one pin more. If it has 4,294,967,295 of them, or if there is no such block,
    /// nothing changes.
    pub fn pin(&mut self, die: u8, block: u16)
        ensures { self.new ≡ with_pins self.old (spot die block)
            (min (pins_of self.old (spot die block) + 1) (2 ^ 32 - 1)) }
    {
        let pins = self.pins(die, block);
        self.set_pins(die, block, pins.saturating_add(1));
    }

    /// The block has one pin less. If it has none, or if there is no such block, nothing changes.
    pub fn unpin(&mut self, die: u8, block: u16)
        ensures { self.new ≡ with_pins self.old (spot die block)
            (pins_of self.old (spot die block) - 1) }
    {
        let pins = self.pins(die, block);
        self.set_pins(die, block, pins.saturating_sub(1));
    }

    /// Whether the block has a pin; false if there is no such block.
    pub fn is_pinned(&self, die: u8, block: u16) -> bool
        ensures { result ≡ is_pinned self.now (spot die block) }
    {
        self.pins(die, block) > 0
    }

    /// The block to be collected: of those without a pin that are closed and not wholly live, where
    /// free blocks are `scarce`, else of those that are bad and hold live pages, the one with the
    /// fewest live pages. Of several it is that of the lowest die, then the lowest block.
    pub fn victim(&self, blocks: &BlockTable, scarce: bool) -> Option<BlockAt>
        ensures search { option_map spot_at result ≡ victim self.now blocks.now scarce }
        ensures least { MatchOption result (IsNoVictim self.now blocks.now scarce)
            (λ at. IsVictim self.now blocks.now scarce (spot_at at)) }
    {
        for count in 0..self.sizes.pages as usize + 1 {
            if let Some(place) = self.first_with(blocks, scarce, count) {
                return Some(self.block_at(place));
            }
        }
        None
    }

    /// Whether a bad block without a pin holds live pages.
    pub fn has_bad_with_live(&self, blocks: &BlockTable) -> bool
        ensures { result ≡ list_any (is_bad_with_live self.now blocks.now)
            (spots_in self.now.sizes) }
    {
        for number in 0..self.words() {
            if self.bad_with_live(blocks, number) != 0 {
                return true;
            }
        }
        false
    }

    /// The lowest block of the die that is so and has no pin, if there is one.
    pub fn lowest_unpinned(&self, blocks: &BlockTable, die: u8, state: BlockState) -> Option<u16>
        ensures { IsLowestBlock self.now blocks.now die state result }
    {
        let sizes = self.sizes;
        if die >= sizes.dies {
            return None;
        }
        let start = die as usize * sizes.blocks as usize;
        let end = start + sizes.blocks as usize;
        let Some(place) = self.first_used(blocks, state, start, end) else {
            return None;
        };
        if place >= end {
            return None;
        }
        Some((place - start) as u16)
    }

    /// The place of the first block from one place on that is so and has no pin; of those from the
    /// end on perhaps none.
    fn first_used(
        &self,
        blocks: &BlockTable,
        state: BlockState,
        start: usize,
        end: usize,
    ) -> Option<usize>
        requires { end < 2 ^ 32 }
        ensures { IsFirstUsed self.now blocks.now state start end result }
    {
        for number in start / WORD..(end + (WORD - 1)) / WORD {
            if let Some(bit) = lowest_bit(self.used(blocks, state, start, number)) {
                return Some(number * WORD + bit);
            }
        }
        None
    }

    /// Of the blocks of the word of this number those from one place on that are so and have no pin.
    fn used(&self, blocks: &BlockTable, state: BlockState, start: usize, number: usize) -> u64
        requires from_there { start / 64 ≤ number }
        requires few { number < 2 ^ 32 }
        ensures { IsWord (is_used_from self.now blocks.now state start) number result }
    {
        let so = blocks.word(state, self.sizes, number);
        let unpinned = self.unpinned.word(0, number);
        from_bit(so & unpinned, start.saturating_sub(number * WORD))
    }

    /// Of the blocks of the word of this number those that are bad, have no pin and hold live pages.
    fn bad_with_live(&self, blocks: &BlockTable, number: usize) -> u64
        requires { number < 2 ^ 32 }
        ensures { IsWord (is_bad_at self.now blocks.now) number result }
    {
        let bad = blocks.word(BlockState::Bad, self.sizes, number);
        let unpinned = self.unpinned.word(0, number);
        bad & unpinned & !self.unpinned_with.word(0, number)
    }

    /// The place of the first block with so many live pages that may be collected, if there is one.
    /// No word is read unless a block without a pin has so many.
    fn first_with(&self, blocks: &BlockTable, scarce: bool, count: usize) -> Option<usize>
        requires { count ≤ self.now.sizes.pages }
        ensures { IsFirstVictim self.now blocks.now scarce count result }
    {
        if self.unpinned_with.is_empty(count) {
            return None;
        }
        self.first_victim(blocks, scarce, count)
    }

    /// The same, by the words of its bucket.
    fn first_victim(&self, blocks: &BlockTable, scarce: bool, count: usize) -> Option<usize>
        requires { count ≤ self.now.sizes.pages }
        ensures { IsFirstVictim self.now blocks.now scarce count result }
    {
        for group in 0..self.groups() {
            if let Some(first) = self.first_of_group(blocks, scarce, count, group) {
                return Some(first);
            }
        }
        None
    }

    /// The same, by the words that one word of the second level tells of. Those before have none.
    fn first_of_group(
        &self,
        blocks: &BlockTable,
        scarce: bool,
        count: usize,
        group: usize,
    ) -> Option<usize>
        requires count_there { count ≤ self.now.sizes.pages }
        requires few { group < 2 ^ 26 }
        requires none { (p : ℕ) → p < 64 * (64 * group)
            → is_victim_at self.now blocks.now scarce count p ≡ false }
        ensures { IsFirstVictimTo self.now blocks.now scarce count
            (64 * (64 * (group + 1))) result }
    {
        let marks = self.unpinned_with.marks(count, group);
        let mut from = 0;
        while from < WORD {
            let Some(mark) = lowest_bit(from_bit(marks, from)) else {
                return None;
            };
            let number = group * WORD + mark;
            if let Some(bit) = lowest_bit(self.victims(blocks, scarce, count, number)) {
                return Some(number * WORD + bit);
            }
            from = mark + 1;
        }
        None
    }

    /// Of the blocks of the word of this number those with so many live pages that may be collected.
    fn victims(&self, blocks: &BlockTable, scarce: bool, count: usize, number: usize) -> u64
        requires count_there { count ≤ self.now.sizes.pages }
        requires few { number < 2 ^ 32 }
        ensures { IsWord (is_victim_at self.now blocks.now scarce count) number result }
    {
        let closed = blocks.word(BlockState::Closed, self.sizes, number);
        let bad = blocks.word(BlockState::Bad, self.sizes, number);
        let pages = self.sizes.pages as usize;
        let frees = only_if(only_if(closed, count < pages), scarce);
        let saves = only_if(only_if(bad, count > 0), !scarce);
        self.unpinned_with.word(count, number) & (frees | saves)
    }

    /// How many words of 64 blocks there are.
    fn words(&self) -> usize
        ensures all { result ≡ words_for (blocks_in self.now.sizes) }
        ensures few { result < 2 ^ 32 }
    {
        (self.sizes.dies as usize * self.sizes.blocks as usize + (WORD - 1)) / WORD
    }

    /// How many words the second level of a bucket has.
    fn groups(&self) -> usize
        ensures all { result ≡ words_for (words_for (blocks_in self.now.sizes)) }
        ensures few { result ≤ 2 ^ 26 }
    {
        words_for(self.words())
    }

    /// The block at this place among all blocks.
    fn block_at(&self, place: usize) -> BlockAt
        requires { place < blocks_in self.now.sizes }
        ensures { spot_at result ≡ spot_there self.now.sizes place }
    {
        let sizes = self.sizes;
        let blocks = sizes.blocks as usize;
        BlockAt {
            die: (place / blocks) as u8,
            block: (place % blocks) as u16,
        }
    }

    /// Whether there is such a block.
    fn has_block(&self, die: u8, block: u16) -> bool
        ensures { result ≡ has_block self.now.sizes (spot die block) }
    {
        die < self.sizes.dies && block < self.sizes.blocks
    }

    /// Whether there is such a page.
    fn has_page(&self, place: Place) -> bool
        ensures { result ≡ has_page self.now.sizes place }
    {
        self.has_block(place.die, place.block) && place.page < self.sizes.pages
    }

    /// Where the block is among all blocks.
    fn block_place(&self, die: u8, block: u16) -> usize
        ensures { result ≡ block_place self.now.sizes (spot die block) }
    {
        die as usize * self.sizes.blocks as usize + block as usize
    }

    /// Where the page is among all pages.
    fn page_place(&self, place: Place) -> usize
        ensures { result ≡ page_place self.now.sizes place }
    {
        let block = place.die as usize * self.sizes.blocks as usize + place.block as usize;
        block * self.sizes.pages as usize + place.page as usize
    }

    /// Whether the page at this place among all pages is live.
    fn bit(&self, index: usize) -> bool
        ensures { result ≡ unwrap_or (slice_get self.now.live index) false }
    {
        self.live.get(index).copied().unwrap_or(false)
    }

    /// Notes whether the page is live, and counts those of its block.
    fn set(&mut self, place: Place, live: bool)
        ensures { self.new ≡ with_live self.old place live }
    {
        if !self.has_page(place) {
            return;
        }
        let index = self.page_place(place);
        if index >= self.live.len() || self.live[index] == live {
            return;
        }
        let block = self.block_place(place.die, place.block);
        let count = self.live_count(place.die, place.block);
        let counted = if live { count + 1 } else { count - 1 };
        self.unpinned_with
            .move_block(block, count as usize, counted as usize);
        self.counts[block] = counted;
        self.live[index] = live;
    }

    /// How many pins the block has; none if there is no such block.
    fn pins(&self, die: u8, block: u16) -> u32
        ensures { result ≡ pins_of self.now (spot die block) }
    {
        if !self.has_block(die, block) {
            return 0;
        }
        let index = self.block_place(die, block);
        self.pins.get(index).copied().unwrap_or(0)
    }

    /// Notes how many pins the block has from now on.
    fn set_pins(&mut self, die: u8, block: u16, count: u32)
        ensures { self.new ≡ with_pins self.old (spot die block) count }
    {
        if !self.has_block(die, block) {
            return;
        }
        let index = self.block_place(die, block);
        let live = self.live_count(die, block);
        self.unpinned_with.set(live as usize, index, count == 0);
        self.unpinned.set(0, index, count == 0);
        self.pins[index] = count;
    }
}

/// So many buckets with places for so many blocks, which all stand in the first one.
fn first_full(alloc: Global, buckets: usize, places: usize) -> Result<BlockBuckets, AllocError>
    requires some { 0 < buckets }
    requires few { places ≤ 2 ^ 63 }
    requires room { buckets * words_for places < 2 ^ 60 }
    ensures { IfOk result (λ b. Stands b buckets (words_for places) (in_first places)) }
{
    let mut full = BlockBuckets::new(alloc, buckets, places)?;
    full.fill_first(places);
    Ok(full)
}

/// The word, or one without a bit that is 1.
fn only_if(word: u64, kept: bool) -> u64
    ensures { (j : ℕ) → bit result j ≡ (kept && bit word j) }
{
    if kept { word } else { 0 }
}
