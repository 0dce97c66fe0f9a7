//! Blocks in buckets: which blocks stand in each bucket, as words of 64 blocks, which of these
//! words have any, and how many blocks.

ghost use Rattle.std.specs.Prelude.{◌≡◌, ◌<◌, ◌≤◌, ◌*◌, ◌+◌, ◌^◌, ℕ, IfOk, IfSome, false, if◌then◌else◌, nat_le, true, ◌&&◌};
ghost use Rattle.block_table.specs.Buckets.{AreMarks, IsLowest, IsWord, Stands, bit, has, in_first, in_none, moved, with_bit, with_block, words_for};

use std::alloc::{AllocError, Global};
use std::marker::Model;

/// How many blocks a word has a bit for.
pub(super) const WORD: usize = 64;

/// Buckets of blocks. A block has the same place in each bucket, and stands in any of them. Each
/// bucket has two levels of words: a bit for each place, and a bit for each of these words.
///
/// A bit of the second level is 1 if a block of its word stands in the bucket, and 0 if none does.
#[derive(Drop)]
pub(super) struct BlockBuckets {
    /// How many words a bucket has.
    words: usize,
    /// The words of all buckets, in order: a bit for each place, 1 if its block stands there.
    table: Vec<u64>,
    /// How many blocks stand in each bucket.
    held: Vec<usize>,
    /// The second level of all buckets, in order: a bit for each word, 1 if the word is not 0.
    marks: Vec<u64>,
}

impl Model for BlockBuckets {
    ghost use Rattle.block_table.specs.Buckets.{Buckets};

    ghost Value = { Buckets };

    ghost use Rattle.block_table.specs.BucketRooms.{buckets_of, IsHeld};

    ghost view = { buckets_of };

    ghost invariant = { IsHeld };
}

impl BlockBuckets {
    /// So many buckets with places for so many blocks, of which none stands in any.
    ///
    /// # Errors
    ///
    /// Only if memory was refused.
    pub(super) fn new(
        alloc: Global,
        buckets: usize,
        places: usize,
    ) -> Result<BlockBuckets, AllocError>
        requires few { places ≤ 2 ^ 63 }
        requires room { buckets * words_for places < 2 ^ 60 }
        ensures { IfOk result (λ b. Stands b buckets (words_for places) in_none) }
    {
        let words = words_for(places);
        Ok(BlockBuckets {
            words,
            table: vec![in alloc; 0; buckets * words]?,
            held: vec![in alloc; 0; buckets]?,
            marks: vec![in alloc; 0; buckets * words_for(words)]?,
        })
    }

    /// The blocks of the first places stand in the first bucket from now on.
    pub(super) fn fill_first(&mut self, places: usize)
        requires bucket_there { 0 < self.old.buckets }
        requires places_there { places ≤ 64 * self.old.words }
        requires none { Stands self.old self.old.buckets self.old.words in_none }
        ensures { Stands self.new self.old.buckets self.old.words (in_first places) }
    {
        for place in 0..places {
            self.set(0, place, true);
        }
    }

    /// The block stands in the bucket from now on, or it does not.
    pub(super) fn set(&mut self, bucket: usize, place: usize, stands: bool)
        requires bucket_there { bucket < self.old.buckets }
        requires place_there { place < 64 * self.old.words }
        ensures { Stands self.new self.old.buckets self.old.words
            (with_block (has self.old) bucket place stands) }
    {
        let number = place / WORD;
        let index = bucket * self.words + number;
        let word = self.table[index];
        if has_bit(word, place % WORD) == stands {
            return;
        }
        let held = self.held[bucket];
        let counted = if stands { held + 1 } else { held - 1 };
        self.held[bucket] = counted;
        let after = with_bit(word, place % WORD, stands);
        self.table[index] = after;
        let group = bucket * words_for(self.words) + number / WORD;
        let marks = self.marks[group];
        self.marks[group] = with_bit(marks, number % WORD, after > 0);
    }

    /// The block stands in the second bucket from now on and no more in the first, if it did.
    pub(super) fn move_block(&mut self, place: usize, from: usize, to: usize)
        requires from_there { from < self.old.buckets }
        requires to_there { to < self.old.buckets }
        requires place_there { place < 64 * self.old.words }
        ensures { Stands self.new self.old.buckets self.old.words
            (moved (has self.old) place from to) }
    {
        if self.has(from, place) {
            self.set(from, place, false);
            self.set(to, place, true);
        }
    }

    /// Whether the block stands in the bucket.
    fn has(&self, bucket: usize, place: usize) -> bool
        requires bucket_there { bucket < self.now.buckets }
        requires place_there { place < 64 * self.now.words }
        ensures { result ≡ has self.now bucket place }
    {
        has_bit(self.word(bucket, place / WORD), place % WORD)
    }

    /// Whether no block stands in the bucket.
    pub(super) fn is_empty(&self, bucket: usize) -> bool
        requires { bucket < self.now.buckets }
        ensures empty { result ≡ true → (p : ℕ) → has self.now bucket p ≡ false }
        ensures held { result ≡ false → (p : ℕ) × (has self.now bucket p ≡ true) }
    {
        self.held[bucket] == 0
    }

    /// The word of the bucket of this number: a bit for each of 64 places, 1 if its block stands
    /// there.
    pub(super) fn word(&self, bucket: usize, word: usize) -> u64
        requires { bucket < self.now.buckets }
        ensures { IsWord (has self.now bucket) word result }
    {
        if word >= self.words {
            return 0;
        }
        self.table[bucket * self.words + word]
    }

    /// The word of this number of the second level of the bucket: a bit for each of 64 words, 1 if
    /// a block of the word stands there.
    pub(super) fn marks(&self, bucket: usize, group: usize) -> u64
        requires { bucket < self.now.buckets }
        ensures { AreMarks (has self.now bucket) group result }
    {
        let groups = words_for(self.words);
        if group >= groups {
            return 0;
        }
        self.marks[bucket * groups + group]
    }
}

/// How many words have a bit for each of so many places.
pub(super) fn words_for(places: usize) -> usize
    requires { places ≤ 2 ^ 63 }
    ensures { result ≡ words_for places }
{
    (places + (WORD - 1)) / WORD
}

/// Whether the bit of the word is 1.
fn has_bit(word: u64, place: usize) -> bool
    requires { place < 64 }
    ensures { result ≡ bit word place }
{
    (word >> place) & 1 == 1
}

/// The word, whose bit is 1 or not from now on.
pub(super) fn with_bit(word: u64, place: usize, one: bool) -> u64
    requires { place < 64 }
    ensures { (j : ℕ) → j < 64 → bit result j ≡ with_bit (bit word) place one j }
{
    if one {
        word | (1 << place)
    } else {
        word & !(1 << place)
    }
}

/// The place of the lowest bit of the word that is 1; none if there is no such bit.
pub(super) fn lowest_bit(word: u64) -> Option<usize>
    ensures none { result ≡ None → (j : ℕ) → bit word j ≡ false }
    ensures some { IfSome result (λ k. IsLowest (bit word) k) }
    ensures within { IfSome result (λ k. k < 64) }
{
    if word == 0 {
        return None;
    }
    Some(word.trailing_zeros() as usize)
}

/// The word without its bits below this one.
pub(super) fn from_bit(word: u64, first: usize) -> u64
    requires { first < 64 }
    ensures { (j : ℕ) → j < 64 → bit result j ≡ (nat_le first j && bit word j) }
{
    word & (u64::MAX << first)
}
