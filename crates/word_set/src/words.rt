//! A set of the numbers below a size.

ghost use Rattle.std.specs.Prelude.{◌≡◌, ◌<◌, ◌≤◌, ◌^◌, IfOk, IfSome, Some, false, length};
ghost use Rattle.std.specs.Prelude.{replicate, slice_get, slice_set};
ghost use Rattle.word_set.specs.Flags.{first_passing, is_set};
ghost use Rattle.word_set.specs.Tests.{IsFirstFrom, has_in};

use crate::bits::{WORD, first_bit, has_bit, with_bit};
use std::alloc::{AllocError, Global};
use std::marker::Model;

/// A set of numbers below a size that is given once. All memory is taken by `new`.
///
/// There is a word for each 64 numbers, and one for the size itself. The bits of numbers that are
/// not below the size are 0.
#[derive(Drop)]
pub struct WordSet {
    /// The numbers in the set are below this.
    size: usize,
    /// A bit for each number, 1 if it is in the set.
    words: Vec<u64>,
}

impl Model for WordSet {
    ghost use Rattle.std.specs.Prelude.{Bool, List};

    ghost Value = { List Bool };

    ghost use Rattle.word_set.specs.WordRooms.{IsKept, numbers_of};

    ghost view = { numbers_of };

    ghost invariant = { IsKept };
}

impl WordSet {
    /// A set for the numbers below this one, of which none is in.
    ///
    /// # Errors
    ///
    /// Only if memory was refused.
    pub fn new(alloc: Global, size: usize) -> Result<WordSet, AllocError>
        ensures { IfOk result (λ s. s ≡ replicate size false) }
    {
        let words = vec![in alloc; 0; size / WORD + 1]?;
        Ok(WordSet { size, words })
    }

    /// The numbers in the set are below this.
    pub fn size(&self) -> usize
        ensures { result ≡ length self.now }
    {
        self.size
    }

    /// The number is in the set from now on, or it is not.
    pub fn set(&mut self, at: usize, is_in: bool)
        requires { at < length self.old }
        ensures { self.new ≡ slice_set self.old at is_in }
    {
        let index = at / WORD;
        let word = self.words[index];
        self.words[index] = with_bit(word, at % WORD, is_in);
    }

    /// Whether the number is in the set.
    pub fn has(&self, at: usize) -> bool
        requires { at < length self.now }
        ensures { slice_get self.now at ≡ Some result }
    {
        let word = self.words[at / WORD];
        has_bit(word, at % WORD)
    }

    /// The first number at or above this one that is in the set.
    pub fn first_from(&self, at: usize) -> Option<usize>
        ensures what { result ≡ first_passing is_set at self.now }
        ensures less { IfSome result (λ k. k < length self.now) }
    {
        first_in(&self.words, at)
    }
}

/// The first number at or above this one whose bit in the words is 1. It reads the rest of one word
/// and then whole words.
fn first_in(words: &[u64], at: usize) -> Option<usize>
    requires { length words.now ≤ 2 ^ 58 }
    ensures { IsFirstFrom (has_in words.now) at result }
{
    let mut bit = at % WORD;
    for index in at / WORD..words.len() {
        let word = words[index];
        if let Some(low) = first_bit(word, bit) {
            return Some(index * WORD + low);
        }
        bit = 0;
    }
    None
}
