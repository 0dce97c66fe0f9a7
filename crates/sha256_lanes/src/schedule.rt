//! The message schedule (FIPS 180-4, 6.2.2, step 1), of four messages. Sixteen rows are a ring of
//! the last words: the next word goes over the one sixteen words before it.
ghost use Rattle.std.specs.Prelude.{◌≡◌, ℕ, ◌<◌, ◌≤◌, ◌+◌, ◌*◌, length, slice_index, slice_set};
ghost use Rattle.sha2.specs.Sha256.{window_word, word_at};
ghost use Rattle.sha256_lanes.specs.Lanes.{lane_at, of_four, window_lane};

use crate::words::{add, small_sigma0, small_sigma1};
use std::simd::u32x4;

// The word at a byte of a block, its high byte first.
#[inline(always)]
fn word_at(block: &[u8], at: usize) -> u32
    requires { at + 4 ≤ length block.now }
    ensures { result ≡ word_at block.now at }
{
    u32::from_be_bytes([block[at], block[at + 1], block[at + 2], block[at + 3]])
}

/// The words at a byte of four blocks.
#[inline(always)]
pub fn words_at(a: &[u8], b: &[u8], c: &[u8], d: &[u8], at: usize) -> u32x4
    requires first { at + 4 ≤ length a.now }
    requires second { at + 4 ≤ length b.now }
    requires third { at + 4 ≤ length c.now }
    requires fourth { at + 4 ≤ length d.now }
    ensures { (j : ℕ) → j < 4
        → slice_index result j ≡ word_at (of_four a.now b.now c.now d.now j) at }
{
    u32x4::from_array([
        word_at(a, at),
        word_at(b, at),
        word_at(c, at),
        word_at(d, at),
    ])
}

/// The first words, which are the blocks'.
#[inline(always)]
pub fn first_words(a: &[u8], b: &[u8], c: &[u8], d: &[u8]) -> [u32x4; 16]
    requires first { length a.now ≡ 64 }
    requires second { length b.now ≡ 64 }
    requires third { length c.now ≡ 64 }
    requires fourth { length d.now ≡ 64 }
    ensures { (k : ℕ) → k < 16 → (j : ℕ) → j < 4
        → lane_at result k j ≡ word_at (of_four a.now b.now c.now d.now j) (4 * k) }
{
    let mut window = [u32x4::splat(0); 16];
    'words: for i in 0..16 {
        window[i] = words_at(a, b, c, d, 4 * i);
    }
    window
}

/// The next words, from the window before them. They go at this place.
#[inline(always)]
pub fn next_word(window: &mut [u32x4; 16], place: usize) -> u32x4
    requires { place < 16 }
    ensures value { (j : ℕ) → j < 4
        → slice_index result j ≡ window_word (window_lane j window.old) place }
    ensures window { window.new ≡ slice_set window.old place result }
{
    let word = add(
        add(
            add(
                small_sigma1(window[(place + 14) % 16]),
                window[(place + 9) % 16],
            ),
            small_sigma0(window[(place + 1) % 16]),
        ),
        window[place],
    );
    window[place] = word;
    word
}
