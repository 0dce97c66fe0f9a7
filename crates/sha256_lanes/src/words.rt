//! The functions of SHA-256 on words (FIPS 180-4, 4.1.2), each on one word of four messages.
ghost use Rattle.std.specs.Prelude.{◌≡◌, ℕ, ◌<◌, slice_index};
ghost use Rattle.std.specs.Int.{rotate_right, w32};
ghost use Rattle.sha2.specs.Sha256.{add32, big_sigma0, big_sigma1, ch, maj};
ghost use Rattle.sha2.specs.Sha256.{small_sigma0, small_sigma1};

use std::simd::u32x4;

/// The sums of words, with each carry out of a word dropped.
#[inline(always)]
pub fn add(x: u32x4, y: u32x4) -> u32x4
    ensures { (j : ℕ) → j < 4 → slice_index result j ≡ add32 (slice_index x j) (slice_index y j) }
{
    x + y
}

// The vectors have no rotation of words: it is two shifts.
#[inline(always)]
fn rotate_right(x: u32x4, by: u32) -> u32x4
    requires { (0 < by) × (by < 32) }
    ensures { (j : ℕ) → j < 4 → slice_index result j ≡ rotate_right w32 (slice_index x j) by }
{
    (x >> u32x4::splat(by)) | (x << u32x4::splat(32 - by))
}

/// Ch.
#[inline(always)]
pub fn ch(x: u32x4, y: u32x4, z: u32x4) -> u32x4
    ensures { (j : ℕ) → j < 4
        → slice_index result j ≡ ch (slice_index x j) (slice_index y j) (slice_index z j) }
{
    (x & y) ^ (!x & z)
}

/// Maj. What two words differ in is computed once, for this round and for the next.
#[inline(always)]
pub fn maj(x: u32x4, y: u32x4, z: u32x4) -> u32x4
    ensures { (j : ℕ) → j < 4
        → slice_index result j ≡ maj (slice_index x j) (slice_index y j) (slice_index z j) }
{
    y ^ ((x ^ y) & (y ^ z))
}

// The four functions below nest their rotations: each then needs fewer copies of the words.

/// The upper case Σ 0.
#[inline(always)]
pub fn big_sigma0(x: u32x4) -> u32x4
    ensures { (j : ℕ) → j < 4 → slice_index result j ≡ big_sigma0 (slice_index x j) }
{
    rotate_right(x ^ rotate_right(x ^ rotate_right(x, 9), 11), 2)
}

/// The upper case Σ 1.
#[inline(always)]
pub fn big_sigma1(x: u32x4) -> u32x4
    ensures { (j : ℕ) → j < 4 → slice_index result j ≡ big_sigma1 (slice_index x j) }
{
    rotate_right(x ^ rotate_right(x ^ rotate_right(x, 14), 5), 6)
}

/// The lower case σ 0.
#[inline(always)]
pub fn small_sigma0(x: u32x4) -> u32x4
    ensures { (j : ℕ) → j < 4 → slice_index result j ≡ small_sigma0 (slice_index x j) }
{
    rotate_right(x ^ rotate_right(x, 11), 7) ^ (x >> 3)
}

/// The lower case σ 1.
#[inline(always)]
pub fn small_sigma1(x: u32x4) -> u32x4
    ensures { (j : ℕ) → j < 4 → slice_index result j ≡ small_sigma1 (slice_index x j) }
{
    rotate_right(x ^ rotate_right(x, 2), 17) ^ (x >> 10)
}
