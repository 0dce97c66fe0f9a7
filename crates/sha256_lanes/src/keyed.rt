//! The message schedules (FIPS 180-4, 6.2.2, step 1) of four blocks side by side, with the constant of
//! each round added to its words.
ghost use Rattle.std.specs.Prelude.{◌≡◌, ℕ, ◌<◌, ◌≤◌, ◌+◌, ◌*◌, List, length, slice_index};
ghost use Rattle.sha2.specs.Sha256.{add32, round_constants};
ghost use Rattle.sha256_lanes.specs.Keyed.{AreFour, AreKeyed, IsFirstTo, IsKeyedTo, part};
ghost use Rattle.sha256_lanes.specs.Lanes.{of_four};

use crate::constants::ROUND_CONSTANTS;
use crate::schedule::{next_word, words_at};
use crate::words::add;
use std::simd::u32x4;

/// A row for each round, with the word of each block and the constant of the round added to it.
pub type Rows = [[u32; 4]; 64];

/// The last sixteen words of each schedule.
pub type Window = [u32x4; 16];

/// Room for rows.
pub const NO_ROWS: Rows = [[0; 4]; 64];

/// So many bytes are four blocks.
pub const FOUR: usize = 256;

/// The block of this number among four.
#[inline(always)]
pub fn block(bytes: &[u8], number: usize) -> &[u8]
    requires four { length bytes.now ≡ 256 }
    requires there { number < 4 }
    ensures size { length result.now ≡ 64 }
    ensures bytes { result.now ≡ part bytes.now number }
{
    &bytes[64 * number..64 * number + 64]
}

// The row of a round, of the words of its blocks.
#[inline(always)]
fn row(words: u32x4, t: usize) -> [u32; 4]
    requires { t < 64 }
    ensures { (j : ℕ) → j < 4
        → slice_index result j ≡ add32 (slice_index words j) (slice_index round_constants t) }
{
    add(words, u32x4::splat(ROUND_CONSTANTS[t])).to_array()
}

/// The row of one of the first sixteen rounds, whose words are those of four blocks.
#[inline(always)]
pub fn first_row(rows: &mut Rows, window: &mut Window, bytes: &[u8], place: usize)
    requires four { length bytes.now ≡ 256 }
    requires place { place < 16 }
    ensures { (j : ℕ) → j < 4
        → IsFirstTo (part bytes.now j) j rows.old window.old place
        → IsFirstTo (part bytes.now j) j rows.new window.new (place + 1) }
{
    let words = words_at(
        block(bytes, 0),
        block(bytes, 1),
        block(bytes, 2),
        block(bytes, 3),
        4 * place,
    );
    window[place] = words;
    rows[place] = row(words, place);
}

/// The row of round 16 * turn + place, after the first sixteen, and the words that it adds to the
/// schedules.
#[inline(always)]
pub fn next_row(rows: &mut Rows, window: &mut Window, turn: usize, place: usize)
    requires low { 1 ≤ turn }
    requires high { turn < 4 }
    requires place { place < 16 }
    ensures { (j : ℕ) → j < 4 → (b : List ℕ)
        → IsKeyedTo b j rows.old window.old (16 * turn + place)
        → IsKeyedTo b j rows.new window.new (16 * turn + (place + 1)) }
{
    let t = 16 * turn + place;
    rows[t] = row(next_word(window, place), t);
}

// The rows of the first sixteen rounds.
fn first_rows(rows: &mut Rows, window: &mut Window, bytes: &[u8])
    requires { length bytes.now ≡ 256 }
    ensures { (j : ℕ) → j < 4 → IsFirstTo (part bytes.now j) j rows.new window.new 16 }
{
    'places: for place in 0..16 {
        first_row(rows, window, bytes, place);
    }
}

// The rows of four rounds, after the first sixteen.
#[inline(always)]
fn four_rows(rows: &mut Rows, window: &mut Window, turn: usize, place: usize)
    requires low { 1 ≤ turn }
    requires high { turn < 4 }
    requires place { place + 4 ≤ 16 }
    ensures { (j : ℕ) → j < 4 → (b : List ℕ)
        → IsKeyedTo b j rows.old window.old (16 * turn + place)
        → IsKeyedTo b j rows.new window.new (16 * turn + (place + 4)) }
{
    next_row(rows, window, turn, place);
    next_row(rows, window, turn, place + 1);
    next_row(rows, window, turn, place + 2);
    next_row(rows, window, turn, place + 3);
}

/// The rows of four blocks.
pub fn keyed_rows(rows: &mut Rows, bytes: &[u8])
    requires { length bytes.now ≡ 256 }
    ensures { AreFour bytes.now rows.new }
{
    let mut window = [u32x4::splat(0); 16];
    first_rows(rows, &mut window, bytes);
    // Sixteen rows a turn, so that each word's place in the window is a constant.
    'turns: for turn in 1..4 {
        four_rows(rows, &mut window, turn, 0);
        four_rows(rows, &mut window, turn, 4);
        four_rows(rows, &mut window, turn, 8);
        four_rows(rows, &mut window, turn, 12);
    }
}
