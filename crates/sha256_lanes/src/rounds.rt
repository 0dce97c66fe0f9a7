//! The rounds on the working variables (FIPS 180-4, 6.2.2, step 3), of four messages.
ghost use Rattle.std.specs.Prelude.{◌≡◌, ℕ, ◌<◌, ◌≤◌, ◌+◌, ◌*◌, List, slice_index};
ghost use Rattle.sha2.specs.Sha256.{IsRoundsAt, IsWindow, round, rounds, schedule};
ghost use Rattle.sha256_lanes.specs.Lanes.{lane, window_lane};

use crate::constants::ROUND_CONSTANTS;
use crate::schedule::next_word;
use crate::words::{add, big_sigma0, big_sigma1, ch, maj};
use std::simd::u32x4;

// One round, with its constant and its words.
#[inline(always)]
fn round(v: [u32x4; 8], constant: u32, word: u32x4) -> [u32x4; 8]
    ensures { (j : ℕ) → j < 4 → lane j result ≡ round (lane j v) constant (slice_index word j) }
{
    let [a, b, c, d, e, f, g, h] = v;
    let sum = add(add(h, big_sigma1(e)), ch(e, f, g));
    let temp1 = add(add(sum, u32x4::splat(constant)), word);
    let temp2 = add(big_sigma0(a), maj(a, b, c));
    [add(temp1, temp2), a, b, c, add(d, temp1), e, f, g]
}

// One of the first sixteen rounds, whose words are the blocks'.
#[inline(always)]
fn first_step(window: &[u32x4; 16], v: [u32x4; 8], t: usize) -> [u32x4; 8]
    requires { t < 16 }
    ensures { (j : ℕ) → j < 4 → (b h : List ℕ)
        → IsWindow (window_lane j window.now) (schedule b 48) 16
        → lane j v ≡ rounds h (schedule b 48) t → lane j result ≡ rounds h (schedule b 48) (t + 1) }
{
    round(v, ROUND_CONSTANTS[t], window[t])
}

/// Four of the first sixteen rounds.
#[inline(always)]
pub fn first_four_steps(window: &[u32x4; 16], v: [u32x4; 8], t: usize) -> [u32x4; 8]
    requires { t + 4 ≤ 16 }
    ensures { (j : ℕ) → j < 4 → (b h : List ℕ)
        → IsWindow (window_lane j window.now) (schedule b 48) 16
        → lane j v ≡ rounds h (schedule b 48) t → lane j result ≡ rounds h (schedule b 48) (t + 4) }
{
    let v = first_step(window, v, t);
    let v = first_step(window, v, t + 1);
    let v = first_step(window, v, t + 2);
    first_step(window, v, t + 3)
}

// Round 16 * turn + place, after the first sixteen, with the words that it adds to the schedule.
#[inline(always)]
fn step(window: &mut [u32x4; 16], v: [u32x4; 8], turn: usize, place: usize) -> [u32x4; 8]
    requires low { 1 ≤ turn }
    requires high { turn < 4 }
    requires place { place < 16 }
    ensures { (j : ℕ) → j < 4 → (b h : List ℕ)
        → IsRoundsAt b h (window_lane j window.old) (lane j v) (16 * turn + place)
        → IsRoundsAt b h (window_lane j window.new) (lane j result) (16 * turn + (place + 1)) }
{
    let word = next_word(window, place);
    round(v, ROUND_CONSTANTS[16 * turn + place], word)
}

/// Four rounds, after the first sixteen.
#[inline(always)]
pub fn four_steps(window: &mut [u32x4; 16], v: [u32x4; 8], turn: usize, place: usize) -> [u32x4; 8]
    requires low { 1 ≤ turn }
    requires high { turn < 4 }
    requires place { place + 4 ≤ 16 }
    ensures { (j : ℕ) → j < 4 → (b h : List ℕ)
        → IsRoundsAt b h (window_lane j window.old) (lane j v) (16 * turn + place)
        → IsRoundsAt b h (window_lane j window.new) (lane j result) (16 * turn + (place + 4)) }
{
    let v = step(window, v, turn, place);
    let v = step(window, v, turn, place + 1);
    let v = step(window, v, turn, place + 2);
    step(window, v, turn, place + 3)
}
