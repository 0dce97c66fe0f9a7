//! The hash values of four messages, block by block (FIPS 180-4, 6.2.2).
ghost use Rattle.std.specs.Prelude.{◌≡◌, ℕ, ◌<◌, ◌/◌, length};
ghost use Rattle.sha2.specs.Sha256.{compress, hash_after};
ghost use Rattle.sha256_lanes.specs.Lanes.{lane, of_four};

use crate::rounds::{first_four_steps, four_steps};
use crate::schedule::first_words;
use crate::words::add;
use std::simd::u32x4;

// Takes one block of each message into its hash value.
fn compress(state: &mut [u32x4; 8], a: &[u8], b: &[u8], c: &[u8], d: &[u8])
    requires first { length a.now ≡ 64 }
    requires second { length b.now ≡ 64 }
    requires third { length c.now ≡ 64 }
    requires fourth { length d.now ≡ 64 }
    ensures { (j : ℕ) → j < 4
        → lane j state.new ≡ compress (lane j state.old) (of_four a.now b.now c.now d.now j) }
{
    let mut window = first_words(a, b, c, d);
    let mut v = first_four_steps(&window, *state, 0);
    v = first_four_steps(&window, v, 4);
    v = first_four_steps(&window, v, 8);
    v = first_four_steps(&window, v, 12);
    // Sixteen rounds a turn, so that each word's place in the window is a constant.
    'turns: for turn in 1..4 {
        v = four_steps(&mut window, v, turn, 0);
        v = four_steps(&mut window, v, turn, 4);
        v = four_steps(&mut window, v, turn, 8);
        v = four_steps(&mut window, v, turn, 12);
    }
    *state = [
        add(state[0], v[0]),
        add(state[1], v[1]),
        add(state[2], v[2]),
        add(state[3], v[3]),
        add(state[4], v[4]),
        add(state[5], v[5]),
        add(state[6], v[6]),
        add(state[7], v[7]),
    ];
}

/// Takes the whole blocks of each message into its hash value.
pub fn absorb(state: &mut [u32x4; 8], a: &[u8], b: &[u8], c: &[u8], d: &[u8])
    requires second { length b.now ≡ length a.now }
    requires third { length c.now ≡ length a.now }
    requires fourth { length d.now ≡ length a.now }
    ensures { (j : ℕ) → j < 4 → lane j state.new
        ≡ hash_after (lane j state.old) (of_four a.now b.now c.now d.now j) (length a.now / 64) }
{
    'whole: for i in 0..a.len() / 64 {
        let (from, to) = (64 * i, 64 * i + 64);
        compress(
            state,
            &a[from..to],
            &b[from..to],
            &c[from..to],
            &d[from..to],
        );
    }
}
