//! The rounds of four blocks, with the schedules of the next four between them: a round waits for the one
//! before it, and the processor has this work to do meanwhile.
ghost use Rattle.std.specs.Prelude.{◌≡◌, ℕ, ◌<◌, ◌≤◌, ◌+◌, ◌*◌, List, length};
ghost use Rattle.sha2.specs.Sha256.{compress, hash_after, rounds, schedule};
ghost use Rattle.sha256_lanes.specs.Keyed.{AreFour, AreKeyed, IsFirstTo, IsKeyedTo, part};

use crate::keyed::{Rows, Window, first_row, next_row};
use crate::scalar::{added, four_steps};
use std::simd::u32x4;

// Four rounds of the block of a lane, and then the next row of the schedules to come, after their first
// sixteen.
#[inline(always)]
fn step_beside(
    v: [u32; 8],
    rows: &Rows,
    lane: usize,
    next: &mut Rows,
    window: &mut Window,
    place: usize,
) -> [u32; 8]
    requires low { 1 ≤ lane }
    requires high { lane < 4 }
    requires place { place < 16 }
    ensures rounds { (b h : List ℕ) → AreKeyed b rows.now lane → v ≡ rounds h (schedule b 48) (4 * place)
        → result ≡ rounds h (schedule b 48) (4 * (place + 1)) }
    ensures rows { (j : ℕ) → j < 4 → (b : List ℕ)
        → IsKeyedTo b j next.old window.old (16 * lane + place)
        → IsKeyedTo b j next.new window.new (16 * lane + (place + 1)) }
{
    let v = four_steps(v, rows, lane, 4 * place);
    next_row(next, window, lane, place);
    v
}

// Four times that.
#[inline(always)]
fn steps_beside(
    v: [u32; 8],
    rows: &Rows,
    lane: usize,
    next: &mut Rows,
    window: &mut Window,
    place: usize,
) -> [u32; 8]
    requires low { 1 ≤ lane }
    requires high { lane < 4 }
    requires place { place + 4 ≤ 16 }
    ensures rounds { (b h : List ℕ) → AreKeyed b rows.now lane → v ≡ rounds h (schedule b 48) (4 * place)
        → result ≡ rounds h (schedule b 48) (4 * (place + 4)) }
    ensures rows { (j : ℕ) → j < 4 → (b : List ℕ)
        → IsKeyedTo b j next.old window.old (16 * lane + place)
        → IsKeyedTo b j next.new window.new (16 * lane + (place + 4)) }
{
    let v = step_beside(v, rows, lane, next, window, place);
    let v = step_beside(v, rows, lane, next, window, place + 1);
    let v = step_beside(v, rows, lane, next, window, place + 2);
    step_beside(v, rows, lane, next, window, place + 3)
}

// Takes the block of a lane into a hash value, and adds sixteen rows to the schedules to come.
fn compress_beside(
    state: &mut [u32; 8],
    rows: &Rows,
    lane: usize,
    next: &mut Rows,
    window: &mut Window,
)
    requires low { 1 ≤ lane }
    requires high { lane < 4 }
    ensures state { (b : List ℕ) → AreKeyed b rows.now lane → state.new ≡ compress state.old b }
    ensures rows { (j : ℕ) → j < 4 → (b : List ℕ)
        → IsKeyedTo b j next.old window.old (16 * lane)
        → IsKeyedTo b j next.new window.new (16 * (lane + 1)) }
{
    let v = steps_beside(*state, rows, lane, next, window, 0);
    let v = steps_beside(v, rows, lane, next, window, 4);
    let v = steps_beside(v, rows, lane, next, window, 8);
    let v = steps_beside(v, rows, lane, next, window, 12);
    *state = added(state, &v);
}

// Four rounds of the first block, and then the next of the first sixteen rows to come.
#[inline(always)]
fn first_beside(
    v: [u32; 8],
    rows: &Rows,
    next: &mut Rows,
    window: &mut Window,
    bytes: &[u8],
    place: usize,
) -> [u32; 8]
    requires four { length bytes.now ≡ 256 }
    requires place { place < 16 }
    ensures rounds { (b h : List ℕ) → AreKeyed b rows.now 0 → v ≡ rounds h (schedule b 48) (4 * place)
        → result ≡ rounds h (schedule b 48) (4 * (place + 1)) }
    ensures rows { (j : ℕ) → j < 4
        → IsFirstTo (part bytes.now j) j next.old window.old place
        → IsFirstTo (part bytes.now j) j next.new window.new (place + 1) }
{
    let v = four_steps(v, rows, 0, 4 * place);
    first_row(next, window, bytes, place);
    v
}

// Takes the first block into a hash value, and begins the schedules to come with their first sixteen rows.
fn compress_first(
    state: &mut [u32; 8],
    rows: &Rows,
    next: &mut Rows,
    window: &mut Window,
    bytes: &[u8],
)
    requires { length bytes.now ≡ 256 }
    ensures state { (b : List ℕ) → AreKeyed b rows.now 0 → state.new ≡ compress state.old b }
    ensures rows { (j : ℕ) → j < 4 → IsFirstTo (part bytes.now j) j next.new window.new 16 }
{
    let mut v = *state;
    'places: for place in 0..16 {
        v = first_beside(v, rows, next, window, bytes, place);
    }
    *state = added(state, &v);
}

/// Takes four blocks into a hash value by their rows, and makes the rows of the four blocks that come next.
pub fn absorb_beside(state: &mut [u32; 8], rows: &Rows, next: &mut Rows, bytes: &[u8])
    requires { length bytes.now ≡ 256 }
    ensures state { (p : List ℕ) → AreFour p rows.now → state.new ≡ hash_after state.old p 4 }
    ensures rows { AreFour bytes.now next.new }
{
    let mut window = [u32x4::splat(0); 16];
    compress_first(state, rows, next, &mut window, bytes);
    'lanes: for lane in 1..4 {
        compress_beside(state, rows, lane, next, &mut window);
    }
}
