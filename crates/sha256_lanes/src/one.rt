//! The hash of one message, whose blocks are taken in four at a time.
ghost use Rattle.std.specs.Prelude.{◌≡◌, ℕ, ◌≤◌, ◌<◌, ◌*◌, ◌+◌, ◌/◌, ◌%◌, ◌^◌, ◌++◌, List, [], length, take};
ghost use Rattle.sha2.specs.Sha256.{digest_bytes, hash_after, padding, sha256};
ghost use Rattle.sha256_lanes.specs.Keyed.{AreKeyed, part};
ghost use Rattle.sha256_lanes.specs.One.{HoldsOne, ending_size};

use crate::beside::absorb_beside;
use crate::constants::INITIAL_HASH;
use crate::keyed::{FOUR, NO_ROWS, Rows, keyed_rows};
use crate::scalar::compress;

/// The hash of one message, of which so many blocks came so far that four divides them.
#[derive(Clone, Copy)]
pub struct OneHash {
    words: [u32; 8],
    // How long the message is so far, modulo 2^64, as its padding tells it.
    total: u64,
}

impl OneHash {
    /// The hash of a message of which no byte came yet.
    pub fn new() -> OneHash
        ensures { HoldsOne result [] }
    {
        OneHash {
            words: INITIAL_HASH,
            total: 0,
        }
    }

    /// Takes in the next blocks of the message, four at a time: 256 bytes.
    pub fn update(&mut self, blocks: &[u8])
        requires { length blocks.now % 256 ≡ 0 }
        ensures { (m : List ℕ) → HoldsOne self.old m → HoldsOne self.new (m ++ blocks.now) }
    {
        absorb(&mut self.words, blocks);
        self.total = self.total.wrapping_add(blocks.len() as u64);
    }

    /// The digest of the message, once it has its last part.
    pub fn finish(self, last: &[u8]) -> [u8; 32]
        ensures { (m : List ℕ) → HoldsOne self m → result ≡ sha256 (m ++ last.now) }
    {
        let mut words = self.words;
        let (fours, rest) = last.split_at(last.len() / FOUR * FOUR);
        absorb(&mut words, fours);
        let total = self.total.wrapping_add(last.len() as u64);
        absorb_ending(
            &mut words,
            &ending(rest, total),
            ending_len(rest.len()) / 64,
        );
        digest(&words)
    }
}

// Takes blocks into a hash value by their rows, the first of them four at most.
fn absorb_rows(state: &mut [u32; 8], rows: &Rows, count: usize)
    requires { count ≤ 4 }
    ensures { (p : List ℕ) → ((j : ℕ) → j < count → AreKeyed (part p j) rows.now j)
        → state.new ≡ hash_after state.old p count }
{
    'lanes: for lane in 0..count {
        compress(state, rows, lane);
    }
}

// Takes blocks into a hash value, four at a time. The rows of the next four are made while these are
// taken in, in the one of two rooms that is not read.
fn absorb(state: &mut [u32; 8], bytes: &[u8])
    requires { length bytes.now % 256 ≡ 0 }
    ensures { state.new ≡ hash_after state.old bytes.now (length bytes.now / 64) }
{
    if bytes.len() < FOUR {
        return;
    }
    let fours = bytes.len() / FOUR;
    let mut odd = NO_ROWS;
    let mut even = NO_ROWS;
    keyed_rows(&mut odd, &bytes[..FOUR]);
    'fours: for i in 1..fours {
        let next = &bytes[FOUR * i..FOUR * i + FOUR];
        if i % 2 == 1 {
            absorb_beside(state, &odd, &mut even, next);
        } else {
            absorb_beside(state, &even, &mut odd, next);
        }
    }
    if fours % 2 == 1 {
        absorb_rows(state, &odd, 4);
    } else {
        absorb_rows(state, &even, 4);
    }
}

// Takes up to eight blocks into a hash value.
fn absorb_ending(state: &mut [u32; 8], bytes: &[u8; 512], count: usize)
    requires { count ≤ 8 }
    ensures { state.new ≡ hash_after state.old bytes.now count }
{
    let mut rows = NO_ROWS;
    let (first, second) = bytes.split_at(FOUR);
    keyed_rows(&mut rows, first);
    if count <= 4 {
        absorb_rows(state, &rows, count);
        return;
    }
    absorb_rows(state, &rows, 4);
    keyed_rows(&mut rows, second);
    absorb_rows(state, &rows, count - 4);
}

// How many bytes there are from the last four blocks on, with the padding, if so many are the message's.
fn ending_len(length: usize) -> usize
    requires { length < 256 }
    ensures { result ≡ ending_size length }
{
    length + 1 + (119 - length % 64) % 64 + 8
}

// The last bytes of a message, a bit 1, zeros, and the length of the message in bits.
fn ending(rest: &[u8], total: u64) -> [u8; 512]
    requires { length rest.now < 256 }
    ensures { (n : ℕ) → n % 64 ≡ length rest.now % 64 → total ≡ n % 2 ^ 64
        → take (ending_size (length rest.now)) result ≡ rest.now ++ padding n }
{
    let end = ending_len(rest.len());
    let bits = total.wrapping_mul(8);
    let mut bytes = [0; 512];
    bytes[..rest.len()].copy_from_slice(rest);
    bytes[rest.len()] = 0x80;
    bytes[end - 8..end].copy_from_slice(&bits.to_be_bytes());
    bytes
}

// The bytes of a hash value, the high byte of each word first.
fn digest(words: &[u32; 8]) -> [u8; 32]
    ensures { result ≡ digest_bytes words.now 8 }
{
    let mut bytes = [0; 32];
    'words: for i in 0..8 {
        bytes[4 * i..4 * i + 4].copy_from_slice(&words[i].to_be_bytes());
    }
    bytes
}
