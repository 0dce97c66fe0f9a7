//! Four hashes side by side, whose messages come in parts.
ghost use Rattle.std.specs.Prelude.{◌≡◌, ℕ, ◌%◌, ◌++◌, List, [], ◌∷◌, length};
ghost use Rattle.sha2.specs.Sha256.{sha256};
ghost use Rattle.sha256_lanes.specs.Hashes.{Holds, rows_of};
ghost use Rattle.sha256_lanes.specs.Lanes.{lane};

use crate::blocks::absorb;
use crate::constants::INITIAL_HASH;
use crate::digest::digest;
use crate::tail::{tail, tail_len};
use std::simd::u32x4;

/// The hashes of four messages of one length, of which whole blocks came so far.
#[derive(Drop)]
pub struct FourHashes {
    // The four hash values, word by word.
    h0: u32x4,
    h1: u32x4,
    h2: u32x4,
    h3: u32x4,
    h4: u32x4,
    h5: u32x4,
    h6: u32x4,
    h7: u32x4,
    // How long each message is so far, modulo 2^64, as its padding tells it.
    total: u64,
}

impl FourHashes {
    /// The hashes of four messages of which no byte came yet.
    pub fn new() -> FourHashes
        ensures { Holds result [] [] [] [] }
    {
        FourHashes {
            h0: u32x4::splat(INITIAL_HASH[0]),
            h1: u32x4::splat(INITIAL_HASH[1]),
            h2: u32x4::splat(INITIAL_HASH[2]),
            h3: u32x4::splat(INITIAL_HASH[3]),
            h4: u32x4::splat(INITIAL_HASH[4]),
            h5: u32x4::splat(INITIAL_HASH[5]),
            h6: u32x4::splat(INITIAL_HASH[6]),
            h7: u32x4::splat(INITIAL_HASH[7]),
            total: 0,
        }
    }

    /// Takes in the next blocks of each message. A block has 64 bytes.
    pub fn update(&mut self, a: &[u8], b: &[u8], c: &[u8], d: &[u8])
        requires whole { length a.now % 64 ≡ 0 }
        requires second { length b.now ≡ length a.now }
        requires third { length c.now ≡ length a.now }
        requires fourth { length d.now ≡ length a.now }
        ensures { (e f g h : List ℕ) → Holds self.old e f g h
            → Holds self.new (e ++ a.now) (f ++ b.now) (g ++ c.now) (h ++ d.now) }
    {
        let mut state = self.rows();
        absorb(&mut state, a, b, c, d);
        self.keep(&state);
        self.total = self.total.wrapping_add(a.len() as u64);
    }

    /// The digests of the messages, in their order, once each has its last part.
    pub fn finish(self, a: &[u8], b: &[u8], c: &[u8], d: &[u8]) -> [[u8; 32]; 4]
        requires second { length b.now ≡ length a.now }
        requires third { length c.now ≡ length a.now }
        requires fourth { length d.now ≡ length a.now }
        ensures { (e f g h : List ℕ) → Holds self e f g h
            → result ≡ sha256 (e ++ a.now) ∷ sha256 (f ++ b.now)
            ∷ sha256 (g ++ c.now) ∷ sha256 (h ++ d.now) ∷ [] }
    {
        let mut state = self.rows();
        absorb(&mut state, a, b, c, d);
        let total = self.total.wrapping_add(a.len() as u64);
        let end = tail_len(a.len());
        let (tail_a, tail_b) = (tail(a, total), tail(b, total));
        let (tail_c, tail_d) = (tail(c, total), tail(d, total));
        absorb(
            &mut state,
            &tail_a[..end],
            &tail_b[..end],
            &tail_c[..end],
            &tail_d[..end],
        );
        [
            digest(&state, 0),
            digest(&state, 1),
            digest(&state, 2),
            digest(&state, 3),
        ]
    }

    // The hash values, a row for each word.
    fn rows(&self) -> [u32x4; 8]
        ensures { result ≡ rows_of self.now }
    {
        [
            self.h0, self.h1, self.h2, self.h3, self.h4, self.h5, self.h6, self.h7,
        ]
    }

    // Takes the hash values from rows.
    fn keep(&mut self, rows: &[u32x4; 8])
        ensures words { (j : ℕ) → lane j (rows_of self.new) ≡ lane j rows.now }
        ensures total { self.new.total ≡ self.old.total }
    {
        self.h0 = rows[0];
        self.h1 = rows[1];
        self.h2 = rows[2];
        self.h3 = rows[3];
        self.h4 = rows[4];
        self.h5 = rows[5];
        self.h6 = rows[6];
        self.h7 = rows[7];
    }
}
