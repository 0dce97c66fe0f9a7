//! SHA-256 (FIPS 180-4) by vectors. Of four messages of one length: a vector has one word of each
//! message, so that each instruction works on all four. Of one message: the schedules of four of its
//! blocks are made so, since they do not wait for the hash value, while the rounds of the four blocks
//! before them follow one another.
#![tactic(auto)]

ghost use Rattle.std.specs.Prelude.{◌≡◌, [], ◌∷◌, length};
ghost use Rattle.sha2.specs.Sha256.{sha256};

mod beside;
mod blocks;
mod constants;
mod digest;
mod hashes;
mod keyed;
mod one;
mod rounds;
mod scalar;
mod schedule;
mod tail;
mod words;

pub use hashes::FourHashes;
pub use one::OneHash;

/// The digests of four messages of one length, in the order of the messages.
pub fn sha256_four(a: &[u8], b: &[u8], c: &[u8], d: &[u8]) -> [[u8; 32]; 4]
    requires second { length b.now ≡ length a.now }
    requires third { length c.now ≡ length a.now }
    requires fourth { length d.now ≡ length a.now }
    ensures { result ≡ sha256 a.now ∷ sha256 b.now ∷ sha256 c.now ∷ sha256 d.now ∷ [] }
{
    FourHashes::new().finish(a, b, c, d)
}
