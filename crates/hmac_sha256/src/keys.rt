//! The keys of the inner and the outer hash (RFC 2104, section 2).
ghost use Rattle.std.specs.Prelude.{◌≡◌, bit_xor, map};
ghost use Rattle.ufs_spec.specs.Rpmb.{padded_key};

use sha2::{Digest, Sha256};

// How long a block of SHA-256 is, and how long a hash.
const BLOCK: usize = 64;

const HASH: usize = 32;

/// The key, filled with zeros to a block of SHA-256. A longer key is replaced by its hash first.
#[tactic(auto, using(crate::proofs::KeyBlocks::short_filled))]
pub fn padded(key: &[u8]) -> [u8; BLOCK]
    ensures { result ≡ padded_key key.now }
{
    let mut padded = [0; BLOCK];
    if key.len() > BLOCK {
        padded[..HASH].copy_from_slice(&Sha256::digest(key));
    } else {
        padded[..key.len()].copy_from_slice(key);
    }
    padded
}

/// The block, each byte of it xor the pad.
pub fn xored(pad: u8, block: &[u8; BLOCK]) -> [u8; BLOCK]
    ensures { result ≡ map (λ b. bit_xor b pad) block.now }
{
    let mut xored = *block;
    for byte in xored.iter_mut() {
        *byte ^= pad;
    }
    xored
}
