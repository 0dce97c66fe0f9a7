//! The MAC of a message that comes in parts, and of one that is there as a whole.
ghost use Rattle.std.specs.Prelude.{◌≡◌, ◌++◌, [], ℕ, List};
ghost use Rattle.hmac_sha256.specs.Hmac.{Holds};
ghost use Rattle.ufs_spec.specs.Rpmb.{mac};

use crate::keys::{padded, xored};
use sha2::{Digest, Sha256};

// The byte of the inner key and that of the outer one: ipad and opad of RFC 2104, section 2.
const INNER: u8 = 0x36;

const OUTER: u8 = 0x5C;

/// The MAC of a message that comes part by part. A part is hashed as it comes, and neither copied
/// nor kept. It makes no difference where one part ends and the next one begins.
#[derive(Drop)]
pub struct Hmac {
    inner: Sha256,
    outer: Sha256,
}

impl Hmac {
    /// Begins a MAC under this key; no part has come yet. The key may have any length. One of more
    /// than 64 bytes is replaced by its SHA-256 (RFC 2104, section 2).
    pub fn new(key: &[u8]) -> Hmac
        ensures { Holds result key.now [] }
    {
        let block = padded(key);
        Hmac {
            inner: Sha256::new_with_prefix(xored(INNER, &block)),
            outer: Sha256::new_with_prefix(xored(OUTER, &block)),
        }
    }

    /// Adds a part to the end of the message.
    pub fn update(&mut self, part: &[u8])
        ensures { (key message : List ℕ) → Holds self.old key message →
            Holds self.new key (message ++ part.now) }
    {
        self.inner.update(part);
    }

    /// The MAC of all parts, one after another: the hash of the outer key and of the hash of the
    /// inner key and the message (RFC 2104, section 2). It is not truncated (section 5).
    pub fn finish(self) -> [u8; 32]
        ensures { (key message : List ℕ) → Holds self key message → result ≡ mac key message }
    {
        let Hmac { inner, mut outer } = self;
        outer.update(inner.finalize());
        outer.finalize()
    }
}

/// The MAC of a message under a key, each of any length (RFC 2104, section 2). FIPS 180-4 speaks of
/// fewer than 2^64 bits; of a longer message `sha2` hashes the length modulo 2^64.
pub fn mac(key: &[u8], message: &[u8]) -> [u8; 32]
    ensures { result ≡ mac key.now message.now }
{
    let mut hmac = Hmac::new(key);
    hmac.update(message);
    hmac.finish()
}
