//! The digest of one of four messages.
ghost use Rattle.std.specs.Prelude.{◌≡◌, ◌<◌};
ghost use Rattle.sha2.specs.Sha256.{digest_bytes};
ghost use Rattle.sha256_lanes.specs.Lanes.{lane};

use std::simd::u32x4;

/// The bytes of the hash value of this message, the high byte of each word first.
pub fn digest(state: &[u32x4; 8], message: usize) -> [u8; 32]
    requires { message < 4 }
    ensures { result ≡ digest_bytes (lane message state.now) 8 }
{
    let mut bytes = [0; 32];
    'words: for i in 0..8 {
        let word = state[i].to_array()[message];
        bytes[4 * i..4 * i + 4].copy_from_slice(&word.to_be_bytes());
    }
    bytes
}
