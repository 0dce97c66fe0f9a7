//! The MAC of frames.
ghost use Rattle.std.specs.Prelude.{◌≡◌, drop, map};
ghost use Rattle.std.specs.List.{flat_map};
ghost use Rattle.ufs_spec.specs.Frames.{covered_bytes, frame_in};
ghost use Rattle.ufs_spec.specs.Rpmb.{frames_mac, mac};

use crate::frames::covered;
use hmac_sha256::Hmac;

/// The MAC of all frames under the key: over what it covers in each, one frame after another. They
/// are hashed where they stand, and not copied.
pub fn frames_mac(key: &[u8; 32], frames: &[[u8; 512]]) -> [u8; 32]
    ensures of_frames { result ≡ frames_mac key.now (map frame_in frames.now) }
    ensures of_bytes { result ≡ mac key.now (flat_map (λ b. drop 228 b) frames.now) }
{
    let mut hmac = Hmac::new(key);
    for frame in frames {
        hmac.update(covered_in(frame));
    }
    hmac.finish()
}

// What the MAC covers of a frame.
fn covered_in(frame: &[u8; 512]) -> &[u8]
    ensures of_frame { result.now ≡ covered_bytes (frame_in frame.now) }
    ensures of_bytes { result.now ≡ drop 228 frame.now }
{
    covered(frame)
}
