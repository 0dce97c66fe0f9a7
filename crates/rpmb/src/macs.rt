//! The MAC that a request came with.
ghost use Rattle.std.specs.Prelude.{◌≡◌, List, ◌∷◌, Some, map};
ghost use Rattle.ufs_spec.specs.Frames as defined;
ghost use Rattle.ufs_spec.specs.Frames.{frame_in};
ghost use Rattle.ufs_spec.specs.Rpmb.{has_wrong_mac};

use hmac_sha256::same_mac;
use rpmb_frame::{Frame, frames_mac};

/// Whether the MAC in the last frame is not that of all frames under the key.
pub fn has_wrong_mac(key: &[u8; 32], frames: &[[u8; 512]]) -> bool
    ensures { (f : defined.Frame) (fs : List defined.Frame) → f ∷ fs ≡ map frame_in frames.now →
        result ≡ has_wrong_mac (Some key.now) f fs }
{
    match frames.last() {
        None => true,
        Some(last) => !same_mac(&Frame::read(last).key_or_mac, &frames_mac(key, frames)),
    }
}
