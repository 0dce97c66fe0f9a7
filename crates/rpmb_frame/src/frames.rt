//! A frame, read and written.
ghost use Rattle.std.specs.Prelude.{◌≡◌, ◌+◌, ◌≤◌, length, take, drop};
ghost use Rattle.rpmb_frame.specs.Fields.{frame_of};
ghost use Rattle.ufs_spec.specs.Frames as frames;
ghost use Rattle.ufs_spec.specs.Frames.{IsFrame, covered_bytes, frame_bytes, frame_in};

use ufs_bytes::{read_u16, read_u32, write_u16, write_u32};

// Where each field begins; the stuff bytes come first.
const KEY_OR_MAC: usize = 196;

const DATA: usize = 228;

const NONCE: usize = 484;

const WRITE_COUNTER: usize = 500;

const ADDRESS: usize = 504;

const BLOCK_COUNT: usize = 506;

const RESULT: usize = 508;

const MESSAGE_TYPE: usize = 510;

/// A frame of the replay protected memory block. Requests and responses have the same fields. The
/// message type decides which of them say something.
#[derive(Drop)]
pub struct Frame {
    /// Bytes without a meaning.
    pub stuff: [u8; 196],
    /// The authentication key that is to be programmed, or the MAC.
    pub key_or_mac: [u8; 32],
    /// One block of the area.
    pub data: [u8; 256],
    /// Bytes of the host's choice; the response to a read repeats them.
    pub nonce: [u8; 16],
    /// How many writes the area has had.
    pub write_counter: u32,
    /// The first block that is meant.
    pub address: u16,
    /// How many blocks are meant.
    pub block_count: u16,
    /// What became of the request; `codes` has the results.
    pub result: u16,
    /// Which request or response it is; `codes` has the types.
    pub message_type: u16,
}

impl Frame {
    /// The frame that 512 bytes are. Its bytes are these again, also those without a meaning.
    pub fn read(bytes: &[u8; 512]) -> Frame
        ensures frame { frame_of result ≡ frame_in bytes.now }
        ensures is_frame { IsFrame (frame_of result) }
        ensures bytes { frame_bytes (frame_of result) ≡ bytes.now }
    {
        Frame {
            stuff: part(bytes, 0),
            key_or_mac: part(bytes, KEY_OR_MAC),
            data: part(bytes, DATA),
            nonce: part(bytes, NONCE),
            write_counter: read_u32(bytes, WRITE_COUNTER),
            address: read_u16(bytes, ADDRESS),
            block_count: read_u16(bytes, BLOCK_COUNT),
            result: read_u16(bytes, RESULT),
            message_type: read_u16(bytes, MESSAGE_TYPE),
        }
    }

    /// Writes the bytes of the frame in place of what was there.
    pub fn write_to(&self, bytes: &mut [u8; 512])
        ensures { bytes.new ≡ frame_bytes (frame_of self.now) }
    {
        bytes[..KEY_OR_MAC].copy_from_slice(&self.stuff);
        bytes[KEY_OR_MAC..DATA].copy_from_slice(&self.key_or_mac);
        bytes[DATA..NONCE].copy_from_slice(&self.data);
        bytes[NONCE..WRITE_COUNTER].copy_from_slice(&self.nonce);
        write_u32(bytes, WRITE_COUNTER, self.write_counter);
        write_u16(bytes, ADDRESS, self.address);
        write_u16(bytes, BLOCK_COUNT, self.block_count);
        write_u16(bytes, RESULT, self.result);
        write_u16(bytes, MESSAGE_TYPE, self.message_type);
    }
}

/// The bytes that the MAC of a frame covers: the last 284, from the data on. They are not copied.
pub fn covered(bytes: &[u8; 512]) -> &[u8]
    ensures place { result.now ≡ drop 228 bytes.now }
    ensures of_frame { (f : frames.Frame) → IsFrame f → frame_bytes f ≡ bytes.now → result.now ≡ covered_bytes f }
{
    &bytes[DATA..]
}

// The bytes of a field.
fn part<const N: usize>(bytes: &[u8; 512], offset: usize) -> [u8; N]
    requires { offset + N ≤ 512 }
    ensures { result ≡ take N (drop offset bytes.now) }
{
    let mut part = [0; N];
    part.copy_from_slice(&bytes[offset..offset + N]);
    part
}
