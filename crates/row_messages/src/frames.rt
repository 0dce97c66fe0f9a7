//! The messages of requests to the replay protected memory block, and the device's answers, as the standards lay
//! them out (JESD220, 12.4; SPC, SECURITY PROTOCOL IN and OUT).
ghost use Rattle.std.specs.Prelude.{◌≡◌, ◌≤◌, ◌++◌, length, replicate};
ghost use Rattle.std.specs.List.{flat_map};
ghost use Rattle.ufs_spec.specs.Codes.{data_in_code, data_out_code};
ghost use Rattle.ufs_spec.specs.Frames.{frame_bytes};
ghost use Rattle.ufs_spec.specs.Messages.{header, spelling, zeros};
ghost use Rattle.row_messages.specs.Laid.{bytes_of, frames_header, frames_ready_of, good_of, rpmb, security_of};

use byteorder::{BigEndian, ByteOrder};
use rpmb_frame::Frame;
use ufs_spec::Upiu;
use ufs_spec::operations::{SECURITY_IN, SECURITY_OUT};

/// A frame, without its meaning.
pub type FrameBytes = [u8; 512];

/// The LUN byte of the replay protected memory block.
const RPMB: u8 = 0xC4;

/// How many frames a command has at most.
const MOST_FRAMES: usize = 8;

/// The numbers at the end of a frame.
#[derive(Clone, Copy)]
pub struct Numbers {
    pub counter: u32,
    pub address: u16,
    pub count: u16,
    /// The result.
    pub code: u16,
    /// The message type.
    pub kind: u16,
}

/// A frame with this key or MAC, 256 equal bytes of data, no nonce, and these numbers.
pub fn frame(key_or_mac: &[u8; 32], byte: u8, numbers: Numbers) -> FrameBytes
    ensures { result ≡ frame_bytes (record {
      stuff = zeros 196;
      key_or_mac = key_or_mac.now;
      payload = replicate 256 byte;
      nonce = zeros 16;
      counter = numbers.counter;
      address = numbers.address;
      count = numbers.count;
      result = numbers.code;
      kind = numbers.kind;
    }) }
{
    let frame = Frame {
        stuff: [0; 196],
        key_or_mac: *key_or_mac,
        data: [byte; 256],
        nonce: [0; 16],
        write_counter: numbers.counter,
        address: numbers.address,
        block_count: numbers.count,
        result: numbers.code,
        message_type: numbers.kind,
    };
    let mut bytes = [0; 512];
    frame.write_to(&mut bytes);
    bytes
}

/// How many bytes so many frames have, of eight at most.
fn bytes_of(frames: usize) -> u16
    ensures { result ≡ bytes_of frames }
{
    512 * frames.min(MOST_FRAMES) as u16
}

/// The header of a message of this code to or from the unit, with this tag.
fn header(code: u8, flags: u8, tag: u8) -> [u8; 32]
    ensures { result ≡ header code flags rpmb tag 0 0 0 0 (zeros 20) }
{
    let mut bytes = [0; 32];
    bytes[0] = code;
    bytes[1] = flags;
    bytes[2] = RPMB;
    bytes[3] = tag;
    bytes
}

/// The COMMAND of this operation code, of so many frames.
fn command(flags: u8, tag: u8, operation: u8, frames: usize) -> [u8; 32]
    ensures { result ≡ spelling (security_of flags tag operation frames) }
{
    let mut bytes = header(0x01, flags, tag);
    BigEndian::write_u16(&mut bytes[14..16], bytes_of(frames));
    bytes[16] = operation;
    bytes[17] = 0xEC;
    bytes[19] = 0x01;
    BigEndian::write_u16(&mut bytes[24..26], bytes_of(frames));
    bytes
}

/// The COMMAND that brings so many frames, eight at most.
pub fn frames_command(tag: u8, frames: usize) -> [u8; 32]
    ensures { result ≡ spelling (security_of 0x20 tag SECURITY_OUT frames) }
{
    command(0x20, tag, SECURITY_OUT, frames)
}

/// The COMMAND that fetches so many frames, eight at most.
pub fn answer_command(tag: u8, frames: usize) -> [u8; 32]
    ensures { result ≡ spelling (security_of 0x40 tag SECURITY_IN frames) }
{
    command(0x40, tag, SECURITY_IN, frames)
}

/// The READY TO TRANSFER that asks for so many frames, eight at most.
pub fn frames_ready(tag: u8, frames: usize) -> [u8; 32]
    ensures { result ≡ spelling (frames_ready_of tag frames) }
{
    let mut bytes = header(0x31, 0, tag);
    BigEndian::write_u16(&mut bytes[18..20], bytes_of(frames));
    bytes
}

/// The RESPONSE of the unit with the status GOOD.
pub fn frames_good(tag: u8) -> [u8; 32]
    ensures { result ≡ spelling (good_of rpmb tag) }
{
    header(0x21, 0, tag)
}

/// The header of a message of this code with so many frames.
fn frames_header(code: u8, tag: u8, frames: usize) -> [u8; 32]
    ensures { result ≡ frames_header code tag frames }
{
    let mut bytes = header(code, 0, tag);
    BigEndian::write_u16(&mut bytes[10..12], bytes_of(frames));
    BigEndian::write_u16(&mut bytes[18..20], bytes_of(frames));
    bytes
}

/// A message of this code with frames, eight at most: more do not go into it, and it has none then.
fn with_frames(code: u8, tag: u8, frames: &[FrameBytes]) -> Upiu
    ensures { length frames.now ≤ 8 → result.items ≡
        frames_header code tag (length frames.now) ++ flat_map (λ frame. frame) frames.now }
{
    let mut message = Upiu::new();
    let _ = message.try_extend_from_slice(&frames_header(code, tag, frames.len()));
    let _ = message.try_extend_from_slice(frames.as_flattened());
    message
}

/// The DATA OUT of these frames, eight at most.
pub fn frames_out(tag: u8, frames: &[FrameBytes]) -> Upiu
    ensures { length frames.now ≤ 8 → result.items ≡
        frames_header data_out_code tag (length frames.now) ++ flat_map (λ frame. frame) frames.now }
{
    with_frames(0x02, tag, frames)
}

/// The DATA IN of these frames, eight at most.
pub fn frames_in(tag: u8, frames: &[FrameBytes]) -> Upiu
    ensures { length frames.now ≤ 8 → result.items ≡
        frames_header data_in_code tag (length frames.now) ++ flat_map (λ frame. frame) frames.now }
{
    with_frames(0x22, tag, frames)
}
