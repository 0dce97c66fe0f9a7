//! The commands and the frames of the replay protected memory block (JESD220, 12.4).
ghost use Rattle.std.specs.Prelude.{◌≡◌};
ghost use Rattle.ufs_messages.specs.Commands.{IsFrameWritten, IsSecurity, ReadsFrame};

use crate::commands::put_cdb;
use rpmb_frame::Frame;
use ufs_handle::{Fault, put_front};
use ufs_spec::Cdb;

/// The LUN of the replay protected memory block.
const RPMB: u8 = 0xC4;

/// A frame but for its bytes without a meaning: the key that is to be programmed or the MAC, one block
/// of the area, and numbers.
#[repr(C)]
#[derive(Clone, Copy)]
pub struct PlainFrame {
    pub key_or_mac: [u8; 32],
    pub payload: [u8; 256],
    pub nonce: [u8; 16],
    pub write_counter: u32,
    pub address: u16,
    pub block_count: u16,
    pub result: u16,
    pub message_type: u16,
}

/// Writes the COMMAND of a SECURITY PROTOCOL OUT, which brings so many frames for the region, or of a
/// SECURITY PROTOCOL IN, which asks for them.
///
/// # Errors
///
/// `Number` where the region is above 3, or the frames are none or more than 8, and `Room` where the
/// buffer has fewer than 32 bytes. It stays as it is then.
pub fn put_security(
    is_out: bool,
    tag: u8,
    region: u8,
    frames: u8,
    into: &mut [u8],
) -> Result<(), Fault>
    ensures { IsSecurity is_out tag region frames result into.old into.new }
{
    if region > 3 || frames == 0 || frames > 8 {
        return Err(Fault::Number);
    }
    let length = u32::from(frames) * 512;
    if is_out {
        put_cdb(
            RPMB,
            tag,
            length,
            &Cdb::SecurityOut { region, length },
            into,
        )
    } else {
        put_cdb(RPMB, tag, length, &Cdb::SecurityIn { region, length }, into)
    }
}

/// Writes the 512 bytes of a frame, with zeros in place of the bytes without a meaning.
///
/// # Errors
///
/// `Room` where the buffer has fewer than 512 bytes. It stays as it is then.
pub fn put_frame(frame: &PlainFrame, into: &mut [u8]) -> Result<(), Fault>
    ensures { IsFrameWritten frame.now result into.old into.new }
{
    let key_or_mac = frame.key_or_mac;
    let data = frame.payload;
    let nonce = frame.nonce;
    let frame = Frame {
        stuff: [0; 196],
        key_or_mac,
        data,
        nonce,
        write_counter: frame.write_counter,
        address: frame.address,
        block_count: frame.block_count,
        result: frame.result,
        message_type: frame.message_type,
    };
    let mut bytes = [0; 512];
    frame.write_to(&mut bytes);
    put_front(&bytes, into)
}

/// Reads a frame.
///
/// # Errors
///
/// `Number` where it has not 512 bytes. The fields stay as they are then.
pub fn get_frame(bytes: &[u8], into: &mut PlainFrame) -> Result<(), Fault>
    ensures { ReadsFrame bytes.now result into.old into.new }
{
    if bytes.len() != 512 {
        return Err(Fault::Number);
    }
    let mut whole = [0; 512];
    whole.copy_from_slice(bytes);
    let frame = Frame::read(&whole);
    let key_or_mac = frame.key_or_mac;
    let payload = frame.data;
    let nonce = frame.nonce;
    into.key_or_mac = key_or_mac;
    into.payload = payload;
    into.nonce = nonce;
    into.write_counter = frame.write_counter;
    into.address = frame.address;
    into.block_count = frame.block_count;
    into.result = frame.result;
    into.message_type = frame.message_type;
    Ok(())
}
