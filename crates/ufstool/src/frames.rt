//! Frames of the replay protected memory block in words (JESD220, 12.4).
use crate::messages::write_contents;
use crate::names::{frame_name, frame_result_name};
use hmac_sha256::same_mac;
use rpmb_frame::codes::{
    COUNTER_EXPIRED, COUNTER_READ_REQUEST, COUNTER_READ_RESPONSE, DATA_READ_REQUEST,
    DATA_READ_RESPONSE, DATA_WRITE_REQUEST, DATA_WRITE_RESPONSE, KEY_PROGRAMMING_REQUEST,
    KEY_PROGRAMMING_RESPONSE,
};
use rpmb_frame::{Frame, frames_mac};
use std::io::Write;
use std::{fmt, io};
use ufs_spec::Message;

/// The LUN of the well known unit RPMB (JESD220, 10.5).
pub const RPMB_UNIT: u8 = 0xC4;

/// Says in a line for each what the frames of a message are. Frames are the data that go to the
/// unit RPMB or come from it, if they are frames as a whole; of other data nothing is said.
pub fn write_frames_of<W: Write>(
    message: &Message,
    key: Option<&[u8; 32]>,
    out: &mut W,
) -> io::Result<()> {
    match message {
        Message::DataOut { lun, data, .. } | Message::DataIn { lun, data, .. } => {
            if *lun == RPMB_UNIT {
                write_frames(data.as_slice(), key, out)?;
            }
            Ok(())
        }
        _ => Ok(()),
    }
}

/// Says in a line for each what these frames are. Of bytes that are no frames as a whole nothing is
/// said. Under a key it is told whether the MAC, which the last frame has for all, is right.
pub fn write_frames<W: Write>(bytes: &[u8], key: Option<&[u8; 32]>, out: &mut W) -> io::Result<()> {
    let (frames, rest) = bytes.as_chunks::<512>();
    if !rest.is_empty() {
        return Ok(());
    }
    let count = frames.len();
    let mut number = 0usize;
    for bytes in frames {
        number = number.saturating_add(1);
        let frame = Frame::read(bytes);
        let state = if number == count {
            mac_state(&frame, key, frames)
        } else {
            MacState::Later
        };
        let words = FrameWords { frame, state };
        writeln!(out, "    frame {number} of {count}: {words}")?;
    }
    Ok(())
}

// What is known of the MAC in a frame.
#[derive(Clone, Copy)]
enum MacState {
    // A later frame has the MAC of all.
    Later,
    // Its bytes are zeros.
    Missing,
    // No key is there to tell whether it is right.
    Unknown,
    Right,
    Wrong,
}

// What is known of the MAC in the last of these frames.
fn mac_state(last: &Frame, key: Option<&[u8; 32]>, frames: &[[u8; 512]]) -> MacState {
    if last.key_or_mac.iter().all(|byte| *byte == 0) {
        return MacState::Missing;
    }
    match key {
        None => MacState::Unknown,
        Some(key) if same_mac(&last.key_or_mac, &frames_mac(key, frames)) => MacState::Right,
        Some(_) => MacState::Wrong,
    }
}

// A frame, with what is known of its MAC.
#[derive(Drop)]
struct FrameWords {
    frame: Frame,
    state: MacState,
}

impl fmt::Display for FrameWords {
    fn fmt<W: fmt::Write>(&self, f: &mut fmt::Formatter<W>) -> fmt::Result {
        let frame = &self.frame;
        let kind = frame.message_type;
        let name = frame_name(kind);
        write!(f, "{name} ({kind:04X}h)")?;
        write_result(f, frame)?;
        write_numbers(f, frame)?;
        if names_nonce(kind) || has_other(&frame.nonce) {
            f.write_str(", nonce ")?;
            write_digits(f, &frame.nonce)?;
        }
        if names_data(kind) || has_other(&frame.data) {
            f.write_str(", data")?;
            write_contents(f, &frame.data)?;
        }
        write_mac(f, frame, self.state)
    }
}

// Whether one of the bytes is not zero. A field that the type does not name is told then alone.
fn has_other(bytes: &[u8]) -> bool {
    bytes.iter().any(|byte| *byte != 0)
}

// Responses have a result.
fn write_result<W: fmt::Write>(f: &mut fmt::Formatter<W>, frame: &Frame) -> fmt::Result {
    let code = frame.result;
    if code == 0 && !is_response(frame.message_type) {
        return Ok(());
    }
    let name = frame_result_name(code & !COUNTER_EXPIRED);
    write!(f, ", result {code:04X}h, {name}")?;
    let is_expired = code & COUNTER_EXPIRED != 0;
    f.write_str(if is_expired {
        ", write counter expired"
    } else {
        ""
    })
}

// The write counter, the address and the count of blocks.
fn write_numbers<W: fmt::Write>(f: &mut fmt::Formatter<W>, frame: &Frame) -> fmt::Result {
    let kind = frame.message_type;
    let counter = frame.write_counter;
    if names_counter(kind) || counter != 0 {
        write!(f, ", write counter {counter}")?;
    }
    let address = frame.address;
    if names_address(kind) || address != 0 {
        write!(f, ", address {address}")?;
    }
    let count = frame.block_count;
    if names_count(kind) || count != 0 {
        let noun = if count == 1 { "block" } else { "blocks" };
        write!(f, ", {count} {noun}")?;
    }
    Ok(())
}

// The MAC, or the key that is to be programmed.
fn write_mac<W: fmt::Write>(
    f: &mut fmt::Formatter<W>,
    frame: &Frame,
    state: MacState,
) -> fmt::Result {
    if frame.message_type == KEY_PROGRAMMING_REQUEST {
        f.write_str(", key ")?;
        return write_digits(f, &frame.key_or_mac);
    }
    match state {
        MacState::Later => Ok(()),
        MacState::Missing if names_mac(frame.message_type) => f.write_str(", MAC of zeros"),
        MacState::Missing => Ok(()),
        MacState::Right => f.write_str(", MAC right"),
        MacState::Wrong => f.write_str(", MAC wrong"),
        MacState::Unknown => {
            f.write_str(", MAC ")?;
            write_digits(f, &frame.key_or_mac)
        }
    }
}

fn write_digits<W: fmt::Write>(f: &mut fmt::Formatter<W>, bytes: &[u8]) -> fmt::Result {
    for byte in bytes {
        write!(f, "{byte:02x}")?;
    }
    Ok(())
}

fn is_response(kind: u16) -> bool {
    kind == KEY_PROGRAMMING_RESPONSE || names_response_mac(kind)
}

// The responses that are signed once a key is there.
fn names_response_mac(kind: u16) -> bool {
    kind == COUNTER_READ_RESPONSE || kind == DATA_WRITE_RESPONSE || kind == DATA_READ_RESPONSE
}

fn names_mac(kind: u16) -> bool {
    kind == DATA_WRITE_REQUEST || names_response_mac(kind)
}

fn names_counter(kind: u16) -> bool {
    kind == DATA_WRITE_REQUEST || kind == COUNTER_READ_RESPONSE || kind == DATA_WRITE_RESPONSE
}

fn names_address(kind: u16) -> bool {
    kind == DATA_WRITE_RESPONSE || names_count(kind)
}

fn names_count(kind: u16) -> bool {
    kind == DATA_READ_REQUEST || names_data(kind)
}

fn names_nonce(kind: u16) -> bool {
    kind == COUNTER_READ_REQUEST
        || kind == DATA_READ_REQUEST
        || kind == COUNTER_READ_RESPONSE
        || kind == DATA_READ_RESPONSE
}

fn names_data(kind: u16) -> bool {
    kind == DATA_WRITE_REQUEST || kind == DATA_READ_RESPONSE
}
