//! What is wrong with a task management message (JESD220, 10.7.6 and 10.7.7).
ghost use Rattle.std.specs.Prelude.{IfSome};
ghost use Rattle.ufs_spec.specs.Messages.{IsMessage};

use std::fmt;
use ufs_spec::codes::{TASK_REQUEST, TASK_RESPONSE};
use ufs_spec::{Message, Upiu};

/// Of a task management message, says which byte is the first that is not what its fields ask for.
/// Of all other bytes nothing is said.
pub fn write_wrong_byte<W: fmt::Write>(f: &mut fmt::Formatter<W>, bytes: &[u8]) -> fmt::Result {
    let Some(message) = message_meant(bytes) else {
        return Ok(());
    };
    let mut spelled = Upiu::new();
    upiu::write(&message, &mut spelled);
    match first_difference(bytes, spelled.as_slice()) {
        Some((place, found, due)) => {
            write!(f, "; byte {place} is {found:02X}h and has to be {due:02X}h")
        }
        None => Ok(()),
    }
}

// The task management message with the fields of these bytes, if their transaction code is one of
// it. Each byte of a field may have any value; the LUN stands in two bytes, of which the first
// counts.
fn message_meant(bytes: &[u8]) -> Option<Message>
    ensures { IfSome result IsMessage }
{
    let header = bytes.first_chunk::<32>()?;
    match header[0] & 0x3F {
        TASK_REQUEST => Some(Message::TaskRequest {
            lun: header[2],
            tag: header[3],
            function: header[5],
            meant: header[19],
        }),
        TASK_RESPONSE => Some(Message::TaskResponse {
            lun: header[2],
            tag: header[3],
            service: header[15],
        }),
        _ => None,
    }
}

// The first place at which two rows of bytes differ, as far as both go, and the bytes there.
fn first_difference(bytes: &[u8], others: &[u8]) -> Option<(usize, u8, u8)> {
    for (place, (byte, other)) in bytes.iter().zip(others).enumerate() {
        if *byte != *other {
            return Some((place, *byte, *other));
        }
    }
    None
}
