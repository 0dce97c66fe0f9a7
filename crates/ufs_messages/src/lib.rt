//! Messages of a host and replies for a C program, which has no types for them: written into a
//! buffer, or read from one.
#![tactic(auto)]

ghost use Rattle.std.specs.Prelude.{◌≡◌, ◌≤◌, length};
ghost use Rattle.ufs_spec.specs.Messages.{AreFlags, IsMessage, spelling};
ghost use Rattle.ufs_spec.specs.declared.messages.Message.TheVariants.{Command};
ghost use Rattle.ufs_messages.specs.Written.{IsCommand, IsDataOut, IsMac, IsWritten, ReadsResponse, padded};

mod commands;
mod security;

pub use commands::{
    put_asking, put_asking_for, put_flush, put_link_event, put_long, put_nop, put_query, put_read,
    put_task_request, put_unmap, put_unmap_list, put_verify, put_write,
};
use rpmb_frame::frames_mac;
pub use security::{PlainFrame, get_frame, put_frame, put_security};
use ufs_bytes::write_u32;
use ufs_handle::{Fault, put_front};
use ufs_spec::codes::COMMAND;
use ufs_spec::{Data, Message, Upiu};

/// A RESPONSE (JESD220, 10.7.2): its tag, its response and status, the residual count, and the sense
/// key with the additional sense code and its qualifier, which are 0 where there are no sense data.
#[repr(C)]
#[derive(Clone, Copy)]
pub struct PlainResponse {
    pub tag: u8,
    pub response: u8,
    pub status: u8,
    pub key: u8,
    pub code: u8,
    pub qualifier: u8,
    pub residual: u32,
}

/// Writes a COMMAND of 32 bytes (JESD220, 10.7.1). A CDB of fewer than 16 bytes is padded with zeros.
///
/// # Errors
///
/// `Number` where the flags are not 00h, 20h or 40h, or the CDB has more than 16 bytes, and `Room`
/// where the buffer has fewer than 32. It stays as it is then.
pub fn put_command(
    flags: u8,
    lun: u8,
    tag: u8,
    expected: u32,
    cdb: &[u8],
    into: &mut [u8],
) -> Result<(), Fault>
    ensures { IsCommand flags lun tag expected cdb.now result into.old into.new }
{
    if !matches!(flags, 0x00 | 0x20 | 0x40) || cdb.len() > 16 {
        return Err(Fault::Number);
    }
    put_with(flags, lun, tag, expected, padded(cdb), into)
}

/// Writes a COMMAND with these fields and this CDB.
pub(crate) fn put_with(
    flags: u8,
    lun: u8,
    tag: u8,
    expected: u32,
    cdb: [u8; 16],
    into: &mut [u8],
) -> Result<(), Fault>
    requires { AreFlags flags }
    ensures { IsWritten (Command flags lun tag expected cdb) result into.old into.new }
{
    put_front(&command_bytes(flags, lun, tag, expected, &cdb), into)
}

/// The bytes of a COMMAND, which has no data: no message is made that has room for the longest.
fn command_bytes(flags: u8, lun: u8, tag: u8, expected: u32, cdb: &[u8; 16]) -> [u8; 32]
    ensures { result ≡ spelling (Command flags lun tag expected cdb.now) }
{
    let mut bytes = [0; 32];
    bytes[0] = COMMAND;
    bytes[1] = flags;
    bytes[2] = lun;
    bytes[3] = tag;
    write_u32(&mut bytes, 12, expected);
    bytes[16..].copy_from_slice(cdb);
    bytes
}

/// The CDB with zeros behind it.
fn padded(cdb: &[u8]) -> [u8; 16]
    requires { length cdb.now ≤ 16 }
    ensures { result ≡ padded cdb.now }
{
    let mut whole = [0; 16];
    whole[..cdb.len()].copy_from_slice(cdb);
    whole
}

/// Writes a DATA OUT (JESD220, 10.7.3) with these data: 32 bytes, the data, and zeros up to a multiple
/// of four.
///
/// # Errors
///
/// `Number` where the data are none or more than 4096 bytes, and `Room` where the buffer is too small.
/// It stays as it is then.
pub fn put_data_out(
    lun: u8,
    tag: u8,
    offset: u32,
    sent: &[u8],
    into: &mut [u8],
) -> Result<(), Fault>
    ensures { IsDataOut lun tag offset sent.now result into.old into.new }
{
    if sent.is_empty() || sent.len() > 4096 {
        return Err(Fault::Number);
    }
    let message = Message::DataOut {
        lun,
        tag,
        offset,
        data: data_of(sent),
    };
    put(&message, into)
}

/// The bytes as the data of a message.
pub(crate) fn data_of(sent: &[u8]) -> Data
    requires { length sent.now ≤ 4096 }
    ensures { result.items ≡ sent.now }
{
    let mut data = Data::new();
    let _ = data.try_extend_from_slice(sent);
    data
}

/// Writes the one spelling of the message into the front of the buffer, where it goes into it.
pub(crate) fn put(message: &Message, into: &mut [u8]) -> Result<(), Fault>
    requires { IsMessage message.now }
    ensures { IsWritten message.now result into.old into.new }
{
    let mut bytes = Upiu::new();
    upiu::write(message, &mut bytes);
    put_front(bytes.as_slice(), into)
}

/// Reads a RESPONSE.
///
/// # Errors
///
/// `Number` where the bytes are none. The fields stay as they are then.
pub fn get_response(reply: &[u8], into: &mut PlainResponse) -> Result<(), Fault>
    ensures { ReadsResponse reply.now result into.old into.new }
{
    match upiu::read(reply) {
        Ok(
            Message::Response {
                flags: _,
                lun: _,
                tag,
                response,
                status,
                residual,
                sense,
            },
        ) => {
            let told = sense.unwrap_or([0; 20]);
            into.tag = tag;
            into.response = response;
            into.status = status;
            into.residual = residual;
            into.key = told[4] & 0x0F;
            into.code = told[14];
            into.qualifier = told[15];
            Ok(())
        }
        _ => Err(Fault::Number),
    }
}

/// Writes the MAC of frames of the replay protected memory block under a key (JESD220, 12.4): 32
/// bytes. What it covers of each frame of 512 bytes is its data and what stands behind.
///
/// # Errors
///
/// `Number` where the key has not 32 bytes, or the frames are none or not whole, and `Room` where the
/// buffer has fewer than 32 bytes. It stays as it is then.
pub fn put_mac(key: &[u8], frames: &[u8], into: &mut [u8]) -> Result<(), Fault>
    ensures { IsMac key.now frames.now result into.old into.new }
{
    let (whole, rest) = frames.as_chunks::<512>();
    if key.len() != 32 || whole.is_empty() || !rest.is_empty() {
        return Err(Fault::Number);
    }
    let mut kept = [0; 32];
    kept.copy_from_slice(key);
    put_front(&frames_mac(&kept, whole), into)
}
