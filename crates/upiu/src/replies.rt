//! Writing the replies that a task gets, with no message in between that is as long as the longest.
ghost use Rattle.std.specs.Prelude.{◌≡◌, ◌≤◌, length};
ghost use Rattle.ufs_spec.specs.Messages.{header_of, sense_of, spelling};
ghost use Rattle.ufs_spec.specs.declared.Message.{Message};
ghost use Rattle.upiu.specs.Replies.{message_of};

use crate::headers::{command_fields, transfer_fields, transfer_header};
use crate::writing::fill;
use ufs_bytes::write_u16;
use ufs_spec::Upiu;
use ufs_spec::codes::{DATA_IN, READY_TO_TRANSFER, RESPONSE};

/// A RESPONSE, which ends a command (JESD220, 10.7.2).
#[derive(Clone, Copy)]
pub struct Response {
    /// The flags of its residual count: 20h for an underflow, 40h for an overflow, else 0.
    pub flags: u8,
    pub lun: u8,
    /// The task tag.
    pub tag: u8,
    /// 00h if the target succeeded, 01h if it failed.
    pub response: u8,
    /// The status of SAM.
    pub status: u8,
    /// How many bytes fewer or more than expected were carried.
    pub residual: u32,
    /// The length of the sense data and these, with CHECK CONDITION only.
    pub sense: Option<[u8; 20]>,
}

/// Writes a RESPONSE in place of what was there. It allocates nothing.
pub fn write_response(said: &Response, into: &mut Upiu)
    ensures { into.new.items ≡ spelling (message_of said.now) }
{
    let segment = sense_segment(&said.sense);
    fill(into, &response_header(said), segment);
}

/// Writes the DATA IN with these bytes, which begin at this offset of the data (JESD220, 10.7.4), in place
/// of what was there. There are at most 4096 of them. It allocates nothing.
pub fn write_data_in(lun: u8, tag: u8, offset: u32, bytes: &[u8], into: &mut Upiu)
    requires { length bytes.now ≤ 4096 }
    ensures { into.new.items ≡ spelling (Message.DataIn lun tag offset (record { items = bytes.now })) }
{
    fill(
        into,
        &transfer_header(DATA_IN, lun, tag, offset, bytes.len()),
        bytes,
    );
}

/// Writes the READY TO TRANSFER for so many bytes from this offset on (JESD220, 10.7.5), in place of what
/// was there. It allocates nothing.
pub fn write_ready_to_transfer(lun: u8, tag: u8, offset: u32, count: u32, into: &mut Upiu)
    ensures { into.new.items ≡ spelling (Message.ReadyToTransfer lun tag offset count) }
{
    let mut bytes = [0; 32];
    bytes[0] = READY_TO_TRANSFER;
    bytes[2] = lun;
    bytes[3] = tag;
    bytes[12..].copy_from_slice(&transfer_fields(offset, count));
    fill(into, &bytes, &[]);
}

// The data segment of a RESPONSE.
fn sense_segment(sense: &Option<[u8; 20]>) -> &[u8]
    ensures segment { result.now ≡ sense_of sense.now }
    ensures fits { length result.now ≤ 4096 }
{
    match sense {
        Some(sense) => sense,
        None => &[],
    }
}

// The header of a RESPONSE.
fn response_header(said: &Response) -> [u8; 32]
    ensures { result ≡ header_of (message_of said.now) }
{
    let mut bytes = [0; 32];
    bytes[0] = RESPONSE;
    bytes[1] = said.flags;
    bytes[2] = said.lun;
    bytes[3] = said.tag;
    bytes[6] = said.response;
    bytes[7] = said.status;
    write_u16(&mut bytes, 10, sense_segment(&said.sense).len() as u16);
    bytes[12..].copy_from_slice(&command_fields(said.residual, &[0; 16]));
    bytes
}
