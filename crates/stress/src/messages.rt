//! What a host sends, and what it has to hear. The task tag of a command is the host's number.
ghost use Rattle.std.specs.Prelude.{◌≡◌, ◌≤◌, length};
ghost use Rattle.ufs_spec.specs.Cdbs.{IsCdb, cdb_bytes};
ghost use Rattle.ufs_spec.specs.Messages.{spelling, AreFlags, IsMessage};
ghost use Rattle.ufs_spec.specs.declared.Message.{Message};
ghost use Rattle.stress.specs.Messages.{
  abort,
  aborted,
  abort_tag,
  asked,
  bring,
  good,
  is_ready,
  read_one,
  shown,
  write_one,
};

use crate::contents::{address_of, content_of};
use scsi_cdb::bytes_of;
use ufs_spec::codes::{ABORT_TASK, FUNCTION_COMPLETE};
use ufs_spec::{Cdb, Data, Message, Upiu};
use upiu::{Response, write_data_in, write_ready_to_transfer, write_response};

/// Writes a TEST UNIT READY in place of what was there.
pub(crate) fn is_ready(host: u8, into: &mut Upiu)
    ensures { into.new.items ≡ spelling (is_ready host) }
{
    command(0x00, host, 0, &Cdb::Nothing, into);
}

/// Writes the WRITE(10) with FUA of this write in place of what was there.
pub(crate) fn write_one(host: u8, write: u8, into: &mut Upiu)
    ensures { into.new.items ≡ spelling (write_one host write) }
{
    let cdb = Cdb::Write {
        address: u64::from(address_of(host, write)),
        blocks: 1,
        forced: true,
    };
    command(0x20, host, 4096, &cdb, into);
}

/// Writes the DATA OUT with the block of this write in place of what was there.
pub(crate) fn bring(host: u8, write: u8, into: &mut Upiu)
    ensures { into.new.items ≡ spelling (bring host write) }
{
    let content = content_of(host, write);
    upiu::write(&data_out(host, content.as_slice()), into);
}

/// Writes the READ(10) of the block of this write in place of what was there.
pub(crate) fn read_one(host: u8, write: u8, into: &mut Upiu)
    ensures { into.new.items ≡ spelling (read_one host write) }
{
    let cdb = Cdb::Read {
        address: u64::from(address_of(host, write)),
        blocks: 1,
    };
    command(0x40, host, 4096, &cdb, into);
}

/// Writes the RESPONSE of a task that went well in place of what was there.
pub(crate) fn good(host: u8, into: &mut Upiu)
    ensures { into.new.items ≡ spelling (good host) }
{
    let said = Response {
        flags: 0,
        lun: 0,
        tag: host,
        response: 0,
        status: 0,
        residual: 0,
        sense: None,
    };
    write_response(&said, into);
}

/// Writes the READY TO TRANSFER that asks for a block in place of what was there.
pub(crate) fn asked(host: u8, into: &mut Upiu)
    ensures { into.new.items ≡ spelling (asked host) }
{
    write_ready_to_transfer(0, host, 0, 4096, into);
}

/// Writes the DATA IN with the block of this write in place of what was there.
pub(crate) fn shown(host: u8, write: u8, into: &mut Upiu)
    ensures { into.new.items ≡ spelling (shown host write) }
{
    let content = content_of(host, write);
    write_data_in(0, host, 0, content.as_slice(), into);
}

/// The task tag of the host's request to abort its command. No host has it as its number.
pub(crate) fn abort_tag(host: u8) -> u8
    ensures { result ≡ abort_tag host }
{
    u8::MAX - host
}

/// Writes the TASK MANAGEMENT REQUEST that aborts the command of the host in place of what was there.
pub(crate) fn abort(host: u8, into: &mut Upiu)
    ensures { into.new.items ≡ spelling (abort host) }
{
    upiu::write(&abort_request(host), into);
}

/// Writes the TASK MANAGEMENT RESPONSE that says that this was done in place of what was there.
pub(crate) fn aborted(host: u8, into: &mut Upiu)
    ensures { into.new.items ≡ spelling (aborted host) }
{
    upiu::write(&abort_response(host), into);
}

// The TASK MANAGEMENT REQUEST for unit 0 with these fields.
fn abort_request(host: u8) -> Message
    ensures message { result ≡ abort host }
    ensures fields { IsMessage result }
{
    Message::TaskRequest {
        lun: 0,
        tag: abort_tag(host),
        function: ABORT_TASK,
        meant: host,
    }
}

// Its TASK MANAGEMENT RESPONSE.
fn abort_response(host: u8) -> Message
    ensures message { result ≡ aborted host }
    ensures fields { IsMessage result }
{
    Message::TaskResponse {
        lun: 0,
        tag: abort_tag(host),
        service: FUNCTION_COMPLETE,
    }
}

// Writes a COMMAND for unit 0.
fn command(flags: u8, tag: u8, expected: u32, cdb: &Cdb, into: &mut Upiu)
    requires flags { AreFlags flags }
    requires fields { IsCdb cdb.now }
    ensures { into.new.items ≡ spelling (Message.Command flags 0 tag expected (cdb_bytes cdb.now)) }
{
    upiu::write(&command_message(flags, tag, expected, bytes_of(cdb)), into);
}

// The COMMAND for unit 0 with these fields.
fn command_message(flags: u8, tag: u8, expected: u32, cdb: [u8; 16]) -> Message
    requires { AreFlags flags }
    ensures message { result ≡ Message.Command flags 0 tag expected cdb }
    ensures fields { IsMessage result }
{
    Message::Command {
        flags,
        lun: 0,
        tag,
        expected,
        cdb,
    }
}

// The DATA OUT for unit 0 with a block.
fn data_out(tag: u8, block: &[u8]) -> Message
    requires { length block.now ≡ 4096 }
    ensures message { result ≡ Message.DataOut 0 tag 0 (record { items = block.now }) }
    ensures fields { IsMessage result }
{
    let mut data = Data::new();
    let _ = data.try_extend_from_slice(block);
    Message::DataOut {
        lun: 0,
        tag,
        offset: 0,
        data,
    }
}
