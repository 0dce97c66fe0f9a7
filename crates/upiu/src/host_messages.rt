//! Reading a COMMAND and a DATA OUT, the two messages that a write consists of, with no message in
//! between that is as long as the longest.
ghost use Rattle.std.specs.Prelude.{◌≡◌, ◌≤◌, ◌+◌, ◌↔◌, ℕ, List, length, IfNone, IfSome, IsTrue};
ghost use Rattle.arrayvec.specs.ArrayVec.{ArrayVec};
ghost use Rattle.ufs_spec.specs.Messages.{code_of, header, header_of, host_fault_of, Spells};
ghost use Rattle.ufs_spec.specs.declared.Message.{Message};
ghost use Rattle.upiu.specs.HostMessages.{command_in, command_of, data_out_in, data_out_of};

use crate::checks::{HEADER, code, host_fault, stated_length};
use crate::headers::{command_fields, transfer_header};
use crate::reading::{are_command_flags, surround};
use ufs_bytes::read_u32;
use ufs_spec::codes::{COMMAND, DATA_OUT, LINK_EVENT};

/// A DATA OUT, whose data are the `count` bytes after its header (JESD220, 10.7.3).
#[derive(Clone, Copy)]
pub struct DataOut {
    pub lun: u8,
    /// The task tag.
    pub tag: u8,
    /// The place of its data among those of the task.
    pub offset: u32,
    /// How many bytes of data it brings.
    pub count: usize,
}

/// A COMMAND, which opens a task (JESD220, 10.7.1).
#[derive(Clone, Copy)]
pub struct Command {
    /// 20h for a write, 40h for a read, else 0; and in bits 2..0 its priority and its task attribute.
    pub flags: u8,
    pub lun: u8,
    /// The task tag.
    pub tag: u8,
    /// How many bytes the host expects to send or to get.
    pub expected: u32,
    pub cdb: [u8; 16],
}

/// Reads the bytes of a host, if they are a DATA OUT without a fault. Its data stay in the bytes.
pub fn read_data_out(bytes: &[u8]) -> Option<DataOut>
    // What is read has no fault and is spelled so, each byte of it.
    ensures read { IfSome result (λ said. (host_fault_of bytes.now ≡ None) ×
        Spells (data_out_of said bytes.now) bytes.now) }
    ensures within { IfSome result (λ said. HEADER + said.count ≤ length bytes.now) }
    // Bytes that are not read spell no DATA OUT.
    ensures other { IfNone result ((lun tag offset : ℕ) (sent : ArrayVec ℕ) →
        Spells (Message.DataOut lun tag offset sent) bytes.now → ⊥) }
{
    if !is_of_kind(DATA_OUT, bytes) {
        return None;
    }
    let said = data_out_in(bytes);
    let header = transfer_header(DATA_OUT, said.lun, said.tag, said.offset, said.count);
    if surround(&header, bytes) {
        Some(said)
    } else {
        None
    }
}

/// Reads the bytes of a host, if they are a COMMAND without a fault.
pub fn read_command(bytes: &[u8]) -> Option<Command>
    // What is read has no fault and is spelled so, each byte of it.
    ensures read { IfSome result (λ said. (host_fault_of bytes.now ≡ None) ×
        Spells (command_of said) bytes.now) }
    // Bytes that are not read spell no COMMAND.
    ensures other { IfNone result ((flags lun tag expected : ℕ) (cdb : List ℕ) →
        Spells (Message.Command flags lun tag expected cdb) bytes.now → ⊥) }
{
    if !is_of_kind(COMMAND, bytes) {
        return None;
    }
    let said = command_in(bytes);
    if are_command_flags(said.flags) && surround(&command_header(&said), bytes) {
        Some(said)
    } else {
        None
    }
}

/// Whether the bytes have no fault that is found before a message's fields, and the transaction code of
/// LINK EVENT. A device of profile 0 has no such message.
pub fn has_event_code(bytes: &[u8]) -> bool
    ensures { IsTrue result ↔ ((host_fault_of bytes.now ≡ None) × (code_of bytes.now ≡ 0x1F)) }
{
    is_of_kind(LINK_EVENT, bytes)
}

// Whether the bytes have no fault and are of the kind with this transaction code.
fn is_of_kind(kind: u8, bytes: &[u8]) -> bool
    ensures { IsTrue result ↔ ((host_fault_of bytes.now ≡ None) × (code_of bytes.now ≡ kind)) }
{
    bytes.len() >= HEADER && code(bytes) == kind && host_fault(bytes).is_none()
}

// The DATA OUT that the fields name.
fn data_out_in(bytes: &[u8]) -> DataOut
    requires { HEADER ≤ length bytes.now }
    ensures { result ≡ data_out_in bytes.now }
{
    DataOut {
        lun: bytes[2],
        tag: bytes[3],
        offset: read_u32(bytes, 12),
        count: stated_length(bytes),
    }
}

// The COMMAND that the fields name.
fn command_in(bytes: &[u8]) -> Command
    requires { HEADER ≤ length bytes.now }
    ensures { result ≡ command_in bytes.now }
{
    let mut cdb = [0; 16];
    cdb.copy_from_slice(&bytes[16..32]);
    Command {
        flags: bytes[1],
        lun: bytes[2],
        tag: bytes[3],
        expected: read_u32(bytes, 12),
        cdb,
    }
}

// The header of a COMMAND.
fn command_header(said: &Command) -> [u8; 32]
    ensures { result ≡ header_of (command_of said.now) }
{
    let mut bytes = [0; 32];
    bytes[0] = COMMAND;
    bytes[1] = said.flags;
    bytes[2] = said.lun;
    bytes[3] = said.tag;
    bytes[12..].copy_from_slice(&command_fields(said.expected, &said.cdb));
    bytes
}
