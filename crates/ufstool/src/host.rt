//! The lines of a script that hand a device a message.
ghost use Rattle.std.specs.Prelude.{◌≡◌, ◌≤◌, ◌++◌, IfOk, OnOk, length, true};
ghost use Rattle.hex.specs.Hex.{encode_lower};
ghost use Rattle.ufs_spec.specs.Cdbs.{SpellsCdb, direction_of};
ghost use Rattle.ufs_spec.specs.Codes.{data_out_code};
ghost use Rattle.ufs_spec.specs.Messages.{header, padding, spelling, transfer, zeros};
ghost use Rattle.ufs_spec.specs.Messages.{AreFlags, IsMessage};
ghost use Rattle.std.specs.Io.KnownBytes.{Appends};
ghost use Rattle.ufstool.specs.HostCdbs.{host_bytes, meaning};
ghost use Rattle.ufstool.specs.HostMessages.{asked_lines, bytes_wanted, host_spelled};
ghost use Rattle.ufstool.specs.HostMessages.{expected_of, flags_of, line_of, most_of, most_told};
ghost use Rattle.ufs_spec.specs.declared.messages.Message.TheVariants.{Command as CommandMessage};
ghost use Rattle.ufstool.specs.declared.host.HostMessage.TheVariants.{DataOut, LinkEvent, NopOut};

use crate::host_cdbs::HostCdb;
use crate::queries::{HostQuery, query_message};
use crate::tasks::{TaskCall, task_message};
use scsi_cdb::length_of;
use std::alloc::{AllocError, Global};
use std::io;
use std::io::Write;
use thiserror::Error;
use ufs_spec::codes::{HARDWARE_RESET, LINK_RESET};
use ufs_spec::{Cdb, Data, Message, Told, Upiu};

/// A message that a line can be written for.
#[derive(Clone, Copy)]
pub enum HostMessage {
    /// NOP OUT.
    NopOut {
        task: u8,
    },
    /// COMMAND. `expected` is how many bytes the host sends or has room for; without it, all bytes
    /// of the command, and of what is told as many as any device tells at most.
    Command {
        unit: u8,
        task: u8,
        cdb: HostCdb,
        expected: Option<u32>,
    },
    /// DATA OUT of so many bytes, each of them `fill`.
    DataOut {
        unit: u8,
        task: u8,
        offset: u32,
        count: u16,
        fill: u8,
    },
    /// QUERY REQUEST.
    Query {
        task: u8,
        query: HostQuery,
    },
    /// TASK MANAGEMENT REQUEST.
    Tasks {
        unit: u8,
        task: u8,
        call: TaskCall,
    },
    /// LINK EVENT.
    LinkEvent {
        reset: LinkReset,
    },
}

/// A reset of which a LINK EVENT tells.
#[derive(Clone, Copy)]
pub enum LinkReset {
    /// A hardware reset.
    Hardware,
    /// A reset of the link or of the host's controller.
    Link,
}

/// Why a line cannot be written.
#[derive(Clone, Copy, Debug, Error)]
pub enum LineFault {
    /// The fields of the command do not fit its bytes.
    #[error("the address has more than the 21 bits of READ(6) and WRITE(6); take read10 or \
             write10")]
    Address,
    /// REPORT LUNS has no such selection.
    #[error("the selection of REPORT LUNS is 0, 1 or 2")]
    Selection,
    /// MODE SENSE has no such pages.
    #[error("the mode pages are 1, 8, 10 and 63, which stands for all; the subpage is 0, or 255 of \
             page 63")]
    Modes,
    /// REPORT SUPPORTED OPERATION CODES has no such selection.
    #[error("bits 6 to 3 of byte 2 of REPORT SUPPORTED OPERATION CODES are zero")]
    Operations,
    /// A DATA OUT has 1 to 4096 bytes.
    #[error("a DATA OUT has 1 to 4096 bytes; give such a number to --bytes")]
    Count,
    /// A request of the unit RPMB writes or reads 1 to 8 blocks.
    #[error("a request writes or reads 1 to 8 blocks of 256 bytes")]
    Blocks,
    /// A request names no RPMB region.
    #[error("the RPMB regions are 0 to 3")]
    Region,
    /// Memory was refused.
    #[error("there is not enough memory")]
    Memory,
    /// A write of the line failed.
    #[error("the line could not be written")]
    Output,
}

impl From<io::Error> for LineFault {
    fn from(_: io::Error) -> LineFault {
        LineFault::Output
    }
}

impl From<AllocError> for LineFault {
    fn from(_: AllocError) -> LineFault {
        LineFault::Memory
    }
}

/// Writes the line of a script that hands a device this message to `out`, or one line with what is
/// wrong to `faults`. The status is 0 if the line was written, else 1.
pub fn write_host_line<W: Write, F: Write>(
    alloc: Global,
    wanted: &HostMessage,
    out: &mut W,
    faults: &mut F,
) -> u8
    ensures status { result ≤ 1 }
    ensures quiet { result ≡ 0 → faults.new ≡ faults.old }
{
    match try_line(alloc, wanted, out) {
        Ok(()) => 0,
        Err(fault) => {
            // Where the fault itself cannot be told, the status alone tells it.
            let _ = writeln!(faults, "ufstool: {fault}");
            1
        }
    }
}

fn try_line<W: Write>(alloc: Global, wanted: &HostMessage, out: &mut W) -> Result<(), LineFault> {
    let message = message_of(wanted)?;
    let line = match wanted {
        HostMessage::DataOut { count, fill, .. } if *count % 4 == 0 => {
            fill_line(alloc, &message, *count, *fill)?
        }
        _ => host_line(alloc, &message)?,
    };
    out.write_all(line.as_slice())?;
    Ok(out.flush()?)
}

/// The message, if its fields fit their bytes.
pub fn message_of(wanted: &HostMessage) -> Result<Message, LineFault>
    ensures message { IfOk result IsMessage }
    ensures bytes { IfOk result (λ message. spelling message ≡ bytes_wanted wanted.now) }
{
    match *wanted {
        HostMessage::NopOut { task } => Ok(nop_message(task)),
        HostMessage::Command {
            unit,
            task,
            cdb,
            expected,
        } => command_of(unit, task, &cdb, expected),
        HostMessage::DataOut {
            unit,
            task,
            offset,
            count,
            fill,
        } => data_out_of(unit, task, offset, count, fill),
        HostMessage::Query { task, query } => Ok(query_message(task, query)),
        HostMessage::Tasks { unit, task, call } => Ok(task_message(unit, task, call)),
        HostMessage::LinkEvent { reset } => Ok(event_message(reset)),
    }
}

// The NOP OUT with this tag (JESD220, 10.7.11).
fn nop_message(tag: u8) -> Message
    ensures message { IsMessage result }
    ensures bytes { spelling result ≡ bytes_wanted (NopOut tag) }
{
    Message::NopOut { tag }
}

// The LINK EVENT of this reset.
fn event_message(reset: LinkReset) -> Message
    ensures message { IsMessage result }
    ensures bytes { spelling result ≡ bytes_wanted (LinkEvent reset) }
{
    let kind = match reset {
        LinkReset::Hardware => HARDWARE_RESET,
        LinkReset::Link => LINK_RESET,
    };
    Message::LinkEvent { kind }
}

// The COMMAND, if its bytes are read as this command again.
fn command_of(
    unit: u8,
    task: u8,
    command: &HostCdb,
    expected: Option<u32>,
) -> Result<Message, LineFault>
    ensures message { IfOk result IsMessage }
    ensures bytes { IfOk result (λ message. spelling message
        ≡ host_spelled unit task command.now (expected_of command.now expected)) }
    // The device reads it as it is meant.
    ensures read { IfOk result (λ message. SpellsCdb (meaning command.now) (host_bytes command.now)) }
{
    let cdb = command.bytes();
    let meaning = command.meaning();
    if !is_read_as(&cdb, &meaning) {
        return Err(command.fault());
    }
    let length = match expected {
        Some(length) => length,
        None => length_of(most_told(&meaning), &meaning),
    };
    Ok(command_message(direction_of(&meaning), unit, task, length, cdb))
}

// The device reads the bytes as this command.
fn is_read_as(cdb: &[u8; 16], meaning: &Cdb) -> bool
    ensures { result ≡ true → SpellsCdb meaning.now cdb.now }
{
    scsi_cdb::read(cdb) == Ok(*meaning)
}

// How many bytes the command tells at most, on any device.
fn most_told(command: &Cdb) -> u32
    ensures { result ≡ most_told command.now }
{
    match command {
        Cdb::Tell { told, .. } => most_of(*told),
        _ => 0,
    }
}

// How many bytes there are at most of what is told (SPC, SBC): REPORT LUNS lists no more than eight
// units and four well known ones.
fn most_of(told: Told) -> u32
    ensures { result ≡ most_of told }
{
    match told {
        Told::Sense => 18,
        Told::Identity => 36,
        Told::Capacity => 8,
        Told::Units => 104,
        Told::LongCapacity => 32,
        Told::Page => 64,
        Told::Modes => 52,
        Told::ShortModes => 48,
        Told::Operations => 484,
    }
}

/// The COMMAND with these fields (JESD220, 10.7.1).
pub fn command_message(flags: u8, lun: u8, tag: u8, expected: u32, cdb: [u8; 16]) -> Message
    requires { AreFlags flags }
    ensures message { IsMessage result }
    ensures bytes { spelling result ≡ spelling (CommandMessage flags lun tag expected cdb) }
{
    Message::Command {
        flags,
        lun,
        tag,
        expected,
        cdb,
    }
}

// The DATA OUT, if it has 1 to 4096 bytes.
fn data_out_of(unit: u8, task: u8, offset: u32, count: u16, fill: u8) -> Result<Message, LineFault>
    ensures message { IfOk result IsMessage }
    ensures bytes { IfOk result (λ message. spelling message
        ≡ bytes_wanted (DataOut unit task offset count fill)) }
{
    let bytes = [fill; 4096];
    let count = count as usize;
    if count == 0 || count > bytes.len() {
        return Err(LineFault::Count);
    }
    Ok(data_message(unit, task, offset, &bytes[..count]))
}

/// The DATA OUT with these bytes (JESD220, 10.7.3).
pub fn data_message(lun: u8, tag: u8, offset: u32, bytes: &[u8]) -> Message
    requires { (1 ≤ length bytes.now) × (length bytes.now ≤ 4096) }
    ensures message { IsMessage result }
    ensures bytes { spelling result ≡ header data_out_code 0 lun tag 0 0 0 (length bytes.now)
        (transfer offset (length bytes.now)) ++ bytes.now ++ zeros (padding (length bytes.now)) }
{
    let mut data = Data::new();
    let _ = data.try_extend_from_slice(bytes);
    Message::DataOut {
        lun,
        tag,
        offset,
        data,
    }
}

// The flags of a COMMAND: where its data go (JESD220, 10.7.1).
fn direction_of(command: &Cdb) -> u8
    ensures flags { AreFlags result }
    ensures direction { result ≡ flags_of (direction_of command.now) }
{
    match command {
        Cdb::Nothing
        | Cdb::Flush { .. }
        | Cdb::Verify {
            compared: false,
            ..
        }
        | Cdb::Prefetch { .. }
        | Cdb::Diagnose { .. } => 0x00,
        Cdb::Write { .. }
        | Cdb::Verify { compared: true, .. }
        | Cdb::Unmap { .. }
        | Cdb::SecurityOut { .. } => 0x20,
        _ => 0x40,
    }
}

/// Writes the line `host HEX` of a message.
pub fn write_line<W: Write>(alloc: Global, message: &Message, out: &mut W) -> Result<(), LineFault>
    requires { IsMessage message.now }
    ensures { OnOk result
        (Appends (W.contents out.old) (W.contents out.new) (line_of (spelling message.now))) }
{
    let line = host_line(alloc, message)?;
    Ok(out.write_all(line.as_slice())?)
}

/// Writes the line of a message, and the one that asks for the reply.
pub fn write_asked<W: Write>(alloc: Global, message: &Message, out: &mut W) -> Result<(), LineFault>
    requires { IsMessage message.now }
    ensures { OnOk result
        (Appends (W.contents out.old) (W.contents out.new) (asked_lines (spelling message.now))) }
{
    write_line(alloc, message, out)?;
    Ok(out.write_all(b"reply\n")?)
}

/// The line `host HEX` of a message: its one spelling, in hexadecimal digits.
pub fn host_line(alloc: Global, message: &Message) -> Result<Vec<u8>, AllocError>
    requires { IsMessage message.now }
    ensures { IfOk result (λ line. line.items ≡ line_of (spelling message.now)) }
{
    let mut bytes = Upiu::new();
    upiu::write(message, &mut bytes);
    let mut line = Vec::new(alloc);
    line.extend_from_slice(b"host ")?;
    append_digits(&mut line, bytes.as_slice())?;
    line.extend_from_slice(b"\n")?;
    Ok(line)
}

// The line `fill HEX BB N` of a DATA OUT of so many equal bytes.
fn fill_line(alloc: Global, message: &Message, count: u16, fill: u8) -> Result<Vec<u8>, LineFault>
    requires { IsMessage message.now }
{
    let mut bytes = Upiu::new();
    upiu::write(message, &mut bytes);
    let mut line = Vec::new(alloc);
    line.extend_from_slice(b"fill ")?;
    append_digits(&mut line, header_in(bytes.as_slice()))?;
    match writeln!(line, " {fill:02x} {count}") {
        Ok(()) => Ok(line),
        Err(_) => Err(LineFault::Memory),
    }
}

// The header of a message, its first 32 bytes.
fn header_in(message: &[u8]) -> &[u8] {
    &message[..message.len().min(32)]
}

// Adds the bytes in hexadecimal digits, in lower case.
fn append_digits(line: &mut Vec<u8>, bytes: &[u8]) -> Result<(), AllocError>
    ensures { IfOk result (λ _. line.new.items ≡ line.old.items ++ encode_lower bytes.now) }
{
    let start = line.len();
    let Some(digits) = bytes.len().checked_mul(2) else {
        return Err(AllocError);
    };
    let Some(end) = start.checked_add(digits) else {
        return Err(AllocError);
    };
    line.resize(end, 0)?;
    let all = line.as_mut_slice();
    match hex::encode_to_slice(bytes, &mut all[start..]) {
        Ok(()) => Ok(()),
        Err(_) => Err(AllocError),
    }
}
