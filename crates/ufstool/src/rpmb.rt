//! Requests to the replay protected memory block, as lines of a script (JESD220, 12.4).
ghost use Rattle.std.specs.Prelude.{◌≡◌, ◌≤◌, ◌<◌, length, OnOk};
ghost use Rattle.std.specs.Io.KnownBytes.{Appends};
ghost use Rattle.ufs_spec.specs.Messages.{spelling, IsMessage};
ghost use Rattle.ufs_spec.specs.Plain.{regions};
ghost use Rattle.ufstool.specs.RpmbLines.{fetched_lines, in_spelled, out_spelled, request_lines};
ghost use Rattle.ufstool.specs.RpmbLines.{response_size, sent_lines};

use crate::frames::RPMB_UNIT;
use crate::host::{LineFault, command_message, data_message, write_asked, write_line};
use crate::requests::frames_of;
use scsi_cdb::bytes_of;
use std::alloc::Global;
use std::io::Write;
use ufs_spec::{Cdb, Message, REGIONS};

/// What a host asks of the replay protected memory block.
#[derive(Clone, Copy)]
pub enum RpmbRequest<'a> {
    /// This key is to be programmed.
    ProgramKey {
        key: &'a [u8; 32],
    },
    /// The write counter is asked for.
    ReadCounter {
        nonce: [u8; 16],
    },
    /// Blocks are to be written from this address on. The request has the present write counter and
    /// a MAC under the key.
    WriteData {
        key: &'a [u8; 32],
        counter: u32,
        address: u16,
        blocks: &'a [[u8; 256]],
    },
    /// So many blocks are asked for, from this address on.
    ReadData {
        address: u16,
        count: u16,
        nonce: [u8; 16],
    },
    /// The result of the last key or write is asked for.
    ReadResult,
}

/// Writes the lines of a script that bring this request to a region of the unit RPMB to `out`:
/// SECURITY PROTOCOL OUT with its frames; and, but for a key and a write, whose result is asked for
/// by a request of its own, SECURITY PROTOCOL IN for the response. Between them are the lines that
/// ask for replies. What is wrong is told in one line on `faults`. The status is 0 if the lines were
/// written, else 1.
pub fn write_rpmb_lines<W: Write, F: Write>(
    alloc: Global,
    task: u8,
    region: u8,
    request: &RpmbRequest<'_>,
    out: &mut W,
    faults: &mut F,
) -> u8
    ensures status { result ≤ 1 }
    ensures quiet { result ≡ 0 → faults.new ≡ faults.old }
    ensures there { result ≡ 0 → region < regions }
    ensures lines { result ≡ 0 →
        Appends (W.contents out.old) (W.contents out.new) (request_lines task region request.now) }
{
    match try_lines(alloc, task, region, request, out) {
        Ok(()) => 0,
        Err(fault) => {
            // Where the fault itself cannot be told, the status alone tells it.
            let _ = writeln!(faults, "ufstool: {fault}");
            1
        }
    }
}

fn try_lines<W: Write>(
    alloc: Global,
    task: u8,
    region: u8,
    request: &RpmbRequest<'_>,
    out: &mut W,
) -> Result<(), LineFault>
    ensures there { OnOk result (region < regions) }
    ensures lines { OnOk result
        (Appends (W.contents out.old) (W.contents out.new) (request_lines task region request.now)) }
{
    if region >= REGIONS {
        return Err(LineFault::Region);
    }
    let frames = frames_of(request)?;
    write_sent(alloc, task, region, frames.as_slice(), out)?;
    write_fetched(alloc, task, region, response_size(request), out)?;
    Ok(out.flush()?)
}

// Writes the lines that send frames, up to the reply with the status.
fn write_sent<W: Write>(
    alloc: Global,
    task: u8,
    region: u8,
    frames: &[u8],
    out: &mut W,
) -> Result<(), LineFault>
    requires there { region < regions }
    requires some { (1 ≤ length frames.now) × (length frames.now ≤ 4096) }
    ensures { OnOk result
        (Appends (W.contents out.old) (W.contents out.new) (sent_lines task region frames.now)) }
{
    let size = frames.len() as u32;
    write_asked(alloc, &security_out(task, region, size), out)?;
    write_line(alloc, &data_message(RPMB_UNIT, task, 0, frames), out)?;
    Ok(out.write_all(b"settle 4\nreply\n")?)
}

// Writes the lines that fetch a response of so many bytes, if one is to be fetched.
fn write_fetched<W: Write>(
    alloc: Global,
    task: u8,
    region: u8,
    size: Option<u32>,
    out: &mut W,
) -> Result<(), LineFault>
    requires { region < regions }
    ensures { OnOk result
        (Appends (W.contents out.old) (W.contents out.new) (fetched_lines task region size)) }
{
    let Some(size) = size else {
        return Ok(());
    };
    write_asked(alloc, &security_in(task, region, size), out)?;
    Ok(out.write_all(b"reply\n")?)
}

// The COMMAND that sends frames.
fn security_out(task: u8, region: u8, size: u32) -> Message
    requires { region < regions }
    ensures message { IsMessage result }
    ensures bytes { spelling result ≡ out_spelled task region size }
{
    let cdb = bytes_of(&Cdb::SecurityOut {
        region,
        length: size,
    });
    command_message(0x20, RPMB_UNIT, task, size, cdb)
}

// The COMMAND that asks for frames.
fn security_in(task: u8, region: u8, size: u32) -> Message
    requires { region < regions }
    ensures message { IsMessage result }
    ensures bytes { spelling result ≡ in_spelled task region size }
{
    let cdb = bytes_of(&Cdb::SecurityIn {
        region,
        length: size,
    });
    command_message(0x40, RPMB_UNIT, task, size, cdb)
}

// How many bytes the response has: a frame for each block that is read, else one. A key and a write
// leave theirs to a request for the result.
fn response_size(request: &RpmbRequest<'_>) -> Option<u32>
    ensures { result ≡ response_size request.now }
{
    match request {
        RpmbRequest::ProgramKey { .. } | RpmbRequest::WriteData { .. } => None,
        RpmbRequest::ReadData { count, .. } => Some(512 * u32::from(*count)),
        RpmbRequest::ReadCounter { .. } | RpmbRequest::ReadResult => Some(512),
    }
}
