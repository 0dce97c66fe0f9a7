//! UNMAP, as lines of a script (SBC, UNMAP).
ghost use Rattle.std.specs.Prelude.{◌≡◌, ◌≤◌, OnOk};
ghost use Rattle.std.specs.Io.KnownBytes.{Appends};
ghost use Rattle.ufs_spec.specs.Messages.{spelling, IsMessage};
ghost use Rattle.ufs_spec.specs.declared.scsi.Cdb.TheVariants.{Unmap};
ghost use Rattle.ufstool.specs.HostMessages.{command_spelled, data_spelled};
ghost use Rattle.ufstool.specs.HostUnmaps.{unmap_lines, unmap_list};

use crate::host::{LineFault, command_message, data_message, write_asked};
use byteorder::{BigEndian, ByteOrder};
use scsi_cdb::bytes_of;
use std::alloc::Global;
use std::io::Write;
use ufs_spec::{Cdb, Message};

/// How many bytes a list has: eight of its header, sixteen of its descriptor.
const LIST: u16 = 24;

/// An UNMAP of so many blocks of a unit, from this address on.
#[derive(Clone, Copy)]
pub struct HostUnmap {
    pub unit: u8,
    pub task: u8,
    pub address: u64,
    pub blocks: u32,
}

/// Writes the lines of a script that bring this UNMAP to a device to `out`: its COMMAND, its DATA
/// OUT with the list, and behind each of them the line that asks for the reply. What is wrong is
/// told in one line on `faults`. The status is 0 if the lines were written, else 1.
pub fn write_unmap_lines<W: Write, F: Write>(
    alloc: Global,
    wanted: &HostUnmap,
    out: &mut W,
    faults: &mut F,
) -> u8
    ensures status { result ≤ 1 }
    ensures quiet { result ≡ 0 → faults.new ≡ faults.old }
    ensures lines { result ≡ 0 →
        Appends (W.contents out.old) (W.contents out.new) (unmap_lines wanted.now) }
{
    match try_lines(alloc, wanted, out) {
        Ok(()) => 0,
        Err(fault) => {
            // Where the fault itself cannot be told, the status alone tells it.
            let _ = writeln!(faults, "ufstool: {fault}");
            1
        }
    }
}

fn try_lines<W: Write>(alloc: Global, wanted: &HostUnmap, out: &mut W) -> Result<(), LineFault>
    ensures { OnOk result
        (Appends (W.contents out.old) (W.contents out.new) (unmap_lines wanted.now)) }
{
    let HostUnmap {
        unit,
        task,
        address,
        blocks,
    } = *wanted;
    write_asked(alloc, &unmap_command(unit, task), out)?;
    let list = list_bytes(address, blocks);
    write_asked(alloc, &list_message(unit, task, &list), out)?;
    Ok(out.flush()?)
}

// The COMMAND.
fn unmap_command(unit: u8, task: u8) -> Message
    ensures message { IsMessage result }
    ensures bytes { spelling result ≡ command_spelled unit task (Unmap 24) 24 }
{
    let cdb = bytes_of(&Cdb::Unmap {
        list: u32::from(LIST),
    });
    command_message(0x20, unit, task, u32::from(LIST), cdb)
}

// The DATA OUT with the list.
fn list_message(unit: u8, task: u8, list: &[u8; 24]) -> Message
    ensures message { IsMessage result }
    ensures bytes { spelling result ≡ data_spelled unit task list.now }
{
    data_message(unit, task, 0, list)
}

// The list, with one descriptor.
fn list_bytes(address: u64, blocks: u32) -> [u8; 24]
    ensures { result ≡ unmap_list address blocks }
{
    let mut list = [0; 24];
    BigEndian::write_u16(&mut list[..2], 22);
    BigEndian::write_u16(&mut list[2..4], 16);
    BigEndian::write_u64(&mut list[8..16], address);
    BigEndian::write_u32(&mut list[16..20], blocks);
    list
}
