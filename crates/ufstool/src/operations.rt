//! The list of REPORT SUPPORTED OPERATION CODES in words, each command in a line of its own (SPC, all
//! commands parameter data).
ghost use Rattle.std.specs.Prelude.{◌≤◌};

use crate::commands::command_name;
use std::io::Write;
use std::{fmt, io};
use ufs_bytes::{read_u16, read_u32};

/// The bytes that an entry has, and those that it has with a command timeouts descriptor.
const WIDTH: usize = 8;

const TIMED_WIDTH: usize = 20;

/// CTDP, bit 1 of byte 5 of an entry: a command timeouts descriptor follows it.
const TIMED: u8 = 0x02;

/// SERVACTV, bit 0 of byte 5 of an entry: the command has a service action.
const HAS_ACTION: u8 = 0x01;

/// Says in a line for each which commands the list has, as far as the bytes go.
pub fn write_operations<W: Write>(out: &mut W, bytes: &[u8]) -> io::Result<()> {
    let count = bytes.len();
    if count < 4 {
        return writeln!(
            out,
            "    cut short after {count} of the 4 bytes before the list"
        );
    }
    let length = read_u32(bytes, 0);
    writeln!(out, "    command data length {length}")?;
    let width = width_of(&bytes[4..]);
    for entry in bytes[4..].chunks(width) {
        write_entry(out, width, entry)?;
    }
    Ok(())
}

// How many bytes each entry has: the first one says whether command timeouts follow it, and the others
// say the same.
fn width_of(entries: &[u8]) -> usize
    ensures { 8 ≤ result }
{
    match entries.get(5) {
        Some(flags) if *flags & TIMED != 0 => TIMED_WIDTH,
        _ => WIDTH,
    }
}

// Says which command an entry of so many bytes is of.
fn write_entry<W: Write>(out: &mut W, width: usize, entry: &[u8]) -> io::Result<()>
    requires { 8 ≤ width }
{
    let count = entry.len();
    if count < width {
        return writeln!(
            out,
            "    cut short after {count} of the {width} bytes of an entry"
        );
    }
    let words = Entry {
        operation: entry[0],
        action: read_u16(entry, 2),
        flags: entry[5],
        length: read_u16(entry, 6),
    };
    writeln!(out, "    {words}")
}

// An entry of the list.
#[derive(Clone, Copy)]
struct Entry {
    operation: u8,
    action: u16,
    flags: u8,
    length: u16,
}

impl fmt::Display for Entry {
    fn fmt<W: fmt::Write>(&self, f: &mut fmt::Formatter<W>) -> fmt::Result {
        let Entry {
            operation,
            action,
            flags,
            length,
        } = *self;
        let name = command_name(operation, action);
        write!(f, "{name} ({operation:02X}h)")?;
        if flags & HAS_ACTION != 0 {
            write!(f, " with the service action {action:04X}h")?;
        }
        write!(f, ", {length} bytes")
    }
}
