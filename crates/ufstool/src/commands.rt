//! Commands in words.
ghost use Rattle.std.specs.Prelude.{◌≡◌};
ghost use Rattle.ufstool.specs.RpmbLines.{region_named};

use crate::names::{mode_page_name, operation_name, page_name, values_name};
use scsi_cdb::row_of;
use std::fmt;
use ufs_spec::operations::{
    ACTION, MAINTENANCE_IN, READ_CAPACITY_16, REPORT_OPERATIONS, SECURITY_IN, SECURITY_OUT,
    SERVICE_ACTION_IN_16,
};
use ufs_spec::{Cdb, Sense, Told};

/// What a COMMAND asks for, in words: its CDB, the direction of its data, and how many bytes its
/// host expects.
pub fn write_command<W: fmt::Write>(
    f: &mut fmt::Formatter<W>,
    flags: u8,
    expected: u32,
    cdb: &[u8; 16],
) -> fmt::Result {
    let name = command_name(cdb[0], u16::from(cdb[1] & ACTION));
    write!(f, ": {name}")?;
    if let Some(region) = region_named(cdb) {
        write!(f, " of RPMB region {region}")?;
    }
    write_cdb(f, cdb)?;
    write_expected(f, flags, expected)
}

/// The name of a command: that of its operation code, or of its service action.
pub fn command_name(operation: u8, action: u16) -> &'static str {
    if operation == SERVICE_ACTION_IN_16 && action == u16::from(READ_CAPACITY_16) {
        "READ CAPACITY(16)"
    } else if operation == MAINTENANCE_IN && action == u16::from(REPORT_OPERATIONS) {
        "REPORT SUPPORTED OPERATION CODES"
    } else {
        operation_name(operation)
    }
}

// The RPMB region that a CDB names, if it is a SECURITY PROTOCOL command (JESD220, 12.4.5).
fn region_named(cdb: &[u8; 16]) -> Option<u8>
    ensures { result ≡ region_named cdb.now }
{
    let is_security = cdb[0] == SECURITY_IN || cdb[0] == SECURITY_OUT;
    if is_security && cdb[1] == 0xEC && cdb[3] == 0x01 {
        Some(cdb[2])
    } else {
        None
    }
}

// What comes after the name of a command.
fn write_cdb<W: fmt::Write>(f: &mut fmt::Formatter<W>, cdb: &[u8; 16]) -> fmt::Result {
    match scsi_cdb::read(cdb) {
        Ok(command) => write_fields(f, &command, has_option(cdb)),
        Err(Sense::INVALID_OPCODE) => {
            let code = cdb[0];
            write!(f, " ({code:02X}h), which this device does not have")
        }
        Err(_) => f.write_str(" with a bit or byte set that must be zero"),
    }
}

// Whether the option is set that says how a command of this kind is done.
fn has_option(cdb: &[u8; 16]) -> bool {
    match row_of(cdb) {
        Some(row) => cdb[1] & row.option != 0,
        None => false,
    }
}

fn write_fields<W: fmt::Write>(
    f: &mut fmt::Formatter<W>,
    command: &Cdb,
    has_option: bool,
) -> fmt::Result {
    match command {
        Cdb::Read { address, blocks }
        | Cdb::Write {
            address,
            blocks,
            ..
        } => write_span(
            f,
            if has_option { " with FUA" } else { "" },
            *blocks,
            *address,
        ),
        Cdb::Prefetch { address, blocks: 0 } => {
            write!(f, " of all blocks from address {address} on")
        }
        Cdb::Verify {
            address,
            blocks,
            compared,
        } => write_span(
            f,
            if *compared { " with BYTCHK 01" } else { "" },
            *blocks,
            *address,
        ),
        Cdb::Prefetch { address, blocks } => write_span(f, "", *blocks, *address),
        Cdb::Flush { immediate: true } => f.write_str(" with IMMED"),
        Cdb::Diagnose { tests: true } => f.write_str(" with SELFTEST"),
        Cdb::Unmap { list } => write!(f, " with a list of {list} bytes"),
        Cdb::Tell {
            told,
            select,
            allocation,
        } => write_asked(f, *told, *select, *allocation),
        _ => Ok(()),
    }
}

// What a command asks to be told of. READ CAPACITY(10) has no allocation length.
fn write_asked<W: fmt::Write>(
    f: &mut fmt::Formatter<W>,
    told: Told,
    select: u32,
    allocation: u32,
) -> fmt::Result {
    match told {
        Told::Capacity => return Ok(()),
        Told::Sense | Told::Identity | Told::LongCapacity => f.write_str(" of")?,
        Told::Units => write_units(f, select)?,
        Told::Page => write_page(f, select)?,
        Told::Modes | Told::ShortModes => write_modes(f, select)?,
        Told::Operations => write_operations(f, select)?,
    }
    write!(f, " at most {allocation} bytes")
}

// The page of vital product data that is selected (SPC, INQUIRY).
fn write_page<W: fmt::Write>(f: &mut fmt::Formatter<W>, select: u32) -> fmt::Result {
    let name = page_name((select & 0xFF) as u8);
    write!(f, " of the page {name} ({select:02X}h), of")
}

// The mode pages that are selected, and which of their values (SPC, MODE SENSE).
fn write_modes<W: fmt::Write>(f: &mut fmt::Formatter<W>, select: u32) -> fmt::Result {
    let page = ((select >> 8) & 0x3F) as u8;
    let name = mode_page_name(page);
    let values = values_name(((select >> 14) & 0x3) as u8);
    write!(
        f,
        " of {values} values of the mode page {name} ({page:02X}h), of"
    )
}

// Which commands are reported, and whether with their timeouts (SPC, REPORT SUPPORTED OPERATION
// CODES).
fn write_operations<W: fmt::Write>(f: &mut fmt::Formatter<W>, select: u32) -> fmt::Result {
    let code = ((select >> 16) & 0xFF) as u8;
    let action = (select & 0xFFFF) as u16;
    match (select >> 24) & 0x7 {
        0x0 => f.write_str(" of all commands")?,
        0x1 => {
            let name = operation_name(code);
            write!(f, " of {name} ({code:02X}h)")?;
        }
        0x2 => {
            let name = command_name(code, action);
            write!(
                f,
                " of {name} ({code:02X}h) with the service action {action:04X}h"
            )?;
        }
        option => write!(f, " of no commands (reporting options {option})")?,
    }
    let with = if select >> 31 == 0 { "without" } else { "with" };
    write!(f, ", {with} command timeouts, of")
}

// Which units a list has (SPC, REPORT LUNS, select report).
fn write_units<W: fmt::Write>(f: &mut fmt::Formatter<W>, select: u32) -> fmt::Result {
    let units = match select {
        0x00 => "the units that are not well known",
        0x01 => "the well known units",
        _ => "all units",
    };
    write!(f, " of {units} (select report {select:02X}h), of")
}

// How many blocks from which address on.
fn write_span<W: fmt::Write>(
    f: &mut fmt::Formatter<W>,
    with: &str,
    blocks: u32,
    address: u64,
) -> fmt::Result {
    let noun = if blocks == 1 { "block" } else { "blocks" };
    write!(f, "{with} of {blocks} {noun} at address {address}")
}

fn write_expected<W: fmt::Write>(
    f: &mut fmt::Formatter<W>,
    flags: u8,
    expected: u32,
) -> fmt::Result {
    match flags {
        0x20 => write!(f, "; the host sends {expected} bytes"),
        0x40 => write!(f, "; the host expects {expected} bytes"),
        _ if expected == 0 => Ok(()),
        _ => write!(
            f,
            "; {expected} bytes are expected, and no flag says in which direction"
        ),
    }
}
