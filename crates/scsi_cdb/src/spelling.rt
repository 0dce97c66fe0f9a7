//! The sixteen bytes in which a host writes a command (SPC, SBC).
ghost use Rattle.std.specs.Prelude.{◌≡◌, ◌∷◌, replicate};
ghost use Rattle.ufs_spec.specs.Cdbs.{IsAsking, IsCdb, asking_bytes, cdb_bytes, option_byte, security_bytes, ten_bytes};
ghost use Rattle.ufs_spec.specs.declared.Cdb.TheVariants.{Diagnose, Unmap};
ghost use Rattle.ufs_spec.specs.declared.Told.TheVariants.{LongCapacity, Modes, Operations};

use ufs_bytes::{write_u16, write_u32};
use ufs_spec::operations::{
    BYTCHK, EVPD, FUA, IMMED, INQUIRY, MAINTENANCE_IN, MODE_SENSE_6, MODE_SENSE_10, PRE_FETCH_10,
    READ_10, READ_CAPACITY_10, READ_CAPACITY_16, REPORT_LUNS, REPORT_OPERATIONS, REQUEST_SENSE,
    SECURITY_IN, SECURITY_OUT, SELF_TEST, SEND_DIAGNOSTIC, SERVICE_ACTION_IN_16,
    SYNCHRONIZE_CACHE_10, TEST_UNIT_READY, UNMAP, VERIFY_10, WRITE_10,
};
use ufs_spec::{Cdb, Told};

/// The sixteen bytes in which a host writes a command whose numbers fit: READ and WRITE in their
/// ten-byte form.
pub fn bytes_of(cdb: &Cdb) -> [u8; 16]
    requires { IsCdb cdb.now }
    ensures { result ≡ cdb_bytes cdb.now }
{
    match cdb {
        Cdb::Nothing => plain_bytes(TEST_UNIT_READY),
        Cdb::Tell {
            told,
            select,
            allocation,
        } => asking_bytes(*told, *select, *allocation),
        Cdb::Read { address, blocks } => ten_bytes_of(READ_10, 0, *address as u32, *blocks as u16),
        Cdb::Write {
            address,
            blocks,
            forced,
        } => ten_bytes_of(
            WRITE_10,
            option_byte(FUA, *forced),
            *address as u32,
            *blocks as u16,
        ),
        Cdb::Flush { immediate } => {
            ten_bytes_of(SYNCHRONIZE_CACHE_10, option_byte(IMMED, *immediate), 0, 0)
        }
        Cdb::Verify {
            address,
            blocks,
            compared,
        } => ten_bytes_of(
            VERIFY_10,
            option_byte(BYTCHK, *compared),
            *address as u32,
            *blocks as u16,
        ),
        Cdb::Prefetch { address, blocks } => {
            ten_bytes_of(PRE_FETCH_10, 0, *address as u32, *blocks as u16)
        }
        Cdb::Diagnose { tests } => diagnostic_bytes(*tests),
        Cdb::Unmap { list } => unmap_bytes(*list as u16),
        Cdb::SecurityIn { region, length } => security_bytes_of(SECURITY_IN, *region, *length),
        Cdb::SecurityOut { region, length } => security_bytes_of(SECURITY_OUT, *region, *length),
    }
}

// The byte of the options, if the one that there is is set.
fn option_byte(option: u8, is: bool) -> u8
    ensures { result ≡ option_byte option is }
{
    if is { option } else { 0 }
}

// The sixteen bytes of a command without fields.
fn plain_bytes(operation: u8) -> [u8; 16]
    ensures { result ≡ operation ∷ replicate 15 0 }
{
    let mut bytes = [0; 16];
    bytes[0] = operation;
    bytes
}

// The sixteen bytes of a command that asks for no more than so many bytes.
fn asking_bytes(told: Told, select: u32, allocation: u32) -> [u8; 16]
    requires { IsAsking told select allocation }
    ensures { result ≡ asking_bytes told select allocation }
{
    let mut bytes = [0; 16];
    match told {
        Told::Sense => {
            bytes[0] = REQUEST_SENSE;
            bytes[4] = allocation as u8;
        }
        Told::Identity => {
            bytes[0] = INQUIRY;
            write_u16(&mut bytes, 3, allocation as u16);
        }
        Told::Capacity => bytes[0] = READ_CAPACITY_10,
        Told::Units => {
            bytes[0] = REPORT_LUNS;
            bytes[2] = select as u8;
            write_u32(&mut bytes, 6, allocation);
        }
        Told::LongCapacity => bytes = capacity_bytes(allocation),
        Told::Page => {
            bytes[0] = INQUIRY;
            bytes[1] = EVPD;
            bytes[2] = select as u8;
            write_u16(&mut bytes, 3, allocation as u16);
        }
        Told::Modes => bytes = modes_bytes(select as u16, allocation as u16),
        Told::ShortModes => {
            bytes[0] = MODE_SENSE_6;
            write_u16(&mut bytes, 2, select as u16);
            bytes[4] = allocation as u8;
        }
        Told::Operations => bytes = operations_bytes(select, allocation),
    }
    bytes
}

// The sixteen bytes of READ CAPACITY(16), for so many bytes at most.
fn capacity_bytes(most: u32) -> [u8; 16]
    ensures { result ≡ asking_bytes LongCapacity 0 most }
{
    let mut bytes = [0; 16];
    bytes[0] = SERVICE_ACTION_IN_16;
    bytes[1] = READ_CAPACITY_16;
    write_u32(&mut bytes, 10, most);
    bytes
}

// The sixteen bytes of MODE SENSE(10), for so many bytes at most.
fn modes_bytes(select: u16, most: u16) -> [u8; 16]
    ensures { result ≡ asking_bytes Modes select most }
{
    let mut bytes = [0; 16];
    bytes[0] = MODE_SENSE_10;
    write_u16(&mut bytes, 2, select);
    write_u16(&mut bytes, 7, most);
    bytes
}

// The sixteen bytes of REPORT SUPPORTED OPERATION CODES, for so many bytes at most.
fn operations_bytes(select: u32, most: u32) -> [u8; 16]
    ensures { result ≡ asking_bytes Operations select most }
{
    let mut bytes = [0; 16];
    bytes[0] = MAINTENANCE_IN;
    bytes[1] = REPORT_OPERATIONS;
    write_u32(&mut bytes, 2, select);
    write_u32(&mut bytes, 6, most);
    bytes
}

// The sixteen bytes of SEND DIAGNOSTIC, with SELFTEST or without.
fn diagnostic_bytes(tests: bool) -> [u8; 16]
    ensures { result ≡ cdb_bytes (Diagnose tests) }
{
    let mut bytes = [0; 16];
    bytes[0] = SEND_DIAGNOSTIC;
    bytes[1] = option_byte(SELF_TEST, tests);
    bytes
}

/// The sixteen bytes of the ten-byte form of a command with an address and a count of blocks (SBC).
pub fn ten_bytes_of(operation: u8, options: u8, address: u32, blocks: u16) -> [u8; 16]
    ensures { result ≡ ten_bytes operation options address blocks }
{
    let mut bytes = [0; 16];
    bytes[0] = operation;
    bytes[1] = options;
    write_u32(&mut bytes, 2, address);
    write_u16(&mut bytes, 7, blocks);
    bytes
}

// The sixteen bytes of UNMAP.
fn unmap_bytes(list: u16) -> [u8; 16]
    ensures { result ≡ cdb_bytes (Unmap list) }
{
    let mut bytes = [0; 16];
    bytes[0] = UNMAP;
    write_u16(&mut bytes, 7, list);
    bytes
}

// The sixteen bytes of SECURITY PROTOCOL IN and OUT: the protocol ECh, whose specific field is the
// RPMB region and 01h.
fn security_bytes_of(operation: u8, region: u8, length: u32) -> [u8; 16]
    ensures { result ≡ security_bytes operation region length }
{
    let mut bytes = [0; 16];
    bytes[0] = operation;
    bytes[1] = 0xEC;
    bytes[2] = region;
    bytes[3] = 0x01;
    write_u32(&mut bytes, 6, length);
    bytes
}
