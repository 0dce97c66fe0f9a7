//! Commands as a host writes them, each in one form (SPC, SBC).
ghost use Rattle.std.specs.Prelude.{◌≡◌, ◌<◌, ◌≤◌, ◌^◌};
ghost use Rattle.ufs_spec.specs.CdbFields.{six_blocks};
ghost use Rattle.ufs_spec.specs.Cdbs.{asking_bytes, blocks_of};
ghost use Rattle.ufs_spec.specs.declared.Cdb.TheVariants.{Prefetch, Read, Tell, Verify, Write};
ghost use Rattle.ufs_spec.specs.declared.operations.Told.TheVariants as told;
ghost use Rattle.ufstool.specs.HostCdbs.{host_bytes, meaning, six_bytes};

use crate::host::LineFault;
use scsi_cdb::{bytes_of, ten_bytes_of};
use ufs_bytes::write_u16;
use ufs_spec::operations::{
    FUA, MAINTENANCE_IN, MODE_SENSE_6, MODE_SENSE_10, READ_6, READ_10, REPORT_LUNS,
    REPORT_OPERATIONS, WRITE_6,
};
use ufs_spec::{Cdb, Told, write_u32};

/// A command that a line can be written for, in the form in which it is written.
#[derive(Clone, Copy)]
pub enum HostCdb {
    /// SPC, TEST UNIT READY.
    TestUnitReady,
    /// SPC, REQUEST SENSE.
    RequestSense {
        allocation: u8,
    },
    /// SBC, READ(6): an address of 21 bits, and a count of blocks where 0 means 256.
    Read6 {
        address: u32,
        blocks: u8,
    },
    /// SBC, WRITE(6), with the fields of READ(6).
    Write6 {
        address: u32,
        blocks: u8,
    },
    /// SPC, INQUIRY.
    Inquiry {
        allocation: u16,
    },
    /// SBC, READ CAPACITY(10).
    ReadCapacity10,
    /// SBC, READ(10), with FUA or without it.
    Read10 {
        address: u32,
        blocks: u16,
        forced: bool,
    },
    /// SBC, WRITE(10), with FUA or without it.
    Write10 {
        address: u32,
        blocks: u16,
        forced: bool,
    },
    /// SBC, SYNCHRONIZE CACHE(10), with IMMED or without it.
    SynchronizeCache10 {
        immediate: bool,
    },
    /// SPC, REPORT LUNS.
    ReportLuns {
        select: u8,
        allocation: u32,
    },
    /// SPC, INQUIRY of a page of vital product data.
    InquiryPage {
        page: u8,
        allocation: u16,
    },
    /// SBC, READ CAPACITY(16).
    ReadCapacity16 {
        allocation: u32,
    },
    /// SPC, MODE SENSE(6). Its bytes 2 and 3 are `select`: which values, the page and the subpage.
    ModeSense6 {
        select: u16,
        allocation: u8,
    },
    /// SPC, MODE SENSE(10), with the selection of MODE SENSE(6).
    ModeSense10 {
        select: u16,
        allocation: u16,
    },
    /// SPC, REPORT SUPPORTED OPERATION CODES. Its bytes 2 to 5 are `select`: RCTD with the reporting
    /// options, the operation code and its service action.
    ReportOperations {
        select: u32,
        allocation: u32,
    },
    /// SBC, VERIFY(10), with BYTCHK 01 where the blocks are compared with what the host sends, or
    /// with BYTCHK 00.
    Verify10 {
        address: u32,
        blocks: u16,
        compared: bool,
    },
    /// SBC, PRE-FETCH(10): 0 blocks are all up to the unit's end.
    Prefetch10 {
        address: u32,
        blocks: u16,
    },
    /// SPC, SEND DIAGNOSTIC, with SELFTEST or without it.
    SendDiagnostic {
        tests: bool,
    },
}

impl HostCdb {
    /// What it asks for.
    pub fn meaning(self) -> Cdb
        ensures is { result ≡ meaning self }
        ensures few { blocks_of result < 2 ^ 20 }
    {
        match self {
            HostCdb::TestUnitReady => Cdb::Nothing,
            HostCdb::RequestSense { allocation } => tell(Told::Sense, 0, u32::from(allocation)),
            HostCdb::Inquiry { allocation } => tell(Told::Identity, 0, u32::from(allocation)),
            HostCdb::ReadCapacity10 => tell(Told::Capacity, 0, u32::MAX),
            HostCdb::ReportLuns { select, allocation } => {
                tell(Told::Units, u32::from(select), allocation)
            }
            HostCdb::InquiryPage { page, allocation } => {
                tell(Told::Page, u32::from(page), u32::from(allocation))
            }
            HostCdb::ReadCapacity16 { allocation } => tell(Told::LongCapacity, 0, allocation),
            HostCdb::ModeSense6 { select, allocation } => {
                tell(Told::ShortModes, u32::from(select), u32::from(allocation))
            }
            HostCdb::ModeSense10 { select, allocation } => {
                tell(Told::Modes, u32::from(select), u32::from(allocation))
            }
            HostCdb::ReportOperations { select, allocation } => {
                tell(Told::Operations, select, allocation)
            }
            HostCdb::Verify10 {
                address,
                blocks,
                compared,
            } => verify(address, blocks, compared),
            HostCdb::Prefetch10 { address, blocks } => prefetch(address, blocks),
            HostCdb::SendDiagnostic { tests } => Cdb::Diagnose { tests },
            HostCdb::SynchronizeCache10 { immediate } => Cdb::Flush { immediate },
            HostCdb::Read6 { address, blocks } => read(address, six_blocks(blocks)),
            HostCdb::Read10 {
                address,
                blocks,
                forced: _,
            } => read(address, u32::from(blocks)),
            HostCdb::Write6 { address, blocks } => write(address, six_blocks(blocks), false),
            HostCdb::Write10 {
                address,
                blocks,
                forced,
            } => write(address, u32::from(blocks), forced),
        }
    }

    /// Its sixteen bytes. What has no room in its field is cut off.
    pub fn bytes(self) -> [u8; 16]
        ensures { result ≡ host_bytes self }
    {
        match self {
            HostCdb::Read6 { address, blocks } => six_bytes(READ_6, address, blocks),
            HostCdb::Write6 { address, blocks } => six_bytes(WRITE_6, address, blocks),
            HostCdb::Read10 {
                address,
                blocks,
                forced,
            } => ten_bytes_of(READ_10, if forced { FUA } else { 0 }, address, blocks),
            HostCdb::ReportLuns { select, allocation } => selecting(select, allocation),
            HostCdb::ModeSense6 { select, allocation } => short_modes(select, allocation),
            HostCdb::ModeSense10 { select, allocation } => modes(select, allocation),
            HostCdb::ReportOperations { select, allocation } => operations(select, allocation),
            _ => bytes_of(&self.meaning()),
        }
    }

    /// Why its fields do not fit its bytes.
    pub fn fault(self) -> LineFault {
        match self {
            HostCdb::ReportLuns { .. } => LineFault::Selection,
            HostCdb::ModeSense6 { .. } | HostCdb::ModeSense10 { .. } => LineFault::Modes,
            HostCdb::ReportOperations { .. } => LineFault::Operations,
            _ => LineFault::Address,
        }
    }
}

// The command that tells this, of no more than so many bytes.
fn tell(told: Told, select: u32, allocation: u32) -> Cdb
    ensures { result ≡ Tell told select allocation }
{
    Cdb::Tell {
        told,
        select,
        allocation,
    }
}

// The READ of so many blocks.
fn read(address: u32, blocks: u32) -> Cdb
    ensures { result ≡ Read address blocks }
{
    Cdb::Read {
        address: u64::from(address),
        blocks,
    }
}

// The WRITE of so many blocks.
fn write(address: u32, blocks: u32, forced: bool) -> Cdb
    ensures { result ≡ Write address blocks forced }
{
    Cdb::Write {
        address: u64::from(address),
        blocks,
        forced,
    }
}

// The VERIFY of so many blocks.
fn verify(address: u32, blocks: u16, compared: bool) -> Cdb
    ensures { result ≡ Verify address blocks compared }
{
    Cdb::Verify {
        address: u64::from(address),
        blocks: u32::from(blocks),
        compared,
    }
}

// The PRE-FETCH of so many blocks.
fn prefetch(address: u32, blocks: u16) -> Cdb
    ensures { result ≡ Prefetch address blocks }
{
    Cdb::Prefetch {
        address: u64::from(address),
        blocks: u32::from(blocks),
    }
}

// A count of blocks in one byte, where 0 means 256.
fn six_blocks(blocks: u8) -> u32
    ensures is { result ≡ six_blocks blocks }
    ensures few { result ≤ 256 }
{
    if blocks == 0 { 256 } else { u32::from(blocks) }
}

// The sixteen bytes of READ(6) and WRITE(6).
fn six_bytes(operation: u8, address: u32, blocks: u8) -> [u8; 16]
    ensures { result ≡ six_bytes operation address blocks }
{
    let mut bytes = [0; 16];
    write_u32(&mut bytes, 0, address);
    bytes[0] = operation;
    bytes[4] = blocks;
    bytes
}

// The sixteen bytes of REPORT LUNS, whatever it selects.
fn selecting(select: u8, allocation: u32) -> [u8; 16]
    ensures { result ≡ asking_bytes told.Units select allocation }
{
    let mut bytes = [0; 16];
    bytes[0] = REPORT_LUNS;
    bytes[2] = select;
    write_u32(&mut bytes, 6, allocation);
    bytes
}

// The sixteen bytes of MODE SENSE(6), whatever it selects.
fn short_modes(select: u16, allocation: u8) -> [u8; 16]
    ensures { result ≡ asking_bytes told.ShortModes select allocation }
{
    let mut bytes = [0; 16];
    bytes[0] = MODE_SENSE_6;
    write_u16(&mut bytes, 2, select);
    bytes[4] = allocation;
    bytes
}

// The sixteen bytes of MODE SENSE(10), whatever it selects.
fn modes(select: u16, allocation: u16) -> [u8; 16]
    ensures { result ≡ asking_bytes told.Modes select allocation }
{
    let mut bytes = [0; 16];
    bytes[0] = MODE_SENSE_10;
    write_u16(&mut bytes, 2, select);
    write_u16(&mut bytes, 7, allocation);
    bytes
}

// The sixteen bytes of REPORT SUPPORTED OPERATION CODES, whatever it selects.
fn operations(select: u32, allocation: u32) -> [u8; 16]
    ensures { result ≡ asking_bytes told.Operations select allocation }
{
    let mut bytes = [0; 16];
    bytes[0] = MAINTENANCE_IN;
    bytes[1] = REPORT_OPERATIONS;
    write_u32(&mut bytes, 2, select);
    write_u32(&mut bytes, 6, allocation);
    bytes
}
