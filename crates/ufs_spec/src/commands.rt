//! What a host can change on a device, as commands with their data.
use ufs_bytes::Block;

/// A command that changes what the device holds (JESD220, 10.8 logical units, 12.4 RPMB).
#[derive(Drop)]
pub enum Cmd {
    /// 1 to 128 blocks are written to a unit, from an address on.
    Write {
        unit: u8,
        address: u32,
        blocks: Vec<Block>,
    },
    /// 1 to 128 blocks of a unit, from an address on, become zeros.
    Zero {
        unit: u8,
        address: u32,
        count: u8,
    },
    /// The key of an RPMB region is programmed.
    SetKey {
        region: u8,
        key: [u8; 32],
    },
    /// 1 to 8 blocks of 256 bytes are written to the area of an RPMB region; the address counts
    /// such blocks.
    RpmbWrite {
        region: u8,
        address: u16,
        bytes: Vec<u8>,
    },
    /// The boot setting: 0 off, 1 A, 2 B (bBootLunEn).
    SetBoot(u8),
    /// Units whose protection is permanent are protected from now on (fPermanentWPEn).
    SetPermanent,
}
