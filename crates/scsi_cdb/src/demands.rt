//! What a command asks for: its blocks, its address and how many bytes of data it has (SPC, SBC).
ghost use Rattle.std.specs.Prelude.{◌≡◌, ◌<◌, ◌≤◌, ◌^◌};
ghost use Rattle.ufs_spec.specs.Cdbs.{address_of, blocks_brought, blocks_meant, blocks_of, brought, length_of};

use ufs_spec::Cdb;

/// How many bytes a block has.
const BLOCK_BYTES: u32 = 4096;

/// How many blocks a READ, a WRITE or a VERIFY names (SBC, their commands). No other command names
/// any that count.
pub fn blocks_of(cdb: &Cdb) -> u32
    ensures { result ≡ blocks_of cdb.now }
{
    match cdb {
        Cdb::Read { blocks, .. } | Cdb::Write { blocks, .. } | Cdb::Verify { blocks, .. } =>
            *blocks,
        _ => 0,
    }
}

/// How many blocks from its address on have to be there: those of a READ or a WRITE, and those of a
/// PRE-FETCH, which may be more than a command may read (SBC, PRE-FETCH command).
pub fn blocks_meant(cdb: &Cdb) -> u32
    ensures { result ≡ blocks_meant cdb.now }
{
    match cdb {
        Cdb::Prefetch { blocks, .. } => *blocks,
        _ => blocks_of(cdb),
    }
}

/// The first address of a READ, a WRITE, a VERIFY or a PRE-FETCH (SBC, their commands). No other
/// command names one that counts.
pub fn address_of(cdb: &Cdb) -> u64
    ensures { result ≡ address_of cdb.now }
{
    match cdb {
        Cdb::Read { address, .. }
        | Cdb::Write { address, .. }
        | Cdb::Verify { address, .. }
        | Cdb::Prefetch { address, .. } => *address,
        _ => 0,
    }
}

/// How many bytes of data a command has, of fewer than 2^20 blocks, where there are so many to tell:
/// 4096 a block of a READ, a WRITE or a VERIFY that compares (SBC, their commands); of what is told of the
/// device no more than the allocation length (SPC, allocation length); those of UNMAP's list (SBC, UNMAP
/// command); the length that SECURITY PROTOCOL IN or OUT names (SPC, their commands).
pub fn length_of(told: u32, cdb: &Cdb) -> u32
    requires { blocks_of cdb.now < 2 ^ 20 }
    ensures { result ≡ length_of told cdb.now }
{
    match cdb {
        Cdb::Tell { allocation, .. } => (*allocation).min(told),
        Cdb::Read { blocks, .. }
        | Cdb::Write { blocks, .. }
        | Cdb::Verify {
            blocks,
            compared: true,
            ..
        } => *blocks * 4096,
        Cdb::Unmap { list } => *list,
        Cdb::SecurityIn { length, .. } | Cdb::SecurityOut { length, .. } => *length,
        Cdb::Nothing
        | Cdb::Flush { .. }
        | Cdb::Verify {
            compared: false,
            ..
        }
        | Cdb::Prefetch { .. }
        | Cdb::Diagnose { .. } => 0,
    }
}

/// How many of so many blocks a WRITE brings whose host sends so many bytes: all, or the whole blocks of
/// those bytes.
pub fn blocks_brought(expected: u32, blocks: u32) -> u32
    ensures is { result ≡ blocks_brought expected blocks }
    ensures few { result ≤ blocks }
{
    blocks.min(expected / BLOCK_BYTES)
}

/// The command as its host brings data for it, which sends so many bytes: a WRITE of the whole blocks that
/// come, if these are fewer than it has; any other is as its CDB says.
pub fn brought(expected: u32, cdb: &Cdb) -> Cdb
    ensures { result ≡ brought expected cdb.now }
{
    match cdb {
        Cdb::Write {
            address,
            blocks,
            forced,
        } => Cdb::Write {
            address: *address,
            blocks: blocks_brought(expected, *blocks),
            forced: *forced,
        },
        _ => *cdb,
    }
}
