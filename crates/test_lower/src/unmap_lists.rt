//! UNMAP's command and its parameter list (SBC, UNMAP command and UNMAP parameter list).
ghost use Rattle.std.specs.Prelude.{◌≡◌, ◌⊎◌, length};

use scsi_cdb::{UnmapList, read_unmap_list};
use ufs_spec::{Cdb, Sense};

/// UNMAP has the length of its list in bytes 7 and 8. Its ANCHOR bit and its group number are zero.
#[test]
fn unmap_is_read_with_the_length_of_its_list(rt: HostRuntime) {
    let unmap = [0x42, 0, 0, 0, 0, 0, 0, 0, 0x18, 0, 0, 0, 0, 0, 0, 0];
    let read = Cdb::Unmap { list: 24 };
    assert!(rt; scsi_cdb::bytes_of(&read) == unmap);
    assert!(rt; matches!(scsi_cdb::read(&unmap), Ok(Cdb::Unmap { list: 24 })));
    assert!(rt; scsi_cdb::length_of(0, &read) == 24);
    assert!(rt; scsi_cdb::blocks_of(&read) == 0);
    for place in [1usize, 2, 6, 9, 15] {
        let mut other = unmap;
        other[place] = 0x01;
        assert!(rt; matches!(scsi_cdb::read(&other), Err(Sense::INVALID_FIELD)));
    }
}

/// A list has a header of 8 bytes and perhaps one descriptor, of 32 blocks at most.
#[test]
fn lists_of_unmap_are_read(rt: HostRuntime) {
    let list = [
        0x00, 0x16, 0x00, 0x10, 0, 0, 0, 0, 0, 0, 0, 0, 0, 0, 0, 0x05, 0, 0, 0, 0x02, 0, 0, 0, 0,
    ];
    assert!(rt; names_blocks(&list, 5, 2));
    let mut most = list;
    most[19] = 32;
    assert!(rt; names_blocks(&most, 5, 32));
    let mut far = list;
    far[8] = 0xFF;
    far[19] = 0;
    assert!(rt; names_blocks(&far, 0xFF00_0000_0000_0005, 0));
    let header = [0, 6, 0, 0, 0, 0, 0, 0];
    assert!(rt; matches!(read_unmap_list(32, &header), UnmapList::HeaderOnly));
}

/// A wrong length, a byte of the header or of the last four that is not zero, and 33 blocks are
/// malformed.
#[test]
fn other_lists_of_unmap_are_malformed(rt: HostRuntime) {
    let list = [
        0x00, 0x16, 0x00, 0x10, 0, 0, 0, 0, 0, 0, 0, 0, 0, 0, 0, 0x05, 0, 0, 0, 0x02, 0, 0, 0, 0,
    ];
    for place in [0usize, 1, 2, 3, 4, 7, 16, 18, 20, 23] {
        let mut other = list;
        other[place] ^= 0x80;
        assert!(rt; is_malformed(&other));
    }
    let mut many = list;
    many[19] = 33;
    assert!(rt; is_malformed(&many));
    assert!(rt; is_malformed(&[0, 8, 0, 0, 0, 0, 0, 0]));
    assert!(rt; is_malformed(&[0, 6, 0, 0, 0, 0, 0, 1]));
}

/// Whether a list of 24 bytes names so many blocks from this address on.
fn names_blocks(list: &[u8; 24], first: u64, blocks: u16) -> bool {
    match read_unmap_list(32, list) {
        UnmapList::Descriptor { address, count } => address == first && count == blocks,
        _ => false,
    }
}

/// Whether a list of 8 or 24 bytes is malformed.
fn is_malformed(list: &[u8]) -> bool
    requires { (length list.now ≡ 8) ⊎ (length list.now ≡ 24) }
{
    matches!(read_unmap_list(32, list), UnmapList::Malformed)
}
