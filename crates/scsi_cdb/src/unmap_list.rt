//! UNMAP's parameter list (SBC, UNMAP parameter list): a header, and perhaps one block descriptor.
ghost use Rattle.std.specs.Prelude.{◌≡◌, ◌≤◌, ◌==◌, ◌||◌, ◌⊎◌, ℕ, false, length, nat_lt, not};
ghost use Rattle.ufs_spec.specs.Configs.{command_blocks};
ghost use Rattle.ufs_spec.specs.DataOuts.{has_list_header};
ghost use Rattle.ufs_spec.specs.declared.configs.Numbers.{Numbers};
ghost use Rattle.scsi_cdb.specs.Lists.{list_read};
ghost use Rattle.scsi_cdb.specs.declared.unmap_list.UnmapList.TheVariants as said;

use ufs_bytes::{read_u16, read_u32, read_u64};

/// How many bytes the header has.
const HEADER: usize = 8;

/// What UNMAP's parameter list says.
#[derive(Clone, Copy)]
pub enum UnmapList {
    /// A field of its header or of its descriptor is wrong.
    Malformed,
    /// Its header stands alone: there is nothing to do.
    HeaderOnly,
    /// So many blocks from this address on become zeros, perhaps none of them.
    Descriptor { address: u64, count: u16 },
}

/// Reads UNMAP's parameter list: first its header is judged, then its descriptor, which a list of 8
/// bytes has not. A descriptor of more blocks than a command may have, `most`, is malformed. Whether the
/// blocks lie in the unit is not looked at.
pub fn read_unmap_list(most: u16, list: &[u8]) -> UnmapList
    requires { (length list.now ≡ 8) ⊎ (length list.now ≡ 24) }
    ensures list { (n : Numbers) → most ≡ command_blocks n → result ≡ list_read n list.now }
    ensures few { (address count : ℕ) → result ≡ said.Descriptor address count → count ≤ most }
{
    if !has_list_header(list) {
        return UnmapList::Malformed;
    }
    if list.len() == HEADER {
        return UnmapList::HeaderOnly;
    }
    let count = read_u32(list, 16);
    let last = read_u32(list, 20);
    if is_wrong_descriptor(most, count, last) {
        return UnmapList::Malformed;
    }
    UnmapList::Descriptor {
        address: read_u64(list, 8),
        count: count as u16,
    }
}

// Whether the header has the length of all behind its first field, the length of its descriptors,
// and four zeros.
fn has_list_header(list: &[u8]) -> bool
    requires { 8 ≤ length list.now }
    ensures { result ≡ has_list_header list.now }
{
    usize::from(read_u16(list, 0)) == list.len() - 2
        && usize::from(read_u16(list, 2)) == list.len() - HEADER
        && read_u32(list, 4) == 0
}

// Whether a descriptor with this count and these last four bytes counts more blocks than a command
// may have, or the last four bytes are not zero.
fn is_wrong_descriptor(most: u16, count: u32, last: u32) -> bool
    ensures wrong { result ≡ (nat_lt most count || not (last == 0)) }
    ensures few { result ≡ false → count ≤ most }
{
    count > u32::from(most) || last != 0
}
