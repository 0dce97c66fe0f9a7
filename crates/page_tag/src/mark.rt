//! The body of a mark: a page that holds the numbers of the configuration and perhaps a fence.
ghost use Rattle.std.specs.Prelude.{◌≡◌, ◌++◌};
ghost use Rattle.ufs_spec.specs.Pages.{fence_bytes, mark_bytes, numbers_bytes, unit_bytes};

use ufs_bytes::{Block, write_u16, write_u32, write_u64};
use ufs_spec::{Fence, Numbers, UnitSpec};

/// Where the entries of the units begin.
pub const ENTRIES: usize = 32;

/// How long each of them is.
pub const ENTRY: usize = 8;

/// The body of a mark with these numbers and this fence.
pub fn mark_body(numbers: &Numbers, fence: Option<Fence>) -> Block
    ensures { result ≡ mark_bytes numbers.now fence }
{
    let mut body = [0; 4096];
    body[..ENTRIES].copy_from_slice(&head_of(numbers, fence));
    for (index, unit) in numbers.units.iter().enumerate() {
        let start = ENTRIES + ENTRY * index;
        body[start..start + ENTRY].copy_from_slice(&entry_of(unit));
    }
    body
}

// The bytes before the entries.
fn head_of(numbers: &Numbers, fence: Option<Fence>) -> [u8; ENTRIES]
    ensures { result ≡ fence_bytes fence ++ numbers_bytes numbers.now }
{
    let mut head = [0; ENTRIES];
    if let Some(fence) = fence {
        write_u64(&mut head, 0, fence.first);
        write_u64(&mut head, 8, fence.last);
    }
    head[16] = numbers.dies;
    head[17] = numbers.units.len() as u8;
    write_u16(&mut head, 18, numbers.blocks);
    write_u16(&mut head, 20, numbers.pages);
    head[22] = numbers.rpmb[0];
    write_u16(&mut head, 24, numbers.slots);
    write_u16(&mut head, 26, numbers.spare);
    head[28] = numbers.rpmb[1];
    head[29] = numbers.rpmb[2];
    head[30] = numbers.rpmb[3];
    head
}

// The entry of a unit.
fn entry_of(unit: &UnitSpec) -> [u8; ENTRY]
    ensures { result ≡ unit_bytes unit.now }
{
    let mut entry = [0; ENTRY];
    write_u32(&mut entry, 0, unit.blocks);
    entry[4] = unit.boot;
    entry[5] = unit.protect;
    entry
}
