//! The first 64 spare bytes, which say whose the page is.
ghost use Rattle.std.specs.Prelude.{◌≡◌, ◌^◌, ◌<◌, ◌≤◌, ◌↔◌, IsTrue, replicate, slice_index, take};
ghost use Rattle.ufs_spec.specs.Pages.{IsFrontOf, IsTag, front_with, greatest_number, group_bound, index_in, old_front};
ghost use Rattle.ufs_spec.specs.Pages.{old_group_bound, size_in, spare_front, tag_in};
ghost use Rattle.ufs_spec.specs.Plain.{regions};

use ufs_bytes::{read_u16, read_u32, read_u64, write_u16, write_u32, write_u64};
use ufs_spec::{GREATEST_GROUP, GREATEST_NUMBER, REGIONS, Tag};

const MAGIC: &[u8; 4] = b"UFSP";

/// The version that is written.
const VERSION: u8 = 2;

/// The version that is read beside it.
const OLD_VERSION: u8 = 1;

/// The greatest size of a group in that version.
const OLD_GREATEST_GROUP: u16 = 32;

/// Whether a tag is within its ranges.
pub fn is_tag(tag: &Tag) -> bool
    ensures { IsTrue result ↔ IsTag tag.now }
{
    is_of_its_kind(tag) && is_counted(tag)
}

// Whether the kind is one of the four, and all that this kind leaves out is zero.
fn is_of_its_kind(tag: &Tag) -> bool
    ensures { IsTrue result ↔ ((1 ≤ tag.now.kind) × (tag.now.kind ≤ 4) × (tag.now.unit < 8)
        × (tag.now.address < 2 ^ 32)
        × (tag.now.kind ≡ 2 → tag.now.unit < regions) × (3 ≤ tag.now.kind → tag.now.unit ≡ 0)
        × (3 ≤ tag.now.kind → tag.now.address ≡ 0)
        × (tag.now.kind ≡ 4 → (tag.now.index ≡ 0) × (tag.now.size ≡ 1))) }
{
    let Tag {
        kind,
        unit,
        address,
        index,
        size,
        ..
    } = *tag;
    match kind {
        1 => unit < 8,
        2 => unit < REGIONS,
        3 => unit == 0 && address == 0,
        4 => unit == 0 && address == 0 && index == 0 && size == 1,
        _ => false,
    }
}

// Whether the number, the place in the group and the recorded frontier are within their ranges.
fn is_counted(tag: &Tag) -> bool
    ensures { IsTrue result ↔ ((1 ≤ tag.now.number) × (tag.now.number ≤ greatest_number) × (tag.now.size ≤ group_bound)
        × (tag.now.index < tag.now.size) × (tag.now.frontier ≤ greatest_number)) }
{
    1 <= tag.number
        && tag.number <= GREATEST_NUMBER
        && tag.size <= GREATEST_GROUP
        && tag.index < tag.size
        && tag.frontier <= GREATEST_NUMBER
}

/// The spare bytes before the check, in the version that is written.
pub fn front_of(tag: &Tag) -> [u8; 64]
    requires { IsTag tag.now }
    ensures { result ≡ spare_front tag.now }
{
    let mut front = front_with(VERSION, tag);
    write_u16(&mut front, 20, tag.index);
    write_u16(&mut front, 22, tag.size);
    front
}

// The same in the version that is read beside it.
fn old_front_of(tag: &Tag) -> [u8; 64]
    requires is_tag { IsTag tag.now }
    requires few { tag.now.size ≤ old_group_bound }
    ensures { result ≡ old_front tag.now }
{
    let mut front = front_with(OLD_VERSION, tag);
    front[20] = tag.index as u8;
    front[21] = tag.size as u8;
    front
}

// The bytes of a tag in a version, with zeros where its place in the group stands.
fn front_with(version: u8, tag: &Tag) -> [u8; 64]
    ensures { result ≡ front_with version (replicate 4 0) tag.now }
{
    let mut front = [0; 64];
    front[..4].copy_from_slice(MAGIC);
    front[4] = version;
    front[5] = tag.kind;
    front[6] = tag.unit;
    write_u32(&mut front, 8, tag.address);
    write_u64(&mut front, 12, tag.number);
    write_u64(&mut front, 24, tag.frontier);
    front
}

/// Whether the first 64 spare bytes are those of the tag, in one of the two versions.
pub fn has_front(spare: &[u8; 96], tag: &Tag) -> bool
    requires { IsTag tag.now }
    ensures { IsTrue result ↔ IsFrontOf tag.now (take 64 spare.now) }
{
    is_written_front(spare, tag) || is_old_front(spare, tag)
}

// Whether they are as they are written.
fn is_written_front(spare: &[u8; 96], tag: &Tag) -> bool
    requires { IsTag tag.now }
    ensures { IsTrue result ↔ (take 64 spare.now ≡ spare_front tag.now) }
{
    spare[..64] == front_of(tag)[..]
}

// Whether they are as version 1 has them, in which no group has more than 32 pages.
fn is_old_front(spare: &[u8; 96], tag: &Tag) -> bool
    requires { IsTag tag.now }
    ensures { IsTrue result ↔ ((tag.now.size ≤ old_group_bound) × (take 64 spare.now ≡ old_front tag.now)) }
{
    if tag.size > OLD_GREATEST_GROUP {
        return false;
    }
    spare[..64] == old_front_of(tag)[..]
}

/// The tag that spare bytes name, whether or not it is within its ranges.
pub fn tag_of(spare: &[u8; 96]) -> Tag
    ensures { result ≡ tag_in spare.now }
{
    Tag {
        kind: spare[5],
        unit: spare[6],
        address: read_u32(spare, 8),
        number: read_u64(spare, 12),
        index: index_of(spare),
        size: size_of(spare),
        frontier: read_u64(spare, 24),
    }
}

// The index in the group that they name.
fn index_of(spare: &[u8; 96]) -> u16
    ensures { result ≡ index_in (slice_index spare.now 4) spare.now }
{
    if spare[4] == OLD_VERSION {
        u16::from(spare[20])
    } else {
        read_u16(spare, 20)
    }
}

// The size of the group that they name.
fn size_of(spare: &[u8; 96]) -> u16
    ensures { result ≡ size_in (slice_index spare.now 4) spare.now }
{
    if spare[4] == OLD_VERSION {
        u16::from(spare[21])
    } else {
        read_u16(spare, 22)
    }
}
