//! What lies on a die, and what is asked of it.
use ufs_bytes::Block;

/// A page of a die: 4096 bytes and 96 spare bytes.
#[derive(Clone, Copy, PartialEq, Eq)]
pub struct Page {
    pub body: Block,
    pub spare: [u8; 96],
}

/// Where a page lies.
#[derive(Clone, Copy, Debug, Default, PartialEq, Eq)]
pub struct Place {
    pub die: u8,
    pub block: u16,
    pub page: u16,
}

/// What the device asks of a die.
#[derive(Clone, Copy, PartialEq, Eq)]
pub enum Job {
    Read(Place),
    Program(Place, Page),
    Erase { die: u8, block: u16 },
}

/// How a job ended. `Done` and `Failed` are the endings of programs and erases.
#[derive(Clone, Copy, PartialEq, Eq)]
pub enum Outcome {
    Read(Page),
    ReadFailed,
    Done,
    Failed,
}

/// The greatest number that a group or a mark may have (this profile): a device that is given a million
/// of them a second reaches it after 146,000 years.
pub const GREATEST_NUMBER: u64 = 1 << 62;

/// The greatest number of pages that a group may have as its tags say it (this profile). What a device
/// accepts as one group is bounded by its commands.
pub const GREATEST_GROUP: u16 = 128;

/// What a page says of its block: what it is (1 data, 2 RPMB area, 3 settings, 4 mark), whose it is,
/// its group's number, its index in the group and the group's size, and the frontier at the moment
/// when its job was handed out.
#[derive(Clone, Copy, Debug, Default, PartialEq, Eq)]
pub struct Tag {
    pub kind: u8,
    pub unit: u8,
    pub address: u32,
    pub number: u64,
    pub index: u16,
    pub size: u16,
    pub frontier: u64,
}

impl Tag {
    /// The kind of a page with a block of a unit.
    pub const DATA: u8 = 1;
    /// The kind of a page with sixteen blocks of the area of an RPMB region.
    pub const RPMB_AREA: u8 = 2;
    /// The kind of a page with the settings, and the key and the write counter of each RPMB region.
    pub const SETTINGS: u8 = 3;
    /// The kind of a page with the configuration and a fence.
    pub const MARK: u8 = 4;
}

/// Whose content a page holds: its kind, its unit, or RPMB region (0 but for data and RPMB areas), and its
/// address there.
#[derive(Clone, Copy, Debug, Default, PartialEq, Eq)]
pub struct Key {
    pub kind: u8,
    pub unit: u8,
    pub address: u32,
}

/// What settings say of an RPMB region: its key, once it is programmed, and its write counter (JESD220,
/// 12.4).
#[derive(Clone, Copy, PartialEq, Eq)]
pub struct KeyAndCounter {
    pub key: Option<[u8; 32]>,
    pub counter: u32,
}

/// A range of group numbers, both its ends within it. Where the newest mark has one, no group page with
/// such a number counts.
#[derive(Clone, Copy, Debug, PartialEq, Eq)]
pub struct Fence {
    pub first: u64,
    pub last: u64,
}

/// What a page opens to.
#[derive(Clone, Copy, PartialEq, Eq)]
pub struct Opened {
    pub tag: Tag,
    pub body: Block,
}
