//! What lies in a slot.
ghost use Rattle.std.specs.Prelude.{length, ◌≡◌};
ghost use Rattle.ufs_spec.specs.Plain.{zero_block};
ghost use Rattle.write_cache.specs.Slots.{claim_filled, empty_claim, is_claim_behind};
ghost use Rattle.write_cache.specs.Slots.{is_claim_of, is_named};
ghost use Rattle.write_cache.specs.Slots.{is_page_of, is_there, key_at, page_claimed};

use crate::rests::Rest;
use ufs_bytes::Body;
use ufs_spec::{Key, Place};

/// A page of a pending group: the group's number and how many pages it has, which of them this is,
/// where it is written, once it is, and the rest that it waits for, while its content is not all there.
#[derive(Drop)]
pub struct Pending {
    pub key: Key,
    pub number: u64,
    pub index: u16,
    pub size: u16,
    pub written: Option<Place>,
    pub rest: Option<Rest>,
    pub(crate) body: Body,
}

/// A slot that is claimed for the block of this index of a reader who gathers blocks for a group to come,
/// and what came for it: zeros until it does.
#[derive(Drop)]
pub struct Claimed {
    pub reader: u8,
    pub index: u16,
    pub body: Body,
}

/// A page of a group that became durable: where its content is now.
#[derive(Clone, Copy, Debug, PartialEq, Eq)]
pub struct Landed {
    pub key: Key,
    pub number: u64,
    pub index: u16,
    pub written: Option<Place>,
}

/// The group that is the first of those pending, once all its pages are written.
#[derive(Clone, Copy, Debug, PartialEq, Eq)]
pub struct WholeGroup {
    pub number: u64,
    pub pages: usize,
}

impl Pending {
    /// Whether the page is of this address.
    pub(crate) fn is_of(&self, key: Key) -> bool
        ensures { result ≡ is_page_of key self.now }
    {
        self.key.kind == key.kind && self.key.unit == key.unit && self.key.address == key.address
    }

    /// Whether the page has this number and index.
    pub(crate) fn is_named(&self, number: u64, index: u16) -> bool
        ensures { result ≡ is_named number index self.now }
    {
        self.number == number && self.index == index
    }

    /// Whether the page is written there.
    pub(crate) fn is_there(&self, place: Place) -> bool
        ensures { result ≡ is_there place self.now }
    {
        match self.written {
            Some(written) => written == place,
            None => false,
        }
    }
}

impl Claimed {
    /// A slot that is claimed for this block of the reader, before it came. The body holds zeros.
    pub(crate) fn empty(reader: u8, index: u16, body: Body) -> Claimed
        requires { body ≡ zero_block }
        ensures { result ≡ empty_claim reader index }
    {
        Claimed {
            reader,
            index,
            body,
        }
    }

    /// What came lies in the slot, if this is claimed for the block of this index of the reader.
    pub(crate) fn fill(&mut self, reader: u8, index: u16, block: &[u8])
        requires { length block.now ≡ 4096 }
        ensures { self.new ≡ claim_filled reader index block.now self.old }
    {
        if self.reader == reader && self.index == index {
            self.body.set(block);
        }
    }

    /// Whether the slot is claimed by the reader.
    pub(crate) fn is_of(&self, reader: u8) -> bool
        ensures { result ≡ is_claim_of reader self.now }
    {
        self.reader == reader
    }

    /// Whether the slot is claimed by the reader, for a block behind its first so many.
    pub(crate) fn is_behind(&self, reader: u8, count: u16) -> bool
        ensures { result ≡ is_claim_behind reader count self.now }
    {
        self.is_of(reader) && self.index >= count
    }

    /// The page of a group for which the slot was claimed, from an address on. Its body stays where it is.
    pub(crate) fn into_page(self, key: Key, number: u64, size: u16) -> Pending
        ensures { result ≡ page_claimed key number size self }
    {
        Pending {
            key: key_at(key, self.index),
            number,
            index: self.index,
            size,
            written: None,
            rest: None,
            body: self.body,
        }
    }
}

/// The address that lies so many behind this one, and the last there is where there are fewer.
pub fn key_at(key: Key, index: u16) -> Key
    ensures { result ≡ key_at key index }
{
    Key {
        kind: key.kind,
        unit: key.unit,
        address: key.address.saturating_add(index as u32),
    }
}
