//! A pin, and what becomes of it.
ghost use Rattle.std.specs.Prelude.{◌≡◌, if◌then◌else◌};
ghost use Rattle.readers.specs.Pins.{is_of_reader, is_owed_by, is_pin_of, looks_on, moved_pin};
ghost use Rattle.readers.specs.Pins.{now_stored, wanted_no_more, wanted_now};
ghost use Rattle.readers.specs.Rows.{is_slotted};

use block_table::BlockTable;
use ufs_spec::{Key, Looked, Reader};
use unit_map::Stored;

/// What a reader keeps of its block of this index from being erased or given up, and whether its page is
/// still to be read.
#[derive(Clone, Copy, Debug, Default, PartialEq, Eq)]
pub struct Pin {
    pub reader: u8,
    pub index: u16,
    pub key: Key,
    pub looked: Looked,
    pub wanted: bool,
}

/// Whether a page of the die is looked at.
pub fn looks_on(looked: &Looked, die: u8) -> bool
    ensures { result ≡ looks_on die looked.now }
{
    match looked {
        Looked::OnPage(_, place) => place.die == die,
        _ => false,
    }
}

/// What is looked at once this page is durable.
fn now_stored(looked: Looked, stored: Stored) -> Looked
    ensures { result ≡ now_stored stored looked }
{
    match looked {
        Looked::InSlot(name) => {
            if name == stored.name {
                Looked::OnPage(stored.name, stored.place)
            } else {
                looked
            }
        }
        _ => looked,
    }
}

impl Pin {
    /// Whether it is of this block of the reader.
    pub(crate) fn is_of(&self, reader: u8, index: u16) -> bool
        ensures { result ≡ is_pin_of reader index self.now }
    {
        self.reader == reader && self.index == index
    }

    /// Whether it is of the reader.
    pub(crate) fn is_of_reader(&self, reader: u8) -> bool
        ensures { result ≡ is_of_reader reader self.now }
    {
        self.reader == reader
    }

    /// Whether it looks into a slot.
    pub(crate) fn is_slotted(&self) -> bool
        ensures { result ≡ is_slotted self.now }
    {
        match self.looked {
            Looked::InSlot(_) => true,
            _ => false,
        }
    }

    /// How many wanted pins it is: 1 or none.
    pub(crate) fn wants(&self) -> usize
        ensures { result ≡ (if self.now.wanted then 1 else 0) }
    {
        if self.wanted { 1 } else { 0 }
    }

    /// How many pins that look into a slot it is: 1 or none.
    pub(crate) fn slots(&self) -> usize
        ensures { result ≡ (if is_slotted self.now then 1 else 0) }
    {
        if self.is_slotted() { 1 } else { 0 }
    }

    /// Whether its reader is owed the read of a page of this die: it wants it, and no die reads for it.
    pub(crate) fn is_owed(&self, blocks: &BlockTable, die: u8) -> bool
        ensures { result ≡ is_owed_by blocks.now.rows die self.now }
    {
        let reader = Reader::ForTask {
            tag: self.reader,
            index: self.index,
        };
        self.wanted && looks_on(&self.looked, die) && !blocks.reads_for(reader)
    }

    /// What it is once the page of this block of the reader is wanted.
    pub(crate) fn wanted_now(self, reader: u8, index: usize) -> Pin
        ensures { result ≡ wanted_now reader index self }
    {
        let mut now = self;
        if self.reader == reader && self.index as usize == index {
            now.wanted = true;
        }
        now
    }

    /// What it is once the page of this block of the reader is no longer to be read.
    pub(crate) fn wanted_no_more(self, reader: u8, index: u16) -> Pin
        ensures { result ≡ wanted_no_more reader index self }
    {
        let mut now = self;
        if self.reader == reader && self.index == index {
            now.wanted = false;
        }
        now
    }

    /// What it is once this page is durable.
    pub(crate) fn moved(self, stored: Stored) -> Pin
        ensures { result ≡ moved_pin stored self }
    {
        let mut moved = self;
        moved.looked = now_stored(self.looked, stored);
        moved
    }
}
