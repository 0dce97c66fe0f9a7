//! What a task has to do with the frames of the RPMB (JESD220, 12.4).
ghost use Rattle.std.specs.Prelude.{◌≡◌, ◌≤◌, ◌+◌};
ghost use Rattle.task_set.specs.Frames.{area_part, frames_after, page_ended, reading_of};

use crate::tasks::TaskEvent;
use ufs_spec::ReadState;

/// Where the data that a request asks for stand in its task's block: behind its first frame.
const DATA_AT: usize = 512;

/// How many bytes a block of the area has.
const BLOCK: usize = 256;

/// How many blocks of the area a page has.
const PAGE_BLOCKS: u16 = 16;

/// How many blocks of the area a request may ask for.
const MOST_BLOCKS: u16 = 8;

/// What a task has to do with frames that its host brings.
#[derive(Clone, Copy, Debug, Default, PartialEq, Eq)]
pub enum Frames {
    /// Its command brings none.
    #[default]
    NotBrought,
    /// Its SECURITY PROTOCOL OUT has no request: its frames are awaited, or they were refused.
    Undecided,
    /// They are a request with this result, which is yet to fill its register.
    Decided { code: u16 },
    /// They are a request that has filled its register.
    Answered,
}

impl Frames {
    /// What it has to do with them after this happened.
    pub fn after(self, event: TaskEvent) -> Frames
        ensures { result ≡ frames_after self event }
    {
        match (self, event) {
            (_, TaskEvent::RequestAnswered { code }) => Frames::Decided { code },
            (_, TaskEvent::RequestAccepted { code, .. }) => Frames::Decided { code },
            (_, TaskEvent::AreaAsked { code, .. }) => Frames::Decided { code },
            (Frames::Decided { .. }, TaskEvent::RegisterFilled) => Frames::Answered,
            (frames, _) => frames,
        }
    }
}

/// The blocks of the RPMB area that a request asks for: so many from this address on, at most eight; how
/// the reads of their one page or two pages ended; and how many bytes the command has.
#[derive(Clone, Copy, Debug, PartialEq, Eq)]
pub struct AreaReading {
    pub address: u16,
    pub count: u16,
    pub first: ReadState,
    pub second: Option<ReadState>,
    pub length: u32,
}

/// The part of a page that a request asks for: where it begins in the page, where it stands in the block
/// of its task, and how many bytes it has.
#[derive(Clone, Copy, Debug, PartialEq, Eq)]
pub struct AreaPart {
    pub from: usize,
    pub at: usize,
    pub length: usize,
}

impl AreaReading {
    /// So many blocks from this address on are to be read.
    pub fn new(address: u16, count: u16, length: u32) -> AreaReading
        ensures { result ≡ reading_of address count length }
    {
        let second = if address % PAGE_BLOCKS + count.min(MOST_BLOCKS) > PAGE_BLOCKS {
            Some(ReadState::Unread)
        } else {
            None
        };
        AreaReading {
            address,
            count,
            first: ReadState::Unread,
            second,
            length,
        }
    }

    /// The read of the page of this index ended so.
    pub fn ended(self, index: u16, how: ReadState) -> AreaReading
        ensures { result ≡ page_ended self index how }
    {
        let mut reading = self;
        if index == 0 {
            reading.first = how;
        } else if reading.second.is_some() {
            reading.second = Some(how);
        }
        reading
    }

    /// The part that is asked for of the page of this index.
    pub fn part(self, index: u16) -> AreaPart
        ensures part { result ≡ area_part self index }
        ensures in_page { result.from + result.length ≤ 4096 }
        ensures in_block { result.at + result.length ≤ 4096 }
    {
        let begin = self.address % PAGE_BLOCKS;
        let blocks = self.count.min(MOST_BLOCKS);
        let first = blocks.min(PAGE_BLOCKS - begin);
        if index == 0 {
            AreaPart {
                from: BLOCK * begin as usize,
                at: DATA_AT,
                length: BLOCK * first as usize,
            }
        } else {
            AreaPart {
                from: 0,
                at: DATA_AT + BLOCK * first as usize,
                length: BLOCK * (blocks - first) as usize,
            }
        }
    }
}
