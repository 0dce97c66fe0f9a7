//! The tasks that are open, and what each still owes its host (JESD220, 10.9).
ghost use Rattle.std.specs.Prelude.{◌≡◌, ◌*◌, ◌+◌};
ghost use Rattle.ufs_spec.specs.Exchanges.{number_of};
ghost use Rattle.task_set.specs.Tasks.{asked_next, block_unread, came, failed, group_done, is_any_meant, is_forced, is_meant, is_wanted};
ghost use Rattle.task_set.specs.Tasks.{is_compared, miscompare, next_comparing, next_sending, next_wanted};
ghost use Rattle.task_set.specs.Tasks.{phase_after, same_next, sent_next, wanted_block, wanted_count};
ghost use Rattle.task_set.specs.Shorts.{is_short_due, manages, number_in, reply_locked, short_locked};
ghost use Rattle.ufs_spec.specs.Exchanges.{to_gather};

use crate::frames::{AreaReading, Frames};
use ufs_spec::{Asked, Purpose, ReadState, Sense, Status};

/// How many bytes a block has.
pub const BLOCK_BYTES: u32 = 4096;

/// How many indexes a block of a command may have.
const INDEXES: u32 = 1 << 16;

/// The blocks of a READ: so many that its host expects, of which so many were handed out; and how many
/// bytes the command has.
#[derive(Clone, Copy, Debug, PartialEq, Eq)]
pub struct Sending {
    pub blocks: u16,
    pub sent: u16,
    pub length: u32,
}

impl Sending {
    /// What is still to be sent once one block more was handed out; `None` if that was the last.
    pub fn next(self) -> Option<Sending>
        ensures { result ≡ next_sending self }
    {
        if self.sent as u32 + 1 < self.blocks as u32 {
            Some(Sending {
                blocks: self.blocks,
                sent: self.sent + 1,
                length: self.length,
            })
        } else {
            None
        }
    }

    /// How many bytes were handed out: where the next block lies in its data.
    pub fn offset(self) -> u32
        ensures { result ≡ 4096 * self.sent }
    {
        BLOCK_BYTES * self.sent as u32
    }
}

/// The blocks of a VERIFY: how many there are, and whether one of them could not be read.
#[derive(Clone, Copy, Debug, PartialEq, Eq)]
pub struct Verifying {
    pub blocks: u16,
    pub failed: bool,
}

impl Verifying {
    /// One of its blocks could not be read.
    fn lost(self) -> Verifying
        ensures { result ≡ block_unread self }
    {
        Verifying {
            blocks: self.blocks,
            failed: true,
        }
    }
}

/// The blocks of a VERIFY that are compared with those of its host, one after another: how many there
/// are, of which so many were found to be the same.
#[derive(Clone, Copy, Debug, PartialEq, Eq)]
pub struct Comparing {
    pub blocks: u16,
    pub compared: u16,
}

impl Comparing {
    /// What is still to be compared once one block more was found to be the same; `None` if that was
    /// the last.
    fn next(self) -> Option<Comparing>
        ensures { result ≡ next_comparing self }
    {
        if self.compared as u32 + 1 < self.blocks as u32 {
            Some(Comparing {
                blocks: self.blocks,
                compared: self.compared + 1,
            })
        } else {
            None
        }
    }

    /// How many bytes were found to be the same: where the next block lies in the data of its host.
    pub fn offset(self) -> u32
        ensures { result ≡ 4096 * self.compared }
    {
        BLOCK_BYTES * self.compared as u32
    }

    /// Whether so many bytes at this offset are the next block.
    pub fn is(self, offset: u32, count: usize) -> bool
        ensures { result ≡ is_compared self offset count }
    {
        self.offset() == offset && count == BLOCK_BYTES as usize
    }

    /// How far a VERIFY is whose next block was found to be the same: the one behind it follows, or
    /// GOOD.
    fn same(self) -> Phase
        ensures { result ≡ same_next self (next_comparing self) }
    {
        match self.next() {
            Some(comparing) => Phase::AskBlock { comparing },
            None => Phase::good(BLOCK_BYTES * self.blocks as u32),
        }
    }

    /// The same of one whose next block was found to be another one, which was carried too.
    fn differs(self) -> Phase
        ensures { result ≡ failed miscompare (4096 * (self.compared + 1)) }
    {
        Phase::failed(Sense::MISCOMPARE, BLOCK_BYTES * (self.compared as u32 + 1))
    }
}

/// How far a task is.
#[derive(Clone, Copy, Debug, PartialEq, Eq)]
pub enum Phase {
    /// A READY TO TRANSFER for this is due.
    Ask { wanted: Wanted },
    /// The DATA OUT with this has not come.
    Await { wanted: Wanted },
    /// GOOD is due once every group up to this number is durable; `length` bytes were the command's.
    AwaitFrontier { number: u64, length: u32 },
    /// GOOD is due once each of these pages of the RPMB area is at hand, was read or could not be read.
    ReadArea { reading: AreaReading },
    /// Its answer is due once each of these blocks was read or needs no read, or one could not be
    /// read. Which were read is known by what is kept for it, and not here.
    Verify { verifying: Verifying },
    /// A READY TO TRANSFER for its host's block is due once the next block that the task keeps is there.
    AskBlock { comparing: Comparing },
    /// The DATA OUT with that block has not come. The task's own one lies in its block of the pool.
    AwaitBlock { comparing: Comparing },
    /// A DATA IN is due once the next block that the task keeps is there.
    SendBlocks { sending: Sending },
    /// A DATA IN with what the task's block holds, so many bytes, is due.
    SendHeld { length: u32 },
    /// The RESPONSE is due: `length` bytes were the command's or were carried.
    Answer { status: Status, length: u32 },
}

/// What happens to a task. Its RESPONSE, which ends it, is none of these.
#[derive(Clone, Copy)]
pub enum TaskEvent {
    /// Its READY TO TRANSFER was handed out.
    DataAskedFor,
    /// A block that it asked for came, and more are to come.
    BlockGathered,
    /// The last block that it asked for came, and its group was accepted under this number.
    GroupAccepted { number: u64 },
    /// All data that it asked for came, and they are refused with this sense.
    DataRefused { sense: Sense },
    /// All data that it asked for came, and it was done.
    DataTaken,
    /// Its frames came: a request that has this result at once.
    RequestAnswered { code: u16 },
    /// Its frames came: a request with this result, whose group was accepted under this number.
    RequestAccepted { code: u16, number: u64 },
    /// Its frames came: a request for so many blocks of the area from this address on.
    AreaAsked { code: u16, address: u16, count: u16 },
    /// A die read the page of the area of this index.
    PageLoaded { index: u16 },
    /// Its request filled its register.
    RegisterFilled,
    /// The DATA IN with its next block was handed out.
    BlockSent,
    /// The DATA IN with what its block holds was handed out.
    DataSent,
    /// The READY TO TRANSFER for the block with which its next one is compared was handed out.
    BlockAskedFor,
    /// That block came, and is the same.
    BlockSame,
    /// That block came, and is another one.
    BlockDiffers,
    /// The die could not read the block or the page of this index. What is before a block was carried.
    BlockLost { index: u16 },
    /// The device is locked from now on, and each group up to this number is durable. What waits for
    /// a later one is told that it was not written, though it was carried.
    Locked { frontier: u64 },
}

impl Phase {
    /// The command failed with this sense, and so many bytes were carried.
    fn failed(sense: Sense, carried: u32) -> Phase
        ensures { result ≡ failed sense carried }
    {
        Phase::Answer {
            status: Status::CheckCondition(sense),
            length: carried,
        }
    }

    /// The command was done: so many bytes were its own.
    pub fn good(length: u32) -> Phase
        ensures { result ≡ Phase.Answer Status.Good length }
    {
        Phase::Answer {
            status: Status::Good,
            length,
        }
    }

    /// A WRITE of so many bytes whose group was accepted under this number: with FUA (`forced`) it is
    /// answered once the group is durable, else at once.
    fn accepted(forced: bool, number: u64, length: u32) -> Phase
        ensures { result ≡ group_done forced number length }
    {
        if forced {
            Phase::AwaitFrontier { number, length }
        } else {
            Phase::good(length)
        }
    }

    /// A block of the data came: the next one is asked for.
    fn gathered(wanted: Wanted) -> Phase
        ensures { result ≡ asked_next wanted (next_wanted wanted) }
    {
        match wanted.next() {
            Some(wanted) => Phase::Ask { wanted },
            None => Phase::Await { wanted },
        }
    }

    /// A READ of which a block was handed out: the next one follows, or GOOD.
    fn sent(sending: Sending) -> Phase
        ensures { result ≡ sent_next sending (next_sending sending) }
    {
        match sending.next() {
            Some(sending) => Phase::SendBlocks { sending },
            None => Phase::good(sending.length),
        }
    }

    /// The table of a task's phases: how far it is after this happened. What does not concern its
    /// phase changes nothing.
    pub fn after(self, event: TaskEvent) -> Phase
        ensures { result ≡ phase_after self event }
    {
        match (self, event) {
            (Phase::Ask { wanted }, TaskEvent::DataAskedFor) => Phase::Await { wanted },
            (Phase::Await { wanted }, event) => wanted.came(event),
            (Phase::AwaitFrontier { number, length }, TaskEvent::Locked { frontier })
                if number > frontier => { Phase::failed(Sense::WRITE_ERROR, length) }
            (Phase::ReadArea { reading }, TaskEvent::PageLoaded { index }) => Phase::ReadArea {
                reading: reading.ended(index, ReadState::WasRead),
            },
            (Phase::ReadArea { reading }, TaskEvent::BlockLost { index }) => Phase::ReadArea {
                reading: reading.ended(index, ReadState::NotRead),
            },
            (Phase::Verify { verifying }, TaskEvent::BlockLost { .. }) => Phase::Verify {
                verifying: verifying.lost(),
            },
            (Phase::AskBlock { comparing }, TaskEvent::BlockAskedFor) => {
                Phase::AwaitBlock { comparing }
            }
            (Phase::AskBlock { comparing }, TaskEvent::BlockLost { .. }) => {
                Phase::failed(Sense::READ_ERROR, comparing.offset())
            }
            (Phase::AwaitBlock { comparing }, TaskEvent::BlockSame) => comparing.same(),
            (Phase::AwaitBlock { comparing }, TaskEvent::BlockDiffers) => comparing.differs(),
            (Phase::SendBlocks { sending }, TaskEvent::BlockSent) => Phase::sent(sending),
            (Phase::SendBlocks { sending }, TaskEvent::BlockLost { .. }) => {
                Phase::failed(Sense::READ_ERROR, sending.offset())
            }
            (Phase::SendHeld { length }, TaskEvent::DataSent) => Phase::good(length),
            (phase, _) => phase,
        }
    }
}

/// An open task.
#[derive(Clone, Copy, Debug, PartialEq, Eq)]
pub struct Task {
    pub tag: u8,
    pub lun: u8,
    pub expected: u32,
    pub phase: Phase,
    pub frames: Frames,
    /// The RPMB region to which it brings frames; 0 where it brings none.
    pub region: u8,
}

/// The response code of a query that failed for no reason of its own (JESD220, 10.7.9).
const GENERAL_FAILURE: u8 = 0xFF;

/// An exchange of one reply that was not handed out yet.
#[derive(Clone, Copy, Debug, PartialEq, Eq)]
pub struct Short {
    pub tag: u8,
    /// The number of the group that is durable before the reply is due; `None` where it is due at once.
    pub awaits: Option<u64>,
    pub reply: ShortReply,
}

impl Short {
    /// The number by which it is found.
    pub fn number(self) -> u16
        ensures { result ≡ number_in self }
    {
        number_of(self.reply.manages(), self.tag)
    }

    /// Whether its reply is due, where each group up to this number is durable.
    pub fn is_due(self, frontier: u64) -> bool
        ensures { result ≡ is_short_due frontier self }
    {
        match self.awaits {
            None => true,
            Some(number) => number <= frontier,
        }
    }

    /// The exchange after the device was locked, where each group up to this number is durable: what
    /// waits for a later one has failed.
    pub fn locked(self, frontier: u64) -> Short
        ensures { result ≡ short_locked frontier self }
    {
        if self.is_due(frontier) {
            self
        } else {
            Short {
                tag: self.tag,
                awaits: None,
                reply: self.reply.locked(),
            }
        }
    }
}

/// What a query asked, as far as its answer says it again (JESD220, 10.7.9).
#[derive(Clone, Copy, Debug, PartialEq, Eq)]
pub struct Queried {
    /// Whether its function is standard write (81h), and not standard read (01h).
    pub writing: bool,
    /// The opcode with IDN, index and selector.
    pub asked: Asked,
    /// How many bytes of a descriptor were asked for.
    pub length: u16,
}

/// What the reply of a short exchange says.
#[derive(Clone, Copy, Debug, PartialEq, Eq)]
pub enum ShortReply {
    /// TASK SET FULL, to a COMMAND of this unit that expected so many bytes (JESD220, 10.7.2).
    TaskSetFull { lun: u8, expected: u32 },
    /// A NOP IN (JESD220, 10.7.12).
    NopIn,
    /// The service response to a task management request about this LUN (JESD220, 10.7.7).
    Managed { lun: u8, service: u8 },
    /// A query is answered with this response code and tells nothing (JESD220, 10.7.9).
    QueryFailed { query: Queried, response: u8 },
    /// A query succeeded: it tells the descriptor that it asked for, or this value (JESD220, 10.7.9).
    QueryDone { query: Queried, value: u32 },
}

/// The number by which an exchange is found: its tag, and 256 more if it is of task management, which has
/// tags of its own (SAM).
pub fn number_of(manages: bool, tag: u8) -> u16
    ensures { result ≡ number_of manages tag }
{
    if manages {
        256 + u16::from(tag)
    } else {
        u16::from(tag)
    }
}

impl ShortReply {
    /// Whether it answers a task management request.
    pub fn manages(self) -> bool
        ensures { result ≡ manages self }
    {
        matches!(self, ShortReply::Managed { .. })
    }

    /// What is said in its place where a lock ends the exchange: a setting is told a general failure.
    pub fn locked(self) -> ShortReply
        ensures { result ≡ reply_locked self }
    {
        match self {
            ShortReply::QueryDone { query, value: _ } => ShortReply::QueryFailed {
                query,
                response: GENERAL_FAILURE,
            },
            reply => reply,
        }
    }
}

/// What a task asks its host for: data for this purpose, of a command of so many bytes; so many came.
#[derive(Clone, Copy, Debug, PartialEq, Eq)]
pub struct Wanted {
    pub purpose: Purpose,
    pub length: u32,
    pub came: u32,
}

impl Wanted {
    /// How many bytes are asked for: a block of a WRITE, or all at once.
    pub fn count(self) -> u32
        ensures { result ≡ wanted_count self }
    {
        match self.purpose {
            Purpose::ForWrite { .. } => BLOCK_BYTES,
            Purpose::ForUnmap { .. } | Purpose::ForFrames { .. } => self.length,
        }
    }

    /// How many bytes are to come in all: those of the blocks of a WRITE that are taken, or all of the
    /// command.
    fn total(self) -> u32
        ensures { result ≡ to_gather self.purpose self.length }
    {
        match self.purpose {
            Purpose::ForWrite { blocks, .. } => BLOCK_BYTES * blocks as u32,
            Purpose::ForUnmap { .. } | Purpose::ForFrames { .. } => self.length,
        }
    }

    /// Whether so many bytes at this offset are what was asked for.
    pub fn is(self, offset: u32, count: usize) -> bool
        ensures { result ≡ is_wanted self offset count }
    {
        self.came == offset && count == self.count() as usize
    }

    /// Which block of the data is asked for, counted from 0, in 16 bits.
    pub fn block(self) -> u16
        ensures { result ≡ wanted_block self }
    {
        (self.came / BLOCK_BYTES % INDEXES) as u16
    }

    /// What is asked for once a block more came; `None` if that was the last.
    pub fn next(self) -> Option<Wanted>
        ensures { result ≡ next_wanted self }
    {
        if self.total().saturating_sub(self.came) > BLOCK_BYTES {
            Some(Wanted {
                purpose: self.purpose,
                length: self.length,
                came: self.came + BLOCK_BYTES,
            })
        } else {
            None
        }
    }

    /// How far a task is that awaited this, after this happened.
    fn came(self, event: TaskEvent) -> Phase
        ensures { result ≡ came self event }
    {
        let length = self.length;
        match event {
            TaskEvent::BlockGathered => Phase::gathered(self),
            TaskEvent::GroupAccepted { number } => {
                Phase::accepted(is_forced(self.purpose), number, length)
            }
            TaskEvent::DataRefused { sense } => Phase::failed(sense, length),
            TaskEvent::DataTaken | TaskEvent::RequestAnswered { .. } => Phase::good(length),
            TaskEvent::RequestAccepted { number, .. } => Phase::AwaitFrontier { number, length },
            TaskEvent::AreaAsked { address, count, .. } => Phase::ReadArea {
                reading: AreaReading::new(address, count, length),
            },
            _ => Phase::Await { wanted: self },
        }
    }
}

/// Whether the data are for a WRITE with FUA.
fn is_forced(purpose: Purpose) -> bool
    ensures { result ≡ is_forced purpose }
{
    match purpose {
        Purpose::ForWrite { forced, .. } => forced,
        Purpose::ForUnmap { .. } | Purpose::ForFrames { .. } => false,
    }
}

/// The tasks that a task management request (JESD220, 10.7.6) or a reset of the link is about: those of this
/// LUN byte or of each, all of them or the one with this tag.
#[derive(Clone, Copy, Debug, PartialEq, Eq)]
pub struct Meant {
    pub lun: Option<u8>,
    pub tag: Option<u8>,
}

/// Whether the number is the one that is meant, a LUN byte or a tag; without one all are.
fn is_any_meant(meant: Option<u8>, number: u8) -> bool
    ensures { result ≡ is_any_meant meant number }
{
    match meant {
        Some(meant) => meant == number,
        None => true,
    }
}

impl Meant {
    /// Whether a task of this LUN byte and tag is one of them.
    pub fn is(self, lun: u8, tag: u8) -> bool
        ensures { result ≡ is_meant self lun tag }
    {
        is_any_meant(self.lun, lun) && is_any_meant(self.tag, tag)
    }
}

/// A task whose data came: its position among the open tasks, and what it had asked for.
#[derive(Clone, Copy, Debug, PartialEq, Eq)]
pub struct AskedFor {
    pub index: usize,
    pub wanted: Wanted,
}

/// A VERIFY for which a block came: its position among the open tasks, and how far it is.
#[derive(Clone, Copy, Debug, PartialEq, Eq)]
pub struct ComparedWith {
    pub index: usize,
    pub comparing: Comparing,
}
