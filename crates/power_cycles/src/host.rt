//! What the host does in a life: it waits until the device is mended, writes and reads.
use crate::fault::{Fault, Wait};
use crate::kept::{Begun, Kept};
use crate::player::{Player, Round, Stop};
use workbench::messages::{FUA, READ, WRITE, block_out, command, data_out, good, ready};

/// The host waits so many rounds of a turn and a job of each die, and not longer. A mending is a mark, a repair
/// of each lost address and a mark, and the collections that give room to them; a device of 8 dies has 128 blocks
/// of 16 pages here, so this is enough to copy all of its pages once.
const MOST_ROUNDS: u32 = 4096;

/// The task tags.
const ASKING: u8 = 6;

const WRITING: u8 = 7;

const READING: u8 = 8;

const OPEN: [u8; 3] = [9, 10, 11];

/// So many blocks each READ has that stays open, and so many they have together.
const EACH_OPEN: u16 = 4;

pub const OPEN_BLOCKS: u32 = 12;

/// The transaction code of DATA IN, in byte 0 of a message.
const DATA_IN: u8 = 0x22;

/// The operation code of TEST UNIT READY, whose other bytes are zero.
const TEST_UNIT_READY: u8 = 0;

/// The DATA OUT of a block with this stamp: in its first four bytes, and a byte of it in all others. Stamp 0 is
/// a block of zeros.
fn stamped(stamp: u32, offset: u32) -> [u8; 4128] {
    let mut message = block_out(WRITING, offset, (stamp % 251) as u8);
    message[32..36].copy_from_slice(&stamp.to_be_bytes());
    message
}

/// Whether the reply is the DATA IN of the block with this stamp.
fn is_stamped(reply: &[u8], stamp: u32) -> bool {
    let mut wanted = stamped(stamp, 0);
    let head = data_out(READING, 0);
    for index in 0..32usize {
        wanted[index] = head[index];
    }
    wanted[0] = DATA_IN;
    reply == wanted.as_slice()
}

/// The stamp of the block that was read; `None` where it is no block with a stamp.
fn stamp_of(reply: &[u8]) -> Option<u32> {
    let bytes = reply.get(32..36)?;
    let stamp = u32::from_be_bytes([bytes[0], bytes[1], bytes[2], bytes[3]]);
    if is_stamped(reply, stamp) {
        Some(stamp)
    } else {
        None
    }
}

impl Player {
    /// Whether the next reply is this one. None counts as another.
    fn hears(&mut self, reply: &[u8]) -> Result<bool, Fault> {
        match self.hear()? {
            Some(heard) => Ok(heard.as_slice() == reply),
            None => Ok(false),
        }
    }

    /// Whether the device is mended, as TEST UNIT READY tells.
    fn is_ready(&mut self) -> Result<bool, Fault> {
        let message = command(ASKING, TEST_UNIT_READY, 0, 0, 0);
        Ok(self.send(&message)? && self.hears(&good(ASKING))?)
    }

    /// Waits until the device is mended: after how many rounds it is, or `None` where the stop is due first.
    pub fn mend(&mut self, stop: Stop) -> Result<Option<u32>, Fault> {
        for rounds in 0..MOST_ROUNDS {
            if self.is_ready()? {
                return Ok(Some(rounds));
            }
            match self.round(stop)? {
                Round::Due => return Ok(None),
                Round::Worked => {}
                Round::Idle => return Err(Fault::Stuck(Wait::Mending)),
            }
        }
        Err(Fault::Stuck(Wait::Mending))
    }

    /// Waits for the GOOD of the write that was begun: whether it comes, or the stop is due first.
    fn wait_for_good(&mut self, stop: Stop) -> Result<bool, Fault> {
        for _ in 0..MOST_ROUNDS {
            if let Some(reply) = self.hear()? {
                let is_good = reply.as_slice() == good(WRITING).as_slice();
                return if is_good {
                    Ok(true)
                } else {
                    Err(Fault::Stuck(Wait::Writing))
                };
            }
            match self.round(stop)? {
                Round::Due => return Ok(false),
                Round::Worked => {}
                Round::Idle => return Err(Fault::Stuck(Wait::Writing)),
            }
        }
        Err(Fault::Stuck(Wait::Writing))
    }

    /// The data of a WRITE of so many blocks with this stamp: whether the device asks for each.
    fn send_blocks(&mut self, blocks: u32, stamp: u32) -> Result<bool, Fault> {
        for block in 0..blocks {
            let offset = block.wrapping_mul(4096);
            let is_asked = self.hears(&ready(WRITING, offset))?;
            if !is_asked || !self.send(&stamped(stamp, offset))? {
                return Ok(false);
            }
        }
        Ok(true)
    }

    /// A WRITE of so many blocks with this stamp, up to its data; without FUA it is answered GOOD.
    fn send_write(&mut self, address: u32, blocks: u32, stamp: u32, fua: u8) -> Result<(), Fault> {
        let message = command(WRITING, WRITE, fua, address, (blocks % 32) as u16);
        let is_good = self.send(&message)?
            && self.send_blocks(blocks, stamp)?
            && (fua == FUA || self.hears(&good(WRITING))?);
        if is_good {
            Ok(())
        } else {
            Err(Fault::Stuck(Wait::Writing))
        }
    }

    /// A FUA write of one block at this address: whether it is answered GOOD, or the stop is due first.
    pub fn write_at(&mut self, kept: &mut Kept, address: u32, stop: Stop) -> Result<bool, Fault> {
        let stamp = kept.begin(address, 1)?;
        self.send_write(address, 1, stamp, FUA)?;
        self.wait_for_all(kept, stop)
    }

    /// Waits until all that was begun is durable: whether it is, or the stop is due first.
    pub fn wait_for_all(&mut self, kept: &mut Kept, stop: Stop) -> Result<bool, Fault> {
        let is_good = self.wait_for_good(stop)?;
        if is_good {
            kept.end_all();
        }
        Ok(is_good)
    }

    /// So many WRITEs of one to four blocks, one straight after another, of which only the last has FUA: whether
    /// all are durable, or the stop is due first.
    pub fn write_batch(&mut self, kept: &mut Kept, count: u32, stop: Stop) -> Result<bool, Fault> {
        for index in 0..count {
            let blocks = kept.next_stamp() % 4 + 1;
            let address = kept.address_of(kept.next_stamp(), blocks);
            let stamp = kept.begin(address, blocks)?;
            let fua = if index.saturating_add(1) == count {
                FUA
            } else {
                0
            };
            self.send_write(address, blocks, stamp, fua)?;
        }
        self.wait_for_all(kept, stop)
    }

    /// Reads a block: its stamp, if it has one.
    fn read(&mut self, address: u32) -> Result<Option<u32>, Fault> {
        if !self.send(&command(READING, READ, 0, address, 1))? {
            return Err(Fault::Stuck(Wait::Reading));
        }
        for _ in 0..MOST_ROUNDS {
            if let Some(reply) = self.hear()? {
                let stamp = stamp_of(reply.as_slice());
                return Ok(if self.hears(&good(READING))? {
                    stamp
                } else {
                    None
                });
            }
            self.round(Stop::Never)?;
        }
        Err(Fault::Stuck(Wait::Reading))
    }

    /// READs of one stretch of blocks from this address on are begun. They stay open: nobody takes their replies.
    pub fn begin_reads(&mut self, address: u32) -> Result<(), Fault> {
        let mut first = address;
        for tag in OPEN {
            if !self.send(&command(tag, READ, 0, first, EACH_OPEN))? {
                return Err(Fault::Stuck(Wait::Reading));
            }
            first = first.wrapping_add(u32::from(EACH_OPEN));
        }
        Ok(())
    }

    /// Rounds until the stop is due, or until there is nothing to do.
    pub fn work_until(&mut self, stop: Stop) -> Result<(), Fault> {
        for _ in 0..MOST_ROUNDS {
            if self.round(stop)? != Round::Worked {
                return Ok(());
            }
        }
        Ok(())
    }

    /// A FUA write of this stamp is answered GOOD, and read.
    pub fn expect_written(&mut self, address: u32, stamp: u32) -> Result<(), Fault> {
        self.send_write(address, 1, stamp, FUA)?;
        self.wait_for_good(Stop::Never)?;
        if self.read(address)? == Some(stamp) {
            Ok(())
        } else {
            Err(Fault::Lost(address))
        }
    }

    /// Reads a block, which has the stamp of its last durable write, or of one that was begun behind it.
    pub fn expect(&mut self, kept: &mut Kept, address: u32) -> Result<(), Fault> {
        match self.read(address)? {
            Some(stamp) if kept.agrees(address, stamp) => Ok(()),
            _ => Err(Fault::Lost(address)),
        }
    }

    /// Reads the blocks of the WRITEs that were begun: the first so many of these are there, and no other.
    pub fn expect_begun(&mut self, kept: &mut Kept) -> Result<(), Fault> {
        for index in 0..kept.begun_count() {
            if let Some(begun) = kept.begun_at(index) {
                self.expect_blocks(kept, begun)?;
            }
        }
        kept.settle();
        Ok(())
    }

    /// Reads the blocks of this WRITE.
    fn expect_blocks(&mut self, kept: &mut Kept, begun: Begun) -> Result<(), Fault> {
        for block in 0..begun.blocks {
            self.expect(kept, begun.address.saturating_add(block))?;
        }
        Ok(())
    }
}
