//! Writes and reads of single blocks of unit 0, one at a time.
use crate::Workbench;
use row_messages::messages::{FUA, READ, WRITE, block_out, command, good, is_block, ready};

/// The task tags of the writes and of the reads.
const WRITING: u8 = 7;

const READING: u8 = 8;

impl Workbench {
    /// Takes the reply that is due: whether it is this one.
    pub fn hears(&mut self, reply: &[u8]) -> bool {
        self.hear() && self.reply.as_slice() == reply
    }

    /// A FUA write of one block of equal bytes, up to its data: whether the device takes it.
    pub fn begins_write(&mut self, address: u32, byte: u8) -> bool {
        self.send(&command(WRITING, WRITE, FUA, address, 1)).is_ok()
            && self.hears(&ready(WRITING, 0))
            && self.send(&block_out(WRITING, 0, byte)).is_ok()
    }

    /// Whether the reply that was taken last is the GOOD of a write.
    pub fn has_written(&self) -> bool {
        self.reply.as_slice() == good(WRITING).as_slice()
    }

    /// A FUA write of one block of equal bytes: whether it is answered GOOD within 1,024 rounds.
    pub fn writes(&mut self, address: u32, byte: u8) -> bool {
        if !self.begins_write(address, byte) {
            return false;
        }
        for _ in 0..1024u16 {
            self.settle(1, 4);
            if self.hear() {
                return self.has_written();
            }
        }
        false
    }

    /// A READ of one block: whether these equal bytes come, then GOOD, and then nothing.
    pub fn reads(&mut self, address: u32, byte: u8) -> bool {
        self.send(&command(READING, READ, 0, address, 1)).is_ok()
            && self.hear_after_work(0)
            && is_block(self.reply.as_slice(), READING, 0, byte)
            && self.hears(&good(READING))
            && !self.hear()
    }
}
