//! The commands of a host, each with the answers that it has to get, as docs/FORMATS.md lays them
//! out.
use crate::kept::UNIT;
use crate::player::Player;
use ufs_spec::Tag;
use workbench::messages::{
    FUA, READ, SYNCHRONIZE, WRITE, block_out, command, data_out, good, is_block, ready, unmap,
    unmap_list,
};

/// The task tags.
const WRITING: u8 = 1;

const CLEARING: u8 = 2;

const FLUSHING: u8 = 3;

const ASKING: u8 = 4;

const READING: u8 = 5;

/// A RESPONSE with CHECK CONDITION: how many of the bytes that the host expects were not carried,
/// sense key and additional sense code.
fn refusal(tag: u8, residual: u32, key: u8, code: u8) -> [u8; 52] {
    let mut bytes = [0; 52];
    bytes[0] = 0x21;
    bytes[1] = 0x20;
    bytes[3] = tag;
    bytes[6] = 1;
    bytes[7] = 2;
    bytes[11] = 0x14;
    bytes[12..16].copy_from_slice(&residual.to_be_bytes());
    bytes[33] = 0x12;
    bytes[34] = 0x70;
    bytes[36] = key;
    bytes[41] = 0x0A;
    bytes[46] = code;
    bytes
}

/// The READY TO TRANSFER that asks for a list of 24 bytes.
fn list_ready(tag: u8) -> [u8; 32] {
    let mut bytes = [0; 32];
    bytes[0] = 0x31;
    bytes[3] = tag;
    bytes[19] = 24;
    bytes
}

/// A QUERY REQUEST or a QUERY RESPONSE: function, opcode, IDN and value.
fn query(code: u8, function: u8, opcode: u8, idn: u8, value: u8) -> [u8; 32] {
    let mut bytes = [0; 32];
    bytes[0] = code;
    bytes[3] = ASKING;
    bytes[5] = function;
    bytes[12] = opcode;
    bytes[13] = idn;
    bytes[23] = value;
    bytes
}

impl Player {
    /// Hands the device a message: whether it takes it.
    pub fn sends(&mut self, message: &[u8]) -> bool {
        if let Some(script) = &mut self.script {
            script.host(message);
        }
        self.bench.send(message).is_ok()
    }

    /// Takes the reply that is due: whether it is this one.
    pub fn hears(&mut self, reply: &[u8]) -> bool {
        self.note(b"reply\n");
        self.bench.hears(reply)
    }

    /// The next reply, after as much work as it needs: whether it is this one.
    pub fn waits_for(&mut self, reply: &[u8]) -> bool {
        self.waits() && self.has_heard(reply)
    }

    /// Whether the reply that was taken last is this one.
    fn has_heard(&self, reply: &[u8]) -> bool {
        self.bench.reply.as_slice() == reply
    }

    /// The device asks for a block of a WRITE, and gets equal bytes.
    fn sends_block(&mut self, offset: u32, byte: u8) -> bool {
        if !self.hears(&ready(WRITING, offset)) {
            return false;
        }
        if let Some(script) = &mut self.script {
            script.fill(&data_out(WRITING, offset), byte);
        }
        self.bench.send(&block_out(WRITING, offset, byte)).is_ok()
    }

    /// A WRITE of so many blocks from this address on, the first of this byte and each other one of
    /// the next one, up to its answer.
    fn begins_write(&mut self, address: u32, blocks: u16, first: u8, second: u8) -> bool {
        if !self.sends(&command(WRITING, WRITE, second, address, blocks)) {
            return false;
        }
        let mut byte = first;
        for block in 0..u32::from(blocks) {
            if !self.sends_block(block * 4096, byte) {
                return false;
            }
            self.kept.set_block(address.saturating_add(block), byte);
            byte = byte.wrapping_add(1);
        }
        true
    }

    /// A WRITE without FUA, which is answered GOOD at once.
    pub fn writes(&mut self, address: u32, blocks: u16, first: u8) -> bool {
        self.begins_write(address, blocks, first, 0) && self.hears(&good(WRITING))
    }

    /// A WRITE with FUA, which is answered GOOD.
    pub fn forces(&mut self, address: u32, blocks: u16, first: u8) -> bool {
        self.begins_write(address, blocks, first, FUA) && self.waits_for(&good(WRITING))
    }

    /// A WRITE of one block that is refused, since the unit is protected.
    pub fn is_protected(&mut self) -> bool {
        self.sends(&command(WRITING, WRITE, 0, 0, 1))
            && self.hears(&refusal(WRITING, 4096, 7, 0x27))
    }

    /// An UNMAP of so many blocks, which is answered GOOD at once.
    pub fn clears(&mut self, address: u32, blocks: u16) -> bool {
        let is_good = self.sends(&unmap(CLEARING))
            && self.hears(&list_ready(CLEARING))
            && self.sends(&unmap_list(CLEARING, address, blocks))
            && self.hears(&good(CLEARING));
        for block in 0..u32::from(blocks) {
            self.kept.set_block(address.saturating_add(block), 0);
        }
        is_good
    }

    /// A SYNCHRONIZE CACHE, which is answered GOOD.
    pub fn flushes(&mut self) -> bool {
        self.sends(&command(FLUSHING, SYNCHRONIZE, 0, 0, 0)) && self.waits_for(&good(FLUSHING))
    }

    /// A query that is answered with the response 00h: its function, opcode and IDN, the value in
    /// it, and the value in the answer.
    fn asks(&mut self, function: u8, opcode: u8, idn: u8, asked: u8, told: u8) -> bool {
        self.sends(&query(0x16, function, opcode, idn, asked))
            && self.waits_for(&query(0x36, function, opcode, idn, told))
    }

    /// bBootLunEn becomes this.
    pub fn sets_boot(&mut self, boot: u8) -> bool {
        self.kept.boot = boot;
        self.asks(0x81, 0x04, 0, boot, boot)
    }

    /// fPermanentWPEn is set.
    pub fn sets_permanent(&mut self) -> bool {
        self.kept.is_permanent = true;
        self.asks(0x81, 0x06, 2, 0, 1)
    }

    /// Both settings are as they were set.
    pub fn has_settings(&mut self) -> bool {
        let (boot, is_permanent) = (self.kept.boot, u8::from(self.kept.is_permanent));
        self.asks(0x01, 0x03, 0, 0, boot) && self.asks(0x01, 0x05, 2, 0, is_permanent)
    }

    /// Whether a page of this kind with an address from this one to that one could not be read
    /// while the command waited that asks for it: then its host is told so.
    pub fn is_lost(&mut self, kind: u8, first: u32, last: u32) -> bool {
        match self.lost {
            Some((found, address)) if found == kind && first <= address && address <= last => {
                self.told = self.told.saturating_add(1);
                true
            }
            _ => false,
        }
    }

    /// A READ of so many blocks, each of which is as the host knows it. Where a page of it could
    /// not be read the blocks before come, and a read error.
    pub fn reads(&mut self, address: u32, blocks: u16) -> bool {
        self.lost = None;
        if !self.sends(&command(READING, READ, 0, address, blocks)) {
            return false;
        }
        for block in 0..u32::from(blocks) {
            let at = address.saturating_add(block);
            if !self.waits() {
                return false;
            }
            if self.is_lost(Tag::DATA, at, at) {
                let rest = (u32::from(blocks) - block) * 4096;
                return self.has_heard(&refusal(READING, rest, 3, 0x11));
            }
            let byte = self.kept.block(at);
            if !is_block(self.bench.reply.as_slice(), READING, block * 4096, byte) {
                return false;
            }
        }
        self.hears(&good(READING))
    }

    /// Each block of the unit is as the host knows it.
    pub fn has_blocks(&mut self) -> bool {
        for part in 0..UNIT / 4 {
            if !self.reads(part * 4, 4) {
                return false;
            }
        }
        true
    }
}
