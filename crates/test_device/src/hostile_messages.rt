//! Messages that a device refuses, each for its lowest fault. Spellings and the numbers of faults
//! are those of the device's formats. Two devices have one host, but only the first of them hears
//! what is refused. Both answer alike then, and in the end their dies hold the same.
use crate::answers::WRITE_FAILED;
use crate::dies::{at_rest, small, small_dies};
use crate::players::page_of;
use std::alloc::Global;
use std::process::Abort;
use ufs_spec::{Place, Upiu};
use workbench::Workbench;
use workbench::messages::{FUA, WRITE, block_out, command, good, ready};

/// The numbers of the faults.
const SHORT: u8 = 1;

const LENGTH: u8 = 2;

const CODE: u8 = 5;

const RESERVED: u8 = 6;

const NOT_ASKED_FOR: u8 = 8;

/// The tag of the write. All else has the tag 09.
const WRITING: u8 = 7;

/// The message of 32 bytes with these at their places, and zeros elsewhere.
fn spelled(bytes: &[(usize, u8)]) -> [u8; 32] {
    let mut message = [0; 32];
    for (place, byte) in bytes {
        if *place < 32 {
            message[*place] = *byte;
        }
    }
    message
}

/// The message with these bits of one byte turned over.
fn turned(message: &[u8], place: usize, bits: u8) -> Upiu {
    let mut wrong = Upiu::new();
    let _ = wrong.try_extend_from_slice(message);
    let all = wrong.as_mut_slice();
    if place < all.len() {
        all[place] ^= bits;
    }
    wrong
}

/// Two devices over dies that hold the same.
#[derive(Drop)]
struct Pair {
    /// The device that hears what is refused.
    tried: Workbench,
    /// The device that never does.
    spared: Workbench,
}

impl Pair {
    fn new(rt: &impl Abort, alloc: Global) -> Pair {
        Pair {
            tried: at_rest(rt, alloc, small(rt), small_dies(rt, alloc)),
            spared: at_rest(rt, alloc, small(rt), small_dies(rt, alloc)),
        }
    }

    /// Only the first device hears the message, and refuses it for the fault with this number.
    fn refuses(&mut self, rt: &impl Abort, message: &[u8], number: u8) {
        let told = match self.tried.send(message) {
            Ok(()) => 0,
            Err(fault) => fault as u8,
        };
        assert!(rt; told == number);
    }

    /// The same of each message that has one bit of one of these bytes turned over: of those from
    /// the first number of a pair up to the second.
    fn refuses_bits(&mut self, rt: &impl Abort, message: &[u8], zeros: &[(usize, usize)]) {
        for (first, end) in zeros {
            self.refuses_bytes(rt, message, *first, *end);
        }
    }

    fn refuses_bytes(&mut self, rt: &impl Abort, message: &[u8], first: usize, end: usize) {
        for place in first..end {
            self.refuses_byte(rt, message, place);
        }
    }

    fn refuses_byte(&mut self, rt: &impl Abort, message: &[u8], place: usize) {
        for bit in [1, 2, 4, 8, 16, 32, 64, 128u8] {
            self.refuses(rt, turned(message, place, bit).as_slice(), RESERVED);
        }
    }

    /// Both devices take the message.
    fn send(&mut self, rt: &impl Abort, message: &[u8]) {
        assert!(rt; self.tried.send(message).is_ok());
        assert!(rt; self.spared.send(message).is_ok());
    }

    /// This reply is due, and no other.
    fn hears(&mut self, rt: &impl Abort, reply: &[u8]) {
        assert!(rt; self.tried.hears(reply) && !self.tried.hear());
        assert!(rt; self.spared.hears(reply) && !self.spared.hear());
    }

    /// A message whose bits in these bytes have to be zero is refused with each of them, and then
    /// taken and answered.
    fn takes_only(
        &mut self,
        rt: &impl Abort,
        message: &[u8],
        zeros: &[(usize, usize)],
        answer: &[u8],
    ) {
        self.refuses_bits(rt, message, zeros);
        self.send(rt, message);
        self.hears(rt, answer);
    }

    /// A WRITE with FUA at address 3 of unit 0 is begun.
    fn begin(&mut self, rt: &impl Abort, blocks: u16) {
        self.send(rt, &command(WRITING, WRITE, FUA, 3, blocks));
    }

    /// Its data came: it is answered GOOD, and the first blocks from address 3 on are read back.
    fn end(&mut self, rt: &impl Abort, written: &[u8]) {
        self.tried.settle(4, 2);
        self.spared.settle(4, 2);
        self.hears(rt, &good(WRITING));
        for (number, byte) in written.iter().take(32).enumerate() {
            let address = 3 + number as u32;
            assert!(rt; self.tried.reads(address, *byte) && self.spared.reads(address, *byte));
        }
        self.expect_alike(rt);
    }

    /// The dies of both hold the same: two of 20 blocks of 16 pages.
    fn expect_alike(&self, rt: &impl Abort) {
        for number in 0..640u16 {
            let place = Place {
                die: if number < 320 { 0 } else { 1 },
                block: number % 320 / 16,
                page: number % 16,
            };
            let found = page_of(rt, self.tried.dies.as_slice(), place);
            assert!(rt; found == page_of(rt, self.spared.dies.as_slice(), place));
        }
    }
}

/// A message cut to fewer than 32 bytes; and one of 33 bytes, though HD is set too.
#[test]
fn a_message_of_a_wrong_length_is_refused(rt: HostRuntime) {
    let mut pair = Pair::new(&rt, rt.alloc());
    let message = command(WRITING, WRITE, FUA, 3, 1);
    for length in 0..32usize {
        pair.refuses(&rt, &message[..length], SHORT);
    }
    let mut long = [0; 33];
    long[0] = 0x80;
    pair.refuses(&rt, &long, LENGTH);
    pair.begin(&rt, 1);
    pair.hears(&rt, &ready(WRITING, 0));
    pair.send(&rt, &block_out(WRITING, 0, 0x44));
    pair.end(&rt, &[0x44]);
    drop(pair);
}

/// What a device sends is refused from a host, each kind in its right spelling.
#[test]
fn a_message_of_a_device_is_refused(rt: HostRuntime) {
    let mut pair = Pair::new(&rt, rt.alloc());
    pair.begin(&rt, 1);
    pair.hears(&rt, &ready(WRITING, 0));
    let mut data = block_out(WRITING, 0, 0x44);
    data[0] = 0x22;
    pair.refuses(&rt, &data, CODE);
    pair.refuses(&rt, &good(WRITING), CODE);
    pair.refuses(&rt, &WRITE_FAILED, CODE);
    pair.refuses(&rt, &ready(WRITING, 0), CODE);
    // NOP IN, TASK MANAGEMENT RESPONSE and QUERY RESPONSE.
    pair.refuses(&rt, &spelled(&[(0, 0x20), (3, 9)]), CODE);
    pair.refuses(&rt, &spelled(&[(0, 0x24), (3, 9), (15, 8)]), CODE);
    let flag = [(0, 0x36), (3, 9), (5, 1), (12, 5), (13, 1)];
    pair.refuses(&rt, &spelled(&flag), CODE);
    pair.send(&rt, &block_out(WRITING, 0, 0x44));
    pair.end(&rt, &[0x44]);
    drop(pair);
}

/// Each kind of a host, with each bit set that has to be zero, but for those of bytes 0, 8, 10 and
/// 11, which have faults of their own.
#[test]
fn each_bit_that_has_to_be_zero_is_refused(rt: HostRuntime) {
    let mut pair = Pair::new(&rt, rt.alloc());
    pair.begin(&rt, 1);
    pair.hears(&rt, &ready(WRITING, 0));
    // NOP OUT, and TEST UNIT READY.
    let nop = [(1, 3), (4, 8), (9, 10), (12, 32)];
    let told = spelled(&[(0, 0x20), (3, 9)]);
    pair.takes_only(&rt, &spelled(&[(3, 9)]), &nop, &told);
    let zeros = [(4, 8), (9, 10)];
    pair.takes_only(&rt, &spelled(&[(0, 1), (3, 9)]), &zeros, &good(9));
    // The function that asks whether a task of unit 0 is open: the write is.
    let asked = spelled(&[(0, 4), (3, 9), (5, 0x81)]);
    let task = [
        (1, 2),
        (4, 5),
        (6, 8),
        (9, 10),
        (12, 15),
        (16, 19),
        (20, 32),
    ];
    let told = spelled(&[(0, 0x24), (3, 9), (15, 8)]);
    pair.takes_only(&rt, &asked, &task, &told);
    // The query for fDeviceInit, which is 0.
    let asked = spelled(&[(0, 0x16), (3, 9), (5, 1), (12, 5), (13, 1)]);
    let query = [(1, 3), (4, 5), (6, 8), (9, 10), (16, 18), (24, 32)];
    let told = spelled(&[(0, 0x36), (3, 9), (5, 1), (12, 5), (13, 1)]);
    pair.takes_only(&rt, &asked, &query, &told);
    let data = block_out(WRITING, 0, 0x44);
    pair.refuses_bits(&rt, &data, &[(1, 2), (4, 8), (9, 10), (20, 32)]);
    pair.send(&rt, &data);
    pair.end(&rt, &[0x44]);
    drop(pair);
}

/// A query that writes a descriptor of five bytes, with three of padding.
fn five_bytes() -> [u8; 40] {
    let mut asked = [0; 40];
    asked[..32].copy_from_slice(&spelled(&[(0, 0x16), (3, 9), (5, 0x81), (11, 5), (12, 2)]));
    asked[32..37].copy_from_slice(&[1, 2, 3, 4, 5]);
    asked
}

/// The query that writes a descriptor brings five bytes, with three of padding, of which each bit
/// has to be zero. It is answered that the descriptor may not be written.
#[test]
fn each_bit_of_padding_is_refused(rt: HostRuntime) {
    let mut pair = Pair::new(&rt, rt.alloc());
    let told = spelled(&[(0, 0x36), (3, 9), (5, 0x81), (6, 0xF7), (12, 2)]);
    pair.takes_only(&rt, &five_bytes(), &[(37, 40)], &told);
    pair.expect_alike(&rt);
    drop(pair);
}

/// Bits that may be set each, but not so: two directions of a COMMAND, another LUN at the end of a
/// TASK MANAGEMENT REQUEST, and a query that neither reads nor writes.
#[test]
fn a_field_outside_its_set_is_refused(rt: HostRuntime) {
    let mut pair = Pair::new(&rt, rt.alloc());
    pair.refuses(&rt, &spelled(&[(0, 1), (1, 0x60), (3, 9)]), RESERVED);
    pair.refuses(
        &rt,
        &spelled(&[(0, 4), (3, 9), (5, 0x81), (15, 1)]),
        RESERVED,
    );
    pair.refuses(
        &rt,
        &spelled(&[(0, 0x16), (3, 9), (5, 0x80), (12, 5), (13, 1)]),
        RESERVED,
    );
    pair.send(&rt, &spelled(&[(0, 0), (3, 9)]));
    pair.hears(&rt, &spelled(&[(0, 0x20), (3, 9)]));
    pair.expect_alike(&rt);
    drop(pair);
}

/// A DATA OUT of 512 bytes, where a whole block is asked for.
fn part_of_block() -> [u8; 544] {
    let mut message = [0x44; 544];
    message[..32].copy_from_slice(&spelled(&[(0, 2), (3, WRITING), (10, 2), (18, 2)]));
    message
}

/// A write of two blocks: before its READY TO TRANSFER was handed out and once its data came, no
/// data are asked for, and in between only those with its tag, LUN, offset and count.
#[test]
fn data_that_nothing_asks_for_are_refused(rt: HostRuntime) {
    let mut pair = Pair::new(&rt, rt.alloc());
    let first = block_out(WRITING, 0, 0x44);
    let second = block_out(WRITING, 4096, 0x55);
    pair.begin(&rt, 2);
    pair.refuses(&rt, &first, NOT_ASKED_FOR);
    pair.hears(&rt, &ready(WRITING, 0));
    pair.refuses(&rt, &second, NOT_ASKED_FOR);
    pair.refuses(&rt, &block_out(WRITING, 1, 0x44), NOT_ASKED_FOR);
    pair.refuses(&rt, &block_out(9, 0, 0x44), NOT_ASKED_FOR);
    pair.refuses(&rt, turned(&first, 2, 1).as_slice(), NOT_ASKED_FOR);
    pair.refuses(&rt, &part_of_block(), NOT_ASKED_FOR);
    pair.send(&rt, &first);
    pair.refuses(&rt, &first, NOT_ASKED_FOR);
    pair.refuses(&rt, &second, NOT_ASKED_FOR);
    pair.hears(&rt, &ready(WRITING, 4096));
    pair.refuses(&rt, &first, NOT_ASKED_FOR);
    pair.send(&rt, &second);
    pair.refuses(&rt, &second, NOT_ASKED_FOR);
    pair.end(&rt, &[0x44, 0x55]);
    drop(pair);
}
