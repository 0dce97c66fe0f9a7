//! Requests to the replay protected memory block under one key, each with the answer that it has to
//! get, as docs/FORMATS.md lays them out.
use crate::kept::AREA;
use crate::player::Player;
use rpmb_frame::frames_mac;
use ufs_spec::Tag;
use workbench::frames::{
    FrameBytes, Numbers, answer_command, frame, frames_command, frames_good, frames_in, frames_out,
    frames_ready,
};

/// The key.
const KEY: [u8; 32] = [0x0B; 32];

/// Where no key or MAC is.
const NONE: [u8; 32] = [0; 32];

/// The most frames that a request has.
const MOST: usize = 8;

/// The task tag.
const TAG: u8 = 6;

/// The types of requests, and of their responses.
const RESULT_READ: u16 = 0x0005;

const DATA_WRITE: u16 = 0x0003;

const DATA_WRITTEN: u16 = 0x0300;

const DATA_READ: u16 = 0x0004;

const DATA: u16 = 0x0400;

const COUNTER_READ: u16 = 0x0002;

const COUNTER: u16 = 0x0200;

/// The result of a request for a page that could not be read.
const READ_FAILURE: u16 = 6;

/// The request that programs the key.
pub(crate) fn key_request() -> FrameBytes {
    frame(&KEY, 0, numbers(1, 0, 0, 0))
}

/// The numbers of a frame of this type without a result.
fn numbers(kind: u16, counter: u32, address: u16, count: u16) -> Numbers {
    Numbers {
        counter,
        address,
        count,
        code: 0,
        kind,
    }
}

/// This byte, and after each one the next one.
pub(crate) fn rising(first: u8) -> [u8; MOST] {
    let mut bytes = [first; MOST];
    let mut byte = first;
    for each in bytes.iter_mut() {
        *each = byte;
        byte = byte.wrapping_add(1);
    }
    bytes
}

/// Frames with these numbers, whose data are equal bytes each. Of the first so many the last one
/// has their MAC.
pub(crate) fn signed_frames(
    bytes: &[u8; MOST],
    numbers: Numbers,
    count: usize,
) -> [FrameBytes; MOST] {
    let mut frames = [frame(&NONE, 0, numbers); MOST];
    for (each, byte) in frames.iter_mut().zip(bytes.iter()) {
        *each = frame(&NONE, *byte, numbers);
    }
    let used = count.clamp(1, MOST);
    let mac = frames_mac(&KEY, &frames[..used]);
    frames[used - 1][196..228].copy_from_slice(&mac);
    frames
}

impl Player {
    /// A request of these frames, which is answered GOOD.
    fn requests(&mut self, frames: &[FrameBytes]) -> bool {
        let count = frames.len();
        self.sends(&frames_command(TAG, count))
            && self.hears(&frames_ready(TAG, count))
            && self.sends(frames_out(TAG, frames).as_slice())
            && self.waits_for(&frames_good(TAG))
    }

    /// The response that waits is fetched: whether it is these frames.
    fn fetches(&mut self, frames: &[FrameBytes]) -> bool {
        self.sends(&answer_command(TAG, frames.len()))
            && self.hears(frames_in(TAG, frames).as_slice())
            && self.hears(&frames_good(TAG))
    }

    /// A request of one frame without data, whose response is one too.
    fn tells(&mut self, asked: Numbers, told: Numbers) -> bool {
        let response = signed_frames(&[0; MOST], told, 1);
        self.requests(&[frame(&NONE, 0, asked)]) && self.fetches(&response[..1])
    }

    /// The key is programmed.
    pub fn programs_key(&mut self) -> bool {
        self.requests(&[key_request()])
    }

    /// A write of 1 to 8 blocks of the area, the first of this byte and each other one of the next
    /// one. Its result says that it is done, and that the counter went up.
    pub fn writes_area(&mut self, address: u16, blocks: u16, first: u8) -> bool {
        let bytes = rising(first);
        let used = usize::from(blocks.clamp(1, 8));
        let asked = numbers(DATA_WRITE, self.kept.counter, address, blocks);
        let frames = signed_frames(&bytes, asked, used);
        for (block, byte) in (address..address.saturating_add(blocks)).zip(bytes.iter()) {
            self.kept.set_area_block(block, *byte);
        }
        self.kept.counter = self.kept.counter.saturating_add(1);
        self.requests(&frames[..used]) && self.has_result(address)
    }

    /// The result of the last write of the area.
    fn has_result(&mut self, address: u16) -> bool {
        let told = numbers(DATA_WRITTEN, self.kept.counter, address, 0);
        self.tells(numbers(RESULT_READ, 0, 0, 0), told)
    }

    /// The bytes of eight blocks of the area, as the host knows them.
    fn known_bytes(&self, address: u16) -> [u8; MOST] {
        let mut bytes = [0; MOST];
        for (each, block) in bytes.iter_mut().zip(address..address.saturating_add(8)) {
            *each = self.kept.area_block(block);
        }
        bytes
    }

    /// 1 to 8 blocks of the area are read, each as the host knows it. Where a page of them could
    /// not be read the response says so.
    pub fn reads_area(&mut self, address: u16, blocks: u16) -> bool {
        self.lost = None;
        let used = usize::from(blocks.clamp(1, 8));
        let asked = numbers(DATA_READ, 0, address, blocks);
        if !self.requests(&[frame(&NONE, 0, asked)]) {
            return false;
        }
        let last = address.saturating_add(blocks).saturating_sub(1);
        let mut told = numbers(DATA, 0, address, blocks);
        if self.is_lost(
            Tag::RPMB_AREA,
            u32::from(address / 16),
            u32::from(last / 16),
        ) {
            told.code = READ_FAILURE;
            return self.fetches(&signed_frames(&[0; MOST], told, 1)[..1]);
        }
        let frames = signed_frames(&self.known_bytes(address), told, used);
        self.fetches(&frames[..used])
    }

    /// The counter and the blocks of the area are as the host knows them.
    pub fn has_area(&mut self) -> bool {
        let counter = self.kept.counter;
        for part in 0..AREA / 8 {
            if !self.reads_area(part * 8, 8) {
                return false;
            }
        }
        self.tells(
            numbers(COUNTER_READ, 0, 0, 0),
            numbers(COUNTER, counter, 0, 0),
        )
    }
}
