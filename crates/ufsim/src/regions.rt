//! Reads by messages what the regions of the replay protected memory block hold (JESD220, 12.4).
ghost use Rattle.std.specs.Prelude.{◌≡◌, ◌∷◌, [], map, slice_get, Some};

use crate::fault::Word;
use crate::keys::Keys;
use crate::reading::{Visit, is_good, is_of};
use hmac_sha256::same_mac;
use journal::FoundRegion;
use rpmb_frame::codes::{
    COUNTER_EXPIRED, COUNTER_READ_REQUEST, COUNTER_READ_RESPONSE, DATA_READ_REQUEST,
    DATA_READ_RESPONSE, KEY_NOT_PROGRAMMED, OPERATION_OK,
};
use rpmb_frame::{Frame, frames_mac};
use std::alloc::Global;
use ufs_spec::codes::{COMMAND, DATA_IN, DATA_OUT, READY_TO_TRANSFER};
use ufs_spec::{Numbers, Upiu, write_u16};

/// The LUN byte of the replay protected memory block (JESD220, 10.8.5).
pub(crate) const RPMB: u8 = 0xC4;

/// The operation codes of SECURITY PROTOCOL IN and OUT (SPC), and the flags of their COMMANDs.
const SECURITY_IN: u8 = 0xA2;

const SECURITY_OUT: u8 = 0xB5;

const READS: u8 = 0x40;

const WRITES: u8 = 0x20;

/// How long a message is before its data.
const HEADER: usize = 32;

/// How many bytes a frame has.
const FRAME: u16 = 512;

/// How many blocks of 256 bytes a request asks for.
const BLOCKS: u16 = 8;

/// How many such requests the area has for each of its steps of 128 KiB.
const REQUESTS: u16 = 64;

/// What each request sends, for its response to repeat.
const NONCE: [u8; 16] = *b"after each stop!";

/// A region that is read: its number, its key, if one is set, and the steps of its area. One of no
/// steps is not there.
#[derive(Clone, Copy)]
pub(crate) struct Target {
    number: u8,
    key: Option<[u8; 32]>,
    steps: u8,
}

impl Target {
    fn new(number: u8, key: Option<[u8; 32]>, steps: u8) -> Target
        ensures { result ≡ record { number = number; key = key; steps = steps } }
    {
        Target { number, key, steps }
    }
}

/// The regions of a device with these numbers and these keys.
pub(crate) fn targets_of(numbers: &Numbers, keys: &Keys) -> [Target; 4]
    ensures numbers { map (λ target. target.number) result ≡ 0 ∷ 1 ∷ 2 ∷ 3 ∷ [] }
    ensures keys { map (λ target. target.key) result ≡ keys.now }
    ensures steps { map (λ target. target.steps) result ≡ numbers.now.rpmb }
{
    let steps = &numbers.rpmb;
    [
        Target::new(0, keys[0], steps[0]),
        Target::new(1, keys[1], steps[1]),
        Target::new(2, keys[2], steps[2]),
        Target::new(3, keys[3], steps[3]),
    ]
}

/// What was read of a region: its key, its counter, and under a key the bytes of its area.
#[derive(Drop)]
pub(crate) struct Region {
    key: Option<[u8; 32]>,
    counter: u32,
    area: Vec<u8>,
}

impl Region {
    // A region without a key. None of its area can be read.
    fn without_key(alloc: Global, counter: u32) -> Region {
        Region {
            key: None,
            counter,
            area: Vec::new(alloc),
        }
    }

    /// The same, for a comparison.
    pub fn found(&self) -> FoundRegion<'_>
        ensures key { result.key ≡ self.now.key }
        ensures counter { result.counter ≡ self.now.counter }
        ensures area { result.area.now ≡ self.now.area.items }
    {
        FoundRegion {
            key: self.key,
            counter: self.counter,
            area: self.area.as_slice(),
        }
    }
}

impl Visit {
    /// What each of these regions holds; `None` where a request is not answered rightly: under the
    /// key of its region, if one is set, else without a MAC. Of a region that is not there nothing
    /// is read.
    pub fn regions(&mut self, targets: &[Target; 4]) -> Result<Option<Vec<Region>>, Word> {
        let mut all = Vec::new(self.alloc);
        for target in targets {
            match self.region(target)? {
                Some(region) => all.push(region)?,
                None => return Ok(None),
            }
        }
        Ok(Some(all))
    }

    // What the region holds, if it is there.
    fn region(&mut self, target: &Target) -> Result<Option<Region>, Word> {
        if target.steps == 0 {
            return Ok(Some(Region::without_key(self.alloc, 0)));
        }
        let Some(frame) = self.counter_frame(target)? else {
            return Ok(None);
        };
        let counter = frame.write_counter;
        if frame.result == KEY_NOT_PROGRAMMED {
            return Ok(Some(Region::without_key(self.alloc, counter)));
        }
        let key = target.key;
        match key {
            Some(bytes) => Ok(
                self.area(target, &bytes)?
                    .map(|area| Region { key, counter, area }),
            ),
            None => Ok(None),
        }
    }

    // The response to a request for the counter.
    fn counter_frame(&mut self, target: &Target) -> Result<Option<Frame>, Word> {
        let asked = request(COUNTER_READ_REQUEST, 0, 0);
        let Some(answer) = self.response(target.number, &asked, FRAME)? else {
            return Ok(None);
        };
        let (frames, _) = data_of(&answer).as_chunks::<512>();
        let Some(bytes) = frames.first() else {
            return Ok(None);
        };
        let frame = Frame::read(bytes);
        let is_right = is_answer(&frame, COUNTER_READ_RESPONSE, 0, 0)
            && is_signed(&frame, frames, target.key);
        Ok(is_right.then_some(frame))
    }

    // The bytes of the area; `None` where a request for some of them is not answered rightly.
    fn area(&mut self, target: &Target, key: &[u8; 32]) -> Result<Option<Vec<u8>>, Word> {
        let mut area = Vec::new(self.alloc);
        for index in 0..REQUESTS.saturating_mul(u16::from(target.steps)) {
            let address = index.saturating_mul(BLOCKS);
            if !self.read_blocks(target.number, key, address, &mut area)? {
                return Ok(None);
            }
        }
        Ok(Some(area))
    }

    // Adds the blocks of a region from this address on; false where the request for them is not
    // answered rightly.
    fn read_blocks(
        &mut self,
        region: u8,
        key: &[u8; 32],
        address: u16,
        area: &mut Vec<u8>,
    ) -> Result<bool, Word> {
        let asked = request(DATA_READ_REQUEST, address, BLOCKS);
        let Some(answer) = self.response(region, &asked, FRAME * BLOCKS)? else {
            return Ok(false);
        };
        let (frames, _) = data_of(&answer).as_chunks::<512>();
        for bytes in frames {
            let frame = Frame::read(bytes);
            if !is_answer(&frame, DATA_READ_RESPONSE, address, BLOCKS) || !is_success(&frame) {
                return Ok(false);
            }
            area.extend_from_slice(&frame.data)?;
        }
        Ok(frames.len() == usize::from(BLOCKS) && has_mac(frames, key))
    }

    // The DATA IN with the response of a region to a request, of so many bytes; `None` where a step
    // of the exchange fails.
    fn response(&mut self, region: u8, asked: &Frame, length: u16) -> Result<Option<Upiu>, Word> {
        let fetching = command(READS, SECURITY_IN, region, length);
        if !self.brings(region, asked)? || !self.send(&fetching)? {
            return Ok(None);
        }
        let Some(answer) = self.hear()? else {
            return Ok(None);
        };
        let is_whole = is_of(&answer, DATA_IN) && answer.len() == HEADER + usize::from(length);
        let has_ended = self.hears_good()?;
        Ok((is_whole && has_ended).then_some(answer))
    }

    // Brings a region the frame of a request: whether it is answered GOOD.
    fn brings(&mut self, region: u8, asked: &Frame) -> Result<bool, Word> {
        if !self.send(&command(WRITES, SECURITY_OUT, region, FRAME))? {
            return Ok(false);
        }
        match self.hear()? {
            Some(reply) if is_of(&reply, READY_TO_TRANSFER) => {}
            _ => return Ok(false),
        }
        Ok(self.send(&frame_out(asked))? && self.hears_good()?)
    }

    // Whether the next reply is a RESPONSE with the status GOOD.
    fn hears_good(&mut self) -> Result<bool, Word> {
        match self.hear()? {
            Some(reply) => Ok(is_good(&reply)),
            None => Ok(false),
        }
    }
}

// The data of a message.
fn data_of(message: &Upiu) -> &[u8] {
    match message.as_slice().get(HEADER..) {
        Some(data) => data,
        None => &[],
    }
}

// A request of this type for so many blocks from this address on.
fn request(kind: u16, address: u16, count: u16) -> Frame {
    Frame {
        stuff: [0; 196],
        key_or_mac: [0; 32],
        data: [0; 256],
        nonce: NONCE,
        write_counter: 0,
        address,
        block_count: count,
        result: 0,
        message_type: kind,
    }
}

// Whether the frame is a response of this type to such a request.
fn is_answer(frame: &Frame, kind: u16, address: u16, count: u16) -> bool {
    frame.message_type == kind
        && frame.nonce == NONCE
        && frame.address == address
        && frame.block_count == count
}

// Whether the frame says that the request did what it asked for. The counter may be at its end.
fn is_success(frame: &Frame) -> bool {
    frame.result & !COUNTER_EXPIRED == OPERATION_OK
}

// Whether a response without a key has no MAC, and any other one the MAC under the key.
fn is_signed(frame: &Frame, frames: &[[u8; 512]], key: Option<[u8; 32]>) -> bool {
    if frame.result == KEY_NOT_PROGRAMMED {
        return frame.key_or_mac == [0; 32];
    }
    match key {
        Some(key) => is_success(frame) && has_mac(frames, &key),
        None => false,
    }
}

// Whether the last frame has the MAC of all under the key.
fn has_mac(frames: &[[u8; 512]], key: &[u8; 32]) -> bool {
    match frames.last() {
        Some(last) => same_mac(&Frame::read(last).key_or_mac, &frames_mac(key, frames)),
        None => false,
    }
}

// The COMMAND with the tag 0 that brings a region so many bytes of frames, or fetches them (JESD220,
// 10.7.1; SPC).
fn command(flags: u8, operation: u8, region: u8, length: u16) -> [u8; HEADER]
    ensures { slice_get result 18 ≡ Some region }
{
    let mut message = [0; HEADER];
    message[0] = COMMAND;
    message[1] = flags;
    message[2] = RPMB;
    write_u16(&mut message, 14, length);
    message[16] = operation;
    message[17] = 0xEC;
    message[18] = region;
    message[19] = 0x01;
    write_u16(&mut message, 24, length);
    message
}

// The DATA OUT with the tag 0 of one frame (JESD220, 10.7.4).
fn frame_out(frame: &Frame) -> [u8; 544] {
    let mut bytes = [0; 512];
    frame.write_to(&mut bytes);
    let mut message = [0; 544];
    message[0] = DATA_OUT;
    message[2] = RPMB;
    write_u16(&mut message, 10, FRAME);
    write_u16(&mut message, 18, FRAME);
    message[HEADER..].copy_from_slice(&bytes);
    message
}
