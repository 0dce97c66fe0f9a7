//! The frames of requests to the replay protected memory block (JESD220, 12.4).
ghost use Rattle.std.specs.Prelude.{◌≡◌, ◌≤◌, ◌<◌, ◌+◌, ◌*◌, ◌++◌, ◌∷◌, [], ℕ, IfOk, List, Some};
ghost use Rattle.std.specs.Prelude.{length};
ghost use Rattle.std.specs.List.{flat_map};
ghost use Rattle.rpmb_frame.specs.Fields.{frame_of};
ghost use Rattle.ufs_spec.specs.Frames as defined;
ghost use Rattle.ufs_spec.specs.Frames.{frame_bytes};
ghost use Rattle.ufs_spec.specs.RpmbResponses.{signed};
ghost use Rattle.ufstool.specs.Requests.{Gathers, HasWidths, block_request, blocks_asked};
ghost use Rattle.ufstool.specs.Requests.{counter_asked, key_sent, plain_request, requested};
ghost use Rattle.ufstool.specs.Requests.{write_requests};

use crate::host::LineFault;
use crate::rpmb::RpmbRequest;
use hmac_sha256::Hmac;
use rpmb_frame::codes::{
    COUNTER_READ_REQUEST, DATA_READ_REQUEST, DATA_WRITE_REQUEST, KEY_PROGRAMMING_REQUEST,
    RESULT_READ_REQUEST,
};
use rpmb_frame::{Frame, covered};
use ufs_spec::Data;

/// So many blocks a request may write or read.
const MOST_BLOCKS: usize = 8;

/// The bytes of the frames of a request, one after another.
pub fn frames_of(request: &RpmbRequest<'_>) -> Result<Data, LineFault>
    ensures frames { IfOk result (λ bytes.
        bytes.items ≡ flat_map frame_bytes (requested request.now)) }
    ensures fits { IfOk result (λ bytes. (512 ≤ length bytes.items) × (length bytes.items ≤ 4096)) }
{
    match *request {
        RpmbRequest::ProgramKey { key } => Ok(one_frame(&key_frame(key))),
        RpmbRequest::ReadCounter { nonce } => Ok(one_frame(&counter_frame(nonce))),
        RpmbRequest::WriteData {
            key,
            counter,
            address,
            blocks,
        } => signed_frames(key, counter, address, blocks),
        RpmbRequest::ReadData {
            address,
            count,
            nonce,
        } => asking_frame(address, count, nonce),
        RpmbRequest::ReadResult => Ok(one_frame(&plain_frame(RESULT_READ_REQUEST))),
    }
}

// A frame with this message type and zeros.
fn plain_frame(message_type: u16) -> Frame
    ensures { frame_of result ≡ plain_request message_type }
{
    Frame {
        stuff: [0; 196],
        key_or_mac: [0; 32],
        data: [0; 256],
        nonce: [0; 16],
        write_counter: 0,
        address: 0,
        block_count: 0,
        result: 0,
        message_type,
    }
}

// The frame that brings a key.
fn key_frame(key: &[u8; 32]) -> Frame
    ensures { frame_of result ≡ key_sent key.now }
{
    let mut frame = plain_frame(KEY_PROGRAMMING_REQUEST);
    let key = *key;
    frame.key_or_mac = key;
    frame
}

// The frame that asks for the write counter.
fn counter_frame(nonce: [u8; 16]) -> Frame
    ensures { frame_of result ≡ counter_asked nonce }
{
    let mut frame = plain_frame(COUNTER_READ_REQUEST);
    frame.nonce = nonce;
    frame
}

// The frame that asks for blocks, as bytes.
fn asking_frame(address: u16, count: u16, nonce: [u8; 16]) -> Result<Data, LineFault>
    ensures frame { IfOk result (λ bytes.
        bytes.items ≡ flat_map frame_bytes (blocks_asked address count nonce ∷ [])) }
    ensures fits { IfOk result (λ bytes. length bytes.items ≡ 512) }
{
    if count == 0 || usize::from(count) > MOST_BLOCKS {
        return Err(LineFault::Blocks);
    }
    Ok(one_frame(&read_frame(address, count, nonce)))
}

// The frame that asks for blocks.
fn read_frame(address: u16, count: u16, nonce: [u8; 16]) -> Frame
    ensures { frame_of result ≡ blocks_asked address count nonce }
{
    let mut frame = plain_frame(DATA_READ_REQUEST);
    frame.address = address;
    frame.block_count = count;
    frame.nonce = nonce;
    frame
}

// The bytes of one frame alone.
fn one_frame(frame: &Frame) -> Data
    ensures frame { result.items ≡ flat_map frame_bytes (frame_of frame.now ∷ []) }
    ensures fits { length result.items ≡ 512 }
{
    let bytes = bytes_of(frame);
    let mut data = Data::new();
    let _ = data.try_extend_from_slice(&bytes);
    data
}

// The frames that write blocks. The last one has the MAC of all.
fn signed_frames(
    key: &[u8; 32],
    counter: u32,
    address: u16,
    blocks: &[[u8; 256]],
) -> Result<Data, LineFault>
    ensures frames { IfOk result (λ bytes. bytes.items
        ≡ flat_map frame_bytes (write_requests key.now counter address blocks.now)) }
    ensures fits { IfOk result (λ bytes. (512 ≤ length bytes.items) × (length bytes.items ≤ 4096)) }
{
    let count = blocks.len();
    if count > MOST_BLOCKS {
        return Err(LineFault::Blocks);
    }
    let Some((last, front)) = blocks.split_last() else {
        return Err(LineFault::Blocks);
    };
    let number = count as u16;
    let mut sent = Sent {
        hmac: Hmac::new(key),
        data: Data::new(),
    };
    for block in front {
        sent.add(&bytes_of(&write_frame(counter, address, number, block)));
    }
    Ok(sent.signed(write_frame(counter, address, number, last)))
}

// Frames of a write, one after another, and the MAC of what came so far.
#[derive(Drop)]
struct Sent {
    hmac: Hmac,
    data: Data,
}

impl Sent {
    // Adds the bytes of a frame.
    fn add(&mut self, bytes: &[u8; 512])
        ensures { (key : List ℕ) (frames : List defined.Frame) (f : defined.Frame) →
            Gathers self.old key frames → HasWidths f → bytes.now ≡ frame_bytes f →
            length frames < 8 → Gathers self.new key (frames ++ f ∷ []) }
    {
        self.hmac.update(covered(bytes));
        push_frame(&mut self.data, bytes);
    }

    // The bytes of all frames, with this one as the last, which gets the MAC.
    fn signed(self, last: Frame) -> Data
        ensures { (key : List ℕ) (frames : List defined.Frame) → Gathers self key frames →
            HasWidths (frame_of last) → length frames < 8 →
            (length result.items ≡ 512 * (length frames + 1)) × (result.items
            ≡ flat_map frame_bytes (signed (Some key) (frames ++ frame_of last ∷ []))) }
    {
        let Sent { mut hmac, mut data } = self;
        let mut last = last;
        hmac.update(covered(&bytes_of(&last)));
        let mac = hmac.finish();
        last.key_or_mac = mac;
        let bytes = bytes_of(&last);
        push_frame(&mut data, &bytes);
        data
    }
}

// A frame that writes a block, without a MAC.
fn write_frame(counter: u32, address: u16, count: u16, block: &[u8; 256]) -> Frame
    ensures { frame_of result ≡ block_request counter address count block.now }
{
    let mut frame = plain_frame(DATA_WRITE_REQUEST);
    let data = *block;
    frame.data = data;
    frame.write_counter = counter;
    frame.address = address;
    frame.block_count = count;
    frame
}

// Adds the bytes of a frame, if there is room for them.
fn push_frame(all: &mut Data, bytes: &[u8; 512])
    ensures { length all.old.items + 512 ≤ 4096 → all.new.items ≡ all.old.items ++ bytes.now }
{
    let _ = all.try_extend_from_slice(bytes);
}

// The 512 bytes of a frame.
fn bytes_of(frame: &Frame) -> [u8; 512]
    ensures bytes { result ≡ frame_bytes (frame_of frame.now) }
    ensures fits { length result ≡ 512 }
{
    let mut bytes = [0; 512];
    frame.write_to(&mut bytes);
    bytes
}
