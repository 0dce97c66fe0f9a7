//! Requests: what frames ask for.
ghost use Rattle.std.specs.Prelude.{◌≡◌, ◌≤◌, ◌*◌, ◌/◌, ◌∷◌, [], MatchOption, length, map, option_copied, true};
ghost use Rattle.std.specs.List.{list_all};
ghost use Rattle.rpmb.specs.Requests.{AreMalformed, Asks, IsRequest, IsUnknown, data_at, frames_of};
ghost use Rattle.rpmb.specs.Requests.{area_asked, payload_in, payloads};
ghost use Rattle.rpmb_frame.specs.Fields.{frame_of};
ghost use Rattle.ufs_spec.specs.Frames.{frame_in};
ghost use Rattle.ufs_spec.specs.Rpmb.{agrees, is_well_formed};

use crate::responses::is_success;
use arrayvec::ArrayVec;
use rpmb_frame::{Frame, codes};

// Where the data of a frame are.
const DATA: usize = 228;

const DATA_END: usize = 484;

// How many bytes of data the frames of a request have at most, as many as 4096 bytes have room for.
const MOST_DATA: usize = 2048;

// How many blocks a request for data may ask for.
const MOST_BLOCKS: u16 = 8;

/// What a request asks for, by its first frame.
#[derive(Clone, Copy)]
pub enum Request {
    /// That this key is set.
    ProgramKey {
        key: [u8; 32],
    },
    /// The counter.
    ReadCounter,
    /// That blocks are written: as many as there are frames.
    Write {
        counter: u32,
        address: u16,
        count: u16,
    },
    /// Blocks.
    Read {
        address: u16,
        count: u16,
    },
    /// The result of the last key or write.
    ReadResult,
}

/// The blocks of the area that a request asks for: so many from this address on.
#[derive(Clone, Copy, Debug, PartialEq, Eq)]
pub struct AreaBlocks {
    pub address: u16,
    pub count: u16,
}

/// The blocks of the area that have to be read for these frames, a request with this result: it asks for data
/// and passed its checks. `None` for any other request.
pub fn asked_area(frames: &[u8], code: u16) -> Option<AreaBlocks>
    ensures { result ≡ area_asked (frames_of frames.now) code }
{
    match whole_frames(frames) {
        [] => None,
        [first, ..] => area_of(&Frame::read(first), code),
    }
}

// The same of the first frame.
fn area_of(first: &Frame, code: u16) -> Option<AreaBlocks>
    ensures { result ≡ area_asked (frame_of first.now ∷ []) code }
{
    if first.message_type == codes::DATA_READ_REQUEST && is_success(code) {
        Some(AreaBlocks {
            address: first.address,
            count: first.block_count,
        })
    } else {
        None
    }
}

/// What the data of SECURITY PROTOCOL OUT, whole frames of 512 bytes, ask for; `None` if they are
/// malformed.
pub fn asked_by(frames: &[u8]) -> Option<Request>
    ensures { MatchOption result (AreMalformed (frames_of frames.now))
        (λ r. Asks r (frames_of frames.now)) }
{
    request_of(whole_frames(frames))
}

/// The data of the frame at this index: one block of the area.
pub fn data_of(frames: &[u8], index: usize) -> Option<&[u8]>
    ensures { option_copied result ≡ data_at (frames_of frames.now) index }
{
    match whole_frames(frames).get(index) {
        None => None,
        Some(frame) => Some(&frame[DATA..DATA_END]),
    }
}

/// The data of all frames, one block of 256 bytes after another.
pub fn all_data(frames: &[u8]) -> ArrayVec<u8, MOST_DATA>
    requires { length frames.now ≤ 4096 }
    ensures joined { result.items ≡ payloads (frames_of frames.now) }
    ensures long { length result.items ≡ 256 * (length frames.now / 512) }
{
    data_of_all(whole_frames(frames))
}

// The data of these frames, one block of 256 bytes after another.
fn data_of_all(frames: &[[u8; 512]]) -> ArrayVec<u8, MOST_DATA>
    requires { length frames.now ≤ 8 }
    ensures joined { result.items ≡ payloads (map frame_in frames.now) }
    ensures long { length result.items ≡ 256 * length frames.now }
{
    let mut data = ArrayVec::new();
    for frame in frames {
        let _ = data.try_extend_from_slice(data_in(frame));
    }
    data
}

// The data of a frame.
fn data_in(frame: &[u8; 512]) -> &[u8]
    ensures payload { result.now ≡ payload_in frame.now }
    ensures long { length result.now ≡ 256 }
{
    &frame[DATA..DATA_END]
}

/// The whole frames that these bytes are; bytes behind the last one are left out.
pub fn whole_frames(bytes: &[u8]) -> &[[u8; 512]]
    ensures { map frame_in result.now ≡ frames_of bytes.now }
{
    let (frames, _) = bytes.as_chunks::<512>();
    frames
}

/// What these frames ask for; `None` if they are malformed.
pub fn request_of(frames: &[[u8; 512]]) -> Option<Request>
    ensures { MatchOption result (AreMalformed (map frame_in frames.now))
        (λ r. Asks r (map frame_in frames.now)) }
{
    match frames {
        [] => None,
        [first, more @ ..] => well_formed(&Frame::read(first), more),
    }
}

// What a request with this first frame and these further ones asks for; `None` if it is malformed.
fn well_formed(first: &Frame, more: &[[u8; 512]]) -> Option<Request>
    ensures { MatchOption result (AreMalformed (frame_of first.now ∷ map frame_in more.now))
        (λ r. Asks r (frame_of first.now ∷ map frame_in more.now)) }
{
    match request_in(first) {
        None => None,
        Some(request) if is_well_formed(&request, first, more) => Some(request),
        Some(_) => None,
    }
}

/// What a frame asks for, if its message type is a request's.
pub fn request_in(frame: &Frame) -> Option<Request>
    ensures { MatchOption result (IsUnknown (frame_of frame.now))
        (λ r. IsRequest r (frame_of frame.now)) }
{
    match frame.message_type {
        codes::KEY_PROGRAMMING_REQUEST => Some(Request::ProgramKey {
            key: frame.key_or_mac,
        }),
        codes::COUNTER_READ_REQUEST => Some(Request::ReadCounter),
        codes::DATA_WRITE_REQUEST => Some(Request::Write {
            counter: frame.write_counter,
            address: frame.address,
            count: frame.block_count,
        }),
        codes::DATA_READ_REQUEST => Some(Request::Read {
            address: frame.address,
            count: frame.block_count,
        }),
        codes::RESULT_READ_REQUEST => Some(Request::ReadResult),
        _ => None,
    }
}

// Whether a request with this first frame and these further ones is well-formed.
fn is_well_formed(request: &Request, first: &Frame, more: &[[u8; 512]]) -> bool
    requires { IsRequest request.now (frame_of first.now) }
    ensures { result ≡ is_well_formed (frame_of first.now) (map frame_in more.now) }
{
    match request {
        Request::Write { count, .. } => all_agree(first, more)
            && usize::from(*count) == more.len() + 1,
        Request::Read { count, .. } => more.is_empty() && 1 <= *count && *count <= MOST_BLOCKS,
        _ => more.is_empty(),
    }
}

// Whether all frames agree with the first one.
fn all_agree(first: &Frame, more: &[[u8; 512]]) -> bool
    ensures { result ≡ list_all (agrees (frame_of first.now)) (map frame_in more.now) }
{
    for frame in more {
        if !agree(first, &Frame::read(frame)) {
            return false;
        }
    }
    true
}

// Whether two frames agree in type, counter, address and count.
fn agree(first: &Frame, frame: &Frame) -> bool
    ensures { result ≡ agrees (frame_of first.now) (frame_of frame.now) }
{
    first.message_type == frame.message_type
        && first.write_counter == frame.write_counter
        && first.address == frame.address
        && first.block_count == frame.block_count
}
