//! The frames that answer a request.
ghost use Rattle.std.specs.Prelude.{◌≡◌, ◌≤◌, ◌+◌, ◌∷◌, ◌++◌, [], List, drop, length, map, take};
ghost use Rattle.std.specs.Prelude.{vec_capacity, vec_len};
ghost use Rattle.std.specs.List.{flat_map};
ghost use Rattle.rpmb_frame.specs.Fields.{frame_of};
ghost use Rattle.rpmb.specs.Answers.{HasData, HasPlaces, HavePlaces, data_bytes};
ghost use Rattle.ufs_spec.specs.Frames as defined;
ghost use Rattle.ufs_spec.specs.Frames.{frame_bytes};
ghost use Rattle.ufs_spec.specs.RpmbResponses.{counter_response, data_response, data_responses};
ghost use Rattle.ufs_spec.specs.RpmbResponses.{is_success, key_response, response_frame, signed};
ghost use Rattle.ufs_spec.specs.RpmbResponses.{write_response};
ghost use Rattle.ufs_spec.specs.Rpmb.{Region};

use hmac_sha256::mac;
use rpmb_frame::{Frame, codes, covered, frames_mac};

// Where the MAC of a frame is.
const MAC: usize = 196;

const MAC_END: usize = 228;

/// The response to a key.
pub fn key_response(code: u16) -> Frame
    ensures { frame_of result ≡ key_response code }
{
    response_frame(codes::KEY_PROGRAMMING_RESPONSE, code)
}

/// The response to a request for the counter.
pub fn counter_response(counter: u32, nonce: &[u8; 16], code: u16) -> Frame
    ensures { (region : Region) (asked : defined.Frame) → region.counter ≡ counter →
        asked.nonce ≡ nonce.now → frame_of result ≡ counter_response region asked code }
{
    Frame {
        nonce: *nonce,
        write_counter: counter,
        ..response_frame(codes::COUNTER_READ_RESPONSE, code)
    }
}

/// The response to a write.
pub fn write_response(write_counter: u32, address: u16, code: u16) -> Frame
    ensures { (region : Region) (asked : defined.Frame) → region.counter ≡ write_counter →
        asked.address ≡ address → frame_of result ≡ write_response region asked code }
{
    Frame {
        address,
        write_counter,
        ..response_frame(codes::DATA_WRITE_RESPONSE, code)
    }
}

// A response to a request for data, with these data.
fn data_response(asked: &Frame, code: u16, block: &[u8; 256]) -> Frame
    ensures { frame_of result ≡ data_response (frame_of asked.now) code block.now }
{
    Frame {
        data: *block,
        nonce: asked.nonce,
        address: asked.address,
        block_count: asked.block_count,
        ..response_frame(codes::DATA_READ_RESPONSE, code)
    }
}

// A response of this type and with this result; all else is zero.
fn response_frame(message_type: u16, code: u16) -> Frame
    ensures { frame_of result ≡ response_frame message_type code }
{
    Frame {
        stuff: [0; 196],
        key_or_mac: [0; 32],
        data: [0; 256],
        nonce: [0; 16],
        write_counter: 0,
        address: 0,
        block_count: 0,
        result: code,
        message_type,
    }
}

/// Puts the frames that answer a request for data in place of what was there. Under a key the last
/// one has the MAC of all.
pub fn answer_read(
    response: &mut Vec<[u8; 512]>,
    key: &Option<[u8; 32]>,
    asked: &Frame,
    code: u16,
    blocks: &[u8],
)
    requires few { length blocks.now ≤ 2048 }
    requires room { 8 ≤ vec_capacity response.old }
    ensures frames { (region : Region) → region.key ≡ key.now →
        HasData region (frame_of asked.now) code blocks.now →
        response.new.items
        ≡ map frame_bytes (signed region.key (data_responses region (frame_of asked.now) code)) }
    ensures few { vec_len response.new ≤ 8 }
    ensures room { vec_capacity response.new ≡ vec_capacity response.old }
{
    put_data(response, asked, code, blocks);
    sign_all(response, key);
}

// Puts the frames that answer a request for data in place of what was there: one for each block, in
// order; one without data if the request failed.
fn put_data(response: &mut Vec<[u8; 512]>, asked: &Frame, code: u16, blocks: &[u8])
    requires few { length blocks.now ≤ 2048 }
    requires room { 8 ≤ vec_capacity response.old }
    ensures frames { (region : Region) → HasData region (frame_of asked.now) code blocks.now →
        response.new.items ≡ map frame_bytes (data_responses region (frame_of asked.now) code) }
    ensures few { vec_len response.new ≤ 8 }
    ensures room { vec_capacity response.new ≡ vec_capacity response.old }
{
    response.clear();
    if is_success(code) {
        let (blocks, _) = blocks.as_chunks::<256>();
        push_data(response, asked, code, blocks);
    } else {
        response.push_reserved(bytes_of(&data_response(asked, code, &[0; 256])));
    }
}

// Puts a frame with each block behind the others.
fn push_data(response: &mut Vec<[u8; 512]>, asked: &Frame, code: u16, blocks: &[[u8; 256]])
    requires { vec_len response.old + length blocks.now ≤ vec_capacity response.old }
    ensures frames { response.new.items
        ≡ response.old.items ++ map (data_bytes (frame_of asked.now) code) blocks.now }
    ensures few { vec_len response.new ≡ vec_len response.old + length blocks.now }
    ensures room { vec_capacity response.new ≡ vec_capacity response.old }
{
    for block in blocks {
        response.push_reserved(bytes_of(&data_response(asked, code, block)));
    }
}

/// Whether a request with this result did what it asked for.
pub fn is_success(code: u16) -> bool
    ensures { result ≡ is_success code }
{
    code == codes::OPERATION_OK || code == codes::COUNTER_EXPIRED
}

/// The bytes of a frame.
pub fn bytes_of(frame: &Frame) -> [u8; 512]
    ensures { result ≡ frame_bytes (frame_of frame.now) }
{
    let mut bytes = [0; 512];
    frame.write_to(&mut bytes);
    bytes
}

/// The bytes of a frame that is the whole response: under a key it has its MAC.
pub fn signed(key: &Option<[u8; 32]>, frame: &Frame) -> [u8; 512]
    ensures { HasPlaces (frame_of frame.now) →
        result ∷ [] ≡ map frame_bytes (signed key.now (frame_of frame.now ∷ [])) }
{
    let mut bytes = bytes_of(frame);
    if let Some(key) = key {
        let mac = mac(key, covered(&bytes));
        put_mac(&mut bytes, &mac);
    }
    bytes
}

// Under a key the last frame of the response gets the MAC of all.
fn sign_all(response: &mut Vec<[u8; 512]>, key: &Option<[u8; 32]>)
    ensures frames { (fs : List defined.Frame) → HavePlaces fs →
        response.old.items ≡ map frame_bytes fs →
        response.new.items ≡ map frame_bytes (signed key.now fs) }
    ensures few { vec_len response.new ≡ vec_len response.old }
    ensures room { vec_capacity response.new ≡ vec_capacity response.old }
{
    sign(key, response);
}

// Under a key the last frame gets the MAC of all.
fn sign(key: &Option<[u8; 32]>, frames: &mut [[u8; 512]])
    ensures { (fs : List defined.Frame) → HavePlaces fs → frames.old ≡ map frame_bytes fs →
        frames.new ≡ map frame_bytes (signed key.now fs) }
{
    if let Some(key) = key {
        let mac = frames_mac(key, frames);
        if let Some(last) = frames.last_mut() {
            put_mac(last, &mac);
        }
    }
}

// Writes the MAC of a frame in place of what was there.
fn put_mac(bytes: &mut [u8; 512], mac: &[u8; 32])
    ensures { bytes.new ≡ take 196 bytes.old ++ (mac.now ++ drop 228 bytes.old) }
{
    bytes[MAC..MAC_END].copy_from_slice(mac);
}
