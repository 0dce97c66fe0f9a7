//! A frame of the replay protected memory block, spelled byte by byte. The offsets are those of
//! JESD220, 12.4.
use hmac_sha256::{Hmac, mac};
use rpmb_frame::{Frame, covered, frames_mac};

/// Bytes 500 to 511: write counter, address, block count, result and message type.
const NUMBERS: [u8; 12] = [1, 2, 3, 4, 5, 6, 7, 8, 9, 10, 11, 12];

/// 500 bytes, each of which tells its place, and the numbers behind them.
fn spelled() -> [u8; 512] {
    let mut bytes = [0; 512];
    for place in 0..500usize {
        bytes[place] = (place % 251) as u8;
    }
    bytes[500..].copy_from_slice(&NUMBERS);
    bytes
}

/// Each field is read at its place.
#[test]
fn each_field_is_read_at_its_place(rt: HostRuntime) {
    let bytes = spelled();
    let frame = Frame::read(&bytes);
    assert!(rt; frame.stuff[..] == bytes[0..196]);
    assert!(rt; frame.key_or_mac[..] == bytes[196..228]);
    assert!(rt; frame.data[..] == bytes[228..484]);
    assert!(rt; frame.nonce[..] == bytes[484..500]);
    assert!(rt; frame.write_counter == 0x0102_0304);
    assert!(rt; frame.address == 0x0506);
    assert!(rt; frame.block_count == 0x0708);
    assert!(rt; frame.result == 0x090A);
    assert!(rt; frame.message_type == 0x0B0C);
}

/// A frame that was read is written as it was, whatever stood there.
#[test]
fn a_frame_is_written_as_it_was_read(rt: HostRuntime) {
    let bytes = spelled();
    let mut written = [0xFF; 512];
    Frame::read(&bytes).write_to(&mut written);
    assert!(rt; written == bytes);
}

/// A MAC covers the last 284 bytes.
#[test]
fn a_mac_covers_the_last_284_bytes(rt: HostRuntime) {
    let bytes = spelled();
    let mut hmac = Hmac::new(b"Jefe");
    hmac.update(covered(&bytes));
    assert!(rt; covered(&bytes).len() == 284);
    assert!(rt; hmac.finish() == mac(b"Jefe", &bytes[228..]));
}

/// The last 284 bytes of two frames, one after the other.
fn joined(first: &[u8; 512], second: &[u8; 512]) -> [u8; 568] {
    let mut bytes = [0; 568];
    bytes[..284].copy_from_slice(&first[228..]);
    bytes[284..].copy_from_slice(&second[228..]);
    bytes
}

/// The MAC of two frames is that of their last 284 bytes, one after the other.
#[test]
fn frames_have_one_mac(rt: HostRuntime) {
    let key = [0x0B; 32];
    let frames = [spelled(), [0x5A; 512]];
    let bytes = joined(&frames[0], &frames[1]);
    assert!(rt; frames_mac(&key, &frames) == mac(&key, &bytes));
}
