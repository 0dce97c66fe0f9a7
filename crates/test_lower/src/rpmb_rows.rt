//! Requests to the replay protected memory block and what answers them, as worked by hand. Offsets
//! and results are those of JESD220, 12.4.
use hmac_sha256::{Hmac, mac};
use rpmb::{Accepted, Outcome, Refusal, Request, Rpmb, asked_by, data_of};
use rpmb_frame::covered;
use std::test::Fail;

/// The key of the rows.
pub(crate) const KEY: [u8; 32] = [0x0B; 32];

/// A request of this type without a MAC.
fn request(message_type: u8, counter: u32, address: u8, count: u8) -> [u8; 512] {
    let mut frame = [0; 512];
    frame[484..500].copy_from_slice(&[0x5A; 16]);
    frame[500..504].copy_from_slice(&counter.to_be_bytes());
    frame[505] = address;
    frame[507] = count;
    frame[511] = message_type;
    frame
}

/// A write of one block of bytes 77h to address 3, under the key.
pub(crate) fn right_write(counter: u32) -> [u8; 512] {
    let mut frame = request(3, counter, 3, 1);
    frame[228..484].copy_from_slice(&[0x77; 256]);
    let right = mac(&KEY, covered(&frame));
    frame[196..228].copy_from_slice(&right);
    frame
}

/// A request that sets the key.
fn key_request() -> [u8; 512] {
    let mut frame = request(1, 0, 0, 0);
    frame[196..228].copy_from_slice(&KEY);
    frame
}

/// Does the request, which reads no data, and tells its result; `None` if it is refused.
pub(crate) fn result_of(rpmb: &mut Rpmb, frames: &[u8]) -> Option<u16> {
    match rpmb.out(frames, false) {
        Outcome::Refused(_) => None,
        Outcome::Results { result, accepted } => {
            rpmb.apply(&accepted);
            rpmb.begin(frames);
            rpmb.respond(frames, result, Some(&[]));
            Some(result)
        }
    }
}

/// Bytes 500 to 511 of the response to the request: the numbers of its frame.
fn numbers_of(rpmb: &mut Rpmb, frames: &[u8]) -> Option<[u8; 12]> {
    result_of(rpmb, frames)?;
    let mut frame = [0; 512];
    if rpmb.input(&mut frame) < 512 {
        return None;
    }
    let mut numbers = [0; 12];
    numbers.copy_from_slice(&frame[500..]);
    Some(numbers)
}

/// Before a key nothing but a key succeeds; then a wrong MAC and a wrong counter are refused, and the
/// counter stays.
#[test]
fn refusals_leave_the_counter(rt: HostRuntime) -> Result<(), Fail> {
    let mut rpmb = Rpmb::new(rt.alloc(), None, 0, 512)?;
    let read_counter = request(2, 0, 0, 0);
    assert!(rt; result_of(&mut rpmb, &right_write(0)) == Some(7));
    assert!(rt; numbers_of(&mut rpmb, &read_counter) == Some([0, 0, 0, 0, 0, 0, 0, 0, 0, 7, 2, 0]));
    assert!(rt; result_of(&mut rpmb, &key_request()) == Some(0));
    assert!(rt; rpmb.key_set());
    assert!(rt; result_of(&mut rpmb, &key_request()) == Some(1));
    let mut wrong = right_write(0);
    wrong[227] ^= 1;
    assert!(rt; result_of(&mut rpmb, &wrong) == Some(2));
    assert!(rt; numbers_of(&mut rpmb, &read_counter) == Some([0, 0, 0, 0, 0, 0, 0, 0, 0, 0, 2, 0]));
    assert!(rt; result_of(&mut rpmb, &right_write(1)) == Some(3));
    assert!(rt; numbers_of(&mut rpmb, &read_counter) == Some([0, 0, 0, 0, 0, 0, 0, 0, 0, 0, 2, 0]));
    Ok(())
}

/// The last write has the result 0080h, and the next one 0085h; a request for the result tells both.
#[test]
fn the_counter_comes_to_its_end(rt: HostRuntime) -> Result<(), Fail> {
    let mut rpmb = Rpmb::new(rt.alloc(), Some(KEY), 0xFFFF_FFFE, 512)?;
    let read_result = request(5, 0, 0, 0);
    assert!(rt; result_of(&mut rpmb, &right_write(0xFFFF_FFFE)) == Some(0x80));
    assert!(rt; rpmb.counter() == 0xFFFF_FFFF);
    let last = [0xFF, 0xFF, 0xFF, 0xFF, 0, 3, 0, 0, 0, 0x80, 3, 0];
    assert!(rt; numbers_of(&mut rpmb, &read_result) == Some(last));
    assert!(rt; result_of(&mut rpmb, &right_write(0xFFFF_FFFF)) == Some(0x85));
    let next = [0xFF, 0xFF, 0xFF, 0xFF, 0, 3, 0, 0, 0, 0x85, 3, 0];
    assert!(rt; numbers_of(&mut rpmb, &read_result) == Some(next));
    Ok(())
}

/// Two blocks come in two frames, of which the second has the MAC of both; a page that could not be
/// read gives one frame with the result 0006h.
#[test]
fn data_are_answered_block_by_block(rt: HostRuntime) -> Result<(), Fail> {
    let mut rpmb = Rpmb::new(rt.alloc(), Some(KEY), 0, 512)?;
    let read = request(4, 0, 9, 2);
    let mut blocks = [0x11; 512];
    blocks[256..].copy_from_slice(&[0x22; 256]);
    rpmb.respond(&read, 0, Some(&blocks));
    assert!(rt; rpmb.waiting() == 1024);
    let mut frames = [0; 1024];
    assert!(rt; rpmb.input(&mut frames) == 1024);
    assert!(rt; rpmb.waiting() == 0);
    assert!(rt; frames[228..484] == blocks[..256]);
    assert!(rt; frames[740..996] == blocks[256..]);
    let numbers = [0, 0, 0, 0, 0, 9, 0, 2, 0, 0, 4, 0];
    assert!(rt; frames[500..512] == numbers[..]);
    let (parts, _) = frames.as_chunks::<512>();
    let mut hmac = Hmac::new(&KEY);
    for part in parts {
        hmac.update(covered(part));
    }
    let right = hmac.finish();
    assert!(rt; frames[708..740] == right[..]);
    rpmb.respond(&read, 0, None);
    let mut short = [0; 512];
    assert!(rt; rpmb.waiting() == 512);
    assert!(rt; rpmb.input(&mut short) == 512);
    let failed = [0, 0, 0, 0, 0, 9, 0, 2, 0, 6, 4, 0];
    assert!(rt; short[500..512] == failed[..]);
    Ok(())
}

/// Frames that are no request, and a result that is not there, are refused; else the request and its
/// data are told.
#[test]
fn requests_are_told(rt: HostRuntime) -> Result<(), Fail> {
    let mut rpmb = Rpmb::new(rt.alloc(), Some(KEY), 5, 512)?;
    let no_count = request(4, 0, 9, 0);
    assert!(rt;
        matches!(
            rpmb.out(&no_count, false),
            Outcome::Refused(Refusal::Malformed)
        )
    );
    let read_result = request(5, 0, 0, 0);
    assert!(rt;
        matches!(
            rpmb.out(&read_result, false),
            Outcome::Refused(Refusal::NoResult)
        )
    );
    let write = right_write(5);
    let told = asked_by(&write);
    assert!(rt;
        matches!(
            told,
            Some(Request::Write {
                counter: 5,
                address: 3,
                count: 1
            })
        )
    );
    assert!(rt; data_of(&write, 0) == Some(&write[228..484]));
    assert!(rt; data_of(&write, 1).is_none());
    assert!(rt;
        matches!(
            rpmb.out(&write, false),
            Outcome::Results {
                result: 0,
                accepted: Accepted::Write { address: 3 }
            }
        )
    );
    assert!(rt; result_of(&mut rpmb, &write) == Some(0));
    rpmb.forget();
    assert!(rt;
        matches!(
            rpmb.out(&read_result, false),
            Outcome::Refused(Refusal::NoResult)
        )
    );
    Ok(())
}
