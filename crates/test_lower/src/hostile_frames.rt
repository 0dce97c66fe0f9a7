//! A frame of a write to the replay protected memory block with each of its bits turned over that
//! its MAC covers, or that are the MAC. Offsets and results are those of JESD220, 12.4.
use crate::rpmb_rows::{KEY, result_of, right_write};
use rpmb::{Accepted, Outcome, Refusal, Rpmb};
use std::process::Abort;
use std::test::Fail;

/// The result of a write to address 3, of 512, with this bit of this byte turned over; `None` if it
/// is malformed.
fn wanted(place: usize, bit: u8) -> Option<u16> {
    match (place, bit) {
        // An address from 515 on.
        (504, 2..=128) => Some(4),
        // A count of other than one frame.
        (506 | 507, _) => None,
        // A request for the write counter, one that programs a key where there is one, and no
        // request.
        (511, 1) => Some(0),
        (511, 2) => Some(1),
        (510 | 511, _) => None,
        _ => Some(2),
    }
}

/// Whether the frame is malformed, or has a result and is not accepted.
fn is_without_effect(rpmb: &Rpmb, frame: &[u8; 512]) -> bool {
    matches!(
        rpmb.out(frame, false),
        Outcome::Refused(Refusal::Malformed)
            | Outcome::Results {
                accepted: Accepted::Nothing,
                ..
            }
    )
}

/// The write with each bit of this byte turned over: it has the result that is wanted, and changes
/// nothing.
fn expect_without_effect(rt: &impl Abort, rpmb: &mut Rpmb, write: &[u8; 512], place: usize) {
    for bit in [1, 2, 4, 8, 16, 32, 64, 128u8] {
        let mut wrong = *write;
        if place < 512 {
            wrong[place] ^= bit;
        }
        assert!(rt; is_without_effect(rpmb, &wrong));
        assert!(rt;
            result_of(rpmb, &wrong) == wanted(place, bit),
            "byte {place}"
        );
        assert!(rt; rpmb.counter() == 0);
    }
}

/// No bit of a right write can be turned over. Then the write passes, under the same key, and once
/// only.
#[test]
fn a_turned_bit_changes_nothing(rt: HostRuntime) -> Result<(), Fail> {
    let mut rpmb = Rpmb::new(rt.alloc(), Some(KEY), 0, 512)?;
    let write = right_write(0);
    for place in 196..512usize {
        expect_without_effect(&rt, &mut rpmb, &write, place);
    }
    assert!(rt; result_of(&mut rpmb, &write) == Some(0) && rpmb.counter() == 1);
    assert!(rt; is_without_effect(&rpmb, &write));
    assert!(rt; result_of(&mut rpmb, &write) == Some(3) && rpmb.counter() == 1);
    Ok(())
}
