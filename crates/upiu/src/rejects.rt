//! Writing the REJECT of a message whose transaction code no request has (JESD220, 10.7.10).
ghost use Rattle.std.specs.Prelude.{◌≡◌};
ghost use Rattle.upiu.specs.Rejects.{reject_bytes, reject_of};

use crate::checks::{HEADER, code, is_of_request};

/// The transaction code of a REJECT.
const REJECT: u8 = 0x3F;

/// The response of a message that its target did not carry out.
const TARGET_FAILURE: u8 = 0x01;

/// The basic header status of a wrong transaction code.
const WRONG_CODE: u8 = 0x01;

/// The REJECT that answers this message of a host; none, if its transaction code is that of a request,
/// or if it has no whole header, and so no LUN and no task tag. LINK EVENT is no request: a host itself
/// sends none. The device gives no reply to such a message: it tells the caller of the code, who sends
/// this if the link wants an answer.
pub fn reject_upiu(message: &[u8]) -> Option<[u8; 32]>
    ensures { result ≡ reject_of message.now }
{
    if message.len() < HEADER || is_of_request(code(message)) {
        return None;
    }
    let mut bytes = [0; HEADER];
    bytes[0] = REJECT;
    bytes[2] = message[2];
    bytes[3] = message[3];
    bytes[6] = TARGET_FAILURE;
    bytes[12] = WRONG_CODE;
    Some(bytes)
}
