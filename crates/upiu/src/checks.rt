//! What is wrong with the bytes of a message, before its fields are read.
ghost use Rattle.std.specs.Prelude.{◌≡◌, ◌≤◌, [], ◌∷◌, length};
ghost use Rattle.ufs_spec.specs.Messages.{code_of, has_digest, has_extra_header, has_wrong_length};
ghost use Rattle.ufs_spec.specs.Messages.{host_codes, host_fault_of, is_among, known_codes, may_have};
ghost use Rattle.ufs_spec.specs.Messages.{read_fault_of, request_codes, segment_length};

use ufs_bytes::{read_u16, read_u32};
use ufs_spec::HostFault;
use ufs_spec::codes::{
    COMMAND, DATA_IN, DATA_OUT, LINK_EVENT, NOP_IN, NOP_OUT, QUERY_REQUEST, QUERY_RESPONSE,
    READY_TO_TRANSFER, RESPONSE, TASK_REQUEST, TASK_RESPONSE,
};

/// The bytes of a header.
pub const HEADER: usize = 32;

// The bytes of the longest data segment.
const LONGEST: usize = 4096;

// Bits 5 to 0 of byte 0.
const CODE_BITS: u8 = 0x3F;

// HD and DD, bits 7 and 6 of byte 0.
const DIGEST_BITS: u8 = 0xC0;

/// The first fault that the bytes have, of those that come before a message's fields: too short, a
/// wrong length, a digest, an extra header segment, a code that is no kind's.
pub fn first_fault(bytes: &[u8]) -> Option<HostFault>
    ensures { result ≡ read_fault_of bytes.now }
{
    if bytes.len() < HEADER {
        Some(HostFault::Short)
    } else if is_wrong_length(bytes) {
        Some(HostFault::Length)
    } else if has_digest(bytes) {
        Some(HostFault::Digest)
    } else if has_extra_header(bytes) {
        Some(HostFault::Ehs)
    } else if !is_known(code(bytes)) {
        Some(HostFault::Code)
    } else {
        None
    }
}

/// The first fault that the bytes of a host have, of those that come before a message's fields: a
/// code of a kind that a device sends is one too.
pub fn host_fault(bytes: &[u8]) -> Option<HostFault>
    ensures { result ≡ host_fault_of bytes.now }
{
    match first_fault(bytes) {
        Some(fault) => Some(fault),
        None if is_of_host(code(bytes)) => None,
        None => Some(HostFault::Code),
    }
}

/// The transaction code.
pub fn code(bytes: &[u8]) -> u8
    requires { HEADER ≤ length bytes.now }
    ensures { result ≡ code_of bytes.now }
{
    bytes[0] & CODE_BITS
}

/// The data segment's length, as the header has it.
pub fn stated_length(bytes: &[u8]) -> usize
    requires { HEADER ≤ length bytes.now }
    ensures { result ≡ segment_length bytes.now }
{
    usize::from(read_u16(bytes, 10))
}

// Whether the header tells of a digest of itself or of the data.
fn has_digest(bytes: &[u8]) -> bool
    requires { HEADER ≤ length bytes.now }
    ensures { result ≡ has_digest bytes.now }
{
    bytes[0] & DIGEST_BITS != 0
}

// Whether the header tells of an extra header segment.
fn has_extra_header(bytes: &[u8]) -> bool
    requires { HEADER ≤ length bytes.now }
    ensures { result ≡ has_extra_header bytes.now }
{
    bytes[8] != 0
}

// Whether this is the code of a kind.
fn is_known(code: u8) -> bool
    ensures { result ≡ is_among known_codes code }
{
    is_of_host(code) || is_of_device(code)
}

/// Whether this is the code of a kind that a host sends, or of LINK EVENT, which comes the same way.
pub fn is_of_host(code: u8) -> bool
    ensures { result ≡ is_among host_codes code }
{
    matches!(
        code,
        NOP_OUT | COMMAND | DATA_OUT | TASK_REQUEST | QUERY_REQUEST | LINK_EVENT
    )
}

/// Whether this is the code of a kind that a host sends.
pub fn is_of_request(code: u8) -> bool
    ensures { result ≡ is_among request_codes code }
{
    matches!(
        code,
        NOP_OUT | COMMAND | DATA_OUT | TASK_REQUEST | QUERY_REQUEST
    )
}

// Whether this is the code of a kind that a device sends.
fn is_of_device(code: u8) -> bool
    ensures { result ≡ is_among (0x20 ∷ 0x21 ∷ 0x22 ∷ 0x24 ∷ 0x31 ∷ 0x36 ∷ []) code }
{
    matches!(
        code,
        NOP_IN | RESPONSE | DATA_IN | TASK_RESPONSE | READY_TO_TRANSFER | QUERY_RESPONSE
    )
}

// Whether the data segment is too long, is not of a length that the message's kind may have, or is
// not what follows the header, padded to a multiple of four.
fn is_wrong_length(bytes: &[u8]) -> bool
    requires { HEADER ≤ length bytes.now }
    ensures { result ≡ has_wrong_length bytes.now }
{
    let segment = stated_length(bytes);
    let padding = (4 - segment % 4) % 4;
    segment > LONGEST || !can_have(bytes, segment) || bytes.len() != HEADER + segment + padding
}

// Whether a message of this kind may have a data segment of this length. A code that is no kind's
// may have any.
fn can_have(bytes: &[u8], segment: usize) -> bool
    requires { HEADER ≤ length bytes.now }
    ensures { result ≡ may_have (code_of bytes.now) bytes.now segment }
{
    match code(bytes) {
        DATA_OUT | DATA_IN => segment > 0 && segment == read_u32(bytes, 16) as usize,
        QUERY_REQUEST => segment == 0 || bytes[12] == 0x02,
        RESPONSE if bytes[7] == 0x02 => segment == 20,
        QUERY_RESPONSE => segment == 0 || (bytes[12] == 0x01 && bytes[6] == 0x00),
        NOP_OUT | COMMAND | TASK_REQUEST | NOP_IN | RESPONSE | TASK_RESPONSE | READY_TO_TRANSFER =>
            segment == 0,
        _ => true,
    }
}
