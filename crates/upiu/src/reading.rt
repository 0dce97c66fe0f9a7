//! Reading a message.
ghost use Rattle.std.specs.Prelude.{◌≡◌, ◌≤◌, ◌+◌, ◌↔◌, [], ◌∷◌, bit_and, drop, length, IfErr, IfOk, IsTrue};
ghost use Rattle.ufs_spec.specs.Messages.{code_of, host_fault_of, known_codes, read_fault_of, padding};
ghost use Rattle.ufs_spec.specs.Messages.{is_among, segment_length, zeros, IsAmong, Spells};
ghost use Rattle.ufs_spec.specs.declared.HostFault.{HostFault};
ghost use Rattle.ufs_spec.specs.declared.Message.{Message};
ghost use Rattle.upiu.specs.Reading.{named_message, HasSets, IsAround, Passes};

use crate::checks::{HEADER, first_fault, host_fault, stated_length};
use crate::fields::message_in;
use crate::headers::header_bytes;
use ufs_spec::codes::{HARDWARE_RESET, LINK_RESET};
use ufs_spec::{HostFault, Message};

/// The flags of a COMMAND that say where its data go. Below them are its priority, bit 2, and its task
/// attribute, bits 1..0.
const DIRECTION: u8 = 0xF8;

/// Reads a message of any kind (JESD220, 10.5 to 10.7).
///
/// # Errors
///
/// The first of [`HostFault::Short`] to [`HostFault::Code`] that the bytes have, and
/// [`HostFault::Reserved`] where they have none of these and spell no message.
pub fn read(bytes: &[u8]) -> Result<Message, HostFault>
    // What is read has no fault and is spelled so, each byte of it.
    ensures read { IfOk result (λ message. (read_fault_of bytes.now ≡ None) × Spells message bytes.now) }
    // What is spelled so is read.
    ensures taken { (message : Message) → IsAmong known_codes (code_of bytes.now) → Spells message bytes.now →
        result ≡ Ok message }
    ensures first { (fault : HostFault) → read_fault_of bytes.now ≡ Some fault → result ≡ Err fault }
    ensures reserved { IfErr result (λ fault. read_fault_of bytes.now ≡ None →
        (fault ≡ HostFault.Reserved) × ((message : Message) → Spells message bytes.now → ⊥)) }
{
    match first_fault(bytes) {
        Some(fault) => Err(fault),
        None => read_fields(bytes),
    }
}

/// Reads a message of a host (JESD220, 10.5 to 10.7): a kind that a device sends is a wrong
/// transaction code.
///
/// # Errors
///
/// The first of [`HostFault::Short`] to [`HostFault::Code`] that the bytes have, and
/// [`HostFault::Reserved`] where they have none of these and spell no message.
pub fn read_host(bytes: &[u8]) -> Result<Message, HostFault>
    // What is read has no fault and is spelled so, each byte of it.
    ensures read { IfOk result (λ message. (host_fault_of bytes.now ≡ None) × Spells message bytes.now) }
    // What is spelled so is read.
    ensures taken { (message : Message) → host_fault_of bytes.now ≡ None → Spells message bytes.now →
        result ≡ Ok message }
    ensures first { (fault : HostFault) → host_fault_of bytes.now ≡ Some fault → result ≡ Err fault }
    ensures reserved { IfErr result (λ fault. host_fault_of bytes.now ≡ None →
        (fault ≡ HostFault.Reserved) × ((message : Message) → Spells message bytes.now → ⊥)) }
{
    match host_fault(bytes) {
        Some(fault) => Err(fault),
        None => read_fields(bytes),
    }
}

// The message that the fields name, where the bytes spell it.
fn read_fields(bytes: &[u8]) -> Result<Message, HostFault>
    requires { Passes bytes.now }
    ensures read { IfOk result (λ message. Spells message bytes.now) }
    ensures taken { (message : Message) → Spells message bytes.now → result ≡ Ok message }
    ensures reserved { IfErr result (λ fault. fault ≡ HostFault.Reserved) }
{
    let message = message_in(bytes);
    if is_spelled(&message, bytes) {
        Ok(message)
    } else {
        Err(HostFault::Reserved)
    }
}

// Whether the bytes spell the message that their fields name: its fields are in their sets, the
// header says nothing else, and what follows the data segment is zero.
fn is_spelled(message: &Message, bytes: &[u8]) -> bool
    requires passes { Passes bytes.now }
    requires named { message.now ≡ named_message bytes.now }
    ensures { IsTrue result ↔ Spells message.now bytes.now }
{
    has_sets(message) && surround(&header_bytes(message), bytes)
}

// Whether this header comes first, and zeros follow the data segment.
pub fn surround(header: &[u8; 32], bytes: &[u8]) -> bool
    requires { Passes bytes.now }
    ensures { IsTrue result ↔ IsAround header.now bytes.now }
{
    let padding = &bytes[HEADER + stated_length(bytes)..];
    bytes.starts_with(header) && are_zeros(padding)
}

// Whether the fields that do not take every value of a byte are in their sets.
fn has_sets(message: &Message) -> bool
    ensures { IsTrue result ↔ HasSets message.now }
{
    match message {
        Message::Command { flags, .. } => are_command_flags(*flags),
        Message::QueryRequest { function, .. } | Message::QueryResponse { function, .. } => {
            is_query_function(*function)
        }
        Message::LinkEvent { kind } => is_event_kind(*kind),
        Message::Response {
            flags,
            response,
            status,
            ..
        } => are_flags(*flags) && is_response(*response) && is_status(*status),
        _ => true,
    }
}

// Whether these are flags of a COMMAND, whatever is below the direction of its data.
pub fn are_command_flags(flags: u8) -> bool
    ensures { result ≡ is_among (0x00 ∷ 0x20 ∷ 0x40 ∷ []) (bit_and flags 0xF8) }
{
    are_flags(flags & DIRECTION)
}

// Whether these are flags of the direction of a COMMAND's data, or of a RESPONSE.
fn are_flags(flags: u8) -> bool
    ensures { result ≡ is_among (0x00 ∷ 0x20 ∷ 0x40 ∷ []) flags }
{
    matches!(flags, 0x00 | 0x20 | 0x40)
}

// Whether this is the function of a query: standard read or standard write.
fn is_query_function(function: u8) -> bool
    ensures { result ≡ is_among (0x01 ∷ 0x81 ∷ []) function }
{
    matches!(function, 0x01 | 0x81)
}

// Whether this is a kind of LINK EVENT: a hardware reset, or a reset of the link or the controller.
fn is_event_kind(kind: u8) -> bool
    ensures { result ≡ is_among (0x01 ∷ 0x02 ∷ []) kind }
{
    matches!(kind, HARDWARE_RESET | LINK_RESET)
}

// Whether this is the response of a RESPONSE: success or failure of the target.
fn is_response(response: u8) -> bool
    ensures { result ≡ is_among (0x00 ∷ 0x01 ∷ []) response }
{
    matches!(response, 0x00 | 0x01)
}

// Whether this is the status of a RESPONSE.
fn is_status(status: u8) -> bool
    ensures { result ≡ is_among (0x00 ∷ 0x02 ∷ 0x08 ∷ 0x28 ∷ []) status }
{
    matches!(status, 0x00 | 0x02 | 0x08 | 0x28)
}

// Whether all bytes are zero.
fn are_zeros(bytes: &[u8]) -> bool
    ensures { IsTrue result ↔ (bytes.now ≡ zeros (length bytes.now)) }
{
    bytes.iter().all(|byte| *byte == 0)
}
