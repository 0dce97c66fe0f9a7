//! The 32 bytes of a message's header, and its data segment (JESD220, 10.6.2 and 10.7).
ghost use Rattle.std.specs.Prelude.{◌≡◌, ◌≤◌, ◌∷◌, ◌++◌, [], drop, length, slice_index, take};
ghost use Rattle.ufs_spec.specs.Messages.{header, header_of, query_fields, segment_of, transfer, zeros};
ghost use Rattle.byteorder.specs.Endian.{big_bytes};

use ufs_bytes::{write_u16, write_u32};
use ufs_spec::codes::{
    COMMAND, DATA_IN, DATA_OUT, LINK_EVENT, NOP_IN, NOP_OUT, QUERY_REQUEST, QUERY_RESPONSE,
    READY_TO_TRANSFER, RESPONSE, TASK_REQUEST, TASK_RESPONSE,
};
use ufs_spec::{Asked, Message};

/// The 32 bytes of a message's header.
pub fn header_bytes(message: &Message) -> [u8; 32]
    ensures { result ≡ header_of message.now }
{
    let first = first_of(message);
    let details = details_of(message);
    let fields = fields_of(message);
    let mut bytes = [0; 32];
    bytes[0] = first[0];
    bytes[1] = first[1];
    bytes[2] = first[2];
    bytes[3] = first[3];
    bytes[5] = details[0];
    bytes[6] = details[1];
    bytes[7] = details[2];
    write_u16(&mut bytes, 10, segment_bytes(message).len() as u16);
    bytes[12..].copy_from_slice(&fields);
    bytes
}

/// The data segment of a message, without its padding.
pub fn segment_bytes(message: &Message) -> &[u8]
    ensures segment { result.now ≡ segment_of message.now }
    ensures fits { length result.now ≤ 4096 }
{
    match message {
        Message::DataOut { data, .. }
        | Message::QueryRequest { data, .. }
        | Message::DataIn { data, .. }
        | Message::QueryResponse { data, .. } => data.as_slice(),
        Message::Response {
            sense: Some(sense),
            ..
        } => sense,
        _ => &[],
    }
}

// Bytes 0 to 3: transaction code, flags, LUN and task tag.
fn first_of(message: &Message) -> [u8; 4]
    ensures { result ≡ take 4 (header_of message.now) }
{
    match message {
        Message::NopOut { tag } => [NOP_OUT, 0, 0, *tag],
        Message::Command {
            flags,
            lun,
            tag,
            ..
        } => [COMMAND, *flags, *lun, *tag],
        Message::DataOut { lun, tag, .. } => [DATA_OUT, 0, *lun, *tag],
        Message::TaskRequest { lun, tag, .. } => [TASK_REQUEST, 0, *lun, *tag],
        Message::QueryRequest { tag, .. } => [QUERY_REQUEST, 0, 0, *tag],
        Message::LinkEvent { .. } => [LINK_EVENT, 0, 0, 0],
        Message::NopIn { tag } => [NOP_IN, 0, 0, *tag],
        Message::Response {
            flags,
            lun,
            tag,
            ..
        } => [RESPONSE, *flags, *lun, *tag],
        Message::DataIn { lun, tag, .. } => [DATA_IN, 0, *lun, *tag],
        Message::TaskResponse { lun, tag, .. } => [TASK_RESPONSE, 0, *lun, *tag],
        Message::ReadyToTransfer { lun, tag, .. } => [READY_TO_TRANSFER, 0, *lun, *tag],
        Message::QueryResponse { tag, .. } => [QUERY_RESPONSE, 0, 0, *tag],
    }
}

// Bytes 5 to 7: the query or task management function or the kind of a LINK EVENT, the response and the
// status.
fn details_of(message: &Message) -> [u8; 3]
    ensures { result ≡ take 3 (drop 5 (header_of message.now)) }
{
    match message {
        Message::TaskRequest { function, .. } | Message::QueryRequest { function, .. } => {
            [*function, 0, 0]
        }
        Message::LinkEvent { kind } => [*kind, 0, 0],
        Message::Response {
            response,
            status,
            ..
        } => [0, *response, *status],
        Message::QueryResponse {
            function,
            response,
            ..
        } => [*function, *response, 0],
        _ => [0; 3],
    }
}

// Bytes 12 to 31: the fields of the message's own kind.
fn fields_of(message: &Message) -> [u8; 20]
    ensures { result ≡ drop 12 (header_of message.now) }
{
    match message {
        Message::Command { expected, cdb, .. } => command_fields(*expected, cdb),
        Message::DataOut { offset, data, .. } | Message::DataIn { offset, data, .. } => {
            transfer_fields(*offset, data.len() as u32)
        }
        Message::TaskRequest { lun, meant, .. } => task_fields(*lun, *meant),
        Message::QueryRequest {
            asked,
            length,
            value,
            ..
        }
        | Message::QueryResponse {
            asked,
            length,
            value,
            ..
        } => { query_fields(asked, *length, *value) }
        Message::Response { residual, .. } => command_fields(*residual, &[0; 16]),
        Message::TaskResponse { service, .. } => task_fields(*service, 0),
        Message::ReadyToTransfer { offset, count, .. } => transfer_fields(*offset, *count),
        Message::NopOut { .. } | Message::LinkEvent { .. } | Message::NopIn { .. } => [0; 20],
    }
}

/// The header of a DATA OUT or a DATA IN of so many bytes: `kind` is its transaction code.
pub fn transfer_header(kind: u8, lun: u8, tag: u8, offset: u32, count: usize) -> [u8; 32]
    requires { count ≤ 4096 }
    ensures { result ≡ header kind 0 lun tag 0 0 0 count (transfer offset count) }
{
    let mut bytes = [0; 32];
    bytes[0] = kind;
    bytes[2] = lun;
    bytes[3] = tag;
    write_u16(&mut bytes, 10, count as u16);
    bytes[12..].copy_from_slice(&transfer_fields(offset, count as u32));
    bytes
}

// The expected length and the CDB of a COMMAND; the residual of a RESPONSE, with zeros.
pub fn command_fields(number: u32, cdb: &[u8; 16]) -> [u8; 20]
    ensures { result ≡ big_bytes 4 number ++ cdb.now }
{
    let mut fields = [0; 20];
    write_u32(&mut fields, 0, number);
    fields[4..].copy_from_slice(cdb);
    fields
}

// The offset and the count of a DATA OUT, DATA IN or READY TO TRANSFER.
pub fn transfer_fields(offset: u32, count: u32) -> [u8; 20]
    ensures { result ≡ transfer offset count }
{
    let mut fields = [0; 20];
    write_u32(&mut fields, 0, offset);
    write_u32(&mut fields, 4, count);
    fields
}

// The two bytes of a TASK MANAGEMENT REQUEST or RESPONSE, bytes 15 and 19 of the message.
fn task_fields(first: u8, second: u8) -> [u8; 20]
    ensures { result ≡ zeros 3 ++ (first ∷ []) ++ zeros 3 ++ (second ∷ []) ++ zeros 12 }
{
    let mut fields = [0; 20];
    fields[3] = first;
    fields[7] = second;
    fields
}

// What a query asks for, its length and its value.
fn query_fields(asked: &Asked, size: u16, value: u32) -> [u8; 20]
    ensures { result ≡ query_fields asked.now size value }
{
    let mut fields = [0; 20];
    fields[0] = asked.opcode;
    fields[1] = asked.idn;
    fields[2] = asked.index;
    fields[3] = asked.selector;
    write_u16(&mut fields, 6, size);
    write_u32(&mut fields, 8, value);
    fields
}
