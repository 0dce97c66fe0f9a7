//! The message that the fields of some bytes name, whether or not the bytes spell it (JESD220,
//! 10.7).
ghost use Rattle.std.specs.Prelude.{◌≡◌, ◌≢◌, ◌≤◌, ◌+◌, length};
ghost use Rattle.ufs_spec.specs.Messages.{segment_length};
ghost use Rattle.upiu.specs.Reading.{asked_in, named_command, named_data_in, named_data_out};
ghost use Rattle.upiu.specs.Reading.{named_message, named_query_request, named_query_response};
ghost use Rattle.upiu.specs.Reading.{named_ready, named_response, named_task_request, segment_in};
ghost use Rattle.upiu.specs.Reading.{sense_in, Passes};

use crate::checks::{HEADER, code, stated_length};
use ufs_bytes::{read_u16, read_u32};
use ufs_spec::codes::{
    COMMAND, DATA_IN, DATA_OUT, LINK_EVENT, NOP_IN, NOP_OUT, QUERY_REQUEST, READY_TO_TRANSFER,
    RESPONSE, TASK_REQUEST, TASK_RESPONSE,
};
use ufs_spec::{Asked, Data, Message};

/// The message that the fields name, whether or not the bytes spell it.
pub fn message_in(bytes: &[u8]) -> Message
    requires { Passes bytes.now }
    ensures { result ≡ named_message bytes.now }
{
    match code(bytes) {
        NOP_OUT => Message::NopOut { tag: bytes[3] },
        COMMAND => command_in(bytes),
        DATA_OUT => data_out_in(bytes),
        TASK_REQUEST => task_request_in(bytes),
        QUERY_REQUEST => query_request_in(bytes),
        LINK_EVENT => Message::LinkEvent { kind: bytes[5] },
        NOP_IN => Message::NopIn { tag: bytes[3] },
        RESPONSE => response_in(bytes),
        DATA_IN => data_in_in(bytes),
        TASK_RESPONSE => Message::TaskResponse {
            lun: bytes[2],
            tag: bytes[3],
            service: bytes[15],
        },
        READY_TO_TRANSFER => ready_in(bytes),
        _ => query_response_in(bytes),
    }
}

// The COMMAND that the fields name.
fn command_in(bytes: &[u8]) -> Message
    requires { HEADER ≤ length bytes.now }
    ensures { result ≡ named_command bytes.now }
{
    let mut cdb = [0; 16];
    cdb.copy_from_slice(&bytes[16..32]);
    Message::Command {
        flags: bytes[1],
        lun: bytes[2],
        tag: bytes[3],
        expected: read_u32(bytes, 12),
        cdb,
    }
}

// The DATA OUT that the fields name.
fn data_out_in(bytes: &[u8]) -> Message
    requires fits { segment_length bytes.now ≤ 4096 }
    requires within { HEADER + segment_length bytes.now ≤ length bytes.now }
    ensures { result ≡ named_data_out bytes.now }
{
    Message::DataOut {
        lun: bytes[2],
        tag: bytes[3],
        offset: read_u32(bytes, 12),
        data: data_in(bytes),
    }
}

// The TASK MANAGEMENT REQUEST that the fields name.
fn task_request_in(bytes: &[u8]) -> Message
    requires { HEADER ≤ length bytes.now }
    ensures { result ≡ named_task_request bytes.now }
{
    Message::TaskRequest {
        lun: bytes[2],
        tag: bytes[3],
        function: bytes[5],
        meant: bytes[19],
    }
}

// The QUERY REQUEST that the fields name.
fn query_request_in(bytes: &[u8]) -> Message
    requires fits { segment_length bytes.now ≤ 4096 }
    requires within { HEADER + segment_length bytes.now ≤ length bytes.now }
    ensures { result ≡ named_query_request bytes.now }
{
    Message::QueryRequest {
        tag: bytes[3],
        function: bytes[5],
        asked: asked_in(bytes),
        length: read_u16(bytes, 18),
        value: read_u32(bytes, 20),
        data: data_in(bytes),
    }
}

// The RESPONSE that the fields name.
fn response_in(bytes: &[u8]) -> Message
    requires sense { segment_length bytes.now ≢ 0 → segment_length bytes.now ≡ 20 }
    requires within { HEADER + segment_length bytes.now ≤ length bytes.now }
    ensures { result ≡ named_response bytes.now }
{
    Message::Response {
        flags: bytes[1],
        lun: bytes[2],
        tag: bytes[3],
        response: bytes[6],
        status: bytes[7],
        residual: read_u32(bytes, 12),
        sense: sense_in(bytes),
    }
}

// The DATA IN that the fields name.
fn data_in_in(bytes: &[u8]) -> Message
    requires fits { segment_length bytes.now ≤ 4096 }
    requires within { HEADER + segment_length bytes.now ≤ length bytes.now }
    ensures { result ≡ named_data_in bytes.now }
{
    Message::DataIn {
        lun: bytes[2],
        tag: bytes[3],
        offset: read_u32(bytes, 12),
        data: data_in(bytes),
    }
}

// The READY TO TRANSFER that the fields name.
fn ready_in(bytes: &[u8]) -> Message
    requires { HEADER ≤ length bytes.now }
    ensures { result ≡ named_ready bytes.now }
{
    Message::ReadyToTransfer {
        lun: bytes[2],
        tag: bytes[3],
        offset: read_u32(bytes, 12),
        count: read_u32(bytes, 16),
    }
}

// The QUERY RESPONSE that the fields name.
fn query_response_in(bytes: &[u8]) -> Message
    requires fits { segment_length bytes.now ≤ 4096 }
    requires within { HEADER + segment_length bytes.now ≤ length bytes.now }
    ensures { result ≡ named_query_response bytes.now }
{
    Message::QueryResponse {
        tag: bytes[3],
        function: bytes[5],
        response: bytes[6],
        asked: asked_in(bytes),
        length: read_u16(bytes, 18),
        value: read_u32(bytes, 20),
        data: data_in(bytes),
    }
}

// What a query asks for.
fn asked_in(bytes: &[u8]) -> Asked
    requires { HEADER ≤ length bytes.now }
    ensures { result ≡ asked_in bytes.now }
{
    Asked {
        opcode: bytes[12],
        idn: bytes[13],
        index: bytes[14],
        selector: bytes[15],
    }
}

// The data segment, as data.
fn data_in(bytes: &[u8]) -> Data
    requires fits { segment_length bytes.now ≤ 4096 }
    requires within { HEADER + segment_length bytes.now ≤ length bytes.now }
    ensures { result ≡ record { items = segment_in bytes.now } }
{
    let mut data = Data::new();
    let _ = data.try_extend_from_slice(&bytes[HEADER..HEADER + stated_length(bytes)]);
    data
}

// The data segment, as sense data, where there is one.
fn sense_in(bytes: &[u8]) -> Option<[u8; 20]>
    requires sense { segment_length bytes.now ≢ 0 → segment_length bytes.now ≡ 20 }
    requires within { HEADER + segment_length bytes.now ≤ length bytes.now }
    ensures { result ≡ sense_in (segment_length bytes.now) (segment_in bytes.now) }
{
    let segment = stated_length(bytes);
    if segment == 0 {
        None
    } else {
        let mut sense = [0; 20];
        sense.copy_from_slice(&bytes[HEADER..HEADER + segment]);
        Some(sense)
    }
}
