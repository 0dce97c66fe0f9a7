//! The messages that the device sends: what they say and how they are flagged (JESD220, 10.7).
ghost use Rattle.std.specs.Prelude.{◌≡◌, ◌≤◌, ◌==◌, ◌*◌, length, take, if◌then◌else◌, Some, None, ◌∷◌, []};
ghost use Rattle.ufs_spec.specs.Cdbs.{residual_of};
ghost use Rattle.ufs_spec.specs.Exchanges.{response, sense_data};
ghost use Rattle.ufs_spec.specs.declared.exchanges.Status.TheVariants.{CheckCondition};
ghost use Rattle.ufs_spec.specs.Messages.{AreBytes, IsMessage, IsQueryFunction, spelling};
ghost use Rattle.upiu.specs.Replies.{message_of};
ghost use Rattle.ufs_spec.specs.declared.Message.{Message};
ghost use Rattle.device.specs.Replies.{answer_of, block_message, block_wanted_message, count_of, frames_message};
ghost use Rattle.device.specs.Replies.{function_of, query_answer, query_with, ready_message, short_message};
ghost use Rattle.ufs_spec.specs.QueryAnswers.{query_failed};

use descriptors::{STANDARD_READ, STANDARD_WRITE, descriptor_told};
use task_set::{BLOCK_BYTES, Comparing, Queried, Sending, Short, ShortReply, Task, Wanted};
use ufs_bytes::Block;
use ufs_spec::{Data, Message, Numbers, Sense, Status, Upiu};
use upiu::Response;

/// The flag of a RESPONSE that says that less than expected was carried (JESD220, 10.7.2).
const UNDERFLOW: u8 = 0x20;

/// The flag of a RESPONSE that says that the command had more than was expected (JESD220, 10.7.2).
const OVERFLOW: u8 = 0x40;

/// Status codes of a RESPONSE (SAM, 5.3).
const GOOD: u8 = 0x00;

const CHECK_CONDITION: u8 = 0x02;

const BUSY: u8 = 0x08;

const TASK_SET_FULL: u8 = 0x28;

/// The response codes of a RESPONSE: what was asked for was done, or it was not (JESD220, 10.7.2).
const TARGET_SUCCESS: u8 = 0x00;

const TARGET_FAILURE: u8 = 0x01;

/// The response of a query that succeeded (JESD220, 10.7.9).
const SUCCESS: u8 = 0x00;

/// The flags of a RESPONSE and its residual count.
#[derive(Clone, Copy)]
struct Residual {
    flags: u8,
    count: u32,
}

/// What the RESPONSE says of a command of so many bytes, or with so many carried.
fn residual_of(expected: u32, length: u32) -> Residual
    ensures flags { result.flags ≡ (residual_of expected length).flags }
    ensures count { result.count ≡ (residual_of expected length).count }
{
    if length < expected {
        Residual {
            flags: UNDERFLOW,
            count: expected - length,
        }
    } else if length > expected {
        Residual {
            flags: OVERFLOW,
            count: length - expected,
        }
    } else {
        Residual { flags: 0, count: 0 }
    }
}

/// The twenty bytes of a RESPONSE's data segment: the length of the sense data and these.
fn sense_segment(sense: &Sense) -> [u8; 20]
    ensures { Some result ≡ sense_data (CheckCondition sense.now) }
{
    let mut bytes = [0u8; 20];
    bytes[1] = 18;
    bytes[2..].copy_from_slice(&scsi_cdb::sense_bytes(sense));
    bytes
}

/// The RESPONSE that ends a task (JESD220, 10.7.2).
fn response(lun: u8, tag: u8, expected: u32, status: Status, length: u32) -> Response
    ensures { message_of result ≡ response lun tag expected length status }
{
    let residual = residual_of(expected, length);
    match status {
        Status::Good => plain_response(lun, tag, residual, GOOD),
        Status::Busy => plain_response(lun, tag, residual, BUSY),
        Status::TaskSetFull => plain_response(lun, tag, residual, TASK_SET_FULL),
        Status::CheckCondition(sense) => sense_response(lun, tag, residual, &sense),
    }
}

/// A RESPONSE without sense data. Its response field is 01h exactly where the status is not GOOD.
fn plain_response(lun: u8, tag: u8, residual: Residual, status: u8) -> Response
    ensures { message_of result ≡
        Message.Response residual.flags lun tag (if status == 0 then 0 else 1) status residual.count None }
{
    Response {
        flags: residual.flags,
        lun,
        tag,
        response: if status == GOOD {
            TARGET_SUCCESS
        } else {
            TARGET_FAILURE
        },
        status,
        residual: residual.count,
        sense: None,
    }
}

/// A RESPONSE with status CHECK CONDITION and sense data.
fn sense_response(lun: u8, tag: u8, residual: Residual, sense: &Sense) -> Response
    ensures { message_of result ≡
        Message.Response residual.flags lun tag 1 2 residual.count (sense_data (CheckCondition sense.now)) }
{
    Response {
        flags: residual.flags,
        lun,
        tag,
        response: TARGET_FAILURE,
        status: CHECK_CONDITION,
        residual: residual.count,
        sense: Some(sense_segment(sense)),
    }
}

/// Writes the RESPONSE that ends a task.
pub(crate) fn write_answer(task: &Task, status: Status, length: u32, into: &mut Upiu)
    ensures { into.new.items ≡ spelling (answer_of task.now status length) }
{
    let said = response(task.lun, task.tag, task.expected, status, length);
    upiu::write_response(&said, into);
}

/// Writes the reply of a short exchange, on a device with this configuration.
pub(crate) fn write_short(numbers: &Numbers, short: &Short, into: &mut Upiu)
    ensures { into.new.items ≡ spelling (short_message numbers.now short.now) }
{
    let tag = short.tag;
    match short.reply {
        ShortReply::TaskSetFull { lun, expected } => {
            let said = response(lun, tag, expected, Status::TaskSetFull, 0);
            upiu::write_response(&said, into);
        }
        ShortReply::NopIn => upiu::write(&Message::NopIn { tag }, into),
        ShortReply::Managed { lun, service } => {
            upiu::write(&task_response(lun, tag, service), into);
        }
        ShortReply::QueryFailed { query, response } => {
            upiu::write(&query_failed(tag, query, response), into);
        }
        ShortReply::QueryDone { query, value } => {
            upiu::write(&query_done(numbers, tag, query, value), into);
        }
    }
}

/// The TASK MANAGEMENT RESPONSE with this service response (JESD220, 10.7.7).
fn task_response(lun: u8, tag: u8, service: u8) -> Message
    ensures what { result ≡ Message.TaskResponse lun tag service }
    ensures message { IsMessage result }
{
    Message::TaskResponse { lun, tag, service }
}

/// The QUERY RESPONSE with this response code, which tells nothing (JESD220, 10.7.9).
fn query_failed(tag: u8, query: Queried, response: u8) -> Message
    ensures what { result ≡ query_failed tag (query_with query 0) response }
    ensures message { IsMessage result }
{
    Message::QueryResponse {
        tag,
        function: query_function(query.writing),
        response,
        asked: query.asked,
        length: 0,
        value: 0,
        data: Data::new(),
    }
}

/// The QUERY RESPONSE of a query that succeeded: it tells the descriptor that was asked for, or this value
/// (JESD220, 10.7.9).
fn query_done(numbers: &Numbers, tag: u8, query: Queried, value: u32) -> Message
    ensures what { result ≡ query_answer numbers.now tag (query_with query 0) value }
    ensures message { IsMessage result }
{
    let told = descriptor_told(numbers, query.asked, query.length);
    Message::QueryResponse {
        tag,
        function: query_function(query.writing),
        response: SUCCESS,
        asked: query.asked,
        length: told.len() as u16,
        value,
        data: data_of(told.as_slice()),
    }
}

/// These bytes as the data of a message.
fn data_of(bytes: &[u8]) -> Data
    requires { length bytes.now ≤ 4096 }
    ensures items { result.items ≡ bytes.now }
    ensures are_bytes { AreBytes result.items }
{
    let mut data = Data::new();
    let _ = data.try_extend_from_slice(bytes);
    data
}

/// The function of a query.
pub(crate) fn query_function(writing: bool) -> u8
    ensures what { result ≡ function_of writing }
    ensures known { IsQueryFunction result }
{
    if writing {
        STANDARD_WRITE
    } else {
        STANDARD_READ
    }
}

/// How many bytes the DATA IN of the next block has: the block, or the rest of what the host expects, and
/// at least one.
fn count_of(expected: u32, sending: Sending) -> usize
    ensures what { result ≡ count_of expected sending }
    ensures some { (1 ≤ result) × (result ≤ 4096) }
{
    let sent = expected.min(sending.length);
    let rest = sent.saturating_sub(sending.offset());
    (rest as usize).clamp(1, BLOCK_BYTES as usize)
}

/// Writes the DATA IN of the task's next block (JESD220, 10.7.4).
pub(crate) fn write_block(task: &Task, sending: Sending, block: &Block, into: &mut Upiu)
    ensures { into.new.items ≡ spelling (block_message task.now sending block.now) }
{
    let count = count_of(task.expected, sending);
    upiu::write_data_in(task.lun, task.tag, sending.offset(), &block[..count], into);
}

/// Writes the READY TO TRANSFER for what a task asks for (JESD220, 10.7.5).
pub(crate) fn write_ready(task: &Task, wanted: Wanted, into: &mut Upiu)
    ensures { into.new.items ≡ spelling (ready_message task.now wanted) }
{
    upiu::write_ready_to_transfer(task.lun, task.tag, wanted.came, wanted.count(), into);
}

/// Writes the READY TO TRANSFER for the block with which a VERIFY compares its next one (JESD220, 10.7.5).
pub(crate) fn write_block_wanted(task: &Task, comparing: Comparing, into: &mut Upiu)
    ensures { into.new.items ≡ spelling (block_wanted_message task.now comparing) }
{
    upiu::write_ready_to_transfer(task.lun, task.tag, comparing.offset(), BLOCK_BYTES, into);
}

/// Writes the DATA IN of what a task keeps to send: the first of so many bytes, as many as the host expects, and at least one.
pub(crate) fn write_frames(task: &Task, length: u32, held: &Block, into: &mut Upiu)
    ensures { into.new.items ≡ spelling (frames_message task.now length held.now) }
{
    let count = (task.expected.min(length) as usize).clamp(1, BLOCK_BYTES as usize);
    upiu::write_data_in(task.lun, task.tag, 0, &held[..count], into);
}
