//! Messages in words.
use crate::commands::write_command;
use crate::names::{
    additional_sense_name, event_name, known_unit_name, sense_key_name, service_name, status_name,
    task_function_name,
};
use crate::query_words;
use crate::query_words::QueryFields;
use std::fmt;
use ufs_spec::codes::{ABORT_TASK, QUERY_TASK};
use ufs_spec::{Message, Sense};

/// A message in words, on one line.
#[derive(Clone, Copy)]
pub struct MessageWords<'a>(pub &'a Message);

/// So many bytes are shown one by one.
const SHOWN_BYTES: usize = 18;

impl fmt::Display for MessageWords<'_> {
    fn fmt<W: fmt::Write>(&self, f: &mut fmt::Formatter<W>) -> fmt::Result {
        if let Message::LinkEvent { kind } = self.0 {
            return write_event(f, *kind);
        }
        let (name, tag) = head_of(self.0);
        write!(f, "{name} task {tag:02X}h")?;
        if let Some(lun) = lun_of(self.0) {
            f.write_str(", ")?;
            write_lun(f, lun)?;
        }
        write_fields(f, self.0)
    }
}

// A LINK EVENT, which has no task tag.
fn write_event<W: fmt::Write>(f: &mut fmt::Formatter<W>, kind: u8) -> fmt::Result {
    let name = event_name(kind);
    write!(f, "LINK EVENT (1Fh): {name} ({kind:02X}h)")
}

// The name of a message with its transaction code, and its task tag; 0, if it has none.
fn head_of(message: &Message) -> (&'static str, u8) {
    match message {
        Message::NopOut { tag } => ("NOP OUT (00h)", *tag),
        Message::NopIn { tag } => ("NOP IN (20h)", *tag),
        Message::Command { tag, .. } => ("COMMAND (01h)", *tag),
        Message::DataOut { tag, .. } => ("DATA OUT (02h)", *tag),
        Message::DataIn { tag, .. } => ("DATA IN (22h)", *tag),
        Message::ReadyToTransfer { tag, .. } => ("READY TO TRANSFER (31h)", *tag),
        Message::Response { tag, .. } => ("RESPONSE (21h)", *tag),
        Message::TaskRequest { tag, .. } => ("TASK MANAGEMENT REQUEST (04h)", *tag),
        Message::TaskResponse { tag, .. } => ("TASK MANAGEMENT RESPONSE (24h)", *tag),
        Message::QueryRequest { tag, .. } => ("QUERY REQUEST (16h)", *tag),
        Message::QueryResponse { tag, .. } => ("QUERY RESPONSE (36h)", *tag),
        Message::LinkEvent { .. } => ("LINK EVENT (1Fh)", 0),
    }
}

// The LUN of a message, if its words tell it.
fn lun_of(message: &Message) -> Option<u8> {
    match message {
        Message::Command { lun, .. }
        | Message::DataOut { lun, .. }
        | Message::DataIn { lun, .. }
        | Message::ReadyToTransfer { lun, .. }
        | Message::Response { lun, .. }
        | Message::TaskRequest { lun, .. }
        | Message::TaskResponse { lun, .. } => Some(*lun),
        _ => None,
    }
}

/// The unit with this LUN.
pub fn write_lun<W: fmt::Write>(f: &mut fmt::Formatter<W>, lun: u8) -> fmt::Result {
    match known_unit_name(lun) {
        Some(name) => write!(f, "well known unit {name}"),
        None => write!(f, "unit {lun}"),
    }
}

// What comes after the unit.
fn write_fields<W: fmt::Write>(f: &mut fmt::Formatter<W>, message: &Message) -> fmt::Result {
    match message {
        Message::NopOut { .. } | Message::NopIn { .. } => Ok(()),
        Message::Command {
            flags,
            expected,
            cdb,
            ..
        } => write_command(f, *flags, *expected, cdb),
        Message::DataOut { offset, data, .. } | Message::DataIn { offset, data, .. } => {
            write_data(f, *offset, data.as_slice())
        }
        Message::Response {
            flags,
            status,
            residual,
            sense,
            ..
        } => write_response(f, *flags, *status, *residual, sense),
        Message::QueryRequest { .. } | Message::QueryResponse { .. } => {
            write_query_fields(f, message)
        }
        _ => write_short_fields(f, message),
    }
}

// QUERY REQUEST and QUERY RESPONSE.
fn write_query_fields<W: fmt::Write>(f: &mut fmt::Formatter<W>, message: &Message) -> fmt::Result {
    match message {
        Message::QueryRequest {
            function,
            asked,
            length,
            value,
            data,
            ..
        } => query_words::write_request(
            f,
            &QueryFields {
                function: *function,
                asked: *asked,
                length: *length,
                value: *value,
                data: data.as_slice(),
            },
        ),
        Message::QueryResponse {
            function,
            response,
            asked,
            length,
            value,
            data,
            ..
        } => query_words::write_response(
            f,
            *response,
            &QueryFields {
                function: *function,
                asked: *asked,
                length: *length,
                value: *value,
                data: data.as_slice(),
            },
        ),
        _ => Ok(()),
    }
}

// READY TO TRANSFER and task management.
fn write_short_fields<W: fmt::Write>(f: &mut fmt::Formatter<W>, message: &Message) -> fmt::Result {
    match message {
        Message::ReadyToTransfer { offset, count, .. } => {
            write!(f, ": asks for {count} bytes at offset {offset}")
        }
        Message::TaskRequest {
            function,
            meant,
            ..
        } => write_function(f, *function, *meant),
        Message::TaskResponse { service, .. } => {
            let name = service_name(*service);
            write!(f, ": {name} ({service:02X}h)")
        }
        _ => Ok(()),
    }
}

// A task management function, and the task that is meant. A function of all tasks of a unit means
// none.
fn write_function<W: fmt::Write>(
    f: &mut fmt::Formatter<W>,
    function: u8,
    meant: u8,
) -> fmt::Result {
    let name = task_function_name(function);
    write!(f, ": {name} ({function:02X}h)")?;
    match function {
        ABORT_TASK | QUERY_TASK => write!(f, " of task {meant:02X}h"),
        _ if meant == 0 => Ok(()),
        _ => write!(
            f,
            "; byte 19 has the tag {meant:02X}h, which says nothing here"
        ),
    }
}

// The data of a message.
fn write_data<W: fmt::Write>(f: &mut fmt::Formatter<W>, offset: u32, bytes: &[u8]) -> fmt::Result {
    let count = bytes.len();
    write!(f, ": {count} bytes at offset {offset}")?;
    write_contents(f, bytes)
}

/// What the bytes are, if all are the same, or the first of them.
pub fn write_contents<W: fmt::Write>(f: &mut fmt::Formatter<W>, bytes: &[u8]) -> fmt::Result {
    match repeated(bytes) {
        Some(byte) => write!(f, ", each {byte:02X}h"),
        None => write_bytes(f, bytes),
    }
}

// The byte of which all of these are, if they are more than one.
fn repeated(bytes: &[u8]) -> Option<u8> {
    let first = *bytes.first()?;
    if bytes.len() > 1 && bytes.iter().all(|byte| *byte == first) {
        Some(first)
    } else {
        None
    }
}

fn write_bytes<W: fmt::Write>(f: &mut fmt::Formatter<W>, bytes: &[u8]) -> fmt::Result {
    f.write_str(":")?;
    for byte in bytes.iter().take(SHOWN_BYTES) {
        write!(f, " {byte:02X}")?;
    }
    f.write_str(if bytes.len() > SHOWN_BYTES { " .." } else { "" })
}

// A RESPONSE: its status, its sense data and its residual.
fn write_response<W: fmt::Write>(
    f: &mut fmt::Formatter<W>,
    flags: u8,
    status: u8,
    residual: u32,
    sense: &Option<[u8; 20]>,
) -> fmt::Result {
    let name = status_name(status);
    write!(f, ": {name}")?;
    if let Some(bytes) = sense {
        write_sense(f, bytes)?;
    }
    write_residual(f, flags, residual)
}

fn write_sense<W: fmt::Write>(f: &mut fmt::Formatter<W>, bytes: &[u8; 20]) -> fmt::Result {
    // Two bytes of length come before the sense data.
    let sense = Sense {
        key: bytes[4] & 0x0F,
        asc: bytes[14],
        ascq: bytes[15],
    };
    let key = sense_key_name(sense.key);
    let name = additional_sense_name(&sense);
    let Sense {
        key: number,
        asc,
        ascq,
    } = sense;
    write!(f, ", {key}, {name} ({number:X}/{asc:02X}/{ascq:02X})")
}

fn write_residual<W: fmt::Write>(
    f: &mut fmt::Formatter<W>,
    flags: u8,
    residual: u32,
) -> fmt::Result {
    match (flags, residual) {
        (0x00, 0) => Ok(()),
        (0x20, 1..) => write!(f, ", underflow: {residual} bytes fewer than expected"),
        (0x40, 1..) => write!(f, ", overflow: {residual} bytes more than expected"),
        _ => {
            write!(
                f,
                ", flags {flags:02X}h and residual {residual}, which do not agree"
            )
        }
    }
}
