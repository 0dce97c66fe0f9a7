//! What the data of messages are, field by field, in lines of their own.
use crate::fields::{Layout, write_fields};
use crate::frames::write_frames_of;
use crate::luns::write_luns;
use crate::operations::write_operations;
use std::io;
use std::io::Write;
use ufs_spec::operations::{
    ACTION, EVPD, INQUIRY, MAINTENANCE_IN, REPORT_LUNS, REPORT_OPERATIONS, TEST_UNIT_READY, UNMAP,
};
use ufs_spec::{Asked, Message};

/// The index of the RPMB unit's descriptor.
const RPMB_UNIT: u8 = 0xC4;

/// The operation codes of the commands that came last, by their task tags.
#[derive(Drop)]
pub struct Commands {
    operations: [u8; 256],
}

impl Commands {
    /// None came yet.
    pub fn new() -> Commands {
        Commands {
            operations: [TEST_UNIT_READY; 256],
        }
    }

    /// This message came.
    pub fn hear(&mut self, message: &Message) {
        if let Message::Command { tag, cdb, .. } = message {
            // Of other data of these operation codes no field is told.
            let is_told = match cdb[0] {
                INQUIRY => cdb[1] & EVPD == 0,
                MAINTENANCE_IN => asks_for_all(cdb),
                _ => true,
            };
            self.operations[usize::from(*tag)] = if is_told { cdb[0] } else { TEST_UNIT_READY };
        }
    }

    // The operation code of the command with this tag.
    fn operation(&self, tag: u8) -> u8 {
        self.operations[usize::from(tag)]
    }
}

// Whether a CDB of MAINTENANCE IN asks which commands there are, for all of them (SPC, REPORT
// SUPPORTED OPERATION CODES).
fn asks_for_all(cdb: &[u8; 16]) -> bool {
    cdb[1] & ACTION == REPORT_OPERATIONS && cdb[2] & 0x07 == 0
}

/// Says what the data of a message are: frames, a descriptor, UNMAP's list, or what INQUIRY, REPORT
/// LUNS and REPORT SUPPORTED OPERATION CODES tell.
/// Of other data nothing is said.
pub fn write_parts<W: Write>(
    message: &Message,
    commands: &Commands,
    key: Option<&[u8; 32]>,
    out: &mut W,
) -> io::Result<()> {
    match message {
        Message::QueryRequest { asked, data, .. } | Message::QueryResponse { asked, data, .. } => {
            write_descriptor(out, asked, data.as_slice())
        }
        Message::DataOut {
            tag,
            offset: 0,
            data,
            ..
        } if commands.operation(*tag) == UNMAP => {
            write_fields(out, Layout::UnmapList(data.len()), data.as_slice())
        }
        Message::DataIn {
            tag,
            offset: 0,
            data,
            ..
        } => match commands.operation(*tag) {
            INQUIRY => write_fields(out, Layout::Inquiry, data.as_slice()),
            REPORT_LUNS => write_luns(out, data.as_slice()),
            MAINTENANCE_IN => write_operations(out, data.as_slice()),
            _ => write_frames_of(message, key, out),
        },
        _ => write_frames_of(message, key, out),
    }
}

// The data of a query are a descriptor, or the beginning of one.
fn write_descriptor<W: Write>(out: &mut W, asked: &Asked, bytes: &[u8]) -> io::Result<()> {
    if !matches!(asked.opcode, 0x1 | 0x2) || bytes.is_empty() {
        return Ok(());
    }
    match descriptor_layout(asked.idn, asked.index) {
        Some(layout) => write_fields(out, layout, bytes),
        None => Ok(()),
    }
}

// How the descriptor with this IDN and index is laid out, if it is known.
fn descriptor_layout(idn: u8, index: u8) -> Option<Layout> {
    match (idn, index) {
        (0x00, _) => Some(Layout::Device),
        (0x01, _) => Some(Layout::Configuration),
        (0x02, RPMB_UNIT) => Some(Layout::RpmbUnit),
        (0x02, _) => Some(Layout::Unit),
        (0x04, _) => Some(Layout::Interconnect),
        (0x05, _) => Some(Layout::Characters),
        (0x07, _) => Some(Layout::Geometry),
        (0x08, _) => Some(Layout::Power),
        _ => None,
    }
}
