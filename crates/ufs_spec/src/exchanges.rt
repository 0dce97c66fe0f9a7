//! What is open between a host and the device, as far as code and definitions say it in the same words
//! (JESD220, 10.7; SAM, tasks).
use crate::scsi::Sense;

/// How a command ends (SAM, status codes).
#[derive(Clone, Copy, Debug, Default, PartialEq, Eq)]
pub enum Status {
    /// What was asked for was done, or is accepted.
    #[default]
    Good,
    /// It was not done, and the sense data say why.
    CheckCondition(Sense),
    Busy,
    TaskSetFull,
}

/// What the data of a host are for.
#[derive(Clone, Copy, Debug, PartialEq, Eq)]
pub enum Purpose {
    /// The blocks of a WRITE (SBC): so many from an address of the unit on; `forced`: with FUA.
    ForWrite {
        unit: u8,
        address: u32,
        blocks: u16,
        forced: bool,
    },
    /// The list of an UNMAP of the unit (SBC).
    ForUnmap {
        unit: u8,
    },
    /// The frames of a SECURITY PROTOCOL OUT for a region of the RPMB (SPC; JESD220, 12.4).
    ForFrames {
        region: u8,
    },
}

/// Whether a block that stood on a page when it was looked up has been read.
#[derive(Clone, Copy, Debug, PartialEq, Eq)]
pub enum ReadState {
    Unread,
    WasRead,
    /// The read failed, or gave another page.
    NotRead,
}
