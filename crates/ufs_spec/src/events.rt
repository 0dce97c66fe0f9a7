//! What happens to a device with its dies, and what each event shows.
use crate::faults::HostFault;
use crate::flash::{Job, Page, Place};
use thiserror::Error;
use ufs_bytes::Upiu;

/// What an interrupted or failed job leaves: the one page, or all pages of the one block, that it
/// touched.
#[derive(Drop)]
pub enum Leftover {
    Page(Place, Page),
    Block {
        die: u8,
        block: u16,
        pages: Vec<Page>,
    },
}

/// What happens to a device with its dies. A `Fail` of a read leaves nothing.
#[derive(Drop)]
pub enum Event {
    Host(Vec<u8>),
    Reply,
    Take(u8),
    Finish(u8),
    Fail(u8, Option<Leftover>),
    Turn,
    Stop(Vec<Leftover>),
}

/// What an event shows: `Ended` is for `Finish` and `Fail`, `Stopped` for `Stop`.
#[derive(Drop)]
pub enum Output {
    Host(Result<(), HostFault>),
    Reply(Option<Upiu>),
    Take(Option<Job>),
    Turn(bool),
    Ended,
    Stopped,
}

/// What a run has shown: one output for each event.
pub type Trace = Vec<Output>;

/// Why a run ends before its last event.
#[derive(Clone, Copy, Debug, Error, PartialEq, Eq)]
pub enum RunFaultKind {
    #[error("out of memory")]
    NoMemory = 1,
    #[error("a leftover is neither the old nor the intended content, and its check holds")]
    BadLeftover = 2,
    #[error("the event does not fit the jobs in flight, or the dies do not fit the configuration")]
    WrongEvent = 3,
}

/// Where a run ended and why: the position counts events from 1, and 0 is the first opening. The
/// trace is that of the events before.
#[derive(Drop)]
pub struct RunFault {
    pub kind: RunFaultKind,
    pub position: usize,
    pub trace: Trace,
}
