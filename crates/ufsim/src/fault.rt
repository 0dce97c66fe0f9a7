//! Why a script ends before its last line.
use std::alloc::{AllocError, AllocFailed};
use std::io;
use thiserror::Error;
use ufs_spec::{NoMemory, RunFault, RunFaultKind};

/// What is wrong at a line, by the word that the program prints.
#[derive(Clone, Copy, Debug, Error)]
pub enum Word {
    /// An unknown word, a wrong number of words, or a byte that is not ASCII.
    #[error("word")]
    Word,
    /// A number that is not of decimal digits, or is above 4294967295.
    #[error("number")]
    Number,
    /// Bytes that are not of two hexadecimal digits each.
    #[error("hex")]
    Hex,
    /// The first lines give no configuration, or one on which no device opens.
    #[error("config")]
    Config,
    /// The event does not fit the jobs in flight.
    #[error("event")]
    Event,
    /// Memory was refused.
    #[error("memory")]
    Memory,
}

/// Why a script ends, as the program prints it after its name.
#[derive(Clone, Copy, Debug, Error)]
pub enum ScriptFault {
    /// The line of this number, which counts from 1.
    #[error("line {number}: {word}")]
    Line { number: usize, word: Word },
    /// A write of the output failed.
    #[error("output")]
    Output,
}

impl From<AllocError> for Word {
    fn from(_: AllocError) -> Word {
        Word::Memory
    }
}

// What was to be added to a list that could not grow is let go.
impl<T: Drop> From<AllocFailed<T>> for Word {
    fn from(_: AllocFailed<T>) -> Word {
        Word::Memory
    }
}

impl From<NoMemory> for Word {
    fn from(_: NoMemory) -> Word {
        Word::Memory
    }
}

// An output is made in memory, so nothing else can fail.
impl From<io::Error> for Word {
    fn from(_: io::Error) -> Word {
        Word::Memory
    }
}

/// What is wrong at a line whose event the device did not take.
pub(crate) fn word_of(fault: &RunFault) -> Word {
    match fault.kind {
        RunFaultKind::NoMemory => Word::Memory,
        _ => Word::Event,
    }
}

impl From<io::Error> for ScriptFault {
    fn from(_: io::Error) -> ScriptFault {
        ScriptFault::Output
    }
}
