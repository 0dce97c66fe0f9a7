//! The lines that `ufsim run` prints, one for each line of a script after the first ones.
use crate::lines::{Words, number};
use crate::malformed::write_wrong_byte;
use crate::messages::MessageWords;
use crate::names::{host_fault_of, host_fault_words};
use crate::script::{Request, decoded};
use std::alloc::Global;
use std::fmt;

/// What a line of output tells.
#[derive(Drop)]
pub enum Answer {
    Taken,
    /// The number of the host fault.
    Refused(u32),
    NoReply,
    Reply(Vec<u8>),
    NoJob(u32),
    Read { die: u32, block: u32, page: u32 },
    Program { die: u32, block: u32, page: u32 },
    Erase { die: u32, block: u32 },
    Ended(u32),
    Turn(bool),
    Settled(u32),
    Stopped,
}

/// What a line of output tells, as the answer to this line of the script; `None` if it is no answer
/// to it.
pub fn read_answer(alloc: Global, asked: &Request<'_>, line: &str) -> Option<Answer> {
    match asked {
        Request::Host(_) => host_answer(line),
        Request::Reply => reply_answer(alloc, line),
        Request::Take(die) => take_answer(*die, line),
        Request::Done { die, .. } => {
            is_answer(line, "done", *die, "yes").then_some(Answer::Ended(*die))
        }
        Request::Turn => turn_answer(line),
        Request::Settle(rounds) => {
            is_answer(line, "settle", *rounds, "").then_some(Answer::Settled(*rounds))
        }
        Request::Stop(_) => (line == "stop ok").then_some(Answer::Stopped),
    }
}

// Whether the line is this word, this number, and a last word, if there is one.
fn is_answer(line: &str, name: &str, number: u32, last: &str) -> bool {
    let count = if last.is_empty() { 2 } else { 3 };
    let Ok(mut words) = Words::new(line, count, "") else {
        return false;
    };
    words.word() == name && is_number(words.word(), number) && words.word() == last
}

fn turn_answer(line: &str) -> Option<Answer> {
    match line {
        "turn yes" => Some(Answer::Turn(true)),
        "turn no" => Some(Answer::Turn(false)),
        _ => None,
    }
}

fn host_answer(line: &str) -> Option<Answer> {
    if line == "host ok" {
        return Some(Answer::Taken);
    }
    let digits = line.strip_prefix("host fault ")?;
    Some(Answer::Refused(number(digits).ok()?))
}

fn reply_answer(alloc: Global, line: &str) -> Option<Answer> {
    if line == "reply none" {
        return Some(Answer::NoReply);
    }
    let digits = line.strip_prefix("reply ")?;
    Some(Answer::Reply(decoded(alloc, digits).ok()?))
}

fn take_answer(die: u32, line: &str) -> Option<Answer> {
    let count = line.split_whitespace().count();
    let mut words = Words::new(line, count, "").ok()?;
    if words.word() != "take" || !is_number(words.word(), die) {
        return None;
    }
    match (words.word(), count) {
        ("none", 3) => Some(Answer::NoJob(die)),
        ("erase", 4) => {
            let block = words.number().ok()?;
            Some(Answer::Erase { die, block })
        }
        ("read", 5) => {
            let block = words.number().ok()?;
            let page = words.number().ok()?;
            Some(Answer::Read { die, block, page })
        }
        ("program", 5) => {
            let block = words.number().ok()?;
            let page = words.number().ok()?;
            Some(Answer::Program { die, block, page })
        }
        _ => None,
    }
}

// Whether the word is this number.
fn is_number(word: &str, wanted: u32) -> bool {
    match number(word) {
        Ok(found) => found == wanted,
        Err(_) => false,
    }
}

impl fmt::Display for Answer {
    fn fmt<W: fmt::Write>(&self, f: &mut fmt::Formatter<W>) -> fmt::Result {
        match self {
            Answer::Refused(fault) => write_refusal(f, *fault),
            Answer::Reply(bytes) => write_reply(f, bytes.as_slice()),
            Answer::NoJob(die) => write!(f, "die {die} gets no job"),
            Answer::Read { die, block, page } => {
                write!(f, "die {die} reads page {page} of block {block}")
            }
            Answer::Program { die, block, page } => {
                write!(f, "die {die} programs page {page} of block {block}")
            }
            Answer::Erase { die, block } => write!(f, "die {die} erases block {block}"),
            Answer::Ended(die) => write!(f, "the device knows how the job of die {die} ended"),
            Answer::Settled(rounds) => write!(f, "done, {rounds} rounds at most"),
            _ => f.write_str(self.plain_words()),
        }
    }
}

impl Answer {
    // The answers whose text is always the same.
    fn plain_words(&self) -> &'static str {
        match self {
            Answer::Taken => "taken",
            Answer::NoReply => "no reply is due",
            Answer::Turn(true) => "a step was done",
            Answer::Turn(false) => "no step was due",
            _ => "the device is open again; its tasks and its cache are gone",
        }
    }
}

fn write_refusal<W: fmt::Write>(f: &mut fmt::Formatter<W>, fault: u32) -> fmt::Result {
    match host_fault_of(fault) {
        Some(kind) => {
            let words = host_fault_words(kind);
            write!(f, "host fault {fault}: {words}")
        }
        None => write!(f, "host fault {fault}, a number without a name"),
    }
}

// A message of the device.
fn write_reply<W: fmt::Write>(f: &mut fmt::Formatter<W>, bytes: &[u8]) -> fmt::Result {
    match upiu::read(bytes) {
        Ok(message) => {
            let words = MessageWords(&message);
            write!(f, "{words}")
        }
        Err(fault) => {
            let words = host_fault_words(fault);
            write!(f, "no message: {words}")?;
            write_wrong_byte(f, bytes)
        }
    }
}
