//! What a script's lines print.
ghost use Rattle.std.specs.Prelude.{◌+◌, ◌*◌, ◌≤◌, ◌^◌, ◌<◌, length};

use crate::spelling::text;
use std::alloc::AllocError;
use std::io;
use std::io::Write;
use ufs_spec::{Job, Output, Place};

/// Adds the line that shows what an event gave. `die` is the die that the event named, if it did.
pub(crate) fn show(shown: &mut Vec<u8>, die: u32, output: &Output) -> io::Result<()> {
    match output {
        Output::Host(Err(fault)) => {
            let number = *fault as u8;
            writeln!(shown, "host fault {number}")
        }
        Output::Reply(Some(message)) => Ok(show_reply(shown, message.as_slice())?),
        Output::Take(None) => writeln!(shown, "take {die} none"),
        Output::Take(Some(job)) => show_job(shown, die, job),
        Output::Ended => writeln!(shown, "done {die} yes"),
        _ => {
            let words = plain_words(output);
            writeln!(shown, "{words}")
        }
    }
}

// The outputs that always print the same.
fn plain_words(output: &Output) -> &'static str {
    match output {
        Output::Host(_) => "host ok",
        Output::Turn(true) => "turn yes",
        Output::Turn(false) => "turn no",
        Output::Stopped => "stop ok",
        _ => "reply none",
    }
}

fn show_job(shown: &mut Vec<u8>, die: u32, job: &Job) -> io::Result<()> {
    let (word, place) = match job {
        Job::Read(place) => ("read", *place),
        Job::Program(place, _) => ("program", *place),
        Job::Erase { block, .. } => return writeln!(shown, "take {die} erase {block}"),
    };
    let Place { block, page, .. } = place;
    writeln!(shown, "take {die} {word} {block} {page}")
}

fn show_reply(shown: &mut Vec<u8>, message: &[u8]) -> Result<(), AllocError> {
    shown.extend_from_slice(b"reply ")?;
    let start = shown.len();
    let Some(digits) = message.len().checked_mul(2) else {
        return Err(AllocError);
    };
    let Some(end) = start.checked_add(digits) else {
        return Err(AllocError);
    };
    shown.resize(end, 0)?;
    let line = shown.as_mut_slice();
    text(message, &mut line[start..]);
    shown.extend_from_slice(b"\n")
}
