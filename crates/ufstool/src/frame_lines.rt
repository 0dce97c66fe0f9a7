//! Says in words what frames are that lines give in hexadecimal digits.
ghost use Rattle.std.specs.Prelude.{◌≡◌, ◌≤◌};

use crate::cause::Cause;
use crate::frames::write_frames;
use crate::lines::{Line, Lines, line_text};
use crate::script::decoded;
use crate::telling::is_silent;
use std::alloc::Global;
use std::io::Write;

/// Says what the frames of the replay protected memory block in a text are, on `out`: each line has
/// one frame or several in hexadecimal digits, and the last frame of a line has the MAC of all.
/// Under a key it is told whether the MAC is right. What is wrong is told in one line on `faults`,
/// with the number of the line; nothing is told of the lines after it.
///
/// The status is 0 if every line was told, else 1.
pub fn explain_frames<W: Write, F: Write>(
    alloc: Global,
    text: &[u8],
    key: Option<&[u8; 32]>,
    out: &mut W,
    faults: &mut F,
) -> u8
    ensures status { result ≤ 1 }
    ensures quiet { result ≡ 0 → faults.new ≡ faults.old }
{
    match tell_all(alloc, text, key, out) {
        Ok(()) => 0,
        Err(Fault { number, cause }) => {
            // Where the fault itself cannot be told, the status alone tells it.
            let _ = writeln!(faults, "ufstool: line {number}: {cause}");
            1
        }
    }
}

// What is wrong, and the number of its line.
#[derive(Clone, Copy)]
struct Fault<'a> {
    number: usize,
    cause: Cause<'a>,
}

fn tell_all<'a, W: Write>(
    alloc: Global,
    text: &'a [u8],
    key: Option<&[u8; 32]>,
    out: &mut W,
) -> Result<(), Fault<'a>> {
    let mut number = 0;
    for line in Lines::new(text) {
        number = line.number;
        if !is_silent(line.bytes) {
            if let Err(cause) = tell(alloc, line, key, out) {
                return Err(Fault { number, cause });
            }
        }
    }
    match out.flush() {
        Ok(()) => Ok(()),
        Err(_) => Err(Fault {
            number,
            cause: Cause::Output,
        }),
    }
}

// Tells a line.
fn tell<'a, W: Write>(
    alloc: Global,
    line: Line<'a>,
    key: Option<&[u8; 32]>,
    out: &mut W,
) -> Result<(), Cause<'a>> {
    let bytes = decoded(alloc, line_text(line.bytes)?.trim())?;
    let count = bytes.len();
    if count % 512 != 0 {
        return Err(Cause::FrameBytes(count));
    }
    let number = line.number;
    writeln!(out, "line {number}: {count} bytes")?;
    Ok(write_frames(bytes.as_slice(), key, out)?)
}
