//! The lines of a script.
ghost use Rattle.std.specs.Prelude.{◌<◌, length};
ghost use Rattle.std.specs.Iterator.{at_most};

use crate::fault::{ScriptFault, Word};
use crate::words::index_of;

/// A line with its number, which counts from 1.
#[derive(Clone, Copy)]
pub(crate) struct Line<'a> {
    pub number: usize,
    pub bytes: &'a [u8],
}

impl Line<'_> {
    /// What came of this line: its word becomes the fault of the line.
    pub fn told<T>(&self, found: Result<T, Word>) -> Result<T, ScriptFault> {
        match found {
            Ok(value) => Ok(value),
            Err(word) => Err(ScriptFault::Line {
                number: self.number,
                word,
            }),
        }
    }
}

/// The lines that say something: neither empty nor a comment. Each ends with a line feed, save that
/// the last one may end with the script.
#[derive(Clone, Copy)]
pub(crate) struct Lines<'a> {
    rest: &'a [u8],
    /// How many lines were read, silent ones too.
    number: usize,
}

impl<'a> Lines<'a> {
    pub fn new(script: &'a [u8]) -> Lines<'a> {
        Lines {
            rest: script,
            number: 0,
        }
    }

    /// The fault of a line that is missing: it stands one past the last line that was read.
    pub fn missing(&self) -> ScriptFault {
        ScriptFault::Line {
            number: self.number.saturating_add(1),
            word: Word::Word,
        }
    }
}

impl<'a> Iterator for Lines<'a> {
    type Item = Line<'a>;

    ghost remaining = { λ s. at_most (length s.rest.now) };

    fn next(&mut self) -> Option<Line<'a>> {
        while !self.rest.is_empty() {
            let (bytes, rest) = first_line(self.rest);
            self.rest = rest;
            self.number = self.number.saturating_add(1);
            if !bytes.is_empty() && bytes[0] != b'#' {
                let number = self.number;
                return Some(Line { number, bytes });
            }
        }
        None
    }
}

// The first line, without its line feed, and what stands behind it.
fn first_line(text: &[u8]) -> (&[u8], &[u8])
    requires { 0 < length text.now }
    ensures { length result.1.now < length text.now }
{
    match index_of(text, b'\n') {
        Some(end) => (&text[..end], &text[end + 1..]),
        None => (text, &[]),
    }
}
