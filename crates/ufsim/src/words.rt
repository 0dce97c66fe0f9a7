//! The words of a line and their numbers.
ghost use Rattle.std.specs.Prelude.{◌<◌, length, IfSome};
ghost use Rattle.std.specs.Iterator.{at_most};

use crate::fault::Word;

/// The words that a line still has. They stand apart by one or more spaces.
#[derive(Clone, Copy)]
pub(crate) struct Words<'a> {
    rest: &'a [u8],
}

impl<'a> Words<'a> {
    pub fn new(line: &'a [u8]) -> Words<'a> {
        Words { rest: line }
    }

    /// The next word; `Word` where there is none.
    pub fn word(&mut self) -> Result<&'a [u8], Word> {
        self.next().ok_or(Word::Word)
    }

    /// The next word's number.
    pub fn number(&mut self) -> Result<u32, Word> {
        number(self.word()?)
    }
}

impl<'a> Iterator for Words<'a> {
    type Item = &'a [u8];

    ghost remaining = { λ s. at_most (length s.rest.now) };

    fn next(&mut self) -> Option<&'a [u8]> {
        let line = self.rest;
        let start = line.iter().position(|byte| *byte != b' ')?;
        let tail = &line[start + 1..];
        let more = index_of(tail, b' ').unwrap_or(tail.len());
        self.rest = &tail[more..];
        Some(&line[start..start + 1 + more])
    }
}

/// Where the byte first stands in the text.
pub(crate) fn index_of(text: &[u8], byte: u8) -> Option<usize>
    ensures { IfSome result (λ i. i < length text.now) }
{
    text.iter().position(|other| *other == byte)
}

/// `Word` unless just `count` words are left.
pub(crate) fn expect(words: Words<'_>, count: usize) -> Result<(), Word> {
    let mut found = 0usize;
    for _ in words {
        found = found.saturating_add(1);
    }
    if found == count {
        Ok(())
    } else {
        Err(Word::Word)
    }
}

/// A number in decimal digits, at most 4294967295; else `Number`.
pub(crate) fn number(digits: &[u8]) -> Result<u32, Word> {
    u32::try_from(long_number(digits)?).map_err(|_| Word::Number)
}

/// A number in decimal digits, at most 18446744073709551615; else `Number`.
pub(crate) fn long_number(digits: &[u8]) -> Result<u64, Word> {
    if digits.is_empty() {
        return Err(Word::Number);
    }
    let mut value = 0u64;
    for digit in digits {
        let digit = char::from(*digit).to_digit(10).ok_or(Word::Number)?;
        let tens = value.checked_mul(10).ok_or(Word::Number)?;
        value = tens.checked_add(u64::from(digit)).ok_or(Word::Number)?;
    }
    Ok(value)
}
