//! The lines of a text, and the words of a line.
ghost use Rattle.std.specs.Prelude.{◌<◌, length};
ghost use Rattle.std.specs.Iterator.{at_most};

use crate::cause::Cause;

/// A line with its number, which counts from 1.
#[derive(Clone, Copy)]
pub struct Line<'a> {
    pub number: usize,
    pub bytes: &'a [u8],
}

/// The lines of a text. Each ends with a line feed, save that the last one may end with the text.
#[derive(Clone, Copy)]
pub struct Lines<'a> {
    rest: &'a [u8],
    /// How many lines were read.
    number: usize,
}

impl<'a> Lines<'a> {
    pub fn new(text: &'a [u8]) -> Lines<'a> {
        Lines {
            rest: text,
            number: 0,
        }
    }
}

impl<'a> Iterator for Lines<'a> {
    type Item = Line<'a>;

    ghost remaining = { λ s. at_most (length s.rest.now) };

    fn next(&mut self) -> Option<Line<'a>> {
        if self.rest.is_empty() {
            return None;
        }
        let (bytes, rest) = first_line(self.rest);
        self.rest = rest;
        self.number = self.number.saturating_add(1);
        let number = self.number;
        Some(Line { number, bytes })
    }
}

// The first line, without its line feed, and what comes after it.
fn first_line(text: &[u8]) -> (&[u8], &[u8])
    requires { 0 < length text.now }
    ensures { length result.1.now < length text.now }
{
    match text.iter().position(|byte| *byte == b'\n') {
        Some(end) => (&text[..end], &text[end + 1..]),
        None => (text, &[]),
    }
}

/// The text of a line of a script; the cause if it has a byte that no line may have.
pub fn line_text(bytes: &[u8]) -> Result<&str, Cause<'_>> {
    if bytes.starts_with(&[0xEF, 0xBB, 0xBF]) || bytes.starts_with(&[0xFF, 0xFE]) {
        return Err(Cause::ByteOrderMark);
    }
    if bytes.contains(&b'\r') {
        return Err(Cause::CarriageReturn);
    }
    if bytes.contains(&b'\t') {
        return Err(Cause::Tab);
    }
    match bytes.iter().find(|byte| !is_plain(**byte)) {
        Some(byte) => Err(Cause::Byte(*byte)),
        None => match std::str::from_utf8(bytes) {
            Ok(text) => Ok(text),
            Err(_) => Err(Cause::Byte(0)),
        },
    }
}

// Whether a line may have the byte.
fn is_plain(byte: u8) -> bool {
    0x20 <= byte && byte < 0x7F
}

/// The words that a line still has. One or more spaces part them.
#[derive(Clone, Copy)]
pub struct Words<'a> {
    rest: &'a str,
}

impl<'a> Words<'a> {
    /// The words of a line that has just `count` of them; `form` shows how the line is to be
    /// written.
    pub fn new(line: &'a str, count: usize, form: &'static str) -> Result<Words<'a>, Cause<'a>> {
        if line.split_whitespace().any(|word| word.starts_with('#')) {
            return Err(Cause::Comment);
        }
        let found = line.split_whitespace().count();
        if found == count {
            Ok(Words { rest: line })
        } else {
            Err(Cause::WordCount { count: found, form })
        }
    }

    /// The next word; an empty one after the last.
    pub fn word(&mut self) -> &'a str {
        let rest = self.rest.trim_start();
        match rest.split_once(' ') {
            Some((word, more)) => {
                self.rest = more;
                word
            }
            None => {
                self.rest = "";
                rest
            }
        }
    }

    /// The number that the next word is.
    pub fn number(&mut self) -> Result<u32, Cause<'a>> {
        number(self.word())
    }
}

/// A number in decimal digits, at most 4294967295.
pub fn number(word: &str) -> Result<u32, Cause<'_>> {
    if !word.bytes().all(|byte| byte.is_ascii_digit()) {
        return Err(Cause::Number(word));
    }
    match word.parse() {
        Ok(number) => Ok(number),
        Err(_) => Err(Cause::NumberSize(word)),
    }
}

/// A number in decimal digits, at most 18446744073709551615.
pub fn long_number(word: &str) -> Result<u64, Cause<'_>> {
    if !word.bytes().all(|byte| byte.is_ascii_digit()) {
        return Err(Cause::Number(word));
    }
    match word.parse() {
        Ok(number) => Ok(number),
        Err(_) => Err(Cause::LongNumberSize(word)),
    }
}

/// The numbers of a line of a name and `N` numbers; `form` shows how the line is to be written.
pub fn numbers_in<'a, const N: usize>(
    line: &'a str,
    form: &'static str,
) -> Result<[u32; N], Cause<'a>> {
    let mut words = Words::new(line, N.saturating_add(1), form)?;
    let _name = words.word();
    let mut numbers = [0; N];
    for i in 0..N {
        numbers[i] = words.number()?;
    }
    Ok(numbers)
}

/// The first word of a line, if it has any.
pub fn first_word(line: &str) -> &str {
    line.split_whitespace().next().unwrap_or("")
}
