//! What the lines behind the first ones ask for.
use crate::fault::Word;
use crate::spelling::decoded;
use crate::words::{Words, expect, index_of, number};
use std::alloc::Global;

/// What a line asks for. A die is as the line names it: a number above 255 names none.
#[derive(Drop)]
pub(crate) enum Command {
    /// A message of these bytes.
    Host(Vec<u8>),
    Reply,
    Take(u32),
    /// The job on a die ends, well or not.
    Done { die: u32, is_ok: bool },
    Turn,
    /// So many rounds of collection, mending and jobs.
    Settle(u32),
    /// The power fails. What each die's job leaves.
    Stop(Vec<Left>),
}

/// What the job of a die leaves at a stop.
#[derive(Clone, Copy, Drop)]
pub(crate) struct Left {
    pub die: u32,
    pub content: Content,
}

/// The content that a page or block has after a stop: what it had, what it was to have, or zeros.
#[derive(Clone, Copy)]
pub(crate) enum Content {
    Old,
    New,
    Torn,
}

/// No message has more bytes than this, so one byte more stands for any longer message: it is
/// refused for its length all the same.
const LONGEST: usize = 4128;

impl Command {
    /// Reads a line: `Word` before all, then from left to right `Number` and `Hex`.
    pub fn read(alloc: Global, line: &[u8]) -> Result<Command, Word> {
        let mut words = Words::new(line);
        let first = words.word()?;
        if !line.is_ascii() {
            return Err(Word::Word);
        }
        match first {
            b"host" => host(alloc, words),
            b"fill" => fill(alloc, words),
            b"reply" => alone(words, Command::Reply),
            b"take" => take(words),
            b"done" => done(words),
            b"turn" => alone(words, Command::Turn),
            b"settle" => settle(words),
            b"stop" => stop(alloc, words),
            _ => Err(Word::Word),
        }
    }
}

// A command without further words.
fn alone(words: Words<'_>, command: Command) -> Result<Command, Word> {
    expect(words, 0)?;
    Ok(command)
}

fn host(alloc: Global, mut words: Words<'_>) -> Result<Command, Word> {
    expect(words, 1)?;
    let message = decoded(alloc, words.word()?)?;
    Ok(Command::Host(message))
}

// The bytes of HEX, then N times the byte BB.
fn fill(alloc: Global, mut words: Words<'_>) -> Result<Command, Word> {
    expect(words, 3)?;
    let mut message = decoded(alloc, words.word()?)?;
    let (filler, count) = filling(words)?;
    let length = message.len().saturating_add(count.min(LONGEST + 1));
    message.resize(length, filler)?;
    Ok(Command::Host(message))
}

// The byte BB and the number N.
fn filling(mut words: Words<'_>) -> Result<(u8, usize), Word> {
    let mut filler = [0];
    if hex::decode_to_slice(words.word()?, &mut filler).is_err() {
        return Err(Word::Hex);
    }
    Ok((filler[0], words.number()? as usize))
}

fn take(mut words: Words<'_>) -> Result<Command, Word> {
    expect(words, 1)?;
    Ok(Command::Take(words.number()?))
}

fn done(mut words: Words<'_>) -> Result<Command, Word> {
    expect(words, 2)?;
    let digits = words.word()?;
    let is_ok = match words.word()? {
        b"ok" => true,
        b"fail" => false,
        _ => return Err(Word::Word),
    };
    let die = number(digits)?;
    Ok(Command::Done { die, is_ok })
}

fn settle(mut words: Words<'_>) -> Result<Command, Word> {
    expect(words, 1)?;
    Ok(Command::Settle(words.number()?))
}

// Any number of `D:old`, `D:new` and `D:torn`. All words are looked at before the first number.
fn stop(alloc: Global, words: Words<'_>) -> Result<Command, Word> {
    for word in words {
        read_left(word)?;
    }
    let mut all = Vec::new(alloc);
    for word in words {
        let (digits, content) = read_left(word)?;
        let die = number(digits)?;
        all.push(Left { die, content })?;
    }
    Ok(Command::Stop(all))
}

// The digits of a die, and what its job leaves.
fn read_left(word: &[u8]) -> Result<(&[u8], Content), Word> {
    let Some(colon) = index_of(word, b':') else {
        return Err(Word::Word);
    };
    let content = match &word[colon + 1..] {
        b"old" => Content::Old,
        b"new" => Content::New,
        b"torn" => Content::Torn,
        _ => return Err(Word::Word),
    };
    Ok((&word[..colon], content))
}
