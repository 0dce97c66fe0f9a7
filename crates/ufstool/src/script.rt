//! The lines of a script after its first ones.
use crate::cause::Cause;
use crate::lines::{Words, first_word, number};
use std::alloc::Global;

/// What a line of a script asks for.
#[derive(Drop)]
pub enum Request<'a> {
    /// A message of these bytes.
    Host(Vec<u8>),
    Reply,
    Take(u32),
    Done { die: u32, is_ok: bool },
    Turn,
    Settle(u32),
    /// The power fails. These words say what each die leaves.
    Stop(&'a str),
}

/// No message has more bytes than this, so one byte more stands for any longer message.
const LONGEST: usize = 4128;

const HOST: &str = "host HEX";

const FILL: &str = "fill HEX BB N";

const TAKE: &str = "take DIE";

const DONE: &str = "done DIE ok, or: done DIE fail";

const SETTLE: &str = "settle ROUNDS";

const STOP: &str = "stop DIE:old DIE:new DIE:torn, with any number of these words";

/// Reads a line.
pub fn read_request(alloc: Global, line: &str) -> Result<Request<'_>, Cause<'_>> {
    match first_word(line) {
        "host" => read_host(alloc, line),
        "fill" => read_fill(alloc, line),
        "reply" => read_alone(line, "reply", Request::Reply),
        "take" => read_take(line),
        "done" => read_done(line),
        "turn" => read_alone(line, "turn", Request::Turn),
        "settle" => read_settle(line),
        "stop" => read_stop(line),
        "" => Err(Cause::Blank),
        "config" => Err(Cause::TooLate("config")),
        "unit" => Err(Cause::TooLate("unit")),
        "profile" => Err(Cause::TooLate("profile")),
        word => Err(Cause::Word(word)),
    }
}

// A request whose line has no further word.
fn read_alone<'a>(
    line: &'a str,
    form: &'static str,
    request: Request<'a>,
) -> Result<Request<'a>, Cause<'a>> {
    let _words = Words::new(line, 1, form)?;
    Ok(request)
}

fn read_host(alloc: Global, line: &str) -> Result<Request<'_>, Cause<'_>> {
    let mut words = Words::new(line, 2, HOST)?;
    let _name = words.word();
    Ok(Request::Host(decoded(alloc, words.word())?))
}

// The bytes of HEX, then N times the byte BB.
fn read_fill(alloc: Global, line: &str) -> Result<Request<'_>, Cause<'_>> {
    let mut words = Words::new(line, 4, FILL)?;
    let _name = words.word();
    let mut message = decoded(alloc, words.word())?;
    let (filler, count) = filling(words)?;
    let length = message.len().saturating_add(count.min(LONGEST + 1));
    message.resize(length, filler)?;
    Ok(Request::Host(message))
}

// The byte BB and the number N.
fn filling(mut words: Words<'_>) -> Result<(u8, usize), Cause<'_>> {
    let filler = filler_of(words.word())?;
    Ok((filler, words.number()? as usize))
}

fn filler_of(digits: &str) -> Result<u8, Cause<'_>> {
    let mut filler = [0];
    match hex::decode_to_slice(digits.as_bytes(), &mut filler) {
        Ok(()) => Ok(filler[0]),
        Err(_) => Err(Cause::Choice {
            word: digits,
            form: FILL,
        }),
    }
}

fn read_take(line: &str) -> Result<Request<'_>, Cause<'_>> {
    let mut words = Words::new(line, 2, TAKE)?;
    let _name = words.word();
    Ok(Request::Take(words.number()?))
}

fn read_done(line: &str) -> Result<Request<'_>, Cause<'_>> {
    let mut words = Words::new(line, 3, DONE)?;
    let _name = words.word();
    let die = words.word();
    let is_ok = match words.word() {
        "ok" => true,
        "fail" => false,
        word => return Err(Cause::Choice { word, form: DONE }),
    };
    let die = number(die)?;
    Ok(Request::Done { die, is_ok })
}

fn read_settle(line: &str) -> Result<Request<'_>, Cause<'_>> {
    let mut words = Words::new(line, 2, SETTLE)?;
    let _name = words.word();
    Ok(Request::Settle(words.number()?))
}

fn read_stop(line: &str) -> Result<Request<'_>, Cause<'_>> {
    for word in line.split_whitespace().skip(1) {
        if word.starts_with('#') {
            return Err(Cause::Comment);
        }
        read_left(word)?;
    }
    Ok(Request::Stop(line))
}

/// A die, and what its job leaves at a stop.
pub fn read_left(word: &str) -> Result<(u32, &str), Cause<'_>> {
    let wrong = Cause::Choice { word, form: STOP };
    let Some((die, content)) = word.split_once(':') else {
        return Err(wrong);
    };
    match content {
        "old" | "new" | "torn" => Ok((number(die)?, content)),
        _ => Err(wrong),
    }
}

/// The bytes that hexadecimal digits spell, two a byte, and one byte at least.
pub fn decoded(alloc: Global, digits: &str) -> Result<Vec<u8>, Cause<'_>> {
    if digits.starts_with("0x") || digits.starts_with("0X") {
        return Err(Cause::HexPrefix);
    }
    let bytes = digits.as_bytes();
    if let Some(place) = bytes.iter().position(|byte| !byte.is_ascii_hexdigit()) {
        return Err(Cause::HexDigit(place.saturating_add(1)));
    }
    if bytes.len() % 2 != 0 {
        return Err(Cause::HexCount(bytes.len()));
    }
    match hex::decode(alloc, bytes) {
        Ok(found) => Ok(found),
        Err(_) => Err(Cause::Memory),
    }
}
