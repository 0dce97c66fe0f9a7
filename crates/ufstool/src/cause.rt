//! What is wrong with an input, and what to do about it.
use std::alloc::AllocError;
use std::{fmt, io};

/// A number of the configuration, and what it has to be.
#[derive(Clone, Copy)]
pub struct Range {
    pub name: &'static str,
    pub number: u32,
    pub low: u32,
    pub high: u32,
}

impl Range {
    /// Whether the number is as it has to be.
    pub fn is_kept(&self) -> bool {
        self.low <= self.number && self.number <= self.high
    }

    /// What is wrong, where it is not.
    pub fn write<W: fmt::Write>(&self, f: &mut fmt::Formatter<W>) -> fmt::Result {
        let Range {
            name,
            number,
            low,
            high,
        } = *self;
        write!(f, "{name}: {number}; it has to be {low} to {high}")
    }
}

/// Why a line of a script cannot be run. Its text names the cause and says what to do.
#[derive(Clone, Copy)]
pub enum Cause<'a> {
    /// The text begins with a byte order mark.
    ByteOrderMark,
    /// The line has a carriage return.
    CarriageReturn,
    /// The line has a tab.
    Tab,
    /// The line has a byte that is no plain ASCII.
    Byte(u8),
    /// A comment comes after other words.
    Comment,
    /// The line begins with spaces alone.
    Blank,
    /// No line begins with this word.
    Word(&'a str),
    /// The line has another count of words than its form.
    WordCount { count: usize, form: &'static str },
    /// One of the words is none of those that may be there.
    Choice { word: &'a str, form: &'static str },
    /// The word is not of decimal digits.
    Number(&'a str),
    /// The number is above 4294967295.
    NumberSize(&'a str),
    /// The number of 64 bits is above 18446744073709551615.
    LongNumberSize(&'a str),
    /// The word is neither one size of the RPMB nor four.
    Regions(&'a str),
    /// The digits begin with `0x`.
    HexPrefix,
    /// The digits are not two for each byte.
    HexCount(usize),
    /// There is no hexadecimal digit in this place, which counts from 1.
    HexDigit(usize),
    /// A first line is missing, or is not in its place.
    Missing(&'static str),
    /// A number of the configuration is out of its range.
    Range(Range),
    /// The dies have too few blocks.
    Room { needed: u64, left: u64 },
    /// Two units have the same boot number.
    BootTwice(u32),
    /// So many bytes are no whole frames.
    FrameBytes(usize),
    /// A line that says what the configuration is comes too late.
    TooLate(&'a str),
    /// The run ended at this line, as its output says.
    Ended(&'static str),
    /// The output's line with this number does not answer the line.
    Answer(usize),
    /// The output has a line for which the script has none.
    Surplus,
    /// Memory was refused.
    Memory,
    /// What was to be printed could not be written.
    Output,
}

impl<'a> From<AllocError> for Cause<'a> {
    fn from(_: AllocError) -> Cause<'a> {
        Cause::Memory
    }
}

impl<'a> From<io::Error> for Cause<'a> {
    fn from(_: io::Error) -> Cause<'a> {
        Cause::Output
    }
}

impl fmt::Display for Cause<'_> {
    fn fmt<W: fmt::Write>(&self, f: &mut fmt::Formatter<W>) -> fmt::Result {
        match self {
            Cause::Byte(byte) => write!(
                f,
                "the byte {byte:02X}h is not printable ASCII; only comments may have it"
            ),
            Cause::Word(word) => write!(f, "no line begins with the word '{word}'"),
            Cause::WordCount { count, form } => {
                write!(f, "the line has {count} words; write it as: {form}")
            }
            Cause::Choice { word, form } => {
                write!(
                    f,
                    "the word '{word}' cannot be there; write the line as: {form}"
                )
            }
            Cause::Number(word) => write!(f, "'{word}' is no number; write decimal digits alone"),
            Cause::NumberSize(word) => write!(f, "{word} is too big; numbers go up to 4294967295"),
            Cause::LongNumberSize(word) => {
                write!(
                    f,
                    "{word} is too big; a serial number goes up to 18446744073709551615"
                )
            }
            Cause::HexCount(count) => {
                write!(
                    f,
                    "there are {count} hexadecimal digits; write two for each byte"
                )
            }
            Cause::HexDigit(place) => write!(
                f,
                "character {place} of the bytes is no hexadecimal digit; write 0 to 9 and a to f"
            ),
            Cause::Missing(form) => write!(f, "here has to be the line: {form}"),
            _ => self.write_rest(f),
        }
    }
}

impl Cause<'_> {
    // The causes of the configuration and of the output, and those without a word of the line.
    fn write_rest<W: fmt::Write>(&self, f: &mut fmt::Formatter<W>) -> fmt::Result {
        match self {
            Cause::Range(range) => range.write(f),
            Cause::Regions(word) => write!(
                f,
                "'{word}' is neither one size of the RPMB nor four; write one number, or four with \
                 commas"
            ),
            Cause::Room { needed, left } => write!(
                f,
                "{needed} blocks are needed, {left} are there; give more, or fewer units, slots or \
                 spare ones"
            ),
            Cause::BootTwice(boot) => {
                write!(
                    f,
                    "two units have the boot number {boot}; give it to one of them"
                )
            }
            Cause::FrameBytes(count) => { write!(f, "there are {count} bytes; a frame has 512") }
            Cause::TooLate(word) => {
                write!(
                    f,
                    "'{word}' comes too late; the first lines have the configuration"
                )
            }
            Cause::Answer(line) => write!(
                f,
                "line {line} of the output does not answer it; give what 'ufsim run' printed for \
                 this script"
            ),
            Cause::Ended(why) => write!(f, "the run ended here: {why}"),
            _ => f.write_str(self.plain_words()),
        }
    }

    // The causes whose text is always the same.
    fn plain_words(&self) -> &'static str {
        match self {
            Cause::ByteOrderMark => {
                "the file begins with a byte order mark; save it as ASCII without one"
            }
            Cause::CarriageReturn => {
                "there is a carriage return (CR); end each line with LF alone, as by: tr -d '\\r'"
            }
            Cause::Tab => "there is a tab; only spaces part words",
            Cause::Comment => "a comment has a line of its own, which begins with '#'",
            Cause::Blank => "the line has spaces alone; make it empty or leave it out",
            Cause::HexPrefix => "the bytes begin with 0x; leave it out",
            Cause::Surplus => {
                "the output has one line more; give what 'ufsim run' printed for this script"
            }
            Cause::Memory => "there is not enough memory",
            _ => "the explanation could not be written",
        }
    }
}
