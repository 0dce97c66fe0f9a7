//! Says in words what the lines of a script ask for, and what its output answers.
ghost use Rattle.std.specs.Prelude.{◌≡◌, ◌≤◌};

use crate::cause::Cause;
use crate::first_lines::{ConfigLine, ProfileLine, UnitLine, UnitSum, missing_line};
use crate::lines::{Line, Lines, first_word, line_text};
use crate::malformed::write_wrong_byte;
use crate::messages::MessageWords;
use crate::names::host_fault_words;
use crate::outputs::{Answer, read_answer};
use crate::parts::{Commands, write_parts};
use crate::script::{Request, read_left, read_request};
use std::alloc::Global;
use std::fmt;
use std::io::Write;

/// Says line by line what a script of `ufsim` asks for, on `out`. With the output that `ufsim run`
/// printed for it, what was answered comes after each line that has an answer. Frames that a
/// message brings come in lines of their own, and under a key it is told whether their MAC is
/// right. The fields of a descriptor, and what INQUIRY and REPORT LUNS tell, come in lines of their
/// own too. What is wrong is told in one line on `faults`, with the number of the script's line,
/// its cause and what to do; nothing is told of the lines after it.
///
/// The status is 0 if every line was told, else 1.
pub fn explain<W: Write, F: Write>(
    alloc: Global,
    script: &[u8],
    output: Option<&[u8]>,
    key: Option<&[u8; 32]>,
    out: &mut W,
    faults: &mut F,
) -> u8
    ensures status { result ≤ 1 }
    ensures quiet { result ≡ 0 → faults.new ≡ faults.old }
{
    let mut told = Told {
        alloc,
        config: None,
        units: UnitSum::default(),
        last_first: 0,
        is_open: false,
        answers: lines_of(output),
        commands: Commands::new(),
        key,
        number: 0,
    };
    match told.tell_all(script, out) {
        Ok(()) => 0,
        Err(cause) => {
            let number = told.number;
            // Where the fault itself cannot be told, the status alone tells it.
            let _ = writeln!(faults, "ufstool: line {number}: {cause}");
            1
        }
    }
}

fn lines_of(output: Option<&[u8]>) -> Option<Lines<'_>> {
    match output {
        Some(text) => Some(Lines::new(text)),
        None => None,
    }
}

// What was told so far.
#[derive(Drop)]
struct Told<'a> {
    alloc: Global,
    config: Option<ConfigLine>,
    units: UnitSum,
    // The number of the last of the first lines.
    last_first: usize,
    // Whether the first lines are over.
    is_open: bool,
    // What is left of the output, if there is one.
    answers: Option<Lines<'a>>,
    // The commands that the device has taken.
    commands: Commands,
    // The key of frames, if it is known.
    key: Option<&'a [u8; 32]>,
    // The line of the script that was read last.
    number: usize,
}

impl Told<'_> {
    fn tell_all<'s, W: Write>(&mut self, script: &'s [u8], out: &mut W) -> Result<(), Cause<'s>> {
        for line in Lines::new(script) {
            self.number = line.number;
            if !is_silent(line.bytes) {
                self.tell(line, out)?;
            }
        }
        self.number = self.number.saturating_add(1);
        self.end()?;
        Ok(out.flush()?)
    }

    // The script is over: the first lines have to be there, and the output has to be over too.
    fn end(&mut self) -> Result<(), Cause<'static>> {
        if self.units.count == 0 {
            return Err(missing_line(self.config.is_some()));
        }
        self.open()?;
        if let Some(answers) = &mut self.answers {
            if answers.next().is_some() {
                return Err(Cause::Surplus);
            }
        }
        Ok(())
    }

    // Tells a line.
    fn tell<'s, W: Write>(&mut self, line: Line<'s>, out: &mut W) -> Result<(), Cause<'s>> {
        let text = line_text(line.bytes)?;
        if self.config.is_none() {
            return self.tell_config(line.number, text, out);
        }
        if !self.is_open && (self.units.count == 0 || first_word(text) == "unit") {
            return self.tell_unit(line.number, text, out);
        }
        if !self.is_open && first_word(text) == "profile" {
            return self.tell_profile(line.number, text, out);
        }
        self.open()?;
        self.tell_request(line.number, text, out)
    }

    fn tell_config<'s, W: Write>(
        &mut self,
        number: usize,
        text: &'s str,
        out: &mut W,
    ) -> Result<(), Cause<'s>> {
        let config = ConfigLine::read(text)?;
        self.config = Some(config);
        Ok(writeln!(out, "line {number}: {config}")?)
    }

    fn tell_unit<'s, W: Write>(
        &mut self,
        number: usize,
        text: &'s str,
        out: &mut W,
    ) -> Result<(), Cause<'s>> {
        let unit = UnitLine::read(text)?;
        let index = self.units.count;
        self.units.add(&unit)?;
        self.last_first = number;
        Ok(writeln!(out, "line {number}: unit {index}: {unit}")?)
    }

    // The profile, which is the last of the first lines.
    fn tell_profile<'s, W: Write>(
        &mut self,
        number: usize,
        text: &'s str,
        out: &mut W,
    ) -> Result<(), Cause<'s>> {
        let profile = ProfileLine::read(text)?;
        self.last_first = number;
        self.open()?;
        Ok(writeln!(out, "line {number}: {profile}")?)
    }

    // A line behind the first ones.
    fn tell_request<'s, W: Write>(
        &mut self,
        number: usize,
        text: &'s str,
        out: &mut W,
    ) -> Result<(), Cause<'s>> {
        let request = read_request(self.alloc, text)?;
        writeln!(out, "line {number}: {request}")?;
        self.tell_sent(&request, out)?;
        self.answer(&request, out)
    }

    // The first lines are over: what they say together is looked at. A fault is one of the last of
    // them.
    fn open(&mut self) -> Result<(), Cause<'static>> {
        if self.is_open {
            return Ok(());
        }
        self.is_open = true;
        let read = self.number;
        self.number = self.last_first;
        self.units.check_boots()?;
        if let Some(config) = &self.config {
            config.check_room(&self.units)?;
        }
        self.number = read;
        Ok(())
    }

    // Tells what the output answers.
    fn answer<W: Write>(
        &mut self,
        request: &Request<'_>,
        out: &mut W,
    ) -> Result<(), Cause<'static>> {
        let Some(answers) = &mut self.answers else {
            self.note_sent(request);
            return Ok(());
        };
        let Some(line) = answers.next() else {
            return Err(Cause::Ended(why_ended(request)));
        };
        let wrong = Cause::Answer(line.number);
        let Ok(text) = line_text(line.bytes) else {
            return Err(wrong);
        };
        match read_answer(self.alloc, request, text) {
            Some(answer) => {
                writeln!(out, "    -> {answer}")?;
                self.note_taken(request, &answer);
                self.tell_received(&answer, out)
            }
            None => Err(wrong),
        }
    }

    // Notes a message that the device has taken.
    fn note_taken(&mut self, request: &Request<'_>, answer: &Answer) {
        if matches!(answer, Answer::Taken) {
            self.note_sent(request);
        }
    }

    // Notes a message of the host: data that come later are those of its command.
    fn note_sent(&mut self, request: &Request<'_>) {
        if let Request::Host(bytes) = request {
            if let Ok(message) = upiu::read_host(bytes.as_slice()) {
                self.commands.hear(&message);
            }
        }
    }

    // Tells what the data are that the host sends.
    fn tell_sent<W: Write>(
        &self,
        request: &Request<'_>,
        out: &mut W,
    ) -> Result<(), Cause<'static>> {
        if let Request::Host(bytes) = request {
            if let Ok(message) = upiu::read_host(bytes.as_slice()) {
                write_parts(&message, &self.commands, self.key, out)?;
            }
        }
        Ok(())
    }

    // Tells what the data are that the device sends.
    fn tell_received<W: Write>(&self, answer: &Answer, out: &mut W) -> Result<(), Cause<'static>> {
        if let Answer::Reply(bytes) = answer {
            if let Ok(message) = upiu::read(bytes.as_slice()) {
                write_parts(&message, &self.commands, self.key, out)?;
            }
        }
        Ok(())
    }
}

/// Whether a line says nothing: it is empty or a comment.
pub fn is_silent(line: &[u8]) -> bool {
    match line.first() {
        Some(first) => *first == b'#',
        None => true,
    }
}

// Why a run may end at this line, so that its output has no answer.
fn why_ended(request: &Request<'_>) -> &'static str {
    match request {
        Request::Done { .. } => {
            "'event'; this die has no job, so put 'take' before this line, and see that it gives \
             a job"
        }
        Request::Stop(_) => {
            "'event'; a die that is named has no program and no erase in flight, or is named twice"
        }
        _ => "the output has no line for it; see what 'ufsim run' says on standard error",
    }
}

impl fmt::Display for Request<'_> {
    fn fmt<W: fmt::Write>(&self, f: &mut fmt::Formatter<W>) -> fmt::Result {
        match self {
            Request::Host(bytes) => write_message(f, bytes.as_slice()),
            Request::Reply => f.write_str("a reply is asked for"),
            Request::Take(die) => write!(f, "a job is asked for die {die}"),
            Request::Done { die, is_ok } => {
                let end = if *is_ok { WELL } else { FAILED };
                write!(f, "the job of die {die} {end}")
            }
            Request::Turn => f.write_str("the device may do a step of its own"),
            Request::Settle(rounds) => write!(
                f,
                "up to {rounds} rounds: a step of the device, then a job of each die"
            ),
            Request::Stop(line) => write_stop(f, line),
        }
    }
}

// How a job ends.
const WELL: &str = "ends well";

const FAILED: &str = "fails; after a program or an erase its block is bad";

// A message of the host. One that no device takes is told with its fault.
fn write_message<W: fmt::Write>(f: &mut fmt::Formatter<W>, bytes: &[u8]) -> fmt::Result {
    match upiu::read_host(bytes) {
        Ok(message) => {
            let words = MessageWords(&message);
            write!(f, "{words}")
        }
        Err(fault) => {
            let count = bytes.len();
            let words = host_fault_words(fault);
            write!(f, "{count} bytes that are no message of a host: {words}")?;
            write_wrong_byte(f, bytes)
        }
    }
}

// A stop, with what is left of the jobs.
fn write_stop<W: fmt::Write>(f: &mut fmt::Formatter<W>, line: &str) -> fmt::Result {
    f.write_str("the power fails")?;
    for word in line.split_whitespace().skip(1) {
        if let Ok((die, content)) = read_left(word) {
            write_left(f, die, content)?;
        }
    }
    Ok(())
}

fn write_left<W: fmt::Write>(f: &mut fmt::Formatter<W>, die: u32, content: &str) -> fmt::Result {
    let left = match content {
        "old" => "its old content",
        "new" => "its new content",
        _ => "zeros, whose check fails",
    };
    write!(f, "; the page or block at which die {die} works has {left}")
}
