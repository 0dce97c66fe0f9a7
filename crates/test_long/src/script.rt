//! The text of a script, made piece by piece, and what a check says of it.
use std::alloc::Global;
use std::io::Write;
use std::process::Abort;
use ufsim::{Stops, check_each_text, text};

/// A script that is made piece by piece. If memory was refused for a piece, the text lacks it.
#[derive(Drop)]
pub(crate) struct Script {
    text: Vec<u8>,
    refused: bool,
}

impl Script {
    /// These first lines.
    pub fn new(alloc: Global, first_lines: &[u8]) -> Script {
        let mut script = Script {
            text: Vec::new(alloc),
            refused: false,
        };
        script.add(first_lines);
        script
    }

    pub fn add(&mut self, text: &[u8]) {
        if self.text.extend_from_slice(text).is_err() {
            self.refused = true;
        }
    }

    /// The digits of these bytes.
    fn add_digits(&mut self, bytes: &[u8]) {
        for byte in bytes {
            let mut digits = [0; 2];
            text(&[*byte], &mut digits);
            self.add(&digits);
        }
    }

    /// A message of the host.
    pub fn host(&mut self, message: &[u8]) {
        self.add(b"host ");
        self.add_digits(message);
        self.add(b"\n");
    }

    /// A message of the host: this header, and a block of equal bytes.
    pub fn fill(&mut self, header: &[u8], byte: u8) {
        self.add(b"fill ");
        self.add_digits(header);
        self.add(b" ");
        self.add_digits(&[byte]);
        self.add(b" 4096\n");
    }

    /// A check of the script tries these stops, and none of them is bad: how many they are.
    pub fn good_stops(&self, rt: &impl Abort, alloc: Global, tries: Stops) -> usize {
        assert!(rt; !self.refused, "memory");
        let (mut out, mut faults) = (Vec::new(alloc), Vec::new(alloc));
        let status = check_each_text(alloc, self.text.as_slice(), tries, &mut out, &mut faults);
        assert!(rt; faults.is_empty());
        let stops = stops_in(out.as_slice());
        assert!(rt;
            out.as_slice() == line_of(rt, alloc, stops).as_slice(),
            "{stops} stops"
        );
        assert!(rt; status == 0);
        stops
    }
}

/// How many stops the line tells.
fn stops_in(line: &[u8]) -> usize {
    let mut stops = 0usize;
    for byte in line.iter().skip(12) {
        match char::from(*byte).to_digit(10) {
            Some(digit) => stops = stops.saturating_mul(10).saturating_add(digit as usize),
            None => break,
        }
    }
    stops
}

/// The line of a check with so many stops, none of which is bad.
fn line_of(rt: &impl Abort, alloc: Global, stops: usize) -> Vec<u8> {
    let mut line = Vec::new(alloc);
    writeln!(line, "check stops {stops} bad 0").expect(rt, "memory");
    line
}
