//! What the tests share: texts made piece by piece, and what the program writes of a script.
use std::alloc::Global;
use std::io::{Read, Write};
use std::process::Abort;
use ufsim::{
    Stops, check_each_text, check_image_shown, check_image_text, check_text, load_text, run_text,
    save_text,
};

/// A text that is made piece by piece. If memory was refused for a piece, the text lacks it, and `bytes` ends the
/// test.
#[derive(Drop)]
pub struct Text {
    bytes: Vec<u8>,
    refused: bool,
}

impl Text {
    pub fn new(alloc: Global) -> Text {
        Text {
            bytes: Vec::new(alloc),
            refused: false,
        }
    }

    /// Adds this at the end.
    pub fn add(&mut self, text: &str) {
        if self.bytes.extend_from_slice(text.as_bytes()).is_err() {
            self.refused = true;
        }
    }

    /// Adds this so many times.
    pub fn add_times(&mut self, text: &str, count: usize) {
        for _ in 0..count {
            self.add(text);
        }
    }

    /// Adds fields of a message: the digits of each, and the count of bytes that they and the zero bytes behind
    /// them make up.
    pub fn add_fields(&mut self, fields: &[(&str, usize)]) {
        for (digits, count) in fields {
            self.add(digits);
            self.add_times("00", count.saturating_sub(digits.len() / 2));
        }
    }

    /// The whole text.
    pub fn bytes(&self, rt: &impl Abort) -> &[u8] {
        assert!(rt; !self.refused, "memory was refused");
        self.bytes.as_slice()
    }
}

/// What the program wrote, and its status.
#[derive(Drop)]
pub struct Outcome {
    out: Vec<u8>,
    faults: Vec<u8>,
    status: u8,
}

impl Outcome {
    fn new(alloc: Global) -> Outcome {
        Outcome {
            out: Vec::new(alloc),
            faults: Vec::new(alloc),
            status: 0,
        }
    }

    /// That of a run of this script.
    pub fn of_run(alloc: Global, script: &[u8]) -> Outcome {
        let mut found = Outcome::new(alloc);
        found.status = run_text(alloc, script, &mut found.out, &mut found.faults);
        found
    }

    /// That of a check of this script.
    pub fn of_check(alloc: Global, script: &[u8]) -> Outcome {
        let mut found = Outcome::new(alloc);
        found.status = check_text(alloc, script, &mut found.out, &mut found.faults);
        found
    }

    /// That of a check of this script with these stops.
    pub fn of_check_each(alloc: Global, script: &[u8], tries: Stops) -> Outcome {
        let mut found = Outcome::new(alloc);
        found.status = check_each_text(alloc, script, tries, &mut found.out, &mut found.faults);
        found
    }

    /// That of a run of this script which saves the image `a.img`.
    pub fn of_save<W: Write>(alloc: Global, script: &[u8], image: &mut W) -> Outcome {
        let mut found = Outcome::new(alloc);
        let (out, faults) = (&mut found.out, &mut found.faults);
        found.status = save_text(alloc, script, "a.img", image, out, faults);
        found
    }

    /// That of a run of this script over the image `a.img`.
    pub fn of_load<R: Read>(alloc: Global, script: &[u8], image: &mut R) -> Outcome {
        let mut found = Outcome::new(alloc);
        let (out, faults) = (&mut found.out, &mut found.faults);
        found.status = load_text(alloc, script, "a.img", image, out, faults);
        found
    }

    /// That of a check of this script over the image `a.img`.
    pub fn of_image_check<R: Read>(alloc: Global, script: &[u8], image: &mut R) -> Outcome {
        let mut found = Outcome::new(alloc);
        let (out, faults) = (&mut found.out, &mut found.faults);
        found.status = check_image_text(alloc, script, "a.img", image, out, faults);
        found
    }

    /// The same, with what it shows of how far it is.
    pub fn of_shown_check<R: Read>(
        alloc: Global,
        script: &[u8],
        image: &mut R,
        progress: &mut Vec<u8>,
    ) -> Outcome {
        let mut found = Outcome::new(alloc);
        let (out, faults) = (&mut found.out, &mut found.faults);
        found.status = check_image_shown(alloc, script, "a.img", image, out, progress, faults);
        found
    }

    /// It is this output and this fault line. The status is 0 if there is no fault, and else 1.
    pub fn expect(&self, rt: &impl Abort, output: &[u8], fault: &[u8]) {
        assert_eq!(rt; self.faults.as_slice(), fault);
        assert_eq!(rt; self.out.as_slice(), output);
        assert_eq!(rt; self.status, if fault.is_empty() { 0 } else { 1 });
    }
}
