//! Scripts and words that the program refuses.
use crate::scripts::{Outcome, Text};
use crate::steps::FIRST_LINES;
use std::alloc::Global;
use std::io;
use std::io::Write;
use std::process::Abort;
use ufsim::{Call, CallFault, call, run_text};

/// The first lines of a script with one unit of nine blocks.
const NINE_BLOCKS: &str = "config 4 16 64 1 64 4\nunit 9 0 0\n";

/// Scripts whose first lines are wrong, and the line and the word of the fault.
const WRONG_FIRST_LINES: [(&str, &str); 26] = [
    ("", "1: word\n"),
    ("config 4 16 64 1 64 4\n", "2: word\n"),
    ("config 4 16 64 1 64\n", "1: word\n"),
    ("# a comment\n\nconfig 4 16 x 1 64 4\n", "3: number\n"),
    ("config 4 16 64 1,1 64 x\nunit 1 0 0\n", "1: word\n"),
    ("config 4 16 64 1,1,0 64 4\nunit 1 0 0\n", "1: word\n"),
    ("config 4 16 64 1,1,0,0,0 64 4\nunit 1 0 0\n", "1: word\n"),
    ("config 4 16 64 1,,0,0 64 4\nunit 1 0 0\n", "1: word\n"),
    ("config 4 16 64 1, 64 4\nunit 1 0 0\n", "1: word\n"),
    ("config 4 16 64 1, 1, 0, 0 64 4\nunit 1 0 0\n", "1: word\n"),
    ("config 4 16 64 1,-1,0,0 64 4\nunit 1 0 0\n", "1: number\n"),
    ("config 4 16 64 0,1,0,0 64 4\nunit 1 0 0\n", "2: config\n"),
    ("config 4 16 64 1,9,0,0 64 4\nunit 1 0 0\n", "2: config\n"),
    ("config 4 16 64 1,1,0,256 64 4\nunit 1 0 0\n", "2: config\n"),
    (
        "config 4 16 64 1 64 4294967296\nunit 1 0 0\n",
        "1: number\n",
    ),
    ("config 4 16 64 1 64 4\nunit 0 0 0\n", "2: config\n"),
    (
        "config 4 16 64 1 64 4\nunit 256 1 0\nunit 64 1 0\n",
        "3: config\n",
    ),
    ("config 300 16 64 1 64 4\nunit 256 1 0\nturn", "2: config\n"),
    ("config 4 16 64 1 64 4\nprofile 1 1\n", "2: word\n"),
    (
        "config 4 16 64 1 64 4\nunit 9 0 0\nprofile 1\n",
        "3: word\n",
    ),
    (
        "config 4 16 64 1 64 4\nunit 9 0 0\nprofile 1 x 1\n",
        "3: word\n",
    ),
    (
        "config 4 16 64 1 64 4\nunit 9 0 0\nprofile 4294967296 x\n",
        "3: number\n",
    ),
    (
        "config 4 16 64 1 64 4\nunit 9 0 0\nprofile 1 18446744073709551616\n",
        "3: number\n",
    ),
    (
        "config 4 16 64 1 64 4\nunit 9 0 0\nprofile 2 1\nturn\n",
        "3: config\n",
    ),
    (
        "config 4 16 64 1 64 4\nunit 9 0 0\nprofile 257 1\nturn\n",
        "3: config\n",
    ),
    (
        "config 300 16 64 1 64 4\nunit 9 0 0\nprofile 0 1\nturn\n",
        "3: config\n",
    ),
];

/// Each script whose first lines are wrong ends with a fault, which names the line and the word.
#[test]
fn wrong_first_lines_are_told(rt: HostRuntime) {
    for (script, fault) in WRONG_FIRST_LINES {
        expect_fault(&rt, rt.alloc(), script, "", "", fault);
    }
}

/// Lines behind the first ones, of which the last is wrong: what those before it print, and the line and the
/// word of the fault.
const WRONG_LINES: [(&str, &str, &str); 21] = [
    ("turn\nprofile 1 1\n", "turn yes\n", "4: word\n"),
    (
        "profile 1 18446744073709551615\nturn\nprofile 1 1\n",
        "turn yes\n",
        "5: word\n",
    ),
    ("profile 0 0\nunit 9 0 0\n", "", "4: word\n"),
    ("turn\nunit 9 0 0", "turn yes\n", "4: word\n"),
    ("turn\n \n", "turn yes\n", "4: word\n"),
    ("turn\nturn\tnow\n", "turn yes\n", "4: word\n"),
    ("  turn  \nhost 0\n", "turn yes\n", "4: hex\n"),
    ("host 0g\n", "", "3: hex\n"),
    ("fill 00 0 1\n", "", "3: hex\n"),
    ("fill 0g 00 x\n", "", "3: hex\n"),
    ("take -1\n", "", "3: number\n"),
    ("done 0 ok\n", "", "3: event\n"),
    ("done 0 maybe\n", "", "3: word\n"),
    ("done x fail\n", "", "3: number\n"),
    ("done 0 fail\n", "", "3: event\n"),
    ("stop 0:odd\n", "", "3: word\n"),
    ("stop x:old\n", "", "3: number\n"),
    ("stop 0:old\n", "", "3: event\n"),
    ("stop 256:torn\n", "", "3: event\n"),
    (
        "turn\ntake 0\nstop 0:new 1:new\n",
        "turn yes\ntake 0 erase 0\n",
        "5: event\n",
    ),
    (
        "turn\ntake 0\nstop 0:old 0:new\n",
        "turn yes\ntake 0 erase 0\n",
        "5: event\n",
    ),
];

/// Each of these lines after the first ones ends its script with a fault, which names the line and the word;
/// what the lines before it print stands.
#[test]
fn a_wrong_line_is_told_after_what_came_before(rt: HostRuntime) {
    for (lines, output, fault) in WRONG_LINES {
        expect_fault(&rt, rt.alloc(), NINE_BLOCKS, lines, output, fault);
    }
}

/// A script of these two parts prints this output, and ends with a fault of this line and this word.
fn expect_fault(
    rt: &impl Abort,
    alloc: Global,
    first_lines: &str,
    lines: &str,
    output: &str,
    fault: &str,
) {
    let mut script = Text::new(alloc);
    script.add(first_lines);
    script.add(lines);
    let mut told = Text::new(alloc);
    told.add("ufsim: line ");
    told.add(fault);
    Outcome::of_run(alloc, script.bytes(rt)).expect(rt, output.as_bytes(), told.bytes(rt));
}

/// A message is refused for its length however many bytes a line fills in.
#[test]
fn a_message_that_is_too_long_is_refused(rt: HostRuntime) {
    let script =
        b"config 4 16 64 1 64 4\nunit 9 0 0\nfill 00 00 65536\nfill 00 00 70000\nfill 00 00 4294967295\n";
    let output = b"host fault 2\nhost fault 2\nhost fault 2\n";
    Outcome::of_run(rt.alloc(), script).expect(&rt, output, b"");
}

/// Bytes that are no text at all end with a fault of the first line.
#[test]
fn bytes_that_are_no_text_are_refused(rt: HostRuntime) {
    let script = [0xFF, 0x00, 0x80, 0x0A, 0x0A];
    Outcome::of_run(rt.alloc(), &script).expect(&rt, b"", b"ufsim: line 1: word\n");
}

/// A writer whose second write fails.
#[derive(Drop)]
struct Broken {
    writes: u8,
}

impl Write for Broken {
    fn write(&mut self, bytes: &[u8]) -> io::Result<usize> {
        if self.writes > 0 {
            return Err(io::Error::from(io::ErrorKind::BrokenPipe));
        }
        self.writes += 1;
        Ok(bytes.len())
    }

    fn flush(&mut self) -> io::Result<()> {
        Ok(())
    }
}

/// Where output cannot be written the run ends and says so.
#[test]
fn output_that_cannot_be_written_is_told(rt: HostRuntime) {
    let alloc = rt.alloc();
    let mut script = Text::new(alloc);
    script.add(FIRST_LINES);
    script.add("turn\nturn\n");
    let mut faults = Vec::new(alloc);
    let status = run_text(
        alloc,
        script.bytes(&rt),
        &mut Broken { writes: 0 },
        &mut faults,
    );
    assert_eq!(rt; faults.as_slice(), b"ufsim: output\n".as_slice());
    assert_eq!(rt; status, 1);
}

/// The program runs or checks a script, and any other words are told as wrong.
#[test]
fn the_program_takes_a_script_and_no_other_words(rt: HostRuntime) {
    let alloc = rt.alloc();
    let run = ["ufsim", "run", "a script"];
    assert!(rt; matches!(call(alloc, &run), Ok(Call::Run("a script"))));
    let check = ["ufsim", "check", "a"];
    assert!(rt; matches!(call(alloc, &check), Ok(Call::Check("a"))));
    let wrong = [
        ["ufsim"].as_slice(),
        &["ufsim", "run"],
        &["ufsim", "run", "a", "b"],
        &["ufsim", "check"],
        &["ufsim", "stress"],
        &["ufsim", "--help"],
        &["ufsim", "Run", "a"],
        &["ufsim", "run", "--all", "a"],
    ];
    for words in wrong {
        assert!(rt; is_usage(alloc, words));
    }
}

/// The two numbers of `stress` come in either order, also after `=`, and are whole numbers from 1 to 8.
#[test]
fn stress_takes_two_numbers_in_either_order(rt: HostRuntime) {
    let alloc = rt.alloc();
    let right = [
        ["ufsim", "stress", "--dies", "4", "--hosts", "8"].as_slice(),
        &["ufsim", "stress", "--hosts", "8", "--dies", "4"],
        &["ufsim", "stress", "--dies=4", "--hosts=8"],
        &["ufsim", "stress", "--hosts=8", "--dies", "4"],
    ];
    for words in right {
        assert!(rt; matches!(call(alloc, words), Ok(Call::Stress { dies: 4, hosts: 8 })));
    }
    let wrong = [
        ["ufsim", "stress", "--dies", "4"].as_slice(),
        &["ufsim", "stress", "--hosts", "4"],
        &["ufsim", "stress", "4", "8"],
        &["ufsim", "stress", "--dies", "0", "--hosts", "1"],
        &["ufsim", "stress", "--dies", "1", "--hosts", "9"],
        &["ufsim", "stress", "--dies", "1.5", "--hosts", "1"],
        &["ufsim", "stress", "--dies", "two", "--hosts", "1"],
        &[
            "ufsim", "stress", "--dies", "1", "--dies", "1", "--hosts", "1",
        ],
        &["ufsim", "stress", "--dies", "1", "--hosts", "1", "a"],
    ];
    for words in wrong {
        assert!(rt; is_usage(alloc, words));
    }
}

/// Whether these words are told as wrong.
fn is_usage(alloc: Global, words: &[&str]) -> bool {
    matches!(call(alloc, words), Err(CallFault::Usage))
}
