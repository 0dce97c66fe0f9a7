//! Scripts with the output that is expected of them, as lists of steps.
use crate::frames::{Frame, length_of};
use crate::scripts::{Outcome, Text};
use Step::{
    Answer, AnswerOf, Block, BlockOf, Command, DataIn, Frames, FramesTo, Good, GoodFrames, Host,
    Lines, List, Manage, Managed, NopOut, Query, Refusal, Reply, Request, RequestTo, Response,
    Send, SendAt, SendTo, Settle, Told,
};
use std::alloc::Global;
use std::process::Abort;
use ufsim::Stops;

/// The first lines of a script with the row configuration: 4 dies of 16 blocks of 64 pages, units
/// of 256, 64 and 64 blocks, one step of RPMB, 64 slots, 4 spare blocks.
pub const FIRST_LINES: &str = "config 4 16 64 1 64 4\nunit 256 0 0\nunit 64 1 0\nunit 64 2 0\n";

/// The same without spare blocks: a device that one bad block locks.
pub const WITHOUT_SPARE: &str = "config 4 16 64 1 64 0\nunit 256 0 0\nunit 64 1 0\nunit 64 2 0\n";

/// The task tags from 0 to 63.
pub const TAGS: [&str; 64] = [
    "00", "01", "02", "03", "04", "05", "06", "07", "08", "09", "0a", "0b", "0c", "0d", "0e", "0f",
    "10", "11", "12", "13", "14", "15", "16", "17", "18", "19", "1a", "1b", "1c", "1d", "1e", "1f",
    "20", "21", "22", "23", "24", "25", "26", "27", "28", "29", "2a", "2b", "2c", "2d", "2e", "2f",
    "30", "31", "32", "33", "34", "35", "36", "37", "38", "39", "3a", "3b", "3c", "3d", "3e", "3f",
];

/// The offsets of the first 32 blocks in the data of a command.
pub const OFFSETS: [&str; 32] = [
    "00000000", "00001000", "00002000", "00003000", "00004000", "00005000", "00006000", "00007000",
    "00008000", "00009000", "0000a000", "0000b000", "0000c000", "0000d000", "0000e000", "0000f000",
    "00010000", "00011000", "00012000", "00013000", "00014000", "00015000", "00016000", "00017000",
    "00018000", "00019000", "0001a000", "0001b000", "0001c000", "0001d000", "0001e000", "0001f000",
];

/// Those of the 96 blocks behind them, apart from the first, since each use of an array holds all of it.
pub const LATER_OFFSETS: [&str; 96] = [
    "00020000", "00021000", "00022000", "00023000", "00024000", "00025000", "00026000", "00027000",
    "00028000", "00029000", "0002a000", "0002b000", "0002c000", "0002d000", "0002e000", "0002f000",
    "00030000", "00031000", "00032000", "00033000", "00034000", "00035000", "00036000", "00037000",
    "00038000", "00039000", "0003a000", "0003b000", "0003c000", "0003d000", "0003e000", "0003f000",
    "00040000", "00041000", "00042000", "00043000", "00044000", "00045000", "00046000", "00047000",
    "00048000", "00049000", "0004a000", "0004b000", "0004c000", "0004d000", "0004e000", "0004f000",
    "00050000", "00051000", "00052000", "00053000", "00054000", "00055000", "00056000", "00057000",
    "00058000", "00059000", "0005a000", "0005b000", "0005c000", "0005d000", "0005e000", "0005f000",
    "00060000", "00061000", "00062000", "00063000", "00064000", "00065000", "00066000", "00067000",
    "00068000", "00069000", "0006a000", "0006b000", "0006c000", "0006d000", "0006e000", "0006f000",
    "00070000", "00071000", "00072000", "00073000", "00074000", "00075000", "00076000", "00077000",
    "00078000", "00079000", "0007a000", "0007b000", "0007c000", "0007d000", "0007e000", "0007f000",
];

/// Lines of a script with the lines that they print. Bytes of messages are spelled in hexadecimal
/// digits, without the zero bytes behind them. The head of a message is what stands before its task
/// tag: code, flags and LUN.
#[derive(Clone, Copy)]
pub enum Step<'a> {
    /// Some lines, and what they print. The end of the last line is left out.
    Lines(&'a str, &'a str),
    /// The line `settle` with this count, which prints itself.
    Settle(&'a str),
    /// A message from the host, of so many bytes, and what it prints.
    Host(&'a str, usize, &'a str),
    /// A NOP OUT with this tag, which is taken.
    NopOut(&'a str),
    /// A COMMAND, which is taken: head, tag, expected length and CDB.
    Command(&'a str, &'a str, &'a str, &'a str),
    /// The data of the WRITE with this tag, so many blocks of one byte: the device asks for each of
    /// them by READY TO TRANSFER, and gets it by DATA OUT.
    Send(&'a str, &'a str, usize),
    /// The data of the WRITE of one block to this LUN with this tag, the block being this byte.
    SendTo(&'a str, &'a str, &'a str),
    /// One block of the data of the WRITE or VERIFY with this tag: its offset, and the byte. The device asks
    /// for it by READY TO TRANSFER, and gets it by DATA OUT.
    SendAt(&'a str, &'a str, &'a str),
    /// An UNMAP of unit 0 with this tag, and its list: the length of the list, and its bytes. The
    /// device asks for the list by READY TO TRANSFER, and gets it by DATA OUT.
    List(&'a str, &'a str, &'a str),
    /// A TASK MANAGEMENT REQUEST, which is taken: LUN, tag, function, and the tag that is meant.
    Manage(&'a str, &'a str, &'a str, &'a str),
    /// Its TASK MANAGEMENT RESPONSE: LUN, tag, and service response.
    Managed(&'a str, &'a str, &'a str),
    /// A QUERY REQUEST, which is taken: tag, function, then opcode, IDN, index and selector, then
    /// length and value.
    Query(&'a str, &'a str, &'a str, &'a str, &'a str),
    /// Its QUERY RESPONSE: tag, function with the response code, then opcode, IDN, index and
    /// selector, then length and value, and the data behind it.
    Told(&'a str, &'a str, &'a str, &'a str, &'a str, &'a str),
    /// A SECURITY PROTOCOL OUT with this tag to region 0 of the unit RPMB: the device asks for these
    /// frames all at once by READY TO TRANSFER, and gets them by DATA OUT.
    Frames(&'a str, &'a [Frame<'a>]),
    /// The same, which is answered GOOD at once.
    Request(&'a str, &'a [Frame<'a>]),
    /// A SECURITY PROTOCOL IN with this tag to region 0 of the unit RPMB, which gets these frames by
    /// DATA IN, and GOOD.
    Answer(&'a str, &'a [Frame<'a>]),
    /// As `Frames`, to the region of this number.
    FramesTo(&'a str, &'a str, &'a [Frame<'a>]),
    /// As `Request`, to the region of this number.
    RequestTo(&'a str, &'a str, &'a [Frame<'a>]),
    /// As `Answer`, of the region of this number.
    AnswerOf(&'a str, &'a str, &'a [Frame<'a>]),
    /// A message from the device: its header, and the data behind it.
    Reply(&'a str, &'a str),
    /// A DATA IN with this tag: one block of this byte, from offset 0 on.
    Block(&'a str, &'a str),
    /// A DATA IN from this LUN with this tag: one block of this byte, from offset 0 on.
    BlockOf(&'a str, &'a str, &'a str),
    /// A DATA IN of equal bytes: tag, offset, their count as the header has it, the byte, and their
    /// count.
    DataIn(&'a str, &'a str, &'a str, &'a str, usize),
    /// A RESPONSE with this tag: GOOD, without a residual.
    Good(&'a str),
    /// A RESPONSE of the unit RPMB with this tag: GOOD, without a residual.
    GoodFrames(&'a str),
    /// A RESPONSE without sense data: head, tag, response and status, residual.
    Response(&'a str, &'a str, &'a str, &'a str),
    /// A RESPONSE with CHECK CONDITION: head, tag, residual, sense key, additional sense code with
    /// its qualifier.
    Refusal(&'a str, &'a str, &'a str, &'a str, &'a str),
}

/// A script and the output that is expected of it.
#[derive(Drop)]
pub struct Script {
    alloc: Global,
    script: Text,
    output: Text,
}

impl Script {
    /// A script with the row configuration.
    pub fn new(alloc: Global) -> Script {
        Script::over(alloc, FIRST_LINES)
    }

    /// A script with these first lines.
    pub fn over(alloc: Global, first_lines: &str) -> Script {
        let mut script = Text::new(alloc);
        script.add(first_lines);
        Script {
            alloc,
            script,
            output: Text::new(alloc),
        }
    }

    /// Adds these steps at the end.
    pub fn add(&mut self, steps: &[Step<'_>]) {
        for step in steps {
            self.add_step(*step);
        }
    }

    fn add_step(&mut self, step: Step<'_>) {
        match step {
            Lines(lines, printed) => self.lines(lines, printed),
            Settle(count) => self.settle(count),
            Host(digits, count, printed) => self.host(&[(digits, count)], printed),
            NopOut(tag) => self.host(&[("000000", 3), (tag, 29)], "host ok"),
            Command(head, tag, expected, cdb) => self.host(
                &[(head, 3), (tag, 9), (expected, 4), (cdb, 16)],
                "host ok",
            ),
            Send(tag, byte, blocks) => self.send(tag, byte, blocks),
            SendTo(lun, tag, byte) => self.send_block(lun, tag, OFFSETS[0], byte),
            SendAt(tag, offset, byte) => self.send_block("00", tag, offset, byte),
            List(tag, length, list) => self.list(tag, length, list),
            Manage(lun, tag, function, meant) => self.host(
                &[
                    ("0400", 2),
                    (lun, 1),
                    (tag, 2),
                    (function, 10),
                    (lun, 4),
                    (meant, 13),
                ],
                "host ok",
            ),
            Managed(lun, tag, service) => {
                self.reply(&[("2400", 2), (lun, 1), (tag, 12), (service, 17)]);
            }
            Query(tag, function, asked, length, value) => self.host(
                &[
                    ("160000", 3),
                    (tag, 2),
                    (function, 7),
                    (asked, 6),
                    (length, 2),
                    (value, 12),
                ],
                "host ok",
            ),
            Told(tag, response, asked, length, value, data) => self.reply(&[
                ("360000", 3),
                (tag, 2),
                (response, 5),
                (if data.is_empty() { "" } else { length }, 2),
                (asked, 6),
                (length, 2),
                (value, 12),
                (data, 0),
            ]),
            Frames(tag, frames) => self.frames("00", tag, frames),
            Request(tag, frames) => self.request("00", tag, frames),
            Answer(tag, frames) => self.answer("00", tag, frames),
            FramesTo(region, tag, frames) => self.frames(region, tag, frames),
            RequestTo(region, tag, frames) => self.request(region, tag, frames),
            AnswerOf(region, tag, frames) => self.answer(region, tag, frames),
            Reply(header, data) => self.reply(&[(header, 32), (data, 0)]),
            Block(tag, byte) => self.data_in("00", tag, OFFSETS[0], "1000", byte, 4096),
            BlockOf(lun, tag, byte) => self.data_in(lun, tag, OFFSETS[0], "1000", byte, 4096),
            DataIn(tag, offset, count, byte, bytes) => {
                self.data_in("00", tag, offset, count, byte, bytes);
            }
            Good(tag) => self.reply(&[("210000", 3), (tag, 29)]),
            GoodFrames(tag) => self.reply(&[("2100c4", 3), (tag, 29)]),
            Response(head, tag, status, residual) => {
                self.reply(&[(head, 3), (tag, 3), (status, 6), (residual, 20)]);
            }
            Refusal(head, tag, residual, key, code) => {
                self.refusal(head, tag, residual, key, code);
            }
        }
    }

    fn lines(&mut self, lines: &str, printed: &str) {
        self.script.add(lines);
        self.script.add("\n");
        self.output.add(printed);
        self.output.add("\n");
    }

    fn settle(&mut self, count: &str) {
        self.script.add("settle ");
        self.output.add("settle ");
        self.lines(count, count);
    }

    fn host(&mut self, fields: &[(&str, usize)], printed: &str) {
        self.script.add("host ");
        self.script.add_fields(fields);
        self.lines("", printed);
    }

    fn reply(&mut self, fields: &[(&str, usize)]) {
        self.output.add("reply ");
        self.output.add_fields(fields);
        self.lines("reply", "");
    }

    fn send(&mut self, tag: &str, byte: &str, blocks: usize) {
        for offset in OFFSETS.iter().take(blocks) {
            self.send_block("00", tag, offset, byte);
        }
        self.send_later(tag, byte, blocks.saturating_sub(32));
    }

    // So many of the blocks behind the first 32.
    fn send_later(&mut self, tag: &str, byte: &str, blocks: usize) {
        for offset in LATER_OFFSETS.iter().take(blocks) {
            self.send_block("00", tag, offset, byte);
        }
    }

    // The device asks for one block, and gets it.
    fn send_block<'b>(&mut self, lun: &'b str, tag: &'b str, offset: &'b str, byte: &str) {
        self.reply(&[
            ("3100", 2),
            (lun, 1),
            (tag, 9),
            (offset, 4),
            ("00001000", 16),
        ]);
        self.script.add("fill ");
        self.script.add_fields(&[
            ("0200", 2),
            (lun, 1),
            (tag, 7),
            ("1000", 2),
            (offset, 4),
            ("00001000", 16),
        ]);
        self.script.add(" ");
        self.script.add(byte);
        self.lines(" 4096", "host ok");
    }

    // An UNMAP whose list is asked for all at once, and brought.
    fn list<'b>(&mut self, tag: &'b str, length: &'b str, list: &'b str) {
        self.host(
            &[
                ("012000", 3),
                (tag, 12),
                (length, 1),
                ("42", 8),
                (length, 8),
            ],
            "host ok",
        );
        self.reply(&[("310000", 3), (tag, 16), (length, 13)]);
        self.script.add("host ");
        self.script.add_fields(&[
            ("020000", 3),
            (tag, 8),
            (length, 8),
            (length, 13),
            (list, 0),
        ]);
        self.lines("", "host ok");
    }

    // The frames of a request to a region: they are asked for all at once, and brought.
    fn frames<'b>(&mut self, region: &'b str, tag: &'b str, frames: &[Frame<'_>]) {
        let length = length_of(frames.len());
        self.command_of_frames("0120c4", tag, length, "b5ec", region);
        self.reply(&[("3100c4", 3), (tag, 15), (length, 14)]);
        self.script.add("host ");
        self.script
            .add_fields(&[("0200c4", 3), (tag, 7), (length, 8), (length, 14)]);
        self.script.add_frames(frames);
        self.lines("", "host ok");
    }

    // A COMMAND to the unit RPMB. Its CDB begins with the operation code and the security protocol
    // ECh; the region and the protocol's number 1 are behind them.
    fn command_of_frames<'b>(
        &mut self,
        head: &'b str,
        tag: &'b str,
        length: &'b str,
        cdb: &'b str,
        region: &'b str,
    ) {
        self.host(
            &[
                (head, 3),
                (tag, 11),
                (length, 2),
                (cdb, 2),
                (region, 1),
                ("01", 5),
                (length, 8),
            ],
            "host ok",
        );
    }

    fn request<'b>(&mut self, region: &'b str, tag: &'b str, frames: &[Frame<'_>]) {
        self.frames(region, tag, frames);
        self.reply(&[("2100c4", 3), (tag, 29)]);
    }

    // The response of a region that waits is fetched.
    fn answer<'b>(&mut self, region: &'b str, tag: &'b str, frames: &[Frame<'_>]) {
        let length = length_of(frames.len());
        self.command_of_frames("0140c4", tag, length, "a2ec", region);
        self.output.add("reply ");
        self.output
            .add_fields(&[("2200c4", 3), (tag, 7), (length, 8), (length, 14)]);
        self.output.add_frames(frames);
        self.lines("reply", "");
        self.reply(&[("2100c4", 3), (tag, 29)]);
    }

    fn data_in<'b>(
        &mut self,
        lun: &'b str,
        tag: &'b str,
        offset: &'b str,
        count: &'b str,
        byte: &str,
        bytes: usize,
    ) {
        self.output.add("reply ");
        self.output.add_fields(&[
            ("2200", 2),
            (lun, 1),
            (tag, 7),
            (count, 2),
            (offset, 4),
            ("", 2),
            (count, 14),
        ]);
        self.output.add_times(byte, bytes);
        self.lines("reply", "");
    }

    // Response 01h and status 02h, and 20 bytes of data: the length of the sense data, which are 18
    // bytes of response code 70h.
    fn refusal<'b>(
        &mut self,
        head: &'b str,
        tag: &'b str,
        residual: &'b str,
        key: &'b str,
        code: &'b str,
    ) {
        self.reply(&[
            (head, 3),
            (tag, 3),
            ("010200000014", 6),
            (residual, 20),
            ("001270", 4),
            (key, 5),
            ("0a", 5),
            (code, 6),
        ]);
    }

    /// The script prints what is expected, and no fault.
    pub fn run(&self, rt: &impl Abort) {
        Outcome::of_run(self.alloc, self.script.bytes(rt)).expect(rt, self.output.bytes(rt), b"");
    }

    /// The same, and the image that is saved then.
    pub fn save(&self, rt: &impl Abort) -> Vec<u8> {
        let mut image = Vec::new(self.alloc);
        let saved = Outcome::of_save(self.alloc, self.script.bytes(rt), &mut image);
        saved.expect(rt, self.output.bytes(rt), b"");
        image
    }

    /// Over the dies of this image the script prints what is expected, and no fault.
    pub fn load(&self, rt: &impl Abort, image: &[u8]) {
        let mut rest = image;
        let loaded = Outcome::of_load(self.alloc, self.script.bytes(rt), &mut rest);
        loaded.expect(rt, self.output.bytes(rt), b"");
    }

    /// A check of the script says this.
    pub fn check(&self, rt: &impl Abort, said: &[u8]) {
        Outcome::of_check(self.alloc, self.script.bytes(rt)).expect(rt, said, b"");
    }

    /// A check of the script over the dies of this image says this.
    pub fn check_image(&self, rt: &impl Abort, image: &[u8], said: &[u8]) {
        let mut rest = image;
        let checked = Outcome::of_image_check(self.alloc, self.script.bytes(rt), &mut rest);
        checked.expect(rt, said, b"");
    }

    /// The same, and it shows that.
    pub fn check_over(&self, rt: &impl Abort, image: &[u8], said: &[u8], shown: &[u8]) {
        self.check_image(rt, image, said);
        let script = self.script.bytes(rt);
        let mut rest = image;
        let mut progress = Vec::new(self.alloc);
        let checked = Outcome::of_shown_check(self.alloc, script, &mut rest, &mut progress);
        checked.expect(rt, said, b"");
        assert_eq!(rt; progress.as_slice(), shown);
    }

    /// A check of the script with these stops says this.
    pub fn check_each(&self, rt: &impl Abort, tries: Stops, said: &[u8]) {
        Outcome::of_check_each(self.alloc, self.script.bytes(rt), tries).expect(rt, said, b"");
    }
}

/// A script of these steps, with the row configuration, prints what is expected.
pub fn expect(rt: &impl Abort, alloc: Global, steps: &[Step<'_>]) {
    let mut script = Script::new(alloc);
    script.add(steps);
    script.run(rt);
}
