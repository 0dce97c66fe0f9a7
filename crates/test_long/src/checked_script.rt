//! A long script that mixes writes of blocks, writes of the replay protected memory block and
//! collection, with stops tried at each of its jobs.
use crate::areas::{key_request, rising, signed_frames};
use crate::script::Script;
use std::alloc::Global;
use ufsim::Stops;
use workbench::frames::{FrameBytes, Numbers, frames_command, frames_out};
use workbench::messages::{FUA, WRITE, command, data_out};

/// One die of 31 blocks of 16 pages, and two units of 4 and of 2 blocks. A collection is due once
/// fewer than 13 blocks are free.
const FIRST_LINES: &[u8] = b"config 1 31 16 1 64 0\nunit 4 0 0\nunit 2 1 0\nsettle 4\n";

/// How many blocks are written, and how many times the area is.
const WRITES: u16 = 96;

/// How many pages the host's commands have: the key's, one for each block, and in 8 writes of the
/// area, of 1 to 8 blocks from the twelfth of a page on, four times two pages and four times three.
/// The first mark is one more, so all blocks but 9 are filled.
const PAGES: usize = 1 + 96 + 12 * (4 * 2 + 4 * 3) + 1;

impl Script {
    /// A WRITE of one block of equal bytes to unit 0, up to its data.
    fn write(&mut self, second: u8, address: u32, byte: u8) {
        self.host(&command(2, WRITE, second, address, 1));
        self.add(b"reply\n");
        self.fill(&data_out(2, 0), byte);
    }

    /// A request of these frames, up to its data.
    fn request(&mut self, frames: &[FrameBytes]) {
        self.host(&frames_command(3, frames.len()));
        self.add(b"reply\n");
        self.host(frames_out(3, frames).as_slice());
    }

    /// The key is programmed.
    fn program_key(&mut self) {
        self.request(&[key_request()]);
        self.add(b"settle 32\nreply\n");
    }

    /// The write of the area with this number: so many blocks from the twelfth of a page on.
    fn write_area(&mut self, number: u16, count: u8) {
        let numbers = Numbers {
            counter: u32::from(number),
            address: 16 * (number % 31) + 12,
            count: u16::from(count),
            code: 0,
            kind: 3,
        };
        let used = usize::from(count.clamp(1, 8));
        let frames = signed_frames(&rising((number % 256) as u8), numbers, used);
        self.request(&frames[..used]);
    }

    /// A WRITE and a write of the area, both open at once, and their answers. Each third WRITE has
    /// FUA, so that it is answered after the work of the die.
    fn write_both(&mut self, number: u16) {
        let is_forced = number % 3 == 0;
        self.write(
            if is_forced { FUA } else { 0 },
            u32::from(number % 4),
            (number % 255) as u8,
        );
        if !is_forced {
            self.add(b"reply\n");
        }
        self.write_area(number, (number % 8) as u8 + 1);
        self.add(b"settle 32\nreply\n");
        if is_forced {
            self.add(b"reply\n");
        }
    }
}

/// The script.
fn mixed(alloc: Global) -> Script {
    let mut script = Script::new(alloc, FIRST_LINES);
    script.program_key();
    for number in 0..WRITES {
        script.write_both(number);
    }
    script.add(b"settle 64\n");
    script
}

/// Three stops at each job. There are more jobs than pages of the host: blocks are collected.
#[test]
fn each_stop_of_a_mixed_script_is_good(rt: HostRuntime) {
    let stops = mixed(rt.alloc()).good_stops(&rt, rt.alloc(), Stops::One);
    assert!(rt; stops > 3 * (PAGES + 8), "{stops} stops");
}
