//! A WRITE and an UNMAP of 128 blocks, the most that a command has, with stops tried at each of their
//! programs.
use crate::script::Script;
use ufsim::Stops;
use workbench::messages::{FUA, WRITE, command, data_out, unmap, unmap_list};

/// Four dies of 25 blocks of 16 pages, 256 slots, and a unit that has one block before and one behind
/// those of the commands.
const FIRST_LINES: &[u8] = b"config 4 25 16 1 256 0\nunit 130 0 0\nsettle 4\n";

/// How many blocks the commands have, from address 1 on.
const BLOCKS: u16 = 128;

impl Script {
    /// A WRITE with FUA, each block of a byte of its own, which is answered once it is programmed.
    fn write_blocks(&mut self) {
        self.host(&command(2, WRITE, FUA, 1, BLOCKS));
        for block in 0..BLOCKS {
            self.add(b"reply\n");
            self.fill(&data_out(2, u32::from(block) * 4096), (block % 256) as u8);
        }
        self.add(b"settle 40\nreply\n");
    }

    /// An UNMAP of the same blocks, whose pages are programmed behind its answer.
    fn unmap_blocks(&mut self) {
        self.host(&unmap(3));
        self.add(b"reply\n");
        self.host(&unmap_list(3, 1, BLOCKS));
        self.add(b"reply\nsettle 40\n");
    }
}

/// After each stop all of the blocks are as the WRITE made them, or none is; and the same of the UNMAP
/// behind it. Each program of them has three stops.
#[test]
fn each_stop_of_commands_of_128_blocks_is_good(rt: HostRuntime) {
    let mut script = Script::new(rt.alloc(), FIRST_LINES);
    script.write_blocks();
    script.unmap_blocks();
    let stops = script.good_stops(&rt, rt.alloc(), Stops::One);
    assert!(rt; stops > 3 * 2 * usize::from(BLOCKS), "{stops} stops");
}
