//! What becomes of a block that is free while its pages still open: it is erased before anything else is written,
//! and it is filled later without a second erase.
ghost use Rattle.std.specs.Prelude.{◌<◌};

use crate::dies::{at_rest, small, small_dies};
use std::alloc::Global;
use std::process::Abort;
use ufs_spec::Job;
use workbench::Workbench;
use workbench::collected::read_in_turn;
use workbench::messages::{READ, command, good, is_block};

/// How many dies a small device has, and how many blocks and pages.
const DIES: u8 = 2;

const BLOCKS: usize = 20;

const LAST_PAGE: u16 = 15;

/// What was seen of the blocks of a small device.
#[derive(Drop)]
struct Watch {
    /// Of each block, in order by die and block, whether it was erased and is not filled since.
    ready: [bool; 40],
    /// Of each die, whether it fills a block.
    filling: [bool; 2],
    /// How many blocks were erased while their die filled another one.
    early: u32,
}

/// The number of the block among those of both dies.
fn number_of(rt: &impl Abort, die: u8, block: u16) -> usize
    ensures { result < 40 }
{
    let number = usize::from(die) * BLOCKS + usize::from(block);
    assert!(rt; number < 40);
    number
}

impl Watch {
    /// Nothing was seen.
    fn new() -> Watch {
        Watch {
            ready: [false; 40],
            filling: [false; 2],
            early: 0,
        }
    }

    /// Whether the die fills a block.
    fn is_filling(&self, rt: &impl Abort, die: u8) -> bool {
        assert!(rt; die < DIES);
        self.filling[usize::from(die)]
    }

    /// The die fills a block from now on, or none.
    fn set_filling(&mut self, rt: &impl Abort, die: u8, is_filling: bool) {
        assert!(rt; die < DIES);
        self.filling[usize::from(die)] = is_filling;
    }

    /// The die erases the block, which was filled since its last erase.
    fn erase(&mut self, rt: &impl Abort, die: u8, block: u16) {
        let number = number_of(rt, die, block);
        assert!(rt;
            !self.ready[number],
            "block {block} of die {die} is erased twice"
        );
        self.ready[number] = true;
        if self.is_filling(rt, die) {
            self.early = self.early.saturating_add(1);
        }
    }

    /// The die begins to fill the block, which was erased.
    fn begin(&mut self, rt: &impl Abort, die: u8, block: u16) {
        let number = number_of(rt, die, block);
        self.ready[number] = false;
        self.set_filling(rt, die, true);
    }

    /// The die has this job.
    fn see(&mut self, rt: &impl Abort, job: &Job) {
        match job {
            Job::Read(_) => {}
            Job::Erase { die, block } => self.erase(rt, *die, *block),
            Job::Program(place, _) => {
                if place.page == 0 {
                    self.begin(rt, place.die, place.block);
                }
                if place.page == LAST_PAGE {
                    self.set_filling(rt, place.die, false);
                }
            }
        }
    }
}

/// A turn, and a job of each die, all of which are seen.
fn round(rt: &impl Abort, bench: &mut Workbench, watch: &mut Watch) {
    bench.device.turn();
    for die in 0..DIES {
        if let Some(job) = &bench.device.take(die) {
            watch.see(rt, job);
            assert!(rt; bench.end(die, job));
        }
    }
}

/// A FUA write of a block is answered GOOD, with each job seen.
fn write(rt: &impl Abort, bench: &mut Workbench, watch: &mut Watch, address: u32, byte: u8) {
    assert!(rt; bench.begins_write(address, byte));
    for _ in 0..1024u16 {
        round(rt, bench, watch);
        if bench.hear() {
            assert!(rt; bench.has_written());
            return;
        }
    }
    panic!(rt; "the write is answered");
}

/// A small device over new dies, at rest.
fn new_bench(rt: &impl Abort, alloc: Global) -> Workbench {
    at_rest(rt, alloc, small(rt), small_dies(rt, alloc))
}

/// 700 writes on dies of 640 pages. Blocks are collected, and erased while their dies fill others; none is erased
/// twice before it is filled.
#[test]
fn a_freed_block_is_erased_once(rt: HostRuntime) {
    let mut bench = new_bench(&rt, rt.alloc());
    let mut watch = Watch::new();
    for index in 0..700u16 {
        let address = u32::from(index % 32);
        write(&rt, &mut bench, &mut watch, address, (index % 256) as u8);
    }
    assert!(rt; watch.early > 0 && read_in_turn(&mut bench, 700));
    drop(bench);
}

/// A turn, and a job of each die, up to the read of a page that is copied: that read, which is in flight.
fn copy_in_round(rt: &impl Abort, bench: &mut Workbench) -> Option<(u8, Job)> {
    bench.device.turn();
    for die in 0..DIES {
        let Some(job) = bench.device.take(die) else {
            continue;
        };
        if matches!(job, Job::Read(_)) {
            return Some((die, job));
        }
        assert!(rt; bench.end(die, &job));
    }
    None
}

/// The read of a page that is copied, if the work on a FUA write comes to one. Else the write is answered GOOD.
fn copy_beside_write(rt: &impl Abort, bench: &mut Workbench) -> Option<(u8, Job)> {
    for _ in 0..1024u16 {
        let copied = copy_in_round(rt, bench);
        if copied.is_some() {
            return copied;
        }
        if bench.hear() {
            assert!(rt; bench.has_written());
            return None;
        }
    }
    panic!(rt; "the write is answered");
}

/// The address of write i, from 0 on: each sixteenth goes to the next one, from 1 to 63 in turn, and all others to
/// 0. So each block has about one page that stays live.
fn address_of(index: u16) -> u16 {
    if index % 16 == 0 {
        1 + index / 16 % 63
    } else {
        0
    }
}

/// The byte that the newest of so many writes left at this address; 0 where none did.
fn newest(address: u16, writes: u16) -> u8 {
    let mut byte = 0u8;
    for index in 0..writes {
        if address_of(index) == address {
            byte = (index % 256) as u8;
        }
    }
    byte
}

/// Write i carries the byte i mod 256, up to the first that is not answered when a page is to be copied: the die that
/// reads this page, the read, and how many writes were begun.
fn write_to_copy(rt: &impl Abort, bench: &mut Workbench) -> (u8, Job, u16) {
    for index in 0..5000u16 {
        let address = u32::from(address_of(index));
        assert!(rt; bench.begins_write(address, (index % 256) as u8));
        if let Some((die, job)) = copy_beside_write(rt, bench) {
            return (die, job, index + 1);
        }
    }
    panic!(rt; "a page is copied");
}

/// The write that was begun last is answered GOOD, by the work of this die.
fn end_write(rt: &impl Abort, bench: &mut Workbench, die: u8) {
    for _ in 0..8u8 {
        if bench.hear() {
            assert!(rt; bench.has_written());
            return;
        }
        bench.work(die);
    }
    panic!(rt; "the write is answered");
}

/// Rounds of a turn and of a job of each die, none of which is the erase of this block.
fn settle_beside(rt: &impl Abort, bench: &mut Workbench, kept: (u8, u16)) {
    for _ in 0..64u8 {
        bench.device.turn();
        for die in 0..DIES {
            if let Some(job) = &bench.device.take(die) {
                assert!(rt; !is_erase(job, kept));
                assert!(rt; bench.end(die, job));
            }
        }
    }
}

/// Whether the job is the erase of this block.
fn is_erase(job: &Job, kept: (u8, u16)) -> bool {
    matches!(job, Job::Erase { die, block } if (*die, *block) == kept)
}

/// A job of each die: whether one of them is the erase of this block.
fn erases(rt: &impl Abort, bench: &mut Workbench, kept: (u8, u16)) -> bool {
    let mut is_erased = false;
    for die in 0..DIES {
        if let Some(job) = &bench.device.take(die) {
            is_erased = is_erased || is_erase(job, kept);
            assert!(rt; bench.end(die, job));
        }
    }
    is_erased
}

/// The next reply comes after as much work as it needs: whether this block is erased on the way.
fn hear_beside(rt: &impl Abort, bench: &mut Workbench, kept: (u8, u16)) -> bool {
    let mut is_erased = false;
    for _ in 0..8u8 {
        if bench.hear() {
            return is_erased;
        }
        is_erased = erases(rt, bench, kept) || is_erased;
    }
    panic!(rt; "a reply is due");
}

/// The READ of the first 32 blocks gives what the writes left, of which so many were begun: whether this block is
/// erased on the way.
fn expect_read(rt: &impl Abort, bench: &mut Workbench, writes: u16, kept: (u8, u16)) -> bool {
    let mut is_erased = false;
    for address in 0..32u16 {
        let byte = newest(address, writes);
        is_erased = hear_beside(rt, bench, kept) || is_erased;
        assert!(rt; is_block(bench.reply.as_slice(), 9, u32::from(address) * 4096, byte));
    }
    assert!(rt; bench.hears(&good(9)));
    is_erased
}

/// A block is collected, and a READ keeps a page of it from before it is copied. The collection ends, and the block is
/// not erased; the READ has its bytes; and once it lets go of the page the block is erased.
#[test]
fn a_kept_page_outlasts_its_collection(rt: HostRuntime) {
    let mut bench = new_bench(&rt, rt.alloc());
    let (die, job, writes) = write_to_copy(&rt, &mut bench);
    let Job::Read(place) = job else {
        panic!(rt; "a page is read");
    };
    end_write(&rt, &mut bench, 1 - die % 2);
    assert!(rt; bench.send(&command(9, READ, 0, 0, 32)).is_ok());
    assert!(rt; bench.end(die, &job));
    let kept = (place.die, place.block);
    settle_beside(&rt, &mut bench, kept);
    let is_erased = expect_read(&rt, &mut bench, writes, kept);
    assert!(rt; is_erased || erases(&rt, &mut bench, kept));
    drop(bench);
}
