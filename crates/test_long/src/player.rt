//! A device at work on two dies, one of whose jobs may fail, and what is done with it as lines of a
//! script.
use crate::kept::Kept;
use crate::script::Script;
use geometry::Config;
use nand_model::{Die, MemDie};
use std::alloc::Global;
use std::process::Abort;
use ufs_spec::{Job, Outcome, Page, Place, UnitSpec};
use workbench::collected::{Left, blank, torn};
use workbench::{Workbench, new_dies};

/// The first lines of a script over such a device: two dies of 21 blocks of 16 pages, of which four
/// are spare, and a unit of 60 blocks that boots, and that is protected for good. A collection is
/// due once fewer than 14 blocks are free.
pub(crate) const FIRST_LINES: &[u8] = b"config 2 21 16 1 64 4\nunit 60 1 2\n";

const BLOCKS: u16 = 21;

const PAGES: u16 = 16;

/// How many rounds of work a host waits for a reply.
const MOST_ROUNDS: u16 = 256;

/// A job that a die was given, and whether it is the one that fails.
#[derive(Drop)]
struct Given {
    job: Job,
    fails: bool,
}

/// What was done: jobs that the dies were given, programs and erases among them, and how many of
/// these were given while the other die had one too.
#[derive(Clone, Copy, Default)]
pub(crate) struct Counts {
    pub jobs: usize,
    pub writes: usize,
    pub both: usize,
}

/// The device with its dies, and what its host knows.
#[derive(Drop)]
pub(crate) struct Player {
    pub bench: Workbench,
    pub kept: Kept,
    pub counts: Counts,
    /// The job that fails, counted from 1; none fails at 0. What it leaves of its page or of its
    /// block.
    pub failing: usize,
    pub left: Left,
    /// Whether each of the jobs that were given out was a read.
    pub are_reads: Vec<bool>,
    /// The kind and the address of the page whose read failed, while a command waits that may need
    /// it.
    pub lost: Option<(u8, u32)>,
    /// How often the host was told so.
    pub told: usize,
    /// What was done, where it is written down.
    pub script: Option<Script>,
    /// How many rounds there were, and whether each die has a program or an erase in flight.
    rounds: u32,
    at_work: [bool; 2],
}

/// The configuration.
fn config(rt: &impl Abort) -> Config {
    let units = [UnitSpec {
        blocks: 60,
        boot: 1,
        protect: 2,
    }];
    Config::new(2, BLOCKS, PAGES, &units, [1, 0, 0, 0], 64, 4).expect(rt, "a configuration")
}

/// A device over these dies.
fn opened(rt: &impl Abort, alloc: Global, dies: Vec<MemDie>) -> Workbench {
    Workbench::new(alloc, config(rt), dies).expect(rt, "the dies are opened")
}

/// What a failed job leaves of a page that was to hold this; `None` where it leaves it as it was.
fn page_left(left: Left, intended: &Page) -> Option<Page> {
    match left {
        Left::Old => None,
        Left::New => Some(*intended),
        Left::Torn => Some(torn()),
    }
}

/// The pages of the block from this one on hold this, so many of them, and the block is bad.
fn leave(die: &mut MemDie, place: Place, pages: u16, content: &Option<Page>) {
    if let Some(content) = content {
        for page in place.page..place.page.saturating_add(pages) {
            if die.can_do(&Job::Read(Place { page, ..place })) {
                die.set_page(place.block, page, content);
            }
        }
    }
    if place.block < die.blocks() {
        die.set_bad(place.block);
    }
}

/// The kind of a page, and its address: what its spare bytes say.
fn key_in(page: &Page) -> (u8, u32) {
    let spare = &page.spare;
    let address = u32::from_be_bytes([spare[8], spare[9], spare[10], spare[11]]);
    (spare[5], address)
}

/// Copies of the dies.
fn copied(rt: &impl Abort, alloc: Global, dies: &[MemDie]) -> Vec<MemDie> {
    let mut all = Vec::new(alloc);
    for die in dies {
        let copy = die.copy(alloc).expect(rt, "memory");
        all.push(copy).expect(rt, "memory");
    }
    all
}

impl Player {
    /// A device over new dies, which writes down what is done in this script.
    pub fn new(rt: &impl Abort, alloc: Global, script: Option<Script>) -> Player {
        let dies = new_dies(alloc, 2, BLOCKS, PAGES).expect(rt, "memory");
        Player::over(rt, alloc, dies, script)
    }

    /// The same over these dies.
    fn over(rt: &impl Abort, alloc: Global, dies: Vec<MemDie>, script: Option<Script>) -> Player {
        Player {
            bench: opened(rt, alloc, dies),
            kept: Kept::new(),
            counts: Counts::default(),
            failing: 0,
            left: Left::Old,
            are_reads: Vec::new(alloc),
            lost: None,
            told: 0,
            script,
            rounds: 0,
            at_work: [false; 2],
        }
    }

    /// A device over copies of the dies of this one, whose jobs are counted anew, and of which this
    /// one fails.
    pub fn failing(&self, rt: &impl Abort, alloc: Global, failing: usize, left: Left) -> Player {
        let dies = copied(rt, alloc, self.bench.dies.as_slice());
        let mut player = Player::over(rt, alloc, dies, None);
        player.kept = self.kept;
        player.rounds = self.rounds;
        player.failing = failing;
        player.left = left;
        player
    }

    /// Writes a line down.
    pub fn note(&mut self, line: &[u8]) {
        if let Some(script) = &mut self.script {
            script.add(line);
        }
    }

    /// The power goes off and on again, while no die has a job.
    pub fn stop(&mut self, rt: &impl Abort, alloc: Global) {
        self.note(b"stop\n");
        let mut dies = std::mem::replace(&mut self.bench.dies, Vec::new(alloc));
        for die in dies.iter_mut() {
            die.end_power_cycle();
        }
        self.bench = opened(rt, alloc, dies);
    }

    /// The job that the die is given, if it is given one.
    fn take(&mut self, die: u8) -> Option<Given> {
        self.note(if die == 0 { b"take 0\n" } else { b"take 1\n" });
        let job = self.bench.device.take(die)?;
        let is_read = matches!(job, Job::Read(_));
        self.count(usize::from(die % 2), is_read);
        Some(Given {
            job,
            fails: self.counts.jobs == self.failing,
        })
    }

    /// Counts a job that the die was given.
    fn count(&mut self, die: usize, is_read: bool) {
        self.counts.jobs = self.counts.jobs.saturating_add(1);
        // A list that lacks one makes a test fail.
        let _ = self.are_reads.push(is_read);
        if !is_read {
            self.counts.writes = self.counts.writes.saturating_add(1);
            self.at_work[die % 2] = true;
            if self.at_work[0] && self.at_work[1] {
                self.counts.both = self.counts.both.saturating_add(1);
            }
        }
    }

    /// The die does the job that it was given, or fails.
    fn end(&mut self, die: u8, given: &Option<Given>) {
        let Some(given) = given else {
            return;
        };
        self.at_work[usize::from(die % 2)] = false;
        if given.fails {
            self.fail(die, &given.job);
        } else {
            self.bench.end(die, &given.job);
            self.note(if die == 0 {
                b"done 0 ok\n"
            } else {
                b"done 1 ok\n"
            });
        }
    }

    /// The job fails, and leaves what it has to.
    fn fail(&mut self, die: u8, job: &Job) {
        let index = usize::from(die);
        if index >= self.bench.dies.len() {
            return;
        }
        let outcome = match job {
            Job::Read(place) => {
                self.lost = self.key_at(*place);
                Outcome::ReadFailed
            }
            Job::Program(place, page) => {
                let content = page_left(self.left, page);
                leave(&mut self.bench.dies[index], *place, 1, &content);
                Outcome::Failed
            }
            Job::Erase { die, block } => {
                let first = Place {
                    die: *die,
                    block: *block,
                    page: 0,
                };
                let content = page_left(self.left, &blank());
                leave(&mut self.bench.dies[index], first, PAGES, &content);
                Outcome::Failed
            }
        };
        self.bench.device.done(die, &outcome);
    }

    /// The kind and the address of the page there.
    fn key_at(&self, place: Place) -> Option<(u8, u32)> {
        let die = self.bench.dies.get(usize::from(place.die))?;
        if !die.can_do(&Job::Read(place)) {
            return None;
        }
        Some(key_in(die.page_at(place.block, place.page)))
    }

    /// A turn, and a job of each die, which the dies have at the same time. In each other round die
    /// 1 is the first to be given one, and the last to end it. Whether there was anything to do.
    pub fn round(&mut self) -> bool {
        self.rounds = self.rounds.wrapping_add(1);
        let first = (self.rounds % 2) as u8;
        self.note(b"turn\n");
        let is_turned = self.bench.device.turn();
        let (one, other) = (self.take(first), self.take(1 - first));
        self.end(1 - first, &other);
        self.end(first, &one);
        is_turned || one.is_some() || other.is_some()
    }

    /// Rounds until there is nothing to do: whether that comes.
    pub fn rests(&mut self) -> bool {
        for _ in 0..MOST_ROUNDS {
            if !self.round() {
                return true;
            }
        }
        false
    }

    /// Takes the next reply, after as many rounds as it needs: whether one came.
    pub fn waits(&mut self) -> bool {
        for _ in 0..MOST_ROUNDS {
            self.note(b"reply\n");
            if self.bench.hear() {
                return true;
            }
            self.round();
        }
        false
    }
}
