//! A device of which each call is timed, and what a host does with it.
use crate::clock::since;
use anyhow::{Result, bail, ensure};
use geometry::Config;
use nand_model::work;
use page_tag::tag_read;
use std::alloc::Global;
use std::rt::Clock;
use std::time::Instant;
use ufs_spec::{Job, UnitSpec};
use workbench::messages::{READ, WRITE, block_out, command, unmap, unmap_list};
use workbench::{Workbench, new_dies};

/// A call and what it does, in the order of `NAMES`; and no call between two looks at the clock.
#[derive(Clone, Copy)]
pub enum Call {
    HostRead,
    ReplyBlock,
    ReplyNothing,
    TakeRead,
    TakeProgram,
    TakeOpening,
    TakeNothing,
    DoneProgram,
    DoneRead,
    DoneErase,
    TurnNo,
    TurnBegins,
    NoCall,
}

/// What the calls are called in a row.
pub const NAMES: [&str; 12] = [
    "host, a READ of one block",
    "reply, a block",
    "reply, nothing, 16 times",
    "take, a read",
    "take, a program, not sealed",
    "take, the erase or first page of a block",
    "take, nothing",
    "done, a program",
    "done, a read, opened before",
    "done, an erase",
    "turn, no, 16 times",
    "turn, a collection begins",
];

/// What a call took, in nanoseconds.
#[derive(Clone, Copy)]
pub struct Spread {
    pub least: u64,
    pub median: u64,
    pub greatest: u64,
}

/// What each call took, in nanoseconds, as often as it was made.
#[derive(Drop)]
pub struct Samples {
    of: Vec<Vec<u64>>,
}

impl Samples {
    /// No call was made.
    pub fn new(alloc: Global) -> Result<Samples> {
        let mut of = Vec::new(alloc);
        for _ in 0..13u8 {
            of.push(Vec::new(alloc))?;
        }
        Ok(Samples { of })
    }

    /// The call took so long.
    fn note(&mut self, call: Call, time: u64) -> Result<()> {
        if let Some(all) = self.of.get_mut(call as usize) {
            all.push(time)?;
        }
        Ok(())
    }

    /// What the call of this place took, less what the clock takes; `None` if it was never made.
    pub fn spread(&mut self, place: usize, clock: u64) -> Option<Spread> {
        let all = self.of.get_mut(place)?;
        all.sort_unstable();
        Some(Spread {
            least: all.first()?.saturating_sub(clock),
            median: all.get(all.len() / 2)?.saturating_sub(clock),
            greatest: all.last()?.saturating_sub(clock),
        })
    }
}

/// How many pages a block has, and how many of them are overwritten before it is collected.
const PAGES: u16 = 16;

const DEAD: u32 = 12;

/// How many blocks a command has at most: they fill two blocks of a die.
const CHUNK: u16 = 32;

/// The sizes of a device.
#[derive(Clone, Copy)]
pub struct Shape {
    pub dies: u8,
    pub blocks: u16,
    pub slots: u16,
    /// How many chunks of 32 blocks its unit has. Chunk N lies on die N modulo the number of dies.
    pub chunks: u32,
}

/// The first address of a chunk.
fn chunk_at(chunk: u32) -> u32 {
    chunk.saturating_mul(u32::from(CHUNK))
}

/// A device over dies in memory, and what its calls took.
#[derive(Drop)]
pub struct Timed {
    bench: Workbench,
    shape: Shape,
    /// All dies but the last, which keeps what other READs wait for.
    workers: u8,
    pub samples: Samples,
    /// Whether times are noted.
    pub notes: bool,
    /// How many pages are to wait before a program, and how many do.
    pub wanted: u16,
    waiting: u16,
    /// How many blocks were overwritten.
    written: u32,
    /// The program in flight on the last die.
    held: Option<Job>,
    /// How many collections began by a turn of a cycle.
    pub begun: u32,
}

/// A device of these sizes over new dies, with one unit.
pub fn open(alloc: Global, shape: Shape, samples: Samples) -> Result<Timed> {
    let units = [UnitSpec {
        blocks: chunk_at(shape.chunks).saturating_add(u32::from(PAGES - 1)),
        boot: 0,
        protect: 0,
    }];
    let config = Config::new(
        shape.dies,
        shape.blocks,
        PAGES,
        &units,
        [1, 0, 0, 0],
        shape.slots,
        4,
    )?;
    let dies = new_dies(alloc, shape.dies, shape.blocks, PAGES)?;
    let bench = Workbench::new(alloc, config, dies)?;
    Ok(Timed {
        bench,
        shape,
        workers: shape.dies.saturating_sub(1),
        samples,
        notes: false,
        wanted: 0,
        waiting: 0,
        written: 2 * DEAD,
        held: None,
        begun: 0,
    })
}

impl Timed {
    /// The call, begun then, has ended.
    fn note<R: Clock>(&mut self, rt: &R, start: Instant, call: Call) -> Result<()> {
        let time = since(rt, start)?;
        if self.notes {
            self.samples.note(call, time)?;
        }
        Ok(())
    }

    /// UNMAP of so many blocks from this address on, whose pages this die programs.
    fn unmap(&mut self, die: u8, address: u32, blocks: u16) -> Result<()> {
        let is_heard = self.bench.send(&unmap(0)).is_ok()
            && self.bench.hear()
            && self.bench.send(&unmap_list(0, address, blocks)).is_ok()
            && self.bench.hear();
        ensure!(is_heard, "an UNMAP was not heard");
        for _ in 0..2 * CHUNK {
            self.bench.work(die);
        }
        Ok(())
    }

    /// The unit is written, each chunk on its die. The first mark and 15 pages fill a block before.
    pub fn fill(&mut self) -> Result<()> {
        let chunks = self.shape.chunks;
        let dies = u32::from(self.shape.dies).max(1);
        self.bench.settle(4, 1);
        self.unmap(0, chunk_at(chunks), PAGES - 1)?;
        for chunk in 0..chunks {
            let die = chunk % dies;
            self.unmap(die as u8, chunk_at(chunk), CHUNK)?;
        }
        Ok(())
    }

    /// 31 READs of 32 blocks are open, of which the last die is to read the first: it does no job.
    pub fn open_others(&mut self) -> Result<()> {
        for tag in 1..32u8 {
            let row = u32::from(tag % 8).saturating_mul(u32::from(self.shape.dies));
            let address = chunk_at(row.saturating_add(u32::from(self.workers)));
            let message = command(tag, READ, 0, address, CHUNK);
            ensure!(self.bench.send(&message).is_ok(), "a READ was refused");
        }
        ensure!(!self.bench.hear(), "a READ does not wait");
        Ok(())
    }

    /// The next address to overwrite: one block after another dies, of each die but the last.
    fn next_address(&mut self) -> u32 {
        let block = self.written / DEAD;
        let page = self.written % DEAD;
        self.written = self.written.wrapping_add(1);
        let workers = u32::from(self.workers).max(1);
        let row = (block / 2 / workers).saturating_mul(u32::from(self.shape.dies));
        let chunk = row.saturating_add(block / 2 % workers);
        let half = (block % 2).saturating_mul(u32::from(PAGES));
        chunk_at(chunk).saturating_add(half).saturating_add(page)
    }

    /// WRITE of the next block, which is answered once it is accepted.
    fn write(&mut self) -> Result<()> {
        let address = self.next_address();
        let is_heard = self.bench.send(&command(0, WRITE, 0, address, 1)).is_ok()
            && self.bench.hear()
            && self.bench.send(&block_out(0, 0, 0x5A)).is_ok()
            && self.bench.hear()
            && self.bench.reply.get(7).copied() == Some(0);
        ensure!(is_heard, "a WRITE was not GOOD");
        self.waiting = self.waiting.saturating_add(1);
        Ok(())
    }

    /// WRITEs until as many pages wait as are to.
    pub fn fill_slots(&mut self) -> Result<()> {
        for _ in self.waiting..self.wanted {
            self.write()?;
        }
        Ok(())
    }

    /// A turn, and a job of each die but the last; false if there was nothing to do.
    fn round(&mut self) -> bool {
        let mut has_worked = self.bench.device.turn();
        for die in 0..self.workers {
            has_worked |= self.bench.work(die);
        }
        has_worked
    }

    /// Rounds until there is nothing to do.
    fn rest(&mut self) -> Result<()> {
        for _ in 0..32_768u16 {
            if !self.round() {
                self.waiting = 0;
                return Ok(());
            }
        }
        bail!("a device does not come to rest")
    }

    /// A page is in flight on the last die, and pages behind it are programmed: with it as many as
    /// the slots allow, less 32.
    pub fn hold_page(&mut self) -> Result<()> {
        self.write()?;
        self.held = self.bench.device.take(self.workers);
        let is_erase = matches!(&self.held, Some(Job::Erase { .. }));
        if is_erase {
            self.release_page()?;
            self.held = self.bench.device.take(self.workers);
        }
        for _ in 33..self.shape.slots {
            self.write()?;
        }
        self.rest()
    }

    /// The job in flight on the last die ends, if there is one.
    pub fn release_page(&mut self) -> Result<()> {
        if let Some(job) = self.held.take() {
            let is_known = self.bench.end(self.workers, &job);
            ensure!(is_known, "a job was not in flight");
        }
        Ok(())
    }

    /// A turn, a WRITE and its program, and a READ from die 0.
    pub fn cycle<R: Clock>(&mut self, rt: &R, number: u8) -> Result<()> {
        let start = Instant::now(rt)?;
        self.note(rt, start, Call::NoCall)?;
        self.turn(rt)?;
        self.write()?;
        let die = self.program(rt, number)?;
        if self.wanted == 0 {
            let start = Instant::now(rt)?;
            let is_owed = self.bench.device.take_unsealed(die).is_some();
            self.note(rt, start, Call::TakeNothing)?;
            ensure!(!is_owed, "a die is owed a job");
        }
        self.read(rt, u32::from(number))
    }

    /// A turn. The collection that it begins, and what it makes due, is done.
    fn turn<R: Clock>(&mut self, rt: &R) -> Result<()> {
        let start = Instant::now(rt)?;
        if !self.bench.device.turn() {
            for _ in 1..16u8 {
                self.bench.device.turn();
            }
            return self.note(rt, start, Call::TurnNo);
        }
        self.note(rt, start, Call::TurnBegins)?;
        self.begun = self.begun.wrapping_add(1);
        self.rest()?;
        self.fill_slots()
    }

    /// The program of the page that waits first, after erases that it may need, by the first die
    /// that has room, from this one on. The die.
    fn program<R: Clock>(&mut self, rt: &R, first: u8) -> Result<u8> {
        for step in 0..32u8 {
            let die = first.wrapping_add(step) % self.workers.max(1);
            let Some(job) = self.take(rt, die)? else {
                continue;
            };
            self.end(rt, die, &job)?;
            if matches!(job, Job::Program(..)) {
                self.waiting = self.waiting.saturating_sub(1);
                return Ok(die);
            }
        }
        bail!("no program waits")
    }

    /// READ of a block that die 0 has, up to its RESPONSE.
    fn read<R: Clock>(&mut self, rt: &R, address: u32) -> Result<()> {
        let start = Instant::now(rt)?;
        let is_heard = self.bench.send(&command(0, READ, 0, address, 1)).is_ok();
        self.note(rt, start, Call::HostRead)?;
        self.hear(rt, Call::ReplyNothing, false)?;
        let Some(job) = self.take(rt, 0)? else {
            bail!("no read waits");
        };
        self.end(rt, 0, &job)?;
        self.hear(rt, Call::ReplyBlock, true)?;
        let is_good = self.bench.reply.len() == 4128 && self.bench.hear();
        ensure!(is_heard && is_good, "a READ was not answered");
        Ok(())
    }

    /// Asks for a reply, which is due or not.
    fn hear<R: Clock>(&mut self, rt: &R, call: Call, is_due: bool) -> Result<()> {
        let times = if is_due { 1u8 } else { 16 };
        let start = Instant::now(rt)?;
        let mut has_come = false;
        for _ in 0..times {
            has_come |= self.bench.hear();
        }
        self.note(rt, start, call)?;
        ensure!(has_come == is_due, "a reply was due, or was not");
        Ok(())
    }

    /// The next job of the die. Its page is sealed after the call: the hash is not timed.
    fn take<R: Clock>(&mut self, rt: &R, die: u8) -> Result<Option<Job>> {
        let start = Instant::now(rt)?;
        let unsealed = self.bench.device.take_unsealed(die);
        let time = since(rt, start)?;
        let Some(unsealed) = unsealed else {
            return Ok(None);
        };
        let job = unsealed.sealed();
        let call = match &job {
            Job::Read(_) => Call::TakeRead,
            Job::Program(place, _) if place.page > 0 => Call::TakeProgram,
            _ => Call::TakeOpening,
        };
        if self.notes {
            self.samples.note(call, time)?;
        }
        Ok(Some(job))
    }

    /// Does the job on its die, and tells the device how it ended. A page is opened before the
    /// call, so the hash is not timed.
    fn end<R: Clock>(&mut self, rt: &R, die: u8, job: &Job) -> Result<()> {
        let index = usize::from(die);
        if index >= self.bench.dies.len() || !self.bench.dies[index].can_do(job) {
            bail!("a die cannot do its job");
        }
        let outcome = work(&mut self.bench.dies[index], job);
        let tag = tag_read(&outcome);
        let start = Instant::now(rt)?;
        let is_known = self.bench.device.done_opened(die, &outcome, &tag);
        let call = match job {
            Job::Program(..) => Call::DoneProgram,
            Job::Read(_) => Call::DoneRead,
            Job::Erase { .. } => Call::DoneErase,
        };
        self.note(rt, start, call)?;
        ensure!(is_known, "a job was not in flight");
        Ok(())
    }
}
