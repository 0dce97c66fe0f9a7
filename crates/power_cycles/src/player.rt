//! A device with its dies at work, up to a stop.
use crate::fault::Fault;
use crate::shapes::{PAGES, Shape};
use device::World;
use nand_model::MemDie;
use std::alloc::{AllocError, Global};
use ufs_spec::{Event, Job, Leftover, NoMemory, Output, Page, Place, Tag, Upiu};
use workbench::collected::{EACH_LEFT, Left, blank, torn};

/// When a life ends: never by itself, after so many jobs of its dies, while a mark is programmed, or once all jobs
/// failed that were to fail.
#[derive(Clone, Copy, PartialEq, Eq)]
pub enum Stop {
    Never,
    AfterJobs(u32),
    InMark,
    AllFailed,
}

/// Which of the programs and erases fail: none, each of them, each erase, or the program of this page of each block.
#[derive(Clone, Copy, PartialEq, Eq)]
pub enum Failing {
    Nothing,
    All,
    Erases,
    Page(u16),
}

impl Failing {
    /// Whether the job is one of these.
    fn has(self, job: Option<&Job>) -> bool {
        match job {
            Some(Job::Program(place, _)) => match self {
                Failing::All => true,
                Failing::Page(page) => place.page == page,
                _ => false,
            },
            Some(Job::Erase { die: _, block: _ }) => self == Failing::All
                || self == Failing::Erases,
            _ => false,
        }
    }
}

/// What a round of work comes to: the stop is due, something was done, or there was nothing to do.
#[derive(Clone, Copy, PartialEq, Eq)]
pub enum Round {
    Due,
    Worked,
    Idle,
}

/// A device with its dies, and how many jobs they did: in all lives, and in this one.
#[derive(Drop)]
pub struct Player {
    alloc: Global,
    world: World,
    dies: u8,
    /// The die whose job ends first in the next round.
    first: u8,
    pub jobs: u64,
    pub done: u32,
    /// The die that does no job in this life: the one that it has stays in flight up to the stop.
    pub held: Option<u8>,
    /// Whether turns are made.
    pub turns: bool,
    /// So many of these jobs fail still in this life, once its dies did so many.
    pub failing: Failing,
    pub to_fail: u32,
    pub fail_after: u32,
    /// How many failed in all lives.
    pub failed: u32,
    /// The page that was last programmed well, in its block.
    pub page: u16,
}

/// Whether the page that the device gives to a die is a mark: its spare bytes say so.
fn is_mark(page: &Page) -> bool {
    page.spare[5] == Tag::MARK
}

/// Whether the job programs a mark.
fn marks(job: Option<&Job>) -> bool {
    match job {
        Some(Job::Program(_, page)) => is_mark(page),
        _ => false,
    }
}

/// What a stop leaves of a page of the die that was to hold this.
fn page_left(dies: &[MemDie], place: Place, intended: Page, left: Left) -> Page {
    let die = usize::from(place.die);
    match left {
        Left::New => intended,
        Left::Torn => torn(),
        Left::Old if die < dies.len() && dies[die].can_do(&Job::Read(place)) => {
            *dies[die].page_at(place.block, place.page)
        }
        Left::Old => blank(),
    }
}

impl Player {
    /// A device over these dies.
    pub fn new(alloc: Global, shape: Shape, dies: Vec<MemDie>) -> Result<Player, Fault> {
        Ok(Player {
            alloc,
            world: World::new(alloc, shape.config()?, dies)?,
            dies: shape.dies,
            first: 0,
            jobs: 0,
            done: 0,
            held: None,
            turns: true,
            failing: Failing::Nothing,
            to_fail: 0,
            fail_after: 0,
            failed: 0,
            page: 0,
        })
    }

    /// Copies of the dies as they are now.
    pub fn copies(&self) -> Result<Vec<MemDie>, NoMemory> {
        let mut all = Vec::new(self.alloc);
        for die in self.world.dies() {
            all.push(die.copy(self.alloc)?).map_err(|_| NoMemory)?;
        }
        Ok(all)
    }

    /// Hands the device a message: whether it takes it.
    pub fn send(&mut self, message: &[u8]) -> Result<bool, Fault> {
        let event = Event::Host(Vec::from_slice(self.alloc, message)?);
        let output = self.world.step(&event)?;
        Ok(matches!(output, Output::Host(Ok(()))))
    }

    /// The reply that is due, if one is.
    pub fn hear(&mut self) -> Result<Option<Upiu>, Fault> {
        match self.world.step(&Event::Reply)? {
            Output::Reply(reply) => Ok(reply),
            _ => Ok(None),
        }
    }

    /// Each die without a job is given one, if it is owed one.
    fn take_all(&mut self) -> Result<(), Fault> {
        for die in 0..self.dies {
            if self.world.job(die).is_none() {
                self.world.step(&Event::Take(die))?;
            }
        }
        Ok(())
    }

    /// Whether some die programs a mark.
    fn is_in_mark(&self) -> bool {
        for die in 0..self.dies {
            if marks(self.world.job(die)) {
                return true;
            }
        }
        false
    }

    /// From now on so many of these jobs fail, and what they leave is old, new and torn in turn.
    pub fn begin_failing(&mut self, failing: Failing, count: u32) {
        self.failing = failing;
        self.to_fail = count;
        self.fail_after = self.done;
    }

    /// Whether the job of the die fails.
    fn is_failing(&self, die: u8) -> bool {
        self.to_fail > 0 && self.done >= self.fail_after && self.failing.has(self.world.job(die))
    }

    /// The job of the die fails.
    fn fail(&mut self, die: u8) -> Result<(), Fault> {
        let left = EACH_LEFT[(self.failed % 3) as usize];
        let leftover = self.job_left(die, left)?;
        self.world.step(&Event::Fail(die, leftover))?;
        self.to_fail = self.to_fail.saturating_sub(1);
        self.failed = self.failed.saturating_add(1);
        Ok(())
    }

    /// The page of its block that the die programs; the last one that was programmed if it programs none.
    fn page_of(&self, die: u8) -> u16 {
        match self.world.job(die) {
            Some(Job::Program(place, _)) => place.page,
            _ => self.page,
        }
    }

    /// The job of the die ends well.
    fn end_well(&mut self, die: u8) -> Result<(), Fault> {
        self.page = self.page_of(die);
        self.world.step(&Event::Finish(die))?;
        Ok(())
    }

    /// The die does its job, if it has one and is not held.
    fn finish(&mut self, die: u8) -> Result<(), Fault> {
        if self.held != Some(die) && self.world.job(die).is_some() {
            if self.is_failing(die) {
                self.fail(die)?;
            } else {
                self.end_well(die)?;
            }
            self.jobs = self.jobs.saturating_add(1);
            self.done = self.done.saturating_add(1);
        }
        Ok(())
    }

    /// The dies do their jobs, one after another, until the stop is due: whether it is.
    fn finish_all(&mut self, stop: Stop) -> Result<bool, Fault> {
        for step in 0..self.dies {
            let die = (u16::from(self.first) + u16::from(step)) % u16::from(self.dies.max(1));
            self.finish(die as u8)?;
            if stop == Stop::AfterJobs(self.done)
                || (stop == Stop::AllFailed && self.to_fail == 0)
            {
                return Ok(true);
            }
        }
        self.first = self.first.wrapping_add(1) % self.dies.max(1);
        Ok(false)
    }

    /// Makes a turn, if turns are made: whether it was due.
    fn turn(&mut self) -> Result<bool, Fault> {
        if !self.turns {
            return Ok(false);
        }
        let output = self.world.step(&Event::Turn)?;
        Ok(matches!(output, Output::Turn(true)))
    }

    /// A turn, and a job of each die. Beside a held die, and where no turns are made, the stop is due once there is
    /// nothing else to do.
    pub fn round(&mut self, stop: Stop) -> Result<Round, Fault> {
        let has_turned = self.turn()?;
        let before = self.jobs;
        self.take_all()?;
        let is_due = stop == Stop::InMark && self.is_in_mark();
        if is_due || self.finish_all(stop)? {
            return Ok(Round::Due);
        }
        if self.jobs > before || has_turned {
            Ok(Round::Worked)
        } else if self.held.is_some() || !self.turns {
            Ok(Round::Due)
        } else {
            Ok(Round::Idle)
        }
    }

    /// Each die without a job is given its next one, so that a stop comes in the middle of these.
    pub fn begin_next(&mut self) -> Result<(), Fault> {
        self.take_all()
    }

    /// What is left of the block, all of whose pages are left so.
    fn block_left(&self, die: u8, block: u16, left: Left) -> Result<Leftover, AllocError> {
        let mut pages = Vec::new(self.alloc);
        for page in 0..PAGES {
            let place = Place { die, block, page };
            pages.push(page_left(self.world.dies(), place, blank(), left))?;
        }
        Ok(Leftover::Block { die, block, pages })
    }

    /// What the job of the die leaves, if it has one that leaves something.
    fn job_left(&self, die: u8, left: Left) -> Result<Option<Leftover>, AllocError> {
        match self.world.job(die) {
            Some(Job::Program(place, page)) => {
                let page = page_left(self.world.dies(), *place, *page, left);
                Ok(Some(Leftover::Page(*place, page)))
            }
            Some(Job::Erase { die, block }) => Ok(Some(self.block_left(*die, *block, left)?)),
            _ => Ok(None),
        }
    }

    /// What the jobs of all dies leave.
    fn all_left(&self, left: Left) -> Result<Vec<Leftover>, AllocError> {
        let mut all = Vec::new(self.alloc);
        for die in 0..self.dies {
            if let Some(found) = self.job_left(die, left)? {
                all.push(found)?;
            }
        }
        Ok(all)
    }

    /// The power goes away, and each job in flight leaves this; then the device is opened again.
    pub fn stop(&mut self, left: Left) -> Result<(), Fault> {
        let lefts = self.all_left(left)?;
        self.world.step(&Event::Stop(lefts))?;
        self.done = 0;
        self.held = None;
        self.turns = true;
        self.failing = Failing::Nothing;
        Ok(())
    }
}
