//! Lives of a device one after another, each from an opening to a stop.
use crate::fault::Fault;
use crate::host::OPEN_BLOCKS;
use crate::kept::Kept;
use crate::player::{Failing, Player, Stop};
use crate::shapes::{PAGES, Shape};
use std::alloc::Global;
use workbench::collected::{EACH_LEFT, Left};
use workbench::new_dies;

/// So many other blocks are read in each life, and all blocks in each so many-th life.
const READ_BACK: u32 = 4;

const ALL_READ: u32 = 128;

/// The stamp of the write that a device over copies takes.
const TRIED: u32 = u32::MAX;

/// Up to so many WRITEs are begun one straight after another, and so many times in a life.
const MOST_WRITES: u32 = 16;

const MOST_BATCHES: u32 = 6;

/// The stops after so many jobs, from 1 on, are tried.
const MOST_JOBS: u32 = 50;

/// So many lives a device has once all its spare blocks are bad. Then a new one begins.
const WORN_LIVES: u32 = 8;

/// So many writes use up the free blocks of any device here, down to those that writes leave.
const MOST_USED_UP: u32 = 65_536;

/// So many pages of each block that is filled get a block that stays, where pages fail: one device after another.
const STAY: [u16; 4] = [15, 7, 1, 11];

/// What happens in each life.
#[derive(Clone, Copy, PartialEq, Eq)]
pub enum Plan {
    /// The device is mended, and stopped.
    NoWrite,
    /// It is mended, and stopped after one durable write.
    OneWrite,
    /// The stop comes in the first mark that is programmed. The dies are new at first, and for a quarter of the
    /// lives no mark is left whole.
    FirstMark,
    /// The device is mended and written, and the stop comes in the next mark that is programmed: that of a
    /// collection.
    NextMark,
    /// The stop comes after as many jobs as in the life before, for a fiftieth of the lives each number from 1 on.
    SameJob,
    /// The stop comes after one job more than in the life before, and after 50 it begins at 1 again.
    EachJob,
    /// The same, while one die in turn does none of its jobs: the first that it has stays in flight.
    HeldDie,
    /// The device is mended and written, and READs are begun whose replies nobody takes. The stop comes in the middle
    /// of the collection beside them, in each other life while a die does none of its jobs.
    OpenReads,
    /// A program or an erase fails, in each life at another moment, and the stop comes some jobs later.
    OneFails,
    /// The device is written while no turn is made, until as few blocks are free as WRITEs leave. Then several programs
    /// and erases fail, one straight after another, and the stop comes among them or later.
    ManyFail,
    /// The same, where each erase fails: all at once or in two or three lives. In each other one the stop comes right
    /// after them.
    ErasesFail,
    /// The device is new, and written while no turn is made. In each block that is filled a page fails, behind pages
    /// that stay live. Then turns are made, and these pages move, until the stop comes.
    PagesFail,
}

/// All of these.
pub const PLANS: [Plan; 12] = [
    Plan::NoWrite,
    Plan::OneWrite,
    Plan::FirstMark,
    Plan::NextMark,
    Plan::SameJob,
    Plan::EachJob,
    Plan::HeldDie,
    Plan::OpenReads,
    Plan::OneFails,
    Plan::ManyFail,
    Plan::ErasesFail,
    Plan::PagesFail,
];

impl Plan {
    /// The word that names it.
    pub fn name(self) -> &'static str {
        match self {
            Plan::NoWrite => "no-write",
            Plan::OneWrite => "one-write",
            Plan::FirstMark => "first-mark",
            Plan::NextMark => "next-mark",
            Plan::SameJob => "same-job",
            Plan::EachJob => "each-job",
            Plan::HeldDie => "held-die",
            Plan::OpenReads => "open-reads",
            Plan::OneFails => "one-fails",
            Plan::ManyFail => "many-fail",
            Plan::ErasesFail => "erases-fail",
            Plan::PagesFail => "pages-fail",
        }
    }

    /// Whether programs and erases fail.
    pub fn has_failures(self) -> bool {
        match self {
            Plan::OneFails | Plan::ManyFail | Plan::ErasesFail | Plan::PagesFail => true,
            _ => false,
        }
    }
}

/// A row: a plan, its devices, and how many lives it has.
#[derive(Clone, Copy)]
pub struct Row {
    pub plan: Plan,
    pub shape: Shape,
    pub lives: u32,
}

/// A device that goes from life to life, what its host knows of it, and the most rounds that a mending took. Where
/// jobs fail, it is one device after another.
#[derive(Drop)]
pub struct Series {
    alloc: Global,
    row: Row,
    shape: Shape,
    player: Player,
    kept: Kept,
    /// How many lives came to their end.
    pub ended: u32,
    pub rounds: u32,
    /// How many devices there were, how many jobs had failed before this one, and how many lives it has had since all
    /// its spare blocks were bad.
    pub devices: u32,
    failed_before: u32,
    worn: u32,
    /// The next address that gets a block that stays.
    staying: u32,
}

/// How many WRITEs this life begins one straight after another.
fn batch_of(life: u32) -> u32 {
    life % MOST_WRITES + 1
}

impl Series {
    /// A new device, mended and with each block of its unit written.
    pub fn new(alloc: Global, row: Row) -> Result<Series, Fault> {
        let shape = row.shape;
        let dies = new_dies(alloc, shape.dies, shape.blocks, PAGES)?;
        let mut series = Series {
            alloc,
            row,
            shape,
            player: Player::new(alloc, shape, dies)?,
            kept: Kept::new(alloc, shape.unit)?,
            ended: 0,
            rounds: 0,
            devices: 1,
            failed_before: 0,
            worn: 0,
            staying: 0,
        };
        series.begin()?;
        Ok(series)
    }

    /// The device is mended and written, where it is not to be new.
    fn begin(&mut self) -> Result<(), Fault> {
        if self.row.plan == Plan::FirstMark || self.row.plan == Plan::PagesFail {
            Ok(())
        } else {
            self.fill()
        }
    }

    /// A new device takes the place of this one.
    fn begin_anew(&mut self) -> Result<(), Fault> {
        let shape = self.shape;
        let dies = new_dies(self.alloc, shape.dies, shape.blocks, PAGES)?;
        let mut player = Player::new(self.alloc, shape, dies)?;
        player.jobs = self.player.jobs;
        player.failed = self.player.failed;
        self.failed_before = player.failed;
        self.player = player;
        self.kept = Kept::new(self.alloc, shape.unit)?;
        self.devices = self.devices.saturating_add(1);
        self.worn = 0;
        self.staying = 0;
        self.begin()
    }

    /// How many jobs may fail still, so that the device is not locked.
    fn may_fail(&self) -> u32 {
        let failed = self.player.failed.saturating_sub(self.failed_before);
        u32::from(self.shape.spare).saturating_sub(failed)
    }

    /// How many jobs failed.
    pub fn failed(&self) -> u32 {
        self.player.failed
    }

    /// How many jobs the dies did in these lives.
    pub fn jobs(&self) -> u64 {
        self.player.jobs
    }

    /// Each block of the unit is written.
    fn fill(&mut self) -> Result<(), Fault> {
        self.mend(Stop::Never)?;
        for address in 0..self.kept.unit() {
            self.player.write_at(&mut self.kept, address, Stop::Never)?;
        }
        Ok(())
    }

    /// Waits until the device is mended: whether it is, or the stop is due first.
    fn mend(&mut self, stop: Stop) -> Result<bool, Fault> {
        let Some(rounds) = self.player.mend(stop)? else {
            return Ok(false);
        };
        self.rounds = self.rounds.max(rounds);
        Ok(true)
    }

    /// After how many jobs the stop comes in this life.
    fn jobs_of(&self, life: u32) -> u32 {
        match self.row.plan {
            Plan::SameJob => life / (self.row.lives / MOST_JOBS).max(1) % MOST_JOBS + 1,
            _ => life % MOST_JOBS + 1,
        }
    }

    /// Writes until the stop is due, or as often as in a life.
    fn write_on(&mut self, life: u32, stop: Stop) -> Result<(), Fault> {
        for _ in 0..MOST_BATCHES {
            if !self
                .player
                .write_batch(&mut self.kept, batch_of(life), stop)?
            {
                return Ok(());
            }
        }
        Ok(())
    }

    /// Writes up to the stop in a mark; where none comes, the life ends in the middle of its last WRITEs.
    fn write_to_mark(&mut self, life: u32) -> Result<(), Fault> {
        for _ in 0..MOST_BATCHES {
            if !self
                .player
                .write_batch(&mut self.kept, batch_of(life), Stop::InMark)?
            {
                return Ok(());
            }
        }
        let jobs = self.player.done.saturating_add(life % 8 + 1);
        self.player
            .write_batch(&mut self.kept, batch_of(life), Stop::AfterJobs(jobs))?;
        Ok(())
    }

    /// The device is mended and written until the stop is due.
    fn mend_and_write(&mut self, life: u32, stop: Stop) -> Result<(), Fault> {
        if self.mend(stop)? {
            self.write_on(life, stop)?;
        }
        Ok(())
    }

    /// One die in turn is held, if there are several.
    fn hold(&mut self, life: u32) {
        if self.shape.dies > 1 {
            self.player.held = Some((life / 2 % u32::from(self.shape.dies.max(1))) as u8);
        }
    }

    /// The device is mended; then a die is held while it is written until the stop is due.
    fn live_beside_held(&mut self, life: u32) -> Result<(), Fault> {
        if life % 2 == 0 {
            self.mend(Stop::Never)?;
        }
        self.hold(life);
        let jobs = self.jobs_of(life).saturating_add(MOST_JOBS);
        self.mend_and_write(life, Stop::AfterJobs(jobs))
    }

    /// The device is mended and written; then READs stay open while it works on until the stop is due.
    fn live_beside_reads(&mut self, life: u32) -> Result<(), Fault> {
        self.mend(Stop::Never)?;
        self.player
            .write_batch(&mut self.kept, batch_of(life), Stop::Never)?;
        if life % 2 == 1 {
            self.hold(life);
        }
        self.player
            .begin_reads(self.kept.address_of(life, OPEN_BLOCKS))?;
        let jobs = self.player.done.saturating_add(self.jobs_of(life));
        self.player.work_until(Stop::AfterJobs(jobs))
    }

    /// The address of the next block that is written: far from the last one. Where pages fail, so many pages of each
    /// block get addresses in turn, and the others address 0.
    fn next_address(&mut self) -> u32 {
        if self.row.plan != Plan::PagesFail {
            return self.kept.address_of(self.kept.next_stamp(), 1);
        }
        if self.player.page.wrapping_add(1) % PAGES >= self.stay() {
            return 0;
        }
        self.staying = self.staying.wrapping_add(1) % self.kept.unit().max(1);
        self.staying
    }

    /// How many pages of each block of this device get a block that stays.
    fn stay(&self) -> u16 {
        STAY[(self.devices % 4) as usize]
    }

    /// Blocks are written while no turn is made, until one waits: as few blocks are free as WRITEs leave.
    fn use_up(&mut self) -> Result<(), Fault> {
        self.player.turns = false;
        for _ in 0..MOST_USED_UP {
            let address = self.next_address();
            if !self.player.write_at(&mut self.kept, address, Stop::Never)? {
                break;
            }
        }
        self.player.turns = true;
        Ok(())
    }

    /// The block that waits is written; then the device is written on until the stop is due.
    fn go_on(&mut self, life: u32, stop: Stop) -> Result<(), Fault> {
        if self.player.wait_for_all(&mut self.kept, stop)? {
            self.write_on(life, stop)?;
        }
        Ok(())
    }

    /// The stop that is due some jobs from now.
    fn jobs_later(&self, life: u32) -> Stop {
        Stop::AfterJobs(self.player.done.saturating_add(life % MOST_JOBS + 1))
    }

    /// How many jobs fail in this life, if each device has a life more in which they fail than the one before, up to
    /// three.
    fn share(&self) -> u32 {
        u32::from(self.shape.spare)
            .div_ceil(self.devices % 3 + 1)
            .min(self.may_fail())
    }

    /// A program or an erase fails after some jobs, and the stop comes after some more.
    fn live_with_one(&mut self, life: u32) -> Result<(), Fault> {
        let count = self.may_fail().min(1);
        self.player.begin_failing(Failing::All, count);
        self.player.fail_after = life % MOST_JOBS;
        let jobs = (life % MOST_JOBS).saturating_add(life % 7 + 1);
        self.mend_and_write(life, Stop::AfterJobs(jobs))
    }

    /// Several programs and erases fail where few blocks are free.
    fn live_with_many(&mut self, life: u32) -> Result<(), Fault> {
        self.mend(Stop::Never)?;
        self.use_up()?;
        let count = self.may_fail().min(life % 5 + 1);
        self.player.begin_failing(Failing::All, count);
        let stop = self.jobs_later(life);
        self.go_on(life, stop)
    }

    /// Each erase fails where few blocks are free.
    fn live_with_erases(&mut self, life: u32) -> Result<(), Fault> {
        self.mend(Stop::Never)?;
        self.use_up()?;
        let share = self.share();
        self.player.begin_failing(Failing::Erases, share);
        let stop = if life % 2 == 0 && share > 0 {
            Stop::AllFailed
        } else {
            self.jobs_later(life)
        };
        self.go_on(life, stop)
    }

    /// A page of each block that is filled fails while no turn is made. Then turns are made, in each third life until
    /// nothing is left to do.
    fn live_with_pages(&mut self, life: u32) -> Result<(), Fault> {
        self.mend(Stop::Never)?;
        let (page, share) = (self.stay(), self.share());
        self.player.begin_failing(Failing::Page(page), share);
        self.use_up()?;
        self.player.to_fail = 0;
        self.player.wait_for_all(&mut self.kept, Stop::Never)?;
        let stop = if life % 3 == 0 {
            Stop::Never
        } else {
            self.jobs_later(life)
        };
        self.player.work_until(stop)
    }

    /// What the host does in this life, up to its stop.
    fn live(&mut self, life: u32) -> Result<(), Fault> {
        match self.row.plan {
            Plan::NoWrite => {
                self.mend(Stop::Never)?;
            }
            Plan::OneWrite => {
                self.mend(Stop::Never)?;
                self.player.write_batch(&mut self.kept, 1, Stop::Never)?;
            }
            Plan::FirstMark => {
                if self.mend(Stop::InMark)? {
                    self.write_to_mark(life)?;
                }
            }
            Plan::NextMark => {
                self.mend(Stop::Never)?;
                self.write_to_mark(life)?;
            }
            Plan::HeldDie => self.live_beside_held(life)?,
            Plan::OpenReads => self.live_beside_reads(life)?,
            Plan::OneFails => self.live_with_one(life)?,
            Plan::ManyFail => self.live_with_many(life)?,
            Plan::ErasesFail => self.live_with_erases(life)?,
            Plan::PagesFail => self.live_with_pages(life)?,
            Plan::SameJob | Plan::EachJob => {
                let jobs = self.jobs_of(life);
                self.mend_and_write(life, Stop::AfterJobs(jobs))?;
            }
        }
        Ok(())
    }

    /// The life ends: in each other one dies without a job are given their next ones before it.
    fn stop(&mut self, life: u32) -> Result<(), Fault> {
        let has_jobs = matches!(self.row.plan, Plan::SameJob | Plan::EachJob);
        if (has_jobs || self.row.plan.has_failures()) && life % 2 == 1 {
            self.player.begin_next()?;
        }
        let left = self.left_in(life);
        self.player.stop(left)?;
        self.kept.stop();
        Ok(())
    }

    /// What the jobs in flight leave at the end of this life, in turn.
    fn left_in(&self, life: u32) -> Left {
        if self.row.plan == Plan::FirstMark && life < self.row.lives / 4 {
            if life % 2 == 0 { Left::Old } else { Left::Torn }
        } else {
            EACH_LEFT[(life % 3) as usize]
        }
    }

    /// A device that is opened over copies of the dies is mended, takes a write, and has what was kept.
    fn try_copies(&mut self, life: u32) -> Result<(), Fault> {
        let mut player = Player::new(self.alloc, self.shape, self.player.copies()?)?;
        if let Some(rounds) = player.mend(Stop::Never)? {
            self.rounds = self.rounds.max(rounds);
        }
        player.expect_begun(&mut self.kept)?;
        self.expect_some(&mut player)?;
        if life % ALL_READ == 0 {
            self.expect_all(&mut player)?;
        }
        player.expect_written(life % self.kept.unit().max(1), TRIED)
    }

    /// Some blocks are read.
    fn expect_some(&mut self, player: &mut Player) -> Result<(), Fault> {
        let last = self.kept.next_stamp();
        for stamp in last.saturating_sub(READ_BACK)..last {
            let address = self.kept.address_of(stamp, 1);
            player.expect(&mut self.kept, address)?;
        }
        Ok(())
    }

    /// All blocks are read.
    fn expect_all(&mut self, player: &mut Player) -> Result<(), Fault> {
        for address in 0..self.kept.unit() {
            player.expect(&mut self.kept, address)?;
        }
        Ok(())
    }

    /// Where jobs fail, a device that has no spare block left has some more lives. Then a new one begins.
    fn wear(&mut self) -> Result<(), Fault> {
        if !self.row.plan.has_failures() || self.may_fail() > 0 {
            return Ok(());
        }
        self.worn = self.worn.saturating_add(1);
        if self.worn > WORN_LIVES {
            self.begin_anew()
        } else {
            Ok(())
        }
    }

    /// All lives of the row.
    pub fn play(&mut self) -> Result<(), Fault> {
        for life in 0..self.row.lives {
            self.live(life)?;
            self.stop(life)?;
            self.try_copies(life)?;
            self.ended = self.ended.saturating_add(1);
            self.wear()?;
        }
        Ok(())
    }
}
