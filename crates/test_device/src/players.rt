//! A world over small dies at work, one of whose jobs may fail.
use crate::dies::small;
use device::World;
use geometry::Config;
use nand_model::{Die, MemDie};
use std::alloc::Global;
use std::process::Abort;
use ufs_spec::{Event, Job, Leftover, Output, Page, Place, Upiu};
use workbench::collected::{Left, blank, torn};
use workbench::messages::{FUA, READ, WRITE, block_out, command, good, is_block};

/// A world, and the numbers of the jobs that fail in it, counted from 1.
#[derive(Drop)]
pub struct Player {
    pub alloc: Global,
    pub world: World,
    /// How many jobs were given out.
    pub jobs: u32,
    pub failing: [u32; 2],
    pub left: Left,
    /// Whether the job that failed was a read; whether it was a program or an erase, which locks a device
    /// without spare blocks.
    pub has_failed_read: bool,
    pub is_locked: bool,
}

/// What the page of the die holds.
pub fn page_of(rt: &impl Abort, dies: &[MemDie], place: Place) -> Page {
    let die = usize::from(place.die);
    assert!(rt; die < dies.len() && dies[die].can_do(&Job::Read(place)));
    *dies[die].page_at(place.block, place.page)
}

impl Player {
    /// A world over these small dies, in which this job fails and leaves this; none fails at 0.
    pub fn new(
        rt: &impl Abort,
        alloc: Global,
        dies: Vec<MemDie>,
        failing: u32,
        left: Left,
    ) -> Player {
        Player::over(rt, alloc, small(rt), dies, [failing, 0], left)
    }

    /// A world over dies that fit the configuration, in which these jobs fail.
    pub fn over(
        rt: &impl Abort,
        alloc: Global,
        config: Config,
        dies: Vec<MemDie>,
        failing: [u32; 2],
        left: Left,
    ) -> Player {
        let Ok(world) = World::new(alloc, config, dies) else {
            panic!(rt; "the dies fit");
        };
        Player {
            alloc,
            world,
            jobs: 0,
            failing,
            left,
            has_failed_read: false,
            is_locked: false,
        }
    }

    /// The event is taken.
    pub fn step(&mut self, rt: &impl Abort, event: &Event) -> Output {
        let Ok(output) = self.world.step(event) else {
            panic!(rt; "the event fits");
        };
        output
    }

    /// Hands the device a message that it takes.
    pub fn send(&mut self, rt: &impl Abort, message: &[u8]) {
        let message = Vec::from_slice(self.alloc, message).expect(rt, "memory");
        let output = self.step(rt, &Event::Host(message));
        assert!(rt; matches!(output, Output::Host(Ok(()))));
    }

    /// The reply that is due, if one is.
    pub fn reply(&mut self, rt: &impl Abort) -> Option<Upiu> {
        let Output::Reply(reply) = self.step(rt, &Event::Reply) else {
            panic!(rt; "a reply event shows a reply");
        };
        reply
    }

    /// The job that the die is given, if it is given one.
    pub fn take(&mut self, rt: &impl Abort, die: u8) -> Option<Job> {
        let Output::Take(job) = self.step(rt, &Event::Take(die)) else {
            panic!(rt; "a take event shows a job");
        };
        if job.is_some() {
            self.jobs = self.jobs.saturating_add(1);
        }
        job
    }

    /// One job of the die, which fails if its number says so.
    pub fn work(&mut self, rt: &impl Abort, die: u8) {
        if let Some(job) = self.take(rt, die) {
            let end = self.end_of(rt, die, &job);
            let output = self.step(rt, &end);
            assert!(rt; matches!(output, Output::Ended));
        }
    }

    /// The end of the job that was given out last.
    fn end_of(&mut self, rt: &impl Abort, die: u8, job: &Job) -> Event {
        if self.jobs != self.failing[0] && self.jobs != self.failing[1] {
            return Event::Finish(die);
        }
        self.has_failed_read = matches!(job, Job::Read(_));
        self.is_locked = !self.has_failed_read;
        Event::Fail(die, self.left_of(rt, job))
    }

    /// What the job leaves where it fails: of a read nothing.
    fn left_of(&self, rt: &impl Abort, job: &Job) -> Option<Leftover> {
        match job {
            Job::Read(_) => None,
            Job::Program(place, page) => {
                let page = self.page_left(rt, *place, *page, self.left);
                Some(Leftover::Page(*place, page))
            }
            Job::Erase { die, block } => {
                Some(self.block_left(rt, *die, *block, 16, (self.left, self.left)))
            }
        }
    }

    /// What is left of a block of 16 pages that is erased: one page so, the others otherwise.
    pub fn block_left(
        &self,
        rt: &impl Abort,
        die: u8,
        block: u16,
        odd: u16,
        lefts: (Left, Left),
    ) -> Leftover {
        let mut pages = Vec::new(self.alloc);
        for page in 0..16u16 {
            let left = if page == odd { lefts.0 } else { lefts.1 };
            let page = self.page_left(rt, Place { die, block, page }, blank(), left);
            pages.push(page).expect(rt, "memory");
        }
        Leftover::Block { die, block, pages }
    }

    /// What is left of one page that was to hold this.
    pub fn page_left(&self, rt: &impl Abort, place: Place, intended: Page, left: Left) -> Page {
        match left {
            Left::Old => page_of(rt, self.world.dies(), place),
            Left::New => intended,
            Left::Torn => torn(),
        }
    }

    /// A stop, of which the jobs in flight leave this.
    pub fn stop(&mut self, rt: &impl Abort, lefts: Vec<Leftover>) {
        let output = self.step(rt, &Event::Stop(lefts));
        assert!(rt; matches!(output, Output::Stopped));
    }

    /// A stop with one job in flight, which leaves this.
    pub fn stop_leaving(&mut self, rt: &impl Abort, left: Leftover) {
        let lefts = Vec::from_array(self.alloc, [left]).expect(rt, "memory");
        self.stop(rt, lefts);
    }

    /// Rounds of a turn and of one job of each of the first `dies` dies.
    pub fn settle(&mut self, rt: &impl Abort, rounds: u8, dies: u8) {
        for _ in 0..rounds {
            self.step(rt, &Event::Turn);
            for die in 0..dies {
                self.work(rt, die);
            }
        }
    }

    /// The next reply, after as much work of the four dies from this one on as it needs.
    pub fn hear(&mut self, rt: &impl Abort, first: u8) -> Upiu {
        for turn in 0..12u8 {
            if let Some(reply) = self.reply(rt) {
                return reply;
            }
            self.work(rt, (first % 4 + turn) % 4);
        }
        panic!(rt; "a reply is due");
    }

    /// A FUA write of one block of equal bytes at this address of unit 0, task tag 07: its
    /// RESPONSE.
    pub fn write(&mut self, rt: &impl Abort, address: u8, byte: u8) -> Upiu {
        self.send(rt, &command(7, WRITE, FUA, u32::from(address), 1));
        let asked = self.hear(rt, address);
        if asked.first().copied() != Some(0x31) {
            return asked;
        }
        self.send(rt, &block_out(7, 0, byte));
        self.hear(rt, address)
    }

    /// A READ of that block, task tag 08: its first reply.
    pub fn read(&mut self, rt: &impl Abort, address: u8) -> Upiu {
        self.send(rt, &command(8, READ, 0, u32::from(address), 1));
        self.hear(rt, address)
    }

    /// That reply has equal bytes, and the RESPONSE behind it is GOOD.
    pub fn expect_block(&mut self, rt: &impl Abort, reply: &Upiu, byte: u8) {
        assert!(rt; is_block(reply.as_slice(), 8, 0, byte));
        let Some(answer) = self.reply(rt) else {
            panic!(rt; "a RESPONSE is due");
        };
        assert!(rt; answer.as_slice() == good(8).as_slice());
    }
}
