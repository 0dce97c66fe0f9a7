//! An open task with its block of the pool.
ghost use Rattle.std.specs.Prelude.{◌≡◌, option_copied, length};
ghost use Rattle.task_set.specs.Kept.{newly_open, task_in};
ghost use Rattle.task_set.specs.Frames.{page_put};
ghost use Rattle.task_set.specs.Rooms.{block_in, held_in};
ghost use Rattle.task_set.specs.Tasks.{after_lost_read, after_read, block_after, block_kept, bytes_kept, is_decided};
ghost use Rattle.task_set.specs.Tasks.{is_sender, is_task_meant, is_task_of, read_for, task_after};
ghost use Rattle.std.specs.Prelude.{ℕ, List, option_map};

use crate::frames::{AreaReading, Frames};
use crate::tasks::{Meant, Phase, Task, TaskEvent};
use std::marker::Model;
use ufs_bytes::{Block, Body};

/// What lies in a task's block of the pool.
#[derive(Clone, Copy)]
pub enum Holds {
    /// Nothing that counts.
    Nothing,
    /// The next block that it sends or compares: a die read it, or it was put there.
    Block,
    /// What it sends in one DATA IN, or the first frame of its request and the data that it asks for.
    Frames,
}

impl Holds {
    /// The block is no longer there.
    fn without_block(self) -> Holds
        ensures block { (body : List ℕ) → block_in result body ≡ None }
        ensures held { (body : List ℕ) → held_in result body ≡ held_in self body }
    {
        match self {
            Holds::Block => Holds::Nothing,
            holds => holds,
        }
    }
}

/// An open task, and its block of the pool.
#[derive(Drop)]
pub struct OpenTask {
    /// What it still owes its host.
    task: Task,
    /// Its block of the pool.
    body: Body,
    /// What that block holds.
    holds: Holds,
}

impl Model for OpenTask {
    ghost use Rattle.task_set.specs.Kept.{OpenTask as Kept};

    ghost Value = { Kept };

    ghost use Rattle.task_set.specs.Rooms.{open_of};

    ghost view = { open_of };
}

impl OpenTask {
    /// A task for which no die has read yet, with this block of the pool.
    pub fn new(task: Task, body: Body) -> OpenTask
        ensures { result ≡ newly_open task }
    {
        OpenTask {
            task,
            body,
            holds: Holds::Nothing,
        }
    }

    /// What it still owes its host.
    pub fn task(&self) -> Task
        ensures { result ≡ task_in self.now }
    {
        self.task
    }

    /// Whether it is found by this number.
    pub fn is_of(&self, number: u16) -> bool
        ensures { result ≡ is_task_of number self.now }
    {
        u16::from(self.task.tag) == number
    }

    /// Whether it is one of those that a task management request is about.
    pub fn is_meant(&self, meant: Meant) -> bool
        ensures { result ≡ is_task_meant meant self.now }
    {
        meant.is(self.task.lun, self.task.tag)
    }

    /// The block that a die read for it, if it is there.
    pub fn block(&self) -> Option<&Block>
        ensures { option_copied result ≡ self.now.block }
    {
        match self.holds {
            Holds::Block => Some(self.body.block()),
            _ => None,
        }
    }

    /// What it keeps to send, or the first frame of its request with the data behind it.
    pub fn held(&self) -> Option<&Block>
        ensures { option_copied result ≡ self.now.held }
    {
        match self.holds {
            Holds::Frames => Some(self.body.block()),
            _ => None,
        }
    }

    /// It keeps these bytes, frames or others, with what is behind them, from now on.
    pub fn keep(&mut self, frames: &Block)
        ensures { self.new ≡ bytes_kept frames.now self.old }
    {
        self.body.set(frames);
        self.holds = Holds::Frames;
    }

    /// It keeps this block, the next one that it compares, from now on.
    pub fn keep_block(&mut self, block: &Block)
        ensures { self.new ≡ block_kept block.now self.old }
    {
        self.body.set(block);
        self.holds = Holds::Block;
    }

    /// Whether its command brings frames.
    pub fn is_sender(&self) -> bool
        ensures { result ≡ is_sender self.now }
    {
        !matches!(self.task.frames, Frames::NotBrought)
    }

    /// Whether it has a request that is yet to fill its register.
    pub fn is_decided(&self) -> bool
        ensures { result ≡ is_decided self.now }
    {
        matches!(self.task.frames, Frames::Decided { .. })
    }

    /// Its block of the pool; the task has ended.
    pub fn into_body(self) -> Body {
        self.body
    }

    /// This happened to it. A block that was handed out or compared is no longer there.
    pub fn happen(&mut self, event: TaskEvent)
        ensures { self.new ≡ task_after event self.old }
    {
        self.give_up(event);
        self.task.phase = self.task.phase.after(event);
        self.task.frames = self.task.frames.after(event);
    }

    /// A block that was handed out or compared is no longer there.
    fn give_up(&mut self, event: TaskEvent)
        ensures { self.new ≡ record self.old {
          block = block_after event self.old.phase self.old.block;
        } }
    {
        match (self.task.phase, event) {
            (Phase::SendBlocks { sending: _ }, TaskEvent::BlockSent)
            | (Phase::AwaitBlock { comparing: _ }, TaskEvent::BlockSame)
            | (Phase::AwaitBlock { comparing: _ }, TaskEvent::BlockDiffers) => {
                self.holds = self.holds.without_block();
            }
            _ => {}
        }
    }

    /// A die read this block, or this page of the area, for the task of this tag.
    pub fn load_for(&mut self, tag: u8, index: u16, block: &Block)
        ensures { self.new ≡ after_read tag index block.now self.old }
    {
        if self.task.tag == tag {
            self.load(index, block);
        }
    }

    /// A die read this block, or this page of the area, for it. A VERIFY that compares nothing keeps nothing
    /// of it, and one whose host was asked for its block has its own one.
    fn load(&mut self, index: u16, block: &Block)
        ensures { self.new ≡ read_for index block.now self.old self.old.phase }
    {
        match self.task.phase {
            Phase::ReadArea { reading } => {
                self.put_page(reading, index, block);
                self.happen(TaskEvent::PageLoaded { index });
            }
            Phase::Verify { verifying: _ } | Phase::AwaitBlock { comparing: _ } => {}
            _ => self.keep_block(block),
        }
    }

    /// What is asked for of this page stands in its place, behind the frame that it keeps.
    fn put_page(&mut self, reading: AreaReading, index: u16, page: &Block)
        ensures { self.new ≡ record self.old {
          held = option_map (page_put reading index page.now) self.old.held;
        } }
    {
        if let Holds::Frames = self.holds {
            let part = reading.part(index);
            self.body
                .set_part(part.at, &page[part.from..part.from + part.length]);
        }
    }

    /// A die could not read the block or the page of this index for the task of this tag.
    pub fn lose_for(&mut self, tag: u8, index: u16)
        ensures { self.new ≡ after_lost_read tag index self.old }
    {
        if self.task.tag == tag {
            self.happen(TaskEvent::BlockLost { index });
        }
    }
}
