//! The tasks and the short exchanges that are open.
ghost use Rattle.std.specs.Prelude.{◌≡◌, ◌<◌, ◌≤◌, length, map, nat_le, slice_get, position, Some};
ghost use Rattle.std.specs.Prelude.{IfOk, IfSome, option_copied, vec_capacity};
ghost use Rattle.std.specs.List.{list_any};
ghost use Rattle.ufs_spec.specs.Exchanges.{most_short_exchanges, most_tasks};
ghost use Rattle.task_set.specs.Kept.{no_tasks};
ghost use Rattle.task_set.specs.Lists.{asked_among, asked_by, asked_in, compared_among, compared_by, compared_in};
ghost use Rattle.task_set.specs.Lists.{compares_in, held_at, is_in_use, is_open, is_short_of};
ghost use Rattle.task_set.specs.Lists.{read_at, short_allowed, task_at, wanted_in};
ghost use Rattle.task_set.specs.Sets.{block_loaded, block_lost, ended, frames_kept, happened, locked, opened};
ghost use Rattle.task_set.specs.Sets.{own_block_kept, short_ended, short_opened, shorts_ended};
ghost use Rattle.task_set.specs.Shorts.{is_short_due, short_locked};
ghost use Rattle.task_set.specs.Tasks.{after_lost_read, after_read, is_decided, is_sender, is_task_of};
ghost use Rattle.task_set.specs.Tasks.{is_task_meant, task_after};

use crate::open_task::OpenTask;
use crate::tasks::{
    AskedFor, ComparedWith, Comparing, Meant, Phase, Short, Task, TaskEvent, Wanted, number_of,
};
use std::alloc::{AllocError, Global};
use std::marker::Model;
use ufs_bytes::{Block, Body};
use ufs_spec::{HostFault, MOST_SHORT_EXCHANGES, MOST_TASKS};

/// The open tasks of a device, each with its block of the pool, and the exchanges of one reply.
/// It takes its memory when it is made, and none later.
#[derive(Drop)]
pub struct TaskSet {
    /// The open tasks in the order of their COMMANDs: no two have one tag.
    tasks: Vec<OpenTask>,
    /// The exchanges of one reply that was not handed out yet. No number (`Short::number`) is in use twice,
    /// here or among the tasks.
    shorts: Vec<Short>,
    /// The blocks of the pool that no task has: what they hold means nothing.
    spare: Vec<Body>,
}

impl Model for TaskSet {
    ghost use Rattle.task_set.specs.Kept.{Tasks};

    ghost Value = { Tasks };

    ghost use Rattle.task_set.specs.Rooms.{tasks_of, IsRoomy};

    ghost view = { tasks_of };

    ghost invariant = { IsRoomy };
}

impl TaskSet {
    /// A set with nothing open, and the memory for all that may be.
    ///
    /// # Errors
    ///
    /// Only if memory was refused.
    pub fn new(alloc: Global) -> Result<TaskSet, AllocError>
        ensures { IfOk result (λ s. s ≡ no_tasks) }
    {
        Ok(TaskSet {
            tasks: Vec::with_capacity(alloc, MOST_TASKS)?,
            shorts: Vec::with_capacity(alloc, MOST_SHORT_EXCHANGES)?,
            spare: spare_bodies(alloc)?,
        })
    }

    /// Whether an exchange with this tag is open: one that is of task management, or one that is not, as
    /// `manages` says; or one of any kind, if there is one set of tags.
    pub fn uses(&self, one_set: bool, manages: bool, tag: u8) -> bool
        ensures { result ≡ is_in_use self.now.tasks self.now.shorts one_set manages tag }
    {
        self.is_open(number_of(manages, tag)) || (one_set && self.is_open(number_of(!manages, tag)))
    }

    /// Whether a task or a short exchange with this number is open.
    fn is_open(&self, number: u16) -> bool
        ensures { result ≡ is_open self.now.tasks self.now.shorts number }
    {
        task_at(self.tasks.as_slice(), number).is_some() || is_short(self.shorts.as_slice(), number)
    }

    /// Whether as many tasks are open as may be.
    pub fn is_full(&self) -> bool
        ensures { result ≡ nat_le most_tasks (length self.now.tasks) }
    {
        self.tasks.len() >= MOST_TASKS
    }

    /// How many tasks are open.
    pub fn count(&self) -> usize
        ensures { result ≡ length self.now.tasks }
    {
        self.tasks.len()
    }

    /// The task at this position, counted from 0 in the order of the COMMANDs.
    pub fn task(&self, index: usize) -> Task
        requires { index < length self.now.tasks }
        ensures { task_at self.now.tasks index ≡ Some result }
    {
        self.tasks[index].task()
    }

    /// The block that the task at this position keeps, the next one that it sends or compares, if it is
    /// there.
    pub fn block(&self, index: usize) -> Option<&Block>
        requires { index < length self.now.tasks }
        ensures { option_copied result ≡ read_at self.now.tasks index }
    {
        self.tasks[index].block()
    }

    /// What the task at this position keeps of frames, and the data behind them.
    pub fn held(&self, index: usize) -> Option<&Block>
        requires { index < length self.now.tasks }
        ensures { option_copied result ≡ held_at self.now.tasks index }
    {
        self.tasks[index].held()
    }

    /// The task at this position keeps these frames, with what is behind them, from now on.
    pub fn keep(&mut self, index: usize, frames: &Block)
        requires { index < length self.old.tasks }
        ensures { self.new ≡ frames_kept self.old index frames.now }
    {
        self.tasks[index].keep(frames);
    }

    /// The task at this position keeps this block, the next one that it compares, from now on.
    pub fn keep_block(&mut self, index: usize, block: &Block)
        requires { index < length self.old.tasks }
        ensures { self.new ≡ own_block_kept self.old index block.now }
    {
        self.tasks[index].keep_block(block);
    }

    /// Whether the command of an open task brings frames.
    pub fn has_sender(&self) -> bool
        ensures { result ≡ list_any is_sender self.now.tasks }
    {
        has_sender(self.tasks.as_slice())
    }

    /// The position of the first task with a request that is yet to fill its register.
    pub fn decided(&self) -> Option<usize>
        ensures first { result ≡ position is_decided self.now.tasks }
        ensures within { IfSome result (λ k. k < length self.now.tasks) }
    {
        decided_at(self.tasks.as_slice())
    }

    /// The position of the first task of those that are meant.
    pub fn find(&self, meant: Meant) -> Option<usize>
        ensures first { result ≡ position (is_task_meant meant) self.now.tasks }
        ensures within { IfSome result (λ k. k < length self.now.tasks) }
    {
        meant_at(self.tasks.as_slice(), meant)
    }

    /// One task more is open, the last one.
    pub fn open(&mut self, task: Task)
        requires { length self.old.tasks < most_tasks }
        ensures { self.new ≡ opened self.old task }
    {
        let body = self.spare.pop().unwrap();
        self.tasks.push_reserved(OpenTask::new(task, body));
    }

    /// This happened to the task at this position.
    pub fn happen(&mut self, index: usize, event: TaskEvent)
        requires { index < length self.old.tasks }
        ensures { self.new ≡ happened self.old index event }
    {
        self.tasks[index].happen(event);
    }

    /// The task at this position has ended, and the block that a die read for it is given up. Those after it
    /// move up by one position.
    pub fn end(&mut self, index: usize)
        requires { index < length self.old.tasks }
        ensures { self.new ≡ ended self.old index }
    {
        let ended = self.tasks.remove(index);
        self.spare.push_reserved(ended.into_body());
    }

    /// The task of this tag and unit that asked for so many bytes at this offset, and what it asked for.
    pub fn asked_for(&self, lun: u8, tag: u8, offset: u32, count: usize) -> Option<AskedFor>
        ensures what { result ≡ asked_among self.now.tasks lun tag offset count }
        ensures within { IfSome result (λ asked. asked.index < length self.now.tasks) }
    {
        let index = task_at(self.tasks.as_slice(), u16::from(tag))?;
        self.asked_by(lun, offset, count, index)
    }

    /// The same of the task at this position.
    fn asked_by(&self, lun: u8, offset: u32, count: usize, index: usize) -> Option<AskedFor>
        requires { index < length self.now.tasks }
        ensures what { result ≡ asked_by lun offset count index (slice_get self.now.tasks index) }
        ensures within { IfSome result (λ asked. asked.index < length self.now.tasks) }
    {
        asked_of(&self.tasks[index], lun, offset, count, index)
    }

    /// The VERIFY of this tag and unit that compares so many bytes at this offset next, and how far it is.
    pub fn compared_with(&self, lun: u8, tag: u8, offset: u32, count: usize) -> Option<ComparedWith>
        ensures what { result ≡ compared_among self.now.tasks lun tag offset count }
        ensures within { IfSome result (λ found. found.index < length self.now.tasks) }
    {
        let index = task_at(self.tasks.as_slice(), u16::from(tag))?;
        self.compared_by(lun, offset, count, index)
    }

    /// The same of the task at this position.
    fn compared_by(&self, lun: u8, offset: u32, count: usize, index: usize) -> Option<ComparedWith>
        requires { index < length self.now.tasks }
        ensures what { result ≡ compared_by lun offset count index (slice_get self.now.tasks index) }
        ensures within { IfSome result (λ found. found.index < length self.now.tasks) }
    {
        compared_of(&self.tasks[index], lun, offset, count, index)
    }

    /// Whether one more short exchange of this tag may be open, one of task management or not.
    ///
    /// # Errors
    ///
    /// `TagInUse` if the tag is in use, else `Backlog` if as many short exchanges are open as may be.
    pub fn may_open_short(&self, one_set: bool, manages: bool, tag: u8) -> Result<(), HostFault>
        ensures answer { result ≡ short_allowed self.now.tasks self.now.shorts one_set manages tag }
        ensures room { IfOk result (λ _. length self.now.shorts < most_short_exchanges) }
    {
        if self.uses(one_set, manages, tag) {
            return Err(HostFault::TagInUse);
        }
        if self.shorts.len() >= MOST_SHORT_EXCHANGES {
            return Err(HostFault::Backlog);
        }
        Ok(())
    }

    /// This short exchange is open from now on, the last one.
    pub fn open_short(&mut self, short: Short)
        requires { length self.old.shorts < most_short_exchanges }
        ensures { self.new ≡ short_opened self.old short }
    {
        self.shorts.push_reserved(short);
    }

    /// The position of the first short exchange whose reply is due, where each group up to this number is
    /// durable.
    pub fn due_short(&self, frontier: u64) -> Option<usize>
        ensures first { result ≡ position (is_short_due frontier) self.now.shorts }
        ensures within { IfSome result (λ k. k < length self.now.shorts) }
    {
        due_at(self.shorts.as_slice(), frontier)
    }

    /// Takes out the short exchange at this position, whose reply is handed out now. Those after it move up
    /// by one position.
    pub fn take_short(&mut self, index: usize) -> Short
        requires { index < length self.old.shorts }
        ensures there { slice_get self.old.shorts index ≡ Some result }
        ensures after { self.new ≡ short_ended self.old index }
    {
        self.shorts.remove(index)
    }

    /// No short exchange is open any more.
    pub fn end_shorts(&mut self)
        ensures { self.new ≡ shorts_ended self.old }
    {
        self.shorts.clear();
    }

    /// A die read this block for the task of this tag: the next one that it sends or compares, or the page of
    /// the area of this index.
    pub fn load(&mut self, tag: u8, index: u16, block: &Block)
        ensures { self.new ≡ block_loaded self.old tag index block.now }
    {
        load_for(self.tasks.as_mut_slice(), tag, index, block);
    }

    /// The block of this index of the task of this tag could not be read: a READ fails, and a request is
    /// answered with a read failure.
    pub fn lose(&mut self, tag: u8, index: u16)
        ensures { self.new ≡ block_lost self.old tag index }
    {
        end_read(self.tasks.as_mut_slice(), tag, index);
    }

    /// The device is locked from now on, and each group up to this number is durable: what waits for a
    /// later one fails.
    pub fn lock(&mut self, frontier: u64)
        ensures { self.new ≡ locked self.old frontier }
    {
        end_waiting(self.tasks.as_mut_slice(), frontier);
        lock_shorts(self.shorts.as_mut_slice(), frontier);
    }
}

/// The blocks of the pool, which later are moved by their pointers.
fn spare_bodies(alloc: Global) -> Result<Vec<Body>, AllocError>
    ensures count { IfOk result (λ bodies. length bodies.items ≡ most_tasks) }
    ensures room { IfOk result (λ bodies. most_tasks ≤ vec_capacity bodies) }
{
    let mut bodies = Vec::with_capacity(alloc, MOST_TASKS)?;
    for _ in 0..MOST_TASKS {
        bodies.push_reserved(Body::new(alloc)?);
    }
    Ok(bodies)
}

/// The position of the task of this number.
fn task_at(tasks: &[OpenTask], number: u16) -> Option<usize>
    ensures first { result ≡ position (is_task_of number) tasks.now }
    ensures within { IfSome result (λ k. k < length tasks.now) }
{
    tasks.iter().position(|task| task.is_of(number))
}

/// Whether a short exchange of this number is open.
fn is_short(shorts: &[Short], number: u16) -> bool
    ensures { result ≡ list_any (is_short_of number) shorts.now }
{
    shorts.iter().any(|short| is_short_of(short, number))
}

fn is_short_of(short: &Short, number: u16) -> bool
    ensures { result ≡ is_short_of number short.now }
{
    short.number() == number
}

/// The task at this position, if so many bytes at this offset are what it asked for and none came.
fn asked_of(kept: &OpenTask, lun: u8, offset: u32, count: usize, index: usize) -> Option<AskedFor>
    ensures { result ≡ asked_in lun offset count index kept.now }
{
    let wanted = wanted_in(kept)?;
    if kept.task().lun == lun && wanted.is(offset, count) {
        Some(AskedFor { index, wanted })
    } else {
        None
    }
}

/// What the task was told to be asked for, while none of it came.
fn wanted_in(kept: &OpenTask) -> Option<Wanted>
    ensures { result ≡ wanted_in kept.now.phase }
{
    match kept.task().phase {
        Phase::Await { wanted } => Some(wanted),
        _ => None,
    }
}

/// The task at this position, if so many bytes at this offset are the block that it compares next.
fn compared_of(
    kept: &OpenTask,
    lun: u8,
    offset: u32,
    count: usize,
    index: usize,
) -> Option<ComparedWith>
    ensures { result ≡ compares_in lun offset count index kept.now }
{
    let comparing = compared_in(kept)?;
    if kept.task().lun == lun && comparing.is(offset, count) {
        Some(ComparedWith { index, comparing })
    } else {
        None
    }
}

/// How far the task is, if it awaits a block with which it compares its own.
fn compared_in(kept: &OpenTask) -> Option<Comparing>
    ensures { result ≡ compared_in kept.now.phase }
{
    match kept.task().phase {
        Phase::AwaitBlock { comparing } => Some(comparing),
        _ => None,
    }
}

/// Whether one of the tasks brings frames.
fn has_sender(tasks: &[OpenTask]) -> bool
    ensures { result ≡ list_any is_sender tasks.now }
{
    tasks.iter().any(|task| task.is_sender())
}

/// The position of the first task with a request that is yet to fill its register.
fn decided_at(tasks: &[OpenTask]) -> Option<usize>
    ensures first { result ≡ position is_decided tasks.now }
    ensures within { IfSome result (λ k. k < length tasks.now) }
{
    tasks.iter().position(|task| task.is_decided())
}

/// The position of the first task of those that are meant.
fn meant_at(tasks: &[OpenTask], meant: Meant) -> Option<usize>
    ensures first { result ≡ position (is_task_meant meant) tasks.now }
    ensures within { IfSome result (λ k. k < length tasks.now) }
{
    tasks.iter().position(|task| task.is_meant(meant))
}

/// The position of the first short exchange whose reply is due.
fn due_at(shorts: &[Short], frontier: u64) -> Option<usize>
    ensures first { result ≡ position (is_short_due frontier) shorts.now }
    ensures within { IfSome result (λ k. k < length shorts.now) }
{
    shorts.iter().position(|short| short.is_due(frontier))
}

/// A die read this block for the task of this tag.
fn load_for(tasks: &mut [OpenTask], tag: u8, index: u16, block: &Block)
    ensures { tasks.new ≡ map (after_read tag index block.now) tasks.old }
{
    for task in tasks.iter_mut() {
        task.load_for(tag, index, block);
    }
}

/// The block of this index could not be read for the task of this tag.
fn end_read(tasks: &mut [OpenTask], tag: u8, index: u16)
    ensures { tasks.new ≡ map (after_lost_read tag index) tasks.old }
{
    for task in tasks.iter_mut() {
        task.lose_for(tag, index);
    }
}

/// The tasks after the lock began: none waits for the frontier any more.
fn end_waiting(tasks: &mut [OpenTask], frontier: u64)
    ensures { tasks.new ≡ map (task_after (TaskEvent.Locked frontier)) tasks.old }
{
    for task in tasks.iter_mut() {
        task.happen(TaskEvent::Locked { frontier });
    }
}

/// The short exchanges after the lock began: none waits for the frontier any more.
fn lock_shorts(shorts: &mut [Short], frontier: u64)
    ensures { shorts.new ≡ map (short_locked frontier) shorts.old }
{
    for short in shorts.iter_mut() {
        *short = short.locked(frontier);
    }
}
