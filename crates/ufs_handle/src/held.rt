//! A device with its dies and their jobs in flight.
ghost use Rattle.std.specs.Prelude.{◌≡◌, ◌<◌, ◌≤◌, IfErr, IfOk, IfSome, IfNone, None, OnErr, OnOk, false, length, replicate};
ghost use Rattle.std.specs.Prelude.{[], Some, slice_index_or, slice_set, true};
ghost use Rattle.ufs_spec.specs.Dies.{CanDo, new_die, power_cycle_ended};
ghost use Rattle.ufs_spec.specs.Lives.{Fit};
ghost use Rattle.ufs_handle.specs.Calls.{Ends, Fails, Hears, IsUnopened, OpensOver, Stopped, Turns};
ghost use Rattle.ufs_handle.specs.Calls.{Works, dies_stopped, left_off};
ghost use Rattle.ufs_handle.specs.Exports.{HandsJob, HandsReply, IsHandedOut, most_reply};
ghost use Rattle.ufs_handle.specs.Kept.{die_at, job_at};
ghost use Rattle.ufs_handle.specs.Left.{failed_by, failed_outcome, left_by};
ghost use Rattle.ufs_handle.specs.Numbers.{open_fault_of};
ghost use Rattle.ufs_handle.specs.Steps.{Settles, Walks, dies_named, round_steps};

use crate::fault::Fault;
use crate::left::{Left, fail, stop};
use crate::plain::PlainJob;
use device::Device;
use geometry::Config;
use nand_model::{MemDie, work};
use recovery::fit;
use std::alloc::{AllocError, Global};
use std::marker::Model;
use ufs_spec::{HostFault, Job, NoMemory, OpenFault, Outcome, Upiu};

/// A device with its dies in memory, or with dies of the program's own.
#[derive(Drop)]
pub struct Held {
    /// Where the memory of the device after a stop comes from.
    alloc: Global,
    /// The configuration that the device is opened with again after a stop.
    config: Config,
    /// The device, in one place.
    device: Box<Device>,
    /// The dies in memory, as many and as large as the configuration says; none where the program
    /// has dies of its own. A job in flight has done nothing yet.
    dies: Vec<MemDie>,
    /// For each die the job that it was given and has not ended.
    jobs: Vec<Option<Job>>,
    /// The power went, and memory was refused to open the device again: it says nothing of the dies,
    /// which have no job in flight.
    is_off: bool,
    /// Where the device writes a reply, before it goes into a room of the program's: the bytes that it
    /// has between two calls say nothing.
    reply: Upiu,
}

impl Model for Held {
    ghost use Rattle.ufs_handle.specs.Kept.{HeldState, held_of};

    ghost Value = { HeldState };

    ghost view = { held_of };
}

/// New dies of these sizes.
///
/// # Errors
///
/// `NoMemory` where memory was refused.
pub fn new_dies(alloc: Global, dies: u8, blocks: u16, pages: u16) -> Result<Vec<MemDie>, NoMemory>
    ensures { IfOk result (λ all. all.items ≡ replicate dies (new_die blocks pages)) }
{
    let mut all = Vec::with_capacity(alloc, dies as usize)?;
    for _ in 0..dies {
        all.push(MemDie::new(alloc, blocks, pages)?)
            .map_err(|_| NoMemory)?;
    }
    Ok(all)
}

/// No job in flight on any die.
fn idle(alloc: Global, dies: usize) -> Result<Vec<Option<Job>>, AllocError>
    ensures { IfOk result (λ v. v.items ≡ replicate dies None) }
{
    let mut all = Vec::with_capacity(alloc, dies)?;
    for _ in 0..dies {
        all.push(None)?;
    }
    Ok(all)
}

impl Held {
    /// Opens a device over these dies.
    ///
    /// # Errors
    ///
    /// `OtherConfig` where the dies are not as many and as large as the configuration says, or hold
    /// another configuration; `NoMemory` where memory was refused. The dies are given up.
    pub fn open(alloc: Global, config: Config, dies: Vec<MemDie>) -> Result<Box<Held>, Fault>
        ensures kept { IfOk result (λ held. (held.value.config ≡ config) × (held.value.dies ≡ dies.items)) }
        ensures idle { IfOk result (λ held. held.value.jobs ≡ replicate (length dies.items) None) }
        ensures on { IfOk result (λ held. held.value.is_off ≡ false) }
        ensures opened { IfOk result (λ held. OpensOver config dies.items held.value.core) }
        ensures refused { IfErr result (IsUnopened config dies.items) }
    {
        let mut dies = dies;
        if !fit(&config, dies.as_slice()) {
            return Err(Fault::OtherConfig);
        }
        let device = open_device(alloc, config.copied(), dies.as_mut_slice())?;
        let Ok(device) = Box::new(alloc, device) else {
            return Err(Fault::NoMemory);
        };
        let Ok(jobs) = idle(alloc, dies.len()) else {
            return Err(Fault::NoMemory);
        };
        let held = Held {
            alloc,
            config,
            device,
            dies,
            jobs,
            is_off: false,
            reply: Upiu::new(),
        };
        match Box::new(alloc, held) {
            Ok(held) => Ok(held),
            Err(_) => Err(Fault::NoMemory),
        }
    }

    /// The configuration.
    pub fn config(&self) -> &Config
        ensures { result.now ≡ self.now.config }
    {
        &self.config
    }

    /// The dies in memory, as the calls so far leave them: a job in flight has done nothing yet.
    /// There are none where the program has dies of its own.
    pub fn dies(&self) -> &[MemDie]
        ensures { result.now ≡ self.now.dies }
    {
        self.dies.as_slice()
    }

    /// Whether the power is off: it went, and memory was refused to open the device again.
    pub fn is_off(&self) -> bool
        ensures { result ≡ self.now.is_off }
    {
        self.is_off
    }

    /// From now on the dies are the program's own: those in memory are given up.
    pub fn give_up_dies(&mut self)
        ensures { self.new ≡ record self.old { dies = [] } }
    {
        self.dies = Vec::new(self.alloc);
    }

    /// Hands the device a message.
    ///
    /// # Errors
    ///
    /// Those of `Device::host`: the lowest fault that applies. Nothing changes then.
    pub fn host(&mut self, message: &[u8]) -> Result<(), HostFault>
        ensures { Hears message.now self.old result self.new }
    {
        self.device.host(message)
    }

    /// Takes a reply into the front of the room, where one is due, and tells how many bytes it has;
    /// false, and nothing changes, where none is.
    pub fn reply(&mut self, into: &mut [u8], count: &mut usize) -> bool
        requires { most_reply ≤ length into.old }
        ensures { HandsReply into.old into.new count.old count.new self.old result self.new }
    {
        self.reply.clear();
        if !self.device.reply(&mut self.reply) {
            return false;
        }
        hand_out(self.reply.as_slice(), into, count);
        true
    }

    /// Takes a step of mending or of collection; false, and nothing changes, where none is due.
    pub fn turn(&mut self) -> bool
        ensures { Turns self.old result self.new }
    {
        self.device.turn()
    }

    /// A job for the die, which is then in flight, also as numbers and bytes; false, and these stay,
    /// where the die is owed none, has one in flight or is none of the device.
    pub fn take(&mut self, die: u8, shown: &mut PlainJob) -> bool
        ensures { HandsJob die shown.old shown.new self.old result self.new }
    {
        match &self.device.take(die) {
            Some(job) => {
                shown.set(job);
                self.note(die, job);
                true
            }
            None => false,
        }
    }

    /// The die has this job in flight.
    fn note(&mut self, die: u8, job: &Job)
        ensures { self.new ≡ record self.old { jobs = slice_set self.old.jobs die (Some job.now) } }
    {
        let index = die as usize;
        if index < self.jobs.len() {
            self.jobs[index] = Some(*job);
        }
    }

    /// Ends the job in flight of a die of the program's own. False, and nothing changes, where the
    /// dies are in memory, the die has no job in flight, or the outcome is not of its kind.
    pub fn done(&mut self, die: u8, outcome: &Outcome) -> bool
        ensures { Ends die outcome.now self.old result self.new }
    {
        if !self.dies.is_empty() || !self.device.done(die, outcome) {
            return false;
        }
        self.forget(die);
        true
    }

    /// The die has no job in flight any more.
    fn forget(&mut self, die: u8)
        ensures { self.new ≡ record self.old { jobs = slice_set self.old.jobs die None } }
    {
        let index = die as usize;
        if index < self.jobs.len() {
            self.jobs[index] = None;
        }
    }

    /// The job that the die has in flight.
    fn job(&self, index: usize) -> Option<Job>
        ensures { result ≡ job_at self.now.jobs index }
    {
        if index >= self.jobs.len() {
            return None;
        }
        self.jobs[index]
    }

    /// The die in memory does its job in flight, and the device is told. False, and nothing
    /// changes, where the die is none in memory, has no job in flight, or cannot do it.
    pub fn work(&mut self, die: u8) -> bool
        ensures { Works die self.old result self.new }
    {
        let index = die as usize;
        if index >= self.jobs.len() || index >= self.dies.len() {
            return false;
        }
        match &self.jobs[index] {
            Some(job) if self.dies[index].can_do(job) => {
                self.device.done(die, &work(&mut self.dies[index], job));
                self.forget(die);
                true
            }
            _ => false,
        }
    }

    /// The job in flight of the die in memory fails, and leaves this; the block of a program or an
    /// erase is bad from then on, and a read leaves nothing. The device is told. False, and nothing
    /// changes, where the die is none in memory, has no job in flight, or cannot do it.
    pub fn fail(&mut self, die: u8, left: Left) -> bool
        ensures { Fails die left self.old result self.new }
    {
        let Some(job) = self.job(die as usize) else {
            return false;
        };
        let Some(ending) = self.fail_on(die, &job, left) else {
            return false;
        };
        self.forget(die);
        self.device.done(die, &ending);
        true
    }

    /// The job fails on the die, and leaves this; `None`, and nothing changes, where it may not be asked
    /// of it.
    fn fail_on(&mut self, die: u8, job: &Job, left: Left) -> Option<Outcome>
        ensures nothing { IfNone result (self.new ≡ self.old) }
        ensures cannot { IfNone result (CanDo (die_at self.old.dies die) job.now → ⊥) }
        ensures can { IfSome result (λ o. CanDo (die_at self.old.dies die) job.now) }
        ensures outcome { IfSome result (λ o. o ≡ failed_outcome job.now) }
        ensures after { IfSome result (λ o. self.new ≡ record self.old {
          dies = slice_set self.old.dies die
              (failed_by self.old.config.pages left job.now (die_at self.old.dies die));
        }) }
    {
        let index = die as usize;
        if index >= self.dies.len() || !self.dies[index].can_do(job) {
            return None;
        }
        let pages = self.config.numbers().pages;
        Some(fail(&mut self.dies[index], job, left, pages))
    }

    /// Rounds of a turn and of one job of each die in memory: it is taken, where the die has none in
    /// flight, and done.
    pub fn settle(&mut self, rounds: u16)
        ensures { Settles rounds self.old tt self.new }
    {
        let dies = self.dies_named();
        for _ in 0..rounds {
            self.settle_once(dies);
        }
    }

    /// How many dies in memory a byte can name.
    fn dies_named(&self) -> u16
        ensures { result ≡ dies_named self.now }
    {
        self.dies.len().min(256) as u16
    }

    /// One such round, of so many dies.
    fn settle_once(&mut self, dies: u16)
        requires { dies ≤ 256 }
        ensures { Walks (round_steps dies) self.old self.new }
    {
        let mut shown = PlainJob::blank();
        self.turn();
        for index in 0..dies {
            let die = index as u8;
            self.take(die, &mut shown);
            self.work(die);
        }
    }

    /// The power goes away: the job in flight of each die in memory leaves what is said of it, each
    /// other page is as it was, and the device is opened again over the dies.
    ///
    /// # Errors
    ///
    /// `NoMemory` where memory was refused, and `OtherConfig` where the dies hold another
    /// configuration, which no device writes. The power stays off then, and the dies are kept.
    pub fn stop(&mut self, lefts: &[Left]) -> Result<(), Fault>
        ensures stopped { OnOk result (Stopped lefts.now self.old self.new) }
        ensures refused { IfErr result (IsUnopened self.old.config (dies_stopped lefts.now self.old)) }
        ensures off { OnErr result (self.new ≡ left_off lefts.now self.old) }
    {
        self.leave_all(lefts);
        self.jobs.fill(None);
        self.is_off = true;
        self.reopen()
    }

    /// The dies hold what their jobs in flight leave, and the power cycle is over.
    fn leave_all(&mut self, lefts: &[Left])
        ensures { self.new ≡ record self.old { dies = dies_stopped lefts.now self.old } }
    {
        for index in 0..self.dies.len() {
            let left = left_at(lefts, index);
            self.leave_on(index, left);
        }
    }

    /// The die holds what its job in flight leaves, and its power cycle is over.
    fn leave_on(&mut self, index: usize, left: Left)
        requires { index < length self.old.dies }
        ensures { self.new ≡ record self.old {
          dies = slice_set self.old.dies index
              (power_cycle_ended (left_by self.old.config.pages left (job_at self.old.jobs index) (die_at self.old.dies index)));
        } }
    {
        let pages = self.config.numbers().pages;
        let job = self.job(index);
        stop(&mut self.dies[index], &job, left, pages);
    }

    /// The device is opened again over the dies, and the power is on.
    fn reopen(&mut self) -> Result<(), Fault>
        ensures same { OnOk result (self.new ≡ record self.old { core = self.new.core; is_off = false }) }
        ensures opened { OnOk result (OpensOver self.old.config self.old.dies self.new.core) }
        ensures refused { IfErr result (IsUnopened self.old.config self.old.dies) }
        ensures nothing { OnErr result (self.new ≡ self.old) }
    {
        if !fit(&self.config, self.dies.as_slice()) {
            return Err(Fault::OtherConfig);
        }
        *self.device = open_device(self.alloc, self.config.copied(), self.dies.as_mut_slice())?;
        self.is_off = false;
        Ok(())
    }
}

/// Writes a reply into the front of the room, and how many bytes it has.
fn hand_out(reply: &[u8], into: &mut [u8], count: &mut usize)
    requires { length reply.now ≤ length into.old }
    ensures { IsHandedOut (Some true) reply.now into.old into.new count.old count.new }
{
    into[..reply.len()].copy_from_slice(reply);
    *count = reply.len();
}

/// What is said of the die of this number; where nothing is, it keeps what it held.
fn left_at(lefts: &[Left], index: usize) -> Left
    ensures { result ≡ slice_index_or lefts.now index Left.Old }
{
    if index < lefts.len() {
        lefts[index]
    } else {
        Left::Old
    }
}

/// Opens a device over dies that fit the configuration, which stay as they are.
fn open_device(alloc: Global, config: Config, dies: &mut [MemDie]) -> Result<Device, Fault>
    requires fit { Fit config dies.old }
    ensures same { dies.new ≡ dies.old }
    ensures opened { IfOk result (OpensOver config dies.old) }
    ensures refused { IfErr result (IsUnopened config dies.old) }
{
    match Device::open(alloc, config, dies) {
        Ok(device) => Ok(device),
        Err(fault) => Err(fault_of(&fault)),
    }
}

/// Why a device was not opened, as a fault of a call. No read of a die in memory fails.
fn fault_of(fault: &OpenFault) -> Fault
    ensures { result ≡ open_fault_of fault.now }
{
    match fault {
        OpenFault::NoMemory => Fault::NoMemory,
        OpenFault::OtherConfig => Fault::OtherConfig,
        OpenFault::ReadFault(_) => Fault::OtherConfig,
    }
}
