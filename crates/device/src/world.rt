//! A device with its dies, and runs of events over one.
ghost use Rattle.std.specs.Prelude.{◌≡◌, ◌≢◌, ◌<◌, ◌≤◌, ◌+◌, ◌-◌, ◌^◌, ◌++◌, ◌∷◌, [], false, true, length, map, replicate};
ghost use Rattle.std.specs.Prelude.{All, AllPairs, Err, IfErr, IfNone, IfOk, IfSome, IsErr, None, Ok, OnErr, OnOk};
ghost use Rattle.std.specs.Prelude.{Some, option_copied, slice_set};
ghost use Rattle.ufs_spec.specs.Dies.{CanDo, after_job, outcome_of, power_cycle_ended};
ghost use Rattle.ufs_spec.specs.Lives.{Fit, IsOpened, array_of, bad_of, die_of};
ghost use Rattle.ufs_spec.specs.Refusals.{State};
ghost use Rattle.ufs_spec.specs.Sound.{Sound, Suits};
ghost use Rattle.device.specs.Describes.{Describes};
ghost use Rattle.device.specs.Kept.{DeviceCore};
ghost use Rattle.device.specs.Leftovers.{IsInside, IsLeftRefused, IsOfDie, MayDieLeave};
ghost use Rattle.device.specs.Opened.{HasScanned};
ghost use Rattle.device.specs.Worlds.{Fits, IsOpeningFault, IsReopened, IsRunFault, KeepsThePromise, Played, Stepped, Went};
ghost use Rattle.device.specs.Worlds.{die_at, dies_failed, dies_left, dies_left_by, dies_refused, job_at, jobs_given};

use crate::device::Device;
use crate::leftovers::{
    are_apart, die_of, end_power_cycles, fail_on, is_of_job, is_read, leave_on, may_job_leave,
};
use geometry::Config;
use nand_model::{MemDie, work};
use recovery::fit;
use std::alloc::{AllocError, Global};
use std::marker::Model;
use ufs_spec::{
    Event, HostFault, Job, Leftover, OpenFault, Outcome, Output, RunFault, RunFaultKind, Trace,
    Upiu,
};

/// A device with its dies, and the job that each die has in flight.
#[derive(Drop)]
pub struct World {
    /// Where the memory of a fault's trace, and of the device after a stop, comes from.
    alloc: Global,
    /// The configuration that the device is opened with again after a stop.
    config: Config,
    /// The device, in one place: whoever gives a world up lets go of a pointer, and not of each part.
    device: Box<Device>,
    /// The dies, of the number and sizes of the configuration. A job in flight has done nothing
    /// yet.
    dies: Vec<MemDie>,
    /// For each die the job that it was given and has not done: as many as dies.
    jobs: Vec<Option<Job>>,
    /// How many steps were made: the position of a fault.
    steps: usize,
    /// Whether a step was refused, so that each later one is refused too.
    is_over: bool,
}

impl Model for World {
    ghost use Rattle.device.specs.Kept.{WorldState};
    ghost use Rattle.device.specs.Rooms.{IsEven, world_of};

    ghost Value = { WorldState };

    ghost view = { world_of };

    ghost invariant = { IsEven };
}

/// Opens a device over dies that fit the configuration, which stay as they are.
fn open_device(alloc: Global, config: Config, dies: &mut [MemDie]) -> Result<Device, RunFaultKind>
    requires fit { Fit config dies.old }
    ensures same { dies.new ≡ dies.old }
    ensures described { IfOk result (λ d. (s : State) → Sound (array_of dies.old) →
        IsOpened config (array_of dies.old) (bad_of dies.old) s → Describes d s) }
    ensures found { IfOk result (HasScanned config dies.old) }
    ensures suits { IfOk result (λ d. Suits config (array_of dies.old)) }
    ensures refused { IfErr result (λ k. IsOpeningFault config dies.old k) }
{
    match Device::open(alloc, config, dies) {
        Ok(device) => Ok(device),
        Err(fault) => Err(kind_of(&fault)),
    }
}

/// What a refused opening is to a run: the dies do not fit, or memory was refused.
fn kind_of(fault: &OpenFault) -> RunFaultKind
    ensures memory { fault.now ≡ OpenFault.NoMemory → result ≡ RunFaultKind.NoMemory }
    ensures other { fault.now ≢ OpenFault.NoMemory → result ≡ RunFaultKind.WrongEvent }
{
    match fault {
        OpenFault::NoMemory => RunFaultKind::NoMemory,
        OpenFault::OtherConfig => RunFaultKind::WrongEvent,
        OpenFault::ReadFault(_) => RunFaultKind::WrongEvent,
    }
}

/// No job in flight on any die.
fn idle(alloc: Global, dies: usize) -> Result<Vec<Option<Job>>, AllocError>
    ensures { IfOk result (λ v. v.items ≡ replicate dies None) }
{
    let mut all = Vec::with_capacity(alloc, dies)?;
    for _ in 0..dies {
        all.push(None)?;
    }
    Ok(all)
}

/// The fault, with an empty trace.
fn fault(alloc: Global, kind: RunFaultKind, position: usize) -> RunFault
    ensures kind { result.kind ≡ kind }
    ensures position { result.position ≡ position }
    ensures trace { result.trace.items ≡ [] }
{
    RunFault {
        kind,
        position,
        trace: Vec::new(alloc),
    }
}

impl World {
    /// Opens a device over these dies.
    ///
    /// # Errors
    ///
    /// At position 0: `WrongEvent` where the dies do not fit the configuration or hold another one,
    /// `NoMemory` where memory was refused. The dies are given up.
    pub fn new(alloc: Global, config: Config, dies: Vec<MemDie>) -> Result<World, RunFault>
        ensures dies { IfOk result (λ w. (w.dies ≡ dies.items) × (w.config ≡ config)) }
        ensures idle { IfOk result (λ w.
            (w.jobs ≡ replicate (length dies.items) None) × (w.steps ≡ 0) × (w.is_over ≡ false)) }
        ensures suits { IfOk result (λ w. Fit config dies.items × Suits config (array_of dies.items)) }
        // Over any dies, sound or not, its device has what a scan of them finds.
        ensures found { IfOk result (λ w. HasScanned config dies.items w.core) }
        // Over dies whose pages are sound the world fits the state that the definitions open over
        // them.
        ensures fits { IfOk result (λ w. Sound (array_of dies.items) → (s : State) →
            IsOpened config (array_of dies.items) (bad_of dies.items) s → Fits w s) }
        ensures position { IfErr result (λ f. (f.position ≡ 0) × (f.trace.items ≡ [])) }
        ensures never_bad { IfErr result (λ f. f.kind ≢ RunFaultKind.BadLeftover) }
        ensures refused { IfErr result (λ f. IsOpeningFault config dies.items f.kind) }
    {
        let mut dies = dies;
        if !fit(&config, dies.as_slice()) {
            return Err(fault(alloc, RunFaultKind::WrongEvent, 0));
        }
        let device = match open_device(alloc, config.copied(), dies.as_mut_slice()) {
            Ok(device) => device,
            Err(kind) => return Err(fault(alloc, kind, 0)),
        };
        let Ok(device) = Box::new(alloc, device) else {
            return Err(fault(alloc, RunFaultKind::NoMemory, 0));
        };
        let Ok(jobs) = idle(alloc, dies.len()) else {
            return Err(fault(alloc, RunFaultKind::NoMemory, 0));
        };
        Ok(World {
            alloc,
            config,
            device,
            dies,
            jobs,
            steps: 0,
            is_over: false,
        })
    }

    /// The dies, as the events so far leave them: a job in flight has done nothing yet.
    pub fn dies(&self) -> &[MemDie]
        ensures { result.now ≡ self.now.dies }
    {
        self.dies.as_slice()
    }

    /// The job that the die has in flight; `None` where it has none, or is none of the dies.
    pub fn job(&self, die: u8) -> Option<&Job>
        ensures { option_copied result ≡ job_at self.now.jobs die }
    {
        match self.jobs.get(die as usize) {
            Some(Some(job)) => Some(job),
            _ => None,
        }
    }

    /// Gives the dies up, as the events so far leave them.
    pub fn into_dies(self) -> Vec<MemDie>
        ensures { result.items ≡ self.dies }
    {
        let World {
            alloc: _,
            config: _,
            device: _,
            dies,
            jobs: _,
            steps: _,
            is_over: _,
        } = self;
        dies
    }

    /// One event. A stop may come at any moment; the device is then opened again over what it
    /// leaves.
    ///
    /// # Errors
    ///
    /// `WrongEvent` where a die has no job to finish or to fail, or a leftover is not just what the
    /// job of its die touches; `BadLeftover` where that job may not leave it; and `NoMemory` where
    /// there was none to open the device again, and the dies then hold what the stop left. At each
    /// other fault they stay as they were. The position counts the steps from 1, and the trace is
    /// empty. Each later step answers `WrongEvent`.
    pub fn step(&mut self, event: &Event) -> Result<Output, RunFault>
        ensures over { OnErr result (self.new.is_over ≡ true) }
        ensures still_over { self.old.is_over ≡ true →
            IfErr result (λ f. (f.kind ≡ RunFaultKind.WrongEvent) × (self.new.dies ≡ self.old.dies)) × IsErr result }
        ensures going_on { OnOk result (self.new.is_over ≡ false) }
        ensures fault { IfErr result (λ f. (f.position ≡ self.new.steps) × (f.trace.items ≡ [])) }
        ensures counted { self.old.steps + 1 < 2 ^ 64 → self.new.steps ≡ self.old.steps + 1 }
        ensures left { OnErr result (IsLeftRefused self.old.dies event.now self.new.dies) }
        // Over any dies, sound or not, the device has behind a stop what a scan of them finds.
        ensures reopened { OnOk result (IsReopened event.now self.new) }
        // Over a world that fits a state each event shows what is right there, in the life or over
        // a stop, and the world fits the state that it leads to; and an event is refused only for
        // what is told.
        ensures stepped { (s : State) → Fits self.old s → self.old.is_over ≡ false →
            Stepped s event.now self.new result }
        ensures dies { (s : State) → Fits self.old s → self.old.is_over ≡ false →
            IfErr result (λ f. self.new.dies ≡ dies_refused f.kind self.old.dies event.now) }
    {
        self.steps = self.steps.saturating_add(1);
        if self.is_over {
            return Err(fault(self.alloc, RunFaultKind::WrongEvent, self.steps));
        }
        match self.perform(event) {
            Ok(output) => Ok(output),
            Err(kind) => {
                self.is_over = true;
                Err(fault(self.alloc, kind, self.steps))
            }
        }
    }

    /// One event, and what it showed behind the trace.
    fn play(&mut self, event: &Event, trace: &mut Trace) -> Result<(), RunFaultKind>
        ensures going_on { OnOk result (self.new.is_over ≡ false) }
        ensures counted { self.old.steps + 1 < 2 ^ 64 → self.new.steps ≡ self.old.steps + 1 }
        ensures one_more { OnOk result (length trace.new.items ≡ length trace.old.items + 1) }
        ensures none_more { IfErr result (λ k. trace.new.items ≡ trace.old.items) }
        ensures played { (s : State) → Fits self.old s → self.old.is_over ≡ false →
            Played s event.now self.new trace.old.items trace.new.items result }
    {
        match self.step(event) {
            Ok(output) => note(trace, output),
            Err(fault) => Err(fault.kind),
        }
    }

    /// What the event shows, or why it is refused.
    fn perform(&mut self, event: &Event) -> Result<Output, RunFaultKind>
        ensures steps { self.new.steps ≡ self.old.steps }
        ensures is_over { self.new.is_over ≡ self.old.is_over }
        ensures left { OnErr result (IsLeftRefused self.old.dies event.now self.new.dies) }
        ensures reopened { OnOk result (IsReopened event.now self.new) }
        ensures went { (s : State) → Fits self.old s → Went s event.now self.new result }
        ensures dies { (s : State) → Fits self.old s →
            IfErr result (λ k. self.new.dies ≡ dies_refused k self.old.dies event.now) }
    {
        match event {
            Event::Host(bytes) => Ok(Output::Host(self.hear(bytes))),
            Event::Reply => Ok(Output::Reply(self.reply())),
            Event::Take(die) => Ok(Output::Take(self.take(*die))),
            Event::Finish(die) => self.finish(*die),
            Event::Fail(die, left) => self.fail(*die, left),
            Event::Turn => Ok(Output::Turn(self.turn())),
            Event::Stop(lefts) => self.stop(lefts),
        }
    }

    /// The device hears a message.
    fn hear(&mut self, bytes: &Vec<u8>) -> Result<(), HostFault>
        ensures dies { self.new.dies ≡ self.old.dies }
        ensures steps { self.new.steps ≡ self.old.steps }
        ensures is_over { self.new.is_over ≡ self.old.is_over }
        ensures went { (s : State) → Fits self.old s →
            Went s (Event.Host bytes.now) self.new (Ok (Output.Host result)) }
    {
        self.device.host(bytes.as_slice())
    }

    /// The device does a step of mending or of collection, if one is due.
    fn turn(&mut self) -> bool
        ensures dies { self.new.dies ≡ self.old.dies }
        ensures steps { self.new.steps ≡ self.old.steps }
        ensures is_over { self.new.is_over ≡ self.old.is_over }
        ensures went { (s : State) → Fits self.old s → Went s Event.Turn self.new (Ok (Output.Turn result)) }
    {
        self.device.turn()
    }

    /// A reply that is due, if one is.
    fn reply(&mut self) -> Option<Upiu>
        ensures dies { self.new.dies ≡ self.old.dies }
        ensures steps { self.new.steps ≡ self.old.steps }
        ensures is_over { self.new.is_over ≡ self.old.is_over }
        ensures went { (s : State) → Fits self.old s → Went s Event.Reply self.new (Ok (Output.Reply result)) }
    {
        let mut message = Upiu::new();
        if !self.device.reply(&mut message) {
            return None;
        }
        Some(message)
    }

    /// The job that the die is given, if it is given one.
    fn take(&mut self, die: u8) -> Option<Job>
        ensures dies { self.new.dies ≡ self.old.dies }
        ensures steps { self.new.steps ≡ self.old.steps }
        ensures is_over { self.new.is_over ≡ self.old.is_over }
        ensures went { (s : State) → Fits self.old s → Went s (Event.Take die) self.new (Ok (Output.Take result)) }
    {
        let job = self.device.take(die);
        self.note_job(die, job);
        job
    }

    /// The die has this job in flight, if it was given one. A die that is given a job is one of
    /// ours: the layer would have to say how many dies it has, if the test of the index were to go.
    fn note_job(&mut self, die: u8, job: Option<Job>)
        ensures { self.new ≡ record self.old { jobs = jobs_given self.old.jobs die job } }
    {
        let index = die as usize;
        if index < self.jobs.len() && job.is_some() {
            self.jobs[index] = job;
        }
    }

    /// The die does its job in flight, and the device is told.
    fn finish(&mut self, die: u8) -> Result<Output, RunFaultKind>
        ensures steps { self.new.steps ≡ self.old.steps }
        ensures is_over { self.new.is_over ≡ self.old.is_over }
        ensures wrong { IfErr result (λ k. (k ≡ RunFaultKind.WrongEvent) × (self.new.dies ≡ self.old.dies)) }
        ensures went { (s : State) → Fits self.old s → Went s (Event.Finish die) self.new result }
    {
        let Some(job) = self.end_job(die) else {
            return Err(RunFaultKind::WrongEvent);
        };
        let Some(outcome) = self.work(die, &job) else {
            return Err(RunFaultKind::WrongEvent);
        };
        self.device.done(die, &outcome);
        Ok(Output::Ended)
    }

    /// The job in flight of the die fails, and leaves this; a read leaves nothing. The device is
    /// told.
    fn fail(&mut self, die: u8, left: &Option<Leftover>) -> Result<Output, RunFaultKind>
        ensures steps { self.new.steps ≡ self.old.steps }
        ensures is_over { self.new.is_over ≡ self.old.is_over }
        ensures refused { IfErr result (λ k. (k ≢ RunFaultKind.NoMemory) × (self.new.dies ≡ self.old.dies)) }
        ensures went { (s : State) → Fits self.old s → Went s (Event.Fail die left.now) self.new result }
    {
        match left {
            None => self.fail_read(die),
            Some(left) => self.fail_leaving(die, left),
        }
    }

    /// The read in flight of the die fails.
    fn fail_read(&mut self, die: u8) -> Result<Output, RunFaultKind>
        ensures steps { self.new.steps ≡ self.old.steps }
        ensures is_over { self.new.is_over ≡ self.old.is_over }
        ensures refused { IfErr result (λ k. (k ≡ RunFaultKind.WrongEvent) × (self.new.dies ≡ self.old.dies)) }
        ensures went { (s : State) → Fits self.old s → Went s (Event.Fail die None) self.new result }
    {
        if !is_read(&self.job_of(die)) {
            return Err(RunFaultKind::WrongEvent);
        }
        self.end_job(die);
        self.device.done(die, &Outcome::ReadFailed);
        Ok(Output::Ended)
    }

    /// The program or the erase in flight of the die fails, and leaves this; its block is bad.
    fn fail_leaving(&mut self, die: u8, left: &Leftover) -> Result<Output, RunFaultKind>
        ensures steps { self.new.steps ≡ self.old.steps }
        ensures is_over { self.new.is_over ≡ self.old.is_over }
        ensures refused { IfErr result (λ k. (k ≢ RunFaultKind.NoMemory) × (self.new.dies ≡ self.old.dies)) }
        ensures went { (s : State) → Fits self.old s → Went s (Event.Fail die (Some left.now)) self.new result }
    {
        if !self.is_left_of(die, left) {
            return Err(RunFaultKind::WrongEvent);
        }
        if !self.may_die_leave(die, left) {
            return Err(RunFaultKind::BadLeftover);
        }
        self.leave_failed(die, left);
        self.end_job(die);
        self.device.done(die, &Outcome::Failed);
        Ok(Output::Ended)
    }

    /// Power goes away: the jobs in flight leave this, each other page is as it was, and the device
    /// is opened again over the dies.
    fn stop(&mut self, lefts: &Vec<Leftover>) -> Result<Output, RunFaultKind>
        ensures steps { self.new.steps ≡ self.old.steps }
        ensures is_over { self.new.is_over ≡ self.old.is_over }
        ensures left { OnErr result (IsLeftRefused self.old.dies (Event.Stop lefts.now) self.new.dies) }
        ensures reopened { OnOk result (HasScanned self.new.config self.new.dies self.new.core) }
        ensures went { (s : State) → Fits self.old s → Went s (Event.Stop lefts.now) self.new result }
        ensures dies { (s : State) → Fits self.old s →
            IfErr result (λ k. self.new.dies ≡ dies_refused k self.old.dies (Event.Stop lefts.now)) }
    {
        // The dies fit the configuration, so each leftover has its place on them.
        let _ = &self.dies;
        if !self.are_left(lefts.as_slice()) || !are_apart(lefts.as_slice()) {
            return Err(RunFaultKind::WrongEvent);
        }
        if !self.may_all_be_left(lefts.as_slice()) {
            return Err(RunFaultKind::BadLeftover);
        }
        self.leave_all(lefts.as_slice());
        self.power_off();
        self.reopen()
    }

    /// The job that the die has in flight.
    fn job_of(&self, die: u8) -> Option<Job>
        ensures what { result ≡ job_at self.now.jobs die }
        ensures there { IfSome result (λ j. die < length self.now.dies) }
    {
        let index = die as usize;
        if index >= self.jobs.len() {
            return None;
        }
        self.jobs[index]
    }

    /// Whether the leftover is that of the job that the die has in flight. A device over dies that
    /// are not sound may ask for a job that a die cannot do, and nothing is left of one.
    fn is_left_of(&self, die: u8, left: &Leftover) -> bool
        ensures of { result ≡ true → IsOfDie self.now die left.now }
        ensures not_of { result ≡ false → IsOfDie self.now die left.now → ⊥ }
    {
        let Some(job) = self.job_of(die) else {
            return false;
        };
        self.dies[die as usize].can_do(&job) && is_of_job(&job, left, self.config.numbers().pages)
    }

    /// Whether that job may leave it.
    fn may_die_leave(&self, die: u8, left: &Leftover) -> bool
        requires { IsOfDie self.now die left.now }
        ensures lawful { result ≡ true → MayDieLeave self.now die left.now }
        ensures unlawful { result ≡ false → MayDieLeave self.now die left.now → ⊥ }
    {
        let Some(job) = self.job_of(die) else {
            return true;
        };
        may_job_leave(&self.dies[die as usize], &job, left)
    }

    /// Whether each of the leftovers is that of the job that its die has in flight.
    fn are_left(&self, lefts: &[Leftover]) -> bool
        ensures all { result ≡ true → All (λ l. IsOfDie self.now (die_of l) l) lefts.now }
        ensures not_all { result ≡ false → All (λ l. IsOfDie self.now (die_of l) l) lefts.now → ⊥ }
    {
        for left in lefts {
            if !self.is_left_of(die_of(left), left) {
                return false;
            }
        }
        true
    }

    /// Whether the jobs of their dies may leave them.
    fn may_all_be_left(&self, lefts: &[Leftover]) -> bool
        requires { All (λ l. IsOfDie self.now (die_of l) l) lefts.now }
        ensures all { result ≡ true → All (λ l. MayDieLeave self.now (die_of l) l) lefts.now }
        ensures not_all { result ≡ false → All (λ l. MayDieLeave self.now (die_of l) l) lefts.now → ⊥ }
    {
        for left in lefts {
            if !self.may_die_leave(die_of(left), left) {
                return false;
            }
        }
        true
    }

    /// The die holds what its failed job leaves.
    fn leave_failed(&mut self, die: u8, left: &Leftover)
        requires { IsOfDie self.old die left.now }
        ensures { self.new ≡ record self.old { dies = dies_failed self.old.dies die left.now } }
    {
        fail_on(&mut self.dies[die as usize], left);
    }

    /// The die of the leftover holds it.
    fn leave(&mut self, left: &Leftover)
        requires { IsInside self.old.config left.now }
        ensures { self.new ≡ record self.old { dies = dies_left_by self.old.dies left.now } }
    {
        let index = die_of(left) as usize;
        leave_on(&mut self.dies[index], left);
    }

    /// The dies hold the leftovers, one after another.
    fn leave_all(&mut self, lefts: &[Leftover])
        requires { All (IsInside self.old.config) lefts.now }
        ensures { self.new ≡ record self.old { dies = dies_left self.old.dies lefts.now } }
    {
        for left in lefts {
            self.leave(left);
        }
    }

    /// The power cycle is over: no die has a job any more, and none may be programmed before an
    /// erase.
    fn power_off(&mut self)
        ensures { self.new ≡ record self.old {
          dies = map power_cycle_ended self.old.dies;
          jobs = replicate (length self.old.jobs) None;
        } }
    {
        end_power_cycles(self.dies.as_mut_slice());
        self.jobs.fill(None);
    }

    /// The device is opened again over the dies.
    fn reopen(&mut self) -> Result<Output, RunFaultKind>
        ensures same { (core : DeviceCore) × (self.new ≡ record self.old { core = core }) }
        ensures shown { IfOk result (λ o. o ≡ Output.Stopped) }
        ensures scanned { OnOk result (HasScanned self.new.config self.new.dies self.new.core) }
        ensures described { OnOk result ((s : State) → Sound (array_of self.old.dies) →
            IsOpened self.old.config (array_of self.old.dies) (bad_of self.old.dies) s → Describes self.new.core s) }
        ensures refused { IfErr result (λ k. IsOpeningFault self.old.config self.old.dies k) }
    {
        match open_device(self.alloc, self.config.copied(), self.dies.as_mut_slice()) {
            Ok(device) => {
                *self.device = device;
                Ok(Output::Stopped)
            }
            Err(kind) => Err(kind),
        }
    }

    /// The job that the die had in flight; it has none from now on.
    fn end_job(&mut self, die: u8) -> Option<Job>
        ensures what { result ≡ job_at self.old.jobs die }
        ensures after { self.new ≡ record self.old { jobs = slice_set self.old.jobs die None } }
        ensures there { IfSome result (λ j. die < length self.new.dies) }
    {
        let index = die as usize;
        if index >= self.jobs.len() {
            return None;
        }
        self.jobs[index].take()
    }

    /// Does the job on the die; `None`, and nothing changes, if it may not be asked of it. A device
    /// over dies that are not sound may ask so.
    fn work(&mut self, die: u8, job: &Job) -> Option<Outcome>
        requires there { die < length self.old.dies }
        ensures cannot { IfNone result (CanDo (die_at self.old.dies die) job.now → ⊥) }
        ensures nothing { IfNone result (self.new ≡ self.old) }
        ensures outcome { IfSome result (λ o. o ≡ outcome_of (die_at self.old.dies die) job.now) }
        ensures after { IfSome result (λ o. self.new ≡ record self.old { dies = slice_set self.old.dies die (after_job (die_at self.old.dies die) job.now) }) }
    {
        let index = die as usize;
        if !self.dies[index].can_do(job) {
            return None;
        }
        Some(self.do_job(index, job))
    }

    /// Does the job on the die.
    fn do_job(&mut self, index: usize, job: &Job) -> Outcome
        requires there { index < length self.old.dies }
        requires can { CanDo (die_at self.old.dies index) job.now }
        ensures outcome { result ≡ outcome_of (die_at self.old.dies index) job.now }
        ensures after { self.new ≡ record self.old { dies = slice_set self.old.dies index (after_job (die_at self.old.dies index) job.now) } }
    {
        work(&mut self.dies[index], job)
    }
}

/// Runs the events over dies, and answers what each showed.
///
/// Stopped at any moment, inside any page program or block erase and under every order of host
/// messages, die jobs, flushes and collector steps, the device that opens afterwards has its units,
/// settings, RPMB area, key and counter as after a prefix of the accepted commands, and this prefix
/// holds every command that was acknowledged as durable.
///
/// So it is over dies whose pages are sound, as those of new dies are and those that a run leaves;
/// where each die does what it reports; and for as long as the openings have memory, as a run to
/// its end had.
///
/// # Errors
///
/// Where an event was refused, or memory: the kind, the position of the event, counted from 1 (0 is
/// the opening), and the trace of the events before it, for which the same holds. The dies are
/// given up.
pub fn run(
    alloc: Global,
    config: Config,
    dies: Vec<MemDie>,
    events: &[Event],
) -> Result<Trace, RunFault>
    ensures one_each { IfOk result (λ trace. length trace.items ≡ length events.now) }
    // Dies of other sizes are refused, and so are those of another configuration, whatever else is on
    // them.
    ensures fit { IfOk result (λ trace. Fit config dies.items) }
    ensures suits { IfOk result (λ trace. Suits config (array_of dies.items)) }
    // The promise. Each message is answered, each job given and each turn told as the specified
    // device does, in each of the lives between the stops.
    ensures promised { IfOk result (λ trace. Sound (array_of dies.items) →
        KeepsThePromise config dies.items events.now trace.items) }
    // A fault names an event or the opening, and its trace is as long as the events before it are
    // many, also over dies that are not sound.
    ensures counted { IfErr result (λ f. (f.position ≤ length events.now)
        × (length f.trace.items ≡ f.position - 1)) }
    // A fault says where: at position 0 the opening was refused; at any other one the event there
    // was refused, or memory was, and its trace is that of the events before it and keeps the
    // promise.
    ensures broken { IfErr result (λ f. IsRunFault config dies.items events.now f.position f) }
{
    let mut world = World::new(alloc, config, dies)?;
    let mut trace = Vec::new(alloc);
    for (index, event) in events.iter().enumerate() {
        if let Err(kind) = world.play(event, &mut trace) {
            return Err(RunFault {
                kind,
                position: index + 1,
                trace,
            });
        }
    }
    Ok(trace)
}

/// Puts what an event showed behind the trace.
fn note(trace: &mut Trace, output: Output) -> Result<(), RunFaultKind>
    ensures more { OnOk result (trace.new.items ≡ trace.old.items ++ output ∷ []) }
    ensures same { IfErr result (λ k. (k ≡ RunFaultKind.NoMemory) × (trace.new.items ≡ trace.old.items)) }
{
    match trace.push(output) {
        Ok(_) => Ok(()),
        Err(_) => Err(RunFaultKind::NoMemory),
    }
}
