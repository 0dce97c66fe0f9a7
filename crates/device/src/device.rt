//! The device and its five calls.
ghost use Rattle.std.specs.Prelude.{◌≡◌, ◌<◌, ◌≤◌, ◌+◌, ◌*◌, IfOk, map};
ghost use Rattle.std.specs.Prelude.{false, if◌then◌else◌, IfErr, IfNone, option_copied};
ghost use Rattle.device.specs.Calls.{lock_told, read_told, told};
ghost use Rattle.std.specs.Prelude.{true, ◌++◌};
ghost use Rattle.ufs_spec.specs.Cells.{Array, Cells, Shows};
ghost use Rattle.ufs_spec.specs.Lives.{Fit, IsOpened, array_of, bad_of};
ghost use Rattle.ufs_spec.specs.Machine.{Done, OfDone, MayLeave, Turn, OfTurn};
ghost use Rattle.ufs_spec.specs.Moves.{Ending, IsEndingOf, outcome_fits};
ghost use Rattle.ufs_spec.specs.Refusals.{State};
ghost use Rattle.ufs_spec.specs.Translation.{Translation};
ghost use Rattle.ftl_core.specs.Public.{Describes as IsLayer, ended_now};
ghost use Rattle.device.specs.Describes.{Describes, IsAnswered, IsGiven};
ghost use Rattle.device.specs.Kept.{idle_device, regions_kept};
ghost use Rattle.device.specs.Opened.{HasFound, HasScanned, OpensOver};
ghost use Rattle.page_tag.specs.Jobs.{IsTagRead};
ghost use Rattle.recovery.specs.Found.{IsScanFault};
ghost use Rattle.ufs_spec.specs.Sound.{Sound, Suits};

use ftl_core::{Ended, Ftl};
use geometry::Config;
use nand_model::Die;
use page_tag::{UnsealedJob, tag_read};
use recovery::{Found, scan};
use rpmb::{Machines, RegionState};
use settings::Settings;
use std::alloc::{AllocError, Global};
use std::marker::Model;
use task_set::TaskSet;
use ufs_spec::{Block, Job, KeyAndCounter, Numbers, OpenFault, Outcome, Tag, Volatile};

/// How many blocks of 256 bytes the area of a region has in each of its steps (JESD220, 12.4: 128 KiB).
const STEP_BLOCKS: u32 = 512;

/// What is kept of a region with this key and this counter, whose area has so many steps.
fn region_kept(said: &KeyAndCounter, steps: u8) -> RegionState
    ensures { result ≡ record { key = said.now.key; counter = said.now.counter; blocks = 512 * steps } }
{
    RegionState {
        key: said.key,
        counter: said.counter,
        blocks: STEP_BLOCKS * u32::from(steps),
    }
}

/// The same of each region, with these settings and numbers.
fn regions_kept(settings: &Settings, numbers: &Numbers) -> [RegionState; 4]
    ensures { result ≡ regions_kept settings.now numbers.now }
{
    [
        region_kept(&settings.regions[0], numbers.rpmb[0]),
        region_kept(&settings.regions[1], numbers.rpmb[1]),
        region_kept(&settings.regions[2], numbers.rpmb[2]),
        region_kept(&settings.regions[3], numbers.rpmb[3]),
    ]
}

/// A device: the translation layer, and the tasks that are open.
#[derive(Drop)]
pub struct Device {
    /// The translation layer, which keeps for each READ what its blocks were when the COMMAND came.
    pub(crate) ftl: Ftl,
    /// bBootLunEn as it was accepted, durable or not: the boot unit that is used, 0 for none (JESD220,
    /// 14.3).
    pub(crate) boot: u8,
    /// fPermanentWPEn as it was accepted: units are protected for ever (JESD220, 14.2).
    pub(crate) is_permanent: bool,
    /// What lasts until the next power cycle.
    pub(crate) volatile: Volatile,
    /// The regions of the replay protected memory block: their keys and counters, and their registers.
    pub(crate) rpmb: Machines,
    /// The tasks that are open, the exchanges of one reply, and the blocks that dies read for the tasks.
    pub(crate) set: TaskSet,
}

impl Model for Device {
    ghost use Rattle.device.specs.Kept.{DeviceCore};

    ghost Value = { DeviceCore };

    ghost use Rattle.device.specs.Rooms.{core_of};

    ghost view = { core_of };
}

impl Device {
    /// Opens a device over the dies, which are as many and as large as the configuration says. It reads
    /// each of their pages once and writes nothing, and after an error the dies are as before too.
    ///
    /// # Errors
    ///
    /// Those of `recovery::scan`: `NoMemory` if memory was refused, `ReadFault` if the read of that place
    /// failed, else `OtherConfig` if the dies hold another configuration.
    pub fn open<D: Die>(alloc: Global, config: Config, dies: &mut [D]) -> Result<Device, OpenFault>
        requires fit { Fit config (map D.state dies.old) }
        ensures same { map D.state dies.new ≡ map D.state dies.old }
        // Over dies whose pages are sound it is the device that the definitions open over them.
        ensures described { IfOk result (λ d. (s : State) → Sound (array_of (map D.state dies.old)) →
            IsOpened config (array_of (map D.state dies.old)) (bad_of (map D.state dies.old)) s → Describes d s) }
        // Over any dies, sound or not, it has what a scan of them finds, and they suit the configuration.
        ensures found { IfOk result (HasScanned config (map D.state dies.old)) }
        ensures suits { IfOk result (λ d. Suits config (array_of (map D.state dies.old))) }
        ensures fault { IfErr result (λ e. (c : Cells) → Shows (array_of (map D.state dies.old)) c →
            IsScanFault config c (map D.failed dies.old) (map D.failed dies.new) e) }
    {
        let found = scan(alloc, dies, &config)?;
        Device::from_found(alloc, config, found)
    }

    /// Opens a device over dies of which a scan found this, as many and as large as the configuration says.
    /// It reads nothing.
    ///
    /// # Errors
    ///
    /// `NoMemory` if memory was refused. What was found is given up then.
    pub fn from_found(alloc: Global, config: Config, found: Found) -> Result<Device, OpenFault>
        // Over sound pages of which this was found it is the device that the definitions open over them.
        ensures described { IfOk result (OpensOver config found) }
        ensures found { IfOk result (HasFound config found) }
        ensures memory { IfErr result (λ e. e ≡ OpenFault.NoMemory) }
    {
        config.has_no_fault();
        let settings = found.settings;
        let regions = regions_kept(&settings, config.numbers());
        let Ok(ftl) = Ftl::new(alloc, config, found) else {
            return Err(OpenFault::NoMemory);
        };
        match Device::idle(alloc, ftl, &settings, &regions) {
            Ok(device) => Ok(device),
            Err(_) => Err(OpenFault::NoMemory),
        }
    }

    /// A device over this layer, with these settings, regions of which this is kept, and no task open.
    fn idle(
        alloc: Global,
        ftl: Ftl,
        settings: &Settings,
        regions: &[RegionState; 4],
    ) -> Result<Device, AllocError>
        ensures { IfOk result (λ d. d ≡ idle_device ftl settings.now regions.now) }
    {
        Ok(Device {
            ftl,
            boot: settings.boot,
            is_permanent: settings.is_permanent,
            volatile: Volatile::NEW,
            rpmb: Machines::new(alloc, regions)?,
            set: TaskSet::new(alloc)?,
        })
    }

    /// The next job of the die, which is then in flight; `None` where the die is not one of the device,
    /// has a job in flight, or is owed nothing.
    pub fn take(&mut self, die: u8) -> Option<Job>
        ensures nothing { IfNone result (self.new ≡ self.old) }
        // It is one that the specified device owes to the die then, and none where it owes none.
        ensures given { (s : State) → Describes self.old s → IsGiven s die result self.new }
    {
        self.ftl.take(die)
    }

    /// The job that `take` hands out, before its page is sealed: it takes no SHA-256.
    pub fn take_unsealed(&mut self, die: u8) -> Option<UnsealedJob>
        ensures nothing { IfNone result (self.new ≡ self.old) }
        // It is one that the specified device owes to the die then, and none where it owes none.
        ensures given { (s : State) → Describes self.old s → IsGiven s die result self.new }
    {
        self.ftl.take_unsealed(die)
    }

    /// Ends the job in flight of the die. False, and nothing changes, where the die has no job in flight
    /// or the outcome is not of its kind.
    pub fn done(&mut self, die: u8, outcome: &Outcome) -> bool
        ensures nothing { result ≡ false → self.new ≡ self.old }
        ensures known { (s : State) → Describes self.old s → result ≡ outcome_fits (s.translation.disk.flights die) outcome.now }
        // However the job ended: what is kept then describes what this end makes of the specified device.
        ensures ended { (s : State) (ending : Ending) (left : Array) → Describes self.old s →
            IsEndingOf s.translation.disk.cells (s.translation.disk.flights die) outcome.now ending → MayLeave s die ending left →
            (result ≡ true) × IsAnswered s (Done die ending left) (OfDone true) self.new }
    {
        self.done_opened(die, outcome, &tag_read(outcome))
    }

    /// Ends the job in flight of the die as `done` does. The tag of the page that was read is known
    /// (`page_tag::tag_read`): it takes no SHA-256.
    pub fn done_opened(&mut self, die: u8, outcome: &Outcome, tag: &Option<Tag>) -> bool
        requires { IsTagRead outcome.now tag.now }
        ensures nothing { result ≡ false → self.new ≡ self.old }
        ensures known { (s : State) → Describes self.old s → result ≡ outcome_fits (s.translation.disk.flights die) outcome.now }
        // However the job ended: what is kept then describes what this end makes of the specified device.
        ensures ended { (s : State) (ending : Ending) (left : Array) → Describes self.old s →
            IsEndingOf s.translation.disk.cells (s.translation.disk.flights die) outcome.now ending → MayLeave s die ending left →
            (result ≡ true) × IsAnswered s (Done die ending left) (OfDone true) self.new }
    {
        let Some(ended) = self.ftl.done(die, outcome, tag) else {
            return false;
        };
        self.tell(ended);
        self.fill_register();
        self.end_waiting();
        true
    }

    /// What the end of a job told.
    fn tell(&mut self, ended: Ended<'_>)
        ensures { self.new ≡ told self.old (ended_now ended.entry) }
    {
        match ended {
            Ended::Read {
                reader,
                index,
                body,
            } => self.read_ended(reader, index, body),
            Ended::Other => {}
        }
    }

    /// Does one step of mending or of collection; false, and nothing changes, if none is due.
    pub fn turn(&mut self) -> bool
        ensures nothing { result ≡ false → self.new ≡ self.old }
        // True exactly where a step is due.
        ensures stepped { (s : State) → Describes self.old s → IsAnswered s Turn (OfTurn result) self.new }
    {
        self.ftl.turn()
    }

    /// What a die read for the task of this tag gave of its block or page of this index: the block, or
    /// nothing. That ends a READ, and a request for data is answered with a read failure.
    fn read_ended(&mut self, tag: u8, index: u16, body: Option<&Block>)
        ensures { self.new ≡ read_told self.old tag index (option_copied body.entry) }
    {
        match body {
            Some(body) => self.set.load(tag, index, body),
            None => self.set.lose(tag, index),
        }
    }

    /// A lock ends each task and each short exchange that waits for a group to become durable.
    pub(crate) fn end_waiting(&mut self)
        ensures { (t : Translation) → IsLayer self.old.ftl t → self.new ≡ lock_told t self.old }
    {
        if self.ftl.is_locked() {
            let frontier = self.ftl.frontier();
            self.set.lock(frontier);
        }
    }
}
