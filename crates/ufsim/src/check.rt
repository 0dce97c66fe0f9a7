//! Stops a script's device inside each of its programs and erases, and looks whether the device
//! that opens afterwards holds what a prefix of the accepted commands makes, with each acknowledged
//! one in it: the blocks of the units, the settings bBootLunEn and fPermanentWPEn, and the key, the
//! counter and the area of each region of the replay protected memory block.
ghost use Rattle.std.specs.Prelude.{◌≡◌, ◌∷◌, [], Bool, IfOk, IfSome, None, OnOk, Option, Some, map, true};
ghost use Rattle.ufs_spec.specs.Plain.{shape_of, shape_of_numbers};
ghost use Rattle.journal.specs.Heard.{told};
ghost use Rattle.journal.specs.Requests.{state_at};
ghost use Rattle.ufsim.specs.Trials.{AreCounted, Found, IsMore, IsRight, Trial, counted};
ghost use Rattle.ufsim.specs.Checked.{GoesOn, IsMade, IsToldAs, IsTrialIn, given_in};

use crate::fault::Word;
use crate::keys::{Keys, keys_on};
use crate::reading::{Holdings, Visit, read_dies};
use crate::stopped::{
    CONTENTS, bad_blocks, copied_dies, is_at_work, is_write, pair_stopped, stopped_dies,
};
use crate::tally::Tally;
use device::World;
use geometry::Config;
use journal::{FoundRegion, Journal, device_holding, is_kept};
use nand_model::MemDie;
use rpmb::RegionState;
use std::alloc::Global;
use ufs_spec::{Event, Numbers, Output, PlainDevice, commands_keep_the_shape};

/// How many blocks of 256 bytes an area has in each of its steps of 128 KiB (JESD220, 12.4).
const STEP_BLOCKS: u32 = 512;

/// Which stops are tried at a program or an erase.
#[derive(Clone, Copy)]
pub enum Stops {
    /// One, with the same content on all dies that program or erase.
    One,
    /// Such a one, and in the mending after it a second one at each program and each erase.
    Second,
    /// The same at some moments only, so that many checks, side by side, try all of them: at those
    /// whose number, counted from 0, leaves `part` when it is divided by `parts`.
    SecondOf { part: usize, parts: usize },
    /// Such a one, and for each two dies that program or erase one with each two contents, where
    /// the other dies keep what they had.
    Pairs,
}

impl Stops {
    // Whether any are tried at the moment of this number.
    fn are_at(&self, moment: usize) -> bool
        ensures { self.now ≡ Stops.One → result ≡ true }
    {
        match self {
            Stops::SecondOf { part, parts } => moment.checked_rem(*parts) == Some(*part),
            _ => true,
        }
    }
}

/// What a life began with, and what its host wrote. The stops of a check are tried in it.
#[derive(Drop)]
pub(crate) struct Life {
    config: Config,
    tries: Stops,
    /// What the life began with; `None` where it began over new dies, or over dies of an image that
    /// were not told rightly.
    base: Option<Holdings>,
    journal: Journal,
}

/// What was tried so far.
#[derive(Drop)]
pub(crate) struct Check {
    life: Life,
    tally: Tally,
}

impl Check {
    /// Nothing was tried yet, over new dies.
    pub fn new(alloc: Global, config: Config, tries: Stops) -> Check
        ensures tries { result.life.tries ≡ tries }
        ensures none { result.tally ≡ record { moments = 0; stops = 0; bad = 0 } }
    {
        let numbers = config.numbers();
        let journal = Journal::new(alloc, numbers, new_regions(numbers));
        let life = Life {
            config,
            tries,
            base: None,
            journal,
        };
        Check {
            life,
            tally: Tally::new(),
        }
    }

    /// Nothing was tried yet, over these dies, which an earlier life left.
    pub fn over(
        alloc: Global,
        config: Config,
        tries: Stops,
        dies: &[MemDie],
    ) -> Result<Check, Word> {
        let keys = keys_on(alloc, &config, dies)?;
        let mut check = Check::new(alloc, config, tries);
        check.begin_over(alloc, dies, &keys)?;
        Ok(check)
    }

    /// How many stops were tried, and how many of them were bad.
    pub fn counts(&self) -> (usize, usize)
        ensures stops { result.0 ≡ self.now.tally.stops }
        ensures bad { result.1 ≡ self.now.tally.bad }
        ensures counted { AreCounted self.now.tally.stops self.now.tally.bad }
    {
        self.tally.counts()
    }

    /// An event of the script showed this. After a program or an erase was given to a die the stops
    /// are tried.
    pub fn note(
        &mut self,
        alloc: Global,
        world: &World,
        event: &Event,
        output: &Output,
    ) -> Result<(), Word>
        ensures counted { OnOk result (GoesOn (given_in output.now)
            self.old.life.tries self.old.tally self.new.life.tries self.new.tally) }
    {
        match output {
            Output::Host(Ok(_)) => self.life.hear(alloc, event),
            Output::Reply(Some(message)) => {
                self.life.tell(message.as_slice());
                Ok(())
            }
            Output::Take(job) if is_write(job) => self.stop_here(alloc, world),
            Output::Ended => {
                self.life.end(world, event);
                Ok(())
            }
            Output::Stopped => self.begin_over(alloc, world.dies(), &self.keys()),
            _ => Ok(()),
        }
    }

    // The keys that the life programmed or began with.
    fn keys(&self) -> Keys {
        self.life.keys()
    }

    // A life begins over dies of an earlier one; if they are not told rightly, that counts as one
    // bad stop.
    fn begin_over(&mut self, alloc: Global, dies: &[MemDie], keys: &Keys) -> Result<(), Word>
        ensures counted { OnOk result
            (GoesOn 0 self.old.life.tries self.old.tally self.new.life.tries self.new.tally) }
    {
        if !self.life.begin_over(alloc, dies, keys)? {
            self.tally.add_unread();
        }
        Ok(())
    }

    // The stops at this moment, if any are tried at it.
    #[tactic(auto, using(crate::proofs::Counting::moment_more, crate::proofs::Counting::moment_passed))]
    fn stop_here(&mut self, alloc: Global, world: &World) -> Result<(), Word>
        ensures counted { OnOk result
            (GoesOn 1 self.old.life.tries self.old.tally self.new.life.tries self.new.tally) }
    {
        let moment = self.tally.begin_moment();
        if self.life.tries.are_at(moment) {
            self.life.stop_now(alloc, world, &mut self.tally)?;
        }
        Ok(())
    }
}

impl Life {
    // The device took a message.
    fn hear(&mut self, alloc: Global, event: &Event) -> Result<(), Word>
        ensures tries { self.new.tries ≡ self.old.tries }
    {
        match event {
            Event::Host(message) => Ok(self.journal.hear(alloc, message.as_slice())?),
            _ => Ok(()),
        }
    }

    // The device handed out a reply.
    fn tell(&mut self, reply: &[u8])
        ensures told { self.new ≡ record self.old { journal = told self.old.journal reply.now } }
    {
        self.journal.tell(reply);
    }

    // A job ended. A program or an erase that failed made a block bad.
    fn end(&mut self, world: &World, event: &Event)
        ensures tries { self.new.tries ≡ self.old.tries }
    {
        if let Event::Fail(_, Some(_)) = event {
            self.lock(world.dies());
        }
    }

    // Where more blocks of the dies are bad than the device has spare ones, nothing more is
    // accepted.
    fn lock(&mut self, dies: &[MemDie])
        ensures tries { self.new.tries ≡ self.old.tries }
    {
        if bad_blocks(dies) > usize::from(self.config.numbers().spare) {
            self.journal.lock();
        }
    }

    // A life begins over dies of an earlier one. Its base is what they read as under the keys that
    // the earlier one left. It answers whether they are told rightly.
    fn begin_over(&mut self, alloc: Global, dies: &[MemDie], keys: &Keys) -> Result<bool, Word>
        ensures tries { self.new.tries ≡ self.old.tries }
    {
        let copies = copied_dies(alloc, dies)?;
        let found = read_dies(alloc, &self.config, copies, keys)?;
        let is_told = found.is_some();
        if let Some(found) = found {
            let numbers = self.config.numbers();
            let regions = regions_like(numbers, &found.regions());
            self.journal = Journal::new(alloc, numbers, regions);
            self.base = Some(found);
        }
        self.lock(dies);
        Ok(is_told)
    }

    // The stops at a program or an erase.
    fn stop_now(&self, alloc: Global, world: &World, tally: &mut Tally) -> Result<(), Word>
        ensures stops { OnOk result (self.now.tries ≡ Stops.One → IsMore 3 tally.old tally.new) }
    {
        match self.tries {
            Stops::One => self.stop_once(alloc, world, tally),
            Stops::Second | Stops::SecondOf { .. } => self.stop_each_twice(alloc, world, tally),
            Stops::Pairs => {
                self.stop_once(alloc, world, tally)?;
                self.stop_pairs(alloc, world, tally)
            }
        }
    }

    // A stop with each content.
    fn stop_once(&self, alloc: Global, world: &World, tally: &mut Tally) -> Result<(), Word>
        ensures stops { OnOk result (IsMore 3 tally.old tally.new) }
    {
        for content in CONTENTS {
            let dies = stopped_dies(alloc, world, content)?;
            self.try_stop(alloc, dies, tally)?;
        }
        Ok(())
    }

    // A stop with each content, and second ones in the mending after it.
    fn stop_each_twice(&self, alloc: Global, world: &World, tally: &mut Tally) -> Result<(), Word> {
        for content in CONTENTS {
            let dies = stopped_dies(alloc, world, content)?;
            self.stop_twice(alloc, dies, tally)?;
        }
        Ok(())
    }

    // The keys that the life programmed or began with. No other can be set after a stop.
    fn keys(&self) -> Keys
        ensures { result ≡ map (λ region. (state_at self.now.journal.regions region).key)
            (0 ∷ 1 ∷ 2 ∷ 3 ∷ []) }
    {
        [
            self.journal.region(0).key,
            self.journal.region(1).key,
            self.journal.region(2).key,
            self.journal.region(3).key,
        ]
    }

    // Opens a device over these dies, lets it mend, and compares what it holds.
    fn try_stop(&self, alloc: Global, dies: Vec<MemDie>, tally: &mut Tally) -> Result<(), Word>
        ensures counted { OnOk result ((good : Bool) × (tally.new ≡ counted tally.old good)) }
    {
        let found = read_dies(alloc, &self.config, dies, &self.keys())?;
        self.count(alloc, &found, tally)
    }

    // Counts a stop after which this was found; `None` where it was not told rightly.
    fn count(&self, alloc: Global, found: &Option<Holdings>, tally: &mut Tally) -> Result<(), Word>
        ensures counted { OnOk result
            ((t : Trial) × IsTrialIn self.now found.now t × IsRight t × (tally.new ≡ counted tally.old t.good)) }
    {
        let is_good = self.is_good(alloc, found)?;
        tally.add(is_good);
        Ok(())
    }

    // Whether a stop after which this was found was good.
    fn is_good(&self, alloc: Global, found: &Option<Holdings>) -> Result<bool, Word>
        ensures { IfOk result (λ good.
            (t : Trial) × IsTrialIn self.now found.now t × IsRight t × (t.good ≡ good)) }
    {
        match found {
            Some(found) => self.is_kept(alloc, found),
            None => Ok(false),
        }
    }

    // Whether this is what is there after a prefix of what was accepted in the life.
    fn is_kept(&self, alloc: Global, found: &Holdings) -> Result<bool, Word>
        ensures { IfOk result (λ good.
            (t : Trial) × IsTrialIn self.now (Some found.now) t × IsRight t × (t.good ≡ good)) }
    {
        let rest = found.rest();
        let Some(base) = self.base(alloc)? else {
            return Ok(false);
        };
        Ok(is_kept(
            self.config.numbers(),
            base,
            self.journal.entries(),
            self.journal.held(),
            found.units.as_slice(),
            &rest,
        ))
    }

    // The plain device that the life began with; `None` where what was read is not as large as the
    // units and the area, or has no boot setting.
    fn base(&self, alloc: Global) -> Result<Option<PlainDevice>, Word>
        ensures shape { IfOk result (λ o. IfSome o (λ p. shape_of p ≡ shape_of_numbers self.now.config)) }
        ensures made { IfOk result (λ o.
            (began : Option Found) × IsToldAs self.now.base began × IsMade self.now.config began o) }
    {
        let numbers = self.config.numbers();
        match &self.base {
            Some(base) => Ok(device_holding(alloc, numbers, base.units.as_slice(), &base.rest())?),
            None => new_device(alloc, numbers),
        }
    }

    // As `try_stop`, and in the mending a second stop at each program and each erase.
    fn stop_twice(&self, alloc: Global, dies: Vec<MemDie>, tally: &mut Tally) -> Result<(), Word> {
        match Visit::open(alloc, &self.config, dies)? {
            Some(mut visit) => self.stop_in_mending(alloc, &mut visit, tally),
            None => self.count(alloc, &None, tally),
        }
    }

    // The second stops of each round of the mending, and then what the device holds without one.
    fn stop_in_mending(
        &self,
        alloc: Global,
        visit: &mut Visit,
        tally: &mut Tally,
    ) -> Result<(), Word> {
        for _ in 0..Visit::ROUNDS {
            if !self.stop_in_round(alloc, visit, tally)? {
                break;
            }
        }
        let found = visit.read_all(self.config.numbers(), &self.keys())?;
        self.count(alloc, &found, tally)
    }

    // The second stops of one turn and a job of each die: whether there was any work.
    fn stop_in_round(
        &self,
        alloc: Global,
        visit: &mut Visit,
        tally: &mut Tally,
    ) -> Result<bool, Word> {
        let mut has_worked = visit.turn()?;
        for die in 0..visit.dies {
            if visit.take(die)? {
                has_worked = true;
                self.stop_again(alloc, &visit.world, die, tally)?;
                visit.finish(die)?;
            }
        }
        Ok(has_worked)
    }

    // The second stops, where this die was just given a job.
    fn stop_again(
        &self,
        alloc: Global,
        world: &World,
        die: u8,
        tally: &mut Tally,
    ) -> Result<(), Word> {
        if is_at_work(world, die) {
            for content in CONTENTS {
                let dies = stopped_dies(alloc, world, content)?;
                self.try_stop(alloc, dies, tally)?;
            }
        }
        Ok(())
    }

    // The stops with two contents on each two dies.
    fn stop_pairs(&self, alloc: Global, world: &World, tally: &mut Tally) -> Result<(), Word> {
        let count = self.config.numbers().dies;
        for first in 0..count {
            for second in 0..count {
                if first < second && is_at_work(world, first) && is_at_work(world, second) {
                    self.stop_pair(alloc, world, (first, second), tally)?;
                }
            }
        }
        Ok(())
    }

    fn stop_pair(
        &self,
        alloc: Global,
        world: &World,
        pair: (u8, u8),
        tally: &mut Tally,
    ) -> Result<(), Word> {
        for content in CONTENTS {
            for other in CONTENTS {
                let dies = pair_stopped(alloc, world, (pair.0, content), (pair.1, other))?;
                self.try_stop(alloc, dies, tally)?;
            }
        }
        Ok(())
    }
}

// What is kept of the regions of a new device.
fn new_regions(numbers: &Numbers) -> [RegionState; 4] {
    numbers.rpmb.map(|steps| region_of(steps, None, 0))
}

// What is kept of regions of which this was found.
fn regions_like(numbers: &Numbers, found: &[FoundRegion<'_>; 4]) -> [RegionState; 4]
    ensures keys { map (λ region. region.key) result ≡ map (λ region. region.key) found.now }
    ensures counters { map (λ region. region.counter) result
        ≡ map (λ region. region.counter) found.now }
{
    let steps = &numbers.rpmb;
    [
        region_of(steps[0], found[0].key, found[0].counter),
        region_of(steps[1], found[1].key, found[1].counter),
        region_of(steps[2], found[2].key, found[2].counter),
        region_of(steps[3], found[3].key, found[3].counter),
    ]
}

// What is kept of a region of so many steps, with this key and this counter.
fn region_of(steps: u8, key: Option<[u8; 32]>, counter: u32) -> RegionState
    ensures key { result.key ≡ key }
    ensures counter { result.counter ≡ counter }
{
    RegionState {
        key,
        counter,
        blocks: STEP_BLOCKS.saturating_mul(u32::from(steps)),
    }
}

// A new device.
fn new_device(alloc: Global, numbers: &Numbers) -> Result<Option<PlainDevice>, Word>
    ensures new { IfOk result (λ o. IsMade numbers.now None o) }
    ensures shape { IfOk result (λ o. IfSome o (λ p. shape_of p ≡ shape_of_numbers numbers.now)) }
{
    commands_keep_the_shape();
    Ok(Some(PlainDevice::new(alloc, numbers)?))
}
