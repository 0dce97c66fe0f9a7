//! Opens a device again over dies, and reads by messages all that it holds.
ghost use Rattle.std.specs.Prelude.{◌≡◌, ◌∷◌, [], map, slice_get};
ghost use Rattle.ufsim.specs.Checked.{IsRest, area_read, counter_read, key_read};

use crate::fault::{Word, word_of};
use crate::keys::Keys;
use crate::regions::{Region, targets_of};
use crate::settings_shown::Settings;
use device::World;
use geometry::Config;
use journal::{FoundRegion, FoundRest, block_in};
use nand_model::MemDie;
use std::alloc::Global;
use ufs_spec::codes::{COMMAND, DATA_IN, RESPONSE};
use ufs_spec::{Block, Event, Numbers, Output, RunFaultKind, UnitSpec, Upiu, write_u32};

/// How many rounds of a job of each die a reply may need.
const REPLY_ROUNDS: usize = 8;

/// All that a device holds.
#[derive(Drop)]
pub(crate) struct Holdings {
    /// The blocks of each unit, by their addresses.
    pub units: Vec<Vec<Block>>,
    settings: Settings,
    /// The regions of the replay protected memory block, by their numbers.
    regions: Vec<Region>,
}

impl Holdings {
    /// All but the blocks, for a comparison.
    pub fn rest(&self) -> FoundRest<'_>
        ensures { IsRest self.now result }
    {
        FoundRest {
            boot: self.settings.boot,
            is_permanent: self.settings.is_permanent,
            regions: self.regions(),
        }
    }

    /// The regions of the replay protected memory block, for a comparison.
    pub fn regions(&self) -> [FoundRegion<'_>; 4]
        ensures keys { map (λ f. f.key) result
            ≡ map (λ n. key_read (slice_get self.now.regions.items n)) (0 ∷ 1 ∷ 2 ∷ 3 ∷ []) }
        ensures counters { map (λ f. f.counter) result
            ≡ map (λ n. counter_read (slice_get self.now.regions.items n)) (0 ∷ 1 ∷ 2 ∷ 3 ∷ []) }
        ensures areas { map (λ f. f.area.now) result
            ≡ map (λ n. area_read (slice_get self.now.regions.items n)) (0 ∷ 1 ∷ 2 ∷ 3 ∷ []) }
    {
        [
            self.region(0),
            self.region(1),
            self.region(2),
            self.region(3),
        ]
    }

    // The region of this number.
    fn region(&self, number: usize) -> FoundRegion<'_>
        ensures key { result.key ≡ key_read (slice_get self.now.regions.items number) }
        ensures counter { result.counter ≡ counter_read (slice_get self.now.regions.items number) }
        ensures area { result.area.now ≡ area_read (slice_get self.now.regions.items number) }
    {
        match self.regions.get(number) {
            Some(region) => region.found(),
            None => FoundRegion {
                key: None,
                counter: 0,
                area: &[],
            },
        }
    }
}

/// What a device holds that is opened over these dies and mended; `None` where it does not open, or
/// does not answer each READ with its block, each query for a setting rightly, and each request to
/// a region rightly under its key among these.
pub(crate) fn read_dies(
    alloc: Global,
    config: &Config,
    dies: Vec<MemDie>,
    keys: &Keys,
) -> Result<Option<Holdings>, Word> {
    match Visit::open(alloc, config, dies)? {
        Some(mut visit) => {
            visit.mend()?;
            visit.read_all(config.numbers(), keys)
        }
        None => Ok(None),
    }
}

/// A device that is read by messages.
#[derive(Drop)]
pub(crate) struct Visit {
    pub alloc: Global,
    pub world: World,
    pub dies: u8,
}

impl Visit {
    /// How many rounds of mending are waited for.
    pub const ROUNDS: usize = 1024;

    /// Opens a device over these dies; `None` where it does not open.
    pub fn open(alloc: Global, config: &Config, dies: Vec<MemDie>) -> Result<Option<Visit>, Word> {
        match World::new(alloc, config.copied(), dies) {
            Ok(world) => Ok(Some(Visit {
                alloc,
                world,
                dies: config.numbers().dies,
            })),
            Err(fault) => match fault.kind {
                RunFaultKind::NoMemory => Err(Word::Memory),
                _ => Ok(None),
            },
        }
    }

    fn step(&mut self, event: &Event) -> Result<Output, Word> {
        match self.world.step(event) {
            Ok(output) => Ok(output),
            Err(fault) => Err(word_of(&fault)),
        }
    }

    /// Whether a step of mending or of collection was due.
    pub fn turn(&mut self) -> Result<bool, Word> {
        Ok(matches!(self.step(&Event::Turn)?, Output::Turn(true)))
    }

    /// Whether the die was given a job.
    pub fn take(&mut self, die: u8) -> Result<bool, Word> {
        Ok(matches!(self.step(&Event::Take(die))?, Output::Take(Some(_))))
    }

    /// The job of the die ends well.
    pub fn finish(&mut self, die: u8) -> Result<(), Word> {
        self.step(&Event::Finish(die))?;
        Ok(())
    }

    // Rounds of a turn and of a job of each die, until none has work.
    fn mend(&mut self) -> Result<(), Word> {
        for _ in 0..Self::ROUNDS {
            let is_due = self.turn()?;
            if !self.work()? && !is_due {
                break;
            }
        }
        Ok(())
    }

    // One job of each die, done well; whether there was any.
    fn work(&mut self) -> Result<bool, Word> {
        let mut has_worked = false;
        for die in 0..self.dies {
            if self.take(die)? {
                self.finish(die)?;
                has_worked = true;
            }
        }
        Ok(has_worked)
    }

    /// All that the device holds; `None` where it does not tell it rightly.
    pub fn read_all(&mut self, numbers: &Numbers, keys: &Keys) -> Result<Option<Holdings>, Word> {
        if !self.end_attentions(numbers)? {
            return Ok(None);
        }
        let Some(units) = self.blocks(numbers.units.as_slice())? else {
            return Ok(None);
        };
        let Some(settings) = self.settings()? else {
            return Ok(None);
        };
        match self.regions(&targets_of(numbers, keys))? {
            Some(regions) => Ok(Some(Holdings {
                units,
                settings,
                regions,
            })),
            None => Ok(None),
        }
    }

    // The blocks of each unit; `None` where a READ has not its block.
    fn blocks(&mut self, units: &[UnitSpec]) -> Result<Option<Vec<Vec<Block>>>, Word> {
        let mut all = Vec::new(self.alloc);
        for (index, unit) in units.iter().enumerate() {
            let Ok(number) = u8::try_from(index) else {
                return Ok(None);
            };
            match self.unit_blocks(number, unit.blocks)? {
                Some(blocks) => all.push(blocks)?,
                None => return Ok(None),
            }
        }
        Ok(Some(all))
    }

    // Reads the blocks of a unit; `None` where a READ has not its block.
    fn unit_blocks(&mut self, unit: u8, count: u32) -> Result<Option<Vec<Block>>, Word> {
        let mut all = Vec::new(self.alloc);
        for address in 0..count {
            match self.block(unit, address)? {
                Some(block) => all.push(block)?,
                None => return Ok(None),
            }
        }
        Ok(Some(all))
    }

    // Reads a block; `None` where the READ is not answered with it and with GOOD.
    fn block(&mut self, unit: u8, address: u32) -> Result<Option<Block>, Word> {
        if !self.send(&read_command(unit, address))? {
            return Ok(None);
        }
        let found = match self.hear()? {
            Some(reply) if is_of(&reply, DATA_IN) => block_in(reply.as_slice()),
            _ => return Ok(None),
        };
        match self.hear()? {
            Some(reply) if is_good(&reply) => Ok(found),
            _ => Ok(None),
        }
    }

    /// Whether the device takes the message.
    pub fn send<const N: usize>(&mut self, message: &[u8; N]) -> Result<bool, Word> {
        let message = Vec::from_slice(self.alloc, message)?;
        Ok(matches!(self.step(&Event::Host(message))?, Output::Host(Ok(_))))
    }

    /// The next reply, after as much work as it needs.
    pub fn hear(&mut self) -> Result<Option<Upiu>, Word> {
        for _ in 0..REPLY_ROUNDS {
            if let Output::Reply(Some(reply)) = self.step(&Event::Reply)? {
                return Ok(Some(reply));
            }
            self.work()?;
        }
        Ok(None)
    }
}

/// Whether the reply is of this kind.
pub(crate) fn is_of(reply: &Upiu, code: u8) -> bool {
    match reply.as_slice().first() {
        Some(first) => *first == code,
        None => false,
    }
}

/// Whether the reply is a RESPONSE with the status GOOD.
pub(crate) fn is_good(reply: &Upiu) -> bool {
    let bytes = reply.as_slice();
    is_of(reply, RESPONSE) && bytes.len() >= 32 && bytes[6] == 0 && bytes[7] == 0
}

// The COMMAND of a READ(10) of one block, with the tag 0 (JESD220, 10.7.1; SBC, READ (10)).
fn read_command(unit: u8, address: u32) -> [u8; 32] {
    let mut message = [0; 32];
    message[0] = COMMAND;
    message[1] = 0x40;
    message[2] = unit;
    message[14] = 0x10;
    message[16] = 0x28;
    write_u32(&mut message, 18, address);
    message[24] = 1;
    message
}
