//! The configuration of a device: numbers that have no fault.
ghost use Rattle.std.specs.Prelude.{◌≡◌, ◌<◌, ◌≤◌, ◌*◌, ◌==◌, ◌&&◌, slice_index_or, Some, None, length, count_by, sum, sum_by, IfOk, IfErr};
ghost use Rattle.std.specs.List.{list_all};
ghost use Rattle.ufs_spec.specs.Plain.{greatest_command, regions};
ghost use Rattle.ufs_spec.specs.Configs.{numbers_of, with_profile, is_between, unit_in_range, in_range, unit_blocks, pages_kept, blocks_needed, blocks_left, boot_count, command_blocks, config_fault, InRange, HasRoom, HasOneBootUnitEach};
ghost use Rattle.ufs_spec.specs.declared.faults.ConfigFault.TheVariants.{Range};

mod facts;

use arrayvec::ArrayVec;
use std::alloc::AllocError;
use std::marker::Model;
use ufs_spec::{ConfigFault, GREATEST_COMMAND, Numbers, UnitSpec};

/// With fewer slots than so many, a command has no more blocks than the next number.
const SLOTS_OF_LONG_COMMANDS: u16 = 256;

const SHORT_COMMAND: u16 = 32;

/// The profiles are 0 and 1.
const LAST_PROFILE: u8 = 1;

/// Numbers that are in their ranges, with blocks enough and no boot number twice.
#[derive(Drop)]
pub struct Config {
    numbers: Numbers,
}

impl Model for Config {
    ghost use Rattle.ufs_spec.specs.declared.configs.Numbers.{Numbers};
    ghost use Rattle.ufs_spec.specs.Configs.{IsConfig};

    ghost Value = { Numbers };

    ghost view = { λ c. c.numbers };

    ghost invariant = { λ c. IsConfig c.numbers };
}

impl Config {
    /// The configuration with these numbers: dies, blocks a die, pages a block, units, the area of each
    /// RPMB region in steps of 128 KiB, slots of the write cache, and blocks that may go bad. A region
    /// whose area has no step is not there; the first one always is.
    ///
    /// The lowest fault that applies is told: a number out of its range, too few blocks beside the
    /// spare ones, or a boot number that two units have. The device has profile 0 and serial number 1.
    pub fn new(
        dies: u8,
        blocks: u16,
        pages: u16,
        units: &[UnitSpec],
        rpmb: [u8; 4],
        slots: u16,
        spare: u16,
    ) -> Result<Config, ConfigFault>
        ensures accepted { let n = numbers_of dies blocks pages units.now rpmb slots spare in
            IfOk result (λ c. (c ≡ n) × (config_fault n ≡ None)) }
        ensures refused { let n = numbers_of dies blocks pages units.now rpmb slots spare in
            IfErr result (λ f. config_fault n ≡ Some f) }
    {
        let mut kept = ArrayVec::new();
        if kept.try_extend_from_slice(units).is_err() {
            return Err(ConfigFault::Range);
        }
        Config::of_numbers(Numbers {
            dies,
            blocks,
            pages,
            units: kept,
            rpmb,
            slots,
            spare,
            profile: 0,
            serial: 1,
        })
    }

    /// The same configuration for a device of this profile, 0 or 1, and with this serial number, which
    /// profile 1 alone tells. A profile above 1 is told as a number out of its range.
    pub fn with_profile(self, profile: u8, serial: u64) -> Result<Config, ConfigFault>
        ensures accepted { IfOk result (λ c. (c ≡ with_profile self profile serial) × (profile ≤ 1)) }
        ensures refused { IfErr result (λ f. (f ≡ Range) × (1 < profile)) }
    {
        if profile > LAST_PROFILE {
            return Err(ConfigFault::Range);
        }
        let mut numbers = self.numbers;
        numbers.profile = profile;
        numbers.serial = serial;
        Ok(Config { numbers })
    }

    #[tactic(auto, using(ufs_spec::proofs::ConfigFacts::ranges))]
    fn of_numbers(numbers: Numbers) -> Result<Config, ConfigFault>
        ensures accepted { IfOk result (λ c. (c ≡ numbers) × (config_fault numbers ≡ None)) }
        ensures refused { IfErr result (λ f. config_fault numbers ≡ Some f) }
    {
        if !are_in_range(&numbers) {
            return Err(ConfigFault::Range);
        }
        if blocks_left(&numbers) < blocks_needed(&numbers) {
            return Err(ConfigFault::TooLittleSpare);
        }
        if boot_count(&numbers, 1) > 1 || boot_count(&numbers, 2) > 1 {
            return Err(ConfigFault::TwoBootUnits);
        }
        Ok(Config { numbers })
    }

    /// The numbers.
    pub fn numbers(&self) -> &Numbers
        ensures value { result.now ≡ self.now }
        ensures ranges { InRange self.now }
        ensures room { HasRoom self.now }
        ensures boot_units { HasOneBootUnitEach self.now }
    {
        &self.numbers
    }

    /// How many blocks a command may have: 128 with 256 slots or more, else 32.
    pub fn command_blocks(&self) -> u16
        ensures { result ≡ command_blocks self.now }
    {
        command_blocks(&self.numbers)
    }

    /// The same configuration again; this takes no memory.
    pub fn copied(&self) -> Config
        ensures { result ≡ self.now }
    {
        Config {
            numbers: self.numbers.copied(),
        }
    }
}

impl Clone for Config {
    ghost is_clone = { λ c d. d ≡ c };

    fn clone(&self) -> Result<Config, AllocError> {
        Ok(self.copied())
    }
}

/// How many blocks a command may have in the configuration with these numbers: 128 with 256 slots or
/// more, else 32.
pub fn command_blocks(numbers: &Numbers) -> u16
    ensures is { result ≡ command_blocks numbers.now }
    ensures some { 32 ≤ result }
    ensures few { result ≤ greatest_command }
{
    if numbers.slots >= SLOTS_OF_LONG_COMMANDS {
        GREATEST_COMMAND
    } else {
        SHORT_COMMAND
    }
}

fn is_unit_in_range(unit: &UnitSpec) -> bool
    ensures { result ≡ unit_in_range unit.now }
{
    is_between(1, 2_097_152, unit.blocks.into())
        && is_between(0, 2, unit.boot.into())
        && is_between(0, 2, unit.protect.into())
}

fn are_in_range(numbers: &Numbers) -> bool
    ensures { result ≡ in_range numbers.now }
{
    is_between(1, 8, numbers.dies.into())
        && is_between(16, 1024, numbers.blocks.into())
        && is_between(16, 256, numbers.pages.into())
        && is_between(1, 8, numbers.units.len() as u64)
        && all_in_range(&numbers.units)
        && are_areas_in_range(&numbers.rpmb)
        && is_between(64, 1024, numbers.slots.into())
        && is_between(
            0,
            u64::from(numbers.dies) * u64::from(numbers.blocks),
            numbers.spare.into(),
        )
        && numbers.profile <= LAST_PROFILE
}

fn blocks_left(numbers: &Numbers) -> u64
    requires { InRange numbers.now }
    ensures { result ≡ blocks_left numbers.now }
{
    u64::from(numbers.dies) * u64::from(numbers.blocks) - u64::from(numbers.spare)
}

#[tactic(auto, using(ufs_spec::proofs::ConfigFacts::unit_blocks_bound, crate::proofs::Areas::sum_of_steps))]
fn blocks_needed(numbers: &Numbers) -> u64
    requires { InRange numbers.now }
    ensures { result ≡ blocks_needed numbers.now }
{
    let kept = sum_of_blocks(&numbers.units) + 32 * sum_of_steps(&numbers.rpmb) + 2;
    let pages = u64::from(numbers.pages);
    (kept + 4 * u64::from(numbers.slots)).div_ceil(pages) + 4 * u64::from(numbers.dies) + 8
}

fn boot_count(numbers: &Numbers, boot: u8) -> usize
    ensures { result ≡ boot_count boot numbers.now }
{
    count_of_boot(&numbers.units, boot)
}

fn is_between(low: u64, high: u64, number: u64) -> bool
    ensures { result ≡ is_between low high number }
{
    low <= number && number <= high
}

fn all_in_range(units: &[UnitSpec]) -> bool
    ensures { result ≡ list_all unit_in_range units.now }
{
    units.iter().all(|unit| is_unit_in_range(unit))
}

/// The first area has a step, and none has more than eight.
fn are_areas_in_range(areas: &[u8; 4]) -> bool
    ensures { let each = list_all (is_between 0 8) areas.now in
        result ≡ ((length areas.now == regions) && is_between 1 8 (slice_index_or areas.now 0 0) && each) }
{
    is_between(1, 8, areas[0].into()) && areas.iter().all(|steps| is_between(0, 8, (*steps).into()))
}

fn sum_of_blocks(units: &[UnitSpec]) -> u64
    requires { length units.now ≤ 8 }
    ensures { result ≡ sum_by (λ u. u.blocks) units.now }
{
    units.iter().map(|unit| u64::from(unit.blocks)).sum()
}

fn sum_of_steps(areas: &[u8; 4]) -> u64
    ensures sum { result ≡ sum areas.now }
    ensures small { result ≤ 1020 }
{
    let mut sum = 0;
    for steps in areas {
        sum += u64::from(*steps);
    }
    sum
}

fn count_of_boot(units: &[UnitSpec], boot: u8) -> usize
    ensures { result ≡ count_by (λ u. u.boot == boot) units.now }
{
    units.iter().filter(|unit| unit.boot == boot).count()
}
