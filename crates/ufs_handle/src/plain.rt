//! What crosses to C as plain numbers and bytes.
ghost use Rattle.std.specs.Prelude.{◌≡◌, ◌≢◌, ◌<◌, ◌≤◌, IfErr, IfNone, IfOk, IfSome, None, Some, length, map};
ghost use Rattle.ufs_handle.specs.Plain.{IsOutcome, SaysLefts, SaysOutcome, config_numbers, left_number};
ghost use Rattle.ufs_handle.specs.Plain.{numbers_fault, plain_of, unit_of};

use crate::fault::Fault;
use crate::left::Left;
use arrayvec::ArrayVec;
use geometry::Config;
use ufs_spec::{Job, Outcome, Page, UnitSpec};

/// How many units a configuration has at most.
const MOST_UNITS: usize = 8;

/// The profiles are 0 and 1.
const LAST_PROFILE: u8 = 1;

/// The numbers of a configuration but for its units.
#[repr(C)]
#[derive(Clone, Copy)]
pub struct PlainConfig {
    pub dies: u8,
    pub blocks: u16,
    pub pages: u16,
    pub rpmb: [u8; 4],
    pub slots: u16,
    pub spare: u16,
    pub profile: u8,
    pub serial: u64,
}

/// A unit: its count of blocks, its boot number and how it is protected.
#[repr(C)]
#[derive(Clone, Copy)]
pub struct PlainUnit {
    pub blocks: u32,
    pub boot: u8,
    pub protect: u8,
}

/// A job of a die: its kind (1 a read, 2 a program, 3 an erase), its place, and the page of a
/// program.
#[repr(C)]
#[derive(Clone, Copy)]
pub struct PlainJob {
    pub kind: u8,
    pub die: u8,
    pub block: u16,
    pub page: u16,
    pub body: [u8; 4096],
    pub spare: [u8; 96],
}

impl PlainJob {
    /// Zeros, which are no job.
    pub(crate) fn blank() -> PlainJob {
        PlainJob {
            kind: 0,
            die: 0,
            block: 0,
            page: 0,
            body: [0; 4096],
            spare: [0; 96],
        }
    }

    /// It is this job from now on. The page of a read or an erase keeps the bytes that it had.
    pub fn set(&mut self, job: &Job)
        ensures { self.new ≡ plain_of job.now self.old }
    {
        match job {
            Job::Read(place) => {
                self.put(1, place.die, place.block, place.page);
            }
            Job::Program(place, page) => {
                self.put(2, place.die, place.block, place.page);
                self.body = page.body;
                self.spare = page.spare;
            }
            Job::Erase { die, block } => {
                self.put(3, *die, *block, 0);
            }
        }
    }

    fn put(&mut self, kind: u8, die: u8, block: u16, page: u16)
        ensures { self.new ≡ record self.old { kind = kind; die = die; block = block; page = page } }
    {
        self.kind = kind;
        self.die = die;
        self.block = block;
        self.page = page;
    }
}

/// The unit as the configuration has it.
fn unit_of(unit: &PlainUnit) -> UnitSpec
    ensures { result ≡ unit_of unit.now }
{
    UnitSpec {
        blocks: unit.blocks,
        boot: unit.boot,
        protect: unit.protect,
    }
}

/// The units as the configuration has them.
fn units_of(units: &[PlainUnit]) -> ArrayVec<UnitSpec, 8>
    requires { length units.now ≤ 8 }
    ensures { result.items ≡ map unit_of units.now }
{
    let mut kept = ArrayVec::new();
    for unit in units {
        kept.push(unit_of(unit));
    }
    kept
}

/// The configuration with these numbers and units.
///
/// # Errors
///
/// `Range`, also of a profile above 1, `TooLittleSpare` or `TwoBootUnits`, as `Config::new` tells
/// them: the first that applies.
#[tactic(auto, using(crate::proofs::Profiles::no_such_profile, crate::proofs::Profiles::same_faults, crate::proofs::Profiles::too_many_units))]
pub fn config_of(plain: &PlainConfig, units: &[PlainUnit]) -> Result<Config, Fault>
    ensures made { IfOk result (λ c. c ≡ config_numbers plain.now units.now) }
    ensures right { IfOk result (λ c. numbers_fault plain.now units.now ≡ None) }
    ensures refused { IfErr result (λ f. numbers_fault plain.now units.now ≡ Some f) }
{
    if units.len() > MOST_UNITS || plain.profile > LAST_PROFILE {
        return Err(Fault::Range);
    }
    let kept = units_of(units);
    let made = Config::new(
        plain.dies,
        plain.blocks,
        plain.pages,
        kept.as_slice(),
        plain.rpmb,
        plain.slots,
        plain.spare,
    )?;
    Ok(made.with_profile(plain.profile, plain.serial)?)
}

/// How a job ended: 0 a read with this page of 4192 bytes, 1 a read that failed, 2 a program or an
/// erase that is done, 3 one that failed. `None` where it is none of these, or the page of a read
/// has another length.
pub fn outcome_of(kind: u8, page: &[u8]) -> Option<Outcome>
    ensures some { IfSome result (IsOutcome kind page.now) }
    ensures says { IfSome result (λ outcome. SaysOutcome kind page.now) }
    ensures none { IfNone result (SaysOutcome kind page.now → ⊥) }
{
    match kind {
        0 => read_of(page),
        1 => Some(Outcome::ReadFailed),
        2 => Some(Outcome::Done),
        3 => Some(Outcome::Failed),
        _ => None,
    }
}

/// A read that found this page.
fn read_of(bytes: &[u8]) -> Option<Outcome>
    ensures some { IfSome result (IsOutcome 0 bytes.now) }
    ensures none { IfNone result (length bytes.now ≢ 4192) }
{
    if bytes.len() != 4192 {
        return None;
    }
    let mut page = Page {
        body: [0; 4096],
        spare: [0; 96],
    };
    let (body, spare) = bytes.split_at(4096);
    page.body.copy_from_slice(body);
    page.spare.copy_from_slice(spare);
    Some(Outcome::Read(page))
}

/// What is left where a stop says so by these numbers: `None` where a number says nothing, or they
/// are more than there may be dies.
pub fn lefts_of(numbers: &[u8]) -> Option<ArrayVec<Left, 256>>
    ensures some { IfSome result (λ lefts. map left_number lefts.items ≡ numbers.now) }
    ensures says { IfSome result (λ lefts. SaysLefts numbers.now) }
    ensures none { IfNone result (SaysLefts numbers.now → ⊥) }
{
    if numbers.len() > 256 {
        return None;
    }
    let mut lefts = ArrayVec::new();
    for number in numbers {
        lefts.push(Left::of(*number)?);
    }
    Some(lefts)
}
