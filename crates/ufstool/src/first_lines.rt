//! The first lines of a script: the numbers of its device.
ghost use Rattle.std.specs.Prelude.{◌≡◌, sum};

use crate::cause::{Cause, Range};
use crate::lines::{Words, first_word, long_number, number, numbers_in};
use std::fmt;

const CONFIG: &str = "config DIES BLOCKS PAGES RPMB SLOTS SPARE";

const UNIT: &str = "unit BLOCKS BOOT PROTECT";

const PROFILE: &str = "profile PROFILE SERIAL";

/// The numbers of a `config` line.
#[derive(Clone, Copy)]
pub struct ConfigLine {
    pub dies: u32,
    pub blocks: u32,
    pub pages: u32,
    /// The area of each RPMB region, in steps of 128 KiB; 0 if the region is not there.
    pub rpmb: [u32; 4],
    pub slots: u32,
    pub spare: u32,
}

/// The numbers of a `unit` line.
#[derive(Clone, Copy)]
pub struct UnitLine {
    pub blocks: u32,
    pub boot: u32,
    pub protect: u32,
}

/// The numbers of a `profile` line.
#[derive(Clone, Copy)]
pub struct ProfileLine {
    profile: u32,
    serial: u64,
}

/// What the `unit` lines that were read so far add up to.
#[derive(Clone, Copy, Default)]
pub struct UnitSum {
    pub count: u32,
    blocks: u64,
    first_boots: u32,
    second_boots: u32,
}

impl ConfigLine {
    /// Reads a `config` line, and sees that each of its numbers is in its range.
    pub fn read(line: &str) -> Result<ConfigLine, Cause<'_>> {
        if first_word(line) != "config" {
            return Err(Cause::Missing(CONFIG));
        }
        let mut words = Words::new(line, 7, CONFIG)?;
        let _name = words.word();
        let config = ConfigLine {
            dies: words.number()?,
            blocks: words.number()?,
            pages: words.number()?,
            rpmb: regions_in(words.word())?,
            slots: words.number()?,
            spare: words.number()?,
        };
        config.check_ranges()?;
        Ok(config)
    }

    // The ranges of docs/FORMATS.md, "Configuration".
    fn check_ranges(&self) -> Result<(), Cause<'static>> {
        let blocks = self.dies.saturating_mul(self.blocks);
        let [first, second, third, fourth] = self.rpmb;
        keep_ranges(&[
            range("dies", self.dies, 1, 8),
            range("blocks of a die", self.blocks, 16, 1024),
            range("pages of a block", self.pages, 16, 256),
            range("steps of 128 KiB of RPMB region 0", first, 1, 8),
            range("steps of 128 KiB of RPMB region 1", second, 0, 8),
            range("steps of 128 KiB of RPMB region 2", third, 0, 8),
            range("steps of 128 KiB of RPMB region 3", fourth, 0, 8),
            range("slots of the write cache", self.slots, 64, 1024),
            range("spare blocks", self.spare, 0, blocks),
        ])
    }

    /// Sees that the dies have blocks enough for these units: what is needed is the blocks of the
    /// units, 32 for each step of the RPMB regions, two more and four times the slots, in pages; and
    /// four blocks for each die and eight more (docs/FORMATS.md, "Configuration").
    pub fn check_room(&self, units: &UnitSum) -> Result<(), Cause<'static>> {
        let areas = self.region_steps().saturating_mul(32);
        let kept = units
            .blocks
            .saturating_add(areas)
            .saturating_add(u64::from(self.slots) * 4 + 2);
        let pages = u64::from(self.pages).max(1);
        let needed = kept
            .div_ceil(pages)
            .saturating_add(u64::from(self.dies) * 4 + 8);
        let blocks = u64::from(self.dies) * u64::from(self.blocks);
        let left = blocks.saturating_sub(u64::from(self.spare));
        if needed <= left {
            Ok(())
        } else {
            Err(Cause::Room { needed, left })
        }
    }

    // How many steps of 128 KiB all RPMB regions have.
    fn region_steps(&self) -> u64
        ensures { result ≡ sum self.now.rpmb }
    {
        let [first, second, third, fourth] = self.rpmb;
        u64::from(first) + u64::from(second) + u64::from(third) + u64::from(fourth)
    }
}

// The sizes of the RPMB regions: one number, where only region 0 is there, or four with commas.
fn regions_in(word: &str) -> Result<[u32; 4], Cause<'_>> {
    match word.bytes().filter(|byte| *byte == b',').count() {
        0 => Ok([number(word)?, 0, 0, 0]),
        3 => four_in(word),
        _ => Err(Cause::Regions(word)),
    }
}

// The numbers of the four parts of a word that three commas part.
fn four_in(word: &str) -> Result<[u32; 4], Cause<'_>> {
    let mut rest = word;
    let mut sizes = [0; 4];
    for region in 0..4usize {
        let (size, more) = first_part(rest);
        if size.is_empty() {
            return Err(Cause::Regions(word));
        }
        sizes[region] = number(size)?;
        rest = more;
    }
    Ok(sizes)
}

// What comes before the first comma, and what comes behind it.
fn first_part(text: &str) -> (&str, &str) {
    match text.split_once(',') {
        Some(parts) => parts,
        None => (text, ""),
    }
}

impl UnitLine {
    /// Reads a `unit` line, and sees that each of its numbers is in its range.
    pub fn read(line: &str) -> Result<UnitLine, Cause<'_>> {
        if first_word(line) != "unit" {
            return Err(Cause::Missing(UNIT));
        }
        let [blocks, boot, protect] = numbers_in::<3>(line, UNIT)?;
        keep_ranges(&[
            range("blocks of a unit", blocks, 1, 2_097_152),
            range("boot number", boot, 0, 2),
            range("protection", protect, 0, 2),
        ])?;
        Ok(UnitLine {
            blocks,
            boot,
            protect,
        })
    }
}

impl ProfileLine {
    /// Reads a `profile` line, and sees that the profile is 0 or 1.
    pub fn read(line: &str) -> Result<ProfileLine, Cause<'_>> {
        let mut words = Words::new(line, 3, PROFILE)?;
        let _name = words.word();
        let profile = words.number()?;
        let serial = long_number(words.word())?;
        keep_ranges(&[range("profile", profile, 0, 1)])?;
        Ok(ProfileLine { profile, serial })
    }
}

impl UnitSum {
    /// Adds a unit. There are at most eight, and no two have the same boot number but 0.
    pub fn add(&mut self, unit: &UnitLine) -> Result<(), Cause<'static>> {
        self.count = self.count.saturating_add(1);
        self.blocks = self.blocks.saturating_add(u64::from(unit.blocks));
        if unit.boot == 1 {
            self.first_boots = self.first_boots.saturating_add(1);
        }
        if unit.boot == 2 {
            self.second_boots = self.second_boots.saturating_add(1);
        }
        keep_ranges(&[range("units", self.count, 1, 8)])
    }

    /// Sees that no two units have the same boot number.
    pub fn check_boots(&self) -> Result<(), Cause<'static>> {
        if self.first_boots > 1 {
            return Err(Cause::BootTwice(1));
        }
        if self.second_boots > 1 {
            return Err(Cause::BootTwice(2));
        }
        Ok(())
    }
}

// Sees that each number is in its range. The first that is not is told.
fn keep_ranges(ranges: &[Range]) -> Result<(), Cause<'static>> {
    for range in ranges {
        if !range.is_kept() {
            return Err(Cause::Range(*range));
        }
    }
    Ok(())
}

/// A number, and what it has to be.
pub fn range(name: &'static str, number: u32, low: u32, high: u32) -> Range {
    Range {
        name,
        number,
        low,
        high,
    }
}

/// The cause of a missing first line: a script without any `unit` line, or without all.
pub fn missing_line(has_config: bool) -> Cause<'static> {
    Cause::Missing(if has_config { UNIT } else { CONFIG })
}

impl fmt::Display for ConfigLine {
    fn fmt<W: fmt::Write>(&self, f: &mut fmt::Formatter<W>) -> fmt::Result {
        let ConfigLine {
            dies,
            blocks,
            pages,
            rpmb,
            slots,
            spare,
        } = *self;
        let noun = if dies == 1 { "die" } else { "dies" };
        write!(f, "{dies} {noun} of {blocks} blocks of {pages} pages")?;
        write_regions(f, &rpmb)?;
        let noun = if spare == 1 { "block" } else { "blocks" };
        write!(f, ", a write cache of {slots} blocks, {spare} spare {noun}")
    }
}

// Each RPMB region that is there, with its size.
fn write_regions<W: fmt::Write>(f: &mut fmt::Formatter<W>, rpmb: &[u32; 4]) -> fmt::Result {
    for (region, steps) in rpmb.iter().enumerate() {
        let size = u64::from(*steps) * 128;
        if size > 0 {
            write!(f, ", {size} KiB for RPMB region {region}")?;
        }
    }
    Ok(())
}

impl fmt::Display for UnitLine {
    fn fmt<W: fmt::Write>(&self, f: &mut fmt::Formatter<W>) -> fmt::Result {
        let blocks = self.blocks;
        let size = u64::from(blocks) * 4;
        let boot = match self.boot {
            1 => "boot unit A",
            2 => "boot unit B",
            _ => "no boot unit",
        };
        let protect = match self.protect {
            1 => "protected by fPowerOnWPEn",
            2 => "protected by fPermanentWPEn",
            _ => "never protected",
        };
        let noun = if blocks == 1 { "block" } else { "blocks" };
        write!(
            f,
            "a unit of {blocks} {noun} ({size} KiB), {boot}, {protect}"
        )
    }
}

impl fmt::Display for ProfileLine {
    fn fmt<W: fmt::Write>(&self, f: &mut fmt::Formatter<W>) -> fmt::Result {
        let ProfileLine { profile, serial } = *self;
        write!(f, "profile {profile}, serial number {serial}")
    }
}
