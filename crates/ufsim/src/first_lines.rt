//! The first lines of a script: one `config`, one or more `unit`, and then `profile` or not. Of these
//! a device is made.
use crate::fault::{ScriptFault, Word};
use crate::image::Sizes;
use crate::lines::{Line, Lines};
use crate::words::{Words, expect, long_number, number};
use arrayvec::ArrayVec;
use device::World;
use geometry::Config;
use nand_model::MemDie;
use std::alloc::Global;
use ufs_spec::{RunFault, RunFaultKind, UnitSpec};

/// What the first lines say. A number that its field cannot hold stands there as the greatest that
/// it can, which no configuration has.
#[derive(Drop)]
pub(crate) struct FirstLines<'a> {
    pub dies: u8,
    blocks: u16,
    pages: u16,
    rpmb: [u8; 4],
    slots: u16,
    spare: u16,
    /// One unit more than a configuration may have is kept, and what comes after it is not.
    units: ArrayVec<UnitSpec, 9>,
    profile: u8,
    serial: u64,
    /// The last of the first lines.
    pub last: Line<'a>,
    /// The lines behind it.
    pub rest: Lines<'a>,
}

impl<'a> FirstLines<'a> {
    /// Reads the first lines of a script. The first fault is told.
    pub fn read(script: &'a [u8]) -> Result<FirstLines<'a>, ScriptFault> {
        let mut lines = Lines::new(script);
        let line = next_line(&mut lines)?;
        let mut first = line.told(FirstLines::read_config(line, lines))?;
        first.read_units()?;
        first.read_profile()?;
        Ok(first)
    }

    // Reads the `config` line, before these further ones.
    fn read_config(line: Line<'a>, rest: Lines<'a>) -> Result<FirstLines<'a>, Word> {
        let mut words = words_behind(line.bytes, b"config", 6)?;
        let dies = words.word()?;
        let blocks = words.word()?;
        let pages = words.word()?;
        let areas = words.word()?;
        expect_areas(areas)?;
        Ok(FirstLines {
            dies: byte_field(number(dies)?),
            blocks: short_field(number(blocks)?),
            pages: short_field(number(pages)?),
            rpmb: areas_in(areas)?,
            slots: short_field(words.number()?),
            spare: short_field(words.number()?),
            units: ArrayVec::new(),
            profile: 0,
            serial: 1,
            last: line,
            rest,
        })
    }

    fn read_units(&mut self) -> Result<(), ScriptFault> {
        let mut lines = self.rest;
        let mut line = next_line(&mut lines)?;
        loop {
            let unit = line.told(unit_numbers(line.bytes))?;
            self.add(unit);
            self.last = line;
            self.rest = lines;
            match lines.next() {
                Some(next) if is_named(next.bytes, b"unit") => line = next,
                _ => return Ok(()),
            }
        }
    }

    // Reads the line `profile`, if it is the next one. Without it a device has profile 0 and serial
    // number 1.
    fn read_profile(&mut self) -> Result<(), ScriptFault> {
        let mut lines = self.rest;
        match lines.next() {
            Some(line) if is_named(line.bytes, b"profile") => {
                let (profile, serial) = line.told(profile_numbers(line.bytes))?;
                self.profile = byte_field(profile);
                self.serial = serial;
                self.last = line;
                self.rest = lines;
                Ok(())
            }
            _ => Ok(()),
        }
    }

    fn add(&mut self, unit: [u32; 3]) {
        let [blocks, boot, protect] = unit;
        let _ = self.units.try_push(UnitSpec {
            blocks,
            boot: byte_field(boot),
            protect: byte_field(protect),
        });
    }

    /// The configuration of these lines: `Config` where it is refused.
    pub fn config(&self) -> Result<Config, Word> {
        let made = Config::new(
            self.dies,
            self.blocks,
            self.pages,
            self.units.as_slice(),
            self.rpmb,
            self.slots,
            self.spare,
        );
        match made.and_then(|config| config.with_profile(self.profile, self.serial)) {
            Ok(config) => Ok(config),
            Err(_) => Err(Word::Config),
        }
    }

    /// The device of these lines, over new dies: `Config` where it is refused, and `Memory` for
    /// want of memory.
    pub fn open(&self, alloc: Global) -> Result<World, Word> {
        let config = self.config()?;
        let dies = new_dies(alloc, self.dies, self.blocks, self.pages)?;
        open_on(alloc, config, dies)
    }

    /// The sizes of the dies of these lines.
    pub fn sizes(&self) -> Sizes {
        Sizes {
            dies: self.dies,
            blocks: self.blocks,
            pages: self.pages,
        }
    }
}

/// The device of this configuration over these dies: `Config` where it is refused, and `Memory` for
/// want of memory.
pub(crate) fn open_on(alloc: Global, config: Config, dies: Vec<MemDie>) -> Result<World, Word> {
    match World::new(alloc, config, dies) {
        Ok(world) => Ok(world),
        Err(fault) => Err(refused(&fault)),
    }
}

// The next of the first lines. One that is missing is the fault `word`.
fn next_line<'a>(lines: &mut Lines<'a>) -> Result<Line<'a>, ScriptFault> {
    match lines.next() {
        Some(line) => Ok(line),
        None => Err(lines.missing()),
    }
}

// The words of a line behind the first one, which is `name`. There are just `count` of them.
fn words_behind<'a>(line: &'a [u8], name: &[u8], count: usize) -> Result<Words<'a>, Word> {
    let mut words = Words::new(line);
    if !line.is_ascii() || words.word()? != name {
        return Err(Word::Word);
    }
    expect(words, count)?;
    Ok(words)
}

// The three numbers of a `unit` line.
fn unit_numbers(line: &[u8]) -> Result<[u32; 3], Word> {
    let mut words = words_behind(line, b"unit", 3)?;
    Ok([words.number()?, words.number()?, words.number()?])
}

// The two numbers of a `profile` line.
fn profile_numbers(line: &[u8]) -> Result<(u32, u64), Word> {
    let mut words = words_behind(line, b"profile", 2)?;
    Ok((words.number()?, long_number(words.word()?)?))
}

// `Word` unless a word is the area of region 0, or parts at its commas into four areas.
fn expect_areas(word: &[u8]) -> Result<(), Word> {
    let mut count = 0usize;
    for area in word.split(|byte| *byte == b',') {
        if area.is_empty() {
            return Err(Word::Word);
        }
        count = count.saturating_add(1);
    }
    match count {
        1 | 4 => Ok(()),
        _ => Err(Word::Word),
    }
}

// The areas of the regions in such a word: 0 for each that it does not name.
fn areas_in(word: &[u8]) -> Result<[u8; 4], Word> {
    let mut areas = [0; 4];
    for (place, digits) in areas.iter_mut().zip(word.split(|byte| *byte == b',')) {
        *place = byte_field(number(digits)?);
    }
    Ok(areas)
}

// Whether the first word of a line is this name.
fn is_named(line: &[u8], name: &[u8]) -> bool {
    match Words::new(line).next() {
        Some(word) => word == name,
        None => false,
    }
}

fn byte_field(number: u32) -> u8 {
    u8::try_from(number).unwrap_or(u8::MAX)
}

fn short_field(number: u32) -> u16 {
    u16::try_from(number).unwrap_or(u16::MAX)
}

// New dies of equal sizes.
fn new_dies(alloc: Global, dies: u8, blocks: u16, pages: u16) -> Result<Vec<MemDie>, Word> {
    let mut all = Vec::with_capacity(alloc, dies as usize)?;
    for _ in 0..dies {
        let die = MemDie::new(alloc, blocks, pages)?;
        all.push(die)?;
    }
    Ok(all)
}

// An opening that is refused for anything but memory is refused for its configuration.
fn refused(fault: &RunFault) -> Word {
    match fault.kind {
        RunFaultKind::NoMemory => Word::Memory,
        _ => Word::Config,
    }
}
