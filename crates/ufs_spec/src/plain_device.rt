//! A device as plain arrays: slow, and exact by its definition. Tests compare with it.
ghost use Rattle.std.specs.Prelude.{◌≡◌, ◌+◌, ◌*◌, ◌<◌, ◌≤◌, List, [], ◌∷◌, ◌++◌, length, replicate, map, All, IfOk};
ghost use Rattle.ufs_spec.specs.Commands.{Command, RpmbWrite, command_of};
ghost use Rattle.ufs_spec.specs.Plain.{Plain, zero_block, zero_area, area_len, new_region, zero, with_part, unit_of, block_at, with_blocks, region_of, with_region, changed_by, counter_end, apply, after, shape_of, shape_of_numbers, LiesWithin, CanApply};
ghost use Rattle.ufs_spec.specs.PlainRegions.{region_seen};
ghost use Rattle.ufs_spec.specs.Counting.{below};
ghost use Rattle.ufs_spec.specs.Plain.{regions};

use crate::codes::REGIONS;
use crate::commands::Cmd;
use crate::configs::{Numbers, UnitSpec};
use crate::faults::NoMemory;
use std::alloc::{AllocError, Global};
use std::marker::Model;
use ufs_bytes::Block;

/// What a device holds: the blocks of each unit, the boot setting, permanent protection, and of
/// each RPMB region the key, the area and the counter (JESD220, 10.8 and 12.4). Only `new` takes
/// memory.
#[derive(Drop)]
pub struct PlainDevice {
    units: Vec<Vec<Block>>,
    boot: u8,
    permanent: bool,
    regions: Vec<PlainRegion>,
}

/// An RPMB region: its key, once it is programmed, the bytes of its area, and its write counter.
#[derive(Drop)]
struct PlainRegion {
    key: Option<[u8; 32]>,
    area: Vec<u8>,
    counter: u32,
}

impl Model for PlainDevice {
    ghost use Rattle.std.specs.Prelude.{◌≤◌, map};
    ghost use Rattle.ufs_spec.specs.Plain.{Plain};
    ghost use Rattle.ufs_spec.specs.PlainRegions.{AreRegions, region_seen};

    ghost Value = { Plain };

    ghost view = { λ d.
        record {
          units = map (λ blocks. blocks.items) d.units.items;
          boot = d.boot;
          permanent = d.permanent;
          regions = map region_seen d.regions.items;
        } };

    ghost invariant = { λ d. (d.boot ≤ 2) × AreRegions d.regions.items };
}

impl PlainDevice {
    /// A new device with these numbers: all blocks and RPMB areas are zeros, no key is programmed.
    pub fn new(alloc: Global, numbers: &Numbers) -> Result<PlainDevice, NoMemory>
        ensures { IfOk result (λ d. d ≡ zero numbers.now) }
    {
        Ok(PlainDevice {
            units: zero_units(alloc, &numbers.units)?,
            boot: 0,
            permanent: false,
            regions: new_regions(alloc, numbers)?,
        })
    }

    /// Does the command, which must lie within what the device holds. An RPMB write must find the
    /// counter below FFFFFFFFh.
    pub fn apply(&mut self, command: &Cmd)
        requires { CanApply self.old (command_of command.now) }
        ensures { self.new ≡ apply self.old (command_of command.now) }
    {
        match command {
            Cmd::Write {
                unit,
                address,
                blocks,
            } => self.set_blocks(*unit, *address, blocks),
            Cmd::Zero {
                unit,
                address,
                count,
            } => self.set_zeros(*unit, *address, *count),
            Cmd::SetKey { region, key } => self.set_key(*region, Some(*key)),
            Cmd::RpmbWrite {
                region,
                address,
                bytes,
            } => self.write_area(*region, *address, bytes),
            Cmd::SetBoot(boot) => self.set_boot(*boot),
            Cmd::SetPermanent => self.set_permanent(true),
        }
    }

    /// The block at an address of a unit.
    pub fn block(&self, unit: u8, address: u32) -> &Block
        requires unit_in { unit < length self.now.units }
        requires address_in { address < length (unit_of unit self.now) }
        ensures { result.now ≡ block_at unit address self.now }
    {
        &self.units[unit as usize][address as usize]
    }

    /// Replaces one block.
    pub fn set_block(&mut self, unit: u8, address: u32, block: &Block)
        requires unit_in { unit < length self.old.units }
        requires address_in { address < length (unit_of unit self.old) }
        ensures { self.new ≡ with_blocks unit address (block.now ∷ []) self.old }
    {
        self.units[unit as usize][address as usize] = *block;
    }

    fn set_blocks(&mut self, unit: u8, address: u32, blocks: &[Block])
        requires unit_in { unit < length self.old.units }
        requires blocks_in { address + length blocks.now ≤ length (unit_of unit self.old) }
        ensures { self.new ≡ with_blocks unit address blocks.now self.old }
    {
        let stored = &mut self.units[unit as usize];
        replace(stored, address as usize, blocks);
    }

    fn set_zeros(&mut self, unit: u8, address: u32, count: u8)
        requires unit_in { unit < length self.old.units }
        requires blocks_in { address + count ≤ length (unit_of unit self.old) }
        ensures { self.new ≡ with_blocks unit address (replicate count zero_block) self.old }
    {
        let stored = &mut self.units[unit as usize];
        replace_by_zeros(stored, address as usize, usize::from(count));
    }

    fn write_area(&mut self, region: u8, address: u16, bytes: &[u8])
        requires region_in { region < regions }
        requires bytes_in { 256 * address + length bytes.now
            ≤ length (region_of self.old region).area }
        requires below_end { (region_of self.old region).counter < counter_end }
        ensures { self.new ≡ with_region region
            (changed_by (region_of self.old region) (RpmbWrite region address bytes.now)) self.old }
    {
        let stored = &mut self.regions[region as usize];
        replace(&mut stored.area, 256 * usize::from(address), bytes);
        stored.counter += 1;
    }

    /// The boot setting.
    pub fn boot(&self) -> u8
        ensures value { result ≡ self.now.boot }
        ensures range { result ≤ 2 }
    {
        self.boot
    }

    /// Replaces the boot setting.
    pub fn set_boot(&mut self, boot: u8)
        requires { boot ≤ 2 }
        ensures { self.new ≡ record self.old { boot = boot } }
    {
        self.boot = boot;
    }

    /// Whether permanent protection is on.
    pub fn permanent(&self) -> bool
        ensures { result ≡ self.now.permanent }
    {
        self.permanent
    }

    /// Turns permanent protection on or off.
    pub fn set_permanent(&mut self, permanent: bool)
        ensures { self.new ≡ record self.old { permanent = permanent } }
    {
        self.permanent = permanent;
    }

    /// The key of an RPMB region, if one is programmed.
    pub fn key(&self, region: u8) -> Option<[u8; 32]>
        requires { region < regions }
        ensures { result ≡ (region_of self.now region).key }
    {
        self.regions[region as usize].key
    }

    /// Replaces the key of an RPMB region.
    pub fn set_key(&mut self, region: u8, key: Option<[u8; 32]>)
        requires { region < regions }
        ensures { self.new ≡ with_region region (record (region_of self.old region) { key = key }) self.old }
    {
        self.regions[region as usize].key = key;
    }

    /// The bytes of the area of an RPMB region.
    pub fn area(&self, region: u8) -> &[u8]
        requires { region < regions }
        ensures { result.now ≡ (region_of self.now region).area }
    {
        self.regions[region as usize].area.as_slice()
    }

    /// Replaces the bytes of the area of an RPMB region from an offset on.
    pub fn set_area(&mut self, region: u8, offset: usize, bytes: &[u8])
        requires region_in { region < regions }
        requires bytes_in { offset + length bytes.now ≤ length (region_of self.old region).area }
        ensures { let old = region_of self.old region in self.new
            ≡ with_region region (record old { area = with_part offset bytes.now old.area }) self.old }
    {
        let stored = &mut self.regions[region as usize];
        replace(&mut stored.area, offset, bytes);
    }

    /// The write counter of an RPMB region.
    pub fn counter(&self, region: u8) -> u32
        requires { region < regions }
        ensures { result ≡ (region_of self.now region).counter }
    {
        self.regions[region as usize].counter
    }

    /// Replaces the write counter of an RPMB region.
    pub fn set_counter(&mut self, region: u8, counter: u32)
        requires { region < regions }
        ensures { self.new
            ≡ with_region region (record (region_of self.old region) { counter = counter }) self.old }
    {
        self.regions[region as usize].counter = counter;
    }
}

#[tactic(auto, unfolding(crate::specs::Plain::zero_block))]
fn zero_block() -> Block
    ensures { result ≡ zero_block }
{
    [0; 4096]
}

fn zero_units(alloc: Global, specs: &[UnitSpec]) -> Result<Vec<Vec<Block>>, AllocError>
    ensures { IfOk result (λ v. map (λ blocks. blocks.items) v.items
        ≡ map (λ u. replicate u.blocks zero_block) specs.now) }
{
    let mut units = Vec::new(alloc);
    for unit in specs {
        units.push(zero_blocks(alloc, unit.blocks)?)?;
    }
    Ok(units)
}

fn zero_blocks(alloc: Global, count: u32) -> Result<Vec<Block>, AllocError>
    ensures { IfOk result (λ v. v.items ≡ replicate count zero_block) }
{
    let mut blocks = Vec::new(alloc);
    blocks.resize(count as usize, zero_block())?;
    Ok(blocks)
}

fn new_regions(alloc: Global, numbers: &Numbers) -> Result<Vec<PlainRegion>, AllocError>
    ensures { IfOk result (λ v. map region_seen v.items ≡ map (new_region numbers.now) (below regions)) }
{
    let mut found = Vec::new(alloc);
    for region in 0..REGIONS {
        found.push(PlainRegion {
            key: None,
            area: zero_area(alloc, numbers, region)?,
            counter: 0,
        })?;
    }
    Ok(found)
}

#[tactic(auto, unfolding(crate::specs::Plain::zero_area))]
fn zero_area(alloc: Global, numbers: &Numbers, region: u8) -> Result<Vec<u8>, AllocError>
    requires { region < regions }
    ensures { IfOk result (λ v. v.items ≡ zero_area numbers.now region) }
{
    let mut area = Vec::new(alloc);
    area.resize(131_072 * usize::from(numbers.rpmb[region as usize]), 0)?;
    Ok(area)
}

fn replace<T: Copy>(stored: &mut [T], at: usize, new: &[T])
    requires { at + length new.now ≤ length stored.old }
    ensures { stored.new ≡ with_part at new.now stored.old }
{
    stored[at..at + new.len()].copy_from_slice(new);
}

fn replace_by_zeros(stored: &mut [Block], at: usize, count: usize)
    requires { at + count ≤ length stored.old }
    ensures { stored.new ≡ with_part at (replicate count zero_block) stored.old }
{
    fill_with_zeros(&mut stored[at..at + count]);
}

fn fill_with_zeros(blocks: &mut [Block])
    ensures { blocks.new ≡ replicate (length blocks.old) zero_block }
{
    for block in blocks.iter_mut() {
        *block = zero_block();
    }
}

/// What two lists of commands leave, one after the other, is what the joined list leaves.
pub fn after_joined_commands()
    ensures { (p : Plain) (xs ys : List Command) → after p (xs ++ ys) ≡ after (after p xs) ys }
{}

/// A command changes neither the counts of units and blocks nor the lengths of the RPMB areas.
pub fn commands_keep_the_shape()
    ensures new_device { (n : Numbers) → shape_of (zero n) ≡ shape_of_numbers n }
    ensures one { (p : Plain) (c : Command) → LiesWithin (shape_of p) c → shape_of (apply p c) ≡ shape_of p }
    ensures many { (p : Plain) (cs : List Command) → All (LiesWithin (shape_of p)) cs
        → shape_of (after p cs) ≡ shape_of p }
{}
