//! The plain device that a life begins with, made of what was read.
ghost use Rattle.std.specs.Prelude.{◌≡◌, ◌<◌, ◌≤◌, IfNone, IfOk, IfSome, false, length, map, slice_set, true};
ghost use Rattle.ufs_spec.specs.Counting.{below};
ghost use Rattle.ufs_spec.specs.Plain.{new_region, region_of, regions, shape_of, shape_of_numbers, unit_of, with_region};
ghost use Rattle.ufs_spec.specs.declared.configs.Numbers.{Numbers};
ghost use Rattle.journal.specs.Shown.{AreAreas, AreUnits, IsArea, holding, holding_regions, region_found, regions_held};

use crate::found::{FoundRegion, FoundRest};
use crate::kept::area_bytes;
use std::alloc::Global;
use ufs_spec::{Block, NoMemory, Numbers, PlainDevice, UnitSpec};

/// A plain device that holds these blocks, unit by unit, these settings and these regions; `None` where a unit is
/// missing, one is too many, one has not its count of blocks, an area has not its count of bytes, or the boot setting
/// is none. A region that is not there stays new.
///
/// # Errors
///
/// `NoMemory` where there was none for the device.
pub fn device_holding(
    alloc: Global,
    numbers: &Numbers,
    blocks: &[Vec<Block>],
    rest: &FoundRest<'_>,
) -> Result<Option<PlainDevice>, NoMemory>
    ensures some { IfOk result (λ o. IfSome o (λ p.
        p ≡ holding numbers.now (map (λ v. v.items) blocks.now) rest.now)) }
    ensures shape { IfOk result (λ o. IfSome o (λ p. shape_of p ≡ shape_of_numbers numbers.now)) }
    ensures none { IfOk result (λ o. IfNone o (AreUnits numbers.now (map (λ v. v.items) blocks.now) →
        AreAreas numbers.now rest.now.regions → rest.now.boot ≤ 2 → ⊥)) }
{
    if rest.boot > 2 {
        return Ok(None);
    }
    match units_holding(alloc, numbers, blocks, &rest.regions)? {
        Some(plain) => Ok(Some(with_settings(plain, rest))),
        None => Ok(None),
    }
}

/// The same device with these settings.
fn with_settings(plain: PlainDevice, rest: &FoundRest<'_>) -> PlainDevice
    requires { rest.now.boot ≤ 2 }
    ensures settings { result ≡ record plain { boot = rest.now.boot; permanent = rest.now.is_permanent } }
    ensures shape { shape_of result ≡ shape_of plain }
{
    let mut plain = plain;
    plain.set_boot(rest.boot);
    plain.set_permanent(rest.is_permanent);
    plain
}

/// A plain device that holds these blocks and these regions, and is new in all else; `None` where a unit is missing,
/// one is too many, one has not its count of blocks, or an area has not its count of bytes.
fn units_holding(
    alloc: Global,
    numbers: &Numbers,
    blocks: &[Vec<Block>],
    regions: &[FoundRegion<'_>; 4],
) -> Result<Option<PlainDevice>, NoMemory>
    ensures some { IfOk result (λ o. IfSome o (λ p.
        p ≡ holding_regions numbers.now (map (λ v. v.items) blocks.now) regions.now)) }
    ensures shape { IfOk result (λ o. IfSome o (λ p. shape_of p ≡ shape_of_numbers numbers.now)) }
    ensures none { IfOk result (λ o. IfNone o (AreUnits numbers.now (map (λ v. v.items) blocks.now) →
        AreAreas numbers.now regions.now → ⊥)) }
{
    let specs = numbers.units.as_slice();
    if !are_units(specs, blocks) || !are_areas(numbers, regions) {
        return Ok(None);
    }
    let mut plain = PlainDevice::new(alloc, numbers)?;
    for (index, spec) in specs.iter().enumerate() {
        fill_unit(
            &mut plain,
            index as u8,
            spec.blocks,
            blocks[index].as_slice(),
        );
    }
    set_regions(&mut plain, numbers, regions);
    Ok(Some(plain))
}

/// Whether the whole area of each region that is there was found, if there is a key.
fn are_areas(numbers: &Numbers, regions: &[FoundRegion<'_>; 4]) -> bool
    ensures whole { result ≡ true → AreAreas numbers.now regions.now }
    ensures other { result ≡ false → AreAreas numbers.now regions.now → ⊥ }
{
    for (index, region) in regions.iter().enumerate() {
        let bytes = area_bytes(numbers, index as u8);
        if 0 < bytes && !is_area(region, bytes) {
            return false;
        }
    }
    true
}

/// Whether so many bytes of an area were found, if there is a key.
fn is_area(region: &FoundRegion<'_>, bytes: usize) -> bool
    ensures whole { result ≡ true → IfSome region.now.key (λ key. length region.now.area.now ≡ bytes) }
    ensures other { result ≡ false → IfSome region.now.key (λ key. length region.now.area.now ≡ bytes) → ⊥ }
{
    match region.key {
        Some(_) => region.area.len() == bytes,
        None => true,
    }
}

/// The regions of a device in which they are new become these, so far as they are there.
fn set_regions(plain: &mut PlainDevice, numbers: &Numbers, found: &[FoundRegion<'_>; 4])
    requires new { plain.old.regions ≡ map (new_region numbers.now) (below regions) }
    requires areas { AreAreas numbers.now found.now }
    ensures { plain.new ≡ record plain.old { regions = regions_held numbers.now 0 found.now } }
{
    for (index, region) in found.iter().enumerate() {
        let number = index as u8;
        if 0 < area_bytes(numbers, number) {
            set_region(plain, number, region);
        }
    }
}

/// A new region becomes this one.
fn set_region(plain: &mut PlainDevice, number: u8, region: &FoundRegion<'_>)
    requires numbered { number < regions }
    requires there { number < length plain.old.regions }
    requires new { (n : Numbers) × (region_of plain.old number ≡ new_region n number) × IsArea n number region.now }
    ensures { (n : Numbers) → region_of plain.old number ≡ new_region n number → IsArea n number region.now →
        plain.new ≡ with_region number (region_found n number region.now) plain.old }
{
    if region.key.is_some() {
        plain.set_area(number, 0, region.area);
    }
    plain.set_key(number, region.key);
    plain.set_counter(number, region.counter);
}

/// Whether there are as many units, each with its count of blocks.
fn are_units(specs: &[UnitSpec], blocks: &[Vec<Block>]) -> bool
    ensures all { result ≡ true → map length (map (λ v. v.items) blocks.now) ≡ map (λ u. u.blocks) specs.now }
    ensures other { result ≡ false → map length (map (λ v. v.items) blocks.now) ≡ map (λ u. u.blocks) specs.now → ⊥ }
{
    if specs.len() != blocks.len() {
        return false;
    }
    for (index, spec) in specs.iter().enumerate() {
        if blocks[index].len() != spec.blocks as usize {
            return false;
        }
    }
    true
}

/// Replaces all blocks of a unit.
fn fill_unit(plain: &mut PlainDevice, unit: u8, count: u32, blocks: &[Block])
    requires unit_in { unit < length plain.old.units }
    requires whole { count ≡ length (unit_of unit plain.old) }
    requires count { count ≡ length blocks.now }
    ensures { plain.new ≡ record plain.old { units = slice_set plain.old.units unit blocks.now } }
{
    for address in 0..count {
        plain.set_block(unit, address, &blocks[address as usize]);
    }
}
