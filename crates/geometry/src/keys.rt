//! The keys of a device in order, each with its index.
ghost use Rattle.std.specs.Prelude.{◌≡◌, ◌↔◌, ℕ, ◌+◌, ◌*◌, ◌/◌, ◌<◌, ◌≤◌, ◌^◌, IfSome, MatchOption, length, map, sum, take, slice_index_or};
ghost use Rattle.ufs_spec.specs.Keys.{IsKey, area_pages, region_pages};
ghost use Rattle.ufs_spec.specs.Openings.{IsBefore};
ghost use Rattle.ufs_spec.specs.Plain.{shape_of_numbers};
ghost use Rattle.ufs_spec.specs.Plain.{regions};
ghost use Rattle.ufs_spec.specs.declared.configs.UnitSpec.{UnitSpec};
ghost use Rattle.ufs_spec.specs.declared.flash.Key.{Key};
ghost use Rattle.geometry.specs.Keys.{IsIndex, index_of, key_total};

use ufs_spec::{Key, Numbers, Tag, UnitSpec};

/// How many pages 128 KiB of an RPMB area have.
const PAGES_A_STEP: usize = 32;

/// How many keys a device with these numbers has.
pub fn key_count(numbers: &Numbers) -> usize
    ensures count { result ≡ key_total (shape_of_numbers numbers.now) }
    ensures small { result ≤ 2 ^ 36 }
{
    settings_index(numbers) + 1
}

/// The index of the settings, which stand last.
pub fn settings_index(numbers: &Numbers) -> usize
    ensures value { let s = shape_of_numbers numbers.now in result ≡ sum s.blocks + area_pages s }
    ensures small { result < 2 ^ 36 }
{
    block_count(numbers.units.as_slice()) + page_count(&numbers.rpmb)
}

/// How many pages RPMB areas of so many steps have together.
fn page_count(areas: &[u8]) -> usize
    requires { length areas.now ≤ regions }
    ensures count { result ≡ sum (map (λ steps. 32 * steps) areas.now) }
    ensures small { result < 2 ^ 15 }
{
    let mut count = 0;
    for steps in areas {
        count += PAGES_A_STEP * usize::from(*steps);
    }
    count
}

/// How many blocks the units have together.
fn block_count(units: &[UnitSpec]) -> usize
    requires { length units.now ≤ 8 }
    ensures count { result ≡ sum (map (λ (u : UnitSpec). u.blocks) units.now) }
    ensures small { result ≤ 2 ^ 35 }
{
    let mut count = 0;
    for unit in units {
        count += unit.blocks as usize;
    }
    count
}

/// The index of the key among the keys of the device, which stand by kind, then by unit, then by
/// address; `None` if the device has not this key.
pub fn key_index(numbers: &Numbers, key: Key) -> Option<usize>
    ensures is { let s = shape_of_numbers numbers.now in
        MatchOption result (IsKey s key → ⊥) (λ i. IsIndex s key i) }
    ensures known { let s = shape_of_numbers numbers.now in
        IfSome result (λ i. IsKey s key × (i < key_total s)) }
    ensures order { let s = shape_of_numbers numbers.now in
        IfSome result (λ i. (other : Key) (j : ℕ) → IsIndex s other j →
        (i < j) ↔ IsBefore key other) }
    ensures value { result ≡ index_of (shape_of_numbers numbers.now) key }
{
    match key.kind {
        Tag::DATA => data_index(numbers.units.as_slice(), key.unit, key.address),
        Tag::RPMB_AREA => area_index(numbers, key.unit, key.address),
        Tag::SETTINGS if key.unit == 0 && key.address == 0 => Some(settings_index(numbers)),
        _ => None,
    }
}

/// The index of a block of a unit; `None` if the unit is not there or is smaller.
fn data_index(units: &[UnitSpec], unit: u8, address: u32) -> Option<usize>
    requires { length units.now ≤ 8 }
    ensures { let blocks = map (λ (u : UnitSpec). u.blocks) units.now in
        MatchOption result
        ((unit < length blocks) → (address < slice_index_or blocks unit 0) → ⊥)
        (λ i. (unit < length blocks) × (address < slice_index_or blocks unit 0)
        × (i ≡ sum (take unit blocks) + address)) }
{
    let unit = unit as usize;
    if unit >= units.len() || address >= units[unit].blocks {
        return None;
    }
    Some(block_count(&units[..unit]) + address as usize)
}

/// The index of a page of an RPMB area; `None` if the region is not there or its area is smaller.
fn area_index(numbers: &Numbers, region: u8, page: u32) -> Option<usize>
    ensures { let s = shape_of_numbers numbers.now in
        MatchOption result
        (region < regions → page < slice_index_or (region_pages s) region 0 → ⊥)
        (λ i. (region < regions) × (page < slice_index_or (region_pages s) region 0)
        × (i ≡ sum s.blocks + sum (take region (region_pages s)) + page)) }
{
    let areas: &[u8] = &numbers.rpmb;
    let region = region as usize;
    if region >= areas.len() || page as usize >= PAGES_A_STEP * areas[region] as usize {
        return None;
    }
    let start = block_count(numbers.units.as_slice()) + page_count(&areas[..region]);
    Some(start + page as usize)
}

/// The key at an index.
pub fn key_at(numbers: &Numbers, index: usize) -> Key
    requires { index < key_total (shape_of_numbers numbers.now) }
    ensures { IsIndex (shape_of_numbers numbers.now) result index }
{
    let mut rest = index;
    for (unit, spec) in numbers.units.as_slice().iter().enumerate() {
        let blocks = spec.blocks as usize;
        if rest < blocks {
            return Key {
                kind: Tag::DATA,
                unit: unit as u8,
                address: rest as u32,
            };
        }
        rest -= blocks;
    }
    key_behind_units(numbers, rest)
}

/// The key at an index, counted from behind the blocks of all units.
fn key_behind_units(numbers: &Numbers, index: usize) -> Key
    requires { index < area_pages (shape_of_numbers numbers.now) + 1 }
    ensures { let s = shape_of_numbers numbers.now in IsIndex s result (sum s.blocks + index) }
{
    let mut rest = index;
    for (region, steps) in numbers.rpmb.iter().enumerate() {
        let pages = PAGES_A_STEP * usize::from(*steps);
        if rest < pages {
            return Key {
                kind: Tag::RPMB_AREA,
                unit: region as u8,
                address: rest as u32,
            };
        }
        rest -= pages;
    }
    Key {
        kind: Tag::SETTINGS,
        unit: 0,
        address: 0,
    }
}
