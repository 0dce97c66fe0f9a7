//! Whether what a device shows is what a plain device may hold after a prefix of a life's entries.
ghost use Rattle.std.specs.Prelude.{◌≡◌, ◌+◌, ◌*◌, ◌^◌, ◌<◌, ◌≤◌, ◌↔◌, ℕ, IfErr, IfNone, IfSome, IsOk, None, false, length};
ghost use Rattle.std.specs.Prelude.{map, slice_get, slice_index_or, Some, take, true};
ghost use Rattle.ufs_spec.specs.Commands.{command_of};
ghost use Rattle.ufs_spec.specs.Plain.{CanApply, FindsCounter, FitsIn, HasRegion, IsAreaPart, LiesWithin, Plain, apply};
ghost use Rattle.ufs_spec.specs.Plain.{area_len, block_at, greatest_command, region_of, regions, shape_of, shape_of_numbers};
ghost use Rattle.ufs_spec.specs.Plain.{unit_of};
ghost use Rattle.journal.specs.Entries.{CanCome, CanFollow, IsAfter, noted_of, surely};
ghost use Rattle.journal.specs.Shown.{IsShownAt, MayShow, OfEach, Shows, ShowsAll, ShowsArea, ShowsKey, ShowsRegions};

use crate::entries::Entry;
use crate::found::{FoundRegion, FoundRest};
use crate::settings::ShownSettings;
use ufs_spec::codes::REGIONS;
use ufs_spec::{
    Block, Cmd, GREATEST_COMMAND, Numbers, PlainDevice, UnitSpec, commands_keep_the_shape,
};

/// How many bytes a key has.
const KEY: usize = 32;

/// Where a block is.
#[derive(Clone, Copy)]
struct Spot {
    unit: u8,
    address: u32,
}

/// Whether the first entries, the first `held` of them at least, can make of the base a device which
/// holds what was found: these blocks, unit by unit, both settings, and the regions that are there. A
/// setting in doubt may be there or not. The base is led through the entries, so it is used up.
pub fn is_kept(
    numbers: &Numbers,
    base: PlainDevice,
    entries: &[Entry],
    held: usize,
    found: &[Vec<Block>],
    rest: &FoundRest<'_>,
) -> bool
    requires shape { shape_of base ≡ shape_of_numbers numbers.now }
    ensures kept { result ≡ true → (k : ℕ) × (held ≤ k) × (k ≤ length entries.now) × (p : Plain)
        × IsAfter base (take k (map noted_of entries.now)) p
        × ShowsAll (map (λ v. v.items) found.now) rest.now p }
    // Where each accepted command can come when it does, the answer false says that no prefix is there.
    ensures lost { result ≡ false → CanFollow base (map noted_of entries.now)
        → (k : ℕ) → held ≤ k → k ≤ length entries.now
        → (p : Plain) → IsAfter base (take k (map noted_of entries.now)) p
        → ShowsAll (map (λ v. v.items) found.now) rest.now p → ⊥ }
{
    let mut may = ShownSettings::over(&base, rest);
    let mut plain = base;
    // A block that was not the plain device's. While it is not, no other has to be looked at.
    let mut other = Spot {
        unit: 0,
        address: 0,
    };
    for (index, entry) in entries.iter().enumerate() {
        if index >= held {
            match compare(numbers, found, rest, &plain, may, other) {
                Err(spot) => other = spot,
                Ok(()) => return true,
            }
        }
        if !can_come(numbers, &plain, entry) {
            return false;
        }
        may = may.after(entry, rest);
        follow(numbers, &mut plain, entry);
    }
    held <= entries.len() && compare(numbers, found, rest, &plain, may, other).is_ok()
}

/// Whether what the entry says can come: a command that was accepted names only what is there, and a
/// write of the replay protected memory block finds the counter below its end.
fn can_come(numbers: &Numbers, plain: &PlainDevice, entry: &Entry) -> bool
    requires { shape_of plain.now ≡ shape_of_numbers numbers.now }
    ensures can { result ≡ true → CanCome plain.now (noted_of entry.now) }
    ensures cannot { result ≡ false → CanCome plain.now (noted_of entry.now) → ⊥ }
{
    match entry {
        Entry::Accepted(command) => can_apply(numbers, plain, command),
        Entry::Doubted(_) | Entry::Refused => true,
    }
}

/// Does what an entry says for sure, which can come.
fn follow(numbers: &Numbers, plain: &mut PlainDevice, entry: &Entry)
    requires shape { shape_of plain.old ≡ shape_of_numbers numbers.now }
    requires can { CanCome plain.old (noted_of entry.now) }
    ensures followed { plain.new ≡ surely plain.old (noted_of entry.now) }
    ensures shape { shape_of plain.new ≡ shape_of_numbers numbers.now }
{
    if let Entry::Accepted(command) = entry {
        apply_command(numbers, plain, command);
    }
}

/// Does a command that can come.
fn apply_command(numbers: &Numbers, plain: &mut PlainDevice, command: &Cmd)
    requires shape { shape_of plain.old ≡ shape_of_numbers numbers.now }
    requires can { CanApply plain.old (command_of command.now) }
    ensures applied { plain.new ≡ apply plain.old (command_of command.now) }
    ensures shape { shape_of plain.new ≡ shape_of_numbers numbers.now }
{
    commands_keep_the_shape();
    plain.apply(command);
}

/// Whether the command can come in this state: it names only what is there, and a write of the replay protected
/// memory block finds the counter below its end.
pub fn can_apply(numbers: &Numbers, plain: &PlainDevice, command: &Cmd) -> bool
    requires { shape_of plain.now ≡ shape_of_numbers numbers.now }
    ensures can { result ≡ true → CanApply plain.now (command_of command.now) }
    ensures cannot { result ≡ false → CanApply plain.now (command_of command.now) → ⊥ }
{
    fits_in(numbers, command) && finds_counter(plain, command)
}

/// Whether the command names only what a device with these numbers has.
fn fits_in(numbers: &Numbers, command: &Cmd) -> bool
    ensures fits { result ≡ true → FitsIn numbers.now (command_of command.now) }
    ensures beyond { result ≡ false → FitsIn numbers.now (command_of command.now) → ⊥ }
{
    let units = numbers.units.as_slice();
    match command {
        Cmd::Write {
            unit,
            address,
            blocks,
        } => is_within(units, *unit, *address, blocks.len()),
        Cmd::Zero {
            unit,
            address,
            count,
        } => is_within(units, *unit, *address, usize::from(*count)),
        Cmd::SetKey { region, key } => has_region(numbers, *region) && is_key(key),
        Cmd::RpmbWrite {
            region,
            address,
            bytes,
        } => has_region(numbers, *region) && is_area_part(numbers, *region, *address, bytes.len()),
        Cmd::SetBoot(boot) => *boot <= 2,
        Cmd::SetPermanent => true,
    }
}

/// Whether these are as many bytes as a key has.
fn is_key(bytes: &[u8]) -> bool
    ensures { result ≡ true ↔ length bytes.now ≡ 32 }
{
    bytes.len() == KEY
}

/// Whether it is no write of the replay protected memory block, or finds the counter below its end.
fn finds_counter(plain: &PlainDevice, command: &Cmd) -> bool
    requires { LiesWithin (shape_of plain.now) (command_of command.now) }
    ensures below { result ≡ true → FindsCounter plain.now (command_of command.now) }
    ensures ended { result ≡ false → FindsCounter plain.now (command_of command.now) → ⊥ }
{
    match command {
        Cmd::RpmbWrite { region, .. } => plain.counter(*region) < u32::MAX,
        _ => true,
    }
}

/// Whether a command may have these blocks of a unit: one at least, and none past its end.
fn is_within(units: &[UnitSpec], unit: u8, address: u32, count: usize) -> bool
    ensures { result ≡ true ↔ (unit < length units.now) × (1 ≤ count) × (count ≤ greatest_command)
        × (address + count ≤ slice_index_or (map (λ u. u.blocks) units.now) unit 0) }
{
    match units.get(unit as usize) {
        Some(spec) => {
            1 <= count
                && count <= usize::from(GREATEST_COMMAND)
                && address as usize + count <= spec.blocks as usize
        }
        None => false,
    }
}

/// Whether a device with these numbers has a region of this number.
fn has_region(numbers: &Numbers, region: u8) -> bool
    ensures { result ≡ true ↔ HasRegion (shape_of_numbers numbers.now) region }
{
    region < REGIONS && 0 < area_bytes(numbers, region)
}

/// Whether so many bytes are 1 to 8 blocks of 256 bytes, all of them in the area of a region from this
/// address on.
fn is_area_part(numbers: &Numbers, region: u8, address: u16, count: usize) -> bool
    requires { region < regions }
    ensures { result ≡ true ↔ IsAreaPart (shape_of_numbers numbers.now) region address count }
{
    are_area_blocks(count) && 256 * usize::from(address) + count <= area_bytes(numbers, region)
}

/// Whether so many bytes are 1 to 8 blocks of 256 bytes.
fn are_area_blocks(count: usize) -> bool
    ensures { result ≡ true ↔ ((blocks : ℕ) × (count ≡ 256 * blocks) × (1 ≤ blocks) × (blocks ≤ 8)) }
{
    if count == 0 {
        return false;
    }
    count <= 2048 && count % 256 == 0
}

/// How many bytes the area of a region has.
pub(crate) fn area_bytes(numbers: &Numbers, region: u8) -> usize
    requires { region < regions }
    ensures long { result ≡ area_len numbers.now region }
    ensures fits { result < 2 ^ 26 }
{
    131_072 * usize::from(numbers.rpmb[region as usize])
}

/// Whether this is what the plain device holds, but that its settings may be those that were found. If
/// it is not, a block is told that was not found, so far as one is known; from the hint on it is
/// looked for first.
fn compare(
    numbers: &Numbers,
    found: &[Vec<Block>],
    rest: &FoundRest<'_>,
    plain: &PlainDevice,
    may: ShownSettings,
    hint: Spot,
) -> Result<(), Spot>
    requires { shape_of plain.now ≡ shape_of_numbers numbers.now }
    ensures same { IsOk result → MayShow (map (λ v. v.items) found.now) rest.now plain.now may }
    ensures other { IfErr result (λ s. MayShow (map (λ v. v.items) found.now) rest.now plain.now may → ⊥) }
{
    if !may.are_both() {
        return Err(hint);
    }
    compare_held(numbers, found, &rest.regions, plain, hint)
}

/// The same without the settings.
fn compare_held(
    numbers: &Numbers,
    found: &[Vec<Block>],
    regions: &[FoundRegion<'_>; 4],
    plain: &PlainDevice,
    hint: Spot,
) -> Result<(), Spot>
    requires { shape_of plain.now ≡ shape_of_numbers numbers.now }
    ensures shown { IsOk result → Shows (map (λ v. v.items) found.now) plain.now }
    ensures regions { IsOk result → ShowsRegions regions.now plain.now }
    ensures other { IfErr result (λ s. Shows (map (λ v. v.items) found.now) plain.now →
        ShowsRegions regions.now plain.now → ⊥) }
{
    // Each write of an area has another counter, so that bytes of areas are seldom looked at.
    if !have_keys(regions, plain) {
        return Err(hint);
    }
    if let Some(spot) = difference(numbers, found, plain, hint) {
        return Err(spot);
    }
    if have_areas(regions, plain) {
        Ok(())
    } else {
        Err(hint)
    }
}

/// Whether each region that is there has the key and the counter of the plain device's.
fn have_keys(regions: &[FoundRegion<'_>; 4], plain: &PlainDevice) -> bool
    ensures same { result ≡ true → OfEach ShowsKey regions.now plain.now }
    ensures other { result ≡ false → OfEach ShowsKey regions.now plain.now → ⊥ }
{
    for (index, region) in regions.iter().enumerate() {
        let number = index as u8;
        if !plain.area(number).is_empty() && !has_key(region, plain, number) {
            return false;
        }
    }
    true
}

/// Whether each region that is there has the bytes of the plain device's area, if there is a key.
fn have_areas(regions: &[FoundRegion<'_>; 4], plain: &PlainDevice) -> bool
    ensures same { result ≡ true → OfEach ShowsArea regions.now plain.now }
    ensures other { result ≡ false → OfEach ShowsArea regions.now plain.now → ⊥ }
{
    for (index, region) in regions.iter().enumerate() {
        let number = index as u8;
        if !plain.area(number).is_empty() && !has_area(region, plain, number) {
            return false;
        }
    }
    true
}

/// Whether the region has the key and the counter of the plain device's region of this number.
fn has_key(region: &FoundRegion<'_>, plain: &PlainDevice, number: u8) -> bool
    requires { number < regions }
    ensures same { result ≡ true → ShowsKey region.now (region_of plain.now number) }
    ensures other { result ≡ false → ShowsKey region.now (region_of plain.now number) → ⊥ }
{
    is_same_key(region.key, plain.key(number)) && region.counter == plain.counter(number)
}

/// Whether both have the same key, or none.
fn is_same_key(one: Option<[u8; 32]>, other: Option<[u8; 32]>) -> bool
    ensures same { result ≡ true → one ≡ other }
    ensures differ { result ≡ false → one ≡ other → ⊥ }
{
    match (one, other) {
        (Some(one), Some(other)) => is_equal(&one, &other),
        (None, None) => true,
        _ => false,
    }
}

/// Whether the bytes are equal.
fn is_equal(bytes: &[u8], other: &[u8]) -> bool
    ensures same { result ≡ true → bytes.now ≡ other.now }
    ensures differ { result ≡ false → bytes.now ≡ other.now → ⊥ }
{
    bytes == other
}

/// Whether the bytes of the area are those of the plain device's region of this number, if there is a
/// key.
fn has_area(region: &FoundRegion<'_>, plain: &PlainDevice, number: u8) -> bool
    requires { number < regions }
    ensures same { result ≡ true → ShowsArea region.now (region_of plain.now number) }
    ensures other { result ≡ false → ShowsArea region.now (region_of plain.now number) → ⊥ }
{
    match region.key {
        Some(_) => is_equal(region.area, plain.area(number)),
        None => true,
    }
}

/// A block that was not found, if there is one. From the hint on it is looked for first.
fn difference(
    numbers: &Numbers,
    found: &[Vec<Block>],
    plain: &PlainDevice,
    hint: Spot,
) -> Option<Spot>
    requires { shape_of plain.now ≡ shape_of_numbers numbers.now }
    ensures none { IfNone result (Shows (map (λ v. v.items) found.now) plain.now) }
    ensures some { IfSome result (λ s. Shows (map (λ v. v.items) found.now) plain.now → ⊥) }
{
    let units = numbers.units.as_slice();
    let near = hint.unit as usize;
    if near < units.len() {
        let count = units[near].blocks;
        if let Some(address) = difference_in(found, plain, hint.unit, hint.address, count) {
            return Some(Spot {
                unit: hint.unit,
                address,
            });
        }
    }
    for (index, spec) in units.iter().enumerate() {
        let unit = index as u8;
        if let Some(address) = difference_in(found, plain, unit, 0, spec.blocks) {
            return Some(Spot { unit, address });
        }
    }
    None
}

/// The first address, from one on, of a unit with so many blocks where the block was not found.
fn difference_in(
    found: &[Vec<Block>],
    plain: &PlainDevice,
    unit: u8,
    from: u32,
    count: u32,
) -> Option<u32>
    requires unit_in { unit < length plain.now.units }
    requires count { count ≡ length (unit_of unit plain.now) }
    ensures none { IfNone result ((a : ℕ) → from ≤ a → a < count
        → IsShownAt (map (λ v. v.items) found.now) plain.now unit a) }
    ensures some { IfSome result (λ a. (a < count)
        × (IsShownAt (map (λ v. v.items) found.now) plain.now unit a → ⊥)) }
{
    for address in from..count {
        if !is_shown(found, plain, Spot { unit, address }) {
            return Some(address);
        }
    }
    None
}

/// Whether the block there was found.
fn is_shown(found: &[Vec<Block>], plain: &PlainDevice, spot: Spot) -> bool
    requires unit_in { spot.unit < length plain.now.units }
    requires address_in { spot.address < length (unit_of spot.unit plain.now) }
    ensures shown { result ≡ true → IsShownAt (map (λ v. v.items) found.now) plain.now spot.unit spot.address }
    ensures other { result ≡ false → IsShownAt (map (λ v. v.items) found.now) plain.now spot.unit spot.address → ⊥ }
{
    match found.get(spot.unit as usize) {
        Some(blocks) => is_block(
            blocks.as_slice(),
            spot.address,
            plain.block(spot.unit, spot.address),
        ),
        None => false,
    }
}

/// Whether the block stands at the address.
fn is_block(blocks: &[Block], address: u32, block: &Block) -> bool
    ensures there { result ≡ true → slice_get blocks.now address ≡ Some block.now }
    ensures other { result ≡ false → slice_get blocks.now address ≡ Some block.now → ⊥ }
{
    let at = address as usize;
    at < blocks.len() && is_equal(&blocks[at], block)
}
