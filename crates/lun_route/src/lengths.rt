//! How many bytes there are to tell (SPC, SBC).
ghost use Rattle.std.specs.Prelude.{◌≡◌, ◌≤◌, length};
ghost use Rattle.ufs_spec.specs.Identities.{modes_bytes, page_bytes};
ghost use Rattle.ufs_spec.specs.Refusals.{told_length};

use crate::identities::units_selected;
use crate::operations::operations_told;
use ufs_spec::{Numbers, Told};

/// How many bytes there are to tell of what is selected at the unit with this LUN byte.
pub fn told_length(numbers: &Numbers, lun: u8, told: Told, select: u32) -> u32
    ensures { result ≡ told_length numbers.now lun told select }
{
    match told {
        Told::Sense => 18,
        Told::Identity => 36,
        Told::Capacity => 8,
        Told::Units => 8 + 8 * u32::from(units_selected(numbers, select)),
        Told::LongCapacity => 32,
        Told::Page => page_length(numbers, lun, select),
        Told::Modes => 8 + modes_length(select),
        Told::ShortModes => 4 + modes_length(select),
        Told::Operations => operations_told(select).len() as u32,
    }
}

// How many bytes a page of vital product data has; none if the unit does not have it.
#[tactic(auto, unfolding(hex::specs::Hex::encode_with))]
fn page_length(numbers: &Numbers, lun: u8, page: u32) -> u32
    ensures { result ≡ length (page_bytes numbers.now lun page) }
{
    match page {
        0x00 if lun < 8 => 11,
        0x00 => 8,
        0x80 => 20,
        0x83 => 16,
        0x87 => 8,
        0xB0 | 0xB1 if lun < 8 => 64,
        0xB2 if lun < 8 => 8,
        _ => 0,
    }
}

// How many bytes the mode pages have that are selected: one, or all.
fn modes_length(select: u32) -> u32
    ensures is { result ≡ length (modes_bytes select) }
    ensures few { result ≤ 44 }
{
    match select / 256 % 64 {
        0x3F => 44,
        0x08 => 20,
        _ => 12,
    }
}
