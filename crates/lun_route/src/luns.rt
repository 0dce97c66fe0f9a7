//! What LUN bytes name.
ghost use Rattle.std.specs.Prelude.{◌≡◌, ◌==◌, ◌<◌, IfSome, length, position};
ghost use Rattle.ufs_spec.specs.Refusals.{attention_place, boot_unit, lun_of, takes, takes_row};
ghost use Rattle.ufs_spec.specs.Refusals.{unit_named, well_known};
ghost use Rattle.ufs_spec.specs.declared.UnitSpec.{UnitSpec as Spec};
ghost use Rattle.lun_route.specs.Luns.{lun_in, lun_meant, place_of};

use ufs_spec::{Numbers, Row, UnitSpec};

/// What a LUN byte names (JESD220, 10.8.5).
#[derive(Clone, Copy)]
pub enum Lun {
    /// The unit of the configuration with this number, 00h to 07h.
    Unit(u8),
    /// 81h, the well-known unit REPORT LUNS.
    ReportLuns,
    /// B0h, the well-known unit BOOT: the blocks of the unit that boots.
    Boot,
    /// C4h, the well-known unit RPMB.
    Rpmb,
    /// D0h, the well-known unit UFS DEVICE.
    Device,
}

/// What the LUN byte names: a unit of the configuration, or else a well-known unit.
pub fn named_lun(numbers: &Numbers, byte: u8) -> Option<Lun>
    ensures is { lun_in result ≡ lun_of numbers.now byte }
    ensures place { IfSome (place_of (lun_in result)) (λ place. place < 12) }
{
    if usize::from(byte) < numbers.units.len() {
        Some(Lun::Unit(byte))
    } else {
        well_known(byte)
    }
}

// The well-known unit with this LUN byte.
fn well_known(byte: u8) -> Option<Lun>
    ensures is { lun_in result ≡ well_known byte }
    ensures place { IfSome (place_of (lun_in result)) (λ place. place < 12) }
{
    match byte {
        0x81 => Some(Lun::ReportLuns),
        0xB0 => Some(Lun::Boot),
        0xC4 => Some(Lun::Rpmb),
        0xD0 => Some(Lun::Device),
        _ => None,
    }
}

/// The unit that the boot setting names: the one with this boot number, if it is not 0 (bBootLunEn;
/// JESD220, 13.1).
pub fn boot_unit(numbers: &Numbers, boot: u8) -> Option<u8>
    ensures { result ≡ boot_unit numbers.now boot }
{
    if boot == 0 {
        return None;
    }
    let place = place_of(numbers.units.as_slice(), boot)?;
    Some(place as u8)
}

// The place of the unit with this boot number.
fn place_of(units: &[UnitSpec], boot: u8) -> Option<usize>
    ensures place { result ≡ position (λ (u : Spec). u.boot == boot) units.now }
    ensures within { IfSome result (λ place. place < length units.now) }
{
    units.iter().position(|unit| unit.boot == boot)
}

impl Lun {
    /// The unit whose blocks are read or written through it, if it has blocks.
    pub fn unit(self, numbers: &Numbers, boot: u8) -> Option<u8>
        ensures { result ≡ unit_named numbers.now boot (lun_meant self) }
    {
        match self {
            Lun::Unit(unit) => Some(unit),
            Lun::Boot => boot_unit(numbers, boot),
            Lun::ReportLuns | Lun::Rpmb | Lun::Device => None,
        }
    }

    /// Where its unit attention stands among those of all LUNs (SAM, unit attention condition): the units
    /// by their numbers, and then 81h, B0h, C4h and D0h.
    pub fn attention_place(self) -> usize
        ensures { result ≡ attention_place (lun_meant self) }
    {
        match self {
            Lun::Unit(unit) => usize::from(unit),
            Lun::ReportLuns => 8,
            Lun::Boot => 9,
            Lun::Rpmb => 10,
            Lun::Device => 11,
        }
    }

    /// Whether it takes the commands of this row, if there is one and the device's profile has it.
    pub fn takes(self, numbers: &Numbers, row: Option<Row>) -> bool
        ensures { result ≡ takes_row numbers.now (lun_meant self) row }
    {
        let Some(row) = row else {
            return false;
        };
        row.profile <= numbers.profile && self.takes_of_any_profile(row)
    }

    // The same where the profile has the row.
    fn takes_of_any_profile(self, row: Row) -> bool
        ensures { result ≡ takes (lun_meant self) row }
    {
        let takers = row.takers;
        match self {
            Lun::Unit(_) => takers.units,
            Lun::ReportLuns => takers.report_luns,
            Lun::Boot => takers.boot,
            Lun::Rpmb => takers.rpmb,
            Lun::Device => takers.device,
        }
    }
}
