//! Where a command goes.
ghost use Rattle.std.specs.Prelude.{◌≡◌, ◌<◌, IfOk, IfSome, not};
ghost use Rattle.ufs_spec.specs.Refusals.{is_boot_read, is_passing, is_told_anywhere, lun_of, needs_blocks};
ghost use Rattle.lun_route.specs.Luns.{lun_in, lun_meant, place_of};
ghost use Rattle.lun_route.specs.Routes.{lacks_blocks, lacks_unit_at, not_taken_by, refused_by};
ghost use Rattle.lun_route.specs.Routes.{routing_refusal, unit_at};

use crate::luns::{Lun, named_lun};
use ufs_spec::{Kind, Numbers, Row, Sense, Told};

/// Where a command goes: what its LUN byte names, if it names anything, and the unit whose blocks it
/// reads or writes.
#[derive(Clone, Copy)]
pub struct Route {
    pub lun: Option<Lun>,
    pub unit: Option<u8>,
}

impl Route {
    /// Whether the LUN takes the commands of this row, if there is such a LUN (JESD220, 10.8). A command
    /// that is answered without one is taken anywhere.
    pub fn takes(self, numbers: &Numbers, row: Option<Row>) -> bool
        ensures { result ≡ not (not_taken_by numbers.now row (lun_in self.lun)) }
    {
        match self.lun {
            Some(lun) => lun.takes(numbers, row),
            None => true,
        }
    }

    /// Where the unit attention of the LUN stands among those of all LUNs, if there is such a LUN (SAM,
    /// unit attention condition).
    pub fn attention_place(self) -> Option<usize>
        ensures { result ≡ place_of (lun_in self.lun) }
    {
        let lun = self.lun?;
        Some(lun.attention_place())
    }
}

/// Where a command with this LUN byte goes whose operation code has this row, if it has one, while this
/// is the boot setting (JESD220, 10.8).
///
/// # Errors
///
/// [`Sense::NO_UNIT`] if there is no such LUN, and the command is not one that a device of profile 1
/// answers without it: INQUIRY and REQUEST SENSE; or if the command needs the blocks of the boot unit,
/// and no unit boots.
pub fn route_of(numbers: &Numbers, boot: u8, byte: u8, row: Option<Row>) -> Result<Route, Sense>
    ensures refused { refused_by result
        ≡ routing_refusal numbers.now boot row (lun_of numbers.now byte) }
    ensures lun { IfOk result (λ r. lun_of numbers.now byte ≡ lun_in r.lun) }
    ensures unit { IfOk result (λ r. r.unit ≡ unit_at numbers.now boot (lun_in r.lun)) }
    ensures place { IfOk result (λ r. IfSome (place_of (lun_in r.lun)) (λ place. place < 12)) }
{
    let lun = named_lun(numbers, byte);
    if lacks_unit(numbers, boot, lun, row) {
        Err(Sense::NO_UNIT)
    } else {
        let unit = unit_at(numbers, boot, lun);
        Ok(Route { lun, unit })
    }
}

// The unit whose blocks are read or written through this LUN, if it has blocks.
fn unit_at(numbers: &Numbers, boot: u8, lun: Option<Lun>) -> Option<u8>
    ensures { result ≡ unit_at numbers.now boot (lun_in lun) }
{
    lun?.unit(numbers, boot)
}

// Whether there is no such LUN, and the command needs one, or it lacks the blocks that the command needs.
fn lacks_unit(numbers: &Numbers, boot: u8, lun: Option<Lun>, row: Option<Row>) -> bool
    ensures { result ≡ lacks_unit_at numbers.now boot row (lun_in lun) }
{
    match lun {
        Some(lun) => lacks_blocks(numbers, lun, lun.unit(numbers, boot), row),
        None => !is_told_anywhere(numbers, row),
    }
}

// Whether the blocks of the boot unit are needed, and no unit boots.
fn lacks_blocks(numbers: &Numbers, lun: Lun, unit: Option<u8>, row: Option<Row>) -> bool
    ensures { result ≡ lacks_blocks numbers.now row (lun_meant lun) unit }
{
    matches!(lun, Lun::Boot) && is_boot_read(numbers, row) && unit.is_none()
}

// Whether it is the row of a READ or of READ CAPACITY that the device's profile has.
fn is_boot_read(numbers: &Numbers, row: Option<Row>) -> bool
    ensures { result ≡ is_boot_read numbers.now row }
{
    match row {
        Some(row) => row.profile <= numbers.profile && needs_blocks(row.kind),
        None => false,
    }
}

// Whether a command of this kind needs blocks that can be read.
fn needs_blocks(kind: Kind) -> bool
    ensures { result ≡ needs_blocks kind }
{
    matches!(
        kind,
        Kind::Read | Kind::Tell(Told::Capacity | Told::LongCapacity)
    )
}

// Whether it is the row of INQUIRY or of REQUEST SENSE, on a device of profile 1: they are answered also
// where there is no such LUN.
fn is_told_anywhere(numbers: &Numbers, row: Option<Row>) -> bool
    ensures { result ≡ is_told_anywhere numbers.now row }
{
    match row {
        Some(row) => {
            numbers.profile > 0 && matches!(row.kind, Kind::Tell(Told::Identity | Told::Sense))
        }
        None => false,
    }
}

/// Whether a command whose operation code has this row, if it has one, does not meet a unit attention:
/// REQUEST SENSE, which tells it, INQUIRY and REPORT LUNS (SPC).
pub fn is_passing(row: Option<Row>) -> bool
    ensures { result ≡ is_passing row }
{
    match row {
        Some(row) => matches!(
            row.kind,
            Kind::Tell(Told::Sense | Told::Identity | Told::Units)
        ),
        None => false,
    }
}
