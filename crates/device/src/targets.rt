//! What a command is about: the unit whose blocks it reads or writes (JESD220, 10.8).
ghost use Rattle.std.specs.Prelude.{◌≡◌, ◌&&◌, if◌then◌else◌, is_some, not};
ghost use Rattle.ftl_core.specs.Public.{Describes as IsLayer};
ghost use Rattle.lun_route.specs.Luns.{lun_in, place_of};
ghost use Rattle.lun_route.specs.Routes.{not_taken_by};
ghost use Rattle.ufs_spec.specs.Begins.{unit_or_first};
ghost use Rattle.ufs_spec.specs.Identities.{device_type};
ghost use Rattle.ufs_spec.specs.Keys.{data_key};
ghost use Rattle.ufs_spec.specs.Refusals.{Request, State, is_passing, lun_of, numbers_of, row_in, unit_numbers_at};
ghost use Rattle.ufs_spec.specs.Refusals.{unit_of_request};
ghost use Rattle.ufs_spec.specs.Translation.{Translation};
ghost use Rattle.device.specs.Attentions.{attended_at};
ghost use Rattle.device.specs.Bare.{IsBare};
ghost use Rattle.device.specs.Targets.{IsRouted, are_not_simple, blocks_in, routing_told, target_of};

use crate::device::Device;
use lun_route::{Route, device_type, is_passing, route_of};
use ufs_spec::{Key, Numbers, Row, Sense, Tag, UnitSpec};

/// The flags of a COMMAND that are its task attribute: 0 for SIMPLE (JESD220, 10.7.1).
const TASK_ATTRIBUTE: u8 = 0x03;

/// The device type that INQUIRY tells where there is no unit (SPC, peripheral qualifier and device type).
const NO_TYPE: u8 = 0x7F;

/// What a command is about.
#[derive(Clone, Copy)]
pub struct Target {
    /// Its LUN byte.
    pub lun: u8,
    /// The unit whose blocks it reads or writes, if it has one.
    pub unit: Option<u8>,
    /// The numbers of this unit.
    pub spec: Option<UnitSpec>,
    /// Whether it takes no writes now: it is protected, or the device is locked.
    pub is_guarded: bool,
    /// What REQUEST SENSE tells at the LUN (SPC).
    pub sense: Sense,
    /// The device type that INQUIRY tells of the LUN (SPC).
    pub device_type: u8,
}

impl Target {
    /// How many blocks the unit has.
    pub fn blocks(self) -> u32
        ensures { result ≡ blocks_in self.spec }
    {
        match self.spec {
            Some(unit) => unit.blocks,
            None => 0,
        }
    }

    /// The unit of the blocks that the command names. Any number does for a command that names none.
    pub fn unit_of_blocks(self) -> u8
        ensures { result ≡ unit_or_first self.unit }
    {
        match self.unit {
            Some(unit) => unit,
            None => 0,
        }
    }
}

/// The key of the block at this address of a unit.
pub(crate) fn key_of(unit: u8, address: u32) -> Key
    ensures { result ≡ data_key unit address }
{
    Key {
        kind: Tag::DATA,
        unit,
        address,
    }
}

/// The numbers of a unit, if there is one.
pub(crate) fn spec_of(numbers: &Numbers, unit: Option<u8>) -> Option<UnitSpec>
    ensures { result ≡ unit_numbers_at numbers.now unit }
{
    let unit = unit?;
    numbers.units.as_slice().get(usize::from(unit)).copied()
}

/// The device type of the unit with this LUN byte, if there is such a unit.
fn type_told(lun: u8, is_there: bool) -> u8
    ensures { result ≡ (if is_there then device_type lun else 0x7F) }
{
    if is_there { device_type(lun) } else { NO_TYPE }
}

impl Device {
    /// What a command with this LUN byte and these flags is about whose operation code has this row, if it
    /// has one.
    ///
    /// # Errors
    ///
    /// Why it is refused: there is no such unit, and the command is not answered without one; it meets the
    /// attention of the LUN; it has another task attribute than SIMPLE; or the unit does not take the
    /// operation code. The first of these decides.
    pub(crate) fn target(&self, lun: u8, flags: u8, row: Option<Row>) -> Result<Target, Sense>
        ensures { (s : State) (r : Request) → IsLayer self.now.ftl s.translation → IsBare s self.now →
            r.lun ≡ lun → r.flags ≡ flags → row_in r ≡ row → IsRouted s r result }
    {
        let route = match route_of(self.ftl.numbers(), self.boot, lun, row) {
            Ok(route) => route,
            Err(sense) => return Err(sense),
        };
        match self.routing_refusal(route, flags, row) {
            Some(sense) => Err(sense),
            None => Ok(self.target_on(lun, route)),
        }
    }

    /// Why a command with these flags is refused that has this route: it meets the attention of its LUN
    /// (SAM), it has another task attribute than SIMPLE, or the LUN does not take it.
    fn routing_refusal(&self, route: Route, flags: u8, row: Option<Row>) -> Option<Sense>
        ensures { (t : Translation) → IsLayer self.now.ftl t → result ≡ routing_told
            (attended_at t.numbers self.now.volatile (place_of (lun_in route.lun)) && not (is_passing row))
            (are_not_simple flags) (not_taken_by t.numbers row (lun_in route.lun)) }
    {
        if self.meets_attention(route, row) {
            return Some(Sense::UNIT_ATTENTION);
        }
        if flags & TASK_ATTRIBUTE != 0 {
            return Some(Sense::MESSAGE_ERROR);
        }
        if route.takes(self.ftl.numbers(), row) {
            None
        } else {
            Some(Sense::INVALID_OPCODE)
        }
    }

    /// Whether the LUN of this route has an attention, and a command whose operation code has this row meets
    /// it.
    fn meets_attention(&self, route: Route, row: Option<Row>) -> bool
        ensures { (t : Translation) → IsLayer self.now.ftl t → result
            ≡ (attended_at t.numbers self.now.volatile (place_of (lun_in route.lun)) && not (is_passing row)) }
    {
        self.has_attention(route.attention_place()) && !is_passing(row)
    }

    /// What a command with this LUN byte is about that has this route.
    fn target_on(&self, lun: u8, route: Route) -> Target
        ensures { (s : State) (r : Request) → IsLayer self.now.ftl s.translation → IsBare s self.now →
            r.lun ≡ lun → lun_of (numbers_of s) r.lun ≡ lun_in route.lun → route.unit ≡ unit_of_request s r →
            result ≡ target_of s r }
    {
        let spec = spec_of(self.ftl.numbers(), route.unit);
        Target {
            lun,
            unit: route.unit,
            spec,
            is_guarded: self.is_guarded(spec),
            sense: self.sense_told(route.attention_place()),
            device_type: type_told(lun, route.lun.is_some()),
        }
    }
}
