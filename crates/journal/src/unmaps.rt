//! What an UNMAP changes, as its list tells (SBC, UNMAP parameter list).
ghost use Rattle.std.specs.Prelude.{◌≡◌, ◌⊎◌, ◌++◌, ◌+◌, ◌<◌, ◌^◌, List, length, nat_lt, not, option_map, true, ℕ};
ghost use Rattle.std.specs.Option.{option_to_list};
ghost use Rattle.ufs_spec.specs.Commands.{command_of};
ghost use Rattle.ufs_spec.specs.DataOuts.{has_list_header, unmap_complete};
ghost use Rattle.ufs_spec.specs.Exchanges.{Task};
ghost use Rattle.ufs_spec.specs.Refusals.{State, locked, numbers_of};
ghost use Rattle.journal.specs.Unmaps.{zeros_accepted, zeros_asked};

use geometry::command_blocks;
use ufs_spec::{Cmd, Numbers, UnitSpec, read_u16, read_u32, read_u64};

/// How long a list with a descriptor is.
const LIST: usize = 24;

/// What the two lengths in its header say: how many bytes come after each of them.
const AFTER_LIST_LENGTH: u16 = 22;

const DESCRIPTORS: u16 = 16;

/// The command that the list asks a unit for, if it names blocks of it.
pub(crate) fn zeros_asked(numbers: &Numbers, unit: u8, list: &[u8]) -> Option<Cmd>
    ensures { option_map command_of result ≡ zeros_asked numbers.now unit list.now }
{
    if list.len() != LIST || !has_header(list) || read_u32(list, 20) != 0 {
        return None;
    }
    let address = read_u64(list, 8);
    let count = read_u32(list, 16);
    if count == 0 || count > u32::from(command_blocks(numbers)) {
        return None;
    }
    let spec = numbers.units.as_slice().get(unit as usize)?;
    if !is_within(spec, address, count) {
        return None;
    }
    Some(Cmd::Zero {
        unit,
        address: address as u32,
        count: count as u8,
    })
}

// Whether so many blocks from this address on are in the unit.
fn is_within(spec: &UnitSpec, address: u64, count: u32) -> bool
    ensures within { result ≡ not (nat_lt spec.now.blocks (address + count)) }
    ensures low { result ≡ true → address < 2 ^ 32 }
{
    let blocks = u64::from(spec.blocks);
    address <= blocks && u64::from(count) <= blocks - address
}

// Whether a list with a descriptor begins as it has to.
fn has_header(list: &[u8]) -> bool
    requires { length list.now ≡ 24 }
    ensures { result ≡ has_list_header list.now }
{
    read_u16(list, 0) == AFTER_LIST_LENGTH
        && read_u16(list, 2) == DESCRIPTORS
        && read_u32(list, 4) == 0
}

/// The commands that a journal takes from the lists of UNMAPs are just those that a device accepts. The function
/// does nothing: its contract is a law.
pub fn unmaps_are_those_accepted()
    ensures { (s : State) (task : Task) (unit : ℕ) (list : List ℕ) →
        unit < length (numbers_of s).units.items → (length list ≡ 8) ⊎ (length list ≡ 24) →
        (unmap_complete s task unit list).accepted
        ≡ s.accepted ++ option_to_list (zeros_accepted (numbers_of s) (locked s) unit list) }
{}
