//! UNMAP: its list names the blocks that become zeros (SBC, UNMAP).
ghost use Rattle.std.specs.Prelude.{◌≡◌, ◌<◌, IsTrue, length, true};
ghost use Rattle.ufs_spec.specs.Configs.{command_blocks};
ghost use Rattle.ufs_spec.specs.Translation.{Translation};
ghost use Rattle.ufs_spec.specs.declared.configs.Numbers.{Numbers};
ghost use Rattle.ftl_core.specs.Public.{Claims, Describes as IsLayer, has_number};
ghost use Rattle.device.specs.Kept.{IsLayerWith};
ghost use Rattle.device.specs.Unmaps.{HasListCome, HasPutZeros, HasUnmapped};
ghost use Rattle.device.specs.Lists.{IsOfList, list_slots};
ghost use Rattle.device.specs.Unmaps.{blocks_unmapped, is_unmapping, key_within, unmapping_in};

use crate::device::Device;
use crate::targets::{key_of, spec_of};
use scsi_cdb::{UnmapList, read_unmap_list};
use task_set::TaskEvent;
use ufs_spec::{Key, Sense};

/// How many bytes the header of UNMAP's list has, and how many it has with one descriptor (SBC).
pub(crate) const LIST_HEADER: u32 = 8;

pub(crate) const LIST_OF_ONE: u32 = 24;

/// How many slots an UNMAP claims whose list has so many bytes: with a descriptor as many as a command
/// may have blocks, `most`, since only the list says how many there are.
pub(crate) fn list_slots(most: u16, length: u32) -> u16
    ensures { (n : Numbers) → most ≡ command_blocks n → result ≡ list_slots n length }
{
    if length == LIST_OF_ONE { most } else { 0 }
}

/// What an UNMAP does whose list came.
#[derive(Clone, Copy)]
pub enum Unmapping {
    /// It is refused with this sense.
    Refused(Sense),
    /// There is nothing to unmap.
    Nothing,
    /// So many blocks from this address on become zeros.
    Blocks { key: Key, count: u16 },
}

impl Device {
    /// The list of the UNMAP of this position, tag and unit came.
    pub(crate) fn hear_list(&mut self, index: usize, tag: u8, unit: u8, list: &[u8])
        requires { index < length self.old.tasks }
        ensures { HasListCome self.old self.new tag index unit list.now }
    {
        let event = self.unmap(tag, unit, list);
        self.happen(index, event);
    }

    /// What the list of the UNMAP of this tag and unit names is unmapped, and the slots that it does not
    /// need are given back.
    fn unmap(&mut self, tag: u8, unit: u8, list: &[u8]) -> TaskEvent
        ensures left { self.new ≡ record self.old { ftl = self.new.ftl } }
        ensures unmapped { (t : Translation) (claims : Claims) → IsLayerWith self.old.ftl t claims →
            unit < length t.numbers.units.items → IsOfList (length list.now) →
            HasUnmapped self.new.ftl t claims tag (unmapping_in t unit list.now) result }
    {
        match self.unmapping(unit, list) {
            Unmapping::Refused(sense) => {
                self.ftl.release(tag);
                TaskEvent::DataRefused { sense }
            }
            Unmapping::Nothing => {
                self.ftl.release(tag);
                TaskEvent::DataTaken
            }
            Unmapping::Blocks { key, count } => {
                self.put_zeros(tag, key, count);
                TaskEvent::DataTaken
            }
        }
    }

    /// So many blocks of zeros from this address on are accepted as a group, in the first slots that the
    /// reader claimed; the others are given back.
    fn put_zeros(&mut self, tag: u8, key: Key, count: u16)
        requires { IsTrue (has_number self.old.ftl) }
        ensures left { self.new ≡ record self.old { ftl = self.new.ftl } }
        ensures put { (t : Translation) (claims : Claims) → IsLayerWith self.old.ftl t claims →
            HasPutZeros self.new.ftl t claims tag key count }
    {
        self.ftl.release_behind(tag, count);
        self.ftl.accept(tag, key);
    }

    /// What an UNMAP of this unit does with this list.
    fn unmapping(&self, unit: u8, list: &[u8]) -> Unmapping
        ensures is { (t : Translation) → IsLayer self.now.ftl t → unit < length t.numbers.units.items →
            IsOfList (length list.now) → result ≡ unmapping_in t unit list.now }
        // Blocks are unmapped only if a number is left for them.
        ensures numbered { is_unmapping result ≡ true → IsTrue (has_number self.now.ftl) }
    {
        // No list of another length is asked for.
        if list.len() != LIST_HEADER as usize && list.len() != LIST_OF_ONE as usize {
            return Unmapping::Refused(Sense::INVALID_LIST_FIELD);
        }
        match read_unmap_list(self.command_blocks(), list) {
            UnmapList::Malformed => Unmapping::Refused(Sense::INVALID_LIST_FIELD),
            UnmapList::HeaderOnly => Unmapping::Nothing,
            UnmapList::Descriptor { address, count } => self.blocks_unmapped(unit, address, count),
        }
    }

    /// What it does if the list has a right descriptor of so many blocks from this address on.
    fn blocks_unmapped(&self, unit: u8, address: u64, count: u16) -> Unmapping
        ensures is { (t : Translation) → IsLayer self.now.ftl t → unit < length t.numbers.units.items →
            result ≡ blocks_unmapped t unit address count }
        ensures numbered { is_unmapping result ≡ true → IsTrue (has_number self.now.ftl) }
    {
        let Some(key) = self.key_within(unit, address, count) else {
            return Unmapping::Refused(Sense::OUT_OF_RANGE);
        };
        if count == 0 {
            return Unmapping::Nothing;
        }
        if self.ftl.is_locked() {
            return Unmapping::Refused(Sense::WRITE_ERROR);
        }
        Unmapping::Blocks { key, count }
    }

    /// The key of the first of so many blocks from this address on, if all of them lie in the unit.
    fn key_within(&self, unit: u8, address: u64, count: u16) -> Option<Key>
        ensures { (t : Translation) → IsLayer self.now.ftl t → unit < length t.numbers.units.items →
            result ≡ key_within t.numbers unit address count }
    {
        let spec = spec_of(self.ftl.numbers(), Some(unit))?;
        let blocks = u64::from(spec.blocks);
        if address > blocks || address + u64::from(count) > blocks {
            return None;
        }
        Some(key_of(unit, address as u32))
    }
}
