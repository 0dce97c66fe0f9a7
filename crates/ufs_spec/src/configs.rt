//! The numbers of a device: its dies, its units and its room.
ghost use Rattle.std.specs.Prelude.{◌≡◌};

use arrayvec::ArrayVec;

/// A logical unit: its count of blocks, its boot number (0 none, 1 A, 2 B) and how it is protected
/// (0 never, 1 by fPowerOnWPEn, 2 by fPermanentWPEn) (JESD220, 14.1.4.5).
#[derive(Clone, Copy, Debug, Default, PartialEq, Eq)]
pub struct UnitSpec {
    pub blocks: u32,
    pub boot: u8,
    pub protect: u8,
}

/// The numbers of a configuration: dies, blocks a die and pages a block, the units, the area of each
/// RPMB region in steps of 128 KiB, the slots of the write cache, and how many blocks may go bad. A
/// region whose area has no step is not there. Profile 0 is the device of a few commands, profile 1
/// tells more of itself; the serial number is told by profile 1 alone. Neither stands on the dies.
#[derive(Debug, Drop, PartialEq, Eq)]
pub struct Numbers {
    pub dies: u8,
    pub blocks: u16,
    pub pages: u16,
    pub units: ArrayVec<UnitSpec, 8>,
    pub rpmb: [u8; 4],
    pub slots: u16,
    pub spare: u16,
    pub profile: u8,
    pub serial: u64,
}

impl Numbers {
    /// The same numbers again; this takes no memory.
    pub fn copied(&self) -> Numbers
        ensures { result ≡ self.now }
    {
        let mut units = ArrayVec::new();
        for unit in self.units.as_slice() {
            units.push(*unit);
        }
        Numbers {
            dies: self.dies,
            blocks: self.blocks,
            pages: self.pages,
            units,
            rpmb: self.rpmb,
            slots: self.slots,
            spare: self.spare,
            profile: self.profile,
            serial: self.serial,
        }
    }
}
