//! The devices: of so many dies and spare blocks the fewest blocks, and the greatest unit that they have room for.
use geometry::Config;
use ufs_spec::{ConfigFault, UnitSpec};

/// How many pages a block has, and for how many blocks the write cache has room: the least.
pub const PAGES: u16 = 16;

const SLOTS: u16 = 64;

/// How many blocks the pages of a full write cache fill.
const FILLED: u16 = 4;

/// How many blocks a die has at least.
const LEAST_BLOCKS: u16 = 16;

/// How many blocks of 4096 bytes the device keeps beside its unit: 128 KiB of RPMB and two more.
const KEPT: u32 = 34;

/// How many blocks all dies have at least, beside the spare ones and four for each die: eight more, and those for
/// the write cache, four times, and for what is kept.
const LEAST: u16 = 27;

/// How many dies, how many blocks of each, how many of all of these are spare, and the blocks of the unit.
#[derive(Clone, Copy)]
pub struct Shape {
    pub dies: u8,
    pub blocks: u16,
    pub spare: u16,
    pub unit: u32,
}

impl Shape {
    /// So many dies of as few blocks as any unit leaves, and the greatest unit.
    pub fn of_dies(dies: u8, spare: u16) -> Shape {
        let needed = LEAST + 4 * u16::from(dies);
        let blocks = spare
            .saturating_add(needed)
            .div_ceil(u16::from(dies.max(1)));
        Shape::of_blocks(dies, blocks.max(LEAST_BLOCKS), spare)
    }

    /// So many dies of so many blocks, and the greatest unit.
    pub fn of_blocks(dies: u8, blocks: u16, spare: u16) -> Shape {
        let all = u32::from(dies).saturating_mul(u32::from(blocks));
        let kept = u32::from(spare) + 4 * u32::from(dies) + 8;
        let left = all.saturating_sub(kept).saturating_mul(u32::from(PAGES));
        Shape {
            dies,
            blocks,
            spare,
            unit: left.saturating_sub(4 * u32::from(SLOTS) + KEPT),
        }
    }

    /// How many free blocks WRITEs leave to the device's own pages, once all spare blocks are bad: one for each die,
    /// two, and twice as many as the pages of a full write cache fill.
    pub fn room(dies: u8) -> u16 {
        u16::from(dies) + 2 + 2 * FILLED
    }

    /// The configuration.
    pub fn config(self) -> Result<Config, ConfigFault> {
        let units = [UnitSpec {
            blocks: self.unit,
            boot: 0,
            protect: 0,
        }];
        Config::new(
            self.dies,
            self.blocks,
            PAGES,
            &units,
            [1, 0, 0, 0],
            SLOTS,
            self.spare,
        )
    }
}
