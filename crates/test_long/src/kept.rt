//! What a host knows that it wrote.

/// How many blocks the unit has, and how many blocks of the area are written.
pub(crate) const UNIT: u32 = 60;

pub(crate) const AREA: u16 = 64;

/// The bytes of each block of the unit and of the area, each of which is equal bytes, the counter
/// of the area, the boot setting, and whether the unit is protected for good.
#[derive(Clone, Copy)]
pub(crate) struct Kept {
    blocks: [u8; 60],
    area: [u8; 64],
    pub counter: u32,
    pub boot: u8,
    pub is_permanent: bool,
}

impl Kept {
    /// What new dies hold.
    pub fn new() -> Kept {
        Kept {
            blocks: [0; 60],
            area: [0; 64],
            counter: 0,
            boot: 0,
            is_permanent: false,
        }
    }

    /// The byte of the block of the unit.
    pub fn block(&self, address: u32) -> u8 {
        match self.blocks.get(address as usize) {
            Some(byte) => *byte,
            None => 0,
        }
    }

    /// The block of the unit becomes this byte.
    pub fn set_block(&mut self, address: u32, byte: u8) {
        let index = address as usize;
        if index < self.blocks.len() {
            self.blocks[index] = byte;
        }
    }

    /// The byte of the block of the area.
    pub fn area_block(&self, address: u16) -> u8 {
        match self.area.get(usize::from(address)) {
            Some(byte) => *byte,
            None => 0,
        }
    }

    /// The block of the area becomes this byte.
    pub fn set_area_block(&mut self, address: u16, byte: u8) {
        let index = usize::from(address);
        if index < self.area.len() {
            self.area[index] = byte;
        }
    }
}
