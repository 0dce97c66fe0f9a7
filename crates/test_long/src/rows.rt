//! A long row of commands of all kinds on a device that collects blocks.
use crate::player::{FIRST_LINES, Player};
use crate::script::Script;
use std::alloc::Global;
use std::process::Abort;

/// How many lives come before the row, each with a WRITE of one block to an address of its own.
/// Each opening closes the block that was filled, so that fewer blocks are free from one life to
/// the next.
pub(crate) const LIVES: u32 = 20;

/// How many acts the row has.
pub(crate) const ACTS: u16 = 40;

/// A device with a key, after so many lives of at most 20.
pub(crate) fn worn(rt: &impl Abort, alloc: Global, lives: u32, script: Option<Script>) -> Player {
    let mut player = Player::new(rt, alloc, script);
    assert!(rt; player.rests() && player.programs_key());
    for life in 0..lives {
        let is_written = player.forces(40 + life % LIVES, 1, (0x80 + life % 0x80) as u8);
        assert!(rt; is_written, "life {life}");
        player.stop(rt, alloc);
    }
    player
}

/// The same, and then so many acts of the row, all of it written down as a script.
pub(crate) fn written_down(rt: &impl Abort, alloc: Global, lives: u32, acts: u16) -> Player {
    let script = Script::new(alloc, FIRST_LINES);
    let mut player = worn(rt, alloc, lives, Some(script));
    assert!(rt; player.plays(acts).is_none() && player.ends());
    player
}

impl Player {
    /// So many acts of the row: the first that is not answered rightly, if there is one.
    pub fn plays(&mut self, acts: u16) -> Option<u16> {
        for number in 0..acts {
            if !self.acts(number) {
                return Some(number);
            }
        }
        None
    }

    /// A WRITE of 1 to 8 of the first 28 blocks, which is answered at once, a round of its
    /// programs, and another command beside them. In each seventh act the device rests then.
    fn acts(&mut self, number: u16) -> bool {
        let address = u32::from(number) * 5 % 21;
        if !self.writes(address, number % 8 + 1, (number % 256) as u8) || !self.keeps(number) {
            return false;
        }
        self.round();
        self.acts_beside(number) && (number % 7 != 6 || self.rests())
    }

    /// In each other act a WRITE of one of the next 12 blocks. Each of them is written again after
    /// 24 acts: so a block of a die that was filled has pages that are still needed, and its
    /// collection copies them.
    fn keeps(&mut self, number: u16) -> bool {
        let turn = u32::from(number) / 2;
        number % 2 == 1 || self.writes(28 + turn % 12, 1, (0x40 + turn % 0x40) as u8)
    }

    /// The command beside the programs of a WRITE.
    fn acts_beside(&mut self, number: u16) -> bool {
        let turn = number / 6 % 8;
        match number % 6 {
            0 => self.forces(u32::from(turn) * 3 % 21, turn + 1, 0xC0),
            1 => self.writes_area(turn * 11 % 57, turn + 1, turn as u8),
            2 => self.reads(u32::from(turn) * 11 % 52, 8),
            3 => self.clears(u32::from(turn) * 9 % 24, 3) && self.flushes(),
            4 => self.sets_boot((turn % 3) as u8),
            _ => self.reads_area(turn * 5 % 57, turn + 1),
        }
    }

    /// The unit is protected for good, and no WRITE is taken any more; but the area can be written.
    pub fn ends(&mut self) -> bool {
        self.sets_permanent()
            && self.is_protected()
            && self.writes_area(20, 8, 0x70)
            && self.flushes()
    }

    /// All that is there is as the host knows it.
    pub fn has_all(&mut self) -> bool {
        self.has_blocks() && self.has_settings() && self.has_area()
    }
}
