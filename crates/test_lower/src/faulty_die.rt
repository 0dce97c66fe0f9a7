//! A die in memory of which the first read of one page fails.
ghost use Rattle.std.specs.Prelude.{◌≡◌, ◌<◌, ◌≤◌, OnOk, OnErr};
ghost use Rattle.ufs_spec.specs.Dies.{DieState};

use nand_model::{Die, DieFault, MemDie};
use ufs_spec::Page;

/// The die, the block and the page whose first read fails, and how many reads failed.
#[derive(Drop)]
pub struct FaultyDie {
    pub die: MemDie,
    pub at: (u16, u16),
    pub failures: u64,
}

impl Die for FaultyDie {
    ghost state = { λ d. d.die };

    ghost failed = { λ d. d.failures };

    fn blocks(&self) -> u16 {
        self.die.blocks()
    }

    fn pages(&self) -> u16 {
        self.die.pages()
    }

    fn read(&mut self, block: u16, page: u16, into: &mut Page) -> Result<(), DieFault> {
        if self.failures == 0 && block == self.at.0 && page == self.at.1 {
            self.failures = 1;
            return Err(DieFault);
        }
        self.die.read(block, page, into)
    }

    fn program(&mut self, block: u16, page: u16, content: &Page) -> Result<(), DieFault> {
        self.die.program(block, page, content)
    }

    fn erase(&mut self, block: u16) -> Result<(), DieFault> {
        self.die.erase(block)
    }

    fn is_bad(&self, block: u16) -> bool {
        self.die.is_bad(block)
    }

    fn failures(&self) -> u64 {
        self.failures
    }
}
