//! What the device asks of a flash die.
ghost use Rattle.std.specs.Prelude.{◌≡◌, ℕ, ◌<◌, ◌≤◌, length, OnOk, OnErr};
ghost use Rattle.ufs_spec.specs.Dies.{DieState, IsOfSize, LiesOnDie, CanProgram, CanErase, page_at, is_bad_block, die_programmed, die_erased, IsFailedProgram, IsFailedErase};

use thiserror::Error;
use ufs_spec::Page;

/// A die could not do a job.
#[derive(Clone, Copy, Debug, Error, PartialEq, Eq)]
#[error("the die could not do the job")]
pub struct DieFault;

/// A flash die. It does one job at a time, and counts failures: each job that failed, and what else it likes to count,
/// as a read that went well only when it was tried again.
///
/// A block is programmed page by page in rising order, after an erase that finished in this power
/// cycle, and never once it is bad. An `Err` comes only if `failures` rose in that call, and no call lowers it.
pub trait Die {
    ghost state: { Self → DieState };

    ghost failed: { Self → ℕ };

    /// How many blocks it has.
    fn blocks(&self) -> u16
        ensures { result ≡ length (state self.now).blocks };

    /// How many pages each block has.
    fn pages(&self) -> u16
        ensures { IsOfSize (length (state self.now).blocks) result (state self.now) };

    /// Reads a page, of a bad block too. After an `Err` the die is as before, and `into` may hold anything.
    fn read(&mut self, block: u16, page: u16, into: &mut Page) -> Result<(), DieFault>
        requires { LiesOnDie (state self.old) block page }
        ensures same { state self.new ≡ state self.old }
        ensures found { OnOk result (into.new ≡ page_at (state self.old) block page) }
        ensures counted_ok { OnOk result (failed self.old ≤ failed self.new) }
        ensures counted_err { OnErr result (failed self.old < failed self.new) };

    /// Programs the next page of a block. After an `Err` the page holds what it held, its intended
    /// content or bytes whose check does not match, and the block is bad.
    fn program(&mut self, block: u16, page: u16, content: &Page) -> Result<(), DieFault>
        requires { CanProgram (state self.old) block page }
        ensures done { OnOk result (state self.new ≡ die_programmed (state self.old) block page content.now) }
        ensures left { OnErr result (IsFailedProgram (state self.old) block page content.now (state self.new)) }
        ensures counted_ok { OnOk result (failed self.old ≤ failed self.new) }
        ensures counted_err { OnErr result (failed self.old < failed self.new) };

    /// Erases a block: all bytes of its pages are FFh. After an `Err` each of its pages holds what it
    /// held, FFh alone or bytes whose check does not match, and the block is bad.
    fn erase(&mut self, block: u16) -> Result<(), DieFault>
        requires { CanErase (state self.old) block }
        ensures done { OnOk result (state self.new ≡ die_erased (state self.old) block) }
        ensures left { OnErr result (IsFailedErase (state self.old) block (state self.new)) }
        ensures counted_ok { OnOk result (failed self.old ≤ failed self.new) }
        ensures counted_err { OnErr result (failed self.old < failed self.new) };

    /// Whether the block is bad, from the factory or since one of its jobs failed. A block that the die
    /// does not have is not bad.
    fn is_bad(&self, block: u16) -> bool
        ensures { result ≡ is_bad_block (state self.now) block };

    /// How many failures it counted.
    fn failures(&self) -> u64
        ensures { result ≡ failed self.now };
}
