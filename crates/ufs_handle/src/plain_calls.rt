//! Calls of a handle whose arguments are plain numbers and bytes. They answer `None` where these
//! stand for nothing.
ghost use Rattle.ufs_handle.specs.Exports.{EndsSo, FailsSo, OpensNew, RepliesInto, StopsAll};

use crate::fault::Fault;
use crate::handle::Handle;
use crate::held::new_dies;
use crate::left::Left;
use crate::plain::{PlainConfig, PlainUnit, config_of, lefts_of, outcome_of};
use std::alloc::Global;

/// How many bytes a reply has at most.
const MOST_REPLY: usize = 4128;

impl Handle {
    /// Opens a device of this configuration over new dies in memory, where the handle holds none.
    ///
    /// # Errors
    ///
    /// `Open` where it holds one; else those of `config_of` and of `Held::open`. Nothing changes
    /// then.
    pub fn open_new(
        &mut self,
        alloc: Global,
        plain: &PlainConfig,
        units: &[PlainUnit],
    ) -> Result<(), Fault>
        ensures { OpensNew plain.now units.now self.old.value result self.new.value }
    {
        if self.is_open() {
            return Err(Fault::Open);
        }
        let config = match config_of(plain, units) {
            Ok(config) => config,
            Err(fault) => return Err(fault),
        };
        match new_dies(alloc, plain.dies, plain.blocks, plain.pages) {
            Ok(dies) => self.open(alloc, config, dies),
            Err(_) => Err(Fault::NoMemory),
        }
    }

    /// Takes a reply into the front of the room, and tells how many bytes it has. `None` where the
    /// room is too small for the longest one, of 4128 bytes.
    pub fn reply_into(
        &mut self,
        alloc: Global,
        into: &mut [u8],
        count: &mut usize,
    ) -> Option<Option<bool>>
        ensures { RepliesInto into.old into.new count.old count.new self.old.value result self.new.value }
    {
        if into.len() < MOST_REPLY {
            return None;
        }
        Some(self.reply(alloc, into, count))
    }

    /// Ends the job in flight of a die of the program's own, as `Held::done` does. `None` where
    /// `outcome_of` knows no such ending.
    pub fn done_so(&mut self, alloc: Global, die: u8, how: u8, page: &[u8]) -> Option<Option<bool>>
        ensures { EndsSo die how page.now self.old.value result self.new.value }
    {
        let outcome = outcome_of(how, page)?;
        Some(self.done(alloc, die, &outcome))
    }

    /// The job in flight of the die in memory fails, as `Held::fail` says. `None` where the number says
    /// nothing that may be left.
    pub fn fail_so(&mut self, alloc: Global, die: u8, left: u8) -> Option<Option<bool>>
        ensures { FailsSo die left self.old.value result self.new.value }
    {
        let left = Left::of(left)?;
        Some(self.fail(alloc, die, left))
    }

    /// The power goes away, as `Held::stop` says. `None` where a number says nothing that may be
    /// left.
    pub fn stop_with(&mut self, alloc: Global, numbers: &[u8]) -> Option<Option<Result<(), Fault>>>
        ensures { StopsAll numbers.now self.old.value result self.new.value }
    {
        let lefts = lefts_of(numbers)?;
        Some(self.stop(alloc, lefts.as_slice()))
    }
}
