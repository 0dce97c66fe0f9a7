//! The writes of a host, as their commands ask for them and their blocks come.
ghost use Rattle.std.specs.Prelude.{◌≡◌, OnOk};
ghost use Rattle.ufs_spec.specs.Commands.{command_of};
ghost use Rattle.journal.specs.Heard.{begun_write};
ghost use Rattle.journal.specs.Writes.{is_whole, with_block, write_of};

use std::alloc::Global;
use std::marker::Model;
use ufs_spec::{Block, Cmd, NoMemory};

/// A write of `count` blocks, and those of them that came.
#[derive(Drop)]
pub(crate) struct OpenWrite {
    unit: u8,
    address: u32,
    count: usize,
    is_forced: bool,
    blocks: Vec<Block>,
}

impl Model for OpenWrite {
    ghost use Rattle.journal.specs.Writes.{WriteBegun};

    ghost Value = { WriteBegun };

    ghost view = { λ w. record {
      unit = w.unit;
      address = w.address;
      count = w.count;
      forced = w.is_forced;
      blocks = w.blocks.items;
    } };
}

impl OpenWrite {
    /// One block more came.
    pub(crate) fn add(&mut self, block: Block) -> Result<(), NoMemory>
        ensures { OnOk result (self.new ≡ with_block self.old block) }
    {
        match self.blocks.push(block) {
            Ok(()) => Ok(()),
            Err(_) => Err(NoMemory),
        }
    }

    /// Whether all its blocks came.
    pub(crate) fn is_whole(&self) -> bool
        ensures { result ≡ is_whole self.now }
    {
        self.blocks.len() >= self.count
    }

    /// Whether its GOOD acknowledges it as durable.
    pub(crate) fn is_forced(&self) -> bool
        ensures { result ≡ self.now.forced }
    {
        self.is_forced
    }

    /// The command that it is.
    pub(crate) fn into_command(self) -> Cmd
        ensures { command_of result ≡ write_of self }
    {
        Cmd::Write {
            unit: self.unit,
            address: self.address,
            blocks: self.blocks,
        }
    }
}

/// A write of 1 block or more, none of which came yet. No unit has an address that four bytes do not hold.
pub(crate) fn begun_write(
    alloc: Global,
    unit: u8,
    address: u64,
    count: u32,
    is_forced: bool,
) -> Option<OpenWrite>
    ensures { result ≡ begun_write unit address count is_forced }
{
    let address = u32::try_from(address).ok()?;
    if count == 0 {
        return None;
    }
    Some(OpenWrite {
        unit,
        address,
        count: count as usize,
        is_forced,
        blocks: Vec::new(alloc),
    })
}
