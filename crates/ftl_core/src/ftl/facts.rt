//! Facts that a caller's proof needs: each function here does nothing, and its contract says the fact.
ghost use Rattle.std.specs.Prelude.{◌≡◌, ◌+◌, ◌≤◌, length};
ghost use Rattle.ufs_spec.specs.Configs.{InRange};
ghost use Rattle.ufs_spec.specs.Keys.{IsBlock};

use super::Ftl;

impl Ftl {
    /// The configuration has at most 8 units.
    pub(super) fn has_few_units(&self)
        ensures { length self.now.numbers.units.items ≤ 8 }
    {
        let _ = &self.config;
    }

    /// At most 1024 slots are taken by pending pages and claims.
    pub(super) fn has_few_slots(&self)
        ensures { length self.now.pages + length self.now.claims ≤ 1024 }
    {
        let _numbers = self.config.numbers();
        let _pending = self.cache.pending();
    }

    /// The numbers of the configuration are in their ranges.
    pub(super) fn has_numbers_in_range(&self)
        ensures { InRange self.now.numbers }
    {
        let _ = self.config.numbers();
    }
}

/// 4096 bytes are a block.
pub(super) fn bytes_are_a_block(bytes: &[u8])
    requires { length bytes.now ≡ 4096 }
    ensures { IsBlock bytes.now }
{}
