//! A block that stays where it is.
ghost use Rattle.std.specs.Prelude.{◌≡◌, ◌≤◌, ◌+◌, ◌++◌, IfOk, ℕ, List, length, take, drop};
ghost use Rattle.ufs_bytes.specs.Blocks.{zero_block};

use crate::fields::Block;
use std::alloc::{AllocError, Global};
use std::marker::Model;

/// A block behind a pointer: whoever moves it moves the pointer, and its bytes stay where they are.
#[derive(Drop)]
pub struct Body {
    bytes: Box<Block>,
}

impl Model for Body {
    ghost use Rattle.std.specs.Prelude.{ℕ, List};

    ghost Value = { List ℕ };

    ghost view = { λ b. b.bytes.value };
}

impl Body {
    /// A block of zeros.
    ///
    /// # Errors
    ///
    /// Only if memory was refused.
    pub fn new(alloc: Global) -> Result<Body, AllocError>
        ensures { IfOk result (λ b. b ≡ zero_block) }
    {
        match Box::new(alloc, zeros()) {
            Ok(bytes) => Ok(Body { bytes }),
            Err(_) => Err(AllocError),
        }
    }

    /// Its bytes.
    pub fn block(&self) -> &Block
        ensures { result.now ≡ self.now }
    {
        &self.bytes
    }

    /// From now on it holds these 4096 bytes.
    pub fn set(&mut self, block: &[u8])
        requires { length block.now ≡ 4096 }
        ensures { self.new ≡ block.now }
    {
        self.bytes.copy_from_slice(block);
    }

    /// Its bytes from an offset on are these from now on, and all others stay.
    pub fn set_part(&mut self, offset: usize, bytes: &[u8])
        requires { offset + length bytes.now ≤ 4096 }
        ensures { self.new ≡ take offset self.old ++ (bytes.now ++ drop (offset + length bytes.now) self.old) }
    {
        put(&mut *self.bytes, offset, bytes);
    }

    /// From now on it holds zeros.
    pub fn clear(&mut self)
        ensures { self.new ≡ zero_block }
    {
        *self.bytes = zeros();
    }
}

/// These bytes stand in the row from an offset on, and all others stay.
fn put(row: &mut [u8], offset: usize, bytes: &[u8])
    requires { offset + length bytes.now ≤ length row.old }
    ensures { row.new ≡ take offset row.old ++ (bytes.now ++ drop (offset + length bytes.now) row.old) }
{
    row[offset..offset + bytes.len()].copy_from_slice(bytes);
}

/// A block of zeros.
#[tactic(auto, unfolding(crate::specs::Blocks::zero_block))]
fn zeros() -> Block
    ensures { result ≡ zero_block }
{
    [0; 4096]
}
