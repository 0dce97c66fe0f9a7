//! Pages whose block is zeros: of these the SHA-256 of the block is taken once, and goes on with
//! the spare bytes of each page.
ghost use Rattle.std.specs.Prelude.{◌≡◌, ◌↔◌, IsTrue};
ghost use Rattle.sha256_lanes.specs.One.{HoldsOne};
ghost use Rattle.ufs_bytes.specs.Blocks.{zero_block};
ghost use Rattle.ufs_spec.specs.Pages.{IsTag, check_of, seal_page};
ghost use Rattle.ufs_spec.specs.declared.flash.Page.{Page};

use crate::check::check_bytes;
use crate::front::front_of;
use crate::page::spare_of;
use sha256_lanes::OneHash;
use std::marker::Model;
use ufs_spec::{Block, Page, Tag};

// A block of zeros, in one place: who compares with it sets none.
static ZEROS: Block = [0; 4096];

/// A SHA-256 that has taken in a block of zeros. A device makes one, and seals its pages with it:
/// one whose block is zeros takes the SHA-256 of its 64 spare bytes alone.
#[derive(Drop)]
pub struct ZeroSeal {
    begun: OneHash,
}

impl Model for ZeroSeal {
    ghost use Rattle.sha256_lanes.specs.One.{HoldsOne};
    ghost use Rattle.ufs_bytes.specs.Blocks.{zero_block};

    ghost Value = { Unit {0} };

    ghost view = { λ s. tt };

    ghost invariant = { λ s. HoldsOne s.begun zero_block };
}

impl ZeroSeal {
    /// Takes in the zeros: one SHA-256 of 4096 bytes.
    pub fn new() -> ZeroSeal {
        let mut begun = OneHash::new();
        begun.update(zeros());
        ZeroSeal { begun }
    }

    /// The page of a tag and a block, as [`crate::seal`] makes it.
    pub fn seal(&self, tag: &Tag, body: &Block) -> Page
        requires { IsTag tag.now }
        ensures { result ≡ seal_page tag.now body.now }
    {
        let spare = self.spare(tag, body);
        Page { body: *body, spare }
    }

    /// The spare bytes of that page.
    pub(crate) fn spare(&self, tag: &Tag, body: &Block) -> [u8; 96]
        requires { IsTag tag.now }
        ensures { result ≡ (seal_page tag.now body.now).spare }
    {
        let front = front_of(tag);
        let check = self.check_bytes(body, &front);
        spare_of(&front, &check)
    }

    /// Another one.
    pub(crate) fn another(&self) -> ZeroSeal {
        ZeroSeal { begun: self.begun }
    }

    // The check of a block and of the first 64 spare bytes.
    fn check_bytes(&self, body: &Block, front: &[u8; 64]) -> [u8; 32]
        ensures { result ≡ check_of body.now front.now }
    {
        if is_zeros(body) {
            self.check_of_zeros(front)
        } else {
            check_bytes(body, front)
        }
    }

    // The check of zeros and of the first 64 spare bytes.
    fn check_of_zeros(&self, front: &[u8; 64]) -> [u8; 32]
        ensures { result ≡ check_of zero_block front.now }
    {
        self.begun.finish(front)
    }
}

// Whether a block is zeros.
fn is_zeros(body: &Block) -> bool
    ensures { IsTrue result ↔ (body.now ≡ zero_block) }
{
    body == zeros()
}

// A block of zeros.
#[tactic(auto, unfolding(ufs_bytes::specs::Blocks::zero_block))]
fn zeros() -> &'static Block
    ensures { result.now ≡ zero_block }
{
    &ZEROS
}
