//! The blocks that are free: at an opening, and in each later state of a life.
ghost use Rattle.std.specs.Prelude.{◌≡◌, ◌≢◌, Bool, Option};
ghost use Rattle.ufs_spec.specs.Cells.{AreWithin, Cells, Mark, Nothing};
ghost use Rattle.ufs_spec.specs.Disk.{BlockState, Free, MayErase, Spot, spot_of};
ghost use Rattle.ufs_spec.specs.Openings.{AreFirstBlocks, IsFree, IsSpare};
ghost use Rattle.ufs_spec.specs.Sound.{CellsSound};
ghost use Rattle.ufs_spec.specs.Translation.{Translation};
ghost use Rattle.ufs_spec.specs.declared.configs.Numbers.{Numbers};
ghost use Rattle.ufs_spec.specs.declared.flash.Place.{Place};
ghost use Rattle.power_loss.specs.FreeBlocks.{AreFoundFree, blocks_by};
ghost use Rattle.power_loss.specs.Invariant.{Valid};

/// Over sound cells there is one answer to which blocks are free when a life begins, and it is what is found by going
/// through the blocks, the older first.
pub fn first_blocks_are_one()
    ensures found { (n : Numbers) (c : Cells) (m : Option Mark) (bad free : Spot → Bool) →
        AreWithin n c → CellsSound c m → AreFoundFree c m bad free → AreFirstBlocks c m bad (blocks_by bad free) }
    ensures some { (n : Numbers) (c : Cells) (m : Option Mark) (bad : Spot → Bool) →
        AreWithin n c → CellsSound c m → (free : Spot → Bool) × AreFoundFree c m bad free }
    ensures one { (n : Numbers) (c : Cells) (m : Option Mark) (bad : Spot → Bool) (a b : Spot → BlockState) (s : Spot) →
        AreWithin n c → AreFirstBlocks c m bad a → AreFirstBlocks c m bad b → a s ≡ b s }
{}

/// Over any cells, sound or not, there is one answer to which blocks are found free by their tags.
pub fn found_free_is_one()
    ensures some { (n : Numbers) (c : Cells) (m : Option Mark) (bad : Spot → Bool) →
        AreWithin n c → (free : Spot → Bool) × AreFoundFree c m bad free }
    ensures one { (n : Numbers) (c : Cells) (m : Option Mark) (bad a b : Spot → Bool) (s : Spot) →
        AreWithin n c → AreFoundFree c m bad a → AreFoundFree c m bad b → a s ≡ b s }
{}

/// Each page of a free block may go, whatever is under way: at an opening, while the device is mended, and later.
pub fn free_pages_may_go()
    ensures may_go { (t : Translation) (s : Spot) → Valid t → t.disk.blocks s ≡ Free → MayErase t.disk s }
    // What stands in for it lies outside of all free blocks, so two free blocks are never all that is left of a page.
    ensures kept { (t : Translation) (p : Place) → Valid t → t.disk.blocks (spot_of p) ≡ Free →
        t.disk.cells p ≢ Nothing → IsSpare t.disk.cells t.ledger.newest (IsFree t.disk.blocks) (t.disk.cells p) }
{}
