//! The laws of collection: which block is collected, and when.
ghost use Rattle.std.specs.Prelude.{◌≡◌, ◌≢◌, ◌⊎◌, ◌<◌, ◌^◌, true, Option, Some, None};
ghost use Rattle.ufs_spec.specs.Disk.{Spot};
ghost use Rattle.ufs_spec.specs.Ledger.{next_number};
ghost use Rattle.ufs_spec.specs.Pages.{greatest_number};
ghost use Rattle.ufs_spec.specs.Translation.{Plan, Translation, count_blocks, is_bad, is_locked, is_mended, is_step_due, turned, victim};
ghost use Rattle.power_loss.specs.Collection.{CanBeCollected, IsCollectionDue, IsVictim};

/// The victim is the block that has the fewest live pages of all that can be collected, the lowest of several, and
/// there is none only if no block can be collected.
pub fn the_victim_has_the_fewest_live_pages()
    ensures is { (t : Translation) (s : Spot) → victim t ≡ Some s → IsVictim t s }
    ensures none { (t : Translation) (s : Spot) → victim t ≡ None → CanBeCollected t s → ⊥ }
{}

/// A collection begins exactly when it is due, and it begins with the victim. None is due while a free block
/// is still to be erased for pages of it that may go.
pub fn collection_is_due_when_it_should()
    ensures due { (t : Translation) → IsCollectionDue t → is_step_due t ≡ true }
    ensures only { (t : Translation) → is_mended t.work.mending ≡ true → t.work.plan ≡ None → is_step_due t ≡ true →
        IsCollectionDue t }
    ensures begins { (t : Translation) → IsCollectionDue t →
        (plan : Plan) × ((turned t).work.plan ≡ Some plan) × IsVictim t plan.victim }
{}

/// The device is locked exactly if more blocks are bad than the configuration has spare ones, or no
/// number is left.
pub fn too_many_bad_blocks_lock()
    ensures locks { (t : Translation) →
        (t.numbers.spare < count_blocks t is_bad) ⊎ (greatest_number < next_number t.ledger) → is_locked t ≡ true }
    ensures only { (t : Translation) →
        is_locked t ≡ true → (t.numbers.spare < count_blocks t is_bad) ⊎ (greatest_number < next_number t.ledger) }
{}
