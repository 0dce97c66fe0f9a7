//! The lock: when it begins, and what a locked device refuses and takes.
ghost use Rattle.std.specs.Prelude.{◌≡◌, ◌<◌, ◌≤◌, ◌+◌, ℕ, Bool, true, false, length, None};
ghost use Rattle.ufs_laws.specs.Runs.{IsAnswered, IsIdle};
ghost use Rattle.ufs_laws.specs.Table.{IsRefused, asks, flush, heard_as, read_at, write_at};
ghost use Rattle.ufs_spec.specs.declared.Cdb.{Cdb};
ghost use Rattle.ufs_spec.specs.declared.Cdb.TheVariants as cdb;
ghost use Rattle.ufs_spec.specs.declared.Place.{Place};
ghost use Rattle.ufs_spec.specs.Cells.{Cells};
ghost use Rattle.ufs_spec.specs.Disk.{Spot, erase_failed, program_failed, spot_of};
ghost use Rattle.ufs_spec.specs.Exchanges.{not_ready, response, write_protected};
ghost use Rattle.ufs_spec.specs.declared.exchanges.Status.TheVariants.{Good};
ghost use Rattle.ufs_spec.specs.Ledger.{next_number};
ghost use Rattle.ufs_spec.specs.Machine.{durable};
ghost use Rattle.ufs_spec.specs.Pages.{greatest_number};
ghost use Rattle.ufs_spec.specs.Refusals.{State, locked, mended, refusal};
ghost use Rattle.ufs_spec.specs.Translation.{Translation, count_blocks, free_slots, has_pending, is_bad, is_locked};

/// As many blocks may be bad as the configuration has spare ones, and one more locks the device. It
/// is locked too if no number is left for the next group.
pub fn the_lock_begins_past_the_spare_blocks()
    ensures spare { (t : Translation) → count_blocks t is_bad ≡ t.numbers.spare →
        next_number t.ledger ≤ greatest_number → is_locked t ≡ false }
    ensures one_more { (t : Translation) → count_blocks t is_bad ≡ t.numbers.spare + 1 →
        is_locked t ≡ true }
    ensures last_number { (t : Translation) → next_number t.ledger ≡ greatest_number + 1 →
        is_locked t ≡ true }
{}

/// A block whose program or erase failed is one bad block more. It counts once, however many of its
/// jobs fail.
pub fn a_bad_block_counts_once()
    ensures program { (t : Translation) (p : Place) (left : Cells) → p.die < t.numbers.dies →
        p.block < t.numbers.blocks → is_bad (t.disk.blocks (spot_of p)) ≡ false →
        count_blocks (record t { disk = program_failed t.disk p left }) is_bad
        ≡ count_blocks t is_bad + 1 }
    ensures erase { (t : Translation) (s : Spot) (left : Cells) → s.die < t.numbers.dies →
        s.block < t.numbers.blocks → is_bad (t.disk.blocks s) ≡ false →
        count_blocks (record t { disk = erase_failed t.disk s left }) is_bad
        ≡ count_blocks t is_bad + 1 }
    ensures program_again { (t : Translation) (p : Place) (left : Cells) →
        is_bad (t.disk.blocks (spot_of p)) ≡ true →
        count_blocks (record t { disk = program_failed t.disk p left }) is_bad
        ≡ count_blocks t is_bad }
    ensures erase_again { (t : Translation) (s : Spot) (left : Cells) →
        is_bad (t.disk.blocks s) ≡ true →
        count_blocks (record t { disk = erase_failed t.disk s left }) is_bad
        ≡ count_blocks t is_bad }
{}

/// A locked device refuses an UNMAP with a descriptor, as it does a WRITE, and takes a READ. A flush
/// is answered GOOD if all that was accepted is durable, with IMMED or without, locked or not.
pub fn a_locked_device_can_be_read()
    ensures unmap { (s : State) (tag : ℕ) → IsIdle s → mended s ≡ true → locked s ≡ true →
        IsRefused s (asks 0x20 0 tag (cdb.Unmap 24)) write_protected }
    ensures read { (s : State) (tag : ℕ) → IsIdle s → mended s ≡ true →
        refusal s (asks 0x40 0 tag (read_at 0 1)) ≡ None }
    ensures flush { (s : State) (tag : ℕ) (immediate : Bool) → IsIdle s → mended s ≡ true →
        has_pending s.translation ≡ false → length s.accepted ≤ durable s →
        IsAnswered s (heard_as (asks 0x00 0 tag (flush immediate))) (response 0 tag 4096 0 Good) }
{}

/// A locked device need not be mended to be read. Before it is mended a READ is taken, and so are
/// the frames of an RPMB request; a WRITE and an UNMAP with a descriptor are refused as on a mended
/// one, and a flush with nothing to wait for is answered GOOD. TEST UNIT READY alone tells that the
/// device is not mended.
pub fn a_locked_device_is_read_before_it_is_mended()
    ensures exists { (s : State) × IsIdle s × (mended s ≡ false) × (locked s ≡ true) }
    ensures read { (s : State) (tag : ℕ) → IsIdle s → locked s ≡ true →
        refusal s (asks 0x40 0 tag (read_at 0 1)) ≡ None }
    ensures write { (s : State) (tag : ℕ) → IsIdle s → locked s ≡ true →
        IsRefused s (asks 0x20 0 tag (write_at 0)) write_protected }
    ensures unmap { (s : State) (tag : ℕ) → IsIdle s → locked s ≡ true →
        IsRefused s (asks 0x20 0 tag (cdb.Unmap 24)) write_protected }
    ensures frames { (s : State) (tag : ℕ) → IsIdle s → locked s ≡ true → 3 ≤ free_slots s.translation →
        refusal s (asks 0x20 0xC4 tag (cdb.SecurityOut 0 512)) ≡ None }
    ensures flush { (s : State) (tag : ℕ) (immediate : Bool) → IsIdle s → mended s ≡ false → locked s ≡ true →
        has_pending s.translation ≡ false → length s.accepted ≤ durable s →
        IsAnswered s (heard_as (asks 0x00 0 tag (flush immediate))) (response 0 tag 4096 0 Good) }
    ensures test_unit_ready { (s : State) (tag : ℕ) → IsIdle s → mended s ≡ false →
        IsRefused s (asks 0x00 0 tag cdb.Nothing) not_ready }
{}
