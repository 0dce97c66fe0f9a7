//! The worked rows of a gap, as instances of what an array stands for.
ghost use Rattle.std.specs.Prelude.{◌≡◌, Some};
ghost use Rattle.ufs_laws.specs.GapRows.{HasSize, block_of, fence_mark, first_mark, gap, gap_fenced, gap_then_write, last_mark};
ghost use Rattle.ufs_spec.specs.declared.Numbers.{Numbers};
ghost use Rattle.ufs_spec.specs.Cells.{AreWithin};
ghost use Rattle.ufs_spec.specs.Keys.{data_key};
ghost use Rattle.ufs_spec.specs.Kept.{Holds, IsKept, IsNewestMark};
ghost use Rattle.ufs_spec.specs.Plain.{zero_block};
ghost use Rattle.ufs_spec.specs.Sound.{CellsSound};

/// Of three writes the second is torn: the first is kept, and the third is not, though all its pages are there.
pub fn gap_keeps_the_first_write()
    ensures within { (n : Numbers) → HasSize n → AreWithin n (gap n) }
    ensures mark { (n : Numbers) → IsNewestMark (gap n) (Some (first_mark n)) }
    ensures sound { (n : Numbers) → CellsSound (gap n) (Some (first_mark n)) }
    ensures kept { (n : Numbers) → IsKept (gap n) (Some (first_mark n)) 1 }
    ensures no_more { (n : Numbers) → IsKept (gap n) (Some (first_mark n)) 3 → ⊥ }
    ensures first_write { (n : Numbers) → Holds (gap n) (Some (first_mark n)) 2 (data_key 0 0) (block_of 0x11) }
    ensures torn_write { (n : Numbers) → Holds (gap n) (Some (first_mark n)) 2 (data_key 0 1) zero_block }
    ensures lost_write { (n : Numbers) → Holds (gap n) (Some (first_mark n)) 2 (data_key 0 2) zero_block }
{}

/// A mark with a fence keeps all up to its last number, and what was lost stays lost; behind the repair and a mark
/// without a fence a new write is kept, and the lost one still does not come back.
pub fn write_after_the_gap_is_kept()
    ensures fenced_within { (n : Numbers) → HasSize n → AreWithin n (gap_fenced n) }
    ensures fenced_mark { (n : Numbers) → IsNewestMark (gap_fenced n) (Some (fence_mark n)) }
    ensures fenced_sound { (n : Numbers) → CellsSound (gap_fenced n) (Some (fence_mark n)) }
    ensures fenced_kept { (n : Numbers) → IsKept (gap_fenced n) (Some (fence_mark n)) 3 }
    ensures fenced_first { (n : Numbers) → Holds (gap_fenced n) (Some (fence_mark n)) 4 (data_key 0 0) (block_of 0x11) }
    ensures fenced_torn { (n : Numbers) → Holds (gap_fenced n) (Some (fence_mark n)) 4 (data_key 0 1) zero_block }
    ensures fenced_lost { (n : Numbers) → Holds (gap_fenced n) (Some (fence_mark n)) 4 (data_key 0 2) zero_block }
    ensures within { (n : Numbers) → HasSize n → AreWithin n (gap_then_write n) }
    ensures mark { (n : Numbers) → IsNewestMark (gap_then_write n) (Some (last_mark n)) }
    ensures sound { (n : Numbers) → CellsSound (gap_then_write n) (Some (last_mark n)) }
    ensures kept { (n : Numbers) → IsKept (gap_then_write n) (Some (last_mark n)) 5 }
    ensures first_write { (n : Numbers) → Holds (gap_then_write n) (Some (last_mark n)) 6 (data_key 0 0) (block_of 0x11) }
    ensures torn_write { (n : Numbers) → Holds (gap_then_write n) (Some (last_mark n)) 6 (data_key 0 1) zero_block }
    ensures lost_write { (n : Numbers) → Holds (gap_then_write n) (Some (last_mark n)) 6 (data_key 0 2) zero_block }
    ensures new_write { (n : Numbers) → Holds (gap_then_write n) (Some (last_mark n)) 6 (data_key 0 3) (block_of 0x44) }
{}
