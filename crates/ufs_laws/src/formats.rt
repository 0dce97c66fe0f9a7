//! What stands on the dies, as bytes that were worked out by hand.
ghost use Rattle.std.specs.Prelude.{◌≡◌, ◌-◌, ◌∷◌, ◌++◌, [], ℕ, List, None, Some, false, length, replicate, true};
ghost use Rattle.sha2.specs.Sha256.{sha256};
ghost use Rattle.ufs_laws.specs.WorkedBytes.{mark_row, said_row, small_row, tag_of_size};
ghost use Rattle.ufs_spec.specs.declared.ConfigFault.TheVariants.{TooLittleSpare};
ghost use Rattle.ufs_spec.specs.declared.Tag.{Tag};
ghost use Rattle.ufs_spec.specs.Configs.{config_fault};
ghost use Rattle.ufs_spec.specs.Keys.{settings_bytes};
ghost use Rattle.ufs_spec.specs.Pages.{mark_bytes, old_front, seal_page, spare_front, tag_in, zero_filled};

/// The first 64 spare bytes of a page, in version 2 with index and size in two bytes each, and in version 1 with one
/// byte each; and the tag that is read off them. The SHA-256 of body and front follows.
pub fn worked_fronts()
    ensures written { spare_front (tag_of_size 0x80) ≡ (0x55 ∷ 0x46 ∷ 0x53 ∷ 0x50 ∷ 2 ∷ 2 ∷ 3 ∷ 0 ∷ [])
        ++ (1 ∷ 2 ∷ 3 ∷ 4 ∷ 0 ∷ 0 ∷ 0 ∷ 0 ∷ []) ++ (0 ∷ 0 ∷ 5 ∷ 6 ∷ 0 ∷ 7 ∷ 0 ∷ 0x80 ∷ [])
        ++ (0 ∷ 0 ∷ 0 ∷ 0 ∷ 0 ∷ 0 ∷ 9 ∷ 0 ∷ []) ++ replicate 32 0 }
    ensures old { old_front (tag_of_size 0x20) ≡ (0x55 ∷ 0x46 ∷ 0x53 ∷ 0x50 ∷ 1 ∷ 2 ∷ 3 ∷ 0 ∷ [])
        ++ (1 ∷ 2 ∷ 3 ∷ 4 ∷ 0 ∷ 0 ∷ 0 ∷ 0 ∷ []) ++ (0 ∷ 0 ∷ 5 ∷ 6 ∷ 7 ∷ 0x20 ∷ 0 ∷ 0 ∷ [])
        ++ (0 ∷ 0 ∷ 0 ∷ 0 ∷ 0 ∷ 0 ∷ 9 ∷ 0 ∷ []) ++ replicate 32 0 }
    ensures written_read { tag_in (spare_front (tag_of_size 0x80)) ≡ tag_of_size 0x80 }
    ensures old_read { tag_in (old_front (tag_of_size 0x20)) ≡ tag_of_size 0x20 }
    ensures check { (t : Tag) (b : List ℕ) → (seal_page t b).spare ≡ spare_front t ++ sha256 (b ++ spare_front t) }
{}

/// The body of a settings page: bBootLunEn, fPermanentWPEn, and for each RPMB region in order whether it has a key, the
/// key and the write counter. Zeros fill it up.
pub fn worked_settings()
    ensures all { settings_bytes 2 true said_row ≡ zero_filled 4096
        ((2 ∷ 1 ∷ 1 ∷ 0 ∷ []) ++ replicate 32 0xA0 ++ (1 ∷ 2 ∷ 3 ∷ 4 ∷ [])
        ++ (0 ∷ 0 ∷ 0 ∷ 0 ∷ []) ++ replicate 32 0 ++ (0 ∷ 0 ∷ 0 ∷ 5 ∷ [])
        ++ (1 ∷ 0 ∷ 0 ∷ 0 ∷ []) ++ replicate 32 0xC2 ++ (0 ∷ 0 ∷ 0 ∷ 6 ∷ [])
        ++ (1 ∷ 0 ∷ 0 ∷ 0 ∷ []) ++ replicate 32 0xD3 ++ (0 ∷ 0 ∷ 0 ∷ 7 ∷ [])) }
    ensures boot { settings_bytes 1 false [] ≡ zero_filled 4096 (1 ∷ replicate 159 0) }
    ensures filled { (n : ℕ) (bytes : List ℕ) → zero_filled n bytes ≡ bytes ++ replicate (n - length bytes) 0 }
{}

/// The body of a mark: the first and the last number of its fence, the numbers of the configuration, and eight bytes
/// for each unit in order. Without a fence both of its numbers are zero.
pub fn worked_marks()
    ensures fenced { mark_bytes mark_row (Some (record { first = 5; last = 0x0607 })) ≡ zero_filled 4096
        ((0 ∷ 0 ∷ 0 ∷ 0 ∷ 0 ∷ 0 ∷ 0 ∷ 5 ∷ []) ++ (0 ∷ 0 ∷ 0 ∷ 0 ∷ 0 ∷ 0 ∷ 6 ∷ 7 ∷ [])
        ++ (4 ∷ 2 ∷ 1 ∷ 0x10 ∷ 0 ∷ 0x80 ∷ 1 ∷ 0 ∷ []) ++ (1 ∷ 0x40 ∷ 0 ∷ 9 ∷ 2 ∷ 3 ∷ 5 ∷ 0 ∷ [])
        ++ (0 ∷ 1 ∷ 2 ∷ 3 ∷ 1 ∷ 0 ∷ 0 ∷ 0 ∷ []) ++ (0 ∷ 0 ∷ 0 ∷ 64 ∷ 2 ∷ 1 ∷ 0 ∷ 0 ∷ [])) }
    ensures without_fence { mark_bytes mark_row None ≡ zero_filled 4096 (replicate 16 0
        ++ (4 ∷ 2 ∷ 1 ∷ 0x10 ∷ 0 ∷ 0x80 ∷ 1 ∷ 0 ∷ []) ++ (1 ∷ 0x40 ∷ 0 ∷ 9 ∷ 2 ∷ 3 ∷ 5 ∷ 0 ∷ [])
        ++ (0 ∷ 1 ∷ 2 ∷ 3 ∷ 1 ∷ 0 ∷ 0 ∷ 0 ∷ []) ++ (0 ∷ 0 ∷ 0 ∷ 64 ∷ 2 ∷ 1 ∷ 0 ∷ 0 ∷ [])) }
{}

/// A unit of 222 blocks, 32 pages of RPMB area, two for the settings and four for each of 64 slots fill eight blocks of
/// 64 pages. With the twelve that one die collects with and four spare ones that makes 24: a configuration that just
/// fits. A block less, a block more of the unit or one more spare block is too much.
pub fn worked_configurations()
    ensures fits { config_fault (small_row 24 222 4) ≡ None }
    ensures a_block_short { config_fault (small_row 23 222 4) ≡ Some TooLittleSpare }
    ensures a_page_more { config_fault (small_row 24 223 4) ≡ Some TooLittleSpare }
    ensures a_spare_block_more { config_fault (small_row 24 222 5) ≡ Some TooLittleSpare }
{}
