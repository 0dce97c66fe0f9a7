//! Which unit is meant, whether it is protected, and what it tells of itself and of the others.
ghost use Rattle.std.specs.Prelude.{◌≡◌, ◌∷◌, ◌++◌, [], ℕ, Bool, true, false, List, Option, Some, None, length};
ghost use Rattle.ufs_laws.specs.AskedQueries.{boot_row};
ghost use Rattle.ufs_laws.specs.Table.{asks, protected_row, read_at, write_at};
ghost use Rattle.ufs_spec.specs.declared.Cdb.{Cdb};
ghost use Rattle.ufs_spec.specs.declared.Cdb.TheVariants as cdb;
ghost use Rattle.ufs_spec.specs.declared.operations.Told.TheVariants as told;
ghost use Rattle.ufs_spec.specs.declared.Numbers.{Numbers};
ghost use Rattle.ufs_spec.specs.declared.UnitSpec.{UnitSpec};
ghost use Rattle.ufs_spec.specs.Cdbs.{length_of};
ghost use Rattle.ufs_spec.specs.Exchanges.{no_unit, write_protected};
ghost use Rattle.ufs_spec.specs.Identities.{device_type, inquiry_bytes, luns_bytes};
ghost use Rattle.ufs_spec.specs.Refusals.{State, boot_unit, is_protected, is_refused_write, mended, numbers_of, plain_now, refusal, told_length};

/// A unit with protection 1 is protected while fPowerOnWPEn is set, one with 2 while
/// fPermanentWPEn is set, and one with 0 never (JESD220, 14.1.4.5). What is protected is not
/// written.
pub fn each_protection_has_its_flag()
    ensures power_on { (s : State) (blocks boot : ℕ) → s.volatile.power_on ≡ true →
        is_protected s (Some (record { blocks = blocks; boot = boot; protect = 1 })) ≡ true }
    ensures power_off { (s : State) (blocks boot : ℕ) → s.volatile.power_on ≡ false →
        is_protected s (Some (record { blocks = blocks; boot = boot; protect = 1 })) ≡ false }
    ensures permanent { (s : State) (blocks boot : ℕ) → (plain_now s).permanent ≡ true →
        is_protected s (Some (record { blocks = blocks; boot = boot; protect = 2 })) ≡ true }
    ensures not_permanent { (s : State) (blocks boot : ℕ) → (plain_now s).permanent ≡ false →
        is_protected s (Some (record { blocks = blocks; boot = boot; protect = 2 })) ≡ false }
    ensures never { (s : State) (blocks boot : ℕ) →
        is_protected s (Some (record { blocks = blocks; boot = boot; protect = 0 })) ≡ false }
    ensures refused { (s : State) (u : Option UnitSpec) (address : ℕ) →
        is_protected s u ≡ true → is_refused_write s u (write_at address) ≡ true }
{}

/// A WRITE of blocks and an UNMAP with a descriptor are refused for a protected unit, by the flag
/// that protects it (JESD220, 14.1.4.5). A WRITE of no blocks and an UNMAP without a descriptor
/// change nothing, and are taken, also by a locked device.
pub fn a_protected_unit_is_not_changed()
    ensures power_on_write { (s : State) (tag : ℕ) → numbers_of s ≡ protected_row →
        mended s ≡ true → s.volatile.power_on ≡ true →
        refusal s (asks 0x20 1 tag (write_at 0)) ≡ Some write_protected }
    ensures power_on_unmap { (s : State) (tag : ℕ) → numbers_of s ≡ protected_row →
        mended s ≡ true → s.volatile.power_on ≡ true →
        refusal s (asks 0x20 1 tag (cdb.Unmap 24)) ≡ Some write_protected }
    ensures permanent_write { (s : State) (tag : ℕ) → numbers_of s ≡ protected_row →
        mended s ≡ true → (plain_now s).permanent ≡ true →
        refusal s (asks 0x20 2 tag (write_at 0)) ≡ Some write_protected }
    ensures permanent_unmap { (s : State) (tag : ℕ) → numbers_of s ≡ protected_row →
        mended s ≡ true → (plain_now s).permanent ≡ true →
        refusal s (asks 0x20 2 tag (cdb.Unmap 24)) ≡ Some write_protected }
    ensures no_blocks { (s : State) (tag : ℕ) (forced : Bool) → numbers_of s ≡ protected_row →
        mended s ≡ true → refusal s (asks 0x20 1 tag (cdb.Write 0 0 forced)) ≡ None }
    ensures header { (s : State) (tag : ℕ) → numbers_of s ≡ protected_row → mended s ≡ true →
        refusal s (asks 0x20 1 tag (cdb.Unmap 8)) ≡ None }
    ensures no_list { (s : State) (tag : ℕ) → numbers_of s ≡ protected_row → mended s ≡ true →
        refusal s (asks 0x20 1 tag (cdb.Unmap 0)) ≡ None }
{}

/// The boot setting names the unit with that boot number, and 0 names none. A READ of the boot LUN
/// is refused while it names none (JESD220, 13.1).
pub fn the_boot_setting_names_a_unit()
    ensures none { (n : Numbers) → boot_unit n 0 ≡ None }
    ensures a { boot_unit boot_row 1 ≡ Some 2 }
    ensures b { boot_unit boot_row 2 ≡ Some 1 }
    ensures read { (s : State) (tag address blocks : ℕ) → numbers_of s ≡ boot_row →
        (plain_now s).boot ≡ 0 →
        refusal s (asks 0x40 0xB0 tag (read_at address blocks)) ≡ Some no_unit }
{}

/// INQUIRY of unit 0 and of the boot LUN tells 36 bytes, of which 31 follow the fifth. REPORT LUNS
/// lists the three units, the four well-known ones, or all, each in eight bytes (SPC). Each has the
/// length of what it tells.
pub fn worked_identities()
    ensures inquiry { inquiry_bytes (device_type 0)
        ≡ (0x00 ∷ 0 ∷ 0x06 ∷ 0x02 ∷ 0x1F ∷ 0 ∷ 0 ∷ 0x02 ∷ [])
        ++ (0x50 ∷ 0x52 ∷ 0x4F ∷ 0x46 ∷ 0x49 ∷ 0x4C ∷ 0x45 ∷ 0x20 ∷ [])
        ++ (0x55 ∷ 0x46 ∷ 0x53 ∷ 0x20 ∷ 0x50 ∷ 0x52 ∷ 0x4F ∷ 0x46 ∷ [])
        ++ (0x49 ∷ 0x4C ∷ 0x45 ∷ 0x20 ∷ 0x32 ∷ 0x2E ∷ 0x31 ∷ 0x20 ∷ [])
        ++ (0x30 ∷ 0x30 ∷ 0x30 ∷ 0x31 ∷ []) }
    ensures well_known { inquiry_bytes (device_type 0xB0)
        ≡ (0x1E ∷ 0 ∷ 0x06 ∷ 0x02 ∷ 0x1F ∷ 0 ∷ 0 ∷ 0x02 ∷ [])
        ++ (0x50 ∷ 0x52 ∷ 0x4F ∷ 0x46 ∷ 0x49 ∷ 0x4C ∷ 0x45 ∷ 0x20 ∷ [])
        ++ (0x55 ∷ 0x46 ∷ 0x53 ∷ 0x20 ∷ 0x50 ∷ 0x52 ∷ 0x4F ∷ 0x46 ∷ [])
        ++ (0x49 ∷ 0x4C ∷ 0x45 ∷ 0x20 ∷ 0x32 ∷ 0x2E ∷ 0x31 ∷ 0x20 ∷ [])
        ++ (0x30 ∷ 0x30 ∷ 0x30 ∷ 0x31 ∷ []) }
    ensures inquiry_size { (lun type : ℕ) →
        length_of (told_length boot_row lun told.Identity 0) (cdb.Tell told.Identity 0 0xFF)
        ≡ length (inquiry_bytes type) }
    ensures units { luns_bytes boot_row 0 ≡ (0 ∷ 0 ∷ 0 ∷ 24 ∷ 0 ∷ 0 ∷ 0 ∷ 0 ∷ [])
        ++ (0x00 ∷ 0x00 ∷ 0 ∷ 0 ∷ 0 ∷ 0 ∷ 0 ∷ 0 ∷ []) ++ (0x00 ∷ 0x01 ∷ 0 ∷ 0 ∷ 0 ∷ 0 ∷ 0 ∷ 0 ∷ [])
        ++ (0x00 ∷ 0x02 ∷ 0 ∷ 0 ∷ 0 ∷ 0 ∷ 0 ∷ 0 ∷ []) }
    ensures well_knowns { luns_bytes boot_row 1 ≡ (0 ∷ 0 ∷ 0 ∷ 32 ∷ 0 ∷ 0 ∷ 0 ∷ 0 ∷ [])
        ++ (0xC1 ∷ 0x01 ∷ 0 ∷ 0 ∷ 0 ∷ 0 ∷ 0 ∷ 0 ∷ []) ++ (0xC1 ∷ 0x30 ∷ 0 ∷ 0 ∷ 0 ∷ 0 ∷ 0 ∷ 0 ∷ [])
        ++ (0xC1 ∷ 0x44 ∷ 0 ∷ 0 ∷ 0 ∷ 0 ∷ 0 ∷ 0 ∷ [])
        ++ (0xC1 ∷ 0x50 ∷ 0 ∷ 0 ∷ 0 ∷ 0 ∷ 0 ∷ 0 ∷ []) }
    ensures all { luns_bytes boot_row 2 ≡ (0 ∷ 0 ∷ 0 ∷ 56 ∷ 0 ∷ 0 ∷ 0 ∷ 0 ∷ [])
        ++ (0x00 ∷ 0x00 ∷ 0 ∷ 0 ∷ 0 ∷ 0 ∷ 0 ∷ 0 ∷ []) ++ (0x00 ∷ 0x01 ∷ 0 ∷ 0 ∷ 0 ∷ 0 ∷ 0 ∷ 0 ∷ [])
        ++ (0x00 ∷ 0x02 ∷ 0 ∷ 0 ∷ 0 ∷ 0 ∷ 0 ∷ 0 ∷ [])
        ++ (0xC1 ∷ 0x01 ∷ 0 ∷ 0 ∷ 0 ∷ 0 ∷ 0 ∷ 0 ∷ []) ++ (0xC1 ∷ 0x30 ∷ 0 ∷ 0 ∷ 0 ∷ 0 ∷ 0 ∷ 0 ∷ [])
        ++ (0xC1 ∷ 0x44 ∷ 0 ∷ 0 ∷ 0 ∷ 0 ∷ 0 ∷ 0 ∷ [])
        ++ (0xC1 ∷ 0x50 ∷ 0 ∷ 0 ∷ 0 ∷ 0 ∷ 0 ∷ 0 ∷ []) }
    ensures units_size { length (luns_bytes boot_row 0)
        ≡ length_of (told_length boot_row 0 told.Units 0) (cdb.Tell told.Units 0 0xFF) }
    ensures well_knowns_size { length (luns_bytes boot_row 1)
        ≡ length_of (told_length boot_row 0 told.Units 1) (cdb.Tell told.Units 1 0xFF) }
    ensures all_size { length (luns_bytes boot_row 2)
        ≡ length_of (told_length boot_row 0 told.Units 2) (cdb.Tell told.Units 2 0xFF) }
{}
