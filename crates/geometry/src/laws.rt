//! What holds of the definitions themselves. The function does nothing: its contract is a law.
ghost use Rattle.std.specs.Prelude.{◌≡◌, ◌∷◌, [], ℕ, List, None, Some};
ghost use Rattle.ufs_spec.specs.Configs.{config_fault, numbers_of, with_profile};
ghost use Rattle.ufs_spec.specs.declared.Numbers.{Numbers};
ghost use Rattle.ufs_spec.specs.declared.UnitSpec.{UnitSpec};
ghost use Rattle.ufs_spec.specs.declared.faults.ConfigFault.TheVariants.{Range};
ghost use Rattle.geometry.specs.Rows.{row};

/// A device has profile 0 and serial number 1, and with another profile and serial number it stays the
/// same else. One of 4 dies of 16 blocks of 64 pages, with a unit of 256 blocks, may have profile 1 and
/// any serial number, but not profile 2.
pub fn a_profile_is_0_or_1()
    ensures profile { (dies blocks pages slots spare : ℕ) (units : List UnitSpec) (rpmb : List ℕ) →
        (numbers_of dies blocks pages units rpmb slots spare).profile ≡ 0 }
    ensures serial { (dies blocks pages slots spare : ℕ) (units : List UnitSpec) (rpmb : List ℕ) →
        (numbers_of dies blocks pages units rpmb slots spare).serial ≡ 1 }
    ensures other_profile { (n : Numbers) (profile serial : ℕ) →
        (with_profile n profile serial).profile ≡ profile }
    ensures other_serial { (n : Numbers) (profile serial : ℕ) →
        (with_profile n profile serial).serial ≡ serial }
    ensures same_else { (n : Numbers) (profile serial : ℕ) →
        with_profile (with_profile n profile serial) n.profile n.serial ≡ n }
    ensures known { (serial : ℕ) → config_fault (with_profile row 1 serial) ≡ None }
    ensures unknown { (serial : ℕ) → config_fault (with_profile row 2 serial) ≡ Some Range }
{}
