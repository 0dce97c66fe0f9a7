//! How a host asks which commands a unit takes (SPC, REPORT SUPPORTED OPERATION CODES).
ghost use Rattle.std.specs.Prelude.{◌≡◌, ℕ, false, Some, None, length};
ghost use Rattle.ufs_laws.specs.Runs.{IsIdle};
ghost use Rattle.ufs_laws.specs.Table.{asks, protected_row};
ghost use Rattle.ufs_spec.specs.declared.Cdb.TheVariants as cdb;
ghost use Rattle.ufs_spec.specs.declared.Numbers.{Numbers};
ghost use Rattle.ufs_spec.specs.declared.operations.Told.TheVariants as told;
ghost use Rattle.ufs_spec.specs.Begins.{told_bytes};
ghost use Rattle.ufs_spec.specs.Configs.{with_profile};
ghost use Rattle.ufs_spec.specs.Exchanges.{invalid_field, invalid_operation};
ghost use Rattle.ufs_spec.specs.Identities.{operations_told};
ghost use Rattle.ufs_spec.specs.Refusals.{DeviceUnit, Request, State, UnitOf, has_attention, numbers_of, refusal, told_length};

/// A unit of a device of profile 1 tells which commands it takes, also before the device is mended:
/// all of them, or one by its operation code or by its service action. It refuses a code without the
/// service action that it needs, a service action of a code that has none, and other reporting
/// options. No other LUN takes the command, and no device of profile 0. A LUN that has an attention tells it first.
pub fn operations_are_reported()
    ensures profile_0 { (s : State) (tag : ℕ) → IsIdle s →
        refusal s (asks 0x40 0 tag (cdb.Tell told.Operations 0x00000000 464)) ≡ Some invalid_operation }
    ensures device { (s : State) (tag : ℕ) → numbers_of s ≡ with_profile protected_row 1 1 →
        has_attention s DeviceUnit ≡ false →
        refusal s (asks 0x40 0xD0 tag (cdb.Tell told.Operations 0x00000000 464)) ≡ Some invalid_operation }
    ensures all { (s : State) (tag : ℕ) → numbers_of s ≡ with_profile protected_row 1 1 →
        has_attention s (UnitOf 0) ≡ false →
        refusal s (asks 0x40 0 tag (cdb.Tell told.Operations 0x00000000 464)) ≡ None }
    ensures code { (s : State) (tag : ℕ) → numbers_of s ≡ with_profile protected_row 1 1 →
        has_attention s (UnitOf 0) ≡ false →
        refusal s (asks 0x40 0 tag (cdb.Tell told.Operations 0x01280000 464)) ≡ None }
    ensures action { (s : State) (tag : ℕ) → numbers_of s ≡ with_profile protected_row 1 1 →
        has_attention s (UnitOf 0) ≡ false →
        refusal s (asks 0x40 0 tag (cdb.Tell told.Operations 0x829E0010 464)) ≡ None }
    ensures code_with_actions { (s : State) (tag : ℕ) → numbers_of s ≡ with_profile protected_row 1 1 →
        has_attention s (UnitOf 0) ≡ false →
        refusal s (asks 0x40 0 tag (cdb.Tell told.Operations 0x019E0010 464)) ≡ Some invalid_field }
    ensures action_of_none { (s : State) (tag : ℕ) → numbers_of s ≡ with_profile protected_row 1 1 →
        has_attention s (UnitOf 0) ≡ false →
        refusal s (asks 0x40 0 tag (cdb.Tell told.Operations 0x02280000 464)) ≡ Some invalid_field }
    ensures third { (s : State) (tag : ℕ) → numbers_of s ≡ with_profile protected_row 1 1 →
        has_attention s (UnitOf 0) ≡ false →
        refusal s (asks 0x40 0 tag (cdb.Tell told.Operations 0x03280000 464)) ≡ Some invalid_field }
    ensures told { (s : State) (r : Request) (select : ℕ) →
        told_bytes s r told.Operations select ≡ operations_told select }
    ensures size { (n : Numbers) (lun select : ℕ) →
        told_length n lun told.Operations select ≡ length (operations_told select) }
{}
