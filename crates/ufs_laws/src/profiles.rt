//! What a device of profile 1 takes, refuses and tells, and that no mark holds its profile.
ghost use Rattle.std.specs.Prelude.{◌≡◌, ◌++◌, ◌∷◌, [], ℕ, Bool, true, false, Option, Some, None, length, replicate};
ghost use Rattle.ufs_laws.specs.Runs.{IsIdle};
ghost use Rattle.ufs_laws.specs.Table.{IsRefused, asks, asks_in, profile_1_row, pushed_out};
ghost use Rattle.ufs_spec.specs.declared.Cdb.TheVariants as cdb;
ghost use Rattle.ufs_spec.specs.declared.Fence.{Fence};
ghost use Rattle.ufs_spec.specs.declared.Numbers.{Numbers};
ghost use Rattle.ufs_spec.specs.declared.UnitSpec.{UnitSpec};
ghost use Rattle.ufs_spec.specs.declared.exchanges.Status.TheVariants.{CheckCondition, Good};
ghost use Rattle.ufs_spec.specs.declared.operations.TheConstants.{INQUIRY, MODE_SENSE_10, MODE_SENSE_6, SERVICE_ACTION_IN_16};
ghost use Rattle.ufs_spec.specs.declared.operations.Told.TheVariants as told;
ghost use Rattle.ufs_spec.specs.CdbFields.{spelled_cdb};
ghost use Rattle.ufs_spec.specs.Cells.{Mark};
ghost use Rattle.ufs_spec.specs.Configs.{with_profile};
ghost use Rattle.ufs_spec.specs.Exchanges.{Answering, invalid_field, invalid_operation, not_ready, out_of_range};
ghost use Rattle.ufs_spec.specs.Exchanges.{saving_unsupported, self_test_failed};
ghost use Rattle.ufs_spec.specs.Identities.{long_capacity_bytes, modes_told, page_bytes, short_modes_told};
ghost use Rattle.ufs_spec.specs.Begins.{begun, told_bytes};
ghost use Rattle.ufs_spec.specs.Openings.{HasNumbers};
ghost use Rattle.ufs_spec.specs.Refusals.{Request, State, UnitOf, has_attention, is_protected, locked, mended, numbers_of, refusal, told_length};
ghost use Rattle.ufs_spec.specs.Refusals.{unit_numbers_of};
ghost use Rattle.ufs_spec.specs.Sound.{MarkSuits};
ghost use Rattle.ufs_spec.specs.Translation.{MarkStep, Translation, step_cell};

/// The lines of the table that came with profile 1: for each a request that a later line would refuse with another
/// status, or that no other line would refuse. Of lines that no clause tells apart `lines_that_never_meet` says that
/// never both apply. Saved mode pages are refused by 5/39/00 and a self-test by 4/3E/03 (SPC).
pub fn each_line_of_profile_1_counts()
    // MODE SENSE(10) on a device of profile 0.
    ensures operation { (s : State) (tag : ℕ) → IsIdle s →
        IsRefused s (asks 0x40 0 tag (cdb.Tell told.Modes 0x0800 28)) invalid_operation }
    // SERVICE ACTION IN(16) of another service action, and with a bit set above the one of READ CAPACITY(16).
    ensures action { (s : State) (tag : ℕ) → numbers_of s ≡ profile_1_row →
        has_attention s (UnitOf 0) ≡ false →
        refusal s (asks_in 0x40 0 tag (SERVICE_ACTION_IN_16 ∷ 0x12 ∷ replicate 14 0)) ≡ Some invalid_operation }
    ensures above_the_action { (s : State) (tag : ℕ) → numbers_of s ≡ profile_1_row →
        has_attention s (UnitOf 0) ≡ false →
        refusal s (asks_in 0x40 0 tag (SERVICE_ACTION_IN_16 ∷ 0x30 ∷ replicate 14 0)) ≡ Some invalid_field }
    // READ(10) with DPO on a device of profile 0: past the end of unit 0, and with nothing else wrong.
    ensures beyond { (s : State) (tag : ℕ) → IsIdle s →
        IsRefused s (asks_in 0x40 0 tag (pushed_out 1)) invalid_field }
    ensures beyond_alone { (s : State) (tag : ℕ) → IsIdle s →
        IsRefused s (asks_in 0x40 0 tag (pushed_out 0)) invalid_field }
    // INQUIRY of a page of the device as a whole that only a unit has, of a page without EVPD, MODE SENSE(10) of all
    // subpages of one page, and MODE SENSE(6) of a page that there is not.
    ensures page { (s : State) (tag : ℕ) → numbers_of s ≡ profile_1_row →
        refusal s (asks 0x40 0xD0 tag (cdb.Tell told.Page 0xB0 64)) ≡ Some invalid_field }
    ensures page_without_evpd { (s : State) (tag : ℕ) → numbers_of s ≡ profile_1_row →
        refusal s (asks_in 0x40 0 tag (INQUIRY ∷ 0 ∷ 0x80 ∷ 0 ∷ 0x40 ∷ replicate 11 0)) ≡ Some invalid_field }
    ensures subpages { (s : State) (tag : ℕ) → numbers_of s ≡ profile_1_row →
        has_attention s (UnitOf 0) ≡ false →
        refusal s (asks_in 0x40 0 tag (MODE_SENSE_10 ∷ 0 ∷ 0x08 ∷ 0xFF ∷ replicate 12 0)) ≡ Some invalid_field }
    ensures no_mode_page { (s : State) (tag : ℕ) → numbers_of s ≡ profile_1_row →
        has_attention s (UnitOf 0) ≡ false →
        refusal s (asks_in 0x40 0 tag (MODE_SENSE_6 ∷ 0 ∷ 0x1C ∷ 0 ∷ 0x40 ∷ replicate 11 0)) ≡ Some invalid_field }
    // MODE SENSE of saved values, in both forms, without the flag of its direction.
    ensures saved { (s : State) (tag : ℕ) → numbers_of s ≡ profile_1_row →
        has_attention s (UnitOf 0) ≡ false →
        refusal s (asks 0x00 0 tag (cdb.Tell told.Modes 0xC800 28)) ≡ Some saving_unsupported }
    ensures saved_in_short { (s : State) (tag : ℕ) → numbers_of s ≡ profile_1_row →
        has_attention s (UnitOf 0) ≡ false →
        refusal s (asks 0x00 0 tag (cdb.Tell told.ShortModes 0xFF00 48)) ≡ Some saving_unsupported }
    ensures saved_sense { saving_unsupported ≡ CheckCondition (record { key = 0x05; asc = 0x39; ascq = 0x00 }) }
    // PRE-FETCH past the end of unit 0, of a block and of none, before the device is mended.
    ensures past { (s : State) (tag : ℕ) → numbers_of s ≡ profile_1_row →
        has_attention s (UnitOf 0) ≡ false →
        refusal s (asks 0x00 0 tag (cdb.Prefetch 256 1)) ≡ Some out_of_range }
    ensures past_without_blocks { (s : State) (tag : ℕ) → numbers_of s ≡ profile_1_row →
        has_attention s (UnitOf 0) ≡ false →
        refusal s (asks 0x00 0 tag (cdb.Prefetch 257 0)) ≡ Some out_of_range }
    // PRE-FETCH and SEND DIAGNOSTIC before the device is mended.
    ensures prefetch_ready { (s : State) (tag : ℕ) → numbers_of s ≡ profile_1_row →
        has_attention s (UnitOf 0) ≡ false → mended s ≡ false →
        locked s ≡ false → refusal s (asks 0x00 0 tag (cdb.Prefetch 0 1)) ≡ Some not_ready }
    ensures diagnostic_ready { (s : State) (tag : ℕ) → numbers_of s ≡ profile_1_row →
        has_attention s (UnitOf 0) ≡ false → mended s ≡ false →
        locked s ≡ false → refusal s (asks 0x00 0 tag (cdb.Diagnose true)) ≡ Some not_ready }
    // SEND DIAGNOSTIC with SELFTEST of a locked device.
    ensures test { (s : State) (tag : ℕ) → numbers_of s ≡ profile_1_row →
        has_attention s (UnitOf 0) ≡ false → locked s ≡ true →
        refusal s (asks 0x00 0 tag (cdb.Diagnose true)) ≡ Some self_test_failed }
    ensures test_sense { self_test_failed ≡ CheckCondition (record { key = 0x04; asc = 0x3E; ascq = 0x03 }) }
{}

/// A device of profile 1 takes DPO and a group number, pages of vital product data and mode pages, also as they are at
/// delivery and which of their bits may be changed, READ CAPACITY(16), PRE-FETCH and SEND DIAGNOSTIC (SPC, SBC). A
/// PRE-FETCH may name more blocks than a command may read, and none at the end of a unit. A device that is in order
/// passes its self-test, and one that is locked takes SEND DIAGNOSTIC without SELFTEST.
pub fn profile_1_takes_more()
    ensures pushed_out { (s : State) (tag : ℕ) → numbers_of s ≡ profile_1_row →
        has_attention s (UnitOf 0) ≡ false → mended s ≡ true →
        refusal s (asks_in 0x40 0 tag (pushed_out 0)) ≡ None }
    ensures page { (s : State) (tag : ℕ) → numbers_of s ≡ profile_1_row →
        refusal s (asks 0x40 0 tag (cdb.Tell told.Page 0xB0 64)) ≡ None }
    ensures modes { (s : State) (tag : ℕ) → numbers_of s ≡ profile_1_row →
        has_attention s (UnitOf 0) ≡ false →
        refusal s (asks 0x40 0 tag (cdb.Tell told.Modes 0x0800 28)) ≡ None }
    ensures delivered { (s : State) (tag : ℕ) → numbers_of s ≡ profile_1_row →
        has_attention s (UnitOf 0) ≡ false →
        refusal s (asks 0x40 0 tag (cdb.Tell told.Modes 0xBFFF 52)) ≡ None }
    ensures changeable { (s : State) (tag : ℕ) → numbers_of s ≡ profile_1_row →
        has_attention s (UnitOf 0) ≡ false →
        refusal s (asks 0x40 0 tag (cdb.Tell told.ShortModes 0x7F00 48)) ≡ None }
    ensures capacity { (s : State) (tag : ℕ) → numbers_of s ≡ profile_1_row →
        has_attention s (UnitOf 0) ≡ false →
        refusal s (asks 0x40 0 tag (cdb.Tell told.LongCapacity 0 32)) ≡ None }
    ensures prefetch { (s : State) (tag : ℕ) → numbers_of s ≡ profile_1_row →
        has_attention s (UnitOf 0) ≡ false → mended s ≡ true →
        refusal s (asks 0x00 0 tag (cdb.Prefetch 0 256)) ≡ None }
    ensures prefetch_of_none { (s : State) (tag : ℕ) → numbers_of s ≡ profile_1_row →
        has_attention s (UnitOf 0) ≡ false → mended s ≡ true →
        refusal s (asks 0x00 0 tag (cdb.Prefetch 256 0)) ≡ None }
    ensures test { (s : State) (tag : ℕ) → numbers_of s ≡ profile_1_row →
        has_attention s (UnitOf 0) ≡ false → mended s ≡ true → locked s ≡ false →
        refusal s (asks 0x00 0 tag (cdb.Diagnose true)) ≡ None }
    ensures diagnostic { (s : State) (tag : ℕ) → numbers_of s ≡ profile_1_row →
        has_attention s (UnitOf 0) ≡ false → mended s ≡ true →
        refusal s (asks 0x00 0 tag (cdb.Diagnose false)) ≡ None }
{}

/// Bits that no field of profile 1 takes either: the last byte of READ(16), a bit above its group number, the
/// address of READ CAPACITY(16), reserved bytes of MODE SENSE in both forms and of INQUIRY, FUA of PRE-FETCH, and DEVOFFL
/// of SEND DIAGNOSTIC (SPC, SBC).
pub fn profile_1_takes_no_other_bits()
    ensures last_byte { spelled_cdb (0x88 ∷ replicate 14 0 ++ 1 ∷ []) ≡ None }
    ensures above_the_group { spelled_cdb (0x88 ∷ replicate 13 0 ++ 0x20 ∷ 0 ∷ []) ≡ None }
    ensures capacity_address { spelled_cdb (0x9E ∷ 0x10 ∷ replicate 7 0 ++ 1 ∷ replicate 6 0) ≡ None }
    ensures modes { spelled_cdb (0x5A ∷ 0 ∷ 0x08 ∷ 0 ∷ 1 ∷ replicate 11 0) ≡ None }
    ensures short_modes { spelled_cdb (0x1A ∷ 0 ∷ 0x08 ∷ 0 ∷ 0 ∷ 1 ∷ replicate 10 0) ≡ None }
    ensures inquiry { spelled_cdb (0x12 ∷ 1 ∷ 0x80 ∷ 0 ∷ 0 ∷ 1 ∷ replicate 10 0) ≡ None }
    ensures prefetch { spelled_cdb (0x34 ∷ 0x08 ∷ replicate 14 0) ≡ None }
    ensures diagnostic { spelled_cdb (0x1D ∷ 0x02 ∷ replicate 14 0) ≡ None }
{}

/// A PRE-FETCH and a SEND DIAGNOSTIC are answered GOOD at once: nothing is read for them, nothing is kept, and they have
/// no data (SBC, SPC).
pub fn a_prefetch_reads_nothing()
    ensures prefetch { (s : State) (r : Request) (unit address blocks : ℕ) →
        begun s r unit (cdb.Prefetch address blocks) ≡ record s {
          tasks = s.tasks ++ record {
            lun = r.lun;
            tag = r.tag;
            expected = r.expected;
            command = Some (cdb.Prefetch address blocks);
            length = 0;
            deed = Answering Good 0;
            request = None;
          } ∷ [];
        } }
    ensures diagnostic { (s : State) (r : Request) (unit : ℕ) (tests : Bool) →
        begun s r unit (cdb.Diagnose tests) ≡ record s {
          tasks = s.tasks ++ record {
            lun = r.lun;
            tag = r.tag;
            expected = r.expected;
            command = Some (cdb.Diagnose tests);
            length = 0;
            deed = Answering Good 0;
            request = None;
          } ∷ [];
        } }
{}

/// MODE SENSE tells WP of a unit that is protected and of each unit of a locked device, and of no other one (SBC,
/// device-specific parameter).
pub fn modes_tell_what_takes_no_writes()
    ensures locked { (s : State) (r : Request) (select : ℕ) → locked s ≡ true →
        told_bytes s r told.Modes select ≡ modes_told select true }
    ensures short_locked { (s : State) (r : Request) (select : ℕ) → locked s ≡ true →
        told_bytes s r told.ShortModes select ≡ short_modes_told select true }
    ensures protected { (s : State) (r : Request) (select : ℕ) → is_protected s (unit_numbers_of s r) ≡ true →
        told_bytes s r told.Modes select ≡ modes_told select true }
    ensures short_protected { (s : State) (r : Request) (select : ℕ) → is_protected s (unit_numbers_of s r) ≡ true →
        told_bytes s r told.ShortModes select ≡ short_modes_told select true }
    ensures neither { (s : State) (r : Request) (select : ℕ) → is_protected s (unit_numbers_of s r) ≡ false →
        locked s ≡ false → told_bytes s r told.Modes select ≡ modes_told select false }
    ensures short_neither { (s : State) (r : Request) (select : ℕ) → is_protected s (unit_numbers_of s r) ≡ false →
        locked s ≡ false → told_bytes s r told.ShortModes select ≡ short_modes_told select false }
{}

/// There are as many bytes to tell as are told: of a page, of mode pages behind either header, and of READ CAPACITY(16)
/// (SPC, SBC).
pub fn as_many_bytes_are_told_as_are_counted()
    ensures page { (n : Numbers) (lun page : ℕ) →
        told_length n lun told.Page page ≡ length (page_bytes n lun page) }
    ensures modes { (n : Numbers) (lun select : ℕ) (guarded : Bool) →
        told_length n lun told.Modes select ≡ length (modes_told select guarded) }
    ensures short_modes { (n : Numbers) (lun select : ℕ) (guarded : Bool) →
        told_length n lun told.ShortModes select ≡ length (short_modes_told select guarded) }
    ensures capacity { (n : Numbers) (lun select : ℕ) (u : UnitSpec) →
        told_length n lun told.LongCapacity select ≡ length (long_capacity_bytes (Some u)) }
{}

/// Dies of a device of one profile are those of a device of the other, and of any serial number: the mark that is
/// written is the same, and so are the marks that suit.
pub fn a_mark_suits_each_profile()
    ensures suits { (n said : Numbers) (profile serial : ℕ) → MarkSuits n said →
        MarkSuits (with_profile n profile serial) said }
    ensures newest { (n : Numbers) (mark : Option Mark) (profile serial : ℕ) → HasNumbers n mark →
        HasNumbers (with_profile n profile serial) mark }
    ensures written { (t : Translation) (number : ℕ) (fence : Option Fence) (profile serial : ℕ) →
        step_cell (record t { numbers = with_profile t.numbers profile serial }) (MarkStep number fence)
        ≡ step_cell t (MarkStep number fence) }
{}
