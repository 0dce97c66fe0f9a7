//! The table by which a command is refused: the first line that applies decides.
ghost use Rattle.std.specs.Prelude.{◌≡◌, ◌<◌, ◌≤◌, ◌∷◌, [], ℕ, List, Bool, true, false, Option, Some, None, length};
ghost use Rattle.ufs_laws.specs.Runs.{IsIdle};
ghost use Rattle.ufs_laws.specs.Table.{IsRefused, asks, asks_in, flush, protected_row, read_at, reads_response, short_bytes, spells_none, write_at};
ghost use Rattle.ufs_spec.specs.declared.Cdb.{Cdb};
ghost use Rattle.ufs_spec.specs.declared.Numbers.{Numbers};
ghost use Rattle.ufs_spec.specs.declared.Cdb.TheVariants as cdb;
ghost use Rattle.ufs_spec.specs.declared.UnitSpec.{UnitSpec};
ghost use Rattle.ufs_spec.specs.CdbFields.{no_limit, row_of};
ghost use Rattle.ufs_spec.specs.declared.operations.Told.TheVariants as told;
ghost use Rattle.ufs_spec.specs.declared.operations.TheConstants.{READ_6, WRITE_6};
ghost use Rattle.ufs_spec.specs.Exchanges.{invalid_field, invalid_operation, list_length_error, no_unit, not_ready, out_of_range, response, sequence_error, short_reply, write_protected};
ghost use Rattle.ufs_spec.specs.declared.exchanges.Status.{Status};
ghost use Rattle.ufs_spec.specs.declared.exchanges.Status.TheVariants.{Busy, TaskSetFull};
ghost use Rattle.ufs_spec.specs.Machine.{command_taken, with_short};
ghost use Rattle.ufs_spec.specs.Exchanges.{most_tasks};
ghost use Rattle.ufs_spec.specs.Refusals.{BootUnit, Request, State, brought, fails_test, first_line, has_other_response, has_wrong_list, is_boot_read, is_crowded, is_refused_write, is_too_long, is_unready, lacks_page, lacks_region, lacks_response, lines_for, locked, mended, not_taken, numbers_of, refusal, takes_row, wants_saved};
ghost use Rattle.ufs_spec.specs.Plain.{steps_of};
ghost use Rattle.ufs_spec.specs.Translation.{free_slots, has_pending};

/// If two lines of the table apply, the one that stands first decides: for each line a request that a later line
/// would refuse with another status. Of lines that no clause tells apart here, `lines_that_never_meet` says that
/// never both apply.
pub fn each_line_of_the_table_counts()
    // Too many tasks are open, and the command would be refused.
    ensures full { (s : State) (r : Request) (status : Status) → most_tasks ≤ length s.tasks →
        refusal s r ≡ Some status →
        command_taken s r ≡ with_short s (short_reply r.tag (response r.lun r.tag r.expected 0 TaskSetFull)) }
    // There is no unit 3, and the CDB spells no command.
    ensures unit { (s : State) (tag : ℕ) (bytes : List ℕ) → IsIdle s →
        IsRefused s (spells_none 0x40 3 tag bytes) no_unit }
    // An operation code that is not taken, in a CDB that spells no command.
    ensures operation { (s : State) (tag : ℕ) (rest : List ℕ) → IsIdle s →
        IsRefused s (spells_none 0x40 0 tag (0xFF ∷ rest)) invalid_operation }
    // 33 blocks, past the end of unit 0.
    ensures blocks { (s : State) (tag : ℕ) → IsIdle s → IsRefused s (asks 0x40 0 tag (read_at 256 33)) invalid_field }
    // UNMAP with a list of 16 bytes, and without the flag of its direction.
    ensures list { (s : State) (tag : ℕ) → first_line (lines_for s (asks 0x00 0 tag (cdb.Unmap 16)) (cdb.Unmap 16))
        ≡ Some list_length_error }
    // A READ past the end of unit 0, without the flag of its direction.
    ensures flag { (s : State) (tag : ℕ) → IsIdle s → IsRefused s (asks 0x00 0 tag (read_at 256 1)) invalid_field }
    // A READ past the end of unit 0, before the device is mended.
    ensures past { (s : State) (tag : ℕ) → IsIdle s → mended s ≡ false → locked s ≡ false →
        IsRefused s (asks 0x40 0 tag (read_at 256 1)) out_of_range }
    // Before the device is mended, a WRITE to a unit that is protected, and one without a free slot.
    ensures ready_and_protected { (s : State) (tag : ℕ) → numbers_of s ≡ protected_row → mended s ≡ false →
        locked s ≡ false → s.volatile.power_on ≡ true → refusal s (asks 0x20 1 tag (write_at 0)) ≡ Some not_ready }
    ensures ready { (s : State) (tag : ℕ) → IsIdle s → mended s ≡ false → locked s ≡ false →
        free_slots s.translation ≡ 0 →
        IsRefused s (asks 0x20 0 tag (write_at 0)) not_ready }
    // A WRITE to a locked device, without a free slot.
    ensures protected { (s : State) (tag : ℕ) → IsIdle s → mended s ≡ true → locked s ≡ true →
        free_slots s.translation ≡ 0 →
        IsRefused s (asks 0x20 0 tag (write_at 0)) write_protected }
    // A flush of a locked device with something accepted that is not durable, and nothing else, with IMMED or without.
    ensures flush { (s : State) (tag : ℕ) (immediate : Bool) → IsIdle s → mended s ≡ true → locked s ≡ true →
        has_pending s.translation ≡ true → IsRefused s (asks 0x00 0 tag (flush immediate)) write_protected }
    // SECURITY PROTOCOL IN without a response, before the device is mended; and of 512 bytes, without a response.
    ensures ready_first { (s : State) (tag region : ℕ) → 0 < steps_of (numbers_of s) region → mended s ≡ false →
        locked s ≡ false → (s.registers region).response ≡ [] →
        first_line (lines_for s (reads_response tag region) (cdb.SecurityIn region 512)) ≡ Some not_ready }
    ensures response { (s : State) (tag region : ℕ) → 0 < steps_of (numbers_of s) region → mended s ≡ true →
        (s.registers region).response ≡ [] →
        first_line (lines_for s (reads_response tag region) (cdb.SecurityIn region 512)) ≡ Some sequence_error }
    // SECURITY PROTOCOL IN of 512 bytes if a response of two frames waits, and nothing else.
    ensures other_response { (s : State) (tag region : ℕ) (a b : List ℕ) → 0 < steps_of (numbers_of s) region →
        mended s ≡ true → (s.registers region).response ≡ a ∷ b ∷ [] →
        first_line (lines_for s (reads_response tag region) (cdb.SecurityIn region 512)) ≡ Some invalid_field }
    // SECURITY PROTOCOL IN and OUT of a region that is not there, before the device is mended.
    ensures no_region { (s : State) (r : Request) (region n : ℕ) → steps_of (numbers_of s) region ≡ 0 →
        first_line (lines_for s r (cdb.SecurityIn region n)) ≡ Some invalid_field }
    ensures no_region_to_write { (s : State) (r : Request) (region n : ℕ) → steps_of (numbers_of s) region ≡ 0 →
        first_line (lines_for s r (cdb.SecurityOut region n)) ≡ Some invalid_field }
    // A WRITE without a free slot, and nothing else.
    ensures crowded { (s : State) (tag : ℕ) → IsIdle s → mended s ≡ true → locked s ≡ false →
        free_slots s.translation ≡ 0 →
        IsRefused s (asks 0x20 0 tag (write_at 0)) Busy }
{}

/// No operation code is refused for a unit that is not there, and the boot unit takes all that a unit without it
/// would miss; a command of too many blocks has no list; a write or flush reads no
/// response; and what reads a response needs no slots. What names a region names no page; what names a page asks for no
/// saved values; what asks for these has neither blocks nor a list. A self-test that fails is one of a locked device,
/// which is ready for it; it writes nothing, reads no response and needs no slots.
pub fn lines_that_never_meet()
    ensures unit_or_operation { (n : Numbers) (r : Request) → not_taken n r None ≡ false }
    ensures boot_or_operation { (n : Numbers) (bytes : List ℕ) →
        is_boot_read n (row_of bytes) ≡ true → takes_row n BootUnit (row_of bytes) ≡ true }
    ensures blocks_or_list { (n : Numbers) (c : Cdb) → is_too_long n c ≡ true → has_wrong_list c ≡ false }
    ensures write_or_response { (s : State) (u : Option UnitSpec) (c : Cdb) → is_refused_write s u c ≡ true →
        lacks_response s c ≡ false }
    ensures write_or_other_response { (s : State) (u : Option UnitSpec) (c : Cdb) → is_refused_write s u c ≡ true →
        has_other_response s c ≡ false }
    ensures response_or_slots { (s : State) (r : Request) (c : Cdb) → lacks_response s c ≡ true →
        is_crowded s (brought r.expected c) ≡ false }
    ensures other_response_or_slots { (s : State) (r : Request) (c : Cdb) → has_other_response s c ≡ true →
        is_crowded s (brought r.expected c) ≡ false }
    ensures region_or_page { (n : Numbers) (lun : ℕ) (c : Cdb) → lacks_region n c ≡ true → lacks_page n lun c ≡ false }
    ensures page_or_saved { (n : Numbers) (lun : ℕ) (c : Cdb) → lacks_page n lun c ≡ true → wants_saved c ≡ false }
    ensures saved_or_blocks { (n : Numbers) (c : Cdb) → wants_saved c ≡ true → is_too_long n c ≡ false }
    ensures saved_or_list { (c : Cdb) → wants_saved c ≡ true → has_wrong_list c ≡ false }
    ensures ready_or_test { (s : State) (c : Cdb) → is_unready s c ≡ true → fails_test s c ≡ false }
    ensures write_or_test { (s : State) (u : Option UnitSpec) (c : Cdb) → is_refused_write s u c ≡ true →
        fails_test s c ≡ false }
    ensures test_or_response { (s : State) (c : Cdb) → fails_test s c ≡ true → lacks_response s c ≡ false }
    ensures test_or_other_response { (s : State) (c : Cdb) → fails_test s c ≡ true → has_other_response s c ≡ false }
    ensures test_or_slots { (s : State) (r : Request) (c : Cdb) → fails_test s c ≡ true →
        is_crowded s (brought r.expected c) ≡ false }
{}

/// Before the mending is over each command that reads or changes what the device holds is refused
/// as not ready, unless the device is locked; `each_line_of_the_table_counts` says it of SECURITY
/// PROTOCOL IN. TEST UNIT READY (SPC) is refused so on a locked device too. What only tells of the
/// device is taken all the same.
pub fn commands_are_refused_before_the_mending()
    ensures test_unit_ready { (s : State) (tag : ℕ) → IsIdle s → mended s ≡ false →
        IsRefused s (asks 0x00 0 tag cdb.Nothing) not_ready }
    ensures read { (s : State) (tag : ℕ) → IsIdle s → mended s ≡ false → locked s ≡ false →
        IsRefused s (asks 0x40 0 tag (read_at 0 1)) not_ready }
    ensures short_read { (s : State) (tag : ℕ) → IsIdle s → mended s ≡ false → locked s ≡ false →
        IsRefused s (asks_in 0x40 0 tag (short_bytes READ_6)) not_ready }
    ensures write { (s : State) (tag : ℕ) → IsIdle s → mended s ≡ false → locked s ≡ false →
        IsRefused s (asks 0x20 0 tag (write_at 0)) not_ready }
    ensures short_write { (s : State) (tag : ℕ) → IsIdle s → mended s ≡ false → locked s ≡ false →
        IsRefused s (asks_in 0x20 0 tag (short_bytes WRITE_6)) not_ready }
    ensures unmap { (s : State) (tag : ℕ) → IsIdle s → mended s ≡ false → locked s ≡ false →
        IsRefused s (asks 0x20 0 tag (cdb.Unmap 24)) not_ready }
    ensures flush { (s : State) (tag : ℕ) (immediate : Bool) → IsIdle s → mended s ≡ false → locked s ≡ false →
        IsRefused s (asks 0x00 0 tag (flush immediate)) not_ready }
    ensures frames { (s : State) (tag : ℕ) → IsIdle s → mended s ≡ false → locked s ≡ false →
        IsRefused s (asks 0x20 0xC4 tag (cdb.SecurityOut 0 512)) not_ready }
    ensures request_sense { (s : State) (tag : ℕ) → IsIdle s →
        refusal s (asks 0x40 0 tag (cdb.Tell told.Sense 0 18)) ≡ None }
    ensures inquiry { (s : State) (tag : ℕ) → IsIdle s →
        refusal s (asks 0x40 0 tag (cdb.Tell told.Identity 0 36)) ≡ None }
    ensures capacity { (s : State) (tag : ℕ) → IsIdle s →
        refusal s (asks 0x40 0 tag (cdb.Tell told.Capacity 0 no_limit)) ≡ None }
    ensures luns { (s : State) (tag : ℕ) → IsIdle s →
        refusal s (asks 0x40 0 tag (cdb.Tell told.Units 0 32)) ≡ None }
{}
