//! Runs of the specification machine, as instances of which answers are right.
ghost use Rattle.std.specs.Prelude.{◌≡◌, ◌≤◌, ◌<◌, ℕ, List, [], ◌∷◌, Bool, true, false, bit_and, Option, Some, None};
ghost use Rattle.ufs_laws.specs.Runs.{Always, Gets, IsAnswered, IsIdle, IsNew, IsRunOf, IsSaid, data_in, data_program, data_read, erase, good, heard, mark_program, program_ends, read_ends, read_of, ready, refused, the_data, the_read, the_write};
ghost use Rattle.ufs_laws.specs.Runs.{state_1, state_2, state_3, state_4, state_5, state_6, state_7, state_8, state_9, state_10, state_11, state_12, state_13, state_14, state_15, state_16, state_17, state_18, state_19, state_20, state_21, state_22, state_23};
ghost use Rattle.ufs_spec.specs.declared.Cdb.{Cdb};
ghost use Rattle.ufs_spec.specs.declared.Message.TheVariants as message;
ghost use Rattle.ufs_spec.specs.declared.operations.TheConstants.{READ_10};
ghost use Rattle.ufs_spec.specs.Keys.{IsBlock};
ghost use Rattle.ufs_spec.specs.Lives.{held};
ghost use Rattle.ufs_spec.specs.Machine.{Reply, OfDone, Take, OfTake, Host, OfReply, Spelled, Turn, OfTurn};
ghost use Rattle.ufs_spec.specs.Refusals.{State, mended, well_known};

/// A new device programs its first mark, is mended, writes a block with FUA and reads it again: each call gets the answer
/// that it should, and no other.
pub fn a_written_block_is_read()
    ensures new_device { (s : State) × IsNew s }
    ensures mark_is_ordered { (s : State) → IsNew s → Gets s Turn (OfTurn true) }
    ensures no_other_step { (s : State) → IsNew s → Gets (state_1 s) Turn (OfTurn false) }
    ensures block_is_erased { (s : State) → IsNew s → Gets (state_2 s) (Take 0) (OfTake (Some erase)) }
    ensures die_is_busy { (s : State) → IsNew s → Gets (state_3 s) (Take 0) (OfTake None) }
    ensures erase_ends { (s : State) → IsNew s → Gets (state_4 s) (program_ends (state_4 s)) (OfDone true) }
    ensures mark_is_programmed { (s : State) → IsNew s → Gets (state_5 s) (Take 0) (OfTake (Some mark_program)) }
    ensures mark_ends { (s : State) → IsNew s → Gets (state_6 s) (program_ends (state_6 s)) (OfDone true) }
    ensures is_mended { (s : State) → IsNew s → mended (state_7 s) ≡ true }
    ensures no_job_behind_the_mark { (s : State) → IsNew s → Gets (state_7 s) (Take 0) (OfTake None) }
    ensures no_more_steps { (s : State) → IsNew s → Gets (state_7 s) Turn (OfTurn false) }
    ensures write_can_be_said { IsSaid the_write }
    ensures write_is_taken { (s : State) → IsNew s → Gets (state_8 s) (Host the_write) heard }
    ensures data_are_asked_for { (s : State) → IsNew s → Gets (state_9 s) Reply ready }
    ensures once { (s : State) → IsNew s → Gets (state_10 s) Reply (OfReply None) }
    ensures data_can_be_said { (body : List ℕ) → IsBlock body → IsSaid (the_data body) }
    ensures data_are_taken { Always (λ s body. Gets (state_11 s) (Host (the_data body)) heard) }
    ensures no_answer_before_the_program { Always (λ s body. Gets (state_12 s body) Reply (OfReply None)) }
    ensures block_is_programmed { Always (λ s body. Gets (state_13 s body) (Take 0) (OfTake (Some (data_program body)))) }
    ensures no_answer_in_the_program { Always (λ s body. Gets (state_14 s body) Reply (OfReply None)) }
    ensures program_is_done { Always (λ s body. Gets (state_15 s body) (program_ends (state_15 s body)) (OfDone true)) }
    ensures write_is_answered { Always (λ s body. Gets (state_16 s body) Reply (good 7)) }
    ensures write_is_held { Always (λ s body. held (state_17 s body) ≡ 1) }
    ensures no_task_is_open { Always (λ s body. (state_17 s body).tasks ≡ []) }
    ensures no_job_behind_the_write { Always (λ s body. Gets (state_17 s body) (Take 0) (OfTake None)) }
    ensures read_can_be_said { IsSaid the_read }
    ensures read_is_taken { Always (λ s body. Gets (state_17 s body) (Host the_read) heard) }
    ensures no_data_before_the_read { Always (λ s body. Gets (state_18 s body) Reply (OfReply None)) }
    ensures page_is_read { Always (λ s body. Gets (state_19 s body) (Take 0) (OfTake (Some data_read))) }
    ensures read_is_done { Always (λ s body. Gets (state_20 s body) (read_ends (state_20 s body)) (OfDone true)) }
    ensures page_is_read_once { Always (λ s body. Gets (state_21 s body) (Take 0) (OfTake None)) }
    ensures block_is_sent { Always (λ s body. Gets (state_21 s body) Reply (data_in body)) }
    ensures read_is_answered { Always (λ s body. Gets (state_22 s body) Reply (good 8)) }
    ensures nothing_more { Always (λ s body. Gets (state_23 s body) Reply (OfReply None)) }
    ensures life { Always IsRunOf }
{}

/// A COMMAND that is refused is answered at once with why, whether the device is mended or locked or not: blocks past the
/// unit's end, too many blocks, a LUN that is neither a unit's nor a well-known one, and a CDB that spells no command. One
/// with a priority or a task attribute is not taken by this device of profile 0.
pub fn a_refused_read_says_why()
    ensures idle_device { (s : State) × IsIdle s × (mended s ≡ true) }
    ensures past_the_end { (s : State) (forced : Bool) (tag : ℕ) → IsIdle s →
        IsAnswered s (read_of 256 1 forced tag 4096) (refused 0 tag 4096 0x21) }
    ensures too_many_blocks { (s : State) (address : ℕ) (forced : Bool) (tag : ℕ) → IsIdle s →
        IsAnswered s (read_of address 33 forced tag 0x21000) (refused 0 tag 0x21000 0x24) }
    ensures not_a_unit { (s : State) (flags lun tag expected : ℕ) (bytes : List ℕ) (c : Option Cdb) → IsIdle s →
        bit_and flags 0x07 ≡ 0 → 3 ≤ lun → well_known lun ≡ None → 0 < expected → IsAnswered s (Spelled (message.Command flags lun tag expected bytes) c) (refused lun tag expected 0x25) }
    ensures no_command { (s : State) (flags tag expected : ℕ) (rest : List ℕ) → IsIdle s → bit_and flags 0x07 ≡ 0 → 0 < expected →
        IsAnswered s (Spelled (message.Command flags 0 tag expected (READ_10 ∷ rest)) None) (refused 0 tag expected 0x24) }
{}
