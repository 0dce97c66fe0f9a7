//! What a VERIFY reads, what it is answered, and that it changes nothing.
ghost use Rattle.std.specs.Prelude.{◌≡◌, ◌≢◌, ◌<◌, ◌≤◌, ◌*◌, ◌+◌, ◌++◌, ◌∷◌, [], ℕ, true, false, Bool, List, length, map, replicate, slice_get, Option, Some, None};
ghost use Rattle.ufs_laws.specs.FrameLaws.{IsOwed, IsThere};
ghost use Rattle.ufs_laws.specs.Runs.{IsIdle};
ghost use Rattle.ufs_laws.specs.Table.{IsRefused, asks, profile_1_row};
ghost use Rattle.ufs_spec.specs.declared.Cdb.{Cdb};
ghost use Rattle.ufs_spec.specs.declared.Cdb.TheVariants as cdb;
ghost use Rattle.ufs_spec.specs.declared.messages.Message.TheVariants as message;
ghost use Rattle.ufs_spec.specs.declared.exchanges.ReadState.TheVariants.{NotRead, Unread};
ghost use Rattle.ufs_spec.specs.declared.exchanges.Status.TheVariants.{CheckCondition, Good};
ghost use Rattle.ufs_spec.specs.Begins.{begun, keeps_wanted, wanted_at};
ghost use Rattle.ufs_spec.specs.Cdbs.{length_of};
ghost use Rattle.ufs_spec.specs.CdbFields.{spelled_cdb};
ghost use Rattle.ufs_spec.specs.Changes.{claimed_by, set_deed, with_moves, with_task};
ghost use Rattle.ufs_spec.specs.DataOuts.{data_for};
ghost use Rattle.ufs_spec.specs.Exchanges.{Answering, Comparing, ReadBlock, ReadingArea, Task, invalid_field, invalid_operation, miscompare, not_ready, out_of_range, read_error, response};
ghost use Rattle.ufs_spec.specs.Keys.{below, data_key};
ghost use Rattle.ufs_spec.specs.Machine.{deed_after, deed_reply, keeps, read_blocks};
ghost use Rattle.ufs_spec.specs.Moves.{LetGo, LetGoAll, WantPage, look_now};
ghost use Rattle.ufs_spec.specs.Plain.{block_at};
ghost use Rattle.ufs_spec.specs.Refusals.{BootUnit, DeviceUnit, Request, State, UnitOf, has_attention, locked, mended, numbers_of, plain_now, refusal, slots_needed};
ghost use Rattle.ufs_spec.specs.declared.Numbers.{Numbers};

/// A device of profile 1 takes VERIFY(10), of blocks of its units, with a group number and DPO (SBC), and
/// with BYTCHK 00 or 01.
pub fn a_verify_is_taken()
    ensures older { (s : State) (tag : ℕ) → IsIdle s →
        IsRefused s (asks 0x00 0 tag (cdb.Verify 0 1 false)) invalid_operation }
    ensures taken { (s : State) (tag : ℕ) → numbers_of s ≡ profile_1_row → has_attention s (UnitOf 0) ≡ false →
        mended s ≡ true → refusal s (asks 0x00 0 tag (cdb.Verify 0 1 false)) ≡ None }
    // Its flags say nothing, as it has no data.
    ensures flags { (s : State) (tag : ℕ) → numbers_of s ≡ profile_1_row → has_attention s (UnitOf 0) ≡ false →
        mended s ≡ true → refusal s (asks 0x40 0 tag (cdb.Verify 0 1 false)) ≡ None }
    ensures long { (s : State) (tag : ℕ) → numbers_of s ≡ profile_1_row → has_attention s (UnitOf 0) ≡ false →
        refusal s (asks 0x00 0 tag (cdb.Verify 0 33 false)) ≡ Some invalid_field }
    ensures past { (s : State) (tag : ℕ) → numbers_of s ≡ profile_1_row → has_attention s (UnitOf 0) ≡ false →
        refusal s (asks 0x00 0 tag (cdb.Verify 256 1 false)) ≡ Some out_of_range }
    ensures ready { (s : State) (tag : ℕ) → numbers_of s ≡ profile_1_row → has_attention s (UnitOf 0) ≡ false →
        mended s ≡ false → locked s ≡ false → refusal s (asks 0x00 0 tag (cdb.Verify 0 1 false)) ≡ Some not_ready }
    ensures device { (s : State) (tag : ℕ) → numbers_of s ≡ profile_1_row → has_attention s DeviceUnit ≡ false →
        refusal s (asks 0x00 0xD0 tag (cdb.Verify 0 1 false)) ≡ Some invalid_operation }
    ensures boot { (s : State) (tag : ℕ) → numbers_of s ≡ profile_1_row → has_attention s BootUnit ≡ false →
        refusal s (asks 0x00 0xB0 tag (cdb.Verify 0 1 false)) ≡ Some invalid_operation }
    ensures spelled { spelled_cdb (0x2F ∷ 0x10 ∷ 0 ∷ 0 ∷ 0 ∷ 5 ∷ 0x10 ∷ 0 ∷ 2 ∷ replicate 7 0)
        ≡ Some (cdb.Verify 5 2 false) }
    ensures checks_two { spelled_cdb (0x2F ∷ 0x04 ∷ replicate 14 0) ≡ None }
    ensures checks_three { spelled_cdb (0x2F ∷ 0x06 ∷ replicate 14 0) ≡ None }
    ensures last_byte { spelled_cdb (0x2F ∷ replicate 8 0 ++ 1 ∷ replicate 6 0) ≡ None }
{}

/// It takes BYTCHK 01 where the host says that it sends the blocks, and not fewer bytes than they have
/// (SBC).
pub fn a_comparing_verify_is_taken()
    ensures older { (s : State) (tag : ℕ) → IsIdle s →
        IsRefused s (asks 0x20 0 tag (cdb.Verify 0 1 true)) invalid_operation }
    ensures taken { (s : State) (tag : ℕ) → numbers_of s ≡ profile_1_row → has_attention s (UnitOf 0) ≡ false →
        mended s ≡ true → refusal s (asks 0x20 0 tag (cdb.Verify 0 1 true)) ≡ None }
    // One of no blocks has no data, so that its flags say nothing.
    ensures none { (s : State) (tag : ℕ) → numbers_of s ≡ profile_1_row → has_attention s (UnitOf 0) ≡ false →
        mended s ≡ true → refusal s (asks 0x00 0 tag (cdb.Verify 0 0 true)) ≡ None }
    ensures direction { (s : State) (tag : ℕ) → numbers_of s ≡ profile_1_row →
        has_attention s (UnitOf 0) ≡ false → refusal s (asks 0x00 0 tag (cdb.Verify 0 1 true)) ≡ Some invalid_field }
    // The request sends 4096 bytes, and two blocks have more.
    ensures fewer { (s : State) (tag : ℕ) → numbers_of s ≡ profile_1_row → has_attention s (UnitOf 0) ≡ false →
        refusal s (asks 0x20 0 tag (cdb.Verify 0 2 true)) ≡ Some invalid_field }
    ensures long { (s : State) (tag : ℕ) → numbers_of s ≡ profile_1_row → has_attention s (UnitOf 0) ≡ false →
        refusal s (asks 0x20 0 tag (cdb.Verify 0 33 true)) ≡ Some invalid_field }
    ensures past { (s : State) (tag : ℕ) → numbers_of s ≡ profile_1_row → has_attention s (UnitOf 0) ≡ false →
        refusal s (asks 0x20 0 tag (cdb.Verify 256 1 true)) ≡ Some out_of_range }
    ensures spelled { spelled_cdb (0x2F ∷ 0x12 ∷ 0 ∷ 0 ∷ 0 ∷ 5 ∷ 0x10 ∷ 0 ∷ 2 ∷ replicate 7 0)
        ≡ Some (cdb.Verify 5 2 true) }
    ensures length { (told address blocks : ℕ) → length_of told (cdb.Verify address blocks true) ≡ blocks * 4096 }
    ensures no_data { (told address blocks : ℕ) → length_of told (cdb.Verify address blocks false) ≡ 0 }
{}

/// A VERIFY with BYTCHK 00 keeps each of its blocks as it is at its COMMAND, and wants all of their pages. It is answered
/// 3/11/00 once a block could not be read, and else GOOD once each block was read or needs no read (SBC,
/// VERIFY).
pub fn a_verify_reads_its_blocks()
    ensures begins { (s : State) (r : Request) (unit address blocks : ℕ) → 1 ≤ blocks →
        begun s r unit (cdb.Verify address blocks false)
        ≡ with_task (with_moves s (keeps_wanted s r.tag unit address blocks)) r (Some (cdb.Verify address blocks false)) 0
        (ReadingArea (read_blocks s unit address blocks)) }
    ensures none { (s : State) (r : Request) (unit address : ℕ) →
        begun s r unit (cdb.Verify address 0 false)
        ≡ with_task s r (Some (cdb.Verify address 0 false)) 0 (Answering Good 0) }
    ensures contents { (s : State) (unit address n : ℕ) → map (λ block. block.body) (read_blocks s unit address n)
        ≡ map (λ i. block_at unit (address + i) (plain_now s)) (below n) }
    ensures looked { (s : State) (tag unit address i : ℕ) →
        (wanted_at s tag unit address i).looked ≡ look_now s.translation (data_key unit (address + i)) }
    ensures wanted { (s : State) (tag unit address i : ℕ) → (wanted_at s tag unit address i).wanted ≡ true }
    ensures waits { (s : State) (task : Task) (pages : List ReadBlock) (k : ℕ) (page : ReadBlock) →
        task.request ≡ None →
        ((k : ℕ) (page : ReadBlock) → slice_get pages k ≡ Some page → page.state ≢ NotRead) →
        slice_get pages k ≡ Some page → IsOwed s task k page → deed_reply s task (ReadingArea pages) ≡ None }
    ensures good { (s : State) (task : Task) (pages : List ReadBlock) → task.request ≡ None →
        ((k : ℕ) (page : ReadBlock) → slice_get pages k ≡ Some page → IsThere s task k page) →
        ((k : ℕ) (page : ReadBlock) → slice_get pages k ≡ Some page → page.state ≢ NotRead) →
        deed_reply s task (ReadingArea pages)
        ≡ Some (response task.lun task.tag task.expected task.length Good) }
    ensures lost { (s : State) (task : Task) (pages : List ReadBlock) (k : ℕ) (page : ReadBlock) →
        task.request ≡ None → slice_get pages k ≡ Some page → page.state ≡ NotRead →
        deed_reply s task (ReadingArea pages)
        ≡ Some (response task.lun task.tag task.expected task.length read_error) }
    ensures last { (task : Task) (pages : List ReadBlock) → deed_after task (ReadingArea pages) ≡ None }
    ensures sense { read_error ≡ CheckCondition (record { key = 0x03; asc = 0x11; ascq = 0x00 }) }
{}

/// A VERIFY with BYTCHK 01 keeps its blocks as they are at its COMMAND, as a READ does, and asks for the
/// host's blocks one after another: for each once its own is at hand or was read (SBC, VERIFY). A block that
/// could not be read ends it with 3/11/00.
pub fn a_verify_asks_for_blocks()
    ensures begins { (s : State) (r : Request) (unit address blocks : ℕ) → 1 ≤ blocks →
        begun s r unit (cdb.Verify address blocks true)
        ≡ with_task (with_moves s (keeps s r.tag unit address blocks)) r (Some (cdb.Verify address blocks true))
        (4096 * blocks) (Comparing (read_blocks s unit address blocks) 0 false) }
    ensures none { (s : State) (r : Request) (unit address : ℕ) →
        begun s r unit (cdb.Verify address 0 true)
        ≡ with_task s r (Some (cdb.Verify address 0 true)) 0 (Answering Good 0) }
    ensures asks { (s : State) (task : Task) (blocks : List ReadBlock) (compared : ℕ) (block : ReadBlock) →
        slice_get blocks compared ≡ Some block → IsThere s task compared block → block.state ≢ NotRead →
        deed_reply s task (Comparing blocks compared false)
        ≡ Some (message.ReadyToTransfer task.lun task.tag (4096 * compared) 4096) }
    ensures waits { (s : State) (task : Task) (blocks : List ReadBlock) (compared : ℕ) (block : ReadBlock) →
        slice_get blocks compared ≡ Some block → IsOwed s task compared block →
        deed_reply s task (Comparing blocks compared false) ≡ None }
    ensures asks_once { (s : State) (task : Task) (blocks : List ReadBlock) (compared : ℕ) →
        deed_reply s task (Comparing blocks compared true) ≡ None }
    ensures was_asked { (task : Task) (blocks : List ReadBlock) (compared : ℕ) (block : ReadBlock) →
        slice_get blocks compared ≡ Some block → block.state ≢ NotRead →
        deed_after task (Comparing blocks compared false) ≡ Some (Comparing blocks compared true) }
    ensures lost { (s : State) (task : Task) (blocks : List ReadBlock) (compared : ℕ) (block : ReadBlock) →
        slice_get blocks compared ≡ Some block → block.state ≡ NotRead →
        deed_reply s task (Comparing blocks compared false)
        ≡ Some (response task.lun task.tag task.expected (4096 * compared) read_error) }
    ensures lost_is_last { (task : Task) (blocks : List ReadBlock) (compared : ℕ) (block : ReadBlock) →
        slice_get blocks compared ≡ Some block → block.state ≡ NotRead →
        deed_after task (Comparing blocks compared false) ≡ None }
{}

/// The host's block is compared with the one that was there at the COMMAND. The same block is let go, and
/// the page of the next one is wanted; the last one is followed by GOOD. Another one ends the VERIFY with
/// E/1D/00 (SBC, VERIFY).
pub fn a_verify_compares_its_blocks()
    ensures goes_on { (s : State) (task : Task) (blocks : List ReadBlock) (compared : ℕ) (block : ReadBlock) →
        slice_get blocks compared ≡ Some block → compared + 1 < length blocks →
        data_for s task (Comparing blocks compared true) block.body
        ≡ set_deed (with_moves s (LetGo task.tag compared ∷ WantPage task.tag (compared + 1) ∷ [])) task.tag
        (Comparing blocks (compared + 1) false) }
    ensures last { (s : State) (task : Task) (blocks : List ReadBlock) (compared : ℕ) (block : ReadBlock) →
        slice_get blocks compared ≡ Some block → length blocks ≤ compared + 1 →
        data_for s task (Comparing blocks compared true) block.body
        ≡ set_deed (with_moves s (LetGo task.tag compared ∷ WantPage task.tag (compared + 1) ∷ [])) task.tag
        (Answering Good task.length) }
    ensures differs { (s : State) (task : Task) (blocks : List ReadBlock) (compared : ℕ) (block : ReadBlock)
        (bytes : List ℕ) → slice_get blocks compared ≡ Some block → bytes ≢ block.body →
        data_for s task (Comparing blocks compared true) bytes
        ≡ set_deed (with_moves s (LetGoAll task.tag ∷ [])) task.tag
        (Answering miscompare (4096 * (compared + 1))) }
    ensures sense { miscompare ≡ CheckCondition (record { key = 0x0E; asc = 0x1D; ascq = 0x00 }) }
{}

/// A VERIFY accepts nothing and claims nothing: what the device holds, and all groups, stay as they
/// were.
pub fn a_verify_changes_nothing()
    ensures accepted { (s : State) (r : Request) (unit address blocks : ℕ) (compared : Bool) →
        (begun s r unit (cdb.Verify address blocks compared)).accepted ≡ s.accepted }
    ensures claims { (s : State) (r : Request) (unit address blocks : ℕ) (compared : Bool) →
        (begun s r unit (cdb.Verify address blocks compared)).translation.claims ≡ s.translation.claims }
    ensures groups { (s : State) (r : Request) (unit address blocks : ℕ) (compared : Bool) →
        (begun s r unit (cdb.Verify address blocks compared)).translation.ledger ≡ s.translation.ledger }
    ensures slots { (n : Numbers) (address blocks : ℕ) (compared : Bool) → slots_needed n (cdb.Verify address blocks compared) ≡ 0 }
{}

/// Nor do the host's blocks change anything.
pub fn a_comparison_changes_nothing()
    ensures accepted { (s : State) (task : Task) (blocks : List ReadBlock) (compared : ℕ) (asked : Bool)
        (bytes : List ℕ) → (data_for s task (Comparing blocks compared asked) bytes).accepted ≡ s.accepted }
    ensures claims { (s : State) (task : Task) (blocks : List ReadBlock) (compared : ℕ) (asked : Bool)
        (bytes : List ℕ) →
        (data_for s task (Comparing blocks compared asked) bytes).translation.claims ≡ s.translation.claims }
    ensures groups { (s : State) (task : Task) (blocks : List ReadBlock) (compared : ℕ) (asked : Bool)
        (bytes : List ℕ) →
        (data_for s task (Comparing blocks compared asked) bytes).translation.ledger ≡ s.translation.ledger }
    ensures claims_none { (n : Numbers) (blocks : List ReadBlock) (compared : ℕ) (asked : Bool)
        (command : Option Cdb) → claimed_by n (Comparing blocks compared asked) command ≡ 0 }
{}
