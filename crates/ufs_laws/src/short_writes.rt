//! What a device of profile 1 takes of a WRITE whose host sends fewer bytes than it has.
ghost use Rattle.std.specs.Prelude.{◌≡◌, ◌<◌, ◌≤◌, ◌+◌, ◌-◌, ◌*◌, ◌/◌, ◌++◌, ◌∷◌, [], ℕ, Bool, true, false, List, length, Some, None};
ghost use Rattle.ufs_laws.specs.Runs.{IsIdle};
ghost use Rattle.ufs_laws.specs.Table.{IsRefused, asks, profile_1_row};
ghost use Rattle.ufs_spec.specs.declared.Cdb.TheVariants as cdb;
ghost use Rattle.ufs_spec.specs.declared.Message.TheVariants as message;
ghost use Rattle.ufs_spec.specs.declared.exchanges.Purpose.TheVariants.{ForWrite};
ghost use Rattle.ufs_spec.specs.declared.exchanges.Status.{Status};
ghost use Rattle.ufs_spec.specs.declared.exchanges.Status.TheVariants.{Busy, Good};
ghost use Rattle.ufs_spec.specs.Begins.{begun, of_write};
ghost use Rattle.ufs_spec.specs.Cdbs.{residual_of};
ghost use Rattle.ufs_spec.specs.Changes.{claimed_by, with_moves, with_task};
ghost use Rattle.ufs_spec.specs.DataOuts.{blocks_in, data_for};
ghost use Rattle.ufs_spec.specs.Commands.{Write};
ghost use Rattle.ufs_spec.specs.Exchanges.{Answering, Gathering, Task, invalid_field, out_of_range, response, response_message};
ghost use Rattle.ufs_spec.specs.Machine.{deed_reply};
ghost use Rattle.ufs_spec.specs.Moves.{Claim};
ghost use Rattle.ufs_spec.specs.Refusals.{Request, State, UnitOf, blocks_brought, has_attention, locked, mended, numbers_of, refusal};
ghost use Rattle.ufs_spec.specs.Translation.{free_slots};

/// A WRITE whose host sends fewer bytes than it has is refused by a device of profile 0, and taken by one of profile 1
/// (SAM, expected data transfer length). It needs the flag of its direction, a slot for each whole block that comes, and
/// room in its unit for all blocks that it names.
pub fn a_short_write_is_taken()
    ensures older { (s : State) (tag : ℕ) (forced : Bool) → IsIdle s →
        IsRefused s (asks 0x20 0 tag (cdb.Write 0 2 forced)) invalid_field }
    ensures older_is_whole { (s : State) (r : Request) (address blocks : ℕ) (forced : Bool) →
        (numbers_of s).profile ≡ 0 → r.cdb ≡ Some (cdb.Write address blocks forced) → refusal s r ≡ None →
        blocks_brought r.expected blocks ≡ blocks }
    ensures taken { (s : State) (tag : ℕ) (forced : Bool) → numbers_of s ≡ profile_1_row →
        has_attention s (UnitOf 0) ≡ false → mended s ≡ true → locked s ≡ false → 1 ≤ free_slots s.translation →
        refusal s (asks 0x20 0 tag (cdb.Write 0 2 forced)) ≡ None }
    ensures crowded { (s : State) (tag : ℕ) (forced : Bool) → numbers_of s ≡ profile_1_row →
        has_attention s (UnitOf 0) ≡ false → mended s ≡ true → locked s ≡ false → free_slots s.translation ≡ 0 →
        refusal s (asks 0x20 0 tag (cdb.Write 0 2 forced)) ≡ Some Busy }
    ensures direction { (s : State) (tag : ℕ) (forced : Bool) → numbers_of s ≡ profile_1_row →
        has_attention s (UnitOf 0) ≡ false →
        refusal s (asks 0x40 0 tag (cdb.Write 0 2 forced)) ≡ Some invalid_field }
    ensures range { (s : State) (tag : ℕ) (forced : Bool) → numbers_of s ≡ profile_1_row →
        has_attention s (UnitOf 0) ≡ false →
        refusal s (asks 0x20 0 tag (cdb.Write 255 2 forced)) ≡ Some out_of_range }
    // The list of an UNMAP and the frames of the RPMB may not be cut.
    ensures list { (s : State) (tag : ℕ) → numbers_of s ≡ profile_1_row → has_attention s (UnitOf 0) ≡ false →
        refusal s (record (asks 0x20 0 tag (cdb.Unmap 24)) { expected = 23 }) ≡ Some invalid_field }
{}

/// Of such a WRITE the whole blocks of what comes are asked for, claimed and accepted as one command, the first of
/// its own; where there is none, it is answered GOOD at once and claims nothing. What its RESPONSE tells as left over, with
/// the flag of an overflow, are all bytes of the blocks that are not taken, however the WRITE ends (JESD220, 10.7.2).
pub fn a_short_write_takes_whole_blocks()
    ensures begins { (s : State) (r : Request) (unit address blocks n : ℕ) (forced : Bool) →
        n ≡ r.expected / 4096 → 1 ≤ n → n < blocks →
        begun s r unit (cdb.Write address blocks forced)
        ≡ with_task (with_moves s (Claim n ∷ [])) (record r { expected = 4096 * n }) (Some (cdb.Write address n forced))
        (4096 * blocks) (Gathering (ForWrite unit address n forced) [] false) }
    ensures none { (s : State) (r : Request) (unit address blocks : ℕ) (forced : Bool) →
        r.expected < 4096 → 1 ≤ blocks →
        begun s r unit (cdb.Write address blocks forced)
        ≡ with_task s (record r { expected = 0 }) (Some (cdb.Write address 0 forced)) (4096 * blocks)
        (Answering Good (4096 * blocks)) }
    ensures whole { (s : State) (r : Request) (unit address blocks : ℕ) (forced : Bool) →
        4096 * blocks ≤ r.expected → 1 ≤ blocks →
        begun s r unit (cdb.Write address blocks forced)
        ≡ with_task (with_moves s (Claim blocks ∷ [])) r (Some (cdb.Write address blocks forced)) (4096 * blocks)
        (Gathering (ForWrite unit address blocks forced) [] false) }
    ensures asks { (s : State) (task : Task) (unit address n : ℕ) (forced : Bool) (gathered : List ℕ) →
        length gathered + 4096 ≤ 4096 * n →
        deed_reply s task (Gathering (ForWrite unit address n forced) gathered false)
        ≡ Some (message.ReadyToTransfer task.lun task.tag (length gathered) 4096) }
    ensures accepted { (s : State) (task : Task) (unit address n : ℕ) (forced : Bool) (before bytes : List ℕ) →
        locked s ≡ false → length (before ++ bytes) ≡ 4096 * n →
        (data_for s task (Gathering (ForWrite unit address n forced) before true) bytes).accepted
        ≡ s.accepted ++ Write unit address (blocks_in n (before ++ bytes)) ∷ [] }
    ensures claims { (s : State) (unit address n : ℕ) (forced asked : Bool) (gathered : List ℕ) →
        claimed_by (numbers_of s) (Gathering (ForWrite unit address n forced) gathered asked)
        (Some (cdb.Write address n forced)) ≡ n }
    ensures left_over { (r : Request) (blocks : ℕ) (status : Status) → r.expected < 4096 * blocks →
        response r.lun r.tag (of_write r (4096 * blocks)).expected (4096 * blocks) status
        ≡ response_message (record { flags = 0x40; count = 4096 * (blocks - r.expected / 4096) }) r.lun r.tag status }
    ensures nothing_left { (r : Request) (blocks : ℕ) → 4096 * blocks ≤ r.expected →
        of_write r (4096 * blocks) ≡ r }
    ensures worked { residual_of 4096 8192 ≡ record { flags = 0x40; count = 4096 } }
{}
