//! How an UNMAP begins, which slots it claims, and which group it becomes.
ghost use Rattle.std.specs.Prelude.{◌≡◌, ◌≢◌, ◌<◌, ◌≤◌, ◌+◌, ◌-◌, ◌++◌, ◌∷◌, [], ℕ, Bool, true, false, List, length, map, Some, None};
ghost use Rattle.ufs_bytes.specs.Fields.{field_at};
ghost use Rattle.ufs_laws.specs.Decisions.{PassesList, list_of};
ghost use Rattle.ufs_laws.specs.Runs.{IsIdle, row};
ghost use Rattle.ufs_laws.specs.Table.{IsRefused, asks};
ghost use Rattle.ufs_laws.specs.Unmaps.{GathersList, HasClaimed};
ghost use Rattle.ufs_spec.specs.declared.Cdb.{Cdb};
ghost use Rattle.ufs_spec.specs.declared.Cdb.TheVariants as cdb;
ghost use Rattle.ufs_spec.specs.declared.Numbers.{Numbers};
ghost use Rattle.ufs_spec.specs.Changes.{accepts, ends_with_status, with_task};
ghost use Rattle.ufs_spec.specs.Commands.{Zero};
ghost use Rattle.ufs_spec.specs.Configs.{command_blocks};
ghost use Rattle.ufs_spec.specs.DataOuts.{unmap_complete};
ghost use Rattle.ufs_spec.specs.Exchanges.{Answering, Gathering, Task};
ghost use Rattle.ufs_spec.specs.declared.exchanges.Status.{Status};
ghost use Rattle.ufs_spec.specs.declared.exchanges.Status.TheVariants.{Busy, Good};
ghost use Rattle.ufs_spec.specs.declared.exchanges.Purpose.TheVariants.{ForUnmap};
ghost use Rattle.ufs_spec.specs.Keys.{below, data_key, group_of};
ghost use Rattle.ufs_spec.specs.Machine.{begun};
ghost use Rattle.ufs_spec.specs.Plain.{LiesWithin, Plain, apply, shape_of, zero_block};
ghost use Rattle.ufs_spec.specs.Refusals.{Request, State, locked, mended, numbers_of, plain_now, refusal};
ghost use Rattle.ufs_spec.specs.Translation.{free_slots};

/// An UNMAP with a descriptor claims as many slots as a command may have blocks: the list that says how
/// many it needs comes only later. With fewer free slots, of 64 with fewer than 32, it is refused with BUSY. An UNMAP
/// of a header alone gathers its eight bytes without a claim, and one without a list is answered
/// GOOD at once.
pub fn an_unmap_claims_slots_for_its_list()
    ensures no_list { (s : State) (r : Request) (unit : ℕ) → begun s r unit (cdb.Unmap 0)
        ≡ with_task s r (Some (cdb.Unmap 0)) 0 (Answering Good 0) }
    ensures gathers { (s : State) (r : Request) (unit list : ℕ) → list ≢ 0 →
        (begun s r unit (cdb.Unmap list)).tasks ≡ s.tasks ++ record {
          lun = r.lun;
          tag = r.tag;
          expected = r.expected;
          command = Some (cdb.Unmap list);
          length = list;
          deed = Gathering (ForUnmap unit) [] false;
          request = None;
        } ∷ [] }
    ensures claims { (s : State) (r : Request) (unit : ℕ) →
        (begun s r unit (cdb.Unmap 24)).translation.claims
        ≡ s.translation.claims + command_blocks (numbers_of s) }
    ensures header_claims_none { (s : State) (r : Request) (unit : ℕ) →
        (begun s r unit (cdb.Unmap 8)).translation.claims ≡ s.translation.claims }
    ensures crowded { (s : State) (tag : ℕ) → IsIdle s → mended s ≡ true → locked s ≡ false →
        free_slots s.translation < 32 → IsRefused s (asks 0x20 0 tag (cdb.Unmap 24)) Busy }
    ensures taken { (s : State) (tag : ℕ) → IsIdle s → mended s ≡ true → locked s ≡ false →
        32 ≤ free_slots s.translation → refusal s (asks 0x20 0 tag (cdb.Unmap 24)) ≡ None }
    ensures header_taken { (s : State) (tag : ℕ) → IsIdle s → mended s ≡ true →
        refusal s (asks 0x20 0 tag (cdb.Unmap 8)) ≡ None }
{}

/// Once its list is there an UNMAP claims no slot any more. As many as it has blocks hold the pages
/// of its group, and the others are free again; if nothing is accepted all of them are.
pub fn an_unmap_gives_back_what_it_does_not_need()
    ensures claims { (s : State) (task : Task) (unit : ℕ) (list : List ℕ) → GathersList task unit →
        (unmap_complete s task unit list).translation.claims
        ≡ s.translation.claims - command_blocks (numbers_of s) }
    ensures accepted { (s : State) (task : Task) (unit : ℕ) (list : List ℕ) →
        GathersList task unit → HasClaimed s.translation (command_blocks (numbers_of s)) → PassesList s unit list →
        field_at 4 16 list ≢ 0 → locked s ≡ false →
        free_slots (unmap_complete s task unit list).translation
        ≡ free_slots s.translation + (command_blocks (numbers_of s) - field_at 4 16 list) }
    ensures not_accepted { (s : State) (task : Task) (unit : ℕ) (status : Status) →
        GathersList task unit → HasClaimed s.translation (command_blocks (numbers_of s)) →
        free_slots (ends_with_status s task status).translation
        ≡ free_slots s.translation + command_blocks (numbers_of s) }
{}

/// An UNMAP is one group: a block of zeros at each of its addresses, in their order, and no other
/// page. The list with address 5 and count 2 zeroes the blocks 5 and 6.
pub fn an_unmap_is_one_group_of_zeros()
    ensures pages { (p : Plain) (unit address count : ℕ) →
        LiesWithin (shape_of p) (Zero unit address count) →
        group_of p (Zero unit address count)
        ≡ map (λ i. record { key = data_key unit (address + i); body = zero_block }) (below count) }
    ensures group { (s : State) (unit address count claimed : ℕ) →
        (accepts s (Zero unit address count) claimed).translation.ledger.groups
        ≡ s.translation.ledger.groups ++ group_of (plain_now s) (Zero unit address count) ∷ [] }
    // What is read from then on: `an_unmap_judges_its_list` says which blocks are zeros in it.
    ensures shown { (s : State) (unit address count claimed : ℕ) →
        plain_now (accepts s (Zero unit address count) claimed)
        ≡ apply (plain_now s) (Zero unit address count) }
    ensures list { (s : State) (task : Task) → numbers_of s ≡ row → locked s ≡ false →
        (unmap_complete s task 0 (list_of 0x16 0x10 5 2)).accepted
        ≡ s.accepted ++ Zero 0 5 2 ∷ [] }
{}
