//! What is decided of UNMAP's list, and of settings; and what a settings page says.
ghost use Rattle.std.specs.Prelude.{◌≡◌, ◌≢◌, ◌<◌, ◌≤◌, ◌+◌, ◌-◌, ◌*◌, ◌++◌, ◌∷◌, [], ℕ, Bool, true, false, List, length, take, Some, None};
ghost use Rattle.ufs_bytes.specs.Fields.{field_at};
ghost use Rattle.ufs_laws.specs.Decisions.{boot_query, IsListed, list_of, PassesList, permanent_query};
ghost use Rattle.ufs_laws.specs.FrameLaws.{outcome_in};
ghost use Rattle.ufs_laws.specs.SettingsPages.{AddsPage, ChangesSettings, counted, settings_after};
ghost use Rattle.ufs_laws.specs.SettingsPages.{settings_after_all, settings_in};
ghost use Rattle.ufs_spec.specs.declared.Numbers.{Numbers};
ghost use Rattle.ufs_spec.specs.Changes.{accepts, claimed_by, ends_with_status, set_deed, with_short};
ghost use Rattle.ufs_spec.specs.Commands.{Command, RpmbWrite, SetBoot, SetPermanent, Zero};
ghost use Rattle.ufs_spec.specs.DataOuts.{has_list_header, is_past_unit, is_wrong_descriptor, unmap_complete};
ghost use Rattle.ufs_spec.specs.Exchanges.{Answering, Short, Task, invalid_list_field, out_of_range, short_reply, write_error};
ghost use Rattle.ufs_spec.specs.declared.exchanges.Status.{Status};
ghost use Rattle.ufs_spec.specs.declared.exchanges.Status.TheVariants.{Good};
ghost use Rattle.ufs_spec.specs.FrameRequests.{frames_complete};
ghost use Rattle.ufs_spec.specs.Frames.{Frame};
ghost use Rattle.ufs_spec.specs.Machine.{durable, is_durable, lock_applied, short_locked};
ghost use Rattle.ufs_spec.specs.Plain.{LiesWithin, Plain, after, apply, block_at, region_of, shape_of};
ghost use Rattle.ufs_spec.specs.Plain.{zero_block};
ghost use Rattle.ufs_spec.specs.Queries.{Query, query_code, setting_of, value_told};
ghost use Rattle.ufs_spec.specs.QueryAnswers.{may_set, query_answered, query_done, query_failed, query_passed};
ghost use Rattle.ufs_spec.specs.Refusals.{State, locked, mended, numbers_of, plain_now, unit_numbers_at};
ghost use Rattle.ufs_spec.specs.Rpmb.{Results};
ghost use Rattle.ufs_spec.specs.Translation.{free_slots};
ghost use Rattle.ufs_spec.specs.declared.volatile.Volatile.{Volatile};

/// A wrong header or descriptor of UNMAP's list is refused with 5/26/00, a descriptor past the unit
/// with 5/21/00, and none of them, nor a list without a block, accepts anything; a locked device
/// answers with a write error. What is right makes its blocks zeros, as one command, and no other
/// block. In each case the claimed slots are given back.
pub fn an_unmap_judges_its_list()
    ensures header { (s : State) (task : Task) (unit : ℕ) (list : List ℕ) → has_list_header list ≡ false →
        unmap_complete s task unit list ≡ ends_with_status s task invalid_list_field }
    ensures header_alone { (s : State) (task : Task) (unit : ℕ) (list : List ℕ) → has_list_header list ≡ true →
        length list ≡ 8 → unmap_complete s task unit list ≡ ends_with_status s task Good }
    ensures descriptor { (s : State) (task : Task) (unit : ℕ) (list : List ℕ) → IsListed list →
        is_wrong_descriptor (numbers_of s) list ≡ true →
        unmap_complete s task unit list ≡ ends_with_status s task invalid_list_field }
    ensures past { (s : State) (task : Task) (unit : ℕ) (list : List ℕ) → IsListed list →
        is_wrong_descriptor (numbers_of s) list ≡ false →
        is_past_unit list (unit_numbers_at (numbers_of s) (Some unit)) ≡ true →
        unmap_complete s task unit list ≡ ends_with_status s task out_of_range }
    ensures no_block { (s : State) (task : Task) (unit : ℕ) (list : List ℕ) → PassesList s unit list →
        field_at 4 16 list ≡ 0 → unmap_complete s task unit list ≡ ends_with_status s task Good }
    ensures lock { (s : State) (task : Task) (unit : ℕ) (list : List ℕ) → PassesList s unit list →
        field_at 4 16 list ≢ 0 → locked s ≡ true →
        unmap_complete s task unit list ≡ ends_with_status s task write_error }
    ensures accepted { (s : State) (task : Task) (unit : ℕ) (list : List ℕ) → PassesList s unit list →
        field_at 4 16 list ≢ 0 → locked s ≡ false → unmap_complete s task unit list
        ≡ set_deed
        (accepts s (Zero unit (field_at 8 8 list) (field_at 4 16 list))
        (claimed_by (numbers_of s) task.deed task.command))
        task.tag (Answering Good task.length) }
    ensures nothing { (s : State) (task : Task) (status : Status) →
        (ends_with_status s task status).accepted ≡ s.accepted }
    ensures gives_back { (s : State) (task : Task) (unit : ℕ) (list : List ℕ) →
        (unmap_complete s task unit list).translation.claims
        ≡ s.translation.claims - claimed_by (numbers_of s) task.deed task.command }
    ensures zeros { (p : Plain) (unit address count a : ℕ) → LiesWithin (shape_of p) (Zero unit address count) →
        address ≤ a → a < address + count → block_at unit a (apply p (Zero unit address count)) ≡ zero_block }
    ensures others { (p : Plain) (unit address count u a : ℕ) → LiesWithin (shape_of p) (Zero unit address count) →
        (u ≡ unit → address ≤ a → a < address + count → ⊥) →
        block_at u a (apply p (Zero unit address count)) ≡ block_at u a p }
{}

/// Lists of UNMAP. Of 24 bytes the header says 16h and 10h. Three blocks from address 5 on are right in
/// a unit of eight blocks, and past a unit of seven. A list may name 128 blocks and not 129 where there are
/// 256 slots or more, and 32 blocks and not 33 where there are fewer. The last four bytes are zero.
pub fn worked_lists()
    ensures header { has_list_header (list_of 0x16 0x10 5 3) ≡ true }
    ensures wrong_length { has_list_header (list_of 0x18 0x10 5 3) ≡ false }
    ensures wrong_descriptors { has_list_header (list_of 0x16 0x18 5 3) ≡ false }
    ensures within { is_past_unit (list_of 0x16 0x10 5 3) (Some (record { blocks = 8; boot = 0; protect = 0 }))
        ≡ false }
    ensures past { is_past_unit (list_of 0x16 0x10 5 3) (Some (record { blocks = 7; boot = 0; protect = 0 }))
        ≡ true }
    ensures most { (n : Numbers) → 256 ≤ n.slots → is_wrong_descriptor n (list_of 0x16 0x10 5 128) ≡ false }
    ensures too_many { (n : Numbers) → is_wrong_descriptor n (list_of 0x16 0x10 5 129) ≡ true }
    ensures most_of_few_slots { (n : Numbers) → is_wrong_descriptor n (list_of 0x16 0x10 5 32) ≡ false }
    ensures too_many_of_few_slots { (n : Numbers) → n.slots < 256 →
        is_wrong_descriptor n (list_of 0x16 0x10 5 33) ≡ true }
    ensures not_zero { (n : Numbers) →
        is_wrong_descriptor n (take 20 (list_of 0x16 0x10 5 3) ++ (0 ∷ 0 ∷ 0 ∷ 1 ∷ [])) ≡ true }
{}

/// A setting becomes an accepted command, and its answer waits until that command is durable. It
/// tells the value that it set. The lock answers one that waits with FFh, and its command stays
/// accepted. While the device is not mended, is locked or has no free slot, a setting is answered
/// FFh and nothing is accepted.
pub fn a_setting_waits_until_it_is_durable()
    ensures accepted { (s : State) (tag : ℕ) (q : Query) (c : Command) → setting_of q ≡ Some c →
        (query_passed s tag q (setting_of q)).accepted ≡ s.accepted ++ c ∷ [] }
    ensures waits { (s : State) (tag : ℕ) (q : Query) (c : Command) → setting_of q ≡ Some c →
        (query_passed s tag q (setting_of q)).shorts ≡ s.shorts ++ record {
          tag = tag;
          awaits = Some (length s.accepted + 1);
          reply = query_done (numbers_of s) (apply (plain_now s) c) s.volatile tag q;
          locked_reply = query_failed tag q 0xFF;
        } ∷ [] }
    ensures tells_boot { (p : Plain) (volatile : Volatile) (value : ℕ) →
        value_told (apply p (SetBoot value)) volatile (boot_query value) ≡ value }
    ensures tells_flag { (p : Plain) (volatile : Volatile) →
        value_told (apply p SetPermanent) volatile permanent_query ≡ 1 }
    ensures not_due { (s : State) (short : Short) (n : ℕ) → short.awaits ≡ Some n → durable s < n →
        is_durable s short.awaits ≡ false }
    ensures lock { (s : State) (short : Short) → is_durable s short.awaits ≡ false →
        short_locked s short ≡ record short { awaits = None; reply = short.locked_reply } }
    ensures stays { (s : State) → (lock_applied s).accepted ≡ s.accepted }
    ensures not_mended { (s : State) → mended s ≡ false → may_set s ≡ false }
    ensures shut { (s : State) → locked s ≡ true → may_set s ≡ false }
    ensures no_slot { (s : State) → free_slots s.translation ≡ 0 → may_set s ≡ false }
    ensures boot_refused { (n : Numbers) (p : Plain) (value : ℕ) → value ≤ 2 →
        query_code n p false (boot_query value) ≡ 0xFF }
    ensures flag_refused { (n : Numbers) (p : Plain) → p.permanent ≡ false →
        query_code n p false permanent_query ≡ 0xFF }
    ensures nothing { (s : State) (tag : ℕ) (q : Query) (code : ℕ) → code ≢ 0x00 →
        query_answered s tag q code ≡ with_short s (short_reply tag (query_failed tag q code)) }
{}

/// The boot setting, the permanent protection (JESD220, 14), and the key and write counter of each
/// RPMB region (JESD220, 12.4) lie on one page. A command that changes one of them puts the whole
/// page behind all groups that were accepted before it. The page carries all of them as the commands
/// before it, durable or not, and its own leave them. So a setting and an RPMB write in flight
/// together never undo each other: whichever comes second carries what both did.
pub fn a_settings_page_carries_all_before_it()
    // What commands make of them: each changes one at most, and no other.
    ensures commands { (p : Plain) (cs : List Command) →
        settings_in (after p cs) ≡ settings_after_all (settings_in p) cs }
    // The page of a command says what all commands of this life so far, and its own, made of the
    // settings with which the life began.
    ensures page { (s : State) (c : Command) (claimed : ℕ) → ChangesSettings c → AddsPage s (accepts s c claimed)
        (settings_after_all (settings_in s.base) (s.accepted ++ c ∷ [])) }
    // It says what the device has from then on, as a host sees it.
    ensures as_it_is { (s : State) (c : Command) (claimed : ℕ) → ChangesSettings c →
        AddsPage s (accepts s c claimed) (settings_in (plain_now (accepts s c claimed))) }
    // The page of the second of two commands says what both made, in either order of a setting and
    // a write.
    ensures second { (s : State) (c d : Command) (m n : ℕ) → ChangesSettings d → AddsPage (accepts s c m) (accepts (accepts s c m) d n)
        (settings_after (settings_after (settings_in (plain_now s)) c) d) }
    ensures setting_after_write { (s : State) (region address boot m n : ℕ) (bytes : List ℕ) →
        AddsPage (accepts s (RpmbWrite region address bytes) m)
        (accepts (accepts s (RpmbWrite region address bytes) m) (SetBoot boot) n)
        (record (counted (plain_now s) region) { boot = boot }) }
    ensures write_after_setting { (s : State) (region address boot m n : ℕ) (bytes : List ℕ) →
        AddsPage (accepts s (SetBoot boot) m)
        (accepts (accepts s (SetBoot boot) m) (RpmbWrite region address bytes) n)
        (record (counted (plain_now s) region) { boot = boot }) }
    // So it is when a query sets something, and when a request to any RPMB region is accepted.
    ensures setting { (s : State) (tag : ℕ) (q : Query) (c : Command) → setting_of q ≡ Some c → AddsPage s (query_passed s tag q (setting_of q))
        (settings_after (settings_in (plain_now s)) c) }
    ensures request { (s : State) (task : Task) (region : ℕ) (f : Frame) (fs : List Frame) (result : ℕ)
        (c : Command) → outcome_in s region (f ∷ fs) ≡ Results result (Some c) →
        AddsPage s (frames_complete s task region (f ∷ fs))
        (settings_after (settings_in (plain_now s)) c) }
{}
