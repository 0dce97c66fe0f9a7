//! The laws of power loss: what holds of the translation layer in one life, and what a stop leaves of it. The functions
//! do nothing: their contracts are the laws.
#![tactic(auto)]

mod area_shown;
mod collection;
mod erasing;
mod exchange;
mod fence;
mod few_repairs;
mod free_blocks;
mod kept;
mod mending;
mod mending_room;
mod owed_jobs;
mod pending;
mod promises;
mod rests;
mod runs;
mod settled_slots;
mod shown;
mod spellings;

ghost use Rattle.std.specs.Prelude.{◌≡◌, ◌≢◌, ◌+◌, ◌≤◌, ℕ, Bool, true, false, List, Option, Some};
ghost use Rattle.ufs_spec.specs.Cells.{AreWithin, Cells, GroupPage, Mark, Nothing};
ghost use Rattle.ufs_spec.specs.Disk.{CellCrash, Erasing, HasCopy, MayErase, Spent, SpentBy, Spot, Stands, spot_of, with_erasing};
ghost use Rattle.ufs_spec.specs.Kept.{IsKept, IsNewestMark};
ghost use Rattle.ufs_spec.specs.Moves.{IsAllowedMove, Move, moved};
ghost use Rattle.ufs_spec.specs.Openings.{IsOpenedTranslation};
ghost use Rattle.ufs_spec.specs.Sound.{CellsSound, CellsSuit};
ghost use Rattle.ufs_spec.specs.Translation.{MayTake, Translation, is_live, is_mended, is_pinned, pending_pages};
ghost use Rattle.ufs_spec.specs.declared.configs.Numbers.{Numbers};
ghost use Rattle.ufs_spec.specs.declared.flash.Place.{Place};
ghost use Rattle.ufs_spec.specs.declared.flash.Tag.{Tag};
ghost use Rattle.power_loss.specs.Book.{CellsRight};
ghost use Rattle.power_loss.specs.Invariant.{IsPrefix, Valid};
ghost use Rattle.power_loss.specs.Stops.{IsFront};

pub use area_shown::a_request_reads_the_area_as_it_is;
pub use collection::{
    collection_is_due_when_it_should, the_victim_has_the_fewest_live_pages,
    too_many_bad_blocks_lock,
};
pub use erasing::erasing_what_may_go_loses_nothing;
pub use exchange::{
    each_call_keeps, each_event_keeps, lives_are_chained, next_life_begins_with_a_prefix,
    opened_state_is_valid,
};
pub use fence::the_fence_falls_last;
pub use few_repairs::{a_stop_leaves_few_repairs, each_mending_is_short};
pub use free_blocks::{first_blocks_are_one, found_free_is_one, free_pages_may_go};
pub use kept::{
    a_page_that_is_read_is_a_groups, a_rest_keeps_its_page, kept_pages_stay,
    rests_are_found_at_the_accept,
};
pub use mending::{a_life_is_mended_soon, mending_ends_soon};
pub use mending_room::{
    a_life_with_room_goes_on, lives_with_room_go_on, mending_with_room_goes_on,
};
pub use owed_jobs::{
    a_copy_is_programmed_after_its_read, groups_leave_room, one_block_after_another, one_die_each,
};
pub use pending::pending_groups_become_durable_in_order;
pub use promises::good_promises_durability;
pub use rests::rests_are_laid_over_one_page;
pub use runs::{
    a_failed_page_goes_elsewhere, a_failed_write_is_answered, a_job_may_fail_at_any_moment,
    a_run_keeps_the_promise, a_stop_may_come_at_any_moment, a_stopped_write_opens,
    any_sound_array_opens, new_dies_fit, one_array_is_left, two_dies_torn_at_once_open,
};
pub use settled_slots::a_durable_slot_becomes_its_page;
pub use shown::kept_content_is_what_is_sent;
pub use spellings::replies_can_be_spelled;

/// Opening over a sound array gives a valid life.
pub fn opening_is_valid()
    ensures { (n : Numbers) (c : Cells) (bad : Spot → Bool) (t : Translation) →
        1 ≤ n.pages → CellsRight c → AreWithin n c → CellsSound c t.ledger.newest → IsOpenedTranslation n c bad t → Valid t }
{}

/// Each move that is allowed keeps a life valid.
pub fn each_move_keeps()
    ensures { (t : Translation) (move : Move) → Valid t → IsAllowedMove t move → Valid (moved t move) }
{}

/// Pages that are accepted and not durable, and the slots that tasks have claimed, are never more than the device's slots.
pub fn slots_are_never_overdrawn()
    ensures within { (t : Translation) → Valid t → pending_pages t.ledger + t.claims ≤ t.numbers.slots }
{}

/// What a stop leaves is sound, suits the device, and stands for a prefix of the accepted commands that has each
/// acknowledged one and each durable one.
pub fn a_stop_leaves_a_prefix()
    ensures within { (t : Translation) (c : Cells) → Valid t → CellCrash t.disk.cells t.disk.flights c → AreWithin t.numbers c }
    ensures sound { (t : Translation) (c : Cells) (m : Option Mark) →
        Valid t → CellCrash t.disk.cells t.disk.flights c → IsNewestMark c m → CellsSound c m }
    ensures suits { (t : Translation) (c : Cells) (m : Option Mark) →
        Valid t → CellCrash t.disk.cells t.disk.flights c → IsNewestMark c m → CellsSuit t.numbers c m }
    ensures prefix { (t : Translation) (c : Cells) (m : Option Mark) (kept : ℕ) →
        Valid t → CellCrash t.disk.cells t.disk.flights c → IsNewestMark c m → IsKept c m kept → IsPrefix t c m kept }
    // So it stands for what is durable after a front of the groups that are pending.
    ensures front { (t : Translation) (c : Cells) (m : Option Mark) (kept : ℕ) →
        Valid t → CellCrash t.disk.cells t.disk.flights c → IsNewestMark c m → IsKept c m kept → IsFront t c m kept }
{}

/// A block that is given to a die to be erased holds only pages that may go, and none that a task keeps or that the rest of a
/// page is still to be read from.
pub fn erased_blocks_are_spent()
    ensures spent { (t : Translation) (die : ℕ) (s : Spot) → Valid t → MayTake t die (Some (Erasing s)) → MayErase t.disk s }
    // So it may go by some finished mark that stands where no block is being erased.
    ensures by_some_mark { (t : Translation) (die : ℕ) (s : Spot) (p : Place) →
        Valid t → MayTake t die (Some (Erasing s)) → spot_of p ≡ s → t.disk.cells p ≢ Nothing →
        (m : Mark) × Stands (with_erasing t.disk s) m × SpentBy (with_erasing t.disk s) m (t.disk.cells p) }
    ensures unpinned { (t : Translation) (die : ℕ) (s : Spot) →
        Valid t → MayTake t die (Some (Erasing s)) → is_pinned t s ≡ false }
{}

/// Once the device is mended, a live page may go only where a finished copy of it stands elsewhere; and at no time is a
/// block given to a die to be erased that has a live page.
pub fn live_page_is_spent_by_a_copy_alone()
    ensures copied { (t : Translation) (p : Place) (tag : Tag) (body : List ℕ) →
        Valid t → is_mended t.work.mending ≡ true → t.disk.cells p ≡ GroupPage tag body → is_live t p ≡ true →
        Spent t.disk p → HasCopy (with_erasing t.disk (spot_of p)) tag body }
    ensures never_erased { (t : Translation) (die : ℕ) (s : Spot) (p : Place) →
        Valid t → MayTake t die (Some (Erasing s)) → is_live t p ≡ true → spot_of p ≢ s }
{}
