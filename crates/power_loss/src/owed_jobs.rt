//! The laws of owed jobs: what a die may be given while others work.
ghost use Rattle.std.specs.Prelude.{◌≡◌, ◌≢◌, ◌⊎◌, ◌<◌, ◌≤◌, ◌+◌, ℕ, Bool, false, true, List, Option, Some, None};
ghost use Rattle.ufs_spec.specs.Cells.{Cell, GroupPage, Mark, MarkPage};
ghost use Rattle.ufs_spec.specs.Disk.{Bad, Erasing, Filling, Flight, Programming, Reading, Spot};
ghost use Rattle.ufs_spec.specs.Moves.{EndJob, Move, ReadRight, moved};
ghost use Rattle.ufs_spec.specs.Translation.{CopyStep, MayTake, Plan, Translation, count_blocks, is_bad, is_free, left_by_groups, name_of, own_room, turned};
ghost use Rattle.ufs_spec.specs.declared.configs.Numbers.{Numbers};
ghost use Rattle.ufs_spec.specs.declared.flash.Place.{Place};
ghost use Rattle.ufs_spec.specs.declared.flash.Tag.{Tag};
ghost use Rattle.ufs_spec.specs.declared.layer.Name.{Name};
ghost use Rattle.ufs_spec.specs.declared.layer.Reader.{Reader};
ghost use Rattle.ufs_spec.specs.declared.layer.Reader.TheVariants.{ForStep};
ghost use Rattle.power_loss.specs.Exchange.{IsSpot};
ghost use Rattle.power_loss.specs.OwedJobs.{IsFirstProgram, IsStepsPage};
ghost use Rattle.power_loss.specs.OwnRoom.{IsOwnRoom, IsWaitingStep, OpensBlock};

/// While a die programs a page, a copy or a mark, no die is given the same; and while a die does a wanted read, no
/// die is given a read for the same reader.
pub fn one_die_each()
    ensures page { (t : Translation) (die other : ℕ) (p q : Place) (tag flying : Tag) (body bytes : List ℕ) →
        MayTake t die (Some (Programming p (GroupPage tag body))) → other < t.numbers.dies →
        t.disk.flights other ≡ Some (Programming q (GroupPage flying bytes)) → name_of flying ≢ name_of tag }
    ensures mark { (t : Translation) (die other : ℕ) (p q : Place) (m flying : Mark) →
        MayTake t die (Some (Programming p (MarkPage m))) → other < t.numbers.dies →
        t.disk.flights other ≡ Some (Programming q (MarkPage flying)) → ⊥ }
    ensures read { (t : Translation) (die other : ℕ) (reader : Reader) (p q : Place) →
        MayTake t die (Some (Reading reader p)) → other < t.numbers.dies →
        t.disk.flights other ≡ Some (Reading reader q) → ⊥ }
{}

/// A page is programmed for the first time, or it is the page of the step under way and its content is there. A copy
/// begins without its content, and only the end of the read of its page brings it.
pub fn a_copy_is_programmed_after_its_read()
    ensures given { (t : Translation) (die : ℕ) (p : Place) (tag : Tag) (body : List ℕ) →
        MayTake t die (Some (Programming p (GroupPage tag body))) →
        IsFirstProgram t (name_of tag) ⊎ IsStepsPage t (name_of tag) }
    ensures begun { (t : Translation) (name : Name) (from : Place) (there : Bool) → t.work.step ≡ None →
        (turned t).work.step ≡ Some (record { kind = CopyStep name from; there = there }) → there ≡ false }
    ensures brought { (t : Translation) (move : Move) (name : Name) (from : Place) →
        t.work.step ≡ Some (record { kind = CopyStep name from; there = false }) →
        (moved t move).work.step ≡ Some (record { kind = CopyStep name from; there = true }) →
        (die : ℕ) × (place : Place) × (move ≡ EndJob die ReadRight) × (t.disk.flights die ≡ Some (Reading ForStep place)) }
    ensures its_page { (t : Translation) (die : ℕ) (place : Place) (name : Name) (from : Place) (there : Bool) →
        t.work.step ≡ Some (record { kind = CopyStep name from; there = there }) →
        MayTake t die (Some (Reading ForStep place)) →
        (there ≡ false) × (place ≡ from) }
{}

/// A page of a group is given to no die while fewer blocks are free than groups leave to the device's own
/// pages, and no block is opened for one unless more are free. What is given then is for the page of the step
/// under way that waits. While a bad block is collected groups leave two blocks more at least. A free block with
/// pages that may go is erased whatever is free, since that opens none.
pub fn groups_leave_room()
    ensures room { (n : Numbers) (bad : ℕ) → 1 ≤ n.pages → IsOwnRoom n bad (own_room n bad) }
    ensures least { (t : Translation) → own_room t.numbers (count_blocks t is_bad) ≤ left_by_groups t }
    ensures more { (t : Translation) (plan : Plan) → t.work.plan ≡ Some plan → t.disk.blocks plan.victim ≡ Bad →
        own_room t.numbers (count_blocks t is_bad) + 2 ≤ left_by_groups t }
    ensures page { (t : Translation) (die : ℕ) (p : Place) (cell : Cell) → MayTake t die (Some (Programming p cell)) →
        IsWaitingStep t cell ⊎ (left_by_groups t ≤ count_blocks t is_free) }
    ensures block { (t : Translation) (die : ℕ) (flight : Flight) → MayTake t die (Some flight) → OpensBlock t flight →
        ((cell : Cell) × IsWaitingStep t cell) ⊎ (left_by_groups t < count_blocks t is_free) }
{}

/// While fewer blocks are free than groups leave, the device opens one block after another: a die is given
/// the erase of a block to fill it, or the first page of one that was erased before, only where no block is
/// being filled and no die erases one.
pub fn one_block_after_another()
    ensures filled { (t : Translation) (die : ℕ) (flight : Flight) (opened : Spot) (next : ℕ) →
        MayTake t die (Some flight) → OpensBlock t flight → count_blocks t is_free < left_by_groups t →
        IsSpot t.numbers opened → t.disk.blocks opened ≡ Filling next → ⊥ }
    ensures erased { (t : Translation) (die other : ℕ) (flight : Flight) (opened : Spot) →
        MayTake t die (Some flight) → OpensBlock t flight → count_blocks t is_free < left_by_groups t →
        other < t.numbers.dies → t.disk.flights other ≡ Some (Erasing opened) → ⊥ }
{}
