//! What is in free blocks, and which of them are erased or filled first.
ghost use Rattle.std.specs.Prelude.{◌≡◌, ◌≢◌, ◌⊎◌, ℕ, Bool, true, false, [], Contains, Option, Some, None};
ghost use Rattle.ufs_laws.specs.FreeBlocks.{IsVacantOn};
ghost use Rattle.ufs_spec.specs.declared.Numbers.{Numbers};
ghost use Rattle.ufs_spec.specs.declared.Place.{Place};
ghost use Rattle.ufs_spec.specs.Cells.{Array, Cell, Cells, Mark, MarkPage, Nothing};
ghost use Rattle.ufs_spec.specs.Disk.{Bad, Disk, Erasing, Filling, Flight, Free, Programming, Ready, Spot, Stale, Untouched, erased, job_begun, programmed, spot_of};
ghost use Rattle.ufs_spec.specs.Lives.{IsOpened};
ghost use Rattle.ufs_spec.specs.Moves.{mark_written};
ghost use Rattle.ufs_spec.specs.Openings.{IsOpenedDisk};
ghost use Rattle.ufs_spec.specs.Refusals.{State};
ghost use Rattle.ufs_spec.specs.Translation.{MayTake, Plan, Translation, is_idle, is_step_due, spots, wants_on};

/// When a life begins what is in a block is by its cells: `Stale` if one page of it opens, and `Untouched` if none does.
pub fn vacancies_are_by_cells()
    ensures stale { (c : Cells) (m : Option Mark) (bad : Spot → Bool) (d : Disk) → IsOpenedDisk c m bad d → (p : Place) →
        c p ≢ Nothing → d.vacancies (spot_of p) ≡ Stale }
    ensures untouched { (c : Cells) (m : Option Mark) (bad : Spot → Bool) (d : Disk) → IsOpenedDisk c m bad d → (s : Spot) →
        ((p : Place) → spot_of p ≡ s → c p ≡ Nothing) → d.vacancies s ≡ Untouched }
{}

/// No step is due while a free block is stale. Its die is owed the erase of such a block behind its reads, and before it
/// programs anything, once nobody keeps a page of it. When a life begins dies are owed these erases and nothing else.
pub fn stale_blocks_are_erased_first()
    ensures no_step { (t : Translation) (s : Spot) → Contains (spots t.numbers) s → t.disk.blocks s ≡ Free →
        t.disk.vacancies s ≡ Stale → is_step_due t ≡ false }
    ensures job { (t : Translation) (die : ℕ) (s : Spot) (flight : Flight) → IsVacantOn t die s Stale → wants_on t die ≡ [] →
        MayTake t die (Some flight) → (spot : Spot) × (flight ≡ Erasing spot) × IsVacantOn t die spot Stale }
    ensures some_job { (t : Translation) (die : ℕ) (s : Spot) → IsVacantOn t die s Stale → is_idle t die ≡ true →
        MayTake t die None → ⊥ }
    ensures first_jobs { (n : Numbers) (array : Array) (bad : Spot → Bool) (s : State) → IsOpened n array bad s →
        (die : ℕ) (flight : Flight) → MayTake s.translation die (Some flight) →
        (spot : Spot) × (flight ≡ Erasing spot) × IsVacantOn s.translation die spot Stale }
{}

/// An erase leaves its block free, and ready to be filled. A block that is ready is not erased again, and while a die has
/// one it erases no untouched block. From the moment at which a program into a block is handed out it is being filled.
pub fn ready_blocks_are_filled_first()
    ensures erased { (d : Disk) (s : Spot) → ((erased d s).blocks ≡ d.blocks) × ((erased d s).vacancies s ≡ Ready) }
    ensures each_erase { (t : Translation) (die : ℕ) (spot : Spot) → MayTake t die (Some (Erasing spot)) →
        IsVacantOn t die spot Stale ⊎ IsVacantOn t die spot Untouched }
    ensures before_untouched { (t : Translation) (die : ℕ) (s spot : Spot) → IsVacantOn t die s Ready →
        MayTake t die (Some (Erasing spot)) → IsVacantOn t die spot Stale }
    ensures filled { (d : Disk) (die : ℕ) (p : Place) (cell : Cell) →
        (job_begun d die (Programming p cell)).blocks (spot_of p) ≡ Filling p.page }
{}

/// When a plan's mark ended well its block is free and stale, whether a page of it is kept or not; a bad one stays bad. So
/// no step is due before the block was erased, which waits until nobody keeps a page of it.
pub fn freed_victims_are_stale()
    ensures stale { (t : Translation) (p : Place) (m : Mark) (plan : Plan) → t.work.plan ≡ Some plan →
        (programmed t.numbers.pages t.disk p (MarkPage m)).blocks plan.victim ≢ Bad →
        ((mark_written t p m).disk.blocks plan.victim ≡ Free) × ((mark_written t p m).disk.vacancies plan.victim ≡ Stale) }
    ensures bad { (t : Translation) (p : Place) (m : Mark) (plan : Plan) → t.work.plan ≡ Some plan →
        (programmed t.numbers.pages t.disk p (MarkPage m)).blocks plan.victim ≡ Bad →
        (mark_written t p m).disk.blocks plan.victim ≡ Bad }
{}
