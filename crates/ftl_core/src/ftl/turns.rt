//! Steps of the mending and of the collection: which one is due, and how it is ordered.
ghost use Rattle.std.specs.Prelude.{◌≡◌, ◌<◌, ◌+◌, IsTrue, Option, length, if◌then◌else◌, nat_le, is_some, slice_get, Some, None};
ghost use Rattle.std.specs.List.{list_any};
ghost use Rattle.ftl_core.specs.Moves.{has_number, mark_ordered};
ghost use Rattle.ftl_core.specs.Collects.{is_bad_with_live, victim, wants_collection};
ghost use Rattle.ftl_core.specs.Turns.{IsBegunIf, IsCollectionTurnedIf, IsTurned, copy_ordered, is_begin_due, is_collection_due, is_plan_due, is_repair_due, is_turn_due, plan_turned, repair_turned};
ghost use Rattle.block_table.specs.Lives.{spots_in};
ghost use Rattle.ftl_core.specs.Moves.{repair_ordered};
ghost use Rattle.ufs_spec.specs.Moves.{TakeStep, moved};
ghost use Rattle.ufs_spec.specs.Pages.{greatest_number};
ghost use Rattle.ufs_spec.specs.Translation.{Translation, is_step_due};
ghost use Rattle.ftl_core.specs.Describes.{Describes};
ghost use Rattle.ftl_core.specs.Public.{AreClaimed, Claims};
ghost use Rattle.ftl_core.specs.Stops.{StopsRight};

use super::{Ftl, zeros};
use crate::books::{Mending, Step};
use collector::{PlanStep, PlannedCopy};
use ufs_spec::{Fence, GREATEST_NUMBER, Key};

impl Ftl {
    /// Does one step of the mending or of collection, if one is due: it orders a mark, a repair or a copy.
    /// False, and nothing changes, if none is due: one is under way, a free block is still to be erased for
    /// the pages that open in it, no number is left, or the device is mended and either has room or has no
    /// block whose collection gains room.
    pub fn turn(&mut self) -> bool
        ensures due { result ≡ is_turn_due self.old }
        ensures after { IsTurned self.old result self.new }
        ensures described_due { (t : Translation) → Describes self.old t → result ≡ is_step_due t }
        ensures described { (t : Translation) → Describes self.old t → Describes self.new (moved t TakeStep) }
        // Whatever a stop leaves then is right.
        ensures stop { (t : Translation) → Describes self.old t → StopsRight self.new (moved t TakeStep) }
        ensures claims { (claims : Claims) → AreClaimed self.old claims → AreClaimed self.new claims }
    {
        if self.step.is_some() || self.blocks.has_stale() {
            return false;
        }
        match self.mending {
            Mending::Unmarked(fence) => self.turn_mark(fence),
            Mending::Repairing => self.turn_repair(),
            Mending::Mended => self.turn_collection(),
        }
    }

    /// Orders the next step of the collection that is begun, or begins one if it is due.
    fn turn_collection(&mut self) -> bool
        requires { self.old.step ≡ None }
        ensures due { result ≡ is_collection_due self.old self.old.plan }
        ensures after { IsCollectionTurnedIf self.old result self.new }
    {
        if self.plan.victim().is_none() && !self.begin_collection() {
            return false;
        }
        self.turn_plan()
    }

    /// Begins the collection of the victim, if room is scarce, there is a victim, and a number is left for
    /// the mark that ends it.
    fn begin_collection(&mut self) -> bool
        requires { self.old.plan ≡ None }
        ensures due { result ≡ is_begin_due self.old }
        ensures after { IsBegunIf self.old result self.new }
    {
        if self.next_mark > GREATEST_NUMBER || !self.wants_collection() {
            return false;
        }
        self.plan_victim()
    }

    /// Plans the collection of the victim, if there is one.
    fn plan_victim(&mut self) -> bool
        requires { self.old.plan ≡ None }
        ensures due { result ≡ is_some (victim self.old) }
        ensures after { IsBegunIf self.old result self.new }
    {
        let scarce = self.has_few_free();
        self.plan.plan(&self.live, &self.blocks, scarce, &self.places, &self.cache)
    }

    /// Whether few blocks are free, or a bad block holds live pages.
    fn wants_collection(&self) -> bool
        ensures { result ≡ wants_collection self.now }
    {
        self.has_few_free() || (self.blocks.bad_blocks() > 0 && self.has_bad_with_live())
    }

    /// Whether a bad block without a pin holds live pages.
    fn has_bad_with_live(&self) -> bool
        ensures { result ≡ list_any (is_bad_with_live self.now) (spots_in self.now.live.sizes) }
    {
        self.live.has_bad_with_live(&self.blocks)
    }

    /// Orders the next copy of the collection that is begun, or its mark, if no page is left to copy and a
    /// number is left.
    fn turn_plan(&mut self) -> bool
        ensures due { result ≡ is_plan_due self.old self.old.plan }
        ensures after { self.new ≡ (if result then plan_turned self.old self.old.plan else self.old) }
    {
        match self.plan.next_step() {
            Some(PlanStep::Copy(copy)) => {
                self.order_copy(copy);
                true
            }
            Some(PlanStep::Mark) => self.turn_mark(None),
            None => false,
        }
    }

    /// The copy waits: its page is to be read.
    fn order_copy(&mut self, copy: PlannedCopy)
        ensures { self.new ≡ copy_ordered self.old copy }
    {
        self.plan.copy_ordered();
        self.step = Some(Step::Copy {
            number: copy.number,
            key: copy.key,
            from: copy.from,
            tag: None,
        });
    }

    /// Orders a mark with this fence, where a number is left.
    fn turn_mark(&mut self, fence: Option<Fence>) -> bool
        ensures due { result ≡ nat_le self.old.next_mark greatest_number }
        ensures after { self.new ≡ (if result then mark_ordered self.old fence else self.old) }
    {
        if self.next_mark > GREATEST_NUMBER {
            return false;
        }
        self.order_mark(fence);
        true
    }

    /// The next key that has no repair yet.
    fn next_lost(&self) -> Option<Key>
        ensures { result ≡ slice_get self.now.lost self.now.repaired }
    {
        self.lost.get(self.repaired).copied()
    }

    /// Orders the repair of the next key, where a number is left, or the mark that follows the repairs.
    fn turn_repair(&mut self) -> bool
        ensures due { result ≡ is_repair_due self.old (slice_get self.old.lost self.old.repaired) }
        ensures after { self.new ≡ (if result then repair_turned self.old (slice_get self.old.lost self.old.repaired) else self.old) }
    {
        let Some(key) = self.next_lost() else {
            return self.turn_mark(None);
        };
        if !self.cache.has_number() {
            return false;
        }
        self.order_repair(key);
        true
    }

    /// A mark with the next number and this fence waits, where a number is left.
    pub(super) fn order_mark(&mut self, fence: Option<Fence>)
        ensures { self.new ≡ mark_ordered self.old fence }
    {
        if self.next_mark <= GREATEST_NUMBER {
            self.step = Some(Step::Mark {
                number: self.next_mark,
                fence,
            });
            self.next_mark += 1;
        } else {
            self.step = None;
        }
    }

    /// The repair of the key waits, with the next number: its content is read from where it stands, or is
    /// zeros.
    fn order_repair(&mut self, key: Key)
        requires numbered { IsTrue (has_number self.old) }
        requires left { self.old.repaired < length self.old.lost }
        ensures { self.new ≡ repair_ordered self.old key }
    {
        let from = self.stored(key);
        let number = self.cache.give_number();
        self.repaired += 1;
        self.content = zeros();
        self.step = Some(Step::Repair {
            number,
            key,
            from,
            is_there: from.is_none(),
        });
    }
}
