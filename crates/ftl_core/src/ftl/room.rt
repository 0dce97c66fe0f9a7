//! How many blocks stay free, and where one may be opened.
ghost use Rattle.std.specs.Prelude.{◌≡◌, ◌<◌, ◌^◌};
ghost use Rattle.std.specs.List.{list_any};
ghost use Rattle.ufs_spec.specs.Configs.{InRange};
ghost use Rattle.ufs_spec.specs.Translation.{least_room, may_go_bad, own_room, wanted_room};
ghost use Rattle.ftl_core.specs.Collects.{has_few_free};
ghost use Rattle.ftl_core.specs.Moves.{bad_blocks, erases, fills, free_blocks, has_open_block, has_room_for_groups, may_open, may_open_for_group, may_open_for_step, is_plan_of_bad, left_by_groups};

use super::Ftl;
use crate::books::Waiting;
use block_table::BlockState;
use ufs_spec::Numbers;

/// How many free blocks the device's own pages need, copies, marks and repairs, while no block goes
/// bad: one for each die, two, and twice as many as the pages of a full write cache fill.
fn least_room(numbers: &Numbers) -> usize
    requires { InRange numbers.now }
    ensures what { result ≡ least_room numbers.now }
    ensures small { result < 2 ^ 20 }
{
    let filled = numbers.slots.div_ceil(numbers.pages);
    usize::from(numbers.dies) + 2 + 2 * usize::from(filled)
}

/// How many blocks may still go bad before the device is locked, where so many are bad.
fn may_go_bad(numbers: &Numbers, bad: usize) -> usize
    ensures what { result ≡ may_go_bad numbers.now bad }
    ensures small { result < 2 ^ 20 }
{
    usize::from(numbers.spare).saturating_sub(bad)
}

/// How many free blocks groups leave where so many blocks are bad: those that the device's own
/// pages need, and one for each block that may still go bad.
fn own_room(numbers: &Numbers, bad: usize) -> usize
    requires { InRange numbers.now }
    ensures { result ≡ own_room numbers.now bad }
{
    least_room(numbers) + may_go_bad(numbers, bad)
}

/// With fewer free blocks than this many room is to be gained.
fn wanted_room(numbers: &Numbers, bad: usize) -> usize
    requires { InRange numbers.now }
    ensures { result ≡ wanted_room numbers.now bad }
{
    let least = 2 * usize::from(numbers.dies) + 4;
    least.max(least_room(numbers) + 2) + may_go_bad(numbers, bad)
}

impl Ftl {
    /// How many blocks of all dies are free.
    fn free_blocks(&self) -> usize
        ensures { result ≡ free_blocks self.now }
    {
        self.blocks.free_blocks()
    }

    /// Whether a bad block is being collected: no block is free afterwards.
    fn is_collecting_bad(&self) -> bool
        ensures { result ≡ is_plan_of_bad self.now self.now.plan }
    {
        match self.plan.victim() {
            Some(at) => matches!(self.blocks.state(at.die, at.block), BlockState::Bad),
            None => false,
        }
    }

    /// How many free blocks groups leave now: while a bad block is collected as many as are wanted,
    /// since its pages and a mark may fill two.
    fn left_by_groups(&self) -> usize
        ensures { result ≡ left_by_groups self.now }
    {
        let bad = self.blocks.bad_blocks();
        if self.is_collecting_bad() {
            wanted_room(self.config.numbers(), bad)
        } else {
            own_room(self.config.numbers(), bad)
        }
    }

    /// Whether fewer blocks are free than are wanted.
    pub(super) fn has_few_free(&self) -> bool
        ensures { result ≡ has_few_free self.now }
    {
        self.free_blocks() < wanted_room(self.config.numbers(), self.blocks.bad_blocks())
    }

    /// Whether pages of groups may be programmed: not into the room that they leave to the device's
    /// own pages.
    pub(super) fn has_room_for_groups(&self) -> bool
        ensures { result ≡ has_room_for_groups self.now }
    {
        self.free_blocks() >= self.left_by_groups()
    }

    /// Whether some die fills a block.
    fn is_filling(&self) -> bool
        ensures { result ≡ list_any fills self.now.rows }
    {
        self.blocks.fills_any()
    }

    /// Whether some die erases a block.
    fn is_erasing(&self) -> bool
        ensures { result ≡ list_any erases self.now.rows }
    {
        self.blocks.erases_any()
    }

    /// Whether a block of some die is being filled, or is being erased.
    fn has_open_block(&self) -> bool
        ensures { result ≡ has_open_block self.now }
    {
        self.is_filling() || self.is_erasing()
    }

    /// Whether a block may be opened for a page of a group: only while more blocks are free than
    /// groups leave.
    fn may_open_for_group(&self) -> bool
        ensures { result ≡ may_open_for_group self.now }
    {
        self.free_blocks() > self.left_by_groups()
    }

    /// Whether a block may be opened for the page of a step: while groups may be programmed any die
    /// opens its own; below that one block after another is filled, whatever its die.
    fn may_open_for_step(&self) -> bool
        ensures { result ≡ may_open_for_step self.now }
    {
        self.has_room_for_groups() || !self.has_open_block()
    }

    /// Whether a block may be opened for what waits.
    pub(super) fn may_open(&self, waiting: Waiting) -> bool
        ensures { result ≡ may_open self.now waiting }
    {
        match waiting {
            Waiting::Step => self.may_open_for_step(),
            Waiting::Group {
                number: _,
                index: _,
            } => self.may_open_for_group(),
        }
    }
}
