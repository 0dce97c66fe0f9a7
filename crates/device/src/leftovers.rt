//! What jobs leave on dies when they are interrupted or fail.
ghost use Rattle.std.specs.Prelude.{Some, ◌≡◌, ◌≢◌, ◌==◌, ◌<◌, false, true, AllPairs, length, map, replicate};
ghost use Rattle.std.specs.List.{list_any};
ghost use Rattle.ufs_spec.specs.Dies.{CanDo, blank_page, page_at, pages_of, power_cycle_ended, with_bad, with_block};
ghost use Rattle.ufs_spec.specs.Lives.{die_of};
ghost use Rattle.ufs_spec.specs.Pages.{MayBeLeft};
ghost use Rattle.std.specs.Prelude.{ℕ, slice_index_or};
ghost use Rattle.ufs_spec.specs.declared.flash.Place.{Place};
ghost use Rattle.device.specs.Leftovers.{HasPagesOf, IsOfJob, MayJobLeave};
ghost use Rattle.device.specs.Worlds.{block_of, die_left};

use nand_model::{Die, MemDie};
use page_tag::leftover_ok;
use ufs_spec::{Job, Leftover, Page};

/// The die that the leftover is on.
pub(crate) fn die_of(leftover: &Leftover) -> u8
    ensures { result ≡ die_of leftover.now }
{
    match leftover {
        Leftover::Page(place, _) => place.die,
        Leftover::Block {
            die,
            block: _,
            pages: _,
        } => *die,
    }
}

/// Whether it is a read, which leaves nothing.
pub(crate) fn is_read(job: &Option<Job>) -> bool
    ensures read { result ≡ true → (p : Place) × (job.now ≡ Some (Job.Read p)) }
    ensures no_read { result ≡ false → (p : Place) → job.now ≡ Some (Job.Read p) → ⊥ }
{
    match job {
        Some(job) => match job {
            Job::Read(_) => true,
            Job::Program(_, _) => false,
            Job::Erase { die: _, block: _ } => false,
        },
        None => false,
    }
}

/// Whether the leftover names just the page, or just all of so many pages of the block, that the
/// job touches. A read leaves nothing.
pub(crate) fn is_of_job(job: &Job, leftover: &Leftover, pages: u16) -> bool
    ensures of { result ≡ true → IsOfJob pages job.now leftover.now }
    ensures not_of { result ≡ false → IsOfJob pages job.now leftover.now → ⊥ }
{
    match job {
        Job::Read(_) => false,
        Job::Program(place, _) => match leftover {
            Leftover::Page(left, _) => left == place,
            Leftover::Block {
                die: _,
                block: _,
                pages: _,
            } => false,
        },
        Job::Erase { die, block } => match leftover {
            Leftover::Page(_, _) => false,
            Leftover::Block {
                die: other,
                block: there,
                pages: left,
            } => other == die && there == block && left.len() == pages as usize,
        },
    }
}

/// Whether the leftovers are on dies that all differ.
pub(crate) fn are_apart(leftovers: &[Leftover]) -> bool
    ensures apart { result ≡ true → AllPairs (λ l m. die_of l ≢ die_of m) leftovers.now }
    ensures twice { result ≡ false → AllPairs (λ l m. die_of l ≢ die_of m) leftovers.now → ⊥ }
{
    for (index, leftover) in leftovers.iter().enumerate() {
        if has_die(&leftovers[..index], die_of(leftover)) {
            return false;
        }
    }
    true
}

/// Whether one of the leftovers is on this die.
fn has_die(leftovers: &[Leftover], die: u8) -> bool
    ensures { result ≡ list_any (λ l. die_of l == die) leftovers.now }
{
    leftovers.iter().any(|leftover| die_of(leftover) == die)
}

/// Whether the job may leave each page that the leftover names: as it was, as the job would have
/// it, or one whose check does not match.
pub(crate) fn may_job_leave(die: &MemDie, job: &Job, leftover: &Leftover) -> bool
    requires can { CanDo die.now job.now }
    requires pages { HasPagesOf die.now leftover.now }
    requires of { (n : ℕ) × IsOfJob n job.now leftover.now }
    ensures lawful { result ≡ true → MayJobLeave die.now job.now leftover.now }
    ensures unlawful { result ≡ false → MayJobLeave die.now job.now leftover.now → ⊥ }
{
    match job {
        Job::Read(_) => false,
        Job::Program(place, intended) => match leftover {
            Leftover::Page(_, left) => {
                leftover_ok(die.page_at(place.block, place.page), intended, left)
            }
            Leftover::Block {
                die: _,
                block: _,
                pages: _,
            } => false,
        },
        Job::Erase { die: _, block } => match leftover {
            Leftover::Page(_, _) => false,
            Leftover::Block {
                die: _,
                block: _,
                pages,
            } => may_erase_leave(die, *block, pages.as_slice()),
        },
    }
}

/// Whether an erase of the block may leave these pages.
fn may_erase_leave(die: &MemDie, block: u16, pages: &[Page]) -> bool
    requires there { block < length die.now.blocks }
    requires as_many { length pages.now ≡ length (pages_of die.now block) }
    ensures lawful { result ≡ true → (i : ℕ) → i < length pages.now →
        MayBeLeft (page_at die.now block i) blank_page (slice_index_or pages.now i blank_page) }
    ensures unlawful { result ≡ false → ((i : ℕ) → i < length pages.now →
        MayBeLeft (page_at die.now block i) blank_page (slice_index_or pages.now i blank_page)) → ⊥ }
{
    let erased = blank();
    for index in 0..die.pages() {
        let page = index as usize;
        if page < pages.len() && !leftover_ok(die.page_at(block, index), &erased, &pages[page]) {
            return false;
        }
    }
    true
}

/// A page of which all bytes are FFh.
#[tactic(auto, unfolding(ufs_spec::specs::Dies::blank_page))]
fn blank() -> Page
    ensures { result ≡ blank_page }
{
    Page {
        body: [0xFF; 4096],
        spare: [0xFF; 96],
    }
}

/// Leaves on the die the pages that the leftover names.
pub(crate) fn leave_on(die: &mut MemDie, leftover: &Leftover)
    requires { HasPagesOf die.old leftover.now }
    ensures { die.new ≡ die_left die.old leftover.now }
{
    match leftover {
        Leftover::Page(place, page) => die.set_page(place.block, place.page, page),
        Leftover::Block {
            die: _,
            block,
            pages,
        } => set_block(die, *block, pages.as_slice()),
    }
}

/// Writes all pages of the block.
fn set_block(die: &mut MemDie, block: u16, pages: &[Page])
    requires there { block < length die.old.blocks }
    requires as_many { length pages.now ≡ length (pages_of die.old block) }
    ensures { die.new ≡ with_block die.old block pages.now }
{
    for index in 0..die.pages() {
        let page = index as usize;
        if page < pages.len() {
            die.set_page(block, index, &pages[page]);
        }
    }
}

/// Leaves on the die the pages that the leftover names, and makes their block bad.
pub(crate) fn fail_on(die: &mut MemDie, leftover: &Leftover)
    requires { HasPagesOf die.old leftover.now }
    ensures { die.new ≡ with_bad (die_left die.old leftover.now) (block_of leftover.now) }
{
    leave_on(die, leftover);
    die.set_bad(block_of(leftover));
}

/// The block that the leftover is in.
fn block_of(leftover: &Leftover) -> u16
    ensures { result ≡ block_of leftover.now }
{
    match leftover {
        Leftover::Page(place, _) => place.block,
        Leftover::Block {
            die: _,
            block,
            pages: _,
        } => *block,
    }
}

/// Ends the power cycle of each die.
pub(crate) fn end_power_cycles(dies: &mut [MemDie])
    ensures { dies.new ≡ map power_cycle_ended dies.old }
{
    for die in dies.iter_mut() {
        die.end_power_cycle();
    }
}
