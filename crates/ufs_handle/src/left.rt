//! What a job leaves on a die in memory that was under way when the power went, or that fails.
ghost use Rattle.std.specs.Prelude.{◌≡◌, ◌<◌, IfNone, IfSome};
ghost use Rattle.ufs_handle.specs.Plain.{left_number};
ghost use Rattle.ufs_spec.specs.Dies.{blank_page, power_cycle_ended, with_bad, with_page};
ghost use Rattle.ufs_handle.specs.Left.{bit_turned, failed_by, failed_outcome, filled, left_by, torn_page};

use nand_model::{Die, MemDie};
use page_tag::check_bytes;
use ufs_spec::{Job, Outcome, Page};

/// What the page of a program, or each page of the block of an erase, holds.
#[derive(Clone, Copy, Debug, Default, PartialEq, Eq)]
pub enum Left {
    /// What it held before.
    #[default]
    Old,
    /// What the job was to make of it.
    New,
    /// What the job was to make of it, with a check of which one bit is turned: it does not hold.
    Torn,
}

/// A page as an erase leaves it, in one place.
static BLANK: Page = Page {
    body: [0xFF; 4096],
    spare: [0xFF; 96],
};

/// A page of which all bytes are FFh.
#[tactic(auto, unfolding(ufs_spec::specs::Dies::blank_page))]
fn blank() -> &'static Page
    ensures { result.now ≡ blank_page }
{
    &BLANK
}

/// The byte with its lowest bit turned.
fn bit_turned(byte: u8) -> u8
    ensures { result ≡ bit_turned byte }
{
    if byte % 2 == 0 { byte + 1 } else { byte - 1 }
}

/// The page with its right check but for one bit of it, so that it does not hold: one SHA-256.
fn torn(page: &Page) -> Page
    ensures { result ≡ torn_page page.now }
{
    let (front, _) = page.spare.split_at(64);
    let mut check = check_bytes(&page.body, front);
    check[0] = bit_turned(check[0]);
    let mut torn = *page;
    torn.spare[64..].copy_from_slice(&check);
    torn
}

impl Left {
    /// The one with this number in C.
    pub fn of(number: u8) -> Option<Left>
        ensures some { IfSome result (λ left. left_number left ≡ number) }
        ensures none { IfNone result (2 < number) }
    {
        match number {
            0 => Some(Left::Old),
            1 => Some(Left::New),
            2 => Some(Left::Torn),
            _ => None,
        }
    }
}

/// Puts the content there, where the die has this page.
fn put_page(die: &mut MemDie, block: u16, page: u16, content: &Page)
    ensures { die.new ≡ with_page die.old block page content.now }
{
    if block < die.blocks() && page < die.pages() {
        die.set_page(block, page, content);
    }
}

/// Puts the content into the first pages of the block, so many of them.
fn fill(die: &mut MemDie, block: u16, pages: u16, content: &Page)
    ensures { die.new ≡ filled block content.now pages die.old }
{
    for page in 0..pages {
        put_page(die, block, page, content);
    }
}

/// Leaves on the die what its job leaves so. Its blocks have so many pages.
fn leave(die: &mut MemDie, job: &Option<Job>, left: Left, pages: u16)
    ensures { die.new ≡ left_by pages left job.now die.old }
{
    match job {
        Some(Job::Program(place, page)) => match left {
            Left::Old => {}
            Left::New => put_page(die, place.block, place.page, page),
            Left::Torn => put_page(die, place.block, place.page, &torn(page)),
        },
        Some(Job::Erase { die: _, block }) => match left {
            Left::Old => {}
            Left::New => fill(die, *block, pages, blank()),
            Left::Torn => fill(die, *block, pages, &torn(blank())),
        },
        _ => {}
    }
}

/// The power goes from the die: it holds what its job leaves so, and its power cycle is over.
pub(crate) fn stop(die: &mut MemDie, job: &Option<Job>, left: Left, pages: u16)
    ensures { die.new ≡ power_cycle_ended (left_by pages left job.now die.old) }
{
    leave(die, job, left, pages);
    die.end_power_cycle();
}

/// The block is bad from now on, where the die has it.
fn mark_bad(die: &mut MemDie, block: u16)
    ensures { die.new ≡ with_bad die.old block }
{
    let _size = die.pages();
    if block < die.blocks() {
        die.set_bad(block);
    }
}

/// The job of the die fails: the die holds what the job leaves so, and the block of a program or an
/// erase is bad. The answer tells the device of it.
pub(crate) fn fail(die: &mut MemDie, job: &Job, left: Left, pages: u16) -> Outcome
    ensures after { die.new ≡ failed_by pages left job.now die.old }
    ensures outcome { result ≡ failed_outcome job.now }
{
    match job {
        Job::Read(_) => Outcome::ReadFailed,
        Job::Program(place, _) => {
            leave(die, &Some(*job), left, pages);
            mark_bad(die, place.block);
            Outcome::Failed
        }
        Job::Erase { die: _, block } => {
            leave(die, &Some(*job), left, pages);
            mark_bad(die, *block);
            Outcome::Failed
        }
    }
}
