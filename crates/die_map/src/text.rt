//! The dies as text: a row of letters for each block that is not free.
ghost use Rattle.std.specs.Prelude.{◌≡◌, ◌<◌, ◌+◌, ◌^◌, if◌then◌else◌};
ghost use Rattle.die_map.specs.States.{counted, is_bad_state, is_closed_block, is_filling_block};
ghost use Rattle.die_map.specs.States.{is_free_block};

use crate::survey::{BlockState, PageState, Survey, block_state, number_of};
use device::World;
use nand_model::{Die, MemDie};
use std::io::Write;
use std::{fmt, io};
use ufs_spec::{Job, Place};

/// So many letters are on a line.
const LETTERS: u16 = 64;

const KEY: &str = ". free, L live, d dead, x torn, M newest mark, m older mark";

/// Writes the dies as text, with the jobs that are in flight in a world.
pub fn write_text<W: Write>(
    survey: &Survey,
    dies: &[MemDie],
    world: Option<&World>,
    out: &mut W,
) -> io::Result<()> {
    for (index, die) in dies.iter().enumerate() {
        let number = number_of(index);
        write_die(survey, number, die, out)?;
        if let Some(world) = world {
            write_job(world, number, out)?;
        }
    }
    writeln!(out, "pages: {KEY}")
}

fn write_die<W: Write>(survey: &Survey, number: u8, die: &MemDie, out: &mut W) -> io::Result<()> {
    let counts = Counts::of(die);
    writeln!(out, "die {number}: {counts}")?;
    let mut first_free = None;
    for block in 0..die.blocks() {
        let state = block_state(die, block);
        if matches!(state, BlockState::Free) {
            first_free = first_free.or(Some(block));
        } else {
            write_free(first_free, block, out)?;
            first_free = None;
            writeln!(out, "  block {block:4} {state}")?;
            write_pages(survey, number, die, block, out)?;
        }
    }
    write_free(first_free, die.blocks(), out)
}

// The free blocks from `first` on, up to the one before `end`.
fn write_free<W: Write>(first: Option<u16>, end: u16, out: &mut W) -> io::Result<()> {
    match first {
        None => Ok(()),
        Some(block) if block.saturating_add(1) == end => writeln!(out, "  block {block:4} free"),
        Some(block) => {
            let last = end.saturating_sub(1);
            writeln!(out, "  blocks {block} to {last} free")
        }
    }
}

// The letters of a block's pages.
fn write_pages<W: Write>(
    survey: &Survey,
    number: u8,
    die: &MemDie,
    block: u16,
    out: &mut W,
) -> io::Result<()> {
    let last = die.pages().saturating_sub(1);
    for page in 0..die.pages() {
        let place = Place {
            die: number,
            block,
            page,
        };
        let letter = letter_of(&survey.page_state(die, place));
        write_letter(letter, page, last, out)?;
    }
    Ok(())
}

// The letter of a page. The first of a line stands behind four spaces, and the last one ends it.
fn write_letter<W: Write>(letter: char, page: u16, last: u16, out: &mut W) -> io::Result<()> {
    let before = if page % LETTERS == 0 { "    " } else { "" };
    let after = if page % LETTERS == LETTERS - 1 || page == last {
        "\n"
    } else {
        ""
    };
    write!(out, "{before}{letter}{after}")
}

fn letter_of(state: &PageState) -> char {
    match state {
        PageState::Free => '.',
        PageState::Live(_) => 'L',
        PageState::Dead(_) => 'd',
        PageState::Mark(_) => 'M',
        PageState::OldMark(_) => 'm',
        PageState::Torn => 'x',
    }
}

// The job that a die has in flight.
fn write_job<W: Write>(world: &World, die: u8, out: &mut W) -> io::Result<()> {
    match world.job(die) {
        Some(job) => write_in_flight(job, out),
        None => Ok(()),
    }
}

fn write_in_flight<W: Write>(job: &Job, out: &mut W) -> io::Result<()> {
    match job {
        Job::Read(place) => write_page_job("a read", place, out),
        Job::Program(place, _) => write_page_job("a program", place, out),
        Job::Erase { block, .. } => writeln!(out, "  in flight: an erase of block {block}"),
    }
}

fn write_page_job<W: Write>(what: &str, place: &Place, out: &mut W) -> io::Result<()> {
    let Place { block, page, .. } = *place;
    writeln!(out, "  in flight: {what} of page {page} of block {block}")
}

/// How many blocks of a die are in each state.
#[derive(Clone, Copy)]
pub struct Counts {
    free: u16,
    filling: u16,
    closed: u16,
    bad: u16,
}

impl Counts {
    /// The counts of a die.
    pub fn of(die: &MemDie) -> Counts
        ensures free { result.free ≡ counted is_free_block die.now }
        ensures filling { result.filling ≡ counted is_filling_block die.now }
        ensures closed { result.closed ≡ counted is_closed_block die.now }
        ensures bad { result.bad ≡ counted is_bad_state die.now }
    {
        let mut counts = Counts {
            free: 0,
            filling: 0,
            closed: 0,
            bad: 0,
        };
        for block in 0..die.blocks() {
            counts = counts.with(block_state(die, block));
        }
        counts
    }

    // One block more, which is so.
    fn with(self, state: BlockState) -> Counts
        ensures free { self.free + 1 < 2 ^ 16 →
            result.free ≡ self.free + (if is_free_block state then 1 else 0) }
        ensures filling { self.filling + 1 < 2 ^ 16 →
            result.filling ≡ self.filling + (if is_filling_block state then 1 else 0) }
        ensures closed { self.closed + 1 < 2 ^ 16 →
            result.closed ≡ self.closed + (if is_closed_block state then 1 else 0) }
        ensures bad { self.bad + 1 < 2 ^ 16 →
            result.bad ≡ self.bad + (if is_bad_state state then 1 else 0) }
    {
        let mut counts = self;
        match state {
            BlockState::Free => counts.free = counts.free.saturating_add(1),
            BlockState::Filling => counts.filling = counts.filling.saturating_add(1),
            BlockState::Closed => counts.closed = counts.closed.saturating_add(1),
            BlockState::Bad => counts.bad = counts.bad.saturating_add(1),
        }
        counts
    }
}

impl fmt::Display for Counts {
    fn fmt<W: fmt::Write>(&self, f: &mut fmt::Formatter<W>) -> fmt::Result {
        let Counts {
            free,
            filling,
            closed,
            bad,
        } = *self;
        write!(
            f,
            "{free} blocks free, {filling} filling, {closed} closed, {bad} bad"
        )
    }
}

impl fmt::Display for BlockState {
    fn fmt<W: fmt::Write>(&self, f: &mut fmt::Formatter<W>) -> fmt::Result {
        f.write_str(match self {
            BlockState::Free => "free",
            BlockState::Filling => "filling",
            BlockState::Closed => "closed",
            BlockState::Bad => "bad",
        })
    }
}
