//! The dies as a picture: SVG with a row for each block and a square for each page.
use crate::survey::{BlockState, PageState, Survey, block_state, number_of};
use crate::text::Counts;
use nand_model::{Die, MemDie};
use std::io::Write;
use std::{fmt, io};
use ufs_spec::{Place, Tag};

/// The side of a page's square and its distance from the next one, in pixels.
const SIDE: u32 = 8;
/// Where the squares begin.
const LEFT: u32 = 110;
/// The height of the line with the name of a die.
const HEAD: u32 = 24;

/// What comes after the size of the picture.
const HEADING: &str =
    " font-family=\"monospace\" font-size=\"8\">\n<title>Dies, blocks and pages</title>";

/// Writes the dies as SVG.
pub fn write_svg<W: Write>(survey: &Survey, dies: &[MemDie], out: &mut W) -> io::Result<()> {
    let (width, height) = size_of(dies);
    writeln!(
        out,
        "<svg xmlns=\"http://www.w3.org/2000/svg\" width=\"{width}\" height=\"{height}\"\n\
         {HEADING}"
    )?;
    let mut top = 0u32;
    for (index, die) in dies.iter().enumerate() {
        write_die(survey, number_of(index), die, top, out)?;
        top = top.saturating_add(height_of(die));
    }
    writeln!(out, "</svg>")
}

fn size_of(dies: &[MemDie]) -> (u32, u32) {
    let mut width = 0u32;
    let mut height = 0u32;
    for die in dies {
        width = width.max(LEFT + u32::from(die.pages()) * SIDE + SIDE);
        height = height.saturating_add(height_of(die));
    }
    (width, height)
}

fn height_of(die: &MemDie) -> u32 {
    HEAD + u32::from(die.blocks()) * SIDE + SIDE
}

fn write_die<W: Write>(
    survey: &Survey,
    number: u8,
    die: &MemDie,
    top: u32,
    out: &mut W,
) -> io::Result<()> {
    let counts = Counts::of(die);
    let base = top.saturating_add(HEAD - 8);
    writeln!(
        out,
        "<text x=\"4\" y=\"{base}\" font-size=\"12\">die {number}: {counts}</text>"
    )?;
    for block in 0..die.blocks() {
        let row = top.saturating_add(HEAD + u32::from(block) * SIDE);
        write_block(survey, number, die, block, row, out)?;
    }
    Ok(())
}

// The name of a block, its frame, and the squares of its pages that are not free.
fn write_block<W: Write>(
    survey: &Survey,
    number: u8,
    die: &MemDie,
    block: u16,
    row: u32,
    out: &mut W,
) -> io::Result<()> {
    write_frame(block, block_state(die, block), die.pages(), row, out)?;
    for page in 0..die.pages() {
        let place = Place {
            die: number,
            block,
            page,
        };
        write_page(&survey.page_state(die, place), page, row, out)?;
    }
    Ok(())
}

// The name of a block, and the frame of its pages.
fn write_frame<W: Write>(
    block: u16,
    state: BlockState,
    pages: u16,
    row: u32,
    out: &mut W,
) -> io::Result<()> {
    let color = block_color(state);
    let base = row.saturating_add(SIDE - 1);
    let width = u32::from(pages) * SIDE;
    writeln!(
        out,
        "<text x=\"4\" y=\"{base}\">block {block} {state}</text>\n\
         <rect x=\"{LEFT}\" y=\"{row}\" width=\"{width}\" height=\"7\" fill=\"{color}\"/>"
    )
}

fn write_page<W: Write>(state: &PageState, page: u16, row: u32, out: &mut W) -> io::Result<()> {
    if matches!(state, PageState::Free) {
        return Ok(());
    }
    let color = page_color(state);
    let column = LEFT + u32::from(page) * SIDE;
    writeln!(
        out,
        "<rect x=\"{column}\" y=\"{row}\" width=\"7\" height=\"7\" fill=\"{color}\">\
         <title>page {page}: {state}</title></rect>"
    )
}

fn block_color(state: BlockState) -> &'static str {
    match state {
        BlockState::Free => "#f4f4f4",
        BlockState::Filling => "#cfe8ff",
        BlockState::Closed => "#d8d8d8",
        BlockState::Bad => "#f6b3b3",
    }
}

fn page_color(state: &PageState) -> &'static str {
    match state {
        PageState::Free => "#f4f4f4",
        PageState::Live(_) => "#1b8a3a",
        PageState::Dead(_) => "#8a8a8a",
        PageState::Mark(_) => "#1f4fbf",
        PageState::OldMark(_) => "#9db4e8",
        PageState::Torn => "#c21f1f",
    }
}

impl fmt::Display for PageState {
    fn fmt<W: fmt::Write>(&self, f: &mut fmt::Formatter<W>) -> fmt::Result {
        match self {
            PageState::Free => f.write_str("free"),
            PageState::Live(tag) => write_tag(f, "live", tag),
            PageState::Dead(tag) => write_tag(f, "dead", tag),
            PageState::Mark(number) => write!(f, "the newest mark, number {number}"),
            PageState::OldMark(number) => write!(f, "an older mark, number {number}"),
            PageState::Torn => f.write_str("torn"),
        }
    }
}

// Whether a page is live or dead, and whose it is.
fn write_tag<W: fmt::Write>(f: &mut fmt::Formatter<W>, state: &str, tag: &Tag) -> fmt::Result {
    let Tag {
        kind,
        unit,
        address,
        number,
        ..
    } = *tag;
    match kind {
        Tag::DATA => write!(f, "{state}, unit {unit} address {address}, number {number}"),
        Tag::RPMB_AREA => write!(
            f,
            "{state}, RPMB region {unit} page {address}, number {number}"
        ),
        _ => write!(f, "{state}, settings, number {number}"),
    }
}
