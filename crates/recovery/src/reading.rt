//! All pages of the dies, read once each.
ghost use Rattle.std.specs.Prelude.{◌≡◌, ◌+◌, ◌*◌, ◌/◌, ◌<◌, ◌≤◌, None, [], map, option_map, IfErr, IfOk, OnOk, length, slice_index_or};
ghost use Rattle.std.specs.List.{All};
ghost use Rattle.page_tag.specs.Contents.{cell_of, mark_of};
ghost use Rattle.ufs_spec.specs.Cells.{AreWithin, Cells, IsCell, Shows};
ghost use Rattle.ufs_spec.specs.Dies.{IsOfSize, LiesOnDie, new_die, page_at};
ghost use Rattle.ufs_spec.specs.Lives.{Fit, array_of};
ghost use Rattle.ufs_spec.specs.declared.configs.Numbers.{Numbers};
ghost use Rattle.ufs_spec.specs.declared.flash.Page.{Page};
ghost use Rattle.recovery.specs.Reading.{IsBlockFault, IsDieFault, IsFaultOf, IsJoined, IsNoted, IsPageFault, IsReadingFault, IsTable, IsTableOf, IsTableTo, NoLower};
ghost use Rattle.recovery.specs.Reading.{ShowsDie, ShowsDies, greater_of, newer, newer_of, place_at};

use crate::pages::{FoundMark, FoundPage};
use nand_model::Die;
use page_tag::{Content, Mark, content_of, contents_of_four};
use std::alloc::Global;
use ufs_spec::{Numbers, OpenFault, Page, Place};

/// What all pages of the dies say.
#[derive(Drop)]
pub struct Table {
    /// The pages of groups, in the order of die, block and page.
    pub pages: Vec<FoundPage>,
    /// The mark of the greatest number; of several such the one at the lowest place.
    pub newest: Option<Mark>,
    /// The greatest frontier that a mark records; 0 without a mark.
    pub recorded: u64,
    /// All marks, in the order of die, block and page.
    pub marks: Vec<FoundMark>,
}

impl Table {
    // The table of no die.
    fn empty(alloc: Global) -> Table
        ensures pages { result.pages.items ≡ [] }
        ensures newest { result.newest ≡ None }
        ensures recorded { result.recorded ≡ 0 }
        ensures marks { result.marks.items ≡ [] }
    {
        Table {
            pages: Vec::new(alloc),
            newest: None,
            recorded: 0,
            marks: Vec::new(alloc),
        }
    }

    /// Adds the table of the dies behind those of this one.
    pub(crate) fn join(&mut self, mut later: Table) -> Result<(), OpenFault>
        ensures joined { OnOk result (IsJoined self.old later self.new) }
        ensures fault { IfErr result (λ e. e ≡ OpenFault.NoMemory) }
    {
        if self.pages.append(&mut later.pages).is_err() {
            return Err(OpenFault::NoMemory);
        }
        if self.marks.append(&mut later.marks).is_err() {
            return Err(OpenFault::NoMemory);
        }
        self.recorded = greater(self.recorded, later.recorded);
        self.newest = newest_of(self.newest.take(), later.newest.take());
        Ok(())
    }

    // Notes what a page is.
    fn note(&mut self, place: Place, content: Content) -> Result<(), OpenFault>
        ensures noted { OnOk result (IsNoted place (cell_of content) self.old self.new) }
        ensures fault { IfErr result (λ e. e ≡ OpenFault.NoMemory) }
    {
        match content {
            Content::Nothing => Ok(()),
            Content::Group(opened) => {
                let tag = opened.tag;
                if self.pages.push(FoundPage { place, tag }).is_err() {
                    return Err(OpenFault::NoMemory);
                }
                Ok(())
            }
            Content::Mark(mark) => {
                let number = mark.number;
                let records = mark.records;
                if self
                    .marks
                    .push(FoundMark {
                        place,
                        number,
                        records,
                    })
                    .is_err()
                {
                    return Err(OpenFault::NoMemory);
                }
                self.recorded = greater(self.recorded, records);
                self.newest = Some(newer(self.newest.take(), mark));
                Ok(())
            }
        }
    }
}

/// Room for four pages of a die.
#[derive(Drop)]
struct Room {
    first: Page,
    second: Page,
    third: Page,
    fourth: Page,
}

impl Room {
    // Room that holds zeros.
    fn new() -> Room {
        let page = Page {
            body: [0; 4096],
            spare: [0; 96],
        };
        Room {
            first: page,
            second: page,
            third: page,
            fourth: page,
        }
    }
}

// The newer of two marks: the first unless the second has a greater number.
fn newer(known: Option<Mark>, mark: Mark) -> Mark
    ensures { mark_of result ≡ newer (option_map mark_of known) (mark_of mark) }
{
    let Some(known) = known else {
        return mark;
    };
    if known.number < mark.number {
        mark
    } else {
        known
    }
}

// The newer of two marks, if there are any: the first unless the second has a greater number.
fn newest_of(known: Option<Mark>, later: Option<Mark>) -> Option<Mark>
    ensures { option_map mark_of result ≡ newer_of (option_map mark_of known) (option_map mark_of later) }
{
    match later {
        Some(mark) => Some(newer(known, mark)),
        None => known,
    }
}

fn greater(one: u64, other: u64) -> u64
    ensures { result ≡ greater_of one other }
{
    if one < other { other } else { one }
}

/// Reads every page of every block of the dies, bad blocks too, each page once. It writes nothing,
/// and takes one SHA-256 for a page at most.
///
/// # Errors
///
/// `NoMemory` if memory was refused, and `ReadFault` if the read of that place failed.
pub(crate) fn read_all<D: Die>(
    alloc: Global,
    dies: &mut [D],
    numbers: &Numbers,
) -> Result<Table, OpenFault>
    requires { Fit numbers.now (map D.state dies.old) }
    ensures same { map D.state dies.new ≡ map D.state dies.old }
    ensures counted { NoLower (map D.failed dies.old) (map D.failed dies.new) }
    ensures read { IfOk result (λ table. (c : Cells) → Shows (array_of (map D.state dies.old)) c →
        IsTable numbers.now c table) }
    ensures fault { IfErr result (IsReadingFault (map D.failed dies.old) (map D.failed dies.new)) }
{
    read_dies(alloc, numbers, (0, numbers.dies), dies)
}

/// Reads all pages of these dies, one die after another. The range is that of their numbers: from the
/// first to the one behind the last.
pub(crate) fn read_dies<D: Die>(
    alloc: Global,
    numbers: &Numbers,
    range: (u8, u8),
    dies: &mut [D],
) -> Result<Table, OpenFault>
    requires sizes { All (IsOfSize numbers.now.blocks numbers.now.pages) (map D.state dies.old) }
    requires numbered { range.0 + length dies.old ≡ range.1 }
    ensures same { map D.state dies.new ≡ map D.state dies.old }
    ensures counted { NoLower (map D.failed dies.old) (map D.failed dies.new) }
    ensures read { IfOk result (λ table. (c : Cells) → AreWithin numbers.now c →
        ShowsDies range.0 (map D.state dies.old) c → IsTableOf numbers.now range.0 (length dies.old) c table) }
    ensures fault { IfErr result (IsFaultOf range.0 (map D.failed dies.old) (map D.failed dies.new)) }
{
    let mut table = Table::empty(alloc);
    let mut room = Room::new();
    for index in 0..range.1 - range.0 {
        let number = range.0 + index;
        let die = &mut dies[usize::from(index)];
        let part = match read_die(alloc, die, number, numbers, &mut room) {
            Ok(part) => part,
            Err(fault) => return Err(fault),
        };
        if table.join(part).is_err() {
            return Err(OpenFault::NoMemory);
        }
    }
    Ok(table)
}

// Reads all pages of the die, which has the number.
fn read_die<D: Die>(
    alloc: Global,
    die: &mut D,
    number: u8,
    numbers: &Numbers,
    room: &mut Room,
) -> Result<Table, OpenFault>
    requires { IsOfSize numbers.now.blocks numbers.now.pages (D.state die.old) }
    ensures same { D.state die.new ≡ D.state die.old }
    ensures counted { D.failed die.old ≤ D.failed die.new }
    ensures read { IfOk result (λ table. (c : Cells) → AreWithin numbers.now c →
        ShowsDie number (D.state die.old) c → IsTableOf numbers.now number 1 c table) }
    ensures fault { IfErr result (IsDieFault number (D.failed die.old) (D.failed die.new)) }
{
    let mut table = Table::empty(alloc);
    for block in 0..numbers.blocks {
        if let Err(fault) = read_block(die, numbers, (number, block), &mut table, room) {
            return Err(fault);
        }
    }
    Ok(table)
}

// Reads all pages of a block of the die. The spot is that of the block. Four pages at a time are told
// side by side, which takes less time, and those that are left over one by one.
fn read_block<D: Die>(
    die: &mut D,
    numbers: &Numbers,
    spot: (u8, u16),
    table: &mut Table,
    room: &mut Room,
) -> Result<(), OpenFault>
    requires size { IsOfSize numbers.now.blocks numbers.now.pages (D.state die.old) }
    requires inside { spot.1 < numbers.now.blocks }
    ensures same { D.state die.new ≡ D.state die.old }
    ensures counted { D.failed die.old ≤ D.failed die.new }
    ensures read { OnOk result ((c : Cells) → AreWithin numbers.now c → ShowsDie spot.0 (D.state die.old) c →
        IsTableTo numbers.now spot.0 spot.1 0 c table.old →
        IsTableTo numbers.now spot.0 (spot.1 + 1) 0 c table.new) }
    ensures fault { IfErr result (IsBlockFault spot.0 spot.1 (D.failed die.old) (D.failed die.new)) }
{
    if let Err(fault) = read_fours(die, numbers, spot, table, room) {
        return Err(fault);
    }
    read_rest(die, numbers, spot, table, &mut room.first)
}

// Reads the pages of a block of the die four at a time, as many as there are whole fours.
fn read_fours<D: Die>(
    die: &mut D,
    numbers: &Numbers,
    spot: (u8, u16),
    table: &mut Table,
    room: &mut Room,
) -> Result<(), OpenFault>
    requires size { IsOfSize numbers.now.blocks numbers.now.pages (D.state die.old) }
    requires inside { spot.1 < numbers.now.blocks }
    ensures same { D.state die.new ≡ D.state die.old }
    ensures counted { D.failed die.old ≤ D.failed die.new }
    ensures read { OnOk result ((c : Cells) → ShowsDie spot.0 (D.state die.old) c →
        IsTableTo numbers.now spot.0 spot.1 0 c table.old →
        IsTableTo numbers.now spot.0 spot.1 (numbers.now.pages / 4 * 4) c table.new) }
    ensures fault { IfErr result (IsBlockFault spot.0 spot.1 (D.failed die.old) (D.failed die.new)) }
{
    for four in 0..numbers.pages / 4 {
        if let Err(fault) = read_four(die, spot, four * 4, table, room) {
            return Err(fault);
        }
    }
    Ok(())
}

// Reads the pages of a block of the die that are behind its last whole four.
fn read_rest<D: Die>(
    die: &mut D,
    numbers: &Numbers,
    spot: (u8, u16),
    table: &mut Table,
    page: &mut Page,
) -> Result<(), OpenFault>
    requires size { IsOfSize numbers.now.blocks numbers.now.pages (D.state die.old) }
    requires inside { spot.1 < numbers.now.blocks }
    ensures same { D.state die.new ≡ D.state die.old }
    ensures counted { D.failed die.old ≤ D.failed die.new }
    ensures read { OnOk result ((c : Cells) → AreWithin numbers.now c →
        ShowsDie spot.0 (D.state die.old) c →
        IsTableTo numbers.now spot.0 spot.1 (numbers.now.pages / 4 * 4) c table.old →
        IsTableTo numbers.now spot.0 (spot.1 + 1) 0 c table.new) }
    ensures fault { IfErr result (IsBlockFault spot.0 spot.1 (D.failed die.old) (D.failed die.new)) }
{
    for index in numbers.pages / 4 * 4..numbers.pages {
        let place = Place {
            die: spot.0,
            block: spot.1,
            page: index,
        };
        if let Err(fault) = read_page(die, place, table, page) {
            return Err(fault);
        }
    }
    Ok(())
}

// Reads four pages of a block of the die, from this one on. If the read of one fails, those behind
// it are not read, and none of the four is noted.
fn read_four<D: Die>(
    die: &mut D,
    spot: (u8, u16),
    index: u16,
    table: &mut Table,
    room: &mut Room,
) -> Result<(), OpenFault>
    requires inside { LiesOnDie (D.state die.old) spot.1 (index + 3) }
    requires fits { index + 3 ≤ 65535 }
    ensures same { D.state die.new ≡ D.state die.old }
    ensures counted { D.failed die.old ≤ D.failed die.new }
    ensures read { OnOk result ((n : Numbers) (c : Cells) → ShowsDie spot.0 (D.state die.old) c →
        IsTableTo n spot.0 spot.1 index c table.old →
        IsTableTo n spot.0 spot.1 (index + 4) c table.new) }
    ensures fault { IfErr result (IsBlockFault spot.0 spot.1 (D.failed die.old) (D.failed die.new)) }
{
    if let Err(fault) = fill(die, spot, index, room) {
        return Err(fault);
    }
    note_four(table, spot, index, room)
}

// Reads four pages of a block of the die into the room, from this one on.
fn fill<D: Die>(die: &mut D, spot: (u8, u16), index: u16, room: &mut Room) -> Result<(), OpenFault>
    requires inside { LiesOnDie (D.state die.old) spot.1 (index + 3) }
    requires fits { index + 3 ≤ 65535 }
    ensures same { D.state die.new ≡ D.state die.old }
    ensures counted { D.failed die.old ≤ D.failed die.new }
    ensures first { OnOk result (room.new.first ≡ page_at (D.state die.old) spot.1 index) }
    ensures second { OnOk result (room.new.second ≡ page_at (D.state die.old) spot.1 (index + 1)) }
    ensures third { OnOk result (room.new.third ≡ page_at (D.state die.old) spot.1 (index + 2)) }
    ensures fourth { OnOk result (room.new.fourth ≡ page_at (D.state die.old) spot.1 (index + 3)) }
    ensures fault { IfErr result (IsBlockFault spot.0 spot.1 (D.failed die.old) (D.failed die.new)) }
{
    if let Err(fault) = read_pair(die, spot, index, &mut room.first, &mut room.second) {
        return Err(fault);
    }
    read_pair(die, spot, index + 2, &mut room.third, &mut room.fourth)
}

// Reads two pages of a block of the die, this one and the next.
fn read_pair<D: Die>(
    die: &mut D,
    spot: (u8, u16),
    index: u16,
    one: &mut Page,
    next: &mut Page,
) -> Result<(), OpenFault>
    requires inside { LiesOnDie (D.state die.old) spot.1 (index + 1) }
    requires fits { index + 1 ≤ 65535 }
    ensures same { D.state die.new ≡ D.state die.old }
    ensures counted { D.failed die.old ≤ D.failed die.new }
    ensures one { OnOk result (one.new ≡ page_at (D.state die.old) spot.1 index) }
    ensures next { OnOk result (next.new ≡ page_at (D.state die.old) spot.1 (index + 1)) }
    ensures fault { IfErr result (IsBlockFault spot.0 spot.1 (D.failed die.old) (D.failed die.new)) }
{
    if let Err(fault) = read_into(die, spot, index, one) {
        return Err(fault);
    }
    read_into(die, spot, index + 1, next)
}

// Reads a page of a block of the die into room for one.
fn read_into<D: Die>(
    die: &mut D,
    spot: (u8, u16),
    index: u16,
    page: &mut Page,
) -> Result<(), OpenFault>
    requires { LiesOnDie (D.state die.old) spot.1 index }
    ensures same { D.state die.new ≡ D.state die.old }
    ensures counted { D.failed die.old ≤ D.failed die.new }
    ensures found { OnOk result (page.new ≡ page_at (D.state die.old) spot.1 index) }
    ensures fault { IfErr result (IsPageFault (place_at spot.0 spot.1 index) (D.failed die.old)
        (D.failed die.new)) }
{
    let place = Place {
        die: spot.0,
        block: spot.1,
        page: index,
    };
    let Ok(_) = die.read(spot.1, index, page) else {
        return Err(OpenFault::ReadFault(place));
    };
    Ok(())
}

// Notes what the four pages in the room are, which are those of a block from this one on.
fn note_four(table: &mut Table, spot: (u8, u16), index: u16, room: &Room) -> Result<(), OpenFault>
    requires { index + 3 ≤ 65535 }
    ensures noted { OnOk result ((n : Numbers) (c : Cells) →
        IsCell room.now.first (c (place_at spot.0 spot.1 index)) →
        IsCell room.now.second (c (place_at spot.0 spot.1 (index + 1))) →
        IsCell room.now.third (c (place_at spot.0 spot.1 (index + 2))) →
        IsCell room.now.fourth (c (place_at spot.0 spot.1 (index + 3))) →
        IsTableTo n spot.0 spot.1 index c table.old →
        IsTableTo n spot.0 spot.1 (index + 4) c table.new) }
    ensures fault { IfErr result (λ e. e ≡ OpenFault.NoMemory) }
{
    let (first, second, third, fourth) = contents_of_four(
        &room.first,
        &room.second,
        &room.third,
        &room.fourth,
    );
    if let Err(fault) = note_pair(table, spot, index, first, second) {
        return Err(fault);
    }
    note_pair(table, spot, index + 2, third, fourth)
}

// Notes what two pages of a block are, this one and the next.
fn note_pair(
    table: &mut Table,
    spot: (u8, u16),
    index: u16,
    one: Content,
    next: Content,
) -> Result<(), OpenFault>
    requires { index + 1 ≤ 65535 }
    ensures noted { OnOk result ((n : Numbers) (c : Cells) (p q : Page) →
        IsCell p (cell_of one) → IsCell q (cell_of next) →
        IsCell p (c (place_at spot.0 spot.1 index)) →
        IsCell q (c (place_at spot.0 spot.1 (index + 1))) →
        IsTableTo n spot.0 spot.1 index c table.old →
        IsTableTo n spot.0 spot.1 (index + 2) c table.new) }
    ensures fault { IfErr result (λ e. e ≡ OpenFault.NoMemory) }
{
    let place = Place {
        die: spot.0,
        block: spot.1,
        page: index,
    };
    let behind = Place {
        die: spot.0,
        block: spot.1,
        page: index + 1,
    };
    if let Err(fault) = table.note(place, one) {
        return Err(fault);
    }
    table.note(behind, next)
}

// Reads a page of the die, and notes what it is.
fn read_page<D: Die>(
    die: &mut D,
    place: Place,
    table: &mut Table,
    page: &mut Page,
) -> Result<(), OpenFault>
    requires { LiesOnDie (D.state die.old) place.block place.page }
    ensures same { D.state die.new ≡ D.state die.old }
    ensures counted { D.failed die.old ≤ D.failed die.new }
    ensures read { OnOk result ((c : Cells) → ShowsDie place.die (D.state die.old) c →
        IsNoted place (c place) table.old table.new) }
    ensures fault { IfErr result (IsBlockFault place.die place.block (D.failed die.old) (D.failed die.new)) }
{
    if let Err(fault) = read_into(die, (place.die, place.block), place.page, page) {
        return Err(fault);
    }
    table.note(place, content_of(page))
}

// Reads a page of the dies.
pub(crate) fn fetch<D: Die>(dies: &mut [D], place: Place, page: &mut Page) -> Result<(), OpenFault>
    requires die { place.die < length dies.old }
    requires there { let state = slice_index_or (map D.state dies.old) place.die (new_die 0 0) in
        LiesOnDie state place.block place.page }
    ensures same { map D.state dies.new ≡ map D.state dies.old }
    ensures counted { NoLower (map D.failed dies.old) (map D.failed dies.new) }
    ensures found { OnOk result (page.new ≡ array_of (map D.state dies.old) place) }
    ensures fault { IfErr result (IsPageFault place (slice_index_or (map D.failed dies.old) place.die 0)
        (slice_index_or (map D.failed dies.new) place.die 0)) }
{
    match dies[usize::from(place.die)].read(place.block, place.page, page) {
        Ok(_) => Ok(()),
        Err(_) => Err(OpenFault::ReadFault(place)),
    }
}
