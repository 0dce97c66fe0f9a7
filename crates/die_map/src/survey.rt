//! What the pages of the dies hold, taken together.
ghost use Rattle.std.specs.Prelude.{◌≡◌, ◌+◌, ◌<◌, ◌≤◌, if◌then◌else◌, length, min, OnOk, IfOk};
ghost use Rattle.std.specs.Prelude.{IfNone, IfSome, Some};
ghost use Rattle.ufs_spec.specs.Cells.{Cell, Cells, IsCell, Shows, same_place};
ghost use Rattle.ufs_spec.specs.Lives.{Fit, array_of};
ghost use Rattle.ufs_spec.specs.declared.configs.Numbers.{Numbers};
ghost use Rattle.die_map.specs.Surveys.{ArePagesFound, IsSurvey, address_of, pages_after};
ghost use Rattle.die_map.specs.Surveys.{with_page, Address, is_fenced, is_newer_page, is_within};
ghost use Rattle.die_map.specs.Surveys.{same_address, written_at, IsDieShown, IsMarkFound};
ghost use Rattle.die_map.specs.Surveys.{IsReadTo, is_newer, mark_after, newer_mark};
ghost use Rattle.page_tag.specs.Contents.{cell_of, mark_of};
ghost use Rattle.ufs_spec.specs.Dies.{LiesOnDie, page_at};
ghost use Rattle.die_map.specs.States.{are_erased, block_state_of, cell_state_of, is_free};
ghost use Rattle.die_map.specs.States.{is_mark_at, is_page_at, may_be_next, page_state_of};
ghost use Rattle.die_map.specs.States.{written_in};

use nand_model::{Die, MemDie};
use page_tag::{Content, Mark, content_of};
use std::alloc::{AllocError, Global};
use std::collections::BTreeMap;
use ufs_spec::{Fence, Job, Page, Place, Tag};

/// The kind, the unit or RPMB region, and the address of a page.
type Address = (u8, u8, u32);

/// The places of what counts: for each address the page with the greatest number, and the newest
/// mark.
#[derive(Drop)]
pub struct Survey {
    newest: BTreeMap<Address, Written>,
    mark: Option<FoundMark>,
}

/// The number of a page, and where it lies.
#[derive(Clone, Copy)]
struct Written {
    number: u64,
    place: Place,
}

/// The number of a mark, its fence, and where it lies.
#[derive(Clone, Copy)]
struct FoundMark {
    number: u64,
    fence: Option<Fence>,
    place: Place,
}

/// What a page is.
#[derive(Clone, Copy)]
pub enum PageState {
    /// All its bytes are FFh, as after an erase.
    Free,
    /// It holds what its address holds now.
    Live(Tag),
    /// A page with a greater number holds its address, or the fence of the newest mark covers it.
    Dead(Tag),
    /// The newest mark, with its number.
    Mark(u64),
    /// A mark that is not the newest one, with its number.
    OldMark(u64),
    /// Anything else: its check fails, or it is not one of the device's pages.
    Torn,
}

/// What a block is.
#[derive(Clone, Copy)]
pub enum BlockState {
    /// All its pages are free, and it has to be erased before it is programmed.
    Free,
    /// Its next page may be programmed.
    Filling,
    /// No page may be programmed before an erase.
    Closed,
    /// One of its jobs failed.
    Bad,
}

impl Survey {
    /// Looks at each page of the dies.
    ///
    /// # Errors
    ///
    /// Only if memory was refused.
    pub fn new(alloc: Global, dies: &[MemDie]) -> Result<Survey, AllocError>
        // If the dies fit a configuration, and these are their cells, the survey is of them.
        ensures { IfOk result (λ s. (n : Numbers) (c : Cells) → n.dies ≤ 255 → Fit n dies.now →
            Shows (array_of dies.now) c → IsSurvey c s) }
    {
        let mark = newest_mark(dies);
        let newest = newest_pages(alloc, dies, mark)?;
        Ok(Survey { newest, mark })
    }

    /// What the page of this die is.
    pub fn page_state(&self, held: &MemDie, place: Place) -> PageState
        ensures outside { (LiesOnDie held.now place.block place.page → ⊥) →
            result ≡ PageState.Free }
        ensures there { (c : Cell) → IsCell (page_at held.now place.block place.page) c →
            LiesOnDie held.now place.block place.page →
            result ≡ page_state_of self.now place (page_at held.now place.block place.page) c }
    {
        match page_in(held, place.block, place.page) {
            Some(page) => self.state_of(page, place),
            None => PageState::Free,
        }
    }

    // What the page at the place is.
    fn state_of(&self, page: &Page, place: Place) -> PageState
        ensures { (c : Cell) → IsCell page.now c →
            result ≡ page_state_of self.now place page.now c }
    {
        if is_free(page) {
            return PageState::Free;
        }
        self.content_state(content_of(page), place)
    }

    // What a page of this content at the place is.
    fn content_state(&self, content: Content, place: Place) -> PageState
        ensures { result ≡ cell_state_of self.now place (cell_of content) }
    {
        match content {
            Content::Nothing => PageState::Torn,
            Content::Mark(mark) => {
                if is_mark_at(self.mark, place) {
                    PageState::Mark(mark.number)
                } else {
                    PageState::OldMark(mark.number)
                }
            }
            Content::Group(opened) => {
                let tag = opened.tag;
                if is_page_at(written_at(&self.newest, address_of(&tag)), place) {
                    PageState::Live(tag)
                } else {
                    PageState::Dead(tag)
                }
            }
        }
    }
}

// Whether the mark that was found is at this place.
fn is_mark_at(found: Option<FoundMark>, place: Place) -> bool
    ensures { result ≡ is_mark_at found place }
{
    match found {
        Some(mark) => is_same_place(mark.place, place),
        None => false,
    }
}

// Whether the page that was found is at this place.
fn is_page_at(found: Option<Written>, place: Place) -> bool
    ensures { result ≡ is_page_at found place }
{
    match found {
        Some(written) => is_same_place(written.place, place),
        None => false,
    }
}

fn is_same_place(place: Place, other: Place) -> bool
    ensures { result ≡ same_place place other }
{
    place.die == other.die && place.block == other.block && place.page == other.page
}

// The newest mark of all dies.
fn newest_mark(dies: &[MemDie]) -> Option<FoundMark>
    ensures { (n : Numbers) (c : Cells) → n.dies ≤ 255 → Fit n dies.now →
        Shows (array_of dies.now) c → IsMarkFound c result }
{
    let mut found = None;
    for (index, die) in dies.iter().enumerate() {
        found = mark_on_die(found, number_of(index), die);
    }
    found
}

// The newer of the mark that is known and those of the die.
fn mark_on_die(known: Option<FoundMark>, number: u8, die: &MemDie) -> Option<FoundMark>
    ensures { (n : Numbers) (c : Cells) → IsDieShown n c number die.now →
        IsReadTo (λ s. IsMarkFound s known) number 0 0 c →
        IsReadTo (λ s. IsMarkFound s result) (number + 1) 0 0 c }
{
    let mut found = known;
    for block in 0..die.blocks() {
        found = mark_in_block(found, number, die, block);
    }
    found
}

// The newer of the mark that is known and those of the block.
fn mark_in_block(
    known: Option<FoundMark>,
    number: u8,
    die: &MemDie,
    block: u16,
) -> Option<FoundMark>
    requires { block < length die.now.blocks }
    ensures { (n : Numbers) (c : Cells) → IsDieShown n c number die.now →
        IsReadTo (λ s. IsMarkFound s known) number block 0 c →
        IsReadTo (λ s. IsMarkFound s result) number (block + 1) 0 c }
{
    let mut found = known;
    for page in 0..die.pages() {
        let place = Place {
            die: number,
            block,
            page,
        };
        found = mark_at(found, place, die.page_at(block, page));
    }
    found
}

// The newer of the mark that is known and the page, if that is one.
fn mark_at(known: Option<FoundMark>, place: Place, page: &Page) -> Option<FoundMark>
    ensures { (x : Cell) → IsCell page.now x → result ≡ mark_after place x known }
{
    mark_after(known, place, content_of(page))
}

// The newer of the mark that is known and the content, if that is one.
fn mark_after(known: Option<FoundMark>, place: Place, content: Content) -> Option<FoundMark>
    ensures { result ≡ mark_after place (cell_of content) known }
{
    match content {
        Content::Mark(mark) => newer_mark(known, place, &mark),
        _ => known,
    }
}

// The newer of the mark that is known and this one.
fn newer_mark(known: Option<FoundMark>, place: Place, mark: &Mark) -> Option<FoundMark>
    ensures { result ≡ newer_mark place (mark_of mark.now) known }
{
    if is_newer(known, mark.number) {
        Some(FoundMark {
            number: mark.number,
            fence: mark.fence,
            place,
        })
    } else {
        known
    }
}

// Whether no mark is known with this number or a greater one.
fn is_newer(known: Option<FoundMark>, number: u64) -> bool
    ensures { result ≡ is_newer known number }
{
    match known {
        Some(newest) => newest.number < number,
        None => true,
    }
}

// Of each address the newest page that counts.
fn newest_pages(
    alloc: Global,
    dies: &[MemDie],
    mark: Option<FoundMark>,
) -> Result<BTreeMap<Address, Written>, AllocError>
    ensures { IfOk result (λ pages. (n : Numbers) (c : Cells) → n.dies ≤ 255 → Fit n dies.now →
        Shows (array_of dies.now) c → ArePagesFound c mark (written_at pages)) }
{
    let mut newest = BTreeMap::new(alloc);
    for (index, die) in dies.iter().enumerate() {
        pages_on_die(&mut newest, mark, number_of(index), die)?;
    }
    Ok(newest)
}

// The map has the pages of the die too.
fn pages_on_die(
    newest: &mut BTreeMap<Address, Written>,
    mark: Option<FoundMark>,
    number: u8,
    die: &MemDie,
) -> Result<(), AllocError>
    ensures { OnOk result ((n : Numbers) (c : Cells) → IsDieShown n c number die.now →
        IsReadTo (λ s. ArePagesFound s mark (written_at newest.old)) number 0 0 c →
        IsReadTo (λ s. ArePagesFound s mark (written_at newest.new)) (number + 1) 0 0 c) }
{
    for block in 0..die.blocks() {
        pages_in_block(newest, mark, number, die, block)?;
    }
    Ok(())
}

// The map has the pages of the block too.
fn pages_in_block(
    newest: &mut BTreeMap<Address, Written>,
    mark: Option<FoundMark>,
    number: u8,
    die: &MemDie,
    block: u16,
) -> Result<(), AllocError>
    requires { block < length die.now.blocks }
    ensures { OnOk result ((n : Numbers) (c : Cells) → IsDieShown n c number die.now →
        IsReadTo (λ s. ArePagesFound s mark (written_at newest.old)) number block 0 c →
        IsReadTo (λ s. ArePagesFound s mark (written_at newest.new)) number (block + 1) 0 c) }
{
    for page in 0..die.pages() {
        let place = Place {
            die: number,
            block,
            page,
        };
        note_page(newest, mark, place, die.page_at(block, page))?;
    }
    Ok(())
}

// The map has the page too, if it is one of a group and counts.
fn note_page(
    newest: &mut BTreeMap<Address, Written>,
    mark: Option<FoundMark>,
    place: Place,
    page: &Page,
) -> Result<(), AllocError>
    ensures { OnOk result ((x : Cell) → IsCell page.now x → (a : Address) → written_at newest.new a
        ≡ pages_after place x mark (written_at newest.old) a) }
{
    note_content(newest, mark, place, content_of(page))
}

// The map has a page of this content too.
fn note_content(
    newest: &mut BTreeMap<Address, Written>,
    mark: Option<FoundMark>,
    place: Place,
    content: Content,
) -> Result<(), AllocError>
    ensures { OnOk result ((a : Address) → written_at newest.new a
        ≡ pages_after place (cell_of content) mark (written_at newest.old) a) }
{
    match content {
        Content::Group(opened) => note_tag(newest, mark, place, &opened.tag),
        _ => Ok(()),
    }
}

// The map has a page with this tag too.
fn note_tag(
    newest: &mut BTreeMap<Address, Written>,
    mark: Option<FoundMark>,
    place: Place,
    tag: &Tag,
) -> Result<(), AllocError>
    ensures { OnOk result ((a : Address) → written_at newest.new a
        ≡ (if is_fenced mark tag.now.number then written_at newest.old a
        else with_page place tag.now (written_at newest.old) a)) }
{
    if is_fenced(mark, tag.number) {
        return Ok(());
    }
    note_counted(newest, place, tag)
}

// The map has a page with this tag too, which counts.
fn note_counted(
    newest: &mut BTreeMap<Address, Written>,
    place: Place,
    tag: &Tag,
) -> Result<(), AllocError>
    ensures { OnOk result ((a : Address) → written_at newest.new a
        ≡ with_page place tag.now (written_at newest.old) a) }
{
    let address = address_of(tag);
    if is_newer_page(written_at(newest, address), tag.number) {
        set_written(
            newest,
            address,
            Written {
                number: tag.number,
                place,
            },
        )
    } else {
        Ok(())
    }
}

// What the map has at the address.
fn written_at(newest: &BTreeMap<Address, Written>, address: Address) -> Option<Written>
    ensures { result ≡ written_at newest.now address }
{
    newest.get(&address).copied()
}

// The map has this at the address from now on.
fn set_written(
    newest: &mut BTreeMap<Address, Written>,
    address: Address,
    written: Written,
) -> Result<(), AllocError>
    ensures { OnOk result ((a : Address) → written_at newest.new a
        ≡ (if same_address address a then Some written else written_at newest.old a)) }
{
    match newest.insert(address, written) {
        Ok(_) => Ok(()),
        Err(_) => Err(AllocError),
    }
}

// Whether the fence of the mark covers the number.
fn is_fenced(mark: Option<FoundMark>, number: u64) -> bool
    ensures { result ≡ is_fenced mark number }
{
    match mark {
        Some(mark) => is_within(mark.fence, number),
        None => false,
    }
}

fn is_within(fence: Option<Fence>, number: u64) -> bool
    ensures { result ≡ is_within fence number }
{
    match fence {
        Some(fence) => fence.first <= number && number <= fence.last,
        None => false,
    }
}

// Whether no page is known with this number or a greater one.
fn is_newer_page(known: Option<Written>, number: u64) -> bool
    ensures { result ≡ is_newer_page known number }
{
    match known {
        Some(written) => written.number < number,
        None => true,
    }
}

/// What the block of this die is.
pub fn block_state(die: &MemDie, block: u16) -> BlockState
    ensures { result ≡ block_state_of die.now block }
{
    if die.is_bad(block) {
        return BlockState::Bad;
    }
    let written = written_pages(die, block);
    if can_program(die, block, written) {
        return BlockState::Filling;
    }
    if written == 0 {
        BlockState::Free
    } else {
        BlockState::Closed
    }
}

// How many pages there are up to the last one that is not free.
fn written_pages(die: &MemDie, block: u16) -> u16
    ensures { result ≡ written_in die.now block }
{
    let mut written = 0;
    if block >= die.blocks() {
        return written;
    }
    for page in 0..die.pages() {
        if !is_free(die.page_at(block, page)) {
            written = page + 1;
        }
    }
    written
}

// Whether the page may be programmed next.
fn can_program(die: &MemDie, block: u16, page: u16) -> bool
    ensures { result ≡ may_be_next die.now block page }
{
    let place = Place {
        die: 0,
        block,
        page,
    };
    die.can_do(&Job::Program(place, BLANK))
}

const BLANK: Page = Page {
    body: [0xFF; 4096],
    spare: [0xFF; 96],
};

// The page, if the die has it.
fn page_in(die: &MemDie, block: u16, page: u16) -> Option<&Page>
    ensures there { IfSome result (λ p. (p.now ≡ page_at die.now block page)
        × LiesOnDie die.now block page) }
    ensures outside { IfNone result (LiesOnDie die.now block page → ⊥) }
{
    if block < die.blocks() && page < die.pages() {
        Some(die.page_at(block, page))
    } else {
        None
    }
}

// Whether all bytes are FFh.
fn is_free(page: &Page) -> bool
    ensures { result ≡ is_free page.now }
{
    are_erased(&page.spare) && are_erased(&page.body)
}

// Whether all of them are FFh.
fn are_erased(bytes: &[u8]) -> bool
    ensures { result ≡ are_erased bytes.now }
{
    bytes.iter().all(|byte| *byte == 0xFF)
}

fn address_of(tag: &Tag) -> Address
    ensures { result ≡ address_of tag.now }
{
    (tag.kind, tag.unit, tag.address)
}

/// The number of the die at this index. There are at most eight.
pub fn number_of(index: usize) -> u8
    ensures { result ≡ min index 255 }
{
    u8::try_from(index).unwrap_or(u8::MAX)
}
