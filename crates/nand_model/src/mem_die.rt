//! A die whose pages are kept in memory.
ghost use Rattle.std.specs.Prelude.{◌≡◌, ◌<◌, ◌↔◌, IfOk, IsOk, IsTrue, length, replicate, slice_set, slice_index_or};
ghost use Rattle.ufs_spec.specs.Dies.{DieState, LiesOnDie, CanProgram, CanErase, CanDo, page_at, is_bad_block, with_page, with_bad, die_programmed, die_erased, power_cycle_ended, blank_page, IsNewDie, IsOfSize};

use crate::die::{Die, DieFault};
use std::alloc::Global;
use std::marker::Model;
use ufs_spec::{Job, NoMemory, Page};

/// How many jobs of a die in memory fail.
const NO_FAILURES: u64 = 0;

/// A page of which all bytes are FFh, in one place: who shows it sets none.
static BLANK: Page = Page {
    body: [0xFF; 4096],
    spare: [0xFF; 96],
};

/// A page. While it is blank its bytes mean nothing: so an erase sets none of them.
#[derive(Drop)]
struct MemPage {
    bytes: Page,
    is_blank: bool,
}

impl Model for MemPage {
    ghost use Rattle.std.specs.Prelude.{if◌then◌else◌};
    ghost use Rattle.ufs_spec.specs.declared.flash.Page.{Page};
    ghost use Rattle.ufs_spec.specs.Dies.{blank_page};

    ghost Value = { Page };

    ghost view = { λ p. if p.is_blank then blank_page else p.bytes };
}

/// The pages of one block.
#[derive(Drop)]
struct MemBlock {
    pages: Vec<MemPage>,
}

impl Model for MemBlock {
    ghost use Rattle.std.specs.Prelude.{List};
    ghost use Rattle.ufs_spec.specs.declared.flash.Page.{Page};

    ghost Value = { List Page };

    ghost view = { λ b. b.pages.items };
}

/// A page of which all bytes are FFh.
#[tactic(auto, unfolding(ufs_spec::specs::Dies::blank_page))]
fn blank() -> &'static Page
    ensures { result.now ≡ blank_page }
{
    &BLANK
}

impl MemPage {
    /// A blank page.
    fn new() -> MemPage
        ensures { result ≡ blank_page }
    {
        MemPage {
            bytes: *blank(),
            is_blank: true,
        }
    }

    /// An equal page.
    fn copy(&self) -> MemPage
        ensures { result ≡ self.now }
    {
        MemPage {
            bytes: self.bytes,
            is_blank: self.is_blank,
        }
    }

    /// What it holds.
    fn page(&self) -> &Page
        ensures { result.now ≡ self.now }
    {
        if self.is_blank { blank() } else { &self.bytes }
    }

    /// It holds these bytes from now on.
    fn set(&mut self, content: &Page)
        ensures { self.new ≡ content.now }
    {
        self.bytes.body.copy_from_slice(&content.body);
        self.bytes.spare.copy_from_slice(&content.spare);
        self.is_blank = false;
    }

    /// It is blank from now on.
    fn erase(&mut self)
        ensures { self.new ≡ blank_page }
    {
        self.is_blank = true;
    }
}

/// These pages are blank from now on.
fn erase_all(pages: &mut [MemPage])
    ensures { pages.new ≡ replicate (length pages.old) blank_page }
{
    for page in pages.iter_mut() {
        page.erase();
    }
}

/// The value, so many times.
fn repeated<T: Copy>(alloc: Global, value: T, count: u16) -> Result<Vec<T>, NoMemory>
    ensures { IfOk result (λ all. all.items ≡ replicate count value) }
{
    let mut all = Vec::with_capacity(alloc, count as usize).map_err(|_| NoMemory)?;
    for _ in 0..count {
        all.push(value).map_err(|_| NoMemory)?;
    }
    Ok(all)
}

/// So many blank pages.
fn blank_pages(alloc: Global, pages: u16) -> Result<Vec<MemPage>, NoMemory>
    ensures { IfOk result (λ all. all.items ≡ replicate pages blank_page) }
{
    let mut all = Vec::with_capacity(alloc, pages as usize).map_err(|_| NoMemory)?;
    for _ in 0..pages {
        all.push(MemPage::new()).map_err(|_| NoMemory)?;
    }
    Ok(all)
}

/// Blocks of blank pages.
fn blank_blocks(alloc: Global, blocks: u16, pages: u16) -> Result<Vec<MemBlock>, NoMemory>
    ensures { IfOk result (λ all. all.items ≡ replicate blocks (replicate pages blank_page)) }
{
    let mut all = Vec::with_capacity(alloc, blocks as usize).map_err(|_| NoMemory)?;
    for _ in 0..blocks {
        let block = MemBlock {
            pages: blank_pages(alloc, pages)?,
        };
        all.push(block).map_err(|_| NoMemory)?;
    }
    Ok(all)
}

/// The same values.
fn copied<T: Copy>(alloc: Global, values: &[T]) -> Result<Vec<T>, NoMemory>
    ensures { IfOk result (λ all. all.items ≡ values.now) }
{
    let mut all = Vec::with_capacity(alloc, values.len()).map_err(|_| NoMemory)?;
    all.extend_from_slice(values).map_err(|_| NoMemory)?;
    Ok(all)
}

/// The same pages.
fn copied_pages(alloc: Global, pages: &[MemPage]) -> Result<Vec<MemPage>, NoMemory>
    ensures { IfOk result (λ all. all.items ≡ pages.now) }
{
    let mut all = Vec::with_capacity(alloc, pages.len()).map_err(|_| NoMemory)?;
    for page in pages {
        all.push(page.copy()).map_err(|_| NoMemory)?;
    }
    Ok(all)
}

/// Blocks of the same pages.
fn copied_blocks(alloc: Global, blocks: &[MemBlock]) -> Result<Vec<MemBlock>, NoMemory>
    ensures { IfOk result (λ all. all.items ≡ blocks.now) }
{
    let mut all = Vec::with_capacity(alloc, blocks.len()).map_err(|_| NoMemory)?;
    for block in blocks {
        let pages = copied_pages(alloc, block.pages.as_slice())?;
        all.push(MemBlock { pages }).map_err(|_| NoMemory)?;
    }
    Ok(all)
}

impl MemBlock {
    fn page(&self, page: usize) -> &Page
        requires { page < length self.now }
        ensures { result.now ≡ slice_index_or self.now page blank_page }
    {
        self.pages[page].page()
    }

    fn set_page(&mut self, page: usize, content: &Page)
        requires { page < length self.old }
        ensures { self.new ≡ slice_set self.old page content.now }
    {
        self.pages[page].set(content);
    }

    fn erase(&mut self)
        ensures { self.new ≡ replicate (length self.old) blank_page }
    {
        erase_all(self.pages.as_mut_slice());
    }
}

/// A die in memory. Its jobs never fail by themselves.
#[derive(Drop)]
pub struct MemDie {
    page_count: u16,
    blocks: Vec<MemBlock>,
    ready: Vec<Option<u16>>,
    bad: Vec<bool>,
}

impl Model for MemDie {
    ghost use Rattle.std.specs.Prelude.{◌≡◌, ◌<◌, ◌^◌, length};
    ghost use Rattle.std.specs.List.{All};
    ghost use Rattle.ufs_spec.specs.Dies.{DieState};

    ghost Value = { DieState };

    ghost view = { λ d. record { blocks = d.blocks.items; ready = d.ready.items; bad = d.bad.items } };

    ghost invariant = { λ d.
        (length d.blocks.items < 2 ^ 16)
        × All (λ block. length block ≡ d.page_count) d.blocks.items
        × (length d.ready.items ≡ length d.blocks.items)
        × (length d.bad.items ≡ length d.blocks.items) };
}

impl MemDie {
    /// A new die: all bytes are FFh, no block is bad, and none may be programmed before an erase.
    pub fn new(alloc: Global, blocks: u16, pages: u16) -> Result<MemDie, NoMemory>
        ensures { IfOk result (λ die. IsNewDie blocks pages die) }
    {
        Ok(MemDie {
            page_count: pages,
            blocks: blank_blocks(alloc, blocks, pages)?,
            ready: repeated(alloc, None, blocks)?,
            bad: repeated(alloc, false, blocks)?,
        })
    }

    /// An equal die.
    pub fn copy(&self, alloc: Global) -> Result<MemDie, NoMemory>
        ensures { IfOk result (λ die. die ≡ self.now) }
    {
        Ok(MemDie {
            page_count: self.pages(),
            blocks: copied_blocks(alloc, self.blocks.as_slice())?,
            ready: copied(alloc, self.ready.as_slice())?,
            bad: copied(alloc, self.bad.as_slice())?,
        })
    }

    /// What the page holds.
    pub fn page_at(&self, block: u16, page: u16) -> &Page
        requires { LiesOnDie self.now block page }
        ensures { result.now ≡ page_at self.now block page }
    {
        self.blocks[block as usize].page(page as usize)
    }

    /// Writes the page, as a stop, a failure or an image leaves it. All else stays.
    pub fn set_page(&mut self, block: u16, page: u16, left: &Page)
        requires { LiesOnDie self.old block page }
        ensures { self.new ≡ with_page self.old block page left.now }
    {
        self.blocks[block as usize].set_page(page as usize, left);
    }

    /// Makes the block bad: none of its pages may be programmed from now on. All else stays.
    pub fn set_bad(&mut self, block: u16)
        requires { block < length self.old.blocks }
        ensures { self.new ≡ with_bad self.old block }
    {
        self.bad[block as usize] = true;
        self.ready[block as usize] = None;
    }

    /// Ends the power cycle: no block may be programmed before an erase. All else stays.
    pub fn end_power_cycle(&mut self)
        ensures { self.new ≡ power_cycle_ended self.old }
    {
        self.ready.fill(None);
    }

    fn has_page(&self, block: u16, page: u16) -> bool
        ensures { IsTrue result ↔ LiesOnDie self.now block page }
    {
        (block as usize) < self.blocks.len() && page < self.pages()
    }

    /// Whether the job may be asked of the die.
    pub fn can_do(&self, job: &Job) -> bool
        ensures { IsTrue result ↔ CanDo self.now job.now }
    {
        match job {
            Job::Read(place) => self.has_page(place.block, place.page),
            Job::Program(place, _) => {
                self.has_page(place.block, place.page)
                    && !self.bad[place.block as usize]
                    && self.ready[place.block as usize] == Some(place.page)
            }
            Job::Erase { die: _, block } => {
                (*block as usize) < self.blocks.len() && !self.bad[*block as usize]
            }
        }
    }
}

impl Die for MemDie {
    ghost state = { λ die. die };

    ghost failed = { λ die. 0 };

    fn blocks(&self) -> u16
        ensures { result ≡ length self.now.blocks }
    {
        self.blocks.len() as u16
    }

    fn pages(&self) -> u16
        ensures { IsOfSize (length self.now.blocks) result self.now }
    {
        self.page_count
    }

    fn read(&mut self, block: u16, page: u16, into: &mut Page) -> Result<(), DieFault>
        requires { LiesOnDie self.old block page }
        ensures never_fails { IsOk result }
        ensures same { self.new ≡ self.old }
        ensures found { into.new ≡ page_at self.old block page }
    {
        *into = *self.page_at(block, page);
        Ok(())
    }

    fn program(&mut self, block: u16, page: u16, content: &Page) -> Result<(), DieFault>
        requires { CanProgram self.old block page }
        ensures never_fails { IsOk result }
        ensures done { self.new ≡ die_programmed self.old block page content.now }
    {
        self.blocks[block as usize].set_page(page as usize, content);
        self.ready[block as usize] = Some(page + 1);
        Ok(())
    }

    fn erase(&mut self, block: u16) -> Result<(), DieFault>
        requires { CanErase self.old block }
        ensures never_fails { IsOk result }
        ensures done { self.new ≡ die_erased self.old block }
    {
        self.blocks[block as usize].erase();
        self.ready[block as usize] = Some(0);
        Ok(())
    }

    fn is_bad(&self, block: u16) -> bool
        ensures { result ≡ is_bad_block self.now block }
    {
        (block as usize) < self.bad.len() && self.bad[block as usize]
    }

    fn failures(&self) -> u64
        ensures { result ≡ 0 }
    {
        NO_FAILURES
    }
}
