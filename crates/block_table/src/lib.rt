//! The block table: what each block is, how many are free, which block each die fills, and which
//! job each die has; and beside it which pages are live, and which block is to be collected.
#![tactic(auto)]

ghost use Rattle.std.specs.Prelude.{◌≡◌, ◌≤◌, ◌<◌, ◌+◌, ◌*◌, ◌^◌, IfOk, None, Some, ◌/◌, ◌%◌, count_by, true, unwrap_or, if◌then◌else◌, length, map, replicate, slice_get, slice_set};
ghost use Rattle.std.specs.List.{list_any};
ghost use Rattle.block_table.specs.declared.BlockState.TheVariants.{Bad};
ghost use Rattle.block_table.specs.Sorted.{HasAll, IsSorted, IsWordOf, bucket_of, same_state};
ghost use Rattle.block_table.specs.Blocks.{Blocks, block_index, erased_at, freed, freed_state, gone_bad, is_bad, is_free, is_stale, opened_at, page_written, state_of};
ghost use Rattle.block_table.specs.Rows.{erases, filling_but, fills, idle_row, reads_for, rows_filling, rows_in_flight, without_block, without_reader, writes_page, writes_step};

use std::alloc::{AllocError, Global};
use std::marker::Model;
use ufs_spec::Reader;

mod buckets;
mod live;
mod rows;

use buckets::{BlockBuckets, WORD, with_bit};
pub use live::{BlockAt, LivePages};
use rows::{is_read_for, without_block, without_reader};
pub use rows::{DieRow, Flight, OpenBlock};

/// What a block is to the device: free in one of three ways, being filled, full, or bad.
#[derive(Clone, Copy, Debug, Default, PartialEq, Eq)]
pub enum BlockState {
    /// Free: nothing in it opens, and it is erased before it is filled.
    #[default]
    Free,
    /// Free: pages of it open and none is needed, and it is erased first of all.
    Stale,
    /// Free: it was erased in this life, and may be filled at once.
    Ready,
    /// A die fills it.
    Open,
    /// It is full, or something in it was needed at the life's start.
    Closed,
    /// A program or an erase of it failed, or it was bad from the start.
    Bad,
}

/// How many dies a device has, and how many blocks a die and pages a block.
#[derive(Clone, Copy, Debug, PartialEq, Eq)]
pub struct Sizes {
    pub dies: u8,
    pub blocks: u16,
    pub pages: u16,
}

/// The blocks of all dies. No call counts them or walks over them: which blocks are so is kept as
/// words of 64 blocks for each state.
#[derive(Drop)]
pub struct BlockTable {
    sizes: Sizes,
    /// What each block is, in order by die and block.
    states: Vec<BlockState>,
    /// Of each die the block that it fills, which has room, and its job in flight.
    rows: Vec<DieRow>,
    /// How many blocks are free.
    free: usize,
    /// How many blocks are stale, which are free as well.
    stale: usize,
    /// How many blocks are bad.
    bad: usize,
    /// The blocks in a bucket for each state, at their places among all states.
    sorted: BlockBuckets,
}

impl Model for BlockTable {
    ghost use Rattle.block_table.specs.Blocks.{Blocks};

    ghost Value = { Blocks };

    ghost use Rattle.block_table.specs.Rooms.{blocks_of, IsCounted};

    ghost view = { blocks_of };

    ghost invariant = { IsCounted };
}

impl BlockTable {
    /// A table of blocks that are so, in order by die and block. No die fills one or has a job.
    ///
    /// # Errors
    ///
    /// Only if memory was refused.
    pub fn new(
        alloc: Global,
        sizes: Sizes,
        states: Vec<BlockState>,
    ) -> Result<BlockTable, AllocError>
        ensures { IfOk result (λ t. t ≡ record {
          sizes = sizes;
          states = states.items;
          rows = replicate sizes.dies idle_row;
        }) }
    {
        let free = count_free(states.as_slice());
        let stale = count_stale(states.as_slice());
        let bad = count_bad(states.as_slice());
        let sorted = sorted(alloc, states.as_slice())?;
        Ok(BlockTable {
            sizes,
            states,
            rows: vec![in alloc; DieRow::default(); sizes.dies as usize]?,
            free,
            stale,
            bad,
            sorted,
        })
    }

    /// What the block is; `Bad` if there is no such block.
    pub fn state(&self, die: u8, block: u16) -> BlockState
        ensures { result ≡ state_of self.now die block }
    {
        let index = self.index(die, block);
        self.states.get(index).copied().unwrap_or(BlockState::Bad)
    }

    /// How many blocks of all dies are free.
    pub fn free_blocks(&self) -> usize
        ensures { result ≡ count_by is_free self.now.states }
    {
        self.free
    }

    /// Whether any block is stale.
    pub fn has_stale(&self) -> bool
        ensures { result ≡ list_any is_stale self.now.states }
    {
        self.stale > 0
    }

    /// How many blocks of all dies are bad.
    pub fn bad_blocks(&self) -> usize
        ensures { result ≡ count_by is_bad self.now.states }
    {
        self.bad
    }

    /// What is known of the die; `None` if there is no such die.
    pub fn row(&self, die: u8) -> Option<DieRow>
        ensures { result ≡ slice_get self.now.rows die }
    {
        self.rows.get(die as usize).copied()
    }

    /// Whether any die fills a block.
    pub fn fills_any(&self) -> bool
        ensures { result ≡ list_any fills self.now.rows }
    {
        self.rows.iter().any(|row| row.filling.is_some())
    }

    /// Whether any die erases a block.
    pub fn erases_any(&self) -> bool
        ensures { result ≡ list_any erases self.now.rows }
    {
        self.rows
            .iter()
            .any(|row| matches!(row.flight, Some(Flight::Erase { .. })))
    }

    /// Whether any die programs the page of this index in the group of this number.
    pub fn writes_page(&self, number: u64, index: u16) -> bool
        ensures { result ≡ list_any (writes_page number index) self.now.rows }
    {
        self.rows.iter().any(|row| {
            matches!(
                row.flight,
                Some(Flight::Group { number: group, index: page, .. })
                    if number == group && index == page
            )
        })
    }

    /// Whether any die programs the page of the step under way.
    pub fn writes_step(&self) -> bool
        ensures { result ≡ list_any writes_step self.now.rows }
    {
        self.rows
            .iter()
            .any(|row| matches!(row.flight, Some(Flight::Step { .. })))
    }

    /// Whether any die reads for this reader. A read for nobody is for none.
    pub fn reads_for(&self, reader: Reader) -> bool
        ensures { result ≡ list_any (reads_for reader) self.now.rows }
    {
        self.rows.iter().any(|row| is_read_for(row.flight, reader))
    }

    /// This is in flight of the die from now on, if there is such a die.
    pub fn set_flight(&mut self, die: u8, flight: Option<Flight>)
        ensures { self.new ≡ record self.old { rows = rows_in_flight self.old.rows die flight } }
    {
        if let Some(row) = self.row(die) {
            let filling = row.filling;
            self.set_row(die, DieRow { filling, flight });
        }
    }

    /// A read in flight for this reader goes on, for nobody.
    pub fn forget_reader(&mut self, reader: u8)
        ensures { self.new ≡ record self.old { rows = map (without_reader reader) self.old.rows } }
    {
        for row in self.rows.iter_mut() {
            *row = without_reader(*row, reader);
        }
    }

    /// A read in flight for this block of the reader goes on, for nobody.
    pub fn forget_block(&mut self, reader: u8, index: u16)
        ensures { self.new ≡ record self.old { rows = map (without_block reader index) self.old.rows } }
    {
        for row in self.rows.iter_mut() {
            *row = without_block(*row, reader, index);
        }
    }

    /// The block is empty after an erase, and may be filled. The die has no job, and fills the block
    /// that it filled before.
    pub fn erased(&mut self, die: u8, block: u16)
        ensures { self.new ≡ erased_at self.old die block }
    {
        self.set_state(die, block, BlockState::Ready);
        self.set_flight(die, None);
    }

    /// The die fills this block from its first page on. Its job stays as it is.
    pub fn opened(&mut self, die: u8, block: u16)
        ensures { self.new ≡ opened_at self.old die block }
    {
        self.set_state(die, block, BlockState::Open);
        if let Some(row) = self.row(die) {
            let filling = Some(OpenBlock { block, next: 0 });
            self.set_row(
                die,
                DieRow {
                    filling,
                    flight: row.flight,
                },
            );
        }
    }

    /// The next page of the block that the die fills is written: the block is closed with its last
    /// page, and the die has no job.
    pub fn page_written(&mut self, die: u8, filled: Option<OpenBlock>)
        ensures { self.new ≡ page_written self.old die filled }
    {
        let Some(open) = filled else {
            return self.job_over(die, None);
        };
        if open.next < self.sizes.pages.saturating_sub(1) {
            let next = OpenBlock {
                block: open.block,
                next: open.next + 1,
            };
            self.job_over(die, Some(next));
        } else {
            self.set_state(die, open.block, BlockState::Closed);
            self.job_over(die, None);
        }
    }

    /// The block is stale from now on, unless it is bad: its collection is over.
    pub fn freed(&mut self, die: u8, block: u16)
        ensures { self.new ≡ freed self.old die block }
    {
        let state = freed_state(self.state(die, block));
        self.set_state(die, block, state);
    }

    /// The block is bad from now on. The die has no job, and fills this block no more; another one
    /// that it fills it goes on to fill.
    pub fn went_bad(&mut self, die: u8, block: u16)
        ensures { self.new ≡ gone_bad self.old die block }
    {
        self.set_state(die, block, BlockState::Bad);
        if let Some(row) = self.row(die) {
            self.job_over(die, filling_but(row.filling, block));
        }
    }

    /// A bit for each of 64 blocks of a device of these sizes, in order by die and block, the first
    /// of which is the block of 64 times this number: whether it is so.
    pub(crate) fn word(&self, state: BlockState, sizes: Sizes, number: usize) -> u64
        requires { number < 2 ^ 32 }
        ensures { IsWordOf self.now state sizes number result }
    {
        if self.has_all(sizes) {
            self.sorted.word(bucket_of(state), number)
        } else {
            self.word_by_states(state, sizes, number)
        }
    }

    /// The same, for a device whose blocks may have other places than those of the table.
    fn word_by_states(&self, state: BlockState, sizes: Sizes, number: usize) -> u64
        requires { number < 2 ^ 32 }
        ensures { IsWordOf self.now state sizes number result }
    {
        let mut word = 0;
        for place in 0..WORD {
            let index = other_index(number * WORD + place, sizes.blocks, self.sizes.blocks);
            word = with_bit(word, place, self.is_so(index, state));
        }
        word
    }

    /// Whether a device of these sizes has the same blocks at the same places.
    fn has_all(&self, sizes: Sizes) -> bool
        ensures { result ≡ true → HasAll self.now sizes }
    {
        sizes.blocks == self.sizes.blocks
            && sizes.dies as usize * sizes.blocks as usize <= self.states.len()
    }

    /// Whether the block at this place among all states is so; one that is not there is bad.
    fn is_so(&self, index: usize, state: BlockState) -> bool
        ensures { result ≡ same_state (unwrap_or (slice_get self.now.states index) Bad) state }
    {
        bucket_of(self.states.get(index).copied().unwrap_or(BlockState::Bad)) == bucket_of(state)
    }

    /// Where the block is among all blocks.
    fn index(&self, die: u8, block: u16) -> usize
        ensures { result ≡ block_index self.now die block }
    {
        die as usize * self.sizes.blocks as usize + block as usize
    }

    /// Notes what the block is from now on, and counts anew those that are free, stale or bad.
    fn set_state(&mut self, die: u8, block: u16, state: BlockState)
        ensures { self.new ≡ record self.old {
          states = slice_set self.old.states (block_index self.old die block) state;
        } }
    {
        let index = self.index(die, block);
        if index >= self.states.len() {
            return;
        }
        let was = self.states[index];
        self.free = recounted(self.free, is_free(&was), is_free(&state));
        self.stale = recounted(self.stale, is_stale(&was), is_stale(&state));
        self.bad = recounted(self.bad, is_bad(&was), is_bad(&state));
        self.sorted
            .move_block(index, bucket_of(was), bucket_of(state));
        self.states[index] = state;
    }

    /// The die has no job any more, and fills this block.
    fn job_over(&mut self, die: u8, filling: Option<OpenBlock>)
        ensures { self.new ≡ record self.old {
          rows = slice_set self.old.rows die record { filling = filling; flight = None };
        } }
    {
        self.set_row(
            die,
            DieRow {
                filling,
                flight: None,
            },
        );
    }

    /// Notes what is known of the die from now on.
    fn set_row(&mut self, die: u8, row: DieRow)
        ensures { self.new ≡ record self.old { rows = slice_set self.old.rows die row } }
    {
        let index = die as usize;
        if index < self.rows.len() {
            self.rows[index] = row;
        }
    }
}

/// How many blocks count once one changed that counted or not, and counts now or not.
fn recounted(count: usize, counted: bool, counts: bool) -> usize
    requires counted { (if counted then 1 else 0) ≤ count }
    requires room { count < 2 ^ 63 }
    ensures { result + (if counted then 1 else 0) ≡ count + (if counts then 1 else 0) }
{
    count - usize::from(counted) + usize::from(counts)
}

/// Where the block of this place in a device with so many blocks a die is in one with so many.
fn other_index(place: usize, blocks: u16, others: u16) -> usize
    requires { place < 2 ^ 40 }
    ensures { 0 < blocks → result ≡ place / blocks * others + place % blocks }
{
    if blocks == 0 {
        return 0;
    }
    place / blocks as usize * others as usize + place % blocks as usize
}

/// The bucket for blocks that are so.
fn bucket_of(state: BlockState) -> usize
    ensures { result ≡ bucket_of state }
{
    match state {
        BlockState::Free => 0,
        BlockState::Stale => 1,
        BlockState::Ready => 2,
        BlockState::Open => 3,
        BlockState::Closed => 4,
        BlockState::Bad => 5,
    }
}

/// The blocks in a bucket for each state.
fn sorted(alloc: Global, states: &[BlockState]) -> Result<BlockBuckets, AllocError>
    ensures { IfOk result (λ b. IsSorted states.now b) }
{
    let mut sorted = BlockBuckets::new(alloc, 6, states.len())?;
    for place in 0..states.len() {
        sorted.set(bucket_of(states[place]), place, true);
    }
    Ok(sorted)
}

/// How many of the blocks are free.
fn count_free(states: &[BlockState]) -> usize
    ensures { result ≡ count_by is_free states.now }
{
    states.iter().filter(|state| is_free(state)).count()
}

/// How many of the blocks are stale.
fn count_stale(states: &[BlockState]) -> usize
    ensures { result ≡ count_by is_stale states.now }
{
    states.iter().filter(|state| is_stale(state)).count()
}

/// How many of the blocks are bad.
fn count_bad(states: &[BlockState]) -> usize
    ensures { result ≡ count_by is_bad states.now }
{
    states.iter().filter(|state| is_bad(state)).count()
}

/// Whether a block that is so is free.
fn is_free(state: &BlockState) -> bool
    ensures { result ≡ is_free state.now }
{
    match state {
        BlockState::Free => true,
        BlockState::Stale => true,
        BlockState::Ready => true,
        BlockState::Open => false,
        BlockState::Closed => false,
        BlockState::Bad => false,
    }
}

/// Whether a block that is so is stale.
fn is_stale(state: &BlockState) -> bool
    ensures { result ≡ is_stale state.now }
{
    match state {
        BlockState::Free => false,
        BlockState::Stale => true,
        BlockState::Ready => false,
        BlockState::Open => false,
        BlockState::Closed => false,
        BlockState::Bad => false,
    }
}

/// Whether a block that is so is bad.
fn is_bad(state: &BlockState) -> bool
    ensures { result ≡ is_bad state.now }
{
    match state {
        BlockState::Free => false,
        BlockState::Stale => false,
        BlockState::Ready => false,
        BlockState::Open => false,
        BlockState::Closed => false,
        BlockState::Bad => true,
    }
}

/// What a block that is so is after its collection.
fn freed_state(state: BlockState) -> BlockState
    ensures { result ≡ freed_state state }
{
    match state {
        BlockState::Bad => BlockState::Bad,
        BlockState::Free => BlockState::Stale,
        BlockState::Stale => BlockState::Stale,
        BlockState::Ready => BlockState::Stale,
        BlockState::Open => BlockState::Stale,
        BlockState::Closed => BlockState::Stale,
    }
}

/// What a die that fills this fills once the block went bad.
fn filling_but(filling: Option<OpenBlock>, block: u16) -> Option<OpenBlock>
    ensures { result ≡ filling_but block filling }
{
    match filling {
        Some(open) if open.block != block => Some(open),
        _ => None,
    }
}
