//! The collector's plan: which block is collected, and which of its pages are still to be copied.
#![tactic(auto)]

ghost use Rattle.std.specs.Prelude.{◌≡◌, ◌≤◌, All, IfOk, None, drop, is_some, map, option_map};
ghost use Rattle.std.specs.Prelude.{vec_capacity};
ghost use Rattle.block_table.specs.Lives.{spot_at};
ghost use Rattle.collector.specs.Plans.{IsNamed, IsPlanned, copy_ordered, live_below, next_step};
ghost use Rattle.collector.specs.Plans.{place_of, step_of};

use block_table::{BlockAt, BlockTable, LivePages};
use std::alloc::{AllocError, Global};
use std::marker::Model;
use ufs_spec::{Key, Place};
use unit_map::UnitMap;
use write_cache::Cache;

/// A page that is to be copied: where it is, and of which key and of the group of which number it
/// is.
#[derive(Clone, Copy, Debug, Default, PartialEq, Eq)]
pub struct PlannedCopy {
    pub from: Place,
    pub key: Key,
    pub number: u64,
}

/// What a collection does next: the copy of a page, or, if no page is left, the mark after which
/// the block is free.
#[derive(Clone, Copy, Debug, PartialEq, Eq)]
pub enum PlanStep {
    Copy(PlannedCopy),
    Mark,
}

/// The collection that is begun, if one is: its block, and which pages are still to be copied. They
/// are those that were live when it began. Its memory is taken when it is made.
#[derive(Drop)]
pub struct Plan {
    /// How many pages a block has.
    pages: u16,
    /// The block that is collected.
    victim: Option<BlockAt>,
    /// The pages of the block that were live when its collection began, in order.
    copies: Vec<PlannedCopy>,
    /// How many of them were ordered.
    ordered: usize,
}

impl Model for Plan {
    ghost use Rattle.collector.specs.Plans.{Plans};

    ghost Value = { Plans };

    ghost use Rattle.collector.specs.Rooms.{HasRoom, plans_of};

    ghost view = { plans_of };

    ghost invariant = { HasRoom };
}

impl Plan {
    /// Room for the collection of a block of so many pages. None is begun.
    ///
    /// # Errors
    ///
    /// Only if memory was refused.
    pub fn new(alloc: Global, pages: u16) -> Result<Plan, AllocError>
        ensures { IfOk result (λ p. p ≡ record { pages = pages; plan = None }) }
    {
        Ok(Plan {
            pages,
            victim: None,
            copies: Vec::with_capacity(alloc, pages as usize)?,
            ordered: 0,
        })
    }

    /// Begins the collection of the victim: a closed block where free blocks are `scarce`, else a
    /// bad one. Its live pages are to be copied, in order, each under the key and the number that
    /// the map or the cache has for what stands there. Whether there is a victim; if there is none,
    /// no collection is begun.
    pub fn plan(
        &mut self,
        live: &LivePages,
        blocks: &BlockTable,
        scarce: bool,
        places: &UnitMap,
        cache: &Cache,
    ) -> bool
        ensures after { IsPlanned self.old live.now blocks.now scarce places.now cache.now.pages self.new }
        ensures any { result ≡ is_some self.new.plan }
    {
        self.victim = live.victim(blocks, scarce);
        self.ordered = 0;
        let Some(at) = self.victim else {
            return false;
        };
        gather(&mut self.copies, live, at, self.pages, places, cache);
        true
    }

    /// The block that is collected, if a collection is begun.
    pub fn victim(&self) -> Option<BlockAt>
        ensures { option_map spot_at result ≡ option_map (λ c. c.victim) self.now.plan }
    {
        self.victim
    }

    /// The next step of the collection, if one is begun.
    pub fn next_step(&self) -> Option<PlanStep>
        ensures { result ≡ next_step self.now.plan }
    {
        let _at = self.victim?;
        Some(step_at(self.copies.as_slice(), self.ordered))
    }

    /// The copy of the first page that is left is ordered.
    pub fn copy_ordered(&mut self)
        ensures { self.new ≡ record self.old { plan = option_map copy_ordered self.old.plan } }
    {
        if self.ordered < self.copies.len() {
            self.ordered += 1;
        }
    }

    /// The collection is over.
    pub fn end(&mut self)
        ensures { self.new ≡ record self.old { plan = None } }
    {
        self.victim = None;
    }
}

/// The step with the copies from this one on.
fn step_at(copies: &[PlannedCopy], ordered: usize) -> PlanStep
    ensures { result ≡ step_of (drop ordered copies.now) }
{
    match copies.get(ordered) {
        Some(copy) => PlanStep::Copy(*copy),
        None => PlanStep::Mark,
    }
}

/// Puts the copies of the live pages among the first of a block in place of all others, in order.
fn gather(
    copies: &mut Vec<PlannedCopy>,
    live: &LivePages,
    at: BlockAt,
    pages: u16,
    places: &UnitMap,
    cache: &Cache,
)
    requires { pages ≤ vec_capacity copies.old }
    ensures those { map place_of copies.new.items ≡ live_below live.now pages (spot_at at) }
    ensures names { All (IsNamed places.now cache.now.pages) copies.new.items }
    ensures room { vec_capacity copies.new ≡ vec_capacity copies.old }
{
    copies.clear();
    for page in 0..pages {
        let place = Place {
            die: at.die,
            block: at.block,
            page,
        };
        if live.is_live(place) {
            copies.push_reserved(planned_copy(place, places, cache));
        }
    }
}

/// The copy of the page there, under the key and the number of what stands there: a page of a
/// pending group, or else a durable content.
///
/// A page that neither the cache nor the map names is planned under the default key and the number
/// 0. That never happens to a device: its live pages are exactly those that one of the two names.
fn planned_copy(from: Place, places: &UnitMap, cache: &Cache) -> PlannedCopy
    ensures from { result.from ≡ from }
    ensures name { IsNamed places.now cache.now.pages result }
{
    if let Some(page) = cache.page_there(from) {
        return PlannedCopy {
            from,
            key: page.key,
            number: page.number,
        };
    }
    let named = places.name_there(from).unwrap_or_default();
    PlannedCopy {
        from,
        key: named.key,
        number: named.name.number,
    }
}
