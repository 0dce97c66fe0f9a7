//! Times scans of dies of three sizes, of whose blocks a quarter is written.
ghost use Rattle.std.specs.Prelude.{◌<◌, ◌^◌};

use crate::clock::{a_second, each, percent, since, time_hash};
use anyhow::{Result, bail, ensure};
use geometry::Config;
use nand_model::{Die, MemDie};
use page_tag::seal;
use recovery::{fit, scan};
use std::alloc::Global;
use std::rt::Clock;
use std::time::Instant;
use ufs_spec::{Job, Page, Place, Tag, UnitSpec};
use workbench::new_dies;

/// How many blocks the dies have.
const SIZES: [u16; 3] = [16, 64, 256];

const PAGES: u16 = 64;

/// The block of address A of unit 0, as the only page of group A + 1.
fn data(address: u32) -> Page
    requires { address < 2 ^ 32 }
{
    let tag = Tag {
        kind: Tag::DATA,
        unit: 0,
        address,
        number: u64::from(address) + 1,
        index: 0,
        size: 1,
        frontier: 0,
    };
    seal(&tag, &[0x5A; 4096])
}

/// Sets the page there.
fn put(dies: &mut [MemDie], place: Place, page: &Page) -> Result<()> {
    let die = usize::from(place.die);
    ensure!(die < dies.len(), "no such die");
    let die = &mut dies[die];
    ensure!(die.can_do(&Job::Read(place)), "no such page");
    die.set_page(place.block, place.page, page);
    Ok(())
}

/// Writes the first blocks of each die, a group a page.
fn write(dies: &mut [MemDie], blocks: u16) -> Result<()> {
    for die in 0..4u8 {
        for block in 0..blocks {
            for page in 0..PAGES {
                let before = u32::from(die) * u32::from(blocks) + u32::from(block);
                let address = before * u32::from(PAGES) + u32::from(page);
                put(dies, Place { die, block, page }, &data(address))?;
            }
        }
    }
    Ok(())
}

/// How many nanoseconds a scan takes that finds so many groups.
fn time_scan<R: Clock>(
    rt: &R,
    alloc: Global,
    config: &Config,
    dies: &mut [MemDie],
    groups: u32,
) -> Result<u64> {
    ensure!(fit(config, dies), "the dies do not fit");
    let start = Instant::now(rt)?;
    let Ok(found) = scan(alloc, dies, config) else {
        bail!("the scan was refused");
    };
    let scanned = since(rt, start)?;
    ensure!(found.kept == u64::from(groups), "not all groups were found");
    Ok(scanned)
}

/// How many nanoseconds a scan of four dies with so many blocks takes, of which so many pages are written.
fn time_dies<R: Clock>(rt: &R, alloc: Global, blocks: u16, written: u32) -> Result<u64> {
    let unit = UnitSpec {
        blocks: written,
        boot: 0,
        protect: 0,
    };
    let config = Config::new(4, blocks, PAGES, &[unit], [1, 0, 0, 0], 64, 4)?;
    let mut dies = new_dies(alloc, 4, blocks, PAGES)?;
    write(dies.as_mut_slice(), blocks / 4)?;
    time_scan(rt, alloc, &config, dies.as_mut_slice(), written)
}

/// Times a scan of four dies with so many blocks, and as many hashes as it reads pages.
fn time_size<R: Clock + Eprint>(rt: &R, alloc: Global, blocks: u16) -> Result<()> {
    let all = 4 * u32::from(blocks) * u32::from(PAGES);
    let scanned = time_dies(rt, alloc, blocks, all / 4)?;
    let hash = time_hash(rt, all)?;
    let speed = a_second(scanned, all);
    let to_all = percent(each(scanned, all), hash);
    let to_written = to_all.saturating_mul(4);
    eprintln!(rt; "a scan of {all} pages, a quarter of them written: {speed} pages a second")?;
    eprintln!(rt; "scan to a hash of each page: {to_all} %, of each written page: {to_written} %")?;
    Ok(())
}

/// Times a scan of each size.
pub fn time_scans<R: Clock + Eprint>(rt: &R, alloc: Global) -> Result<()> {
    for blocks in SIZES {
        time_size(rt, alloc, blocks)?;
    }
    Ok(())
}
