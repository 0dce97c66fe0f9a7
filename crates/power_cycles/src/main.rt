//! Lives of a device one after another, each from an opening to a stop: the program sees that the device survives
//! any number of them. After each stop it copies the dies, and a device over the copies has to be mended
//! within a bound, to have each block that was durably written, and to take a write.
//!
//! It prints a line for each row: what happens in its lives, how many dies and spare blocks there are, how many lives
//! and jobs, how many jobs failed and on how many devices, one after another, how many rounds of a turn and a job of
//! each die a mending took at most, and whether the device got stuck or lost a block. A row ends at the first of
//! these, and the status is 1 then.
//!
//! With no words each row has a few lives, with the word `all` 10,000. The words `PLAN DIES LIVES SPARE BLOCKS` play
//! one row; without the last one the dies have as few blocks as they may, without the last two no block is spare.
#![tactic(auto)]

mod fault;
mod host;
mod kept;
mod lives;
mod player;
mod shapes;

use crate::fault::Fault;
use crate::lives::{PLANS, Plan, Row, Series};
use crate::shapes::Shape;
use anyhow::{Result, bail, ensure};
use std::alloc::Global;
use std::env;

/// How many dies the devices have.
const DIES: [u8; 4] = [1, 2, 4, 8];

/// So many lives each row has with the word `all`.
const ALL: u32 = 10_000;

/// So many each row has with no words: fewer on more dies, which have more pages to look through.
fn few(dies: u8) -> u32 {
    match dies {
        1 => 60,
        2 => 40,
        4 => 20,
        _ => 10,
    }
}

/// With no words each plan in which jobs fail has one row: so many lives of one die with so many spare blocks.
const FEW_FAILING: u32 = 6;

const FEW_SPARE: u16 = 4;

/// How many blocks are spare where jobs fail: one, four, about as many as WRITEs leave free, and many.
fn spares(dies: u8) -> [u16; 6] {
    let room = Shape::room(dies);
    [
        1,
        4,
        room.saturating_sub(1),
        room,
        room.saturating_add(3),
        24,
    ]
}

/// How a row ended: `stuck` and `lost` are 0, or one of them 1.
#[derive(Clone, Copy)]
struct Ended {
    lives: u32,
    jobs: u64,
    failed: u32,
    devices: u32,
    rounds: u32,
    stuck: u8,
    lost: u8,
}

/// Plays the lives of a device, and tells what is wrong on standard error.
fn play<R: Eprint>(rt: &R, series: &mut Series) -> Result<Ended> {
    let played = series.play();
    let mut ended = Ended {
        lives: series.ended,
        jobs: series.jobs(),
        failed: series.failed(),
        devices: series.devices,
        rounds: series.rounds,
        stuck: 0,
        lost: 0,
    };
    match played {
        Ok(()) => {}
        Err(Fault::Stuck(wait)) => {
            let name = wait.name();
            eprintln!(rt; "the device is stuck in {name}")?;
            ended.stuck = 1;
        }
        Err(Fault::Lost(address)) => {
            eprintln!(rt; "the block of address {address} is lost")?;
            ended.lost = 1;
        }
        Err(Fault::Memory) => bail!("out of memory"),
        Err(Fault::Event) => bail!("the world refused an event"),
    }
    Ok(ended)
}

/// A device of the row, mended and written.
fn begun(alloc: Global, row: Row) -> Result<Series> {
    match Series::new(alloc, row) {
        Ok(series) => Ok(series),
        Err(_) => bail!("no device could be written"),
    }
}

/// Plays a row, and prints its line: whether nothing is wrong.
fn show<R: Print + Eprint>(rt: &R, alloc: Global, row: Row) -> Result<bool> {
    let mut series = begun(alloc, row)?;
    let Ended {
        lives,
        jobs,
        failed,
        devices,
        rounds,
        stuck,
        lost,
    } = play(rt, &mut series)?;
    let name = row.plan.name();
    let dies = row.shape.dies;
    let spare = row.shape.spare;
    println!(rt;
        "{name}: dies {dies} spare {spare} lives {lives} jobs {jobs} failed {failed} devices {devices} rounds {rounds} stuck {stuck} lost {lost}"
    )?;
    Ok(stuck == 0 && lost == 0)
}

/// Plays a plan in which jobs fail on so many dies, with each number of spare blocks: whether nothing is wrong.
fn show_spares<R: Print + Eprint>(
    rt: &R,
    alloc: Global,
    plan: Plan,
    dies: u8,
    lives: u32,
) -> Result<bool> {
    let mut is_good = true;
    for spare in spares(dies) {
        let shape = Shape::of_dies(dies, spare);
        is_good &= show(rt, alloc, Row { plan, shape, lives })?;
    }
    Ok(is_good)
}

/// Plays a plan in which jobs fail, so many lives in each row or one row of few: whether nothing is wrong.
fn show_failing<R: Print + Eprint>(
    rt: &R,
    alloc: Global,
    plan: Plan,
    lives: Option<u32>,
) -> Result<bool> {
    let Some(lives) = lives else {
        let shape = Shape::of_dies(1, FEW_SPARE);
        let lives = FEW_FAILING;
        return show(rt, alloc, Row { plan, shape, lives });
    };
    let mut is_good = true;
    for dies in DIES {
        is_good &= show_spares(rt, alloc, plan, dies, lives)?;
    }
    Ok(is_good)
}

/// Plays a plan in which no job fails on each number of dies, so many lives or few: whether nothing is wrong.
fn show_plan<R: Print + Eprint>(
    rt: &R,
    alloc: Global,
    plan: Plan,
    lives: Option<u32>,
) -> Result<bool> {
    let mut is_good = true;
    for dies in DIES {
        let row = Row {
            plan,
            shape: Shape::of_dies(dies, 0),
            lives: lives.unwrap_or(few(dies)),
        };
        is_good &= show(rt, alloc, row)?;
    }
    Ok(is_good)
}

/// Plays all rows.
fn show_all<R: Print + Eprint>(rt: &R, alloc: Global, lives: Option<u32>) -> Result<()> {
    let mut is_good = true;
    for plan in PLANS {
        is_good &= if plan.has_failures() {
            show_failing(rt, alloc, plan, lives)?
        } else {
            show_plan(rt, alloc, plan, lives)?
        };
    }
    ensure!(is_good, "a device was stuck, or lost a block");
    Ok(())
}

/// The plan of this name.
fn plan_named(name: &str) -> Result<Plan> {
    for plan in PLANS {
        if plan.name() == name {
            return Ok(plan);
        }
    }
    bail!("there is no such plan")
}

/// Devices with as many dies and spare blocks as these words say, and as few blocks as they may have.
fn smallest(dies: &str, spare: &str) -> Result<Shape> {
    Ok(Shape::of_dies(dies.parse::<u8>()?, spare.parse::<u16>()?))
}

/// Devices with as many dies, spare blocks and blocks of a die as these words say.
fn sized(dies: &str, spare: &str, blocks: &str) -> Result<Shape> {
    let blocks = blocks.parse::<u16>()?;
    Ok(Shape::of_blocks(dies.parse::<u8>()?, blocks, spare.parse::<u16>()?))
}

/// Plays one row.
fn show_row<R: Print + Eprint>(
    rt: &R,
    alloc: Global,
    name: &str,
    lives: &str,
    shape: Shape,
) -> Result<()> {
    let row = Row {
        plan: plan_named(name)?,
        shape,
        lives: lives.parse::<u32>()?,
    };
    ensure!(show(rt, alloc, row)?, "a device was stuck, or lost a block");
    Ok(())
}

fn main(rt: HostRuntime) -> Result<()> {
    let words: Vec<String> = env::args(&rt)?.collect(rt.alloc())?;
    match words.as_slice() {
        [_] => show_all(&rt, rt.alloc(), None),
        [_, word] if word.as_str() == "all" => show_all(&rt, rt.alloc(), Some(ALL)),
        [_, plan, dies, lives] => show_row(
            &rt,
            rt.alloc(),
            plan.as_str(),
            lives.as_str(),
            smallest(dies.as_str(), "0")?,
        ),
        [_, plan, dies, lives, spare] => show_row(
            &rt,
            rt.alloc(),
            plan.as_str(),
            lives.as_str(),
            smallest(dies.as_str(), spare.as_str())?,
        ),
        [_, plan, dies, lives, spare, blocks] => show_row(
            &rt,
            rt.alloc(),
            plan.as_str(),
            lives.as_str(),
            sized(dies.as_str(), spare.as_str(), blocks.as_str())?,
        ),
        _ => bail!("usage: power_cycles [all | PLAN DIES LIVES [SPARE [BLOCKS]]]"),
    }
}
