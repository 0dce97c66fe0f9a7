//! Times each of the five calls by itself on a small device and on a large one, in the same states.
//! What is asked of both is the same, so that their ratio shows what grows with a device.
mod timed;

use crate::clock::percent;
use crate::sizes::timed::{Call, NAMES, Samples, Shape, Spread, Timed, open};
use anyhow::Result;
use std::alloc::Global;
use std::rt::Clock;

/// The two devices take turns so often, with so many cycles each. The first times do not count.
const TURNS: u8 = 12;

const FIRST: u8 = 2;

const CYCLES: u8 = 16;

/// The devices. A block of both has 16 pages, since a collection looks at each page of its victim.
/// The unit is the greatest that each may have.
const SMALL: Shape = Shape {
    dies: 4,
    blocks: 64,
    slots: 64,
    chunks: 104,
};

const LARGE: Shape = Shape {
    dies: 8,
    blocks: 1024,
    slots: 1024,
    chunks: 3944,
};

/// In which state a device is when its calls are timed.
#[derive(Clone, Copy)]
enum Scene {
    /// One task is open.
    Alone,
    /// 31 other READs of 32 blocks are open, and wait for a die that does no job.
    Beside,
    /// Before each program as many pages wait as the slots allow, less 32.
    Waiting,
    /// As many pages are programmed behind one that is in flight: none is durable.
    Behind,
}

/// What comes before all cycles: the unit is written, and blocks again until one is collected.
fn prepare<R: Clock>(rt: &R, timed: &mut Timed, shape: Shape, scene: Scene) -> Result<()> {
    timed.fill()?;
    for _ in 0..1024u16 {
        if timed.begun == 0 {
            cycles(rt, timed)?;
        }
    }
    match scene {
        Scene::Alone | Scene::Behind => Ok(()),
        Scene::Beside => timed.open_others(),
        Scene::Waiting => {
            timed.wanted = shape.slots.saturating_sub(32);
            timed.fill_slots()
        }
    }
}

/// Some cycles.
fn cycles<R: Clock>(rt: &R, timed: &mut Timed) -> Result<()> {
    for number in 0..CYCLES {
        timed.cycle(rt, number)?;
    }
    Ok(())
}

/// Some cycles in the state that is timed.
fn play<R: Clock>(rt: &R, timed: &mut Timed, scene: Scene, turn: u8) -> Result<()> {
    if matches!(scene, Scene::Behind) {
        timed.hold_page()?;
    }
    timed.notes = turn >= FIRST;
    cycles(rt, timed)?;
    timed.notes = false;
    timed.release_page()
}

/// Prints what a call took on both devices, and the ratio of the medians.
fn tell_call<R: Eprint>(rt: &R, name: &str, small: Spread, large: Spread) -> Result<()> {
    let one = small.median;
    let least = small.least;
    let greatest = small.greatest;
    let other = large.median;
    let from = large.least;
    let to = large.greatest;
    let ratio = percent(other, one);
    eprintln!(rt; "  {name}: {one} ({least} to {greatest}); {other} ({from} to {to}); {ratio} %")?;
    Ok(())
}

/// Prints what each call took.
fn tell<R: Eprint>(rt: &R, small: &mut Samples, large: &mut Samples) -> Result<()> {
    let spread = small.spread(Call::NoCall as usize, 0);
    let clock = spread.map(|it| it.median).unwrap_or(0);
    for (place, name) in NAMES.iter().enumerate() {
        if let (Some(one), Some(other)) = (small.spread(place, clock), large.spread(place, clock)) {
            tell_call(rt, name, one, other)?;
        }
    }
    Ok(())
}

/// All cycles: the devices take turns, since the speed of a machine changes within a run.
fn time_both<R: Clock + Eprint>(
    rt: &R,
    small: &mut Timed,
    large: &mut Timed,
    scene: Scene,
) -> Result<()> {
    prepare(rt, small, SMALL, scene)?;
    prepare(rt, large, LARGE, scene)?;
    for turn in 0..TURNS {
        play(rt, small, scene, turn)?;
        play(rt, large, scene, turn)?;
    }
    tell(rt, &mut small.samples, &mut large.samples)
}

/// The same, with a large device that is opened for it.
fn time_large<R: Clock + Eprint>(
    rt: &R,
    alloc: Global,
    small: &mut Timed,
    scene: Scene,
) -> Result<()> {
    let samples = Samples::new(alloc)?;
    let mut large = open(alloc, LARGE, samples)?;
    time_both(rt, small, &mut large, scene)
}

/// The same, with both opened for it, and under a name.
fn time_scene<R: Clock + Eprint>(rt: &R, alloc: Global, scene: Scene, name: &str) -> Result<()> {
    eprintln!(rt; "{name}, in ns on the small device; on the large one; in percent of the small:")?;
    let samples = Samples::new(alloc)?;
    let mut small = open(alloc, SMALL, samples)?;
    time_large(rt, alloc, &mut small, scene)
}

/// Times the calls in each situation.
pub fn time_sizes<R: Clock + Eprint>(rt: &R, alloc: Global) -> Result<()> {
    time_scene(rt, alloc, Scene::Alone, "one task")?;
    time_scene(rt, alloc, Scene::Beside, "beside 31 READs of 32 blocks")?;
    let waiting = "as many pages wait as slots less 32";
    time_scene(rt, alloc, Scene::Waiting, waiting)?;
    let behind = "as many pages are programmed behind one in flight";
    time_scene(rt, alloc, Scene::Behind, behind)
}
