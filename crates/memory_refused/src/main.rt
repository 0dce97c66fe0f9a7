//! What a device makes of refused memory. With no words the program plays a worked row by the device's five
//! calls, which take no memory.
//!
//! With the word `refused` it makes each call that takes memory, and prints a line for each, that the call
//! answers rightly. Where memory is refused to a call, the call has to say so; it is made again, over dies that
//! are as they were where they are still the caller's, and has to answer rightly then. So the lines are the same
//! whichever one allocation of a call is refused. Where one before the call is refused, the program ends with
//! status 1. The words `refused CALL` name one call.
//!
//! With a number behind the words, as `row COUNT` or `refused CALL COUNT`, the program takes memory
//! so many times before all else. At its end it takes memory until it is refused, and tells on
//! standard error how often it was given; for `opened COUNT` it plays the row, and tells this as
//! soon as the device is open. So the tool that refuses one allocation by its number sees how many
//! the program makes, and has each of them refused.
#![tactic(auto)]

mod calls;
mod dies;
mod events;
mod fault;
mod five_calls;
mod handles;
mod shares;
mod worlds;

use crate::calls::{Readers, new_die, open_device, open_found, scan_dies};
use crate::fault::Fault;
use crate::five_calls::{open, play};
use crate::handles::stop_handle;
use crate::shares::share_device;
use crate::worlds::{new_world, run_events, stop_world};
use anyhow::{Result, bail};
use std::alloc::{AllocError, Global};
use std::thread::Threads;
use std::{env, io};

/// The names of the calls, in the order in which the program goes through them.
const CALLS: [&str; 11] = [
    "MemDie::new",
    "scan",
    "scan_parallel",
    "Device::from_found",
    "Device::open",
    "open_parallel",
    "Shared::new",
    "World::new",
    "World::step",
    "run",
    "Handle::stop",
];

/// So often is memory taken at most to see when it is refused.
const MOST: u16 = 4096;

/// Takes memory so many times, and gives it back.
fn take_memory(alloc: Global, count: u16) -> Result<(), AllocError> {
    for _ in 0..count {
        let _bytes: Vec<u8> = Vec::with_capacity(alloc, 1)?;
    }
    Ok(())
}

/// How often memory is given until it is refused; `None` where it is not.
fn left(alloc: Global) -> Option<u16> {
    for given in 0..MOST {
        if take_memory(alloc, 1).is_err() {
            return Some(given);
        }
    }
    None
}

/// Tells how often memory is given until it is refused, if it is.
fn tell_left<R: Eprint>(rt: &R, alloc: Global) -> Result<()> {
    if let Some(given) = left(alloc) {
        eprintln!(rt; "left {given}")?;
    }
    Ok(())
}

/// Makes the call of this name.
fn make<R: Threads + Sync>(rt: &R, alloc: Global, name: &str) -> Result<(), Fault> {
    match name {
        "MemDie::new" => new_die(alloc),
        "scan" => scan_dies(rt, alloc, Readers::Caller),
        "scan_parallel" => scan_dies(rt, alloc, Readers::Workers(2)),
        "Device::from_found" => open_found(rt, alloc),
        "Device::open" => open_device(rt, alloc, Readers::Caller),
        "open_parallel" => open_device(rt, alloc, Readers::Workers(2)),
        "Shared::new" => share_device(alloc),
        "World::new" => new_world(alloc),
        "World::step" => stop_world(alloc),
        "run" => run_events(alloc),
        "Handle::stop" => stop_handle(alloc),
        _ => Err(Fault::Wrong("there is no such call")),
    }
}

/// Makes the call, and prints what became of it.
fn show<R: Threads + Sync + Print>(rt: &R, alloc: Global, name: &str) -> Result<()> {
    match make(rt, alloc, name) {
        Ok(()) => println!(rt; "{name}: right")?,
        Err(Fault::Wrong(what)) => println!(rt; "{name}: wrong: {what}")?,
        Err(Fault::Before) => bail!("no memory before the call"),
    }
    Ok(())
}

/// Makes all calls, one after another.
fn show_all<R: Threads + Sync + Print>(rt: &R, alloc: Global) -> Result<()> {
    for name in CALLS {
        show(rt, alloc, name)?;
    }
    Ok(())
}

/// Plays the row, and tells how often memory is given until it is refused: once the device is open,
/// or at the end.
fn play_row<R: Print + Eprint>(rt: &R, alloc: Global, is_told_early: bool) -> Result<()> {
    let mut bench = open(alloc)?;
    if is_told_early {
        tell_left(rt, alloc)?;
    }
    play(&mut bench, &mut io::writer(rt))?;
    tell_left(rt, alloc)
}

fn main(rt: HostRuntime) -> Result<()> {
    let words: Vec<String> = env::args(&rt)?.collect(rt.alloc())?;
    match words.as_slice() {
        [_] => play_row(&rt, rt.alloc(), false),
        [_, word] if word.as_str() == "refused" => show_all(&rt, rt.alloc()),
        [_, word, count] if word.as_str() == "row" || word.as_str() == "opened" => {
            take_memory(rt.alloc(), count.parse::<u16>()?)?;
            play_row(&rt, rt.alloc(), word.as_str() == "opened")
        }
        [_, word, name] if word.as_str() == "refused" => show(&rt, rt.alloc(), name),
        [_, word, name, count] if word.as_str() == "refused" => {
            take_memory(rt.alloc(), count.parse::<u16>()?)?;
            show(&rt, rt.alloc(), name)?;
            tell_left(&rt, rt.alloc())
        }
        _ => bail!("usage: memory_refused [row COUNT | opened COUNT | refused [CALL [COUNT]]]"),
    }
}
