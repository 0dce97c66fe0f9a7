//! A device behind a handle, which keeps its dies where memory is refused to a stop.
use crate::dies::{Written, dies_of, hold};
use crate::fault::{Fault, expect};
use std::alloc::Global;
use ufs_handle::{Fault as HandleFault, Handle};
use workbench::small_config;

/// A handle with a device over new dies on which groups stand.
fn handle_of_groups(alloc: Global) -> Result<Handle, Fault> {
    let config = small_config()?;
    let dies = dies_of(alloc, &config, Written::Groups)?;
    let mut handle = Handle::closed(alloc);
    match handle.open(alloc, config, dies) {
        Ok(()) => Ok(handle),
        Err(_) => Err(Fault::Before),
    }
}

/// A stop, which opens the device again. Where memory is refused to it the power is off, and the handle
/// keeps the dies.
pub fn stop_handle(alloc: Global) -> Result<(), Fault> {
    let mut handle = handle_of_groups(alloc)?;
    match handle.stop(alloc, &[]) {
        Some(Ok(())) => expect(
            handle.turn(alloc).is_some(),
            "the device is not open after the stop",
        ),
        Some(Err(HandleFault::NoMemory)) => stop_again(alloc, handle),
        _ => Err(Fault::Wrong("the stop is told otherwise")),
    }
}

/// The same, after memory was refused.
fn stop_again(alloc: Global, handle: Handle) -> Result<(), Fault> {
    let mut handle = handle;
    if handle.turn(alloc).is_some() {
        return Err(Fault::Wrong("a device without power is used"));
    }
    if !keeps_groups(alloc, &mut handle)? {
        return Err(Fault::Wrong("a page of a die is another"));
    }
    match handle.stop(alloc, &[]) {
        Some(Ok(())) => expect(
            handle.turn(alloc).is_some(),
            "the device is not open after the second stop",
        ),
        _ => Err(Fault::Wrong("the second call is refused")),
    }
}

/// Whether the handle holds dies on which the groups stand.
fn keeps_groups(alloc: Global, handle: &mut Handle) -> Result<bool, Fault> {
    let config = small_config()?;
    let Some(held) = handle.take(alloc) else {
        return Ok(false);
    };
    let is_kept = hold(held.dies(), &config, Written::Groups);
    handle.put(held);
    Ok(is_kept)
}
