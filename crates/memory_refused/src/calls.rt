//! The calls that borrow their dies. Each function makes one call, makes it again where memory was refused to
//! it, and sees that the answer is right.
use crate::dies::{BLOCKS, PAGES, Written, dies_of, hold, holds};
use crate::fault::{Fault, expect};
use device::Device;
use geometry::Config;
use lanes::open_parallel;
use nand_model::MemDie;
use recovery::{Found, fit, scan, scan_parallel};
use std::alloc::Global;
use std::thread::Threads;
use ufs_spec::{OpenFault, Upiu};
use workbench::{Workbench, small_config};

/// A new die.
pub fn new_die(alloc: Global) -> Result<(), Fault> {
    let config = small_config()?;
    let die = match MemDie::new(alloc, BLOCKS, PAGES) {
        Ok(die) => die,
        Err(_) => MemDie::new(alloc, BLOCKS, PAGES)?,
    };
    expect(holds(&die, 0, &config, Written::New), "the die is not new")
}

/// Who reads the dies: the caller, or so many workers.
#[derive(Clone, Copy)]
pub enum Readers {
    Caller,
    Workers(usize),
}

/// What the dies stand for, if they fit.
fn scanned<R: Threads + Sync>(
    rt: &R,
    alloc: Global,
    config: &Config,
    dies: &mut [MemDie],
    readers: Readers,
) -> Result<Found, OpenFault> {
    if !fit(config, dies) {
        return Err(OpenFault::OtherConfig);
    }
    match readers {
        Readers::Caller => scan(alloc, dies, config),
        Readers::Workers(workers) => scan_parallel(rt, alloc, dies, config, workers),
    }
}

/// The 7 groups before the gap are kept, and the key of the one behind it is lost.
fn is_right(found: &Result<Found, OpenFault>) -> bool {
    match found {
        Ok(found) => found.kept == 7 && found.greatest_seen == 9 && found.lost.len() == 1,
        Err(_) => false,
    }
}

/// A scan, which leaves the dies to its caller.
pub fn scan_dies<R: Threads + Sync>(rt: &R, alloc: Global, readers: Readers) -> Result<(), Fault> {
    let config = small_config()?;
    let mut dies = dies_of(alloc, &config, Written::Gap)?;
    scan_again(rt, alloc, &config, dies.as_mut_slice(), readers)
}

/// A scan of these dies, again if memory was refused to it.
fn scan_again<R: Threads + Sync>(
    rt: &R,
    alloc: Global,
    config: &Config,
    dies: &mut [MemDie],
    readers: Readers,
) -> Result<(), Fault> {
    let first = scanned(rt, alloc, config, dies, readers);
    if !hold(dies, config, Written::Gap) {
        return Err(Fault::Wrong("a page of a die is another"));
    }
    if is_no_memory(&first) {
        let second = scanned(rt, alloc, config, dies, readers);
        return expect(is_right(&second), "another thing is found");
    }
    expect(is_right(&first), "another thing is found")
}

/// Whether memory was refused.
fn is_no_memory<T>(answer: &Result<T, OpenFault>) -> bool {
    matches!(answer, Err(OpenFault::NoMemory))
}

/// A device over the dies, if they fit.
fn opened<R: Threads + Sync>(
    rt: &R,
    alloc: Global,
    dies: &mut [MemDie],
    readers: Readers,
) -> Result<Device, OpenFault> {
    let Ok(config) = small_config() else {
        return Err(OpenFault::OtherConfig);
    };
    if !fit(&config, dies) {
        return Err(OpenFault::OtherConfig);
    }
    match readers {
        Readers::Caller => Device::open(alloc, config, dies),
        Readers::Workers(workers) => open_parallel(rt, alloc, config, dies, workers),
    }
}

/// A device over the dies; if memory was refused to the first opening, which left them as they were, that of
/// the second. `None` where something is wrong.
fn opened_at_last<R: Threads + Sync>(
    rt: &R,
    alloc: Global,
    config: &Config,
    dies: &mut [MemDie],
    readers: Readers,
) -> Option<Device> {
    let first = opened(rt, alloc, dies, readers);
    if !hold(dies, config, Written::Gap) {
        return None;
    }
    match first {
        Err(OpenFault::NoMemory) => opened(rt, alloc, dies, readers).ok(),
        first => first.ok(),
    }
}

/// The opening of a device, which leaves the dies to its caller. The device is mended, and gives a block.
pub fn open_device<R: Threads + Sync>(
    rt: &R,
    alloc: Global,
    readers: Readers,
) -> Result<(), Fault> {
    let config = small_config()?;
    let mut dies = dies_of(alloc, &config, Written::Gap)?;
    let Some(device) = opened_at_last(rt, alloc, &config, dies.as_mut_slice(), readers) else {
        return Err(Fault::Wrong("the device is not opened, or the dies are changed"));
    };
    expect(is_mended(alloc, device, dies), "the device is not mended")
}

/// The device behind a pointer. Where memory is refused for it, it is asked for once more.
fn behind_a_pointer(alloc: Global, device: Device) -> Option<Box<Device>> {
    match Box::new(alloc, device) {
        Ok(device) => Some(device),
        Err(refused) => Box::new(alloc, refused.value).ok(),
    }
}

/// Whether a device over these dies is mended, and gives a block.
fn is_mended(alloc: Global, device: Device, dies: Vec<MemDie>) -> bool {
    let Some(device) = behind_a_pointer(alloc, device) else {
        return false;
    };
    let mut bench = Workbench {
        device,
        dies,
        reply: Upiu::new(),
    };
    bench.settle(8, 2);
    bench.reads(3, 0x5A)
}

/// A device over what a scan of the dies found. What is refused to the scan is refused before the
/// call.
fn device_found<R: Threads + Sync>(
    rt: &R,
    alloc: Global,
    dies: &mut [MemDie],
) -> Result<Result<Device, OpenFault>, Fault> {
    let config = small_config()?;
    let Ok(found) = scanned(rt, alloc, &config, dies, Readers::Caller) else {
        return Err(Fault::Before);
    };
    Ok(Device::from_found(alloc, config, found))
}

/// The opening of a device over what was found, which is given up where memory is refused to it.
pub fn open_found<R: Threads + Sync>(rt: &R, alloc: Global) -> Result<(), Fault> {
    let config = small_config()?;
    let mut dies = dies_of(alloc, &config, Written::Gap)?;
    match device_found(rt, alloc, dies.as_mut_slice())? {
        Ok(device) => expect(is_mended(alloc, device, dies), "the device is not mended"),
        Err(OpenFault::NoMemory) => open_found_again(rt, alloc, dies),
        Err(_) => Err(Fault::Wrong("another fault is told")),
    }
}

/// The same, over what another scan finds, after memory was refused.
fn open_found_again<R: Threads + Sync>(
    rt: &R,
    alloc: Global,
    mut dies: Vec<MemDie>,
) -> Result<(), Fault> {
    match device_found(rt, alloc, dies.as_mut_slice())? {
        Ok(device) => expect(is_mended(alloc, device, dies), "the device is not mended"),
        Err(_) => Err(Fault::Wrong("the second call is refused")),
    }
}
