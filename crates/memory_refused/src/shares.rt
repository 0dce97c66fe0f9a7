//! A device that threads share.
ghost use Rattle.std.specs.Prelude.{◌≡◌};

use crate::dies::{Written, hold, new_dies};
use crate::fault::{Fault, expect};
use device::Device;
use lanes::{Refused, Shared};
use nand_model::MemDie;
use std::alloc::Global;
use workbench::small_config;

/// A device over two new dies, shared by two hosts.
fn shared(alloc: Global) -> Result<Result<Shared<MemDie>, Refused<MemDie>>, Fault> {
    let config = small_config()?;
    let mut dies = new_dies(alloc)?;
    let Ok(device) = Device::open(alloc, config, dies.as_mut_slice()) else {
        return Err(Fault::Before);
    };
    Ok(Shared::new(alloc, device, dies, 2))
}

/// Whether two ports and two lanes are dealt.
fn is_dealt(shared: &Shared<MemDie>) -> bool {
    shared.ports.len() == 2 && shared.lanes.len() == 2
}

/// The sharing of a device. Where memory is refused to it the dies come back, and are new still.
pub fn share_device(alloc: Global) -> Result<(), Fault> {
    match shared(alloc)? {
        Ok(shared) => expect(is_dealt(&shared), "other callers are dealt"),
        Err(Refused { dies }) => share_again(alloc, dies.as_slice()),
    }
}

/// The same, after memory was refused and these dies came back.
fn share_again(alloc: Global, dies: &[MemDie]) -> Result<(), Fault> {
    let config = small_config()?;
    if !hold(dies, &config, Written::New) {
        return Err(Fault::Wrong("other dies come back"));
    }
    match shared(alloc)? {
        Ok(shared) => expect(is_dealt(&shared), "other callers are dealt"),
        Err(_) => Err(Fault::Wrong("the second call is refused")),
    }
}
