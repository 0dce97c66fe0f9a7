//! The keys of the replay protected memory block that dies hold (JESD220, 12.4). No message tells
//! them.
ghost use Rattle.std.specs.Prelude.{◌≡◌, map};

use crate::fault::Word;
use crate::stopped::copied_dies;
use geometry::Config;
use nand_model::MemDie;
use recovery::{fit, scan};
use std::alloc::Global;
use ufs_spec::{KeyAndCounter, OpenFault};

/// The keys of the regions, by their numbers, so far as they are set.
pub(crate) type Keys = [Option<[u8; 32]>; 4];

/// No region has a key.
const NO_KEYS: Keys = [None; 4];

/// The keys that a device over these dies has; none where no device opens over them. They are read
/// as a device reads them when it is opened.
pub(crate) fn keys_on(alloc: Global, config: &Config, dies: &[MemDie]) -> Result<Keys, Word> {
    let mut copies = copied_dies(alloc, dies)?;
    if !fit(config, copies.as_slice()) {
        return Ok(NO_KEYS);
    }
    match scan(alloc, copies.as_mut_slice(), config) {
        Ok(found) => Ok(keys_in(&found.settings.regions)),
        Err(OpenFault::NoMemory) => Err(Word::Memory),
        Err(_) => Ok(NO_KEYS),
    }
}

// The keys among what settings say of the regions.
fn keys_in(regions: &[KeyAndCounter; 4]) -> Keys
    ensures { result ≡ map (λ region. region.key) regions.now }
{
    regions.map(|region| region.key)
}
