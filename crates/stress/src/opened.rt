//! A device over new dies, shared by hosts.
ghost use Rattle.std.specs.Prelude.{◌≡◌, IfOk, None, length, replicate};
ghost use Rattle.std.specs.List.{All};
ghost use Rattle.row_messages.specs.RowShape.{row_shape};
ghost use Rattle.ufs_spec.specs.Dies.{new_die};
ghost use Rattle.ufs_spec.specs.Plain.{shape_of_numbers};

use crate::fault::StressFault;
use device::Device;
use geometry::Config;
use lanes::Shared;
use nand_model::MemDie;
use std::alloc::Global;
use ufs_spec::{ConfigFault, NoMemory};
use workbench::row_config;

/// The configuration of the worked rows over so many dies. One die has twice as many blocks, so that the
/// units have room.
fn config_over(dies: u8) -> Result<Config, ConfigFault>
    ensures dies { IfOk result (λ c. c.dies ≡ dies) }
    ensures one { IfOk result (λ c. dies ≡ 1 → c.blocks ≡ 32) }
    ensures shape { IfOk result (λ c. shape_of_numbers c ≡ row_shape) }
{
    let config = row_config()?;
    let numbers = config.numbers();
    let blocks = if dies == 1 { 32 } else { numbers.blocks };
    Config::new(
        dies,
        blocks,
        numbers.pages,
        numbers.units.as_slice(),
        numbers.rpmb,
        numbers.slots,
        numbers.spare,
    )
}

/// New dies, as many and as large as the configuration says.
fn new_dies(alloc: Global, config: &Config) -> Result<Vec<MemDie>, NoMemory>
    ensures { IfOk result (λ v. v.items ≡
        replicate config.now.dies (new_die config.now.blocks config.now.pages)) }
{
    let numbers = config.numbers();
    let mut dies = Vec::with_capacity(alloc, numbers.dies as usize)?;
    for _ in 0..numbers.dies {
        let die = MemDie::new(alloc, numbers.blocks, numbers.pages)?;
        if dies.push(die).is_err() {
            return Err(NoMemory);
        }
    }
    Ok(dies)
}

/// A device over so many new dies, shared by so many hosts.
pub(crate) fn new_shared(alloc: Global, dies: u8, hosts: u8) -> Result<Shared<MemDie>, StressFault>
    ensures idle { IfOk result (λ s. All (λ l. l.ended ≡ None) s.lanes.items) }
    ensures lanes { IfOk result (λ s. length s.lanes.items ≡ dies) }
    ensures ports { IfOk result (λ s. length s.ports.items ≡ hosts) }
{
    let config = config_over(dies)?;
    let mut dies = new_dies(alloc, &config)?;
    let device = Device::open(alloc, config, dies.as_mut_slice())?;
    match Shared::new(alloc, device, dies, hosts) {
        Ok(shared) => Ok(shared),
        Err(_) => Err(StressFault::Memory),
    }
}
