//! A device of two new dies that tests share.
ghost use Rattle.std.specs.Prelude.{◌≡◌, None, map, replicate};
ghost use Rattle.std.specs.List.{All};
ghost use Rattle.ufs_spec.specs.Dies.{new_die};

use device::Device;
use geometry::Config;
use lanes::{Keeper, Lane, Port, Shared};
use nand_model::{Die, MemDie};
use std::alloc::Global;
use std::process::Abort;
use ufs_spec::UnitSpec;

/// Two dies of 16 blocks of 64 pages, with a unit of 64 blocks.
pub(crate) fn two_dies_config(rt: &impl Abort) -> Config
    ensures { (result.dies ≡ 2) × (result.blocks ≡ 16) × (result.pages ≡ 64) }
{
    let units = [UnitSpec {
        blocks: 64,
        boot: 0,
        protect: 0,
    }];
    Config::new(2, 16, 64, &units, [1, 0, 0, 0], 64, 4).expect(rt, "a configuration")
}

/// Two new dies that fit it.
pub(crate) fn two_dies(rt: &impl Abort, alloc: Global) -> Vec<MemDie>
    ensures { result.items ≡ replicate 2 (new_die 16 64) }
{
    let mut dies = Vec::with_capacity(alloc, 2).expect(rt, "memory");
    dies.push_reserved(MemDie::new(alloc, 16, 64).expect(rt, "memory"));
    dies.push_reserved(MemDie::new(alloc, 16, 64).expect(rt, "memory"));
    dies
}

/// A device over two new dies of 16 blocks of 64 pages, shared with so many hosts.
pub(crate) fn shared_over<D: Die + Drop>(
    rt: &impl Abort,
    alloc: Global,
    mut dies: Vec<D>,
    hosts: u8,
) -> Shared<D>
    requires { map D.state dies.items ≡ replicate 2 (new_die 16 64) }
    ensures lanes { All (λ l. l.ended ≡ None) result.lanes.items }
    ensures ports { All (λ p. p.table ≡ result.keeper.table) result.ports.items }
{
    let config = two_dies_config(rt);
    let device = Device::open(alloc, config, dies.as_mut_slice()).expect(rt, "the dies are opened");
    let Ok(shared) = Shared::new(alloc, device, dies, hosts) else {
        panic!(rt; "memory")
    };
    shared
}

/// The last of these lanes.
fn last_lane<D: Die>(rt: &impl Abort, lanes: &mut Vec<Lane<D>>) -> Lane<D>
    requires { All (λ l. l.ended ≡ None) lanes.old.items }
    ensures lane { result.ended ≡ None }
    ensures rest { All (λ l. l.ended ≡ None) lanes.new.items }
{
    lanes.pop().expect(rt, "a lane for each die")
}

/// The last of these ports, all of which are at the keeper's table.
pub(crate) fn last_port<D: Die>(
    rt: &impl Abort,
    ports: &mut Vec<Port<D>>,
    keeper: &Keeper<D>,
) -> Port<D>
    requires { All (λ p. p.table ≡ keeper.now.table) ports.old.items }
    ensures port { result.table ≡ keeper.now.table }
    ensures rest { All (λ p. p.table ≡ keeper.now.table) ports.new.items }
{
    ports.pop().expect(rt, "a port for each host")
}

/// All who work at a device of two dies for one host.
#[derive(Drop)]
pub(crate) struct Crew<D: Die> {
    pub(crate) port: Port<D>,
    pub(crate) keeper: Keeper<D>,
    /// The lanes of dies 0 and 1.
    pub(crate) first: Lane<D>,
    pub(crate) second: Lane<D>,
}

/// The crew of the last host of a shared device.
pub(crate) fn crew_of<D: Die + Drop>(rt: &impl Abort, shared: Shared<D>) -> Crew<D>
    requires lanes { All (λ l. l.ended ≡ None) shared.lanes.items }
    requires ports { All (λ p. p.table ≡ shared.keeper.table) shared.ports.items }
    ensures lanes { (result.first.ended ≡ None) × (result.second.ended ≡ None) }
    ensures table { (result.keeper ≡ shared.keeper) × (result.port.table ≡ shared.keeper.table) }
{
    let Shared {
        mut ports,
        mut lanes,
        keeper,
    } = shared;
    Crew {
        port: last_port(rt, &mut ports, &keeper),
        keeper,
        first: last_lane(rt, &mut lanes),
        second: last_lane(rt, &mut lanes),
    }
}

/// The crew of a device over these two new dies, which has one host.
pub(crate) fn crew_over<D: Die + Drop>(rt: &impl Abort, alloc: Global, dies: Vec<D>) -> Crew<D>
    requires { map D.state dies.items ≡ replicate 2 (new_die 16 64) }
    ensures { (result.first.ended ≡ None) × (result.second.ended ≡ None) }
{
    crew_of(rt, shared_over(rt, alloc, dies, 1))
}
