//! A device of one to four dies and as many hosts. A thread of its own serves the lane of each die,
//! and each host has one too.
ghost use Rattle.std.specs.Prelude.{◌≡◌, ◌≤◌, IfOk, None, length, replicate};
ghost use Rattle.std.specs.List.{All};
ghost use Rattle.std.specs.Thread.{IsSync};
ghost use Rattle.ufs_spec.specs.Dies.{new_die};

use crate::clock::{a_second, percent, since};
use crate::threads::COUNT;
use crate::threads::hashes::hashed_a_second;
use crate::threads::host::{Host, OPEN, Round};
use anyhow::{Result, bail, ensure};
use device::Device;
use geometry::Config;
use lanes::{Keeper, Lane, Port, Shared};
use nand_model::MemDie;
use std::alloc::Global;
use std::rt::Clock;
use std::sync::Wait;
use std::sync::atomic::{AtomicBool, Ordering};
use std::thread;
use std::thread::Threads;
use std::time::Instant;
use ufs_spec::{ConfigFault, NoMemory, UnitSpec, Upiu};
use workbench::messages::block_out;

/// The dies' sizes.
const BLOCKS: u16 = 128;

const PAGES: u16 = 64;

/// So many dies with room for the blocks twice, and a slot for each block of the commands that four
/// hosts have open.
fn config(dies: u8) -> Result<Config, ConfigFault>
    ensures { IfOk result (λ c. (c.dies ≡ dies) × (c.blocks ≡ 128) × (c.pages ≡ 64)) }
{
    let units = [UnitSpec {
        blocks: COUNT,
        boot: 0,
        protect: 0,
    }];
    Config::new(dies, BLOCKS, PAGES, &units, [1, 0, 0, 0], 512, 4)
}

/// So many new dies.
fn new_dies(alloc: Global, dies: u8) -> Result<Vec<MemDie>, NoMemory>
    ensures { IfOk result (λ v. v.items ≡ replicate dies (new_die 128 64)) }
{
    let mut all = Vec::with_capacity(alloc, usize::from(dies))?;
    for _ in 0..dies {
        all.push(MemDie::new(alloc, BLOCKS, PAGES)?)
            .map_err(|_| NoMemory)?;
    }
    Ok(all)
}

/// A device over new dies, shared with as many hosts.
fn shared(alloc: Global, dies: u8) -> Result<Shared<MemDie>>
    ensures { IfOk result (λ s. All (λ l. l.ended ≡ None) s.lanes.items) }
{
    let hosts = dies;
    let config = config(dies)?;
    let mut dies = new_dies(alloc, dies)?;
    let device = Device::open(alloc, config, dies.as_mut_slice())?;
    let Ok(shared) = Shared::new(alloc, device, dies, hosts) else {
        bail!("no memory");
    };
    Ok(shared)
}

/// A host at each port.
fn hosts_at(alloc: Global, ports: Vec<Port<MemDie>>) -> Result<Vec<Host>> {
    let mut hosts = Vec::with_capacity(alloc, ports.len())?;
    let mut first = 0u8;
    for port in ports {
        hosts.push(Host {
            port,
            first,
            reply: Upiu::new(),
            out: block_out(0, 0, 0x5A),
        })?;
        first = first.saturating_add(OPEN);
    }
    Ok(hosts)
}

/// Each lane in a thread of its own, until the flag is set.
fn serve<R: Threads + Wait + Sync + Clock>(rt: &R, lanes: &mut [Lane<MemDie>], stop: &AtomicBool)
    requires { All (λ l. l.ended ≡ None) lanes.old }
{
    let threads = lanes.len();
    if threads == 0 {
        return;
    }
    let serve = |_: usize, lane: &mut Lane<MemDie>|
        requires { IsSync R.row × (lane.now.ended ≡ None) }
    { lane.serve(rt, stop) };
    thread::for_each_mut(rt, lanes, threads, &serve);
}

/// What a round takes by hosts each of which is in a thread of its own, in nanoseconds.
fn time_round<R: Threads + Wait + Sync + Clock>(
    rt: &R,
    hosts: &mut [Host],
    round: &Round,
) -> Result<u64> {
    let threads = hosts.len();
    ensure!(threads > 0, "there is no host");
    let works = |_: usize, host: &mut Host|
        requires { IsSync R.row }
    { host.works(rt, round) };
    let start = Instant::now(rt)?;
    thread::for_each_mut(rt, hosts, threads, &works);
    let passed = since(rt, start)?;
    ensure!(round.is_good(), "a command was not answered GOOD");
    Ok(passed)
}

/// What writes and reads took, in nanoseconds for all blocks.
#[derive(Clone, Copy)]
struct Times {
    writes: u64,
    reads: u64,
}

/// The hosts at work.
fn measure<R: Threads + Wait + Sync + Clock>(
    rt: &R,
    hosts: &mut [Host],
    keeper: &mut Keeper<MemDie>,
    stop: &AtomicBool,
) -> Result<Times> {
    let Some(host) = hosts.first_mut() else {
        bail!("there is no host");
    };
    ensure!(
        host.waits_until_ready(rt, stop, keeper),
        "the device does not become ready"
    );
    let writes = time_round(rt, hosts, &Round::of_writes())?;
    let reads = time_round(rt, hosts, &Round::of_reads())?;
    Ok(Times { writes, reads })
}

/// The hosts, and then the end of all lanes. `None` where something went wrong.
fn run_hosts<R: Threads + Wait + Sync + Clock>(
    rt: &R,
    hosts: &mut [Host],
    keeper: &mut Keeper<MemDie>,
    stop: &AtomicBool,
) -> Option<Times> {
    let times = measure(rt, hosts, keeper, stop);
    stop.store(true, Ordering::SeqCst);
    times.ok()
}

/// The lanes beside the hosts.
fn run<R: Threads + Wait + Sync + Clock>(
    rt: &R,
    lanes: &mut [Lane<MemDie>],
    hosts: &mut [Host],
    keeper: &mut Keeper<MemDie>,
) -> Option<Times>
    requires { All (λ l. l.ended ≡ None) lanes.old }
{
    let stop = AtomicBool::new(false);
    thread::join(
        rt,
        ||
            requires { IsSync R.row × All (λ l. l.ended ≡ None) lanes.now }
        { serve(rt, lanes, &stop) },
        ||
            requires { IsSync R.row }
        { run_hosts(rt, hosts, keeper, &stop) },
    )
    .1
}

/// Writes and reads of all blocks by so many lanes and hosts, and as many threads that hash alone.
pub fn time_lanes<R: Threads + Wait + Sync + Clock + Eprint>(
    rt: &R,
    alloc: Global,
    count: u8,
) -> Result<()> {
    let Shared {
        ports,
        mut lanes,
        mut keeper,
    } = shared(alloc, count)?;
    let mut hosts = hosts_at(alloc, ports)?;
    let before = hashed_a_second(rt, alloc, count)?;
    let Some(times) = run(rt, lanes.as_mut_slice(), hosts.as_mut_slice(), &mut keeper) else {
        bail!("a write or a read was not answered GOOD");
    };
    let after = hashed_a_second(rt, alloc, count)?;
    tell(rt, count, times, before / 2 + after / 2)
}

/// Prints them.
fn tell<R: Eprint>(rt: &R, count: u8, times: Times, hashed: u64) -> Result<()> {
    let written = a_second(times.writes, COUNT);
    let read = a_second(times.reads, COUNT);
    let written_percent = percent(written, hashed);
    let read_percent = percent(read, hashed);
    eprintln!(rt; "{count} lanes: {written} pages a second written, {read} read, {hashed} hashed")?;
    eprintln!(rt; "  written to hashed {written_percent} %, read to hashed {read_percent} %")?;
    Ok(())
}
