//! A run of all threads, and its line.
ghost use Rattle.std.specs.Prelude.{◌≡◌, ◌≤◌};

use crate::crew::Crew;
use crate::fault::StressFault;
use crate::line::line_of;
use crate::opened::new_shared;
use std::alloc::Global;
use std::io::Write;
use std::sync::Wait;
use std::thread::Threads;
use std::time::Clock;

/// How many blocks each host writes.
const WRITES: u64 = 256;

/// Runs a device over so many new dies for so many hosts: a thread for each die, one for the keeper, and
/// one for each host, which writes 256 blocks with FUA to addresses of its own, and reads each of them
/// back. Before or after each second write the host begins one more WRITE or READ and aborts it: a reply of
/// an aborted task is as bad as a block that is lost. It writes the line `stress dies D hosts H writes W bad B` to `out`, or the one line of a fault
/// to `faults`. The status is 0 if no write was bad, else 1.
pub fn stress_text<R: Threads + Wait + Clock + Clone + Send + 'static, W: Write, F: Write>(
    rt: &R,
    alloc: Global,
    dies: u8,
    hosts: u8,
    out: &mut W,
    faults: &mut F,
) -> u8
    ensures status { result ≤ 1 }
    ensures quiet { result ≡ 0 → faults.new ≡ faults.old }
{
    match tell(rt, alloc, dies, hosts, out) {
        Ok(0) => 0,
        Ok(_) => 1,
        Err(fault) => {
            // Where the fault itself cannot be told, the status alone tells it.
            let _ = writeln!(faults, "ufsim: {fault}");
            1
        }
    }
}

/// Runs, and writes the line: how many writes were bad.
fn tell<R: Threads + Wait + Clock + Clone + Send + 'static, W: Write>(
    rt: &R,
    alloc: Global,
    dies: u8,
    hosts: u8,
    out: &mut W,
) -> Result<u64, StressFault> {
    let bad = run(rt, alloc, dies, hosts)?;
    let line = line_of(alloc, dies, hosts, WRITES * u64::from(hosts), bad)?;
    out.write_all(line.as_bytes())?;
    out.flush()?;
    Ok(bad)
}

/// How many writes were bad.
fn run<R: Threads + Wait + Clock + Clone + Send + 'static>(
    rt: &R,
    alloc: Global,
    dies: u8,
    hosts: u8,
) -> Result<u64, StressFault> {
    let mut crew = Crew::new(alloc, dies as usize, hosts as usize)?;
    let started = match new_shared(alloc, dies, hosts) {
        Ok(shared) => crew.start(rt, shared),
        Err(fault) => Err(fault),
    };
    if started.is_ok() {
        crew.watch(rt, WRITES * u64::from(hosts));
    }
    let bad = crew.end(rt);
    started?;
    bad
}
