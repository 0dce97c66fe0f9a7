//! The threads: one for each die, one for the keeper, and one for each host.
ghost use Rattle.std.specs.Prelude.{◌≡◌, ◌≤◌, None, length};
ghost use Rattle.std.specs.List.{All};

use crate::fault::StressFault;
use crate::host::Host;
use crate::shared::Common;
use lanes::{Keeper, Lane, Port, Shared};
use nand_model::MemDie;
use std::alloc::{AllocError, Global};
use std::sync::atomic::Ordering;
use std::sync::{Arc, Wait};
use std::thread;
use std::thread::{JoinHandle, Threads};
use std::time::{Clock, Duration};

/// So many milliseconds without a write that is done: then the device has come to a stand, as it does
/// when no page is free.
const PATIENCE: u32 = 10_000;

/// The threads that were started, and what they share beside the device.
#[derive(Drop)]
pub(crate) struct Crew {
    common: Arc<Common, Global>,
    servers: Vec<JoinHandle<()>>,
    hosts: Vec<JoinHandle<Result<u64, AllocError>>>,
}

/// What the thread of a die does.
fn serve_lane<R: Wait + Clock>(rt: &R, mut lane: Lane<MemDie>, common: Arc<Common, Global>)
    requires { lane.ended ≡ None }
{
    lane.serve(rt, &common.stop);
}

/// What the keeper's thread does.
fn serve_keeper<R: Wait + Clock>(rt: &R, mut keeper: Keeper<MemDie>, common: Arc<Common, Global>) {
    keeper.serve(rt, &common.stop);
}

/// What a host's thread does. Want of memory ends all threads.
fn serve_host<R: Wait + Clock>(
    rt: &R,
    mut host: Host,
    common: Arc<Common, Global>,
) -> Result<u64, AllocError> {
    let bad = host.run(rt);
    if bad.is_err() {
        common.stop.store(true, Ordering::SeqCst);
    }
    bad
}

impl Crew {
    /// No thread is started yet; there is room for a thread of so many dies and hosts.
    pub fn new(alloc: Global, dies: usize, hosts: usize) -> Result<Crew, AllocError> {
        let common = Arc::new(alloc, Common::new(alloc)?)?;
        Ok(Crew {
            common,
            servers: Vec::with_capacity(alloc, dies.saturating_add(1))?,
            hosts: Vec::with_capacity(alloc, hosts)?,
        })
    }

    /// Starts a thread for each die, one for the keeper, and one for each host.
    pub fn start<R: Threads + Wait + Clock + Clone + Send + 'static>(
        &mut self,
        rt: &R,
        shared: Shared<MemDie>,
    ) -> Result<(), StressFault>
        requires lanes { All (λ l. l.ended ≡ None) shared.lanes.items }
        requires ports { length shared.ports.items ≤ 255 }
    {
        let Shared {
            ports,
            lanes,
            keeper,
        } = shared;
        self.start_lanes(rt, lanes)?;
        self.start_keeper(rt, keeper)?;
        self.start_hosts(rt, ports)
    }

    // What a new thread owns: the runtime, and what it shares with the others.
    fn own<R: Threads + Wait + Clock + Clone + Send + 'static>(
        &self,
        rt: &R,
    ) -> Result<(R, Arc<Common, Global>), StressFault> {
        let own = rt.clone()?;
        Ok((own, Arc::try_clone(&self.common)?))
    }

    fn start_lanes<R: Threads + Wait + Clock + Clone + Send + 'static>(
        &mut self,
        rt: &R,
        mut lanes: Vec<Lane<MemDie>>,
    ) -> Result<(), StressFault>
        requires { All (λ l. l.ended ≡ None) lanes.items }
    {
        while let Some(lane) = lanes.pop() {
            self.start_lane(rt, lane)?;
        }
        Ok(())
    }

    fn start_lane<R: Threads + Wait + Clock + Clone + Send + 'static>(
        &mut self,
        rt: &R,
        lane: Lane<MemDie>,
    ) -> Result<(), StressFault>
        requires { lane.ended ≡ None }
    {
        let (own, common) = self.own(rt)?;
        match thread::spawn(rt, move || serve_lane(&own, lane, common)) {
            Ok(child) => Ok(self.servers.push(child)?),
            Err(_) => Err(StressFault::Thread),
        }
    }

    fn start_keeper<R: Threads + Wait + Clock + Clone + Send + 'static>(
        &mut self,
        rt: &R,
        keeper: Keeper<MemDie>,
    ) -> Result<(), StressFault> {
        let (own, common) = self.own(rt)?;
        match thread::spawn(rt, move || serve_keeper(&own, keeper, common)) {
            Ok(child) => Ok(self.servers.push(child)?),
            Err(_) => Err(StressFault::Thread),
        }
    }

    fn start_hosts<R: Threads + Wait + Clock + Clone + Send + 'static>(
        &mut self,
        rt: &R,
        mut ports: Vec<Port<MemDie>>,
    ) -> Result<(), StressFault>
        requires { length ports.items ≤ 255 }
    {
        while let Some(port) = ports.pop() {
            self.start_host(rt, port, ports.len() as u8)?;
        }
        Ok(())
    }

    fn start_host<R: Threads + Wait + Clock + Clone + Send + 'static>(
        &mut self,
        rt: &R,
        port: Port<MemDie>,
        number: u8,
    ) -> Result<(), StressFault> {
        let (own, common) = self.own(rt)?;
        let host = Host::new(port, number, Arc::try_clone(&self.common)?);
        match thread::spawn(rt, move || serve_host(&own, host, common)) {
            Ok(child) => Ok(self.hosts.push(child)?),
            Err(_) => Err(StressFault::Thread),
        }
    }

    /// Waits until so many writes are done, well or not. It gives up if none was for a while.
    pub fn watch<R: Wait + Clock>(&self, rt: &R, writes: u64) {
        let mut seen = 0u64;
        let mut idle = 0u32;
        for _ in rt.forever() {
            let done = self.common.done.load(Ordering::SeqCst);
            if done >= writes || idle >= PATIENCE || self.common.stop.load(Ordering::SeqCst) {
                return;
            }
            idle = if done == seen { idle + 1 } else { 0 };
            seen = done;
            thread::sleep(rt, Duration::from_millis(1));
        }
    }

    /// Ends all threads: how many writes were bad, and replies that nobody waited for or that came of
    /// aborted tasks.
    pub fn end<R: Threads + Wait>(mut self, rt: &R) -> Result<u64, StressFault> {
        self.common.stop.store(true, Ordering::SeqCst);
        let mut bad = Ok(0);
        while let Some(child) = self.hosts.pop() {
            bad = added(bad, child.join(rt));
        }
        while let Some(child) = self.servers.pop() {
            child.join(rt);
        }
        let left = self.common.drawn.lock(rt).left();
        Ok(added(bad, Ok(left))?)
    }
}

/// The sum, if both are there.
fn added(one: Result<u64, AllocError>, other: Result<u64, AllocError>) -> Result<u64, AllocError> {
    Ok(one?.saturating_add(other?))
}
