//! What two hosts and two dies do step by step: two ports that meet, and a die whose job takes long.
ghost use Rattle.std.specs.Prelude.{◌≡◌, None, Some};
ghost use Rattle.std.specs.Thread.{IsSync};
ghost use Rattle.lanes.specs.Callers.{job_of};

use crate::example::{ASKED, DATA_IN, DATA_OUT, HAS_READ, READ, WRITE, WRITTEN, with_block};
use crate::gate_die::{Gate, GateDie, two_gate_dies};
use crate::sharing::{Crew, crew_of, crew_over, last_port, shared_over, two_dies};
use lanes::{Lane, Port, Tried, meet};
use nand_model::Die;
use std::process::Abort;
use std::sync::Wait;
use std::sync::atomic::{AtomicBool, Ordering};
use std::thread;
use std::thread::Threads;
use std::time::Clock;
use ufs_spec::{Job, Upiu};

/// The next job of the die, if one is due.
pub(crate) fn one_job<R: Wait + Clock, D: Die>(rt: &R, lane: &mut Lane<D>)
    requires { lane.old.ended ≡ None }
    ensures { lane.new.ended ≡ None }
{
    if let Tried::Did(Some(job)) = lane.try_take() {
        lane.finish(rt, &job);
    }
}

/// The keeper's steps and both dies' jobs, in sixteen rounds.
pub(crate) fn settle<R: Wait + Clock, D: Die>(rt: &R, crew: &mut Crew<D>)
    requires { (crew.old.first.ended ≡ None) × (crew.old.second.ended ≡ None) }
    ensures lanes { (crew.new.first.ended ≡ None) × (crew.new.second.ended ≡ None) }
    ensures port { crew.new.port ≡ crew.old.port }
{
    for _ in 0..16u8 {
        crew.keeper.try_turn();
        one_job(rt, &mut crew.second);
        one_job(rt, &mut crew.first);
    }
}

/// Whether the device takes the message.
pub(crate) fn sends<D: Die>(port: &mut Port<D>, message: &[u8]) -> bool
    ensures { port.new.table ≡ port.old.table }
{
    matches!(port.try_host(message), Tried::Did(Ok(_)))
}

/// Whether the next reply is there and is this one.
pub(crate) fn hears<D: Die>(port: &mut Port<D>, reply: &[u8]) -> bool
    ensures { port.new.table ≡ port.old.table }
{
    let mut heard = Upiu::new();
    matches!(port.try_reply(&mut heard), Tried::Did(true)) && heard.as_slice() == reply
}

/// The command, for this address below 256.
pub(crate) fn at(command: &[u8; 32], address: u8) -> [u8; 32] {
    let mut message = *command;
    message[21] = address;
    message
}

/// Whether the device takes a FUA write of a block to this address, up to its data.
pub(crate) fn writes<D: Die>(port: &mut Port<D>, address: u8) -> bool
    ensures { port.new.table ≡ port.old.table }
{
    sends(port, &at(&WRITE, address)) && hears(port, &ASKED) && sends(port, &with_block(&DATA_OUT))
}

/// One host has a block written; they meet, and the other host reads it.
#[test]
fn a_port_reads_what_another_wrote(rt: HostRuntime) {
    let mut shared = shared_over(&rt, rt.alloc(), two_dies(&rt, rt.alloc()), 2);
    let mut reader = last_port(&rt, &mut shared.ports, &shared.keeper);
    let mut crew = crew_of(&rt, shared);
    settle(&rt, &mut crew);
    assert!(rt; writes(&mut crew.port, 3));
    settle(&rt, &mut crew);
    assert!(rt; hears(&mut crew.port, &WRITTEN));
    meet(&mut crew.port, &mut reader);
    assert!(rt; sends(&mut reader, &at(&READ, 3)));
    settle(&rt, &mut crew);
    assert!(rt; hears(&mut reader, &with_block(&DATA_IN)) && hears(&mut reader, &HAS_READ));
    drop(crew);
}

/// The host: a block that lies on the other die is read while the program is held, and only then the
/// gate is opened, after which the write is answered.
fn reads_beside<R: Wait + Clock>(
    rt: &R,
    port: &mut Port<GateDie>,
    gate: &Gate,
    stop: &AtomicBool,
) -> bool {
    let mut heard = Upiu::new();
    let is_right = matches!(port.send(rt, &READ, stop), Some(Ok(())))
        && port.receive(rt, &mut heard, stop)
        && heard.as_slice() == with_block(&DATA_IN).as_slice()
        && port.receive(rt, &mut heard, stop)
        && heard.as_slice() == HAS_READ.as_slice();
    gate.is_shut.store(false, Ordering::SeqCst);
    let is_answered = port.receive(rt, &mut heard, stop) && heard.as_slice() == WRITTEN.as_slice();
    stop.store(true, Ordering::SeqCst);
    is_right && is_answered
}

/// The lane in whose die the program is held, and the other one with the host, in threads.
fn beside<R: Threads + Wait + Clock + Sync>(
    rt: &R,
    crew: &mut Crew<GateDie>,
    job: &Job,
    gate: &Gate,
) -> bool
    requires held { job_of crew.old.second.view.lane ≡ Some job.now }
    requires idle { (crew.old.first.ended ≡ None) × (crew.old.second.ended ≡ None) }
{
    let stop = AtomicBool::new(false);
    let (lane, other, port) = (&mut crew.second, &mut crew.first, &mut crew.port);
    thread::join(
        rt,
        ||
            requires { IsSync R.row × (job_of lane.now.view.lane ≡ Some job.now)
                × (lane.now.ended ≡ None) }
        { lane.finish(rt, job) },
        ||
            requires { IsSync R.row × (other.now.ended ≡ None) }
        { serve_beside(rt, other, port, gate, &stop) },
    )
    .1
}

/// A lane in a thread of its own, beside the host.
fn serve_beside<R: Threads + Wait + Clock + Sync>(
    rt: &R,
    lane: &mut Lane<GateDie>,
    port: &mut Port<GateDie>,
    gate: &Gate,
    stop: &AtomicBool,
) -> bool
    requires { lane.old.ended ≡ None }
{
    thread::join(
        rt,
        ||
            requires { IsSync R.row × (lane.now.ended ≡ None) }
        { lane.serve(rt, stop) },
        || { reads_beside(rt, port, gate, stop) },
    )
    .1
}

/// Block 0 is written on the first die, and the write of block 1 waits for the program that the other one
/// is given.
fn held_program<R: Abort + Wait + Clock>(rt: &R, crew: &mut Crew<GateDie>) -> Job
    requires { (crew.old.first.ended ≡ None) × (crew.old.second.ended ≡ None) }
    ensures idle { (crew.new.first.ended ≡ None) × (crew.new.second.ended ≡ None) }
    ensures given { job_of crew.new.second.view.lane ≡ Some result }
{
    settle(rt, crew);
    assert!(rt; writes(&mut crew.port, 0));
    one_job(rt, &mut crew.first);
    assert!(rt; hears(&mut crew.port, &WRITTEN) && writes(&mut crew.port, 1));
    let Tried::Did(Some(job)) = crew.second.try_take() else {
        panic!(rt; "the program of address 1")
    };
    job
}

/// A program on one die is held until a block was read from the other.
#[test]
fn a_read_is_answered_beside_a_program(rt: HostRuntime) {
    let gate = Gate::new(&rt, rt.alloc());
    let mut crew = crew_over(&rt, rt.alloc(), two_gate_dies(&rt, rt.alloc(), &gate));
    let job = held_program(&rt, &mut crew);
    gate.is_shut.store(true, Ordering::SeqCst);
    assert!(rt; beside(&rt, &mut crew, &job, &gate));
    assert!(rt; !gate.has_run_out.load(Ordering::SeqCst));
    drop(crew);
}
