//! The loops of lanes, keepers and ports: each does its work until its flag is set, and ends then. A loop that
//! ignores its flag never ends, so its test does not either, and fails by the time that a test is given.
ghost use Rattle.std.specs.Prelude.{◌≡◌, None};
ghost use Rattle.std.specs.Thread.{IsSync};

use crate::example::{DATA_IN, HAS_READ, IS_READY, READ, WRITTEN, asks, with_block};
use crate::sharing::{Crew, crew_over, two_dies};
use crate::steps::{hears, one_job, sends, settle, writes};
use lanes::{Keeper, Lane, Port, Tried};
use nand_model::MemDie;
use std::process::Abort;
use std::sync::Wait;
use std::sync::atomic::{AtomicBool, Ordering};
use std::thread;
use std::thread::Threads;
use std::time::Clock;
use ufs_spec::{Job, Upiu};

/// What the thread of a loop and the one beside it know of each other.
#[derive(Drop)]
struct Watch {
    has_begun: AtomicBool,
    has_ended: AtomicBool,
    stop: AtomicBool,
}

/// Yields many times.
fn pause() {
    for _ in 0..10_000u16 {
        thread::yield_now();
    }
}

impl Watch {
    fn new() -> Watch {
        Watch {
            has_begun: AtomicBool::new(false),
            has_ended: AtomicBool::new(false),
            stop: AtomicBool::new(false),
        }
    }

    fn begin(&self) {
        self.has_begun.store(true, Ordering::SeqCst);
    }

    fn end(&self) {
        self.has_ended.store(true, Ordering::SeqCst);
    }

    /// Waits until the loop has begun, but no longer than ten million turns.
    fn wait(&self) {
        for _ in 0..10_000_000u32 {
            if self.has_begun.load(Ordering::SeqCst) {
                return;
            }
            thread::yield_now();
        }
    }

    /// Sets the flag: whether the loop went on until then.
    fn set(&self) -> bool {
        self.wait();
        pause();
        let goes_on = !self.has_ended.load(Ordering::SeqCst);
        self.stop.store(true, Ordering::SeqCst);
        goes_on
    }
}

/// The RESPONSE GOOD to TEST UNIT READY, task tag 6.
fn ready() -> [u8; 32] {
    let mut good = WRITTEN;
    good[3] = 6;
    good
}

/// Whether the device becomes ready by turns of the keeper here, with a lane at work beside.
fn is_ready_by_turns<R: Wait + Clock>(
    rt: &R,
    keeper: &mut Keeper<MemDie>,
    port: &mut Port<MemDie>,
    stop: &AtomicBool,
) -> bool {
    for _ in 0..100_000u32 {
        keeper.try_turn();
        if asks(rt, port, stop, &IS_READY, &ready()) {
            return true;
        }
        thread::yield_now();
    }
    false
}

/// Whether the device becomes ready by jobs of the lane here, with a keeper at work beside.
fn is_ready_by_jobs<R: Wait + Clock>(
    rt: &R,
    lane: &mut Lane<MemDie>,
    port: &mut Port<MemDie>,
    stop: &AtomicBool,
) -> bool
    requires { lane.old.ended ≡ None }
{
    for _ in 0..100_000u32 {
        one_job(rt, lane);
        if asks(rt, port, stop, &IS_READY, &ready()) {
            return true;
        }
        thread::yield_now();
    }
    false
}

/// A lane serves beside: whether its jobs make the device ready, and it ends only at its flag.
fn lane_serves<R: Threads + Wait + Clock + Sync>(
    rt: &R,
    lane: &mut Lane<MemDie>,
    keeper: &mut Keeper<MemDie>,
    port: &mut Port<MemDie>,
) -> bool
    requires { lane.old.ended ≡ None }
{
    let watch = Watch::new();
    thread::join(
        rt,
        ||
            requires { IsSync R.row × (lane.now.ended ≡ None) }
        {
            watch.begin();
            lane.serve(rt, &watch.stop);
            watch.end();
        },
        || {
            let is_ready = is_ready_by_turns(rt, keeper, port, &watch.stop);
            watch.set() && is_ready
        },
    )
    .1
}

/// A keeper serves beside: whether its turns make the device ready, and it ends only at its flag.
fn keeper_serves<R: Threads + Wait + Clock + Sync>(
    rt: &R,
    keeper: &mut Keeper<MemDie>,
    lane: &mut Lane<MemDie>,
    port: &mut Port<MemDie>,
) -> bool
    requires { lane.old.ended ≡ None }
{
    let watch = Watch::new();
    thread::join(
        rt,
        || {
            watch.begin();
            keeper.serve(rt, &watch.stop);
            watch.end();
        },
        ||
            requires { IsSync R.row × (lane.now.ended ≡ None) }
        {
            let is_ready = is_ready_by_jobs(rt, lane, port, &watch.stop);
            watch.set() && is_ready
        },
    )
    .1
}

/// The reader of a block waits for both replies, and then for a third, which never comes: whether it has both, and
/// gave up only at its flag. It tells once it has both.
fn waits<R: Wait + Clock>(
    rt: &R,
    port: &mut Port<MemDie>,
    watch: &Watch,
    has_heard: &AtomicBool,
) -> bool {
    let mut heard = Upiu::new();
    watch.begin();
    let has_both = port.receive(rt, &mut heard, &watch.stop)
        && heard.as_slice() == with_block(&DATA_IN).as_slice()
        && port.receive(rt, &mut heard, &watch.stop)
        && heard.as_slice() == HAS_READ.as_slice();
    has_heard.store(true, Ordering::SeqCst);
    let has_third = port.receive(rt, &mut heard, &watch.stop);
    watch.end();
    has_both && !has_third
}

/// Tries to do a job of the lane until the reader has its replies. The device may be with the reader at each try, so
/// one try is not enough.
fn works_until_heard<R: Wait + Clock>(rt: &R, lane: &mut Lane<MemDie>, has_heard: &AtomicBool)
    requires { lane.old.ended ≡ None }
{
    for _ in 0..10_000_000u32 {
        one_job(rt, lane);
        if has_heard.load(Ordering::SeqCst) {
            return;
        }
        thread::yield_now();
    }
}

/// A READ waits for the job of a lane, which comes late: whether both replies are received, and the wait for a
/// third ends only at its flag.
fn port_receives<R: Threads + Wait + Clock + Sync>(
    rt: &R,
    port: &mut Port<MemDie>,
    lane: &mut Lane<MemDie>,
) -> bool
    requires { lane.old.ended ≡ None }
{
    let watch = Watch::new();
    let has_heard = AtomicBool::new(false);
    let (is_right, goes_on) = thread::join(
        rt,
        || { waits(rt, port, &watch, &has_heard) },
        ||
            requires { IsSync R.row × (lane.now.ended ≡ None) }
        {
            watch.wait();
            pause();
            works_until_heard(rt, lane, &has_heard);
            watch.set()
        },
    );
    is_right && goes_on
}

/// The jobs of a lane in its loop make a device ready.
#[test]
fn a_lane_serves_until_its_flag_is_set(rt: HostRuntime) {
    let mut crew = crew_over(&rt, rt.alloc(), two_dies(&rt, rt.alloc()));
    assert!(rt; lane_serves(&rt, &mut crew.first, &mut crew.keeper, &mut crew.port));
    drop(crew);
}

/// The replies to a READ are received, though its block comes late; then none is due.
#[test]
fn a_port_receives_until_its_flag_is_set(rt: HostRuntime) {
    let mut crew = crew_over(&rt, rt.alloc(), two_dies(&rt, rt.alloc()));
    settle(&rt, &mut crew);
    assert!(rt; writes(&mut crew.port, 0));
    settle(&rt, &mut crew);
    assert!(rt; hears(&mut crew.port, &WRITTEN) && sends(&mut crew.port, &READ));
    assert!(rt; port_receives(&rt, &mut crew.port, &mut crew.second));
    drop(crew);
}

/// The turns of a keeper in its loop make a device ready.
#[test]
fn a_keeper_serves_until_its_flag_is_set(rt: HostRuntime) {
    let mut crew = crew_over(&rt, rt.alloc(), two_dies(&rt, rt.alloc()));
    assert!(rt; keeper_serves(&rt, &mut crew.keeper, &mut crew.first, &mut crew.port));
    drop(crew);
}

/// The loops of the keeper and of a lane do nothing: its step stays due, and then the lane's job.
fn expect_due<R: Abort + Wait + Clock>(rt: &R, crew: &mut Crew<MemDie>, stop: &AtomicBool)
    requires { crew.old.first.ended ≡ None }
{
    crew.keeper.serve(rt, stop);
    assert!(rt; matches!(crew.keeper.try_turn(), Tried::Did(true)));
    crew.first.serve(rt, stop);
    assert!(rt; matches!(crew.first.try_take(), Tried::Did(Some(Job::Erase { .. }))));
}

/// A port does not send a message, and does not receive a reply that is due.
fn expect_unheard<R: Abort + Wait + Clock>(rt: &R, port: &mut Port<MemDie>, stop: &AtomicBool) {
    let mut heard = Upiu::new();
    assert!(rt; port.send(rt, &IS_READY, stop).is_none());
    assert!(rt; matches!(port.try_reply(&mut heard), Tried::Did(false)));
    assert!(rt; sends(port, &IS_READY) && !port.receive(rt, &mut heard, stop));
}

/// It receives the reply, and sends a message.
fn expect_heard<R: Abort + Wait + Clock>(rt: &R, port: &mut Port<MemDie>, stop: &AtomicBool) {
    let mut heard = Upiu::new();
    assert!(rt; port.receive(rt, &mut heard, stop) && heard.len() == 52);
    assert!(rt; matches!(port.send(rt, &IS_READY, stop), Some(Ok(()))));
}

/// While the flag is set no loop does anything. Without the flag a message is sent, and the reply received.
#[test]
fn a_set_flag_ends_each_loop_at_once(rt: HostRuntime) {
    let mut crew = crew_over(&rt, rt.alloc(), two_dies(&rt, rt.alloc()));
    let stop = AtomicBool::new(true);
    expect_due(&rt, &mut crew, &stop);
    expect_unheard(&rt, &mut crew.port, &stop);
    stop.store(false, Ordering::SeqCst);
    expect_heard(&rt, &mut crew.port, &stop);
    drop(crew);
}
