//! A die in memory that waits at a gate: with its programs while the gate is shut, and with its reads until
//! another die is read too.
ghost use Rattle.std.specs.Prelude.{◌≡◌, ◌<◌, ◌≤◌, OnOk, OnErr, map, replicate};
ghost use Rattle.ufs_spec.specs.Dies.{DieState, new_die};

use nand_model::{Die, DieFault, MemDie};
use std::alloc::Global;
use std::process::Abort;
use std::sync::Arc;
use std::sync::atomic::{AtomicBool, Ordering};
use std::thread;
use ufs_spec::Page;

/// A gate, and whether a job went on though the gate should have held it.
#[derive(Drop)]
pub(crate) struct Gate {
    pub(crate) is_shut: AtomicBool,
    pub(crate) has_run_out: AtomicBool,
    /// Whether the reads of each of two dies wait for a read of the other, and which of them was read.
    pub(crate) has_reads_meet: AtomicBool,
    first_is_read: AtomicBool,
    second_is_read: AtomicBool,
}

impl Gate {
    /// An open gate.
    pub(crate) fn new(rt: &impl Abort, alloc: Global) -> Arc<Gate, Global> {
        let gate = Gate {
            is_shut: AtomicBool::new(false),
            has_run_out: AtomicBool::new(false),
            has_reads_meet: AtomicBool::new(false),
            first_is_read: AtomicBool::new(false),
            second_is_read: AtomicBool::new(false),
        };
        Arc::new(alloc, gate).expect(rt, "memory")
    }

    /// Waits until the gate is open, but no longer than a million turns.
    fn pass(&self) {
        for _ in 0..1_000_000u32 {
            if !self.is_shut.load(Ordering::SeqCst) {
                return;
            }
            thread::yield_now();
        }
        self.has_run_out.store(true, Ordering::SeqCst);
    }

    /// One of the dies is read: waits for a read of the other, but once, and no longer than a million turns.
    fn meet(&self, is_first: bool) {
        if !self.has_reads_meet.load(Ordering::SeqCst) {
            return;
        }
        if is_first {
            self.first_is_read.store(true, Ordering::SeqCst);
            self.wait_for(&self.second_is_read);
        } else {
            self.second_is_read.store(true, Ordering::SeqCst);
            self.wait_for(&self.first_is_read);
        }
    }

    /// Waits until the flag is set, but once, and no longer than a million turns.
    fn wait_for(&self, flag: &AtomicBool) {
        for _ in 0..1_000_000u32 {
            if flag.load(Ordering::SeqCst) || self.has_run_out.load(Ordering::SeqCst) {
                return;
            }
            thread::yield_now();
        }
        self.has_run_out.store(true, Ordering::SeqCst);
    }
}

/// The die, the gate at which it waits, and whether it is the first of two.
#[derive(Drop)]
pub(crate) struct GateDie {
    pub(crate) die: MemDie,
    pub(crate) gate: Arc<Gate, Global>,
    pub(crate) is_first: bool,
}

impl Die for GateDie {
    ghost state = { λ d. d.die };

    ghost failed = { λ d. 0 };

    fn blocks(&self) -> u16 {
        self.die.blocks()
    }

    fn pages(&self) -> u16 {
        self.die.pages()
    }

    fn read(&mut self, block: u16, page: u16, into: &mut Page) -> Result<(), DieFault> {
        self.gate.meet(self.is_first);
        self.die.read(block, page, into)
    }

    fn program(&mut self, block: u16, page: u16, content: &Page) -> Result<(), DieFault> {
        self.gate.pass();
        self.die.program(block, page, content)
    }

    fn erase(&mut self, block: u16) -> Result<(), DieFault> {
        self.die.erase(block)
    }

    fn is_bad(&self, block: u16) -> bool {
        self.die.is_bad(block)
    }

    fn failures(&self) -> u64 {
        0
    }
}

/// A new die of 16 blocks of 64 pages, at this gate.
fn gate_die(rt: &impl Abort, alloc: Global, gate: &Arc<Gate, Global>, is_first: bool) -> GateDie
    ensures { result.die ≡ new_die 16 64 }
{
    GateDie {
        die: MemDie::new(alloc, 16, 64).expect(rt, "memory"),
        gate: Arc::try_clone(gate).expect(rt, "memory"),
        is_first,
    }
}

/// Two of them.
pub(crate) fn two_gate_dies(
    rt: &impl Abort,
    alloc: Global,
    gate: &Arc<Gate, Global>,
) -> Vec<GateDie>
    ensures { map (λ d. d.die) result.items ≡ replicate 2 (new_die 16 64) }
{
    let mut dies = Vec::with_capacity(alloc, 2).expect(rt, "memory");
    dies.push_reserved(gate_die(rt, alloc, gate, true));
    dies.push_reserved(gate_die(rt, alloc, gate, false));
    dies
}
