//! Hosts that write or read all blocks together, each with several commands open at a time.
use crate::threads::COUNT;
use lanes::{Keeper, Port};
use nand_model::MemDie;
use std::sync::Wait;
use std::sync::atomic::{AtomicBool, AtomicU32, Ordering};
use std::thread;
use std::time::Clock;
use ufs_spec::Upiu;
use ufs_spec::codes::{DATA_IN, READY_TO_TRANSFER, RESPONSE};
use workbench::messages::{FUA, READ, WRITE, command};

/// How many blocks a command has.
const BLOCKS: u16 = 32;

/// How many commands a host has open.
pub const OPEN: u8 = 4;

/// How many commands all blocks take.
const COMMANDS: u32 = COUNT / 32;

/// What hosts do together: each block is written or read once.
#[derive(Drop)]
pub struct Round {
    /// The operation of each command, and its second byte.
    operation: u8,
    second: u8,
    /// How many commands were asked for. None is begun after the last one.
    asked: AtomicU32,
    /// How many commands were answered GOOD.
    good: AtomicU32,
    /// Set once all are answered GOOD, and where something goes wrong.
    is_over: AtomicBool,
}

impl Round {
    fn new(operation: u8, second: u8) -> Round {
        Round {
            operation,
            second,
            asked: AtomicU32::new(0),
            good: AtomicU32::new(0),
            is_over: AtomicBool::new(false),
        }
    }

    /// Each block is written. FUA: its command is answered when it is durable.
    pub fn of_writes() -> Round {
        Round::new(WRITE, FUA)
    }

    /// Each block is read.
    pub fn of_reads() -> Round {
        Round::new(READ, 0)
    }

    /// The first block of the next command, if one is left.
    fn next(&self) -> Option<u32> {
        let index = self.asked.fetch_add(1, Ordering::SeqCst);
        if index < COMMANDS {
            Some(index * 32)
        } else {
            None
        }
    }

    /// One more command was answered GOOD.
    fn count(&self) {
        if self.good.fetch_add(1, Ordering::SeqCst) == COMMANDS - 1 {
            self.end();
        }
    }

    fn end(&self) {
        self.is_over.store(true, Ordering::SeqCst);
    }

    /// Whether all commands were answered GOOD.
    pub fn is_good(&self) -> bool {
        self.good.load(Ordering::SeqCst) == COMMANDS
    }
}

/// A host at its port, the tag of its first task, the reply that it heard last, and the DATA OUT
/// that it sends.
#[derive(Drop)]
pub struct Host {
    pub port: Port<MemDie>,
    pub first: u8,
    pub reply: Upiu,
    pub out: [u8; 4128],
}

impl Host {
    fn sends<R: Wait + Clock>(&mut self, rt: &R, stop: &AtomicBool, message: &[u8]) -> bool {
        matches!(self.port.send(rt, message, stop), Some(Ok(())))
    }

    /// Asks until the unit is ready: over new dies the device first writes a page of its own.
    pub fn waits_until_ready<R: Wait + Clock>(
        &mut self,
        rt: &R,
        stop: &AtomicBool,
        keeper: &mut Keeper<MemDie>,
    ) -> bool {
        for _ in 0..1_000_000u32 {
            keeper.try_turn();
            if self.sends(rt, stop, &command(0, 0, 0, 0, 0))
                && self.port.receive(rt, &mut self.reply, stop)
                && self.is_good()
            {
                return true;
            }
            thread::yield_now();
        }
        false
    }

    /// Takes part in the round until it is over. A reply goes to whichever host asks first, so each
    /// host goes on with any task.
    pub fn works<R: Wait + Clock>(&mut self, rt: &R, round: &Round) {
        if !self.begins_all(rt, round) {
            round.end();
        }
        for _ in rt.forever() {
            if !self.port.receive(rt, &mut self.reply, &round.is_over) {
                return;
            }
            if !self.goes_on(rt, round) {
                round.end();
            }
        }
        unreachable!()
    }

    /// Begins as many commands as a host has open: whether the device takes them.
    fn begins_all<R: Wait + Clock>(&mut self, rt: &R, round: &Round) -> bool {
        for task in 0..OPEN {
            if !self.begins(rt, round, self.first.saturating_add(task)) {
                return false;
            }
        }
        true
    }

    /// Begins the next command under this tag, if one is left: whether the device takes it.
    fn begins<R: Wait + Clock>(&mut self, rt: &R, round: &Round, tag: u8) -> bool {
        let Some(address) = round.next() else {
            return true;
        };
        let message = command(tag, round.operation, round.second, address, BLOCKS);
        self.sends(rt, &round.is_over, &message)
    }

    /// Goes on with the task of the reply: whether that is as it should be.
    fn goes_on<R: Wait + Clock>(&mut self, rt: &R, round: &Round) -> bool {
        match self.reply.get(0) {
            Some(&DATA_IN) => true,
            Some(&READY_TO_TRANSFER) => self.brings(rt, round),
            Some(&RESPONSE) => self.ends(rt, round),
            _ => false,
        }
    }

    /// Sends the block that the reply asks for: whether it is taken.
    fn brings<R: Wait + Clock>(&mut self, rt: &R, round: &Round) -> bool {
        let Some(asked) = self.reply.as_slice().get(..16) else {
            return false;
        };
        self.out[3] = asked[3];
        self.out[12..16].copy_from_slice(&asked[12..]);
        matches!(self.port.send(rt, &self.out, &round.is_over), Some(Ok(())))
    }

    /// The reply ends a task, and another command is begun under its tag: whether this goes well.
    fn ends<R: Wait + Clock>(&mut self, rt: &R, round: &Round) -> bool {
        if !self.is_good() {
            return false;
        }
        round.count();
        match self.reply.get(3) {
            Some(&tag) => self.begins(rt, round, tag),
            None => false,
        }
    }

    /// Whether the reply is a RESPONSE with the status GOOD.
    fn is_good(&self) -> bool {
        self.reply.get(0) == Some(&RESPONSE) && self.reply.get(7) == Some(&0)
    }
}
