//! How a loop waits between its attempts.
ghost use Rattle.std.specs.Prelude.{◌≡◌, ◌+◌, ◌<◌};

use std::marker::Model;
use std::thread;
use std::time::{Clock, Duration};

/// So many attempts in a row that did nothing are each followed by a yield. What a loop waits for is
/// mostly the page of another thread, so the SHA-256 of a page: some tens of microseconds. An attempt
/// with its yield may take a quarter of a microsecond, if nobody else wants the processor, and all of
/// them have to last longer than a page. Many more of them would take the core, and the processor,
/// from those who have a page under way. A sleep takes a hundred microseconds and more.
const YIELDS: u8 = 100;

/// Every further one is followed by a sleep of so many microseconds. A yield gives the processor
/// away for a moment at most, and each attempt takes the device from those who have something for
/// it to do.
const SLEEP: u64 = 50;

/// How a loop waits between its attempts: it yields after each, and sleeps after many in a row that
/// did nothing. Contracts see how many attempts did nothing since the last one that did something;
/// it counts no further than 100.
#[derive(Drop)]
pub struct Patience {
    attempts: u8,
}

impl Model for Patience {
    ghost use Rattle.std.specs.Prelude.{ℕ, ◌≤◌};

    ghost Value = { ℕ };

    ghost view = { λ p. p.attempts };

    ghost invariant = { λ p. p.attempts ≤ 100 };
}

impl Patience {
    /// No attempt was made yet.
    pub fn new() -> Patience
        ensures { result ≡ 0 }
    {
        Patience { attempts: 0 }
    }

    /// An attempt did something.
    pub fn did(&mut self)
        ensures { self.new ≡ 0 }
    {
        self.attempts = 0;
    }

    /// An attempt did nothing: the next one is made a little later.
    pub fn did_nothing<R: Clock>(&mut self, rt: &R)
        ensures counted { self.old < 100 → self.new ≡ self.old + 1 }
        ensures full { self.old ≡ 100 → self.new ≡ 100 }
    {
        if self.attempts < YIELDS {
            self.attempts += 1;
            thread::yield_now();
        } else {
            thread::sleep(rt, Duration::from_micros(SLEEP));
        }
    }
}
