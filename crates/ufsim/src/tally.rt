//! How many stops were tried, and how many of them were bad.
ghost use Rattle.std.specs.Prelude.{◌≡◌, ◌+◌};
ghost use Rattle.ufsim.specs.Trials.{AreCounted, IsRight, Trial, capped, counted};

use std::marker::Model;

/// What was counted so far. Each stop among them was counted as what it is.
#[derive(Drop)]
pub(crate) struct Tally {
    /// How often a program or an erase was given to a die.
    moments: usize,
    stops: usize,
    bad: usize,
}

impl Model for Tally {
    ghost use Rattle.ufsim.specs.Trials.{AreCounted, Counts};

    ghost Value = { Counts };

    ghost view = { λ t. record { moments = t.moments; stops = t.stops; bad = t.bad } };

    ghost invariant = { λ t. AreCounted t.stops t.bad };
}

impl Tally {
    /// Nothing was counted yet.
    pub fn new() -> Tally
        ensures { result ≡ record { moments = 0; stops = 0; bad = 0 } }
    {
        Tally {
            moments: 0,
            stops: 0,
            bad: 0,
        }
    }

    /// A program or an erase was given to a die. It answers how many there were before.
    pub fn begin_moment(&mut self) -> usize
        ensures before { result ≡ self.old.moments }
        ensures begun { self.new ≡ record self.old { moments = capped (self.old.moments + 1) } }
    {
        let moment = self.moments;
        self.moments = moment.saturating_add(1);
        moment
    }

    /// A stop was tried that was good or bad.
    pub fn add(&mut self, is_good: bool)
        requires tried { (t : Trial) × IsRight t × (t.good ≡ is_good) }
        ensures { self.new ≡ counted self.old is_good }
    {
        self.stops = self.stops.saturating_add(1);
        if !is_good {
            self.bad = self.bad.saturating_add(1);
        }
    }

    /// The dies that a life began over were not told rightly.
    pub fn add_unread(&mut self)
        ensures { self.new ≡ record self.old { bad = capped (self.old.bad + 1) } }
    {
        self.bad = self.bad.saturating_add(1);
    }

    /// How many stops were tried, and how many of them were bad.
    pub fn counts(&self) -> (usize, usize)
        ensures stops { result.0 ≡ self.now.stops }
        ensures bad { result.1 ≡ self.now.bad }
        ensures counted { AreCounted self.now.stops self.now.bad }
    {
        (self.stops, self.bad)
    }
}
