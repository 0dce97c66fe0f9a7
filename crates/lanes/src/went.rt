//! How a job went, for clauses alone.
ghost use Rattle.std.specs.Prelude.{◌≡◌};
ghost use Rattle.std.specs.Borrow.{ftrue};
ghost use Rattle.ufs_spec.specs.declared.flash.Outcome.{Outcome};

use std::marker::{Model, PhantomData};
use ufs_spec::Outcome;

/// An outcome that clauses see. It has no bytes, as a `Snapshot`, and may go to another thread.
#[derive(Drop)]
pub(crate) struct Went {
    marker: PhantomData<Outcome>,
    pub(crate) ghost outcome: { Outcome },
}

impl Model for Went {
    ghost also_owns = { λ _. ftrue };
}

// It owns nothing.
unsafe impl Send for Went {}

impl Went {
    pub(crate) fn of(outcome: &Outcome) -> Went
        ensures { result.outcome ≡ outcome.now }
    {
        let _ = outcome;
        Went {
            marker: PhantomData,
        }
    }
}
