//! How a job is done on its die.
ghost use Rattle.std.specs.Prelude.{◌≡◌, MatchResult};
ghost use Rattle.ufs_spec.specs.Dies.{CanDo, Did, LiesOnDie};

use crate::die::{Die, DieFault};
use ufs_spec::{Job, Outcome, Page, Place};

/// How a program or an erase ended.
fn ending(ended: Result<(), DieFault>) -> Outcome
    ensures { MatchResult ended (λ _. result ≡ Outcome.Done) (λ _. result ≡ Outcome.Failed) }
{
    match ended {
        Ok(_) => Outcome::Done,
        Err(_) => Outcome::Failed,
    }
}

/// What a read of the page gives. The page that it fills is its own, so that no other job pays for it.
fn read<D: Die>(die: &mut D, place: Place) -> Outcome
    requires { LiesOnDie (D.state die.old) place.block place.page }
    ensures { Did (D.failed die.old) (D.failed die.new) (D.state die.old) (Job.Read place) result (D.state die.new) }
{
    let mut found = Page {
        body: [0; 4096],
        spare: [0; 96],
    };
    match die.read(place.block, place.page, &mut found) {
        Ok(_) => {
            return Outcome::Read(found);
        }
        Err(_) => {
            return Outcome::ReadFailed;
        }
    }
}

/// Does the job on the die, which is the one that the job names. `Failed` and `ReadFailed` come only
/// if the die's count of failures rose. Each arm returns by itself: where arms join, as many bytes are
/// copied as a page has.
pub fn work<D: Die>(die: &mut D, job: &Job) -> Outcome
    requires { CanDo (D.state die.old) job.now }
    ensures { Did (D.failed die.old) (D.failed die.new) (D.state die.old) job.now result (D.state die.new) }
{
    match job {
        Job::Read(place) => {
            return read(die, *place);
        }
        Job::Program(place, page) => {
            return ending(die.program(place.block, place.page, page));
        }
        Job::Erase { die: _, block } => {
            return ending(die.erase(*block));
        }
    }
}
