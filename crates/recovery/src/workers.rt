//! A scan by several threads.
ghost use Rattle.std.specs.Prelude.{◌≡◌, ◌⊎◌, ℕ, suc, List, Ok, Err, IfErr, IfOk, length, map, max, min};
ghost use Rattle.std.specs.Thread.{IsSend, IsSync};
ghost use Rattle.ufs_spec.specs.Cells.{Cells, Shows};
ghost use Rattle.ufs_spec.specs.Keys.{settings_key};
ghost use Rattle.ufs_spec.specs.Kept.{Holds};
ghost use Rattle.ufs_spec.specs.Lives.{Fit, array_of, bad_of};
ghost use Rattle.ufs_spec.specs.Plain.{Plain};
ghost use Rattle.ufs_spec.specs.Sound.{CellsSound, Sound};
ghost use Rattle.settings.specs.Told.{settings_in};
ghost use Rattle.recovery.specs.Found.{IsFound, IsScanFault, newest_found};
ghost use Rattle.recovery.specs.Reading.{IsJoined};
ghost use Rattle.recovery.specs.Scanned.{CanRead, HasRead};
ghost use Rattle.recovery.specs.Shares.{AreShared, IsShare};
ghost use Rattle.recovery.specs.Stood.{AreReadSettings, IsStoodFor};
ghost use Rattle.recovery.specs.declared.reading.Table.{Table};

use crate::found::{Found, found_over};
use crate::reading::{Table, read_dies};
use geometry::Config;
use nand_model::Die;
use std::alloc::Global;
use std::thread::{Threads, join_mut};
use ufs_spec::{Numbers, OpenFault};

/// What `scan` tells, of dies that so many workers read, each in a thread of its own and some dies
/// each: 0 count as 1, and more workers than dies as the number of dies. The shares of two workers
/// differ by one die at most. The dies of a worker that cannot be started are read by the caller. It
/// writes nothing, and after an error the dies are as before too. The dies are as many and as large
/// as the configuration says.
///
/// # Errors
///
/// Those of `scan`. Of several reads that failed in this call, any may be the one told.
pub fn scan_parallel<R: Threads + Sync, D: Die + Send>(
    rt: &R,
    alloc: Global,
    dies: &mut [D],
    config: &Config,
    workers: usize,
) -> Result<Found, OpenFault>
    requires { Fit config.now (map D.state dies.old) }
    ensures same { map D.state dies.new ≡ map D.state dies.old }
    ensures found { IfOk result (λ f. (c : Cells) → Shows (array_of (map D.state dies.old)) c →
        IsFound config.now c (bad_of (map D.state dies.old)) f) }
    // Over sound pages what was found has the contents of the plain state that the dies stand
    // for, and they stand for no other.
    ensures stands { IfOk result (λ f. Sound (array_of (map D.state dies.old)) →
        (p : Plain) × IsStoodFor config.now (array_of (map D.state dies.old)) f p) }
    // Its settings are those that the page says that was found for them.
    ensures read { IfOk result (λ f.
        AreReadSettings config.now (array_of (map D.state dies.old)) f.contents.items f.settings) }
    // Over sound pages its settings are those that the content of their key says.
    ensures settings { IfOk result (λ f. (c : Cells) → Shows (array_of (map D.state dies.old)) c →
        CellsSound c (newest_found f) → (x : List ℕ) →
        Holds c (newest_found f) (suc f.kept) settings_key x → f.settings ≡ settings_in x) }
    ensures fault { IfErr result (λ e. (c : Cells) → Shows (array_of (map D.state dies.old)) c →
        IsScanFault config.now c (map D.failed dies.old) (map D.failed dies.new) e) }
{
    let numbers = config.numbers();
    let range = (0, numbers.dies);
    let shares = shares_of(dies.len(), workers);
    match read_by(rt, alloc, numbers, range, shares, dies) {
        Ok(table) => found_over(alloc, table, dies, config),
        Err(fault) => Err(fault),
    }
}

/// How dies are shared out: so many workers read them, and each reads the least number of dies or
/// one more.
#[derive(Clone, Copy)]
struct Shares {
    least: usize,
    workers: usize,
}

/// How so many dies are shared out among so many workers, of whom 0 count as 1, and more than dies
/// as the number of dies.
fn shares_of(dies: usize, workers: usize) -> Shares
    ensures workers { result.workers ≡ max (min workers dies) 1 }
    ensures shared { AreShared result.least result.workers dies }
{
    let workers = workers.min(dies).max(1);
    Shares {
        least: dies / workers,
        workers,
    }
}

/// Dies that are cut for one worker, up to the middle, and the others: the number of the first die, of the
/// first one of the others, and the one behind the last; and how the other workers share those.
#[derive(Clone, Copy)]
struct Cut {
    first: u8,
    middle: u8,
    end: u8,
    others: Shares,
}

/// Reads all pages of these dies, by workers that share them.
#[cycle(shares)]
fn read_by<R: Threads + Sync, D: Die + Send>(
    rt: &R,
    alloc: Global,
    numbers: &Numbers,
    range: (u8, u8),
    shares: Shares,
    dies: &mut [D],
) -> Result<Table, OpenFault>
    requires read { CanRead numbers.now range.0 range.1 (map D.state dies.old) }
    requires shared { AreShared shares.least shares.workers (length dies.old) }
    ensures { HasRead numbers.now range.0 (map D.state dies.old) (map D.state dies.new)
        (map D.failed dies.old) (map D.failed dies.new) result }
{
    if shares.workers <= 1 {
        let whole = Cut {
            first: range.0,
            middle: range.1,
            end: range.1,
            others: shares,
        };
        return read_share(alloc, numbers, whole, dies);
    }
    let share = dies.len() / shares.workers;
    let cut = Cut {
        first: range.0,
        middle: range.0 + share as u8,
        end: range.1,
        others: Shares {
            workers: shares.workers - 1,
            ..shares
        },
    };
    let (low, high) = dies.split_at_mut(share);
    let (one, rest) = read_both(rt, alloc, numbers, cut, low, high);
    joined(one, rest)
}

/// Reads the lower dies in a thread of their own, and the higher ones by the other workers.
#[cycle(shares)]
fn read_both<R: Threads + Sync, D: Die + Send>(
    rt: &R,
    alloc: Global,
    numbers: &Numbers,
    cut: Cut,
    low: &mut [D],
    high: &mut [D],
) -> (Result<Table, OpenFault>, Result<Table, OpenFault>)
    requires low { CanRead numbers.now cut.first cut.middle (map D.state low.old) }
    requires high { CanRead numbers.now cut.middle cut.end (map D.state high.old) }
    // Each worker reads the least number of dies, or one more.
    requires share { IsShare cut.others.least (length low.old) }
    requires shared { AreShared cut.others.least cut.others.workers (length high.old) }
    ensures low { HasRead numbers.now cut.first (map D.state low.old) (map D.state low.new)
        (map D.failed low.old) (map D.failed low.new) result.0 }
    ensures high { HasRead numbers.now cut.middle (map D.state high.old) (map D.state high.new)
        (map D.failed high.old) (map D.failed high.new) result.1 }
{
    let mut one = || -> Result<Table, OpenFault>
        requires { CanRead numbers.now cut.first cut.middle (map D.state low.now) ×
            IsShare cut.others.least (length low.now) }
        ensures { HasRead numbers.entry.now cut.first (map D.state low.entry.now) (map D.state low.exit.now)
            (map D.failed low.entry.now) (map D.failed low.exit.now) result }
    { read_share(alloc, numbers, cut, low) };
    let mut rest = || -> Result<Table, OpenFault>
        requires { IsSync R.row × IsSend D.row × CanRead numbers.now cut.middle cut.end (map D.state high.now) ×
            AreShared cut.others.least cut.others.workers (length high.now) }
        ensures { HasRead numbers.entry.now cut.middle (map D.state high.entry.now) (map D.state high.exit.now)
            (map D.failed high.entry.now) (map D.failed high.exit.now) result }
    { read_rest(rt, alloc, numbers, cut, high) };
    join_mut(rt, &mut one, &mut rest)
}

/// Reads the dies of one worker, which are those before the middle, one die after another.
fn read_share<D: Die>(
    alloc: Global,
    numbers: &Numbers,
    cut: Cut,
    low: &mut [D],
) -> Result<Table, OpenFault>
    requires read { CanRead numbers.now cut.first cut.middle (map D.state low.old) }
    requires share { IsShare cut.others.least (length low.old) }
    ensures { HasRead numbers.now cut.first (map D.state low.old) (map D.state low.new)
        (map D.failed low.old) (map D.failed low.new) result }
{
    read_dies(alloc, numbers, (cut.first, cut.middle), low)
}

/// Reads the dies of the other workers.
#[cycle(shares)]
fn read_rest<R: Threads + Sync, D: Die + Send>(
    rt: &R,
    alloc: Global,
    numbers: &Numbers,
    cut: Cut,
    high: &mut [D],
) -> Result<Table, OpenFault>
    requires read { CanRead numbers.now cut.middle cut.end (map D.state high.old) }
    requires shared { AreShared cut.others.least cut.others.workers (length high.old) }
    ensures { HasRead numbers.now cut.middle (map D.state high.old) (map D.state high.new)
        (map D.failed high.old) (map D.failed high.new) result }
{
    read_by(rt, alloc, numbers, (cut.middle, cut.end), cut.others, high)
}

/// The table of some dies with that of the dies behind them, if both were read.
fn joined(one: Result<Table, OpenFault>, rest: Result<Table, OpenFault>) -> Result<Table, OpenFault>
    ensures joined { IfOk result (λ t. (a : Table) × (b : Table) × (one ≡ Ok a) × (rest ≡ Ok b) × IsJoined a b t) }
    ensures fault { IfErr result (λ e. (e ≡ OpenFault.NoMemory) ⊎ ((one ≡ Err e) ⊎ (rest ≡ Err e))) }
{
    let mut table = match one {
        Ok(table) => table,
        Err(fault) => return Err(fault),
    };
    let later = match rest {
        Ok(later) => later,
        Err(fault) => return Err(fault),
    };
    if table.join(later).is_err() {
        return Err(OpenFault::NoMemory);
    }
    Ok(table)
}
