//! What `recovery::scan_parallel` tells is what `scan` tells, for every number of workers.

use crate::scans::{at, data, mark, put, row_dies, settings};
use geometry::Config;
use nand_model::{Die, MemDie};
use recovery::{Found, fit, scan, scan_parallel};
use row_messages::row_config;
use std::alloc::Global;
use std::process::Abort;
use std::test::Fail;
use std::thread::Threads;
use ufs_spec::{Fence, OpenFault};

/// Four dies with pages, an older mark behind the newest, a fence, a lost page, a bad block and
/// settings, each die with some of it.
#[test]
fn any_number_of_workers_finds_the_same(rt: HostRuntime) -> Result<(), Fail> {
    let config = row_config()?;
    let mut dies = written_dies(&rt, rt.alloc(), &config)?;
    assert!(rt; fit(&config, dies.as_slice()));
    let Ok(found) = scan(rt.alloc(), dies.as_mut_slice(), &config) else {
        panic!(rt; "the scan was refused")
    };
    assert!(rt; found.kept == 5 && found.settings.is_permanent && found.lost.len() == 1);
    for workers in [0usize, 1, 2, 3, 4, 8] {
        let Ok(other) = by_workers(&rt, rt.alloc(), &config, workers, dies.as_mut_slice()) else {
            panic!(rt; "the scan by workers was refused")
        };
        assert!(rt; are_same(&found, &other));
    }
    Ok(())
}

/// The dies of the row configuration, written in part.
fn written_dies(rt: &impl Abort, alloc: Global, config: &Config) -> Result<Vec<MemDie>, Fail> {
    let mut dies = row_dies(alloc)?;
    let newest = Some(Fence { first: 4, last: 5 });
    let older = Some(Fence { first: 1, last: 3 });
    let all = dies.as_mut_slice();
    put(rt, all, at(1, 0, 0), &mark(config, (2, 5), newest));
    put(rt, all, at(3, 0, 0), &mark(config, (1, 3), older));
    put(rt, all, at(0, 3, 0), &data(5, 1, (0, 1)));
    put(rt, all, at(1, 1, 0), &data(5, 1, (0, 1)));
    put(rt, all, at(1, 2, 0), &data(6, 3, (0, 1)));
    put(rt, all, at(2, 2, 1), &data(6, 2, (0, 1)));
    put(rt, all, at(2, 0, 0), &data(7, 4, (0, 1)));
    put(rt, all, at(3, 9, 5), &settings(3, true));
    assert!(rt; 2 < dies.len() && 5 < dies[2].blocks());
    dies[2].set_bad(5);
    Ok(dies)
}

/// What the dies stand for, by so many workers. They have to fit the configuration.
fn by_workers<R: Threads + Abort + Sync>(
    rt: &R,
    alloc: Global,
    config: &Config,
    workers: usize,
    dies: &mut [MemDie],
) -> Result<Found, OpenFault> {
    assert!(rt; fit(config, dies));
    scan_parallel(rt, alloc, dies, config, workers)
}

/// Whether both tell the same.
fn are_same(one: &Found, other: &Found) -> bool {
    newest_number(one) == newest_number(other)
        && one.kept == other.kept
        && one.greatest_seen == other.greatest_seen
        && one.first_lost == other.first_lost
        && one.contents.as_slice() == other.contents.as_slice()
        && one.lost.as_slice() == other.lost.as_slice()
        && one.blocks.as_slice() == other.blocks.as_slice()
        && one.settings == other.settings
}

/// The number of the newest mark; 0 without one.
fn newest_number(found: &Found) -> u64 {
    match &found.newest {
        Some(mark) => mark.number,
        None => 0,
    }
}
