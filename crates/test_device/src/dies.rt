//! New dies of the row configuration and of the small one, and devices over them.
use geometry::Config;
use nand_model::MemDie;
use std::alloc::Global;
use std::process::Abort;
use workbench::{Workbench, new_dies, row_config, small_config};

/// The row configuration.
pub(crate) fn row(rt: &impl Abort) -> Config {
    row_config().expect(rt, "a configuration")
}

/// Four dies of 16 blocks of 64 pages, which fit it.
pub(crate) fn row_dies(rt: &impl Abort, alloc: Global) -> Vec<MemDie> {
    new_dies(alloc, 4, 16, 64).expect(rt, "memory")
}

/// The small configuration.
pub(crate) fn small(rt: &impl Abort) -> Config {
    small_config().expect(rt, "a configuration")
}

/// Two dies of 20 blocks of 16 pages, which fit it.
pub(crate) fn small_dies(rt: &impl Abort, alloc: Global) -> Vec<MemDie> {
    new_dies(alloc, 2, 20, 16).expect(rt, "memory")
}

/// A device over these dies, as it is opened.
pub(crate) fn opened(
    rt: &impl Abort,
    alloc: Global,
    config: Config,
    dies: Vec<MemDie>,
) -> Workbench {
    Workbench::new(alloc, config, dies).expect(rt, "the dies are opened")
}

/// A device over these dies, at rest.
pub(crate) fn at_rest(
    rt: &impl Abort,
    alloc: Global,
    config: Config,
    dies: Vec<MemDie>,
) -> Workbench {
    let mut bench = opened(rt, alloc, config, dies);
    bench.settle(64, 4);
    bench
}

/// The dies of a device whose power goes off.
pub(crate) fn power_off(bench: Workbench) -> Vec<MemDie> {
    bench.dies
}

/// Each of these addresses of unit 0 reads as a block of this byte.
pub(crate) fn expect_blocks(rt: &impl Abort, bench: &mut Workbench, blocks: &[(u8, u8)]) {
    for (address, byte) in blocks {
        assert!(rt;
            bench.reads(u32::from(*address), *byte),
            "at address {address}"
        );
    }
}
