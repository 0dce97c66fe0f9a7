//! Checks of scripts over the dies of an image.
use crate::checks::{SMALL, TWO_PAGES_IN_FLIGHT, WRITTEN_AFTER_A_STOP};
use crate::scripts::Outcome;
use crate::steps::Script;
use std::process::Abort;

/// A script with one die of 32 blocks of 16 pages.
const ONE_DIE: &[u8] = b"config 1 32 16 1 64 0\nunit 1 0 0\nturn\n";

const BLOCKS: usize = 32;

const PAGES: usize = 16;

/// How many bytes an image has before its blocks, and for each page of them.
const HEAD: usize = 14;

const PAGE: usize = 4192;

/// The area of dies with an RPMB key, which no message tells, is written again. As after a stop, each
/// die erases a block before it programs its page of the two: four moments, all in the `settle` of
/// line 8.
#[test]
fn each_stop_over_an_image_is_good(rt: HostRuntime) {
    let mut life = Script::over(rt.alloc(), SMALL);
    life.add(&TWO_PAGES_IN_FLIGHT);
    let image = life.save(&rt);
    let mut script = Script::over(rt.alloc(), SMALL);
    script.add(&WRITTEN_AFTER_A_STOP[1..]);
    script.load(&rt, image.as_slice());
    script.check_over(
        &rt,
        image.as_slice(),
        b"check stops 12 bad 0\n",
        b"\rcheck line 8 of 9 stops 12 bad 0\r\x1b[K",
    );
}

/// Blank dies all of whose blocks are bad are never mended. But the device is locked, so it is read:
/// no stop is tried, and nothing is bad.
#[test]
fn dies_without_a_good_block_are_read(rt: HostRuntime) {
    let image = bad_blocks_alone(&rt);
    let mut rest = image.as_slice();
    let checked = Outcome::of_image_check(rt.alloc(), ONE_DIE, &mut rest);
    checked.expect(&rt, b"check stops 0 bad 0\n", b"");
}

// The image of one blank die whose blocks are bad.
fn bad_blocks_alone(rt: &(impl Abort + AllocGlobal)) -> Vec<u8> {
    let mut image = Vec::new(rt.alloc());
    let mut fits = image
        .extend_from_slice(b"UFSIMAGE\x01\x00\x00\x20\x00\x10")
        .is_ok();
    for _ in 0..BLOCKS {
        fits = image.push(1).is_ok() && fits;
        let end = image.len().saturating_add(PAGES * PAGE);
        fits = image.resize(end, 0xFF).is_ok() && fits;
    }
    assert!(rt;
        fits && HEAD + BLOCKS * (1 + PAGES * PAGE) == image.len(),
        "memory was refused"
    );
    image
}
