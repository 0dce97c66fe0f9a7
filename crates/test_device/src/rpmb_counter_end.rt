//! The write counter of the replay protected memory block comes to its end (JESD220, 12.4): dies whose settings page
//! was set by hand. The MACs are those of another HMAC with SHA-256.
use crate::dies::{expect_blocks, opened, power_off, row};
use crate::mendings::{data, marked_dies, put};
use nand_model::MemDie;
use page_tag::seal;
use std::alloc::Global;
use std::process::Abort;
use ufs_spec::{Page, Tag};
use workbench::Workbench;
use workbench::frames::{FrameBytes, Numbers, frame};

/// The key.
pub(crate) const KEY: [u8; 32] = [0x0B; 32];

/// The MAC of the last write, under the counter FFFFFFFEh, and of the next one.
const LAST_WRITE: [u8; 32] = [
    0x16, 0x16, 0x0F, 0xC5, 0x59, 0x73, 0x0D, 0xA1, 0x64, 0x17, 0xC0, 0x1F, 0x48, 0xA4, 0x9A, 0x29,
    0xDB, 0x30, 0x3E, 0xD4, 0xCE, 0x1C, 0x5D, 0x41, 0xD4, 0xDD, 0xAA, 0x9B, 0x05, 0xD6, 0x95, 0xDE,
];

const NEXT_WRITE: [u8; 32] = [
    0xFD, 0x67, 0x5F, 0x31, 0xF1, 0xD3, 0x45, 0x6B, 0x84, 0x88, 0x5B, 0xD5, 0x09, 0x6A, 0xA4, 0xC0,
    0x80, 0xAB, 0xE2, 0x3B, 0xEB, 0xB0, 0xD5, 0x6D, 0x31, 0x72, 0x0C, 0xD1, 0x92, 0x66, 0x0D, 0xCC,
];

/// The MACs of the responses to a request for their results.
const LAST_RESULT: [u8; 32] = [
    0xE8, 0xBE, 0x7E, 0x87, 0xB5, 0x32, 0x13, 0x53, 0xD5, 0xDD, 0x99, 0x13, 0x4C, 0x75, 0xEC, 0xF4,
    0xEC, 0x0D, 0xBF, 0x42, 0x49, 0xB9, 0x47, 0x0C, 0x54, 0x80, 0x0B, 0x11, 0x37, 0x8F, 0xBA, 0x59,
];

const NEXT_RESULT: [u8; 32] = [
    0x40, 0xF2, 0x9B, 0xF6, 0x2C, 0x8C, 0xE7, 0x88, 0x15, 0x39, 0x6F, 0x2F, 0x36, 0xBB, 0xE0, 0xDA,
    0xCB, 0x52, 0xE6, 0xA4, 0x32, 0xBB, 0x15, 0x2B, 0xDF, 0x0F, 0x59, 0x37, 0x95, 0x3D, 0xFC, 0x3D,
];

/// The MACs of the write counter read responses before the last write and after it.
const COUNTER_BEFORE: [u8; 32] = [
    0xD0, 0xC3, 0xF0, 0x20, 0x3A, 0xC5, 0x7B, 0x85, 0x05, 0x6F, 0x9C, 0xF2, 0xDE, 0x52, 0x53, 0xA1,
    0xF1, 0x9E, 0xA1, 0x34, 0xC0, 0xC8, 0x8F, 0x35, 0x0C, 0xB9, 0x22, 0x53, 0x19, 0x81, 0x06, 0x28,
];

const COUNTER_AFTER: [u8; 32] = [
    0xAC, 0x55, 0xBA, 0x5F, 0x99, 0x5E, 0x27, 0xBB, 0x0D, 0xC2, 0x93, 0xA1, 0xBF, 0x13, 0x25, 0x1E,
    0xF5, 0x25, 0xC0, 0xE3, 0x88, 0x1D, 0x51, 0xCC, 0x7A, 0xB4, 0x10, 0xA7, 0x48, 0xDC, 0x3C, 0x6C,
];

/// The MAC of the data read response after it.
const READ: [u8; 32] = [
    0xDD, 0x2C, 0xA6, 0x23, 0x01, 0x04, 0x37, 0xAB, 0xC3, 0x1D, 0x25, 0xFD, 0x00, 0xF7, 0x97, 0xB2,
    0x3D, 0x82, 0x72, 0xC9, 0x7B, 0x8C, 0x12, 0xF6, 0x66, 0xF9, 0x89, 0x15, 0xCC, 0x6B, 0xF8, 0xA6,
];

/// No MAC.
pub(crate) const NONE: [u8; 32] = [0; 32];

/// A frame of this type, of a block of this byte at address 3.
pub(crate) fn at_3(mac: &[u8; 32], byte: u8, kind: u16, counter: u32, code: u16) -> FrameBytes {
    let numbers = Numbers {
        counter,
        address: 3,
        count: 1,
        code,
        kind,
    };
    frame(mac, byte, numbers)
}

/// A frame without a block, of this type and at this address.
pub(crate) fn told(mac: &[u8; 32], kind: u16, counter: u32, address: u16, code: u16) -> FrameBytes {
    let numbers = Numbers {
        counter,
        address,
        count: 0,
        code,
        kind,
    };
    frame(mac, 0, numbers)
}

/// The settings page, with the number 1: the key is set, and the counter is FFFFFFFEh.
fn settings_page() -> Page {
    let tag = Tag {
        kind: Tag::SETTINGS,
        unit: 0,
        address: 0,
        number: 1,
        index: 0,
        size: 1,
        frontier: 0,
    };
    let mut body = [0; 4096];
    body[2] = 1;
    body[4..36].copy_from_slice(&KEY);
    body[36..40].copy_from_slice(&[0xFF, 0xFF, 0xFF, 0xFE]);
    seal(&tag, &body)
}

/// Dies with a first mark, this settings page, and a block.
fn dies_near_the_end(rt: &impl Abort, alloc: Global) -> Vec<MemDie> {
    let mut dies = marked_dies(rt, alloc);
    put(rt, dies.as_mut_slice(), 1, 0, &settings_page());
    put(rt, dies.as_mut_slice(), 2, 0, &data(5, 2, 0x55));
    dies
}

/// The counter is asked for: the device tells this one.
pub(crate) fn expect_counter(rt: &impl Abort, bench: &mut Workbench, answer: &FrameBytes) {
    assert!(rt; bench.requests(1, &[told(&NONE, 2, 0, 0, 0)]));
    assert!(rt; bench.fetches(2, &[*answer]));
}

/// The write of these frames is answered GOOD, and its result is this.
pub(crate) fn expect_result(
    rt: &impl Abort,
    bench: &mut Workbench,
    write: &[FrameBytes],
    answer: &FrameBytes,
) {
    assert!(rt; bench.requests(1, write));
    assert!(rt; bench.requests(1, &[told(&NONE, 5, 0, 0, 0)]));
    assert!(rt; bench.fetches(2, &[*answer]));
}

/// The block at address 3 is asked for: the device gives 5Ah, with the bit that the counter is at its end.
fn expect_block(rt: &impl Abort, bench: &mut Workbench) {
    assert!(rt; bench.requests(1, &[at_3(&NONE, 0, 4, 0, 0)]));
    assert!(rt; bench.fetches(2, &[at_3(&READ, 0x5A, 0x0400, 0, 0x0080)]));
}

/// The counter is FFFFFFFFh and the block is written, each with the bit that says so.
fn expect_the_end(rt: &impl Abort, bench: &mut Workbench) {
    expect_counter(
        rt,
        bench,
        &told(&COUNTER_AFTER, 0x0200, 0xFFFF_FFFF, 0, 0x0080),
    );
    expect_block(rt, bench);
}

/// The last write that passes has the result 0080h, the next one 0085h. The counter stays at FFFFFFFFh, after a
/// stop too, and units are read as before.
#[test]
fn the_counter_comes_to_its_end(rt: HostRuntime) {
    let alloc = rt.alloc();
    let mut bench = opened(&rt, alloc, row(&rt), dies_near_the_end(&rt, alloc));
    let before = told(&COUNTER_BEFORE, 0x0200, 0xFFFF_FFFE, 0, 0);
    expect_counter(&rt, &mut bench, &before);
    expect_result(
        &rt,
        &mut bench,
        &[at_3(&LAST_WRITE, 0x5A, 3, 0xFFFF_FFFE, 0)],
        &told(&LAST_RESULT, 0x0300, 0xFFFF_FFFF, 3, 0x0080),
    );
    expect_the_end(&rt, &mut bench);
    expect_result(
        &rt,
        &mut bench,
        &[at_3(&NEXT_WRITE, 0x5A, 3, 0xFFFF_FFFF, 0)],
        &told(&NEXT_RESULT, 0x0300, 0xFFFF_FFFF, 3, 0x0085),
    );
    expect_the_end(&rt, &mut bench);
    let mut bench = opened(&rt, alloc, row(&rt), power_off(bench));
    expect_the_end(&rt, &mut bench);
    expect_blocks(&rt, &mut bench, &[(5, 0x55)]);
    drop(bench);
}
