//! Images of dies, told and drawn.
use die_map::{Form, draw_image};
use std::process::Abort;
use ufsim::save_text;
use ufstool::explain_image;

/// One die of 32 blocks. The first mark is page 0 of block 0, and the block of a WRITE with FUA is
/// page 1.
const ONE_DIE: &[u8] = b"config 1 32 16 1 64 0
unit 1 0 0
settle 4
host 012000010000000000000000000010002a080000000000000100000000000000
reply
fill 0200000100000000000010000000000000001000000000000000000000000000 5a 4096
take 0
done 0 ok
reply
";

/// Two dies of 20 blocks, without a spare one. As above, and then the program of a second WRITE
/// fails on die 1: its block 0 is bad.
const BAD_BLOCK: &[u8] = b"config 2 20 16 1 64 0
unit 4 0 0
settle 4
host 012000010000000000000000000010002a080000000000000100000000000000
reply
fill 0200000100000000000010000000000000001000000000000000000000000000 5a 4096
host 012000020000000000000000000010002a000000000100000100000000000000
reply
fill 0200000200000000000010000000000000001000000000000000000000000000 33 4096
take 0
take 1
done 0 ok
done 1 fail
";

/// What the letters of pages mean. It ends each drawing.
const KEY: &[u8] = b"pages: . free, L live, d dead, x torn, M newest mark, m older mark\n";

// The image after this script.
fn saved(rt: &(impl Abort + AllocGlobal), script: &[u8]) -> Vec<u8> {
    let alloc = rt.alloc();
    let mut image = Vec::new(alloc);
    let mut out = Vec::new(alloc);
    let mut faults = Vec::new(alloc);
    let status = save_text(alloc, script, "a.img", &mut image, &mut out, &mut faults);
    assert_eq!(rt; faults.as_slice(), b"".as_slice());
    assert_eq!(rt; status, 0);
    image
}

// This is told of the image.
fn expect_told(rt: &(impl Abort + AllocGlobal), image: &[u8], told: &[u8]) {
    let mut rest = image;
    let mut out = Vec::new(rt.alloc());
    let mut faults = Vec::new(rt.alloc());
    let status = explain_image(&mut rest, &mut out, &mut faults);
    assert_eq!(rt; faults.as_slice(), b"".as_slice());
    assert_eq!(rt; out.as_slice(), told);
    assert_eq!(rt; status, 0);
}

// The image is drawn so, and then comes what the letters mean.
fn expect_drawn(rt: &(impl Abort + AllocGlobal), image: &[u8], drawn: &[u8]) {
    let mut rest = image;
    let mut out = Vec::new(rt.alloc());
    let mut faults = Vec::new(rt.alloc());
    let status = draw_image(rt.alloc(), &mut rest, Form::Text, &mut out, &mut faults);
    assert_eq!(rt; faults.as_slice(), b"".as_slice());
    let found = out.as_slice().strip_suffix(KEY);
    assert_eq!(rt; found, Some(drawn));
    assert_eq!(rt; status, 0);
}

/// The power went, so the block whose next page could be programmed is closed.
#[test]
fn a_mark_and_a_block_are_drawn(rt: HostRuntime) {
    let image = saved(&rt, ONE_DIE);
    let told = b"1 die of 32 blocks of 16 pages\n    bad blocks: 0\n";
    expect_told(&rt, image.as_slice(), told);
    let drawn = b"die 0: 31 blocks free, 0 filling, 1 closed, 0 bad
  block    0 closed
    ML..............
  blocks 1 to 31 free
";
    expect_drawn(&rt, image.as_slice(), drawn);
}

/// A failed program leaves zeros, which are no page of the device.
#[test]
fn a_bad_block_is_told_and_drawn(rt: HostRuntime) {
    let image = saved(&rt, BAD_BLOCK);
    let told = b"2 dies of 20 blocks of 16 pages\n    block 0 of die 1 is bad\n    bad blocks: 1\n";
    expect_told(&rt, image.as_slice(), told);
    let drawn = b"die 0: 19 blocks free, 0 filling, 1 closed, 0 bad
  block    0 closed
    ML..............
  blocks 1 to 19 free
die 1: 19 blocks free, 0 filling, 0 closed, 1 bad
  block    0 bad
    x...............
  blocks 1 to 19 free
";
    expect_drawn(&rt, image.as_slice(), drawn);
}
