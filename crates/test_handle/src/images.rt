//! Dies that are saved and opened again.
use crate::rows::{CONFIG, UNITS, expect_block, settled, write};
use std::process::Abort;
use ufs_handle::{Fault, Handle};
use ufs_images::{open_image, put_length, save};

/// How many bytes an image of these dies has: 14, and for each of 2 times 32 blocks one and 16 pages
/// of 4192.
const LENGTH: usize = 4_292_686;

/// The bytes before the dies: the name, 2 dies, a zero, 32 blocks, 16 pages.
const HEAD: &[u8] = b"UFSIMAGE\x02\x00\x00\x20\x00\x10";

/// The bytes but for the last one.
fn all_but_the_last(bytes: &[u8]) -> &[u8] {
    match bytes.split_last() {
        Some((_, rest)) => rest,
        None => bytes,
    }
}

/// A block is read back from the image of the dies.
#[test]
fn a_saved_block_is_read_back(rt: HostRuntime) {
    let mut handle = settled(&rt, rt.alloc());
    write(&rt, rt.alloc(), &mut handle, 1, 31, 0x5A);
    let mut length = 0;
    assert!(rt; put_length(&mut handle, rt.alloc(), &mut length).is_some());
    assert_eq!(rt; length, LENGTH as u64);
    let mut image = Vec::from_elem(rt.alloc(), 0u8, LENGTH).expect(&rt, "memory");
    assert!(rt;
        matches!(
            save(&mut handle, rt.alloc(), &mut image[1..]),
            Some(Err(Fault::Room))
        )
    );
    assert!(rt;
        matches!(
            save(&mut handle, rt.alloc(), image.as_mut_slice()),
            Some(Ok(_))
        )
    );
    assert!(rt; image.as_slice().starts_with(HEAD));
    assert!(rt; handle.close(rt.alloc()));
    let cut = open_image(
        &mut handle,
        rt.alloc(),
        &CONFIG,
        &UNITS,
        all_but_the_last(image.as_slice()),
    );
    assert!(rt; matches!(cut, Err(Fault::Image)));
    let whole = open_image(&mut handle, rt.alloc(), &CONFIG, &UNITS, image.as_slice());
    assert!(rt; whole.is_ok());
    handle.settle(rt.alloc(), 32);
    expect_block(&rt, rt.alloc(), &mut handle, 2, 31, 0x5A);
    drop(handle);
}
