//! Images that are refused: malformed ones, and files that cannot be read or written.
use crate::images::{SMALL, SMALL_LENGTH, SMALL_PRINTED, joined, saved};
use crate::scripts::Outcome;
use std::io;
use std::io::{ErrorKind, Read, Write};
use std::process::Abort;

/// Where the byte of the small device's last block stands in its image.
const LAST_BLOCK: usize = 2_079_277;

/// A wrong byte of the head or of a block makes the image malformed: of the magic, the dies, the
/// zero, the blocks and the pages, and of the first and the last block.
#[test]
fn an_image_with_a_wrong_byte_is_refused(rt: HostRuntime) {
    let mut image = saved(&rt, b"", b"");
    let wrong = [
        (0, b'u'),
        (7, b'F'),
        (8, 2),
        (9, 1),
        (10, 1),
        (11, 33),
        (13, 17),
        (14, 2),
        (14, 255),
        (LAST_BLOCK, 2),
    ];
    for (place, byte) in wrong {
        let right = put(&rt, &mut image, place, byte);
        expect_load(&rt, image.as_slice(), b"", b"ufsim: image\n");
        put(&rt, &mut image, place, right);
    }
    expect_load(&rt, image.as_slice(), SMALL_PRINTED, b"");
}

// Puts the byte at this place, and gives the one that was there.
fn put(rt: &impl Abort, image: &mut Vec<u8>, place: usize, byte: u8) -> u8 {
    match image.as_mut_slice().get_mut(place) {
        Some(there) => std::mem::replace(there, byte),
        None => panic!(rt; "the image has no such place"),
    }
}

/// An image that ends anywhere before its end is malformed, and so is one with one byte more.
#[test]
fn an_image_of_another_length_is_refused(rt: HostRuntime) {
    let image = saved(&rt, b"", b"");
    for length in [0, 13, 14, LAST_BLOCK, SMALL_LENGTH - 1] {
        let part = first(&rt, image.as_slice(), length);
        expect_load(&rt, part, b"", b"ufsim: image\n");
    }
    let longer = joined(&rt, image.as_slice(), &[0]);
    expect_load(&rt, longer.as_slice(), b"", b"ufsim: image\n");
}

// The first bytes, so many of them.
fn first<'a>(rt: &impl Abort, image: &'a [u8], length: usize) -> &'a [u8] {
    match image.get(..length) {
        Some(part) => part,
        None => panic!(rt; "the image is shorter"),
    }
}

// A load of this image with the small script prints this, and has this fault.
fn expect_load(rt: &(impl Abort + AllocGlobal), image: &[u8], printed: &[u8], fault: &[u8]) {
    let mut rest = image;
    Outcome::of_load(rt.alloc(), SMALL, &mut rest).expect(rt, printed, fault);
}

/// A file with these bytes, behind which each read fails for this reason.
#[derive(Drop)]
struct Cut<'a> {
    bytes: &'a [u8],
    kind: ErrorKind,
}

impl Read for Cut<'_> {
    fn read(&mut self, into: &mut [u8]) -> io::Result<usize> {
        if self.bytes.is_empty() {
            return Err(io::Error::from(self.kind));
        }
        self.bytes.read(into)
    }
}

/// A file to which so many writes go well, and each later one fails for this reason.
#[derive(Drop)]
struct Full {
    writes: u32,
    kind: ErrorKind,
}

impl Write for Full {
    fn write(&mut self, bytes: &[u8]) -> io::Result<usize> {
        if self.writes == 0 {
            return Err(io::Error::from(self.kind));
        }
        self.writes -= 1;
        Ok(bytes.len())
    }

    fn flush(&mut self) -> io::Result<()> {
        Ok(())
    }
}

/// Where a write of the image fails, be it the first or a later one, the file is told, or memory.
#[test]
fn an_image_that_cannot_be_written_is_told(rt: HostRuntime) {
    let file = b"ufsim: file: a.img\n".as_slice();
    for (writes, kind, fault) in [
        (0, ErrorKind::PermissionDenied, file),
        (1, ErrorKind::StorageFull, file),
        (1000, ErrorKind::StorageFull, file),
        (2, ErrorKind::OutOfMemory, b"ufsim: memory\n"),
    ] {
        let mut image = Full { writes, kind };
        Outcome::of_save(rt.alloc(), SMALL, &mut image).expect(&rt, SMALL_PRINTED, fault);
    }
}

/// Where a read of the image fails, be it the first or a later one, the file is told, or memory.
#[test]
fn an_image_that_cannot_be_read_is_told(rt: HostRuntime) {
    let whole = saved(&rt, b"", b"");
    let file = b"ufsim: file: a.img\n".as_slice();
    for (length, kind, fault) in [
        (0, ErrorKind::NotFound, file),
        (14, ErrorKind::Other, file),
        (100_000, ErrorKind::Other, file),
        (SMALL_LENGTH, ErrorKind::Other, file),
        (14, ErrorKind::OutOfMemory, b"ufsim: memory\n"),
    ] {
        let bytes = first(&rt, whole.as_slice(), length);
        let mut image = Cut { bytes, kind };
        Outcome::of_load(rt.alloc(), SMALL, &mut image).expect(&rt, b"", fault);
        let mut image = Cut { bytes, kind };
        Outcome::of_image_check(rt.alloc(), SMALL, &mut image).expect(&rt, b"", fault);
    }
}

/// Where a line has a fault no byte of an image is written, and none is read where one of the first
/// lines has one.
#[test]
fn a_fault_of_a_line_comes_first(rt: HostRuntime) {
    let kind = ErrorKind::Other;
    let script = joined(&rt, SMALL, b"done 0 ok\n");
    let mut full = Full { writes: 0, kind };
    let fault = b"ufsim: line 6: event\n";
    Outcome::of_save(rt.alloc(), script.as_slice(), &mut full).expect(&rt, SMALL_PRINTED, fault);
    let mut cut = Cut { bytes: &[], kind };
    let config = b"config 1 16 16 1 64 0\nunit 1 0 0\n";
    Outcome::of_load(rt.alloc(), config, &mut cut).expect(&rt, b"", b"ufsim: line 2: config\n");
    let word = b"config 1 32 16 1 64 0\nturn\n";
    Outcome::of_load(rt.alloc(), word, &mut cut).expect(&rt, b"", b"ufsim: line 2: word\n");
    Outcome::of_image_check(rt.alloc(), config, &mut cut).expect(
        &rt,
        b"",
        b"ufsim: line 2: config\n",
    );
    Outcome::of_image_check(rt.alloc(), word, &mut cut).expect(&rt, b"", b"ufsim: line 2: word\n");
}
