//! Images: what is saved is loaded again.
use crate::scripts::Outcome;
use crate::steps::Script;
use crate::steps::Step::{Block, Command, Good, Lines, Send, Settle};
use std::alloc::Global;
use std::process::Abort;
use ufsim::{Call, CallFault, Sizes, call, read_image, write_image};

/// A script with a small device: one die of 32 blocks of 16 pages. The device has erased a block.
pub const SMALL: &[u8] = b"config 1 32 16 1 64 0\nunit 1 0 0\nturn\ntake 0\ndone 0 ok\n";

/// What it prints.
pub const SMALL_PRINTED: &[u8] = b"turn yes\ntake 0 erase 0\ndone 0 yes\n";

/// Its sizes.
const SMALL_SIZES: Sizes = Sizes {
    dies: 1,
    blocks: 32,
    pages: 16,
};

/// How many bytes an image of the row configuration has: 14, and for each of 4 times 16 blocks one
/// and 64 pages of 4192.
const ROW_LENGTH: usize = 17_170_510;

/// How many bytes an image of the small device has: 14, and for each of 32 blocks one and 16 pages
/// of 4192.
pub const SMALL_LENGTH: usize = 2_146_350;

/// A FUA write at the last address of unit 0 is saved with the dies, and read back after a load.
#[test]
fn a_saved_block_is_loaded_again(rt: HostRuntime) {
    let mut script = Script::new(rt.alloc());
    script.add(&[
        Settle("4"),
        Command("012000", "07", "00001000", "2a08000000ff000001"),
        Send("07", "FF", 1),
        Lines("take 0", "take 0 program 0 1"),
        Lines("done 0 ok", "done 0 yes"),
        Good("07"),
    ]);
    let image = script.save(&rt);
    assert_eq!(rt; image.len(), ROW_LENGTH);
    assert!(rt;
        image
            .as_slice()
            .starts_with(b"UFSIMAGE\x04\x00\x00\x10\x00\x40\x00")
    );
    let mut script = Script::new(rt.alloc());
    script.add(&[
        Settle("8"),
        Command("014000", "08", "00001000", "2800000000ff000001"),
        Settle("2"),
        Block("08", "ff"),
        Good("08"),
    ]);
    script.load(&rt, image.as_slice());
}

/// The image of the small device after these further lines, which print this.
pub fn saved(rt: &(impl Abort + AllocGlobal), lines: &[u8], printed: &[u8]) -> Vec<u8> {
    let mut image = Vec::new(rt.alloc());
    let script = joined(rt, SMALL, lines);
    let output = joined(rt, SMALL_PRINTED, printed);
    Outcome::of_save(rt.alloc(), script.as_slice(), &mut image).expect(rt, output.as_slice(), b"");
    image
}

/// These bytes, and then those.
pub fn joined(rt: &(impl Abort + AllocGlobal), first: &[u8], second: &[u8]) -> Vec<u8> {
    let mut all = Vec::new(rt.alloc());
    let first_fits = all.extend_from_slice(first).is_ok();
    let second_fits = all.extend_from_slice(second).is_ok();
    assert!(rt; first_fits && second_fits, "memory was refused");
    all
}

/// A block that became bad is bad in the image and after a load. What its failed program left is
/// zeros, and its next page is blank.
#[test]
fn a_bad_block_is_saved_and_loaded(rt: HostRuntime) {
    let image = saved(
        &rt,
        b"take 0\ndone 0 fail\n",
        b"take 0 program 0 0\ndone 0 yes\n",
    );
    let bytes = image.as_slice();
    assert_eq!(rt; bytes.len(), SMALL_LENGTH);
    assert_eq!(rt; bytes[14], 1);
    assert!(rt; bytes[15..4207].iter().all(|byte| *byte == 0));
    assert!(rt; bytes[4207..67_087].iter().all(|byte| *byte == 0xFF));
    assert_eq!(rt; bytes[67_087], 0);
    let mut rest = bytes;
    let Ok(dies) = read_image(rt.alloc(), &mut rest, SMALL_SIZES) else {
        panic!(rt; "the image was not read");
    };
    let mut again = Vec::new(rt.alloc());
    let written = write_image(&mut again, SMALL_SIZES, dies.as_slice());
    assert_eq!(rt; written, Ok(()));
    assert!(rt; again.as_slice() == bytes);
}

/// A program in flight at the end of the script has done nothing in the image.
#[test]
fn a_job_in_flight_is_not_in_the_image(rt: HostRuntime) {
    let before = saved(&rt, b"", b"");
    let in_flight = saved(&rt, b"take 0\n", b"take 0 program 0 0\n");
    let done = saved(
        &rt,
        b"take 0\ndone 0 ok\n",
        b"take 0 program 0 0\ndone 0 yes\n",
    );
    assert!(rt; before.as_slice() == in_flight.as_slice());
    assert!(rt; before.as_slice() != done.as_slice());
}

/// The action comes first, then the image, then the script; any other words are wrong.
#[test]
fn image_takes_an_action_and_two_files(rt: HostRuntime) {
    let alloc = rt.alloc();
    let save = ["ufsim", "image", "save", "an image", "a script"];
    assert!(rt;
        matches!(
            call(alloc, &save),
            Ok(Call::Save {
                image: "an image",
                script: "a script"
            })
        )
    );
    let load = ["ufsim", "image", "load", "a", "b"];
    assert!(rt;
        matches!(
            call(alloc, &load),
            Ok(Call::Load {
                image: "a",
                script: "b"
            })
        )
    );
    let check = ["ufsim", "image", "check", "a", "b"];
    assert!(rt;
        matches!(
            call(alloc, &check),
            Ok(Call::CheckImage {
                image: "a",
                script: "b"
            })
        )
    );
    let wrong = [
        ["ufsim", "image"].as_slice(),
        &["ufsim", "image", "save", "a"],
        &["ufsim", "image", "a", "b"],
        &["ufsim", "image", "keep", "a", "b"],
        &["ufsim", "image", "Save", "a", "b"],
        &["ufsim", "image", "save", "a", "b", "c"],
        &["ufsim", "image", "--help"],
    ];
    for words in wrong {
        assert!(rt; matches!(call(alloc, words), Err(CallFault::Usage)));
    }
}
