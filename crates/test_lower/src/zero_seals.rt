//! Pages of zeros, which are sealed with a hash that has taken in the zeros. The checks are those
//! of another implementation of SHA-256.
use page_tag::{UnsealedJob, ZeroSeal, seal};
use ufs_spec::{Block, Job, Place, Tag};

const TAG: Tag = Tag {
    kind: Tag::DATA,
    unit: 2,
    address: 5,
    number: 7,
    index: 0,
    size: 1,
    frontier: 6,
};

/// One hash seals many pages of zeros, and each has the check of all its bytes.
#[test]
fn a_page_of_zeros_has_its_check(rt: HostRuntime) {
    let zeros = ZeroSeal::new();
    let check = [
        0xE0, 0x9A, 0xA2, 0x98, 0xB8, 0x33, 0xE3, 0x9C, 0xB7, 0xEB, 0x17, 0x64, 0x4B, 0x04, 0xCA,
        0xB4, 0x45, 0xC5, 0xE6, 0x30, 0xD1, 0xA0, 0x25, 0x61, 0xFA, 0x01, 0xA8, 0xDE, 0x36, 0x22,
        0x1E, 0x72,
    ];
    for _ in 0..3 {
        let page = zeros.seal(&TAG, &[0; 4096]);
        assert!(rt; page.body == [0; 4096]);
        assert!(rt; &page.spare[64..] == check.as_slice());
        assert!(rt; page == seal(&TAG, &[0; 4096]));
    }
    let later = Tag { frontier: 7, ..TAG };
    assert!(rt; zeros.seal(&later, &[0; 4096]) == seal(&later, &[0; 4096]));
}

/// A block with one byte that is not zero, the last of all, is no block of zeros.
#[test]
fn a_page_with_one_byte_has_its_check(rt: HostRuntime) {
    let zeros = ZeroSeal::new();
    let mut body: Block = [0; 4096];
    body[4095] = 1;
    let check = [
        0x7D, 0xFE, 0x2A, 0x87, 0x07, 0x2F, 0x3A, 0xAD, 0x38, 0x60, 0xC4, 0xA6, 0x9B, 0xB3, 0xDB,
        0xBB, 0x46, 0xDD, 0x71, 0x8F, 0x25, 0xAC, 0x7E, 0x95, 0x92, 0x95, 0x99, 0x79, 0x67, 0x1B,
        0x71, 0x9C,
    ];
    let page = zeros.seal(&TAG, &body);
    assert!(rt; page.body == body);
    assert!(rt; &page.spare[64..] == check.as_slice());
}

/// A job is the same whether or not it is made with the hash of zeros.
#[test]
fn jobs_are_sealed_alike(rt: HostRuntime) {
    let zeros = ZeroSeal::new();
    let place = Place {
        die: 1,
        block: 2,
        page: 3,
    };
    for byte in [0x00u8, 0x5A] {
        let body = [byte; 4096];
        let plain = UnsealedJob::program(place, &TAG, &body).sealed();
        let with = UnsealedJob::program_with(&zeros, place, &TAG, &body).sealed();
        assert!(rt; is_program(&plain, place, &body));
        assert!(rt; is_program(&with, place, &body));
    }
}

/// Whether a job programs this block there, as it is sealed.
fn is_program(job: &Job, place: Place, body: &Block) -> bool {
    match job {
        Job::Program(at, page) => *at == place && *page == seal(&TAG, body),
        _ => false,
    }
}
