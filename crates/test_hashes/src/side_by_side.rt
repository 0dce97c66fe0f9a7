//! Digests of four messages at a time: those of the cases, and those of hashing one message after
//! another.
use crate::cases::{CASES, EXAMPLES, LONGEST, MARKS, message};
use hex::FromHex;
use sha2::{Digest, Sha256};
use sha256_lanes::{FourHashes, sha256_four};
use std::test::Fail;

/// The four messages of a length have their digests, each in its place.
#[test]
fn four_messages_have_their_digests(rt: HostRuntime) -> Result<(), Fail> {
    let [a, b, c, d] = [
        message(MARKS[0]),
        message(MARKS[1]),
        message(MARKS[2]),
        message(MARKS[3]),
    ];
    for case in &CASES {
        let n = case.length;
        assert!(rt; n <= LONGEST, "{n} bytes are too many");
        let found = sha256_four(&a[..n], &b[..n], &c[..n], &d[..n]);
        for (digest, text) in found.iter().zip(case.digests.iter()) {
            let expected = <[u8; 32]>::from_hex(text)?;
            assert!(rt; *digest == expected, "{n} bytes");
        }
    }
    Ok(())
}

/// One message in all four places has its digest in each.
#[test]
fn examples_have_their_digests(rt: HostRuntime) -> Result<(), Fail> {
    for example in &EXAMPLES {
        let m = example.message;
        let expected = <[u8; 32]>::from_hex(example.digest)?;
        for digest in &sha256_four(m, m, m, m) {
            assert!(rt; *digest == expected, "{}", example.digest);
        }
    }
    Ok(())
}

/// Four messages of each length up to five blocks have the digests that they have one by one.
#[test]
fn four_digests_are_those_of_each(rt: HostRuntime) {
    let [a, b, c, d] = [
        message(MARKS[3]),
        message(MARKS[0]),
        message(MARKS[1]),
        message(MARKS[2]),
    ];
    for n in 0..321usize {
        let [first, second, third, fourth] = sha256_four(&a[..n], &b[..n], &c[..n], &d[..n]);
        assert!(rt; first == Sha256::digest(&a[..n]), "the first of {n} bytes");
        assert!(rt;
            second == Sha256::digest(&b[..n]),
            "the second of {n} bytes"
        );
        assert!(rt; third == Sha256::digest(&c[..n]), "the third of {n} bytes");
        assert!(rt;
            fourth == Sha256::digest(&d[..n]),
            "the fourth of {n} bytes"
        );
    }
}

/// Four messages of each length up to five blocks, of which whole blocks come first, have the
/// digests that they have at once.
#[test]
fn parts_have_the_digests_of_the_whole(rt: HostRuntime) {
    let [a, b, c, d] = [
        message(MARKS[1]),
        message(MARKS[3]),
        message(MARKS[2]),
        message(MARKS[0]),
    ];
    for n in 0..321usize {
        let first = n / 128 * 64;
        let mut hashes = FourHashes::new();
        hashes.update(&a[..first], &b[..first], &c[..first], &d[..first]);
        let found = hashes.finish(&a[first..n], &b[first..n], &c[first..n], &d[first..n]);
        let expected = sha256_four(&a[..n], &b[..n], &c[..n], &d[..n]);
        assert!(rt; found == expected, "{n} bytes");
    }
}
