//! Digests of one message, whose blocks are taken in four at a time: those of the cases, and those that
//! the kit's SHA-256 gives.
use crate::cases::{CASES, EXAMPLES, LONGEST, MARKS, message};
use hex::FromHex;
use sha2::{Digest, Sha256};
use sha256_lanes::OneHash;
use std::test::Fail;

/// The digest of a message of which so many times 256 bytes come first.
fn digest(message: &[u8], fours: usize) -> [u8; 32] {
    let mut hash = OneHash::new();
    let first = fours.min(message.len() / 256) * 256;
    hash.update(&message[..first]);
    hash.finish(&message[first..])
}

/// A message of each length has its digest, however many of its blocks come first.
#[test]
fn a_message_has_its_digest(rt: HostRuntime) -> Result<(), Fail> {
    for case in &CASES {
        let n = case.length;
        assert!(rt; n <= LONGEST, "{n} bytes are too many");
        for (mark, text) in MARKS.iter().zip(case.digests.iter()) {
            let whole = message(*mark);
            let expected = <[u8; 32]>::from_hex(text)?;
            assert!(rt; digest(&whole[..n], 0) == expected, "{n} bytes at once");
            assert!(rt; digest(&whole[..n], 15) == expected, "{n} bytes in parts");
        }
    }
    Ok(())
}

/// The examples have their digests.
#[test]
fn an_example_has_its_digest(rt: HostRuntime) -> Result<(), Fail> {
    for example in &EXAMPLES {
        let expected = <[u8; 32]>::from_hex(example.digest)?;
        for fours in 0..4usize {
            let found = digest(example.message, fours);
            assert!(rt; found == expected, "{} after {fours}", example.digest);
        }
    }
    Ok(())
}

/// A message of each length up to twelve blocks has the digest that the kit's SHA-256 gives.
#[test]
fn a_digest_is_the_kit_s(rt: HostRuntime) {
    let whole = message(MARKS[2]);
    for n in 0..769usize {
        let expected = Sha256::digest(&whole[..n]);
        assert!(rt; digest(&whole[..n], n / 512) == expected, "{n} bytes");
    }
}
