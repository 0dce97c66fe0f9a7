//! The check of a page, its last 32 spare bytes.
ghost use Rattle.std.specs.Prelude.{◌≡◌, ◌↔◌, ◌++◌, IsTrue, drop, take};
ghost use Rattle.ufs_spec.specs.Pages.{IsCheckRight, check_of};

use sha256_lanes::{OneHash, sha256_four};
use ufs_spec::{Block, Page};

/// The check of a block and of the first 64 spare bytes, the last 32 bytes of a page with both: one SHA-256 (FIPS
/// 180-4).
pub fn check_bytes(body: &Block, front: &[u8]) -> [u8; 32]
    ensures { result ≡ check_of body.now front.now }
{
    let mut hash = OneHash::new();
    hash.update(body);
    hash.finish(front)
}

/// Whether a page's check is that of its other bytes: one SHA-256.
pub fn is_check_right(page: &Page) -> bool
    ensures { IsTrue result ↔ IsCheckRight page.now }
{
    let (front, check) = page.spare.split_at(64);
    check_bytes(&page.body, front).as_slice() == check
}

/// Whether the check of each of four pages is that of its other bytes: four SHA-256 side by side,
/// which take the time of two.
pub fn are_checks_right(a: &Page, b: &Page, c: &Page, d: &Page) -> (bool, bool, bool, bool)
    ensures first { IsTrue result.0 ↔ IsCheckRight a.now }
    ensures second { IsTrue result.1 ↔ IsCheckRight b.now }
    ensures third { IsTrue result.2 ↔ IsCheckRight c.now }
    ensures fourth { IsTrue result.3 ↔ IsCheckRight d.now }
{
    let checks = sha256_four(
        &checked_bytes(a),
        &checked_bytes(b),
        &checked_bytes(c),
        &checked_bytes(d),
    );
    (
        has_check(a, &checks[0]),
        has_check(b, &checks[1]),
        has_check(c, &checks[2]),
        has_check(d, &checks[3]),
    )
}

// The bytes that the check of a page is of, in one row: its block and the first 64 spare bytes.
fn checked_bytes(page: &Page) -> [u8; 4160]
    ensures { result ≡ page.now.body ++ take 64 page.now.spare }
{
    let mut bytes = [0; 4160];
    let (body, front) = bytes.split_at_mut(4096);
    body.copy_from_slice(&page.body);
    front.copy_from_slice(&page.spare[..64]);
    bytes
}

// Whether this is the check that a page has.
fn has_check(page: &Page, check: &[u8; 32]) -> bool
    ensures { IsTrue result ↔ (drop 64 page.now.spare ≡ check.now) }
{
    let (_, last) = page.spare.split_at(64);
    check.as_slice() == last
}
