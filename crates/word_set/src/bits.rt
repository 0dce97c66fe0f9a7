//! Words of 64 bits.

ghost use Rattle.std.specs.Prelude.{◌≡◌, ◌<◌, ℕ};
ghost use Rattle.word_set.specs.Tests.{IsFirstWithin, bit, changed};

/// How many numbers a word has a bit for.
pub(crate) const WORD: usize = 64;

/// Whether the bit of the word is 1.
pub(crate) fn has_bit(word: u64, place: usize) -> bool
    requires { place < 64 }
    ensures { result ≡ bit word place }
{
    (word >> place) & 1 == 1
}

/// The word, whose bit is 1 or not from now on.
pub(crate) fn with_bit(word: u64, place: usize, one: bool) -> u64
    requires { place < 64 }
    ensures { (j : ℕ) → j < 64 → bit result j ≡ changed (bit word) place one j }
{
    if one {
        word | (1 << place)
    } else {
        word & !(1 << place)
    }
}

/// The place of the lowest bit of the word that is 1, not below this one; none if there is no such
/// bit.
pub(crate) fn first_bit(word: u64, from: usize) -> Option<usize>
    requires { from < 64 }
    ensures { IsFirstWithin (bit word) from 64 result }
{
    let left = word & (u64::MAX << from);
    if left == 0 {
        return None;
    }
    Some(left.trailing_zeros() as usize)
}
