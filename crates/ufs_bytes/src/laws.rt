//! A field read is the number written, and all else stays. The functions do nothing: their contracts are the laws.
ghost use Rattle.std.specs.Prelude.{◌≡◌, ◌+◌, ◌<◌, ◌≤◌, ◌^◌, ℕ, List, length, take, drop};
ghost use Rattle.ufs_bytes.specs.Fields.{field_at, with_field};

/// The number that was written into two bytes is read again. The bytes before and after them stay,
/// and so does the count of all bytes.
#[tactic(auto, using(crate::proofs::ReadAgain::field_again, crate::proofs::ReadAgain::front_stays))]
pub fn u16_is_read_again()
    ensures number { (offset number : ℕ) (bytes : List ℕ) → offset + 2 ≤ length bytes → number < 2 ^ 16 →
        field_at 2 offset (with_field 2 offset number bytes) ≡ number }
    ensures before { (offset number : ℕ) (bytes : List ℕ) → offset + 2 ≤ length bytes →
        take offset (with_field 2 offset number bytes) ≡ take offset bytes }
    ensures after { (offset number : ℕ) (bytes : List ℕ) → offset + 2 ≤ length bytes →
        drop (offset + 2) (with_field 2 offset number bytes) ≡ drop (offset + 2) bytes }
    ensures length { (offset number : ℕ) (bytes : List ℕ) → offset + 2 ≤ length bytes →
        length (with_field 2 offset number bytes) ≡ length bytes }
{}

/// The number that was written into four bytes is read again. The bytes before and after them stay,
/// and so does the count of all bytes.
#[tactic(auto, using(crate::proofs::ReadAgain::field_again, crate::proofs::ReadAgain::front_stays))]
pub fn u32_is_read_again()
    ensures number { (offset number : ℕ) (bytes : List ℕ) → offset + 4 ≤ length bytes → number < 2 ^ 32 →
        field_at 4 offset (with_field 4 offset number bytes) ≡ number }
    ensures before { (offset number : ℕ) (bytes : List ℕ) → offset + 4 ≤ length bytes →
        take offset (with_field 4 offset number bytes) ≡ take offset bytes }
    ensures after { (offset number : ℕ) (bytes : List ℕ) → offset + 4 ≤ length bytes →
        drop (offset + 4) (with_field 4 offset number bytes) ≡ drop (offset + 4) bytes }
    ensures length { (offset number : ℕ) (bytes : List ℕ) → offset + 4 ≤ length bytes →
        length (with_field 4 offset number bytes) ≡ length bytes }
{}

/// The number that was written into eight bytes is read again. The bytes before and after them stay,
/// and so does the count of all bytes.
#[tactic(auto, using(crate::proofs::ReadAgain::field_again, crate::proofs::ReadAgain::front_stays))]
pub fn u64_is_read_again()
    ensures number { (offset number : ℕ) (bytes : List ℕ) → offset + 8 ≤ length bytes → number < 2 ^ 64 →
        field_at 8 offset (with_field 8 offset number bytes) ≡ number }
    ensures before { (offset number : ℕ) (bytes : List ℕ) → offset + 8 ≤ length bytes →
        take offset (with_field 8 offset number bytes) ≡ take offset bytes }
    ensures after { (offset number : ℕ) (bytes : List ℕ) → offset + 8 ≤ length bytes →
        drop (offset + 8) (with_field 8 offset number bytes) ≡ drop (offset + 8) bytes }
    ensures length { (offset number : ℕ) (bytes : List ℕ) → offset + 8 ≤ length bytes →
        length (with_field 8 offset number bytes) ≡ length bytes }
{}
