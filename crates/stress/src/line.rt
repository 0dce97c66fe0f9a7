//! The line that is printed.
ghost use Rattle.std.specs.Prelude.{◌≡◌, IfOk, string_bytes};
ghost use Rattle.stress.specs.Lines.{line_of};

use std::alloc::{AllocError, Global};

/// The line `stress dies D hosts H writes W bad B`, with its end.
pub(crate) fn line_of(
    alloc: Global,
    dies: u8,
    hosts: u8,
    writes: u64,
    bad: u64,
) -> Result<String, AllocError>
    ensures { IfOk result (λ line. string_bytes line ≡ line_of dies hosts writes bad) }
{
    format!(in alloc; "stress dies {dies} hosts {hosts} writes {writes} bad {bad}\n")
}
