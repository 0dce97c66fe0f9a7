//! Which tasks of a host are aborted.
ghost use Rattle.std.specs.Prelude.{◌≡◌};
ghost use Rattle.stress.specs.Writes.{aborted_beside};

/// A task that a host begins beside a write and its read, to abort it: a WRITE before the write, or a READ
/// before the read. It is aborted as soon as it is begun, or behind its data.
#[derive(Clone, Copy)]
pub(crate) enum Aborted {
    Nothing,
    WriteAtOnce,
    WriteBehindData,
    ReadAtOnce,
    ReadBehindData,
}

/// What is aborted beside this write: beside each second one something is, each kind in turn.
pub(crate) fn aborted_beside(write: u8) -> Aborted
    ensures { result ≡ aborted_beside write }
{
    match write % 8 {
        1 => Aborted::WriteAtOnce,
        3 => Aborted::WriteBehindData,
        5 => Aborted::ReadAtOnce,
        7 => Aborted::ReadBehindData,
        _ => Aborted::Nothing,
    }
}
