//! Which tasks were aborted, and how many replies came of them all the same.
ghost use Rattle.std.specs.Prelude.{◌≡◌, ◌+◌, ◌-◌, ◌^◌, false, true, if◌then◌else◌, min, replicate};
ghost use Rattle.std.specs.Prelude.{slice_index_or, slice_set};

/// The task tags of aborted tasks, each until a command takes the tag again, and how many replies of
/// such tasks were handed out.
#[derive(Drop)]
pub(crate) struct Aborts {
    are_aborted: [bool; 256],
    late: u64,
}

impl Aborts {
    /// None is aborted yet.
    pub fn new() -> Aborts
        ensures none { result.are_aborted ≡ replicate 256 false }
        ensures late { result.late ≡ 0 }
    {
        Aborts {
            are_aborted: [false; 256],
            late: 0,
        }
    }

    /// The task of this tag is aborted.
    pub fn begin(&mut self, tag: u8)
        ensures begun { self.new.are_aborted ≡ slice_set self.old.are_aborted tag true }
        ensures late { self.new.late ≡ self.old.late }
    {
        self.are_aborted[tag as usize] = true;
    }

    /// A command has taken this tag again.
    pub fn end(&mut self, tag: u8)
        ensures ended { self.new.are_aborted ≡ slice_set self.old.are_aborted tag false }
        ensures late { self.new.late ≡ self.old.late }
    {
        self.are_aborted[tag as usize] = false;
    }

    /// Whether a reply of this tag that was handed out is one of an aborted task. It counts then.
    pub fn is_late(&mut self, tag: u8) -> bool
        ensures answer { result ≡ slice_index_or self.old.are_aborted tag false }
        ensures same { self.new.are_aborted ≡ self.old.are_aborted }
        ensures late { self.new.late
            ≡ (if result then min (self.old.late + 1) (2 ^ 64 - 1) else self.old.late) }
    {
        let is_late = self.are_aborted[tag as usize];
        if is_late {
            self.late = self.late.saturating_add(1);
        }
        is_late
    }

    /// How many replies came of aborted tasks.
    pub fn late(&self) -> u64
        ensures { result ≡ self.now.late }
    {
        self.late
    }
}
