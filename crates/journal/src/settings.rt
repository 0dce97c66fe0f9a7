//! Whether the settings that were found may be those after a prefix of a life's commands.
ghost use Rattle.std.specs.Prelude.{◌≡◌, ◌==◌, ◌&&◌};
ghost use Rattle.journal.specs.Entries.{boot_shown, noted_of, permanent_shown, same_flag};

use crate::entries::{Entry, Setting};
use crate::found::FoundRest;
use ufs_spec::{Cmd, PlainDevice};

/// Whether each setting that was found may be there. Settings in doubt are there or not.
#[derive(Clone, Copy)]
pub(crate) struct ShownSettings {
    pub boot: bool,
    pub permanent: bool,
}

impl ShownSettings {
    /// Before all commands the settings are those of the base.
    pub(crate) fn over(base: &PlainDevice, rest: &FoundRest<'_>) -> ShownSettings
        ensures boot { result.boot ≡ (base.now.boot == rest.now.boot) }
        ensures permanent { result.permanent ≡ same_flag base.now.permanent rest.now.is_permanent }
    {
        ShownSettings {
            boot: base.boot() == rest.boot,
            permanent: is_same_flag(base.permanent(), rest.is_permanent),
        }
    }

    /// The same after one entry more.
    pub(crate) fn after(self, entry: &Entry, rest: &FoundRest<'_>) -> ShownSettings
        ensures boot { result.boot ≡ boot_shown rest.now.boot self.boot (noted_of entry.now) }
        ensures permanent { result.permanent
            ≡ permanent_shown rest.now.is_permanent self.permanent (noted_of entry.now) }
    {
        ShownSettings {
            boot: boot_after(self.boot, entry, rest.boot),
            permanent: permanent_after(self.permanent, entry, rest.is_permanent),
        }
    }

    /// Whether both may be there.
    pub(crate) fn are_both(self) -> bool
        ensures { result ≡ self.boot && self.permanent }
    {
        self.boot && self.permanent
    }
}

// Whether this boot setting may be there after the entry, if it may before (`is_shown`).
fn boot_after(is_shown: bool, entry: &Entry, found: u8) -> bool
    ensures { result ≡ boot_shown found is_shown (noted_of entry.now) }
{
    match entry {
        Entry::Accepted(Cmd::SetBoot(boot)) => *boot == found,
        Entry::Doubted(Setting::Boot(boot)) => is_shown || *boot == found,
        _ => is_shown,
    }
}

// Whether fPermanentWPEn may be this after the entry, if it may before (`is_shown`).
fn permanent_after(is_shown: bool, entry: &Entry, found: bool) -> bool
    ensures { result ≡ permanent_shown found is_shown (noted_of entry.now) }
{
    match entry {
        Entry::Accepted(Cmd::SetPermanent) => found,
        Entry::Doubted(Setting::Permanent) => is_shown || found,
        _ => is_shown,
    }
}

// Whether two flags are equal.
fn is_same_flag(one: bool, other: bool) -> bool
    ensures { result ≡ same_flag one other }
{
    if one { other } else { !other }
}
