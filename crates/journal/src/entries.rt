//! What a journal notes of the commands of a life, one after another.
ghost use Rattle.std.specs.Prelude.{◌≡◌};
ghost use Rattle.ufs_spec.specs.Commands.{command_of};
ghost use Rattle.journal.specs.Entries.{noted_of, setting_command};
ghost use Rattle.journal.specs.Heard.{settled};

use ufs_spec::Cmd;

/// A setting that a query asks for (JESD220, 14.2 and 14.3).
#[derive(Clone, Copy)]
pub enum Setting {
    /// bBootLunEn becomes 0, 1 or 2.
    Boot(u8),
    /// fPermanentWPEn is set.
    Permanent,
}

impl Setting {
    /// The command that it is.
    pub(crate) fn command(self) -> Cmd
        ensures { command_of result ≡ setting_command self }
    {
        match self {
            Setting::Boot(boot) => Cmd::SetBoot(boot),
            Setting::Permanent => Cmd::SetPermanent,
        }
    }
}

/// What is noted of a command.
#[derive(Drop)]
pub enum Entry {
    /// The device accepted it.
    Accepted(Cmd),
    /// The device accepted this setting or refused it at once: no answer tells which.
    Doubted(Setting),
    /// The device refused the setting that stood here.
    Refused,
}

/// The response code of success (JESD220, 10.7.9).
pub(crate) const SUCCESS: u8 = 0x00;

/// The one of a setting that was not accepted, or whose wait ended when the device was locked.
const GENERAL_FAILURE: u8 = 0xFF;

/// An entry in doubt is settled by the response code of its answer.
pub(crate) fn settle(entry: &mut Entry, is_locked: bool, code: u8)
    ensures { noted_of entry.new ≡ settled is_locked code (noted_of entry.old) }
{
    if let Entry::Doubted(setting) = entry {
        if code == SUCCESS {
            *entry = Entry::Accepted(setting.command());
        } else if code != GENERAL_FAILURE || !is_locked {
            *entry = Entry::Refused;
        }
    }
}
