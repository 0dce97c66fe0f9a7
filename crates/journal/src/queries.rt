//! The settings that queries ask for (JESD220, 10.7.8, 14.2 and 14.3).
ghost use Rattle.std.specs.Prelude.{◌≡◌, ◌≤◌, ◌&&◌, Bool, Some, if◌then◌else◌, length, true};
ghost use Rattle.ufs_spec.specs.Commands.{Command};
ghost use Rattle.ufs_spec.specs.Plain.{Plain};
ghost use Rattle.ufs_spec.specs.Queries.{Query, query_code, setting_of, sets_permanent};
ghost use Rattle.ufs_spec.specs.declared.configs.Numbers.{Numbers};
ghost use Rattle.journal.specs.Entries.{setting_command};
ghost use Rattle.journal.specs.Queries.{asked_setting, boot_setting, query_in};

use crate::entries::Setting;
use ufs_spec::{read_u16, read_u32};

/// Query function, standard read request.
const STANDARD_READ: u8 = 0x01;

/// WRITE ATTRIBUTE of bBootLunEn, and SET FLAG of fPermanentWPEn.
const WRITE_ATTRIBUTE: u8 = 0x4;

const BOOT_LUN_EN: u8 = 0x00;

const SET_FLAG: u8 = 0x6;

const PERMANENT_WP_EN: u8 = 0x02;

/// The setting that a QUERY REQUEST asks for, if it is one that a device accepts which can accept
/// one.
pub(crate) fn setting_asked(message: &[u8]) -> Option<Setting>
    requires { 32 ≤ length message.now }
    ensures { result ≡ asked_setting (query_in message.now) }
{
    let is_read = message[5] == STANDARD_READ;
    if is_read || message[14] != 0 || message[15] != 0 || read_u16(message, 18) != 0 {
        return None;
    }
    if message[12] == WRITE_ATTRIBUTE && message[13] == BOOT_LUN_EN {
        boot_setting(read_u32(message, 20))
    } else if message[12] == SET_FLAG && message[13] == PERMANENT_WP_EN {
        Some(Setting::Permanent)
    } else {
        None
    }
}

// bBootLunEn becomes this value, if it is at most 2.
fn boot_setting(value: u32) -> Option<Setting>
    ensures { result ≡ boot_setting value }
{
    if value > 2 {
        return None;
    }
    Some(Setting::Boot(value as u8))
}

/// The settings that a journal takes from queries are just those that the table of queries lets a
/// device accept, but where fPermanentWPEn is set once more. The function does nothing: its contract
/// is a law.
pub fn settings_pass_the_table()
    ensures pass { (n : Numbers) (p : Plain) (q : Query) (s : Setting) → asked_setting q ≡ Some s →
        (setting_of q ≡ Some (setting_command s))
        × (query_code n p true q ≡ (if sets_permanent q && p.permanent then 0xF8 else 0x00)) }
    ensures no_other { (n : Numbers) (p : Plain) (may : Bool) (q : Query) (c : Command) →
        setting_of q ≡ Some c → query_code n p may q ≡ 0x00 →
        (s : Setting) × (asked_setting q ≡ Some s) × (setting_command s ≡ c) }
{}
