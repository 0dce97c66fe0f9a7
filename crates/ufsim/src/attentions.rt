//! Ends by messages the attentions that the LUNs of a device of profile 1 have after its opening
//! (SAM, unit attention condition).
ghost use Rattle.std.specs.Prelude.{◌≡◌, Ok, true};
ghost use Rattle.ufs_spec.specs.Messages.{spelling, zeros};
ghost use Rattle.ufs_spec.specs.declared.messages.Message.TheVariants.{Command};

use crate::fault::Word;
use crate::reading::{Visit, is_good, is_of};
use crate::regions::RPMB;
use ufs_spec::codes::{COMMAND, RESPONSE};
use ufs_spec::{Numbers, Sense, UnitSpec, Upiu};

/// The status of a RESPONSE that has sense data, where they begin in it, and how long it is with
/// them (JESD220, 10.7.2).
const CHECK_CONDITION: u8 = 0x02;

const SENSE: usize = 34;

const WITH_SENSE: usize = 52;

impl Visit {
    /// Sends a TEST UNIT READY to each LUN that is read: the attention of a LUN refuses its first
    /// command. False where one is answered neither GOOD nor with the attention. A device of
    /// profile 0 tells no attentions, and is sent nothing.
    pub fn end_attentions(&mut self, numbers: &Numbers) -> Result<bool, Word>
        ensures profile_0 { numbers.now.profile ≡ 0 → (result ≡ Ok true) × (self.new ≡ self.old) }
    {
        if numbers.profile == 0 {
            return Ok(true);
        }
        Ok(self.end_those_of(numbers.units.as_slice())? && self.end_attention(RPMB)?)
    }

    // The same of these units of the configuration.
    fn end_those_of(&mut self, units: &[UnitSpec]) -> Result<bool, Word> {
        for (index, _) in units.iter().enumerate() {
            let Ok(unit) = u8::try_from(index) else {
                return Ok(false);
            };
            if !self.end_attention(unit)? {
                return Ok(false);
            }
        }
        Ok(true)
    }

    // The same of this LUN.
    fn end_attention(&mut self, lun: u8) -> Result<bool, Word> {
        if !self.send(&test_command(lun))? {
            return Ok(false);
        }
        match self.hear()? {
            Some(reply) => Ok(is_good(&reply) || is_attention(&reply)),
            None => Ok(false),
        }
    }
}

// Whether the reply is a RESPONSE with the sense data of an attention.
fn is_attention(reply: &Upiu) -> bool {
    let bytes = reply.as_slice();
    if !is_of(reply, RESPONSE) || bytes.len() != WITH_SENSE {
        return false;
    }
    let told = Sense {
        key: bytes[SENSE + 2],
        asc: bytes[SENSE + 12],
        ascq: bytes[SENSE + 13],
    };
    bytes[7] == CHECK_CONDITION && told == Sense::UNIT_ATTENTION
}

// The COMMAND of a TEST UNIT READY, with the tag 0 (JESD220, 10.7.1; SPC).
fn test_command(lun: u8) -> [u8; 32]
    ensures { result ≡ spelling (Command 0 lun 0 0 (zeros 16)) }
{
    let mut message = [0; 32];
    message[0] = COMMAND;
    message[2] = lun;
    message
}
