//! Reads by messages both settings of a device (JESD220, 10.7.8, 14.2 and 14.3).
use crate::fault::Word;
use crate::reading::{Visit, is_of};
use ufs_spec::codes::{QUERY_REQUEST, QUERY_RESPONSE};
use ufs_spec::{Upiu, read_u32};

/// Query function, standard read request.
const STANDARD_READ: u8 = 0x01;

/// READ ATTRIBUTE of bBootLunEn, and READ FLAG of fPermanentWPEn.
const READ_ATTRIBUTE: u8 = 0x03;

const BOOT_LUN_EN: u8 = 0x00;

const READ_FLAG: u8 = 0x05;

const PERMANENT_WP_EN: u8 = 0x02;

/// How long a query and its answer without data are.
const HEADER: usize = 32;

/// What was read of the settings.
#[derive(Clone, Copy)]
pub(crate) struct Settings {
    pub boot: u8,
    pub is_permanent: bool,
}

impl Visit {
    /// Both settings; `None` where a query for one is not answered rightly.
    pub fn settings(&mut self) -> Result<Option<Settings>, Word> {
        let Some(boot) = self.value(READ_ATTRIBUTE, BOOT_LUN_EN)? else {
            return Ok(None);
        };
        let Some(flag) = self.value(READ_FLAG, PERMANENT_WP_EN)? else {
            return Ok(None);
        };
        if flag > 1 {
            return Ok(None);
        }
        match u8::try_from(boot) {
            Ok(boot) => Ok(Some(Settings {
                boot,
                is_permanent: flag == 1,
            })),
            Err(_) => Ok(None),
        }
    }

    // The value that is told of an attribute or a flag; `None` where the query is not answered
    // rightly.
    fn value(&mut self, opcode: u8, idn: u8) -> Result<Option<u32>, Word> {
        if !self.send(&query(opcode, idn))? {
            return Ok(None);
        }
        match self.hear()? {
            Some(answer) => Ok(value_in(&answer, opcode, idn)),
            None => Ok(None),
        }
    }
}

// The QUERY REQUEST with the tag 0 that reads an attribute or a flag.
fn query(opcode: u8, idn: u8) -> [u8; HEADER] {
    let mut message = [0; HEADER];
    message[0] = QUERY_REQUEST;
    message[5] = STANDARD_READ;
    message[12] = opcode;
    message[13] = idn;
    message
}

// The value that the message tells, in bytes 20 to 23, if it answers such a query with success.
fn value_in(answer: &Upiu, opcode: u8, idn: u8) -> Option<u32> {
    let bytes = answer.as_slice();
    if !is_of(answer, QUERY_RESPONSE) || bytes.len() != HEADER {
        return None;
    }
    let is_right = bytes[5] == STANDARD_READ
        && bytes[6] == 0
        && bytes[12] == opcode
        && bytes[13] == idn;
    is_right.then_some(read_u32(bytes, 20))
}
