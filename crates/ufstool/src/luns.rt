//! The list of REPORT LUNS in words, each unit in a line of its own (SPC, REPORT LUNS parameter
//! data).
use crate::messages::write_lun;
use std::io::Write;
use std::{fmt, io};

/// The bytes that the header of a list has, and each entry.
const WIDTH: usize = 8;

/// Says in a line for each which units the list has, as far as the bytes go.
pub fn write_luns<W: Write>(out: &mut W, bytes: &[u8]) -> io::Result<()> {
    let Some((header, entries)) = bytes.split_at_checked(WIDTH) else {
        let count = bytes.len();
        return writeln!(
            out,
            "    cut short after {count} of the {WIDTH} bytes before the list"
        );
    };
    let mut length = 0u32;
    for byte in header.iter().take(4) {
        length = (length << 8) | u32::from(*byte);
    }
    let units = length / 8;
    let noun = if units == 1 { "unit" } else { "units" };
    writeln!(out, "    LUN list length {length}: {units} {noun}")?;
    let (entries, rest) = entries.as_chunks::<8>();
    for entry in entries {
        let words = Entry(entry);
        writeln!(out, "    {words}")?;
    }
    if rest.is_empty() {
        return Ok(());
    }
    let count = rest.len();
    writeln!(
        out,
        "    cut short after {count} of the {WIDTH} bytes of an entry"
    )
}

// An entry of the list.
#[derive(Clone, Copy)]
struct Entry<'a>(&'a [u8; 8]);

impl fmt::Display for Entry<'_> {
    fn fmt<W: fmt::Write>(&self, f: &mut fmt::Formatter<W>) -> fmt::Result {
        match lun_in(self.0) {
            Some(lun) => write_lun(f, lun),
            None => {
                f.write_str("an entry that names no unit:")?;
                for byte in self.0 {
                    write!(f, " {byte:02X}")?;
                }
                Ok(())
            }
        }
    }
}

// The LUN of the unit that an entry names: `00 n` a unit, `C1 n` a well known one, whose LUN has
// bit 7 set (JESD220, 10.8.5).
fn lun_in(entry: &[u8; 8]) -> Option<u8> {
    if entry.iter().skip(2).any(|byte| *byte != 0) || entry[1] >= 0x80 {
        return None;
    }
    match entry[0] {
        0x00 => Some(entry[1]),
        0xC1 => Some(entry[1] | 0x80),
        _ => None,
    }
}
