//! What is known of each die: the block that it fills, and its job in flight.
ghost use Rattle.std.specs.Prelude.{◌≡◌};
ghost use Rattle.ufs_spec.specs.Translation.{same_reader};
ghost use Rattle.block_table.specs.Rows.{flight_reads, without_block, without_reader};

use ufs_spec::{Place, Reader};

/// The block of a die that is being filled, and its next page.
#[derive(Clone, Copy, Debug, Default, PartialEq, Eq)]
pub struct OpenBlock {
    pub block: u16,
    pub next: u16,
}

/// The job in flight on a die: a read; the program of the page of the step under way, or of the page
/// of this index in the pending group of this number; or an erase.
#[derive(Clone, Copy, Debug, PartialEq, Eq)]
pub enum Flight {
    Read {
        place: Place,
        reader: Reader,
    },
    Step {
        place: Place,
    },
    Group {
        place: Place,
        number: u64,
        index: u16,
    },
    Erase {
        block: u16,
    },
}

/// What is known of a die: the block that it fills, which has room, and its job in flight.
#[derive(Clone, Copy, Debug, Default, PartialEq, Eq)]
pub struct DieRow {
    pub filling: Option<OpenBlock>,
    pub flight: Option<Flight>,
}

/// Whether the two are the same reader. Nobody is no reader.
fn same_reader(reader: Reader, other: Reader) -> bool
    ensures { result ≡ same_reader reader other }
{
    match reader {
        Reader::ForNobody => false,
        _ => reader == other,
    }
}

/// Whether the job is a read for this reader.
pub(super) fn is_read_for(flight: Option<Flight>, reader: Reader) -> bool
    ensures { result ≡ flight_reads reader flight }
{
    match flight {
        Some(
            Flight::Read {
                place: _,
                reader: other,
            },
        ) => same_reader(reader, other),
        _ => false,
    }
}

/// The die, whose read goes on for nobody if it is for this reader.
pub(super) fn without_reader(row: DieRow, reader: u8) -> DieRow
    ensures { result ≡ without_reader reader row }
{
    match row.flight {
        Some(
            Flight::Read {
                place,
                reader: Reader::ForTask { tag, index: _ },
            },
        ) if tag == reader => DieRow {
            filling: row.filling,
            flight: Some(Flight::Read {
                place,
                reader: Reader::ForNobody,
            }),
        },
        _ => row,
    }
}

/// The die, whose read goes on for nobody if it is for this block of the reader.
pub(super) fn without_block(row: DieRow, reader: u8, block: u16) -> DieRow
    ensures { result ≡ without_block reader block row }
{
    match row.flight {
        Some(
            Flight::Read {
                place,
                reader: Reader::ForTask { tag, index },
            },
        ) if tag == reader && index == block => DieRow {
            filling: row.filling,
            flight: Some(Flight::Read {
                place,
                reader: Reader::ForNobody,
            }),
        },
        _ => row,
    }
}
