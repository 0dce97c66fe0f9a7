//! The table by which a query is refused: the first line that applies decides.
ghost use Rattle.std.specs.Prelude.{◌≡◌, ◌<◌, ◌==◌, ◌&&◌, ◌∷◌, [], IfSome, None, false, find};
ghost use Rattle.std.specs.Prelude.{is_none, length, not};
ghost use Rattle.std.specs.Prelude.{position};
ghost use Rattle.ufs_spec.specs.Configs.{is_between};
ghost use Rattle.ufs_spec.specs.Messages.{is_among};
ghost use Rattle.ufs_spec.specs.Plain.{Plain};
ghost use Rattle.ufs_spec.specs.Queries.{class_of, has_row, has_wrong_idn, has_wrong_opcode};
ghost use Rattle.ufs_spec.specs.Queries.{has_wrong_size};
ghost use Rattle.ufs_spec.specs.Queries.{has_wrong_value, is_any_unit, is_index, is_of_class};
ghost use Rattle.ufs_spec.specs.Queries.{is_row_of, is_selector};
ghost use Rattle.ufs_spec.specs.Queries.{is_shut, is_unit, may_write, parameter_of, query_code};
ghost use Rattle.ufs_spec.specs.Queries.{sets_permanent};
ghost use Rattle.ufs_spec.specs.Queries.{was_written, writes_boot, writes_lock};
ghost use Rattle.descriptors.specs.Asks.{query_of};
ghost use Rattle.descriptors.specs.Codes.{code_or_success};
ghost use Rattle.descriptors.specs.Lines.{index_is_wrong, selector_is_wrong, value_is_wrong};
ghost use Rattle.descriptors.specs.Lines.{unreadable, unwritable};

use crate::codes::{
    BOOT_LUN_EN, CLEAR_FLAG, CONFIG_DESCR_LOCK, NO_OPERATION, PERMANENT_WP_EN, READ_ATTRIBUTE,
    READ_DESCRIPTOR, READ_FLAG, RPMB_UNIT, SET_FLAG, STANDARD_READ, STANDARD_WRITE, TOGGLE_FLAG,
    WRITE_ATTRIBUTE, WRITE_DESCRIPTOR,
};
use crate::queries::QueryRequest;
use crate::responses::ResponseCode;
use ufs_spec::{Access, Asked, Class, Indexes, Numbers, PARAMETERS, Parameter};

/// How many units a device may have.
const MOST_UNITS: u8 = 8;

/// What the first line says that applies; `None` if none does. A setting is refused if none can be
/// accepted (`may_accept`).
pub fn first_line(
    numbers: &Numbers,
    is_permanent: bool,
    may_accept: bool,
    query: &QueryRequest,
) -> Option<ResponseCode>
    ensures code { (p : Plain) → p.permanent ≡ is_permanent →
        code_or_success result ≡ query_code numbers.now p may_accept (query_of query.now) }
    ensures passed { (p : Plain) → p.permanent ≡ is_permanent →
        is_none result ≡ (query_code numbers.now p may_accept (query_of query.now) == 0x00)
        && not (query.now.asked.opcode == 0) }
    ensures there { result ≡ None → has_wrong_idn numbers.now (query_of query.now) ≡ false }
    ensures value { result ≡ None → has_wrong_value numbers.now (query_of query.now) ≡ false }
    ensures open { result ≡ None → is_shut may_accept (query_of query.now) ≡ false }
{
    let asked = &query.asked;
    let row = parameter_of(numbers, asked);
    if has_wrong_opcode(query) {
        Some(ResponseCode::InvalidOpcode)
    } else if asked.opcode == NO_OPERATION {
        Some(ResponseCode::Success)
    } else if row.is_none() {
        Some(ResponseCode::InvalidIdn)
    } else if has_wrong_index(numbers, row, asked.index) {
        Some(ResponseCode::InvalidIndex)
    } else if has_wrong_selector(row, asked.selector) {
        Some(ResponseCode::InvalidSelector)
    } else if is_not_readable(row, asked.opcode) {
        Some(ResponseCode::NotReadable)
    } else if is_not_writable(row, asked.opcode) {
        Some(ResponseCode::NotWriteable)
    } else if has_wrong_size(query) {
        Some(ResponseCode::InvalidLength)
    } else if has_wrong_value(row, query) {
        Some(ResponseCode::InvalidValue)
    } else if was_written(is_permanent, query) {
        Some(ResponseCode::AlreadyWritten)
    } else if is_shut(may_accept, query) {
        Some(ResponseCode::GeneralFailure)
    } else {
        None
    }
}

// The row of the descriptor, the attribute or the flag that is asked for, if the table has one.
fn parameter_of(numbers: &Numbers, asked: &Asked) -> Option<Parameter>
    ensures { result ≡ parameter_of numbers.now asked.now }
{
    row_in(&PARAMETERS, numbers, asked)
}

// The first of these rows that is of what is asked for.
fn row_in(rows: &[Parameter], numbers: &Numbers, asked: &Asked) -> Option<Parameter>
    ensures { result
        ≡ find (is_row_of numbers.now (class_of asked.now.opcode) asked.now.idn) rows.now }
{
    match place_in(rows, numbers, asked) {
        Some(place) => Some(rows[place]),
        None => None,
    }
}

// Where the first of these rows stands that is of what is asked for.
fn place_in(rows: &[Parameter], numbers: &Numbers, asked: &Asked) -> Option<usize>
    ensures place { result
        ≡ position (is_row_of numbers.now (class_of asked.now.opcode) asked.now.idn) rows.now }
    ensures within { IfSome result (λ place. place < length rows.now) }
{
    rows.iter().position(|row| is_row_of(row, numbers, asked))
}

// Whether the row is of what is asked for, and a device with this configuration has it.
fn is_row_of(row: &Parameter, numbers: &Numbers, asked: &Asked) -> bool
    ensures { result ≡ is_row_of numbers.now (class_of asked.now.opcode) asked.now.idn row.now }
{
    is_of_class(class_of(asked.opcode), row) && row.idn == asked.idn && has_row(numbers, row)
}

// What an opcode is about; `None` if it is about nothing.
fn class_of(opcode: u8) -> Option<Class>
    ensures { result ≡ class_of opcode }
{
    match opcode {
        READ_DESCRIPTOR | WRITE_DESCRIPTOR => Some(Class::Descriptor),
        READ_ATTRIBUTE | WRITE_ATTRIBUTE => Some(Class::Attribute),
        READ_FLAG | SET_FLAG | CLEAR_FLAG | TOGGLE_FLAG => Some(Class::Flag),
        _ => None,
    }
}

// Whether the row is of this class.
fn is_of_class(class: Option<Class>, row: &Parameter) -> bool
    ensures { result ≡ is_of_class class row.now }
{
    match class {
        Some(Class::Descriptor) => matches!(row.class, Class::Descriptor),
        Some(Class::Attribute) => matches!(row.class, Class::Attribute),
        Some(Class::Flag) => matches!(row.class, Class::Flag),
        None => false,
    }
}

// Whether a device with this configuration has the row: each has those of profile 0.
fn has_row(numbers: &Numbers, row: &Parameter) -> bool
    ensures { result ≡ has_row numbers.now row.now }
{
    row.profile == 0 || row.profile == numbers.profile
}

// Line 1: the opcode is none, or one that the function does not have.
fn has_wrong_opcode(query: &QueryRequest) -> bool
    ensures { result ≡ has_wrong_opcode (query_of query.now) }
{
    match query.asked.opcode {
        NO_OPERATION => false,
        READ_DESCRIPTOR | READ_ATTRIBUTE | READ_FLAG => query.function == STANDARD_WRITE,
        WRITE_DESCRIPTOR | WRITE_ATTRIBUTE | SET_FLAG | CLEAR_FLAG | TOGGLE_FLAG => {
            query.function == STANDARD_READ
        }
        _ => true,
    }
}

// Line 4: the index names none of those that the row stands for.
fn has_wrong_index(numbers: &Numbers, row: Option<Parameter>, index: u8) -> bool
    ensures { result ≡ index_is_wrong numbers.now row index }
{
    match row {
        Some(row) => !is_index(numbers, row.indexes, index),
        None => false,
    }
}

// Whether the index names one of these.
fn is_index(numbers: &Numbers, indexes: Indexes, index: u8) -> bool
    ensures { result ≡ is_index numbers.now indexes index }
{
    match indexes {
        Indexes::One => index == 0,
        Indexes::Units | Indexes::Contexts => is_unit(numbers, index),
        Indexes::AllUnits => is_any_unit(numbers, index),
        Indexes::Strings => is_between(1, 5, u32::from(index)),
    }
}

// Whether there is a unit with this number.
fn is_unit(numbers: &Numbers, number: u8) -> bool
    ensures { result ≡ is_unit numbers.now number }
{
    usize::from(number) < numbers.units.len()
}

// Whether a device may have a unit with this number, or it is the index of the RPMB unit. A device
// of profile 0 has its units alone.
fn is_any_unit(numbers: &Numbers, index: u8) -> bool
    ensures { result ≡ is_any_unit numbers.now index }
{
    if numbers.profile == 0 {
        is_unit(numbers, index)
    } else {
        index < MOST_UNITS || index == RPMB_UNIT
    }
}

// Whether the value is one of these.
fn is_between(least: u32, greatest: u32, value: u32) -> bool
    ensures { result ≡ is_between least greatest value }
{
    least <= value && value <= greatest
}

// Line 5: the selector names none of those that the row stands for.
fn has_wrong_selector(row: Option<Parameter>, selector: u8) -> bool
    ensures { result ≡ selector_is_wrong row selector }
{
    match row {
        Some(row) => !is_selector(row.indexes, selector),
        None => false,
    }
}

// Whether the selector names one of these.
fn is_selector(indexes: Indexes, selector: u8) -> bool
    ensures { result ≡ is_selector indexes selector }
{
    match indexes {
        Indexes::Contexts => is_between(1, 15, u32::from(selector)),
        _ => selector == 0,
    }
}

// Line 6: it is read, and may not be.
fn is_not_readable(row: Option<Parameter>, opcode: u8) -> bool
    ensures { result ≡ unreadable row opcode }
{
    match row {
        Some(row) => {
            matches!(opcode, READ_DESCRIPTOR | READ_ATTRIBUTE | READ_FLAG) && !row.access.reads
        }
        None => false,
    }
}

// Line 7: it is written, set, cleared or toggled, and may not be.
fn is_not_writable(row: Option<Parameter>, opcode: u8) -> bool
    ensures { result ≡ unwritable row opcode }
{
    match row {
        Some(row) => writes(opcode) && !may_write(opcode, row.access),
        None => false,
    }
}

// Whether it is an opcode that writes, sets, clears or toggles.
fn writes(opcode: u8) -> bool
    ensures { result ≡ is_among (2 ∷ 4 ∷ 6 ∷ 7 ∷ 8 ∷ []) opcode }
{
    matches!(
        opcode,
        WRITE_DESCRIPTOR | WRITE_ATTRIBUTE | SET_FLAG | CLEAR_FLAG | TOGGLE_FLAG
    )
}

// Whether an opcode that writes, sets, clears or toggles may do so.
fn may_write(opcode: u8, access: Access) -> bool
    ensures { result ≡ may_write opcode access }
{
    match opcode {
        CLEAR_FLAG => access.clears,
        TOGGLE_FLAG => access.toggles,
        _ => access.writes,
    }
}

// Line 8: no byte of a descriptor is asked for, or an attribute or a flag has a length.
fn has_wrong_size(query: &QueryRequest) -> bool
    ensures { result ≡ has_wrong_size (query_of query.now) }
{
    if query.asked.opcode == READ_DESCRIPTOR {
        query.length == 0
    } else {
        query.length != 0
    }
}

// Line 9: an attribute is written with a value that it cannot have.
fn has_wrong_value(row: Option<Parameter>, query: &QueryRequest) -> bool
    ensures { result ≡ value_is_wrong row (query_of query.now) }
{
    match row {
        Some(row) => {
            query.asked.opcode == WRITE_ATTRIBUTE
                && !is_between(row.least, row.greatest, query.value)
        }
        None => false,
    }
}

// Line 10: what is written once was written: bConfigDescrLock when the device was made, and
// fPermanentWPEn if it is set.
fn was_written(is_permanent: bool, query: &QueryRequest) -> bool
    ensures { (p : Plain) → p.permanent ≡ is_permanent →
        result ≡ was_written p (query_of query.now) }
{
    writes_lock(query) || (sets_permanent(query) && is_permanent)
}

// Whether bConfigDescrLock is written.
fn writes_lock(query: &QueryRequest) -> bool
    ensures { result ≡ writes_lock (query_of query.now) }
{
    query.asked.opcode == WRITE_ATTRIBUTE && query.asked.idn == CONFIG_DESCR_LOCK
}

/// Whether fPermanentWPEn is set.
pub fn sets_permanent(query: &QueryRequest) -> bool
    ensures { result ≡ sets_permanent (query_of query.now) }
{
    query.asked.opcode == SET_FLAG && query.asked.idn == PERMANENT_WP_EN
}

/// Whether bBootLunEn is written.
pub fn writes_boot(query: &QueryRequest) -> bool
    ensures { result ≡ writes_boot (query_of query.now) }
{
    query.asked.opcode == WRITE_ATTRIBUTE && query.asked.idn == BOOT_LUN_EN
}

// Line 11: a setting, while none can be accepted.
fn is_shut(may_accept: bool, query: &QueryRequest) -> bool
    ensures { result ≡ is_shut may_accept (query_of query.now) }
{
    !may_accept && (writes_boot(query) || sets_permanent(query))
}
