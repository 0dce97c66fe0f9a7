//! A CDB is read by the row of its operation code (SPC, SBC).
ghost use Rattle.std.specs.Prelude.{◌≡◌, ◌≢◌, ◌<◌, ℕ, IfSome, find, length, position, slice_index, true};
ghost use Rattle.ufs_spec.specs.declared.operations.Layout.TheVariants as form;
ghost use Rattle.std.specs.List.{list_all};
ghost use Rattle.ufs_spec.specs.CdbFields.{acts, command_of, data_fields, fields_in, has_only, is_group, is_mode_page};
ghost use Rattle.ufs_spec.specs.CdbFields.{is_optional, is_row_of, is_within, names_region, no_limit, range_fields};
ghost use Rattle.ufs_spec.specs.CdbFields.{row_of, selects, selects_modes, six_address, six_blocks, spelled_by};
ghost use Rattle.ufs_spec.specs.CdbFields.{taken_if, told_with, usage};
ghost use Rattle.ufs_spec.specs.Refusals.{goes_beyond};
ghost use Rattle.ufs_spec.specs.declared.scsi.Cdb.TheVariants.{Tell};
ghost use Rattle.ufs_spec.specs.Counting.{below};

use ufs_bytes::{read_u16, read_u32, read_u64};
use ufs_spec::operations::{ACTION, REPORTING};
use ufs_spec::{COMMANDS, Cdb, Fields, Kind, Layout, REGIONS, Row, Told};

/// All bits of a byte.
const ALL: u8 = 0xFF;

/// The 21 bits of an address in bytes 0 to 3 of READ(6) and WRITE(6).
const SIX_ADDRESS: u32 = 0x1F_FFFF;

/// What the count holds where a CDB has none: so it limits nothing.
const NO_LIMIT: u32 = u32::MAX;

/// The last selection of REPORT LUNS.
const LAST_SELECTION: u32 = 2;

/// The bits of byte 6 or 14 that hold a group number, and the last one that there is.
const GROUP: u8 = 0x1F;

const LAST_GROUP: u8 = 0x10;

/// The code that stands for all mode pages (SPC).
const ALL_MODES: u32 = 0x3F;

/// The protocol of RPMB, and 01h in the low byte of its specific field (JESD220, 12.4).
const RPMB_PROTOCOL: u16 = 0xEC01;

/// The row of the command whose operation code is byte 0 of the CDB, and whose service action is in
/// byte 1 where commands share the code, if the table has one.
pub fn row_of(bytes: &[u8; 16]) -> Option<Row>
    ensures { result ≡ row_of bytes.now }
{
    row_in(&COMMANDS, bytes)
}

// The first of these rows that is the CDB's.
fn row_in(rows: &[Row], bytes: &[u8; 16]) -> Option<Row>
    ensures { result ≡ find (is_row_of bytes.now) rows.now }
{
    match place_in(rows, bytes) {
        Some(place) => Some(rows[place]),
        None => None,
    }
}

// Where the first of these rows stands that is the CDB's.
fn place_in(rows: &[Row], bytes: &[u8; 16]) -> Option<usize>
    ensures place { result ≡ position (is_row_of bytes.now) rows.now }
    ensures within { IfSome result (λ place. place < length rows.now) }
{
    rows.iter().position(|row| is_row_of(row, bytes))
}

// Whether the row is that of the CDB's operation code, and of its service action if it has one.
fn is_row_of(row: &Row, bytes: &[u8; 16]) -> bool
    ensures { result ≡ is_row_of bytes.now row.now }
{
    row.operation == bytes[0] && acts(row.action, bytes)
}

// Whether the service action is this one, if commands share the operation code.
fn acts(action: Option<u8>, bytes: &[u8; 16]) -> bool
    ensures { result ≡ acts action bytes.now }
{
    match action {
        Some(action) => bytes[1] & ACTION == action,
        None => true,
    }
}

/// The command that a CDB of this row spells: none where a bit is set that no field takes, or a field
/// has a value that is none of its own.
pub fn spelled(row: &Row, bytes: &[u8; 16]) -> Option<Cdb>
    ensures { result ≡ spelled_by bytes.now row.now }
{
    if has_only(&usage(1, row.options[1], row.layout), bytes) {
        command_of(row.kind, fields_in(row.option, row.layout, bytes))
    } else {
        None
    }
}

/// Whether a CDB of this row, if there is one, has a bit set that a device of profile 0 does not take.
pub fn goes_beyond(row: Option<Row>, bytes: &[u8; 16]) -> bool
    ensures { result ≡ goes_beyond bytes.now row }
{
    match row {
        Some(row) => !has_only(&usage(0, row.options[0], row.layout), bytes),
        None => false,
    }
}

/// Which bits of each byte are the operation code's or a field's on a device of this profile, with
/// these options in byte 1 (SPC, CDB usage data).
pub fn usage(profile: u8, options: u8, layout: Layout) -> [u8; 16]
    ensures { result ≡ usage profile options layout }
{
    let (page, group) = if profile == 0 { (0, 0) } else { (ALL, GROUP) };
    match layout {
        Layout::Bare => [ALL, options, 0, 0, 0, 0, 0, 0, 0, 0, 0, 0, 0, 0, 0, 0],
        Layout::Six => [ALL, 0x1F, ALL, ALL, ALL, 0, 0, 0, 0, 0, 0, 0, 0, 0, 0, 0],
        Layout::Ten => [
            ALL, options, ALL, ALL, ALL, ALL, group, ALL, ALL, 0, 0, 0, 0, 0, 0, 0,
        ],
        Layout::Sixteen => [
            ALL, options, ALL, ALL, ALL, ALL, ALL, ALL, ALL, ALL, ALL, ALL, ALL, ALL, group, 0,
        ],
        Layout::SenseRequest => [ALL, 0, 0, 0, ALL, 0, 0, 0, 0, 0, 0, 0, 0, 0, 0, 0],
        Layout::UnitRequest => [
            ALL, options, page, ALL, ALL, 0, 0, 0, 0, 0, 0, 0, 0, 0, 0, 0,
        ],
        Layout::ActionRequest => [
            ALL, options, 0, 0, 0, 0, 0, 0, 0, 0, ALL, ALL, ALL, ALL, 0, 0,
        ],
        Layout::ModesSix => [ALL, options, ALL, ALL, ALL, 0, 0, 0, 0, 0, 0, 0, 0, 0, 0, 0],
        Layout::ModesTen => [
            ALL, options, ALL, ALL, 0, 0, 0, ALL, ALL, 0, 0, 0, 0, 0, 0, 0,
        ],
        Layout::ParameterList => [ALL, 0, 0, 0, 0, 0, 0, ALL, ALL, 0, 0, 0, 0, 0, 0, 0],
        Layout::Selection => [ALL, 0, ALL, 0, 0, 0, ALL, ALL, ALL, ALL, 0, 0, 0, 0, 0, 0],
        Layout::Security => [
            ALL, ALL, ALL, ALL, 0, 0, ALL, ALL, ALL, ALL, 0, 0, 0, 0, 0, 0,
        ],
        Layout::OperationsRequest => [
            ALL, options, REPORTING, ALL, ALL, ALL, ALL, ALL, ALL, ALL, 0, 0, 0, 0, 0, 0,
        ],
    }
}

// Whether no bit is set that is not taken.
fn has_only(taken: &[u8; 16], bytes: &[u8; 16]) -> bool
    ensures { result ≡ has_only taken.now bytes.now }
{
    for place in 0..16 {
        if !is_within(taken[place], bytes[place]) {
            return false;
        }
    }
    true
}

// Whether the byte has no bit set that is not one of these. A byte of which all are taken need not be
// looked at, so that nothing has to be known of it.
fn is_within(taken: u8, byte: u8) -> bool
    ensures { result ≡ is_within taken byte }
{
    taken == ALL || byte & (ALL - taken) == 0
}

// Blocks from an address on, of a group.
fn range_fields(address: u64, count: u32, group: u8, option: bool) -> Fields
    ensures { result ≡ range_fields address count group option }
{
    Fields {
        address,
        count,
        select: 0,
        protocol: 0,
        group,
        option,
    }
}

// A count of bytes, and what is selected.
fn data_fields(protocol: u16, select: u32, count: u32, option: bool) -> Fields
    ensures { result ≡ data_fields protocol select count option }
{
    Fields {
        address: 0,
        count,
        select,
        protocol,
        group: 0,
        option,
    }
}

// What the fields of a CDB of this layout hold.
fn fields_in(option: u8, layout: Layout, bytes: &[u8; 16]) -> Fields
    ensures { result ≡ fields_in option layout bytes.now }
{
    let is_set = is_optional(option, bytes);
    match layout {
        Layout::Bare => data_fields(0, 0, NO_LIMIT, is_set),
        Layout::Six => range_fields(six_address(bytes), six_blocks(bytes[4]), 0, false),
        Layout::Ten => range_fields(
            u64::from(read_u32(bytes, 2)),
            u32::from(read_u16(bytes, 7)),
            bytes[6],
            is_set,
        ),
        Layout::Sixteen => {
            range_fields(read_u64(bytes, 2), read_u32(bytes, 10), bytes[14], is_set)
        }
        Layout::UnitRequest => data_fields(
            0,
            u32::from(bytes[2]),
            u32::from(read_u16(bytes, 3)),
            is_set,
        ),
        _ => told_fields(layout, bytes),
    }
}

// The same of a layout whose options say nothing.
fn told_fields(layout: Layout, bytes: &[u8; 16]) -> Fields
    requires bare { layout ≢ form.Bare }
    requires ten { layout ≢ form.Ten }
    requires sixteen { layout ≢ form.Sixteen }
    requires six { layout ≢ form.Six }
    requires unit { layout ≢ form.UnitRequest }
    ensures { (option : ℕ) → result ≡ fields_in option layout bytes.now }
{
    let modes = u32::from(read_u16(bytes, 2));
    match layout {
        Layout::SenseRequest => data_fields(0, 0, u32::from(bytes[4]), false),
        Layout::ActionRequest => data_fields(0, 0, read_u32(bytes, 10), false),
        Layout::ModesSix => data_fields(0, modes, u32::from(bytes[4]), false),
        Layout::ModesTen => data_fields(0, modes, u32::from(read_u16(bytes, 7)), false),
        Layout::ParameterList => data_fields(0, 0, u32::from(read_u16(bytes, 7)), false),
        Layout::Selection => data_fields(0, u32::from(bytes[2]), read_u32(bytes, 6), false),
        Layout::OperationsRequest => {
            data_fields(0, read_u32(bytes, 2), read_u32(bytes, 6), false)
        }
        _ => data_fields(
            256 * u16::from(bytes[1]) + u16::from(bytes[3]),
            u32::from(bytes[2]),
            read_u32(bytes, 6),
            false,
        ),
    }
}

// The address of READ(6) and WRITE(6).
fn six_address(bytes: &[u8; 16]) -> u64
    ensures { result ≡ six_address bytes.now }
{
    u64::from(read_u32(bytes, 0) & SIX_ADDRESS)
}

// A count of blocks in one byte, where 0 means 256.
fn six_blocks(blocks: u8) -> u32
    ensures { result ≡ six_blocks blocks }
{
    if blocks == 0 { 256 } else { u32::from(blocks) }
}

// Whether this option is set.
fn is_optional(option: u8, bytes: &[u8; 16]) -> bool
    ensures { result ≡ is_optional option bytes.now }
{
    bytes[1] & option != 0
}

// The command of a kind with these fields; none if one of them has a value that is none of its own.
fn command_of(kind: Kind, fields: Fields) -> Option<Cdb>
    ensures { result ≡ command_of kind fields }
{
    let Fields {
        address,
        count,
        select,
        ..
    } = fields;
    match kind {
        Kind::Nothing => Some(Cdb::Nothing),
        Kind::Tell(told) => tell_of(told_with(fields.option, told), select, count),
        Kind::Read if is_group(fields.group) => Some(Cdb::Read {
            address,
            blocks: count,
        }),
        Kind::Write if is_group(fields.group) => Some(Cdb::Write {
            address,
            blocks: count,
            forced: fields.option,
        }),
        Kind::Flush if is_group(fields.group) => Some(Cdb::Flush {
            immediate: fields.option,
        }),
        Kind::Verify if is_group(fields.group) => Some(Cdb::Verify {
            address,
            blocks: count,
            compared: fields.option,
        }),
        Kind::Prefetch if is_group(fields.group) => Some(Cdb::Prefetch {
            address,
            blocks: count,
        }),
        Kind::Diagnose => Some(Cdb::Diagnose {
            tests: fields.option,
        }),
        Kind::Unmap => Some(Cdb::Unmap { list: count }),
        Kind::SecurityIn if names_region(fields) => Some(Cdb::SecurityIn {
            region: select as u8,
            length: count,
        }),
        Kind::SecurityOut if names_region(fields) => Some(Cdb::SecurityOut {
            region: select as u8,
            length: count,
        }),
        _ => None,
    }
}

// The command that tells this of what is selected; none if that may not be selected.
fn tell_of(told: Told, select: u32, allocation: u32) -> Option<Cdb>
    ensures { result ≡ taken_if (selects told select) (Tell told select allocation) }
{
    if selects(told, select) {
        Some(Cdb::Tell {
            told,
            select,
            allocation,
        })
    } else {
        None
    }
}

// What is told where the option is set: a page of vital product data in place of standard INQUIRY data.
fn told_with(option: bool, told: Told) -> Told
    ensures { result ≡ told_with option told }
{
    match told {
        Told::Identity if option => Told::Page,
        _ => told,
    }
}

// Whether this may be selected of what is told: units by REPORT LUNS, and pages by MODE SENSE.
fn selects(told: Told, select: u32) -> bool
    ensures { result ≡ selects told select }
{
    match told {
        Told::Units => select <= LAST_SELECTION,
        Told::Identity => select == 0,
        Told::Modes | Told::ShortModes => selects_modes(select),
        _ => true,
    }
}

// Whether there is such a mode page, without a subpage, or all are asked for.
fn selects_modes(select: u32) -> bool
    ensures { result ≡ selects_modes select }
{
    let page = select / 256 % 64;
    let subpage = select % 256;
    is_mode_page(page) && (subpage == 0 || (page == ALL_MODES && subpage == 0xFF))
}

// Whether it is the code of a mode page: error recovery, caching, control, or all of them.
fn is_mode_page(page: u32) -> bool
    ensures { result ≡ is_mode_page page }
{
    page == 0x01 || page == 0x08 || page == 0x0A || page == ALL_MODES
}

// Whether it is a group number that a host may name (SBC).
fn is_group(group: u8) -> bool
    ensures { result ≡ is_group group }
{
    group <= LAST_GROUP
}

// Whether the protocol is that of RPMB, and the region one of the four.
fn names_region(fields: Fields) -> bool
    ensures { result ≡ names_region fields }
{
    fields.protocol == RPMB_PROTOCOL && fields.select < u32::from(REGIONS)
}
