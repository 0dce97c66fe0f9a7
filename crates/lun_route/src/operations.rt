//! The commands of a unit, which REPORT SUPPORTED OPERATION CODES tells (SPC).
ghost use Rattle.std.specs.Prelude.{◌≡◌, ◌++◌, ◌≤◌, ◌+◌, ◌<◌, IfSome, None, Some, find, length, position};
ghost use Rattle.std.specs.List.{filter, flat_map, list_any};
ghost use Rattle.arrayvec.specs.ArrayVec.{array_vec_len};
ghost use Rattle.byteorder.specs.Endian.{big_bytes};
ghost use Rattle.ufs_spec.specs.Identities.{all_commands, cdb_length, command_entry, entry_flags};
ghost use Rattle.ufs_spec.specs.Identities.{has_action, is_asked, is_reported, one_command};
ghost use Rattle.ufs_spec.specs.Identities.{operations_told, timeouts};
ghost use Rattle.ufs_spec.specs.CdbFields.{action_in, operation_in, reporting_of, wants_timeouts};
ghost use Rattle.lun_route.specs.Operations.{entry_head, entry_if_taken, is_of_actions, is_taken_and_asked};
ghost use Rattle.lun_route.specs.Operations.{is_unit_row, support_head};

use arrayvec::ArrayVec;
use scsi_cdb::usage;
use ufs_spec::{COMMANDS, Row, write_u16, write_u32};

/// The reporting options (SPC): all commands, one by its operation code, and one by its service
/// action too.
const ALL_COMMANDS: u32 = 0;

const BY_CODE: u32 = 1;

const BY_ACTION: u32 = 2;

/// What is known of a command: it is not there, or it is as the standard has it.
const NOT_THERE: u8 = 1;

const AS_STANDARD: u8 = 3;

/// The most bytes that the entries of all commands have: twenty for each row of the table.
const ENTRIES_LENGTH: usize = 480;

/// The most bytes that are told: how many the entries have, and the entries.
const TOLD_LENGTH: usize = 484;

/// A command timeouts descriptor that tells no time: ten bytes follow.
const TIMEOUTS: [u8; 12] = [0x00, 0x0A, 0, 0, 0, 0, 0, 0, 0, 0, 0, 0];

/// The bytes that REPORT SUPPORTED OPERATION CODES tells.
pub type OperationsTold = ArrayVec<u8, TOLD_LENGTH>;

// The bytes of the entries.
type Entries = ArrayVec<u8, ENTRIES_LENGTH>;

/// Whether the commands are reported that bytes 2 to 5 of a CDB select: all of them, one by an
/// operation code that has no service actions, or one by a code that has some, and its service action.
pub fn is_reported(select: u32) -> bool
    ensures { result ≡ is_reported select }
{
    match reporting_of(select) {
        ALL_COMMANDS => true,
        BY_CODE => !has_actions(&COMMANDS, operation_in(select)),
        BY_ACTION => has_actions(&COMMANDS, operation_in(select)),
        _ => false,
    }
}

/// What is told of the commands that are selected so (SPC, REPORT SUPPORTED OPERATION CODES
/// parameter data): of those of a unit of the configuration, on a device of profile 1, since no other is
/// asked.
pub fn operations_told(select: u32) -> OperationsTold
    ensures bytes { result.items ≡ operations_told select }
{
    let timed = wants_timeouts(select);
    if reporting_of(select) == ALL_COMMANDS {
        all_commands(timed)
    } else {
        one_command(timed, asked_row(&COMMANDS, select))
    }
}

// Whether command timeouts are asked for too (RCTD).
fn wants_timeouts(select: u32) -> bool
    ensures { result ≡ wants_timeouts select }
{
    select >= 1 << 31
}

// The reporting options.
fn reporting_of(select: u32) -> u32
    ensures { result ≡ reporting_of select }
{
    select / (1 << 24) % 8
}

// The operation code that is asked for.
fn operation_in(select: u32) -> u8
    ensures { result ≡ operation_in select }
{
    (select / (1 << 16) % 256) as u8
}

// Its service action.
fn action_in(select: u32) -> u16
    ensures { result ≡ action_in select }
{
    (select % (1 << 16)) as u16
}

// Whether commands share this operation code, and differ by their service actions.
fn has_actions(rows: &[Row], operation: u8) -> bool
    ensures { result ≡ list_any (is_of_actions operation) rows.now }
{
    rows.iter().any(|row| is_of_actions(row, operation))
}

// Whether the row has this operation code, and a service action.
fn is_of_actions(row: &Row, operation: u8) -> bool
    ensures { result ≡ is_of_actions operation row.now }
{
    row.operation == operation && row.action.is_some()
}

// The row that is asked for, among those that a unit takes.
fn asked_row(rows: &[Row], select: u32) -> Option<Row>
    ensures { result ≡ find (is_asked select) (filter is_unit_row rows.now) }
{
    match asked_place(rows, select) {
        Some(place) => Some(rows[place]),
        None => None,
    }
}

// Where it stands.
fn asked_place(rows: &[Row], select: u32) -> Option<usize>
    ensures place { result ≡ position (is_taken_and_asked select) rows.now }
    ensures within { IfSome result (λ place. place < length rows.now) }
{
    rows.iter().position(|row| is_taken_and_asked(row, select))
}

// Whether a unit takes the command of this row, and it is asked for.
fn is_taken_and_asked(row: &Row, select: u32) -> bool
    ensures { result ≡ is_taken_and_asked select row.now }
{
    row.takers.units && is_asked(row, select)
}

// Whether the row is that of the operation code that is asked for, and of its service action.
fn is_asked(row: &Row, select: u32) -> bool
    ensures { result ≡ is_asked select row.now }
{
    row.operation == operation_in(select) && has_action(row.action, action_in(select))
}

// Whether a command has the service action that is asked for, if it has one.
fn has_action(action: Option<u8>, asked: u16) -> bool
    ensures { result ≡ has_action asked action }
{
    match action {
        Some(action) => u16::from(action) == asked,
        None => true,
    }
}

// How many bytes a CDB with this operation code has.
fn cdb_length(operation: u8) -> u8
    ensures is { result ≡ cdb_length operation }
    ensures few { result ≤ 16 }
    ensures some { 1 ≤ result }
{
    if operation < 0x20 {
        6
    } else if operation < 0x60 {
        10
    } else if operation < 0xA0 {
        16
    } else {
        12
    }
}

// All commands: how many bytes their entries have, and the entries.
fn all_commands(timed: bool) -> OperationsTold
    ensures { result.items ≡ all_commands timed }
{
    let entries = entries_of(&COMMANDS, timed);
    counted(&entries)
}

// How many bytes there are, and these.
fn counted(entries: &Entries) -> OperationsTold
    ensures { result.items ≡ big_bytes 4 (array_vec_len entries.now) ++ entries.now.items }
{
    let mut head = [0; 4];
    write_u32(&mut head, 0, entries.len() as u32);
    let mut told = ArrayVec::new();
    let _ = told.try_extend_from_slice(&head);
    let _ = told.try_extend_from_slice(entries.as_slice());
    told
}

// The entries of these rows, of those that a unit takes.
fn entries_of(rows: &[Row], timed: bool) -> Entries
    requires { length rows.now ≤ 24 }
    ensures { result.items ≡ flat_map (command_entry timed) (filter is_unit_row rows.now) }
{
    let mut entries = ArrayVec::new();
    for row in rows.iter() {
        put_if_taken(&mut entries, timed, row);
    }
    entries
}

// Puts the entry of a row behind the others, if a unit takes it.
fn put_if_taken(entries: &mut Entries, timed: bool, row: &Row)
    requires { array_vec_len entries.old ≤ 460 }
    ensures entry { entries.new.items ≡ entries.old.items ++ entry_if_taken timed row.now }
    ensures few { array_vec_len entries.new ≤ array_vec_len entries.old + 20 }
{
    if row.takers.units {
        put_entry(entries, timed, row);
    }
}

// Puts the entry of a row behind the others.
fn put_entry(entries: &mut Entries, timed: bool, row: &Row)
    requires { array_vec_len entries.old ≤ 460 }
    ensures entry { entries.new.items ≡ entries.old.items ++ command_entry timed row.now }
    ensures few { array_vec_len entries.new ≤ array_vec_len entries.old + 20 }
{
    let _ = entries.try_extend_from_slice(&entry_head(timed, row));
    if timed {
        let _ = entries.try_extend_from_slice(&TIMEOUTS);
    }
}

// What an entry has before the timeouts: the operation code, the service action, CTDP and SERVACTV, and
// the length of the CDB.
fn entry_head(timed: bool, row: &Row) -> [u8; 8]
    ensures { result ≡ entry_head timed row.now }
{
    let mut bytes = [0; 8];
    bytes[0] = row.operation;
    write_u16(&mut bytes, 2, u16::from(row.action.unwrap_or(0)));
    bytes[5] = entry_flags(timed, row.action);
    write_u16(&mut bytes, 6, u16::from(cdb_length(row.operation)));
    bytes
}

// CTDP where the descriptor of timeouts follows, and SERVACTV where there is a service action.
fn entry_flags(timed: bool, action: Option<u8>) -> u8
    ensures { result ≡ entry_flags timed action }
{
    let ctdp = if timed { 2 } else { 0 };
    let servactv = if action.is_some() { 1 } else { 0 };
    ctdp + servactv
}

// What is told of one command: the bits of its CDB, or that it is not there.
fn one_command(timed: bool, row: Option<Row>) -> OperationsTold
    ensures { result.items ≡ one_command timed row }
{
    match row {
        Some(row) => command_there(timed, &row),
        None => command_missing(timed),
    }
}

// What is told of a command that is there.
fn command_there(timed: bool, row: &Row) -> OperationsTold
    ensures { result.items ≡ one_command timed (Some row.now) }
{
    let long = cdb_length(row.operation);
    let bits = usage(1, row.action.unwrap_or(row.options[1]), row.layout);
    let mut told = ArrayVec::new();
    let _ = told.try_extend_from_slice(&support_head(timed, AS_STANDARD, long));
    let _ = told.try_extend_from_slice(&[row.operation]);
    let _ = told.try_extend_from_slice(&bits[1..usize::from(long)]);
    put_timeouts(&mut told, timed);
    told
}

// What is told of a command that is not there.
fn command_missing(timed: bool) -> OperationsTold
    ensures { result.items ≡ one_command timed None }
{
    let mut told = ArrayVec::new();
    let _ = told.try_extend_from_slice(&support_head(timed, NOT_THERE, 0));
    put_timeouts(&mut told, timed);
    told
}

// Puts a command timeouts descriptor behind the rest, if it is asked for.
fn put_timeouts(told: &mut OperationsTold, timed: bool)
    requires { array_vec_len told.old ≤ 452 }
    ensures { told.new.items ≡ told.old.items ++ timeouts timed }
{
    if timed {
        let _ = told.try_extend_from_slice(&TIMEOUTS);
    }
}

// The first four bytes: CTDP above what is known of the command, and the length of its CDB.
fn support_head(timed: bool, known: u8, long: u8) -> [u8; 4]
    requires { known ≤ 3 }
    ensures { result ≡ support_head timed known long }
{
    let mut bytes = [0; 4];
    bytes[1] = if timed { 0x80 + known } else { known };
    write_u16(&mut bytes, 2, u16::from(long));
    bytes
}
