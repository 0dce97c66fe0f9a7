//! Whole commands of a host, queries and short exchanges, each written into a buffer.
ghost use Rattle.std.specs.Prelude.{◌≡◌, ◌<◌, ◌^◌, IfSome};
ghost use Rattle.ufs_spec.specs.CdbFields.{is_mode_page, selects_modes};
ghost use Rattle.ufs_spec.specs.Cdbs.{IsCdb, SpellsCdb, blocks_of, direction_of, option_byte, selects_operations};
ghost use Rattle.ufs_spec.specs.Messages.{AreFlags};
ghost use Rattle.ufs_spec.specs.declared.Cdb.{Cdb};
ghost use Rattle.ufs_spec.specs.declared.Cdb.TheVariants.{Tell};
ghost use Rattle.ufs_messages.specs.Commands.{IsAsked, IsCdbWritten, IsFlush, IsLinkEvent, IsLong, IsNop, IsQueryWritten, IsRead};
ghost use Rattle.ufs_messages.specs.Commands.{IsSpelled, IsTaskRequest, IsUnmap, IsUnmapList, IsVerify, IsWrite, asked_cdb};
ghost use Rattle.ufs_messages.specs.Commands.{flags_of, list_bytes, long_cdb, long_option, query_function};
ghost use Rattle.ufs_messages.specs.Commands.{selected_cdb, selects_pages, sixteen_bytes};

use crate::{data_of, put, put_with};
use scsi_cdb::{bytes_of, length_of};
use ufs_bytes::{write_u32, write_u64};
use ufs_handle::Fault;
use ufs_spec::codes::{HARDWARE_RESET, LINK_RESET};
use ufs_spec::operations::{
    FUA, IMMED, INQUIRY, MAINTENANCE_IN, MODE_SENSE_6, MODE_SENSE_10, PRE_FETCH_16, READ_16,
    READ_CAPACITY_10, REPORT_LUNS, REQUEST_SENSE, SEND_DIAGNOSTIC, SERVICE_ACTION_IN_16,
    SYNCHRONIZE_CACHE_16, TEST_UNIT_READY, WRITE_16,
};
use ufs_spec::{Asked, Cdb, Data, Message, Told};

/// The COMMAND with this CDB, whose numbers are in their ranges.
pub(crate) fn put_cdb(
    lun: u8,
    tag: u8,
    expected: u32,
    cdb: &Cdb,
    into: &mut [u8],
) -> Result<(), Fault>
    requires { IsCdb cdb.now }
    ensures { IsCdbWritten lun tag expected cdb.now result into.old into.new }
{
    put_with(flags_of(cdb), lun, tag, expected, bytes_of(cdb), into)
}

/// The flags of a COMMAND by the way in which the data of its CDB go.
fn flags_of(cdb: &Cdb) -> u8
    ensures flags { result ≡ flags_of (direction_of cdb.now) }
    ensures known { AreFlags result }
{
    match cdb {
        Cdb::Nothing
        | Cdb::Flush { .. }
        | Cdb::Verify {
            compared: false,
            ..
        }
        | Cdb::Prefetch { .. }
        | Cdb::Diagnose { .. } => 0x00,
        Cdb::Write { .. }
        | Cdb::Verify { compared: true, .. }
        | Cdb::Unmap { .. }
        | Cdb::SecurityOut { .. } => 0x20,
        _ => 0x40,
    }
}

/// Writes the COMMAND of a READ(10): so many blocks of 4096 bytes, from this address on.
///
/// # Errors
///
/// `Room` where the buffer has fewer than 32 bytes. It stays as it is then.
pub fn put_read(lun: u8, tag: u8, address: u32, blocks: u16, into: &mut [u8]) -> Result<(), Fault>
    ensures { IsRead lun tag address blocks result into.old into.new }
{
    let cdb = Cdb::Read {
        address: u64::from(address),
        blocks: u32::from(blocks),
    };
    put_cdb(lun, tag, u32::from(blocks) * 4096, &cdb, into)
}

/// Writes the COMMAND of a WRITE(10), with FUA where the blocks are to be durable once it is answered.
///
/// # Errors
///
/// `Room` where the buffer has fewer than 32 bytes. It stays as it is then.
pub fn put_write(
    lun: u8,
    tag: u8,
    address: u32,
    blocks: u16,
    forced: bool,
    into: &mut [u8],
) -> Result<(), Fault>
    ensures { IsWrite lun tag address blocks forced result into.old into.new }
{
    let cdb = Cdb::Write {
        address: u64::from(address),
        blocks: u32::from(blocks),
        forced,
    };
    put_cdb(lun, tag, u32::from(blocks) * 4096, &cdb, into)
}

/// Writes the COMMAND of a VERIFY(10): the device reads so many blocks from this address on, and sends
/// none. With BYTCHK 01 it compares them with what its host sends.
///
/// # Errors
///
/// `Room` where the buffer has fewer than 32 bytes. It stays as it is then.
pub fn put_verify(
    lun: u8,
    tag: u8,
    address: u32,
    blocks: u16,
    compared: bool,
    into: &mut [u8],
) -> Result<(), Fault>
    ensures { IsVerify lun tag address blocks compared result into.old into.new }
{
    let cdb = Cdb::Verify {
        address: u64::from(address),
        blocks: u32::from(blocks),
        compared,
    };
    put_cdb(lun, tag, length_of(0, &cdb), &cdb, into)
}

/// Writes the COMMAND of a SYNCHRONIZE CACHE(10), with IMMED where it is to be answered at once.
///
/// # Errors
///
/// `Room` where the buffer has fewer than 32 bytes. It stays as it is then.
pub fn put_flush(lun: u8, tag: u8, immediate: bool, into: &mut [u8]) -> Result<(), Fault>
    ensures { IsFlush lun tag immediate result into.old into.new }
{
    put_cdb(lun, tag, 0, &Cdb::Flush { immediate }, into)
}

/// Writes the COMMAND of an UNMAP whose list has one descriptor.
///
/// # Errors
///
/// `Room` where the buffer has fewer than 32 bytes. It stays as it is then.
pub fn put_unmap(lun: u8, tag: u8, into: &mut [u8]) -> Result<(), Fault>
    ensures { IsUnmap lun tag result into.old into.new }
{
    put_cdb(lun, tag, 24, &Cdb::Unmap { list: 24 }, into)
}

/// Writes the DATA OUT of such a list: so many blocks, from this address on, become zeros.
///
/// # Errors
///
/// `Room` where the buffer has fewer than 56 bytes. It stays as it is then.
pub fn put_unmap_list(
    lun: u8,
    tag: u8,
    address: u64,
    blocks: u32,
    into: &mut [u8],
) -> Result<(), Fault>
    ensures { IsUnmapList lun tag address blocks result into.old into.new }
{
    let list = list_of(address, blocks);
    let message = Message::DataOut {
        lun,
        tag,
        offset: 0,
        data: data_of(&list),
    };
    put(&message, into)
}

/// The list of an UNMAP with one descriptor (SBC, UNMAP parameter list).
fn list_of(address: u64, blocks: u32) -> [u8; 24]
    ensures { result ≡ list_bytes address blocks }
{
    let mut list = [0; 24];
    list[1] = 22;
    list[3] = 16;
    write_u64(&mut list, 8, address);
    write_u32(&mut list, 16, blocks);
    list
}

/// Writes the COMMAND with this operation code: TEST UNIT READY, REQUEST SENSE, INQUIRY, READ
/// CAPACITY(10), REPORT LUNS or READ CAPACITY(16), of no more than so many bytes of data.
///
/// # Errors
///
/// `Number` where it is another one, or the count has no room in its field, and `Room` where the buffer
/// has fewer than 32 bytes. It stays as it is then.
pub fn put_asking(
    operation: u8,
    lun: u8,
    tag: u8,
    allocation: u32,
    into: &mut [u8],
) -> Result<(), Fault>
    ensures { IsAsked (asked_cdb operation allocation) lun tag allocation result into.old into.new }
{
    put_asked(asked_cdb(operation, allocation), lun, tag, allocation, into)
}

/// The command with this operation code that asks for no more than so many bytes.
fn asked_cdb(operation: u8, allocation: u32) -> Option<Cdb>
    ensures { result ≡ asked_cdb operation allocation }
{
    match operation {
        TEST_UNIT_READY => Some(Cdb::Nothing),
        READ_CAPACITY_10 => Some(tell(Told::Capacity, 0, u32::MAX)),
        REPORT_LUNS => Some(tell(Told::Units, 2, allocation)),
        INQUIRY if allocation < 65536 => Some(tell(Told::Identity, 0, allocation)),
        REQUEST_SENSE if allocation < 256 => Some(tell(Told::Sense, 0, allocation)),
        SERVICE_ACTION_IN_16 => Some(tell(Told::LongCapacity, 0, allocation)),
        _ => None,
    }
}

/// Writes the COMMAND with this operation code that asks for what is selected, of no more than so many
/// bytes of data: INQUIRY, of a page of vital product data; MODE SENSE(6) or (10), by its bytes 2 and
/// 3; REPORT LUNS, by its byte 2; REPORT SUPPORTED OPERATION CODES, by its bytes 2 to 5; SEND
/// DIAGNOSTIC, without data, with 1 for a self-test and 0 for none.
///
/// # Errors
///
/// `Number` where it is another one, or has no such selection, or the count has no room in its field,
/// and `Room` where the buffer has fewer than 32 bytes. It stays as it is then.
pub fn put_asking_for(
    operation: u8,
    select: u32,
    lun: u8,
    tag: u8,
    allocation: u32,
    into: &mut [u8],
) -> Result<(), Fault>
    ensures { IsAsked (selected_cdb operation select allocation) lun tag allocation result into.old into.new }
{
    put_asked(
        selected_cdb(operation, select, allocation),
        lun,
        tag,
        allocation,
        into,
    )
}

/// Writes the COMMAND of what is asked, if that is a command.
fn put_asked(
    asked: Option<Cdb>,
    lun: u8,
    tag: u8,
    allocation: u32,
    into: &mut [u8],
) -> Result<(), Fault>
    requires { IfSome asked (λ (cdb : Cdb). IsCdb cdb) }
    ensures { IsAsked asked lun tag allocation result into.old into.new }
{
    match asked {
        Some(cdb) => put_cdb(lun, tag, allocation, &cdb, into),
        None => Err(Fault::Number),
    }
}

/// The command with this operation code that asks for what is selected.
fn selected_cdb(operation: u8, select: u32, allocation: u32) -> Option<Cdb>
    ensures { result ≡ selected_cdb operation select allocation }
{
    match operation {
        INQUIRY if select < 256 && allocation < 65536 => Some(tell(Told::Page, select, allocation)),
        MODE_SENSE_6 if selects_pages(select) && allocation < 256 => Some(tell(
            Told::ShortModes,
            select,
            allocation,
        )),
        MODE_SENSE_10 if selects_pages(select) && allocation < 65536 => Some(tell(
            Told::Modes,
            select,
            allocation,
        )),
        REPORT_LUNS if select <= 2 => Some(tell(Told::Units, select, allocation)),
        MAINTENANCE_IN if selects_operations(select) => Some(tell(
            Told::Operations,
            select,
            allocation,
        )),
        SEND_DIAGNOSTIC if select < 2 => Some(Cdb::Diagnose { tests: select == 1 }),
        _ => None,
    }
}

/// Whether bytes 2 and 3 of MODE SENSE select mode pages (SPC).
fn selects_pages(select: u32) -> bool
    ensures { result ≡ selects_pages select }
{
    select < 65536 && selects_modes(select)
}

/// Whether there is such a mode page, without a subpage, or all are asked for, with all subpages or
/// without.
fn selects_modes(select: u32) -> bool
    ensures { result ≡ selects_modes select }
{
    let page = select / 256 % 64;
    let subpage = select % 256;
    is_mode_page(page) && (subpage == 0 || (page == 0x3F && subpage == 0xFF))
}

/// Whether it is the code of a mode page: error recovery, caching, control, or all of them.
fn is_mode_page(page: u32) -> bool
    ensures { result ≡ is_mode_page page }
{
    page == 0x01 || page == 0x08 || page == 0x0A || page == 0x3F
}

/// Whether bits 6 to 3 of byte 2 of REPORT SUPPORTED OPERATION CODES are zero, the first of the four
/// bytes that select (SPC).
fn selects_operations(select: u32) -> bool
    ensures { result ≡ selects_operations select }
{
    let mut bytes = [0; 4];
    write_u32(&mut bytes, 0, select);
    bytes[0] & 0x78 == 0
}

/// Writes the COMMAND with this operation code and a CDB of sixteen bytes, on so many blocks of 4096
/// bytes from this address on: READ(16) or WRITE(16), of which the option is FUA, SYNCHRONIZE CACHE(16)
/// or PRE-FETCH(16), of which it is IMMED.
///
/// # Errors
///
/// `Number` where it is another one, or a READ or a WRITE of 1,048,576 blocks or more, whose bytes have
/// no count, and `Room` where the buffer has fewer than 32 bytes. It stays as it is then.
pub fn put_long(
    operation: u8,
    lun: u8,
    tag: u8,
    address: u64,
    blocks: u32,
    option: bool,
    into: &mut [u8],
) -> Result<(), Fault>
    ensures { IsLong operation lun tag address blocks option result into.old into.new }
{
    let options = long_options(operation, option);
    let bytes = sixteen_bytes_of(operation, options, address, blocks);
    put_spelled(
        long_cdb(operation, address, blocks, option),
        lun,
        tag,
        bytes,
        into,
    )
}

/// The command on blocks with this operation code.
fn long_cdb(operation: u8, address: u64, blocks: u32, option: bool) -> Option<Cdb>
    ensures { result ≡ long_cdb operation address blocks option }
{
    match operation {
        READ_16 if blocks < 1 << 20 => Some(Cdb::Read { address, blocks }),
        WRITE_16 if blocks < 1 << 20 => Some(Cdb::Write {
            address,
            blocks,
            forced: option,
        }),
        SYNCHRONIZE_CACHE_16 => Some(Cdb::Flush { immediate: option }),
        PRE_FETCH_16 => Some(Cdb::Prefetch { address, blocks }),
        _ => None,
    }
}

/// Its byte 1, with its option or without it.
fn long_options(operation: u8, option: bool) -> u8
    ensures { result ≡ option_byte (long_option operation) option }
{
    if !option {
        0
    } else if operation == READ_16 || operation == WRITE_16 {
        FUA
    } else {
        IMMED
    }
}

/// The sixteen bytes of a command with an address of 64 bits and a count of blocks (SBC).
fn sixteen_bytes_of(operation: u8, options: u8, address: u64, blocks: u32) -> [u8; 16]
    ensures { result ≡ sixteen_bytes operation options address blocks }
{
    let mut bytes = [0; 16];
    bytes[0] = operation;
    bytes[1] = options;
    write_u64(&mut bytes, 2, address);
    write_u32(&mut bytes, 10, blocks);
    bytes
}

/// Writes the COMMAND with these bytes, if they spell a command.
fn put_spelled(
    command: Option<Cdb>,
    lun: u8,
    tag: u8,
    bytes: [u8; 16],
    into: &mut [u8],
) -> Result<(), Fault>
    requires spelled { IfSome command (λ (cdb : Cdb). SpellsCdb cdb bytes) }
    requires few { IfSome command (λ (cdb : Cdb). blocks_of cdb < 2 ^ 20) }
    ensures { IsSpelled command lun tag bytes result into.old into.new }
{
    match command {
        Some(cdb) => put_with(flags_of(&cdb), lun, tag, length_of(0, &cdb), bytes, into),
        None => Err(Fault::Number),
    }
}

/// The command that asks for this, of no more than so many bytes.
fn tell(told: Told, select: u32, allocation: u32) -> Cdb
    ensures { result ≡ Tell told select allocation }
{
    Cdb::Tell {
        told,
        select,
        allocation,
    }
}

/// Writes a QUERY REQUEST (JESD220, 10.7.8) without data: the function goes with the opcode.
///
/// # Errors
///
/// `Room` where the buffer has fewer than 32 bytes. It stays as it is then.
pub fn put_query(
    tag: u8,
    asked: Asked,
    length: u16,
    value: u32,
    into: &mut [u8],
) -> Result<(), Fault>
    ensures { IsQueryWritten tag asked length value result into.old into.new }
{
    let message = Message::QueryRequest {
        tag,
        function: query_function(asked.opcode),
        asked,
        length,
        value,
        data: Data::new(),
    };
    put(&message, into)
}

/// The function of a query with this opcode.
fn query_function(opcode: u8) -> u8
    ensures { result ≡ query_function opcode }
{
    if matches!(opcode, 0x02 | 0x04 | 0x06 | 0x07 | 0x08) {
        0x81
    } else {
        0x01
    }
}

/// Writes a TASK MANAGEMENT REQUEST (JESD220, 10.7.6): `meant` is the tag of the task that is meant.
///
/// # Errors
///
/// `Room` where the buffer has fewer than 32 bytes. It stays as it is then.
pub fn put_task_request(
    lun: u8,
    tag: u8,
    function: u8,
    meant: u8,
    into: &mut [u8],
) -> Result<(), Fault>
    ensures { IsTaskRequest lun tag function meant result into.old into.new }
{
    let message = Message::TaskRequest {
        lun,
        tag,
        function,
        meant,
    };
    put(&message, into)
}

/// Writes a NOP OUT (JESD220, 10.7.11).
///
/// # Errors
///
/// `Room` where the buffer has fewer than 32 bytes. It stays as it is then.
pub fn put_nop(tag: u8, into: &mut [u8]) -> Result<(), Fault>
    ensures { IsNop tag result into.old into.new }
{
    put(&Message::NopOut { tag }, into)
}

/// Writes a LINK EVENT, with which whatever stands between a host and a device of profile 1 tells the device
/// of a reset: kind 1 is a hardware reset, and 2 a reset of the link or of the host's controller.
///
/// # Errors
///
/// `Number` where there is no such kind, and `Room` where the buffer has fewer than 32 bytes. It stays as it
/// is then.
pub fn put_link_event(kind: u8, into: &mut [u8]) -> Result<(), Fault>
    ensures { IsLinkEvent kind result into.old into.new }
{
    if kind == HARDWARE_RESET || kind == LINK_RESET {
        put(&Message::LinkEvent { kind }, into)
    } else {
        Err(Fault::Number)
    }
}
