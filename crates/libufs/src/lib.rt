//! The device for C. `include/ufs.h` declares these functions and says what C has to uphold; what
//! they do is `ufs_handle`. An export answers a number: 0 where it went well, else a fault, which
//! `ufs_fault_text` tells.
#![tactic(auto)]

ghost use Rattle.std.specs.Prelude.{◌≡◌, ◌<◌, ◌≤◌, None, is_some, length, slice_index};
ghost use Rattle.ufs_handle.specs.Calls.{Called, GivesUp, Hears, Takes, Turns, Works};
ghost use Rattle.ufs_handle.specs.Exports.{EndsSo, FailsSo, IsJobShown, Numbered, OpensNew, RepliesInto, StopsAll};
ghost use Rattle.ufs_handle.specs.Numbers.{answer_number, ended_number, flag_number, heard_number, open_number};
ghost use Rattle.ufs_handle.specs.Numbers.{reply_number, saved_number, stop_number, taken_number};
ghost use Rattle.ufs_handle.specs.Steps.{Settles};
ghost use Rattle.ufs_messages.specs.Commands.{IsAsked, IsFlush, IsFrameWritten, IsLinkEvent, IsLong, IsNop};
ghost use Rattle.ufs_messages.specs.Commands.{IsQueryWritten, IsRead, IsSecurity, IsTaskRequest, IsUnmap, IsUnmapList, IsVerify};
ghost use Rattle.ufs_messages.specs.Commands.{IsWrite, ReadsFrame, asked_cdb, asked_of, selected_cdb};
ghost use Rattle.ufs_messages.specs.Written.{IsCommand, IsDataOut, IsMac, ReadsResponse};
ghost use Rattle.ufs_images.specs.Saved.{IsLength, OpensImage, SavesTo};
ghost use Rattle.ufs_handle.specs.declared.fault.Fault.TheVariants as fault;

use std::alloc::Global;
use ufs_handle::{
    Fault, Handle, PlainConfig, PlainJob, PlainUnit, answer_number, copy_text, ended_number,
    flag_number, heard_number, open_number, reply_number, saved_number, stop_number,
};
use ufs_images::{open_image, put_length, save};
use ufs_messages::{
    PlainFrame, PlainResponse, get_frame, get_response, put_asking, put_asking_for, put_command,
    put_data_out, put_flush, put_frame, put_link_event, put_long, put_mac, put_nop, put_query,
    put_read, put_security, put_task_request, put_unmap, put_unmap_list, put_verify, put_write,
};
use ufs_spec::Asked;

/// Opens a device over new dies in memory.
#[unsafe(no_mangle)]
pub extern "C" fn ufs_open(
    alloc: Global,
    device: &mut Handle,
    config: &PlainConfig,
    units: &[PlainUnit],
) -> u32
    ensures { Numbered answer_number result (λ answer.
        OpensNew config.now units.now device.old.value answer device.new.value) }
{
    answer_number(&device.open_new(alloc, config, units))
}

/// Opens a device over the dies of an image.
#[unsafe(no_mangle)]
pub extern "C" fn ufs_open_image(
    alloc: Global,
    device: &mut Handle,
    config: &PlainConfig,
    units: &[PlainUnit],
    image: &[u8],
) -> u32
    ensures { Numbered answer_number result (λ answer.
        OpensImage config.now units.now image.now device.old.value answer device.new.value) }
{
    answer_number(&open_image(device, alloc, config, units, image))
}

/// Closes the device, and gives up its dies in memory.
#[unsafe(no_mangle)]
pub extern "C" fn ufs_close(alloc: Global, device: &mut Handle) -> u32
    ensures closed { device.new.value ≡ None }
    ensures was { result ≡ open_number (is_some device.old.value) }
{
    open_number(device.close(alloc))
}

/// Hands the device a message.
#[unsafe(no_mangle)]
pub extern "C" fn ufs_host(alloc: Global, device: &mut Handle, message: &[u8]) -> u32
    ensures { Numbered heard_number result (λ answer.
        Called (Hears message.now) device.old.value answer device.new.value) }
{
    heard_number(&device.host(alloc, message))
}

/// Takes a reply that is due.
#[unsafe(no_mangle)]
pub extern "C" fn ufs_reply(
    alloc: Global,
    device: &mut Handle,
    into: &mut [u8],
    count: &mut usize,
) -> u32
    ensures { Numbered reply_number result (λ answer.
        RepliesInto into.old into.new count.old count.new device.old.value answer device.new.value) }
{
    reply_number(device.reply_into(alloc, into, count))
}

/// Takes one step of mending or of collection.
#[unsafe(no_mangle)]
pub extern "C" fn ufs_turn(alloc: Global, device: &mut Handle) -> u32
    ensures { Numbered (λ answer. flag_number answer fault.Nothing) result (λ answer.
        Called Turns device.old.value answer device.new.value) }
{
    flag_number(device.turn(alloc), Fault::Nothing)
}

/// A job for the die, which is then in flight.
#[unsafe(no_mangle)]
pub extern "C" fn ufs_take(alloc: Global, device: &mut Handle, die: u8, job: &mut PlainJob) -> u32
    ensures { Numbered taken_number result (λ answer.
        Called (Takes die) device.old.value answer device.new.value × IsJobShown answer job.old job.new) }
{
    flag_number(device.take_job(alloc, die, job), Fault::Nothing)
}

/// Ends the job in flight of a die of the program's own.
#[unsafe(no_mangle)]
pub extern "C" fn ufs_done(alloc: Global, device: &mut Handle, die: u8, how: u8, page: &[u8]) -> u32
    ensures { Numbered ended_number result (λ answer.
        EndsSo die how page.now device.old.value answer device.new.value) }
{
    ended_number(device.done_so(alloc, die, how, page))
}

/// From now on the dies are the program's own: those in memory are given up.
#[unsafe(no_mangle)]
pub extern "C" fn ufs_own_dies(alloc: Global, device: &mut Handle) -> u32
    ensures { Numbered (λ answer. open_number (is_some answer)) result (λ answer.
        Called GivesUp device.old.value answer device.new.value) }
{
    open_number(device.give_up_dies(alloc).is_some())
}

/// The die in memory does its job in flight.
#[unsafe(no_mangle)]
pub extern "C" fn ufs_work(alloc: Global, device: &mut Handle, die: u8) -> u32
    ensures { Numbered (λ answer. flag_number answer fault.NoJob) result (λ answer.
        Called (Works die) device.old.value answer device.new.value) }
{
    flag_number(device.work(alloc, die), Fault::NoJob)
}

/// The job in flight of the die in memory fails.
#[unsafe(no_mangle)]
pub extern "C" fn ufs_fail(alloc: Global, device: &mut Handle, die: u8, left: u8) -> u32
    ensures { Numbered ended_number result (λ answer.
        FailsSo die left device.old.value answer device.new.value) }
{
    ended_number(device.fail_so(alloc, die, left))
}

/// Rounds of a turn and of one job of each die in memory.
#[unsafe(no_mangle)]
pub extern "C" fn ufs_settle(alloc: Global, device: &mut Handle, rounds: u16) -> u32
    ensures { Numbered (λ answer. open_number (is_some answer)) result (λ answer.
        Called (Settles rounds) device.old.value answer device.new.value) }
{
    open_number(device.settle(alloc, rounds).is_some())
}

/// The power goes away, and the device is opened again over what is left.
#[unsafe(no_mangle)]
pub extern "C" fn ufs_stop(alloc: Global, device: &mut Handle, lefts: &[u8]) -> u32
    ensures { Numbered stop_number result (λ answer.
        StopsAll lefts.now device.old.value answer device.new.value) }
{
    stop_number(&device.stop_with(alloc, lefts))
}

/// How many bytes the image of the dies has.
#[unsafe(no_mangle)]
pub extern "C" fn ufs_image_length(alloc: Global, device: &mut Handle, length: &mut u64) -> u32
    ensures same { device.new.value ≡ device.old.value }
    ensures long { Numbered (λ answer. open_number (is_some answer)) result (λ answer.
        IsLength device.old.value answer length.old length.new) }
{
    open_number(put_length(device, alloc, length).is_some())
}

/// Saves the dies in memory as an image.
#[unsafe(no_mangle)]
pub extern "C" fn ufs_save(alloc: Global, device: &mut Handle, into: &mut [u8]) -> u32
    ensures same { device.new.value ≡ device.old.value }
    ensures saved { Numbered saved_number result (λ answer.
        SavesTo device.old.value answer into.old into.new) }
{
    saved_number(&save(device, alloc, into))
}

/// Writes a COMMAND.
#[unsafe(no_mangle)]
pub extern "C" fn ufs_command(
    flags: u8,
    lun: u8,
    tag: u8,
    expected: u32,
    cdb: &[u8],
    into: &mut [u8],
) -> u32
    ensures { Numbered answer_number result (λ answer.
        IsCommand flags lun tag expected cdb.now answer into.old into.new) }
{
    answer_number(&put_command(flags, lun, tag, expected, cdb, into))
}

/// Writes a DATA OUT.
#[unsafe(no_mangle)]
pub extern "C" fn ufs_data_out(lun: u8, tag: u8, offset: u32, sent: &[u8], into: &mut [u8]) -> u32
    ensures { Numbered answer_number result (λ answer.
        IsDataOut lun tag offset sent.now answer into.old into.new) }
{
    answer_number(&put_data_out(lun, tag, offset, sent, into))
}

/// Reads a RESPONSE.
#[unsafe(no_mangle)]
pub extern "C" fn ufs_response(reply: &[u8], into: &mut PlainResponse) -> u32
    ensures { Numbered answer_number result (λ answer.
        ReadsResponse reply.now answer into.old into.new) }
{
    answer_number(&get_response(reply, into))
}

/// Writes the COMMAND of a READ(10).
#[unsafe(no_mangle)]
pub extern "C" fn ufs_read(lun: u8, tag: u8, address: u32, blocks: u16, into: &mut [u8]) -> u32
    ensures { Numbered answer_number result (λ answer.
        IsRead lun tag address blocks answer into.old into.new) }
{
    answer_number(&put_read(lun, tag, address, blocks, into))
}

/// Writes the COMMAND of a WRITE(10), with FUA where it is forced.
#[unsafe(no_mangle)]
pub extern "C" fn ufs_write(
    lun: u8,
    tag: u8,
    address: u32,
    blocks: u16,
    forced: bool,
    into: &mut [u8],
) -> u32
    ensures { Numbered answer_number result (λ answer.
        IsWrite lun tag address blocks forced answer into.old into.new) }
{
    answer_number(&put_write(lun, tag, address, blocks, forced, into))
}

/// Writes the COMMAND of a VERIFY(10), with BYTCHK 01 where its blocks are compared.
#[unsafe(no_mangle)]
pub extern "C" fn ufs_verify(
    lun: u8,
    tag: u8,
    address: u32,
    blocks: u16,
    compared: bool,
    into: &mut [u8],
) -> u32
    ensures { Numbered answer_number result (λ answer.
        IsVerify lun tag address blocks compared answer into.old into.new) }
{
    answer_number(&put_verify(lun, tag, address, blocks, compared, into))
}

/// Writes the COMMAND of a SYNCHRONIZE CACHE(10), with IMMED where it is immediate.
#[unsafe(no_mangle)]
pub extern "C" fn ufs_flush(lun: u8, tag: u8, immediate: bool, into: &mut [u8]) -> u32
    ensures { Numbered answer_number result (λ answer.
        IsFlush lun tag immediate answer into.old into.new) }
{
    answer_number(&put_flush(lun, tag, immediate, into))
}

/// Writes the COMMAND of an UNMAP of one descriptor.
#[unsafe(no_mangle)]
pub extern "C" fn ufs_unmap(lun: u8, tag: u8, into: &mut [u8]) -> u32
    ensures { Numbered answer_number result (λ answer. IsUnmap lun tag answer into.old into.new) }
{
    answer_number(&put_unmap(lun, tag, into))
}

/// Writes the DATA OUT of the list of an UNMAP.
#[unsafe(no_mangle)]
pub extern "C" fn ufs_unmap_list(
    lun: u8,
    tag: u8,
    address: u64,
    blocks: u32,
    into: &mut [u8],
) -> u32
    ensures { Numbered answer_number result (λ answer.
        IsUnmapList lun tag address blocks answer into.old into.new) }
{
    answer_number(&put_unmap_list(lun, tag, address, blocks, into))
}

/// Writes the COMMAND of one that asks for bytes of the device's own.
#[unsafe(no_mangle)]
pub extern "C" fn ufs_ask(operation: u8, lun: u8, tag: u8, allocation: u32, into: &mut [u8]) -> u32
    ensures { Numbered answer_number result (λ answer.
        IsAsked (asked_cdb operation allocation) lun tag allocation answer into.old into.new) }
{
    answer_number(&put_asking(operation, lun, tag, allocation, into))
}

/// Writes the COMMAND of one that asks for what is selected of these bytes.
#[unsafe(no_mangle)]
pub extern "C" fn ufs_ask_for(
    operation: u8,
    selection: u32,
    lun: u8,
    tag: u8,
    allocation: u32,
    into: &mut [u8],
) -> u32
    ensures { Numbered answer_number result (λ answer.
        IsAsked (selected_cdb operation selection allocation) lun tag allocation answer into.old into.new) }
{
    answer_number(&put_asking_for(operation, selection, lun, tag, allocation, into))
}

/// Writes the COMMAND of one on blocks in sixteen bytes, with FUA or IMMED where that option is set.
#[unsafe(no_mangle)]
pub extern "C" fn ufs_blocks_16(
    operation: u8,
    lun: u8,
    tag: u8,
    address: u64,
    blocks: u32,
    option: bool,
    into: &mut [u8],
) -> u32
    ensures { Numbered answer_number result (λ answer.
        IsLong operation lun tag address blocks option answer into.old into.new) }
{
    answer_number(&put_long(operation, lun, tag, address, blocks, option, into))
}

/// Writes a QUERY REQUEST.
#[unsafe(no_mangle)]
pub extern "C" fn ufs_query(
    tag: u8,
    opcode: u8,
    idn: u8,
    index: u8,
    selector: u8,
    length: u16,
    value: u32,
    into: &mut [u8],
) -> u32
    ensures { Numbered answer_number result (λ answer.
        IsQueryWritten tag (asked_of opcode idn index selector) length value answer into.old into.new) }
{
    let asked = Asked {
        opcode,
        idn,
        index,
        selector,
    };
    answer_number(&put_query(tag, asked, length, value, into))
}

/// Writes a TASK MANAGEMENT REQUEST.
#[unsafe(no_mangle)]
pub extern "C" fn ufs_task_management(
    lun: u8,
    tag: u8,
    function: u8,
    meant: u8,
    into: &mut [u8],
) -> u32
    ensures { Numbered answer_number result (λ answer.
        IsTaskRequest lun tag function meant answer into.old into.new) }
{
    answer_number(&put_task_request(lun, tag, function, meant, into))
}

/// Writes a NOP OUT.
#[unsafe(no_mangle)]
pub extern "C" fn ufs_nop(tag: u8, into: &mut [u8]) -> u32
    ensures { Numbered answer_number result (λ answer. IsNop tag answer into.old into.new) }
{
    answer_number(&put_nop(tag, into))
}

/// Writes a LINK EVENT.
#[unsafe(no_mangle)]
pub extern "C" fn ufs_link_event(kind: u8, into: &mut [u8]) -> u32
    ensures { Numbered answer_number result (λ answer. IsLinkEvent kind answer into.old into.new) }
{
    answer_number(&put_link_event(kind, into))
}

/// Writes the COMMAND of a SECURITY PROTOCOL OUT, or else IN.
#[unsafe(no_mangle)]
pub extern "C" fn ufs_rpmb_command(
    is_out: bool,
    tag: u8,
    region: u8,
    frames: u8,
    into: &mut [u8],
) -> u32
    ensures { Numbered answer_number result (λ answer.
        IsSecurity is_out tag region frames answer into.old into.new) }
{
    answer_number(&put_security(is_out, tag, region, frames, into))
}

/// Writes a frame of the replay protected memory block.
#[unsafe(no_mangle)]
pub extern "C" fn ufs_rpmb_frame(frame: &PlainFrame, into: &mut [u8]) -> u32
    ensures { Numbered answer_number result (λ answer.
        IsFrameWritten frame.now answer into.old into.new) }
{
    answer_number(&put_frame(frame, into))
}

/// Reads a frame of the replay protected memory block.
#[unsafe(no_mangle)]
pub extern "C" fn ufs_rpmb_fields(bytes: &[u8], into: &mut PlainFrame) -> u32
    ensures { Numbered answer_number result (λ answer.
        ReadsFrame bytes.now answer into.old into.new) }
{
    answer_number(&get_frame(bytes, into))
}

/// Writes the MAC of frames of the replay protected memory block.
#[unsafe(no_mangle)]
pub extern "C" fn ufs_rpmb_mac(key: &[u8], frames: &[u8], into: &mut [u8]) -> u32
    ensures { Numbered answer_number result (λ answer.
        IsMac key.now frames.now answer into.old into.new) }
{
    answer_number(&put_mac(key, frames, into))
}

/// What the number says, in English, behind which stands a zero byte; cut off where the room ends.
#[unsafe(no_mangle)]
pub extern "C" fn ufs_fault_text(fault: u32, into: &mut [u8]) -> usize
    ensures within { result ≤ length into.old }
    ensures ended { 0 < length into.old → (result < length into.old) × (slice_index into.new result ≡ 0) }
{
    copy_text(fault, into)
}
