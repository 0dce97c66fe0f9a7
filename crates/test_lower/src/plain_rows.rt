//! What the worked rows say of contents, on the plain device, which is exact by its definition.
ghost use Rattle.std.specs.Prelude.{◌<◌, IfOk, slice_index_or};
ghost use Rattle.row_messages.specs.RowShape.{HasRowShape, row_shape};
ghost use Rattle.ufs_spec.specs.Commands.{command_of};
ghost use Rattle.ufs_spec.specs.Plain.{CanApply};

use row_messages::row_config;
use std::alloc::Global;
use std::process::Abort;
use std::test::Fail;
use ufs_spec::{Cmd, PlainDevice, commands_keep_the_shape};

/// The three writes that the gap's device accepts, each of one block of unit 0: its address and byte.
const ACCEPTED: [(u32, u8); 3] = [(0, 0x11), (1, 0x22), (2, 0x33)];

/// The RPMB key.
const KEY: [u8; 32] = [0x0B; 32];

/// A new plain device of the row configuration.
pub(crate) fn new_plain(alloc: Global) -> Result<PlainDevice, Fail>
    ensures { IfOk result (λ p. HasRowShape p) }
{
    commands_keep_the_shape();
    let config = row_config()?;
    Ok(PlainDevice::new(alloc, config.numbers())?)
}

/// Does a command, which keeps the counts of blocks and bytes.
pub(crate) fn apply_command(plain: &mut PlainDevice, command: &Cmd)
    requires shape { HasRowShape plain.old }
    requires fits { CanApply plain.old (command_of command.now) }
    ensures { HasRowShape plain.new }
{
    commands_keep_the_shape();
    plain.apply(command);
}

/// Writes one block of equal bytes to unit 0.
fn write_block(
    rt: &impl Abort,
    alloc: Global,
    plain: &mut PlainDevice,
    address: u32,
    byte: u8,
) -> Result<(), Fail>
    requires { HasRowShape plain.old }
    ensures { HasRowShape plain.new }
{
    assert!(rt; address < 256);
    let blocks = [[byte; 4096]].to_vec(alloc)?;
    let command = Cmd::Write {
        unit: 0,
        address,
        blocks,
    };
    apply_command(plain, &command);
    Ok(())
}

/// What writes of one block each to unit 0 leave of a new device: their addresses and bytes.
fn after_writes(rt: &impl Abort, alloc: Global, writes: &[(u32, u8)]) -> Result<PlainDevice, Fail>
    ensures { IfOk result (λ p. HasRowShape p) }
{
    let mut plain = new_plain(alloc)?;
    for (address, byte) in writes {
        write_block(rt, alloc, &mut plain, *address, *byte)?;
    }
    Ok(plain)
}

/// The byte at a place, where these bytes stand from `first` on and zeros everywhere else.
fn byte_at(first: usize, bytes: &[u8], place: usize) -> u8 {
    if place < first {
        return 0;
    }
    bytes.get(place - first).copied().unwrap_or(0)
}

/// Compares one block, all of whose bytes are to be equal.
fn expect_block(rt: &impl Abort, plain: &PlainDevice, unit: u8, address: u32, byte: u8)
    requires shape { HasRowShape plain.now }
    requires unit_in { unit < 3 }
    requires address_in { address < slice_index_or row_shape.blocks unit 0 }
{
    assert!(rt; *plain.block(unit, address) == [byte; 4096]);
}

/// Compares all blocks: unit 0 holds blocks of these bytes from `first` on, and all others are zeros.
fn expect_blocks(rt: &impl Abort, plain: &PlainDevice, first: usize, bytes: &[u8])
    requires { HasRowShape plain.now }
{
    for address in 0..256u32 {
        expect_block(
            rt,
            plain,
            0,
            address,
            byte_at(first, bytes, address as usize),
        );
    }
    for address in 0..64u32 {
        expect_block(rt, plain, 1, address, 0);
        expect_block(rt, plain, 2, address, 0);
    }
}

/// Compares the RPMB area: these bytes stand from `first` on, and all others are zeros.
fn expect_area(rt: &impl Abort, plain: &PlainDevice, first: usize, bytes: &[u8]) {
    let area = plain.area(0);
    assert!(rt; area.len() == 131_072);
    for (place, byte) in area.iter().enumerate() {
        assert!(rt; *byte == byte_at(first, bytes, place));
    }
}

/// Compares the boot setting, the RPMB key and its counter; permanent protection is off.
fn expect_settings(
    rt: &impl Abort,
    plain: &PlainDevice,
    boot: u8,
    key: Option<[u8; 32]>,
    counter: u32,
) {
    assert!(rt; plain.boot() == boot);
    assert!(rt; !plain.permanent());
    assert!(rt; plain.key(0) == key);
    assert!(rt; plain.counter(0) == counter);
}

/// One block of FFh at the last address: its neighbour and the other units stay zeros.
#[test]
fn a_write_changes_one_block_alone(rt: HostRuntime) -> Result<(), Fail> {
    let alloc = rt.alloc();
    let mut plain = new_plain(alloc)?;
    write_block(&rt, alloc, &mut plain, 255, 0xFF)?;
    expect_block(&rt, &plain, 0, 255, 0xFF);
    expect_block(&rt, &plain, 0, 254, 0);
    expect_blocks(&rt, &plain, 255, &[0xFF]);
    Ok(())
}

/// Of three accepted writes a stop that tears the second keeps the first alone. What two or three of
/// them leave is not that.
#[test]
fn writes_in_order_leave_these_blocks(rt: HostRuntime) -> Result<(), Fail> {
    let alloc = rt.alloc();
    expect_blocks(
        &rt,
        &after_writes(&rt, alloc, &ACCEPTED[..1])?,
        0,
        &[0x11, 0, 0],
    );
    expect_blocks(
        &rt,
        &after_writes(&rt, alloc, &ACCEPTED[..2])?,
        0,
        &[0x11, 0x22, 0],
    );
    expect_blocks(
        &rt,
        &after_writes(&rt, alloc, &ACCEPTED[..3])?,
        0,
        &[0x11, 0x22, 0x33],
    );
    Ok(())
}

/// A write over what the gap left stands beside the first write, and addresses 1 and 2 stay zeros.
#[test]
fn a_write_after_a_gap_stands_beside_the_first(rt: HostRuntime) -> Result<(), Fail> {
    let alloc = rt.alloc();
    let mut plain = after_writes(&rt, alloc, &ACCEPTED[..1])?;
    write_block(&rt, alloc, &mut plain, 3, 0x44)?;
    expect_blocks(&rt, &plain, 0, &[0x11, 0, 0, 0x44]);
    Ok(())
}

/// 8 blocks of 256 bytes for the RPMB area, of which no byte is zero and no two blocks are equal.
fn rpmb_data(alloc: Global) -> Result<Vec<u8>, Fail> {
    let mut data = Vec::new(alloc);
    for place in 0..2048u16 {
        data.push((place % 251) as u8 + 1)?;
    }
    Ok(data)
}

/// Writes these 8 blocks of 256 bytes to the RPMB area at address 12; no write came before it.
fn write_rpmb(rt: &impl Abort, plain: &mut PlainDevice, data: &Vec<u8>) -> Result<(), Fail>
    requires { HasRowShape plain.old }
    ensures { HasRowShape plain.new }
{
    let bytes = data.clone()?;
    assert!(rt; bytes.len() == 8 * 256);
    assert!(rt; plain.counter(0) == 0);
    apply_command(
        plain,
        &Cmd::RpmbWrite {
            region: 0,
            address: 12,
            bytes,
        },
    );
    Ok(())
}

/// An RPMB write changes its part of the area and the counter together: a stop keeps both or neither.
#[test]
fn an_rpmb_write_changes_data_and_counter(rt: HostRuntime) -> Result<(), Fail> {
    let alloc = rt.alloc();
    let data = rpmb_data(alloc)?;
    let mut plain = new_plain(alloc)?;
    apply_command(
        &mut plain,
        &Cmd::SetKey {
            region: 0,
            key: KEY,
        },
    );
    // The commands without the write: both old.
    expect_area(&rt, &plain, 0, &[]);
    expect_settings(&rt, &plain, 0, Some(KEY), 0);
    // With it: both new.
    write_rpmb(&rt, &mut plain, &data)?;
    expect_area(&rt, &plain, 12 * 256, data.as_slice());
    expect_settings(&rt, &plain, 0, Some(KEY), 1);
    expect_blocks(&rt, &plain, 0, &[]);
    Ok(())
}

/// Sets the boot setting, and compares all that the device holds.
fn expect_boot(rt: &impl Abort, plain: &mut PlainDevice, boot: u8, data: &[u8])
    requires { HasRowShape plain.old }
    ensures { HasRowShape plain.new }
{
    assert!(rt; boot <= 2);
    apply_command(plain, &Cmd::SetBoot(boot));
    expect_settings(rt, plain, boot, Some(KEY), 1);
    expect_blocks(rt, plain, 0, &[0x11]);
    expect_area(rt, plain, 12 * 256, data);
}

/// The boot setting becomes 1, 2 and 0, and nothing else changes on a device with a written block, the
/// RPMB key and one RPMB write.
#[test]
fn boot_units_are_set(rt: HostRuntime) -> Result<(), Fail> {
    let alloc = rt.alloc();
    let data = rpmb_data(alloc)?;
    let mut plain = after_writes(&rt, alloc, &ACCEPTED[..1])?;
    apply_command(
        &mut plain,
        &Cmd::SetKey {
            region: 0,
            key: KEY,
        },
    );
    write_rpmb(&rt, &mut plain, &data)?;
    expect_boot(&rt, &mut plain, 1, data.as_slice());
    expect_boot(&rt, &mut plain, 2, data.as_slice());
    expect_boot(&rt, &mut plain, 0, data.as_slice());
    Ok(())
}
