//! The messages of a host to unit 0, and the device's answers, as the standards lay them out.
ghost use Rattle.std.specs.Prelude.{◌≡◌, ◌↔◌, IsTrue};
ghost use Rattle.ufs_spec.specs.Codes.{data_in_code, data_out_code};
ghost use Rattle.ufs_spec.specs.Messages.{header, spelling, transfer};
ghost use Rattle.row_messages.specs.Laid.{block_header, block_message, command_of, flags_by, good_of};
ghost use Rattle.row_messages.specs.Laid.{ready_of, unmap_message, unmap_of};

use byteorder::{BigEndian, ByteOrder};

/// The operation codes of READ(10), WRITE(10), SYNCHRONIZE CACHE(10) and UNMAP, and the bit that asks for FUA.
pub const READ: u8 = 0x28;

pub const WRITE: u8 = 0x2A;

pub const SYNCHRONIZE: u8 = 0x35;

pub const UNMAP: u8 = 0x42;

pub const FUA: u8 = 0x08;

/// The COMMAND with a CDB of ten bytes: its operation code, its second byte, its address and how many
/// blocks it has.
pub fn command(tag: u8, operation: u8, second: u8, address: u32, blocks: u16) -> [u8; 32]
    ensures { result ≡ spelling (command_of tag operation second address blocks) }
{
    let mut bytes = [0u8; 32];
    bytes[0] = 0x01;
    bytes[1] = flags_of(operation);
    bytes[3] = tag;
    BigEndian::write_u32(&mut bytes[12..16], u32::from(blocks) * 4096);
    bytes[16] = operation;
    bytes[17] = second;
    BigEndian::write_u32(&mut bytes[18..22], address);
    BigEndian::write_u16(&mut bytes[23..25], blocks);
    bytes
}

/// The flags of a COMMAND with this operation code: a WRITE brings data, and a READ fetches them.
fn flags_of(operation: u8) -> u8
    ensures { result ≡ flags_by operation }
{
    match operation {
        WRITE => 0x20,
        READ => 0x40,
        _ => 0,
    }
}

/// The header of a message of this code for one block, which lies at this offset in the data of its
/// command: so long is the data segment, as bytes 10 and 11 have it.
fn transfer(code: u8, tag: u8, segment: u16, offset: u32) -> [u8; 32]
    ensures { result ≡ header code 0 0 tag 0 0 0 segment (transfer offset 4096) }
{
    let mut bytes = [0u8; 32];
    bytes[0] = code;
    bytes[3] = tag;
    BigEndian::write_u16(&mut bytes[10..12], segment);
    BigEndian::write_u32(&mut bytes[12..16], offset);
    bytes[18] = 0x10;
    bytes
}

/// The header of the DATA OUT of one block.
pub fn data_out(tag: u8, offset: u32) -> [u8; 32]
    ensures { result ≡ block_header data_out_code tag offset }
{
    transfer(0x02, tag, 4096, offset)
}

/// The DATA OUT of one block of equal bytes.
pub fn block_out(tag: u8, offset: u32, byte: u8) -> [u8; 4128]
    ensures { result ≡ block_message data_out_code tag offset byte }
{
    let mut message = [byte; 4128];
    message[..32].copy_from_slice(&data_out(tag, offset));
    message
}

/// The COMMAND of an UNMAP whose list has one descriptor.
pub fn unmap(tag: u8) -> [u8; 32]
    ensures { result ≡ spelling (unmap_of tag) }
{
    let mut bytes = [0u8; 32];
    bytes[0] = 0x01;
    bytes[1] = 0x20;
    bytes[3] = tag;
    bytes[15] = 24;
    bytes[16] = UNMAP;
    bytes[24] = 24;
    bytes
}

/// The DATA OUT of that list: its header, and the descriptor of so many blocks from this address on.
pub fn unmap_list(tag: u8, address: u32, blocks: u16) -> [u8; 56]
    ensures { result ≡ unmap_message tag address blocks }
{
    let mut bytes = [0u8; 56];
    bytes[0] = 0x02;
    bytes[3] = tag;
    bytes[11] = 24;
    bytes[19] = 24;
    bytes[33] = 22;
    bytes[35] = 16;
    BigEndian::write_u64(&mut bytes[40..48], u64::from(address));
    BigEndian::write_u32(&mut bytes[48..52], u32::from(blocks));
    bytes
}

/// The READY TO TRANSFER that asks for one block.
pub fn ready(tag: u8, offset: u32) -> [u8; 32]
    ensures { result ≡ spelling (ready_of tag offset) }
{
    transfer(0x31, tag, 0, offset)
}

/// The RESPONSE with the status GOOD.
pub fn good(tag: u8) -> [u8; 32]
    ensures { result ≡ spelling (good_of 0 tag) }
{
    let mut bytes = [0u8; 32];
    bytes[0] = 0x21;
    bytes[3] = tag;
    bytes
}

/// The DATA IN of one block of equal bytes.
fn block_in(tag: u8, offset: u32, byte: u8) -> [u8; 4128]
    ensures { result ≡ block_message data_in_code tag offset byte }
{
    let mut message = [byte; 4128];
    message[..32].copy_from_slice(&transfer(0x22, tag, 4096, offset));
    message
}

/// Whether the message is the DATA IN of one block of equal bytes.
pub fn is_block(message: &[u8], tag: u8, offset: u32, byte: u8) -> bool
    ensures { IsTrue result ↔ (message.now ≡ block_message data_in_code tag offset byte) }
{
    let wanted = block_in(tag, offset, byte);
    message == wanted.as_slice()
}
