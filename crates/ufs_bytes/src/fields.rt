//! Numbers of two, four and eight bytes inside a row of bytes, the highest byte first. All numbers
//! of UPIUs, CDBs and pages are written so (JESD220, 10.5; SPC, bit and byte ordering).
ghost use Rattle.std.specs.Prelude.{◌≡◌, ◌+◌, ◌≤◌, length};
ghost use Rattle.ufs_bytes.specs.Fields.{field_at, with_field};

use arrayvec::ArrayVec;
use byteorder::{BigEndian, ByteOrder};

/// A logical block of 4096 bytes.
pub type Block = [u8; 4096];

/// The bytes of one UPIU: 32 bytes of header and at most 4096 bytes of data (JESD220, 10.5).
pub type Upiu = ArrayVec<u8, 4128>;

/// The number in the two bytes from `offset` on.
pub fn read_u16(bytes: &[u8], offset: usize) -> u16
    requires { offset + 2 ≤ length bytes.now }
    ensures { result ≡ field_at 2 offset bytes.now }
{
    BigEndian::read_u16(&bytes[offset..])
}

/// The number in the four bytes from `offset` on.
pub fn read_u32(bytes: &[u8], offset: usize) -> u32
    requires { offset + 4 ≤ length bytes.now }
    ensures { result ≡ field_at 4 offset bytes.now }
{
    BigEndian::read_u32(&bytes[offset..])
}

/// The number in the eight bytes from `offset` on.
pub fn read_u64(bytes: &[u8], offset: usize) -> u64
    requires { offset + 8 ≤ length bytes.now }
    ensures { result ≡ field_at 8 offset bytes.now }
{
    BigEndian::read_u64(&bytes[offset..])
}

/// Writes a number into the two bytes from `offset` on, and no other byte.
pub fn write_u16(bytes: &mut [u8], offset: usize, number: u16)
    requires { offset + 2 ≤ length bytes.old }
    ensures { bytes.new ≡ with_field 2 offset number bytes.old }
{
    BigEndian::write_u16(&mut bytes[offset..], number);
}

/// Writes a number into the four bytes from `offset` on, and no other byte.
pub fn write_u32(bytes: &mut [u8], offset: usize, number: u32)
    requires { offset + 4 ≤ length bytes.old }
    ensures { bytes.new ≡ with_field 4 offset number bytes.old }
{
    BigEndian::write_u32(&mut bytes[offset..], number);
}

/// Writes a number into the eight bytes from `offset` on, and no other byte.
pub fn write_u64(bytes: &mut [u8], offset: usize, number: u64)
    requires { offset + 8 ≤ length bytes.old }
    ensures { bytes.new ≡ with_field 8 offset number bytes.old }
{
    BigEndian::write_u64(&mut bytes[offset..], number);
}
