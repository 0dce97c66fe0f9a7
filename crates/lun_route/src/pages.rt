//! The pages of vital product data, which INQUIRY tells of a unit (SPC; SBC for a unit of blocks).
ghost use Rattle.std.specs.Prelude.{◌≡◌, ◌++◌, ◌≤◌, ◌<◌, ℕ, length, not, true};
ghost use Rattle.byteorder.specs.Endian.{big_bytes};
ghost use Rattle.hex.specs.Hex.{encode_lower};
ghost use Rattle.ufs_spec.specs.Configs.{command_blocks};
ghost use Rattle.ufs_spec.specs.Identities.{designator, limits, page_body, page_bytes, vpd_pages};
ghost use Rattle.ufs_spec.specs.Messages.{is_among};
ghost use Rattle.ufs_spec.specs.Refusals.{lacks_page};
ghost use Rattle.ufs_spec.specs.declared.Cdb.TheVariants.{Tell};
ghost use Rattle.ufs_spec.specs.declared.Told.TheVariants.{Page};
ghost use Rattle.lun_route.specs.Pages.{characteristics, known_page, mode_policy, page_head, provisioning};

use crate::identities::device_type;
use crate::luns::named_lun;
use arrayvec::ArrayVec;
use ufs_spec::{GREATEST_COMMAND, Numbers, write_u16, write_u32, write_u64};

/// Supported pages (SPC).
const SUPPORTED_PAGES: u32 = 0x00;

/// Unit serial number (SPC).
const SERIAL_NUMBER: u32 = 0x80;

/// Device identification (SPC).
const IDENTIFICATION: u32 = 0x83;

/// Mode page policy (SPC).
const MODE_POLICY: u32 = 0x87;

/// Block limits (SBC).
const BLOCK_LIMITS: u32 = 0xB0;

/// Block device characteristics (SBC).
const CHARACTERISTICS: u32 = 0xB1;

/// Logical block provisioning (SBC).
const PROVISIONING: u32 = 0xB2;

/// The pages of a unit of the configuration; a well-known unit has the first four.
const PAGES: [u8; 7] = [0x00, 0x80, 0x83, 0x87, 0xB0, 0xB1, 0xB2];

/// The most bytes that a page has: four, and 60 behind them.
const PAGE_LENGTH: usize = 64;

/// The most bytes that a page has behind its first four.
const BODY_LENGTH: usize = 60;

/// The bytes of a page of vital product data.
pub type VitalPage = ArrayVec<u8, PAGE_LENGTH>;

// What a page has behind its first four bytes.
type PageBody = ArrayVec<u8, BODY_LENGTH>;

/// Whether there is a unit with this LUN byte, and it has the page (SPC, supported VPD pages).
pub fn has_page(numbers: &Numbers, lun: u8, page: u32) -> bool
    ensures is { (allocation : ℕ) → not result ≡ lacks_page numbers.now lun (Tell Page page allocation) }
    ensures byte { result ≡ true → page < 256 }
{
    match named_lun(numbers, lun) {
        Some(_) => is_page(lun, page),
        None => false,
    }
}

// Whether a unit with this LUN byte has the page.
fn is_page(lun: u8, page: u32) -> bool
    ensures is { result ≡ is_among (vpd_pages lun) page }
    ensures byte { result ≡ true → page < 256 }
{
    match page {
        SUPPORTED_PAGES | SERIAL_NUMBER | IDENTIFICATION | MODE_POLICY => true,
        BLOCK_LIMITS | CHARACTERISTICS | PROVISIONING => lun < 8,
        _ => false,
    }
}

/// The page of the unit with this LUN byte, which is empty if the unit does not have it (SPC, vital
/// product data parameters).
pub fn page_bytes(numbers: &Numbers, lun: u8, page: u32) -> VitalPage
    ensures bytes { result.items ≡ page_bytes numbers.now lun page }
    ensures few { length (page_bytes numbers.now lun page) ≤ 64 }
{
    if is_page(lun, page) {
        known_page(numbers, lun, page as u8)
    } else {
        ArrayVec::new()
    }
}

// A page that the unit has.
fn known_page(numbers: &Numbers, lun: u8, page: u8) -> VitalPage
    ensures { result.items ≡ known_page numbers.now lun page }
{
    let body = page_body(numbers, lun, page);
    let mut bytes = ArrayVec::new();
    let _ = bytes.try_extend_from_slice(&page_head(lun, page, body.len() as u16));
    let _ = bytes.try_extend_from_slice(body.as_slice());
    bytes
}

// The first four bytes of a page: the device type, its code, and how many bytes follow.
fn page_head(lun: u8, page: u8, follow: u16) -> [u8; 4]
    ensures { result ≡ page_head lun page follow }
{
    let mut bytes = [device_type(lun), page, 0, 0];
    write_u16(&mut bytes, 2, follow);
    bytes
}

// What the page has behind them.
fn page_body(numbers: &Numbers, lun: u8, page: u8) -> PageBody
    ensures { result.items ≡ page_body numbers.now lun page }
{
    match u32::from(page) {
        SUPPORTED_PAGES => supported_pages(lun),
        SERIAL_NUMBER => body_of(&serial_digits(numbers.serial)),
        IDENTIFICATION => body_of(&designator(numbers.serial, lun)),
        MODE_POLICY => body_of(&mode_policy()),
        BLOCK_LIMITS => body_of(&limits(command_blocks(numbers))),
        CHARACTERISTICS => body_of(&characteristics()),
        _ => body_of(&provisioning()),
    }
}

// These bytes.
fn body_of(bytes: &[u8]) -> PageBody
    requires { length bytes.now ≤ 60 }
    ensures { result.items ≡ bytes.now }
{
    let mut body = ArrayVec::new();
    let _ = body.try_extend_from_slice(bytes);
    body
}

// The pages that the unit with this LUN byte has.
fn supported_pages(lun: u8) -> PageBody
    ensures { result.items ≡ vpd_pages lun }
{
    if lun < 8 {
        body_of(&PAGES)
    } else {
        body_of(&PAGES[..4])
    }
}

// The sixteen digits of the serial number.
fn serial_digits(serial: u64) -> [u8; 16]
    ensures { result ≡ encode_lower (big_bytes 8 serial) }
{
    let mut bytes = [0; 8];
    write_u64(&mut bytes, 0, serial);
    let mut digits = [0; 16];
    hex::encode_to_slice(&bytes[..], &mut digits).unwrap();
    digits
}

// A designator of the unit (SPC): binary, of the logical unit, and NAA locally assigned.
fn designator(serial: u64, lun: u8) -> [u8; 12]
    ensures { result ≡ designator serial lun }
{
    let mut bytes = [0; 12];
    // Code set, designator type, and how many bytes follow.
    bytes[0] = 0x01;
    bytes[1] = 0x03;
    bytes[3] = 0x08;
    // NAA 3h, "FS", the low half of the serial number, and the LUN byte.
    bytes[4] = 0x30;
    bytes[5] = 0x46;
    bytes[6] = 0x53;
    write_u32(&mut bytes, 7, (serial % (1 << 32)) as u32);
    bytes[11] = lun;
    bytes
}

// All mode pages with all their subpages are shared (SPC, mode page policy descriptor).
fn mode_policy() -> [u8; 4]
    ensures { result ≡ mode_policy }
{
    [0x3F, 0xFF, 0x00, 0x00]
}

// How many blocks a command may have.
fn command_blocks(numbers: &Numbers) -> u16
    ensures { result ≡ command_blocks numbers.now }
{
    if numbers.slots >= 256 {
        GREATEST_COMMAND
    } else {
        32
    }
}

// Block limits where a command has at most so many blocks.
fn limits(most: u16) -> [u8; 60]
    ensures { result ≡ limits most }
{
    let most = u32::from(most);
    let mut bytes = [0; 60];
    // Optimal transfer length granularity; the greatest and the optimal transfer length.
    write_u16(&mut bytes, 2, 1);
    write_u32(&mut bytes, 4, most);
    write_u32(&mut bytes, 8, most);
    // How many blocks one UNMAP may have, in one descriptor.
    write_u32(&mut bytes, 16, most);
    write_u32(&mut bytes, 20, 1);
    // Optimal unmap granularity, and UGAVALID with an alignment of 0.
    write_u32(&mut bytes, 24, 1);
    write_u32(&mut bytes, 28, 0x8000_0000);
    bytes
}

// Block device characteristics: it does not rotate.
fn characteristics() -> [u8; 60]
    ensures { result ≡ characteristics }
{
    let mut bytes = [0; 60];
    bytes[1] = 0x01;
    bytes
}

// Logical block provisioning: LBPU and LBPRZ, and thin.
fn provisioning() -> [u8; 4]
    ensures { result ≡ provisioning }
{
    [0x00, 0x84, 0x02, 0x00]
}
