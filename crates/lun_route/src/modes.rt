//! The mode pages of a unit, which MODE SENSE tells (SPC, SBC).
ghost use Rattle.std.specs.Prelude.{◌≡◌, ◌++◌, ◌≤◌, ◌+◌, length};
ghost use Rattle.arrayvec.specs.ArrayVec.{array_vec_len};
ghost use Rattle.ufs_spec.specs.CdbFields.{mode_page_of, page_control};
ghost use Rattle.ufs_spec.specs.Identities.{device_parameter, mode_values, modes_bytes, modes_told};
ghost use Rattle.ufs_spec.specs.Identities.{short_modes_told};

use arrayvec::ArrayVec;
use ufs_spec::write_u16;

/// Read-write error recovery (SBC).
const RECOVERY: u8 = 0x01;

/// Caching (SBC).
const CACHING: u8 = 0x08;

/// All pages.
const ALL: u8 = 0x3F;

/// What page control asks for that wants changeable values (SPC).
const CHANGEABLE: u32 = 1;

/// The most bytes that the pages have: those of all three.
const PAGES_LENGTH: usize = 44;

/// The bytes that MODE SENSE(10) tells: a header of eight, and the pages.
pub type ModesTold = ArrayVec<u8, 52>;

/// The bytes that MODE SENSE(6) tells: a header of four, and the pages.
pub type ShortModesTold = ArrayVec<u8, 48>;

// The bytes of the pages that are selected.
type ModePages = ArrayVec<u8, PAGES_LENGTH>;

/// What MODE SENSE(10) tells of the pages that bytes 2 and 3 of its CDB select, of a unit that takes no
/// writes now (`guarded`) or does (SPC, mode parameter header(10)).
pub fn modes_told(select: u32, guarded: bool) -> ModesTold
    ensures bytes { result.items ≡ modes_told select guarded }
{
    let pages = modes_bytes(select);
    let mut header = [0; 8];
    // How many bytes follow these two; then the device-specific parameter, and no block descriptors.
    write_u16(&mut header, 0, 6 + pages.len() as u16);
    header[3] = device_parameter(guarded);
    let mut told = ArrayVec::new();
    let _ = told.try_extend_from_slice(&header);
    let _ = told.try_extend_from_slice(pages.as_slice());
    told
}

/// What MODE SENSE(6) tells of them (SPC, mode parameter header(6)).
pub fn short_modes_told(select: u32, guarded: bool) -> ShortModesTold
    ensures bytes { result.items ≡ short_modes_told select guarded }
{
    let pages = modes_bytes(select);
    let header = [3 + pages.len() as u8, 0, device_parameter(guarded), 0];
    let mut told = ArrayVec::new();
    let _ = told.try_extend_from_slice(&header);
    let _ = told.try_extend_from_slice(pages.as_slice());
    told
}

// The device-specific parameter (SBC): DPOFUA, and WP where the unit takes no writes now.
fn device_parameter(guarded: bool) -> u8
    ensures { result ≡ device_parameter guarded }
{
    if guarded { 0x90 } else { 0x10 }
}

// The pages that are selected.
fn modes_bytes(select: u32) -> ModePages
    ensures { result.items ≡ modes_bytes select }
{
    let control = select / 16384;
    let mut pages = ArrayVec::new();
    match (select / 256 % 64) as u8 {
        ALL => {
            put(&mut pages, &recovery_page(control));
            put(&mut pages, &caching_page(control));
            put(&mut pages, &control_page(control));
        }
        RECOVERY => put(&mut pages, &recovery_page(control)),
        CACHING => put(&mut pages, &caching_page(control)),
        _ => put(&mut pages, &control_page(control)),
    }
    pages
}

// Puts a page behind the others.
fn put(pages: &mut ModePages, page: &[u8])
    requires { array_vec_len pages.old + length page.now ≤ 44 }
    ensures bytes { pages.new.items ≡ pages.old.items ++ page.now }
    ensures length { array_vec_len pages.new ≡ array_vec_len pages.old + length page.now }
{
    let _ = pages.try_extend_from_slice(page);
}

// Read-write error recovery (SBC), with AWRE.
fn recovery_page(control: u32) -> [u8; 12]
    ensures { result ≡ mode_values control 0x01 }
{
    let mut bytes = [0; 12];
    bytes[0] = 0x01;
    bytes[1] = 0x0A;
    if control != CHANGEABLE {
        bytes[2] = 0x80;
    }
    bytes
}

// Caching (SBC), with WCE: there is a write cache.
fn caching_page(control: u32) -> [u8; 20]
    ensures { result ≡ mode_values control 0x08 }
{
    let mut bytes = [0; 20];
    bytes[0] = 0x08;
    bytes[1] = 0x12;
    if control != CHANGEABLE {
        bytes[2] = 0x04;
    }
    bytes
}

// Control (SPC), with unrestricted reordering and a busy timeout without limit.
fn control_page(control: u32) -> [u8; 12]
    ensures { result ≡ mode_values control 0x0A }
{
    let mut bytes = [0; 12];
    bytes[0] = 0x0A;
    bytes[1] = 0x0A;
    if control != CHANGEABLE {
        bytes[3] = 0x10;
        bytes[8] = 0xFF;
        bytes[9] = 0xFF;
    }
    bytes
}
