//! A settings page, with bytes that are written by hand from its layout.
ghost use Rattle.std.specs.Prelude.{◌+◌, ◌≤◌, length};

use crate::scans::{at, put, row_dies, scanned, sealed_settings};
use row_messages::row_config;
use settings::{Settings, is_settings_page};
use std::test::Fail;
use ufs_spec::{Block, KeyAndCounter};

/// Boot unit 2, permanent protection, and a key and a counter of region 0: each is read from its bytes,
/// and the page is written again.
#[test]
fn a_settings_page_says_what_its_bytes_say(rt: HostRuntime) {
    let page = written_page();
    let settings = Settings::from_page(&page);
    assert!(rt; settings == written_settings());
    assert!(rt; settings.page() == page && is_settings_page(&page));
}

/// Of region 2 the key is bytes 84 to 115 and the counter bytes 116 to 119, and byte 80 says whether the key
/// is set. The counter of region 3 ends with byte 159, and the first zero behind the regions is byte 160.
#[test]
fn each_region_has_forty_bytes(rt: HostRuntime) {
    let mut page = written_page();
    page[80] = 1;
    put_bytes(&mut page, 84, b"ABCDEFGHIJKLMNOPQRSTUVWXYZ!/()=?");
    put_bytes(&mut page, 116, &[5, 6, 7, 8]);
    page[159] = 9;
    let mut settings = written_settings();
    settings.regions[2] = KeyAndCounter {
        key: Some(*b"ABCDEFGHIJKLMNOPQRSTUVWXYZ!/()=?"),
        counter: 0x0506_0708,
    };
    settings.regions[3].counter = 9;
    assert!(rt; Settings::from_page(&page) == settings);
    assert!(rt; settings.page() == page && is_settings_page(&page));
    page[160] = 1;
    assert!(rt; !is_settings_page(&page));
}

/// The key of region 1 counts only if byte 40 says that it is set, and bytes 41 to 43 are zeros.
#[test]
fn a_key_of_another_region_counts_only_if_it_is_set(rt: HostRuntime) {
    let mut page = written_page();
    page[44] = 7;
    assert!(rt; Settings::from_page(&page).regions[1].key.is_none() && !is_settings_page(&page));
    page[40] = 1;
    assert!(rt; Settings::from_page(&page).regions[1].key.is_some() && is_settings_page(&page));
    page[42] = 1;
    assert!(rt; !is_settings_page(&page));
}

/// A key counts only if byte 2 says that it is set; bytes of an unset key make it no settings page.
#[test]
fn a_key_counts_only_if_it_is_set(rt: HostRuntime) {
    let mut page = written_page();
    page[2] = 0;
    assert!(rt; Settings::from_page(&page).regions[0].key.is_none() && !is_settings_page(&page));
}

/// Zeros are the settings of a new device, and a blank page has none.
#[test]
fn zeros_are_the_settings_of_a_new_device(rt: HostRuntime) {
    let zeros = [0; 4096];
    assert!(rt; Settings::from_page(&zeros) == Settings::new());
    assert!(rt; Settings::new().page() == zeros && is_settings_page(&zeros));
    assert!(rt; !is_settings_page(&[0xFF; 4096]));
}

/// An opening finds all that the newest settings page says, and without one those of a new device.
#[test]
fn a_scan_finds_the_newest_settings(rt: HostRuntime) -> Result<(), Fail> {
    let config = row_config()?;
    let mut dies = row_dies(rt.alloc())?;
    let found = scanned(&rt, rt.alloc(), &config, dies.as_mut_slice())?;
    assert!(rt; found.settings == Settings::new());
    put(
        &rt,
        dies.as_mut_slice(),
        at(1, 0, 0),
        &sealed_settings(1, &[0; 4096]),
    );
    put(
        &rt,
        dies.as_mut_slice(),
        at(1, 0, 1),
        &sealed_settings(2, &written_page()),
    );
    let found = scanned(&rt, rt.alloc(), &config, dies.as_mut_slice())?;
    assert!(rt; found.settings == written_settings());
    Ok(())
}

/// Puts these bytes into the page, from one on.
fn put_bytes(page: &mut Block, from: usize, bytes: &[u8])
    requires { from + length bytes.now ≤ 4096 }
{
    page[from..from + bytes.len()].copy_from_slice(bytes);
}

/// What the page below says.
fn written_settings() -> Settings {
    Settings {
        boot: 2,
        is_permanent: true,
        regions: [
            KeyAndCounter {
                key: Some(*b"0123456789abcdefghijklmnopqrstuv"),
                counter: 0x0102_0304,
            },
            NOTHING_SAID,
            NOTHING_SAID,
            NOTHING_SAID,
        ],
    }
}

/// No key, and no write.
const NOTHING_SAID: KeyAndCounter = KeyAndCounter {
    key: None,
    counter: 0,
};

/// The boot setting is 2, fPermanentWPEn and the key of region 0 are set, and its counter is 0x01020304.
fn written_page() -> Block {
    let mut page = [0; 4096];
    page[0] = 2;
    page[1] = 1;
    page[2] = 1;
    page[4..36].copy_from_slice(b"0123456789abcdefghijklmnopqrstuv");
    page[36..40].copy_from_slice(&[1, 2, 3, 4]);
    page
}
