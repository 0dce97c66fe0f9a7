//! A settings page: the boot setting, fPermanentWPEn, and of each RPMB region the key and the write
//! counter.
ghost use Rattle.std.specs.Prelude.{◌≡◌, ◌+◌, ◌*◌, ◌≤◌, ◌<◌, ◌++◌, ◌∷◌, ◌↔◌, ℕ, Bool, List, Option, [], IsTrue, length, replicate};
ghost use Rattle.byteorder.specs.Endian.{big_bytes};
ghost use Rattle.ufs_spec.specs.Keys.{AreSettings, IsSettingsBody, counter_in, first_bytes, flag_byte, forty_bytes, key_bytes, key_flag, key_in, key_named, region_bytes, said_of, settings_bytes};
ghost use Rattle.ufs_spec.specs.Plain.{regions, with_part, zero_block};
ghost use Rattle.settings.specs.Told.{bytes_of, new_settings, settings_in};

use ufs_bytes::{Block, read_u32, write_u32};
use ufs_spec::KeyAndCounter;

// How many bytes there are for each region, and in them where the key and the counter begin.
const REGION: usize = 40;

const KEY: usize = 4;

const COUNTER: usize = 36;

// The boot setting is 0, 1 or 2.
const HIGHEST_BOOT: u8 = 2;

/// What a settings page says.
#[derive(Clone, Copy, PartialEq, Eq)]
pub struct Settings {
    /// bBootLunEn: the boot unit that is used, 0 for none (JESD220, 14).
    pub boot: u8,
    /// fPermanentWPEn: whether write protection is permanent (JESD220, 14).
    pub is_permanent: bool,
    /// Of each RPMB region its key, once it is programmed, and its write counter (JESD220, 12.4).
    pub regions: [KeyAndCounter; 4],
}

impl Settings {
    /// Those of a new device: nothing is set, and nothing was counted.
    pub fn new() -> Settings
        ensures nothing { result ≡ new_settings }
        // They are what zeros say.
        ensures zeros { result ≡ settings_in zero_block }
    {
        Settings {
            boot: 0,
            is_permanent: false,
            regions: [KeyAndCounter {
                key: None,
                counter: 0,
            }; 4],
        }
    }

    /// The settings that the page says.
    pub fn from_page(page: &Block) -> Settings
        ensures said { result ≡ settings_in page.now }
        // Those that the page spells, if they are in their ranges.
        ensures spelled { (s : Settings) → AreSettings s.boot s.regions → page.now ≡ bytes_of s → result ≡ s }
    {
        Settings {
            boot: page[0],
            is_permanent: page[1] == 1,
            regions: [
                first_region(page),
                other_region(page, 1),
                other_region(page, 2),
                other_region(page, 3),
            ],
        }
    }

    /// The page that says these settings.
    pub fn page(&self) -> Block
        ensures { result ≡ bytes_of self.now }
    {
        let mut page = [0; 4096];
        put(&mut page, 0, &self.first_bytes());
        put(&mut page, 1, &region_bytes(&self.regions[1]));
        put(&mut page, 2, &region_bytes(&self.regions[2]));
        put(&mut page, 3, &region_bytes(&self.regions[3]));
        page
    }

    // The first forty bytes, with region 0.
    fn first_bytes(&self) -> [u8; REGION]
        ensures { let s = self.now in result ≡ first_bytes s.boot s.is_permanent (said_of s.regions 0) }
    {
        let region = &self.regions[0];
        let mut forty = forty_bytes(region);
        forty[0] = self.boot;
        forty[1] = flag_of(self.is_permanent);
        forty[2] = key_flag(region.key);
        forty
    }
}

/// Whether a block is a settings page: it is read, written again and compared.
pub fn is_settings_page(page: &Block) -> bool
    ensures { IsTrue result ↔ IsSettingsBody page.now }
{
    let settings = Settings::from_page(page);
    settings.boot <= HIGHEST_BOOT && settings.page() == *page
}

// What the first forty bytes say of region 0.
fn first_region(page: &Block) -> KeyAndCounter
    ensures { result ≡ record { key = key_in 0 page.now; counter = counter_in 0 page.now } }
{
    KeyAndCounter {
        key: key_named(page, 2),
        counter: read_u32(page, COUNTER),
    }
}

// What the forty bytes of another region say of it.
fn other_region(page: &Block, number: usize) -> KeyAndCounter
    requires other { 1 ≤ number }
    requires there { number < regions }
    ensures { result ≡ record { key = key_in number page.now; counter = counter_in number page.now } }
{
    let forty = &page[REGION * number..];
    KeyAndCounter {
        key: key_named(forty, 0),
        counter: read_u32(forty, COUNTER),
    }
}

// The key that forty bytes name. The one at this place says whether there is one.
fn key_named(forty: &[u8], place: usize) -> Option<[u8; 32]>
    requires place { place < length forty.now }
    requires key { 36 ≤ length forty.now }
    ensures { result ≡ key_named place forty.now }
{
    if forty[place] != 1 {
        return None;
    }
    let mut key = [0; 32];
    key.copy_from_slice(&forty[KEY..COUNTER]);
    Some(key)
}

// Writes the forty bytes of a region.
fn put(page: &mut Block, number: usize, forty: &[u8; REGION])
    requires { number < regions }
    ensures { page.new ≡ with_part (40 * number) forty.now page.old }
{
    page[REGION * number..REGION * number + REGION].copy_from_slice(forty);
}

// A flag's byte.
fn flag_of(flag: bool) -> u8
    ensures { result ≡ flag_byte flag }
{
    if flag { 1 } else { 0 }
}

// The byte that says whether there is a key.
fn key_flag(key: Option<[u8; 32]>) -> u8
    ensures { result ≡ key_flag key }
{
    flag_of(key.is_some())
}

// The forty bytes of a region other than 0.
fn region_bytes(region: &KeyAndCounter) -> [u8; REGION]
    ensures { result ≡ region_bytes region.now }
{
    let mut forty = forty_bytes(region);
    forty[0] = key_flag(region.key);
    forty
}

// Four zeros, the key, and the counter.
fn forty_bytes(region: &KeyAndCounter) -> [u8; REGION]
    ensures { result ≡ forty_bytes (replicate 4 0) region.now }
{
    let mut forty = [0; REGION];
    forty[KEY..COUNTER].copy_from_slice(&key_bytes(region.key));
    write_u32(&mut forty, COUNTER, region.counter);
    forty
}

// The key; zeros if there is none.
fn key_bytes(key: Option<[u8; 32]>) -> [u8; 32]
    ensures { result ≡ key_bytes key }
{
    match key {
        Some(key) => key,
        None => [0; 32],
    }
}
