//! The groups that are accepted of RPMB requests and of settings: the pages that they bring (JESD220,
//! 12.4 and 14).
ghost use Rattle.std.specs.Prelude.{◌≡◌, ◌≤◌, ◌+◌, ◌*◌, ◌/◌, IsTrue, length};
ghost use Rattle.device.specs.Frames.{HasAccepted};
ghost use Rattle.device.specs.Groups.{HasPut, IsBrought, key_group, settings_kept, write_group};
ghost use Rattle.ftl_core.specs.Public.{has_number};
ghost use Rattle.rpmb.specs.Kept.{machine_at};
ghost use Rattle.rpmb.specs.Outcomes.{MayChange};
ghost use Rattle.rpmb.specs.Requests.{frames_of};
ghost use Rattle.settings.specs.Told.{bytes_of};
ghost use Rattle.ufs_spec.specs.Keys.{area_key, settings_key};

use crate::area::{PAGE_BLOCKS, area_key};
use crate::device::Device;
use ftl_core::{Brought, Part};
use rpmb::{Accepted, all_data};
use settings::Settings;
use task_set::TaskEvent;
use ufs_spec::{Block, Key, Tag};

/// How many bytes the area has in each of its blocks (JESD220, 12.4).
const BLOCK: usize = 256;

/// The settings page, which is brought whole.
fn settings_brought(page: &Block) -> Brought<'_>
    ensures { IsBrought settings_key 0 page.now result }
{
    Brought {
        key: Key {
            kind: Tag::SETTINGS,
            unit: 0,
            address: 0,
        },
        part: Part {
            first: 0,
            blocks: 16,
        },
        bytes: page,
    }
}

/// A page of the area of a region, of which these whole blocks are brought, the first at this place
/// in it.
fn area_brought(region: u8, page: u16, first: u8, bytes: &[u8]) -> Brought<'_>
    requires whole { 256 * (length bytes.now / 256) ≡ length bytes.now }
    requires within { 256 * first + length bytes.now ≤ 4096 }
    ensures { IsBrought (area_key region page) first bytes.now result }
{
    Brought {
        key: area_key(region, page),
        part: Part {
            first,
            blocks: (bytes.len() / BLOCK) as u8,
        },
        bytes,
    }
}

impl Device {
    /// The settings as the device has them now.
    pub(crate) fn settings(&self) -> Settings
        ensures { result ≡ settings_kept self.now }
    {
        Settings {
            boot: self.boot,
            is_permanent: self.is_permanent,
            regions: self.rpmb.said(),
        }
    }

    /// A key or a write of the region is accepted: the key is set or the counter rises, and its pages are put behind all
    /// that are pending as one group.
    pub(crate) fn accept_request(
        &mut self,
        tag: u8,
        region: u8,
        frames: &[u8],
        code: u16,
        accepted: &Accepted,
    ) -> TaskEvent
        requires may { MayChange accepted.now (machine_at self.old.rpmb region).region }
        requires numbered { IsTrue (has_number self.old.ftl) }
        requires few { length frames.now ≤ 4096 }
        ensures left { self.new ≡ record self.old { ftl = self.new.ftl; rpmb = self.new.rpmb } }
        ensures accepted { HasAccepted self.old self.new tag region (frames_of frames.now) code
            accepted.now result }
    {
        self.rpmb.apply(region, accepted);
        let settings = self.settings().page();
        let number = match accepted {
            Accepted::Write { address } => {
                self.put_write(
                    tag,
                    region,
                    *address,
                    all_data(frames).as_slice(),
                    &settings,
                )
            }
            _ => self.put_settings(tag, &settings),
        };
        TaskEvent::RequestAccepted { code, number }
    }

    /// The settings page is put behind all that are pending, as a group of its own, which has this number.
    pub(crate) fn put_settings(&mut self, tag: u8, settings: &Block) -> u64
        requires { IsTrue (has_number self.old.ftl) }
        ensures left { self.new ≡ record self.old { ftl = self.new.ftl } }
        ensures put { HasPut self.old.ftl self.new.ftl tag (key_group settings.now) result }
    {
        self.ftl.accept_pages(tag, &[settings_brought(settings)])
    }

    /// The pages of data that are written from a block of the area of a region on are put behind all that
    /// are pending, with the settings page behind them in the same group, which has this number.
    fn put_write(
        &mut self,
        tag: u8,
        region: u8,
        address: u16,
        bytes: &[u8],
        settings: &Block,
    ) -> u64
        requires numbered { IsTrue (has_number self.old.ftl) }
        requires whole { 256 * (length bytes.now / 256) ≡ length bytes.now }
        requires few { length bytes.now ≤ 2048 }
        ensures left { self.new ≡ record self.old { ftl = self.new.ftl } }
        ensures put { HasPut self.old.ftl self.new.ftl tag
            (write_group region address bytes.now settings.now) result }
    {
        let page = address / PAGE_BLOCKS;
        let first = (address % PAGE_BLOCKS) as u8;
        let room = BLOCK * usize::from(16 - first);
        if bytes.len() <= room {
            let pages = [
                area_brought(region, page, first, bytes),
                settings_brought(settings),
            ];
            self.ftl.accept_pages(tag, &pages)
        } else {
            let (here, behind) = bytes.split_at(room);
            let pages = [
                area_brought(region, page, first, here),
                area_brought(region, page + 1, 0, behind),
                settings_brought(settings),
            ];
            self.ftl.accept_pages(tag, &pages)
        }
    }
}
