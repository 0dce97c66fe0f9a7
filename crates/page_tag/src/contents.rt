//! What a page is.
ghost use Rattle.std.specs.Prelude.{◌↔◌, ◌≤◌, IsTrue};
ghost use Rattle.page_tag.specs.Contents.{cell_of};
ghost use Rattle.page_tag.specs.Jobs.{IsTagOf};
ghost use Rattle.ufs_spec.specs.Cells.{IsCell};
ghost use Rattle.ufs_spec.specs.Pages.{IsCheckRight};

use crate::check::are_checks_right;
use crate::facts::bytes_are_a_block;
use crate::mark_read::mark_in;
use crate::page::{front_tag, sealed_tag};
use settings::is_settings_page;
use ufs_spec::{Block, Fence, Numbers, Opened, Page, Tag};

/// What a mark says: its number among marks, the frontier that it records, its fence, if it has
/// one, and the numbers of the configuration.
#[derive(Drop)]
pub struct Mark {
    pub number: u64,
    pub records: u64,
    pub fence: Option<Fence>,
    pub numbers: Numbers,
}

/// What a page is.
#[derive(Drop)]
pub enum Content {
    /// Blank, torn, or not written by the device.
    Nothing,
    /// A page of a group: data, a part of the area of an RPMB region, or settings.
    Group(Opened),
    /// A mark.
    Mark(Mark),
}

/// What a page is. A settings page or a mark counts only if its data are those of one: a mark whose
/// fence is empty, or that has more than 8 units, is nothing, and so is either with a wrong
/// padding. It takes one SHA-256, and none if the first 64 spare bytes are wrong already.
pub fn content_of(page: &Page) -> Content
    ensures { IsCell page.now (cell_of result) }
{
    content_with(page, sealed_tag(page))
}

/// What each of four pages is, in their order, as [`content_of`] has it of one. Where three or four
/// want a SHA-256, these are taken side by side.
pub fn contents_of_four(
    a: &Page,
    b: &Page,
    c: &Page,
    d: &Page,
) -> (Content, Content, Content, Content)
    ensures first { IsCell a.now (cell_of result.0) }
    ensures second { IsCell b.now (cell_of result.1) }
    ensures third { IsCell c.now (cell_of result.2) }
    ensures fourth { IsCell d.now (cell_of result.3) }
{
    // Four side by side take the time of two, so one or two are no slower one by one.
    if wants_hash(a) + wants_hash(b) + wants_hash(c) + wants_hash(d) < 3 {
        return (content_of(a), content_of(b), content_of(c), content_of(d));
    }
    let right = are_checks_right(a, b, c, d);
    (
        content_checked(a, right.0),
        content_checked(b, right.1),
        content_checked(c, right.2),
        content_checked(d, right.3),
    )
}

// How many SHA-256 tell what a page is: one, or none if its first 64 spare bytes are wrong already.
fn wants_hash(page: &Page) -> u8
    ensures { result ≤ 1 }
{
    match front_tag(page) {
        Some(_) => 1,
        None => 0,
    }
}

// What a page is whose check is right, or is not.
fn content_checked(page: &Page, is_right: bool) -> Content
    requires { IsTrue is_right ↔ IsCheckRight page.now }
    ensures { IsCell page.now (cell_of result) }
{
    if !is_right {
        return Content::Nothing;
    }
    content_with(page, front_tag(page))
}

// What a page is that is sealed with this tag, or with none.
fn content_with(page: &Page, tag: Option<Tag>) -> Content
    requires { IsTagOf page.now tag }
    ensures { IsCell page.now (cell_of result) }
{
    bytes_are_a_block(&page.body);
    let Some(tag) = tag else {
        return Content::Nothing;
    };
    let opened = Opened {
        tag,
        body: page.body,
    };
    if opened.tag.kind == Tag::MARK {
        return match mark_in(&opened) {
            Some(mark) => Content::Mark(mark),
            None => Content::Nothing,
        };
    }
    if opened.tag.kind == Tag::SETTINGS && !is_settings_page(&opened.body) {
        return Content::Nothing;
    }
    Content::Group(opened)
}
