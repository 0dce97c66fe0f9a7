//! Sealed pages.
ghost use Rattle.std.specs.Prelude.{◌≡◌, ◌↔◌, ◌++◌, ℕ, List, IfSome, IsTrue, None, Some, take};
ghost use Rattle.ufs_spec.specs.Pages.{IsFrontOf, IsSealedAs, IsTag, MayBeLeft, seal_page};
ghost use Rattle.ufs_spec.specs.declared.flash.Tag.{Tag};

use crate::check::{check_bytes, is_check_right};
use crate::front::{front_of, has_front, is_tag, tag_of};
use ufs_spec::{Block, Opened, Page, Tag};

/// The page of a tag and a block, in version 2. It takes one SHA-256.
pub fn seal(tag: &Tag, body: &Block) -> Page
    requires { IsTag tag.now }
    ensures { result ≡ seal_page tag.now body.now }
{
    let spare = spare_with(tag, body);
    Page { body: *body, spare }
}

/// The spare bytes of that page.
pub(crate) fn spare_with(tag: &Tag, body: &Block) -> [u8; 96]
    requires { IsTag tag.now }
    ensures { result ≡ (seal_page tag.now body.now).spare }
{
    let front = front_of(tag);
    let check = check_bytes(body, &front);
    spare_of(&front, &check)
}

/// The spare bytes of these first 64 and a check.
pub(crate) fn spare_of(front: &[u8; 64], check: &[u8; 32]) -> [u8; 96]
    ensures { result ≡ front.now ++ check.now }
{
    let mut spare = [0; 96];
    let (first, last) = spare.split_at_mut(64);
    first.copy_from_slice(front);
    last.copy_from_slice(check);
    spare
}

/// The tag with which a page is sealed, in version 2 or in version 1; the page's data are the block. `None` is
/// for every other page: where magic, version, check or a byte that must be zero is wrong, or a field is out of
/// its version's range. It takes one SHA-256, and none where the first 64 spare bytes are wrong already.
pub fn sealed_tag(page: &Page) -> Option<Tag>
    ensures sealed { IfSome result (λ t. IsTag t × IsSealedAs page.now t page.now.body) }
    ensures refused { result ≡ None → (t : Tag) (b : List ℕ) → IsTag t → ¬ IsSealedAs page.now t b }
{
    let Some(tag) = front_tag(page) else {
        return None;
    };
    if !is_check_right(page) {
        return None;
    }
    Some(tag)
}

/// The tag whose page has these first 64 spare bytes, whether or not its check is right. `None` is
/// for a page whose first 64 spare bytes no tag has in either version. It takes no SHA-256.
pub(crate) fn front_tag(page: &Page) -> Option<Tag>
    ensures said { IfSome result (λ t. IsTag t × IsFrontOf t (take 64 page.now.spare)) }
    ensures refused { result ≡ None → (t : Tag) → IsTag t → ¬ IsFrontOf t (take 64 page.now.spare) }
{
    let tag = tag_of(&page.spare);
    if !is_tag(&tag) {
        return None;
    }
    if !has_front(&page.spare, &tag) {
        return None;
    }
    Some(tag)
}

/// The tag and the block of a sealed page, and `None` for every other page, as [`sealed_tag`] has it. It
/// copies the block.
pub fn open(page: &Page) -> Option<Opened>
    ensures sealed { IfSome result (λ o. IsTag o.tag × IsSealedAs page.now o.tag o.body) }
    ensures refused { result ≡ None → (t : Tag) (b : List ℕ) → IsTag t → ¬ IsSealedAs page.now t b }
{
    let Some(tag) = sealed_tag(page) else {
        return None;
    };
    Some(Opened {
        tag,
        body: page.body,
    })
}

/// Whether a stop or a failed job may leave `after` of a page that was to become `intended` and was
/// `before`: either of them, or any page whose check fails. It takes one SHA-256, and none where `after`
/// is one of the two.
pub fn leftover_ok(before: &Page, intended: &Page, after: &Page) -> bool
    ensures { IsTrue result ↔ MayBeLeft before.now intended.now after.now }
{
    after == before || after == intended || !is_check_right(after)
}

/// A law: a sealed page opens to the tag and the block that it was sealed with. No code calls it.
pub fn reopened(tag: &Tag, body: &Block) -> Option<Opened>
    requires { IsTag tag.now }
    ensures { result ≡ Some (record { tag = tag.now; body = body.now }) }
{
    open(&seal(tag, body))
}
