//! The pages outside of the blocks that are free.
ghost use Rattle.std.specs.Prelude.{◌≡◌, IfOk, filter};
ghost use Rattle.recovery.specs.Frees.{is_outside};

use crate::free::{block_number, is_free};
use crate::pages::FoundPage;
use std::alloc::{AllocError, Global};

/// Of the pages those that lie in no free block, in their order.
pub(crate) fn outside_pages(
    alloc: Global,
    pages: &[FoundPage],
    free: &[bool],
    blocks: u16,
) -> Result<Vec<FoundPage>, AllocError>
    ensures { IfOk result (λ v. v.items ≡ filter (is_outside blocks free.now) pages.now) }
{
    let mut all = Vec::new(alloc);
    for page in pages {
        if is_outside(*page, free, blocks) {
            all.push(*page)?;
        }
    }
    Ok(all)
}

/// Whether the page lies in no free block.
fn is_outside(page: FoundPage, free: &[bool], blocks: u16) -> bool
    ensures { result ≡ is_outside blocks free.now page }
{
    !is_free(free, block_number(page.place, blocks))
}
