//! The dies that an image has.
ghost use Rattle.std.specs.Prelude.{◌≡◌, IfOk, IfSome};
ghost use Rattle.ufsim.specs.Images.{image_bytes};
ghost use Rattle.ufsim.specs.declared.image.Sizes.{Sizes as SizesOf};

use nand_model::MemDie;
use std::alloc::Global;
use std::io::{Error, ErrorKind, Read};
use ufs_spec::read_u16;
use ufsim::{ImageFault, Sizes, read_image};

/// How many bytes come before the dies.
const HEAD: usize = 14;

/// The dies of an image, which is read once, to its end: first the bytes that tell their sizes, and
/// then page by page, so that nothing else of it is kept.
///
/// # Errors
///
/// `Malformed` where the bytes are no image of dies that a device may have, `File` where a read
/// failed, and `Memory` for want of memory.
pub fn read_dies<R: Read>(alloc: Global, image: &mut R) -> Result<Vec<MemDie>, ImageFault>
    ensures { IfOk result (λ dies. IfSome (R.remaining image.old) (λ bytes.
        (s : SizesOf) × (bytes ≡ image_bytes s.dies s.blocks s.pages dies.items))) }
{
    let mut head = [0; HEAD];
    if let Err(error) = image.read_exact(&mut head) {
        return Err(unread(error));
    }
    let sizes = sizes_in(&head);
    if !are_in_range(sizes) {
        return Err(ImageFault::Malformed);
    }
    read_image(alloc, &mut (&head[..]).chain(image), sizes)
}

// A head that is cut off is malformed.
fn unread(error: Error) -> ImageFault {
    match error.kind() {
        ErrorKind::UnexpectedEof => ImageFault::Malformed,
        ErrorKind::OutOfMemory => ImageFault::Memory,
        _ => ImageFault::File,
    }
}

// The sizes that stand in a head.
fn sizes_in(head: &[u8; HEAD]) -> Sizes {
    Sizes {
        dies: head[8],
        blocks: read_u16(head, 10),
        pages: read_u16(head, 12),
    }
}

// Whether a device may have dies of these sizes. Others may want more memory than there is.
fn are_in_range(sizes: Sizes) -> bool {
    1 <= sizes.dies
        && sizes.dies <= 8
        && 16 <= sizes.blocks
        && sizes.blocks <= 1024
        && 16 <= sizes.pages
        && sizes.pages <= 256
}
