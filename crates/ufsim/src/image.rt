//! Images: all dies in a row of bytes, as a file keeps them.
ghost use Rattle.std.specs.Prelude.{◌≡◌, ◌≢◌, ◌<◌, ◌++◌, ◌∷◌, [], false, length, All, IfErr, IfOk};
ghost use Rattle.std.specs.Prelude.{IfSome, OnOk};
ghost use Rattle.std.specs.Io.KnownBytes.{Appends, Consumes, IsAtEnd};
ghost use Rattle.std.specs.List.{flat_map};
ghost use Rattle.ufs_spec.specs.Dies.{is_bad_block, pages_of};
ghost use Rattle.ufsim.specs.declared.image.ImageFault.TheVariants as image_fault;
ghost use Rattle.ufsim.specs.Images.{AreParts, IsBadByte, IsBlock, IsDie, IsImage, IsLong, IsPage};
ghost use Rattle.ufsim.specs.Images.{Reads, IsBlockRead, IsElseSame, IsOfImage, bad_byte};
ghost use Rattle.ufsim.specs.Images.{block_bytes, die_bytes, head_bytes, image_bytes, marked};
ghost use Rattle.ufsim.specs.Images.{page_bytes};

use byteorder::{BigEndian, ByteOrder};
use nand_model::{Die, MemDie, Page};
use std::alloc::{AllocError, AllocFailed, Global};
use std::io::{Error, ErrorKind, Read, Write};
use thiserror::Error;
use ufs_spec::NoMemory;

/// How many dies an image has, of how many blocks, each of how many pages.
#[derive(Clone, Copy, Debug, PartialEq, Eq)]
pub struct Sizes {
    pub dies: u8,
    pub blocks: u16,
    pub pages: u16,
}

/// Why an image is not read or written.
#[derive(Clone, Copy, Debug, Error, PartialEq, Eq)]
pub enum ImageFault {
    /// The bytes are no image of these sizes.
    #[error("image")]
    Malformed,
    /// A read or a write failed.
    #[error("file")]
    File,
    /// Memory was refused.
    #[error("memory")]
    Memory,
}

impl From<Error> for ImageFault {
    ghost from_gives = { λ _ fault. fault ≢ image_fault.Malformed };

    fn from(error: Error) -> ImageFault {
        match error.kind() {
            ErrorKind::OutOfMemory => ImageFault::Memory,
            _ => ImageFault::File,
        }
    }
}

impl From<AllocError> for ImageFault {
    ghost from_gives = { λ _ fault. fault ≡ image_fault.Memory };

    fn from(_: AllocError) -> ImageFault {
        ImageFault::Memory
    }
}

// What was to be added to a list that could not grow is let go.
impl<T: Drop> From<AllocFailed<T>> for ImageFault {
    ghost from_gives = { λ _ fault. fault ≡ image_fault.Memory };

    fn from(_: AllocFailed<T>) -> ImageFault {
        ImageFault::Memory
    }
}

impl From<NoMemory> for ImageFault {
    ghost from_gives = { λ _ fault. fault ≡ image_fault.Memory };

    fn from(_: NoMemory) -> ImageFault {
        ImageFault::Memory
    }
}

/// Writes the image of the dies, which are of these sizes, page by page.
///
/// # Errors
///
/// `File` where a write failed, or `Memory` where it did so for want of memory. A part may be
/// written then.
pub fn write_image<W: Write>(image: &mut W, sizes: Sizes, dies: &[MemDie]) -> Result<(), ImageFault>
    ensures { OnOk result (Appends (W.contents image.old) (W.contents image.new)
        (image_bytes sizes.dies sizes.blocks sizes.pages dies.now)) }
{
    image.write_all(&head(sizes))?;
    for die in dies {
        write_die(image, die)?;
    }
    Ok(image.flush()?)
}

/// The dies of an image of these sizes, which is read to its end. It is read once, page by page,
/// into dies that no one else has; so they are let go where it is malformed, and an image may come
/// from a pipe.
///
/// # Errors
///
/// `Malformed` where the bytes are no image of these sizes, `File` where a read failed, and
/// `Memory` for want of memory.
pub fn read_image<R: Read>(
    alloc: Global,
    image: &mut R,
    sizes: Sizes,
) -> Result<Vec<MemDie>, ImageFault>
    ensures bytes { IfOk result (λ dies. IfSome (R.remaining image.old) (λ bytes.
        bytes ≡ image_bytes sizes.dies sizes.blocks sizes.pages dies.items)) }
    ensures sizes { IfOk result (λ dies. (length dies.items ≡ sizes.dies)
        × All (IsOfImage sizes.blocks sizes.pages) dies.items) }
    ensures image { OnOk result
        (IfSome (R.remaining image.old) (IsImage sizes.dies sizes.blocks sizes.pages)) }
    ensures malformed { IfErr result (λ fault. fault ≡ ImageFault.Malformed →
        IfSome (R.remaining image.old) (λ bytes.
        IsImage sizes.dies sizes.blocks sizes.pages bytes → ⊥)) }
{
    let mut found = [0; 14];
    fill(image, &mut found)?;
    if found != head(sizes) {
        return Err(ImageFault::Malformed);
    }
    let mut dies = Vec::with_capacity(alloc, sizes.dies as usize)?;
    for _ in 0..sizes.dies {
        let die = read_die(alloc, image, sizes)?;
        dies.push(die)?;
    }
    expect_end(image)?;
    Ok(dies)
}

// The bytes before the dies.
fn head(sizes: Sizes) -> [u8; 14]
    ensures { result ≡ head_bytes sizes.dies sizes.blocks sizes.pages }
{
    let mut head = [0; 14];
    head[..8].copy_from_slice(b"UFSIMAGE");
    head[8] = sizes.dies;
    BigEndian::write_u16(&mut head[10..12], sizes.blocks);
    BigEndian::write_u16(&mut head[12..14], sizes.pages);
    head
}

fn write_die<W: Write>(image: &mut W, die: &MemDie) -> Result<(), ImageFault>
    ensures { OnOk result
        (Appends (W.contents image.old) (W.contents image.new) (die_bytes die.now)) }
{
    for block in 0..die.blocks() {
        write_block(image, die, block)?;
    }
    Ok(())
}

// Whether the block is bad, and its pages.
fn write_block<W: Write>(image: &mut W, die: &MemDie, block: u16) -> Result<(), ImageFault>
    requires { block < length die.now.blocks }
    ensures { OnOk result
        (Appends (W.contents image.old) (W.contents image.new) (block_bytes die.now block)) }
{
    image.write_all(&[u8::from(die.is_bad(block))])?;
    for page in 0..die.pages() {
        write_page(image, die.page_at(block, page))?;
    }
    Ok(())
}

fn write_page<W: Write>(image: &mut W, page: &Page) -> Result<(), ImageFault>
    ensures { OnOk result
        (Appends (W.contents image.old) (W.contents image.new) (page_bytes page.now)) }
{
    image.write_all(&page.body)?;
    Ok(image.write_all(&page.spare)?)
}

fn read_die<R: Read>(alloc: Global, image: &mut R, sizes: Sizes) -> Result<MemDie, ImageFault>
    ensures bytes { IfOk result (λ die.
        Consumes (R.remaining image.old) (R.remaining image.new) (die_bytes die)) }
    ensures size { IfOk result (IsOfImage sizes.blocks sizes.pages) }
    ensures kind { Reads (IsDie sizes.blocks sizes.pages)
        (R.remaining image.old) (R.remaining image.new) result }
{
    let mut die = MemDie::new(alloc, sizes.blocks, sizes.pages)?;
    for block in 0..sizes.blocks {
        read_block(image, &mut die, block)?;
    }
    // No block may be programmed before an erase, as after a stop.
    die.end_power_cycle();
    Ok(die)
}

// Whether the block is bad, and its pages.
fn read_block<R: Read>(image: &mut R, die: &mut MemDie, block: u16) -> Result<(), ImageFault>
    requires there { block < length die.old.blocks }
    requires good { is_bad_block die.old block ≡ false }
    requires long { length die.old.bad ≡ length die.old.blocks }
    ensures bytes { OnOk result
        (Consumes (R.remaining image.old) (R.remaining image.new) (block_bytes die.new block)) }
    ensures rest { OnOk result (IsBlockRead die.old block die.new) }
    ensures kind { Reads (IsBlock (length (pages_of die.old block)))
        (R.remaining image.old) (R.remaining image.new) result }
{
    let is_bad = read_bad(image)?;
    mark(die, block, is_bad);
    read_pages(image, die, block)
}

// The block is bad from now on, if it is to be.
fn mark(die: &mut MemDie, block: u16, is_bad: bool)
    requires { block < length die.old.blocks }
    ensures { die.new ≡ marked die.old block is_bad }
{
    if is_bad {
        die.set_bad(block);
    }
}

fn read_pages<R: Read>(image: &mut R, die: &mut MemDie, block: u16) -> Result<(), ImageFault>
    requires { block < length die.old.blocks }
    ensures bytes { OnOk result (Consumes (R.remaining image.old) (R.remaining image.new)
        (flat_map page_bytes (pages_of die.new block))) }
    ensures rest { IsElseSame die.old block die.new }
    ensures kind { Reads (AreParts IsPage (length (pages_of die.old block))) (R.remaining image.old)
        (R.remaining image.new) result }
{
    for page in 0..die.pages() {
        let content = read_page(image)?;
        die.set_page(block, page, &content);
    }
    Ok(())
}

fn read_bad<R: Read>(image: &mut R) -> Result<bool, ImageFault>
    ensures bytes { IfOk result (λ is_bad.
        Consumes (R.remaining image.old) (R.remaining image.new) (bad_byte is_bad ∷ [])) }
    ensures kind { Reads IsBadByte (R.remaining image.old) (R.remaining image.new) result }
{
    let mut byte = [0];
    fill(image, &mut byte)?;
    match byte[0] {
        0 => Ok(false),
        1 => Ok(true),
        _ => Err(ImageFault::Malformed),
    }
}

fn read_page<R: Read>(image: &mut R) -> Result<Page, ImageFault>
    ensures bytes { IfOk result (λ page.
        Consumes (R.remaining image.old) (R.remaining image.new) (page_bytes page)) }
    ensures kind { Reads IsPage (R.remaining image.old) (R.remaining image.new) result }
{
    let mut page = Page {
        body: [0; 4096],
        spare: [0; 96],
    };
    fill(image, &mut page.body)?;
    fill(image, &mut page.spare)?;
    Ok(page)
}

// `Malformed` where there is one more byte.
#[tactic(auto, using(crate::proofs::ImageLemmas::at_end, crate::proofs::ImageLemmas::kept_more))]
fn expect_end<R: Read>(image: &mut R) -> Result<(), ImageFault>
    ensures end { OnOk result (IsAtEnd (R.remaining image.old)) }
    ensures more { IfErr result (λ fault. fault ≡ ImageFault.Malformed →
        IfSome (R.remaining image.old) (λ all. all ≢ [])) }
{
    for _ in 0..u64::MAX {
        match image.read(&mut [0]) {
            Ok(0) => return Ok(()),
            Ok(_) => return Err(ImageFault::Malformed),
            Err(error) => pass_interrupted(error)?,
        }
    }
    Err(ImageFault::File)
}

// A read that a signal interrupted is tried again.
fn pass_interrupted(error: Error) -> Result<(), ImageFault>
    ensures { IfErr result (λ fault. fault ≢ ImageFault.Malformed) }
{
    match error.kind() {
        ErrorKind::Interrupted => Ok(()),
        _ => Err(ImageFault::from(error)),
    }
}

// Reads as many bytes as there is room for; `Malformed` where the image has fewer.
fn fill<R: Read>(image: &mut R, into: &mut [u8]) -> Result<(), ImageFault>
    ensures bytes { OnOk result
        (Consumes (R.remaining image.old) (R.remaining image.new) into.new) }
    ensures kind { Reads (IsLong (length into.old))
        (R.remaining image.old) (R.remaining image.new) result }
{
    let mut at = 0;
    for _ in 0..u64::MAX {
        if at >= into.len() {
            return Ok(());
        }
        match image.read(&mut into[at..]) {
            Ok(0) => return Err(ImageFault::Malformed),
            Ok(count) => at += count,
            Err(error) => pass_interrupted(error)?,
        }
    }
    Err(ImageFault::File)
}
