//! Images of dies, as `ufsim image save` writes them: what one has, and where one is malformed.
ghost use Rattle.std.specs.Prelude.{◌≡◌, ◌<◌, ◌≤◌, ◌+◌, ◌↔◌, ℕ, List, Option, [], ◌∷◌, length};
ghost use Rattle.std.specs.Prelude.{take, IfErr, IfNone, IfOk, IfSome, IsTrue, OnOk, Some};
ghost use Rattle.std.specs.Io.KnownBytes.{Consumes, IsAtEnd, Keeps};
ghost use Rattle.ufstool.specs.Images.{AreInRange, IsFault, IsHeadFault, IsHeadPlace, IsImage};
ghost use Rattle.ufstool.specs.Images.{IsReadTo, block_count, block_place, head_bytes};
ghost use Rattle.ufstool.specs.Images.{image_length, pages_length};

use crate::cause::Range;
use crate::first_lines::range;
use byteorder::{BigEndian, ByteOrder};
use std::io::{ErrorKind, Read, Write};
use std::{fmt, io};

/// How many dies an image has, of how many blocks, each of how many pages.
#[derive(Clone, Copy)]
pub struct Sizes {
    pub dies: u8,
    pub blocks: u16,
    pub pages: u16,
}

/// What is wrong with an image.
#[derive(Clone, Copy)]
pub enum Trouble {
    /// It does not begin with UFSIMAGE.
    Name,
    /// The byte behind the count of dies is not zero.
    Zero(u8),
    /// A number is out of its range.
    Range(Range),
    /// A block begins with a byte that does not say whether it is bad.
    Bad { die: u64, block: u64, byte: u8 },
    /// It ends here, and has to have so many bytes, if its head is there.
    Short(Option<u64>),
    /// It goes on behind its last page.
    Long,
}

/// Why an image is not told to its end.
#[derive(Clone, Copy)]
pub enum ImageFault {
    /// It is malformed from this byte on; the first one is byte 0.
    Malformed { place: u64, trouble: Trouble },
    /// A read of it failed.
    File,
    /// A write of what is told failed.
    Output,
}

impl From<io::Error> for ImageFault {
    ghost use Rattle.ufstool.specs.declared.images.ImageFault.TheVariants.{Output};

    ghost from_gives = { λ _ fault. fault ≡ Output };

    fn from(_: io::Error) -> ImageFault {
        ImageFault::Output
    }
}

/// How many bytes come before the dies.
const HEAD: usize = 14;

const NAME: [u8; 8] = *b"UFSIMAGE";

/// How many bytes a page has, with its spare ones.
const PAGE: u64 = 4192;

/// Says on `out` what the dies of an image are, and which of their blocks are bad. The image is
/// read once, in pieces, to its end. What is wrong is told in one line on `faults`: where it is
/// malformed, and how.
///
/// The status is 0 if all was told, else 1.
pub fn explain_image<R: Read, W: Write, F: Write>(image: &mut R, out: &mut W, faults: &mut F) -> u8
    ensures status { result ≤ 1 }
    ensures quiet { result ≡ 0 → faults.new ≡ faults.old }
    ensures whole { result ≡ 0 →
        IfSome (R.remaining image.old) (λ bytes. (s : Sizes) × IsImage s bytes) }
{
    // Where the fault itself cannot be told, the status alone tells it.
    let _ = match tell(image, out) {
        Ok(_) => return 0,
        Err(ImageFault::Malformed { place, trouble }) => {
            writeln!(faults, "ufstool: byte {place}: {trouble}")
        }
        Err(ImageFault::File) => writeln!(faults, "ufstool: the file cannot be read"),
        Err(ImageFault::Output) => {
            writeln!(faults, "ufstool: the explanation could not be written")
        }
    };
    1
}

// Tells an image, and answers its sizes.
fn tell<R: Read, W: Write>(image: &mut R, out: &mut W) -> Result<Sizes, ImageFault>
    ensures whole { IfOk result (λ s. IfSome (R.remaining image.old) (IsImage s)) }
    ensures wrong { IfErr result (λ fault. IfSome (R.remaining image.old) (IsFault fault)) }
{
    let sizes = read_head(image)?;
    writeln!(out, "{sizes}")?;
    let mut bad = 0u32;
    for number in 0..sizes.count() {
        if read_block(image, sizes, number)? {
            let (die, block) = sizes.named(number);
            writeln!(out, "    block {block} of die {die} is bad")?;
            bad = bad.saturating_add(1);
        }
    }
    expect_end(image, sizes)?;
    writeln!(out, "    bad blocks: {bad}")?;
    out.flush()?;
    Ok(sizes)
}

impl Sizes {
    // How many blocks all dies have.
    fn count(self) -> u64
        ensures { result ≡ block_count self }
    {
        u64::from(self.dies) * u64::from(self.blocks)
    }

    // The die and the block of this number, which counts over all dies.
    fn named(self, number: u64) -> (u64, u64) {
        let blocks = u64::from(self.blocks).max(1);
        (number / blocks, number % blocks)
    }

    // Where the block of this number begins.
    fn place(self, number: u64) -> u64
        requires in_range { AreInRange self }
        requires there { number ≤ block_count self }
        ensures { result ≡ block_place self number }
    {
        14 + number * (1 + self.page_bytes())
    }

    // How many bytes the pages of a block have.
    fn page_bytes(self) -> u64
        ensures { result ≡ pages_length self }
    {
        u64::from(self.pages) * PAGE
    }
}

// The sizes that the bytes before the dies tell.
fn read_head<R: Read>(image: &mut R) -> Result<Sizes, ImageFault>
    ensures range { IfOk result AreInRange }
    ensures head { IfOk result (λ s. (start : Option (List ℕ)) → start ≡ R.remaining image.old →
        IsReadTo s 0 start (R.remaining image.new)) }
    ensures wrong { IfErr result (λ fault. IfSome (R.remaining image.old) (IsFault fault)) }
{
    let mut head = [0; HEAD];
    let count = fill(image, &mut head)?;
    judge(&head[..count])
}

// The first bytes, as many as there are up to the room for them. It answers how many they are.
fn fill<R: Read>(image: &mut R, head: &mut [u8; HEAD]) -> Result<usize, ImageFault>
    ensures few { IfOk result (λ n. n ≤ 14) }
    ensures bytes { IfOk result (λ n.
        Consumes (R.remaining image.old) (R.remaining image.new) (take n head.new)) }
    ensures end { IfOk result (λ n. n < 14 → IsAtEnd (R.remaining image.new)) }
    ensures failed { IfErr result (λ fault. fault ≡ ImageFault.File) }
{
    for place in 0..HEAD {
        match next_byte(image)? {
            Some(byte) => head[place] = byte,
            None => return Ok(place),
        }
    }
    Ok(HEAD)
}

// The sizes of a head, if it is one.
fn judge(head: &[u8]) -> Result<Sizes, ImageFault>
    requires { length head.now ≤ 14 }
    ensures right { IfOk result (λ s. (head.now ≡ head_bytes s) × AreInRange s) }
    ensures wrong { IfErr result (λ fault. IsHeadFault fault head.now) }
{
    match sizes_of(head) {
        Some(sizes) => Ok(sizes),
        None => {
            let (place, trouble) = trouble_in(head);
            let place = place as u64;
            Err(ImageFault::Malformed { place, trouble })
        }
    }
}

// The sizes of a head, if it is one.
fn sizes_of(head: &[u8]) -> Option<Sizes>
    requires { length head.now ≤ 14 }
    ensures right { IfSome result (λ s. (head.now ≡ head_bytes s) × AreInRange s) }
    ensures wrong { IfNone result ((s : Sizes) → AreInRange s → head.now ≡ head_bytes s → ⊥) }
{
    let whole = head.first_chunk::<HEAD>()?;
    let sizes = sizes_in(whole);
    if is_head(sizes, whole) {
        Some(sizes)
    } else {
        None
    }
}

// Whether it is the head of these sizes, and a device may have them.
fn is_head(sizes: Sizes, head: &[u8; HEAD]) -> bool
    ensures { IsTrue result ↔ ((head.now ≡ head_bytes sizes) × AreInRange sizes) }
{
    head_of(sizes) == *head && are_in_range(sizes)
}

// The sizes that stand in a head.
fn sizes_in(head: &[u8; HEAD]) -> Sizes
    ensures { (s : Sizes) → AreInRange s → head.now ≡ head_bytes s → result ≡ s }
{
    Sizes {
        dies: head[8],
        blocks: BigEndian::read_u16(&head[10..12]),
        pages: BigEndian::read_u16(&head[12..14]),
    }
}

// The bytes before the dies.
fn head_of(sizes: Sizes) -> [u8; HEAD]
    ensures { result ≡ head_bytes sizes }
{
    let mut head = [0; HEAD];
    head[..8].copy_from_slice(&NAME);
    head[8] = sizes.dies;
    BigEndian::write_u16(&mut head[10..12], sizes.blocks);
    BigEndian::write_u16(&mut head[12..14], sizes.pages);
    head
}

// Whether a device may have dies of these sizes.
fn are_in_range(sizes: Sizes) -> bool
    ensures { IsTrue result ↔ AreInRange sizes }
{
    1 <= sizes.dies
        && sizes.dies <= 8
        && 16 <= sizes.blocks
        && sizes.blocks <= 1024
        && 16 <= sizes.pages
        && sizes.pages <= 256
}

// What is wrong with a head that is none, and where.
fn trouble_in(head: &[u8]) -> (usize, Trouble)
    requires { length head.now ≤ 14 }
    ensures { IsHeadPlace result.1 result.0 head.now }
{
    if let Some(place) = wrong_letter(head) {
        return (place, Trouble::Name);
    }
    let Some(dies) = head.get(8) else {
        return cut_off(head);
    };
    let dies = range("dies", u32::from(*dies), 1, 8);
    if !dies.is_kept() {
        return (8, Trouble::Range(dies));
    }
    let Some(zero) = head.get(9) else {
        return cut_off(head);
    };
    if *zero != 0 {
        return (9, Trouble::Zero(*zero));
    }
    trouble_of_sizes(head)
}

// What is wrong with the sizes of a die in a head, and where. If nothing else is, it is the pages.
fn trouble_of_sizes(head: &[u8]) -> (usize, Trouble)
    requires { length head.now ≤ 14 }
    ensures { IsHeadPlace result.1 result.0 head.now }
{
    if head.len() < 12 {
        return cut_off(head);
    }
    let blocks = BigEndian::read_u16(&head[10..12]);
    let blocks = range("blocks of a die", u32::from(blocks), 16, 1024);
    if !blocks.is_kept() {
        return (10, Trouble::Range(blocks));
    }
    if head.len() < HEAD {
        return cut_off(head);
    }
    let pages = BigEndian::read_u16(&head[12..14]);
    let pages = range("pages of a block", u32::from(pages), 16, 256);
    (12, Trouble::Range(pages))
}

// A head that ends too early.
fn cut_off(head: &[u8]) -> (usize, Trouble)
    requires { length head.now < 14 }
    ensures { IsHeadPlace result.1 result.0 head.now }
{
    (head.len(), Trouble::Short(None))
}

// The place of the first byte that is not that of the name.
fn wrong_letter(head: &[u8]) -> Option<usize>
    ensures { IfSome result (λ place. place < length head.now) }
{
    for (place, (byte, letter)) in head.iter().zip(&NAME).enumerate() {
        if *byte != *letter {
            return Some(place);
        }
    }
    None
}

// Reads a block: whether it is bad.
fn read_block<R: Read>(image: &mut R, sizes: Sizes, number: u64) -> Result<bool, ImageFault>
    requires in_range { AreInRange sizes }
    requires there { number < block_count sizes }
    ensures right { IfOk result (λ _. (start : Option (List ℕ)) →
        IsReadTo sizes number start (R.remaining image.old) →
        IsReadTo sizes (number + 1) start (R.remaining image.new)) }
    ensures wrong { IfErr result (λ fault. (start : Option (List ℕ)) →
        IsReadTo sizes number start (R.remaining image.old) → IfSome start (IsFault fault)) }
{
    let place = sizes.place(number);
    let Some(byte) = next_byte(image)? else {
        return Err(short(sizes, place));
    };
    if byte > 1 {
        let (die, block) = sizes.named(number);
        return Err(ImageFault::Malformed {
            place,
            trouble: Trouble::Bad { die, block, byte },
        });
    }
    let pages = sizes.page_bytes();
    let skipped = skip(image, pages)?;
    if skipped < pages {
        return Err(short(sizes, place + 1 + skipped));
    }
    Ok(byte == 1)
}

// It ends at this place.
fn short(sizes: Sizes, place: u64) -> ImageFault
    requires { AreInRange sizes }
    ensures { result ≡ ImageFault.Malformed place (Trouble.Short (Some (image_length sizes))) }
{
    let needed = sizes.place(sizes.count());
    ImageFault::Malformed {
        place,
        trouble: Trouble::Short(Some(needed)),
    }
}

// `Malformed` if there is one more byte.
fn expect_end<R: Read>(image: &mut R, sizes: Sizes) -> Result<(), ImageFault>
    requires { AreInRange sizes }
    ensures right { OnOk result ((start : Option (List ℕ)) →
        IsReadTo sizes (block_count sizes) start (R.remaining image.old) →
        IfSome start (IsImage sizes)) }
    ensures wrong { IfErr result (λ fault. (start : Option (List ℕ)) →
        IsReadTo sizes (block_count sizes) start (R.remaining image.old) →
        IfSome start (IsFault fault)) }
{
    match next_byte(image)? {
        None => Ok(()),
        Some(_) => Err(ImageFault::Malformed {
            place: sizes.place(sizes.count()),
            trouble: Trouble::Long,
        }),
    }
}

// Reads so many bytes, or as many as there are, and answers how many they were.
fn skip<R: Read>(image: &mut R, count: u64) -> Result<u64, ImageFault>
    ensures most { IfOk result (λ n. n ≤ count) }
    ensures bytes { IfOk result (λ n. (bytes : List ℕ)
        × Consumes (R.remaining image.old) (R.remaining image.new) bytes × (length bytes ≡ n)) }
    ensures end { IfOk result (λ n. n < count → IsAtEnd (R.remaining image.new)) }
    ensures failed { IfErr result (λ fault. fault ≡ ImageFault.File) }
{
    let mut piece = [0; 4096];
    let mut left = count;
    while left > 0 {
        let wanted = left.min(4096) as usize;
        let found = next_piece(image, &mut piece[..wanted])?;
        if found == 0 {
            return Ok(count - left);
        }
        left -= found as u64;
    }
    Ok(count)
}

// The next byte, if there is one.
fn next_byte<R: Read>(image: &mut R) -> Result<Option<u8>, ImageFault>
    ensures found { IfOk result (λ found. IfSome found (λ byte.
        Consumes (R.remaining image.old) (R.remaining image.new) (byte ∷ []))) }
    ensures end { IfOk result (λ found. IfNone found (
        Keeps (R.remaining image.old) (R.remaining image.new) × IsAtEnd (R.remaining image.new))) }
    ensures failed { IfErr result (λ fault. fault ≡ ImageFault.File) }
{
    let mut byte = [0];
    if next_piece(image, &mut byte)? == 0 {
        return Ok(None);
    }
    Ok(Some(byte[0]))
}

// Reads the next bytes, as many as a read gives. There are none only at the end.
#[tactic(auto, using(crate::proofs::Consumed::kept_consumes, crate::proofs::Consumed::kept_more))]
fn next_piece<R: Read>(image: &mut R, into: &mut [u8]) -> Result<usize, ImageFault>
    requires { 0 < length into.old }
    ensures most { IfOk result (λ n. n ≤ length into.new) }
    ensures bytes { IfOk result (λ n.
        Consumes (R.remaining image.old) (R.remaining image.new) (take n into.new)) }
    ensures end { IfOk result (λ n. n ≡ 0 → IsAtEnd (R.remaining image.new)) }
    ensures failed { IfErr result (λ fault. fault ≡ ImageFault.File) }
{
    // A read that a signal interrupted is tried again.
    for _ in 0..u64::MAX {
        match image.read(into) {
            Ok(found) => return Ok(found),
            Err(error) if error.kind() == ErrorKind::Interrupted => {}
            Err(_) => return Err(ImageFault::File),
        }
    }
    Err(ImageFault::File)
}

impl fmt::Display for Sizes {
    fn fmt<W: fmt::Write>(&self, f: &mut fmt::Formatter<W>) -> fmt::Result {
        let Sizes {
            dies,
            blocks,
            pages,
        } = *self;
        let noun = if dies == 1 { "die" } else { "dies" };
        write!(f, "{dies} {noun} of {blocks} blocks of {pages} pages")
    }
}

impl fmt::Display for Trouble {
    fn fmt<W: fmt::Write>(&self, f: &mut fmt::Formatter<W>) -> fmt::Result {
        match self {
            Trouble::Name => f.write_str(
                "an image begins with UFSIMAGE; give a file that 'ufsim image save' wrote",
            ),
            Trouble::Zero(byte) => write!(f, "the byte is {byte:02X}h; it has to be 00h"),
            Trouble::Range(range) => range.write(f),
            Trouble::Bad { die, block, byte } => write!(
                f,
                "block {block} of die {die} begins with {byte:02X}h; it has to be 00h, or 01h if \
                 the block is bad"
            ),
            Trouble::Short(Some(needed)) => {
                write!(
                    f,
                    "the file ends here; dies of these sizes have {needed} bytes"
                )
            }
            Trouble::Short(None) => f.write_str("the file ends here, before its dies begin"),
            Trouble::Long => f.write_str("the file goes on here, behind the last page"),
        }
    }
}
