//! Images of the dies of a device that a handle holds.
#![tactic(auto)]

ghost use Rattle.std.specs.Prelude.{◌≡◌, All, IfErr, IfOk, List, Some};
ghost use Rattle.ufs_spec.specs.Dies.{DieState};
ghost use Rattle.ufs_spec.specs.Lives.{Fit};
ghost use Rattle.ufsim.specs.Images.{image_bytes};
ghost use Rattle.ufs_handle.specs.Calls.{IsOpen};
ghost use Rattle.ufs_handle.specs.Kept.{HeldState};
ghost use Rattle.ufs_handle.specs.Plain.{config_numbers};
ghost use Rattle.ufs_handle.specs.Runs.{Makes, Save};
ghost use Rattle.ufs_images.specs.Saved.{AreWhole, IsImageOf, IsLength, IsSaved, OpensImage, SavesTo, image_fault_of};
ghost use Rattle.ufs_images.specs.Saved.{image_length, image_of};

use geometry::Config;
use nand_model::MemDie;
use std::alloc::Global;
use ufs_handle::{Fault, Handle, Held, PlainConfig, PlainUnit, config_of, put_front};
use ufsim::{ImageFault, Sizes, read_image, write_image};

/// Opens a device of this configuration over the dies of an image, where the handle holds none.
///
/// # Errors
///
/// `Open` where it holds one; those of `config_of`; `Image` where the bytes are no image of these
/// sizes; else those of `Held::open`. Nothing changes then.
pub fn open_image(
    handle: &mut Handle,
    alloc: Global,
    plain: &PlainConfig,
    units: &[PlainUnit],
    image: &[u8],
) -> Result<(), Fault>
    ensures { OpensImage plain.now units.now image.now handle.old.value result handle.new.value }
{
    if handle.is_open() {
        return Err(Fault::Open);
    }
    let config = match config_of(plain, units) {
        Ok(config) => config,
        Err(fault) => return Err(fault),
    };
    let sizes = Sizes {
        dies: plain.dies,
        blocks: plain.blocks,
        pages: plain.pages,
    };
    let mut rest = image;
    match read_image(alloc, &mut rest, sizes) {
        Ok(dies) => handle.open(alloc, config, dies),
        Err(fault) => Err(fault_of(fault)),
    }
}

/// Why bytes in memory were not read as an image, as a fault of a call: a read of them does not fail.
fn fault_of(fault: ImageFault) -> Fault
    ensures { result ≡ image_fault_of fault }
{
    match fault {
        ImageFault::Malformed => Fault::Image,
        ImageFault::File => Fault::NoMemory,
        ImageFault::Memory => Fault::NoMemory,
    }
}

/// Tells how many bytes the image of the dies has. It answers `None` where the handle holds no
/// device.
pub fn put_length(handle: &mut Handle, alloc: Global, length: &mut u64) -> Option<()>
    ensures same { handle.new.value ≡ handle.old.value }
    ensures long { IsLength handle.old.value result length.old length.new }
{
    let held = handle.take(alloc)?;
    *length = length_of(held.config());
    handle.put(held);
    Some(())
}

/// How many bytes an image of the dies of this configuration has.
fn length_of(config: &Config) -> u64
    ensures { result ≡ image_length config.now }
{
    let numbers = config.numbers();
    let block = 1 + u64::from(numbers.pages) * 4192;
    14 + u64::from(numbers.dies) * (u64::from(numbers.blocks) * block)
}

/// Writes the image of the dies in memory into the front of the room: a job in flight has done
/// nothing yet. It answers `None` where the handle holds no device.
///
/// # Errors
///
/// `OwnDies` where there are no dies in memory, `Room` where the image is longer than the room,
/// `NoMemory` where memory was refused. The room stays as it is then.
pub fn save(handle: &mut Handle, alloc: Global, into: &mut [u8]) -> Option<Result<(), Fault>>
    ensures same { handle.new.value ≡ handle.old.value }
    ensures saved { SavesTo handle.old.value result into.old into.new }
{
    let held = handle.take(alloc)?;
    let answer = save_held(alloc, &held, into);
    handle.put(held);
    Some(answer)
}

/// Writes the image of the dies in memory into the front of the room.
fn save_held(alloc: Global, held: &Held, into: &mut [u8]) -> Result<(), Fault>
    ensures { IsSaved held.now result into.old into.new }
{
    if held.dies().is_empty() {
        return Err(Fault::OwnDies);
    }
    let numbers = held.config().numbers();
    let sizes = Sizes {
        dies: numbers.dies,
        blocks: numbers.blocks,
        pages: numbers.pages,
    };
    let image = match image_of(alloc, sizes, held.dies()) {
        Ok(image) => image,
        Err(fault) => return Err(fault),
    };
    match put_front(image.as_slice(), into) {
        Ok(()) => Ok(()),
        Err(fault) => Err(fault),
    }
}

/// The image of the dies, which are of these sizes. It is written to memory, so a write fails for want
/// of it alone.
fn image_of(alloc: Global, sizes: Sizes, dies: &[MemDie]) -> Result<Vec<u8>, Fault>
    ensures image { IfOk result (λ image. image.items ≡ image_bytes sizes.dies sizes.blocks sizes.pages dies.now) }
    ensures memory { IfErr result (λ f. f ≡ Fault.NoMemory) }
{
    let mut image = Vec::new(alloc);
    match write_image(&mut image, sizes, dies) {
        Ok(()) => Ok(image),
        Err(_) => Err(Fault::NoMemory),
    }
}

/// A handle that opens the image of saved dies, with the configuration that they were saved with, holds the same pages and
/// the same bad blocks as these dies: so the save and the opening are a stop at which each job in flight left what was
/// there before. Pages in memory have their 4096 and 96 bytes by their type. It does nothing: its contract is a law.
pub fn an_image_opens_as_it_was_saved()
    ensures { (h after : HeldState) (others : List DieState) (config : PlainConfig) (units : List PlainUnit) →
        h.config ≡ config_numbers config units → Fit h.config h.dies → All AreWhole h.dies → All AreWhole others →
        IsImageOf config (image_of h) others → IsOpen h.config others (Some after) → Makes Save h after }
{}
