//! Scripts that end or begin with an image of the dies.
ghost use Rattle.std.specs.Prelude.{◌≡◌, ◌≤◌, IfSome, Ok, OnOk, true};
ghost use Rattle.ufsim.specs.Images.{AppendsImage, IsSomeImage};

use crate::fault::ScriptFault;
use crate::first_lines::{FirstLines, open_on};
use crate::image::{ImageFault, read_image, write_image};
use crate::run::{Silent, check_on, print_on, print_script};
use device::World;
use std::alloc::Global;
use std::io::{Read, Write};
use thiserror::Error;

// Why a script with an image ends before all is done.
#[derive(Clone, Copy, Debug, Error)]
enum Fault {
    #[error("{0}")]
    Script(#[from] ScriptFault),
    #[error("{0}")]
    Image(#[from] ImageFault),
}

/// As `run_text`, and then writes the image of the dies to `image`, whose name is told where a
/// write fails. A job in flight at the end of the script has done nothing yet. Nothing is written
/// where a line has a fault.
pub fn save_text<I: Write, W: Write, F: Write>(
    alloc: Global,
    script: &[u8],
    name: &str,
    image: &mut I,
    out: &mut W,
    faults: &mut F,
) -> u8
    ensures status { result ≤ 1 }
    ensures quiet { result ≡ 0 → faults.new ≡ faults.old }
    ensures image { result ≡ 0 → AppendsImage (I.contents image.old) (I.contents image.new) }
{
    status_of(save(alloc, script, image, out), name, faults)
}

/// As `run_text`, but over the dies of the image that is read from `image`, whose name is told
/// where a read fails. Nothing is read of it where the first lines have a fault or give no
/// configuration.
pub fn load_text<I: Read, W: Write, F: Write>(
    alloc: Global,
    script: &[u8],
    name: &str,
    image: &mut I,
    out: &mut W,
    faults: &mut F,
) -> u8
    ensures status { result ≤ 1 }
    ensures quiet { result ≡ 0 → faults.new ≡ faults.old }
    ensures image { result ≡ 0 → IfSome (I.remaining image.old) IsSomeImage }
{
    status_of(load(alloc, script, image, out), name, faults)
}

/// As `check_text`, but over the dies of the image that is read from `image`, as `load_text` reads
/// it. What a prefix of the accepted commands makes is made of what these dies read as.
pub fn check_image_text<I: Read, W: Write, F: Write>(
    alloc: Global,
    script: &[u8],
    name: &str,
    image: &mut I,
    out: &mut W,
    faults: &mut F,
) -> u8
    ensures status { result ≤ 1 }
    ensures quiet { result ≡ 0 → faults.new ≡ faults.old }
    ensures image { result ≡ 0 → IfSome (I.remaining image.old) IsSomeImage }
{
    check_image_shown(alloc, script, name, image, out, &mut Silent, faults)
}

/// As `check_image_text`, for a person who waits: `progress` is written as `check_shown` writes it.
pub fn check_image_shown<I: Read, W: Write, P: Write, F: Write>(
    alloc: Global,
    script: &[u8],
    name: &str,
    image: &mut I,
    out: &mut W,
    progress: &mut P,
    faults: &mut F,
) -> u8
    ensures status { result ≤ 1 }
    ensures quiet { result ≡ 0 → faults.new ≡ faults.old }
    ensures image { result ≡ 0 → IfSome (I.remaining image.old) IsSomeImage }
{
    status_of(check(alloc, script, image, out, progress), name, faults)
}

// The status of what ended so, whether it went well or not. A fault is told in one line.
fn status_of<F: Write>(ended: Result<bool, Fault>, name: &str, faults: &mut F) -> u8
    ensures status { result ≤ 1 }
    ensures well { result ≡ 0 → ended ≡ Ok true }
    ensures quiet { result ≡ 0 → faults.new ≡ faults.old }
{
    // Where the fault itself cannot be told, the status alone tells it.
    let _ = match ended {
        Ok(true) => return 0,
        Ok(false) => return 1,
        Err(Fault::Image(ImageFault::File)) => writeln!(faults, "ufsim: file: {name}"),
        Err(fault) => writeln!(faults, "ufsim: {fault}"),
    };
    1
}

// True once the image is written.
fn save<I: Write, W: Write>(
    alloc: Global,
    script: &[u8],
    image: &mut I,
    out: &mut W,
) -> Result<bool, Fault>
    ensures { OnOk result (AppendsImage (I.contents image.old) (I.contents image.new)) }
{
    let first = FirstLines::read(script)?;
    let sizes = first.sizes();
    let world = print_script(alloc, first, out)?;
    write_image(image, sizes, world.dies())?;
    Ok(true)
}

// True if all lines were run.
fn load<I: Read, W: Write>(
    alloc: Global,
    script: &[u8],
    image: &mut I,
    out: &mut W,
) -> Result<bool, Fault>
    ensures { OnOk result (IfSome (I.remaining image.old) IsSomeImage) }
{
    let first = FirstLines::read(script)?;
    let world = open_image(alloc, &first, image)?;
    print_on(alloc, &first, world, out)?;
    Ok(true)
}

// Whether no stop was bad.
fn check<I: Read, W: Write, P: Write>(
    alloc: Global,
    script: &[u8],
    image: &mut I,
    out: &mut W,
    progress: &mut P,
) -> Result<bool, Fault>
    ensures { OnOk result (IfSome (I.remaining image.old) IsSomeImage) }
{
    let first = FirstLines::read(script)?;
    let world = open_image(alloc, &first, image)?;
    Ok(check_on(alloc, &first, world, out, progress)?)
}

// The device of these lines, over the dies of the image. Nothing is read of it where they give no
// configuration.
fn open_image<I: Read>(alloc: Global, first: &FirstLines<'_>, image: &mut I) -> Result<World, Fault>
    ensures { OnOk result (IfSome (I.remaining image.old) IsSomeImage) }
{
    let config = first.last.told(first.config())?;
    let dies = read_image(alloc, image, first.sizes())?;
    Ok(first.last.told(open_on(alloc, config, dies))?)
}
