//! Draws dies, as a script of `ufsim` leaves them or as an image has them: each block and each page
//! with its state.
#![tactic(auto)]

ghost use Rattle.std.specs.Prelude.{◌≡◌, ◌≤◌};

mod images;
mod survey;
mod svg;
mod text;

use device::World;
use images::read_dies;
use nand_model::MemDie;
use std::alloc::{AllocError, Global};
use std::io;
use std::io::{Read, Write};
use survey::Survey;
use svg::write_svg;
use text::write_text;
use thiserror::Error;
use ufsim::{ImageFault, ScriptFault, Word, world_after};

/// How the dies are drawn.
#[derive(Clone, Copy)]
pub enum Form {
    /// A row of letters for each block that is not free.
    Text,
    /// A picture.
    Svg,
}

/// Why nothing is drawn.
#[derive(Clone, Copy, Debug, Error)]
pub enum DrawFault {
    /// The script does not run so far. The tool explains such a line.
    #[error("{0}; see what 'ufstool explain' says of this line")]
    Script(#[from] ScriptFault),
    /// The bytes are no image. The tool explains where they are malformed.
    #[error("the file is no image of dies; see what 'ufstool explain --image' says of it")]
    Image,
    /// The image could not be read.
    #[error("the file cannot be read")]
    File,
    /// Memory was refused.
    #[error("there is not enough memory")]
    Memory,
    /// A write of the drawing failed.
    #[error("the drawing could not be written")]
    Output,
}

impl From<AllocError> for DrawFault {
    fn from(_: AllocError) -> DrawFault {
        DrawFault::Memory
    }
}

impl From<io::Error> for DrawFault {
    fn from(_: io::Error) -> DrawFault {
        DrawFault::Output
    }
}

impl From<ImageFault> for DrawFault {
    fn from(fault: ImageFault) -> DrawFault {
        match fault {
            ImageFault::Malformed => DrawFault::Image,
            ImageFault::File => DrawFault::File,
            ImageFault::Memory => DrawFault::Memory,
        }
    }
}

/// Draws the dies on `out` as they are after the lines of a script up to the one with the number
/// `last`. A fault of these lines is told in one line on `faults`. The status is 0 if the dies were
/// drawn, else 1.
pub fn draw<W: Write, F: Write>(
    alloc: Global,
    script: &[u8],
    last: usize,
    form: Form,
    out: &mut W,
    faults: &mut F,
) -> u8
    ensures status { result ≤ 1 }
    ensures quiet { result ≡ 0 → faults.new ≡ faults.old }
{
    told(try_draw(alloc, script, last, form, out), faults)
}

/// Draws the dies of an image on `out`. It is read once, to its end. What is wrong is told in one
/// line on `faults`. The status is 0 if the dies were drawn, else 1.
pub fn draw_image<R: Read, W: Write, F: Write>(
    alloc: Global,
    image: &mut R,
    form: Form,
    out: &mut W,
    faults: &mut F,
) -> u8
    ensures status { result ≤ 1 }
    ensures quiet { result ≡ 0 → faults.new ≡ faults.old }
{
    told(try_draw_image(alloc, image, form, out), faults)
}

// The status of a drawing that ended so. What went wrong is told in one line.
fn told<F: Write>(ended: Result<(), DrawFault>, faults: &mut F) -> u8
    ensures status { result ≤ 1 }
    ensures quiet { result ≡ 0 → faults.new ≡ faults.old }
{
    match ended {
        Ok(()) => 0,
        Err(fault) => {
            // Where the fault itself cannot be told, the status alone tells it.
            let _ = writeln!(faults, "ufstool: {fault}");
            1
        }
    }
}

fn try_draw<W: Write>(
    alloc: Global,
    script: &[u8],
    last: usize,
    form: Form,
    out: &mut W,
) -> Result<(), DrawFault> {
    let world = world_after(alloc, script, last)?;
    write_drawing(alloc, world.dies(), Some(&world), form, out)
}

fn try_draw_image<R: Read, W: Write>(
    alloc: Global,
    image: &mut R,
    form: Form,
    out: &mut W,
) -> Result<(), DrawFault> {
    let dies = read_dies(alloc, image)?;
    write_drawing(alloc, dies.as_slice(), None, form, out)
}

// The dies, with the jobs that are in flight in a world.
fn write_drawing<W: Write>(
    alloc: Global,
    dies: &[MemDie],
    world: Option<&World>,
    form: Form,
    out: &mut W,
) -> Result<(), DrawFault> {
    let survey = Survey::new(alloc, dies)?;
    match form {
        Form::Text => write_text(&survey, dies, world, out)?,
        Form::Svg => write_svg(&survey, dies, out)?,
    }
    Ok(out.flush()?)
}
