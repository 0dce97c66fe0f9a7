//! What the program may be asked, and why its words are refused.
use thiserror::Error;

/// What the program is asked to do.
#[derive(Clone, Copy)]
pub enum Call<'a> {
    /// Run the script in the file of this name.
    Run(&'a str),
    /// Try stops at each program and erase of the script in the file of this name.
    Check(&'a str),
    /// Run the script in the second file, and write the image of its dies to the first one.
    Save { image: &'a str, script: &'a str },
    /// Run the script in the second file over the dies of the image in the first one.
    Load { image: &'a str, script: &'a str },
    /// Try stops at each program and erase of the script in the second file, over the dies of the
    /// image in the first one.
    CheckImage { image: &'a str, script: &'a str },
    /// Have so many hosts at work on one device with so many dies, each in a thread of its own.
    Stress { dies: u8, hosts: u8 },
}

/// Why there is nothing to do. The text is what the program prints after its name.
#[derive(Clone, Copy, Debug, Error)]
pub enum CallFault {
    /// The words are none of the program's, or ask for help.
    #[error("usage")]
    Usage,
    /// Memory was refused.
    #[error("memory")]
    Memory,
}
