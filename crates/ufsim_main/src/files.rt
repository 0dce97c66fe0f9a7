//! The files of images.
use std::fs::File;
use std::io::{Error, ErrorKind, Read, Write};
use std::{fs, io};

/// How many names are tried for a new file.
const NAMES: u8 = 100;

/// A file that is opened only where the first of its bytes is read, so that what is found before is
/// told before.
#[derive(Drop)]
pub struct LateFile<'a> {
    rt: &'a HostRuntime,
    name: &'a str,
    file: Option<File>,
}

impl<'a> LateFile<'a> {
    pub fn new(rt: &'a HostRuntime, name: &'a str) -> LateFile<'a> {
        LateFile {
            rt,
            name,
            file: None,
        }
    }
}

impl Read for LateFile<'_> {
    fn read(&mut self, into: &mut [u8]) -> io::Result<usize> {
        if self.file.is_none() {
            self.file = Some(fs::open(self.rt, self.name)?);
        }
        match &mut self.file {
            Some(file) => file.read(into),
            None => Ok(0),
        }
    }
}

/// A file that stands beside the one of a name until it is whole, and then replaces it. So there is
/// never a part of one under that name. It is made only where the first of its bytes is written.
#[derive(Drop)]
pub struct NewFile<'a> {
    rt: &'a HostRuntime,
    name: &'a str,
    made: Option<Made>,
}

// The file beside it, and its name.
#[derive(Drop)]
struct Made {
    name: String,
    file: File,
}

impl<'a> NewFile<'a> {
    pub fn new(rt: &'a HostRuntime, name: &'a str) -> NewFile<'a> {
        NewFile {
            rt,
            name,
            made: None,
        }
    }

    /// Replaces the file of that name, once all bytes are on the disk.
    ///
    /// # Errors
    ///
    /// Where that fails. The file of that name is then as it was, and the new one is removed.
    pub fn replace(self) -> io::Result<()> {
        let NewFile { rt, name, made } = self;
        let Some(Made { name: beside, file }) = made else {
            return Ok(());
        };
        let replaced = synced(file).and_then(|()| fs::rename(rt, beside.as_str(), name));
        if replaced.is_err() {
            let _ = fs::remove_file(rt, beside.as_str());
        }
        replaced
    }

    /// Removes the new file, if it is made. The file of that name is as it was.
    pub fn give_up(self) {
        let NewFile { rt, name: _, made } = self;
        if let Some(Made { name, file }) = made {
            drop(file);
            let _ = fs::remove_file(rt, name.as_str());
        }
    }
}

impl Write for NewFile<'_> {
    fn write(&mut self, bytes: &[u8]) -> io::Result<usize> {
        if self.made.is_none() {
            self.made = Some(made_beside(self.rt, self.name)?);
        }
        match &mut self.made {
            Some(made) => made.file.write(bytes),
            None => Ok(0),
        }
    }

    fn flush(&mut self) -> io::Result<()> {
        Ok(())
    }
}

// All bytes of the file are on the disk, and it is closed.
fn synced(file: File) -> io::Result<()> {
    file.sync_all()
}

// A new file beside the one of this name. A save that was cut off may have left one, so further names
// are tried.
fn made_beside(rt: &HostRuntime, name: &str) -> io::Result<Made> {
    for number in 1..=NAMES {
        let beside = format!(in rt.alloc(); "{name}.{number}.new")?;
        match File::create_new(rt, beside.as_str()) {
            Ok(file) => return Ok(Made { name: beside, file }),
            Err(error) if error.kind() == ErrorKind::AlreadyExists => {}
            Err(error) => return Err(error),
        }
    }
    Err(Error::from(ErrorKind::AlreadyExists))
}
