//! The files that the words of the program name.
use crate::asked::KeySource;
use std::fs;
use std::fs::File;
use std::io::ErrorKind as FileError;
use std::process::ExitCode;

/// The bytes of a file; the status, where it could not be read and why was told.
pub fn file_bytes(rt: &HostRuntime, name: &str) -> Result<Vec<u8>, ExitCode> {
    match fs::read(rt, name) {
        Ok(bytes) => Ok(bytes),
        Err(error) => Err(unread(rt, name, why_unread(error.kind()))),
    }
}

/// A file that is read in pieces; the status, where it could not be opened and why was told.
pub fn open_file(rt: &HostRuntime, name: &str) -> Result<File, ExitCode> {
    match fs::open(rt, name) {
        Ok(file) => Ok(file),
        Err(error) => Err(unread(rt, name, why_unread(error.kind()))),
    }
}

/// The key; the status, where its file could not be read or is no key, and that was told.
pub fn key_bytes(rt: &HostRuntime, source: KeySource<'_>) -> Result<[u8; 32], ExitCode> {
    match source {
        KeySource::Digits(key) => Ok(key),
        KeySource::File(name) => {
            let bytes = file_bytes(rt, name)?;
            let mut key = [0; 32];
            if bytes.len() != key.len() {
                return Err(unread(rt, name, "a key has 32 bytes"));
            }
            key.copy_from_slice(bytes.as_slice());
            Ok(key)
        }
    }
}

fn why_unread(kind: FileError) -> &'static str {
    match kind {
        FileError::OutOfMemory => "there is not enough memory to read it",
        FileError::NotFound => "there is no such file",
        FileError::PermissionDenied => "it may not be read",
        FileError::IsADirectory => "it is a folder; name a file in it",
        _ => "it cannot be read",
    }
}

/// Tells what is wrong with a file.
pub fn unread(rt: &impl Eprint, name: &str, why: &str) -> ExitCode {
    let _ = rt.eprintln(format_args!("ufstool: file {name}: {why}"));
    ExitCode::FAILURE
}
