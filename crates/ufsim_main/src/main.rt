//! The program `ufsim`: runs a script over a storage device whose dies lie in memory, or has threads at
//! work on one.
#![tactic(auto)]

mod files;

use files::{LateFile, NewFile};
use std::io::{ErrorKind, IsTerminal};
use std::process::ExitCode;
use std::rt::{Env, Files};
use std::{env, fs, io};
use stress::stress_text;
use ufsim::{
    Call, CallFault, call, check_image_shown, check_image_text, check_shown, check_text, load_text,
    run_text, save_text,
};

fn main(rt: HostRuntime) -> ExitCode {
    let words = match words(&rt) {
        Ok(words) => words,
        Err(fault) => return refused(&rt, fault),
    };
    match call(rt.alloc(), words.as_slice()) {
        Ok(Call::Run(script)) => run(&rt, script),
        Ok(Call::Check(script)) => check(&rt, script),
        Ok(Call::Save { image, script }) => save(&rt, image, script),
        Ok(Call::Load { image, script }) => load(&rt, image, script),
        Ok(Call::CheckImage { image, script }) => check_over(&rt, image, script),
        Ok(Call::Stress { dies, hosts }) => {
            let (alloc, mut out, mut faults) = (rt.alloc(), io::writer(&rt), rt.stderr());
            let status = stress_text(&rt, alloc, dies, hosts, &mut out, &mut faults);
            ExitCode::from(status)
        }
        Err(fault) => refused(&rt, fault),
    }
}

// The words that the program was started with. One that is not UTF-8 is `Usage`, even the name of a script that
// exists: the kit's `args` gives no such word, and `fs::read` takes no such name.
fn words(rt: &(impl Env + AllocGlobal)) -> Result<Vec<String>, CallFault> {
    let words = env::args(rt).map_err(|error| match error.kind() {
        ErrorKind::OutOfMemory => CallFault::Memory,
        _ => CallFault::Usage,
    })?;
    words.collect(rt.alloc()).map_err(|_| CallFault::Memory)
}

// Status 2 for wrong words, and 1 for want of memory.
fn refused(rt: &impl Eprint, fault: CallFault) -> ExitCode {
    let _ = rt.eprintln(format_args!("ufsim: {fault}"));
    match fault {
        CallFault::Usage => ExitCode::from(2),
        CallFault::Memory => ExitCode::FAILURE,
    }
}

fn run(rt: &HostRuntime, name: &str) -> ExitCode {
    match fs::read(rt, name) {
        Ok(script) => {
            let mut out = io::writer(rt);
            let status = run_text(rt.alloc(), script.as_slice(), &mut out, &mut rt.stderr());
            ExitCode::from(status)
        }
        Err(error) => unread(rt, name, error.kind()),
    }
}

fn check(rt: &HostRuntime, name: &str) -> ExitCode {
    match fs::read(rt, name) {
        Ok(script) => ExitCode::from(check_script(rt, script.as_slice())),
        Err(error) => unread(rt, name, error.kind()),
    }
}

// Where standard error is a terminal it shows how far the check is.
fn check_script(rt: &HostRuntime, script: &[u8]) -> u8 {
    let (alloc, mut out, mut faults) = (rt.alloc(), io::writer(rt), rt.stderr());
    if faults.is_terminal() {
        check_shown(alloc, script, &mut out, &mut rt.stderr(), &mut faults)
    } else {
        check_text(alloc, script, &mut out, &mut faults)
    }
}

fn save(rt: &HostRuntime, image: &str, name: &str) -> ExitCode {
    let script = match fs::read(rt, name) {
        Ok(script) => script,
        Err(error) => return unread(rt, name, error.kind()),
    };
    let mut file = NewFile::new(rt, image);
    let (mut out, mut faults) = (io::writer(rt), rt.stderr());
    let status = save_text(
        rt.alloc(),
        script.as_slice(),
        image,
        &mut file,
        &mut out,
        &mut faults,
    );
    if status != 0 {
        file.give_up();
        return ExitCode::from(status);
    }
    match file.replace() {
        Ok(()) => ExitCode::SUCCESS,
        Err(error) => unread(rt, image, error.kind()),
    }
}

fn load(rt: &HostRuntime, image: &str, name: &str) -> ExitCode {
    match fs::read(rt, name) {
        Ok(script) => {
            let mut file = LateFile::new(rt, image);
            let (mut out, mut faults) = (io::writer(rt), rt.stderr());
            let status = load_text(
                rt.alloc(),
                script.as_slice(),
                image,
                &mut file,
                &mut out,
                &mut faults,
            );
            ExitCode::from(status)
        }
        Err(error) => unread(rt, name, error.kind()),
    }
}

fn check_over(rt: &HostRuntime, image: &str, name: &str) -> ExitCode {
    match fs::read(rt, name) {
        Ok(script) => ExitCode::from(check_image(rt, image, script.as_slice())),
        Err(error) => unread(rt, name, error.kind()),
    }
}

// As `check_script`, over the dies of the image.
fn check_image(rt: &HostRuntime, image: &str, script: &[u8]) -> u8 {
    let mut file = LateFile::new(rt, image);
    let (alloc, mut out, mut faults) = (rt.alloc(), io::writer(rt), rt.stderr());
    if faults.is_terminal() {
        check_image_shown(
            alloc,
            script,
            image,
            &mut file,
            &mut out,
            &mut rt.stderr(),
            &mut faults,
        )
    } else {
        check_image_text(alloc, script, image, &mut file, &mut out, &mut faults)
    }
}

// A file that cannot be read or written.
fn unread(rt: &impl Eprint, name: &str, kind: ErrorKind) -> ExitCode {
    let _ = match kind {
        ErrorKind::OutOfMemory => rt.eprintln("ufsim: memory"),
        _ => rt.eprintln(format_args!("ufsim: file: {name}")),
    };
    ExitCode::FAILURE
}
