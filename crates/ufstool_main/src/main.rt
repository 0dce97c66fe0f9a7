//! The program `ufstool`: says in words what scripts of `ufsim` and their outputs tell, writes lines of
//! scripts, and draws dies.
#![tactic(auto)]

mod asked;
mod files;
mod program;
mod query_calls;
mod query_words;
mod rpmb_calls;
mod rpmb_words;
mod unit_calls;
mod unit_words;

use crate::asked::{Call, KeySource, read_call};
use crate::files::{file_bytes, key_bytes, open_file};
use crate::program::program;
use crate::rpmb_calls::run_rpmb;
use clap::ArgMatches;
use clap::error::ErrorKind;
use die_map::{Form, draw, draw_image};
use std::process::ExitCode;
use std::rt::{Env, Files};
use std::{env, io};
use ufstool::{explain, explain_frames, explain_image, write_host_line, write_unmap_lines};

fn main(rt: HostRuntime) -> ExitCode {
    match words(&rt) {
        Some(words) => call(&rt, words.as_slice()),
        None => failed(&rt, "there is not enough memory"),
    }
}

// The words that the program was started with; `None` for want of memory.
fn words(rt: &(impl Env + AllocGlobal)) -> Option<Vec<String>> {
    match env::args(rt) {
        Ok(words) => words.collect(rt.alloc()).ok(),
        Err(_) => None,
    }
}

fn call(rt: &HostRuntime, words: &[String]) -> ExitCode {
    let Ok(program) = program(rt.alloc()) else {
        return failed(rt, "there is not enough memory");
    };
    match program.try_get_matches_from(words) {
        Ok(matches) => run(rt, &matches),
        Err(error) => {
            let _ = error.print(rt);
            match error.kind() {
                ErrorKind::DisplayHelp | ErrorKind::DisplayVersion => ExitCode::SUCCESS,
                ErrorKind::OutOfMemory => ExitCode::FAILURE,
                _ => ExitCode::from(2),
            }
        }
    }
}

fn run(rt: &HostRuntime, matches: &ArgMatches<'_>) -> ExitCode {
    match read_call(matches) {
        Ok(call) => match run_call(rt, &call) {
            Ok(status) => status,
            Err(status) => status,
        },
        Err(fault) => {
            let _ = rt.eprintln(format_args!("ufstool: {fault}; see 'ufstool --help'"));
            ExitCode::from(2)
        }
    }
}

// Does what is asked for. The status is an error where a file could not be read.
fn run_call(rt: &HostRuntime, call: &Call<'_>) -> Result<ExitCode, ExitCode> {
    match *call {
        Call::Explain {
            script,
            output,
            key,
        } => run_explain(rt, script, output, key),
        Call::ExplainFrames { file, key } => run_explain_frames(rt, file, key),
        Call::ExplainImage { file } => run_explain_image(rt, file),
        Call::Draw { script, last, form } => run_draw(rt, script, last, form),
        Call::DrawImage { file, form } => run_draw_image(rt, file, form),
        Call::Host(message) => {
            let mut out = io::writer(rt);
            let status = write_host_line(rt.alloc(), &message, &mut out, &mut rt.stderr());
            Ok(ExitCode::from(status))
        }
        Call::Unmap(wanted) => {
            let mut out = io::writer(rt);
            let status = write_unmap_lines(rt.alloc(), &wanted, &mut out, &mut rt.stderr());
            Ok(ExitCode::from(status))
        }
        Call::Rpmb { task, call } => run_rpmb(rt, task, &call),
    }
}

fn run_draw(rt: &HostRuntime, script: &str, last: usize, form: Form) -> Result<ExitCode, ExitCode> {
    let text = file_bytes(rt, script)?;
    let mut out = io::writer(rt);
    let mut faults = rt.stderr();
    let status = draw(
        rt.alloc(),
        text.as_slice(),
        last,
        form,
        &mut out,
        &mut faults,
    );
    Ok(ExitCode::from(status))
}

fn run_draw_image(rt: &HostRuntime, name: &str, form: Form) -> Result<ExitCode, ExitCode> {
    let mut file = open_file(rt, name)?;
    let (mut out, mut faults) = (io::writer(rt), rt.stderr());
    let status = draw_image(rt.alloc(), &mut file, form, &mut out, &mut faults);
    Ok(ExitCode::from(status))
}

fn run_explain_image(rt: &HostRuntime, name: &str) -> Result<ExitCode, ExitCode> {
    let mut file = open_file(rt, name)?;
    let (mut out, mut faults) = (io::writer(rt), rt.stderr());
    let status = explain_image(&mut file, &mut out, &mut faults);
    Ok(ExitCode::from(status))
}

fn run_explain(
    rt: &HostRuntime,
    script: &str,
    output: Option<&str>,
    source: Option<KeySource<'_>>,
) -> Result<ExitCode, ExitCode> {
    let text = file_bytes(rt, script)?;
    let shown = match output {
        Some(name) => Some(file_bytes(rt, name)?),
        None => None,
    };
    let key = given_key(rt, source)?;
    let status = explain(
        rt.alloc(),
        text.as_slice(),
        shown.as_ref().map(|bytes| bytes.as_slice()),
        key.as_ref(),
        &mut io::writer(rt),
        &mut rt.stderr(),
    );
    Ok(ExitCode::from(status))
}

fn run_explain_frames(
    rt: &HostRuntime,
    name: &str,
    source: Option<KeySource<'_>>,
) -> Result<ExitCode, ExitCode> {
    let text = file_bytes(rt, name)?;
    let key = given_key(rt, source)?;
    let mut out = io::writer(rt);
    let mut faults = rt.stderr();
    let status = explain_frames(
        rt.alloc(),
        text.as_slice(),
        key.as_ref(),
        &mut out,
        &mut faults,
    );
    Ok(ExitCode::from(status))
}

// The key, if the words give one.
fn given_key(
    rt: &HostRuntime,
    source: Option<KeySource<'_>>,
) -> Result<Option<[u8; 32]>, ExitCode> {
    match source {
        Some(source) => Ok(Some(key_bytes(rt, source)?)),
        None => Ok(None),
    }
}

fn failed(rt: &impl Eprint, why: &str) -> ExitCode {
    let _ = rt.eprintln(format_args!("ufstool: {why}"));
    ExitCode::FAILURE
}
