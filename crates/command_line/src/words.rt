//! Reads the words with `clap`.
ghost use Rattle.std.specs.Prelude.{◌≡◌, Some, IfOk, codes, false, map};
ghost use Rattle.clap.specs.Words.{app_of, first_of, found_of, rows_of, rule_of, subcommand_rows_of};
ghost use Rattle.clap.specs.declared.builder.command.Command.TheViews.{out-Command as fields_of};
ghost use Rattle.command_line.specs.Program.{IsAsked, IsAskedBy, IsImageAsked, IsNumberIn, count, image, needed};
ghost use Rattle.command_line.specs.Program.{program, running, scripts, stress, with_image};

use crate::asked::{Call, CallFault};
use clap::error::ErrorKind;
use clap::{Arg, ArgAction, ArgMatches, Command, value_parser};
use std::alloc::{AllocError, Global};
use std::convert::AsStr;

/// What the words ask for, the program's own name first: `ufsim run SCRIPT`, `ufsim check SCRIPT`,
/// `ufsim image save IMAGE SCRIPT`, `ufsim image load IMAGE SCRIPT`,
/// `ufsim image check IMAGE SCRIPT` or `ufsim stress --dies D --hosts H`, with D and H from 1 to 8.
/// It is `Usage` for any other words and for a call for help, and `Memory` where memory is refused.
pub fn call<'a, S: AsStr>(alloc: Global, words: &'a [S]) -> Result<Call<'a>, CallFault>
    ensures { IfOk result (λ asked. IsAskedBy (map S.text words.entry.now) asked) }
{
    let Ok(command) = command(alloc) else {
        return Err(CallFault::Memory);
    };
    match command.try_get_matches_from(words) {
        Ok(matches) => asked(&matches),
        Err(error) => match error.kind() {
            ErrorKind::OutOfMemory => Err(CallFault::Memory),
            _ => Err(CallFault::Usage),
        },
    }
}

// The program with its commands.
fn command<'a>(alloc: Global) -> Result<Command<'a>, AllocError>
    ensures { IfOk result (λ command. app_of command ≡ program) }
{
    with_image(alloc)?.subcommand(stress(alloc)?)
}

// The commands that take a script, and `image`.
fn with_image<'a>(alloc: Global) -> Result<Command<'a>, AllocError>
    ensures { IfOk result (λ command. app_of command ≡ with_image) }
{
    scripts(alloc)?.subcommand(image(alloc)?)
}

// The command `image`, with what is done and two files.
fn image<'a>(alloc: Global) -> Result<Command<'a>, AllocError>
    ensures app { IfOk result (λ command. app_of command ≡ image) }
    ensures local { IfOk result (λ command. (fields_of command).has_globals ≡ false) }
{
    Command::new(alloc, "image")
        .arg(needed(alloc, "action"))?
        .arg(needed(alloc, "image"))?
        .arg(needed(alloc, "script"))
}

// An argument without an option's name.
fn needed<'a>(alloc: Global, name: &'a str) -> Arg<'a>
    ensures rule { rule_of result ≡ needed name.entry.now }
    ensures local { result.global ≡ false }
{
    Arg::new(alloc, name).required(true).action(ArgAction::Set)
}

// The command `stress`.
fn stress<'a>(alloc: Global) -> Result<Command<'a>, AllocError>
    ensures app { IfOk result (λ command. app_of command ≡ stress) }
    ensures local { IfOk result (λ command. (fields_of command).has_globals ≡ false) }
{
    Command::new(alloc, "stress")
        .arg(count(alloc, "dies"))?
        .arg(count(alloc, "hosts"))
}

// The argument `--NAME N`, a whole number from 1 to 8.
fn count<'a>(alloc: Global, name: &'a str) -> Arg<'a>
    ensures rule { rule_of result ≡ count name.entry.now }
    ensures local { result.global ≡ false }
{
    Arg::new(alloc, name)
        .long(name)
        .required(true)
        .action(ArgAction::Set)
        .value_parser(value_parser!(u8).range(1..=8))
}

// The program with the commands that take a script.
fn scripts<'a>(alloc: Global) -> Result<Command<'a>, AllocError>
    ensures { IfOk result (λ command. app_of command ≡ scripts) }
{
    let script = Arg::new(alloc, "script")
        .required(true)
        .action(ArgAction::Set);
    let check = Command::new(alloc, "check").arg(script)?;
    running(alloc)?.subcommand(check)
}

// The program with the command `run` alone.
fn running<'a>(alloc: Global) -> Result<Command<'a>, AllocError>
    ensures { IfOk result (λ command. app_of command ≡ running) }
{
    let script = Arg::new(alloc, "script")
        .required(true)
        .action(ArgAction::Set);
    let run = Command::new(alloc, "run").arg(script)?;
    Command::new(alloc, "ufsim")
        .subcommand_required(true)
        .subcommand(run)
}

// What the matches of the program ask for.
fn asked<'a>(matches: &ArgMatches<'a>) -> Result<Call<'a>, CallFault>
    ensures { IfOk result (λ asked. IsAsked (subcommand_rows_of matches.now) asked) }
{
    if let Some(run) = matches.subcommand_matches("run") {
        let script = text_in(run, "script")?;
        return Ok(Call::Run(script));
    }
    if let Some(check) = matches.subcommand_matches("check") {
        let script = text_in(check, "script")?;
        return Ok(Call::Check(script));
    }
    if let Some(image) = matches.subcommand_matches("image") {
        return image_asked(image);
    }
    if let Some(stress) = matches.subcommand_matches("stress") {
        let dies = number_in(stress, "dies")?;
        let hosts = number_in(stress, "hosts")?;
        return Ok(Call::Stress { dies, hosts });
    }
    Err(CallFault::Usage)
}

// What the command `image` asks for.
fn image_asked<'a>(matches: &ArgMatches<'a>) -> Result<Call<'a>, CallFault>
    ensures { IfOk result (IsImageAsked (rows_of (found_of matches.now))) }
{
    let action = text_in(matches, "action")?;
    let image = text_in(matches, "image")?;
    let script = text_in(matches, "script")?;
    match action {
        "save" => Ok(Call::Save { image, script }),
        "load" => Ok(Call::Load { image, script }),
        "check" => Ok(Call::CheckImage { image, script }),
        _ => Err(CallFault::Usage),
    }
}

// The text that a command's matches have under this name.
fn text_in<'a>(matches: &ArgMatches<'a>, name: &str) -> Result<&'a str, CallFault>
    ensures { IfOk result (λ text. first_of name.now (rows_of (found_of matches.now)) ≡ Some text.now) }
{
    match matches.get_str(name) {
        Some(text) => Ok(text),
        None => Err(CallFault::Usage),
    }
}

// The number that a command's matches have under this name.
fn number_in(matches: &ArgMatches<'_>, name: &str) -> Result<u8, CallFault>
    ensures { IfOk result (IsNumberIn name.now (rows_of (found_of matches.now))) }
{
    match matches.get_one::<u8>(name) {
        Some(number) => Ok(number),
        None => Err(CallFault::Usage),
    }
}
