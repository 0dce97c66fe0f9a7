//! Runs a script line by line.
ghost use Rattle.std.specs.Prelude.{◌≡◌, ◌≤◌, ◌↔◌, IfOk, Ok, OnOk, true};
ghost use Rattle.std.specs.Io.KnownBytes.{Appends};
ghost use Rattle.ufsim.specs.Checked.{NotesMore, given_in};
ghost use Rattle.ufsim.specs.Trials.{AreCounted, Tells, TellsGood, check_line};

use crate::check::{Check, Stops};
use crate::commands::{Command, Content, Left};
use crate::fault::{ScriptFault, Word, word_of};
use crate::first_lines::FirstLines;
use crate::leftovers::leftover;
use crate::lines::Lines;
use crate::outputs::show;
use device::World;
use std::alloc::Global;
use std::io;
use std::io::Write;
use ufs_spec::{Event, Job, Leftover, Output};

/// Runs a script over new dies: writes a line of output for each of its lines to `out`, and the one
/// line of a fault to `faults`. It answers the program's status: 0 where all lines were run, and 1
/// at a fault, which ends the run.
pub fn run_text<W: Write, F: Write>(alloc: Global, script: &[u8], out: &mut W, faults: &mut F) -> u8
    ensures status { result ≤ 1 }
    ensures quiet { result ≡ 0 → faults.new ≡ faults.old }
{
    status_of(run_script(alloc, script, out), faults)
}

/// Runs a script over new dies, and at each program and each erase that it gives to a die stops the
/// device in a copy: with the old content, with the new one and with a torn one on all dies that
/// program or erase. The device is opened again, mended and read by messages, and what it holds is
/// compared with what each prefix of the accepted commands makes that has every acknowledged one.
/// It writes the line `check stops S bad B` to `out`, or the one line of a fault to `faults`. The
/// status is 0 if no stop was bad. The contract says that S and B are counts over a list of stops,
/// each counted as good or bad as the journal of its life allows what was read. It does not say that
/// each program and erase of the script is in that list.
pub fn check_text<W: Write, F: Write>(
    alloc: Global,
    script: &[u8],
    out: &mut W,
    faults: &mut F,
) -> u8
    ensures status { result ≤ 1 }
    ensures quiet { result ≡ 0 → faults.new ≡ faults.old }
    ensures told { result ≡ 0 → TellsGood (W.contents out.old) (W.contents out.new) }
{
    check_each_text(alloc, script, Stops::One, out, faults)
}

/// As `check_text`, with the stops that `tries` names. S counts all stops that were tried.
#[tactic(auto, using(crate::proofs::Counting::tells_good))]
pub fn check_each_text<W: Write, F: Write>(
    alloc: Global,
    script: &[u8],
    tries: Stops,
    out: &mut W,
    faults: &mut F,
) -> u8
    ensures status { result ≤ 1 }
    ensures quiet { result ≡ 0 → faults.new ≡ faults.old }
    ensures told { result ≡ 0 → TellsGood (W.contents out.old) (W.contents out.new) }
{
    status_of(check_script(alloc, script, tries, out, &mut Silent), faults)
}

/// As `check_text`, for a person who waits: behind each line of the script at which stops were tried
/// it writes to `progress` which line it was, of how many, and what was counted so far. Each such
/// line takes the place of the one before, and at the end the last one is taken away.
#[tactic(auto, using(crate::proofs::Counting::tells_good))]
pub fn check_shown<W: Write, P: Write, F: Write>(
    alloc: Global,
    script: &[u8],
    out: &mut W,
    progress: &mut P,
    faults: &mut F,
) -> u8
    ensures status { result ≤ 1 }
    ensures quiet { result ≡ 0 → faults.new ≡ faults.old }
    ensures told { result ≡ 0 → TellsGood (W.contents out.old) (W.contents out.new) }
{
    let ended = check_script(alloc, script, Stops::One, out, progress);
    status_of(ended, faults)
}

// The status of what ended so, whether it went well or not. A fault is told in one line.
fn status_of<F: Write>(ended: Result<bool, ScriptFault>, faults: &mut F) -> u8
    ensures status { result ≤ 1 }
    ensures well { result ≡ 0 → ended ≡ Ok true }
    ensures quiet { result ≡ 0 → faults.new ≡ faults.old }
{
    match ended {
        Ok(true) => 0,
        Ok(false) => 1,
        Err(fault) => {
            // Where the fault itself cannot be told, the status alone tells it.
            let _ = writeln!(faults, "ufsim: {fault}");
            1
        }
    }
}

// Whether no stop was bad.
fn check_script<W: Write, P: Write>(
    alloc: Global,
    script: &[u8],
    tries: Stops,
    out: &mut W,
    progress: &mut P,
) -> Result<bool, ScriptFault>
    ensures { IfOk result (λ well. Tells (W.contents out.old) (W.contents out.new) well) }
{
    let first = FirstLines::read(script)?;
    let mut runner = first.last.told(Runner::checking(alloc, &first, tries))?;
    runner.check_each(first.rest, out, progress)
}

/// As `check_shown`, over this device, which was opened over dies of an earlier life. It answers
/// whether no stop was bad.
pub(crate) fn check_on<W: Write, P: Write>(
    alloc: Global,
    first: &FirstLines<'_>,
    world: World,
    out: &mut W,
    progress: &mut P,
) -> Result<bool, ScriptFault>
    ensures { IfOk result (λ well. Tells (W.contents out.old) (W.contents out.new) well) }
{
    let mut runner = first.last.told(Runner::checking_on(alloc, first, world))?;
    runner.check_each(first.rest, out, progress)
}

// The number of the last of these lines; 0 where there is none.
fn last_number(lines: Lines<'_>) -> usize {
    let mut last = 0;
    for line in lines {
        last = line.number;
    }
    last
}

// Whether no stop was bad, where so many were.
fn is_none(bad: usize) -> bool
    ensures { result ≡ true ↔ bad ≡ 0 }
{
    bad == 0
}

fn tell_stops<W: Write>(out: &mut W, stops: usize, bad: usize) -> Result<(), ScriptFault>
    ensures { OnOk result (Appends (W.contents out.old) (W.contents out.new) (check_line stops bad)) }
{
    writeln!(out, "check stops {stops} bad {bad}")?;
    Ok(out.flush()?)
}

// True if all lines were run.
fn run_script<W: Write>(alloc: Global, script: &[u8], out: &mut W) -> Result<bool, ScriptFault> {
    print_script(alloc, FirstLines::read(script)?, out)?;
    Ok(true)
}

/// Runs the lines behind these ones over new dies, and writes the output of each. It answers the
/// device with its dies after the last one.
pub(crate) fn print_script<W: Write>(
    alloc: Global,
    first: FirstLines<'_>,
    out: &mut W,
) -> Result<World, ScriptFault> {
    let mut runner = first.last.told(Runner::new(alloc, &first))?;
    runner.print_each(first.rest, out)?;
    Ok(runner.world)
}

/// As `print_script`, over this device.
pub(crate) fn print_on<W: Write>(
    alloc: Global,
    first: &FirstLines<'_>,
    world: World,
    out: &mut W,
) -> Result<(), ScriptFault> {
    Runner::over(alloc, world, first.dies, None).print_each(first.rest, out)
}

/// The device with its dies after the lines of a script up to the one with the number `last`. With
/// a number of the first lines it is as it was opened. Nothing is printed.
///
/// # Errors
///
/// What `run_text` tells of these lines.
pub fn world_after(alloc: Global, script: &[u8], last: usize) -> Result<World, ScriptFault> {
    let first = FirstLines::read(script)?;
    let mut runner = first.last.told(Runner::new(alloc, &first))?;
    runner.run_to(first.rest, last)?;
    Ok(runner.world)
}

// What takes a line of a terminal away: the cursor goes to its beginning, and all behind it is erased
// (ECMA-48, CR and EL).
const NO_LINE: &[u8] = b"\r\x1b[K";

/// Takes all that is written to it, and keeps nothing.
#[derive(Drop)]
pub(crate) struct Silent;

impl Write for Silent {
    fn write(&mut self, bytes: &[u8]) -> io::Result<usize> {
        Ok(bytes.len())
    }

    fn flush(&mut self) -> io::Result<()> {
        Ok(())
    }
}

// A device with the line of output that was made last.
#[derive(Drop)]
struct Runner {
    alloc: Global,
    world: World,
    dies: u8,
    shown: Vec<u8>,
    // What stops are tried, where the script is checked.
    check: Option<Check>,
}

impl Runner {
    // The device of these lines.
    fn new(alloc: Global, first: &FirstLines) -> Result<Runner, Word> {
        Ok(Runner::over(alloc, first.open(alloc)?, first.dies, None))
    }

    // The same, with these stops tried at each program and each erase.
    fn checking(alloc: Global, first: &FirstLines, tries: Stops) -> Result<Runner, Word> {
        let check = Check::new(alloc, first.config()?, tries);
        Ok(Runner::over(alloc, first.open(alloc)?, first.dies, Some(check)))
    }

    // Over a device that was opened over dies of an earlier life, with one stop at each program and
    // each erase.
    fn checking_on(alloc: Global, first: &FirstLines, world: World) -> Result<Runner, Word> {
        let check = Check::over(alloc, first.config()?, Stops::One, world.dies())?;
        Ok(Runner::over(alloc, world, first.dies, Some(check)))
    }

    // Over a device with so many dies.
    fn over(alloc: Global, world: World, dies: u8, check: Option<Check>) -> Runner {
        Runner {
            alloc,
            world,
            dies,
            shown: Vec::new(alloc),
            check,
        }
    }

    // Runs the lines, and writes the output of each one.
    fn print_each<W: Write>(&mut self, lines: Lines<'_>, out: &mut W) -> Result<(), ScriptFault> {
        for line in lines {
            line.told(self.run(line.bytes))?;
            out.write_all(self.shown.as_slice())?;
        }
        Ok(out.flush()?)
    }

    // Runs the lines, shows how far it is, and tells of the stops that were tried. It answers
    // whether none of them was bad.
    #[tactic(auto, using(crate::proofs::Counting::tells))]
    fn check_each<W: Write, P: Write>(
        &mut self,
        lines: Lines<'_>,
        out: &mut W,
        progress: &mut P,
    ) -> Result<bool, ScriptFault>
        ensures { IfOk result (λ well. Tells (W.contents out.old) (W.contents out.new) well) }
    {
        let ended = self.run_shown(lines, progress);
        // Who cannot be told how far it is misses nothing of the result.
        let _ = progress.write_all(NO_LINE);
        ended?;
        let (stops, bad) = self.stops();
        tell_stops(out, stops, bad)?;
        Ok(is_none(bad))
    }

    // Runs the lines. Behind each one at which stops were tried it shows how far it is.
    fn run_shown<P: Write>(
        &mut self,
        lines: Lines<'_>,
        progress: &mut P,
    ) -> Result<(), ScriptFault> {
        let all = last_number(lines);
        let mut shown = 0;
        for line in lines {
            line.told(self.run(line.bytes))?;
            let (stops, bad) = self.stops();
            if stops != shown {
                let number = line.number;
                let _ = write!(
                    progress,
                    "\rcheck line {number} of {all} stops {stops} bad {bad}"
                );
                shown = stops;
            }
        }
        Ok(())
    }

    // Runs the lines up to the one with this number. Only the last one's output stays in `shown`.
    fn run_to(&mut self, lines: Lines<'_>, last: usize) -> Result<(), ScriptFault> {
        for line in lines {
            if line.number > last {
                break;
            }
            line.told(self.run(line.bytes))?;
        }
        Ok(())
    }

    // How many stops were tried, and how many of them were bad.
    fn stops(&self) -> (usize, usize)
        ensures counted { AreCounted result.0 result.1 }
    {
        match &self.check {
            Some(check) => check.counts(),
            None => (0, 0),
        }
    }

    // Runs a line and leaves its output in `shown`.
    fn run(&mut self, line: &[u8]) -> Result<(), Word> {
        let command = Command::read(self.alloc, line)?;
        self.shown.clear();
        match command {
            Command::Host(message) => self.tell(0, &Event::Host(message)),
            Command::Reply => self.tell(0, &Event::Reply),
            Command::Take(die) => self.take(die),
            Command::Done { die, is_ok } => self.done(die, is_ok),
            Command::Turn => self.tell(0, &Event::Turn),
            Command::Settle(rounds) => self.settle(rounds),
            Command::Stop(left) => self.stop(left.as_slice()),
        }
    }

    fn take(&mut self, die: u32) -> Result<(), Word> {
        match u8::try_from(die) {
            Ok(small) => self.tell(die, &Event::Take(small)),
            Err(_) => self.show(die, &Output::Take(None)),
        }
    }

    fn done(&mut self, die: u32, is_ok: bool) -> Result<(), Word> {
        let Ok(small) = u8::try_from(die) else {
            return Err(Word::Event);
        };
        if is_ok {
            self.tell(die, &Event::Finish(small))
        } else {
            self.fail(small)
        }
    }

    // The job of the die fails. A program or an erase leaves zeros.
    fn fail(&mut self, die: u8) -> Result<(), Word> {
        let left = match self.world.job(die) {
            Some(Job::Read(_)) => None,
            _ => Some(leftover(self.alloc, &self.world, die, Content::Torn)?),
        };
        self.tell(u32::from(die), &Event::Fail(die, left))
    }

    // The power fails, and the device is opened again.
    fn stop(&mut self, left: &[Left]) -> Result<(), Word> {
        let mut leftovers = Vec::with_capacity(self.alloc, left.len())?;
        for one in left {
            let leftover = self.leftover(*one)?;
            leftovers.push(leftover)?;
        }
        self.tell(0, &Event::Stop(leftovers))
    }

    fn leftover(&self, left: Left) -> Result<Leftover, Word> {
        match u8::try_from(left.die) {
            Ok(die) => leftover(self.alloc, &self.world, die, left.content),
            Err(_) => Err(Word::Event),
        }
    }

    fn settle(&mut self, rounds: u32) -> Result<(), Word> {
        for _ in 0..rounds {
            // A round without work changes nothing, so the rounds after it are like it.
            if !self.round()? {
                break;
            }
        }
        Ok(writeln!(self.shown, "settle {rounds}")?)
    }

    // One turn, and then a job of each die. It answers whether there was any work.
    fn round(&mut self) -> Result<bool, Word> {
        let mut has_worked = matches!(self.step(&Event::Turn)?, Output::Turn(true));
        for die in 0..self.dies {
            if self.work(die)? {
                has_worked = true;
            }
        }
        Ok(has_worked)
    }

    // A job of the die, done well; whether there was one.
    fn work(&mut self, die: u8) -> Result<bool, Word> {
        let has_job = matches!(self.step(&Event::Take(die))?, Output::Take(Some(_)));
        if has_job {
            self.step(&Event::Finish(die))?;
        }
        Ok(has_job)
    }

    fn tell(&mut self, die: u32, event: &Event) -> Result<(), Word> {
        let output = self.step(event)?;
        self.show(die, &output)
    }

    fn show(&mut self, die: u32, output: &Output) -> Result<(), Word> {
        Ok(show(&mut self.shown, die, output)?)
    }

    fn step(&mut self, event: &Event) -> Result<Output, Word>
        ensures noted { IfOk result (λ output. NotesMore (given_in output) self.old.check self.new.check) }
    {
        match self.world.step(event) {
            Ok(output) => {
                self.note(event, &output)?;
                Ok(output)
            }
            Err(fault) => Err(word_of(&fault)),
        }
    }

    // Where the script is checked, the stops at this moment are tried.
    fn note(&mut self, event: &Event, output: &Output) -> Result<(), Word>
        ensures { OnOk result (NotesMore (given_in output.now) self.old.check self.new.check) }
    {
        match &mut self.check {
            Some(check) => check.note(self.alloc, &self.world, event, output),
            None => Ok(()),
        }
    }
}
