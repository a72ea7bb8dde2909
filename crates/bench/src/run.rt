//! Scripts are run, and their records printed.
use crate::lines::{BadLine, Script, Step};
use crate::recorder::{Note, Recorder};
use crate::setup::{Setup, at_line};
use crate::words::Refused;
use anyhow::{Result, anyhow};
use session::session::Session;
use std::alloc::Global;
use std::fs;

/// Prints the two lines of a call.
pub(crate) fn print_note(rt: &HostRuntime, note: &Note) -> Result<()> {
    let Note { call, standing } = note;
    println!(rt; "{call}\n  {standing}")?;
    Ok(())
}

/// The text of the script in a file.
pub(crate) fn read_file(rt: &HostRuntime, name: &str) -> Result<Vec<u8>> {
    fs::read(rt, name).map_err(|error| anyhow!("{name}: {error}"))
}

/// An error at a line that is no command.
pub(crate) fn at_bad_line(bad: BadLine) -> anyhow::Error {
    let BadLine { line, fault } = bad;
    anyhow!("line {line}: {fault}")
}

// An error where the settings lack something: at the first call, or at the end.
fn lacking(steps: &[Step], what: &str) -> anyhow::Error {
    match steps {
        [step, ..] => at_line(step.line, what),
        [] => anyhow!("{what}"),
    }
}

// The settings of a script, which has to name a board and a carrier.
fn settings(heap: Global, script: &Script) -> Result<Setup> {
    let (settings, steps) = script.parts();
    let setup = Setup::read(heap, settings)?;
    if let ([], Some(bad)) = (steps, script.bad) {
        return Err(at_bad_line(bad));
    }
    match setup.lacks() {
        Some(what) => Err(lacking(steps, what)),
        None => Ok(setup),
    }
}

// A session on the board and the carrier of a script; none if one of them is refused, which is printed.
fn open(rt: &HostRuntime, script: &Script) -> Result<Option<Recorder>> {
    let heap = rt.alloc();
    match settings(heap, script)?.make() {
        Some(Ok((board, carrier))) => {
            let session = Session::new(heap, board, carrier);
            Ok(Some(Recorder::new(session)))
        }
        Some(Err(refusal)) => {
            let refused = Refused(refusal);
            println!(rt; "{refused}")?;
            Ok(None)
        }
        None => Ok(None),
    }
}

// Makes the calls of a script, and prints their record.
fn work(rt: &HostRuntime, recorder: &mut Recorder, script: &Script) -> Result<()> {
    let heap = rt.alloc();
    let (_, steps) = script.parts();
    for step in steps {
        let Some(call) = step.call() else {
            return Err(at_line(step.line, "a setting after the first call"));
        };
        for _ in 0..call.times() {
            let made = recorder.session.make(call.action, call.room);
            let note = recorder.note(heap, call, made)?;
            print_note(rt, &note)?;
        }
    }
    match script.bad {
        Some(bad) => Err(at_bad_line(bad)),
        None => Ok(()),
    }
}

/// Runs a script and prints its record, but for the table at its end. Hands back the session, unless the board or the
/// carrier is refused.
pub(crate) fn run_calls(rt: &HostRuntime, text: &[u8]) -> Result<Option<Recorder>> {
    let script = Script::read(rt.alloc(), text)?;
    let Some(mut recorder) = open(rt, &script)? else {
        return Ok(None);
    };
    match work(rt, &mut recorder, &script) {
        Ok(()) => Ok(Some(recorder)),
        Err(error) => {
            recorder.end();
            Err(error)
        }
    }
}

/// Runs a script and prints its record.
pub(crate) fn run_script(rt: &HostRuntime, text: &[u8]) -> Result<()> {
    let Some(mut recorder) = run_calls(rt, text)? else {
        return Ok(());
    };
    let table = recorder.table(rt.alloc());
    recorder.end();
    let table = table?;
    println!(rt; "{table}")?;
    Ok(())
}
