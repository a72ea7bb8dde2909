//! Two pairs side by side: each has its own past, and then the same calls are made of both.
use crate::lines::{Asked, Script, Step};
use crate::recorder::{Note, Recorder};
use crate::run::{at_bad_line, print_note, read_file, run_calls};
use crate::setup::at_line;
use anyhow::{Result, anyhow};
use session::beside::make_both;

/// The names of three scripts: the past of each pair, and the calls that are made of both.
#[derive(Clone, Copy)]
pub(crate) struct Beside<'a> {
    pub(crate) first: &'a str,
    pub(crate) second: &'a str,
    pub(crate) later: &'a str,
}

// Runs the script of a file under its name.
fn run_past(rt: &HostRuntime, name: &str) -> Result<Option<Recorder>> {
    println!(rt; "script {name}")?;
    let text = read_file(rt, name)?;
    run_calls(rt, &text).map_err(|error| anyhow!("{name}: {error}"))
}

// Prints what a call left: the first pair's lines, and the second's where it handed back something else. Says whether it
// did.
fn print_both(rt: &HostRuntime, first: &Note, second: &Note) -> Result<bool> {
    print_note(rt, first)?;
    if first.call == second.call {
        return Ok(false);
    }
    let Note { call, standing } = second;
    println!(rt; "second pair: {call}\n  {standing}")?;
    Ok(true)
}

// Makes a call of both pairs and prints it. Says whether it handed back something else at the second.
fn call_both(
    rt: &HostRuntime,
    one: &mut Recorder,
    other: &mut Recorder,
    call: Asked<'_>,
) -> Result<bool> {
    let heap = rt.alloc();
    let made = make_both(&mut one.session, &mut other.session, call.action, call.room);
    let first = one.note(heap, call, made.one)?;
    let second = other.note(heap, call, made.other)?;
    print_both(rt, &first, &second)
}

// Makes every call of both pairs. Says how many handed back something else at the second.
fn work_both(
    rt: &HostRuntime,
    one: &mut Recorder,
    other: &mut Recorder,
    steps: &[Step],
) -> Result<usize> {
    let mut differ: usize = 0;
    for step in steps {
        let Some(call) = step.call() else {
            return Err(at_line(step.line, "a setting among the later calls"));
        };
        for _ in 0..call.times() {
            if call_both(rt, one, other, call)? {
                differ = differ.saturating_add(1);
            }
        }
    }
    Ok(differ)
}

// Makes the later calls of both pairs, numbered anew.
fn run_later(
    rt: &HostRuntime,
    one: &mut Recorder,
    other: &mut Recorder,
    text: &[u8],
) -> Result<()> {
    let script = Script::read(rt.alloc(), text)?;
    println!(rt; "\nboth pairs")?;
    one.calls = 0;
    other.calls = 0;
    let differ = work_both(rt, one, other, script.steps())?;
    if let Some(bad) = script.bad {
        return Err(at_bad_line(bad));
    }
    let calls = one.calls;
    println!(rt; "{calls} calls of both pairs, {differ} with another result")?;
    Ok(())
}

// Runs the second pair's past, and the later calls of both.
fn run_second(rt: &HostRuntime, one: &mut Recorder, names: Beside<'_>) -> Result<()> {
    println!(rt; "")?;
    let Some(mut other) = run_past(rt, names.second)? else {
        return Ok(());
    };
    let later = names.later;
    let done = read_file(rt, later).and_then(|text| {
        run_later(rt, one, &mut other, &text).map_err(|error| anyhow!("{later}: {error}"))
    });
    other.end();
    done
}

/// Runs two pairs of unlike pasts side by side.
pub(crate) fn run_beside(rt: &HostRuntime, names: Beside<'_>) -> Result<()> {
    let Some(mut one) = run_past(rt, names.first)? else {
        return Ok(());
    };
    let done = run_second(rt, &mut one, names);
    one.end();
    done
}
