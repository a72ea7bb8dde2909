//! The bench: runs scripts on both ends and prints their records.
#![tactic(auto)]

use anyhow::{Result, anyhow};
use beside::{Beside, run_beside};
use run::{read_file, run_script};
use std::env;
use std::io::Read;

mod beside;
mod lines;
mod record;
mod recorder;
mod run;
mod setup;
mod shown;
mod words;

/// What stands before the three scripts of two pairs.
const SIDE_BY_SIDE: &str = "--side-by-side";

fn main(rt: HostRuntime) -> Result<()> {
    run_scripts(&rt)
}

// What the arguments ask for: scripts, and after a flag two pairs side by side. With none the script is on standard input.
fn run_scripts(rt: &HostRuntime) -> Result<()> {
    let mut names = Vec::new(rt.alloc());
    for name in env::args(rt)?.skip(1) {
        names.push(name)?;
    }
    let flag = names.iter().position(|name| name.as_str() == SIDE_BY_SIDE);
    match flag.and_then(|place| names.split_at_checked(place)) {
        Some(([], pairs)) => run_pairs(rt, pairs),
        Some((scripts, pairs)) => {
            run_each(rt, scripts)?;
            println!(rt; "")?;
            run_pairs(rt, pairs)
        }
        None => run_named_or_input(rt, &names),
    }
}

// Runs the scripts of these names; with none the one on standard input.
fn run_named_or_input(rt: &HostRuntime, names: &[String]) -> Result<()> {
    match names {
        [] => run_input(rt),
        [name] => run_named(rt, name),
        names => run_each(rt, names),
    }
}

// Runs two pairs side by side, by the three scripts behind the flag.
fn run_pairs(rt: &HostRuntime, arguments: &[String]) -> Result<()> {
    let [_flag, first, second, later] = arguments else {
        return Err(anyhow!(
            "{SIDE_BY_SIDE} takes three scripts: a past of each pair, and the later calls of both"
        ));
    };
    run_beside(
        rt,
        Beside {
            first,
            second,
            later,
        },
    )
}

// Runs the script on standard input.
fn run_input(rt: &HostRuntime) -> Result<()> {
    let mut text = Vec::new(rt.alloc());
    rt.reader().read_to_end(&mut text)?;
    run_script(rt, &text).map_err(|error| anyhow!("standard input: {error}"))
}

// Runs the script of a file.
fn run_named(rt: &HostRuntime, name: &str) -> Result<()> {
    let text = read_file(rt, name)?;
    run_script(rt, &text).map_err(|error| anyhow!("{name}: {error}"))
}

// Runs scripts in turn, each with its name before its record.
fn run_each(rt: &HostRuntime, names: &[String]) -> Result<()> {
    for (i, name) in names.iter().enumerate() {
        if i > 0 {
            println!(rt; "")?;
        }
        println!(rt; "script {name}")?;
        run_named(rt, name)?;
    }
    Ok(())
}
