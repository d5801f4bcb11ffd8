// Checks each file that is named on the command line, as `bare:FILE` or `prefixed:FILE`.
#![tactic(auto)]

use anyhow::{Context, bail};
use check_input::check_input;
use events::Mode;
use std::env;
use std::fs::File;
use std::rt::Files;

fn main(rt: HostRuntime) -> anyhow::Result<()> {
    for arg in env::args(&rt)?.skip(1) {
        check_file(&rt, &arg)?;
    }
    Ok(())
}

fn check_file(rt: &(impl Files + Print), arg: &str) -> anyhow::Result<()> {
    let (mode, name) = arg.split_once(':').context("no mode")?;
    let mode = match mode {
        "bare" => Mode::Bare,
        "prefixed" => Mode::Prefixed,
        _ => bail!("unknown mode"),
    };
    println!(rt; "{name}")?;
    check_input(rt, &mut File::open(rt, name)?, mode)?;
    Ok(())
}
