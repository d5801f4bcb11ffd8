// Checks the log on standard input, in bare mode or, with `--prefixed`, in prefixed mode.
#![tactic(auto)]

use check_input::{check_input, mode_for};
use std::env;
use std::process::ExitCode;

fn main(rt: HostRuntime) -> anyhow::Result<ExitCode> {
    let mut args = env::args(&rt)?.skip(1);
    let first = args.next();
    let second = args.next();
    let Some(mode) = mode_for(first.as_deref(), second.as_deref()) else {
        eprintln!(rt; "usage: log-check [--prefixed] < LOG")?;
        return Ok(ExitCode::FAILURE);
    };
    check_input(&rt, &mut rt.stdin(), mode)?;
    Ok(ExitCode::SUCCESS)
}
