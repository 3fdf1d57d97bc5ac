// Lists an event file, a line for each record: `listing FILE`.
#![tactic(auto)]

use anyhow::anyhow;
use listing::listing;
use std::process::ExitCode;
use std::{env, fs};

mod listing;

fn list(rt: &HostRuntime, path: &str) -> anyhow::Result<()> {
    let file = match fs::read(rt, path) {
        Ok(file) => file,
        Err(error) => {
            eprintln!(rt; "listing: cannot read {path}: {error}")?;
            return Err(error.into());
        }
    };
    let lines = match listing(rt.alloc(), file.as_slice()) {
        Ok(lines) => lines,
        Err(error) => {
            eprintln!(rt; "listing: no memory for the listing of {path}")?;
            return Err(error.into());
        }
    };
    for line in lines.iter() {
        rt.println(line)?;
    }
    Ok(())
}

// Both programs have these few lines: what is alike is a read and two messages, with nothing to promise.
fn run_with(rt: &HostRuntime) -> anyhow::Result<()> {
    let mut args = env::args(rt)?;
    let _program = args.next();
    match (args.next(), args.next()) {
        (Some(path), None) => list(rt, path.as_str()),
        _ => {
            eprintln!(rt; "usage: listing FILE")?;
            Err(anyhow!("usage: listing FILE"))
        }
    }
}

// Gives the status alone. What is wrong with the call or its file has its line on standard error by then, and where a line
// can't be written there is nowhere to say so.
fn main(rt: HostRuntime) -> ExitCode {
    match run_with(&rt) {
        Ok(()) => ExitCode::SUCCESS,
        Err(_) => ExitCode::FAILURE,
    }
}
