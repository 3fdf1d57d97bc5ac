// Runs an event file as a day, and prints a line for each record: `console FILE`.
#![tactic(auto)]

use anyhow::anyhow;
use book::duties::Duties;
use book::memory::Memory;
use market::{Order, Quote, TapeRecord};
use report::{Report, SummaryLine, run_file};
use std::alloc::{AllocError, Global};
use std::process::ExitCode;
use std::{env, fs};

mod report;

const QUOTE_PLACES: usize = 16;

const ORDER_PLACES: usize = 256;

const TAPE_PLACES: usize = 1_024;

const NO_QUOTE: Quote = Quote {
    dealer: 0,
    price: 0,
    entered: 0,
    live: 0,
    arrival: 0,
};

const NO_ORDER: Order = Order {
    number: 0,
    price: 0,
    entered: 0,
    left: 0,
};

const NO_RECORD: TapeRecord = TapeRecord::Halt {
    time: 0,
    direction: 0,
};

// Runs a file as a day in memory of its own.
fn run(heap: Global, file: &[u8]) -> Result<Report, AllocError> {
    let mut bids = vec![in heap; NO_QUOTE; QUOTE_PLACES]?;
    let mut asks = vec![in heap; NO_QUOTE; QUOTE_PLACES]?;
    let mut buys = vec![in heap; NO_ORDER; ORDER_PLACES]?;
    let mut sells = vec![in heap; NO_ORDER; ORDER_PLACES]?;
    let mut tape = vec![in heap; NO_RECORD; TAPE_PLACES]?;
    let mut duties = Duties::all_in_order();
    let mut memory = Memory {
        bids: bids.as_mut_slice(),
        asks: asks.as_mut_slice(),
        buys: buys.as_mut_slice(),
        sells: sells.as_mut_slice(),
        duties: &mut duties,
        tape: tape.as_mut_slice(),
    };
    run_file(heap, &mut memory, file)
}

fn print(rt: &HostRuntime, path: &str) -> anyhow::Result<()> {
    let file = match fs::read(rt, path) {
        Ok(file) => file,
        Err(error) => {
            eprintln!(rt; "console: cannot read {path}: {error}")?;
            return Err(error.into());
        }
    };
    let told = match run(rt.alloc(), file.as_slice()) {
        Ok(told) => told,
        Err(error) => {
            eprintln!(rt; "console: no memory for the day of {path}")?;
            return Err(error.into());
        }
    };
    for line in &told.lines {
        rt.println(line)?;
    }
    if let Some(summary) = told.summary {
        rt.println(SummaryLine { summary })?;
    }
    Ok(())
}

// Both programs have these few lines: what is alike is a read and two messages, with nothing to promise.
fn run_with(rt: &HostRuntime) -> anyhow::Result<()> {
    let mut args = env::args(rt)?;
    let _program = args.next();
    match (args.next(), args.next()) {
        (Some(path), None) => print(rt, path.as_str()),
        _ => {
            eprintln!(rt; "usage: console FILE")?;
            Err(anyhow!("usage: console FILE"))
        }
    }
}

// Gives the status alone. What is wrong with the call or its file has its line on standard error by then, and where a line
// can't be written there is nowhere to say so.
fn main(rt: HostRuntime) -> ExitCode {
    match run_with(&rt) {
        Ok(()) => ExitCode::SUCCESS,
        Err(_) => ExitCode::FAILURE,
    }
}
