//! Runs the rows of the named files. A row has the words and the inputs of a command, and its expected
//! result.
#![tactic(auto)]

mod bytes;
mod own;
mod row;
mod side;
mod trial;

use anyhow::{Context, Result, ensure};
use bytes::Outputs;
use row::Row;
use std::alloc::Global;
use std::process::ExitCode;
use std::str::FromStr;
use std::{env, fs};

// Runs a row, and keeps what it wrote under its name.
fn run_one(alloc: Global, row: &mut Row, outputs: &mut Outputs) -> Result<()> {
    ensure!(!outputs.contains_key(row.name), "the name is taken");
    let name = String::from_str(alloc, row.name)?;
    outputs.insert(name, trial::run_row(alloc, row)?)?;
    Ok(())
}

// Reads and runs the row of a stanza, and returns whether a command ran.
fn run_stanza<'a>(
    alloc: Global,
    row: &mut Row<'a>,
    stanza: &'a str,
    outputs: &mut Outputs,
) -> Result<bool> {
    if !row.read(alloc, stanza, outputs)? {
        return Ok(false);
    }
    run_one(alloc, row, outputs).context(row.name)?;
    Ok(!row.is_given)
}

// Runs the rows of a text, and returns their number.
fn run_rows(alloc: Global, text: &str, outputs: &mut Outputs) -> Result<u32> {
    let mut count = 0u32;
    for stanza in text.split("\n\n") {
        let mut row = Row::new(alloc);
        let has_run = run_stanza(alloc, &mut row, stanza, outputs);
        drop(row);
        if has_run? {
            count = count.saturating_add(1);
        }
    }
    Ok(count)
}

// Prints the number of rows of a file, or the error of its first row that fails. Returns whether no row
// fails.
fn run_file(rt: &HostRuntime, name: &str, outputs: &mut Outputs) -> Result<bool> {
    let ran = match fs::read_to_string(rt, name) {
        Ok(text) => run_rows(rt.alloc(), &text, outputs),
        Err(error) => Err(error.into()),
    };
    match ran {
        Ok(count) => println!(rt; "{name}: {count} rows")?,
        Err(ref error) => println!(rt; "{name}: {error:#}")?,
    }
    Ok(ran.is_ok())
}

// Runs the files, and returns whether no row fails.
fn run_files(rt: &HostRuntime) -> Result<bool> {
    let mut outputs = Outputs::new(rt.alloc());
    let mut is_well = true;
    for name in env::args(rt)?.skip(1) {
        if !run_file(rt, &name, &mut outputs)? {
            is_well = false;
        }
    }
    Ok(is_well)
}

fn main(rt: HostRuntime) -> ExitCode {
    match run_files(&rt) {
        Ok(true) => ExitCode::SUCCESS,
        Ok(false) => ExitCode::FAILURE,
        Err(error) => {
            // If this line cannot be printed, the exit status still reports the failure.
            let _reported = eprintln!(rt; "{error:#}");
            ExitCode::FAILURE
        }
    }
}
