//! Lists the records of a page: `bench [--records] [FILE]`.
#![tactic(auto)]

use anyhow::{Context, anyhow};
use listing::listing;
use std::process::ExitCode;
use std::{env, fs};
use words::file_in;

mod cells;
mod hex;
mod line;
mod listing;
mod styled;
mod words;

const USAGE: &str = "usage: bench [--records] [FILE]";

fn read_page(rt: &HostRuntime, file: &str) -> anyhow::Result<Vec<u8>> {
    fs::read(rt, file).map_err(|error| anyhow!("cannot read {file}: {error}"))
}

fn run(rt: &HostRuntime) -> anyhow::Result<()> {
    let words = env::args(rt)?.skip(1).collect::<Vec<String>>(rt.alloc())?;
    let file = file_in(words.as_slice()).context(USAGE)?;
    let page = read_page(rt, file)?;
    let lines = listing(rt.alloc(), page.as_slice())?;
    rt.print(lines.as_str())?;
    Ok(())
}

fn main(rt: HostRuntime) -> ExitCode {
    match run(&rt) {
        Ok(()) => ExitCode::SUCCESS,
        Err(error) => {
            // the status says the same where standard error takes nothing
            let _ = eprintln!(rt; "bench: {error}");
            ExitCode::FAILURE
        }
    }
}
