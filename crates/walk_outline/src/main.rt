//! Reads an outline from standard input and prints the path of each line of descent in it; with a word, the
//! path of the first that ends at an entry with that text.
#![tactic(auto)]

mod printing;
mod reading;
mod walking;

use outline::outlines::Outline;
use std::env;
use std::process::ExitCode;

fn run(rt: &HostRuntime) -> anyhow::Result<()> {
    let outline = reading::read_outline(rt)?;
    let mut args = env::args(rt)?;
    let _ = args.next();
    match args.next() {
        None => walking::print_all(rt, &outline),
        Some(word) => walking::print_first(rt, &outline, word.as_str()),
    }
}

fn main(rt: HostRuntime) -> anyhow::Result<ExitCode> {
    if let Err(e) = run(&rt) {
        eprintln!(rt; "walk_outline: {e}")?;
        return Ok(ExitCode::FAILURE);
    }
    Ok(ExitCode::SUCCESS)
}
