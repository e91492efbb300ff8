//! Runs a part of the search over an input that is made from a number, and prints how much the part made:
//! `bench_parts PART ROWS`. `bench/parts.py` times it.
#![tactic(auto)]

mod documents;
mod parts;

use parts::{Part, run};
use std::alloc::Global;
use std::env;
use std::process::ExitCode;
use std::rt::Env;

// What the words ask for: a part, and over how many rows.
fn asked(words: &[String]) -> Option<(Part, u32)> {
    let part = Part::of(words.get(1)?.as_str())?;
    let rows = words.get(2)?.as_str().parse::<u32>().ok()?;
    Some((part, rows))
}

// The words of the command line; words that are no text are none.
fn words<R: Env + AllocGlobal>(rt: &R) -> Vec<String> {
    match env::args(rt) {
        Ok(args) => match args.collect(rt.alloc()) {
            Ok(words) => words,
            Err(_) => Vec::new(rt.alloc()),
        },
        Err(_) => Vec::new(rt.alloc()),
    }
}

fn main(rt: HostRuntime) -> ExitCode {
    let alloc: Global = rt.alloc();
    let words = words(&rt);
    let Some((part, rows)) = asked(words.as_slice()) else {
        return ExitCode::from(2);
    };
    match run(alloc, part, rows) {
        Ok(counts) => match println!(rt;
            "{} variables, {} clauses",
            counts.variables, counts.clauses
        ) {
            Ok(()) => ExitCode::from(0),
            Err(_) => ExitCode::from(8),
        },
        Err(_) => ExitCode::from(9),
    }
}
