//! Propagates or searches over clauses that are made from a number, and prints how much that came to:
//! `bench_search PART SIZE`. `bench/search.py` times it.
#![tactic(auto)]

mod parts;
mod random;
mod solve;
mod walks;

use parts::{Part, run};
use std::alloc::Global;
use std::env;
use std::process::ExitCode;
use std::rt::Env;

// What the words ask for: a part, and how large.
fn asked(words: &[String]) -> Option<(Part, u32)> {
    let part = Part::of(words.get(1)?.as_str())?;
    let size = words.get(2)?.as_str().parse::<u32>().ok()?;
    Some((part, size))
}

// The words of the command line; words that are no text are none.
fn words<R: Env + AllocGlobal>(rt: &R) -> Vec<String> {
    match env::args(rt) {
        Ok(args) => match args.collect(rt.alloc()) {
            Ok(words) => words,
            Err(_) => Vec::new(rt.alloc()),
        },
        Err(_) => Vec::new(rt.alloc()),
    }
}

fn main(rt: HostRuntime) -> ExitCode {
    let alloc: Global = rt.alloc();
    let words = words(&rt);
    let Some((part, size)) = asked(words.as_slice()) else {
        return ExitCode::from(2);
    };
    match run(alloc, part, size) {
        Ok(counts) => match println!(rt; "{} steps, {} made", counts.first, counts.second) {
            Ok(()) => ExitCode::from(0),
            Err(_) => ExitCode::from(8),
        },
        Err(_) => ExitCode::from(9),
    }
}
