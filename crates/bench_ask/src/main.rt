//! Runs the search of `ask` over a specification of real files, and prints what its log came to: `bench_ask SPEC`, or, of a query
//! whose answers are asked, `bench_ask SPEC QUESTION`. `bench/ask.py` runs it.
#![tactic(auto)]

mod answers;
mod counts;
mod documents;

ghost use Rattle.std.specs.Prelude.{IfSome};
ghost use Rattle.bound_spec.specs.Growth.{IsWithinLimits};
ghost use Rattle.query_model.specs.Fitting.{IsQuery};

use answers::decided;
use counts::{Counts, searched};
use currency_base::NoMemory;
use currency_edge::FileShelf;
use documents::{question, specification};
use query_model::Query;
use solver_guides::{Activity, FirstFree, Guide, Guides, KeepPhase, Seeded};
use spec_model::{Question, Specification};
use std::alloc::Global;
use std::env;
use std::process::ExitCode;
use std::rt::Env;

// The words of the command line; words that are no text are none.
fn words<R: Env + AllocGlobal>(rt: &R) -> Vec<String> {
    match env::args(rt) {
        Ok(args) => match args.collect(rt.alloc()) {
            Ok(words) => words,
            Err(_) => Vec::new(rt.alloc()),
        },
        Err(_) => Vec::new(rt.alloc()),
    }
}

// Puts a guide after the others.
fn put(boxes: &mut Vec<Box<dyn Guide>>, guide: Box<dyn Guide>) -> Result<(), NoMemory> {
    match boxes.push(guide) {
        Ok(()) => Ok(()),
        Err(_) => Err(NoMemory),
    }
}

// What the search over a specification came to, or of a query over it, with one guide of each kind, if memory is not
// wanting. The boxes are made here and not handed out, so that nothing that is proved hangs on what is in them.
fn came_to(
    alloc: Global,
    spec: &Specification,
    query: Option<&Query>,
) -> Result<Option<Counts>, NoMemory>
    requires within { IsWithinLimits spec.now }
    requires query { IfSome query (λ q. IsQuery q.now) }
{
    let mut boxes: Vec<Box<dyn Guide>> = Vec::new(alloc);
    put(&mut boxes, Box::new(alloc, FirstFree::new(alloc))?)?;
    put(&mut boxes, Box::new(alloc, Activity::new(alloc))?)?;
    put(&mut boxes, Box::new(alloc, KeepPhase::new(alloc))?)?;
    put(&mut boxes, Box::new(alloc, Seeded::new(1))?)?;
    let mut guides = Guides::new(boxes);
    match query {
        Some(query) => decided(alloc, spec, query, &mut guides),
        None => searched(alloc, spec, &mut guides),
    }
}

// The same of the specification of this name, and of the query whose answers the question of the other name asks for, if their
// documents say one.
fn of_documents(rt: &HostRuntime, name: &str, asked: Option<&String>) -> Option<Counts> {
    let mut shelf = FileShelf::new(rt);
    let spec = specification(rt.alloc(), &mut shelf, name)?;
    let Some(asked) = asked else {
        return came_to(rt.alloc(), &spec, None).ok()?;
    };
    match question(rt.alloc(), &mut shelf, &spec, asked.as_str())? {
        Question::Answers(query) => came_to(rt.alloc(), &spec, Some(&query)).ok()?,
        _ => None,
    }
}

fn main(rt: HostRuntime) -> ExitCode {
    let words = words(&rt);
    let Some(name) = words.get(1) else {
        return ExitCode::from(2);
    };
    let Some(told) = of_documents(&rt, name.as_str(), words.get(2)) else {
        return ExitCode::from(9);
    };
    match println!(rt;
        "{} axioms, {} on three rows, {} learned, {} on demand, {} completions listed, {} models",
        told.axioms, told.three_rows, told.learned, told.on_demand, told.completions, told.models
    ) {
        Ok(()) => ExitCode::from(0),
        Err(_) => ExitCode::from(8),
    }
}
