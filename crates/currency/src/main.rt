//! The program `currency`: real files and standard output around `currency_cli::run`.
#![tactic(auto)]

ghost use Rattle.std.specs.Prelude.{◌≡◌, ◌+◌, None, IfErr, IfOk, OnOk, map, string_bytes, vec_len};
ghost use Rattle.currency.specs.Runs.{IsRun};
ghost use Rattle.currency_cli.specs.Clauses.{WordsRefused};
ghost use Rattle.currency_cli.specs.Words.{command_for};
ghost use Rattle.solver_guides.specs.Rings.{count_of};

use currency_base::NoMemory;
use currency_cli::run;
use currency_edge::{FileShelf, Shelf, Sink, StdSink};
use kept_documents::KeptShelf;
use solver_guides::{Activity, FirstFree, Guide, Guides, KeepPhase, Seeded};
use std::alloc::Global;
use std::process::ExitCode;
use std::rt::Env;
use std::{env, io};

// The status for want of memory.
const NO_MEMORY: u8 = 9;

// The words of the command line. Words that are no text are none that the program takes, as no words are.
fn words<R: Env + AllocGlobal>(rt: &R) -> Result<Vec<String>, u8> {
    match env::args(rt) {
        Ok(args) => match args.collect(rt.alloc()) {
            Ok(words) => Ok(words),
            Err(_) => Err(NO_MEMORY),
        },
        Err(e) if e.kind() == io::ErrorKind::OutOfMemory => Err(NO_MEMORY),
        Err(_) => Ok(Vec::new(rt.alloc())),
    }
}

// Puts a guide after the others.
fn put(boxes: &mut Vec<Box<dyn Guide>>, guide: Box<dyn Guide>) -> Result<(), NoMemory>
    ensures { OnOk result (vec_len boxes.new ≡ vec_len boxes.old + 1) }
{
    match boxes.push(guide) {
        Ok(()) => Ok(()),
        Err(_) => Err(NoMemory),
    }
}

// A run where four guides are handed in, in which all holds that `run` promises.
fn run_with_four<S: Shelf, K: Sink>(
    alloc: Global,
    words: &[String],
    shelf: &mut S,
    out: &mut K,
    guides: &mut Guides,
) -> u8
    requires { count_of guides.old ≡ 4 }
    ensures { IsRun (S.texts shelf.old) 4 (map (λ w. string_bytes w) words.now) (S.faults shelf.old) (S.faults shelf.new)
        (K.written out.old) (K.written out.new) (K.faults out.old) (K.faults out.new) result }
{
    run(alloc, words, shelf, out, guides)
}

// The status of a run with one guide of each kind, in which all holds that `run` promises where four are handed in; with no
// memory for these nothing is written. The boxes are made here and not handed out, so that nothing that is proved hangs on what
// is in them.
fn guided<S: Shelf, K: Sink>(
    alloc: Global,
    words: &[String],
    shelf: &mut S,
    out: &mut K,
) -> Result<u8, NoMemory>
    ensures runs { IfOk result (λ status. IsRun (S.texts shelf.old) 4 (map (λ w. string_bytes w) words.now)
        (S.faults shelf.old) (S.faults shelf.new) (K.written out.old) (K.written out.new) (K.faults out.old) (K.faults out.new)
        status) }
    ensures silent { IfErr result (λ _. K.written out.new ≡ K.written out.old) }
{
    let mut boxes: Vec<Box<dyn Guide>> = Vec::new(alloc);
    put(&mut boxes, Box::new(alloc, FirstFree::new(alloc))?)?;
    put(&mut boxes, Box::new(alloc, Activity::new(alloc))?)?;
    put(&mut boxes, Box::new(alloc, KeepPhase::new(alloc))?)?;
    put(&mut boxes, Box::new(alloc, Seeded::new(1))?)?;
    let mut guides = Guides::new(boxes);
    Ok(run_with_four(alloc, words, shelf, out, &mut guides))
}

// The same over files, each read once, and standard output, of which contracts see no content.
fn over_files(rt: &HostRuntime, words: &[String]) -> u8
    ensures no_command { result ≡ 2 → command_for 4 (map (λ w. string_bytes w) words.now) ≡ None }
    ensures words_refused { WordsRefused 4 (map (λ w. string_bytes w) words.now) result }
{
    let mut shelf = KeptShelf::new(rt.alloc(), FileShelf::new(rt));
    let mut sink = StdSink::new(io::writer(rt));
    match guided(rt.alloc(), words, &mut shelf, &mut sink) {
        Ok(status) => status,
        Err(NoMemory) => NO_MEMORY,
    }
}

fn main(rt: HostRuntime) -> ExitCode {
    let status = match words(&rt) {
        Ok(words) => over_files(&rt, words.as_slice()),
        Err(status) => status,
    };
    ExitCode::from(status)
}
