use crate::source::{Source, lit};
use crate::variables::add;
use currency_base::{Lit, NoMemory};
use solver_guides::Guides;
use std::alloc::Global;
use watch_solver::Solver;

/// Adds so many clauses of three random literals each over so many variables. Those that would have a variable twice
/// are left out.
pub fn random(
    solver: &mut Solver,
    guides: &mut Guides,
    source: &mut Source,
    clauses: u32,
    vars: u32,
) -> Result<(), NoMemory> {
    for _ in 0..clauses {
        let mut lits = [source.lit(vars), source.lit(vars), source.lit(vars)];
        lits.sort_unstable();
        add(solver, &lits, guides)?;
    }
    Ok(())
}

/// Adds the clauses by which each of so many pigeons and one sits in one of so many holes, no two in the same (Cook,
/// Reckhow, 1979). Of pigeon p and hole h the variable is p times the number of holes plus h.
pub fn pigeons(
    solver: &mut Solver,
    alloc: Global,
    guides: &mut Guides,
    holes: u32,
) -> Result<(), NoMemory> {
    let count = holes.saturating_add(1);
    for pigeon in 0..count {
        sits(solver, alloc, guides, holes, pigeon)?;
        for other in 0..pigeon {
            sit_apart(solver, guides, holes, other, pigeon)?;
        }
    }
    Ok(())
}

// A pigeon sits in one of the holes.
fn sits(
    solver: &mut Solver,
    alloc: Global,
    guides: &mut Guides,
    holes: u32,
    pigeon: u32,
) -> Result<(), NoMemory> {
    let mut lits: Vec<Lit> = Vec::new(alloc);
    for hole in 0..holes {
        push(&mut lits, lit(at(pigeon, hole, holes), false))?;
    }
    add(solver, &lits, guides)
}

// Two pigeons do not sit in the same hole.
fn sit_apart(
    solver: &mut Solver,
    guides: &mut Guides,
    holes: u32,
    first: u32,
    second: u32,
) -> Result<(), NoMemory> {
    for hole in 0..holes {
        let lits = [
            lit(at(first, hole, holes), true),
            lit(at(second, hole, holes), true),
        ];
        add(solver, &lits, guides)?;
    }
    Ok(())
}

/// Adds the clauses by which a strict order of so many items has no least item (Krishnamurthy, 1985). That item i is
/// before item j is variable i times the number of items plus j.
pub fn ordering(
    solver: &mut Solver,
    alloc: Global,
    guides: &mut Guides,
    items: u32,
) -> Result<(), NoMemory> {
    for item in 0..items {
        has_lesser(solver, alloc, guides, items, item)?;
        for other in 0..items {
            leads_on(solver, guides, items, item, other)?;
        }
    }
    Ok(())
}

// Some item is before this one.
fn has_lesser(
    solver: &mut Solver,
    alloc: Global,
    guides: &mut Guides,
    items: u32,
    item: u32,
) -> Result<(), NoMemory> {
    let mut lits: Vec<Lit> = Vec::new(alloc);
    for other in 0..items {
        if other != item {
            push(&mut lits, lit(at(other, item, items), false))?;
        }
    }
    add(solver, &lits, guides)
}

// Where an item is before another, this one is not before it, and is before none that it is not before.
fn leads_on(
    solver: &mut Solver,
    guides: &mut Guides,
    items: u32,
    first: u32,
    second: u32,
) -> Result<(), NoMemory> {
    if first < second {
        let lits = [
            lit(at(first, second, items), true),
            lit(at(second, first, items), true),
        ];
        add(solver, &lits, guides)?;
    }
    for third in 0..items {
        let mut lits = [
            lit(at(first, second, items), true),
            lit(at(second, third, items), true),
            lit(at(first, third, items), false),
        ];
        lits.sort_unstable();
        add(solver, &lits, guides)?;
    }
    Ok(())
}

// The variable of two numbers, the second below so many.
fn at(first: u32, second: u32, many: u32) -> u32 {
    first.saturating_mul(many).saturating_add(second)
}

// One literal more.
fn push(lits: &mut Vec<Lit>, lit: Lit) -> Result<(), NoMemory> {
    match lits.push(lit) {
        Ok(()) => Ok(()),
        Err(_) => Err(NoMemory),
    }
}
