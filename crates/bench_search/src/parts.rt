use crate::solve::solve;
use crate::walks::walk;
use currency_base::NoMemory;
use made_clauses::Family;
use std::alloc::Global;

/// What is done.
#[derive(Clone, Copy, Debug, PartialEq, Eq)]
pub enum Part {
    /// So many random clauses are added to an arena.
    Arena,
    /// Over these literals are assumed and propagated.
    Propagate,
    /// Clauses of a family of this size are made, and no search begins.
    Made(Family),
    /// A search over clauses of a family.
    Solve(Family),
}

/// Two counts: the variables and clauses of an arena, the implied literals and conflicts of propagation, the decisions
/// of a search and its clauses (where none begins) or conflicts.
#[derive(Clone, Copy, Debug, PartialEq, Eq)]
pub struct Counts {
    pub first: u64,
    pub second: u64,
}

impl Part {
    /// The part of a word.
    pub fn of(word: &str) -> Option<Part> {
        match word {
            "arena" => Some(Part::Arena),
            "propagate" => Some(Part::Propagate),
            "threshold-made" => Some(Part::Made(Family::Threshold)),
            "threshold" => Some(Part::Solve(Family::Threshold)),
            "pigeons-made" => Some(Part::Made(Family::Pigeons)),
            "pigeons" => Some(Part::Solve(Family::Pigeons)),
            "ordering-made" => Some(Part::Made(Family::Ordering)),
            "ordering" => Some(Part::Solve(Family::Ordering)),
            _ => None,
        }
    }
}

/// Runs a part of this size.
pub fn run(alloc: Global, part: Part, size: u32) -> Result<Counts, NoMemory> {
    match part {
        Part::Arena => propagated(alloc, size, false),
        Part::Propagate => propagated(alloc, size, true),
        Part::Made(family) => searched(alloc, family, size, false),
        Part::Solve(family) => searched(alloc, family, size, true),
    }
}

// Random clauses, and what is implied by them where this is asked.
fn propagated(alloc: Global, clauses: u32, propagates: bool) -> Result<Counts, NoMemory> {
    let made = walk(alloc, clauses, propagates)?;
    if propagates {
        return Ok(Counts {
            first: made.implied,
            second: made.conflicts,
        });
    }
    Ok(Counts {
        first: made.variables as u64,
        second: made.clauses as u64,
    })
}

// Clauses of a family, and a search over them where this is asked.
fn searched(alloc: Global, family: Family, size: u32, searches: bool) -> Result<Counts, NoMemory> {
    let solved = solve(alloc, family, size, searches)?;
    let second = if searches {
        solved.conflicts
    } else {
        solved.clauses as u64
    };
    Ok(Counts {
        first: solved.decisions,
        second,
    })
}
