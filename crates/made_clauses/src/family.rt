use crate::families::{ordering, pigeons, random};
use crate::source::Source;
use crate::variables::solver;
use currency_base::NoMemory;
use solver_guides::Guides;
use std::alloc::Global;
use watch_solver::{Budget, Solver};

/// Where the clauses come from.
#[derive(Clone, Copy, Debug, PartialEq, Eq)]
pub enum Family {
    /// Random clauses of three literals over so many variables, near the threshold at which most have no model.
    Threshold,
    /// One pigeon more than so many holes.
    Pigeons,
    /// A strict order of so many items with no least one.
    Ordering,
}

/// How many clauses there were, and how many conflicts a search came to.
#[derive(Clone, Copy, Debug)]
pub struct Searched {
    pub clauses: usize,
    pub conflicts: u64,
}

// A search ends after so many conflicts.
const CONFLICTS: u64 = 20_000;

/// Makes the clauses of a family of this size, and searches over them where this is asked, with guides that have room for
/// its variables.
pub fn search_with(
    alloc: Global,
    family: Family,
    size: u32,
    searches: bool,
    guides: &mut Guides,
) -> Result<Searched, NoMemory> {
    match solver(alloc, family.variables(size).min(1_000_000)) {
        Ok(mut solver) => search_by(&mut solver, alloc, family, size, searches, guides),
        Err(error) => Err(error),
    }
}

// The same, with a solver that has no clause yet.
fn search_by(
    solver: &mut Solver,
    alloc: Global,
    family: Family,
    size: u32,
    searches: bool,
    guides: &mut Guides,
) -> Result<Searched, NoMemory> {
    family.fill(solver, alloc, guides, size)?;
    let clauses = solver.log().steps.len();
    let total = if searches { CONFLICTS } else { 0 };
    let mut budget = Budget::new(total);
    let _found = solver.decide(None, &mut budget, guides)?;
    Ok(Searched {
        clauses,
        conflicts: total.saturating_sub(budget.left()),
    })
}

impl Family {
    /// How many variables there are.
    pub fn variables(self, size: u32) -> u32 {
        match self {
            Family::Threshold => size,
            Family::Pigeons => size.saturating_add(1).saturating_mul(size),
            Family::Ordering => size.saturating_mul(size),
        }
    }

    // Adds the clauses.
    fn fill(
        self,
        solver: &mut Solver,
        alloc: Global,
        guides: &mut Guides,
        size: u32,
    ) -> Result<(), NoMemory> {
        match self {
            Family::Threshold => {
                let mut source = Source::new(1);
                random(
                    solver,
                    guides,
                    &mut source,
                    size.saturating_mul(17) / 4,
                    size,
                )
            }
            Family::Pigeons => pigeons(solver, alloc, guides, size),
            Family::Ordering => ordering(solver, alloc, guides, size),
        }
    }
}
