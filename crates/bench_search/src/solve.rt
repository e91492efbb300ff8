//! Searches over clauses that are made from a number.

use currency_base::{Assignment, NoMemory};
use made_clauses::{Family, search_with};
use solver_guides::{Activity, FirstFree, Guide, Guides, KeepPhase, Seeded};
use std::alloc::Global;

/// What a search came to.
#[derive(Clone, Copy, Debug)]
pub struct Solved {
    pub decisions: u64,
    pub conflicts: u64,
    pub clauses: usize,
}

/// Makes the clauses of a family of this size, and searches over them where this is asked, with one guide of each kind.
pub fn solve(alloc: Global, family: Family, size: u32, searches: bool) -> Result<Solved, NoMemory> {
    let mut boxes: Vec<Box<dyn Guide>> = Vec::new(alloc);
    put(&mut boxes, Box::new(alloc, FirstFree::new(alloc))?)?;
    put(&mut boxes, Box::new(alloc, Activity::new(alloc))?)?;
    put(&mut boxes, Box::new(alloc, KeepPhase::new(alloc))?)?;
    put(&mut boxes, Box::new(alloc, Seeded::new(1))?)?;
    let mut guides = Guides::new(boxes);
    let start = Assignment::new(alloc, family.variables(size))?;
    guides.fit_all(alloc, &start);
    let searched = search_with(alloc, family, size, searches, &mut guides)?;
    Ok(Solved {
        decisions: guides.asked(),
        conflicts: searched.conflicts,
        clauses: searched.clauses,
    })
}

// Puts a guide after the others.
fn put(boxes: &mut Vec<Box<dyn Guide>>, guide: Box<dyn Guide>) -> Result<(), NoMemory> {
    match boxes.push(guide) {
        Ok(()) => Ok(()),
        Err(_) => Err(NoMemory),
    }
}
