ghost use Rattle.std.specs.Prelude.{◌≡◌, ◌≤◌, ◌<◌, All, length};
ghost use Rattle.watch_propagate.specs.WatchRule.{AreReasons};
ghost use Rattle.conflict_analysis.specs.Steps.{IsAssigned};

use crate::levels::level_at;
use crate::marks::Marks;
use crate::reasons::{place_of, reason_at};
use clause_arena::Arena;
use currency_base::{Lit, NoMemory};
use search_trail::Trail;
use std::alloc::Global;

/// What is known of a place.
#[derive(Clone, Copy)]
enum Standing {
    Unknown,
    /// Its reason is being gone through.
    Open,
    /// What was met implies its literal.
    Implied,
    /// It does not.
    Fails,
}

/// Which literals are implied by those that were met, through any number of reasons. Each reason is gone through once at
/// most until it is cleared. What is found is believed by no proof: who resolves a literal meets its reasons in any case.
#[derive(Drop)]
pub(crate) struct Trial {
    // by place
    standings: Vec<Standing>,
    // the places whose standing is known
    touched: Vec<u32>,
    // places to look at, the next one last
    stack: Vec<u32>,
    // by level, the lowest place that was met
    lowest: Vec<u32>,
    // the levels that have such a place
    levels: Vec<u32>,
}

// Where nothing of a level was met.
const NONE: u32 = u32::MAX;

// A walk has at most so many steps.
const STEPS: u32 = u32::MAX;

impl Trial {
    /// Room for so many places, and nothing is known.
    pub(crate) fn new(alloc: Global, places: u32) -> Result<Trial, NoMemory> {
        let Ok(standings) = Vec::from_elem(alloc, Standing::Unknown, places as usize) else {
            return Err(NoMemory);
        };
        let Ok(lowest) = Vec::from_elem(alloc, NONE, places as usize) else {
            return Err(NoMemory);
        };
        Ok(Trial {
            standings,
            touched: Vec::new(alloc),
            stack: Vec::new(alloc),
            lowest,
            levels: Vec::new(alloc),
        })
    }

    /// Nothing is known. Takes time in proportion to what was.
    pub(crate) fn clear(&mut self) {
        reset(&mut self.standings, &self.touched);
        self.touched.clear();
        forget(&mut self.lowest, &self.levels);
        self.levels.clear();
    }

    /// The literal at a place was met. It is of a level from 1 on.
    pub(crate) fn note(&mut self, trail: &Trail, place: u32)
        requires { place < length trail.now.entries }
    {
        let level = level_at(trail, place).saturating_sub(1);
        let known = lowest_at(&self.lowest, level);
        if known == NONE && self.levels.push(level).is_err() {
            return;
        }
        put_lowest(&mut self.lowest, level, known.min(place));
    }

    /// Do literals that were met imply the one at a place, which was met itself?
    pub(crate) fn is_implied(
        &mut self,
        marks: &Marks,
        arena: &Arena,
        trail: &Trail,
        base: u32,
        place: u32,
    ) -> bool
        requires long { length trail.now.entries ≤ length marks.now }
        requires reasons { AreReasons arena.now trail.now.entries }
    {
        self.stack.clear();
        if self.stack.push(place).is_err() {
            return false;
        }
        for _ in 0..STEPS {
            let Some(next) = self.stack.pop() else {
                // it was met, and is not between
                put_standing(&mut self.standings, place, Standing::Unknown);
                return true;
            };
            if !self.visit(marks, arena, trail, base, next) {
                break;
            }
        }
        self.give_up();
        false
    }

    /// Was it found that literals that were met imply the one at a place, which was not met?
    pub(crate) fn is_between(&self, place: u32) -> bool {
        matches!(standing_at(&self.standings, place), Standing::Implied)
    }

    // Looks at a place; tells whether it may be implied.
    fn visit(&mut self, marks: &Marks, arena: &Arena, trail: &Trail, base: u32, place: u32) -> bool
        requires long { length trail.now.entries ≤ length marks.now }
        requires reasons { AreReasons arena.now trail.now.entries }
    {
        match standing_at(&self.standings, place) {
            Standing::Unknown => self.enter(marks, arena, trail, base, place),
            // all before it in its reason are implied
            Standing::Open => {
                put_standing(&mut self.standings, place, Standing::Implied);
                true
            }
            Standing::Implied => true,
            Standing::Fails => false,
        }
    }

    // Goes through the reason of a place.
    fn enter(&mut self, marks: &Marks, arena: &Arena, trail: &Trail, base: u32, place: u32) -> bool
        requires long { length trail.now.entries ≤ length marks.now }
        requires reasons { AreReasons arena.now trail.now.entries }
    {
        if trail.assigned().len() <= place as usize {
            return false;
        }
        let Some(clause) = reason_at(trail, place) else {
            return false;
        };
        if self.touched.push(place).is_err() || self.stack.push(place).is_err() {
            return false;
        }
        put_standing(&mut self.standings, place, Standing::Open);
        self.look_at(marks, trail, base, arena.lits(clause))
    }

    // May all these literals be implied? Those of which it is not known are put on the stack.
    fn look_at(&mut self, marks: &Marks, trail: &Trail, base: u32, lits: &[Lit]) -> bool
        requires long { length trail.now.entries ≤ length marks.now }
        requires assigned { All (IsAssigned trail.now) lits.now }
    {
        for lit in lits {
            if !self.look(marks, trail, base, *lit) {
                return false;
            }
        }
        true
    }

    // May this literal be implied?
    fn look(&mut self, marks: &Marks, trail: &Trail, base: u32, lit: Lit) -> bool
        requires long { length trail.now.entries ≤ length marks.now }
        requires assigned { IsAssigned trail.now lit }
    {
        trail.are_entries();
        let place = place_of(trail, lit);
        if place < base || marks.is_met(place) {
            return true;
        }
        match standing_at(&self.standings, place) {
            Standing::Unknown => { self.is_above(trail, place) && self.stack.push(place).is_ok() }
            Standing::Open => true,
            Standing::Implied => true,
            Standing::Fails => false,
        }
    }

    // Has the literal at a place a reason, and was one of its level met below it? Else nothing that was met implies it.
    fn is_above(&self, trail: &Trail, place: u32) -> bool
        requires { place < length trail.now.entries }
    {
        if reason_at(trail, place).is_none() {
            return false;
        }
        lowest_at(&self.lowest, level_at(trail, place).saturating_sub(1)) < place
    }

    // The places whose reasons were being gone through are not implied.
    fn give_up(&mut self) {
        fail_all(&mut self.standings, &self.stack);
        self.stack.clear();
    }
}

// What is known of a place.
fn standing_at(standings: &[Standing], place: u32) -> Standing {
    standings
        .get(place as usize)
        .copied()
        .unwrap_or(Standing::Fails)
}

// A place has this standing from now on.
fn put_standing(standings: &mut Vec<Standing>, place: u32, standing: Standing) {
    if (place as usize) < standings.len() {
        standings[place as usize] = standing;
    }
}

// Of these places nothing is known.
fn reset(standings: &mut Vec<Standing>, places: &[u32]) {
    for place in places {
        put_standing(standings, *place, Standing::Unknown);
    }
}

// Those of these places that are open fail.
fn fail_all(standings: &mut Vec<Standing>, places: &[u32]) {
    for place in places {
        if let Standing::Open = standing_at(standings, *place) {
            put_standing(standings, *place, Standing::Fails);
        }
    }
}

// The lowest place of a level that was met.
fn lowest_at(lowest: &[u32], level: u32) -> u32 {
    lowest.get(level as usize).copied().unwrap_or(NONE)
}

// It is this one from now on.
fn put_lowest(lowest: &mut Vec<u32>, level: u32, place: u32) {
    if (level as usize) < lowest.len() {
        lowest[level as usize] = place;
    }
}

// Of these levels nothing was met.
fn forget(lowest: &mut Vec<u32>, levels: &[u32]) {
    for level in levels {
        put_lowest(lowest, *level, NONE);
    }
}
