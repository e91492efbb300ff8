//! Guides for tests: the four kinds, and such as pick nothing, or what may not be picked.

ghost use Rattle.std.specs.Prelude.{true, false, not, Some};

use currency_base::{Assignment, Lit, NoMemory};
use search_trail::Values;
use solver_guides::{Activity, FirstFree, Guide, KeepPhase, Seeded};
use std::alloc::Global;

/// A guide that always picks the same, whatever the values are.
#[derive(Drop)]
pub(crate) struct Always {
    pub lit: Option<Lit>,
}

impl Guide for Always {
    ghost choice = { λ g values. g.lit };

    ghost has_room = { λ g vars. true };

    ghost may_fit = { λ g vars fits h. fits };

    fn fit(&mut self, _alloc: Global, _start: &Assignment) -> Result<(), NoMemory> {
        Ok(())
    }

    fn pick(&mut self, _values: &Values) -> Option<Lit> {
        self.lit
    }

    fn saw(&mut self, _var: u32) {}

    fn freed(&mut self, _lit: Lit, _values: &Values) {}

    fn leave(&mut self, _scope: &[u32]) {}

    fn enter(&mut self, _scope: &[u32]) {}

    fn restarted(&mut self) {}
}

/// A guide that is refused memory, and would pick a literal.
#[derive(Drop)]
pub(crate) struct Refused {
    pub lit: Lit,
}

impl Guide for Refused {
    ghost choice = { λ g values. Some g.lit };

    ghost has_room = { λ g vars. false };

    ghost may_fit = { λ g vars fits h. not fits };

    fn fit(&mut self, _alloc: Global, _start: &Assignment) -> Result<(), NoMemory> {
        Err(NoMemory)
    }

    fn pick(&mut self, _values: &Values) -> Option<Lit> {
        Some(self.lit)
    }

    fn saw(&mut self, _var: u32) {}

    fn freed(&mut self, _lit: Lit, _values: &Values) {}

    fn leave(&mut self, _scope: &[u32]) {}

    fn enter(&mut self, _scope: &[u32]) {}

    fn restarted(&mut self) {}
}

/// Which guides stand in a ring.
#[derive(Clone, Copy, Debug, PartialEq, Eq)]
pub(crate) enum Ring {
    None,
    First,
    Activity,
    Phase,
    Seeded,
    Nothing,
    Assigned,
    Beyond,
    Refused,
    All,
}

impl Ring {
    /// Each of them.
    pub(crate) const EACH: [Ring; 10] = [
        Ring::None,
        Ring::First,
        Ring::Activity,
        Ring::Phase,
        Ring::Seeded,
        Ring::Nothing,
        Ring::Assigned,
        Ring::Beyond,
        Ring::Refused,
        Ring::All,
    ];

    /// Puts its guides into a list.
    pub(crate) fn fill(
        self,
        alloc: Global,
        boxes: &mut Vec<Box<dyn Guide>>,
    ) -> Result<(), NoMemory> {
        let all = self == Ring::All;
        if all || self == Ring::First {
            put(boxes, Box::new(alloc, FirstFree::new(alloc))?)?;
        }
        if all || self == Ring::Activity {
            put(boxes, Box::new(alloc, Activity::new(alloc))?)?;
        }
        if all || self == Ring::Phase {
            put(boxes, Box::new(alloc, KeepPhase::new(alloc))?)?;
        }
        if all || self == Ring::Seeded {
            put(boxes, Box::new(alloc, Seeded::new(1))?)?;
        }
        self.fill_odd(alloc, boxes)
    }

    // Puts the guides that pick nothing, or what may not be picked.
    fn fill_odd(self, alloc: Global, boxes: &mut Vec<Box<dyn Guide>>) -> Result<(), NoMemory> {
        let all = self == Ring::All;
        if all || self == Ring::Nothing {
            put_always(alloc, boxes, None)?;
        }
        if all || self == Ring::Assigned {
            put_always(alloc, boxes, Some(Lit::new(0, false)))?;
        }
        if all || self == Ring::Beyond {
            put_always(alloc, boxes, Some(Lit::new(1_000_000, false)))?;
        }
        if all || self == Ring::Refused {
            let lit = Lit::new(0, false);
            put(boxes, Box::new(alloc, Refused { lit })?)?;
        }
        Ok(())
    }
}

// Puts a guide after the others.
fn put(boxes: &mut Vec<Box<dyn Guide>>, guide: Box<dyn Guide>) -> Result<(), NoMemory> {
    match boxes.push(guide) {
        Ok(()) => Ok(()),
        Err(_) => Err(NoMemory),
    }
}

// Puts a guide that always picks the same.
fn put_always(
    alloc: Global,
    boxes: &mut Vec<Box<dyn Guide>>,
    lit: Option<Lit>,
) -> Result<(), NoMemory> {
    put(boxes, Box::new(alloc, Always { lit })?)
}
