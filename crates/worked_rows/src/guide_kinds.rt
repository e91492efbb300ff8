//! Guides for tests: the four kinds, and one that always says the same of the first free variable.

ghost use Rattle.std.specs.Prelude.{true, if◌then◌else◌, option_map};
ghost use Rattle.currency_base.specs.Literals.{negation};
ghost use Rattle.solver_guides.specs.Choices.{first_free_as};
ghost use Rattle.solver_guides.specs.Known.{start_of};

use currency_base::{Assignment, Lit, NoMemory};
use search_trail::Values;
use solver_guides::{Activity, FirstFree, Guide, Guides, KeepPhase, Seeded};
use std::alloc::Global;

/// Picks the first free variable, always as false, or turned round, whatever the first guess at a model is.
#[derive(Drop)]
pub(crate) struct Steady {
    first: FirstFree,
    turned: bool,
}

impl Guide for Steady {
    ghost choice = { λ g values. option_map (λ lit. if g.turned then negation lit else lit)
        (first_free_as (start_of g.first) values) };

    ghost has_room = { λ g vars. true };

    ghost may_fit = { λ g vars fits h. fits };

    fn fit(&mut self, _alloc: Global, _start: &Assignment) -> Result<(), NoMemory> {
        Ok(())
    }

    fn pick(&mut self, values: &Values) -> Option<Lit> {
        let picked = self.first.pick(values);
        match picked {
            Some(lit) => Some(if self.turned { lit.negated() } else { lit }),
            None => None,
        }
    }

    fn saw(&mut self, _var: u32) {}

    fn freed(&mut self, _lit: Lit, _values: &Values) {}

    fn leave(&mut self, _scope: &[u32]) {}

    fn enter(&mut self, _scope: &[u32]) {}

    fn restarted(&mut self) {}
}

/// Puts a guide after the others.
pub(crate) fn put(boxes: &mut Vec<Box<dyn Guide>>, guide: Box<dyn Guide>) -> Result<(), NoMemory> {
    match boxes.push(guide) {
        Ok(()) => Ok(()),
        Err(_) => Err(NoMemory),
    }
}

/// Puts one guide of each kind after the others.
pub(crate) fn put_four(alloc: Global, boxes: &mut Vec<Box<dyn Guide>>) -> Result<(), NoMemory> {
    put(boxes, Box::new(alloc, FirstFree::new(alloc))?)?;
    put(boxes, Box::new(alloc, Activity::new(alloc))?)?;
    put(boxes, Box::new(alloc, KeepPhase::new(alloc))?)?;
    put(boxes, Box::new(alloc, Seeded::new(1))?)
}

/// The four kinds.
pub(crate) fn four(alloc: Global) -> Result<Guides, NoMemory> {
    let mut boxes: Vec<Box<dyn Guide>> = Vec::new(alloc);
    put_four(alloc, &mut boxes)?;
    Ok(Guides::new(boxes))
}

/// One that is steady.
pub(crate) fn one_steady(alloc: Global, turned: bool) -> Result<Guides, NoMemory> {
    let mut boxes: Vec<Box<dyn Guide>> = Vec::new(alloc);
    let guide = Steady {
        first: FirstFree::new(alloc),
        turned,
    };
    put(&mut boxes, Box::new(alloc, guide)?)?;
    Ok(Guides::new(boxes))
}
