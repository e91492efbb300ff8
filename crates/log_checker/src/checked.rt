ghost use Rattle.std.specs.Prelude.{◌≡◌, ◌*◌, ◌<◌, ◌^◌, ◌==◌, false, IfOk, IfSome, IfNone, All, length, replicate};
ghost use Rattle.std.specs.List.{list_all};
ghost use Rattle.currency_base.specs.declared.lit.Lit.{Lit};
ghost use Rattle.log_checker.specs.Shown.{Shown, is_empty, is_unit, shows_unit, ShowsMore};

use currency_base::{Lit, NoMemory};
use std::alloc::Global;
use std::marker::Model;

/// What an accepted log shows: the literals whose units it has, and whether it has the empty clause.
#[derive(Drop)]
pub struct Checked {
    // whether a unit is there, by the index of its literal
    units: Vec<bool>,
    empty: bool,
}

impl Model for Checked {
    ghost use Rattle.log_checker.specs.Shown.{Shown};

    ghost Value = { Shown };

    ghost view = { λ c. record { units = c.units.items; empty = c.empty } };
}

impl Checked {
    /// Has the log the unit of this literal: a step whose clause is, as a set, the literal alone? Takes no
    /// memory.
    pub fn has_unit(&self, lit: Lit) -> bool
        ensures { result ≡ shows_unit self.now lit }
    {
        match self.units.get(lit.index()) {
            Some(there) => *there,
            None => false,
        }
    }

    /// Has the log the empty clause? Takes no memory.
    pub fn has_empty(&self) -> bool
        ensures { result ≡ self.now.empty }
    {
        self.empty
    }

    // Nothing is shown yet, with room for the literals of so many variables.
    pub(crate) fn new(alloc: Global, vars: usize) -> Result<Checked, NoMemory>
        requires { vars < 2 ^ 32 }
        ensures { IfOk result (λ c. c ≡ record { units = replicate (2 * vars) false; empty = false }) }
    {
        let mut units = Vec::new(alloc);
        units.resize(2 * vars, false)?;
        Ok(Checked {
            units,
            empty: false,
        })
    }

    // Shows one clause more.
    pub(crate) fn add(&mut self, lits: &[Lit])
        requires { All (λ lit. lit.0 < length self.old.units) lits.now }
        ensures { ShowsMore self.old self.new lits.now }
    {
        match lits.get(0) {
            None => self.empty = true,
            Some(first) => {
                if are_all(lits, *first) {
                    self.units[first.index()] = true;
                }
            }
        }
    }
}

// Is each literal this one?
fn are_all(lits: &[Lit], only: Lit) -> bool
    ensures { result ≡ list_all (λ l. l.0 == only.0) lits.now }
{
    lits.iter().all(|lit| lit.index() == only.index())
}
