ghost use Rattle.std.specs.Prelude.{◌≡◌, All, IfOk};
ghost use Rattle.std.specs.Bool.{OnTrue};
ghost use Rattle.query_plan.specs.Implied.{AreContrary, IsImplied, IsLed};

use crate::equalities::{Equality, equalities, leader_of};
use crate::standings::Standings;
use currency_base::NoMemory;
use query_model::Test;
use std::alloc::Global;
use std::marker::Model;

/// The comparisons of a disjunct, and what follows of them. Contracts see the comparisons, and which variables have
/// the values of which of their sides.
#[derive(Drop)]
pub struct Conditions<'a> {
    tests: &'a [Test],
    equalities: Vec<Equality<'a>>,
    is_contrary: bool,
}

impl<'a> Model for Conditions<'a> {
    ghost use Rattle.query_plan.specs.Plans.{AreConditions, Conditioned};

    ghost Value = { Conditioned };

    ghost view = { λ c. record { tests = c.tests.now; equalities = c.equalities.items } };

    ghost invariant = { λ c. AreConditions c.tests.now c.equalities.items c.is_contrary };
}

impl<'a> Conditions<'a> {
    /// What follows of comparisons, in time in proportion to the third power of their number.
    pub fn new(alloc: Global, tests: &'a [Test]) -> Result<Conditions<'a>, NoMemory>
        ensures { IfOk result (λ conditions. conditions.tests ≡ tests.now) }
    {
        let standings = Standings::new(alloc, tests)?;
        let equalities = equalities(alloc, &standings)?;
        let is_contrary = standings.is_contrary();
        Ok(Conditions {
            tests,
            equalities,
            is_contrary,
        })
    }

    /// The comparisons.
    pub fn tests(&self) -> &'a [Test]
        ensures { result.now ≡ self.now.tests }
    {
        self.tests
    }

    /// Which variables have the values of which sides wherever the comparisons hold. Once one of some variables
    /// that have one value is known, all are known after one pass.
    pub fn equalities(&self) -> &[Equality<'a>]
        ensures same { result.now ≡ self.now.equalities }
        ensures implied { All (IsImplied self.now.tests) self.now.equalities }
    {
        &self.equalities
    }

    /// The variable whose value a variable has wherever the comparisons hold: of variables that have one value the same
    /// for all.
    pub fn leader(&self, var: u32) -> u32
        ensures { IsLed self.now.tests var result }
    {
        leader_of(&self.equalities, var)
    }

    /// Was it seen that the comparisons hold for no values: by constants, or by going from side to side?
    pub fn is_contrary(&self) -> bool
        ensures { OnTrue result (AreContrary self.now.tests) }
    {
        self.is_contrary
    }
}
