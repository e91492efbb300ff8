ghost use Rattle.std.specs.Prelude.{◌≡◌, IfOk, OnOk};
ghost use Rattle.entity_ground.specs.Grounds.{AreCopyGrounds, AreRuleGrounds};
ghost use Rattle.order_literals.specs.Numbers.{numbers_of};
ghost use Rattle.order_literals.specs.Statements.{statements_of};
ghost use Rattle.order_clauses.specs.Clauses.{AreAxioms};
ghost use Rattle.order_clauses.specs.Listing.{AddsAll};
ghost use Rattle.order_clauses.specs.Subject.{variables};

use crate::copied::copied;
use crate::given::given;
use crate::pushing::Scratch;
use crate::ruled::ruled;
use crate::sayings::Sayings;
use crate::wanted::wanted as put_wanted;
use currency_base::NoMemory;
use entity_ground::{Grounds, instances};
use order_literals::{Numbering, Wanted};
use refutation_log::Steps;
use spec_model::Specification;
use std::alloc::Global;

/// The axioms of a specification as steps of a log: one for each given pair, each ground of a rule, and each
/// ground of a copy function at each of its places; and for the wanted relations, in each attribute, for each
/// row and another of its entity, each row, and each value what makes it the last or the current one. The
/// order of three rows has no axiom here. No clause has a literal twice.
pub fn clauses(
    alloc: Global,
    spec: &Specification,
    numbering: &Numbering,
    wanted: &Wanted,
) -> Result<Steps, NoMemory>
    requires { numbering.now ≡ numbers_of spec.now.relations wanted.now }
    ensures { IfOk result (AreAxioms spec.now wanted.now.currents (statements_of numbering.now)) }
{
    let grounds = instances(alloc, spec)?;
    over(alloc, spec, numbering, wanted, &grounds)
}

// The axioms, where the grounds are known.
fn over<'a>(
    alloc: Global,
    spec: &'a Specification,
    numbering: &'a Numbering,
    wanted: &'a Wanted,
    grounds: &Grounds,
) -> Result<Steps, NoMemory>
    requires numbering { numbering.now ≡ numbers_of spec.now.relations wanted.now }
    requires rules { AreRuleGrounds spec.now grounds.now.rules }
    requires copies { AreCopyGrounds spec.now grounds.now.copies }
    ensures { IfOk result (AreAxioms spec.now wanted.now.currents (statements_of numbering.now)) }
{
    let sayings = Sayings {
        spec,
        numbering,
        wanted,
    };
    listed(alloc, &sayings, grounds)
}

// The axioms, where the literals are at hand.
fn listed<'a>(alloc: Global, sayings: &'a Sayings<'a>, grounds: &Grounds) -> Result<Steps, NoMemory>
    requires rules { AreRuleGrounds sayings.now.spec grounds.now.rules }
    requires copies { AreCopyGrounds sayings.now.spec grounds.now.copies }
    ensures { IfOk result (AreAxioms sayings.now.spec sayings.now.wanted.currents (variables sayings.now)) }
{
    sayings.facts();
    let mut steps = Steps::new(alloc);
    put_all(alloc, sayings, &mut steps, grounds)?;
    Ok(steps)
}

// Puts the axioms after the steps.
fn put_all<'a>(
    alloc: Global,
    sayings: &'a Sayings<'a>,
    steps: &mut Steps,
    grounds: &Grounds,
) -> Result<(), NoMemory>
    requires rules { AreRuleGrounds sayings.now.spec grounds.now.rules }
    requires copies { AreCopyGrounds sayings.now.spec grounds.now.copies }
    ensures { OnOk result (AddsAll sayings.now grounds.now.rules grounds.now.copies steps.old steps.new) }
{
    let mut scratch = Scratch {
        lits: Vec::new(alloc),
        distinct: Vec::new(alloc),
    };
    put_sections(alloc, sayings, steps, &mut scratch, grounds)
}

// Puts the axioms after the steps, section by section.
fn put_sections<'a>(
    alloc: Global,
    sayings: &'a Sayings<'a>,
    steps: &mut Steps,
    scratch: &mut Scratch,
    grounds: &Grounds,
) -> Result<(), NoMemory>
    requires rules { AreRuleGrounds sayings.now.spec grounds.now.rules }
    requires copies { AreCopyGrounds sayings.now.spec grounds.now.copies }
    ensures { OnOk result (AddsAll sayings.now grounds.now.rules grounds.now.copies steps.old steps.new) }
{
    given(sayings, steps)?;
    ruled(alloc, sayings, steps, scratch, &grounds.rules)?;
    copied(sayings, steps, &mut scratch.distinct, &grounds.copies)?;
    put_wanted(sayings, steps, scratch)
}
