//! The report on the question whether an impossible candidate's fact holds.

ghost use Rattle.std.specs.Prelude.{IfOk, Err};
ghost use Rattle.bound_spec.specs.Growth.{IsWithinLimits};
ghost use Rattle.command_stages.specs.Named.{IsDeterminedTrouble, IsReadFault};
ghost use Rattle.command_stages.specs.declared.done.Done.{Done};
ghost use Rattle.posed_facts.specs.Facts.{IsPosable};
ghost use Rattle.posed_facts.specs.Questions.{fact_question};
ghost use Rattle.report_write.specs.Writable.{IsWritableReport};
ghost use Rattle.answer_texts.specs.Answers.{IsAnswer};

use answer_texts::report_on;
use bound_spec::is_specification;
use command_stages::Trouble;
use currency_base::NoMemory;
use posed_facts::{Fact, fact_question, facts_are_asked};
use report_model::Report;
use solver_guides::Guides;
use spec_model::Specification;
use std::alloc::Global;

/// The report that answers the question for a fact.
pub(crate) fn report_for(
    alloc: Global,
    spec: &Specification,
    fact: &Fact,
    budget: u64,
    guides: &mut Guides,
) -> Result<Report, NoMemory>
    requires within { IsWithinLimits spec.now }
    requires fact { IsPosable spec.now.relations fact.now }
    ensures answer { IfOk result (IsAnswer spec.now (fact_question spec.now.relations fact.now) budget) }
    ensures writable { IfOk result (IsWritableReport spec.now.relations) }
{
    is_specification(spec);
    facts_are_asked();
    let question = fact_question(alloc, spec, fact)?;
    match report_on(alloc, spec, &question, budget, guides) {
        Ok(report) => Ok(report),
        Err(trouble) => Err(wanting(trouble)),
    }
}

/// A trouble at a question for one fact, which has no more than one answer.
fn wanting(trouble: Trouble) -> NoMemory
    requires few { IsDeterminedTrouble trouble → ⊥ }
    requires inside { IsReadFault {A = Done} (Err trouble) → ⊥ }
{
    match trouble {
        Trouble::NoMemory => NoMemory,
        _ => unreachable!(),
    }
}
