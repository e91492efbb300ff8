ghost use Rattle.std.specs.Prelude.{IfOk, length};
ghost use Rattle.possible_values.specs.Candidates.{AreCandidates};
ghost use Rattle.possible_values.specs.Possible.{IsPossible};
ghost use Rattle.possible_values.specs.Steps.{AreDenials, AreSome};
ghost use Rattle.search_logs.specs.SearchLogs.{IsWithin};
ghost use Rattle.decided_facts.specs.Steps.{AreMarked};
ghost use Rattle.spec_model.specs.Questions.{IsQuestionOn};
ghost use Rattle.spec_model.specs.Spec.{Spec};

use crate::candidates::{CandidateList, candidates};
use crate::facts::denials;
use crate::found::{FactList, Found, Posed, Possible};
use crate::known::{Known, first_known};
use currency_base::NoMemory;
use decided_facts::{FactOutcome, decide_facts};
use posed_facts::Fact;
use report_model::CompletionList;
use solver_guides::Guides;
use spec_model::{Question, Specification};
use std::alloc::Global;

/// What may hold: of each candidate of a question whether it holds in some consistent completion, and in which. Where it has
/// too many candidates, nothing is decided. Each question that is put on the way has the budget of clauses that may be learned.
/// The guides steer the search, whatever they pick.
pub fn possible(
    alloc: Global,
    spec: &Specification,
    question: &Question,
    budget: u64,
    guides: &mut Guides,
) -> Result<Possible, NoMemory>
    requires within { IsWithin spec.now }
    requires question { IsQuestionOn spec.now.relations question.now }
    ensures { IfOk result (IsPossible spec.now question.now budget) }
{
    match candidates(alloc, spec, question) {
        Ok(Some(list)) => of_candidates(alloc, spec, question, list, budget, guides),
        Ok(None) => Ok(Possible::TooMany),
        Err(NoMemory) => Err(NoMemory),
    }
}

/// The same, where the candidates are listed.
fn of_candidates(
    alloc: Global,
    spec: &Specification,
    question: &Question,
    candidates: CandidateList,
    budget: u64,
    guides: &mut Guides,
) -> Result<Possible, NoMemory>
    requires within { IsWithin spec.now }
    requires question { IsQuestionOn spec.now.relations question.now }
    requires candidates { AreCandidates spec.now.relations question.now candidates }
    ensures { IfOk result (IsPossible spec.now question.now budget) }
{
    match first_known(alloc, spec, question, budget, guides) {
        Ok(Known::Inconsistent(report)) => Ok(Possible::Inconsistent(report)),
        Ok(Known::Completions(list)) => {
            of_completions(alloc, spec, question, candidates, list, budget, guides)
        }
        Ok(Known::Open(report)) => Ok(Possible::Undecided {
            posed: Posed::Consistent,
            report,
        }),
        Err(NoMemory) => Err(NoMemory),
    }
}

/// The same, where some consistent completions are known.
fn of_completions(
    alloc: Global,
    spec: &Specification,
    question: &Question,
    candidates: CandidateList,
    known: CompletionList,
    budget: u64,
    guides: &mut Guides,
) -> Result<Possible, NoMemory>
    requires within { IsWithin spec.now }
    requires question { IsQuestionOn spec.now.relations question.now }
    requires candidates { AreCandidates spec.now.relations question.now candidates }
    requires known { AreSome spec.now known }
    ensures { IfOk result (IsPossible spec.now question.now budget) }
{
    let facts = denials(alloc, spec, question, candidates.as_slice())?;
    of_facts(
        alloc, spec, question, candidates, facts, known, budget, guides,
    )
}

/// The same, where the facts that the candidates do not hold are listed.
fn of_facts(
    alloc: Global,
    spec: &Specification,
    question: &Question,
    candidates: CandidateList,
    facts: FactList,
    known: CompletionList,
    budget: u64,
    guides: &mut Guides,
) -> Result<Possible, NoMemory>
    requires within { IsWithin spec.now }
    requires question { IsQuestionOn spec.now.relations question.now }
    requires candidates { AreCandidates spec.now.relations question.now candidates }
    requires facts { AreDenials spec.now.relations question.now candidates (length candidates) facts }
    requires known { AreSome spec.now known }
    ensures { IfOk result (IsPossible spec.now question.now budget) }
{
    let holds = none_marked(alloc, facts.as_slice())?;
    match decide_facts(alloc, spec, facts.as_slice(), holds, known, budget, guides) {
        Ok(FactOutcome::All { completions, shown }) => Ok(Possible::Found(Found {
            candidates,
            facts,
            completions,
            shown,
        })),
        Ok(FactOutcome::Open { place, report }) => {
            let posed = Posed::Fact(facts.into_items().remove(place));
            Ok(Possible::Undecided { posed, report })
        }
        Err(NoMemory) => Err(NoMemory),
    }
}

/// That of none of these facts it is known that it holds.
fn none_marked(alloc: Global, facts: &[Fact]) -> Result<Vec<bool>, NoMemory>
    ensures { IfOk result (λ holds. (s : Spec) → AreMarked s facts.now holds.items) }
{
    let holds = vec![in alloc; false; facts.len()]?;
    Ok(holds)
}
