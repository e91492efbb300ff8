ghost use Rattle.std.specs.Prelude.{◌≡◌, ◌+◌, ℕ, true, Ok, Err, IfOk, option_map};
ghost use Rattle.refutation_log.specs.Counted.{counted_steps};
ghost use Rattle.search_logs.specs.SearchLogs.{IsWithin};
ghost use Rattle.report_model.specs.Verdicts.{is_decided, kind_of};
ghost use Rattle.report_verify.specs.Asked.{query_of};
ghost use Rattle.report_verify.specs.Right.{IsRight};
ghost use Rattle.report_verify.specs.Shown.{ShowsVerdict};
ghost use Rattle.report_write.specs.Writable.{IsWritableReport};
ghost use Rattle.spec_model.specs.Completion.{Rankings};
ghost use Rattle.spec_model.specs.Consistent.{IsConsistent};
ghost use Rattle.spec_model.specs.Questions.{IsQuestionOn};
ghost use Rattle.spec_model.specs.declared.question.Question.TheVariants as asked;
ghost use Rattle.currency_ask.specs.Answered.{HasTooMany, IsAnswerWithin, IsDecidedBy, NamesFirst, currents_of};
ghost use Rattle.currency_ask.specs.Reported.{IsReported, IsSearchFor};
ghost use Rattle.currency_ask.specs.declared.fault.AskFault.TheVariants as fault;

use crate::AskFault;
use crate::answers::answers;
use crate::currents::same;
use crate::pairs::certain;
use crate::reporting::{ended, listed, one};
use certain_answers::{discard, relations_of};
use currency_base::{NoMemory, TupleList};
use order_search::{Outcome, Search};
use query_model::Query;
use report_model::{Report, Verdict};
use report_verify::shown_is_right;
use search_logs::completions_are_writable;
use solver_guides::Guides;
use spec_model::{Completion, Question, RelList, Specification};
use std::alloc::Global;
use watch_solver::Budget;

/// Answers a question about a specification, within a budget of clauses that may be learned: a report that shows
/// its verdict, or that the budget is spent. The guides steer the search, whatever they pick.
///
/// Asked pairs are decided in the order in which they are asked, and the first that fails is named. A place at which
/// current values differ is any one that does. A query that has more than 1,000,000 answers over the completion that is
/// found first is not answered.
pub fn answer(
    alloc: Global,
    spec: &Specification,
    question: &Question,
    budget: u64,
    guides: &mut Guides,
) -> Result<Report, AskFault>
    requires within { IsWithin spec.now }
    requires question { IsQuestionOn spec.now.relations question.now }
    ensures shown { IfOk result (ShowsVerdict spec.now question.now) }
    ensures right { IfOk result (λ r. is_decided (kind_of r.verdict) ≡ true → IsRight spec.now question.now r.verdict) }
    ensures writable { IfOk result (IsWritableReport spec.now.relations) }
    ensures lists { IfOk result (IsAnswerWithin spec.now question.now budget) }
    ensures enough { IfOk result (IsDecidedBy spec.now question.now budget) }
    ensures first { IfOk result (λ r. NamesFirst spec.now question.now r.verdict) }
    ensures too_many { (c : Rankings) → result ≡ Err (fault.TooMany c) → HasTooMany spec.now question.now c }
{
    shown_is_right();
    answered(alloc, spec, question, budget, guides)
}

// The same, and nothing of what follows from it.
fn answered(
    alloc: Global,
    spec: &Specification,
    question: &Question,
    budget: u64,
    guides: &mut Guides,
) -> Result<Report, AskFault>
    requires within { IsWithin spec.now }
    requires question { IsQuestionOn spec.now.relations question.now }
    ensures report { IfOk result (IsReported spec.now question.now budget) }
    ensures too_many { (c : Rankings) → result ≡ Err (fault.TooMany c) → HasTooMany spec.now question.now c }
{
    match searched(alloc, spec, question, guides) {
        Ok(search) => decided(alloc, spec, question, search, budget, guides),
        Err(_) => Err(AskFault::NoMemory),
    }
}

/// Answers a question as `answer` does, beginning from a consistent completion that is known: what `answer` finds first is
/// not looked for. The guides' first guess is as it was.
pub fn answer_from(
    alloc: Global,
    spec: &Specification,
    question: &Question,
    first: Completion,
    budget: u64,
    guides: &mut Guides,
) -> Result<Report, AskFault>
    requires within { IsWithin spec.now }
    requires question { IsQuestionOn spec.now.relations question.now }
    requires first { IsConsistent spec.now first }
    ensures shown { IfOk result (ShowsVerdict spec.now question.now) }
    ensures right { IfOk result (λ r. is_decided (kind_of r.verdict) ≡ true → IsRight spec.now question.now r.verdict) }
    ensures writable { IfOk result (IsWritableReport spec.now.relations) }
    ensures lists { IfOk result (IsAnswerWithin spec.now question.now budget) }
    ensures enough { IfOk result (IsDecidedBy spec.now question.now budget) }
    ensures first { IfOk result (λ r. NamesFirst spec.now question.now r.verdict) }
    ensures too_many { (c : Rankings) → result ≡ Err (fault.TooMany c) → HasTooMany spec.now question.now c }
{
    shown_is_right();
    answered_from(alloc, spec, question, first, budget, guides)
}

// The same, and nothing of what follows from it.
fn answered_from(
    alloc: Global,
    spec: &Specification,
    question: &Question,
    first: Completion,
    budget: u64,
    guides: &mut Guides,
) -> Result<Report, AskFault>
    requires within { IsWithin spec.now }
    requires question { IsQuestionOn spec.now.relations question.now }
    requires first { IsConsistent spec.now first }
    ensures report { IfOk result (IsReported spec.now question.now budget) }
    ensures too_many { (c : Rankings) → result ≡ Err (fault.TooMany c) → HasTooMany spec.now question.now c }
{
    match question {
        Question::Consistent => or_no_memory(consistent(alloc, spec, first)),
        Question::Answers(query) => answers(alloc, spec, query, first, budget, guides),
        _ => claimed_from(alloc, spec, question, first, budget, guides),
    }
}

// The same, by a search in which nothing is decided yet.
fn claimed_from(
    alloc: Global,
    spec: &Specification,
    question: &Question,
    first: Completion,
    budget: u64,
    guides: &mut Guides,
) -> Result<Report, AskFault>
    requires within { IsWithin spec.now }
    requires question { IsQuestionOn spec.now.relations question.now }
    requires first { IsConsistent spec.now first }
    ensures report { IfOk result (IsReported spec.now question.now budget) }
    ensures too_many { (c : Rankings) → result ≡ Err (fault.TooMany c) → HasTooMany spec.now question.now c }
{
    match searched(alloc, spec, question, guides) {
        Ok(search) => {
            let units = Budget::new(budget);
            claimed(alloc, spec, question, search, first, units, budget, guides)
        }
        Err(_) => Err(AskFault::NoMemory),
    }
}

// A search for a question, in which no tuple's being an answer is numbered.
fn searched<'a>(
    alloc: Global,
    spec: &'a Specification,
    question: &'a Question,
    guides: &mut Guides,
) -> Result<Search<'a>, NoMemory>
    requires within { IsWithin spec.now }
    ensures spec { IfOk result (λ search. search.spec ≡ spec.now) }
    ensures asked { IfOk result (IsSearchFor question.now) }
    ensures uncounted { IfOk result (λ search. counted_steps search.log.steps ≡ 0) }
{
    let currents = match currents_for(alloc, question) {
        Ok(currents) => currents,
        Err(error) => return Err(error),
    };
    Search::new(
        alloc,
        spec,
        query_of(question),
        currents,
        TupleList::new(alloc),
        guides,
    )
}

// The query that is asked, if one is.
fn query_of(question: &Question) -> Option<&Query>
    ensures { option_map (λ q. q.now) result ≡ query_of question.now }
{
    match question {
        Question::Answers(query) => Some(query),
        _ => None,
    }
}

// The report, once it is decided whether there is a consistent completion.
fn decided(
    alloc: Global,
    spec: &Specification,
    question: &Question,
    mut search: Search<'_>,
    budget: u64,
    guides: &mut Guides,
) -> Result<Report, AskFault>
    requires within { IsWithin spec.now }
    requires spec { search.spec ≡ spec.now }
    requires question { IsQuestionOn spec.now.relations question.now }
    requires asked { IsSearchFor question.now search }
    requires uncounted { counted_steps search.log.steps ≡ 0 }
    ensures report { IfOk result (IsReported spec.now question.now budget) }
    ensures too_many { (c : Rankings) → result ≡ Err (fault.TooMany c) → HasTooMany spec.now question.now c }
{
    let mut units = Budget::new(budget);
    match search.decide(alloc, None, &mut units, guides) {
        Ok(Outcome::Model { completion, .. }) => claimed(
            alloc, spec, question, search, completion, units, budget, guides,
        ),
        Ok(Outcome::Proved(_)) => unreachable!(),
        Ok(Outcome::Empty(place)) => or_no_memory(ended(
            alloc,
            search,
            Outcome::Empty(place),
            budget,
        )),
        Ok(Outcome::Spent) => or_no_memory(ended(alloc, search, Outcome::Spent, budget)),
        Err(_) => {
            discard(search);
            Err(AskFault::NoMemory)
        }
    }
}

// The report, once a consistent completion is found.
fn claimed(
    alloc: Global,
    spec: &Specification,
    question: &Question,
    search: Search<'_>,
    first: Completion,
    units: Budget,
    budget: u64,
    guides: &mut Guides,
) -> Result<Report, AskFault>
    requires within { IsWithin spec.now }
    requires spec { search.spec ≡ spec.now }
    requires question { IsQuestionOn spec.now.relations question.now }
    requires first { IsConsistent spec.now first }
    requires asked { IsSearchFor question.now search }
    requires units { counted_steps search.log.steps + units ≡ budget }
    ensures report { IfOk result (IsReported spec.now question.now budget) }
    ensures too_many { (c : Rankings) → result ≡ Err (fault.TooMany c) → HasTooMany spec.now question.now c }
{
    match question {
        Question::Consistent => {
            discard(search);
            or_no_memory(consistent(alloc, spec, first))
        }
        Question::Certain(pairs) => or_no_memory(certain(
            alloc, spec, pairs, search, first, units, budget, guides,
        )),
        Question::Same(rels) => or_no_memory(same(
            alloc, spec, rels, search, first, units, budget, guides,
        )),
        Question::Answers(query) => {
            discard(search);
            answers(alloc, spec, query, first, budget, guides)
        }
    }
}

// A report, or that memory is wanting.
fn or_no_memory(report: Result<Report, NoMemory>) -> Result<Report, AskFault>
    ensures report { IfOk result (λ r. report ≡ Ok r) }
    ensures no_memory { (c : Rankings) → result ≡ Err (fault.TooMany c) → ⊥ }
{
    match report {
        Ok(report) => Ok(report),
        Err(_) => Err(AskFault::NoMemory),
    }
}

// A consistent completion: it is listed, and the log is not needed.
fn consistent(
    alloc: Global,
    spec: &Specification,
    completion: Completion,
) -> Result<Report, NoMemory>
    requires within { IsWithin spec.now }
    requires consistent { IsConsistent spec.now completion }
    ensures { (budget : ℕ) → IfOk result (IsReported spec.now asked.Consistent budget) }
{
    completions_are_writable();
    let _relations = spec.relations();
    match one(alloc, completion) {
        Ok(completions) => Ok(listed(alloc, Verdict::Consistent, completions)),
        Err(error) => Err(error),
    }
}

// The relations whose current tuples a question asks about.
fn currents_for(alloc: Global, question: &Question) -> Result<RelList, NoMemory>
    ensures { IfOk result (λ currents. currents ≡ currents_of question.now) }
{
    match question {
        Question::Same(rels) => copied(alloc, rels),
        Question::Answers(query) => relations_of(alloc, query),
        _ => Ok(RelList::new(alloc)),
    }
}

// The same relations.
fn copied(alloc: Global, rels: &RelList) -> Result<RelList, NoMemory>
    ensures { IfOk result (λ copy. copy ≡ rels.now) }
{
    let mut copy = RelList::new(alloc);
    for place in 0..rels.len() {
        match copy.push(*rels.get(place)) {
            Ok(()) => {}
            Err(error) => return Err(error),
        }
    }
    Ok(copy)
}
