ghost use Rattle.std.specs.Prelude.{◌≡◌, IfOk, IfErr, option_map};
ghost use Rattle.std.specs.List.{list_any};
ghost use Rattle.log_checker.specs.Accepted.{IsAccepted};
ghost use Rattle.refutation_log.specs.Numbered.{IsNumbered};
ghost use Rattle.log_checker.specs.Shown.{is_empty};
ghost use Rattle.refutation_log.specs.Steps.{clauses_of};
ghost use Rattle.refutation_log.specs.declared.log.Log.{Log as LogOf};
ghost use Rattle.report_verify.specs.Asked.{query_of};
ghost use Rattle.report_verify.specs.Judged.{IsBadIn, IsShownOf};
ghost use Rattle.report_verify.specs.Shown.{step_of_fault};

use crate::{Unshown, VerifyFault};
use log_checker::{Checked, LogFault, check};
use refutation_log::Log;
use report_model::Part;
use spec_model::{Query, Question, Specification};
use std::alloc::Global;

// Is the log accepted, and what does it then show? Otherwise what it fails first. A log with no step needs no
// check, which would index the rows of the specification.
pub(crate) fn check_log(
    alloc: Global,
    spec: &Specification,
    question: &Question,
    log: &Log,
) -> Result<Option<Checked>, VerifyFault>
    requires { IsNumbered log.now.statements log.now.steps }
    ensures accepted { IfOk result (λ _. IsAccepted spec.now (query_of question.now) log.now) }
    ensures shown { IfOk result (IsShownOf log.now) }
    ensures bad { IfErr result (IsBadIn spec.now (query_of question.now) log.now) }
{
    if log.steps.len() == 0 {
        return Ok(None);
    }
    match check(alloc, spec, query_of(question), log) {
        Ok(checked) => Ok(Some(checked)),
        Err(fault) => match step_of(fault) {
            Some(step) => Err(VerifyFault::Refused {
                part: Part::Step(step),
                why: Unshown::BadLog(fault),
            }),
            None => Err(VerifyFault::NoMemory),
        },
    }
}

// The query of a question, if it asks for answers.
fn query_of(question: &Question) -> Option<&Query>
    ensures { option_map (λ q. q.now) result ≡ query_of question.now }
{
    match question {
        Question::Answers(query) => Some(query),
        _ => None,
    }
}

// Has a log the empty clause, where this is what it shows?
pub(crate) fn has_empty(checked: &Option<Checked>) -> bool
    ensures { (log : LogOf) → IsShownOf log checked.now → result ≡ list_any is_empty (clauses_of log.steps) }
{
    match checked {
        Some(checked) => checked.has_empty(),
        None => false,
    }
}

// The step that a fault names; want of memory names none.
fn step_of(fault: LogFault) -> Option<u32>
    ensures { result ≡ step_of_fault fault }
{
    match fault {
        LogFault::NotAnAxiom { step } => Some(step),
        LogFault::NotDerived { step, .. } => Some(step),
        LogFault::UnknownHint { step } => Some(step),
        LogFault::NoMemory => None,
    }
}
